// The first level of a packed key, put into a buffer.
#![tactic(auto, using(crate::proofs::WeighingLemmas::weight_steps))]

ghost use Rattle.std.specs.Prelude.{◌≡◌, ◌↔◌, ◌==◌, ◌≤◌, ◌<◌, ◌+◌, ◌*◌, ◌-◌, ◌^◌, ◌/◌, ◌%◌, ◌++◌, ◌∷◌, [], ℕ, List, if◌then◌else◌, nat_lt, not, filter, length, take, drop, true, false, IfSome, IfNone, IsSome};
ghost use Rattle.uca_weights.specs.VariableWeighting.{weighted};
ghost use Rattle.uca_model.specs.LevelWeights.{level_weights};
ghost use Rattle.uca_model.specs.SortKey.{weight_bytes};
ghost use Rattle.uca_key.specs.Reach.{first_left, state_of};
ghost use Rattle.uca_key.specs.Pieces.{weights_of};
ghost use Rattle.uca_key.specs.Placing.{IsPutting, PutsAt, StaysAfter, StaysBeyond};
ghost use Rattle.uca_key.specs.PrimaryCode.{PrimaryCode, after_slot, base_after, has_page, is_common, is_in_window, is_single, lead, letter_bytes, primary_bytes, primary_level, second_bytes, slot, start, state_after};
ghost use Rattle.uca_key.specs.WeightCodes.{AreShort, IsAlone, IsWindow};
ghost use Rattle.uca_key.specs.Weighing.{all_own};

use crate::packed_code::PackedCode;
use crate::pieces::{PIECE, TextReading};
use crate::placing::{has_room_for_end, put_bytes};
use crate::windows::Window;
use uca_levels::primary_weight;
use uca_weights::{Element, Variable};

// The most bytes that one weight takes.
const LETTER: usize = 3;

// How much room is asked for each weight: more than it takes, so that no division tells how many fit.
const LETTER_ROOM: usize = 4;

// Puts the low byte of a weight.
#[inline(always)]
fn put_low(w: u16, key: &mut [u8], at: usize) -> usize
    requires { at + 1 ≤ length key.old }
    ensures bytes { take result key.new ≡ take at key.old ++ (w % 256) ∷ [] }
    ensures within { result ≤ at + 1 }
    ensures stays { StaysAfter at result key.old key.new }
{
    key[at] = (w % 256) as u8;
    at + 1
}

// Puts both bytes of a weight, the high one first.
fn put_pair(w: u16, key: &mut [u8], at: usize) -> usize
    requires { at + 2 ≤ length key.old }
    ensures bytes { take result key.new ≡ take at key.old ++ weight_bytes w }
    ensures within { result ≤ at + 2 }
    ensures stays { StaysAfter at result key.old key.new }
{
    let [high, low] = w.to_be_bytes();
    key[at] = high;
    key[at + 1] = low;
    at + 2
}

// Puts what follows the lead of a weight that has no byte of its own.
#[inline(always)]
fn put_after_lead(w: u16, key: &mut [u8], at: usize) -> usize
    requires { at + 2 ≤ length key.old }
    ensures bytes { take result key.new ≡ take at key.old ++ (if has_page w then (w % 256) ∷ [] else weight_bytes w) }
    ensures within { result ≤ at + 2 }
    ensures stays { StaysAfter at result key.old key.new }
{
    if w < 0x6C00 {
        return put_low(w, key, at);
    }
    if w / 256 == 0xFB {
        return put_low(w, key, at);
    }
    put_pair(w, key, at)
}

// Whether a window has the slot of a weight.
#[inline(always)]
fn is_in_window(code: &PackedCode, window: &Window, w: u16) -> bool
    requires { IsWindow code.now window.now }
    ensures { result ≡ is_in_window code.now window.now.base w }
{
    window.has_slot(code.of(w).slot)
}

// Puts a weight that the window has.
#[inline(always)]
fn put_inside(code: &PackedCode, window: &Window, w: u16, key: &mut [u8], at: usize) -> usize
    requires window { IsWindow code.now window.now }
    requires inside { is_in_window code.now window.now.base w ≡ true }
    requires room { at + 2 ≤ length key.old }
    ensures bytes { take result key.new ≡ take at key.old ++ letter_bytes code.now window.now.base w }
    ensures within { result ≤ at + 2 }
    ensures stays { StaysAfter at result key.old key.new }
{
    let own = code.of(w);
    key[at] = window.slot_byte(own.slot);
    if own.common {
        return at + 1;
    }
    put_low(w, key, at + 1)
}

// Puts a weight that the window does not have, and that may have a byte of its own.
#[inline(always)]
fn put_outside(code: &PackedCode, window: &Window, w: u16, key: &mut [u8], at: usize) -> usize
    requires window { IsWindow code.now window.now }
    requires outside { is_in_window code.now window.now.base w ≡ false }
    requires room { at + 3 ≤ length key.old }
    ensures bytes { take result key.new ≡ take at key.old ++ letter_bytes code.now window.now.base w }
    ensures within { result ≤ at + 3 }
    ensures stays { StaysAfter at result key.old key.new }
{
    let own = code.of(w);
    key[at] = window.lead_byte(own.slot, own.lead);
    if own.single {
        return at + 1;
    }
    put_after_lead(w, key, at + 1)
}

// Puts a weight after the first one of an implicit pair.
fn put_second(w: u16, key: &mut [u8], at: usize) -> usize
    requires { at + 3 ≤ length key.old }
    ensures bytes { take result key.new ≡ take at key.old ++ second_bytes w }
    ensures within { result ≤ at + 3 }
    ensures stays { StaysAfter at result key.old key.new }
{
    if w < 0x8000 {
        key[at] = 1;
        return put_pair(w, key, at + 1);
    }
    put_pair(w, key, at)
}

// The window after a weight that this one does not have.
#[inline(always)]
fn window_after<'c>(code: &'c PackedCode, window: &'c Window, w: u16) -> &'c Window
    requires window { IsWindow code.now window.now }
    requires outside { is_in_window code.now window.now.base w ≡ false }
    ensures base { result.now.base ≡ base_after code.now window.now.base w }
    ensures window { IsWindow code.now result.now }
{
    match code.next_window(w) {
        Some(next) => next,
        None => window,
    }
}

// What the weights before leave to the next one: a window, and how many weights of an implicit pair are due, one or none. That is a whole
// word: a field after which bytes are unused is copied with them, by parts that overlap, and then the processor waits for its own stores.
#[derive(Clone, Copy)]
struct Reach<'c> {
    window: &'c Window,
    due: usize,
}

// How many weights of an implicit pair are due after a weight, where none was due before.
#[inline(always)]
fn due_after(w: u16) -> usize
    ensures { nat_lt 0 result ≡ (w / 256 == 0xFB) }
{
    if w / 256 == 0xFB { 1 } else { 0 }
}

// How far a first level is put: the place after its bytes, and what its weights leave to the next one.
#[derive(Clone, Copy)]
struct Placed<'c> {
    at: usize,
    reach: Reach<'c>,
}

// Puts a weight.
#[inline(always)]
fn put_weight<'c>(code: &'c PackedCode, before: Placed<'c>, w: u16, key: &mut [u8]) -> Placed<'c>
    requires window { IsWindow code.now before.reach.window.now }
    requires room { before.at + 3 ≤ length key.old }
    ensures bytes { take result.at key.new ≡ take before.entry.at key.old ++ primary_bytes code.now (state_of before.entry.reach) w }
    ensures after { state_of result.reach ≡ state_after code.now (state_of before.entry.reach) w }
    ensures window { IsWindow code.now result.reach.window.now }
    ensures within { result.at ≤ before.entry.at + 3 }
    ensures stays { StaysAfter before.entry.at result.at key.old key.new }
{
    let window = before.reach.window;
    if before.reach.due > 0 {
        return Placed {
            at: put_second(w, key, before.at),
            reach: Reach { window, due: 0 },
        };
    }
    let due = due_after(w);
    if is_in_window(code, window, w) {
        return Placed {
            at: put_inside(code, window, w, key, before.at),
            reach: Reach { window, due },
        };
    }
    Placed {
        at: put_outside(code, window, w, key, before.at),
        reach: Reach {
            window: window_after(code, window, w),
            due,
        },
    }
}

// The same of a weight that may be zero, which is left out.
#[inline(always)]
fn put_some<'c>(code: &'c PackedCode, before: Placed<'c>, w: u16, key: &mut [u8]) -> Placed<'c>
    requires window { IsWindow code.now before.reach.window.now }
    requires room { before.at + 3 ≤ length key.old }
    ensures bytes { (ws : List ℕ) → take result.at key.new ++ primary_level code.now (state_of result.reach) ws ≡ take before.entry.at key.old ++ primary_level code.now (state_of before.entry.reach) (filter (λ x. not (x == 0)) (w ∷ []) ++ ws) }
    ensures window { IsWindow code.now result.reach.window.now }
    ensures within { result.at ≤ before.entry.at + 3 }
    ensures stays { StaysAfter before.entry.at result.at key.old key.new }
{
    if w == 0 {
        return before;
    }
    put_weight(code, before, w, key)
}

// Puts a weight that the window does not have, has no byte of its own, and moves the window: most letters after one of another script.
// It puts none of any others.
#[inline(always)]
fn put_letter<'c>(
    code: &'c PackedCode,
    before: Placed<'c>,
    w: u16,
    key: &mut [u8],
) -> Option<Placed<'c>>
    requires window { IsWindow code.now before.reach.window.now }
    requires room { before.at + 3 ≤ length key.old }
    ensures bytes { IfSome result (λ p. (ws : List ℕ) → take p.at key.new ++ primary_level code.now (state_of p.reach) ws ≡ take before.entry.at key.old ++ primary_level code.now (state_of before.entry.reach) (filter (λ x. not (x == 0)) (w ∷ []) ++ ws)) }
    ensures window { IfSome result (λ p. IsWindow code.now p.reach.window.now) }
    ensures within { IfSome result (λ p. p.at ≤ before.entry.at + 3) }
    ensures stays { IfSome result (λ p. StaysAfter before.entry.at p.at key.old key.new) }
    ensures none { IfNone result (key.new ≡ key.old) }
{
    let Reach { window, due } = before.reach;
    if w == 0 || w >= 0x6C00 || due > 0 || is_in_window(code, window, w) {
        return None;
    }
    let next = code.next_window(w)?;
    let own = code.of(w);
    key[before.at] = window.lead_byte(own.slot, own.lead);
    Some(Placed {
        at: put_low(w, key, before.at + 1),
        reach: Reach {
            window: next,
            due: 0,
        },
    })
}

// The byte of a weight, if it takes only one in a window, or if it is zero.
#[inline(always)]
fn short_byte(bytes: &[u8], w: u16) -> Option<u8>
    ensures { (k : PrimaryCode) (base : ℕ) → AreShort k base bytes.now → 0 < w → IfSome result (IsAlone false k base w) }
{
    if w as usize >= bytes.len() {
        return None;
    }
    let byte = bytes[w as usize];
    if byte == 0 { None } else { Some(byte) }
}

// Puts a weight that takes this byte alone, unless it is zero. For a zero the next byte is put over this one: no branch depends on which
// weights are zero.
#[inline(always)]
fn put_short(code: &PackedCode, reach: Reach, w: u16, byte: u8, key: &mut [u8], at: usize) -> usize
    requires first { reach.due ≡ 0 }
    requires short { 0 < w → IsAlone false code.now reach.window.now.base w byte }
    requires room { at + 1 ≤ length key.old }
    ensures bytes { (ws : List ℕ) → take result key.new ++ primary_level code.now (state_of reach.entry) ws ≡ take at key.old ++ primary_level code.now (state_of reach.entry) (filter (λ x. not (x == 0)) (w ∷ []) ++ ws) }
    ensures within { result ≤ at + 1 }
    ensures stays { StaysBeyond at result key.old key.new }
{
    key[at] = byte;
    at + (w != 0) as usize
}

// Puts an implicit pair whose first weight takes this byte alone.
#[inline(always)]
fn put_implicit(
    code: &PackedCode,
    reach: Reach,
    w: u16,
    byte: u8,
    second: u16,
    key: &mut [u8],
    at: usize,
) -> usize
    requires first { reach.due ≡ 0 }
    requires byte { IsAlone true code.now reach.window.now.base w byte }
    requires next { 0x8000 ≤ second }
    requires room { at + 3 ≤ length key.old }
    ensures bytes { (ws : List ℕ) → take result key.new ++ primary_level code.now (state_of reach.entry) ws ≡ take at key.old ++ primary_level code.now (state_of reach.entry) (filter (λ x. not (x == 0)) (w ∷ []) ++ (filter (λ x. not (x == 0)) (second ∷ []) ++ ws)) }
    ensures within { result ≤ at + 3 }
    ensures stays { StaysAfter at result key.old key.new }
{
    key[at] = byte;
    put_pair(second, key, at + 1)
}

// How far the weights of some elements are put: the place after their bytes, and how many elements they are of.
#[derive(Clone, Copy)]
struct Progress {
    at: usize,
    elements: usize,
}

// Puts the weights of elements from one on, as long as each takes one byte in the window, or none, and leaves the window as it is. Most of a
// text is put here, so it asks little.
#[inline(always)]
fn put_shorts(
    code: &PackedCode,
    v: Variable,
    before: Placed,
    elements: &[Element],
    from: usize,
    key: &mut [u8],
) -> Progress
    requires window { IsWindow code.now before.reach.window.now }
    requires some { from ≤ length elements.now }
    requires room { before.at + length elements.now ≤ length key.old + from }
    ensures bytes { (ws : List ℕ) → take result.at key.new ++ primary_level code.now (state_of before.entry.reach) (level_weights 1 (weighted v (drop result.elements elements.now)) ++ ws) ≡ take before.entry.at key.old ++ primary_level code.now (state_of before.entry.reach) (level_weights 1 (weighted v (drop from elements.now)) ++ ws) }
    ensures within { result.at + from ≤ before.entry.at + result.elements }
    ensures more { from ≤ result.elements }
    ensures some { result.elements ≤ length elements.now }
    ensures stays { StaysBeyond before.entry.at result.at key.old key.new }
{
    let reach = before.reach;
    let bytes = reach.window.bytes();
    let mut at = before.at;
    let mut n = from;
    if reach.due > 0 {
        return Progress { at, elements: n };
    }
    'each: while n < elements.len() {
        let w = primary_weight(v, &elements[n]);
        let Some(byte) = short_byte(bytes, w) else {
            return Progress { at, elements: n };
        };
        at = put_short(code, reach, w, byte, key, at);
        n += 1;
    }
    Progress { at, elements: n }
}

// Puts the weights of two elements from one on if they are an implicit pair whose first weight has a byte of its own outside the window, as
// those of ideographs have. It puts none of any others.
#[inline(always)]
fn put_pair_of(
    code: &PackedCode,
    v: Variable,
    before: Placed,
    elements: &[Element],
    from: usize,
    key: &mut [u8],
) -> Option<Progress>
    requires window { IsWindow code.now before.reach.window.now }
    requires some { from ≤ length elements.now }
    requires room { before.at + 3 * length elements.now ≤ length key.old + 3 * from }
    ensures bytes { IfSome result (λ p. (ws : List ℕ) → take p.at key.new ++ primary_level code.now (state_of before.entry.reach) (level_weights 1 (weighted v (drop p.elements elements.now)) ++ ws) ≡ take before.entry.at key.old ++ primary_level code.now (state_of before.entry.reach) (level_weights 1 (weighted v (drop from elements.now)) ++ ws)) }
    ensures within { IfSome result (λ p. p.at + 3 * from ≤ before.entry.at + 3 * p.elements) }
    ensures more { IfSome result (λ p. from < p.elements) }
    ensures some { IfSome result (λ p. p.elements ≤ length elements.now) }
    ensures stays { IfSome result (λ p. StaysAfter before.entry.at p.at key.old key.new) }
    ensures none { IfNone result (key.new ≡ key.old) }
{
    let reach = before.reach;
    if elements.len() - from < 2 || reach.due > 0 {
        return None;
    }
    let w = primary_weight(v, &elements[from]);
    let byte = reach.window.first_byte(w)?;
    let second = primary_weight(v, &elements[from + 1]);
    if second < 0x8000 {
        return None;
    }
    Some(Progress {
        at: put_implicit(code, reach, w, byte, second, key, before.at),
        elements: from + 2,
    })
}

// How far weights are put that leave the window as it is, and whether a pair is among them.
#[derive(Clone, Copy)]
struct Kept {
    progress: Progress,
    pairs: bool,
}

// Puts the weights of elements from one on, as long as they leave the window as it is: letters of one byte, and such pairs.
#[inline(always)]
fn put_kept(
    code: &PackedCode,
    v: Variable,
    before: Placed,
    elements: &[Element],
    from: usize,
    key: &mut [u8],
) -> Kept
    requires window { IsWindow code.now before.reach.window.now }
    requires some { from ≤ length elements.now }
    requires room { before.at + 3 * length elements.now ≤ length key.old + 3 * from }
    ensures bytes { (ws : List ℕ) → take result.progress.at key.new ++ primary_level code.now (state_of before.entry.reach) (level_weights 1 (weighted v (drop result.progress.elements elements.now)) ++ ws) ≡ take before.entry.at key.old ++ primary_level code.now (state_of before.entry.reach) (level_weights 1 (weighted v (drop from elements.now)) ++ ws) }
    ensures within { result.progress.at + 3 * from ≤ before.entry.at + 3 * result.progress.elements }
    ensures more { from ≤ result.progress.elements }
    ensures some { result.progress.elements ≤ length elements.now }
    ensures stays { StaysBeyond before.entry.at result.progress.at key.old key.new }
{
    let reach = before.reach;
    let mut at = before.at;
    let mut n = from;
    let mut pairs = false;
    'runs: loop {
        let short = put_shorts(code, v, Placed { at, reach }, elements, n, key);
        let letters = Placed {
            at: short.at,
            reach,
        };
        let Some(pair) = put_pair_of(code, v, letters, elements, short.elements, key) else {
            return Kept {
                progress: short,
                pairs,
            };
        };
        at = pair.at;
        n = pair.elements;
        pairs = true;
    }
}

// Puts the weight of an element, if there is one at this place.
#[inline(always)]
fn put_one<'c>(
    code: &'c PackedCode,
    v: Variable,
    before: Placed<'c>,
    elements: &[Element],
    n: usize,
    key: &mut [u8],
) -> Option<Placed<'c>>
    requires window { IsWindow code.now before.reach.window.now }
    requires some { n ≤ length elements.now }
    requires room { before.at + 3 * length elements.now ≤ length key.old + 3 * n }
    ensures inside { IfSome result (λ _. n < length elements.now) }
    ensures end { IfNone result (length elements.now ≤ n) }
    ensures bytes { IfSome result (λ p. (ws : List ℕ) → take p.at key.new ++ primary_level code.now (state_of p.reach) (level_weights 1 (weighted v (drop (n + 1) elements.now)) ++ ws) ≡ take before.entry.at key.old ++ primary_level code.now (state_of before.entry.reach) (level_weights 1 (weighted v (drop n elements.now)) ++ ws)) }
    ensures window { IfSome result (λ p. IsWindow code.now p.reach.window.now) }
    ensures within { IfSome result (λ p. p.at ≤ before.entry.at + 3) }
    ensures stays { IfSome result (λ p. StaysAfter before.entry.at p.at key.old key.new) }
    ensures none { IfNone result (key.new ≡ key.old) }
{
    if n >= elements.len() {
        return None;
    }
    let w = primary_weight(v, &elements[n]);
    if let Some(placed) = put_letter(code, before, w, key) {
        return Some(placed);
    }
    Some(put_some(code, before, w, key))
}

// What is put of weights and what they leave, and how many elements they are of.
#[derive(Clone, Copy)]
struct Step<'c> {
    placed: Placed<'c>,
    elements: usize,
}

// Puts the first weight of some elements if it is a letter that moves the window, as the first one of most texts in other scripts than
// Latin is. It puts none of any others.
#[inline(always)]
fn put_start<'c>(
    code: &'c PackedCode,
    v: Variable,
    before: Placed<'c>,
    elements: &[Element],
    key: &mut [u8],
) -> Step<'c>
    requires window { IsWindow code.now before.reach.window.now }
    requires room { before.at + 3 * length elements.now ≤ length key.old }
    ensures bytes { (ws : List ℕ) → take result.placed.at key.new ++ primary_level code.now (state_of result.placed.reach) (level_weights 1 (weighted v (drop result.elements elements.now)) ++ ws) ≡ take before.entry.at key.old ++ primary_level code.now (state_of before.entry.reach) (level_weights 1 (weighted v elements.now) ++ ws) }
    ensures window { IsWindow code.now result.placed.reach.window.now }
    ensures within { result.placed.at ≤ before.entry.at + 3 * result.elements }
    ensures some { result.elements ≤ length elements.now }
    ensures stays { StaysAfter before.entry.at result.placed.at key.old key.new }
{
    if elements.len() > 0 {
        if let Some(placed) = put_letter(code, before, primary_weight(v, &elements[0]), key) {
            return Step {
                placed,
                elements: 1,
            };
        }
    }
    Step {
        placed: before,
        elements: 0,
    }
}

// What is put of all weights of some elements, and whether a pair of a window was among them, as in texts with ideographs.
#[derive(Clone, Copy)]
struct All<'c> {
    placed: Placed<'c>,
    pairs: bool,
}

// Puts the weights of elements: together those that leave the window as it is, then one by itself, and so on.
#[inline(always)]
fn put_each<'c>(
    code: &'c PackedCode,
    v: Variable,
    before: Placed<'c>,
    elements: &[Element],
    key: &mut [u8],
) -> All<'c>
    requires window { IsWindow code.now before.reach.window.now }
    requires room { before.at + 3 * length elements.now ≤ length key.old }
    ensures bytes { (ws : List ℕ) → take result.placed.at key.new ++ primary_level code.now (state_of result.placed.reach) ws ≡ take before.entry.at key.old ++ primary_level code.now (state_of before.entry.reach) (level_weights 1 (weighted v elements.now) ++ ws) }
    ensures window { IsWindow code.now result.placed.reach.window.now }
    ensures within { result.placed.at ≤ before.entry.at + 3 * length elements.now }
    ensures stays { StaysBeyond before.entry.at result.placed.at key.old key.new }
{
    let mut step = put_start(code, v, before, elements, key);
    let mut pairs = false;
    'each: loop {
        let kept = put_kept(code, v, step.placed, elements, step.elements, key);
        let n = kept.progress.elements;
        let placed = Placed {
            at: kept.progress.at,
            reach: step.placed.reach,
        };
        pairs = pairs | kept.pairs;
        let Some(next) = put_one(code, v, placed, elements, n, key) else {
            return All { placed, pairs };
        };
        step = Step {
            placed: next,
            elements: n + 1,
        };
    }
}

// The same. Elements that keep their weights have a loop of their own, which does not ask whether one is variable.
#[inline(always)]
fn put_weights<'c>(
    code: &'c PackedCode,
    v: Variable,
    before: Placed<'c>,
    elements: &[Element],
    key: &mut [u8],
) -> All<'c>
    requires window { IsWindow code.now before.reach.window.now }
    requires room { before.at + 3 * length elements.now ≤ length key.old }
    ensures bytes { (ws : List ℕ) → take result.placed.at key.new ++ primary_level code.now (state_of result.placed.reach) ws ≡ take before.entry.at key.old ++ primary_level code.now (state_of before.entry.reach) (level_weights 1 (weighted v elements.now) ++ ws) }
    ensures window { IsWindow code.now result.placed.reach.window.now }
    ensures within { result.placed.at ≤ before.entry.at + 3 * length elements.now }
    ensures stays { StaysBeyond before.entry.at result.placed.at key.old key.new }
{
    match v {
        Variable::NonIgnorable => put_each(code, Variable::NonIgnorable, before, elements, key),
        _ => put_each(code, v, before, elements, key),
    }
}

// What the weights before the first one leave to it.
fn first_reach(code: &PackedCode) -> Reach
    ensures window { IsWindow code.now result.window.now }
    ensures state { state_of result ≡ start code.now }
{
    Reach {
        window: code.first_window(),
        due: 0,
    }
}

// Puts the weights of some elements, a piece at a time. It is not inlined, so that what fits at once has all registers.
#[inline(never)]
fn put_elements<'c>(
    code: &'c PackedCode,
    v: Variable,
    before: Placed<'c>,
    elements: &[Element],
    out: &mut [u8],
) -> Placed<'c>
    requires window { IsWindow code.now before.reach.window.now }
    requires size { length out.old < 2 ^ 64 }
    ensures bytes { (at : ℕ) (front whole ws : List ℕ) → IsPutting at front before.entry.at out.old whole (first_left code.now before.entry (level_weights 1 (all_own v elements.now) ++ ws)) → IsPutting at front result.at out.new whole (first_left code.now result ws) }
    ensures window { IsWindow code.now result.reach.window.now }
{
    let mut bytes = [0; LETTER * PIECE];
    let mut state = before;
    let mut left = elements;
    'pieces: while !left.is_empty() {
        let (piece, rest) = left.split_at(left.len().min(PIECE));
        let front = Placed {
            at: 0,
            reach: state.reach,
        };
        let all = put_weights(code, v, front, piece, &mut bytes);
        state.at = put_bytes(&bytes[..all.placed.at], state.at, out);
        state.reach = all.placed.reach;
        left = rest;
    }
    state
}

// Puts the first level of some elements at a place of a buffer, a piece at a time. It is not inlined, so that what fits at once needs no
// memory beside its registers.
#[inline(never)]
fn put_in_pieces(
    code: &PackedCode,
    v: Variable,
    elements: &[Element],
    at: usize,
    out: &mut [u8],
) -> usize
    requires size { length out.old < 2 ^ 64 }
    ensures { PutsAt at (primary_level code.now (start code.now) (level_weights 1 (all_own v elements.now))) out.old out.new result }
{
    let first = Placed {
        at,
        reach: first_reach(code),
    };
    let placed = put_elements(code, v, first, elements, out);
    put_bytes(&[0], placed.at, out)
}

/// Where the first level of a key ends, and whether it is known that a pair is among its weights.
#[derive(Clone, Copy)]
pub(crate) struct FirstLevel {
    pub(crate) at: usize,
    pub(crate) pairs: bool,
}

/// Puts the first level of some elements at a place of a buffer. It ends itself. What fits is put at once, and else a piece at a time. It
/// is not inlined, so that its loop has all registers.
#[inline(never)]
pub(crate) fn put_whole(
    code: &PackedCode,
    v: Variable,
    elements: &[Element],
    at: usize,
    out: &mut [u8],
) -> FirstLevel
    requires size { length out.old < 2 ^ 64 }
    ensures { PutsAt at (primary_level code.now (start code.now) (level_weights 1 (all_own v elements.now))) out.old out.new result.at }
{
    if !has_room_for_end(elements.len(), LETTER_ROOM, at, out.len()) {
        return FirstLevel {
            at: put_in_pieces(code, v, elements, at, out),
            pairs: false,
        };
    }
    let first = Placed {
        at,
        reach: first_reach(code),
    };
    let all = put_weights(code, v, first, elements, out);
    out[all.placed.at] = 0;
    FirstLevel {
        at: all.placed.at + 1,
        pairs: all.pairs,
    }
}

/// Puts the first level of a text that the room does not hold, as it is read once more. It ends itself.
#[inline(never)]
pub(crate) fn put_again(
    code: &PackedCode,
    reading: &TextReading,
    room: &mut [Element],
    at: usize,
    out: &mut [u8],
) -> usize
    requires some { 0 < length room.old }
    requires size { length out.old < 2 ^ 64 }
    ensures { PutsAt at (primary_level code.now (start code.now) (level_weights 1 (weights_of reading.now))) out.old out.new result }
{
    let mut state = Placed {
        at,
        reach: first_reach(code),
    };
    let mut left = reading.again();
    'each: loop {
        let n = left.read(room);
        if n == 0 {
            return put_bytes(&[0], state.at, out);
        }
        state = put_elements(code, reading.settings.weighting, state, &room[..n], out);
    }
}
