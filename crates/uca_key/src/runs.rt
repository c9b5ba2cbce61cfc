// The later levels of a packed key, with runs of common weights, put into a buffer piece by piece.
#![tactic(auto, using(crate::proofs::MaskLemmas::run_steps))]

ghost use Rattle.std.specs.Prelude.{◌≡◌, ◌&&◌, IsTrue, count_ones, ◌≢◌, ◌==◌, ◌+◌, ◌*◌, ◌-◌, ◌^◌, ◌<◌, ◌≤◌, ◌++◌, ◌∷◌, [], ℕ, List, not, chars, drop, filter, length, map, min, take, ◌/◌, ◌%◌};
ghost use Rattle.std.specs.Int.{bit_at};
ghost use Rattle.std.specs.Simd.Lanes.{chunk, mask_l};
ghost use Rattle.unicode_normalization.specs.Forms.{nfd};
ghost use Rattle.uca_weights.specs.declared.settings.Variable.{Variable};
ghost use Rattle.uca_model.specs.LevelWeights.{level_weights};
ghost use Rattle.uca_model.specs.SafeText.{IsSafe};
ghost use Rattle.uca_key.specs.PackedKey.{common_weight, other_bytes, runs_after, packed_later, packed_level};
ghost use Rattle.uca_key.specs.Runs.{AreMarked, AreMarkedLater, bytes_left, is_blank, is_other};
ghost use Rattle.uca_key.specs.Pieces.{weights_of};
ghost use Rattle.uca_key.specs.Placing.{IsPutting, PutsAt, StaysAfter, StaysBeyond};
ghost use Rattle.uca_key.specs.Weighing.{all_own};

use crate::pieces::{PIECE, TextReading};
use crate::placing::{has_room_for_end, put_bytes, put_text};
use crate::weighing::own_weight;
use std::simd::prelude::*;
use uca_weights::{Element, Variable};

// How many common weights one byte counts, and that byte.
const FULL_RUN: usize = 62;

const FULL_RUN_BYTE: u8 = 124;

/// The most bytes that one weight takes.
const OTHER: usize = 4;

/// How many elements a mask has bits for.
const MASKED: usize = 64;

/// How many elements are looked at together.
const LANES: usize = 16;

// How far a level is packed: the place after its bytes, and how many common weights were counted since.
#[derive(Clone, Copy)]
struct Counted {
    at: usize,
    run: usize,
}

// The weight that most characters have at a level from 2 to 4.
#[inline(always)]
pub(crate) fn common_weight(level: u8) -> u16
    ensures value { result ≡ common_weight level }
    ensures limit { result < 0xFFFF → result ≤ 0x20 }
{
    match level {
        2 => 0x20,
        3 => 2,
        _ => 0xFFFF,
    }
}

// Puts a weight that is not the common one of its level.
fn put_other(key: &mut [u8], at: usize, weight: u16) -> usize
    requires { at + 3 ≤ length key.old }
    ensures bytes { take result key.new ≡ take at key.old ++ other_bytes weight }
    ensures within { result ≤ at + 3 }
    ensures stays { StaysAfter at result key.old key.new }
{
    if weight < 0xFE {
        key[at] = weight as u8;
        return at + 1;
    }
    let [high, low] = weight.to_be_bytes();
    key[at] = 0xFE;
    key[at + 1] = high;
    key[at + 2] = low;
    at + 3
}

// The byte that ends a run before a weight that takes more bytes.
fn run_end(run: usize, common: u16, weight: u16) -> u8
    requires few { run < 62 }
    ensures below { weight < common → result ≡ 2 * run + 1 }
    ensures early { common ≤ weight → run < 2 → result ≡ 255 - 35 * run }
    ensures late { common ≤ weight → 2 ≤ run → result ≡ 187 - run }
{
    if weight < common {
        return 2 * run as u8 + 1;
    }
    if run < 2 {
        255 - 35 * run as u8
    } else {
        187 - run as u8
    }
}

// The byte that says how long a run was, and after none or one common weight also by how much the next one is above it.
#[inline(always)]
fn near_byte(run: usize, above: u16) -> u8
    requires few { run < 62 }
    requires some { 0 < above }
    requires near { above < 35 }
    ensures short { run < 2 → result ≡ 220 - 35 * run + above }
    ensures long { 2 ≤ run → result ≡ 187 - run }
{
    let after_long = 187 - run as u8;
    let after_short = (220 + above as u8).wrapping_sub((run as u8).wrapping_mul(35));
    if run < 2 { after_short } else { after_long }
}

// Puts a weight that is little above the common one, after a run of common ones. A byte of its own it has only after a run of two or more:
// it is put in any case, and the next byte is put over it if it has none. No branch depends on how long runs are, which cannot be foreseen.
#[inline(always)]
fn put_near(key: &mut [u8], before: Counted, common: u16, weight: u16) -> usize
    requires few { before.run < 62 }
    requires above { common < weight }
    requires near { weight - common < 35 }
    requires small { weight < 0xFE }
    requires room { before.at + 2 ≤ length key.old }
    ensures bytes { (ws : List ℕ) → take result key.new ++ runs_after common 0 ws ≡ take before.at key.old ++ runs_after common before.run (weight ∷ ws) }
    ensures within { result ≤ before.at + 2 }
    ensures stays { StaysBeyond before.at result key.old key.new }
{
    key[before.at] = near_byte(before.run, weight - common);
    key[before.at + 1] = weight as u8;
    before.at + 1 + (before.run >= 2) as usize
}

// Puts a weight that ends a run of common ones, after the byte that says how long the run was.
fn put_after_run(key: &mut [u8], before: Counted, common: u16, weight: u16) -> Counted
    requires few { before.run < 62 }
    requires other { weight ≢ common }
    requires far { common < weight → 35 ≤ weight - common }
    requires room { before.at + 4 ≤ length key.old }
    ensures bytes { (ws : List ℕ) → take result.at key.new ++ runs_after common result.run ws ≡ take before.at key.old ++ runs_after common before.run (weight ∷ ws) }
    ensures few { result.run < 62 }
    ensures within { result.at ≤ before.at + 4 }
    ensures stays { StaysBeyond before.at result.at key.old key.new }
{
    key[before.at] = run_end(before.run, common, weight);
    Counted {
        at: put_other(key, before.at + 1, weight),
        run: 0,
    }
}

// Counts a weight where it is the common one, and puts it where it is another one; a zero is left out.
#[inline(always)]
fn pack_weight(key: &mut [u8], before: Counted, common: u16, weight: u16) -> Counted
    requires few { before.run < 62 }
    requires some { 0 < common }
    requires limit { common < 0xFFFF → common ≤ 0x20 }
    requires room { before.at + 4 ≤ length key.old }
    ensures bytes { (ws : List ℕ) → take result.at key.new ++ runs_after common result.run ws ≡ take before.at key.old ++ runs_after common before.run (filter (λ w. not (w == 0)) (weight ∷ []) ++ ws) }
    ensures few { result.run < 62 }
    ensures within { result.at ≤ before.at + 4 }
    ensures stays { StaysBeyond before.at result.at key.old key.new }
{
    if weight > common && weight - common < 35 {
        return Counted {
            at: put_near(key, before, common, weight),
            run: 0,
        };
    }
    if weight == common {
        if before.run + 1 < FULL_RUN {
            return Counted {
                at: before.at,
                run: before.run + 1,
            };
        }
        key[before.at] = FULL_RUN_BYTE;
        return Counted {
            at: before.at + 1,
            run: 0,
        };
    }
    if weight == 0 {
        return before;
    }
    put_after_run(key, before, common, weight)
}

/// Which of the first elements of a text have no weight at a level, as the second of an implicit pair, and which of the others have another
/// one than the common one: each as a bit.
#[derive(Clone, Copy)]
pub(crate) struct Marked {
    pub(crate) others: u64,
    pub(crate) blanks: u64,
}

// What masks say of the elements after so many of the first and one more.
#[inline(always)]
fn marked_after(marked: Marked, n: usize) -> Marked
    requires { n < 64 }
    ensures others { result.others ≡ marked.others / 2 ^ n / 2 }
    ensures blanks { result.blanks ≡ marked.blanks / 2 ^ n / 2 }
{
    Marked {
        others: marked.others >> n >> 1,
        blanks: marked.blanks >> n >> 1,
    }
}

// How many of the first elements have a weight, by the mask of those that have none.
#[inline(always)]
fn count_weights(blanks: u64, n: usize) -> usize
    requires { n < 62 }
    ensures { result ≡ n - count_ones (blanks % 2 ^ n) }
{
    if blanks == 0 {
        return n;
    }
    n - (blanks % (1 << n)).count_ones() as usize
}

// How many of the first of some elements have the common weight at a level by their mask, or none, as long as the run that they are a part
// of is not full.
#[inline(always)]
fn count_run(others: u64, run: usize) -> usize
    requires few { run < 62 }
    ensures few { run + result < 62 }
    ensures zeros { (i : ℕ) → i < result → bit_at others i ≡ 0 }
{
    (others.trailing_zeros() as usize).min(FULL_RUN - 1 - run)
}

// What is packed of some elements, and how many they are.
#[derive(Clone, Copy)]
struct Row {
    packed: Counted,
    elements: usize,
}

// Packs the weights of the first elements at level 3 as long as each takes one byte of its own: no common weight comes before it, and it
// is little above that. So are those of kana. At other levels few elements in a row are like that.
#[inline(always)]
fn pack_row(key: &mut [u8], before: Counted, v: Variable, elements: &[Element], level: u8) -> Row
    requires few { before.run < 62 }
    requires first { 2 ≤ level }
    requires last { level ≤ 4 }
    requires room { before.at + 4 * length elements.now ≤ length key.old }
    ensures bytes { (ws : List ℕ) → take result.packed.at key.new ++ runs_after (common_weight level) result.packed.run (level_weights level (all_own v (drop result.elements elements.now)) ++ ws) ≡ take before.at key.old ++ runs_after (common_weight level) before.run (level_weights level (all_own v elements.now) ++ ws) }
    ensures few { result.packed.run < 62 }
    ensures some { result.elements ≤ length elements.now }
    ensures within { result.packed.at ≤ before.at + 4 * result.elements }
    ensures stays { StaysBeyond before.at result.packed.at key.old key.new }
{
    if level != 3 {
        return Row {
            packed: before,
            elements: 0,
        };
    }
    let common = common_weight(level);
    let mut packed = before;
    let mut n = 0;
    'each: while n < elements.len() {
        let weight = own_weight(v, &elements[n], level);
        if packed.run > 0 || weight <= common || weight - common >= 35 {
            return Row {
                packed,
                elements: n,
            };
        }
        packed = pack_weight(key, packed, common, weight);
        n += 1;
    }
    Row {
        packed,
        elements: n,
    }
}

// Packs the weights of elements at a level, by the masks of those that have another weight than the common one, or none: counts the common
// ones up to the next other one, and puts that, with those after it that take one byte each.
#[inline(always)]
fn pack_masked(
    key: &mut [u8],
    before: Counted,
    v: Variable,
    elements: &[Element],
    level: u8,
    marked: Marked,
) -> Counted
    requires few { before.run < 62 }
    requires first { 2 ≤ level }
    requires last { level ≤ 4 }
    requires marked { AreMarked v level marked elements.now }
    requires size { length elements.now ≤ 64 }
    requires room { before.at + 4 * length elements.now ≤ length key.old }
    ensures bytes { (ws : List ℕ) → take result.at key.new ++ runs_after (common_weight level) result.run ws ≡ take before.at key.old ++ runs_after (common_weight level) before.run (level_weights level (all_own v elements.now) ++ ws) }
    ensures few { result.run < 62 }
    ensures within { result.at ≤ before.at + 4 * length elements.now }
    ensures stays { StaysBeyond before.at result.at key.old key.new }
{
    let common = common_weight(level);
    let mut packed = before;
    let mut mask = marked;
    let mut left = elements;
    'runs: loop {
        let n = count_run(mask.others, packed.run);
        if n >= left.len() {
            packed.run += count_weights(mask.blanks, left.len());
            return packed;
        }
        packed.run += count_weights(mask.blanks, n);
        packed = pack_weight(key, packed, common, own_weight(v, &left[n], level));
        let rest = left.split_at(n + 1).1;
        let row = pack_row(key, packed, v, rest, level);
        packed = row.packed;
        mask = marked_after(mask, n + row.elements);
        left = rest.split_at(row.elements).1;
    }
}

// Whether an element has another weight than the common one at level 4. Its parts are asked without a branch between them.
#[inline(always)]
fn is_fourth_other(v: Variable, e: &Element) -> bool
    ensures { result ≡ is_other v 4 e.now }
{
    match v {
        Variable::NonIgnorable | Variable::Blanked => true,
        Variable::Shifted => {
            let ignorable = (e.l1 == 0) & (e.l2 == 0) & (e.l3 == 0);
            (e.starred & (e.l1 != 0xffff)) | (!e.starred & ignorable)
        }
    }
}

// The same at a level from 2 to 4.
#[inline(always)]
fn is_other(v: Variable, e: &Element, level: u8) -> bool
    requires first { 2 ≤ level }
    requires last { level ≤ 4 }
    ensures { result ≡ is_other v level e.now }
{
    match level {
        4 => is_fourth_other(v, e),
        _ => own_weight(v, e, level) != common_weight(level),
    }
}

// Which of the first elements, as many as a mask has bits for, have another weight than the common one at a level from 2 to 4: each
// as a bit. They are looked at one by one, with no branch at what is found, since that cannot be foreseen.
fn others_of(v: Variable, level: u8, elements: &[Element]) -> u64
    requires first { 2 ≤ level }
    requires last { level ≤ 4 }
    ensures { result ≡ mask_l (map (is_other v level) (take 64 elements.now)) }
{
    let mut others = 0;
    let mut n = elements.len().min(MASKED);
    'each: while n > 0 {
        n -= 1;
        others = 2 * others + is_other(v, &elements[n], level) as u64;
    }
    others
}

/// The masks of the first elements, one by one. An element without a weight is one of the others here.
pub(crate) fn marked_by_one(v: Variable, level: u8, elements: &[Element]) -> Marked
    requires first { 2 ≤ level }
    requires last { level ≤ 4 }
    ensures { AreMarked v level result (take 64 elements.now) }
{
    Marked {
        others: others_of(v, level, elements),
        blanks: 0,
    }
}

// Packs the weights of elements at a level, as many at a time as a mask has bits for. The masks of the first are known.
#[inline(always)]
fn pack_whole(
    key: &mut [u8],
    before: Counted,
    v: Variable,
    elements: &[Element],
    level: u8,
    marked: Marked,
) -> Counted
    requires few { before.run < 62 }
    requires first { 2 ≤ level }
    requires last { level ≤ 4 }
    requires marked { AreMarked v level marked (take 64 elements.now) }
    requires room { before.at + 4 * length elements.now ≤ length key.old }
    ensures bytes { (ws : List ℕ) → take result.at key.new ++ runs_after (common_weight level) result.run ws ≡ take before.at key.old ++ runs_after (common_weight level) before.run (level_weights level (all_own v elements.now) ++ ws) }
    ensures few { result.run < 62 }
    ensures within { result.at ≤ before.at + 4 * length elements.now }
    ensures stays { StaysBeyond before.at result.at key.old key.new }
{
    let mut packed = before;
    let mut mask = marked;
    let mut left = elements;
    'pieces: loop {
        let (piece, rest) = left.split_at(left.len().min(MASKED));
        packed = pack_masked(key, packed, v, piece, level, mask);
        if rest.is_empty() {
            return packed;
        }
        mask = marked_by_one(v, level, rest);
        left = rest;
    }
}

// Packs the weights of elements, at a level from 2 to 4. Each level has a loop of its own, which asks for no level.
fn pack(key: &mut [u8], before: Counted, v: Variable, elements: &[Element], level: u8) -> Counted
    requires few { before.run < 62 }
    requires first { 2 ≤ level }
    requires last { level ≤ 4 }
    requires room { before.at + 4 * length elements.now ≤ length key.old }
    ensures bytes { (ws : List ℕ) → take result.at key.new ++ runs_after (common_weight level) result.run ws ≡ take before.at key.old ++ runs_after (common_weight level) before.run (level_weights level (all_own v elements.now) ++ ws) }
    ensures few { result.run < 62 }
    ensures within { result.at ≤ before.at + 4 * length elements.now }
    ensures stays { StaysBeyond before.at result.at key.old key.new }
{
    match level {
        2 => pack_whole(key, before, v, elements, 2, marked_by_one(v, 2, elements)),
        3 => pack_whole(key, before, v, elements, 3, marked_by_one(v, 3, elements)),
        _ => pack_whole(key, before, v, elements, 4, marked_by_one(v, 4, elements)),
    }
}

// The weights of an element at the levels 2 and 3 in one number.
#[inline(always)]
fn later_weights(e: &Element) -> u32
    ensures second { result % 65536 ≡ e.now.l2 }
    ensures third { result / 65536 ≡ e.now.l3 }
    ensures both { result ≡ e.now.l2 + 65536 * e.now.l3 }
{
    e.l2 as u32 + 65536 * e.l3 as u32
}

// The same of sixteen elements.
#[inline(always)]
fn later_weights_at(elements: &[Element], at: usize) -> u32x16
    requires { at + 16 ≤ length elements.now }
    ensures second { map (λ w. w % 65536) result ≡ map (λ e. e.l2) (chunk at 16 elements.now) }
    ensures third { map (λ w. w / 65536) result ≡ map (λ e. e.l3) (chunk at 16 elements.now) }
    ensures both { result ≡ map (λ e. e.l2 + 65536 * e.l3) (chunk at 16 elements.now) }
{
    u32x16::from_array([
        later_weights(&elements[at]),
        later_weights(&elements[at + 1]),
        later_weights(&elements[at + 2]),
        later_weights(&elements[at + 3]),
        later_weights(&elements[at + 4]),
        later_weights(&elements[at + 5]),
        later_weights(&elements[at + 6]),
        later_weights(&elements[at + 7]),
        later_weights(&elements[at + 8]),
        later_weights(&elements[at + 9]),
        later_weights(&elements[at + 10]),
        later_weights(&elements[at + 11]),
        later_weights(&elements[at + 12]),
        later_weights(&elements[at + 13]),
        later_weights(&elements[at + 14]),
        later_weights(&elements[at + 15]),
    ])
}

// Which of sixteen elements have another weight than the common one at level 2, each as a bit, by the weights at the levels 2 and 3.
#[inline(always)]
fn second_others(weights: u32x16) -> u64
    ensures { result ≡ mask_l (map (λ w. not (w == 32)) (map (λ w. w % 65536) weights)) }
{
    (weights & u32x16::splat(0xFFFF))
        .simd_ne(u32x16::splat(0x20))
        .to_bitmask()
}

// The same at level 3.
#[inline(always)]
fn third_others(weights: u32x16) -> u64
    ensures { result ≡ mask_l (map (λ w. not (w == 2)) (map (λ w. w / 65536) weights)) }
{
    (weights >> u32x16::splat(16))
        .simd_ne(u32x16::splat(2))
        .to_bitmask()
}

// Which of sixteen elements have no weight at the levels 2 and 3, if that is asked.
#[inline(always)]
fn blanks(weights: u32x16, asked: bool) -> u64
    ensures { result ≡ mask_l (map (λ w. asked && (w == 0)) weights) }
{
    if !asked {
        return 0;
    }
    weights.simd_eq(u32x16::splat(0)).to_bitmask()
}

/// What masks say of the first elements of a text at the levels 2 and 3.
#[derive(Clone, Copy)]
pub(crate) struct LaterMarks {
    pub(crate) second: Marked,
    pub(crate) third: Marked,
}

/// Which of the first elements of a text have another weight than the common one at the levels 2 and 3, and which have none at either, if
/// that is asked: each as a bit.
#[derive(Clone, Copy)]
struct LaterMasks {
    second: u64,
    third: u64,
    none: u64,
}

// The same of whole blocks of sixteen elements, block by block from the last, which has the highest bits.
#[inline(always)]
fn later_masks(elements: &[Element], asked: bool) -> LaterMasks
    requires whole { length elements.now % 16 ≡ 0 }
    requires few { length elements.now ≤ 64 }
    ensures second { (v : Variable) → result.second ≡ mask_l (map (is_other v 2) elements.now) }
    ensures third { (v : Variable) → result.third ≡ mask_l (map (is_other v 3) elements.now) }
    ensures none { result.none ≡ mask_l (map (is_blank asked) elements.now) }
{
    let mut second = 0;
    let mut third = 0;
    let mut none = 0;
    let mut n = elements.len();
    'each: while n > 0 {
        n -= LANES;
        let weights = later_weights_at(elements, n);
        second = 65536 * second + second_others(weights);
        third = 65536 * third + third_others(weights);
        none = 65536 * none + blanks(weights, asked);
    }
    LaterMasks {
        second,
        third,
        none,
    }
}

// What masks say of whole blocks of sixteen elements. One without a weight has another one than the common one at both levels.
#[inline(always)]
fn later_marks(elements: &[Element], asked: bool) -> LaterMarks
    requires whole { length elements.now % 16 ≡ 0 }
    requires few { length elements.now ≤ 64 }
    ensures { AreMarkedLater result elements.now }
{
    let LaterMasks {
        second,
        third,
        none,
    } = later_masks(elements, asked);
    LaterMarks {
        second: Marked {
            others: second - none,
            blanks: none,
        },
        third: Marked {
            others: third - none,
            blanks: none,
        },
    }
}

/// What masks say of the first elements of a text that was read into room, at the levels 2 and 3. Those without a weight are told from the
/// others if that is asked. The last block may end in elements of the room that are none of the text, whose bits say nothing: so no
/// remainder of a block needs a loop of its own.
#[inline(always)]
pub(crate) fn first_marks(room: &[Element], held: usize, asked: bool) -> LaterMarks
    requires { held ≤ length room.now }
    ensures { AreMarkedLater result (take 64 (take held room.now)) }
{
    let first = held.min(MASKED);
    let whole = first + (LANES - 1) - (first + (LANES - 1)) % LANES;
    if whole <= room.len() {
        return later_marks(&room[..whole], asked);
    }
    LaterMarks {
        second: marked_by_one(Variable::NonIgnorable, 2, &room[..first]),
        third: marked_by_one(Variable::NonIgnorable, 3, &room[..first]),
    }
}

// Packs the weights of some elements at a level from 2 to 4, a piece at a time. It is not inlined, so that what fits at once has all
// registers.
#[inline(never)]
fn put_elements(
    v: Variable,
    level: u8,
    before: Counted,
    elements: &[Element],
    out: &mut [u8],
) -> Counted
    requires few { before.run < 62 }
    requires first { 2 ≤ level }
    requires last { level ≤ 4 }
    requires size { length out.old < 2 ^ 64 }
    ensures bytes { (at : ℕ) (front whole : List ℕ) (ws : List (List ℕ)) → IsPutting at front before.at out.old whole (bytes_left level before (all_own v elements.now ++ ws)) → IsPutting at front result.at out.new whole (bytes_left level result ws) }
    ensures few { result.run < 62 }
{
    let mut state = before;
    let mut left = elements;
    'pieces: while !left.is_empty() {
        let mut bytes = [0; OTHER * PIECE];
        let (piece, rest) = left.split_at(left.len().min(PIECE));
        let front = Counted {
            at: 0,
            run: state.run,
        };
        let packed = pack(&mut bytes, front, v, piece, level);
        state.at = put_bytes(&bytes[..packed.at], state.at, out);
        state.run = packed.run;
        left = rest;
    }
    state
}

// Puts the end of a level.
fn put_end(state: Counted, out: &mut [u8]) -> usize
    requires few { state.run < 62 }
    ensures { (level : ℕ) → PutsAt state.at (bytes_left level state []) out.old out.new result }
{
    put_bytes(&[2 * state.run as u8], state.at, out)
}

// Whether a mask of some elements says that all have the common weight of a level or none, so that the level is one run. So are most
// levels of short texts.
#[inline(always)]
fn is_one_run(others: u64, elements: usize) -> bool
    ensures few { IsTrue result → elements < 62 }
    ensures zeros { IsTrue result → (i : ℕ) → i < elements → bit_at others i ≡ 0 }
{
    elements < FULL_RUN && others.trailing_zeros() as usize >= elements
}

/// Puts a level, from 2 to 4, of some elements at a place of a buffer, by the masks of the first elements that have another weight than
/// the common one, or none. What fits is put at once, and else a piece at a time.
#[inline(always)]
pub(crate) fn put_whole(
    v: Variable,
    level: u8,
    marked: Marked,
    elements: &[Element],
    at: usize,
    out: &mut [u8],
) -> usize
    requires first { 2 ≤ level }
    requires last { level ≤ 4 }
    requires marked { AreMarked v level marked (take 64 elements.now) }
    requires size { length out.old < 2 ^ 64 }
    ensures { PutsAt at (packed_level (all_own v elements.now) level) out.old out.new result }
{
    let before = Counted { at, run: 0 };
    if !has_room_for_end(elements.len(), OTHER, at, out.len()) {
        return put_end(put_elements(v, level, before, elements, out), out);
    }
    if is_one_run(marked.others, elements.len()) {
        out[at] = 2 * count_weights(marked.blanks, elements.len()) as u8;
        return at + 1;
    }
    let packed = pack_whole(out, before, v, elements, level, marked);
    out[packed.at] = 2 * packed.run as u8;
    packed.at + 1
}

// Puts a level, from 2 to 4, of a text that the room does not hold, as it is read once more.
#[inline(never)]
fn put_level_again(
    level: u8,
    reading: &TextReading,
    room: &mut [Element],
    at: usize,
    out: &mut [u8],
) -> usize
    requires first { 2 ≤ level }
    requires last { level ≤ 4 }
    requires some { 0 < length room.old }
    requires size { length out.old < 2 ^ 64 }
    ensures { PutsAt at (packed_level (weights_of reading.now) level) out.old out.new result }
{
    let mut state = Counted { at, run: 0 };
    let mut left = reading.again();
    'each: loop {
        let n = left.read(room);
        if n == 0 {
            return put_end(state, out);
        }
        state = put_elements(reading.settings.weighting, level, state, &room[..n], out);
    }
}

/// Puts a later level, from 2 to 5, of a text that the room does not hold.
pub(crate) fn put_again(
    reading: &TextReading,
    level: u8,
    room: &mut [Element],
    at: usize,
    out: &mut [u8],
) -> usize
    requires first { 2 ≤ level }
    requires last { level ≤ 5 }
    requires some { 0 < length room.old }
    requires size { length out.old < 2 ^ 64 }
    ensures { PutsAt at (packed_later (weights_of reading.now) (nfd (chars reading.now.text.now)) level) out.old out.new result }
{
    if level == 5 {
        return put_text(
            reading.table,
            reading.settings.weighting,
            reading.text,
            at,
            out,
        );
    }
    put_level_again(level, reading, room, at, out)
}
