#![tactic(auto, using(crate::proofs::WeighingLemmas::weight_steps))]

ghost use Rattle.std.specs.Prelude.{◌≡◌, ◌+◌, ◌*◌, ◌==◌, ◌≤◌, ◌<◌, ◌^◌, ◌∷◌, [], not, length, filter, flat_map, get_or};
ghost use Rattle.std.specs.Int.{to_be_bytes, w16};
ghost use Rattle.uca_model.specs.SortKey.{weight_bytes, level_bytes};
ghost use Rattle.uca_key.specs.Placing.{PutsAt};
ghost use Rattle.uca_key.specs.Weighing.{all_own, own_weights};

use crate::placing::{has_room, put_bytes};
use crate::runs::common_weight;
use crate::weighing::own_weight;
use uca_weights::{Element, Variable};

// Puts two bytes at a place of a key, where they fit, and returns the place after them.
#[inline(always)]
fn put_pair(pair: [u8; 2], at: usize, out: &mut [u8]) -> usize
    requires { at + 2 ≤ length out.old }
    ensures puts { PutsAt at pair out.old out.new result }
    ensures within { result ≤ at + 2 }
{
    out[at] = pair[0];
    out[at + 1] = pair[1];
    at + 2
}

// A weight, or where it is zero, the two bytes that a key has at a place.
#[inline(always)]
fn or_kept(weight: u16, at: usize, out: &[u8]) -> u16
    requires { at + 2 ≤ length out.now }
    ensures kept { weight ≡ 0 → to_be_bytes w16 result ≡ get_or out.now at 0 ∷ get_or out.now (at + 1) 0 ∷ [] }
    ensures other { 0 < weight → result ≡ weight }
{
    let kept = u16::from_be_bytes([out[at], out[at + 1]]);
    if weight == 0 { kept } else { weight }
}

// Puts a weight at a place of a key, where it fits, unless it is zero, and returns where the next one goes. For a zero it puts what is
// there already: no branch depends on a weight, since which ones are zero cannot be predicted.
#[inline(always)]
fn put_weight(weight: u16, at: usize, out: &mut [u8]) -> usize
    requires { at + 2 ≤ length out.old }
    ensures puts { PutsAt at (flat_map weight_bytes (filter (λ w. not (w == 0)) (weight ∷ []))) out.old out.new result }
    ensures within { result ≤ at + 2 }
{
    let end = put_pair(or_kept(weight, at, out).to_be_bytes(), at, out);
    if weight == 0 { at } else { end }
}

// The same where it may not fit.
fn put_some_weight(weight: u16, at: usize, out: &mut [u8]) -> usize
    ensures { PutsAt at (flat_map weight_bytes (filter (λ w. not (w == 0)) (weight ∷ []))) out.old out.new result }
{
    if weight > 0 {
        return put_bytes(&weight.to_be_bytes(), at, out);
    }
    at
}

// Puts the weight of an element at a level, where it fits, unless it is zero.
#[inline(always)]
fn put_own(v: Variable, element: &Element, level: u8, at: usize, out: &mut [u8]) -> usize
    requires first { 1 ≤ level }
    requires last { level ≤ 4 }
    requires room { at + 2 ≤ length out.old }
    ensures puts { PutsAt at (level_bytes (own_weights v element.now ∷ []) level) out.old out.new result }
    ensures within { result ≤ at + 2 }
{
    put_weight(own_weight(v, element, level), at, out)
}

// The same where it may not fit.
fn put_some_own(v: Variable, element: &Element, level: u8, at: usize, out: &mut [u8]) -> usize
    requires first { 1 ≤ level }
    requires last { level ≤ 4 }
    ensures { PutsAt at (level_bytes (own_weights v element.now ∷ []) level) out.old out.new result }
{
    put_some_weight(own_weight(v, element, level), at, out)
}

// Puts the bytes of one level of elements that may not fit.
#[inline(never)]
fn put_some_level(v: Variable, elements: &[Element], level: u8, at: usize, out: &mut [u8]) -> usize
    requires first { 1 ≤ level }
    requires last { level ≤ 4 }
    requires size { length out.old < 2 ^ 64 }
    ensures { PutsAt at (level_bytes (all_own v elements.now) level) out.old out.new result }
{
    let mut next = at;
    for element in elements {
        next = put_some_own(v, element, level, next, out);
    }
    next
}

// Puts the bytes of one level of elements, where they fit, one after the other.
#[inline(always)]
fn put_each(v: Variable, elements: &[Element], level: u8, at: usize, out: &mut [u8]) -> usize
    requires first { 1 ≤ level }
    requires last { level ≤ 4 }
    requires room { at + 2 * length elements.now ≤ length out.old }
    requires size { length out.old < 2 ^ 64 }
    ensures puts { PutsAt at (level_bytes (all_own v elements.now) level) out.old out.new result }
    ensures within { result ≤ at + 2 * length elements.now }
{
    let mut next = at;
    for element in elements {
        next = put_own(v, element, level, next, out);
    }
    next
}

// Puts eight bytes at a place of a key, where they fit.
#[inline(always)]
fn put_eight(bytes: [u8; 8], at: usize, out: &mut [u8]) -> usize
    requires { at + 8 ≤ length out.old }
    ensures puts { PutsAt at bytes out.old out.new result }
    ensures within { result ≤ at + 8 }
{
    out[at..at + 8].copy_from_slice(&bytes);
    at + 8
}

// Puts the bytes of a level from 2 to 4 of at most four elements, where they fit. Four common weights, as most are, are put together.
#[inline(always)]
fn put_few(v: Variable, elements: &[Element], level: u8, at: usize, out: &mut [u8]) -> usize
    requires first { 2 ≤ level }
    requires last { level ≤ 4 }
    requires room { at + 2 * length elements.now ≤ length out.old }
    requires size { length out.old < 2 ^ 64 }
    ensures puts { PutsAt at (level_bytes (all_own v elements.now) level) out.old out.new result }
    ensures within { result ≤ at + 2 * length elements.now }
{
    if let [a, b, c, d] = elements {
        let common = common_weight(level);
        let (first, second) = (own_weight(v, a, level), own_weight(v, b, level));
        let (third, fourth) = (own_weight(v, c, level), own_weight(v, d, level));
        if first == common && second == common && third == common && fourth == common {
            let [high, low] = common.to_be_bytes();
            return put_eight([high, low, high, low, high, low, high, low], at, out);
        }
    }
    put_each(v, elements, level, at, out)
}

// Puts the bytes of one level of elements.
#[inline(always)]
fn put_whole(v: Variable, elements: &[Element], level: u8, at: usize, out: &mut [u8]) -> usize
    requires first { 1 ≤ level }
    requires last { level ≤ 4 }
    requires size { length out.old < 2 ^ 64 }
    ensures { PutsAt at (level_bytes (all_own v elements.now) level) out.old out.new result }
{
    if !has_room(elements.len(), 2, at, out.len()) {
        return put_some_level(v, elements, level, at, out);
    }
    if level == 1 {
        return put_each(v, elements, level, at, out);
    }
    let mut next = at;
    let mut left = elements;
    'fours: while left.len() >= 4 {
        let (four, rest) = left.split_at(4);
        next = put_few(v, four, level, next, out);
        left = rest;
    }
    put_each(v, left, level, next, out)
}

/// Puts the bytes of one level, from 1 to 4, of elements that were weighed at a place of a key, and returns the place after them
/// (UTS #10, section 7.3, step S3). Each level has a loop of its own, which asks for no level.
pub(crate) fn put_level(
    v: Variable,
    elements: &[Element],
    level: u8,
    at: usize,
    out: &mut [u8],
) -> usize
    requires first { 1 ≤ level }
    requires last { level ≤ 4 }
    requires size { length out.old < 2 ^ 64 }
    ensures { PutsAt at (level_bytes (all_own v elements.now) level) out.old out.new result }
{
    match (v, level) {
        (Variable::NonIgnorable, 1) => put_whole(Variable::NonIgnorable, elements, 1, at, out),
        (_, 1) => put_whole(v, elements, 1, at, out),
        (_, 2) => put_whole(v, elements, 2, at, out),
        (_, 3) => put_whole(v, elements, 3, at, out),
        _ => put_whole(v, elements, 4, at, out),
    }
}
