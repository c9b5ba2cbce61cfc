#![tactic(auto, using(crate::proofs::WithoutFront::cuts))]

ghost use Rattle.std.specs.Prelude.{◌≡◌, IsTrue, chars, length, take, ◌+◌, ◌*◌, ◌≤◌, ◌++◌};
ghost use Rattle.std.specs.Str.{IsCharBoundary};
ghost use Rattle.std.specs.Simd.Lanes.{chunk};
ghost use Rattle.uca_levels.specs.WithoutFront.{AreApart, AreWithoutFront, IsApart, MayFollow};

use std::simd::prelude::*;
use uca_match::completeness::split_last;
use uca_match::joins_nothing;
use uca_table::Table;

/// How many bytes a block has.
const NARROW: usize = 8;

// Whether a text may be cut before these characters.
fn may_follow(t: &Table, left: &str) -> bool
    ensures { IsTrue result → MayFollow t.now (chars left.now) }
{
    match left.chars().next() {
        Some(c) => t.is_cut(c),
        None => true,
    }
}

// Two blocks of a text, one after the other.
#[inline(always)]
fn two_blocks(bytes: &[u8], first: usize, second: usize) -> u8x16
    requires in_first { first + NARROW ≤ length bytes.now }
    requires in_second { second + NARROW ≤ length bytes.now }
    ensures { result ≡ chunk first NARROW bytes.now ++ chunk second NARROW bytes.now }
{
    let front = u8x8::from_slice(&bytes[first..]);
    let back = u8x8::from_slice(&bytes[second..]);
    front.shuffle(back, [0, 1, 2, 3, 4, 5, 6, 7, 8, 9, 10, 11, 12, 13, 14, 15])
}

// How many bytes of two blocks two texts have in common from the start of the first.
#[inline(always)]
fn common_in_blocks(a: &[u8], b: &[u8], first: usize, second: usize) -> usize
    requires first_in_a { first + NARROW ≤ length a.now }
    requires first_in_b { first + NARROW ≤ length b.now }
    requires second_in_a { second + NARROW ≤ length a.now }
    requires second_in_b { second + NARROW ≤ length b.now }
    ensures within { result ≤ 2 * NARROW }
    ensures same { take result (chunk first NARROW a.now ++ chunk second NARROW a.now)
        ≡ take result (chunk first NARROW b.now ++ chunk second NARROW b.now) }
{
    let differ = two_blocks(a, first, second)
        .simd_ne(two_blocks(b, first, second))
        .to_bitmask();
    if differ == 0 {
        2 * NARROW
    } else {
        differ.trailing_zeros() as usize
    }
}

// How many bytes two texts have in common from their start, of which one is too short for a block.
fn few_in_common(a: &[u8], b: &[u8]) -> usize
    ensures { take result a.now ≡ take result b.now }
{
    let mut at = 0;
    while at < a.len() && at < b.len() && a[at] == b[at] {
        at += 1;
    }
    at
}

// How many bytes two texts have in common from their start, by two blocks at a time. The last may begin in the one before it. Two narrow
// blocks serve short texts and long ones: which of two sizes of block the next texts would take cannot be foreseen. Nor can in which of
// the two they differ, so no branch tells that. Whether they differ is asked first: mostly they do, while how long they are cannot be
// foreseen either.
fn common_by_blocks(a: &[u8], b: &[u8]) -> usize
    requires in_a { NARROW ≤ length a.now }
    requires in_b { NARROW ≤ length b.now }
    ensures { take result a.now ≡ take result b.now }
{
    let last = a.len().min(b.len()) - NARROW;
    let mut at = 0;
    'each: loop {
        let next = last.min(at + NARROW);
        let common = common_in_blocks(a, b, at, next);
        if common < 2 * NARROW {
            return if common < NARROW {
                at + common
            } else {
                next + common - NARROW
            };
        }
        if next == last {
            return last + NARROW;
        }
        at = last.min(next + NARROW);
    }
}

// How many bytes two texts have in common from their start.
fn common_len(a: &[u8], b: &[u8]) -> usize
    ensures { take result a.now ≡ take result b.now }
{
    if a.len().min(b.len()) < NARROW {
        return few_in_common(a, b);
    }
    common_by_blocks(a, b)
}

// Whether no character of two texts lies on both sides of a place up to which they are the same. Then one does in both, or in neither.
#[inline(always)]
fn are_whole(a: &str, b: &str, at: usize) -> bool
    requires { take at a.now ≡ take at b.now }
    ensures { IsTrue result → IsCharBoundary a.now at × IsCharBoundary b.now at }
{
    a.is_char_boundary(at)
}

/// How many bytes of characters two texts have in common from their start.
#[inline(always)]
pub(crate) fn common_front(a: &str, b: &str) -> usize
    ensures in_a { IsCharBoundary a.now result }
    ensures in_b { IsCharBoundary b.now result }
    ensures same { take result a.now ≡ take result b.now }
{
    let mut at = common_len(a.as_bytes(), b.as_bytes());
    'back: while at > 0 {
        if are_whole(a, b, at) {
            return at;
        }
        at -= 1;
    }
    0
}

// Whether two texts begin with different bytes. Then they have none in common.
#[inline(always)]
fn begin_apart(a: &str, b: &str) -> bool {
    match (a.as_bytes().first(), b.as_bytes().first()) {
        (Some(x), Some(y)) => *x != *y,
        _ => false,
    }
}

/// The same, with a look of its own at the first bytes: most texts that are compared begin with different ones.
#[inline(always)]
pub(crate) fn front_of(a: &str, b: &str) -> usize
    ensures in_a { IsCharBoundary a.now result }
    ensures in_b { IsCharBoundary b.now result }
    ensures same { take result a.now ≡ take result b.now }
{
    if begin_apart(a, b) {
        0
    } else {
        common_front(a, b)
    }
}

/// What is left of two texts from the last place on at which both may be cut, of those in the bytes that they have in
/// common. What comes before it cannot decide their order.
pub(crate) fn without_front<'t>(
    t: &Table,
    a: &'t str,
    b: &'t str,
    common: usize,
) -> (&'t str, &'t str)
    requires { take common a.now ≡ take common b.now }
    ensures { AreWithoutFront t.now (chars a.now) (chars b.now) (chars result.0.now) (chars result.1.now) }
{
    let mut at = common;
    'back: while at > 0 {
        if are_whole(a, b, at) {
            let left_a = a.split_at(at).1;
            let left_b = b.split_at(at).1;
            if may_follow(t, left_a) && may_follow(t, left_b) {
                return (left_a, left_b);
            }
        }
        at -= 1;
    }
    (a, b)
}

// Whether a text may be cut at a place: whether its two parts have their elements independently. `false`: that is not known.
#[inline(always)]
fn is_apart(t: &Table, front: &str, left: &str) -> bool
    ensures { IsTrue result → IsApart t.now (chars front.now) (chars left.now) }
{
    if joins_nothing(t, left) {
        return true;
    }
    match split_last(front) {
        Some((_before, c)) => t.bears_all(c),
        None => false,
    }
}

/// What is left of two texts from the last place on at which each may be cut for its elements, of those in the bytes that they have
/// in common.
pub(crate) fn apart_after<'t>(
    t: &Table,
    a: &'t str,
    b: &'t str,
    common: usize,
) -> (&'t str, &'t str)
    requires { take common a.now ≡ take common b.now }
    ensures { AreApart t.now (chars a.now) (chars b.now) (chars result.0.now) (chars result.1.now) }
{
    let mut at = common;
    'back: while at > 0 {
        if are_whole(a, b, at) {
            let (front, left_a) = a.split_at(at);
            let left_b = b.split_at(at).1;
            if is_apart(t, front, left_a) && is_apart(t, front, left_b) {
                return (left_a, left_b);
            }
        }
        at -= 1;
    }
    (a, b)
}
