//! Whether bytes are all ASCII.
ghost use Rattle.std.specs.Prelude.{◌≡◌, ◌+◌, ◌*◌, ◌≤◌, ◌<◌, nat_le, min, length, map};
ghost use Rattle.std.specs.Bool.{MatchBool};
ghost use Rattle.std.specs.Simd.Lanes.{mask_l};
ghost use Rattle.std.specs.Str.{IsAscii, IsNotAscii};
ghost use Rattle.uca_window.specs.Ascii.{IsAsciiFrom};

use std::simd::prelude::*;

/// How many bytes are looked at together where they are fewer than a narrow block.
const SMALL: usize = 4;

/// How many bytes are looked at together in a text that is shorter than a wide block.
const NARROW: usize = 8;

/// How many bytes are looked at together in a longer text.
const WIDE: usize = 16;

/// Which bytes of a block are not ASCII, each as a bit.
#[inline(always)]
#[tactic(auto, using(crate::proofs::Utf8Lanes::lane_steps))]
fn others<const N: usize>(block: Simd<u8, N>) -> u64
    requires { N ≤ 64 }
    ensures { result ≡ mask_l (map (nat_le 0x80) block.entry) }
{
    block.simd_ge(Simd::splat(0x80)).to_bitmask()
}

/// Whether bytes that are too few for a block are all ASCII.
fn few_are_ascii(bytes: &[u8]) -> bool
    ensures { MatchBool result (IsAscii bytes.now) (IsNotAscii bytes.now) }
{
    for b in bytes {
        if *b >= 0x80 {
            return false;
        }
    }
    true
}

/// Whether the bytes of the block at a place are all ASCII.
#[inline(always)]
fn is_ascii_at<const N: usize>(bytes: &[u8], at: usize) -> bool
    requires within { at + N ≤ length bytes.now }
    requires few { N ≤ 64 }
    ensures { MatchBool result (IsAsciiFrom at (at + N) bytes.now) (IsNotAscii bytes.now) }
{
    others(Simd::<u8, N>::from_slice(&bytes[at..])) == 0
}

/// Whether the bytes at the front of a text, as many as four blocks are, are all ASCII. Each block is looked at: where the first
/// byte lies that is not ASCII cannot be foreseen, so that a branch at it would cost more.
#[inline(always)]
fn front_is_ascii<const N: usize>(bytes: &[u8]) -> bool
    requires some { N ≤ length bytes.now }
    requires few { N ≤ 64 }
    ensures { MatchBool result (IsAsciiFrom 0 (min (4 * N) (length bytes.now)) bytes.now) (IsNotAscii bytes.now) }
{
    let last = bytes.len() - N;
    let first = is_ascii_at::<N>(bytes, 0);
    let second = is_ascii_at::<N>(bytes, last.min(N));
    let third = is_ascii_at::<N>(bytes, last.min(2 * N));
    let fourth = is_ascii_at::<N>(bytes, last.min(3 * N));
    first & second & third & fourth
}

/// Whether the bytes of a text that is shorter than a wide block are all ASCII.
#[inline(always)]
fn short_is_ascii(bytes: &[u8]) -> bool
    requires { length bytes.now < 16 }
    ensures { MatchBool result (IsAscii bytes.now) (IsNotAscii bytes.now) }
{
    if bytes.len() >= NARROW {
        return front_is_ascii::<NARROW>(bytes);
    }
    if bytes.len() >= SMALL {
        return front_is_ascii::<SMALL>(bytes);
    }
    few_are_ascii(bytes)
}

/// Whether bytes are all ASCII. The last block may begin in the one before it.
#[inline(always)]
pub(crate) fn is_ascii(bytes: &[u8]) -> bool
    ensures { MatchBool result (IsAscii bytes.now) (IsNotAscii bytes.now) }
{
    if bytes.len() < WIDE {
        return short_is_ascii(bytes);
    }
    if !front_is_ascii::<WIDE>(bytes) {
        return false;
    }
    let last = bytes.len() - WIDE;
    let mut at = last.min(3 * WIDE);
    'each: while at < last {
        at = last.min(at + WIDE);
        if !is_ascii_at::<WIDE>(bytes, at) {
            return false;
        }
    }
    true
}
