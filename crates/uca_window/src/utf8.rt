//! Whether bytes are UTF-8.
ghost use Rattle.std.specs.Prelude.{◌≡◌, ℕ, ◌+◌, ◌-◌, ◌*◌, ◌≤◌, ◌<◌, ◌↔◌, false, not, length, slice_index, IsTrue};
ghost use Rattle.std.specs.Str.{IsUtf8};
ghost use Rattle.uca_window.specs.Utf8.{is_unpaired, is_fault, ArePaired, AreFine};

use simdutf8::is_utf8;
use std::simd::prelude::*;

/// How many bytes are looked at together where they are too few for a wide block.
const NARROW: usize = 8;

/// How many bytes are looked at together at the end of a text that is at most one byte longer than a narrow block.
const HALF: usize = NARROW / 2;

/// How many bytes are looked at together.
const WIDE: usize = 16;

/// Whether the bytes of a block spell characters of one or two bytes: each continues a character just where the byte before it, which is in
/// the other block, begins one of two bytes, and none before one of them begins a longer character.
#[inline(always)]
fn are_paired_after<const N: usize>(before: Simd<u8, N>, block: Simd<u8, N>) -> bool
    requires { N ≤ 64 }
    ensures { IsTrue result → (k : ℕ) → k < N → is_unpaired (slice_index before.entry k) (slice_index block.entry k) ≡ false }
{
    let continues = (block - Simd::splat(0x80)).simd_lt(Simd::splat(0x40));
    let needed = (before - Simd::splat(0xC2)).simd_lt(Simd::splat(0x1E));
    ((continues ^ needed) | (needed ^ before.simd_ge(Simd::splat(0xC0)))).to_bitmask() == 0
}

/// The same of the block at a place.
#[inline(always)]
fn are_paired_at<const N: usize>(bytes: &[u8], at: usize) -> bool
    requires begun { 1 ≤ at }
    requires within { at + N ≤ length bytes.now }
    requires few { N ≤ 64 }
    ensures { IsTrue result → ArePaired at (at + N) bytes.now }
{
    let before = Simd::<u8, N>::from_slice(&bytes[at - 1..]);
    are_paired_after(before, Simd::<u8, N>::from_slice(&bytes[at..]))
}

/// Whether no byte of a block is a fault after the bytes of two others, which are those two places and one place before it.
#[inline(always)]
fn are_fine_after<const N: usize>(
    second: Simd<u8, N>,
    first: Simd<u8, N>,
    block: Simd<u8, N>,
) -> bool
    requires { N ≤ 64 }
    ensures { IsTrue result → (k : ℕ) → k < N → is_fault (slice_index second.entry k) (slice_index first.entry k) (slice_index block.entry k) ≡ false }
{
    let continues = (block - Simd::splat(0x80)).simd_lt(Simd::splat(0x40));
    let begins = (first - Simd::splat(0xC2)).simd_lt(Simd::splat(0x2E));
    let needed = begins | second.simd_ge(Simd::splat(0xE0));
    let other = begins ^ first.simd_ge(Simd::splat(0xC0));
    let is_low = block.simd_lt(Simd::splat(0xA0));
    let out = first.simd_eq(is_low.select(Simd::splat(0xE0), Simd::splat(0xED)));
    ((continues ^ needed) | other | out).to_bitmask() == 0
}

/// Whether no byte of the block at a place is a fault.
#[inline(always)]
fn are_fine_at<const N: usize>(bytes: &[u8], at: usize) -> bool
    requires begun { 2 ≤ at }
    requires within { at + N ≤ length bytes.now }
    requires few { N ≤ 64 }
    ensures { IsTrue result → AreFine at (at + N) bytes.now }
{
    let second = Simd::<u8, N>::from_slice(&bytes[at - 2..]);
    let first = Simd::<u8, N>::from_slice(&bytes[at - 1..]);
    are_fine_after(second, first, Simd::<u8, N>::from_slice(&bytes[at..]))
}

/// Whether no byte of the first wide block of a text is a fault.
#[inline(always)]
fn are_first_fine(bytes: &[u8]) -> bool
    requires { WIDE ≤ length bytes.now }
    ensures { IsTrue result → AreFine 0 WIDE bytes.now }
{
    let none = u8x16::splat(0);
    let block = u8x16::from_slice(bytes);
    let second = none.shuffle(
        block,
        [
            14, 15, 16, 17, 18, 19, 20, 21, 22, 23, 24, 25, 26, 27, 28, 29,
        ],
    );
    let first = none.shuffle(
        block,
        [
            15, 16, 17, 18, 19, 20, 21, 22, 23, 24, 25, 26, 27, 28, 29, 30,
        ],
    );
    are_fine_after(second, first, block)
}

/// The same of its first narrow block.
#[inline(always)]
fn few_first_fine(bytes: &[u8]) -> bool
    requires { NARROW ≤ length bytes.now }
    ensures { IsTrue result → AreFine 0 NARROW bytes.now }
{
    let none = u8x8::splat(0);
    let block = u8x8::from_slice(bytes);
    let second = none.shuffle(block, [6, 7, 8, 9, 10, 11, 12, 13]);
    let first = none.shuffle(block, [7, 8, 9, 10, 11, 12, 13, 14]);
    are_fine_after(second, first, block)
}

/// Whether the first byte of a text continues no character, and the last begins none.
#[inline(always)]
fn are_ends_paired(bytes: &[u8]) -> bool
    requires { 0 < length bytes.now }
    ensures { IsTrue result → (is_unpaired 0 (slice_index bytes.now 0) ≡ false) × (slice_index bytes.now (length bytes.now - 1) < 0xC0) }
{
    let first = bytes[0];
    ((first < 0x80) | (0xC0 <= first)) & (bytes[bytes.len() - 1] < 0xC0)
}

/// Two narrow blocks of a text, one after the other.
#[inline(always)]
fn two_blocks(bytes: &[u8], first: usize, second: usize) -> u8x16
    requires in_first { first + NARROW ≤ length bytes.now }
    requires in_second { second + NARROW ≤ length bytes.now }
    ensures front { (k : ℕ) → k < NARROW → slice_index result k ≡ slice_index bytes.now (first + k) }
    ensures back { (k : ℕ) → k < NARROW → slice_index result (NARROW + k) ≡ slice_index bytes.now (second + k) }
{
    let front = u8x8::from_slice(&bytes[first..]);
    let back = u8x8::from_slice(&bytes[second..]);
    front.shuffle(back, [0, 1, 2, 3, 4, 5, 6, 7, 8, 9, 10, 11, 12, 13, 14, 15])
}

/// Whether a text of characters of up to two bytes is UTF-8, by two narrow blocks. Others are refused.
#[inline(always)]
fn few_are_paired(bytes: &[u8]) -> bool
    requires some { NARROW < length bytes.now }
    requires few { length bytes.now ≤ 2 * NARROW }
    ensures { IsTrue result → IsUtf8 bytes.now }
{
    let last = bytes.len() - NARROW;
    let before = two_blocks(bytes, 0, last - 1);
    let block = two_blocks(bytes, 1, last);
    are_ends_paired(bytes) & are_paired_after(before, block)
}

/// The same by four wide blocks.
#[inline(always)]
fn are_paired(bytes: &[u8]) -> bool
    requires some { WIDE < length bytes.now }
    requires few { length bytes.now ≤ 4 * WIDE }
    ensures { IsTrue result → IsUtf8 bytes.now }
{
    let last = bytes.len() - WIDE;
    let first = are_paired_at::<WIDE>(bytes, 1);
    let second = are_paired_at::<WIDE>(bytes, last.min(WIDE + 1));
    let third = are_paired_at::<WIDE>(bytes, last.min(2 * WIDE + 1));
    let fourth = are_paired_at::<WIDE>(bytes, last.min(3 * WIDE + 1));
    are_ends_paired(bytes) & first & second & third & fourth
}

/// Whether no character is left open at the end of a text in which no character has four bytes.
#[inline(always)]
fn is_closed(bytes: &[u8]) -> bool
    requires { 2 ≤ length bytes.now }
    ensures { IsTrue result → (slice_index bytes.now (length bytes.now - 2) < 0xE0) × (slice_index bytes.now (length bytes.now - 1) < 0xC0) }
{
    (bytes[bytes.len() - 2] < 0xE0) & (bytes[bytes.len() - 1] < 0xC0)
}

/// Whether no byte of a text that is no shorter than a narrow block, and not much longer than a wide one, is a fault.
#[inline(always)]
fn few_are_fine(bytes: &[u8]) -> bool
    requires some { NARROW ≤ length bytes.now }
    requires few { length bytes.now < 2 + WIDE }
    ensures { IsTrue result → AreFine 0 (length bytes.now) bytes.now }
{
    if bytes.len() < 2 + NARROW {
        return few_first_fine(bytes) & are_fine_at::<HALF>(bytes, bytes.len() - HALF);
    }
    let back = are_fine_at::<NARROW>(bytes, bytes.len() - NARROW);
    if bytes.len() < WIDE {
        return few_first_fine(bytes) & back;
    }
    are_first_fine(bytes) & back
}

/// Whether no byte of a longer text is a fault, by two wide blocks at a time. The last may begin in the one before it.
#[inline(always)]
fn are_fine(bytes: &[u8]) -> bool
    requires { 2 + WIDE ≤ length bytes.now }
    ensures { IsTrue result → AreFine 0 (length bytes.now) bytes.now }
{
    let last = bytes.len() - WIDE;
    let mut at = last.min(WIDE);
    if !(are_first_fine(bytes) & are_fine_at::<WIDE>(bytes, at)) {
        return false;
    }
    'each: while at < last {
        let next = last.min(at + WIDE);
        at = last.min(at + 2 * WIDE);
        if !(are_fine_at::<WIDE>(bytes, next) & are_fine_at::<WIDE>(bytes, at)) {
            return false;
        }
    }
    true
}

/// Whether a text of characters of up to three bytes is UTF-8. Others are refused.
#[inline(always)]
fn are_fine_utf8(bytes: &[u8]) -> bool
    requires { NARROW ≤ length bytes.now }
    ensures { IsTrue result → IsUtf8 bytes.now }
{
    let closed = is_closed(bytes);
    if bytes.len() < 2 + WIDE {
        return closed & few_are_fine(bytes);
    }
    closed & are_fine(bytes)
}

/// Whether the first character of a text and the last begin with bytes below E0. Then those between mostly have up to two bytes too.
#[inline(always)]
fn are_ends_short(bytes: &[u8]) -> bool
    requires { 3 ≤ length bytes.now }
{
    (bytes[0] < 0xE0) & (bytes[bytes.len() - 3] < 0xE0)
}

/// Whether a text has only characters of up to two bytes and is UTF-8. Others are refused, and so are the shortest and the longest.
#[inline(always)]
pub(crate) fn are_short_utf8(bytes: &[u8]) -> bool
    ensures { IsTrue result → IsUtf8 bytes.now }
{
    if bytes.len() <= NARROW || 4 * WIDE < bytes.len() || !are_ends_short(bytes) {
        return false;
    }
    if bytes.len() <= 2 * NARROW {
        return few_are_paired(bytes);
    }
    are_paired(bytes)
}

/// Whether a text of characters of up to three bytes is UTF-8. Others are refused, and so are the shortest.
#[inline(always)]
fn are_common_utf8(bytes: &[u8]) -> bool
    ensures { IsTrue result → IsUtf8 bytes.now }
{
    bytes.len() >= NARROW && are_fine_utf8(bytes)
}

/// Whether bytes are UTF-8, whatever characters they spell. It is not inlined, so that other texts do not pay for its stack frame.
#[inline(never)]
fn are_any_utf8(bytes: &[u8]) -> bool
    ensures { IsTrue result ↔ IsUtf8 bytes.now }
{
    is_utf8(bytes)
}

/// Whether bytes are UTF-8. Where they have faults or characters of four bytes, that is found by the slower way.
pub(crate) fn are_utf8(bytes: &[u8]) -> bool
    ensures { IsTrue result ↔ IsUtf8 bytes.now }
{
    are_common_utf8(bytes) || are_any_utf8(bytes)
}
