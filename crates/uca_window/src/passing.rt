//! Characters that a scan passes without a look at their decompositions.
ghost use Rattle.std.specs.Prelude.{◌≡◌, ◌+◌, ◌*◌, ◌≤◌, ◌<◌, ℕ, false, true, not, length, map, slice_index, IfSome, IsTrue};
ghost use Rattle.std.specs.List.{count_by, prefix_len};
ghost use Rattle.std.specs.Simd.Lanes.{chunk, mask_l};
ghost use Rattle.uca_window.specs.Passing.{is_passed, is_passed_outside, is_passed_between, is_stop, is_of_pair, is_dense, is_high, added_by, Passes, Skips};

use std::simd::prelude::*;
use uca_weights::MAX_RUN;

/// How many bytes are looked at together.
const LANES: usize = 32;

/// The NFD of a character is no longer than this.
const LONGEST_NFD: usize = 4;

/// How many bytes may follow a passed character, whatever they spell: the NFD of that character ends in fewer than
/// `LONGEST_NFD` nonstarters, and each byte adds at most one more.
pub(crate) const STRIDE: usize = MAX_RUN - (LONGEST_NFD - 1);

/// The byte with which U+0344 begins, the only character that adds as many nonstarters as it has bytes.
const DENSE: u8 = 0xCD;

/// The greatest length in bytes at which a text without that byte is safe whatever it spells: each other character adds at most two
/// nonstarters for three bytes.
pub(crate) const MEDIUM: usize = STRIDE + STRIDE / 2;

/// The greatest length in bytes at which a coarse look at a text is worth its time: three bytes for each nonstarter.
pub(crate) const COARSE: usize = 3 * STRIDE;

/// Whether a character before Hebrew or after Lao is of a range in which each NFD begins with a starter: Latin, Greek and
/// Cyrillic letters, Han, kana, Hangul, punctuation and symbols.
fn is_passed_outside(c: char) -> bool
    ensures { result ≡ is_passed_outside c }
{
    c < '\u{300}'
        || ('\u{370}' <= c && c < '\u{483}')
        || ('\u{48A}' <= c && c < '\u{591}')
        || ('\u{1100}' <= c && c < '\u{1200}')
        || ('\u{1E00}' <= c && c < '\u{20D0}')
        || ('\u{2100}' <= c && c < '\u{2CEF}')
        || ('\u{2E00}' <= c && c < '\u{302A}')
        || ('\u{3030}' <= c && c < '\u{3099}')
        || ('\u{309B}' <= c && c < '\u{A66F}')
        || ('\u{AC00}' <= c && c < '\u{FB00}')
        || '\u{1F000}' <= c
}

/// The same from Hebrew to Lao: most letters and vowel signs, those of Devanagari first.
fn is_passed_between(c: char) -> bool
    ensures { result ≡ is_passed_between c }
{
    ('\u{904}' <= c && c < '\u{93C}')
        || ('\u{93D}' <= c && c < '\u{94D}')
        || ('\u{955}' <= c && c < '\u{9BC}')
        || ('\u{9BD}' <= c && c < '\u{9CD}')
        || ('\u{A5F}' <= c && c < '\u{ABC}')
        || ('\u{B5E}' <= c && c < '\u{BCD}')
        || ('\u{C57}' <= c && c < '\u{CBC}')
        || ('\u{DCB}' <= c && c < '\u{E38}')
        || ('\u{E3B}' <= c && c < '\u{E48}')
        || ('\u{E4C}' <= c && c < '\u{EB8}')
        || ('\u{5D0}' <= c && c < '\u{610}')
        || ('\u{61B}' <= c && c < '\u{64B}')
        || ('\u{671}' <= c && c < '\u{6D6}')
}

/// Whether a character is of a range in which each NFD begins with a starter. Whatever nonstarters came before it, they
/// end there.
pub(crate) fn is_passed(c: char) -> bool
    ensures { result ≡ is_passed c }
{
    if c < '\u{370}' {
        return c < '\u{300}';
    }
    if c < '\u{591}' || '\u{1100}' <= c {
        return is_passed_outside(c);
    }
    c < '\u{EB8}' && is_passed_between(c)
}

/// Whether characters that are not all passed begin with a byte.
fn is_stop(byte: u8) -> bool
    ensures { result ≡ is_stop byte }
{
    (0xCC <= byte && byte < 0xCE)
        || byte == 0xD2
        || (0xD6 <= byte && byte < 0xE4)
        || byte == 0xEA
        || 0xEE <= byte
}

/// The same of each byte of a block, as a bit.
#[inline(always)]
fn stops(block: u8x32) -> u64
    ensures { result ≡ mask_l (map is_stop block) }
{
    ((block - u8x32::splat(0xCC)).simd_lt(u8x32::splat(2))
        | block.simd_eq(u8x32::splat(0xD2))
        | (block - u8x32::splat(0xD6)).simd_lt(u8x32::splat(14))
        | block.simd_eq(u8x32::splat(0xEA))
        | block.simd_ge(u8x32::splat(0xEE))).to_bitmask()
}

/// How many bytes of a block come before the first that is a stop.
#[inline(always)]
fn passed_in(bytes: &[u8], at: usize) -> usize
    requires { at + LANES ≤ length bytes.now }
    ensures { result ≡ prefix_len (λ b. not (is_stop b)) (chunk at 32 bytes.now) }
{
    let found = stops(u8x32::from_slice(&bytes[at..]));
    if found == 0 {
        LANES
    } else {
        found.trailing_zeros() as usize
    }
}

/// How many bytes of a text come before the first that is a stop.
#[tactic(auto, using(crate::proofs::PassedCharacters::passing_steps))]
fn passed_len(bytes: &[u8]) -> usize
    ensures { result ≡ prefix_len (λ b. not (is_stop b)) bytes.now }
{
    // In scripts whose characters are not passed, most characters begin with a stop: no block is looked at for them.
    if !bytes.is_empty() && is_stop(bytes[0]) {
        return 0;
    }
    let mut at = 0;
    while at + LANES <= bytes.len() {
        let passed = passed_in(bytes, at);
        if passed < LANES {
            return at + passed;
        }
        at += LANES;
    }
    while at < bytes.len() {
        if is_stop(bytes[at]) {
            return at;
        }
        at += 1;
    }
    at
}

/// Which bytes of a block are those of which each character has one whose NFD is two nonstarters. It counts twice by that: once
/// by its stop, and once more by this byte.
#[inline(always)]
fn of_pairs(block: u8x32) -> u64
    ensures { result ≡ mask_l (map is_of_pair block) }
{
    (block.simd_eq(u8x32::splat(0xCD))
        | (block - u8x32::splat(0xBD)).simd_lt(u8x32::splat(2))).to_bitmask()
}

/// Which bytes of a block are dense: each with which U+0344 begins.
#[inline(always)]
fn dense(block: u8x32) -> u64
    ensures { result ≡ mask_l (map is_dense block) }
{
    block.simd_eq(u8x32::splat(DENSE)).to_bitmask()
}

/// Which bytes of a block are high: each with which a character of several bytes begins, and the second of each of the three
/// others whose NFD is two nonstarters.
#[inline(always)]
fn high(block: u8x32) -> u64
    ensures { result ≡ mask_l (map is_high block) }
{
    block.simd_ge(u8x32::splat(0xBD)).to_bitmask()
}

/// How many nonstarters the bytes of a block add to a run at most. By the coarser look, which costs half as much, each character of
/// several bytes adds one, and one more for each of its bytes that may belong to a pair.
#[inline(always)]
fn added_in(bytes: &[u8], at: usize, coarsely: bool) -> usize
    requires { at + LANES ≤ length bytes.now }
    ensures { result ≡ added_by coarsely (chunk at 32 bytes.now) }
{
    let block = u8x32::from_slice(&bytes[at..]);
    if coarsely {
        return (high(block).count_ones() + dense(block).count_ones()) as usize;
    }
    (stops(block).count_ones() + of_pairs(block).count_ones()) as usize
}

/// Whether a text adds so few nonstarters to a run that it is safe whatever it spells. The last block may begin in the one
/// before it: what lies in both counts twice, so that the count is never too small.
#[inline(always)]
fn adds_few_by(bytes: &[u8], coarsely: bool) -> bool
    requires { LANES ≤ length bytes.now }
    ensures { IsTrue result → added_by coarsely bytes.now ≤ STRIDE }
{
    let last = bytes.len() - LANES;
    let mut at = 0;
    let mut count = 0;
    'each: loop {
        count += added_in(bytes, at, coarsely);
        if count > STRIDE {
            return false;
        }
        if at == last {
            return true;
        }
        at = last.min(at + LANES);
    }
}

/// Whether a text adds so few nonstarters to a run that it is safe whatever it spells. It is not inlined, for the same reason as
/// `scan`.
#[inline(never)]
pub(crate) fn adds_few(bytes: &[u8]) -> bool
    requires { LANES ≤ length bytes.now }
    ensures { IsTrue result → added_by false bytes.now ≤ STRIDE }
{
    adds_few_by(bytes, false)
}

/// The same by a coarser look, which is enough for most texts of fewer than `STRIDE` characters.
#[inline(never)]
pub(crate) fn adds_few_coarsely(bytes: &[u8]) -> bool
    requires { LANES ≤ length bytes.now }
    ensures { IsTrue result → added_by true bytes.now ≤ STRIDE }
{
    adds_few_by(bytes, true)
}

/// Whether no byte of the block at a place is dense.
#[inline(always)]
fn none_dense_at(bytes: &[u8], at: usize) -> bool
    requires { at + LANES ≤ length bytes.now }
    ensures { IsTrue result → (k : ℕ) → at ≤ k → k < at + LANES → is_dense (slice_index bytes.now k) ≡ false }
{
    dense(u8x32::from_slice(&bytes[at..])) == 0
}

/// Whether no byte of a text of one to three blocks is dense. Most texts that are longer than [`STRIDE`] are that short, and such
/// a byte is rare.
#[inline(always)]
#[tactic(auto, using(crate::proofs::RunScan::counted_steps))]
pub(crate) fn none_dense(bytes: &[u8]) -> bool
    requires some { LANES ≤ length bytes.now }
    requires few { length bytes.now ≤ 3 * LANES }
    ensures { IsTrue result → count_by is_dense bytes.now ≡ 0 }
{
    let last = bytes.len() - LANES;
    let first = none_dense_at(bytes, 0);
    let second = none_dense_at(bytes, last.min(LANES));
    let third = none_dense_at(bytes, last);
    first & second & third
}

/// What is left of a text after characters at its front that are all passed, and the last of these; `last` where there is
/// none. A text of less than two blocks is left whole: two looks of [`skip`] cost less than its blocks and single bytes.
pub(crate) fn pass<'t>(text: &'t str, last: char) -> (&'t str, char)
    ensures { Passes text.now last result.0.now result.1 }
{
    if text.len() < 2 * LANES {
        return (text, last);
    }
    let passed = passed_len(text.as_bytes());
    if passed == 0 {
        return (text, last);
    }
    let (front, others) = text.split_at(passed);
    match front.chars().next_back() {
        Some(end) => (others, end),
        None => (others, last),
    }
}

/// What is left of a text after a passed character that begins at most `STRIDE` bytes after `last`, which is passed itself, and
/// that character: the furthest of these. `None` where there is none.
pub(crate) fn skip<'t>(text: &'t str, last: char) -> Option<(&'t str, char)>
    requires { is_passed last ≡ true }
    ensures { IfSome result (λ r. Skips text.now r.0.now r.1) }
{
    for at in (0..text.len().min(STRIDE + 1)).rev() {
        if text.is_char_boundary(at) {
            let mut characters = text.split_at(at).1.chars();
            let next = characters.next();
            if let Some(c) = next {
                if is_passed(c) {
                    return Some((characters.as_str(), c));
                }
            }
        }
    }
    None
}
