ghost use Rattle.std.specs.Prelude.{◌≡◌, ◌+◌, ◌*◌, ◌/◌, ◌%◌, ◌^◌, ◌<◌, ◌≤◌, ◌++◌, take, length, map, MatchResult};
ghost use Rattle.std.specs.Simd.Lanes.{chunk};
ghost use Rattle.uca_io.specs.Digits.{hex_digit};
ghost use Rattle.uca_io.specs.Hex.{hex_text, spaced, spaced_pairs};
ghost use Rattle.uca_io.specs.OutputBuffer.{accepted, Accepts, FailsPartway};

use crate::digits::hex_digit;
use crate::output_buffer::OutputBlock;
use crate::writer::{WriteFault, Writer};
use std::simd::prelude::*;

/// How many bytes are written as digits in one piece.
const PIECE: usize = 256;

/// How many bytes of a piece become digits together.
const LANES: usize = 16;

/// How many bytes after the digits are overwritten: digits are put 32 bytes at a time, of which 24 count.
const SPARE: usize = 8;

/// The digits.
const DIGITS: [u8; 16] = *b"0123456789ABCDEF";

/// The first digit of each byte.
#[inline(always)]
fn first_digits(bytes: u8x16) -> u8x16
    ensures { result ≡ map (λ b. hex_digit (b / 16)) bytes }
{
    u8x16::from_array(DIGITS).swizzle_dyn(bytes >> u8x16::splat(4))
}

/// The second digit of each byte.
#[inline(always)]
fn second_digits(bytes: u8x16) -> u8x16
    ensures { result ≡ map (λ b. hex_digit (b % 16)) bytes }
{
    u8x16::from_array(DIGITS).swizzle_dyn(bytes & u8x16::splat(15))
}

/// Puts eight pairs of digits at a place of `room`, with a blank before each. It overwrites the eight bytes after them.
#[inline(always)]
fn put_spaced(digits: u8x16, room: &mut [u8], at: usize)
    requires lanes { length digits ≡ 16 }
    requires room { at + 32 ≤ length room.old }
    ensures { take (at + 24) room.new ≡ take at room.old ++ spaced digits }
{
    digits
        .shuffle(
            u8x16::splat(b' '),
            [
                16, 0, 1, 16, 2, 3, 16, 4, 5, 16, 6, 7, 16, 8, 9, 16, 10, 11, 16, 12, 13, 16, 14,
                15, 16, 16, 16, 16, 16, 16, 16, 16,
            ],
        )
        .copy_to_slice(&mut room[at..]);
}

/// Puts sixteen bytes in their place in `room`, as pairs of digits with a blank before each.
#[inline(always)]
fn put_block(bytes: &[u8], from: usize, room: &mut [u8])
    requires bytes { from + 16 ≤ length bytes.now }
    requires room { 3 * length bytes.now + 8 ≤ length room.old }
    ensures { take (3 * (from + 16)) room.new ≡ take (3 * from) room.old ++ spaced_pairs (chunk from 16 bytes.now) }
{
    let block = u8x16::from_slice(&bytes[from..]);
    let (front, back) = first_digits(block).interleave(second_digits(block));
    put_spaced(front, room, 3 * from);
    put_spaced(back, room, 3 * from + 24);
}

/// Puts bytes at the front of `room`, one by one, as pairs of digits with a blank before each.
fn put_each(bytes: &[u8], room: &mut [u8])
    requires { 3 * length bytes.now ≤ length room.old }
    ensures { take (3 * length bytes.now) room.new ≡ spaced_pairs bytes.now }
{
    let mut at = 0;
    for byte in bytes {
        room[at] = b' ';
        room[at + 1] = hex_digit(byte / 16);
        room[at + 2] = hex_digit(byte % 16);
        at += 3;
    }
}

/// Puts bytes at the front of `room` as pairs of digits, with a blank before each. It overwrites the eight bytes after them.
pub(crate) fn put_pairs(bytes: &[u8], room: &mut [u8])
    requires { 3 * length bytes.now + 8 ≤ length room.old }
    ensures { take (3 * length bytes.now) room.new ≡ spaced_pairs bytes.now }
{
    if bytes.len() < LANES {
        put_each(bytes, room);
        return;
    }
    // The last block may begin within the one before it: it puts the same digits there again.
    let last = bytes.len() - LANES;
    let mut from = 0;
    while from < last {
        put_block(bytes, from, room);
        from += LANES;
    }
    put_block(bytes, last, room);
}

/// Writes a piece to a buffer as pairs of digits, with one blank between.
fn send_first<W: Writer>(w: &mut W, out: &mut OutputBlock, bytes: &[u8]) -> Result<(), WriteFault>
    requires some { 0 < length bytes.now }
    requires piece { length bytes.now ≤ 256 }
    requires room { accepted out.old + 3 * length bytes.now < 2 ^ 128 }
    ensures { MatchResult result
        (λ _. Accepts (W.state w.old) out.old (W.state w.new) out.new (hex_text bytes.now))
        (λ f. FailsPartway (W.state w.old) out.old (W.state w.new) (hex_text bytes.now) f) }
{
    out.make_room(w, 3 * bytes.len() + SPARE)?;
    let first = bytes[0];
    out.push(&[hex_digit(first / 16), hex_digit(first % 16)]);
    out.push_pairs(&bytes[1..]);
    Ok(())
}

/// Writes a piece to a buffer as pairs of digits, with a blank before each.
fn send_pairs<W: Writer>(w: &mut W, out: &mut OutputBlock, bytes: &[u8]) -> Result<(), WriteFault>
    requires piece { length bytes.now ≤ 256 }
    requires room { accepted out.old + 3 * length bytes.now < 2 ^ 128 }
    ensures { MatchResult result
        (λ _. Accepts (W.state w.old) out.old (W.state w.new) out.new (spaced_pairs bytes.now))
        (λ f. FailsPartway (W.state w.old) out.old (W.state w.new) (spaced_pairs bytes.now) f) }
{
    out.make_room(w, 3 * bytes.len() + SPARE)?;
    out.push_pairs(bytes);
    Ok(())
}

/// Writes bytes to a buffer as pairs of digits, with a blank before each.
fn send_spaced<W: Writer>(w: &mut W, out: &mut OutputBlock, bytes: &[u8]) -> Result<(), WriteFault>
    requires { accepted out.old + 3 * length bytes.now < 2 ^ 128 }
    ensures { MatchResult result
        (λ _. Accepts (W.state w.old) out.old (W.state w.new) out.new (spaced_pairs bytes.now))
        (λ f. FailsPartway (W.state w.old) out.old (W.state w.new) (spaced_pairs bytes.now) f) }
{
    let mut left = bytes;
    while !left.is_empty() {
        let (front, rest) = left.split_at(left.len().min(PIECE));
        send_pairs(w, out, front)?;
        left = rest;
    }
    Ok(())
}

/// Writes bytes to a buffer as pairs of digits, with one blank between.
pub fn send_hex<W: Writer>(w: &mut W, out: &mut OutputBlock, bytes: &[u8]) -> Result<(), WriteFault>
    requires { accepted out.old + 3 * length bytes.now < 2 ^ 128 }
    ensures { MatchResult result
        (λ _. Accepts (W.state w.old) out.old (W.state w.new) out.new (hex_text bytes.now))
        (λ f. FailsPartway (W.state w.old) out.old (W.state w.new) (hex_text bytes.now) f) }
{
    if bytes.is_empty() {
        return Ok(());
    }
    let (first, others) = bytes.split_at(bytes.len().min(PIECE));
    send_first(w, out, first)?;
    send_spaced(w, out, others)
}
