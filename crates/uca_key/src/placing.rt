// Keys that are put into a buffer piece by piece, level after level.
#![tactic(auto, using(crate::proofs::KeyPieces::key_steps))]

ghost use Rattle.std.specs.Prelude.{◌≡◌, ◌<◌, ◌≤◌, ◌+◌, ◌-◌, ◌*◌, ◌^◌, IsTrue, chars, length, min};
ghost use Rattle.uca_model.specs.DecidingLevel.{bytes_at};
ghost use Rattle.uca_model.specs.LevelWeights.{level_list};
ghost use Rattle.uca_model.specs.SafeText.{IsSafe};
ghost use Rattle.uca_model.specs.SortKey.{code_point_bytes, level_bytes, sort_key};
ghost use Rattle.uca_model.specs.Source.{unread};
ghost use Rattle.uca_window.specs.Passage.{bytes_of, text_of};
ghost use Rattle.uca_key.specs.Pieces.{HoldsWeights, weights_of};
ghost use Rattle.uca_key.specs.Placing.{PutsAt, with_front};

use crate::level_bytes::put_level;
use crate::pieces::TextReading;
use uca_levels::Points;
use uca_table::Table;
use uca_weights::{Element, Settings, Variable};
use uca_window::{Passage, PassageSource, Source};

/// How many elements of a text are held where no memory is allocated for them.
pub(crate) const ROOM: usize = 128;

/// How many elements of a shorter text are held: to clear more takes a part of the time of its key.
pub(crate) const FEW: usize = 48;

/// The longest text in bytes whose elements are held without an allocation, unless it has more of them than bytes. A key of such a
/// text is made by [`put_key`] as fast as by [`key_of`](crate::key_of); for a longer one it reads the text once a level.
pub const SHORT: usize = ROOM - 1;

/// Copies bytes into the front of a buffer, or as many of them as fit.
pub fn copy_front(bytes: &[u8], out: &mut [u8])
    ensures { out.new ≡ with_front bytes.now out.old }
{
    let n = bytes.len().min(out.len());
    out[..n].copy_from_slice(&bytes[..n]);
}

/// Whether bytes of each of so many elements fit between a place of a buffer and its end.
#[inline(always)]
pub(crate) fn has_room(elements: usize, each: usize, at: usize, room: usize) -> bool
    requires { 0 < each }
    ensures { IsTrue result → at + each * elements ≤ room }
{
    at <= room && elements <= (room - at) / each
}

/// Whether bytes of each of so many elements, and one more that ends them, fit between a place of a buffer and its end.
#[inline(always)]
pub(crate) fn has_room_for_end(elements: usize, each: usize, at: usize, room: usize) -> bool
    requires { 0 < each }
    ensures { IsTrue result → at + each * elements < room }
{
    at < room && elements <= (room - at - 1) / each
}

/// Puts bytes at a place of a buffer, or as many of them as fit there, and returns the place after them.
pub(crate) fn put_bytes(bytes: &[u8], at: usize, out: &mut [u8]) -> usize
    ensures { PutsAt at bytes.now out.old out.new result }
{
    if at < out.len() {
        copy_front(bytes, &mut out[at..]);
    }
    at.saturating_add(bytes.len())
}

// Puts a code point.
fn put_point(point: char, at: usize, out: &mut [u8]) -> usize
    ensures { PutsAt at (code_point_bytes point) out.old out.new result }
{
    put_bytes(&(point as u32).to_be_bytes()[1..], at, out)
}

// Puts the weights of a level of elements that the room does not hold, as they are read once more.
#[inline(never)]
fn put_weights_again(
    level: u8,
    reading: &TextReading,
    room: &mut [Element],
    at: usize,
    out: &mut [u8],
) -> usize
    requires first { 1 ≤ level }
    requires last { level ≤ 4 }
    requires some { 0 < length room.old }
    requires size { length out.old < 2 ^ 64 }
    ensures { PutsAt at (level_bytes (weights_of reading.now) level) out.old out.new result }
{
    let mut left = reading.again();
    let mut next = at;
    'each: loop {
        let n = left.read(room);
        if n == 0 {
            return next;
        }
        next = put_level(reading.settings.weighting, &room[..n], level, next, out);
    }
}

// Puts the weights of a level of a text that was read into room.
fn put_weights(
    level: u8,
    reading: &TextReading,
    room: &mut [Element],
    at: usize,
    out: &mut [u8],
) -> usize
    requires first { 1 ≤ level }
    requires last { level ≤ 4 }
    requires some { 0 < length room.old }
    requires holds { HoldsWeights reading.now room.old }
    requires size { length out.old < 2 ^ 64 }
    ensures bytes { PutsAt at (level_bytes (weights_of reading.now) level) out.old out.new result }
    ensures holds { HoldsWeights reading.now room.new }
{
    if let Some(held) = reading.held {
        return put_level(reading.settings.weighting, &room[..held], level, at, out);
    }
    put_weights_again(level, reading, room, at, out)
}

// Puts the code points in NFD, of what a source has not given yet.
fn put_points<S: Source>(t: &Table, v: Variable, source: &mut S, at: usize, out: &mut [u8]) -> usize
    requires safe { IsSafe (unread (S.state source.old)) }
    requires room { length out.old < 2 ^ 64 }
    ensures bytes { PutsAt at (bytes_at 5 (level_list t.now v (unread (S.state source.old)) 5)) out.old out.new result }
    ensures text { (S.state source.new).text ≡ (S.state source.old).text }
{
    let mut points = Points::new();
    let mut next = at;
    'each: while let Some(point) = points.next(source) {
        next = put_point(point, next, out);
    }
    next
}

// Puts the code points of a text in NFD.
pub(crate) fn put_text(t: &Table, v: Variable, text: &str, at: usize, out: &mut [u8]) -> usize
    requires safe { IsSafe (chars text.now) }
    requires room { length out.old < 2 ^ 64 }
    ensures { PutsAt at (bytes_at 5 (level_list t.now v (chars text.now) 5)) out.old out.new result }
{
    let mut source = PassageSource::new(&Passage::of_safe(text));
    put_points(t, v, &mut source, at, out)
}

// Puts one level of a text that was read into room.
fn put_level_of(
    reading: &TextReading,
    level: u8,
    room: &mut [Element],
    at: usize,
    out: &mut [u8],
) -> usize
    requires first { 1 ≤ level }
    requires last { level ≤ 5 }
    requires some { 0 < length room.old }
    requires holds { HoldsWeights reading.now room.old }
    requires size { length out.old < 2 ^ 64 }
    ensures bytes { PutsAt at (bytes_at level (level_list reading.now.table.now reading.now.settings.weighting (chars reading.now.text.now) level)) out.old out.new result }
    ensures holds { HoldsWeights reading.now room.new }
{
    if level == 5 {
        return put_text(
            reading.table,
            reading.settings.weighting,
            reading.text,
            at,
            out,
        );
    }
    put_weights(level, reading, room, at, out)
}

/// Puts the sort key of a text that was read into room at a place of a buffer, level after level.
pub(crate) fn put_levels(
    reading: &TextReading,
    room: &mut [Element],
    at: usize,
    out: &mut [u8],
) -> usize
    requires some { 0 < length room.old }
    requires holds { HoldsWeights reading.now room.old }
    requires size { length out.old < 2 ^ 64 }
    ensures bytes { PutsAt at (sort_key reading.now.table.now reading.now.settings (chars reading.now.text.now)) out.old out.new result }
    ensures holds { HoldsWeights reading.now room.new }
{
    let last = reading.settings.levels();
    let mut level = 1;
    let mut next = at;
    'each: loop {
        next = put_level_of(reading, level, room, next, out);
        if level == last {
            return next;
        }
        next = put_bytes(&[0, 0], next, out);
        level += 1;
    }
}

// Puts the sort key of a text, whose elements are read into room, into the front of a buffer.
#[inline(never)]
fn put_by(t: &Table, s: Settings, p: &Passage, room: &mut [Element], out: &mut [u8]) -> usize
    requires some { 0 < length room.old }
    requires size { length out.old < 2 ^ 64 }
    ensures { PutsAt 0 (sort_key t.now s (text_of p.now)) out.old out.new result }
{
    let reading = TextReading::new(t, s, p.as_str(), room);
    put_levels(&reading, room, 0, out)
}

/// Puts the sort key of a text into the front of a buffer, or as many of its bytes as fit, and returns how many it has, or
/// `usize::MAX` where it has more than that (UTS #10, section 7.3). It does not allocate.
pub fn put_key(t: &Table, s: Settings, p: &Passage, out: &mut [u8]) -> usize
    ensures size { result ≡ min (length (sort_key t.now s (text_of p.now))) (2 ^ 64 - 1) }
    ensures exact { length (bytes_of p.now) ≤ 65536 → result ≡ length (sort_key t.now s (text_of p.now)) }
    ensures front { out.new ≡ with_front (sort_key t.now s (text_of p.now)) out.old }
{
    let _room = out.len();
    // Shows that the table is one.
    let _longest = t.longest();
    if p.as_str().len() < FEW {
        return put_by(t, s, p, &mut [Element::default(); FEW], out);
    }
    put_by(t, s, p, &mut [Element::default(); ROOM], out)
}
