// Packed sort keys that are put into a buffer, level after level.
#![tactic(auto, using(crate::proofs::PackedPieces::level_steps))]

ghost use Rattle.std.specs.Prelude.{◌≡◌, ◌-◌, ◌<◌, ◌≤◌, ◌^◌, chars, length, take};
ghost use Rattle.unicode_normalization.specs.Forms.{nfd};
ghost use Rattle.uca_weights.specs.VariableWeighting.{weighted};
ghost use Rattle.uca_key.specs.Pieces.{HoldsWeights, elements_of, weights_of};
ghost use Rattle.uca_key.specs.Placing.{PutsAt};
ghost use Rattle.uca_key.specs.PackedKey.{later_levels, packed_key_by, packed_later};
ghost use Rattle.uca_key.specs.Runs.{AreMarkedLater};
ghost use Rattle.uca_key.specs.Weighing.{all_own};

use crate::packed_code::PackedCode;
use crate::pieces::TextReading;
use crate::placing::put_text;
use crate::runs::LaterMarks;
use crate::{runs, weight_bytes};
use uca_weights::Element;

// Puts a later level, from 2 to 5, of a text whose elements are held. The masks say which of the first have another weight than the
// common one, or none.
#[inline(always)]
fn put_later(
    reading: &TextReading,
    level: u8,
    marks: LaterMarks,
    elements: &[Element],
    at: usize,
    out: &mut [u8],
) -> usize
    requires first { 2 ≤ level }
    requires last { level ≤ 5 }
    requires marks { AreMarkedLater marks (take 64 elements.now) }
    requires elements { all_own reading.now.settings.weighting elements.now ≡ weighted reading.now.settings.weighting (elements_of reading.now) }
    requires size { length out.old < 2 ^ 64 }
    ensures { PutsAt at (packed_later (weights_of reading.now) (nfd (chars reading.now.text.now)) level) out.old out.new result }
{
    let v = reading.settings.weighting;
    match level {
        2 => runs::put_whole(v, 2, marks.second, elements, at, out),
        3 => runs::put_whole(v, 3, marks.third, elements, at, out),
        4 => runs::put_whole(v, 4, runs::marked_by_one(v, 4, elements), elements, at, out),
        _ => put_text(
            reading.table,
            reading.settings.weighting,
            reading.text,
            at,
            out,
        ),
    }
}

// Puts the later levels, up to this one, of a text whose elements are held, and of which some have no weight. It is not inlined, and its
// levels share their code, so that other texts do not pay for its registers.
#[inline(never)]
fn put_blank_levels(
    reading: &TextReading,
    last: u8,
    room: &[Element],
    held: usize,
    at: usize,
    out: &mut [u8],
) -> usize
    requires from { 1 ≤ last }
    requires to { last ≤ 5 }
    requires within { held ≤ length room.now }
    requires elements { all_own reading.now.settings.weighting (take held room.now) ≡ weighted reading.now.settings.weighting (elements_of reading.now) }
    requires size { length out.old < 2 ^ 64 }
    ensures { PutsAt at (later_levels (last - 1) 2 (weights_of reading.now) (nfd (chars reading.now.text.now))) out.old out.new result }
{
    let marks = runs::first_marks(room, held, true);
    let elements = &room[..held];
    let mut next = at;
    let mut level = 1;
    'levels: while level < last {
        level += 1;
        next = put_later(reading, level, marks, elements, next, out);
    }
    next
}

// The same of a text of whose elements none is known to have no weight. Each level has code of its own, which asks for no level.
#[inline(always)]
fn put_other_levels(
    reading: &TextReading,
    last: u8,
    room: &[Element],
    held: usize,
    at: usize,
    out: &mut [u8],
) -> usize
    requires from { 2 ≤ last }
    requires to { last ≤ 5 }
    requires within { held ≤ length room.now }
    requires elements { all_own reading.now.settings.weighting (take held room.now) ≡ weighted reading.now.settings.weighting (elements_of reading.now) }
    requires size { length out.old < 2 ^ 64 }
    ensures { PutsAt at (later_levels (last - 1) 2 (weights_of reading.now) (nfd (chars reading.now.text.now))) out.old out.new result }
{
    let marks = runs::first_marks(room, held, false);
    let elements = &room[..held];
    let next = put_later(reading, 2, marks, elements, at, out);
    if last == 2 {
        return next;
    }
    let next = put_later(reading, 3, marks, elements, next, out);
    if last == 3 {
        return next;
    }
    let next = put_later(reading, 4, marks, elements, next, out);
    if last == 4 {
        return next;
    }
    put_later(reading, 5, marks, elements, next, out)
}

// Puts the packed sort key of a text whose elements are held.
fn put_held(
    code: &PackedCode,
    reading: &TextReading,
    room: &[Element],
    held: usize,
    at: usize,
    out: &mut [u8],
) -> usize
    requires within { held ≤ length room.now }
    requires elements { all_own reading.now.settings.weighting (take held room.now) ≡ weighted reading.now.settings.weighting (elements_of reading.now) }
    requires size { length out.old < 2 ^ 64 }
    ensures { PutsAt at (packed_key_by code.now reading.now.table.now reading.now.settings (chars reading.now.text.now)) out.old out.new result }
{
    let last = reading.settings.levels();
    let elements = &room[..held];
    let first = weight_bytes::put_whole(code, reading.settings.weighting, elements, at, out);
    if last == 1 {
        return first.at;
    }
    if first.pairs {
        return put_blank_levels(reading, last, room, held, first.at, out);
    }
    put_other_levels(reading, last, room, held, first.at, out)
}

/// Puts the packed sort key of a text that was read into room, by a code of primary weights, at a place of a buffer, level after level.
pub(crate) fn put_packed_levels(
    code: &PackedCode,
    reading: &TextReading,
    room: &mut [Element],
    at: usize,
    out: &mut [u8],
) -> usize
    requires some { 0 < length room.old }
    requires holds { HoldsWeights reading.now room.old }
    requires size { length out.old < 2 ^ 64 }
    ensures bytes { PutsAt at (packed_key_by code.now reading.now.table.now reading.now.settings (chars reading.now.text.now)) out.old out.new result }
    ensures holds { HoldsWeights reading.now room.new }
{
    if let Some(held) = reading.held {
        return put_held(code, reading, room, held, at, out);
    }
    let last = reading.settings.levels();
    let mut next = weight_bytes::put_again(code, reading, room, at, out);
    let mut level = 1;
    'each: while level < last {
        level += 1;
        next = runs::put_again(reading, level, room, next, out);
    }
    next
}
