// Keys in each form, appended to others.
ghost use Rattle.std.specs.Prelude.{◌≡◌, ◌<◌, ◌≤◌, ◌+◌, ◌-◌, ◌^◌, ◌++◌, chars, length, min, take, IfOk, OnOk};
ghost use Rattle.uca_window.specs.Passage.{text_of};
ghost use Rattle.uca_key.specs.Form.{key_in};
ghost use Rattle.uca_key.specs.Pieces.{HoldsWeights};
ghost use Rattle.uca_key.specs.Placing.{PutsAt};

use crate::packed_code::PackedCode;
use crate::packed_levels::put_packed_levels;
use crate::pieces::TextReading;
use crate::placing::put_levels;
use std::alloc::AllocError;
use uca_table::Table;
use uca_weights::{Element, Settings};
use uca_window::Passage;

/// The forms of a key.
#[derive(Clone, Copy)]
pub(crate) enum Form<'c> {
    /// As the standard has it.
    Plain,
    /// With a code of primary weights, and with runs of common weights.
    Packed(&'c PackedCode),
}

// How many bytes the key of a text has at most, if its elements are held and it is plain and without the fifth level. Others may have
// more, which few texts have: packed keys of letters with many marks, and those of texts with more elements than bytes.
fn expected_bytes(form: Form, reading: &TextReading) -> usize {
    let levels = reading.settings.levels() as usize;
    let bytes = reading.text.len();
    let elements = reading.held.unwrap_or(bytes);
    let points = if levels == 5 {
        bytes.saturating_mul(3)
    } else {
        0
    };
    let each = match form {
        Form::Packed(_) => levels + 1,
        Form::Plain => 2 * levels,
    };
    elements
        .saturating_mul(each)
        .saturating_add(points)
        .saturating_add(8)
}

// Puts the key of a text that was read into room at a place of a buffer.
fn put(form: Form, reading: &TextReading, room: &mut [Element], at: usize, out: &mut [u8]) -> usize
    requires some { 0 < length room.old }
    requires holds { HoldsWeights reading.now room.old }
    requires size { length out.old < 2 ^ 64 }
    ensures bytes { PutsAt at (key_in form.entry reading.now.table.now reading.now.settings (chars reading.now.text.now)) out.old out.new result }
    ensures holds { HoldsWeights reading.now room.new }
{
    match form {
        Form::Plain => put_levels(reading, room, at, out),
        Form::Packed(code) => put_packed_levels(code, reading, room, at, out),
    }
}

// Puts a key at a place of a list that gets this size, and returns where it ends, or would end.
fn put_into(
    form: Form,
    reading: &TextReading,
    room: &mut [Element],
    at: usize,
    size: usize,
    keys: &mut Vec<u8>,
) -> Result<usize, AllocError>
    requires some { 0 < length room.old }
    requires holds { HoldsWeights reading.now room.old }
    requires place { at ≤ length keys.old.items }
    requires size { at ≤ size }
    ensures end { IfOk result (λ end. end ≡ min (at + length (key_in form.entry reading.now.table.now reading.now.settings (chars reading.now.text.now))) (2 ^ 64 - 1)) }
    ensures key { IfOk result (λ end. end ≤ length keys.new.items → take end keys.new.items ≡ take at keys.old.items ++ key_in form.entry reading.now.table.now reading.now.settings (chars reading.now.text.now)) }
    ensures front { OnOk result (take at keys.new.items ≡ take at keys.old.items) }
    ensures size { OnOk result (length keys.new.items ≡ size) }
    ensures holds { HoldsWeights reading.now room.new }
{
    keys.resize(size, 0)?;
    Ok(put(form, reading, room, at, keys.as_mut_slice()))
}

/// Appends the key of a text to others, and returns whether the room held all its elements.
pub(crate) fn push(
    form: Form,
    t: &Table,
    s: Settings,
    p: &Passage,
    room: &mut [Element],
    keys: &mut Vec<u8>,
) -> Result<bool, AllocError>
    requires { 0 < length room.old }
    ensures { OnOk result (keys.new.items ≡ keys.old.items ++ key_in form.entry t.now s (text_of p.now)) }
{
    let reading = TextReading::new(t, s, p.as_str(), room);
    let held = reading.held.is_some();
    let start = keys.len();
    let size = start.saturating_add(expected_bytes(form, &reading));
    let end = put_into(form, &reading, room, start, size, keys)?;
    if end > size {
        let _same = put_into(form, &reading, room, start, end, keys)?;
    }
    keys.truncate(end);
    Ok(held)
}
