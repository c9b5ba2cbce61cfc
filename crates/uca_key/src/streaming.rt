#![tactic(auto, using(crate::proofs::KeyPieces::key_steps))]

ghost use Rattle.std.specs.Prelude.{◌≡◌, ◌+◌, ◌<◌, ◌≤◌, ◌^◌, [], ◌∷◌, chars, length, MatchResult};
ghost use Rattle.uca_io.specs.OutputBuffer.{accepted};
ghost use Rattle.uca_io.specs.Writer.{WritesAll, WritesFront};
ghost use Rattle.uca_model.specs.LevelWeights.{level_list};
ghost use Rattle.uca_model.specs.DecidingLevel.{bytes_at};
ghost use Rattle.uca_model.specs.SafeText.{IsSafe};
ghost use Rattle.uca_model.specs.SortKey.{code_point_bytes, level_bytes, sort_key};
ghost use Rattle.uca_model.specs.Source.{unread};
ghost use Rattle.uca_window.specs.Passage.{text_of};
ghost use Rattle.uca_key.specs.Faults.{Sends, write_fault};
ghost use Rattle.uca_key.specs.Pieces.{HoldsWeights, weights_of};
ghost use Rattle.uca_key.specs.Weighing.{all_own};

use crate::level_bytes::put_level;
use crate::pieces::{PIECE, TextReading};
use crate::placing::ROOM;
use uca_io::OutputBuffer;
use uca_levels::Points;
use uca_table::Table;
use uca_weights::{Element, Settings, Variable, WriteCause, WriteFault, Writer};
use uca_window::{Passage, PassageSource, Source};

/// How far the bytes of a key came, and why they stopped.
#[derive(Clone, Copy, Debug, PartialEq, Eq)]
pub struct KeyFault {
    /// How many bytes of the key the writer took.
    pub written: u128,
    pub cause: WriteCause,
}

impl From<KeyFault> for WriteFault {
    ghost from_gives = { λ fault result. result ≡ write_fault fault };

    fn from(fault: KeyFault) -> WriteFault {
        WriteFault {
            written: fault.written,
            cause: fault.cause,
        }
    }
}

// A fault of the writer as one of the key.
fn stopped(fault: WriteFault) -> KeyFault
    ensures { write_fault result ≡ fault }
{
    KeyFault {
        written: fault.written,
        cause: fault.cause,
    }
}

// Has a code point go out.
fn send_point<W: Writer>(w: &mut W, out: &mut OutputBuffer, point: char) -> Result<(), WriteFault>
    requires { accepted out.old + 3 < 2 ^ 128 }
    ensures { Sends (W.state w.old) out.old (W.state w.new) out.new (code_point_bytes point) result }
{
    out.write(w, &(point as u32).to_be_bytes()[1..])
}

// Has the separator of levels go out.
fn send_separator<W: Writer>(w: &mut W, out: &mut OutputBuffer) -> Result<(), WriteFault>
    requires { accepted out.old + 2 < 2 ^ 128 }
    ensures { Sends (W.state w.old) out.old (W.state w.new) out.new (0 ∷ 0 ∷ []) result }
{
    out.write(w, &[0, 0])
}

// Has the weights of a level go out, of some elements that were weighed, a piece at a time.
fn send_elements<W: Writer>(
    w: &mut W,
    out: &mut OutputBuffer,
    v: Variable,
    level: u8,
    elements: &[Element],
) -> Result<(), WriteFault>
    requires first { 1 ≤ level }
    requires last { level ≤ 4 }
    requires count { accepted out.old + length (level_bytes (all_own v elements.now) level) < 2 ^ 128 }
    ensures { Sends (W.state w.old) out.old (W.state w.new) out.new (level_bytes (all_own v elements.now) level) result }
{
    let mut bytes = [0; 2 * PIECE];
    let mut left = elements;
    'pieces: while !left.is_empty() {
        let (piece, rest) = left.split_at(left.len().min(PIECE));
        let size = put_level(v, piece, level, 0, &mut bytes);
        out.write(w, &bytes[..size])?;
        left = rest;
    }
    Ok(())
}

// Has the weights of a level go out, of a text that the room does not hold, as it is read once more.
#[inline(never)]
fn send_weights_again<W: Writer>(
    w: &mut W,
    out: &mut OutputBuffer,
    level: u8,
    reading: &TextReading,
    room: &mut [Element],
) -> Result<(), WriteFault>
    requires first { 1 ≤ level }
    requires last { level ≤ 4 }
    requires some { 0 < length room.old }
    requires count { accepted out.old + length (level_bytes (weights_of reading.now) level) < 2 ^ 128 }
    ensures { Sends (W.state w.old) out.old (W.state w.new) out.new (level_bytes (weights_of reading.now) level) result }
{
    let mut left = reading.again();
    'each: loop {
        let n = left.read(room);
        if n == 0 {
            return Ok(());
        }
        send_elements(w, out, reading.settings.weighting, level, &room[..n])?;
    }
}

// Has the weights of a level go out, of a text that was read into room.
fn send_weights<W: Writer>(
    w: &mut W,
    out: &mut OutputBuffer,
    level: u8,
    reading: &TextReading,
    room: &mut [Element],
) -> Result<(), WriteFault>
    requires first { 1 ≤ level }
    requires last { level ≤ 4 }
    requires some { 0 < length room.old }
    requires holds { HoldsWeights reading.now room.old }
    requires count { accepted out.old + length (level_bytes (weights_of reading.now) level) < 2 ^ 128 }
    ensures bytes { Sends (W.state w.old) out.old (W.state w.new) out.new (level_bytes (weights_of reading.now) level) result }
    ensures holds { HoldsWeights reading.now room.new }
{
    if let Some(held) = reading.held {
        return send_elements(w, out, reading.settings.weighting, level, &room[..held]);
    }
    send_weights_again(w, out, level, reading, room)
}

// Has the code points in NFD go out, of what a source has not given yet.
fn send_points<W: Writer, S: Source>(
    w: &mut W,
    out: &mut OutputBuffer,
    t: &Table,
    v: Variable,
    source: &mut S,
) -> Result<(), WriteFault>
    requires safe { IsSafe (unread (S.state source.old)) }
    requires room { accepted out.old + length (bytes_at 5 (level_list t.now v (unread (S.state source.old)) 5)) < 2 ^ 128 }
    ensures bytes { Sends (W.state w.old) out.old (W.state w.new) out.new (bytes_at 5 (level_list t.now v (unread (S.state source.old)) 5)) result }
    ensures text { (S.state source.new).text ≡ (S.state source.old).text }
{
    let mut points = Points::new();
    'each: while let Some(point) = points.next(source) {
        send_point(w, out, point)?;
    }
    Ok(())
}

// Has one level of a text go out that was read into room.
fn send_level<W: Writer>(
    w: &mut W,
    out: &mut OutputBuffer,
    reading: &TextReading,
    level: u8,
    room: &mut [Element],
) -> Result<(), WriteFault>
    requires first { 1 ≤ level }
    requires last { level ≤ 5 }
    requires some { 0 < length room.old }
    requires holds { HoldsWeights reading.now room.old }
    requires count { accepted out.old + length (bytes_at level (level_list reading.now.table.now reading.now.settings.weighting (chars reading.now.text.now) level)) < 2 ^ 128 }
    ensures bytes { Sends (W.state w.old) out.old (W.state w.new) out.new (bytes_at level (level_list reading.now.table.now reading.now.settings.weighting (chars reading.now.text.now) level)) result }
    ensures holds { HoldsWeights reading.now room.new }
{
    if level == 5 {
        let mut source = PassageSource::new(&Passage::of_safe(reading.text));
        return send_points(
            w,
            out,
            reading.table,
            reading.settings.weighting,
            &mut source,
        );
    }
    send_weights(w, out, level, reading, room)
}

// Has the sort key of a text that was read into room go out, level after level.
fn send_key<W: Writer>(
    w: &mut W,
    out: &mut OutputBuffer,
    reading: &TextReading,
    room: &mut [Element],
) -> Result<(), WriteFault>
    requires some { 0 < length room.old }
    requires holds { HoldsWeights reading.now room.old }
    requires count { accepted out.old + length (sort_key reading.now.table.now reading.now.settings (chars reading.now.text.now)) < 2 ^ 128 }
    ensures { Sends (W.state w.old) out.old (W.state w.new) out.new (sort_key reading.now.table.now reading.now.settings (chars reading.now.text.now)) result }
{
    let last = reading.settings.levels();
    let mut level = 1;
    'each: loop {
        send_level(w, out, reading, level, room)?;
        if level == last {
            return Ok(());
        }
        send_separator(w, out)?;
        level += 1;
    }
}

// Shows that the bytes of a text can be counted.
fn show_bytes(text: &str)
    ensures { length text.now < 2 ^ 64 }
{
    let _bytes = text.len();
}

// Shows that the bytes of a key can be counted.
fn show_room(t: &Table, s: Settings, p: &Passage)
    ensures { length (sort_key t.now s (text_of p.now)) < 2 ^ 100 }
{
    let _longest = t.longest();
    let text = p.as_str();
    show_bytes(text);
}

/// Writes the sort key of a text, and returns its length in bytes (UTS #10, section 7.3). On a fault exactly the first
/// `written` bytes of the key went out. It does not allocate, and does not flush the writer.
///
/// The elements of a short text are read once and held; those of a longer one are read once a level, in pieces. Of its code points
/// at most `MAX_LOOKAHEAD` more than the longest key has are held at a time.
pub fn write_key<W: Writer>(
    w: &mut W,
    t: &Table,
    s: Settings,
    p: &Passage,
) -> Result<u128, KeyFault>
    ensures { MatchResult result
        (λ n. WritesAll (W.state w.old) (W.state w.new) (sort_key t.now s (text_of p.now)) × (n ≡ length (sort_key t.now s (text_of p.now))))
        (λ f. WritesFront (W.state w.old) (W.state w.new) (sort_key t.now s (text_of p.now)) (write_fault f)) }
{
    show_room(t, s, p);
    let mut room = [Element::default(); ROOM];
    let reading = TextReading::new(t, s, p.as_str(), &mut room);
    let mut out = OutputBuffer::new();
    match send_key(w, &mut out, &reading, &mut room) {
        Ok(()) => {}
        Err(fault) => return Err(stopped(fault)),
    }
    match out.flush(w) {
        Ok(()) => Ok(out.written()),
        Err(fault) => Err(stopped(fault)),
    }
}
