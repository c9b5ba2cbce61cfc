ghost use Rattle.std.specs.Prelude.{◌≡◌, ◌+◌, ◌^◌, ◌<◌, ◌≤◌, ◌++◌, ◌∷◌, [], length, map, All, IfOk, OnOk, MatchResult, IfErr};
ghost use Rattle.std.specs.List.{range_with_len};
ghost use Rattle.uca_io.specs.OutputBuffer.{accepted, Accepts, FailsPartway};
ghost use Rattle.uca_io.specs.Writer.{WritesAll, WritesFront};
ghost use Rattle.uca_weights.specs.declared.limits.TheConstants.{MAX_INPUT};
ghost use Rattle.uca_model.specs.Lines.{line_feed, lines_of, IsTextLine};
ghost use Rattle.uca_model.specs.OrderOutput.{text_of_lines};
ghost use Rattle.uca_commands.specs.KeyedLines.{line_of, numbered};
ghost use Rattle.uca_commands.specs.LinePlaces.{line_at};
ghost use Rattle.uca_commands.specs.Ordering.{AreKeys, Orders, RefusesOrder, StopsInOrder, WritesInOrder};
ghost use Rattle.uca_commands.specs.Commands.{Does, Fails, order_command};

use crate::faults::CliFault;
use crate::input::read_text_lines;
use crate::keyed_line::{KeyedLine, KeyedLines, LinePlace, line_at};
use crate::line_sort::sort_lines;
use crate::lines::first_line;
use std::alloc::{AllocError, Global};
use uca_io::OutputBlock;
use uca_io::output_buffer::BLOCK;
use uca_key::KeyMaker;
use uca_table::Table;
use uca_weights::{Reader, Settings, WriteFault, Writer};
use uca_window::Passage;

/// The sort keys of all lines, one after the other, and where each ends.
#[derive(Drop)]
struct LineKeys {
    bytes: Vec<u8>,
    ends: Vec<usize>,
}

/// Where the lines of an input lie.
fn line_places(alloc: Global, bytes: &[u8]) -> Result<Vec<LinePlace>, AllocError>
    requires { length bytes.now ≤ MAX_INPUT }
    ensures lines { IfOk result (λ v. map (line_at bytes.now) v.items ≡ lines_of bytes.now) }
    ensures few { IfOk result (λ v. length v.items ≤ length bytes.now) }
{
    let mut places = Vec::new(alloc);
    let mut left = bytes;
    while !left.is_empty() {
        let start = bytes.len() - left.len();
        let (line, rest) = first_line(left);
        let end = start + line.len();
        places.push(LinePlace {
            start: start as u32,
            end: end as u32,
        })?;
        left = rest;
    }
    Ok(places)
}

/// The sort keys of the lines of an input at some places, which were checked.
fn keys_of(
    alloc: Global,
    t: &Table,
    s: Settings,
    input: &[u8],
    places: &[LinePlace],
) -> Result<LineKeys, AllocError>
    requires { All IsTextLine (map (line_at input.now) places.now) }
    ensures { IfOk result (λ keys. AreKeys t.now s (map (line_at input.now) places.now) keys.bytes.items keys.ends.items) }
{
    let mut keys = LineKeys {
        bytes: Vec::new(alloc),
        ends: Vec::new(alloc),
    };
    let mut maker = KeyMaker::new(alloc);
    for place in places {
        let line = Passage::of_checked(line_at(input, *place));
        maker.push_key(alloc, t, s, &line, &mut keys.bytes)?;
        keys.ends.push(keys.bytes.len())?;
    }
    Ok(keys)
}

/// As many lines, numbered from 0.
fn numbered_lines(alloc: Global, count: usize) -> Result<Vec<KeyedLine>, AllocError>
    ensures { IfOk result (λ v. v.items ≡ map numbered (range_with_len 0 count)) }
{
    let mut lines = Vec::with_capacity(alloc, count)?;
    for number in 0..count {
        lines.push(KeyedLine { front: 0, number })?;
    }
    Ok(lines)
}

/// Writes bytes to a block of output, however many they are.
fn send_bytes<W: Writer>(w: &mut W, out: &mut OutputBlock, bytes: &[u8]) -> Result<(), WriteFault>
    requires { accepted out.old + length bytes.now < 2 ^ 128 }
    ensures { MatchResult result
        (λ _. Accepts (W.state w.old) out.old (W.state w.new) out.new bytes.now)
        (λ f. FailsPartway (W.state w.old) out.old (W.state w.new) bytes.now f) }
{
    let mut left = bytes;
    while left.len() > BLOCK {
        let (front, rest) = left.split_at(BLOCK);
        out.write(w, front)?;
        left = rest;
    }
    out.write(w, left)
}

/// Writes a line to a block of output, with LF.
fn send_line<W: Writer>(w: &mut W, out: &mut OutputBlock, line: &[u8]) -> Result<(), WriteFault>
    requires { accepted out.old < 2 ^ 127 }
    ensures { MatchResult result
        (λ _. Accepts (W.state w.old) out.old (W.state w.new) out.new (line.now ++ line_feed ∷ []))
        (λ f. FailsPartway (W.state w.old) out.old (W.state w.new) (line.now ++ line_feed ∷ []) f) }
{
    send_bytes(w, out, line)?;
    out.write(w, b"\n")
}

/// Writes lines, each with LF.
fn write_keyed<W: Writer>(
    of: &KeyedLines<'_>,
    lines: &[KeyedLine],
    w: &mut W,
) -> Result<(), WriteFault>
    requires { length lines.now ≤ MAX_INPUT }
    ensures { MatchResult result
        (λ _. WritesAll (W.state w.old) (W.state w.new) (text_of_lines (map (line_of of.now) lines.now)))
        (WritesFront (W.state w.old) (W.state w.new) (text_of_lines (map (line_of of.now) lines.now))) }
{
    let mut out = OutputBlock::new();
    for keyed in lines {
        send_line(w, &mut out, of.line(*keyed))?;
    }
    out.flush(w)
}

/// Writes the lines of an input, which was checked, in the order of their sort keys, and returns how many there are.
/// All memory is taken before the first byte is written, and none where there are no lines.
pub fn write_in_order<W: Writer>(
    alloc: Global,
    t: &Table,
    s: Settings,
    bytes: &[u8],
    w: &mut W,
) -> Result<u64, CliFault>
    requires small { length bytes.now ≤ MAX_INPUT }
    requires texts { All IsTextLine (lines_of bytes.now) }
    ensures { MatchResult result
        (WritesInOrder t.now s bytes.now (W.state w.old) (W.state w.new))
        (StopsInOrder t.now s bytes.now (W.state w.old) (W.state w.new)) }
{
    if bytes.is_empty() {
        return Ok(0);
    }
    let places_kept = line_places(alloc, bytes)?;
    let places = places_kept.as_slice();
    let keys = keys_of(alloc, t, s, bytes, places)?;
    let of = KeyedLines {
        input: bytes,
        places,
        keys: &keys.bytes,
        ends: &keys.ends,
    };
    let mut sorted = numbered_lines(alloc, places.len())?;
    let lines = sorted.as_mut_slice();
    sort_lines(alloc, &of, lines)?;
    write_keyed(&of, lines, w)?;
    Ok(lines.len() as u64)
}

/// Writes the lines of an input in the order of their sort keys (UTS #10, section 7.4), each with LF. Lines of equal keys
/// stay in the order that they had. It returns how many lines there are.
///
/// The input is read whole and checked before the first byte is written, and all memory is taken. An input without lines
/// takes none. It does not flush the writer.
pub fn order<R: Reader, W: Writer>(
    alloc: Global,
    t: &Table,
    s: Settings,
    r: &mut R,
    w: &mut W,
) -> Result<u64, CliFault>
    ensures orders { MatchResult result
        (Orders t.now s
        (record { input = R.state r.old; output = W.state w.old })
        (record { input = R.state r.new; output = W.state w.new }))
        (RefusesOrder t.now s
        (record { input = R.state r.old; output = W.state w.old })
        (record { input = R.state r.new; output = W.state w.new })) }
    ensures calls { R.calls r.new ≤ R.calls r.old + (MAX_INPUT + 1) }
{
    let bytes = read_text_lines(alloc, r)?;
    write_in_order(alloc, t, s, &bytes, w)
}

/// Writes the lines of its input in the order of their sort keys.
pub fn run<I: Reader, W: Writer>(
    alloc: Global,
    t: &Table,
    s: Settings,
    input: &mut I,
    output: &mut W,
) -> Result<u8, CliFault>
    ensures done { IfOk result (Does order_command t.now s
        (record { input = I.state input.old; output = W.state output.old })
        (record { input = I.state input.new; output = W.state output.new })) }
    ensures fault { IfErr result (Fails order_command t.now s
        (record { input = I.state input.old; output = W.state output.old })
        (record { input = I.state input.new; output = W.state output.new })) }
    ensures calls { I.calls input.new ≤ I.calls input.old + (MAX_INPUT + 1) }
{
    order(alloc, t, s, input, output)?;
    Ok(0)
}
