ghost use Rattle.std.specs.Prelude.{◌≡◌, ◌^◌, ◌<◌, ◌≤◌, ◌+◌, length, All, OnOk, MatchResult, IfErr, IfOk};
ghost use Rattle.uca_io.specs.OutputBuffer.{accepted, Accepts, FailsPartway};
ghost use Rattle.uca_io.specs.Writer.{WritesAll, WritesFront};
ghost use Rattle.uca_weights.specs.declared.limits.TheConstants.{MAX_INPUT};
ghost use Rattle.uca_model.specs.CompareOutput.{compare_line, compare_output, order_line};
ghost use Rattle.uca_model.specs.Lines.{lines_of, IsTextLine};
ghost use Rattle.uca_commands.specs.Commands.{Does, Fails, compare_command};

use crate::faults::CliFault;
use crate::input::read_text_lines;
use crate::lines::first_line;
use std::alloc::Global;
use std::cmp::Ordering;
use uca_io::OutputBuffer;
use uca_levels::compare;
use uca_table::Table;
use uca_weights::{Reader, Settings, WriteFault, Writer};
use uca_window::Passage;

/// The line of an order.
fn order_line(order: Ordering) -> &'static [u8]
    ensures text { result.now ≡ order_line order }
    ensures short { length result.now ≤ 8 }
{
    match order {
        Ordering::Less => b"less\n",
        Ordering::Equal => b"equal\n",
        Ordering::Greater => b"greater\n",
    }
}

/// Writes the order of two lines to a buffer.
fn send_order<W: Writer>(
    t: &Table,
    s: Settings,
    before: &[u8],
    line: &[u8],
    w: &mut W,
    out: &mut OutputBuffer,
) -> Result<(), WriteFault>
    requires before { IsTextLine before.now }
    requires line { IsTextLine line.now }
    requires room { accepted out.old < 2 ^ 127 }
    ensures sends { MatchResult result
        (λ _. Accepts (W.state w.old) out.old (W.state w.new) out.new (compare_line t.now s before.now line.now))
        (FailsPartway (W.state w.old) out.old (W.state w.new) (compare_line t.now s before.now line.now)) }
    ensures small { OnOk result (accepted out.new < accepted out.old + 2 ^ 70) }
{
    let before = Passage::of_checked(before);
    let line = Passage::of_checked(line);
    out.write(w, order_line(compare(t, s, &before, &line)))
}

/// Writes the order of each pair of neighbouring lines of an input that was checked.
pub(crate) fn write_orders<W: Writer>(
    t: &Table,
    s: Settings,
    bytes: &[u8],
    w: &mut W,
) -> Result<(), WriteFault>
    requires small { length bytes.now ≤ MAX_INPUT }
    requires texts { All IsTextLine (lines_of bytes.now) }
    ensures { MatchResult result
        (λ _. WritesAll (W.state w.old) (W.state w.new) (compare_output t.now s bytes.now))
        (WritesFront (W.state w.old) (W.state w.new) (compare_output t.now s bytes.now)) }
{
    if bytes.is_empty() {
        return Ok(());
    }
    let mut out = OutputBuffer::new();
    let (first, others) = first_line(bytes);
    let mut before = first;
    let mut left = others;
    while !left.is_empty() {
        let (line, rest) = first_line(left);
        send_order(t, s, before, line, w, &mut out)?;
        before = line;
        left = rest;
    }
    out.flush(w)
}

/// Writes the order of each pair of neighbouring lines of its input.
pub fn run<I: Reader, W: Writer>(
    alloc: Global,
    t: &Table,
    s: Settings,
    input: &mut I,
    output: &mut W,
) -> Result<u8, CliFault>
    ensures done { IfOk result (Does compare_command t.now s
        (record { input = I.state input.old; output = W.state output.old })
        (record { input = I.state input.new; output = W.state output.new })) }
    ensures fault { IfErr result (Fails compare_command t.now s
        (record { input = I.state input.old; output = W.state output.old })
        (record { input = I.state input.new; output = W.state output.new })) }
    ensures calls { I.calls input.new ≤ I.calls input.old + (MAX_INPUT + 1) }
{
    let bytes = read_text_lines(alloc, input)?;
    write_orders(t, s, &bytes, output)?;
    Ok(0)
}
