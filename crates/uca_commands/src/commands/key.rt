ghost use Rattle.std.specs.Prelude.{◌+◌, ◌≤◌, All, IfErr, IfOk, MatchResult};
ghost use Rattle.uca_weights.specs.declared.limits.TheConstants.{MAX_INPUT};
ghost use Rattle.uca_io.specs.Writer.{WritesAll, WritesFront};
ghost use Rattle.uca_model.specs.Lines.{lines_of, IsTextLine};
ghost use Rattle.uca_commands.specs.Commands.{Does, Fails, key_command, raw_key_command, raw_key_output};
ghost use Rattle.uca_commands.specs.Input.{IsOneLine};

use crate::faults::CliFault;
use crate::input::{read_one_line, read_text_lines};
use crate::lines::first_line;
use crate::output::{LineForm, write_lines};
use std::alloc::Global;
use uca_key::write_key;
use uca_table::Table;
use uca_weights::{Reader, Settings, WriteFault, Writer};
use uca_window::Passage;

/// Writes the sort key of each line of its input, as digits.
pub fn run<I: Reader, W: Writer>(
    alloc: Global,
    t: &Table,
    s: Settings,
    input: &mut I,
    output: &mut W,
) -> Result<u8, CliFault>
    ensures done { IfOk result (Does key_command t.now s
        (record { input = I.state input.old; output = W.state output.old })
        (record { input = I.state input.new; output = W.state output.new })) }
    ensures fault { IfErr result (Fails key_command t.now s
        (record { input = I.state input.old; output = W.state output.old })
        (record { input = I.state input.new; output = W.state output.new })) }
    ensures calls { I.calls input.new ≤ I.calls input.old + (MAX_INPUT + 1) }
{
    let bytes = read_text_lines(alloc, input)?;
    write_lines(alloc, LineForm::Key, t, s, &bytes, output)
}

/// Writes the sort key of the one line of an input, which was checked. It does not allocate.
fn write_raw_key<W: Writer>(
    t: &Table,
    s: Settings,
    bytes: &[u8],
    w: &mut W,
) -> Result<(), WriteFault>
    requires one { IsOneLine bytes.now }
    requires texts { All IsTextLine (lines_of bytes.now) }
    ensures { MatchResult result
        (λ _. WritesAll (W.state w.old) (W.state w.new) (raw_key_output t.now s (lines_of bytes.now)))
        (WritesFront (W.state w.old) (W.state w.new) (raw_key_output t.now s (lines_of bytes.now))) }
{
    let (line, _) = first_line(bytes);
    write_key(w, t, s, &Passage::of_checked(line))?;
    Ok(())
}

/// Writes the bytes of the sort key of its input, which is one line.
pub fn run_raw<I: Reader, W: Writer>(
    alloc: Global,
    t: &Table,
    s: Settings,
    input: &mut I,
    output: &mut W,
) -> Result<u8, CliFault>
    ensures done { IfOk result (Does raw_key_command t.now s
        (record { input = I.state input.old; output = W.state output.old })
        (record { input = I.state input.new; output = W.state output.new })) }
    ensures fault { IfErr result (Fails raw_key_command t.now s
        (record { input = I.state input.old; output = W.state output.old })
        (record { input = I.state input.new; output = W.state output.new })) }
    ensures calls { I.calls input.new ≤ I.calls input.old + (MAX_INPUT + 1) }
{
    let bytes = read_one_line(alloc, input)?;
    write_raw_key(t, s, &bytes, output)?;
    Ok(0)
}
