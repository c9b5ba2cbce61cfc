ghost use Rattle.std.specs.Prelude.{◌+◌, ◌≤◌, IfErr, IfOk};
ghost use Rattle.uca_weights.specs.declared.limits.TheConstants.{MAX_INPUT};
ghost use Rattle.uca_commands.specs.Commands.{Does, Fails, elements_command};

use crate::faults::CliFault;
use crate::input::read_text_lines;
use crate::output::{LineForm, write_lines};
use std::alloc::Global;
use uca_table::Table;
use uca_weights::{Reader, Settings, Writer};

/// Writes the collation elements of each line of its input.
pub fn run<I: Reader, W: Writer>(
    alloc: Global,
    t: &Table,
    s: Settings,
    input: &mut I,
    output: &mut W,
) -> Result<u8, CliFault>
    ensures done { IfOk result (Does elements_command t.now s
        (record { input = I.state input.old; output = W.state output.old })
        (record { input = I.state input.new; output = W.state output.new })) }
    ensures fault { IfErr result (Fails elements_command t.now s
        (record { input = I.state input.old; output = W.state output.old })
        (record { input = I.state input.new; output = W.state output.new })) }
    ensures calls { I.calls input.new ≤ I.calls input.old + (MAX_INPUT + 1) }
{
    let bytes = read_text_lines(alloc, input)?;
    write_lines(alloc, LineForm::Elements, t, s, &bytes, output)
}
