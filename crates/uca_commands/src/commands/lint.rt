ghost use Rattle.std.specs.Prelude.{◌≡◌, ◌*◌, ◌≤◌, length, flat_map, map, IfErr, IfOk};
ghost use Rattle.uca_table.specs.Bounds.{condition_of};
ghost use Rattle.uca_commands.specs.Commands.{Does, Fails, lint_command};
ghost use Rattle.uca_commands.specs.Sending.{finding_line};
ghost use Rattle.uca_io.specs.Reader.{ReaderState};
ghost use Rattle.uca_weights.specs.declared.settings.Settings.{Settings};

use crate::faults::CliFault;
use arrayvec::ArrayVec;
use uca_table::{Table, WellFormed, lint};
use uca_weights::{Writer, write_whole};

/// A buffer for the lines of all five conditions.
const FINDINGS: usize = 20;

/// The line of a condition that a table breaks.
fn finding(condition: WellFormed) -> &'static [u8]
    ensures text { result.now ≡ finding_line (condition_of condition) }
    ensures short { length result.now ≡ 4 }
{
    match condition {
        WellFormed::WF1 => b"WF1\n",
        WellFormed::WF2 => b"WF2\n",
        WellFormed::WF3 => b"WF3\n",
        WellFormed::WF4 => b"WF4\n",
        WellFormed::WF5 => b"WF5\n",
    }
}

/// The lines of some conditions, each four bytes long.
fn findings_text(broken: &[WellFormed]) -> ArrayVec<u8, FINDINGS>
    requires { 4 * length broken.now ≤ 20 }
    ensures { result.items ≡ flat_map finding_line (map condition_of broken.now) }
{
    let mut text: ArrayVec<u8, FINDINGS> = ArrayVec::new();
    for condition in broken {
        text.try_extend_from_slice(finding(*condition)).unwrap();
    }
    text
}

/// Writes which conditions the table breaks. It has no input. Returns the exit status: 1 where there are any, and otherwise 0.
pub fn run<W: Writer>(t: &Table, output: &mut W) -> Result<u8, CliFault>
    ensures done { (s : Settings) (input : ReaderState) → IfOk result (Does lint_command t.now s
        (record { input = input; output = W.state output.old })
        (record { input = input; output = W.state output.new })) }
    ensures fault { (s : Settings) (input : ReaderState) → IfErr result (Fails lint_command t.now s
        (record { input = input; output = W.state output.old })
        (record { input = input; output = W.state output.new })) }
{
    let found = lint(t);
    let broken = found.as_slice();
    write_whole(output, findings_text(broken).as_slice())?;
    Ok(u8::from(!broken.is_empty()))
}
