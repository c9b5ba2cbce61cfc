ghost use Rattle.std.specs.Prelude.{◌≡◌, ◌≤◌, ◌+◌, ◌++◌, ◌∷◌, [], length, decimal, IfErr, IfOk};
ghost use Rattle.uca_weights.specs.declared.limits.TheConstants.{MAX_INPUT};
ghost use Rattle.uca_model.specs.Lines.{line_feed};
ghost use Rattle.uca_model.specs.TestFile.{failure_text, report_text};
ghost use Rattle.uca_commands.specs.Commands.{Does, Fails, check_command};
ghost use Rattle.uca_conform.specs.Conforming.{report_in};

use crate::faults::CliFault;
use arrayvec::ArrayVec;
use itoa::Buffer;
use uca_conform::{Conformance, conform};
use uca_table::Table;
use uca_weights::{Reader, Settings, Writer, write_whole};

/// A buffer for a report: three names, and numbers of at most twenty digits.
const REPORT: usize = 96;

/// Appends bytes for which there is capacity.
fn push(text: &mut ArrayVec<u8, REPORT>, part: &[u8])
    requires { length text.old.items + length part.now ≤ 96 }
    ensures { text.new.items ≡ text.old.items ++ part.now }
{
    text.try_extend_from_slice(part).unwrap();
}

/// Appends a number in decimal.
fn push_number(text: &mut ArrayVec<u8, REPORT>, number: u64)
    requires { length text.old.items + 20 ≤ 96 }
    ensures appends { text.new.items ≡ text.old.items ++ decimal number }
    ensures short { length text.new.items ≤ length text.old.items + 20 }
{
    let mut buffer = Buffer::new();
    push(text, buffer.format(number).as_bytes());
}

/// Appends the number of the first failure, or that there is none.
fn push_failure(text: &mut ArrayVec<u8, REPORT>, first_failure: Option<u64>)
    requires { length text.old.items + 20 ≤ 96 }
    ensures appends { text.new.items ≡ text.old.items ++ failure_text first_failure }
    ensures short { length text.new.items ≤ length text.old.items + 20 }
{
    match first_failure {
        Some(number) => push_number(text, number),
        None => push(text, b"none"),
    }
}

/// The three numbers, each as a line.
fn report_text(report: Conformance) -> ArrayVec<u8, REPORT>
    ensures { result.items ≡ report_text (report_in report) }
{
    let mut text: ArrayVec<u8, REPORT> = ArrayVec::new();
    push(&mut text, b"lines ");
    push_number(&mut text, report.lines);
    push(&mut text, b"\nskipped ");
    push_number(&mut text, report.skipped);
    push(&mut text, b"\nfirst failure ");
    push_failure(&mut text, report.first_failure);
    push(&mut text, b"\n");
    text
}

/// Reads a test file, and writes how a table sorts it. Returns the exit status: 1 where a line fails, and otherwise 0. It does not
/// allocate.
pub fn run<I: Reader, W: Writer>(
    t: &Table,
    s: Settings,
    input: &mut I,
    output: &mut W,
) -> Result<u8, CliFault>
    ensures done { IfOk result (Does check_command t.now s
        (record { input = I.state input.old; output = W.state output.old })
        (record { input = I.state input.new; output = W.state output.new })) }
    ensures fault { IfErr result (Fails check_command t.now s
        (record { input = I.state input.old; output = W.state output.old })
        (record { input = I.state input.new; output = W.state output.new })) }
    ensures calls { I.calls input.new ≤ I.calls input.old + (MAX_INPUT + 1) }
{
    let report = conform(t, s, input)?;
    write_whole(output, report_text(report).as_slice())?;
    Ok(u8::from(report.first_failure.is_some()))
}
