//! An input of lines, which are texts.
ghost use Rattle.std.specs.Prelude.{◌≡◌, ◌+◌, ◌≤◌, length, All, IfErr, IfOk, IsTrue, MatchResult};
ghost use Rattle.uca_io.specs.Reader.{GivesAll};
ghost use Rattle.uca_model.specs.Lines.{lines_of, IsTextLine};
ghost use Rattle.uca_commands.specs.Input.{fault_at, HasInputFault, ReadsLines, ReadsOneLine, RefusesInput, RefusesOneLine, StopsReading};

use crate::input_fault::{InputCause, InputFault};
use crate::lines::{first_line, is_one_line};
use std::alloc::Global;
use uca_io::{Stop, read_whole};
use uca_weights::{MAX_INPUT, Reader};
use uca_window::{Passage, TextFault, is_text_line};

/// A fault of no line.
fn refused(cause: InputCause) -> InputFault
    ensures { result ≡ record { line = 0; at = 0; cause = cause } }
{
    InputFault {
        line: 0,
        at: 0,
        cause,
    }
}

/// Reads an input of lines to its end, in at most `MAX_INPUT` + 1 calls of a reader that counts its calls.
fn read_input<I: Reader>(alloc: Global, input: &mut I) -> Result<Vec<u8>, InputFault>
    ensures reads { MatchResult result
        (λ v. GivesAll (I.state input.old) (I.state input.new) v.items × (length v.items ≤ MAX_INPUT))
        (λ f. StopsReading (I.state input.old) (I.state input.new) f) }
    ensures calls { I.calls input.new ≤ I.calls input.old + (MAX_INPUT + 1) }
{
    read_whole(alloc, input, MAX_INPUT).map_err(|stop| match stop {
        Stop::TooLarge => refused(InputCause::TooLarge),
        Stop::Read => refused(InputCause::Read),
        Stop::OutOfMemory => refused(InputCause::OutOfMemory),
    })
}

/// Whether an input is a safe text as a whole, and so in each of its lines.
fn is_safe_text(bytes: &[u8]) -> bool
    ensures { IsTrue result → All IsTextLine (lines_of bytes.now) }
{
    is_text_line(bytes)
}

/// The fault of a line as one of the input.
fn fault_at(line: u64, fault: TextFault) -> InputFault
    ensures { result ≡ fault_at line fault }
{
    match fault {
        TextFault::NotUtf8(at) => InputFault {
            line,
            at,
            cause: InputCause::NotUtf8,
        },
        TextFault::LongRun(at) => InputFault {
            line,
            at,
            cause: InputCause::LongRun,
        },
    }
}

/// Checks that each line of an input is a safe text in UTF-8. An input that is one as a whole is one in each line, and the lines
/// need not be found then: a line is looked at by itself only for the first fault.
fn check_lines(bytes: &[u8]) -> Result<(), InputFault>
    ensures { MatchResult result (λ _. All IsTextLine (lines_of bytes.now)) (HasInputFault (lines_of bytes.now)) }
{
    if is_safe_text(bytes) {
        return Ok(());
    }
    let mut number = 0;
    let mut left = bytes;
    while !left.is_empty() {
        let (line, rest) = first_line(left);
        number += 1;
        match Passage::of_bytes(line) {
            Ok(_) => left = rest,
            Err(fault) => return Err(fault_at(number, fault)),
        }
    }
    Ok(())
}

/// Reads an input of lines to its end, and checks that each is a safe text in UTF-8.
pub fn read_text_lines<I: Reader>(alloc: Global, input: &mut I) -> Result<Vec<u8>, InputFault>
    ensures ok { IfOk result (λ v. ReadsLines (I.state input.old) (I.state input.new) v.items) }
    ensures err { IfErr result (RefusesInput (I.state input.old) (I.state input.new)) }
    ensures calls { I.calls input.new ≤ I.calls input.old + (MAX_INPUT + 1) }
{
    let bytes = read_input(alloc, input)?;
    check_lines(&bytes)?;
    Ok(bytes)
}

/// Reads an input of lines to its end, checks each line, and then that there is exactly one.
pub(crate) fn read_one_line<I: Reader>(alloc: Global, input: &mut I) -> Result<Vec<u8>, InputFault>
    ensures ok { IfOk result (λ v. ReadsOneLine (I.state input.old) (I.state input.new) v.items) }
    ensures err { IfErr result (RefusesOneLine (I.state input.old) (I.state input.new)) }
    ensures calls { I.calls input.new ≤ I.calls input.old + (MAX_INPUT + 1) }
{
    let bytes = read_text_lines(alloc, input)?;
    if !is_one_line(&bytes) {
        return Err(refused(InputCause::NotOneLine));
    }
    Ok(bytes)
}
