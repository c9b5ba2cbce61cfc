ghost use Rattle.std.specs.Prelude.{◌≡◌, ◌+◌, ◌≤◌, MatchOption, MatchResult};
ghost use Rattle.uca_weights.specs.declared.limits.TheConstants.{MAX_INPUT};
ghost use Rattle.uca_io.specs.LineReader.{StopsLines};
ghost use Rattle.uca_io.specs.Reader.{ReaderState};
ghost use Rattle.uca_model.specs.TableText.{no_lines, table_fold};
ghost use Rattle.uca_allkeys.specs.Faults.{read_cause, IsOfText};
ghost use Rattle.uca_allkeys.specs.Reading.{GivesTable, IsRefused};

use crate::faults::{ReadCause, ReadFault};
use crate::lines::no_lines;
use std::alloc::Global;
use uca_io::{LineCause, LineFault, read_lines};
use uca_table::Table;
use uca_weights::Reader;

/// The cause with its line, which is 0 where an allocation failed.
fn fault_at(line: u64, cause: ReadCause) -> ReadFault
    ensures cause { result.cause ≡ cause }
    ensures line { MatchOption (read_cause cause) (result.line ≡ 0) (λ _. result.line ≡ line) }
{
    match cause {
        ReadCause::OutOfMemory => ReadFault { line: 0, cause },
        _ => ReadFault { line, cause },
    }
}

/// The fault of a text whose lines were not read to their end.
fn fault_of_lines(fault: LineFault<ReadCause>) -> ReadFault
    ensures { (old new : ReaderState) → StopsLines table_fold read_cause IsOfText no_lines old new fault → IsRefused old new result }
{
    match fault.cause {
        LineCause::LineTooLong => fault_at(fault.line, ReadCause::LineTooLong),
        LineCause::TooLarge => fault_at(fault.line, ReadCause::TooLarge),
        LineCause::Read => fault_at(fault.line, ReadCause::Read),
        LineCause::Refused(cause) => fault_at(fault.line, cause),
    }
}

/// Reads the text of a table, in the format of `allkeys.txt` (UTS #10, Allkeys File Format), to its end or to its
/// first fault. At most one byte past `MAX_INPUT` is taken from a reader that states its bytes, and at most
/// `MAX_INPUT` + 1 calls are made of one that counts its calls. What the reader still holds after a fault is unspecified.
pub fn read_table<R: Reader>(alloc: Global, reader: &mut R) -> Result<Table, ReadFault>
    ensures reads { MatchResult result (GivesTable (R.state reader.old) (R.state reader.new)) (IsRefused (R.state reader.old) (R.state reader.new)) }
    ensures calls { R.calls reader.new ≤ R.calls reader.old + (MAX_INPUT + 1) }
{
    let mut lines = no_lines(alloc);
    match read_lines(reader, &mut lines) {
        Ok(()) => match lines.builder.finish() {
            Ok(table) => Ok(table),
            Err(_) => Err(fault_at(0, ReadCause::OutOfMemory)),
        },
        Err(fault) => Err(fault_of_lines(fault)),
    }
}
