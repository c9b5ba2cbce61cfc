//! Test files like the Unicode Consortium's CollationTest files.
ghost use Rattle.std.specs.Prelude.{[], ℕ, ◌+◌, ◌≤◌, MatchResult};
ghost use Rattle.uca_weights.specs.declared.limits.TheConstants.{MAX_INPUT};
ghost use Rattle.uca_weights.specs.declared.settings.Settings.{Settings};
ghost use Rattle.uca_io.specs.LineReader.{StopsBy};
ghost use Rattle.uca_io.specs.Reader.{ReaderState};
ghost use Rattle.uca_model.specs.Table.{ElementTable};
ghost use Rattle.uca_model.specs.TestFile.{TestCause};
ghost use Rattle.uca_conform.specs.Comparing.{Comparing, comparing, comparing_fold};
ghost use Rattle.uca_conform.specs.Conforming.{GivesReport, RefusedBy, RefusesFile};
ghost use Rattle.uca_conform.specs.TestReading.{fault_of, state_of, IsCounted, IsOfFile};

use crate::comparison::{Comparison, add_line, nothing_compared};
use thiserror::Error;
use uca_io::{LineCause, LineSink, read_lines};
use uca_table::Table;
use uca_weights::{Reader, Settings};

/// How a table sorts a test file.
#[derive(Clone, Copy, Debug, PartialEq, Eq)]
pub struct Conformance {
    /// How many test lines there are.
    pub lines: u64,
    /// How many of them were not compared: those with a surrogate, and those whose text is not safe.
    pub skipped: u64,
    /// The number of the first line of the file, counted from 1, that is below the one compared before it.
    pub first_failure: Option<u64>,
}

/// Why a test file was refused.
#[derive(Clone, Copy, Debug, PartialEq, Eq, Error)]
pub enum ConformCause {
    /// A line is longer than `MAX_LINE`.
    #[error("LineTooLong")]
    LineTooLong,
    /// A test line has no code point, or a word that is not one.
    #[error("BadLine")]
    BadLine,
    /// The file is longer than `MAX_INPUT`.
    #[error("TooLarge")]
    TooLarge,
    /// The reader failed.
    #[error("Read")]
    Read,
}

/// Where and why a test file was refused.
#[derive(Clone, Copy, Debug, PartialEq, Eq)]
pub struct ConformFault {
    /// The line, counted from 1.
    pub line: u64,
    pub cause: ConformCause,
}

/// The lines of a test file, compared by a table and settings.
#[derive(Drop)]
struct TestLines<'t> {
    table: &'t Table,
    settings: Settings,
    comparison: Comparison,
}

impl<'t> LineSink for TestLines<'t> {
    type Cause = ConformCause;

    ghost State = { Comparing };

    ghost Fault = { TestCause };

    ghost state = { λ lines. record { table = lines.table.now; settings = lines.settings; sum = state_of lines.comparison } };

    ghost fold = { comparing_fold };

    ghost fault_of = { fault_of };

    ghost possible = { IsOfFile };

    ghost ready = { λ lines n. IsCounted lines.comparison n };

    fn add(&mut self, number: u64, line: &[u8]) -> Result<(), ConformCause> {
        add_line(
            &mut self.comparison,
            self.table,
            self.settings,
            number,
            line,
        )
    }
}

/// Why a test file whose lines were not read to their end is refused.
fn cause_of_lines(cause: LineCause<ConformCause>) -> ConformCause
    ensures { (t : ElementTable) (s : Settings) (old new : ReaderState) (line : ℕ) → StopsBy comparing_fold fault_of IsOfFile (comparing t s []) old new line cause → RefusedBy t s result old new line }
{
    match cause {
        LineCause::LineTooLong => ConformCause::LineTooLong,
        LineCause::TooLarge => ConformCause::TooLarge,
        LineCause::Read => ConformCause::Read,
        LineCause::Refused(cause) => cause,
    }
}

/// How a table sorts a test file: each of its test lines is compared with the one before it that was not skipped.
/// It does not allocate. At most one byte past `MAX_INPUT` is taken from a reader that states its bytes, and at most
/// `MAX_INPUT` + 1 calls are made of one that counts its calls. What the reader still holds after a fault is unspecified.
pub fn conform<R: Reader>(t: &Table, s: Settings, r: &mut R) -> Result<Conformance, ConformFault>
    ensures reads { MatchResult result
        (GivesReport t.now s (R.state r.old) (R.state r.new))
        (RefusesFile t.now s (R.state r.old) (R.state r.new)) }
    ensures calls { R.calls r.new ≤ R.calls r.old + (MAX_INPUT + 1) }
{
    let mut lines = TestLines {
        table: t,
        settings: s,
        comparison: nothing_compared(),
    };
    match read_lines(r, &mut lines) {
        Ok(()) => Ok(lines.comparison.report),
        Err(fault) => Err(ConformFault {
            line: fault.line,
            cause: cause_of_lines(fault.cause),
        }),
    }
}
