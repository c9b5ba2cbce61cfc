ghost use Rattle.std.specs.Prelude.{◌≡◌, ◌<◌, ◌≤◌, length, IfErr};
ghost use Rattle.uca_io.specs.LineReader.{Leads};
ghost use Rattle.uca_weights.specs.declared.limits.TheConstants.{MAX_KEY, MAX_ELEMENTS};
ghost use Rattle.uca_model.specs.TableText.{Cause, TextState, add_statement, add_line, no_lines, table_fold, version, entry, range as range_said};
ghost use Rattle.uca_allkeys.specs.Faults.{read_cause, FaultFirst, IsOfText};
ghost use Rattle.uca_allkeys.specs.Reading.{state_of};
ghost use Rattle.uca_allkeys.specs.Statements.{entry_in, directive_of, statement_in, IsReady, IsSomeEntry};

use crate::directive::Directive;
use crate::faults::ReadCause;
use crate::statement::{Entry, Statement, no_entry, read_statement};
use std::alloc::Global;
use uca_io::LineSink;
use uca_table::{InsertFault, RangeFault, TableBuilder};
use uca_weights::Range;

/// What the lines so far say.
#[derive(Drop)]
pub(crate) struct Lines {
    pub(crate) builder: TableBuilder,
    pub(crate) has_version: bool,
    // A buffer for the entry of a line.
    entry: Entry,
}

/// Before the first line.
pub(crate) fn no_lines(alloc: Global) -> Lines
    ensures { state_of result ≡ no_lines }
{
    Lines {
        builder: TableBuilder::new(alloc),
        has_version: false,
        entry: no_entry(),
    }
}

/// Adds a version, which may occur once.
fn add_version(lines: &mut Lines) -> Result<(), ReadCause>
    ensures adds { Leads read_cause (add_statement (state_of lines.old) version) (state_of lines.new) result }
    ensures first { IfErr result (FaultFirst (add_statement (state_of lines.old) version)) }
    ensures of_text { IfErr result IsOfText }
{
    if lines.has_version {
        return Err(ReadCause::BadDirective);
    }
    lines.has_version = true;
    Ok(())
}

/// Adds a range of implicit weights.
fn add_range(lines: &mut Lines, range: Range) -> Result<(), ReadCause>
    ensures adds { Leads read_cause (add_statement (state_of lines.old) (range_said range)) (state_of lines.new) result }
    ensures first { IfErr result (FaultFirst (add_statement (state_of lines.old) (range_said range))) }
    ensures of_text { IfErr result IsOfText }
{
    match lines
        .builder
        .add_implicit(range.first, range.last, range.base)
    {
        Ok(()) => Ok(()),
        Err(RangeFault::BadRange) => Err(ReadCause::BadRange),
        Err(RangeFault::OutOfMemory) => Err(ReadCause::OutOfMemory),
    }
}

/// Adds the entry that was read.
fn add_entry(lines: &mut Lines) -> Result<(), ReadCause>
    requires { IsSomeEntry lines.old.entry }
    ensures adds { Leads read_cause (add_statement (state_of lines.old) (entry_in lines.old.entry)) (state_of lines.new) result }
    ensures first { IfErr result (FaultFirst (add_statement (state_of lines.old) (entry_in lines.old.entry))) }
    ensures of_text { IfErr result IsOfText }
{
    let (key, elements) = (lines.entry.key.as_slice(), lines.entry.elements.as_slice());
    match lines.builder.insert(key, elements) {
        Ok(()) => Ok(()),
        Err(InsertFault::OutOfMemory) => Err(ReadCause::OutOfMemory),
        Err(_) => Err(ReadCause::Repeated),
    }
}

/// Adds what a directive says.
fn add_directive(lines: &mut Lines, said: Directive) -> Result<(), ReadCause>
    ensures adds { Leads read_cause (add_statement (state_of lines.old) (directive_of said)) (state_of lines.new) result }
    ensures first { IfErr result (FaultFirst (add_statement (state_of lines.old) (directive_of said))) }
    ensures of_text { IfErr result IsOfText }
{
    match said {
        Directive::Version => add_version(lines),
        Directive::Range(range) => add_range(lines, range),
    }
}

/// Adds what a line says.
fn add_statement(lines: &mut Lines, said: Statement) -> Result<(), ReadCause>
    requires { IsReady lines.old.entry said }
    ensures adds { Leads read_cause (add_statement (state_of lines.old) (statement_in lines.old.entry said)) (state_of lines.new) result }
    ensures first { IfErr result (FaultFirst (add_statement (state_of lines.old) (statement_in lines.old.entry said))) }
    ensures of_text { IfErr result IsOfText }
{
    match said {
        Statement::Nothing => Ok(()),
        Statement::Directive(directive) => add_directive(lines, directive),
        Statement::Entry => add_entry(lines),
    }
}

/// Adds a line.
fn add_line(lines: &mut Lines, line: &[u8]) -> Result<(), ReadCause>
    ensures adds { Leads read_cause (add_line (state_of lines.old) line.now) (state_of lines.new) result }
    ensures first { IfErr result (FaultFirst (add_line (state_of lines.old) line.now)) }
    ensures of_text { IfErr result IsOfText }
{
    match read_statement(&mut lines.entry, line) {
        Ok(said) => add_statement(lines, said),
        Err(fault) => Err(fault.cause()),
    }
}

impl LineSink for Lines {
    type Cause = ReadCause;

    ghost State = { TextState };

    ghost Fault = { Cause };

    ghost state = { state_of };

    ghost fold = { table_fold };

    ghost fault_of = { read_cause };

    ghost possible = { IsOfText };

    ghost ready = { λ _ n. Unit {0} };

    fn add(&mut self, _number: u64, line: &[u8]) -> Result<(), ReadCause> {
        add_line(self, line)
    }
}
