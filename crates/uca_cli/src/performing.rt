ghost use Rattle.std.specs.Prelude.{◌≡◌, ◌+◌, ◌≤◌, IfErr, IfOk, MatchResult, Some, option_map};
ghost use Rattle.uca_weights.specs.declared.limits.TheConstants.{MAX_INPUT, MAX_RULES};
ghost use Rattle.uca_cli.specs.Borrowed.{borrowed, given_back, GoesUpTo};
ghost use Rattle.uca_commands.specs.Commands.{Does, Fails};
ghost use Rattle.uca_cli.specs.Performing.{command_of, Performs, Refuses, RefusesWidening, Widens, settings_of};

use crate::built_in_table::built_in;
use crate::rule_file::tailored_in;
use std::alloc::Global;
use uca_allkeys::read_table;
use uca_commands::commands::{check, compare, elements, key, lint, order, table};
use uca_commands::faults::CliFault;
use uca_job::{Job, Task};
use uca_table::{RangeFault, Table};
use uca_weights::{Reader, Settings, Writer};

/// Adds a range of ideographs to a table.
fn widen(t: &mut Table, ends: (char, char)) -> Result<(), CliFault>
    ensures { MatchResult result (λ _. Widens (Some ends) t.old t.new) (RefusesWidening (Some ends) t.old) }
{
    match t.add_ideographs(ends.0, ends.1) {
        Ok(()) => Ok(()),
        Err(RangeFault::BadRange) => Err(CliFault::Ideographs),
        Err(RangeFault::OutOfMemory) => Err(CliFault::OutOfMemory),
    }
}

/// Adds the range of ideographs of a job to a table, where it has one.
fn widened(mut t: Table, ends: Option<(char, char)>) -> Result<Table, CliFault>
    ensures ok { IfOk result (Widens ends t) }
    ensures err { IfErr result (RefusesWidening ends t) }
{
    if let Some(ends) = ends {
        widen(&mut t, ends)?;
    }
    Ok(t)
}

/// The table of a job that has no rules. If a range of ideographs was added, the cells that this dropped are rebuilt; where
/// memory for them is refused, the table is only slower.
fn ready(alloc: Global, mut t: Table, ends: Option<(char, char)>) -> Table
    ensures { result ≡ t }
{
    if ends.is_some() {
        let _has_cells = t.prepare(alloc);
    }
    t
}

/// Does the command of a job with its table.
fn work<I: Reader, W: Writer>(
    alloc: Global,
    job: &Job,
    t: &Table,
    input: &mut I,
    output: &mut W,
) -> Result<u8, CliFault>
    ensures done { IfOk result (Does (command_of job.now.command job.now.raw) t.now (settings_of job.now)
        (record { input = I.state input.old; output = W.state output.old })
        (record { input = I.state input.new; output = W.state output.new })) }
    ensures fault { IfErr result (Fails (command_of job.now.command job.now.raw) t.now (settings_of job.now)
        (record { input = I.state input.old; output = W.state output.old })
        (record { input = I.state input.new; output = W.state output.new })) }
    ensures calls { I.calls input.new ≤ I.calls input.old + (MAX_INPUT + 1) }
{
    let settings = Settings {
        strength: job.strength,
        weighting: job.weighting,
    };
    match job.command {
        Task::Elements => elements::run(alloc, t, settings, input, output),
        Task::Key => {
            if job.raw {
                key::run_raw(alloc, t, settings, input, output)
            } else {
                key::run(alloc, t, settings, input, output)
            }
        }
        Task::Compare => compare::run(alloc, t, settings, input, output),
        Task::Order => order::run(alloc, t, settings, input, output),
        Task::Check => check::run(t, settings, input, output),
        Task::Lint => lint::run(t, output),
        Task::Table => table::run(t, output),
    }
}

/// Does a job: reads the table, to which it adds the job's range of ideographs, then the rules, by which it tailors the
/// table, then the input, which it checks whole, and only then writes the output. It returns the status of the program:
/// 1 where `check` failed or `lint` found something, and otherwise 0.
///
/// Where there is no reader of a table, it uses the built-in table, and where there is none of rules, the table
/// as it is. At a fault of the table or of the range nothing else was read, at one of the rules nothing of the input, and at each of these
/// and at one of the input nothing was written. On a fault of the output, or on an allocation failure while it is written,
/// its front was written; `written` counts over the whole run. It does not flush the writer. Of a reader that counts its calls
/// it makes at most one more than the limit of that text has bytes.
pub fn perform<T: Reader, U: Reader, I: Reader, W: Writer>(
    alloc: Global,
    job: &Job,
    table: Option<&mut T>,
    rules: Option<&mut U>,
    input: &mut I,
    output: &mut W,
) -> Result<u8, CliFault>
    ensures done { IfOk result (Performs job.now
        (record { table = option_map T.state (borrowed table.entry); rules = option_map U.state (borrowed rules.entry) })
        (record { table = option_map T.state (given_back table.exit); rules = option_map U.state (given_back rules.exit) })
        (record { input = I.state input.old; output = W.state output.old })
        (record { input = I.state input.new; output = W.state output.new })) }
    ensures fault { IfErr result (Refuses job.now
        (record { table = option_map T.state (borrowed table.entry); rules = option_map U.state (borrowed rules.entry) })
        (record { table = option_map T.state (given_back table.exit); rules = option_map U.state (given_back rules.exit) })
        (record { input = I.state input.old; output = W.state output.old })
        (record { input = I.state input.new; output = W.state output.new })) }
    ensures table_calls { GoesUpTo (MAX_INPUT + 1) (option_map T.calls (borrowed table.entry)) (option_map T.calls (given_back table.exit)) }
    ensures rule_calls { GoesUpTo (MAX_RULES + 1) (option_map U.calls (borrowed rules.entry)) (option_map U.calls (given_back rules.exit)) }
    ensures calls { I.calls input.new ≤ I.calls input.old + (MAX_INPUT + 1) }
{
    let given = match table {
        Some(reader) => read_table(alloc, reader)?,
        None => built_in(alloc)?,
    };
    let base = widened(given, job.ideographs)?;
    let t = match rules {
        Some(reader) => tailored_in(alloc, base, reader)?,
        None => ready(alloc, base, job.ideographs),
    };
    work(alloc, job, &t, input, output)
}

/// The status with which the program ends at a fault.
pub fn status_of(_f: &CliFault) -> u8
    ensures { result ≡ 3 }
{
    3
}
