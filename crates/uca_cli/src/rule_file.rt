ghost use Rattle.std.specs.Prelude.{◌+◌, ◌≤◌, IfErr, IfOk};
ghost use Rattle.uca_weights.specs.declared.limits.TheConstants.{MAX_RULES};
ghost use Rattle.uca_cli.specs.RuleFile.{ReadsRuleBytes, ReadsRules, RefusesRules, StopsTailoring, TailorsBy};

use simdutf8::compat::from_utf8;
use std::alloc::Global;
use uca_commands::faults::{CliFault, RulesTextCause};
use uca_io::{Stop, read_whole};
use uca_table::Table;
use uca_tailor::{Rules, parse, tailor};
use uca_weights::{MAX_RULES, Reader};

/// Reads the bytes of rules to their end.
fn read_rules<U: Reader>(alloc: Global, reader: &mut U) -> Result<Vec<u8>, CliFault>
    ensures ok { IfOk result (λ v. ReadsRuleBytes (U.state reader.old) (U.state reader.new) v.items) }
    ensures err { IfErr result (RefusesRules (U.state reader.old) (U.state reader.new)) }
    ensures calls { U.calls reader.new ≤ U.calls reader.old + (MAX_RULES + 1) }
{
    read_whole(alloc, reader, MAX_RULES).map_err(|stop| match stop {
        Stop::TooLarge => CliFault::RulesText {
            at: MAX_RULES,
            cause: RulesTextCause::TooLarge,
        },
        Stop::Read => CliFault::RulesText {
            at: 0,
            cause: RulesTextCause::Read,
        },
        Stop::OutOfMemory => CliFault::OutOfMemory,
    })
}

/// The rules in the text of a reader. The whole text is read first.
fn rules_in<U: Reader>(alloc: Global, reader: &mut U) -> Result<Rules, CliFault>
    ensures ok { IfOk result (λ r. ReadsRules (U.state reader.old) (U.state reader.new) r) }
    ensures err { IfErr result (RefusesRules (U.state reader.old) (U.state reader.new)) }
    ensures calls { U.calls reader.new ≤ U.calls reader.old + (MAX_RULES + 1) }
{
    let bytes = read_rules(alloc, reader)?;
    match from_utf8(&bytes) {
        Ok(text) => Ok(parse(alloc, text)?),
        Err(error) => Err(CliFault::RulesText {
            at: error.valid_up_to(),
            cause: RulesTextCause::NotUtf8,
        }),
    }
}

/// A table tailored by the rules in a reader.
fn tailored_by<U: Reader>(alloc: Global, t: &Table, reader: &mut U) -> Result<Table, CliFault>
    ensures ok { IfOk result (TailorsBy (U.state reader.old) (U.state reader.new) t.now) }
    ensures err { IfErr result (StopsTailoring (U.state reader.old) (U.state reader.new) t.now) }
    ensures calls { U.calls reader.new ≤ U.calls reader.old + (MAX_RULES + 1) }
{
    let rules = rules_in(alloc, reader)?;
    Ok(tailor(alloc, t, &rules)?)
}

/// The table tailored by the rules in a reader.
pub(crate) fn tailored_in<U: Reader>(
    alloc: Global,
    t: Table,
    reader: &mut U,
) -> Result<Table, CliFault>
    ensures ok { IfOk result (TailorsBy (U.state reader.old) (U.state reader.new) t) }
    ensures err { IfErr result (StopsTailoring (U.state reader.old) (U.state reader.new) t) }
    ensures calls { U.calls reader.new ≤ U.calls reader.old + (MAX_RULES + 1) }
{
    let mut base = t;
    base.forget_characters(alloc);
    tailored_by(alloc, &base, reader)
}
