ghost use Rattle.std.specs.Prelude.{MatchResult};
ghost use Rattle.uca_handle.specs.Opening.{RefusesBase, RefusesRules, RefusesTable, SaysBase, SaysTable, Tailors};

use crate::bytes::Bytes;
use crate::faults::OpenFault;
use simdutf8::compat::from_utf8;
use std::alloc::Global;
use uca_allkeys::read_table;
use uca_table::Table;
use uca_tailor::{parse, tailor};

/// The table that a text says.
fn base_of(alloc: Global, table: &[u8]) -> Result<Table, OpenFault>
    ensures { MatchResult result (SaysBase table.now) (RefusesBase table.now) }
{
    let mut reader = Bytes::new(table);
    Ok(read_table(alloc, &mut reader)?)
}

/// The table that the rules in a text make of another.
fn tailored_by(alloc: Global, base: &Table, rules: &[u8]) -> Result<Table, OpenFault>
    ensures { MatchResult result (Tailors base.now rules.now) (RefusesRules base.now rules.now) }
{
    let text = match from_utf8(rules) {
        Ok(text) => text,
        Err(error) => return Err(OpenFault::RulesNotUtf8(error.valid_up_to())),
    };
    let parsed = parse(alloc, text)?;
    Ok(tailor(alloc, base, &parsed)?)
}

/// The table that two texts say: the first one a table, the second the rules that tailor it.
pub(crate) fn table_of(alloc: Global, table: &[u8], rules: &[u8]) -> Result<Table, OpenFault>
    ensures { MatchResult result (SaysTable table.now rules.now) (RefusesTable table.now rules.now) }
{
    let mut base = base_of(alloc, table)?;
    // Without rules it is the table, which need not be copied.
    if rules.is_empty() {
        return Ok(base);
    }
    base.forget_characters(alloc);
    tailored_by(alloc, &base, rules)
}
