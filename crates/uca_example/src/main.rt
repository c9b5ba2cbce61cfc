//! Compares two texts under a table, and makes a sort key of each.
#![tactic(auto)]

use std::process::ExitCode;
use uca_allkeys::read_table;
use uca_key::key_of;
use uca_levels::compare;
use uca_table::Table;
use uca_weights::{Reading, Settings, Strength, Variable};
use uca_window::Passage;

/// A table in the format of `allkeys.txt`: two letters and an acute accent.
const TABLE: &[u8] = b"@version 17.0.0\n\
    0061 ; [.2000.0020.0002]\n\
    0062 ; [.2010.0020.0002]\n\
    0301 ; [.0000.0024.0002]\n";

fn main(rt: HostRuntime) -> ExitCode {
    match show(&rt) {
        Some(()) => ExitCode::SUCCESS,
        None => ExitCode::FAILURE,
    }
}

fn show(rt: &HostRuntime) -> Option<()> {
    let table = read_table(rt.alloc(), &mut Reading::new(TABLE)).ok()?;
    compare_and_key(rt, &table)
}

fn compare_and_key(rt: &HostRuntime, table: &Table) -> Option<()> {
    let settings = Settings {
        strength: Strength::Tertiary,
        weighting: Variable::NonIgnorable,
    };
    let first = Passage::check("ab").ok()?;
    let second = Passage::check("áb").ok()?;
    println!(rt; "{:?}", compare(table, settings, &first, &second)).ok()?;
    show_key(rt, table, settings, &first)?;
    show_key(rt, table, settings, &second)
}

fn show_key(rt: &HostRuntime, table: &Table, settings: Settings, text: &Passage) -> Option<()> {
    let key = key_of(rt.alloc(), table, settings, text).ok()?;
    for byte in key.as_slice() {
        print!(rt; "{byte:02X} ").ok()?;
    }
    println!(rt; "").ok()
}
