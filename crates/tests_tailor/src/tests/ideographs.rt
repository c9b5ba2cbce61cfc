use super::{element, small_table, tailored_table};
use std::process::Abort;
use uca_table::{Ideographs, RangeFault, Table};

/// Adds a range of ideographs, retrying where memory was refused.
fn add(table: &mut Table, range: Ideographs) -> Result<(), RangeFault> {
    match table.add_ideographs(range.first, range.last) {
        Err(RangeFault::OutOfMemory) => table.add_ideographs(range.first, range.last),
        answer => answer,
    }
}

const ADDED: [Ideographs; 2] = [
    Ideographs {
        first: '\u{17000}',
        last: '\u{17001}',
    },
    Ideographs {
        first: '\u{323B0}',
        last: '\u{33479}',
    },
];

fn add_all(rt: &impl Abort, t: &mut Table) {
    for range in &ADDED {
        assert!(rt; add(t, *range) == Ok(()));
    }
}

fn assert_ideographs(rt: &impl Abort, t: &Table, wanted: &[Ideographs]) {
    assert!(rt; t.ideographs() == wanted);
}

/// Fails a test where the first ideograph of the second range has other implicit weights.
fn assert_weights_of_first(rt: &impl Abort, t: &Table) {
    let [first, second] = t.implicit('\u{323B0}');
    assert!(rt; first == element([0xFB86, 0x20, 2]));
    assert!(rt; second == element([0xA3B0, 0, 0]));
}

#[test]
fn a_tailored_table_keeps_its_ideographs(rt: HostRuntime) {
    let mut t = small_table(&rt, rt.alloc());
    add_all(&rt, &mut t);
    let u = tailored_table(&rt, rt.alloc(), &t, "&a<x");
    assert_ideographs(&rt, &u, &ADDED);
    assert_weights_of_first(&rt, &u);
}
