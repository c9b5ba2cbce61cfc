use super::{finish, insert, small_table};
use std::alloc::Global;
use std::process::Abort;
use std::test::Fail;
use uca_table::{Table, TableBuilder, WellFormed, lint};
use uca_testing::{Entry, element};

const LETTER: Entry = (&['a'], false, [0x1000, 0x20, 2]);

const LOW: Entry = (&[' '], true, [0x200, 0x20, 2]);

const HIGH: Entry = (&['-'], true, [0x202, 0x20, 2]);

fn table_of(rt: &impl Abort, alloc: Global, entries: &[Entry]) -> Table {
    let mut builder = TableBuilder::new(alloc);
    for (key, starred, weights) in entries {
        let inserted = insert(&mut builder, key, &[element(*starred, *weights)]);
        assert!(rt; inserted == Ok(()));
    }
    finish(builder).expect(rt, "a table")
}

#[test]
fn the_small_table_is_well_formed(rt: HostRuntime) {
    let broken = lint(&small_table(&rt, rt.alloc()));
    assert!(rt; broken.len() == 0);
}

#[test]
fn a_table_without_entries_is_well_formed(rt: HostRuntime) {
    let broken = lint(&table_of(&rt, rt.alloc(), &[]));
    assert!(rt; broken.len() == 0);
}

const ALL_BROKEN: [Entry; 4] = [
    (&['a'], false, [0x1000, 0x20, 2]),
    (&['-'], true, [0x1000, 0x20, 2]),
    (&['\u{300}'], true, [0, 0x20, 0]),
    (&['b', '\u{301}', '\u{308}'], false, [0x1001, 0x20, 2]),
];

const ALL: [WellFormed; 5] = [
    WellFormed::WF1,
    WellFormed::WF2,
    WellFormed::WF3,
    WellFormed::WF4,
    WellFormed::WF5,
];

#[test]
fn one_table_breaks_all_conditions(rt: HostRuntime) {
    assert_broken(&rt, rt.alloc(), &ALL_BROKEN, &ALL);
}

/// Fails a test whose entries break other conditions.
fn assert_broken(rt: &impl Abort, alloc: Global, entries: &[Entry], wanted: &[WellFormed]) {
    let broken = lint(&table_of(rt, alloc, entries));
    assert!(rt; broken.as_slice() == wanted);
}

#[test]
fn weights_are_skipped_below_8000_alone(rt: HostRuntime) {
    let alloc = rt.alloc();
    assert_broken(
        &rt,
        alloc,
        &[(&['a'], false, [0x7FFF, 0, 2])],
        &[WellFormed::WF1],
    );
    assert_broken(
        &rt,
        alloc,
        &[(&['a'], false, [0x7FFF, 0x20, 0])],
        &[WellFormed::WF1],
    );
    assert_broken(
        &rt,
        alloc,
        &[(&['a'], false, [0, 0x21, 0])],
        &[WellFormed::WF1],
    );
    assert_broken(&rt, alloc, &[(&['a'], false, [0x8000, 0, 2])], &[]);
}

#[test]
fn weights_of_marks_are_above_those_of_letters(rt: HostRuntime) {
    let alloc = rt.alloc();
    assert_broken(
        &rt,
        alloc,
        &[LETTER, (&['\u{301}'], false, [0, 0x20, 2])],
        &[WellFormed::WF2],
    );
    assert_broken(
        &rt,
        alloc,
        &[LETTER, (&['\u{301}'], false, [0, 0x21, 2])],
        &[],
    );
    assert_broken(
        &rt,
        alloc,
        &[LETTER, (&['\u{301}'], false, [0, 0, 2])],
        &[WellFormed::WF2],
    );
    assert_broken(&rt, alloc, &[LETTER, (&['\u{301}'], false, [0, 0, 3])], &[]);
}

#[test]
fn variable_elements_stand_together_and_have_primary_weights(rt: HostRuntime) {
    let alloc = rt.alloc();
    assert_broken(&rt, alloc, &[(&['b'], true, [0, 0, 0])], &[WellFormed::WF3]);
    assert_broken(
        &rt,
        alloc,
        &[LOW, HIGH, (&['b'], false, [0x201, 0x20, 2])],
        &[WellFormed::WF4],
    );
    assert_broken(
        &rt,
        alloc,
        &[LOW, HIGH, (&['b'], false, [0x202, 0x20, 2])],
        &[WellFormed::WF4],
    );
    assert_broken(
        &rt,
        alloc,
        &[LOW, HIGH, (&['b'], false, [0x203, 0x20, 2])],
        &[],
    );
    assert_broken(
        &rt,
        alloc,
        &[LOW, HIGH, (&['b'], false, [0x1FF, 0x20, 2])],
        &[],
    );
}

#[test]
fn long_contractions_have_their_fronts(rt: HostRuntime) {
    let alloc = rt.alloc();
    let weights = [0x1000, 0x20, 2];
    assert_broken(&rt, alloc, &[(&['b', '\u{301}'], false, weights)], &[]);
    assert_broken(&rt, alloc, &[(&['b', '\u{301}', 'b'], false, weights)], &[]);
    assert_broken(
        &rt,
        alloc,
        &[(&['b', '\u{301}', '\u{308}'], false, weights)],
        &[WellFormed::WF5],
    );
}
