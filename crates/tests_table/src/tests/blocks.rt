use super::{assert_entries, assert_primary, assert_unknown, element, finish, insert};
use std::alloc::Global;
use std::process::Abort;
use uca_table::{InsertFault, Table, TableBuilder};

/// Keys about the ends of blocks of 128 code points, primary weights, and what the entries are refused for, if they are, one
/// after the other.
const ENTRIES: [(&'static [char], u16, Result<(), InsertFault>); 18] = [
    (&['\u{7F}', '\u{80}'], 1, Ok(())),
    (&['\u{10FFFF}', '\u{0}'], 2, Ok(())),
    (&['\u{80}'], 3, Ok(())),
    // The first code point has no entry of its own, and others of its block have.
    (&['\u{17F}', '\u{17F}'], 4, Ok(())),
    (&['\u{7F}'], 5, Ok(())),
    (&['\u{80}'], 6, Err(InsertFault::Repeated)),
    (&['\u{100}'], 7, Ok(())),
    (&['\u{FF}'], 8, Ok(())),
    (&['\u{7F}', '\u{80}'], 9, Err(InsertFault::Repeated)),
    (&['\u{10FFFF}'], 10, Ok(())),
    (&['\u{0}'], 11, Ok(())),
    // No code point of its block has one.
    (&['\u{1F6FF}', '\u{0}', '\u{0}'], 12, Ok(())),
    (&['\u{1F6FF}', '\u{0}'], 13, Ok(())),
    (&['\u{E000}'], 14, Ok(())),
    (&['\u{D7FF}'], 15, Ok(())),
    (&['\u{10FFFF}'], 16, Err(InsertFault::Repeated)),
    (&['\u{7F}'], 17, Err(InsertFault::Repeated)),
    (&['\u{17F}', '\u{17F}'], 18, Err(InsertFault::Repeated)),
];

const KEY_ORDER: [&'static [char]; 13] = [
    &['\u{0}'],
    &['\u{7F}'],
    &['\u{7F}', '\u{80}'],
    &['\u{80}'],
    &['\u{FF}'],
    &['\u{100}'],
    &['\u{17F}', '\u{17F}'],
    &['\u{D7FF}'],
    &['\u{E000}'],
    &['\u{1F6FF}', '\u{0}'],
    &['\u{1F6FF}', '\u{0}', '\u{0}'],
    &['\u{10FFFF}'],
    &['\u{10FFFF}', '\u{0}'],
];

const OTHER_KEYS: [&'static [char]; 6] = [
    &['\u{1}'],
    &['\u{FE}'],
    &['\u{17F}'],
    &['\u{180}'],
    &['\u{1F6FF}'],
    &['\u{10FFFE}'],
];

fn table_at_ends(rt: &impl Abort, alloc: Global) -> Table {
    let mut builder = TableBuilder::new(alloc);
    for (key, primary, answer) in &ENTRIES {
        let inserted = insert(&mut builder, key, &[element(false, [*primary, 0x20, 2])]);
        assert!(rt; inserted == *answer, "{key:?}");
    }
    finish(builder).expect(rt, "a table")
}

#[test]
fn keys_at_the_ends_of_blocks_come_by_key_order(rt: HostRuntime) {
    let table = table_at_ends(&rt, rt.alloc());
    assert!(rt; table.longest() == 3);
    assert_entries(&rt, &table, &KEY_ORDER);
    assert_unknown(&rt, &table, &OTHER_KEYS);
}

#[test]
fn a_repeated_key_keeps_its_first_elements(rt: HostRuntime) {
    let table = table_at_ends(&rt, rt.alloc());
    for (key, primary, answer) in &ENTRIES {
        if answer.is_ok() {
            assert_primary(&rt, table.get(key), Some(*primary));
        }
    }
}
