use super::{assert_implicit, element, small_table};
use std::alloc::{AllocError, Global};
use std::process::Abort;
use std::test::Fail;
use uca_table::{Element, Ideographs, RangeFault, Table};

/// Adds a range of ideographs, retrying where memory was refused.
fn add(table: &mut Table, first: char, last: char) -> Result<(), RangeFault> {
    match table.add_ideographs(first, last) {
        Err(RangeFault::OutOfMemory) => table.add_ideographs(first, last),
        answer => answer,
    }
}

/// Ranges, and what they are refused for, if they are, one after the other.
const RANGES: [(char, char, Result<(), RangeFault>); 5] = [
    ('\u{33480}', '\u{323B0}', Err(RangeFault::BadRange)),
    ('\u{323AF}', '\u{323B0}', Err(RangeFault::BadRange)),
    ('\u{323B0}', '\u{33479}', Ok(())),
    ('\u{33479}', '\u{33480}', Err(RangeFault::BadRange)),
    ('\u{17000}', '\u{17001}', Ok(())),
];

fn add_all(rt: &impl Abort, table: &mut Table) {
    for (first, last, answer) in &RANGES {
        assert!(rt; add(table, *first, *last) == *answer, "{first:?}");
    }
}

// Two ranges of ideographs, one of which lies in a range of implicit weights, are added after others were refused.
fn widened(rt: &impl Abort, alloc: Global) -> Table {
    let mut table = small_table(rt, alloc);
    add_all(rt, &mut table);
    table
}

// The ranges that were added, by their first code points.
const ADDED: [Ideographs; 2] = [
    Ideographs {
        first: '\u{17000}',
        last: '\u{17001}',
    },
    Ideographs {
        first: '\u{323B0}',
        last: '\u{33479}',
    },
];

#[test]
fn ideographs_may_not_meet_each_other_nor_the_list(rt: HostRuntime) {
    let table = widened(&rt, rt.alloc());
    assert!(rt; table.ideographs() == ADDED.as_slice());
    let plain = small_table(&rt, rt.alloc());
    assert!(rt; plain.ideographs().is_empty());
}

const WIDENED: [(char, u16, u16); 5] = [
    ('\u{323AF}', 0xFB86, 0xA3AF),
    ('\u{323B0}', 0xFB86, 0xA3B0),
    ('\u{33479}', 0xFB86, 0xB479),
    ('\u{3347A}', 0xFBC6, 0xB47A),
    // A range of implicit weights decides before.
    ('\u{17000}', 0xFB00, 0x8000),
];

#[test]
fn added_ideographs_have_their_implicit_weights_at_once(rt: HostRuntime) {
    let plain = small_table(&rt, rt.alloc());
    assert_implicit(&rt, &plain, &[('\u{323B0}', 0xFBC6, 0xA3B0)]);
    let table = widened(&rt, rt.alloc());
    assert_implicit(&rt, &table, &WIDENED);
}

// The elements of a code point in the first plane, which has no key.
fn elements_without_key(table: &Table, alloc: Global, c: char) -> Result<Vec<Element>, AllocError> {
    let mut elements = Vec::new(alloc);
    table.push_elements(alloc, &mut elements, &[c])?;
    Ok(elements)
}

/// Fails a test where a code point has not two elements with these primary weights.
fn assert_pair(
    rt: &impl Abort,
    alloc: Global,
    table: &Table,
    c: char,
    [first, second]: [u16; 2],
) -> Result<(), AllocError> {
    let elements = elements_without_key(table, alloc, c)?;
    assert!(rt; elements.len() == 2);
    assert!(rt; elements[0] == element(false, [first, 0x20, 2]));
    assert!(rt; elements[1] == element(false, [second, 0, 0]));
    Ok(())
}

#[test]
fn elements_of_texts_follow_added_ideographs(rt: HostRuntime) -> Result<(), Fail> {
    let alloc = rt.alloc();
    let mut table = small_table(&rt, alloc);
    assert_pair(&rt, alloc, &table, '\u{E000}', [0xFBC1, 0xE000])?;
    assert!(rt; add(&mut table, '\u{E000}', '\u{E000}') == Ok(()));
    assert_pair(&rt, alloc, &table, '\u{E000}', [0xFB81, 0xE000])?;
    // Made ready, the table answers the same; so it does where memory is refused.
    let _ready = table.prepare(alloc);
    assert_pair(&rt, alloc, &table, '\u{E000}', [0xFB81, 0xE000])?;
    Ok(())
}
