mod ideographs;
mod laws;
mod parsing;

use std::alloc::{AllocError, Global};
use std::process::Abort;
use uca_table::{Element, InsertFault, Table, TableBuilder};
use uca_tailor::{RuleCause, Rules, TailorCause, TailorFault, parse, tailor};
use uca_testing::{Entry, SMALL_TABLE};

/// An element with the mark `.` and these weights.
fn element(weights: [u16; 3]) -> Element {
    uca_testing::element(false, weights)
}

/// Makes a table whose entries have one element each, each step retried where memory was refused.
fn table(rt: &impl Abort, alloc: Global, entries: &[Entry]) -> Table {
    let mut builder = TableBuilder::new(alloc);
    for (key, starred, weights) in entries {
        let elements = [uca_testing::element(*starred, *weights)];
        let inserted = match builder.insert(key, &elements) {
            Err(InsertFault::OutOfMemory) => builder.insert(key, &elements),
            answer => answer,
        };
        assert!(rt; inserted == Ok(()));
    }
    finished(rt, builder)
}

/// The table of a builder, retrying where memory was refused.
fn finished(rt: &impl Abort, builder: TableBuilder) -> Table {
    match builder.finish() {
        Ok(table) => table,
        Err(fault) => fault.builder.finish().ok().expect(rt, "a table"),
    }
}

fn small_table(rt: &impl Abort, alloc: Global) -> Table {
    uca_testing::small_table(alloc).ok().expect(rt, "a table")
}

/// Reads rules, retrying where memory was refused.
fn rules(rt: &impl Abort, alloc: Global, text: &str) -> Rules {
    let read = match parse(alloc, text) {
        Err(fault) if fault.cause == RuleCause::OutOfMemory => parse(alloc, text),
        answer => answer,
    };
    read.ok().expect(rt, "rules")
}

/// Tailors a table, retrying where memory was refused.
fn tailored(rt: &impl Abort, alloc: Global, t: &Table, text: &str) -> Result<Table, TailorFault> {
    let rules = rules(rt, alloc, text);
    match tailor(alloc, t, &rules) {
        Err(fault) if fault.cause == TailorCause::OutOfMemory => {
            assert!(rt; fault.relation == 0);
            tailor(alloc, t, &rules)
        }
        answer => answer,
    }
}

/// A table tailored by rules that can be applied to it.
fn tailored_table(rt: &impl Abort, alloc: Global, t: &Table, text: &str) -> Table {
    tailored(rt, alloc, t, text)
        .ok()
        .expect(rt, "a tailored table")
}

/// Fails a test where the elements of a key are not exactly these, with the mark `.`.
fn assert_weights(rt: &impl Abort, t: &Table, key: &[char], weights: &[[u16; 3]]) {
    let elements = t.get(key).expect(rt, "an entry");
    assert!(rt; elements.len() == weights.len(), "{key:?}");
    for (e, w) in elements.iter().zip(weights) {
        assert!(rt; *e == element(*w), "{key:?}");
    }
}

/// Fails a test where a key has other elements than one with these weights.
fn assert_entry(rt: &impl Abort, t: &Table, key: &[char], starred: bool, weights: [u16; 3]) {
    let elements = t.get(key).expect(rt, "an entry");
    assert!(rt; elements.len() == 1, "{key:?}");
    assert!(rt;
        elements[0] == uca_testing::element(starred, weights),
        "{key:?}"
    );
}

/// Fails a test whose table has other entries than these.
fn assert_placed(rt: &impl Abort, t: &Table, entries: &[Entry]) {
    assert!(rt; t.entries().count() == entries.len());
    for (key, starred, weights) in entries {
        assert_entry(rt, t, key, *starred, *weights);
    }
}

/// Keys, each with the weights of its elements.
type Weights = &'static [(&'static [char], &'static [[u16; 3]])];

/// Fails a test where one of these keys has other elements.
fn assert_all_weights(rt: &impl Abort, t: &Table, wanted: Weights) {
    for (key, weights) in wanted {
        assert_weights(rt, t, key, weights);
    }
}

/// Tailors the small table, and compares the elements of some keys.
fn assert_elements(rt: &impl Abort, alloc: Global, text: &str, wanted: Weights) {
    let t = small_table(rt, alloc);
    let u = tailored_table(rt, alloc, &t, text);
    assert_all_weights(rt, &u, wanted);
    // The borrowed table stays as it is.
    assert_placed(rt, &t, &SMALL_TABLE);
}

#[test]
fn an_item_goes_directly_after_its_anchor(rt: HostRuntime) {
    assert_elements(
        &rt,
        rt.alloc(),
        "&a<b &a<c",
        &[
            (&['a'], &[[0x1000, 0x20, 2]]),
            (&['A'], &[[0x1000, 0x20, 8]]),
            (&['c'], &[[0x1001, 0x20, 2]]),
            (&['b'], &[[0x1002, 0x20, 2]]),
            (&['e'], &[[0x1006, 0x20, 2]]),
            (&['h'], &[[0x1007, 0x20, 2]]),
            (&['z'], &[[0x1008, 0x20, 2]]),
            (&['c', 'h'], &[[0x1009, 0x20, 2]]),
            (&['a', '\u{301}'], &[[0x100A, 0x20, 2]]),
            (&['b', '\u{301}'], &[[0x100B, 0x20, 2]]),
            (&['b', '\u{301}', '\u{308}'], &[[0x100C, 0x20, 2]]),
        ],
    );
}

#[test]
fn a_secondary_difference_makes_a_gap_at_its_level(rt: HostRuntime) {
    assert_elements(
        &rt,
        rt.alloc(),
        "&c<<c\u{327}",
        &[
            (&['c'], &[[0x1002, 0x20, 2]]),
            (&['c', '\u{327}'], &[[0x1002, 0x21, 2]]),
            (&['\u{300}'], &[[0, 0x22, 2]]),
            (&['\u{301}'], &[[0, 0x23, 2]]),
            (&['\u{308}'], &[[0, 0x24, 2]]),
            (&['\u{323}'], &[[0, 0x25, 2]]),
            (&['b'], &[[0x1001, 0x20, 2]]),
        ],
    );
}

#[test]
fn a_tertiary_difference_makes_a_gap_at_its_level(rt: HostRuntime) {
    assert_elements(
        &rt,
        rt.alloc(),
        "&a<<<x",
        &[
            (&['a'], &[[0x1000, 0x20, 2]]),
            (&['x'], &[[0x1000, 0x20, 3]]),
            (&['A'], &[[0x1000, 0x20, 9]]),
        ],
    );
}

#[test]
fn an_expansion_follows_its_item_and_not_the_next(rt: HostRuntime) {
    assert_elements(
        &rt,
        rt.alloc(),
        "&a<b/e<c",
        &[
            (&['b'], &[[0x1001, 0x20, 2], [0x1006, 0x20, 2]]),
            (&['c'], &[[0x1002, 0x20, 2]]),
            (&['e'], &[[0x1006, 0x20, 2]]),
        ],
    );
}

#[test]
fn a_chain_goes_on_after_its_last_item(rt: HostRuntime) {
    assert_elements(
        &rt,
        rt.alloc(),
        "&a<b<c &e<<a",
        &[
            (&['a'], &[[0x1006, 0x21, 2]]),
            (&['A'], &[[0x1000, 0x20, 8]]),
            (&['b'], &[[0x1001, 0x20, 2]]),
            (&['c'], &[[0x1002, 0x20, 2]]),
            (&['e'], &[[0x1006, 0x20, 2]]),
            (&['a', '\u{301}'], &[[0x100A, 0x20, 2]]),
            (&['\u{300}'], &[[0, 0x22, 2]]),
        ],
    );
}

#[test]
fn an_equal_item_has_the_elements_of_its_anchor(rt: HostRuntime) {
    assert_elements(
        &rt,
        rt.alloc(),
        "&\u{4E00}=x",
        &[(&['x'], &[[0xFB40, 0x20, 2], [0xCE00, 0, 0]])],
    );
    assert_elements(
        &rt,
        rt.alloc(),
        "&ab=a",
        &[
            (&['a'], &[[0x1000, 0x20, 2], [0x1001, 0x20, 2]]),
            (&['b'], &[[0x1001, 0x20, 2]]),
            (&['A'], &[[0x1000, 0x20, 8]]),
            (&['a', '\u{301}'], &[[0x1008, 0x20, 2]]),
        ],
    );
}

/// Fails a test whose table has not these entries, except the one of `a`.
fn assert_others_stay(rt: &impl Abort, t: &Table, entries: &[Entry]) {
    assert!(rt; t.entries().count() == entries.len());
    for (key, starred, weights) in entries {
        if *key != ['a'].as_slice() {
            assert_entry(rt, t, key, *starred, *weights);
        }
    }
}

#[test]
fn an_equal_item_leaves_all_other_entries(rt: HostRuntime) {
    let t = small_table(&rt, rt.alloc());
    let u = tailored_table(&rt, rt.alloc(), &t, "&ab=a");
    assert_others_stay(&rt, &u, &SMALL_TABLE);
}

#[test]
fn a_reset_is_looked_up_under_the_table_so_far(rt: HostRuntime) {
    assert_elements(
        &rt,
        rt.alloc(),
        "&a=bc &bc<x",
        &[
            (&['b', 'c'], &[[0x1000, 0x20, 2]]),
            (&['x'], &[[0x1001, 0x20, 2]]),
            (&['b'], &[[0x1002, 0x20, 2]]),
            (&['c'], &[[0x1003, 0x20, 2]]),
        ],
    );
}

#[test]
fn an_item_may_come_after_itself(rt: HostRuntime) {
    assert_elements(
        &rt,
        rt.alloc(),
        "&a<a",
        &[
            (&['a'], &[[0x1001, 0x20, 2]]),
            (&['A'], &[[0x1000, 0x20, 8]]),
            (&['b'], &[[0x1002, 0x20, 2]]),
            (&['a', '\u{301}'], &[[0x1009, 0x20, 2]]),
        ],
    );
}

#[test]
fn chains_without_relations_have_no_effect(rt: HostRuntime) {
    assert_elements(
        &rt,
        rt.alloc(),
        "&a &\u{4E00}",
        &[
            (&['a'], &[[0x1000, 0x20, 2]]),
            (&['b'], &[[0x1001, 0x20, 2]]),
        ],
    );
    assert_elements(&rt, rt.alloc(), "", &[(&['b'], &[[0x1001, 0x20, 2]])]);
}

/// Fails a test where rules can be applied to a table, or another fault is met first.
fn assert_fault(
    rt: &impl Abort,
    alloc: Global,
    t: &Table,
    text: &str,
    relation: u64,
    cause: TailorCause,
) {
    let wanted = TailorFault { relation, cause };
    assert!(rt;
        tailored(rt, alloc, t, text).err() == Some(wanted),
        "{text}"
    );
}

const FAULTY: [(&'static str, TailorCause, u64); 5] = [
    ("&\\u0001<x", TailorCause::SmallWeight, 1),
    ("&\u{300}<x", TailorCause::SmallWeight, 1),
    ("&\u{4E00}<x", TailorCause::HighReset, 1),
    ("&\u{4E00}<<x", TailorCause::HighReset, 1),
    (
        "&a<x<y &a<x=\\u0001 &' ' &\u{4E01}<<<x",
        TailorCause::HighReset,
        5,
    ),
];

/// Fails a test where one of these rules has another fault under a table, or none.
fn assert_faults(
    rt: &impl Abort,
    alloc: Global,
    t: &Table,
    rows: &[(&'static str, TailorCause, u64)],
) {
    for (text, cause, relation) in rows {
        assert_fault(rt, alloc, t, text, *relation, *cause);
    }
}

#[test]
fn the_first_relation_at_fault_is_reported(rt: HostRuntime) {
    let t = small_table(&rt, rt.alloc());
    assert_faults(&rt, rt.alloc(), &t, &FAULTY);
    assert_placed(&rt, &t, &SMALL_TABLE);
}

/// Fails a test where rules can be applied to the table of these entries, which stays as it is.
fn assert_fault_of(
    rt: &impl Abort,
    alloc: Global,
    entries: &[Entry],
    text: &str,
    relation: u64,
    cause: TailorCause,
) {
    let t = table(rt, alloc, entries);
    assert_fault(rt, alloc, &t, text, relation, cause);
    assert_placed(rt, &t, entries);
}

const FULL: [(&'static [Entry], &'static str, u8, u64); 6] = [
    (
        &[
            (&['a'], false, [0x1000, 0x20, 2]),
            (&['b'], false, [0x7FFF, 0x20, 2]),
        ],
        "&a<c",
        1,
        1,
    ),
    (
        &[
            (&['a'], false, [0x1000, 0x20, 2]),
            (&['b'], false, [0x7FFF, 0x20, 2]),
        ],
        "&b<c",
        1,
        1,
    ),
    (
        &[
            (&['a'], false, [0x1000, 0x20, 2]),
            (&['b'], false, [0x7FFE, 0x20, 2]),
        ],
        "&a<c<d",
        1,
        2,
    ),
    (&[(&['a'], false, [0x1000, 0xFFFF, 2])], "&a<<c", 2, 1),
    (
        &[(&['a'], false, [0x1000, 0x20, 0xFFFE])],
        "&a<<<c &a<<<d",
        3,
        2,
    ),
    // An item is at the limit every other time, until it stays there.
    (
        &[
            (&['a'], false, [0x1000, 0x20, 2]),
            (&['b'], false, [0x7FFE, 0x20, 2]),
        ],
        "&b<c &a=c &b<c &a=c &b<d &b<c",
        1,
        6,
    ),
];

#[test]
fn a_level_without_a_gap_is_full(rt: HostRuntime) {
    for (entries, text, level, relation) in &FULL {
        assert_fault_of(
            &rt,
            rt.alloc(),
            entries,
            text,
            *relation,
            TailorCause::Full(*level),
        );
    }
}

/// Fails a test where rules give `c` other weights than these under the table of these entries, or `b`.
fn assert_gap(
    rt: &impl Abort,
    alloc: Global,
    entries: &[Entry],
    text: &str,
    item: [u16; 3],
    other: [u16; 3],
) {
    let t = table(rt, alloc, entries);
    let u = tailored_table(rt, alloc, &t, text);
    assert_entry(rt, &u, &['c'], false, item);
    assert_entry(rt, &u, &['b'], false, other);
}

const ROOMY: [(&'static [Entry], &'static str, [u16; 3], [u16; 3]); 6] = [
    (
        &[
            (&['a'], false, [0x1000, 0x20, 2]),
            (&['b'], false, [0x7FFE, 0x20, 2]),
        ],
        "&a<c",
        [0x1001, 0x20, 2],
        [0x7FFF, 0x20, 2],
    ),
    (
        &[
            (&['a'], false, [0x1000, 0x20, 0xFFFE]),
            (&['b'], false, [0x1001, 0x20, 2]),
        ],
        "&a<<<c",
        [0x1000, 0x20, 0xFFFF],
        [0x1001, 0x20, 2],
    ),
    (
        &[
            (&['a'], false, [0x1000, 0x20, 2]),
            (&['b'], false, [0xFFFF, 0x20, 2]),
        ],
        "&a<c",
        [0x1001, 0x20, 2],
        [0xFFFF, 0x20, 2],
    ),
    (
        &[
            (&['a'], false, [0x1000, 0x20, 2]),
            (&['b'], false, [0x8000, 0x20, 2]),
        ],
        "&a<c",
        [0x1001, 0x20, 2],
        [0x8000, 0x20, 2],
    ),
    // What was at the limit is an item now.
    (
        &[
            (&['a'], false, [0x1000, 0x20, 2]),
            (&['b'], false, [0x7FFF, 0x20, 2]),
        ],
        "&a=b &a<d &a<c",
        [0x1001, 0x20, 2],
        [0x1000, 0x20, 2],
    ),
    // An item is next to the limit every other time, and a gap is made below.
    (
        &[
            (&['a'], false, [0x1000, 0x20, 2]),
            (&['b'], false, [0x7FFD, 0x20, 2]),
        ],
        "&b<d &a=d &b<d &a=d &b<d &a=d &a<c",
        [0x1001, 0x20, 2],
        [0x7FFE, 0x20, 2],
    ),
];

#[test]
fn the_last_gap_is_used_and_implicit_weights_stay(rt: HostRuntime) {
    for (entries, text, item, other) in &ROOMY {
        assert_gap(&rt, rt.alloc(), entries, text, *item, *other);
    }
}

/// An element, this many times.
fn copies(alloc: Global, e: Element, count: usize) -> Result<Vec<Element>, AllocError> {
    let mut elements = Vec::new(alloc);
    for _ in 0..count {
        elements.push(e)?;
    }
    Ok(elements)
}

/// A table of `a` alone, with this many elements, each step retried where memory was refused.
fn table_of_a(rt: &impl Abort, alloc: Global, count: usize) -> Table {
    let e = element([0x1000, 0x20, 2]);
    let elements = match copies(alloc, e, count) {
        Err(_) => copies(alloc, e, count).expect(rt, "elements"),
        Ok(elements) => elements,
    };
    let mut builder = TableBuilder::new(alloc);
    let inserted = match builder.insert(&['a'], &elements) {
        Err(InsertFault::OutOfMemory) => builder.insert(&['a'], &elements),
        answer => answer,
    };
    assert!(rt; inserted == Ok(()));
    finished(rt, builder)
}

/// Fails a test where the table is not that of `a` alone, with this many elements.
fn assert_table_of_a(rt: &impl Abort, t: &Table, count: usize) {
    assert!(rt; t.entries().count() == 1);
    let elements = t.get(&['a']).expect(rt, "an entry");
    assert!(rt; elements.len() == count);
    for e in elements {
        assert!(rt; *e == element([0x1000, 0x20, 2]));
    }
}

/// Fails a test where the key is not tailored to sixty-four elements like that of `a`.
fn assert_sixty_four(rt: &impl Abort, alloc: Global, t: &Table, text: &str) {
    let u = tailored_table(rt, alloc, t, text);
    let elements = u.get(&['b']).expect(rt, "an entry");
    assert!(rt; elements.len() == 64, "{text}");
    for e in elements {
        assert!(rt; *e == element([0x1000, 0x20, 2]), "{text}");
    }
}

#[test]
fn an_item_has_at_most_sixty_four_elements(rt: HostRuntime) {
    let t = table_of_a(&rt, rt.alloc(), 32);
    assert_sixty_four(&rt, rt.alloc(), &t, "&a=b/a");
    assert_sixty_four(&rt, rt.alloc(), &t, "&aa=b");
}

/// Fails a test where `a` with this many elements can be an anchor of these rules.
fn assert_too_many(rt: &impl Abort, alloc: Global, count: usize, text: &str) {
    let t = table_of_a(rt, alloc, count);
    assert_fault(rt, alloc, &t, text, 1, TailorCause::TooManyElements);
    // The borrowed table stays as it is.
    assert_table_of_a(rt, &t, count);
}

#[test]
fn more_than_sixty_four_elements_are_a_fault(rt: HostRuntime) {
    assert_too_many(&rt, rt.alloc(), 33, "&a=b/a");
    assert_too_many(&rt, rt.alloc(), 33, "&aa=b");
    // Five times thirteen are one too many.
    assert_too_many(&rt, rt.alloc(), 13, "&aa=b/aaa");
    assert_too_many(&rt, rt.alloc(), 13, "&aaaaa=b");
}

#[test]
fn an_item_after_a_variable_is_variable(rt: HostRuntime) {
    let t = small_table(&rt, rt.alloc());
    let u = tailored_table(&rt, rt.alloc(), &t, "&'-'<x");
    assert_entry(&rt, &u, &['x'], true, [0x203, 0x20, 2]);
}

#[test]
fn elements_before_the_last_one_of_an_anchor_move_too(rt: HostRuntime) {
    assert_elements(
        &rt,
        rt.alloc(),
        "&ba<x",
        &[
            (&['x'], &[[0x1002, 0x20, 2], [0x1001, 0x20, 2]]),
            (&['b'], &[[0x1002, 0x20, 2]]),
        ],
    );
}

const SMALL_OR_HIGH: [(&'static [Entry], &'static str, TailorCause, u64); 4] = [
    (
        &[
            (&['a'], false, [0x1000, 0x1F, 1]),
            (&['b'], false, [0x1001, 0x20, 2]),
        ],
        "&b<c &a<<x",
        TailorCause::SmallWeight,
        2,
    ),
    (
        &[
            (&['a'], false, [0x1000, 0x1F, 1]),
            (&['b'], false, [0x1001, 0x20, 2]),
        ],
        "&a<<<x",
        TailorCause::SmallWeight,
        1,
    ),
    // A small weight comes before a high reset, and that before a level where no weight can move.
    (
        &[
            (&['a'], false, [0x8000, 0x20, 1]),
            (&['b'], false, [0x7FFF, 0x20, 2]),
        ],
        "&a<<<x",
        TailorCause::SmallWeight,
        1,
    ),
    (
        &[
            (&['a'], false, [0x8000, 0x20, 1]),
            (&['b'], false, [0x7FFF, 0x20, 2]),
        ],
        "&a<x",
        TailorCause::HighReset,
        1,
    ),
];

#[test]
fn the_anchor_is_tested_before_its_gap(rt: HostRuntime) {
    for (entries, text, cause, relation) in &SMALL_OR_HIGH {
        assert_fault_of(&rt, rt.alloc(), entries, text, *relation, *cause);
    }
}
