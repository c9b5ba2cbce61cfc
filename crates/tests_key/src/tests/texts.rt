use super::{key_again, settings, table};
use std::alloc::Global;
use std::process::Abort;
use uca_table::{RangeFault, Table};
use uca_testing::table_from;
use uca_weights::{Strength, Variable};

#[test]
fn canonically_equivalent_texts_have_one_key(rt: HostRuntime) {
    let t = table(&rt, rt.alloc());
    let s = settings(Strength::Identical, Variable::Shifted);
    let one = key_again(&rt, rt.alloc(), &t, s, "-\u{E9}");
    let two = key_again(&rt, rt.alloc(), &t, s, "-e\u{301}");
    let other = key_again(&rt, rt.alloc(), &t, s, "-e\u{1}\u{301}");
    assert!(rt; one.as_slice() == two.as_slice());
    assert!(rt; one.as_slice() != other.as_slice());
}

const OLD_MARK: &[u8] = b"0065 ; [.1000.0020.0002]\n0301 ; [.0000.0022.0002]";

const NEW_MARK: &[u8] = b"0065 ; [.1000.0020.0002]\n0301 ; [.0000.0021.0002]";

#[test]
fn a_mark_that_changed_changes_the_keys_of_texts_that_have_it_in_their_nfd(rt: HostRuntime) {
    let t = table_from(rt.alloc(), OLD_MARK).ok().expect(&rt, "a table");
    let u = table_from(rt.alloc(), NEW_MARK).ok().expect(&rt, "a table");
    let s = settings(Strength::Secondary, Variable::NonIgnorable);
    let old = key_again(&rt, rt.alloc(), &t, s, "\u{E9}");
    let new = key_again(&rt, rt.alloc(), &u, s, "\u{E9}");
    assert!(rt; old.as_slice() != new.as_slice());
    let old = key_again(&rt, rt.alloc(), &t, s, "e");
    let new = key_again(&rt, rt.alloc(), &u, s, "e");
    assert!(rt; old.as_slice() == new.as_slice());
}

/// The small table with a range of ideographs, added again where memory was refused.
fn widened(rt: &impl Abort, alloc: Global) -> Table {
    let mut t = table(rt, alloc);
    let added = match t.add_ideographs('\u{323B0}', '\u{33479}') {
        Err(RangeFault::OutOfMemory) => t.add_ideographs('\u{323B0}', '\u{33479}'),
        answer => answer,
    };
    added.ok().expect(rt, "a range");
    t
}

#[test]
fn tables_of_one_text_can_differ_in_added_ideographs(rt: HostRuntime) {
    let t = table(&rt, rt.alloc());
    let u = widened(&rt, rt.alloc());
    let s = settings(Strength::Primary, Variable::NonIgnorable);
    let old = key_again(&rt, rt.alloc(), &t, s, "\u{323B0}");
    let new = key_again(&rt, rt.alloc(), &u, s, "\u{323B0}");
    assert!(rt; old.as_slice() != new.as_slice());
}
