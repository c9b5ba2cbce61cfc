use std::alloc::Global;
use std::cmp::Ordering;
use uca_handle::{Collator, KeyFault, Place, TextFault, locate};
use uca_weights::{Settings, Strength, Variable};
use uca_window::Passage;

const TABLE: &[u8] = b"0061 ; [.1000.0020.0002]\n\
    0063 ; [.1002.0020.0002]\n\
    0068 ; [.1005.0020.0002]\n\
    007A ; [.1006.0020.0002]\n";

const TERTIARY: Settings = Settings {
    strength: Strength::Tertiary,
    weighting: Variable::NonIgnorable,
};

/// Whether a collator has the small table, with `ch` as a letter.
fn loads(alloc: Global, collator: &mut Collator) -> bool {
    collator.load(alloc, TABLE, b"&c<ch").is_ok() || collator.load(alloc, TABLE, b"&c<ch").is_ok()
}

#[test]
fn checked_texts_have_an_order_and_keys(rt: HostRuntime) {
    let alloc = rt.alloc();
    let mut collator = Collator::closed(alloc);
    let first = Passage::of_ascii(b"cz").expect(&rt, "a text");
    let second = Passage::of_ascii(b"ch").expect(&rt, "a text");
    assert!(rt; collator.compare_texts(TERTIARY, &first, &second) == None);
    assert!(rt; loads(alloc, &mut collator));
    assert!(rt; collator.compare_texts(TERTIARY, &first, &second) == Some(Ordering::Less));
    let mut key = [9; 5];
    let size = match collator.sort_key_of(alloc, TERTIARY, &first, &mut key) {
        Err(KeyFault::OutOfMemory) => collator.sort_key_of(alloc, TERTIARY, &first, &mut key),
        answer => answer,
    };
    assert!(rt; size == Ok(16));
    assert!(rt; key == [0x10, 2, 0x10, 7, 0]);
    let mut packed = [9; 9];
    let size = match collator.packed_key_of(alloc, TERTIARY, &second, &mut packed) {
        Err(KeyFault::OutOfMemory) => collator.packed_key_of(alloc, TERTIARY, &second, &mut packed),
        answer => answer,
    };
    assert!(rt; size == Ok(5));
    assert!(rt; packed == [0x11, 3, 0, 2, 2, 9, 9, 9, 9]);
}

#[test]
fn a_text_that_may_be_joined_is_not_complete(rt: HostRuntime) {
    let alloc = rt.alloc();
    let mut collator = Collator::closed(alloc);
    assert!(rt; collator.is_complete(b"a") == Err(KeyFault::Closed));
    assert!(rt; loads(alloc, &mut collator));
    assert!(rt; collator.is_complete(b"ach") == Ok(true));
    assert!(rt; collator.is_complete(b"ac") == Ok(false));
    assert!(rt; collator.is_complete(b"a\xFF") == Err(KeyFault::Text(TextFault::NotUtf8(1))));
}

#[test]
fn a_byte_has_a_line_and_a_column(rt: HostRuntime) {
    let text = b"a\xC3\xA1b\n\xFFc";
    let first = [
        (0, 1, 1),
        (1, 1, 2),
        (2, 1, 3),
        (3, 1, 3),
        (4, 1, 4),
        (5, 2, 1),
        (6, 2, 2),
        (99, 2, 3),
    ];
    for (at, line, column) in first {
        assert!(rt; locate(text, at) == Place { line, column });
    }
}
