mod any_keys;
mod complete;
mod one_by_one;

use std::alloc::{AllocError, Global};
use std::process::Abort;
use uca_match::elements_of;
use uca_table::{RangeFault, Table};
use uca_testing::{SMALL_TEXT, element, generated, table_from};
use uca_weights::Element;
use uca_window::Passage;

/// Keys of which no shorter substring, or not each, is a key, in the format of `allkeys.txt`.
const KEYS_WITH_GAPS: &[u8] = b"\
0078 0301 ; [.1010.0020.0002]
0061 0062 0063 0068 ; [.1011.0020.0002]
0061 0323 0301 0308 ; [.1012.0020.0002]
0065 0300 ; [.1013.0020.0002]
0065 0300 0308 0301 ; [.1014.0020.0002]
0323 0301 ; [.0000.0030.0002]
";

/// The text of the small table, and entries after it.
fn text_with(alloc: Global, entries: &[u8]) -> Result<Vec<u8>, AllocError> {
    let mut text = Vec::new(alloc);
    text.extend_from_slice(SMALL_TEXT)?;
    text.extend_from_slice(entries)?;
    Ok(text)
}

/// That text, retrying where memory was refused.
fn text_again(rt: &impl Abort, alloc: Global, entries: &[u8]) -> Vec<u8> {
    match text_with(alloc, entries) {
        Ok(text) => text,
        Err(_) => text_with(alloc, entries).expect(rt, "a text"),
    }
}

/// The small table with more entries, in the format of `allkeys.txt`.
fn table(rt: &impl Abort, alloc: Global, entries: &[u8]) -> Table {
    let text = text_again(rt, alloc, entries);
    table_from(alloc, &text).ok().expect(rt, "a table")
}

/// The elements of a safe text, tried again where memory was refused.
fn elements_again(rt: &impl Abort, alloc: Global, t: &Table, text: &str) -> Vec<Element> {
    let p = Passage::check(text).ok().expect(rt, "a safe text");
    match elements_of(alloc, t, &p) {
        Ok(elements) => elements,
        Err(_) => elements_of(alloc, t, &p).expect(rt, "elements"),
    }
}

/// Whether an element is marked as variable, and its weights.
type Weights = (bool, [u16; 3]);

/// Checks the elements that were given for a text.
fn assert_weights(rt: &impl Abort, text: &str, elements: &[Element], wanted: &[Weights]) {
    assert!(rt; elements.len() == wanted.len(), "{text:?}");
    for (given, (starred, weights)) in elements.iter().zip(wanted) {
        assert!(rt; *given == element(*starred, *weights), "{text:?}");
    }
}

/// Checks the elements of a text.
fn assert_elements(rt: &impl Abort, alloc: Global, t: &Table, text: &str, wanted: &[Weights]) {
    let elements = elements_again(rt, alloc, t, text);
    assert_weights(rt, text, &elements, wanted);
}

/// Checks the elements of texts, by the small table with more entries.
fn assert_texts(rt: &impl Abort, alloc: Global, entries: &[u8], texts: &[(&str, &[Weights])]) {
    let t = table(rt, alloc, entries);
    for (text, wanted) in texts {
        assert_elements(rt, alloc, &t, text, wanted);
    }
}

static CONTRACTIONS: [(&str, &[Weights]); 10] = [
    ("", &[]),
    ("ch", &[(false, [0x1007, 0x20, 2])]),
    // Marks are in canonical order.
    (
        "\u{E9}\u{323}",
        &[
            (false, [0x1004, 0x20, 2]),
            (false, [0, 0x24, 2]),
            (false, [0, 0x22, 2]),
        ],
    ),
    (
        "cch",
        &[(false, [0x1002, 0x20, 2]), (false, [0x1007, 0x20, 2])],
    ),
    (
        "c\u{301}h",
        &[
            (false, [0x1002, 0x20, 2]),
            (false, [0, 0x22, 2]),
            (false, [0x1005, 0x20, 2]),
        ],
    ),
    // The mark below, of another class, is passed over.
    (
        "\u{1EA1}\u{301}",
        &[(false, [0x1008, 0x20, 2]), (false, [0, 0x24, 2])],
    ),
    // A mark of the same class blocks.
    (
        "a\u{300}\u{301}",
        &[
            (false, [0x1000, 0x20, 2]),
            (false, [0, 0x21, 2]),
            (false, [0, 0x22, 2]),
        ],
    ),
    // One mark after the other is taken.
    (
        "b\u{323}\u{301}\u{308}",
        &[(false, [0x100A, 0x20, 2]), (false, [0, 0x24, 2])],
    ),
    // A starter ends the run.
    (
        "b-\u{301}",
        &[
            (false, [0x1001, 0x20, 2]),
            (true, [0x202, 0x20, 2]),
            (false, [0, 0x22, 2]),
        ],
    ),
    (
        "\u{4E00}-",
        &[
            (false, [0xFB40, 0x20, 2]),
            (false, [0xCE00, 0, 0]),
            (true, [0x202, 0x20, 2]),
        ],
    ),
];

#[test]
fn contractions_are_matched_whole(rt: HostRuntime) {
    assert_texts(&rt, rt.alloc(), b"", &CONTRACTIONS);
}

/// A letter, marks that are passed over, and the marks with which the letter is a key.
const FAR_MARKS: &str =
    "b\u{323}\u{323}\u{323}\u{323}\u{323}\u{323}\u{323}\u{323}\u{323}\u{323}\u{323}\u{323}\u{323}\u{323}\u{301}\u{308}";

const BELOW: Weights = (false, [0, 0x24, 2]);

#[rattlefmt::skip]
const FAR_MARKS_ELEMENTS: [Weights; 15] = [
    (false, [0x100A, 0x20, 2]),
    BELOW, BELOW, BELOW, BELOW, BELOW, BELOW, BELOW,
    BELOW, BELOW, BELOW, BELOW, BELOW, BELOW, BELOW,
];

static FAR_MARKS_TEXT: [(&str, &[Weights]); 1] = [(FAR_MARKS, &FAR_MARKS_ELEMENTS)];

#[test]
fn marks_far_away_are_taken(rt: HostRuntime) {
    assert_texts(&rt, rt.alloc(), b"", &FAR_MARKS_TEXT);
}

static BEGINS_A_KEY: [(&str, &[Weights]); 2] = [
    ("x\u{301}", &[(false, [0x1010, 0x20, 2])]),
    // The mark in between makes `x` the longest prefix, which is no key.
    (
        "x\u{323}\u{308}\u{301}",
        &[
            (false, [0xFBC0, 0x20, 2]),
            (false, [0x8078, 0, 0]),
            (false, [0, 0x24, 2]),
            (false, [0, 0x23, 2]),
            (false, [0, 0x22, 2]),
        ],
    ),
];

#[test]
fn a_code_point_without_key_takes_no_mark(rt: HostRuntime) {
    assert_texts(&rt, rt.alloc(), KEYS_WITH_GAPS, &BEGINS_A_KEY);
}

/// A key of as many code points as one may have.
const LONG_KEY: &[u8] = b"\
007A 007A 007A 007A 007A 007A 007A 007A 007A 007A 007A 007A 007A 007A 007A 007A \
007A 007A 007A 007A 007A 007A 007A 007A 007A 007A 007A 007A 007A 007A 007A 007A ; [.1010.0020.0002]
";

static LENGTHS: [(&str, &[Weights]); 3] = [
    (
        "zzzzzzzzzzzzzzzzzzzzzzzzzzzzzzz",
        &[(false, [0x1006, 0x20, 2]); 31],
    ),
    (
        "zzzzzzzzzzzzzzzzzzzzzzzzzzzzzzzz",
        &[(false, [0x1010, 0x20, 2])],
    ),
    (
        "zzzzzzzzzzzzzzzzzzzzzzzzzzzzzzzzz",
        &[(false, [0x1010, 0x20, 2]), (false, [0x1006, 0x20, 2])],
    ),
];

#[test]
fn the_longest_key_is_taken_whole(rt: HostRuntime) {
    assert_texts(&rt, rt.alloc(), LONG_KEY, &LENGTHS);
}

/// Characters of which keys are made, marks among them.
static CHARACTERS: [char; 16] = [
    'a', 'b', 'c', 'h', 'e', 'x', '\u{1EA1}', '\u{C0}', '\u{4E00}', '\u{300}', '\u{301}',
    '\u{308}', '\u{323}', '\u{301}', '\u{308}', '\u{323}',
];

/// Texts whose characters join others in each way: in a key, as marks, as parts of a syllable, beyond the cells.
static JOINED: [&str; 10] = [
    "c",
    "ch",
    "hch\u{301}",
    "\u{344}",
    "e\u{344}",
    "\u{1EA1}\u{301}x",
    "\u{AC00}\u{11A8}\u{AC01}",
    "\u{4E00}\u{301}\u{20000}\u{F73}",
    "\u{1D15E}\u{1D165}",
    "abch\u{378}",
];

/// Checks that a table gives a text the elements that another of the same entries gives it.
fn assert_same(rt: &impl Abort, alloc: Global, t: &Table, other: &Table, text: &str) {
    let elements = elements_again(rt, alloc, t, text);
    let others = elements_again(rt, alloc, other, text);
    assert!(rt; elements.as_slice() == others.as_slice(), "{text:?}");
}

/// A text of these characters by a number, retrying where memory was refused.
fn generated_again(rt: &impl Abort, alloc: Global, number: u32) -> String {
    match generated(alloc, &CHARACTERS, number) {
        Ok(text) => text,
        Err(_) => generated(alloc, &CHARACTERS, number).expect(rt, "a text"),
    }
}

/// Checks that two tables of the same entries give each text the same elements.
fn assert_same_elements(rt: &impl Abort, alloc: Global, t: &Table, other: &Table) {
    for text in &JOINED {
        assert_same(rt, alloc, t, other, text);
    }
    for number in 0..600 {
        let text = generated_again(rt, alloc, number);
        assert_same(rt, alloc, t, other, &text);
    }
}

/// Drops the cells of a table, by the range of one more ideograph, which is added again where memory was refused.
fn drop_cells(rt: &impl Abort, t: &mut Table) {
    let added = match t.add_ideographs('\u{33479}', '\u{33479}') {
        Err(RangeFault::OutOfMemory) => t.add_ideographs('\u{33479}', '\u{33479}'),
        answer => answer,
    };
    assert!(rt; added == Ok(()));
}

/// Checks that a table gives the same elements as one of the same entries without cells.
fn assert_same_without_cells(rt: &impl Abort, alloc: Global, t: &Table, entries: &[u8]) {
    let mut other = table(rt, alloc, entries);
    // No text has the ideograph that is added.
    drop_cells(rt, &mut other);
    assert_same_elements(rt, alloc, t, &other);
}

#[test]
fn a_table_without_cells_gives_the_same_elements(rt: HostRuntime) {
    let t = table(&rt, rt.alloc(), KEYS_WITH_GAPS);
    assert_same_without_cells(&rt, rt.alloc(), &t, KEYS_WITH_GAPS);
}
