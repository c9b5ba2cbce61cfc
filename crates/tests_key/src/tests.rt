mod all_pairs;
mod bounds;
mod long_stretches;
mod packed;
mod packed_buffers;
mod packed_runs;
mod texts;
mod written;

use std::alloc::Global;
use std::process::Abort;
use uca_key::key_of;
use uca_table::Table;
use uca_testing::small_table;
use uca_weights::{Settings, Strength, Variable};
use uca_window::Passage;

const STRENGTHS: [Strength; 5] = [
    Strength::Primary,
    Strength::Secondary,
    Strength::Tertiary,
    Strength::Quaternary,
    Strength::Identical,
];

const OPTIONS: [Variable; 3] = [Variable::NonIgnorable, Variable::Blanked, Variable::Shifted];

fn table(rt: &impl Abort, alloc: Global) -> Table {
    small_table(alloc).ok().expect(rt, "a table")
}

fn settings(strength: Strength, weighting: Variable) -> Settings {
    Settings {
        strength,
        weighting,
    }
}

/// The key of a safe text, tried again where memory was refused.
fn key_again(rt: &impl Abort, alloc: Global, t: &Table, settings: Settings, text: &str) -> Vec<u8> {
    let p = Passage::check(text).ok().expect(rt, "a safe text");
    match key_of(alloc, t, settings, &p) {
        Ok(key) => key,
        Err(_) => key_of(alloc, t, settings, &p).expect(rt, "a key"),
    }
}

/// A text, a strength, a weighting and the text's key.
type KeyRow = (&'static str, Strength, Variable, &'static [u8]);

/// Fails a test where the key of a text is not this one.
fn assert_key(rt: &impl Abort, alloc: Global, t: &Table, (text, strength, v, wanted): &KeyRow) {
    let key = key_again(rt, alloc, t, settings(*strength, *v), text);
    assert!(rt; key.as_slice() == *wanted, "{text:?} {strength:?} {v:?}");
}

const JOINED_LEVELS: [KeyRow; 11] = [
    ("", Strength::Primary, Variable::NonIgnorable, &[]),
    ("", Strength::Tertiary, Variable::NonIgnorable, &[0; 4]),
    ("", Strength::Identical, Variable::NonIgnorable, &[0; 8]),
    ("ch", Strength::Primary, Variable::NonIgnorable, &[0x10, 7]),
    (
        "ch",
        Strength::Secondary,
        Variable::NonIgnorable,
        &[0x10, 7, 0, 0, 0, 0x20],
    ),
    (
        "ch",
        Strength::Tertiary,
        Variable::NonIgnorable,
        &[0x10, 7, 0, 0, 0, 0x20, 0, 0, 0, 2],
    ),
    (
        "ch",
        Strength::Quaternary,
        Variable::NonIgnorable,
        &[0x10, 7, 0, 0, 0, 0x20, 0, 0, 0, 2, 0, 0],
    ),
    (
        "a",
        Strength::Identical,
        Variable::NonIgnorable,
        &[0x10, 0, 0, 0, 0, 0x20, 0, 0, 0, 2, 0, 0, 0, 0, 0, 0, 0x61],
    ),
    (
        "\u{E0}",
        Strength::Tertiary,
        Variable::NonIgnorable,
        &[0x10, 0, 0, 0, 0, 0x20, 0, 0x21, 0, 0, 0, 2, 0, 2],
    ),
    (
        "\u{4E00}",
        Strength::Tertiary,
        Variable::NonIgnorable,
        &[0xFB, 0x40, 0xCE, 0, 0, 0, 0, 0x20, 0, 0, 0, 2],
    ),
    // The fifth level has the text in NFD, with the mark that the contraction took in its place.
    (
        "\u{1EA1}\u{301}",
        Strength::Identical,
        Variable::NonIgnorable,
        &[
            0x10, 8, 0, 0, 0, 0x20, 0, 0x24, 0, 0, 0, 2, 0, 2, 0, 0, 0, 0, 0, 0, 0x61, 0, 3, 0x23,
            0, 3, 1,
        ],
    ),
];

#[test]
fn levels_are_joined_by_the_strength(rt: HostRuntime) {
    let t = table(&rt, rt.alloc());
    for row in &JOINED_LEVELS {
        assert_key(&rt, rt.alloc(), &t, row);
    }
}

const VARIABLE_KEYS: [KeyRow; 4] = [
    (
        "a-b",
        Strength::Quaternary,
        Variable::Shifted,
        &[
            0x10, 0, 0x10, 1, 0, 0, 0, 0x20, 0, 0x20, 0, 0, 0, 2, 0, 2, 0, 0, 0xFF, 0xFF, 2, 2,
            0xFF, 0xFF,
        ],
    ),
    (
        "-\u{1}\u{300}",
        Strength::Quaternary,
        Variable::Shifted,
        &[0, 0, 0, 0, 0, 0, 2, 2],
    ),
    (
        "-\u{300}",
        Strength::Tertiary,
        Variable::Blanked,
        &[0, 0, 0, 0],
    ),
    (
        "-\u{300}",
        Strength::Tertiary,
        Variable::NonIgnorable,
        &[2, 2, 0, 0, 0, 0x20, 0, 0x21, 0, 0, 0, 2, 0, 2],
    ),
];

#[test]
fn variable_elements_are_weighted_by_the_option(rt: HostRuntime) {
    let t = table(&rt, rt.alloc());
    for row in &VARIABLE_KEYS {
        assert_key(&rt, rt.alloc(), &t, row);
    }
}

/// Fails a test where a key is not that of sixty acute accents at the second level.
fn assert_marks_alone(rt: &impl Abort, key: &[u8]) {
    assert!(rt; key.len() == 122);
    for (i, b) in key.iter().enumerate() {
        let wanted = if i > 2 && i % 2 == 1 { 0x22 } else { 0 };
        assert!(rt; *b == wanted, "at {i}");
    }
}

#[test]
fn marks_alone_count_at_the_second_level(rt: HostRuntime) {
    let t = table(&rt, rt.alloc());
    let text =
        "\u{301}\u{301}\u{301}\u{301}\u{301}\u{301}\u{301}\u{301}\u{301}\u{301}\u{301}\u{301}\u{301}\u{301}\u{301}\u{301}\u{301}\u{301}\u{301}\u{301}\u{301}\u{301}\u{301}\u{301}\u{301}\u{301}\u{301}\u{301}\u{301}\u{301}\u{301}\u{301}\u{301}\u{301}\u{301}\u{301}\u{301}\u{301}\u{301}\u{301}\u{301}\u{301}\u{301}\u{301}\u{301}\u{301}\u{301}\u{301}\u{301}\u{301}\u{301}\u{301}\u{301}\u{301}\u{301}\u{301}\u{301}\u{301}\u{301}\u{301}";
    let primary = settings(Strength::Primary, Variable::NonIgnorable);
    let secondary = settings(Strength::Secondary, Variable::NonIgnorable);
    let key = key_again(&rt, rt.alloc(), &t, primary, text);
    assert!(rt; key.is_empty());
    let key = key_again(&rt, rt.alloc(), &t, secondary, text);
    assert_marks_alone(&rt, &key);
    let empty = key_again(&rt, rt.alloc(), &t, secondary, "");
    assert!(rt; key.as_slice() > empty.as_slice());
}
