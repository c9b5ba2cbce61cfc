use super::table;
use std::alloc::Global;
use std::process::Abort;
use uca_match::{Match, matches_of};
use uca_table::Table;
use uca_window::Passage;

/// The matches of a safe text, tried again where memory was refused.
fn matches_again(rt: &impl Abort, alloc: Global, t: &Table, text: &str) -> Vec<Match> {
    let p = Passage::check(text).ok().expect(rt, "a safe text");
    match matches_of(alloc, t, &p) {
        Ok(matches) => matches,
        Err(_) => matches_of(alloc, t, &p).expect(rt, "matches"),
    }
}

static KEYS: [(&str, &[(&[char], bool)]); 4] = [
    ("", &[]),
    (
        "ch\u{301}x",
        &[(&['c', 'h'], true), (&['\u{301}'], true), (&['x'], false)],
    ),
    // The mark below, of another class, is passed over.
    (
        "\u{1EA1}\u{301}",
        &[(&['a', '\u{301}'], true), (&['\u{323}'], true)],
    ),
    // With a code point that begins no key no mark is taken.
    ("x\u{301}", &[(&['x'], false), (&['\u{301}'], true)]),
];

/// Checks a match of a text: its key, and whether the table has it.
fn assert_match(rt: &impl Abort, text: &str, matched: &Match, key: &[char], found: bool) {
    assert!(rt; matched.key.as_slice() == key, "{text:?}");
    assert!(rt; matched.found == found, "{text:?}");
}

/// Checks the matches of a text.
fn assert_matches(rt: &impl Abort, text: &str, matches: &[Match], wanted: &[(&[char], bool)]) {
    assert!(rt; matches.len() == wanted.len(), "{text:?}");
    for (matched, (key, found)) in matches.iter().zip(wanted) {
        assert_match(rt, text, matched, key, *found);
    }
}

/// Checks the keys that are matched in a text, and which of them the table has.
fn assert_keys(rt: &impl Abort, alloc: Global, t: &Table, text: &str, wanted: &[(&[char], bool)]) {
    let matches = matches_again(rt, alloc, t, text);
    assert_matches(rt, text, &matches, wanted);
}

#[test]
fn matches_of_keys_and_of_single_code_points(rt: HostRuntime) {
    let t = table(&rt, rt.alloc(), b"");
    for (text, wanted) in &KEYS {
        assert_keys(&rt, rt.alloc(), &t, text, wanted);
    }
}
