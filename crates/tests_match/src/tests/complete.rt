use super::table;
use std::process::Abort;
use uca_match::is_complete;
use uca_table::Table;
use uca_window::Passage;

/// A key with the primary weight of its first code point, and one with a code point between two others.
const JOINED_KEYS: &[u8] = b"\
006C ; [.1020.0020.0002]
006C 00B7 ; [.1020.0021.0002]
006D ; [.1021.0020.0002]
007A 006D 007A ; [.1022.0020.0002]
";

static TEXTS: [(&str, bool); 17] = [
    ("", true),
    ("c", false),
    ("ch", true),
    ("chc", false),
    ("a", false),
    ("e", true),
    ("\u{E9}", true),
    ("b\u{323}", false),
    ("h\u{323}\u{301}", true),
    ("-", true),
    ("\u{1}", true),
    ("\u{301}", true),
    ("\u{4E00}", true),
    // The longer key has the primary weight of `l`.
    ("l", true),
    // `z` begins a longer key, of which `m` is not the last.
    ("z", false),
    ("m", false),
    // A nonstarter without a key has an implicit primary weight.
    ("e\u{327}", false),
];

/// Checks whether a text is complete.
fn assert_complete(rt: &impl Abort, t: &Table, text: &str, complete: bool) {
    let p = Passage::check(text).ok().expect(rt, "a safe text");
    assert!(rt; is_complete(t, &p) == complete, "{text:?}");
}

#[test]
fn a_text_is_complete_where_nothing_joins_it(rt: HostRuntime) {
    let t = table(&rt, rt.alloc(), JOINED_KEYS);
    for (text, complete) in &TEXTS {
        assert_complete(&rt, &t, text, *complete);
    }
}
