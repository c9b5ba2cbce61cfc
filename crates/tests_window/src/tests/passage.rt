use std::alloc::{AllocError, Global};
use std::process::Abort;
use std::test::Fail;
use uca_window::{LongRun, Passage, TextFault, is_text_line};

/// Pieces of a text, each with how often it occurs there.
type Pieces = &'static [(&'static str, usize)];

/// The pieces one after the other, each as often as it says.
fn join(alloc: Global, pieces: &[(&str, usize)]) -> Result<String, AllocError> {
    let mut text = String::new(alloc);
    for (piece, times) in pieces {
        for _ in 0..*times {
            text.push_str(piece)?;
        }
    }
    Ok(text)
}

/// Where `check` refuses a text.
fn refused_at(text: &str) -> Option<usize> {
    match Passage::check(text) {
        Ok(_) => None,
        Err(LongRun { at }) => Some(at),
    }
}

/// Checks where `check` refuses the text of these pieces.
fn assert_refused_at(
    rt: &impl Abort,
    alloc: Global,
    pieces: &[(&str, usize)],
    want: Option<usize>,
) -> Result<(), AllocError> {
    let text = join(alloc, pieces)?;
    assert!(rt; refused_at(&text) == want, "{text:?}");
    Ok(())
}

static RUNS: [(Pieces, Option<usize>); 8] = [
    (&[("a", 1), ("\u{301}", 60)], None),
    (&[("a", 1), ("\u{301}", 61)], Some(121)),
    (&[("\u{301}", 60)], None),
    (&[("\u{301}", 61)], Some(120)),
    // U+0344 decomposes to two nonstarters.
    (&[("a", 1), ("\u{344}", 16)], None),
    (&[("a", 1), ("\u{344}", 30)], None),
    (&[("a", 1), ("\u{344}", 31)], Some(61)),
    // U+0F73 is a starter, and decomposes to two nonstarters.
    (&[("a", 1), ("\u{F73}", 31)], Some(91)),
];

static ASCII: [(&[u8], bool); 6] = [
    (b"", true),
    (b"a", true),
    (b"\x00 to \x7F", true),
    (b"\x80", false),
    (b"\xC3\xA1bcdefghi", false),
    (b"abcdefghi\xC3", false),
];

#[test]
fn ascii_alone_is_taken_without_a_check(rt: HostRuntime) {
    for (bytes, want) in &ASCII {
        assert!(rt; Passage::of_ascii(bytes).is_some() == *want, "{bytes:?}");
    }
}

#[test]
fn one_byte_that_is_not_ascii_is_seen(rt: HostRuntime) {
    let mut bytes = [b'a'; 100];
    for n in 1..101 {
        assert!(rt; Passage::of_ascii(&bytes[..n]).is_some(), "{n}");
        for at in 0..n {
            bytes[at] = 0x80;
            assert!(rt; Passage::of_ascii(&bytes[..n]).is_none(), "{at} of {n}");
            bytes[at] = b'a';
        }
    }
}

/// Where `of_bytes` finds that bytes are not UTF-8.
fn broken_at(bytes: &[u8]) -> Option<usize> {
    match Passage::of_bytes(bytes) {
        Err(TextFault::NotUtf8(at)) => Some(at),
        _ => None,
    }
}

#[test]
fn one_byte_that_breaks_a_text_is_found(rt: HostRuntime) {
    let mut bytes = [b'a'; 100];
    for n in 1..101 {
        for at in 0..n {
            for broken in &[0x80, 0xC3, 0xE0, 0xF0, 0xFF] {
                bytes[at] = *broken;
                assert!(rt;
                    broken_at(&bytes[..n]) == Some(at),
                    "{broken} at {at} of {n}"
                );
            }
            bytes[at] = b'a';
        }
    }
}

#[test]
fn a_character_of_two_bytes_is_read_at_each_place(rt: HostRuntime) {
    let mut bytes = [b'a'; 100];
    for n in 1..100 {
        for at in 0..n {
            bytes[at] = 0xC3;
            bytes[at + 1] = 0xA9;
            let text = &bytes[..n + 1];
            assert!(rt; is_text_line(text), "at {at} of {n}");
            assert!(rt; Passage::of_bytes(text).is_ok(), "at {at} of {n}");
            bytes[at] = b'a';
            bytes[at + 1] = b'a';
        }
    }
}

#[test]
fn runs_up_to_the_limit_are_accepted(rt: HostRuntime) -> Result<(), Fail> {
    for (pieces, want) in &RUNS {
        assert_refused_at(&rt, rt.alloc(), pieces, *want)?;
    }
    Ok(())
}

#[test]
fn long_decompositions_are_accepted(rt: HostRuntime) {
    // Four code points each, and three of a Hangul syllable.
    for text in &["\u{1F82}", "\u{1FF7}\u{1FA2}", "\u{AC01}"] {
        assert!(rt; refused_at(text) == None, "{text:?}");
    }
}

static RUNS_ACROSS_CHARACTERS: [(Pieces, Option<usize>); 30] = [
    (&[], None),
    (&[("plain text, \u{E9}t\u{E9}", 3)], None),
    (&[("a", 1), ("\u{301}", 60), ("b", 1)], None),
    (&[("a", 1), ("\u{301}", 61), ("b", 1)], Some(121)),
    (&[("a", 1), ("\u{344}", 31), ("b", 1)], Some(61)),
    (&[("\u{301}", 61), ("b", 1)], Some(120)),
    // A starter ends a run, also one that is no ASCII character.
    (
        &[("a", 1), ("\u{301}", 40), ("b", 1), ("\u{301}", 40)],
        None,
    ),
    (&[("\u{301}", 60), ("\u{3B1}", 1), ("\u{301}", 60)], None),
    (
        &[("\u{301}", 60), ("\u{AC00}", 1), ("\u{301}", 61)],
        Some(243),
    ),
    // A letter with marks of its own.
    (&[("x\u{C0}", 1), ("\u{301}", 59)], None),
    (&[("x\u{C0}", 1), ("\u{301}", 60)], Some(121)),
    (&[("\u{1F82}", 1), ("\u{323}", 57)], None),
    (&[("\u{1F82}", 1), ("\u{323}", 58)], Some(117)),
    (&[("\u{1F82}", 1), ("\u{301}", 58), ("b", 1)], Some(117)),
    // Marks that change places.
    (&[("a", 1), ("\u{301}\u{323}", 30), ("b", 1)], None),
    (&[("a", 1), ("\u{301}\u{323}", 31), ("b", 1)], Some(121)),
    // The character in which the run grows too long gives two nonstarters.
    (
        &[("a", 1), ("\u{301}", 59), ("\u{344}", 1), ("a", 1)],
        Some(119),
    ),
    (
        &[("a", 1), ("\u{F73}", 30), ("b", 1), ("\u{F73}", 31)],
        Some(182),
    ),
    (&[("\u{301}", 60), ("a", 64), ("\u{301}", 60)], None),
    (&[("\u{301}", 60), ("a", 64), ("\u{301}", 61)], Some(304)),
    // Marks after a block of passed characters, of which the last may end in marks of its own.
    (&[("a", 31), ("\u{301}", 60)], None),
    (&[("a", 31), ("\u{301}", 61)], Some(151)),
    (&[("\u{439}", 40), ("\u{301}", 59)], None),
    (&[("\u{439}", 40), ("\u{301}", 60)], Some(198)),
    (&[("\u{4E00}", 11), ("\u{301}", 60), ("\u{AC01}", 1)], None),
    (&[("\u{4E00}", 11), ("\u{301}", 61)], Some(153)),
    (&[("\u{304C}", 1), ("\u{3099}", 59)], None),
    (&[("\u{304C}", 1), ("\u{3099}", 60)], Some(180)),
    (
        &[("\u{301}", 59), ("\u{304B}", 1), ("\u{309A}", 61)],
        Some(301),
    ),
    (&[("\u{483}", 61)], Some(120)),
];

#[test]
fn runs_are_counted_across_characters(rt: HostRuntime) -> Result<(), Fail> {
    for (pieces, want) in &RUNS_ACROSS_CHARACTERS {
        assert_refused_at(&rt, rt.alloc(), pieces, *want)?;
    }
    Ok(())
}

#[test]
fn shows_the_text_and_the_fault(rt: HostRuntime) {
    let text = "\u{E9}t\u{E9}";
    let p = Passage::check(text).ok().expect(&rt, "a safe text");
    assert!(rt; p.as_str() == text);
    if let Ok(name) = (LongRun { at: 3 }).to_string(rt.alloc()) {
        assert!(rt; name.as_str() == "LongRun");
    }
}

/// Checks where `check` refuses a run of a vowel sign that is a nonstarter, of three bytes, with Thai letters of three bytes
/// before and after it.
fn assert_sign_run(
    rt: &impl Abort,
    alloc: Global,
    [before, signs, after]: [usize; 3],
    want: Option<usize>,
) -> Result<(), AllocError> {
    let letter = "\u{E01}";
    let pieces = [(letter, before), ("\u{E38}", signs), (letter, after)];
    assert_refused_at(rt, alloc, &pieces, want)
}

#[test]
fn runs_stand_among_letters_that_are_skipped(rt: HostRuntime) -> Result<(), Fail> {
    // As many letters before and after the run as bring the places that a skip looks at to the run's start, its inside and its
    // end.
    for before in 0..12 {
        for after in &[0, 1, 8, 9, 10, 11] {
            for signs in &[9, 10, 60] {
                assert_sign_run(&rt, rt.alloc(), [before, *signs, *after], None)?;
            }
            let at = 3 * (before + 60);
            assert_sign_run(&rt, rt.alloc(), [before, 61, *after], Some(at))?;
        }
    }
    Ok(())
}

/// A mark, how many of it a text may have in a row, and how many bytes these are.
static MARKS: [(&str, u8, u8); 5] = [
    ("\u{301}", 60, 120),
    // These decompose to two nonstarters each.
    ("\u{344}", 30, 60),
    ("\u{F73}", 30, 90),
    ("\u{F75}", 30, 90),
    ("\u{F81}", 30, 90),
];

#[test]
fn runs_begin_and_end_at_each_place_of_a_block(rt: HostRuntime) -> Result<(), Fail> {
    // The last block that is counted begins in the one before it, by as much as the letters say.
    for (mark, most, len) in &MARKS {
        let most = usize::from(*most);
        for before in 0..34 {
            for after in &[0, 1, 40] {
                let fits = [("a", before), (*mark, most), ("b", *after)];
                assert_refused_at(&rt, rt.alloc(), &fits, None)?;
                let longer = [("a", before), (*mark, most + 1), ("b", *after)];
                let at = before + usize::from(*len);
                assert_refused_at(&rt, rt.alloc(), &longer, Some(at))?;
            }
        }
    }
    Ok(())
}

/// A letter with marks, how many bytes these are, and how many marks more may follow them.
static LETTERS_WITH_MARKS: [(&str, u8, u8); 4] = [
    ("a\u{301}", 3, 59),
    ("\u{E01}\u{E38}", 6, 59),
    ("a\u{344}", 3, 58),
    ("\u{1F82}\u{301}", 5, 56),
];

#[test]
fn marks_among_letters_are_accepted(rt: HostRuntime) -> Result<(), Fail> {
    // From one of these to more than a count in blocks lets through.
    for (letter, len, most) in &LETTERS_WITH_MARKS {
        let most = usize::from(*most);
        for n in 1..70 {
            assert_refused_at(&rt, rt.alloc(), &[(*letter, n)], None)?;
            let fits = [(*letter, n), ("\u{301}", most)];
            assert_refused_at(&rt, rt.alloc(), &fits, None)?;
            let longer = [(*letter, n), ("\u{301}", most + 1)];
            let at = n * usize::from(*len) + 2 * most;
            assert_refused_at(&rt, rt.alloc(), &longer, Some(at))?;
        }
    }
    Ok(())
}
