ghost use Rattle.std.specs.Prelude.{◌≡◌, IfOk};
ghost use Rattle.unicode_normalization.specs.Forms.{nfd};
ghost use Rattle.uca_model.specs.SafeText.{IsSafe};
ghost use Rattle.uca_model.specs.Source.{unread};
ghost use Rattle.uca_model.specs.Window.{Fits};
ghost use Rattle.uca_model.specs.CollationElements.{elements};

use super::{
    FAR_MARKS, FAR_MARKS_ELEMENTS, KEYS_WITH_GAPS, Weights, assert_weights, elements_again,
    generated_again, table,
};
use std::alloc::{AllocError, Global};
use std::process::Abort;
use uca_match::Elements;
use uca_table::Table;
use uca_testing::{plain, source_of};
use uca_weights::{Element, MAX_KEY};
use uca_window::{Passage, Source};

/// The elements of what a source has not returned yet, one by one.
fn elements_in_turn<S: Source>(
    alloc: Global,
    t: &Table,
    source: &mut S,
) -> Result<Vec<Element>, AllocError>
    requires { IsSafe (unread (S.state source.old)) }
    ensures { IfOk result (λ v. v.items ≡ elements t.now (nfd (unread (S.state source.old)))) }
{
    let mut all = Vec::new(alloc);
    let mut elements = Elements::new(t);
    'each: while let Some(element) = elements.next(source) {
        all.push(element)?;
    }
    Ok(all)
}

/// The elements of a safe text one by one, tried again where memory was refused.
fn in_turn_again(rt: &impl Abort, alloc: Global, t: &Table, text: &str) -> Vec<Element> {
    let p = Passage::check(text).ok().expect(rt, "a safe text");
    match elements_in_turn(alloc, t, &mut source_of(&p)) {
        Ok(elements) => elements,
        Err(_) => elements_in_turn(alloc, t, &mut source_of(&p)).expect(rt, "elements"),
    }
}

/// Checks the elements of a text one by one.
fn assert_in_turn(rt: &impl Abort, alloc: Global, t: &Table, text: &str, wanted: &[Weights]) {
    let elements = in_turn_again(rt, alloc, t, text);
    assert_weights(rt, text, &elements, wanted);
}

static IN_THE_WINDOW: [(&str, &[Weights]); 6] = [
    ("", &[]),
    (
        "cch",
        &[(false, [0x1002, 0x20, 2]), (false, [0x1007, 0x20, 2])],
    ),
    // The mark below, of another class, is passed over.
    (
        "\u{1EA1}\u{301}",
        &[(false, [0x1008, 0x20, 2]), (false, [0, 0x24, 2])],
    ),
    // A mark of the same class blocks.
    (
        "a\u{300}\u{301}",
        &[
            (false, [0x1000, 0x20, 2]),
            (false, [0, 0x21, 2]),
            (false, [0, 0x22, 2]),
        ],
    ),
    (FAR_MARKS, &FAR_MARKS_ELEMENTS),
    (
        "\u{4E00}-",
        &[
            (false, [0xFB40, 0x20, 2]),
            (false, [0xCE00, 0, 0]),
            (true, [0x202, 0x20, 2]),
        ],
    ),
];

#[test]
fn contractions_are_matched_in_the_window(rt: HostRuntime) {
    let t = table(&rt, rt.alloc(), b"");
    for (text, wanted) in &IN_THE_WINDOW {
        assert_in_turn(&rt, rt.alloc(), &t, text, wanted);
    }
}

/// Checks which element is the next.
fn assert_next<S: Source>(
    rt: &impl Abort,
    elements: &mut Elements,
    source: &mut S,
    wanted: Option<Element>,
)
    requires { Fits elements.old.window (unread (S.state source.old)) }
    ensures { Fits elements.new.window (unread (S.state source.new)) }
{
    assert!(rt; elements.next(source) == wanted);
}

/// Checks that a character is wanted, and which is read.
fn assert_reads<S: Source>(
    rt: &impl Abort,
    elements: &mut Elements,
    source: &mut S,
    wanted: Option<char>,
)
    requires { Fits elements.old.window (unread (S.state source.old)) }
    ensures { Fits elements.new.window (unread (S.state source.new)) }
{
    assert!(rt; elements.wants());
    assert!(rt; elements.read(source) == wanted);
}

/// Checks that a source is read to its end once.
fn assert_asked_once(rt: &impl Abort, t: &Table) {
    let p = Passage::check("\u{1EA1}\u{301}")
        .ok()
        .expect(rt, "a safe text");
    let mut source = source_of(&p);
    let mut elements = Elements::new(t);
    assert_next(rt, &mut elements, &mut source, Some(plain(0x1008, 0x20)));
    assert_next(rt, &mut elements, &mut source, Some(plain(0, 0x24)));
    assert_next(rt, &mut elements, &mut source, None);
    assert_next(rt, &mut elements, &mut source, None);
    assert!(rt; source.reads == 3);
    assert!(rt; source.rewinds == 0);
}

#[test]
fn a_source_is_asked_once_for_each_character_and_for_the_end(rt: HostRuntime) {
    let t = table(&rt, rt.alloc(), b"");
    assert_asked_once(&rt, &t);
}

/// Checks that characters can be read before the elements are requested.
fn assert_read_first(rt: &impl Abort, t: &Table) {
    let p = Passage::check("ch").ok().expect(rt, "a safe text");
    let mut source = source_of(&p);
    let mut elements = Elements::new(t);
    assert_reads(rt, &mut elements, &mut source, Some('c'));
    assert_reads(rt, &mut elements, &mut source, Some('h'));
    assert_reads(rt, &mut elements, &mut source, None);
    assert!(rt; !elements.wants());
    assert_next(rt, &mut elements, &mut source, Some(plain(0x1007, 0x20)));
    assert_next(rt, &mut elements, &mut source, None);
    assert!(rt; source.reads == 3);
    assert!(rt; source.rewinds == 0);
}

#[test]
fn characters_are_read_while_some_are_wanted(rt: HostRuntime) {
    let t = table(&rt, rt.alloc(), b"");
    assert_read_first(&rt, &t);
}

/// The elements of a text, which are also those one by one.
fn checked_elements(rt: &impl Abort, alloc: Global, t: &Table, text: &str) -> Vec<Element> {
    let wanted = elements_again(rt, alloc, t, text);
    let elements = in_turn_again(rt, alloc, t, text);
    assert!(rt; elements.as_slice() == wanted.as_slice(), "{text:?}");
    wanted
}

/// Checks that the elements one by one are the elements, of many texts by the small table with more entries.
fn assert_texts_in_turn(rt: &impl Abort, alloc: Global, entries: &[u8]) {
    let t = table(rt, alloc, entries);
    for number in 0..3000 {
        let text = generated_again(rt, alloc, number);
        checked_elements(rt, alloc, &t, &text);
    }
}

#[test]
fn elements_in_turn_are_the_elements(rt: HostRuntime) {
    assert_texts_in_turn(&rt, rt.alloc(), b"");
    assert_texts_in_turn(&rt, rt.alloc(), KEYS_WITH_GAPS);
}

/// Keys as long as they may be, and one code point shorter.
const LONG_KEYS: &[u8] = b"\
0061 0061 0061 0061 0061 0061 0061 0061 0061 0061 0061 0061 0061 0061 0061 0061 \
0061 0061 0061 0061 0061 0061 0061 0061 0061 0061 0061 0061 0061 0061 0061 0061 ; [.1020.0020.0002]
0061 0061 0061 0061 0061 0061 0061 0061 0061 0061 0061 0061 0061 0061 0061 0061 \
0061 0061 0061 0061 0061 0061 0061 0061 0061 0061 0061 0061 0061 0061 0061 0301 ; [.1021.0020.0002]
0061 0061 0061 0061 0061 0061 0061 0061 0061 0061 0061 0061 0061 0061 0061 0061 \
0061 0061 0061 0061 0061 0061 0061 0061 0061 0061 0061 0061 0061 0061 0323 ; [.1022.0020.0002]
0061 0061 0061 0061 0061 0061 0061 0061 0061 0061 0061 0061 0061 0061 0061 0061 \
0061 0061 0061 0061 0061 0061 0061 0061 0061 0061 0061 0061 0061 0061 0323 0301 ; [.1023.0020.0002]
";

/// A text with long runs of one letter, chosen by a number.
fn generated_runs(alloc: Global, number: u32) -> Result<String, AllocError> {
    let pieces = [
        "aaaaaaaaaaaaaaaaaaaaaaaaaaaaa",
        "aaaaaaaaaaaaaaaaaaaaaaaaaaaaaa",
        "aaaaaaaaaaaaaaaaaaaaaaaaaaaaaaa",
        "a",
        "b",
        "\u{1EA1}",
        "\u{301}",
        "\u{323}",
    ];
    let mut text = String::new(alloc);
    let mut state = number;
    for _ in 0..number % 9 {
        state = state.wrapping_mul(1_664_525).wrapping_add(1_013_904_223);
        text.push_str(pieces[(state >> 20) as usize % 8])?;
    }
    Ok(text)
}

/// That text, retrying where memory was refused.
fn runs_again(rt: &impl Abort, alloc: Global, number: u32) -> String {
    match generated_runs(alloc, number) {
        Ok(text) => text,
        Err(_) => generated_runs(alloc, number).expect(rt, "a text"),
    }
}

/// How many elements of a text are those of a long key. They are checked one by one too.
fn long_matches(rt: &impl Abort, alloc: Global, t: &Table, text: &str) -> u32 {
    let mut count = 0u32;
    for element in &checked_elements(rt, alloc, t, text) {
        if element.l1 >= 0x1020 {
            count = count.saturating_add(1);
        }
    }
    count
}

/// How many elements of long keys the texts with long runs have.
fn long_matches_of_all(rt: &impl Abort, alloc: Global, t: &Table) -> u32 {
    let mut count = 0u32;
    for number in 0..2000 {
        let text = runs_again(rt, alloc, number);
        count = count.saturating_add(long_matches(rt, alloc, t, &text));
    }
    count
}

#[test]
fn keys_of_full_length_are_matched(rt: HostRuntime) {
    let t = table(&rt, rt.alloc(), LONG_KEYS);
    assert!(rt; t.longest() == MAX_KEY);
    let count = long_matches_of_all(&rt, rt.alloc(), &t);
    assert!(rt; count > 500, "{count}");
}
