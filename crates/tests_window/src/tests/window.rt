ghost use Rattle.std.specs.Prelude.{◌≡◌, ◌≤◌, length, chars, IfOk};
ghost use Rattle.unicode_normalization.specs.Forms.{nfd};
ghost use Rattle.uca_weights.specs.declared.limits.TheConstants.{MAX_KEY};
ghost use Rattle.uca_model.specs.SafeText.{IsSafe};
ghost use Rattle.uca_model.specs.Source.{unread};
ghost use Rattle.uca_model.specs.Window.{Fits};

use std::alloc::{AllocError, Global};
use std::process::Abort;
use std::test::Fail;
use uca_weights::MAX_KEY;
use uca_window::{Passage, PassageSource, Source, Window, nfd_of};
use unicode_normalization::char::canonical_combining_class;

/// Characters of a slice, with its calls counted.
#[derive(Drop)]
struct CharsSource<'t> {
    text: &'t [char],
    place: usize,
    marked: usize,
    reads: u128,
    rewinds: u128,
    ghost within: { place ≤ length text.now },
    ghost marked_within: { marked ≤ length text.now },
}

impl<'t> Source for CharsSource<'t> {
    ghost state = { λ s. record { text = s.text.now; place = s.place; mark = s.marked; reads = s.reads; rewinds = s.rewinds } };

    fn next(&mut self) -> Option<char> {
        self.reads = self.reads.saturating_add(1);
        if self.place == self.text.len() {
            return None;
        }
        let c = self.text[self.place];
        self.place += 1;
        Some(c)
    }

    fn restart(&mut self) {
        self.rewinds = self.rewinds.saturating_add(1);
        self.place = 0;
    }

    fn mark(&mut self) {
        self.marked = self.place - 1;
    }

    fn rewind(&mut self) {
        self.rewinds = self.rewinds.saturating_add(1);
        self.place = self.marked;
    }
}

/// A source that has not been called.
fn source_of<'t>(text: &'t [char]) -> CharsSource<'t>
    ensures text { result.text.now ≡ text.now }
    ensures place { result.place ≡ 0 }
{
    CharsSource {
        text,
        place: 0,
        marked: 0,
        reads: 0,
        rewinds: 0,
    }
}

/// A text of a start, a mark this many times, and an end.
fn text_of(
    alloc: Global,
    start: &str,
    mark: char,
    times: usize,
    end: &str,
) -> Result<String, AllocError> {
    let mut text = String::new(alloc);
    text.push_str(start)?;
    for _ in 0..times {
        text.push(mark)?;
    }
    text.push_str(end)?;
    Ok(text)
}

/// The characters of a text.
fn chars_of(alloc: Global, text: &str) -> Result<Vec<char>, AllocError>
    ensures { IfOk result (λ v. v.items ≡ chars text.now) }
{
    text.chars().collect(alloc)
}

/// The characters of a safe text, retrying where memory was refused.
fn safe_chars(rt: &impl Abort, alloc: Global, text: &str) -> Vec<char>
    ensures { IsSafe result.items }
{
    let p = Passage::check(text).ok().expect(rt, "a safe text");
    match chars_of(alloc, p.as_str()) {
        Ok(chars) => chars,
        Err(_) => chars_of(alloc, p.as_str()).expect(rt, "characters"),
    }
}

/// Checks how many points a window has, how many of them are closed, and how often `next` of its source was called.
fn assert_held(
    rt: &impl Abort,
    text: &str,
    window: &Window,
    source: &CharsSource,
    [points, closed, reads]: [usize; 3],
) {
    assert!(rt; window.points().len() == points, "{text:?}");
    assert!(rt; window.closed() == closed, "{text:?}");
    assert!(rt; source.reads == reads as u128, "{text:?}");
    assert!(rt; source.rewinds == 0, "{text:?}");
}

/// Checks what the first fill of a window for keys of that length reads of a text.
fn assert_first_fill(
    rt: &impl Abort,
    alloc: Global,
    text: &str,
    longest: usize,
    counts: [usize; 3],
) {
    assert!(rt; longest >= 1 && longest <= MAX_KEY);
    let chars = safe_chars(rt, alloc, text);
    let mut source = source_of(&chars);
    let mut window = Window::new(longest);
    window.fill(&mut source);
    assert_held(rt, text, &window, &source, counts);
}

/// The parts of a text, the length of the longest key, and what `assert_held` wants after one fill.
static FIRST_FILLS: [(&str, char, usize, &str, usize, [usize; 3]); 8] = [
    ("", 'a', 0, "", 1, [0, 0, 1]),
    ("abc", '\u{301}', 0, "", 3, [3, 3, 4]),
    ("abc", '\u{301}', 0, "", 2, [3, 2, 3]),
    ("b", '\u{323}', 14, "\u{301}\u{308}a", 3, [18, 17, 18]),
    // A run as long as it may be, and a character of four code points.
    ("a", '\u{301}', 60, "\u{1F82}", 1, [65, 61, 62]),
    // Marks at the start of a text are a segment.
    ("", '\u{344}', 1, "a", 1, [3, 2, 2]),
    // U+0F73 is a starter, but decomposes to marks.
    ("a", '\u{F73}', 1, "b", 1, [4, 3, 3]),
    ("b\u{301}", '\u{323}', 1, "a", 3, [4, 3, 4]),
];

#[test]
fn a_fill_reads_no_more_than_it_must(rt: HostRuntime) -> Result<(), Fail> {
    for (start, mark, times, end, longest, counts) in &FIRST_FILLS {
        let text = text_of(rt.alloc(), start, *mark, *times, end)?;
        assert_first_fill(&rt, rt.alloc(), &text, *longest, *counts);
    }
    Ok(())
}

/// Checks the points of a window, and how many of them are closed.
fn assert_points(rt: &impl Abort, window: &Window, points: &[char], closed: usize) {
    assert!(rt; window.points() == points);
    assert!(rt; window.closed() == closed);
}

#[test]
fn marks_are_put_in_order_and_taken_out(rt: HostRuntime) {
    let chars = safe_chars(&rt, rt.alloc(), "b\u{301}\u{323}a");
    let mut source = source_of(&chars);
    let mut window = Window::new(3);
    window.fill(&mut source);
    assert_points(&rt, &window, &['b', '\u{323}', '\u{301}', 'a'], 3);
    if window.closed() > 0 {
        window.drop_front(1);
    }
    assert_points(&rt, &window, &['\u{323}', '\u{301}', 'a'], 2);
    if window.closed() > 1 && canonical_combining_class(window.points()[1]) > 0 {
        window.remove(1);
    }
    assert_points(&rt, &window, &['\u{323}', 'a'], 1);
}

#[test]
fn marks_of_one_character_at_the_start_are_shown(rt: HostRuntime) {
    let chars = safe_chars(&rt, rt.alloc(), "\u{344}a");
    let mut source = source_of(&chars);
    let mut window = Window::new(1);
    window.fill(&mut source);
    assert_points(&rt, &window, &['\u{308}', '\u{301}', 'a'], 2);
}

#[test]
fn a_window_that_was_given_the_end_asks_no_more(rt: HostRuntime) {
    let chars = safe_chars(&rt, rt.alloc(), "ab");
    let mut source = source_of(&chars);
    let mut window = Window::new(5);
    window.fill(&mut source);
    window.fill(&mut source);
    assert_held(&rt, "ab", &window, &source, [2, 2, 3]);
    let n = window.closed();
    window.drop_front(n);
    window.fill(&mut source);
    assert_held(&rt, "ab", &window, &source, [0, 0, 3]);
}

/// Checks that a window wants a character, and which it reads.
fn assert_reads<S: Source>(rt: &impl Abort, window: &mut Window, source: &mut S, wanted: char)
    requires { Fits window.old (unread (S.state source.old)) }
    ensures { Fits window.new (unread (S.state source.new)) }
{
    assert!(rt; window.wants());
    assert!(rt; window.read(source) == Some(wanted));
}

#[test]
fn a_window_wants_characters_until_enough_points_are_closed(rt: HostRuntime) {
    let chars = safe_chars(&rt, rt.alloc(), "a\u{301}b");
    let mut source = source_of(&chars);
    let mut window = Window::new(1);
    assert_reads(&rt, &mut window, &mut source, 'a');
    assert_reads(&rt, &mut window, &mut source, '\u{301}');
    assert_reads(&rt, &mut window, &mut source, 'b');
    assert!(rt; !window.wants());
    assert_held(&rt, "a\u{301}b", &window, &source, [3, 2, 3]);
}

/// The NFD of what a source has not returned yet, window after window.
fn nfd_by_window<S: Source>(
    alloc: Global,
    source: &mut S,
    longest: usize,
) -> Result<Vec<char>, AllocError>
    requires first { 1 ≤ longest }
    requires last { longest ≤ MAX_KEY }
    requires safe { IsSafe (unread (S.state source.old)) }
    ensures { IfOk result (λ v. v.items ≡ nfd (unread (S.state source.old))) }
{
    let mut all = Vec::new(alloc);
    let mut window = Window::new(longest);
    window.fill(source);
    while window.closed() > 0 {
        let n = window.closed();
        all.extend_from_slice(&window.points()[..n])?;
        window.drop_front(n);
        window.fill(source);
    }
    Ok(all)
}

/// Checks that windows for keys of that length give the NFD of a text.
fn assert_nfd_by_window(
    rt: &impl Abort,
    alloc: Global,
    text: &str,
    longest: usize,
) -> Result<(), AllocError> {
    assert!(rt; longest >= 1 && longest <= MAX_KEY);
    let p = Passage::check(text).ok().expect(rt, "a safe text");
    let want = nfd_of(alloc, &p)?;
    let all = nfd_by_window(alloc, &mut PassageSource::new(&p), longest)?;
    assert!(rt; all.as_slice() == want.as_slice(), "{text:?}, {longest}");
    Ok(())
}

#[test]
fn the_windows_of_a_text_are_its_nfd(rt: HostRuntime) -> Result<(), Fail> {
    for text in &[
        "",
        "plain text, \u{E9}t\u{E9}",
        "\u{344}\u{301}",
        "\u{1EA1}\u{301}",
        "a\u{F73}\u{301}\u{316}b",
        "\u{AC01}\u{1F82}\u{301}\u{345}\u{323}x",
    ] {
        for longest in &[1, 3, 32] {
            assert_nfd_by_window(&rt, rt.alloc(), text, *longest)?;
        }
    }
    Ok(())
}
