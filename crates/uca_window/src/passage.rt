ghost use Rattle.std.specs.Prelude.{◌≡◌, ◌≤◌, ◌<◌, ◌↔◌, length, chars, IfOk, IfErr, IsOk, IfSome, IfNone, IsSome, IsTrue, MatchResult};
ghost use Rattle.std.specs.Str.{IsAscii, IsUtf8};
ghost use Rattle.unicode_normalization.specs.Decompose.{decompose_canonical};
ghost use Rattle.uca_model.specs.Lines.{IsTextLine};
ghost use Rattle.uca_model.specs.SafeText.{IsSafe, IsLongRunAt, longest_run_after};
ghost use Rattle.uca_window.specs.Scan.{run_after, Fits, IsPassedTo, ScannedTo};

use crate::ascii::is_ascii;
use crate::fault::TextFault;
use crate::passing::{
    COARSE, MEDIUM, STRIDE, adds_few, adds_few_coarsely, is_passed, none_dense, pass, skip,
};
use crate::utf8::{are_short_utf8, are_utf8};
use simdutf8::compat::from_utf8;
use std::str::from_utf8_unchecked;
use thiserror::Error;
use uca_weights::{MAX_DECOMPOSITION, MAX_RUN};
use unicode_normalization::Form;
use unicode_normalization::char::{canonical_combining_class, decomposition};

/// The greatest length in bytes at which every text is known to be safe: no more bytes than may follow a passed character.
const SHORT: usize = STRIDE;

/// A text is not safe: a run of nonstarters in its NFD is longer than `MAX_RUN`, or the NFD of a character is
/// longer than `MAX_DECOMPOSITION` code points.
#[derive(Clone, Copy, Debug, PartialEq, Eq, Error)]
#[error("LongRun")]
pub struct LongRun {
    /// The byte offset of the first character with which the text is no longer safe.
    pub at: usize,
}

/// A text that is safe: the runs of nonstarters in its NFD are short (compare UAX #15, Stream-Safe Text Format).
#[derive(Clone, Copy, Debug)]
pub struct Passage<'t> {
    text: &'t str,
    ghost safe: { IsSafe (chars text.now) },
}

impl<'t> Passage<'t> {
    ghost use Rattle.uca_window.specs.Passage.{bytes_of, text_of};
    ghost use Rattle.uca_window.specs.TextFaults.{IsFault};

    /// Checks that a text is safe, and wraps it. It does not allocate.
    pub fn check(text: &'t str) -> Result<Passage<'t>, LongRun>
        ensures safe { IsOk result ↔ IsSafe (chars text.now) }
        ensures same { IfOk result (λ p. bytes_of p ≡ text.now) }
        ensures long { IfErr result (λ e. IsLongRunAt (chars text.now) e.at) }
    {
        let bytes = text.as_bytes();
        if bytes.len() <= SHORT {
            return Ok(Passage::of_safe(text));
        }
        if bytes.len() <= MEDIUM && none_dense(bytes) {
            return Ok(Passage::of_safe(text));
        }
        if bytes.len() <= COARSE && adds_few_coarsely(bytes) {
            return Ok(Passage::of_safe(text));
        }
        if adds_few(bytes) {
            return Ok(Passage::of_safe(text));
        }
        scan(text)?;
        Ok(Passage { text })
    }

    /// Wraps bytes if they are all ASCII: such characters are starters, so there is no run of nonstarters. It does not allocate.
    pub fn of_ascii(bytes: &'t [u8]) -> Option<Passage<'t>>
        ensures ascii { IsSome result ↔ IsAscii bytes.now }
        ensures same { IfSome result (λ p. bytes_of p ≡ bytes.now) }
        ensures safe { IfSome result (λ _. IsTextLine bytes.now) }
    {
        if !is_ascii(bytes) {
            return None;
        }
        Some(Passage::of_safe(unsafe { from_utf8_unchecked(bytes) }))
    }

    /// The text that bytes are. It does not allocate.
    #[inline(always)]
    pub fn of_bytes(bytes: &'t [u8]) -> Result<Passage<'t>, TextFault>
        ensures { MatchResult result (λ p. IsTextLine bytes.now × (text_of p ≡ chars bytes.now)) (IsFault bytes.now) }
    {
        if is_text_line(bytes) {
            return Ok(Passage::of_checked(bytes));
        }
        Passage::of_each(bytes)
    }

    /// The text that bytes are, or the first fault in them. It is not inlined, so that a text does not pay for its stack frame.
    #[inline(never)]
    fn of_each(bytes: &'t [u8]) -> Result<Passage<'t>, TextFault>
        ensures { MatchResult result (λ p. IsTextLine bytes.now × (text_of p ≡ chars bytes.now)) (IsFault bytes.now) }
    {
        match from_utf8(bytes) {
            Ok(text) => Passage::of_text(text),
            Err(error) => Err(TextFault::NotUtf8(error.valid_up_to())),
        }
    }

    /// A text, unless it is not safe.
    fn of_text(text: &'t str) -> Result<Passage<'t>, TextFault>
        ensures { MatchResult result (λ p. IsTextLine text.now × (text_of p ≡ chars text.now)) (IsFault text.now) }
    {
        match Passage::check(text) {
            Ok(passage) => Ok(passage),
            Err(run) => Err(TextFault::LongRun(run.at)),
        }
    }

    /// The text of bytes that were checked before.
    pub fn of_checked(bytes: &'t [u8]) -> Passage<'t>
        requires { IsTextLine bytes.now }
        ensures { bytes_of result ≡ bytes.now }
    {
        Passage::of_safe(unsafe { from_utf8_unchecked(bytes) })
    }

    /// A text that is known to be safe.
    pub fn of_safe(text: &'t str) -> Passage<'t>
        requires { IsSafe (chars text.now) }
        ensures { bytes_of result ≡ text.now }
    {
        Passage { text }
    }

    /// The text.
    pub fn as_str(&self) -> &'t str
        ensures text { result.now ≡ bytes_of self.now }
        ensures safe { IsSafe (text_of self.now) }
    {
        self.text
    }
}

/// Whether bytes are the text of a line that is short and whose characters have up to two bytes each. Others are refused.
#[inline(always)]
fn is_short_line(bytes: &[u8]) -> bool
    ensures { IsTrue result → IsTextLine bytes.now }
{
    bytes.len() <= SHORT && are_short_utf8(bytes)
}

/// Whether bytes are the text of a line, whatever they spell.
#[inline(never)]
fn is_any_line(bytes: &[u8]) -> bool
    ensures { IsTrue result ↔ IsTextLine bytes.now }
{
    are_utf8(bytes) && Passage::check(unsafe { from_utf8_unchecked(bytes) }).is_ok()
}

/// The same. It is not inlined, so that a text in ASCII does not pay for its registers.
#[inline(never)]
fn is_other_line(bytes: &[u8]) -> bool
    ensures { IsTrue result ↔ IsTextLine bytes.now }
{
    is_short_line(bytes) || is_any_line(bytes)
}

/// Whether bytes are a text that [`Passage::of_bytes`] takes. Most texts of databases are ASCII, and many are empty, so that is asked
/// first, without a stack frame. It does not allocate.
#[inline(always)]
pub fn is_text_line(bytes: &[u8]) -> bool
    ensures { IsTrue result ↔ IsTextLine bytes.now }
{
    is_ascii(bytes) || is_other_line(bytes)
}

/// Goes over the characters to the first with which the text is no longer safe. The NFD has its nonstarters in
/// another order, but their runs are as long as those of the decompositions, so nothing is put in order. Most characters
/// are passed: between two of these that are close together nothing is counted, and the nonstarters after one are counted from
/// its own on. It is not inlined, so that a text that needs no scan does not pay for its stack frame.
#[inline(never)]
fn scan(text: &str) -> Result<(), LongRun>
    ensures safe { IsOk result ↔ IsSafe (chars text.now) }
    ensures long { IfErr result (λ e. IsLongRunAt (chars text.now) e.at) }
{
    let mut rest = text;
    // What comes before the rest, which is passed: no nonstarter comes before the text, as after this one.
    let mut last = '\0';
    'passed: while rest.len() > STRIDE {
        let (others, end) = pass(rest, last);
        match skip(others, end) {
            Some((more, passed)) => (rest, last) = (more, passed),
            None => match count_marks(text, others, own_run(end))? {
                Some((more, passed)) => (rest, last) = (more, passed),
                None => return Ok(()),
            },
        }
    }
    Ok(())
}

/// What is left of a text after the next passed character, and that character. The nonstarters before it are counted: `count` come
/// right before `from`. `None`: there is no such character.
fn count_marks<'t>(
    text: &str,
    from: &'t str,
    count: usize,
) -> Result<Option<(&'t str, char)>, LongRun>
    requires { ScannedTo text.now from.now count }
    ensures passed { IfOk result (λ next. IfSome next (λ r. IsPassedTo text.now r.0.now r.1)) }
    ensures fewer { IfOk result (λ next. IfSome next (λ r. length r.0.now < length from.now)) }
    ensures end { IfOk result (λ next. IfNone next (IsSafe (chars text.now))) }
    ensures refused { IfErr result (λ _. ¬ (IsSafe (chars text.now))) }
    ensures long { IfErr result (λ e. IsLongRunAt (chars text.now) e.at) }
{
    let mut rest = from;
    let mut run = count;
    'marks: loop {
        let mut characters = rest.chars();
        let Some(c) = characters.next() else {
            return Ok(None);
        };
        if is_passed(c) {
            return Ok(Some((characters.as_str(), c)));
        }
        let Some(after) = run_after_char(run, c) else {
            return Err(LongRun {
                at: text.len() - rest.len(),
            });
        };
        run = after;
        rest = characters.as_str();
    }
}

/// How many nonstarters the NFD of a character ends in.
fn own_run(c: char) -> usize
    ensures { result ≡ run_after 0 (decompose_canonical c) }
{
    run_after_char(0, c).unwrap_or(0)
}

/// How many nonstarters there are in a row after a character, unless they are too many or its decomposition is too
/// long. `count` come before it.
fn run_after_char(count: usize, c: char) -> Option<usize>
    requires { count ≤ MAX_RUN }
    ensures count { IfSome result (λ n. (n ≤ MAX_RUN) × (n ≡ run_after count (decompose_canonical c))) }
    ensures fits { IsSome result ↔ Fits count c }
{
    // Below U+00C0 each character is a starter, and its own decomposition.
    if c < '\u{C0}' {
        return Some(0);
    }
    let mut room = ['\0'; 3];
    let points = decomposition(c, Form::Nfd, &mut room);
    if points.len() > MAX_DECOMPOSITION {
        return None;
    }
    run_through(count, points)
}

/// How many nonstarters there are in a row at the end of the code points, unless some run is too long.
#[tactic(auto, using(crate::proofs::RunScan::run_steps))]
fn run_through(count: usize, points: &[char]) -> Option<usize>
    requires { count ≤ MAX_RUN }
    ensures count { IfSome result (λ n. n ≡ run_after count points.now) }
    ensures short { IfSome result (λ n. (n ≤ MAX_RUN) × (longest_run_after count points.now ≤ MAX_RUN)) }
    ensures long { IfNone result (MAX_RUN < longest_run_after count points.now) }
{
    let mut run = count;
    for c in points {
        if canonical_combining_class(*c) == 0 {
            run = 0;
        } else if run == MAX_RUN {
            return None;
        } else {
            run += 1;
        }
    }
    Some(run)
}
