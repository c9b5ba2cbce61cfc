ghost use Rattle.std.specs.Prelude.{◌≡◌, ◌≤◌, length, IfOk, Ok};
ghost use Rattle.std.specs.List.{position_or_len};
ghost use Rattle.uca_model.specs.TableText.{ends_point, range_end, range_base, two_stops, range_of_text, directive, some_text, skip_blanks, version};
ghost use Rattle.uca_allkeys.specs.Statements.{Parses, with_rest, directive_of};

use crate::bytes::{after_byte, four_digits};
use crate::faults::LineFault;
use uca_io::digits::code_point;
use uca_io::lines::from_place;
use uca_io::words::{is_blank, skip_blanks, word_len};
use uca_weights::Range;

/// What a line that begins with `@` says.
#[derive(Clone, Copy)]
pub(crate) enum Directive {
    Version,
    Range(Range),
}

/// Whether a byte ends a code point of a directive.
fn ends_point(byte: u8) -> bool
    ensures { result ≡ ends_point byte }
{
    is_blank(byte) || byte == b';' || byte == b'.'
}

/// How many bytes come before the first one that ends a code point.
fn point_len(text: &[u8]) -> usize
    ensures value { result ≡ position_or_len ends_point text.now }
    ensures within { result ≤ length text.now }
{
    let mut len = 0;
    let mut rest = text;
    while let Some((first, others)) = rest.split_first() {
        if ends_point(*first) {
            return len;
        }
        len += 1;
        rest = others;
    }
    len
}

/// An end of a range: a code point up to a blank, `;` or `.`, and what follows it.
#[tactic(auto, unfolding(uca_model::specs::TableText::range_end))]
fn range_end(text: &[u8]) -> Result<(char, &[u8]), LineFault>
    ensures { Parses with_rest (range_end text.now) result }
{
    let end = point_len(text);
    match code_point(&text[..end]) {
        Some(point) => Ok((point, from_place(text, end))),
        None => Err(LineFault::BadCodePoint),
    }
}

/// What follows the `..` between the ends of a range.
#[tactic(auto, unfolding(uca_model::specs::TableText::two_stops))]
fn two_stops(text: &[u8]) -> Result<&[u8], LineFault>
    ensures { Parses (λ rest. rest.now) (two_stops text.now) result }
{
    let Some(rest) = after_byte(b'.', skip_blanks(text)) else {
        return Err(LineFault::BadDirective);
    };
    match after_byte(b'.', rest) {
        Some(rest) => Ok(rest),
        None => Err(LineFault::BadDirective),
    }
}

/// The base after a `;`, with blanks before both.
#[tactic(auto, unfolding(uca_model::specs::TableText::range_base))]
fn range_base(text: &[u8]) -> Result<u16, LineFault>
    ensures { Parses (λ base. base) (range_base text.now) result }
{
    let Some(rest) = after_byte(b';', skip_blanks(text)) else {
        return Err(LineFault::BadDirective);
    };
    match four_digits(skip_blanks(rest)) {
        Some(base) => Ok(base),
        None => Err(LineFault::BadDirective),
    }
}

/// What `@implicitweights` says: the ends of a range, and its base.
#[tactic(auto, unfolding(uca_model::specs::TableText::range_of_text))]
fn range_of_text(text: &[u8]) -> Result<Directive, LineFault>
    ensures { Parses directive_of (range_of_text text.now) result }
{
    let (first, rest) = range_end(skip_blanks(text))?;
    let rest = two_stops(rest)?;
    let (last, rest) = range_end(skip_blanks(rest))?;
    let base = range_base(rest)?;
    Ok(Directive::Range(Range { first, last, base }))
}

/// The same, after the word of the directive.
fn range_directive(rest: &[u8]) -> Result<Directive, LineFault>
    ensures { Parses directive_of (some_text rest.now (range_of_text rest.now)) result }
{
    if rest.is_empty() {
        Err(LineFault::BadDirective)
    } else {
        range_of_text(rest)
    }
}

/// A version, whose text is not kept, after the word of the directive.
fn version_directive(rest: &[u8]) -> Result<Directive, LineFault>
    ensures { Parses directive_of (some_text (skip_blanks rest.now) (Ok version)) result }
{
    if skip_blanks(rest).is_empty() {
        Err(LineFault::BadDirective)
    } else {
        Ok(Directive::Version)
    }
}

/// A directive, which begins with `@`.
#[tactic(auto, unfolding(uca_model::specs::TableText::directive))]
pub(crate) fn read_directive(text: &[u8]) -> Result<Directive, LineFault>
    ensures { Parses directive_of (directive text.now) result }
{
    let end = word_len(text);
    let word = &text[..end];
    let rest = from_place(text, end);
    if word == b"@version".as_slice() {
        version_directive(rest)
    } else if word == b"@implicitweights".as_slice() {
        range_directive(rest)
    } else {
        Err(LineFault::BadDirective)
    }
}
