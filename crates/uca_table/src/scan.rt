ghost use Rattle.std.specs.Prelude.{◌≡◌, ◌∷◌, []};
ghost use Rattle.uca_model.specs.CollationElements.{elements_or_implicit};
ghost use Rattle.uca_model.specs.Prefix.{is_closed, is_silent, lack_primary};
ghost use Rattle.uca_model.specs.SafeCut.{is_cut, is_safe_starter};
ghost use Rattle.uca_model.specs.StandAlone.{is_before_last};
ghost use Rattle.uca_table.specs.Marks.{marks, said};

use crate::marks::{Marks, UNTOUCHED, have_primaries_of_point};
use crate::primaries::{begins_with_primary, lack_primary};
use crate::table::Table;
use uca_weights::Element;
use unicode_normalization::Form;
use unicode_normalization::char::{canonical_combining_class, decomposition};

/// Whether a code point is a safe starter of a table.
pub(crate) fn is_safe_starter(t: &Table, s: char) -> bool
    ensures { result ≡ is_safe_starter t.now s }
{
    canonical_combining_class(s) == 0 && marks(t, s).apart
}

/// Whether a text may be cut before a character.
#[tactic(auto, using(crate::proofs::MarkLemmas::cuts))]
pub(crate) fn is_cut(t: &Table, c: char) -> bool
    ensures { result ≡ is_cut t.now c }
{
    if t.characters()
        .is_some_and(|characters| characters.is_cut(c))
    {
        return true;
    }
    let mut room = [c; 3];
    decomposition(c, Form::Nfd, &mut room)
        .first()
        .is_some_and(|first| is_safe_starter(t, *first))
}

/// Whether the primary weights up to a starter are the same, whatever follows it.
pub(crate) fn is_closed(t: &Table, s: char) -> bool
    ensures { result ≡ is_closed t.now s }
{
    let marks = marks(t, s);
    marks.ends && marks.keeps
}

/// Whether a code point has no primary weight, whatever follows it.
pub(crate) fn is_silent(t: &Table, c: char) -> bool
    ensures { result ≡ is_silent t.now c }
{
    has_no_primary(t, c) && marks(t, c).keeps
}

// Whether the elements of a code point alone have no primary weight.
fn has_no_primary(t: &Table, c: char) -> bool
    ensures { result ≡ lack_primary (elements_or_implicit t.now (c ∷ [])) }
{
    match t.get(&[c]) {
        Some(own) => lack_primary(own),
        None => lack_primary(&t.implicit(c)),
    }
}

// What all keys say about a code point. A look at all entries serves a table for whose cells memory was refused, or to which
// ideographs were added since they were made.
#[tactic(auto, using(crate::proofs::MarkLemmas::keys_said))]
fn marks(t: &Table, c: char) -> Marks
    ensures { result ≡ marks t.now c }
{
    if let Some(cells) = &t.cells {
        return cells.marks.get(c);
    }
    let mut marks = UNTOUCHED;
    let mut cursor = t.cursor();
    'entries: while let Some(elements) = cursor.advance() {
        marks = marks.and(said(t, c, cursor.key(), elements));
    }
    marks
}

// What a key says about a code point.
#[tactic(auto, unfolding(crate::specs::Marks::said))]
fn said(t: &Table, c: char, key: &[char], elements: &[Element]) -> Marks
    ensures { result ≡ said t.now c (key.now, elements.now) }
{
    let Some((first, others)) = key.split_first() else {
        return UNTOUCHED;
    };
    let begins = *first == c;
    let leads = begins && !others.is_empty();
    let continues = others.contains(&c);
    Marks {
        begins,
        leads,
        continues,
        apart: !continues && (!begins || begins_with_primary(elements)),
        ends: !is_before_last(c, others),
        keeps: !leads || have_primaries_of_point(t, c, elements),
    }
}

// Whether a code point comes before the last place.
#[tactic(auto, using(crate::proofs::MarkLemmas::before_last))]
fn is_before_last(c: char, points: &[char]) -> bool
    ensures { result ≡ is_before_last c points.now }
{
    match points.split_last() {
        Some((_, others)) => others.contains(&c),
        None => false,
    }
}
