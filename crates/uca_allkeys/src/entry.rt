ghost use Rattle.std.specs.Prelude.{◌≡◌, ◌∷◌, [], ◌<◌, length, MatchOption, OnOk};
ghost use Rattle.std.specs.List.{slice_split, after_first, position_or_len};
ghost use Rattle.uca_model.specs.TableText.{words, key_after, entry_key, is_semicolon, is_right_bracket, mark, weight_first, next_weight, element_ends, element, elements_after, is_old_weight, entry_of_text};
ghost use Rattle.uca_allkeys.specs.Statements.{Parses, with_rest, entry_in, IsSomeEntry, AddsPart};

use crate::bytes::{after_byte, four_digits};
use crate::faults::LineFault;
use crate::statement::Entry;
use arrayvec::ArrayVec;
use uca_io::digits::{code_point, number};
use uca_io::lines::{from_place, place_of};
use uca_io::words::{next_word, skip_blanks};
use uca_weights::{Element, MAX_ELEMENTS, MAX_KEY};

/// Sets `key` to the code points that the words of a text spell.
fn read_points(key: &mut ArrayVec<char, MAX_KEY>, text: &[u8]) -> Result<(), LineFault>
    ensures { Parses (λ _. key.new.items) (key_after [] (words text.now)) result }
{
    key.clear();
    let mut rest = text;
    while let Some((word, others)) = next_word(rest) {
        let Some(point) = code_point(word) else {
            return Err(LineFault::BadCodePoint);
        };
        if key.try_push(point).is_err() {
            return Err(LineFault::KeyTooLong);
        }
        rest = others;
    }
    Ok(())
}

/// Sets `key` to the key of an entry, before the `;` that has to follow it, and whose place is given.
#[tactic(auto, unfolding(uca_model::specs::TableText::entry_key))]
fn read_key(key: &mut ArrayVec<char, MAX_KEY>, text: &[u8], end: usize) -> Result<(), LineFault>
    requires { end ≡ position_or_len is_semicolon text.now }
    ensures value { Parses (λ _. key.new.items) (entry_key text.now) result }
    ensures some { OnOk result (0 < length key.new.items) }
{
    read_points(key, &text[..end])?;
    if end == text.len() {
        return Err(LineFault::NoSemicolon);
    }
    if key.is_empty() {
        return Err(LineFault::BadCodePoint);
    }
    Ok(())
}

/// Whether the mark of an element is `*`, and what follows it.
fn mark(text: &[u8]) -> Result<(bool, &[u8]), LineFault>
    ensures { Parses with_rest (mark text.now) result }
{
    let Some((first, rest)) = text.split_first() else {
        return Err(LineFault::BadElement);
    };
    if *first == b'.' {
        Ok((false, rest))
    } else if *first == b'*' {
        Ok((true, rest))
    } else {
        Err(LineFault::BadElement)
    }
}

/// A weight, and what follows it.
#[tactic(auto, unfolding(uca_model::specs::TableText::weight_first))]
fn weight_first(text: &[u8]) -> Result<(u16, &[u8]), LineFault>
    ensures { Parses with_rest (weight_first text.now) result }
{
    let end = text.len().min(4);
    match four_digits(&text[..end]) {
        Some(weight) => Ok((weight, from_place(text, end))),
        None => Err(LineFault::BadElement),
    }
}

/// A weight after a full stop, and what follows it.
#[tactic(auto, unfolding(uca_model::specs::TableText::next_weight))]
fn next_weight(text: &[u8]) -> Result<(u16, &[u8]), LineFault>
    ensures { Parses with_rest (next_weight text.now) result }
{
    match after_byte(b'.', text) {
        Some(rest) => weight_first(rest),
        None => Err(LineFault::BadElement),
    }
}

/// Whether nothing follows the third weight of an element, or a fourth weight, which is not used.
fn element_ends(text: &[u8]) -> bool
    ensures { result ≡ element_ends text.now }
{
    match text.split_first() {
        Some((first, digits)) => *first == b'.' && is_old_weight(digits),
        None => true,
    }
}

/// A fourth weight: four to six digits.
fn is_old_weight(digits: &[u8]) -> bool
    ensures { result ≡ is_old_weight digits.now }
{
    if digits.len() < 4 || digits.len() > 6 {
        return false;
    }
    number(digits).is_some()
}

/// An element, up to its `]`.
#[tactic(auto, unfolding(uca_model::specs::TableText::element))]
fn element(text: &[u8]) -> Result<Element, LineFault>
    ensures { Parses (λ e. e) (element text.now) result }
{
    let Some(rest) = after_byte(b'[', text) else {
        return Err(LineFault::BadElement);
    };
    let (starred, rest) = mark(rest)?;
    let (l1, rest) = weight_first(rest)?;
    let (l2, rest) = next_weight(rest)?;
    let (l3, rest) = next_weight(rest)?;
    if element_ends(rest) {
        Ok(Element {
            starred,
            l1,
            l2,
            l3,
        })
    } else {
        Err(LineFault::BadElement)
    }
}

/// What comes before the first `]`, and what follows it.
fn next_part(text: &[u8]) -> Option<(&[u8], &[u8])>
    ensures { MatchOption result
        (slice_split is_right_bracket text.now ≡ text.now ∷ [])
        (λ p. (slice_split is_right_bracket text.now ≡ p.0.now ∷ slice_split is_right_bracket p.1.now) × (length p.1.now < length text.now)) }
{
    let end = place_of(b']', text);
    if end < text.len() {
        Some((&text[..end], from_place(text, end + 1)))
    } else {
        None
    }
}

/// Adds the element that a text up to a `]` spells.
fn add_element(elements: &mut ArrayVec<Element, MAX_ELEMENTS>, part: &[u8]) -> Result<(), LineFault>
    ensures { AddsPart elements.old.items part.now elements.new.items result }
{
    match element(skip_blanks(part)) {
        Ok(element) => {
            if elements.try_push(element).is_err() {
                return Err(LineFault::TooManyElements);
            }
            Ok(())
        }
        Err(fault) => Err(fault),
    }
}

/// Sets `elements` to those after a `;`.
fn read_elements(
    elements: &mut ArrayVec<Element, MAX_ELEMENTS>,
    text: &[u8],
) -> Result<(), LineFault>
    ensures value { Parses (λ _. elements.new.items) (elements_after [] (slice_split is_right_bracket text.now)) result }
    ensures some { OnOk result (0 < length elements.new.items) }
{
    elements.clear();
    let mut rest = text;
    while let Some((part, others)) = next_part(rest) {
        match add_element(elements, part) {
            Ok(()) => rest = others,
            Err(fault) => return Err(fault),
        }
    }
    if !skip_blanks(rest).is_empty() {
        return Err(LineFault::BadElement);
    }
    if elements.is_empty() {
        return Err(LineFault::NoElement);
    }
    Ok(())
}

/// What follows the first `;`, whose place is given.
fn after_key(text: &[u8], end: usize) -> &[u8]
    requires { end ≡ position_or_len is_semicolon text.now }
    ensures { result.now ≡ after_first is_semicolon text.now }
{
    if end < text.len() {
        from_place(text, end + 1)
    } else {
        &text[..0]
    }
}

/// Sets `entry` to what a text says: a key, `;`, and elements. After an `Err` it holds what was read before the fault.
#[tactic(auto, unfolding(uca_model::specs::TableText::entry_of_text))]
pub(crate) fn read_entry(entry: &mut Entry, text: &[u8]) -> Result<(), LineFault>
    ensures value { Parses (λ _. entry_in entry.new) (entry_of_text text.now) result }
    ensures some { OnOk result (IsSomeEntry entry.new) }
{
    let end = place_of(b';', text);
    read_key(&mut entry.key, text, end)?;
    read_elements(&mut entry.elements, after_key(text, end))
}
