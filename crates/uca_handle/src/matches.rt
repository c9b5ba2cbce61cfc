// The matches of a text, which are put into arrays.
ghost use Rattle.std.specs.Prelude.{◌≡◌, ◌<◌, ◌≤◌, ◌++◌, [], ◌∷◌, length, map, IfOk, OnOk};
ghost use Rattle.uca_weights.specs.declared.limits.TheConstants.{MAX_ELEMENTS};
ghost use Rattle.uca_model.specs.CollationElements.{elements_or_implicit};
ghost use Rattle.uca_window.specs.Passage.{text_of};
ghost use Rattle.uca_match.specs.Matches.{match_of};
ghost use Rattle.uca_handle.specs.Listed.{Lists};
ghost use Rattle.uca_handle.specs.Matches.{PutsMatchesBy, element_form, text_matches, with_items};

use crate::faults::KeyFault;
use std::alloc::{AllocError, Global};
use uca_match::{Match, matches_of};
use uca_table::Table;
use uca_weights::Element;
use uca_window::Passage;

/// A match of a text in numbers, as C has it. Its code points and its elements are in other arrays.
#[repr(C)]
#[derive(Clone, Copy)]
pub struct MatchForm {
    /// How many code points it has.
    pub points: u32,
    /// How many collation elements it has.
    pub elements: u32,
    /// 1 where the table has the code points as a key, and else 0: then the elements are implicit ones.
    pub is_key: u32,
}

/// A collation element in numbers, as C has it.
#[repr(C)]
#[derive(Clone, Copy)]
pub struct ElementForm {
    pub primary: u16,
    pub secondary: u16,
    pub tertiary: u16,
    /// 1 for a variable element, and else 0.
    pub is_variable: u16,
}

/// How many matches a text has, and how many code points and collation elements they have.
#[derive(Clone, Copy, Debug, PartialEq, Eq)]
pub struct MatchesSize {
    pub matches: usize,
    pub points: usize,
    pub elements: usize,
}

/// Matches that were found, with all their code points and all their elements one after the other.
#[derive(Drop)]
struct Listed {
    matches: Vec<MatchForm>,
    points: Vec<u32>,
    elements: Vec<ElementForm>,
}

fn form_of(e: Element) -> ElementForm
    ensures { result ≡ element_form e }
{
    ElementForm {
        primary: e.l1,
        secondary: e.l2,
        tertiary: e.l3,
        is_variable: u16::from(e.starred),
    }
}

/// Appends code points as numbers.
fn push_points(out: &mut Vec<u32>, points: &[char]) -> Result<(), AllocError>
    ensures { OnOk result (out.new.items ≡ out.old.items ++ points.now) }
{
    for point in points {
        out.push(*point as u32)?;
    }
    Ok(())
}

/// Appends elements, and returns how many they are.
fn push_forms(out: &mut Vec<ElementForm>, elements: &[Element]) -> Result<usize, AllocError>
    ensures pushed { OnOk result (out.new.items ≡ out.old.items ++ map element_form elements.now) }
    ensures count { IfOk result (λ n. n ≡ length elements.now) }
{
    for element in elements {
        out.push(form_of(*element))?;
    }
    Ok(elements.len())
}

/// Appends the elements of a match, and returns how many they are.
fn push_forms_of(out: &mut Vec<ElementForm>, t: &Table, key: &[char]) -> Result<usize, AllocError>
    requires { 0 < length key.now }
    ensures pushed { OnOk result (out.new.items ≡ out.old.items ++ map element_form (elements_or_implicit t.now key.now)) }
    ensures count { IfOk result (λ n. n ≡ length (elements_or_implicit t.now key.now)) }
    ensures few { IfOk result (λ n. n ≤ MAX_ELEMENTS) }
{
    match t.get(key) {
        Some(elements) => push_forms(out, elements),
        None => push_forms(out, &t.implicit(key[0])),
    }
}

impl Listed {
    fn new(alloc: Global) -> Listed
        ensures { (t : _) → Lists t [] result }
    {
        Listed {
            matches: Vec::new(alloc),
            points: Vec::new(alloc),
            elements: Vec::new(alloc),
        }
    }

    /// Adds a match.
    fn push(&mut self, t: &Table, matched: &Match) -> Result<(), AllocError>
        requires { 0 < length matched.now.key.items }
        ensures { (ms : _) → Lists t.now ms self.old → OnOk result (Lists t.now (ms ++ match_of matched.now ∷ []) self.new) }
    {
        let key = matched.key.as_slice();
        push_points(&mut self.points, key)?;
        let elements = push_forms_of(&mut self.elements, t, key)?;
        self.matches.push(MatchForm {
            points: key.len() as u32,
            elements: elements as u32,
            is_key: u32::from(matched.found),
        })?;
        Ok(())
    }
}

/// The matches of a text.
fn list_matches(alloc: Global, t: &Table, p: &Passage) -> Result<Listed, AllocError>
    ensures { IfOk result (Lists t.now (text_matches t.now (text_of p.now))) }
{
    let matches = matches_of(alloc, t, p)?;
    let mut all = Listed::new(alloc);
    for matched in &matches {
        all.push(t, matched)?;
    }
    Ok(all)
}

/// Copies items into the front of an array, or as many of them as fit.
fn copy_items<T: Copy>(items: &[T], out: &mut [T])
    ensures { out.new ≡ with_items items.now out.old }
{
    let n = items.len().min(out.len());
    out[..n].copy_from_slice(&items[..n]);
}

/// Puts the matches of a text into the fronts of three arrays, or as many of them as fit: the matches, and one match after the
/// other their code points and their elements.
pub(crate) fn put_matches(
    alloc: Global,
    t: &Table,
    text: &[u8],
    matches: &mut [MatchForm],
    points: &mut [u32],
    elements: &mut [ElementForm],
) -> Result<MatchesSize, KeyFault>
    ensures { PutsMatchesBy t.now text.now matches.old matches.new points.old points.new elements.old elements.new result }
{
    let passage = match Passage::of_bytes(text) {
        Ok(passage) => passage,
        Err(fault) => return Err(KeyFault::Text(fault)),
    };
    let all = match list_matches(alloc, t, &passage) {
        Ok(all) => all,
        Err(_) => return Err(KeyFault::OutOfMemory),
    };
    copy_items(all.matches.as_slice(), matches);
    copy_items(all.points.as_slice(), points);
    copy_items(all.elements.as_slice(), elements);
    Ok(MatchesSize {
        matches: all.matches.len(),
        points: all.points.len(),
        elements: all.elements.len(),
    })
}
