ghost use Rattle.std.specs.Prelude.{◌≡◌, ℕ, List, [], ◌∷◌, IsTrue, ◌+◌, ◌++◌, ◌<◌, ◌≤◌, chars, length, option_copied, take, IfNone, IfSome};
ghost use Rattle.unicode_normalization.specs.Forms.{nfd};
ghost use Rattle.uca_weights.specs.declared.limits.TheConstants.{MAX_LOOKAHEAD};
ghost use Rattle.uca_model.specs.CollationElements.{elements, elements_or_implicit};
ghost use Rattle.uca_model.specs.SafeText.{IsSafe};
ghost use Rattle.uca_model.specs.Table.{elements_at};
ghost use Rattle.uca_match.specs.JoinsNothing.{JoinsNothing};

use arrayvec::ArrayVec;
use uca_table::Table;
use uca_table::matching::match_front;
use uca_weights::{Element, MAX_DECOMPOSITION, MAX_LOOKAHEAD};
use uca_window::points::{ROOM, push_decomposed};

/// Whether a text joins nothing before it.
#[inline(always)]
#[tactic(auto, using(crate::proofs::TextLemmas::texts))]
pub fn joins_nothing(t: &Table, text: &str) -> bool
    ensures { IsTrue result → JoinsNothing t.now (chars text.now) }
{
    match text.chars().next() {
        Some(c) => t.joins_nothing(c),
        None => true,
    }
}

/// Whether a text may be cut between a character and what is after it, whatever comes before the character: its two parts then
/// have their collation elements independently (UTS #10, section 7.2). `false`: that is not known.
#[inline(always)]
#[tactic(auto, using(crate::proofs::TextLemmas::cutting))]
pub fn may_cut_after(t: &Table, c: char, after: &str) -> bool
    ensures { IsTrue result → (front : List ℕ) → elements t.now (nfd ((front ++ c ∷ []) ++ chars after.now)) ≡ elements t.now (nfd (front ++ c ∷ [])) ++ elements t.now (nfd (chars after.now)) }
{
    if t.bears_all(c) {
        return true;
    }
    joins_nothing(t, after)
}

// Reads the first characters of a text, up to the next place at which the text may be cut, into points in NFD. Returns the text
// after them. `None`: they have more than `MAX_LOOKAHEAD` points, or nearly so.
#[tactic(auto, using(crate::proofs::TextLemmas::reading))]
fn read_stretch<'t>(t: &Table, text: &'t str, points: &mut ArrayVec<char, ROOM>) -> Option<&'t str>
    requires none { points.old.items ≡ [] }
    requires safe { IsSafe (chars text.now) }
    ensures apart { IfSome result (λ rest. elements t.now points.new.items ++ elements t.now (nfd (chars rest.now)) ≡ elements t.now (nfd (chars text.now))) }
    ensures fewer { IfSome result (λ rest. length rest.now < length text.now) }
    ensures safe { IfSome result (λ rest. IsSafe (chars rest.now)) }
    ensures few { length points.new.items ≤ MAX_LOOKAHEAD }
{
    let mut closed = 0;
    let mut left = text.chars();
    'characters: while let Some(c) = left.next() {
        if points.len() + MAX_DECOMPOSITION > MAX_LOOKAHEAD {
            return None;
        }
        closed = push_decomposed(points, closed, c);
        let rest = left.as_str();
        if may_cut_after(t, c, rest) {
            return Some(rest);
        }
    }
    None
}

/// Puts elements into room at a place, and returns the place after them. `None`: they do not fit. Most characters have one, letters
/// with a mark two, and most syllables of Hangul three.
#[inline(always)]
#[tactic(auto, using(crate::proofs::TextLemmas::putting))]
pub(crate) fn put_fitting(elements: &[Element], room: &mut [Element], at: usize) -> Option<usize>
    requires { at ≤ length room.old }
    ensures elements { IfSome result (λ end. take end room.new ≡ take at room.old ++ elements.now) }
    ensures place { IfSome result (λ end. end ≡ at + length elements.now) }
    ensures within { IfSome result (λ end. end ≤ length room.old) }
    ensures kept { take at room.new ≡ take at room.old }
    ensures fits { IfNone result (length room.old < at + length elements.now) }
    ensures size { length room.new ≡ length room.old }
{
    if let [element] = elements {
        if at == room.len() {
            return None;
        }
        room[at] = *element;
        return Some(at + 1);
    }
    if elements.len() > room.len() - at {
        return None;
    }
    if let [first, second] = elements {
        room[at] = *first;
        room[at + 1] = *second;
        return Some(at + 2);
    }
    if let [first, second, third] = elements {
        room[at] = *first;
        room[at + 1] = *second;
        room[at + 2] = *third;
        return Some(at + 3);
    }
    let end = at + elements.len();
    room[at..end].copy_from_slice(elements);
    Some(end)
}

// Puts the elements of a match into room at a place: those that the table has for it, or else the implicit ones of its first code
// point (UTS #10, 7.2, step S2.2). `None`: they do not fit.
fn put_match(
    t: &Table,
    matched: &[char],
    found: Option<&[Element]>,
    room: &mut [Element],
    at: usize,
) -> Option<usize>
    requires within { at ≤ length room.old }
    requires some { 0 < length matched.now }
    requires found { option_copied found ≡ elements_at t.now matched.now }
    ensures elements { IfSome result (λ end. take end room.new ≡ take at room.old ++ elements_or_implicit t.now matched.now) }
    ensures later { IfSome result (λ end. at ≤ end) }
    ensures within { IfSome result (λ end. end ≤ length room.old) }
    ensures kept { take at room.new ≡ take at room.old }
    ensures size { length room.new ≡ length room.old }
{
    match found {
        Some(elements) => put_fitting(elements, room, at),
        None => put_fitting(&t.implicit(matched[0]), room, at),
    }
}

// Puts the elements of points in NFD into room from a place on, match after match (UTS #10, 7.2, step S2). `None`: they do not fit.
#[tactic(auto, using(crate::proofs::TextLemmas::putting))]
fn put_matches(t: &Table, points: &mut [char], room: &mut [Element], from: usize) -> Option<usize>
    requires within { from ≤ length room.old }
    ensures elements { IfSome result (λ end. take end room.new ≡ take from room.old ++ elements t.now points.old) }
    ensures later { IfSome result (λ end. from ≤ end) }
    ensures within { IfSome result (λ end. end ≤ length room.old) }
    ensures kept { take from room.new ≡ take from room.old }
    ensures size { length room.new ≡ length room.old }
{
    let mut at = from;
    let mut next = 0;
    'matches: while next < points.len() {
        let matched = match_front(t, &mut points[next..]);
        let end = next + matched.len;
        let Some(placed) = put_match(t, &points[next..end], matched.elements, room, at) else {
            return None;
        };
        at = placed;
        next = end;
    }
    Some(at)
}

// Puts the implicit elements of the first character of a text into room at a place, where no text after it changes them. Returns the
// place after them, and the text after that character. `None`: that is not known, or they do not fit.
#[tactic(auto, using(crate::proofs::TextLemmas::texts))]
fn put_implicit<'t>(
    t: &Table,
    text: &'t str,
    room: &mut [Element],
    at: usize,
) -> Option<(usize, &'t str)>
    requires within { at ≤ length room.old }
    requires safe { IsSafe (chars text.now) }
    ensures left { IfSome result (λ r. take r.0 room.new ++ elements t.now (nfd (chars r.1.now)) ≡ take at room.old ++ elements t.now (nfd (chars text.now))) }
    ensures later { IfSome result (λ r. at ≤ r.0) }
    ensures within { IfSome result (λ r. r.0 ≤ length room.old) }
    ensures fewer { IfSome result (λ r. length r.1.now < length text.now) }
    ensures safe { IfSome result (λ r. IsSafe (chars r.1.now)) }
    ensures kept { take at room.new ≡ take at room.old }
    ensures size { length room.new ≡ length room.old }
{
    let mut left = text.chars();
    let c = left.next()?;
    let elements = t.implicit_alone(c)?;
    let end = put_fitting(&elements, room, at)?;
    Some((end, left.as_str()))
}

/// Puts the elements of the first characters of a text, which may join each other, into room from a place on: of those up to the
/// next place at which the text may be cut. Returns the place after the elements, and the text after those characters. `None`:
/// the characters are many, or their elements do not fit. It does not allocate, and holds at most `MAX_LOOKAHEAD` code points.
#[inline(never)]
pub fn put_stretch<'t>(
    t: &Table,
    text: &'t str,
    room: &mut [Element],
    from: usize,
) -> Option<(usize, &'t str)>
    requires within { from ≤ length room.old }
    requires safe { IsSafe (chars text.now) }
    ensures left { IfSome result (λ r. take r.0 room.new ++ elements t.now (nfd (chars r.1.now)) ≡ take from room.old ++ elements t.now (nfd (chars text.now))) }
    ensures later { IfSome result (λ r. from ≤ r.0) }
    ensures within { IfSome result (λ r. r.0 ≤ length room.old) }
    ensures fewer { IfSome result (λ r. length r.1.now < length text.now) }
    ensures safe { IfSome result (λ r. IsSafe (chars r.1.now)) }
    ensures none { IfNone result (take from room.new ≡ take from room.old) }
    ensures size { length room.new ≡ length room.old }
{
    if let Some(put) = put_implicit(t, text, room, from) {
        return Some(put);
    }
    let mut points = ArrayVec::new();
    let rest = read_stretch(t, text, &mut points)?;
    let at = put_matches(t, points.as_mut_slice(), room, from)?;
    Some((at, rest))
}
