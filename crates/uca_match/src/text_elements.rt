ghost use Rattle.std.specs.Prelude.{◌≡◌, [], ◌+◌, ◌++◌, ◌<◌, ◌≤◌, None, IfSome, OnOk, chars, length, take};
ghost use Rattle.std.specs.Option.{ForSome};
ghost use Rattle.unicode_normalization.specs.Forms.{nfd};
ghost use Rattle.uca_weights.specs.declared.limits.TheConstants.{MAX_LOOKAHEAD};
ghost use Rattle.uca_model.specs.CollationElements.{elements};
ghost use Rattle.uca_model.specs.SafeText.{IsSafe};
ghost use Rattle.uca_model.specs.Table.{longest};
ghost use Rattle.uca_window.specs.PassageSource.{StandsIn};
ghost use Rattle.uca_match.specs.OneBack.{IsOneBack};

use crate::stretch::{put_fitting, put_stretch};
use crate::text_window::TextWindow;
use std::alloc::AllocError;
use uca_table::Table;
use uca_weights::Element;

/// What a character bears after it that any text may follow: its elements stay the same.
pub const ANY_TEXT: u8 = 2;

// The rest of a text from one character earlier on, and where the elements of that character begin, which end at a place. `None`: they
// are not known.
#[inline(never)]
#[tactic(auto, using(crate::proofs::TextLemmas::going_back))]
fn one_back<'t>(t: &Table, text: &'t str, rest: &str, at: usize) -> Option<(usize, &'t str)>
    requires { StandsIn text.now rest.now }
    ensures stands { IfSome result (λ r. StandsIn text.now r.1.now) }
    ensures back { IfSome result (λ r. IsOneBack t.now rest.now at r.1.now r.0) }
{
    let mut read = text.split_at(text.len() - rest.len()).0.chars();
    let last = read.next_back()?;
    let elements = t.character_after(ANY_TEXT, last)?.elements;
    let place = at.checked_sub(elements.len())?;
    Some((place, text.split_at(read.as_str().len()).1))
}

// Puts the elements of the first characters of a text into room from a place on, as far as each stands alone and its elements fit.
// Returns the place after them, and the text after those characters. Most texts are read to their end here. Each character is looked up
// once: whether it stands alone is seen at the next one. Where it does not, which is rare, this goes back to it: then the loop keeps
// nothing for that.
#[inline(always)]
#[tactic(auto, using(crate::proofs::TextLemmas::going_back))]
fn put_alone<'t>(t: &Table, text: &'t str, room: &mut [Element], from: usize) -> (usize, &'t str)
    requires within { from ≤ length room.old }
    requires safe { IsSafe (chars text.now) }
    ensures left { take result.0 room.new ++ elements t.now (nfd (chars result.1.now)) ≡ take from room.old ++ elements t.now (nfd (chars text.now)) }
    ensures later { from ≤ result.0 }
    ensures within { result.0 ≤ length room.old }
    ensures fewer { length result.1.now ≤ length text.now }
    ensures safe { IsSafe (chars result.1.now) }
    ensures size { length room.new ≡ length room.old }
{
    let Some(known) = t.characters() else {
        return (from, text);
    };
    let (mut at, mut rest) = (from, text);
    let mut bearing = ANY_TEXT;
    'characters: loop {
        let mut left = rest.chars();
        let Some(c) = left.next() else {
            return (at, rest);
        };
        let Some(character) = known.after(bearing, c) else {
            if bearing >= ANY_TEXT {
                return (at, rest);
            }
            return match one_back(t, text, rest, at) {
                Some(back) => back,
                None => (from, text),
            };
        };
        let Some(next) = put_fitting(character.elements, room, at) else {
            return (at, rest);
        };
        at = next;
        rest = left.as_str();
        bearing = character.bearing;
    }
}

/// Puts the collation elements of a safe text into room, from its front on (UTS #10, section 7.2, step S2). Returns how many, and
/// the text whose elements are left: the empty one, unless the room is too small or many characters join each other. A character
/// that stands alone has the elements of its cell; others are matched together, up to the next place at which the text may be cut.
/// It does not allocate, and holds at most `MAX_LOOKAHEAD` code points of the text.
pub fn read_text<'t>(t: &Table, text: &'t str, room: &mut [Element]) -> (usize, &'t str)
    requires { IsSafe (chars text.now) }
    ensures left { take result.0 room.new ++ elements t.now (nfd (chars result.1.now)) ≡ elements t.now (nfd (chars text.now)) }
    ensures within { result.0 ≤ length room.old }
    ensures safe { IsSafe (chars result.1.now) }
    ensures size { length room.new ≡ length room.old }
{
    let (mut at, mut rest) = put_alone(t, text, room, 0);
    'stretches: while !rest.is_empty() {
        let Some((next, after)) = put_stretch(t, rest, room, at) else {
            return (at, rest);
        };
        (at, rest) = put_alone(t, after, room, next);
    }
    (at, rest)
}

/// The collation elements of a safe text in memory, read into room as often as the caller wants (UTS #10, section 7.2, step S2). It
/// does not allocate. Of the text it holds at most `MAX_LOOKAHEAD` code points more than the longest key has: `bound`.
#[derive(Drop)]
pub struct TextElements<'t> {
    pub(crate) table: &'t Table,
    /// The text that was not read yet, unless a window reads it.
    pub(crate) rest: &'t str,
    /// What reads the rest of a text of which many characters join each other.
    pub(crate) window: Option<TextWindow<'t>>,
    ghost safe: { IsSafe (chars rest.now) },
    ghost limits: { ForSome window (λ w. longest w.elements.table ≡ longest table.now) },
    ghost few: { ForSome window (λ w. length w.elements.window.points ≤ longest w.elements.table + MAX_LOOKAHEAD) },
}

impl<'t> TextElements<'t> {
    ghost use Rattle.uca_match.specs.TextLeft.{elements_left, points_of};

    /// The elements of a text, none of which was given yet.
    pub fn new(t: &'t Table, text: &'t str) -> TextElements<'t>
        requires { IsSafe (chars text.now) }
        ensures left { elements_left result ≡ elements t.now (nfd (chars text.now)) }
        ensures bound { points_of result.window ≤ longest t.now + MAX_LOOKAHEAD }
    {
        TextElements {
            table: t,
            rest: text,
            window: None,
        }
    }

    // Goes on over a window, which this makes.
    #[inline(never)]
    fn read_by_window(&mut self, room: &mut [Element]) -> usize
        requires none { self.old.window ≡ None }
        requires some { 0 < length room.old }
        ensures left { elements_left self.old ≡ take result room.new ++ elements_left self.new }
        ensures within { result ≤ length room.old }
        ensures end { result ≡ 0 → elements_left self.old ≡ [] }
        ensures size { length room.new ≡ length room.old }
    {
        let mut window = TextWindow::new(self.table, self.rest);
        let n = window.read(room);
        self.window = Some(window);
        n
    }

    /// Puts the next elements into room, from its front on, and returns how many: none only where none is left.
    #[tactic(auto, using(crate::proofs::TextLemmas::texts))]
    pub fn read(&mut self, room: &mut [Element]) -> usize
        requires { 0 < length room.old }
        ensures left { elements_left self.old ≡ take result room.new ++ elements_left self.new }
        ensures within { result ≤ length room.old }
        ensures end { result ≡ 0 → elements_left self.old ≡ [] }
        ensures bound { points_of self.new.window ≤ longest self.new.table.now + MAX_LOOKAHEAD }
        ensures size { length room.new ≡ length room.old }
    {
        if let Some(window) = &mut self.window {
            return window.read(room);
        }
        let (n, rest) = read_text(self.table, self.rest, room);
        if n > 0 {
            self.rest = rest;
            return n;
        }
        if rest.is_empty() {
            self.rest = rest;
            return 0;
        }
        self.read_by_window(room)
    }

    /// Appends all elements that are left to others.
    pub fn push_all(&mut self, out: &mut Vec<Element>) -> Result<(), AllocError>
        ensures { OnOk result (out.new.items ≡ out.old.items ++ elements_left self.old) }
    {
        let mut room = [Element::default(); 64];
        'each: loop {
            let n = self.read(&mut room);
            if n == 0 {
                return Ok(());
            }
            out.extend_from_slice(&room[..n])?;
        }
    }
}
