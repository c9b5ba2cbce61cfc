ghost use Rattle.std.specs.Prelude.{◌≡◌, ℕ, List, true, false, ◌+◌, ◌<◌, ◌≤◌, ◌++◌, ◌∷◌, [], length, chars, IfOk, IsOk, OnOk};
ghost use Rattle.unicode_normalization.specs.Forms.{nfd};
ghost use Rattle.uca_model.specs.CollationElements.{elements, elements_or_implicit};
ghost use Rattle.uca_weights.specs.declared.limits.TheConstants.{MAX_LOOKAHEAD};
ghost use Rattle.uca_model.specs.SafeText.{IsSafe};
ghost use Rattle.uca_model.specs.Source.{GivesNext, unread};
ghost use Rattle.uca_model.specs.Table.{longest};
ghost use Rattle.uca_model.specs.Window.{Fits, ReadsOn, after_read, credit};
ghost use Rattle.uca_window.specs.Passage.{bytes_of, text_of};
ghost use Rattle.uca_model.specs.ImplicitWeights.{implicit};
ghost use Rattle.uca_match.specs.Found.{IsFound, points_of};
ghost use Rattle.uca_match.specs.Yields.{Yields};
ghost use Rattle.uca_match.specs.RemainingElements.{new_elements, remaining_elements, window_of, waiting_of, is_asking, YieldsHeld};

use crate::text_elements::TextElements;
use crate::window_match::{WindowMatch, next_match};
use std::alloc::{AllocError, Global};
use std::marker::Model;
use uca_table::Table;
use uca_weights::Element;
use uca_window::{Passage, Source, Window};

/// The collation elements of a text (UTS #10, sections 7.1 and 7.2, steps S1 and S2). The empty text needs no
/// allocation. `AllocError`: an allocation was refused.
#[tactic(auto, using(crate::proofs::TextLemmas::texts))]
pub fn elements_of(alloc: Global, t: &Table, p: &Passage) -> Result<Vec<Element>, AllocError>
    ensures value { IfOk result (λ v. v.items ≡ elements t.now (nfd (text_of p.now))) }
    ensures empty { bytes_of p.now ≡ [] → IsOk result }
{
    if p.as_str().is_empty() {
        return Ok(Vec::new(alloc));
    }
    let mut out = Vec::new(alloc);
    TextElements::new(t, p.as_str()).push_all(&mut out)?;
    Ok(out)
}

// The elements of a match: the first, and the others. Those of a key are borrowed from the table; an implicit pair is made.
#[derive(Drop)]
struct MatchElements<'t> {
    first: Element,
    others: &'t [Element],
    second: Option<Element>,
}

// The elements of a key, borrowed from the table.
fn elements_of_key(elements: &[Element]) -> MatchElements<'_>
    requires { 0 < length elements.now }
    ensures { elements.now ≡ result.first ∷ waiting_of result.others.now result.second }
{
    MatchElements {
        first: elements[0],
        others: &elements[1..],
        second: None,
    }
}

// The implicit elements of a code point.
fn elements_of_point(t: &Table, c: char) -> MatchElements<'_>
    ensures { implicit t.now c ≡ result.first ∷ waiting_of result.others.now result.second }
{
    let [first, second] = t.implicit(c);
    MatchElements {
        first,
        others: &[],
        second: Some(second),
    }
}

// The elements of a match: those of the key, or else the implicit ones of its first code point (UTS #10, 7.2, step
// S2.2).
fn elements_of_match<'t>(t: &'t Table, matched: WindowMatch<'t>) -> MatchElements<'t>
    requires { IsFound t.now matched }
    ensures { elements_or_implicit t.now (points_of matched.entry) ≡ result.first ∷ waiting_of result.others.now result.second }
{
    if matched.walk.len() == 0 {
        return elements_of_point(t, matched.first);
    }
    match matched.walk.elements() {
        Some(elements) => elements_of_key(elements),
        None => elements_of_point(t, matched.first),
    }
}

/// The collation elements of a text one by one, over a window of the text in NFD (UTS #10, section 7.2, step S2). It
/// borrows a source at each call that reads, and the elements from the table. It does not allocate. Of the text it holds at
/// most `MAX_LOOKAHEAD` code points more than the longest key has: `bound`.
#[derive(Drop)]
pub struct Elements<'t> {
    table: &'t Table,
    // Those of the last match that were not returned yet.
    waiting: &'t [Element],
    second: Option<Element>,
    window: Window,
}

impl<'t> Model for Elements<'t> {
    ghost use Rattle.uca_match.specs.RemainingElements.{ElementsState, IsElements, coded_elements, waiting_of};

    ghost Value = { ElementsState };

    ghost coded = { coded_elements };

    ghost view = { λ e. record { table = e.table.now; waiting = waiting_of e.waiting.now e.second; window = e.window } };

    ghost invariant = { λ e. IsElements e.table.now e.window };
}

impl<'t> Elements<'t> {
    /// The elements by a table, none of which has been returned yet. It fits each source whose unread characters are a safe
    /// text, and what remains is then the elements of their NFD.
    pub fn new(t: &'t Table) -> Elements<'t>
        ensures value { result ≡ new_elements t.now }
        ensures fits { (left : List ℕ) → IsSafe left → Fits result.window left }
        ensures remaining { (left : List ℕ) → remaining_elements result left ≡ elements t.now (nfd left) }
        ensures bound { length result.window.points ≤ longest t.now + MAX_LOOKAHEAD }
    {
        Elements {
            table: t,
            waiting: &[],
            second: None,
            window: Window::new(t.longest()),
        }
    }

    /// The next element. `None` at the end, and on every call after it.
    pub fn next<S: Source>(&mut self, source: &mut S) -> Option<Element>
        requires { Fits self.old.window (unread (S.state source.old)) }
        ensures yields { Yields remaining_elements window_of self.old (S.state source.old) result self.new (S.state source.new) }
        ensures table { self.new.table ≡ self.old.table }
        ensures held { is_asking self.old ≡ false → YieldsHeld self.old (S.state source.old) result self.new (S.state source.new) }
        ensures bound { length self.new.window.points ≤ longest self.new.table + MAX_LOOKAHEAD }
    {
        if !self.waiting.is_empty() {
            let first = self.waiting[0];
            self.waiting = &self.waiting[1..];
            return Some(first);
        }
        if let Some(second) = self.second {
            self.second = None;
            return Some(second);
        }
        let matched = next_match(self.table, &mut self.window, source)?;
        let given = elements_of_match(self.table, matched);
        self.waiting = given.others;
        self.second = given.second;
        Some(given.first)
    }

    /// Whether no element waits and its window wants a character more.
    pub fn wants(&self) -> bool
        ensures value { result ≡ is_asking self.now }
        ensures bound { length self.now.window.points ≤ longest self.now.table + MAX_LOOKAHEAD }
    {
        self.waiting.is_empty() && self.second.is_none() && self.window.wants()
    }

    /// Reads one character, or the end, and returns it. The remaining elements stay.
    pub fn read<S: Source>(&mut self, source: &mut S) -> Option<char>
        requires wants { is_asking self.old ≡ true }
        requires fits { Fits self.old.window (unread (S.state source.old)) }
        ensures reads { ReadsOn self.old.window (S.state source.old) self.new.window (S.state source.new) }
        ensures given { GivesNext (S.state source.old) result (S.state source.new) }
        ensures next { self.new ≡ record self.old { window = after_read self.old.window result } }
        ensures remaining { remaining_elements self.new (unread (S.state source.new)) ≡ remaining_elements self.old (unread (S.state source.old)) }
        ensures fewer { credit self.new.window (unread (S.state source.new)) < credit self.old.window (unread (S.state source.old)) }
        ensures bound { length self.new.window.points ≤ longest self.new.table + MAX_LOOKAHEAD }
    {
        self.window.read(source)
    }
}
