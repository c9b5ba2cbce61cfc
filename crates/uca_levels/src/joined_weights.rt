ghost use Rattle.std.specs.Prelude.{◌≡◌, [], ◌∷◌, ◌<◌, ◌≤◌, ◌^◌, IfErr, IfNone, IfSome, OnOk, length};
ghost use Rattle.std.specs.Option.{ForSome};
ghost use Rattle.uca_match.specs.Yields.{YieldsFirst};
ghost use Rattle.uca_levels.specs.Decides.{IsOfLevel};

use crate::cell_weights::CellWeights;
use crate::stream::{NotAlone, WeightStream};
use uca_match::put_stretch;
use uca_weights::Element;

/// How many elements characters that join each other may have.
const HELD: usize = 64;

/// The weights of one level of a safe text in memory that are not zero, one by one (UTS #10, section 7.3, step S3). A character that
/// stands alone has the elements of its cell; others are matched together, as far as they are few. It does not allocate, and holds at
/// most `MAX_LOOKAHEAD` code points of the text.
#[derive(Drop)]
pub(crate) struct JoinedWeights<'t> {
    pub(crate) cells: CellWeights<'t>,
    /// A weight that is given once more before all others.
    pub(crate) given: Option<u16>,
    /// The elements of the last characters that did not stand alone.
    pub(crate) held: [Element; HELD],
    /// Where those begin that were not given yet, and where they end.
    pub(crate) at: usize,
    pub(crate) end: usize,
    ghost order: { at ≤ end },
    ghost within: { end ≤ 64 },
    ghost weight: { ForSome given (λ w. (0 < w) × (w < 2 ^ 16)) },
}

impl<'t> JoinedWeights<'t> {
    ghost use Rattle.uca_levels.specs.Streams.{cell_weights_left, given_before, held_back, held_elements, weights_left};

    /// A weight that was given already, if there is one, and then those that are left of a text.
    pub(crate) fn after(cells: CellWeights<'t>, given: Option<u16>) -> JoinedWeights<'t>
        requires { IfSome given (λ w. (0 < w) × (w < 2 ^ 16)) }
        ensures left { weights_left result ≡ given_before given (cell_weights_left cells.entry) }
        ensures level { result.cells.level ≡ cells.entry.level }
    {
        JoinedWeights {
            cells,
            given,
            held: [Element::default(); HELD],
            at: 0,
            end: 0,
        }
    }

    // The next element of those that are held. `None`: none of them is left.
    fn held_element(&mut self) -> Option<Element>
        ensures yields { YieldsFirst (held_elements self.old) result (held_elements self.new) }
        ensures cells { self.new.cells ≡ self.old.cells }
        ensures given { self.new.given ≡ self.old.given }
    {
        if self.at == self.end {
            return None;
        }
        let element = self.held[self.at];
        self.at += 1;
        Some(element)
    }

    // The next weight of the elements that are held. `None`: none of them is left.
    fn held_weight(&mut self) -> Option<u16>
        ensures some { IfSome result (λ weight. held_back self.old ≡ weight ∷ held_back self.new) }
        ensures none { IfNone result ((held_elements self.new ≡ []) × (held_back self.new ≡ held_back self.old)) }
        ensures weight { IfSome result (IsOfLevel self.old.cells.level) }
        ensures level { self.new.cells.level ≡ self.old.cells.level }
        ensures rest { self.new.cells.rest.now ≡ self.old.cells.rest.now }
        ensures waiting { self.new.cells.waiting.now ≡ self.old.cells.waiting.now }
        ensures given { self.new.given ≡ self.old.given }
    {
        'held: while let Some(element) = self.held_element() {
            let weight = self.cells.weigh(element);
            if weight != 0 {
                return Some(weight);
            }
        }
        None
    }

    // Goes on with the characters that join each other. `NotAlone`: they are many.
    fn join(&mut self) -> Result<(), NotAlone>
        requires waiting { self.old.cells.waiting.now ≡ [] }
        requires none { held_elements self.old ≡ [] }
        ensures left { OnOk result (held_back self.new ≡ held_back self.old) }
        ensures stays { IfErr result (λ _. held_back self.new ≡ held_back self.old) }
        ensures fewer { OnOk result (length self.new.cells.rest.now < length self.old.cells.rest.now) }
        ensures level { self.new.cells.level ≡ self.old.cells.level }
        ensures given { self.new.given ≡ self.old.given }
    {
        let joined = put_stretch(self.cells.table, self.cells.rest, &mut self.held, 0);
        self.at = 0;
        let Some((end, rest)) = joined else {
            self.end = 0;
            return Err(NotAlone);
        };
        self.end = end;
        self.cells.rest = rest;
        Ok(())
    }
}

impl<'t> WeightStream for JoinedWeights<'t> {
    ghost use Rattle.uca_levels.specs.Streams.{weights_left};

    ghost level = { λ w. w.cells.level };

    ghost left = { weights_left };

    /// `NotAlone`: many characters join each other next.
    fn next_weight(&mut self) -> Result<Option<u16>, NotAlone> {
        if let Some(weight) = self.given.take() {
            return Ok(Some(weight));
        }
        'characters: loop {
            if let Some(weight) = self.held_weight() {
                return Ok(Some(weight));
            }
            match self.cells.next() {
                Ok(weight) => return Ok(weight),
                Err(NotAlone) => self.join()?,
            }
        }
    }
}
