#![tactic(auto, using(crate::proofs::PrimarySteps::characters))]

ghost use Rattle.std.specs.Prelude.{◌≡◌, [], ◌∷◌, ◌<◌, ◌≤◌, ◌^◌, List, false, true, chars, length, IfErr, IfOk, IfSome};
ghost use Rattle.uca_weights.specs.declared.element.Element.{Element};
ghost use Rattle.uca_model.specs.LevelWeights.{level_list};
ghost use Rattle.uca_model.specs.SafeText.{IsSafe};
ghost use Rattle.uca_match.specs.Yields.{YieldsFirst};
ghost use Rattle.uca_levels.specs.Decides.{IsOfLevel};

use crate::stream::{NotAlone, WeightStream};
use uca_table::Table;
use uca_weights::{Element, Variable, Weigher};

/// The weights of one level of a safe text in memory one by one, for as long as its characters stand alone: each has the elements
/// of its cell. It does not allocate.
#[derive(Drop)]
pub(crate) struct CellWeights<'t> {
    pub(crate) table: &'t Table,
    pub(crate) weigher: Weigher,
    pub(crate) level: u8,
    /// Of the last character, the elements that were not weighed yet.
    pub(crate) waiting: &'t [Element],
    /// The text after that character.
    pub(crate) rest: &'t str,
    ghost levels: { (1 ≤ level) × (level ≤ 4) },
    ghost safe: { IsSafe (chars rest.now) },
}

impl<'t> CellWeights<'t> {
    ghost use Rattle.uca_levels.specs.Streams.{cell_elements_left, cell_weights_left, SameKind, weight_before, weights_from};

    /// The weights of a text, of which none was given yet.
    pub(crate) fn new(t: &'t Table, v: Variable, level: u8, text: &'t str) -> CellWeights<'t>
        requires first { 1 ≤ level }
        requires last { level ≤ 4 }
        requires safe { IsSafe (chars text.now) }
        ensures left { cell_weights_left result ≡ level_list t.now v (chars text.now) level }
        ensures level { result.level ≡ level }
    {
        CellWeights {
            table: t,
            weigher: Weigher::new(v),
            level,
            waiting: &[],
            rest: text,
        }
    }

    /// The weight of an element at the level, which may be zero.
    #[inline(always)]
    pub(crate) fn weigh(&mut self, e: Element) -> u16
        ensures first { (es : List Element) → weights_from self.old.weigher self.old.level (e ∷ es) ≡ weight_before result (weights_from self.new.weigher self.old.level es) }
        ensures small { result < 2 ^ 16 }
        ensures kind { SameKind self.old self.new }
        ensures waiting { self.new.waiting.now ≡ self.old.waiting.now }
        ensures rest { self.new.rest.now ≡ self.old.rest.now }
    {
        self.weigher.weigh_at(e, self.level)
    }

    // Reads the elements of the next character. Returns whether there is one.
    #[inline(always)]
    fn read(&mut self) -> Result<bool, NotAlone>
        requires none { self.old.waiting.now ≡ [] }
        ensures elements { cell_elements_left self.new ≡ cell_elements_left self.old }
        ensures left { cell_weights_left self.new ≡ cell_weights_left self.old }
        ensures end { IfOk result (λ some. some ≡ false → cell_weights_left self.new ≡ []) }
        ensures fewer { IfOk result (λ some. some ≡ true → length self.new.rest.now < length self.old.rest.now) }
        ensures stops { IfErr result (λ _. (self.new.waiting.now ≡ []) × (0 < length self.new.rest.now)) }
        ensures shorter { length self.new.rest.now ≤ length self.old.rest.now }
        ensures kind { SameKind self.old self.new }
    {
        let mut left = self.rest.chars();
        let Some(c) = left.next() else {
            return Ok(false);
        };
        let rest = left.as_str();
        let Some(elements) = self.table.alone_before(c, rest) else {
            return Err(NotAlone);
        };
        self.waiting = elements;
        self.rest = rest;
        Ok(true)
    }

    /// The next weight, which is not zero, or `None` at the end. `NotAlone`: the next character does not stand alone, and no
    /// element waits.
    #[inline(always)]
    pub(crate) fn next(&mut self) -> Result<Option<u16>, NotAlone>
        ensures yields { IfOk result (λ given. YieldsFirst (cell_weights_left self.old) given (cell_weights_left self.new)) }
        ensures weight { IfOk result (λ given. IfSome given (IsOfLevel self.old.level)) }
        ensures stays { IfErr result (λ _. cell_weights_left self.new ≡ cell_weights_left self.old) }
        ensures stops { IfErr result (λ _. (self.new.waiting.now ≡ []) × (0 < length self.new.rest.now)) }
        ensures shorter { length self.new.rest.now ≤ length self.old.rest.now }
        ensures kind { SameKind self.old self.new }
    {
        loop {
            if let Some((first, others)) = self.waiting.split_first() {
                self.waiting = others;
                let weight = self.weigh(*first);
                if weight != 0 {
                    return Ok(Some(weight));
                }
            } else if !self.read()? {
                return Ok(None);
            }
        }
    }
}

impl<'t> WeightStream for CellWeights<'t> {
    ghost use Rattle.uca_levels.specs.Streams.{cell_weights_left};

    ghost level = { λ w. w.level };

    ghost left = { cell_weights_left };

    #[inline(always)]
    fn next_weight(&mut self) -> Result<Option<u16>, NotAlone> {
        self.next()
    }
}
