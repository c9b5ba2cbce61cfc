ghost use Rattle.std.specs.Prelude.{◌≡◌, ℕ, List, true, false, ◌+◌, ◌<◌, ◌≤◌, ◌^◌, length, IfSome};
ghost use Rattle.uca_weights.specs.declared.limits.TheConstants.{MAX_LOOKAHEAD};
ghost use Rattle.uca_model.specs.LevelWeights.{level_list};
ghost use Rattle.uca_model.specs.SafeText.{IsSafe};
ghost use Rattle.uca_model.specs.Source.{unread};
ghost use Rattle.uca_model.specs.Table.{longest};
ghost use Rattle.uca_model.specs.Window.{Fits};
ghost use Rattle.uca_match.specs.Yields.{Yields};
ghost use Rattle.uca_match.specs.RemainingElements.{is_asking};
ghost use Rattle.uca_levels.specs.RemainingWeights.{new_weights, remaining_with_zeros, remaining_weights, window_of_weights, ReadsOne, WeighsHeld};

use std::marker::Model;
use uca_match::Elements;
use uca_table::Table;
use uca_weights::{Variable, Weigher};
use uca_window::Source;

/// The weights of one level of a text that are not zero, one by one (UTS #10, section 7.3, Form Sort Keys, step S3). It
/// borrows a source at each call that reads. It does not allocate. Of the text it holds at most `MAX_LOOKAHEAD` code points
/// more than the longest key has: `bound`.
#[derive(Drop)]
pub struct Weights<'t> {
    elements: Elements<'t>,
    weigher: Weigher,
    level: u8,
}

impl<'t> Model for Weights<'t> {
    ghost use Rattle.std.specs.Prelude.{◌≤◌};
    ghost use Rattle.uca_levels.specs.RemainingWeights.{WeightsState, coded_weights};

    ghost Value = { WeightsState };

    ghost coded = { coded_weights };

    ghost view = { λ w. record { elements = w.elements; weigher = w.weigher; level = w.level } };

    ghost invariant = { λ w. (1 ≤ w.level) × (w.level ≤ 4) };
}

impl<'t> Weights<'t> {
    /// The weights by a table at a level from 1 to 4, of which none was given yet. It fits each source whose unread
    /// characters are a safe text, and what remains is then the weights of their level.
    pub fn new(t: &'t Table, v: Variable, level: u8) -> Weights<'t>
        requires first { 1 ≤ level }
        requires last { level ≤ 4 }
        ensures value { result ≡ new_weights t.now v level }
        ensures fits { (left : List ℕ) → IsSafe left → Fits result.elements.window left }
        ensures remaining { (left : List ℕ) → remaining_weights result left ≡ level_list t.now v left level }
        ensures bound { length result.elements.window.points ≤ longest t.now + MAX_LOOKAHEAD }
    {
        Weights {
            elements: Elements::new(t),
            weigher: Weigher::new(v),
            level,
        }
    }

    // Whether no element waits and its window wants a character more.
    pub(crate) fn wants(&self) -> bool
        ensures { result ≡ is_asking self.now.elements }
    {
        self.elements.wants()
    }

    // Reads one character, or the end, and returns it. The remaining weights stay.
    pub(crate) fn read<S: Source>(&mut self, source: &mut S) -> Option<char>
        requires wants { is_asking self.old.elements ≡ true }
        requires fits { Fits self.old.elements.window (unread (S.state source.old)) }
        ensures { ReadsOne self.old (S.state source.old) result self.new (S.state source.new) }
    {
        self.elements.read(source)
    }

    // The weight of the next element, which may be zero.
    pub(crate) fn next_of_all<S: Source>(&mut self, source: &mut S) -> Option<u16>
        requires { Fits self.old.elements.window (unread (S.state source.old)) }
        ensures yields { Yields remaining_with_zeros window_of_weights self.old (S.state source.old) result self.new (S.state source.new) }
        ensures small { IfSome result (λ weight. weight < 2 ^ 16) }
        ensures held { is_asking self.old.elements ≡ false → WeighsHeld self.old (S.state source.old) result self.new (S.state source.new) }
        ensures level { self.new.level ≡ self.old.level }
        ensures table { self.new.elements.table ≡ self.old.elements.table }
        ensures bound { length self.new.elements.window.points ≤ longest self.new.elements.table + MAX_LOOKAHEAD }
    {
        let element = self.elements.next(source)?;
        Some(self.weigher.weigh_at(element, self.level))
    }

    /// The next weight, which is not zero. `None` at the end, and from then on.
    pub fn next<S: Source>(&mut self, source: &mut S) -> Option<u16>
        requires { Fits self.old.elements.window (unread (S.state source.old)) }
        ensures yields { Yields remaining_weights window_of_weights self.old (S.state source.old) result self.new (S.state source.new) }
        ensures weight { IfSome result (λ weight. (0 < weight) × (weight < 2 ^ 16)) }
        ensures level { self.new.level ≡ self.old.level }
        ensures table { self.new.elements.table ≡ self.old.elements.table }
        ensures bound { length self.new.elements.window.points ≤ longest self.new.elements.table + MAX_LOOKAHEAD }
    {
        while let Some(weight) = self.next_of_all(source) {
            if weight != 0 {
                return Some(weight);
            }
        }
        None
    }
}
