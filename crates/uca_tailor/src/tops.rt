//! Upper bounds of the weights of a table, so that a relation need not look at the whole table for a gap.
ghost use Rattle.std.specs.Prelude.{◌≡◌, ◌≤◌};
ghost use Rattle.uca_tailor.specs.Renumbered.{IsBelow, HaveTops};
ghost use Rattle.uca_tailor.specs.Tops.{raised, HoldsElements, IsAtMost};

use crate::gap::{moves, weight_with_gap};
use uca_table::{Element, Table};

/// For each level an upper bound of the weights of a table, apart from implicit ones.
#[derive(Clone, Copy)]
pub(crate) struct Tops {
    pub(crate) first: u16,
    pub(crate) second: u16,
    pub(crate) third: u16,
}

/// A weight, or the greatest one of the elements that is above it at a level, 1 to 3.
fn highest(level: u8, elements: &[Element], top: u16) -> u16
    requires first { 1 ≤ level }
    requires last { level ≤ 3 }
    ensures below { IsBelow level result elements.now }
    ensures more { top ≤ result }
{
    let mut highest = top;
    for element in elements {
        let weight = element.weight(level);
        if moves(level, highest, weight) {
            highest = weight;
        }
    }
    highest
}

impl Tops {
    /// The greatest weights of a table.
    pub(crate) fn of(t: &Table) -> Tops
        ensures { HaveTops result t.now }
    {
        let mut tops = Tops {
            first: 0,
            second: 0,
            third: 0,
        };
        for (_, elements) in t.entries() {
            tops = tops.over(elements);
        }
        tops
    }

    /// The same, and nothing above them in these elements.
    pub(crate) fn over(self, elements: &[Element]) -> Tops
        ensures elements { HoldsElements result elements.now }
        ensures more { IsAtMost self result }
    {
        Tops {
            first: highest(1, elements, self.first),
            second: highest(2, elements, self.second),
            third: highest(3, elements, self.third),
        }
    }

    /// The same after a gap was made above a weight at a level, 1 to 3.
    pub(crate) fn raised(self, level: u8, w: u16) -> Tops
        requires first { 1 ≤ level }
        requires last { level ≤ 3 }
        ensures { result ≡ raised level w self }
    {
        let mut raised = self;
        match level {
            1 => raised.first = weight_with_gap(1, w, self.first),
            2 => raised.second = weight_with_gap(2, w, self.second),
            _ => raised.third = weight_with_gap(3, w, self.third),
        }
        raised
    }

    /// The greatest weight at a level, 1 to 3.
    pub(crate) fn at(self, level: u8) -> u16
        ensures first { level ≡ 1 → result ≡ self.first }
        ensures second { level ≡ 2 → result ≡ self.second }
        ensures third { level ≡ 3 → result ≡ self.third }
    {
        match level {
            1 => self.first,
            2 => self.second,
            _ => self.third,
        }
    }
}
