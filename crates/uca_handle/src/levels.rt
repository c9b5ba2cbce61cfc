// The order of two texts with the level that decides it.
ghost use Rattle.std.specs.Prelude.{◌≡◌, ◌≤◌};
ghost use Rattle.uca_weights.specs.Settings.{levels};
ghost use Rattle.uca_model.specs.DecidingLevel.{deciding_level};
ghost use Rattle.uca_model.specs.SortKey.{key_order, sort_key};
ghost use Rattle.uca_window.specs.Passage.{text_of};
ghost use Rattle.uca_handle.specs.Levels.{ComparesLevelsBy};

use crate::faults::CompareFault;
use crate::texts::fault_of;
use std::cmp::Ordering;
use uca_levels::compare;
use uca_table::Table;
use uca_weights::{Settings, Strength};
use uca_window::Passage;

/// The order of two texts, and the level that decides it.
#[derive(Clone, Copy, Debug, PartialEq, Eq)]
pub struct Decision {
    pub order: Ordering,
    /// The first level at which the texts differ, or the last that is compared where they do not.
    pub level: u8,
}

/// The strength that compares so many levels.
fn strength_of(level: u8) -> Strength
    requires first { 1 ≤ level }
    requires last { level ≤ 5 }
    ensures { levels result ≡ level }
{
    match level {
        1 => Strength::Primary,
        2 => Strength::Secondary,
        3 => Strength::Tertiary,
        4 => Strength::Quaternary,
        _ => Strength::Identical,
    }
}

/// The order of two texts with the level that decides it: the lowest strength at which they differ has that level as its last.
fn decide(t: &Table, s: Settings, a: &Passage, b: &Passage) -> Decision
    ensures order { result.order ≡ key_order (sort_key t.now s (text_of a.now)) (sort_key t.now s (text_of b.now)) }
    ensures level { result.level ≡ deciding_level t.now s (text_of a.now) (text_of b.now) }
{
    // Shows that the table is one, and that the texts have characters.
    let _longest = t.longest();
    let (_text_a, _text_b) = (a.as_str(), b.as_str());
    let last = s.levels();
    for level in 1..last {
        let upto = Settings {
            strength: strength_of(level),
            weighting: s.weighting,
        };
        let order = compare(t, upto, a, b);
        if order.is_ne() {
            return Decision { order, level };
        }
    }
    Decision {
        order: compare(t, s, a, b),
        level: last,
    }
}

/// The same of two texts in bytes, or the fault of the first of them that has one.
pub(crate) fn decision_of(
    t: &Table,
    s: Settings,
    a: &[u8],
    b: &[u8],
) -> Result<Decision, CompareFault>
    ensures { ComparesLevelsBy t.now s a.now b.now result }
{
    if let Some(fault) = fault_of(a, b) {
        return Err(fault);
    }
    let (left, right) = (Passage::of_checked(a), Passage::of_checked(b));
    Ok(decide(t, s, &left, &right))
}
