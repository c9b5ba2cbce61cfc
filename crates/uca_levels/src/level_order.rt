ghost use Rattle.std.specs.Prelude.{◌≤◌};
ghost use Rattle.uca_model.specs.LevelWeights.{level_list};
ghost use Rattle.uca_model.specs.DecidingLevel.{OrdersLevel};
ghost use Rattle.uca_model.specs.SafeText.{IsSafe};
ghost use Rattle.uca_model.specs.Source.{unread};
ghost use Rattle.uca_model.specs.Window.{Fits, ReadsOn};
ghost use Rattle.uca_levels.specs.RemainingWeights.{remaining_weights};
ghost use Rattle.uca_levels.specs.Reads.{ReadsRest};

use crate::decided::{as_number, decided, widened};
use crate::points::Points;
use crate::weights::Weights;
use std::cmp::Ordering;
use uca_table::Table;
use uca_weights::Variable;
use uca_window::Source;

// The order of the remaining weights of two texts.
pub(crate) fn order_of_remaining<'t, S: Source, T: Source>(
    left: &mut Weights<'t>,
    right: &mut Weights<'t>,
    a: &mut S,
    b: &mut T,
) -> Ordering
    requires last { left.old.level ≤ 4 }
    requires fits_a { Fits left.old.elements.window (unread (S.state a.old)) }
    requires fits_b { Fits right.old.elements.window (unread (T.state b.old)) }
    ensures order { OrdersLevel left.old.level (remaining_weights left.old (unread (S.state a.old))) (remaining_weights right.old (unread (T.state b.old))) result }
    ensures reads_a { ReadsOn left.old.elements.window (S.state a.old) left.new.elements.window (S.state a.new) }
    ensures reads_b { ReadsOn right.old.elements.window (T.state b.old) right.new.elements.window (T.state b.new) }
{
    loop {
        let x = left.next(a);
        let y = right.next(b);
        if let Some(order) = decided(widened(x), widened(y)) {
            return order;
        }
    }
}

// The order of what two sources have not given yet by code points in NFD.
fn order_of_points<S: Source, T: Source>(t: &Table, v: Variable, a: &mut S, b: &mut T) -> Ordering
    requires safe_a { IsSafe (unread (S.state a.old)) }
    requires safe_b { IsSafe (unread (T.state b.old)) }
    ensures order { OrdersLevel 5 (level_list t.now v (unread (S.state a.old)) 5) (level_list t.now v (unread (T.state b.old)) 5) result }
    ensures reads_a { ReadsRest (S.state a.old) (S.state a.new) }
    ensures reads_b { ReadsRest (T.state b.old) (T.state b.new) }
{
    let mut one = Points::new();
    let mut other = Points::new();
    loop {
        let x = one.next(a);
        let y = other.next(b);
        if let Some(order) = decided(as_number(x), as_number(y)) {
            return order;
        }
    }
}

/// The order of what two sources have not given yet at one level. Each is read on, once at most.
pub(crate) fn order_of_level<S: Source, T: Source>(
    t: &Table,
    v: Variable,
    level: u8,
    a: &mut S,
    b: &mut T,
) -> Ordering
    requires first { 1 ≤ level }
    requires last { level ≤ 5 }
    requires safe_a { IsSafe (unread (S.state a.old)) }
    requires safe_b { IsSafe (unread (T.state b.old)) }
    ensures order { OrdersLevel level (level_list t.now v (unread (S.state a.old)) level) (level_list t.now v (unread (T.state b.old)) level) result }
    ensures reads_a { ReadsRest (S.state a.old) (S.state a.new) }
    ensures reads_b { ReadsRest (T.state b.old) (T.state b.new) }
{
    if level == 5 {
        return order_of_points(t, v, a, b);
    }
    let mut left = Weights::new(t, v, level);
    let mut right = Weights::new(t, v, level);
    order_of_remaining(&mut left, &mut right, a, b)
}
