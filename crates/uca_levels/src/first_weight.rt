ghost use Rattle.std.specs.Prelude.{IfSome};
ghost use Rattle.uca_model.specs.Table.{IsTable};
ghost use Rattle.uca_levels.specs.FirstWeight.{BringsWeight, OrderTexts};

use crate::decided::{decided, widened};
use std::cmp::Ordering;
use uca_table::Table;
use uca_weights::{Variable, Weigher};
use unicode_normalization::Form;
use unicode_normalization::char::decomposition;

// The primary weight that a character has in each text, where nothing around it can change it, or that a text ends and has none.
fn first_weight(t: &Table, v: Variable, x: Option<char>) -> Option<Option<u16>>
    requires { IsTable t.now }
    ensures { IfSome result (BringsWeight t.now v x) }
{
    let Some(c) = x else {
        return Some(None);
    };
    let mut room = [c; 3];
    let points = decomposition(c, Form::Nfd, &mut room);
    let (starter, _marks) = points.split_first()?;
    if !t.safe_starter(*starter) {
        return None;
    }
    let elements = t.always_alone(*starter)?;
    let (first, _others) = elements.split_first()?;
    let mut weigher = Weigher::new(v);
    let weight = weigher.weigh_at(*first, 1);
    if weight == 0 {
        return None;
    }
    Some(Some(weight))
}

/// The order at the first level of two texts with a common front, after which they go on with these characters or end.
/// `None`: more of the texts decides it.
pub(crate) fn order_by_first(
    t: &Table,
    v: Variable,
    x: Option<char>,
    y: Option<char>,
) -> Option<Ordering>
    requires { IsTable t.now }
    ensures { IfSome result (λ order. OrderTexts t.now v x y order) }
{
    let left = first_weight(t, v, x)?;
    let right = first_weight(t, v, y)?;
    decided(widened(left), widened(right))
}
