ghost use Rattle.std.specs.Prelude.{◌≡◌, ◌<◌, ◌≤◌, ◌^◌, IfSome, chars, take};
ghost use Rattle.uca_model.specs.LevelWeights.{level_list};
ghost use Rattle.uca_model.specs.DecidingLevel.{OrdersLevel};
ghost use Rattle.uca_model.specs.SafeText.{IsSafe};
ghost use Rattle.uca_model.specs.SortKey.{key_order, sort_key};
ghost use Rattle.uca_window.specs.Passage.{text_of};
ghost use Rattle.uca_levels.specs.Streams.{cell_weights_left, given_before};

use crate::cell_weights::CellWeights;
use crate::comparison::compare_sources;
use crate::cut::{apart_after, front_of, without_front};
use crate::joined_weights::JoinedWeights;
use crate::primaries::order_by_turns;
use crate::stream::order_of;
use std::cmp::Ordering;
use uca_table::Table;
use uca_weights::{Settings, Variable};
use uca_window::{Passage, PassageSource};

// The order of two texts of which some characters do not stand alone. What the first gave and was not compared comes before its
// other weights. `None`: many characters join each other.
#[inline(never)]
fn order_of_joined(left: CellWeights, right: CellWeights, given: Option<u16>) -> Option<Ordering>
    requires level { left.level ≡ right.level }
    requires given { IfSome given (λ w. (0 < w) × (w < 2 ^ 16)) }
    ensures { IfSome result (OrdersLevel left.entry.level (given_before given (cell_weights_left left.entry)) (cell_weights_left right.entry)) }
{
    let mut left = JoinedWeights::after(left, given);
    let mut right = JoinedWeights::after(right, None);
    order_of(&mut left, &mut right).ok()
}

// The order of two texts at a level of weights, as far as their characters stand alone, and then as they are joined. `None`: many
// characters join each other.
#[inline(always)]
fn order_of_cells(t: &Table, v: Variable, level: u8, a: &str, b: &str) -> Option<Ordering>
    requires first { 1 ≤ level }
    requires last { level ≤ 4 }
    requires safe_a { IsSafe (chars a.now) }
    requires safe_b { IsSafe (chars b.now) }
    ensures { IfSome result (OrdersLevel level (level_list t.now v (chars a.now) level) (level_list t.now v (chars b.now) level)) }
{
    let mut left = CellWeights::new(t, v, level, a);
    let mut right = CellWeights::new(t, v, level, b);
    match order_of(&mut left, &mut right) {
        Ok(order) => Some(order),
        Err(undecided) => order_of_joined(left, right, undecided.given),
    }
}

// The order of two texts at a level of weights. `None`: many characters join each other. The first level of elements that keep their
// weights has a loop of its own, which asks for neither: there most comparisons end.
fn order_of_weights(t: &Table, v: Variable, level: u8, a: &str, b: &str) -> Option<Ordering>
    requires first { 1 ≤ level }
    requires last { level ≤ 4 }
    requires safe_a { IsSafe (chars a.now) }
    requires safe_b { IsSafe (chars b.now) }
    ensures { IfSome result (OrdersLevel level (level_list t.now v (chars a.now) level) (level_list t.now v (chars b.now) level)) }
{
    match (v, level) {
        (Variable::NonIgnorable, 1) => order_of_cells(t, Variable::NonIgnorable, 1, a, b),
        _ => order_of_cells(t, v, level, a, b),
    }
}

// The order of two texts at the first level, if it is not known. It begins at the last place in the bytes that both begin with, if there
// are any, at which both may be cut for their elements. `None`: many characters join each other. The letters of most scripts have one
// primary weight, and most texts differ in one soon.
#[inline(always)]
fn order_at_first(
    t: &Table,
    v: Variable,
    a: &str,
    b: &str,
    common: usize,
    known: Option<Ordering>,
) -> Option<Ordering>
    requires safe_a { IsSafe (chars a.now) }
    requires safe_b { IsSafe (chars b.now) }
    requires common { take common a.now ≡ take common b.now }
    requires known { IfSome known (OrdersLevel 1 (level_list t.now v (chars a.now) 1) (level_list t.now v (chars b.now) 1)) }
    ensures { IfSome result (OrdersLevel 1 (level_list t.now v (chars a.now) 1) (level_list t.now v (chars b.now) 1)) }
{
    if let Some(order) = known {
        return Some(order);
    }
    let (left_a, left_b) = apart_after(t, a, b, common);
    order_of_weights(t, v, 1, left_a, left_b)
}

// The order of two texts at the first four levels, as many of them as there are. In the bytes that both begin with, the first level
// begins at the last place at which both texts may be cut for their elements, and later levels at the last one at which they may be cut
// for all weights. `None`: the fifth level is asked for, or many characters join each other.
fn order_by_weights(
    t: &Table,
    s: Settings,
    a: &str,
    b: &str,
    common: usize,
    known: Option<Ordering>,
) -> Option<Ordering>
    requires safe_a { IsSafe (chars a.now) }
    requires safe_b { IsSafe (chars b.now) }
    requires common { take common a.now ≡ take common b.now }
    requires known { IfSome known (OrdersLevel 1 (level_list t.now s.weighting (chars a.now) 1) (level_list t.now s.weighting (chars b.now) 1)) }
    ensures { IfSome result (λ order. order ≡ key_order (sort_key t.now s (chars a.now)) (sort_key t.now s (chars b.now))) }
{
    let _longest = t.longest();
    let order = order_at_first(t, s.weighting, a, b, common, known)?;
    if order.is_ne() {
        return Some(order);
    }
    let (left_a, left_b) = without_front(t, a, b, common);
    let last = s.levels();
    let mut level = 2;
    'each: while level <= last {
        if level == 5 {
            return None;
        }
        let order = order_of_weights(t, s.weighting, level, left_a, left_b)?;
        if order.is_ne() {
            return Some(order);
        }
        level += 1;
    }
    Some(Ordering::Equal)
}

// The order of two texts by windows over what is left of them from the last place on at which both may be cut.
fn order_by_sources(t: &Table, s: Settings, a: &str, b: &str, common: usize) -> Ordering
    requires safe_a { IsSafe (chars a.now) }
    requires safe_b { IsSafe (chars b.now) }
    requires common { take common a.now ≡ take common b.now }
    ensures { result ≡ key_order (sort_key t.now s (chars a.now)) (sort_key t.now s (chars b.now)) }
{
    let _longest = t.longest();
    let (left_a, left_b) = without_front(t, a, b, common);
    let mut left = PassageSource::new(&Passage::of_safe(left_a));
    let mut right = PassageSource::new(&Passage::of_safe(left_b));
    compare_sources(t, s, &mut left, &mut right)
}

// The order of two texts, which may begin with bytes in common, if that at the first level is not known or they do not differ there. It
// is not inlined, so that a comparison that ends at the first level does not pay for its stack frame.
#[inline(never)]
fn order_after(
    t: &Table,
    s: Settings,
    a: &str,
    b: &str,
    common: usize,
    known: Option<Ordering>,
) -> Ordering
    requires safe_a { IsSafe (chars a.now) }
    requires safe_b { IsSafe (chars b.now) }
    requires common { take common a.now ≡ take common b.now }
    requires known { IfSome known (OrdersLevel 1 (level_list t.now s.weighting (chars a.now) 1) (level_list t.now s.weighting (chars b.now) 1)) }
    ensures { result ≡ key_order (sort_key t.now s (chars a.now)) (sort_key t.now s (chars b.now)) }
{
    match order_by_weights(t, s, a, b, common, known) {
        Some(order) => order,
        None => order_by_sources(t, s, a, b, common),
    }
}

// The order of two texts. Most comparisons end at the first level.
#[inline(always)]
fn order_of_texts(t: &Table, s: Settings, a: &str, b: &str) -> Ordering
    requires safe_a { IsSafe (chars a.now) }
    requires safe_b { IsSafe (chars b.now) }
    ensures { result ≡ key_order (sort_key t.now s (chars a.now)) (sort_key t.now s (chars b.now)) }
{
    let common = front_of(a, b);
    let known = order_by_turns(t, s.weighting, a, b, common);
    if let Some(order) = known {
        if order.is_ne() {
            return order;
        }
        if common == a.len() && common == b.len() {
            return Ordering::Equal;
        }
    }
    order_after(t, s, a, b, common, known)
}

/// The order of the sort keys of two texts (UTS #10, section 7.4, step S4), without their keys. It does not allocate.
///
/// The bytes that both texts begin with are passed over. Only where the fifth level decides, or where many characters join each other,
/// [`compare_sources`] compares what is left of the texts from the last place on at which both may be cut.
#[inline(always)]
pub fn compare(t: &Table, s: Settings, a: &Passage, b: &Passage) -> Ordering
    ensures { result ≡ key_order (sort_key t.now s (text_of a.now)) (sort_key t.now s (text_of b.now)) }
{
    order_of_texts(t, s, a.as_str(), b.as_str())
}
