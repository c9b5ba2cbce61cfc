//! Primary weights of characters that stand alone and have at most two: by these most comparisons are decided.
#![tactic(auto, using(crate::proofs::PrimarySteps::characters, crate::proofs::StreamLemmas::steps))]

ghost use Rattle.std.specs.Prelude.{◌≡◌, ℕ, List, [], ◌∷◌, ◌<◌, Some, chars, drop, length, take, IfSome, OnSome};
ghost use Rattle.std.specs.Str.{IsCharBoundary};
ghost use Rattle.uca_weights.specs.VariableWeighting.{weighted};
ghost use Rattle.uca_model.specs.DecidingLevel.{OrdersLevel};
ghost use Rattle.uca_model.specs.LevelWeights.{level_list, level_weights};
ghost use Rattle.uca_model.specs.SafeText.{IsSafe};
ghost use Rattle.uca_model.specs.StandAlone.{joining};
ghost use Rattle.uca_match.specs.JoinsNothing.{JoinsNothing};
ghost use Rattle.uca_match.specs.Yields.{YieldsFirst};
ghost use Rattle.uca_levels.specs.Decides.{Decides, IsOfLevel};
ghost use Rattle.uca_levels.specs.Primaries.{after_first, first_weight, primary_of, weights_before};

use crate::cut::common_front;
use crate::decided::decided;
use std::cmp::Ordering;
use uca_table::Table;
use uca_weights::{Element, Variable};

/// The primary weights of a character: that of its first element, and that of its second, or zero where it has no such weight. The first
/// is zero where they are not known, so that both are returned in registers.
#[derive(Clone, Copy)]
pub(crate) struct Primaries {
    pub(crate) first: u16,
    pub(crate) second: u16,
}

// What is left of two texts after characters with the same primary weights.
#[derive(Clone, Copy)]
struct Rest<'t> {
    a: &'t str,
    b: &'t str,
}

/// The weight of an element at the first level, whatever comes before it (UTS #10, section 4, Variable Weighting).
#[inline(always)]
pub fn primary_weight(v: Variable, e: &Element) -> u16
    ensures { result ≡ primary_of v e.now }
{
    match v {
        Variable::NonIgnorable => e.l1,
        _ if e.starred => 0,
        _ => e.l1,
    }
}

/// Primary weights that are not known.
const UNKNOWN: Primaries = Primaries {
    first: 0,
    second: 0,
};

// The primary weights of elements of which the first has one, and at most the second of the others. They are known for one element and two.
#[inline(always)]
fn two_primaries(v: Variable, elements: &[Element]) -> Primaries
    ensures { 0 < result.first → level_weights 1 (weighted v elements.now) ≡ weights_before result [] }
{
    match elements {
        [e] => Primaries {
            first: primary_weight(v, e),
            second: 0,
        },
        [e, other] => Primaries {
            first: primary_weight(v, e),
            second: primary_weight(v, other),
        },
        _ => UNKNOWN,
    }
}

// The primary weight of a character that joins nothing before it, and whose elements no text after it changes. `None`: that is not known,
// or it has no primary weight or several.
#[inline(always)]
fn lead_primary(t: &Table, v: Variable, c: char) -> Option<u16>
    ensures joins { IfSome result (λ _. joining t.now c ≡ 0) }
    ensures some { IfSome result (λ w. 0 < w) }
    ensures own { IfSome result (λ w. (rest : List ℕ) → level_list t.now v (c ∷ rest) 1 ≡ w ∷ level_list t.now v rest 1) }
{
    if let Variable::NonIgnorable = v {
        if let Some(weight) = t.lead_weight(c) {
            return Some(weight);
        }
    }
    let weight = primary_weight(v, t.lead(c)?);
    if weight == 0 { None } else { Some(weight) }
}

// The primary weights of a character before other text, which may change its elements, where it joins nothing before it. It is not inlined,
// so that other characters do not pay for its registers.
#[inline(never)]
fn primaries_before(t: &Table, v: Variable, c: char, rest: &str) -> Primaries
    ensures joins { 0 < result.first → joining t.now c ≡ 0 }
    ensures own { 0 < result.first → level_list t.now v (c ∷ chars rest.now) 1 ≡ weights_before result (level_list t.now v (chars rest.now) 1) }
{
    if !t.joins_nothing(c) {
        return UNKNOWN;
    }
    match t.alone_before(c, rest) {
        Some(elements) => two_primaries(v, elements),
        None => UNKNOWN,
    }
}

// The same of any character.
#[inline(always)]
fn primaries_of(t: &Table, v: Variable, c: char, rest: &str) -> Primaries
    ensures joins { 0 < result.first → joining t.now c ≡ 0 }
    ensures own { 0 < result.first → level_list t.now v (c ∷ chars rest.now) 1 ≡ weights_before result (level_list t.now v (chars rest.now) 1) }
{
    match lead_primary(t, v, c) {
        Some(first) => Primaries { first, second: 0 },
        None => primaries_before(t, v, c, rest),
    }
}

// The primary weights of the first character of a text, or that the text is empty, and what is left of the text. It joins nothing before
// it, and the text after it does not change its elements. `None`: that is not known, or its first element has no primary weight, or it has
// more than two.
#[inline(always)]
fn own_primaries<'t>(t: &Table, v: Variable, text: &'t str) -> Option<(Option<Primaries>, &'t str)>
    ensures joins { OnSome result (JoinsNothing t.now (chars text.now)) }
    ensures first { IfSome result (λ r. YieldsFirst (level_list t.now v (chars text.now) 1) (first_weight r.0) (after_first r.0 (level_list t.now v (chars r.1.now) 1))) }
    ensures weight { IfSome result (λ r. IfSome (first_weight r.0) (IsOfLevel 1)) }
    ensures rest { IfSome result (λ r. chars r.1.now ≡ drop 1 (chars text.now)) }
    ensures shorter { IfSome result (λ r. IfSome r.0 (λ _. length r.1.now < length text.now)) }
{
    let mut characters = text.chars();
    let Some(c) = characters.next() else {
        return Some((None, text));
    };
    let rest = characters.as_str();
    let weights = primaries_of(t, v, c, rest);
    if weights.first == 0 {
        return None;
    }
    Some((Some(weights), rest))
}

// The first of the primary weights of a character, as a number.
#[inline(always)]
fn first_of(weights: Option<Primaries>) -> Option<u32>
    ensures { result ≡ first_weight weights }
{
    match weights {
        Some(weights) => Some(u32::from(weights.first)),
        None => None,
    }
}

// The order of two lists that go on with these weights. `None`: they are the same, or one of them is zero, and what its list goes on with is
// not known.
#[inline(always)]
fn decided_by_weights(x: u16, y: u16) -> Option<Ordering>
    ensures some { OnSome result ((0 < x) × (0 < y)) }
    ensures order { IfSome result (Decides (Some x) (Some y)) }
{
    if x == 0 || y == 0 {
        return None;
    }
    decided(Some(u32::from(x)), Some(u32::from(y)))
}

/// The order of two texts at the first level by turns: the bytes that they have in common are passed over, of which `common` are known at
/// first, the characters after them are compared, and so on, as far as each of these characters has a primary weight by itself. Most texts
/// differ in the first of them. `None`: that does not tell it.
#[inline(always)]
pub(crate) fn order_by_turns(
    t: &Table,
    v: Variable,
    a: &str,
    b: &str,
    common: usize,
) -> Option<Ordering>
    requires safe_a { IsSafe (chars a.now) }
    requires safe_b { IsSafe (chars b.now) }
    requires in_a { IsCharBoundary a.now common }
    requires in_b { IsCharBoundary b.now common }
    requires common { take common a.now ≡ take common b.now }
    ensures { IfSome result (OrdersLevel 1 (level_list t.now v (chars a.now) 1) (level_list t.now v (chars b.now) 1)) }
{
    let mut left = Rest { a, b };
    let mut same = common;
    'turns: loop {
        let (x, after_a) = own_primaries(t, v, left.a.split_at(same).1)?;
        let (y, after_b) = own_primaries(t, v, left.b.split_at(same).1)?;
        if let Some(order) = decided(first_of(x), first_of(y)) {
            return Some(order);
        }
        let (Some(x), Some(y)) = (x, y) else {
            return None;
        };
        if x.second != y.second {
            return decided_by_weights(x.second, y.second);
        }
        left = Rest {
            a: after_a,
            b: after_b,
        };
        same = common_front(left.a, left.b);
    }
}
