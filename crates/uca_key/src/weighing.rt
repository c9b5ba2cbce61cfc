// Variable weighting that is carried out on elements where they lie, so that each says its weights without those before it.
#![tactic(auto, using(crate::proofs::WeighingLemmas::weight_steps))]

ghost use Rattle.std.specs.Prelude.{◌≡◌, ◌≤◌, ◌-◌, ◌++◌, List, length, slice_index};
ghost use Rattle.uca_weights.specs.declared.element.Element.{Element};
ghost use Rattle.uca_weights.specs.VariableWeighting.{weights};
ghost use Rattle.uca_weights.specs.Weigher.{after_element, weighted_from};
ghost use Rattle.uca_key.specs.Weighing.{all_own, fourth_of, own_weights};

use std::mem::replace;
use uca_levels::primary_weight;
use uca_weights::{Element, Variable, Weigher};

// Carries out the variable weighting of an element. It keeps its primary weight, which the fourth level shows where it is variable.
#[inline(always)]
fn weighed(weigher: &mut Weigher, e: Element) -> Element
    ensures weights { own_weights weigher.old.weighting result ≡ weights weigher.old.weighting weigher.old.after e }
    ensures moved { weigher.new ≡ record weigher.old { after = after_element weigher.old.after e } }
{
    let [_, second, third, _] = weigher.weigh(e);
    Element {
        starred: e.starred && e.l1 != 0,
        l1: e.l1,
        l2: second,
        l3: third,
    }
}

// The same of elements one by one.
fn weigh_each(weigher: &mut Weigher, elements: &mut [Element])
    ensures weights { (es : List Element) → weighted_from weigher.old (elements.old ++ es) ≡ all_own weigher.old.weighting elements.new ++ weighted_from weigher.new es }
    ensures option { weigher.new.weighting ≡ weigher.old.weighting }
{
    // In the loop it is a local, since an element could otherwise be a part of it.
    let mut seen = replace(weigher, Weigher::new(Variable::NonIgnorable));
    for n in 0..elements.len() {
        elements[n] = weighed(&mut seen, elements[n]);
    }
    *weigher = seen;
}

/// Carries out the variable weighting of elements. The weigher has seen those before them.
#[inline(always)]
pub(crate) fn weigh_all(v: Variable, weigher: &mut Weigher, elements: &mut [Element])
    requires { weigher.old.weighting ≡ v }
    ensures weights { (es : List Element) → weighted_from weigher.old (elements.old ++ es) ≡ all_own v elements.new ++ weighted_from weigher.new es }
    ensures option { weigher.new.weighting ≡ v }
{
    match v {
        Variable::NonIgnorable => {}
        _ => weigh_each(weigher, elements),
    }
}

// The weight at the fourth level of an element that was weighed.
#[inline(always)]
fn fourth_weight(v: Variable, e: &Element) -> u16
    ensures { result ≡ fourth_of v e.now }
{
    match v {
        Variable::NonIgnorable | Variable::Blanked => 0,
        Variable::Shifted if e.starred => e.l1,
        Variable::Shifted if e.l1 == 0 && e.l2 == 0 && e.l3 == 0 => 0,
        Variable::Shifted => 0xffff,
    }
}

/// The weight at a level from 1 to 4 of an element that was weighed.
#[inline(always)]
pub(crate) fn own_weight(v: Variable, e: &Element, level: u8) -> u16
    requires first { 1 ≤ level }
    requires last { level ≤ 4 }
    ensures { result ≡ slice_index (own_weights v e.now) (level - 1) }
{
    match level {
        1 => primary_weight(v, e),
        2 => e.l2,
        3 => e.l3,
        _ => fourth_weight(v, e),
    }
}
