ghost use Rattle.std.specs.Prelude.{◌≡◌, ◌&&◌, not, fold, map};
ghost use Rattle.std.specs.List.{list_any};
ghost use Rattle.uca_weights.specs.Element.{is_variable};
ghost use Rattle.uca_model.specs.WellFormed.{all_elements, broken, is_broken, lacks_its_front, wf5};
ghost use Rattle.uca_table.specs.Bounds.{bounded, condition_of, is_against, unbounded};

use crate::table::Table;
use arrayvec::ArrayVec;
use thiserror::Error;
use uca_weights::Element;
use unicode_normalization::char::canonical_combining_class;

/// A condition of well-formedness (UTS #10, section 5).
#[derive(Clone, Copy, Debug, Default, PartialEq, Eq, Error)]
#[error("{:?}", self)]
pub enum WellFormed {
    /// Where a weight is not zero, neither is the one at the next level. Elements with a primary weight of 8000 or more
    /// are exempt.
    #[default]
    WF1,
    /// A secondary weight without a primary one is above all secondary weights with one, and a tertiary weight without
    /// the others is above all tertiary weights with one of them.
    WF2,
    /// What is marked as variable has a primary weight.
    WF3,
    /// No primary weight of another element lies between those of variable elements.
    WF4,
    /// A key of more than two code points that ends in a nonstarter is also a key without it.
    WF5,
}

/// All conditions, in their order.
const CONDITIONS: [WellFormed; 5] = [
    WellFormed::WF1,
    WellFormed::WF2,
    WellFormed::WF3,
    WellFormed::WF4,
    WellFormed::WF5,
];

/// The conditions that the entries of a table break, each once, `WF1` first (UTS #10, section 5). It ignores implicit
/// elements.
pub fn lint(t: &Table) -> ArrayVec<WellFormed, 5>
    ensures { map condition_of result.items ≡ broken t.now }
{
    let bounds = bounds_of(t);
    let mut broken = ArrayVec::new();
    for condition in CONDITIONS {
        if is_broken(t, bounds, condition) {
            broken.push(condition);
        }
    }
    broken
}

// Whether the table, whose elements have these bounds, breaks a condition.
#[tactic(auto, using(crate::proofs::BoundsLemmas::against_all))]
fn is_broken(t: &Table, bounds: Bounds, condition: WellFormed) -> bool
    requires { bounds ≡ fold bounded unbounded (all_elements t.now) }
    ensures { result ≡ is_broken t.now (condition_of condition) }
{
    match condition {
        WellFormed::WF5 => has_key_without_front(t),
        _ => has_element_against(t, bounds, condition),
    }
}

/// The weights of a table's elements that its other elements have to keep apart from.
#[derive(Clone, Copy, Default)]
struct Bounds {
    // The highest secondary weight of elements with a primary one.
    secondary: u16,
    // The highest tertiary weight of elements with a primary or a secondary one.
    tertiary: u16,
    // The lowest primary weight of variable elements, 0 where there is none.
    lowest: u16,
    // The highest primary weight of variable elements.
    highest: u16,
}

impl Bounds {
    // The bounds with those of one more element.
    fn with(self, e: Element) -> Bounds
        ensures { result ≡ bounded self e }
    {
        let mut bounds = self;
        if e.l1 != 0 {
            bounds.secondary = bounds.secondary.max(e.l2);
        }
        if e.l1 != 0 || e.l2 != 0 {
            bounds.tertiary = bounds.tertiary.max(e.l3);
        }
        if is_variable(e) {
            if bounds.lowest == 0 || e.l1 < bounds.lowest {
                bounds.lowest = e.l1;
            }
            bounds.highest = bounds.highest.max(e.l1);
        }
        bounds
    }

    // The element breaks one of the first four conditions.
    fn is_against(self, condition: WellFormed, e: Element) -> bool
        ensures { result ≡ is_against self condition e }
    {
        match condition {
            WellFormed::WF1 => {
                e.l1 < 0x8000 && ((e.l1 != 0 && e.l2 == 0) || (e.l2 != 0 && e.l3 == 0))
            }
            // A weight that has none at the levels before it is not above all that have one.
            WellFormed::WF2 => {
                (e.l1 == 0 && e.l2 != 0 && e.l2 <= self.secondary)
                    || (e.l1 == 0 && e.l2 == 0 && e.l3 != 0 && e.l3 <= self.tertiary)
            }
            WellFormed::WF3 => e.starred && e.l1 == 0,
            // It lies between two variable ones.
            WellFormed::WF4 => {
                !is_variable(e) && self.lowest != 0 && self.lowest <= e.l1 && e.l1 <= self.highest
            }
            WellFormed::WF5 => false,
        }
    }
}

fn is_variable(e: Element) -> bool
    ensures { result ≡ is_variable e }
{
    e.starred && e.l1 != 0
}

// The bounds of all elements of the table.
fn bounds_of(t: &Table) -> Bounds
    ensures { result ≡ fold bounded unbounded (all_elements t.now) }
{
    let mut bounds = Bounds::default();
    for (_, elements) in t.entries() {
        bounds = elements.iter().fold(bounds, |bounds, e| bounds.with(*e));
    }
    bounds
}

// Some element of the table breaks one of the first four conditions.
fn has_element_against(t: &Table, bounds: Bounds, condition: WellFormed) -> bool
    ensures { result ≡ list_any (is_against bounds condition) (all_elements t.now) }
{
    for (_, elements) in t.entries() {
        if any_against(elements, bounds, condition) {
            return true;
        }
    }
    false
}

fn any_against(elements: &[Element], bounds: Bounds, condition: WellFormed) -> bool
    ensures { result ≡ list_any (is_against bounds condition) elements.now }
{
    elements.iter().any(|e| bounds.is_against(condition, *e))
}

fn lacks_its_front(t: &Table, key: &[char]) -> bool
    ensures { result ≡ lacks_its_front t.now key.now }
{
    let n = key.len();
    if n <= 2 {
        return false;
    }
    canonical_combining_class(key[n - 1]) != 0 && t.get(&key[..n - 1]).is_none()
}

fn has_key_without_front(t: &Table) -> bool
    ensures { result ≡ is_broken t.now wf5 }
{
    for (key, _) in t.entries() {
        if lacks_its_front(t, key.as_slice()) {
            return true;
        }
    }
    false
}
