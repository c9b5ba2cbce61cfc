ghost use Rattle.std.specs.Prelude.{◌≡◌, ◌≤◌, ◌<◌, ◌∷◌, ◌++◌, [], false, None, Some, length, map, IfOk, MatchOption, MatchResult};
ghost use Rattle.std.specs.List.{list_any};
ghost use Rattle.uca_weights.specs.Element.{weight};
ghost use Rattle.uca_model.specs.Gap.{with_gap, cannot_move};
ghost use Rattle.uca_model.specs.Tailoring.{anchor_of, least, is_high, is_full, fault_at, raised};
ghost use Rattle.uca_tailor.specs.Steps.{anchor_as, Reports};

use crate::faults::TailorCause;
use crate::gap::{any_cannot_move, max_weight, with_gap};
use crate::renumbered::Renumbered;
use std::alloc::{AllocError, Global};
use uca_table::Element;

/// Elements up to the last that has a weight at a level.
#[derive(Clone, Copy)]
pub(crate) struct Anchor<'e> {
    pub(crate) before: &'e [Element],
    pub(crate) last: Element,
}

/// Elements without those at their end that have no weight at a level, 1 to 3.
pub(crate) fn anchor_of(level: u8, elements: &[Element]) -> Option<Anchor<'_>>
    requires first { 1 ≤ level }
    requires last { level ≤ 3 }
    ensures { MatchOption result (anchor_of level elements.now ≡ None) (λ a. anchor_of level elements.now ≡ Some (anchor_as a.before.now a.last)) }
{
    let mut n = elements.len();
    while n > 0 {
        let last = elements[n - 1];
        if last.weight(level) != 0 {
            return Some(Anchor {
                before: &elements[..n - 1],
                last,
            });
        }
        n -= 1;
    }
    None
}

/// The least weight at a level after which an item may be placed, so that implicit weights never move.
fn least(level: u8) -> u16
    ensures { result ≡ least level }
{
    match level {
        2 => 0x20,
        3 => 2,
        _ => 0,
    }
}

/// Whether some element has a primary weight as high as the implicit ones.
fn any_high(elements: &[Element]) -> bool
    ensures { result ≡ list_any is_high elements.now }
{
    elements.iter().any(|e| e.l1 >= 0x8000)
}

/// Whether no gap can be made above a weight, in a table and in the elements of an anchor.
fn is_full(
    alloc: Global,
    level: u8,
    w: u16,
    t: &mut Renumbered<'_>,
    elements: &[Element],
) -> Result<bool, AllocError>
    requires first { 1 ≤ level }
    requires last { level ≤ 3 }
    ensures full { IfOk result (λ full. full ≡ is_full level w t.old elements.now) }
    ensures same { t.new ≡ t.old }
{
    if w == max_weight(level) {
        return Ok(true);
    }
    if any_cannot_move(level, w, elements) {
        return Ok(true);
    }
    t.any_cannot_move(alloc, level, w)
}

/// Why no item can be placed after elements whose last weight at a level is `w`.
pub(crate) fn check_place(
    alloc: Global,
    level: u8,
    w: u16,
    t: &mut Renumbered<'_>,
    elements: &[Element],
) -> Result<(), TailorCause>
    requires first { 1 ≤ level }
    requires last { level ≤ 3 }
    ensures fault { MatchResult result (λ _. fault_at level w t.old elements.now ≡ None) (Reports (fault_at level w t.old elements.now)) }
    ensures same { t.new ≡ t.old }
{
    if w < least(level) {
        return Err(TailorCause::SmallWeight);
    }
    if any_high(elements) {
        return Err(TailorCause::HighReset);
    }
    if is_full(alloc, level, w, t, elements)? {
        return Err(TailorCause::Full(level));
    }
    Ok(())
}

/// The element next to one at a level.
fn raised(level: u8, e: Element) -> Element
    requires first { 1 ≤ level }
    requires last { level ≤ 3 }
    requires below { weight level e < 65535 }
    ensures { result ≡ raised level e }
{
    let mut next = e;
    match level {
        1 => {
            next.l1 = e.l1 + 1;
            next.l2 = 0x20;
            next.l3 = 2;
        }
        2 => {
            next.l2 = e.l2 + 1;
            next.l3 = 2;
        }
        _ => next.l3 = e.l3 + 1,
    }
    next
}

/// The elements of an item that is placed at a level directly after an element and those before it.
pub(crate) fn base_after(
    alloc: Global,
    level: u8,
    before: &[Element],
    last: Element,
) -> Result<Vec<Element>, AllocError>
    requires first { 1 ≤ level }
    requires last { level ≤ 3 }
    requires next { weight level last < 65535 }
    requires free { list_any (cannot_move level (weight level last)) before.now ≡ false }
    ensures { IfOk result (λ v. v.items ≡ map (with_gap level (weight level last)) before.now ++ raised level last ∷ []) }
{
    let w = last.weight(level);
    let mut base = Vec::with_capacity(alloc, before.len() + 1)?;
    for element in before {
        base.push(with_gap(level, w, *element))?;
    }
    base.push(raised(level, last))?;
    Ok(base)
}
