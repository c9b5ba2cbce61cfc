ghost use Rattle.std.specs.Prelude.{◌≡◌, ◌+◌, ◌≤◌, ◌<◌, ◌^◌, ◌++◌, Ok, length, map, All, IfOk, MatchResult, if◌then◌else◌, is_some};
ghost use Rattle.uca_model.specs.CollationElements.{elements};
ghost use Rattle.uca_model.specs.Rules.{IsRelation};
ghost use Rattle.uca_model.specs.Tailoring.{placed_after, placed, entered, related, related_all, tailored};
ghost use Rattle.uca_tailor.specs.Chains.{operator_of, relation_of};
ghost use Rattle.uca_tailor.specs.Faults.{reported_cause, RefusesRelation};
ghost use Rattle.uca_tailor.specs.Steps.{Refuses, placed_as, related_as};

use crate::anchor::{anchor_of, base_after, check_place};
use crate::faults::{TailorCause, TailorFault};
use crate::renumbered::{Renumbered, elements_under};
use crate::rules::{Op, Relation, Rules};
use std::alloc::{AllocError, Global};
use uca_table::{Element, Table};
use uca_weights::MAX_ELEMENTS;

/// Makes a gap after elements at a level, 1 to 3, and returns the elements of an item that is placed there.
fn place_after(
    alloc: Global,
    t: &mut Renumbered<'_>,
    level: u8,
    elements: &[Element],
) -> Result<Vec<Element>, TailorCause>
    requires first { 1 ≤ level }
    requires last { level ≤ 3 }
    ensures placed { MatchResult result (λ base. placed_after level t.old elements.now ≡ Ok (placed_as base.items t.new)) (Refuses (placed_after level t.old elements.now)) }
    ensures some { IfOk result (λ base. 0 < length base.items) }
{
    let Some(anchor) = anchor_of(level, elements) else {
        return Err(TailorCause::SmallWeight);
    };
    let w = anchor.last.weight(level);
    check_place(alloc, level, w, t, elements)?;
    let base = base_after(alloc, level, anchor.before, anchor.last)?;
    t.make_gap(level, w)?;
    Ok(base)
}

/// Makes a gap where an operator places an item, and returns the item's elements without those of its expansion.
fn place(
    alloc: Global,
    t: &mut Renumbered<'_>,
    anchor: &[Element],
    op: Op,
) -> Result<Vec<Element>, TailorCause>
    requires { 0 < length anchor.now }
    ensures placed { MatchResult result (λ base. placed t.old anchor.now (operator_of op) ≡ Ok (placed_as base.items t.new)) (Refuses (placed t.old anchor.now (operator_of op))) }
    ensures some { IfOk result (λ base. 0 < length base.items) }
{
    match op {
        Op::First => place_after(alloc, t, 1, anchor),
        Op::Second => place_after(alloc, t, 2, anchor),
        Op::Third => place_after(alloc, t, 3, anchor),
        Op::Same => Ok(anchor.to_vec(alloc)?),
    }
}

/// The elements of an item: those of its place, and those of its expansion (UTS #35, Part 5, section 3.6, Expansions).
fn whole_of(
    alloc: Global,
    t: &Renumbered<'_>,
    base: &[Element],
    expansion: &[char],
) -> Result<Vec<Element>, AllocError>
    ensures { IfOk result (λ v. v.items ≡ base.now ++ elements t.now expansion.now) }
{
    let mut whole = base.to_vec(alloc)?;
    let others = elements_under(alloc, t, expansion)?;
    whole.extend_from_slice(&others)?;
    Ok(whole)
}

/// Adds an item with the elements of its place and of its expansion.
fn enter(
    alloc: Global,
    t: &mut Renumbered<'_>,
    base: &[Element],
    r: &Relation,
) -> Result<(), TailorCause>
    requires some { 0 < length base.now }
    requires valid { IsRelation (relation_of r.now) }
    ensures { let meant = entered r.now.item.items (placed_as base.now t.old) (base.now ++ elements t.old r.now.expansion.items) in MatchResult result (λ _. meant ≡ Ok (related_as t.new base.now)) (Refuses meant) }
{
    let whole = whole_of(alloc, t, base, &r.expansion)?;
    if whole.len() > MAX_ELEMENTS {
        return Err(TailorCause::TooManyElements);
    }
    t.put(alloc, &r.item, &whole)?;
    Ok(())
}

/// Applies one relation to a table, and returns the anchor of the next: the item's elements without those of its
/// expansion. After a fault the contents of the table are unspecified.
fn relate(
    alloc: Global,
    t: &mut Renumbered<'_>,
    anchor: &[Element],
    r: &Relation,
) -> Result<Vec<Element>, TailorCause>
    requires some { 0 < length anchor.now }
    requires valid { IsRelation (relation_of r.now) }
    ensures related { MatchResult result (λ next. related t.old anchor.now (relation_of r.now) ≡ Ok (related_as t.new next.items)) (Refuses (related t.old anchor.now (relation_of r.now))) }
    ensures some { IfOk result (λ next. 0 < length next.items) }
{
    let base = place(alloc, t, anchor, r.op)?;
    enter(alloc, t, &base, r)?;
    Ok(base)
}

/// The fault of a relation; an allocation failure belongs to no relation.
fn fault_of(relation: u64, cause: TailorCause) -> TailorFault
    ensures cause { result.cause ≡ cause }
    ensures relation { result.relation ≡ (if is_some (reported_cause cause) then relation else 0) }
{
    match cause {
        TailorCause::OutOfMemory => TailorFault { relation: 0, cause },
        _ => TailorFault { relation, cause },
    }
}

/// Applies the relations of a chain to a table, after this many others.
fn relate_all(
    alloc: Global,
    t: &mut Renumbered<'_>,
    reset: Vec<Element>,
    relations: &[Relation],
    before: u64,
) -> Result<(), TailorFault>
    requires some { 0 < length reset.items }
    requires valid { All IsRelation (map relation_of relations.now) }
    requires count { before + length relations.now < 2 ^ 64 }
    ensures { let meant = related_all before t.old reset.items (map relation_of relations.now) in MatchResult result (λ _. meant ≡ Ok t.new) (RefusesRelation meant) }
{
    let mut anchor = reset;
    let mut count = before;
    for r in relations {
        count += 1;
        match relate(alloc, t, &anchor, r) {
            Ok(next) => anchor = next,
            Err(cause) => return Err(fault_of(count, cause)),
        }
    }
    Ok(())
}

/// Applies the relations of all chains to a table. After a fault the contents of the table are unspecified.
fn relate_chains(alloc: Global, t: &mut Renumbered<'_>, r: &Rules) -> Result<(), TailorFault>
    ensures { let meant = tailored t.old r.now in MatchResult result (λ _. meant ≡ Ok t.new) (RefusesRelation meant) }
{
    let mut count = 0;
    for chain in r.chains() {
        let reset = elements_under(alloc, t, &chain.reset)?;
        relate_all(alloc, t, reset, &chain.relations, count)?;
        count += chain.relations.len() as u64;
    }
    Ok(())
}

/// The table tailored by rules (a profile of UTS #35, Part 5, section 3.5, Orderings), or the fault of the first relation
/// that has one. The relations are applied in the order of the text; how weights are assigned is this project's own.
/// The entries are copied once, after the last relation.
pub fn tailor(alloc: Global, t: &Table, r: &Rules) -> Result<Table, TailorFault>
    ensures { MatchResult result (λ u. tailored t.now r.now ≡ Ok u) (RefusesRelation (tailored t.now r.now)) }
{
    let mut tailored = Renumbered::new(alloc, t);
    relate_chains(alloc, &mut tailored, r)?;
    Ok(tailored.to_table(alloc)?)
}
