//! Counts the weights of a level of a table that is tailored: those of the items, and those of the given entries as they have moved.
ghost use Rattle.std.specs.Prelude.{◌≡◌, ℕ, ◌≤◌, ◌+◌, length, map, IfOk};
ghost use Rattle.std.specs.FinMap.{entries};
ghost use Rattle.std.specs.List.{AllByRecursion};
ghost use Rattle.uca_model.proofs.WeightLemmas.{Fits};
ghost use Rattle.uca_model.specs.Gap.{max_weight};
ghost use Rattle.uca_tailor.specs.Copy.{item_entries};
ghost use Rattle.uca_tailor.specs.Counting.{count_shown, AreInOrder};
ghost use Rattle.uca_tailor.specs.Counts.{count_at, count_in, AreAllCounts, AreCapped};
ghost use Rattle.uca_tailor.specs.Moves.{IsPast, cut, moved_element};
ghost use Rattle.uca_tailor.specs.Renumbered.{renumbered, IsItem};

use crate::counts::add_one;
use crate::gap::max_weight;
use crate::items::Item;
use crate::moves::{Moves, START, Stamp};
use std::alloc::{AllocError, Global};
use std::collections::BTreeMap;
use uca_table::{Element, Table};

/// Counts elements that were added after the first gaps, as they have moved since.
fn add_moved(level: u8, counts: &mut [u32], moves: &Moves, after: Stamp, elements: &[Element])
    requires first { 1 ≤ level }
    requires last { level ≤ 3 }
    requires past { IsPast moves.now after }
    ensures size { length counts.new ≡ length counts.old }
    ensures capped { (n : ℕ → ℕ) → AreCapped counts.old n → AreCapped counts.new (λ x. n x + count_at level x (map cut (map (moved_element moves.now after) elements.now))) }
{
    for element in elements {
        add_one(counts, moves.moved(after, *element).weight(level));
    }
}

/// Counts the elements of all items.
fn add_items(level: u8, counts: &mut [u32], moves: &Moves, items: &BTreeMap<Vec<char>, Item>)
    requires first { 1 ≤ level }
    requires last { level ≤ 3 }
    requires entered { AllByRecursion (λ i. IsItem moves.now i.1) items.now.entries }
    ensures size { length counts.new ≡ length counts.old }
    ensures capped { (n : ℕ → ℕ) → AreCapped counts.old n → AreCapped counts.new (λ x. n x + count_in level x (item_entries moves.now items.now.entries)) }
    ensures order { AreInOrder items.now.entries }
{
    for (_, item) in items.iter() {
        add_moved(level, counts, moves, item.after, &item.elements);
    }
}

/// Counts the elements of the entries of a table that no item hides.
fn add_entries(
    level: u8,
    counts: &mut [u32],
    moves: &Moves,
    items: &BTreeMap<Vec<char>, Item>,
    t: &Table,
)
    requires first { 1 ≤ level }
    requires last { level ≤ 3 }
    ensures size { length counts.new ≡ length counts.old }
    ensures capped { (n : ℕ → ℕ) → AreCapped counts.old n → AreCapped counts.new (λ x. n x + count_shown level x moves.now items.now.entries (entries t.now.entries)) }
{
    for (key, elements) in t.entries() {
        if !items.contains_key(key.as_slice()) {
            add_moved(level, counts, moves, START, elements);
        }
    }
}

/// Counts of a level before any element was counted.
fn none_counted(alloc: Global, level: u8) -> Result<Vec<u32>, AllocError>
    ensures size { IfOk result (λ v. length v.items ≡ max_weight level + 1) }
    ensures none { IfOk result (λ v. AreCapped v.items (λ _. 0)) }
{
    let mut counts = Vec::new(alloc);
    counts.resize(max_weight(level) as usize + 1, 0)?;
    Ok(counts)
}

/// The counts of a level, 1 to 3, of a table that is tailored. No entry is copied.
pub(crate) fn counts_of(
    alloc: Global,
    level: u8,
    moves: &Moves,
    items: &BTreeMap<Vec<char>, Item>,
    t: &Table,
) -> Result<Vec<u32>, AllocError>
    requires first { 1 ≤ level }
    requires last { level ≤ 3 }
    requires entered { AllByRecursion (λ i. IsItem moves.now i.1) items.now.entries }
    requires fits { Fits (renumbered moves.now items.now.entries t.now) }
    ensures { IfOk result (λ v. AreAllCounts level v.items (renumbered moves.now items.now.entries t.now)) }
{
    let mut counts = none_counted(alloc, level)?;
    add_items(level, &mut counts, moves, items);
    add_entries(level, &mut counts, moves, items, t);
    Ok(counts)
}
