//! The entries of a tailored table in their order: items, and entries of the given table that no item hides.
ghost use Rattle.std.specs.Prelude.{◌≡◌, ◌≤◌, ◌<◌, ◌+◌, ◌++◌, ◌∷◌, [], false, drop, length, map, take, IfOk, OnOk};
ghost use Rattle.std.specs.FinMap.{contains_key, empty, entries, insert};
ghost use Rattle.std.specs.List.{AllByRecursion, prefix_len};
ghost use Rattle.uca_tailor.specs.Copy.{Holds, cut_entry, entered_item, is_up_to, item_entries};
ghost use Rattle.uca_tailor.specs.Renumbered.{all_entries, item_entry, IsItem};

use crate::items::Item;
use crate::moves::{Moves, START};
use std::alloc::{AllocError, Global};
use std::collections::BTreeMap;
use uca_table::{AppendFault, AscendingEntries, Element, Table};

/// An item and its key.
pub(crate) type Entered<'i> = (&'i Vec<char>, &'i Item);

/// The items in the order of their keys.
pub(crate) fn in_order(
    alloc: Global,
    items: &BTreeMap<Vec<char>, Item>,
) -> Result<Vec<Entered<'_>>, AllocError>
    ensures { IfOk result (λ v. map entered_item v.items ≡ items.now.entries) }
{
    let mut sorted = Vec::with_capacity(alloc, items.len())?;
    for item in items.iter() {
        sorted.push(item)?;
    }
    Ok(sorted)
}

/// Appends an entry with a key that is not yet there.
fn append(
    merged: &mut AscendingEntries,
    key: &[char],
    elements: &[Element],
) -> Result<(), AllocError>
    ensures entry { OnOk result (merged.new ≡ insert merged.old key.now elements.now) }
    ensures fresh { OnOk result (contains_key merged.old key.now ≡ false) }
{
    merged.push(key, elements).map_err(|_| AllocError)
}

/// Appends an entry, or leaves it out where there is one with its key.
fn append_or_leave(
    merged: &mut AscendingEntries,
    key: &[char],
    elements: &[Element],
) -> Result<(), AllocError>
    ensures { OnOk result ((es : _) → Holds merged.old es → Holds merged.new (es ++ (key.now, elements.now) ∷ [])) }
{
    match merged.push(key, elements) {
        Ok(()) => Ok(()),
        Err(AppendFault::Repeated) => Ok(()),
        Err(_) => Err(AllocError),
    }
}

/// Appends items from one place to another, with the elements that they have now.
fn append_items(
    merged: &mut AscendingEntries,
    moves: &Moves,
    items: &[Entered<'_>],
    from: usize,
    to: usize,
    buffer: &mut Vec<Element>,
) -> Result<(), AllocError>
    requires ordered { from ≤ to }
    requires within { to ≤ length items.now }
    requires entered { AllByRecursion (λ i. IsItem moves.now i.1) (map entered_item items.now) }
    ensures { OnOk result ((es : _) → Holds merged.old (item_entries moves.now (take from (map entered_item items.now)) ++ es) → Holds merged.new (item_entries moves.now (take to (map entered_item items.now)) ++ es)) }
{
    for at in from..to {
        let (key, item) = items[at];
        buffer.clear();
        moves.push_moved(buffer, item.after, &item.elements)?;
        append(merged, key, buffer)?;
    }
    Ok(())
}

/// The place of the first of the items from one place on whose key is greater than another.
fn end_of(items: &[Entered<'_>], from: usize, key: &[char]) -> usize
    requires { from ≤ length items.now }
    ensures place { result ≡ from + prefix_len (is_up_to key.now) (drop from (map entered_item items.now)) }
    ensures ordered { from ≤ result }
    ensures within { result ≤ length items.now }
{
    let mut at = from;
    while at < items.len() && items[at].0.as_slice().cmp(key).is_le() {
        at += 1;
    }
    at
}

/// Appends items and the entries of a table that none of them hides, with their weights moved by all gaps together.
pub(crate) fn merge(
    alloc: Global,
    merged: &mut AscendingEntries,
    moves: &Moves,
    items: &[Entered<'_>],
    t: &Table,
) -> Result<(), AllocError>
    requires none { merged.old ≡ empty }
    requires entered { AllByRecursion (λ i. IsItem moves.now i.1) (map entered_item items.now) }
    ensures { OnOk result (Holds merged.new (map cut_entry (all_entries moves.now (map entered_item items.now) (entries t.now.entries)))) }
{
    let mut moved = Vec::new(alloc);
    let mut at = 0;
    for (key, elements) in t.entries() {
        let to = end_of(items, at, key.as_slice());
        append_items(merged, moves, items, at, to, &mut moved)?;
        at = to;
        moved.clear();
        moves.push_moved(&mut moved, START, elements)?;
        append_or_leave(merged, key.as_slice(), &moved)?;
    }
    append_items(merged, moves, items, at, items.len(), &mut moved)
}
