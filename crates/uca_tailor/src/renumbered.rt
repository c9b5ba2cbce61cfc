//! A table that is tailored relation by relation, and rewritten only at the end.
ghost use Rattle.std.specs.Prelude.{◌≡◌, ◌≤◌, ◌<◌, ◌++◌, false, is_some, length, IfOk, IsTrue, OnOk};
ghost use Rattle.std.specs.FinMap.{values};
ghost use Rattle.std.specs.List.{list_any, AllByRecursion};
ghost use Rattle.uca_model.specs.CollationElements.{elements, elements_or_implicit};
ghost use Rattle.uca_model.specs.Gap.{cannot_move, table_with_gap};
ghost use Rattle.uca_model.specs.Table.{elements_at, with_entry, IsElement, IsKey};
ghost use Rattle.uca_match.specs.Keys.{key_set};
ghost use Rattle.uca_tailor.specs.Counts.{elements_or_none};

use crate::counting::counts_of;
use crate::counts::{Counts, has_greatest};
use crate::gap::max_weight;
use crate::items::Item;
use crate::merging::{in_order, merge};
use crate::moves::{Moves, START};
use crate::tops::Tops;
use std::alloc::{AllocError, Global};
use std::collections::BTreeMap;
use std::marker::Model;
use uca_match::{Keys, matches_of_points};
use uca_table::{AscendingEntries, Element, Table};

/// A table that borrows the entries of another one: gaps that were made move their weights together, and items that
/// were added hide them.
#[derive(Drop)]
pub(crate) struct Renumbered<'t> {
    table: &'t Table,
    moves: Moves,
    items: BTreeMap<Vec<char>, Item>,
    tops: Tops,
    counts: Counts,
    longest_key: usize,
}

impl<'t> Model for Renumbered<'t> {
    ghost use Rattle.uca_model.specs.Table.{ElementTable};
    ghost use Rattle.uca_table.specs.Coded.{coded_table};
    ghost use Rattle.uca_tailor.specs.Renumbered.{renumbered, IsRenumbered};

    ghost Value = { ElementTable };

    ghost coded = { coded_table };

    ghost view = { λ r. renumbered r.moves r.items.entries r.table.now };

    ghost invariant = { λ r. IsRenumbered r.moves r.items.entries r.table.now r.tops r.counts r.longest_key };
}

/// Shows that each weight of the elements has sixteen bits.
fn show_elements(elements: &[Element])
    ensures { AllByRecursion IsElement elements.now }
{
    for element in elements {
        show_element(element);
    }
}

/// Shows that each weight of an element has sixteen bits.
fn show_element(element: &Element)
    ensures { IsElement element.now }
{
    let _primary = element.l1;
    let _secondary = element.l2;
    let _tertiary = element.l3;
}

impl<'t> Renumbered<'t> {
    /// The table as it is given.
    pub(crate) fn new(alloc: Global, t: &'t Table) -> Renumbered<'t>
        ensures { result ≡ t.now }
    {
        let longest_key = t.longest();
        Renumbered {
            table: t,
            moves: Moves::new(alloc),
            items: BTreeMap::new(alloc),
            tops: Tops::of(t),
            counts: Counts::new(alloc),
            longest_key,
        }
    }

    /// Makes a gap above `w` at a level, 1 to 3: all weights above it go up by one, but at level 1 not the implicit ones.
    pub(crate) fn make_gap(&mut self, level: u8, w: u16) -> Result<(), AllocError>
        requires first { 1 ≤ level }
        requires last { level ≤ 3 }
        requires free { list_any (list_any (cannot_move level w)) (values self.old.entries) ≡ false }
        ensures { OnOk result (self.new ≡ table_with_gap level w self.old) }
    {
        self.moves.make_gap(level, w)?;
        self.tops = self.tops.raised(level, w);
        self.counts.make_gap(level, w);
        Ok(())
    }

    /// Maps a key to these elements, in place of any that it has.
    pub(crate) fn put(
        &mut self,
        alloc: Global,
        key: &[char],
        elements: &[Element],
    ) -> Result<(), AllocError>
        requires key { IsKey key.now }
        requires some_elements { 1 ≤ length elements.now }
        ensures { OnOk result (self.new ≡ with_entry self.old key.now elements.now) }
    {
        show_elements(elements);
        let mut before = Vec::new(alloc);
        if !self.counts.are_none() {
            self.push_entry(&mut before, key)?;
        }
        let item = Item {
            elements: elements.to_vec(alloc)?,
            after: self.moves.now(),
        };
        let own_key = key.to_vec(alloc)?;
        self.items.insert(own_key, item)?;
        self.tops = self.tops.over(elements);
        self.counts.exchange(&before, elements);
        self.longest_key = self.longest_key.max(key.len());
        Ok(())
    }

    /// Whether some weight of the entries at a level, 1 to 3, would have to move for a gap above `w`, and can't. The
    /// weights are counted only where the greatest of the level may reach the limit for the first time, over the given
    /// entries and the items, without a copy. From then on the counts say whether one is there.
    pub(crate) fn any_cannot_move(
        &mut self,
        alloc: Global,
        level: u8,
        w: u16,
    ) -> Result<bool, AllocError>
        requires first { 1 ≤ level }
        requires last { level ≤ 3 }
        ensures lacks { IfOk result (λ lacks. lacks ≡ list_any (list_any (cannot_move level w)) (values self.old.entries)) }
        ensures same { self.new ≡ self.old }
    {
        if self.tops.at(level) < max_weight(level) {
            return Ok(false);
        }
        if w >= max_weight(level) {
            return Ok(false);
        }
        if let Some(at_limit) = self.counts.reaches_limit(level) {
            return Ok(at_limit);
        }
        let counts = counts_of(alloc, level, &self.moves, &self.items, self.table)?;
        let at_limit = has_greatest(level, &counts);
        self.counts.set(level, counts);
        Ok(at_limit)
    }

    /// The table with entries of its own.
    pub(crate) fn to_table(&self, alloc: Global) -> Result<Table, AllocError>
        ensures { IfOk result (λ t. t ≡ self.now) }
    {
        let items = in_order(alloc, &self.items)?;
        let mut entries = AscendingEntries::new(alloc);
        merge(alloc, &mut entries, &self.moves, &items, self.table)?;
        entries.finish(alloc, self.table)
    }

    /// Appends the elements of a key, and returns whether it has any.
    fn push_entry(&self, out: &mut Vec<Element>, key: &[char]) -> Result<bool, AllocError>
        ensures elements { OnOk result (out.new.items ≡ out.old.items ++ elements_or_none self.now key.now) }
        ensures found { IfOk result (λ found. found ≡ is_some (elements_at self.now key.now)) }
        ensures some { IfOk result (λ found. IsTrue found → length out.old.items < length out.new.items) }
    {
        if let Some(item) = self.items.get(key) {
            self.moves.push_moved(out, item.after, &item.elements)?;
            return Ok(true);
        }
        let Some(elements) = self.table.get(key) else {
            return Ok(false);
        };
        self.moves.push_moved(out, START, elements)?;
        Ok(true)
    }

    /// Appends the elements of a match: those of a key, or the implicit ones of its first code point.
    fn push_match(&self, out: &mut Vec<Element>, matched: &[char]) -> Result<(), AllocError>
        requires { 0 < length matched.now }
        ensures elements { OnOk result (out.new.items ≡ out.old.items ++ elements_or_implicit self.now matched.now) }
        ensures some { OnOk result (length out.old.items < length out.new.items) }
    {
        if self.push_entry(out, matched)? {
            return Ok(());
        }
        out.extend_from_slice(&self.table.implicit(matched[0]))
    }
}

impl<'t> Keys for Renumbered<'t> {
    ghost keys = { key_set };

    fn has(&self, key: &[char]) -> bool {
        self.items.contains_key(key) || self.table.get(key).is_some()
    }

    fn longest(&self) -> usize {
        self.longest_key
    }
}

/// The elements of a text in NFD, at least one of them if it has a code point.
pub(crate) fn elements_under(
    alloc: Global,
    t: &Renumbered<'_>,
    points: &[char],
) -> Result<Vec<Element>, AllocError>
    ensures value { IfOk result (λ v. v.items ≡ elements t.now points.now) }
    ensures some { IfOk result (λ v. 0 < length points.now → 0 < length v.items) }
{
    let matches = matches_of_points(alloc, t, points)?;
    let mut elements = Vec::new(alloc);
    for matched in &matches {
        t.push_match(&mut elements, matched.key.as_slice())?;
    }
    Ok(elements)
}
