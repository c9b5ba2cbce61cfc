ghost use Rattle.std.specs.Prelude.{◌≡◌, ◌<◌, ◌≤◌, ◌+◌, ◌-◌, ◌++◌, [], length, map, is_some, None, IfOk, OnOk, OnErr, MatchResult, SomeIff, vec_len, vec_capacity, ℕ, List};
ghost use Rattle.std.specs.Char.{IsScalar};
ghost use Rattle.std.specs.FinMap.{find, put};
ghost use Rattle.uca_model.specs.Table.{key_cmp};
ghost use Rattle.uca_table.specs.Ascending.{AreAscending, longest_of};
ghost use Rattle.uca_table.specs.Builder.{known_fault, reported_fault};
ghost use Rattle.uca_table.specs.EntryMap.{entry_in, entries_in, point_at, points_from, AreEntries, MayFollow, place_at, taken, IsSingleMap};
ghost use Rattle.uca_weights.specs.declared.element.Element.{Element};
ghost use Rattle.uca_table.specs.Coded.{coded_entries};

use crate::blocks::BLOCK;
use crate::fault::InsertFault;
use crate::single_map::{Place, SingleMap};
use std::alloc::{AllocError, Global};
use std::collections::BTreeMap;
use std::marker::Model;
use uca_keys::Nodes;
use uca_weights::Element;

/// The entries of a builder by key order. Inserting one takes logarithmic time, and constant time where the key is one code
/// point, as most are.
#[derive(Drop)]
pub(crate) struct EntryMap {
    // Of the keys of one code point.
    singles: SingleMap,
    // Of all others.
    longer: BTreeMap<Vec<char>, Place>,
    // Of all entries, in the order in which they came.
    elements: Vec<Element>,
    // 1 where there is none.
    longest_key: usize,
}

impl Model for EntryMap {
    ghost Value = { List (List ℕ × List Element) };

    ghost coded = { coded_entries };

    ghost view = { λ m. entries_in m.singles m.longer.entries m.elements.items };

    ghost invariant = { λ m. AreEntries m.singles m.longer.entries m.elements.items × (m.longest_key ≡ longest_of (entries_in m.singles m.longer.entries m.elements.items)) };
}

impl EntryMap {
    /// No entries.
    pub(crate) fn new(alloc: Global) -> EntryMap
        ensures { result ≡ [] }
    {
        EntryMap {
            singles: SingleMap::new(alloc),
            longer: BTreeMap::new(alloc),
            elements: Vec::new(alloc),
            longest_key: 1,
        }
    }

    /// Whether there is a key.
    #[tactic(auto, using(crate::proofs::EntryMapLemmas::having))]
    pub(crate) fn has_key(&self, key: &[char]) -> bool
        requires { 0 < length key.now }
        ensures { result ≡ is_some (find key_cmp key.now self.now) }
    {
        if key.len() == 1 {
            return self.singles.get(key[0] as usize).is_used();
        }
        self.longer.contains_key(key)
    }

    /// Adds a key, which must be new, and its elements.
    pub(crate) fn insert(
        &mut self,
        alloc: Global,
        key: &[char],
        elements: &[Element],
    ) -> Result<(), InsertFault>
        requires { 0 < length key.now }
        ensures ok { OnOk result (self.new ≡ put key_cmp key.now elements.now self.old) }
        ensures err { OnErr result (self.new ≡ self.old) }
        ensures fault { let fault = known_fault self.old key.now in MatchResult result (λ _. fault ≡ None) (λ f. fault ≡ reported_fault f) }
    {
        if self.has_key(key) {
            return Err(InsertFault::Repeated);
        }
        self.put(alloc, key, elements)
            .map_err(|_| InsertFault::OutOfMemory)
    }

    /// Gives a key its elements.
    fn put(&mut self, alloc: Global, key: &[char], elements: &[Element]) -> Result<(), AllocError>
        requires { 0 < length key.now }
        ensures ok { OnOk result (self.new ≡ put key_cmp key.now elements.now self.old) }
        ensures err { OnErr result (self.new ≡ self.old) }
    {
        self.elements.reserve(elements.len())?;
        let start = self.elements.len();
        let place = Place {
            start,
            past: start + elements.len(),
        };
        if key.len() == 1 {
            self.singles.insert(key[0], place)?;
            push_reserved(&mut self.elements, elements);
            return Ok(());
        }
        let longer = key.to_vec(alloc)?;
        self.longer.insert(longer, place)?;
        push_reserved(&mut self.elements, elements);
        self.longest_key = self.longest_key.max(key.len());
        Ok(())
    }

    /// The length of the longest key, 1 where there is none.
    pub(crate) fn longest_key(&self) -> usize
        ensures { result ≡ longest_of self.now }
    {
        self.longest_key
    }

    /// The nodes of the entries.
    pub(crate) fn nodes(&self, alloc: Global) -> Result<Nodes, AllocError>
        requires { AreAscending self.now }
        ensures { IfOk result (λ n. n ≡ self.now) }
    {
        nodes_of(alloc, &self.singles, &self.longer, &self.elements)
    }
}

/// Appends elements for which there is capacity. Most keys have one, which needs no copy of a slice.
fn push_reserved(all: &mut Vec<Element>, elements: &[Element])
    requires { vec_len all.old + length elements.now ≤ vec_capacity all.old }
    ensures { all.new.items ≡ all.old.items ++ elements.now }
{
    if let [element] = elements {
        let _fits = all.push(*element);
        return;
    }
    let _fits = all.extend_from_slice(elements);
}

/// The elements at a place.
fn elements_at(all: &[Element], place: Place) -> &[Element]
    requires used { place.start ≤ place.past }
    requires inside { place.past ≤ length all.now }
    ensures { result.now ≡ taken place all.now }
{
    &all[place.start..place.past]
}

/// How many nodes a longer key has that the one before it and its first code point have not.
fn new_nodes(singles: &SingleMap, before: &[char], key: &[char]) -> usize {
    let common = before.iter().zip(key).take_while(|(a, b)| a == b).count();
    let new = key.len().saturating_sub(common);
    if new == key.len() && new > 0 && singles.get(key[0] as usize).is_used() {
        return new - 1;
    }
    new
}

/// How many nodes the keys have.
fn count_nodes(singles: &SingleMap, longer: &BTreeMap<Vec<char>, Place>) -> usize {
    let singles_used = singles.blocks.items.iter().filter(|place| place.is_used());
    let mut nodes = singles_used.count();
    let mut before: &[char] = &[];
    for (key, _) in longer.iter() {
        nodes = nodes.saturating_add(new_nodes(singles, before, key));
        before = key;
    }
    nodes
}

/// The nodes of the entries. Those of longer keys come after that of their first code point, in their order.
fn nodes_of(
    alloc: Global,
    singles: &SingleMap,
    longer: &BTreeMap<Vec<char>, Place>,
    elements: &[Element],
) -> Result<Nodes, AllocError>
    requires both { AreEntries singles.now longer.now.entries elements.now }
    requires ascending { AreAscending (entries_in singles.now longer.now.entries elements.now) }
    ensures { IfOk result (λ n. n ≡ entries_in singles.now longer.now.entries elements.now) }
{
    let mut nodes = Nodes::with_capacity(alloc, count_nodes(singles, longer), elements.len())?;
    let mut next = 0;
    for (key, place) in longer.iter() {
        let end = key[0] as usize + 1;
        push_singles(&mut nodes, singles, elements, next, end)?;
        next = end;
        nodes.push(key, elements_at(elements, *place))?;
    }
    let end = singles.blocks.numbers.len() * BLOCK;
    push_singles(&mut nodes, singles, elements, next, end)?;
    Ok(nodes)
}

/// Appends the entries of the code points from one number up to another.
fn push_singles(
    entries: &mut Nodes,
    singles: &SingleMap,
    elements: &[Element],
    from: usize,
    end: usize,
) -> Result<(), AllocError>
    requires map { IsSingleMap singles.now }
    requires points { MayFollow elements.now entries.old (points_from (place_at singles.now) from (end - from)) }
    ensures { OnOk result (entries.new ≡ entries.old ++ map (entry_in elements.now) (points_from (place_at singles.now) from (end - from))) }
{
    let mut point = from;
    while point < end {
        if singles.blocks.has_own(point / BLOCK) {
            push_single(entries, singles, elements, point)?;
            point += 1;
        } else {
            point = end.min((point / BLOCK + 1).saturating_mul(BLOCK));
        }
    }
    Ok(())
}

/// Appends the entry of a code point, where it is a key.
fn push_single(
    entries: &mut Nodes,
    singles: &SingleMap,
    elements: &[Element],
    point: usize,
) -> Result<(), AllocError>
    requires { MayFollow elements.now entries.old (point_at (place_at singles.now) point) }
    ensures { OnOk result (entries.new ≡ entries.old ++ map (entry_in elements.now) (point_at (place_at singles.now) point)) }
{
    let place = singles.get(point);
    if !place.is_used() {
        return Ok(());
    }
    let Some(c) = character(point) else {
        // A key has none but characters.
        return Ok(());
    };
    entries.push(&[c], elements_at(elements, place))
}

/// The character of a number, where it has one.
fn character(number: usize) -> Option<char>
    ensures { SomeIff result (IsScalar number) number }
{
    char::from_u32(u32::try_from(number).ok()?)
}
