ghost use Rattle.std.specs.Prelude.{◌≡◌, [], OnOk, OnErr, IfOk, MatchResult, All, None};
ghost use Rattle.std.specs.Char.{IsScalar};
ghost use Rattle.std.specs.FinMap.{empty};
ghost use Rattle.uca_model.specs.Table.{IsElement, ElementTable, with_entry};
ghost use Rattle.uca_table.specs.Ascending.{AreStored, table_of};
ghost use Rattle.uca_table.specs.Coded.{coded_table};
ghost use Rattle.uca_table.specs.Builder.{insert_fault, reported_fault, with_range, range_fault, reported_range_fault};

use crate::entry_map::EntryMap;
use crate::fault::{FinishFault, InsertFault, RangeFault};
use crate::range_map::RangeMap;
use crate::table::Table;
use std::alloc::Global;
use std::marker::Model;
use uca_weights::{Element, MAX_ELEMENTS, MAX_KEY, Range};

/// Collects the entries of a table, in any order.
#[derive(Drop)]
pub struct TableBuilder {
    entries: EntryMap,
    ranges: RangeMap,
    alloc: Global,
}

impl Model for TableBuilder {
    ghost Value = { ElementTable };

    ghost coded = { coded_table };

    ghost view = { λ b. table_of b.entries b.ranges };

    ghost invariant = { λ b. AreStored b.entries b.ranges };
}

impl TableBuilder {
    /// A builder with no entries and no ranges.
    #[tactic(auto, using(crate::proofs::EntryLemmas::from_sorted_none))]
    pub fn new(alloc: Global) -> TableBuilder
        ensures { result ≡ record { entries = empty; ranges = []; ideographs = [] } }
    {
        TableBuilder {
            entries: EntryMap::new(alloc),
            ranges: RangeMap::new(alloc),
            alloc,
        }
    }

    /// Adds a key of 1 to `MAX_KEY` code points, which the builder doesn't have yet, with 1 to `MAX_ELEMENTS`
    /// collation elements (UTS #10, section 3). On a fault the builder stays as it is.
    #[tactic(auto, using(crate::proofs::BuilderLemmas::inserting))]
    pub fn insert(&mut self, key: &[char], elements: &[Element]) -> Result<(), InsertFault>
        ensures ok { OnOk result (self.new ≡ with_entry self.old key.now elements.now) }
        ensures err { OnErr result (self.new ≡ self.old) }
        ensures fault { MatchResult result (λ _. insert_fault self.old key.now elements.now ≡ None) (λ f. insert_fault self.old key.now elements.now ≡ reported_fault f) }
    {
        if key.is_empty() {
            return Err(InsertFault::EmptyKey);
        }
        if key.len() > MAX_KEY {
            return Err(InsertFault::KeyTooLong);
        }
        if elements.is_empty() {
            return Err(InsertFault::NoElement);
        }
        if elements.len() > MAX_ELEMENTS {
            return Err(InsertFault::TooManyElements);
        }
        show_key(key);
        show_elements(elements);
        self.entries.insert(self.alloc, key, elements)
    }

    /// Adds the range from `first` to `last`, both inclusive. An assigned code point in it that has no key
    /// gets `base` as its first implicit weight (UTS #10, section 10.1.3). On a fault the builder stays as it is.
    #[tactic(auto, using(crate::proofs::BuilderLemmas::adding))]
    pub fn add_implicit(&mut self, first: char, last: char, base: u16) -> Result<(), RangeFault>
        ensures ok { OnOk result (self.new ≡ with_range self.old (record { first = first; last = last; base = base })) }
        ensures err { OnErr result (self.new ≡ self.old) }
        ensures fault { let fault = range_fault self.old (record { first = first; last = last; base = base }) in MatchResult result (λ _. fault ≡ None) (λ f. fault ≡ reported_range_fault f) }
    {
        let range = Range { first, last, base };
        if self.ranges.is_bad(range) {
            return Err(RangeFault::BadRange);
        }
        self.ranges.put(range)
    }

    /// The table of what was added, with no ideographs besides the listed ones. Where memory is refused, the builder comes
    /// back unchanged.
    pub fn finish(self) -> Result<Table, FinishFault>
        ensures made { MatchResult result (λ t. t ≡ self) (λ f. f.builder ≡ self) }
        ensures unlisted { IfOk result (λ t. t.ideographs ≡ []) }
    {
        let Ok(entries) = self.entries.nodes(self.alloc) else {
            return Err(FinishFault { builder: self });
        };
        let Ok(range_room) = Vec::with_capacity(self.alloc, self.ranges.len()) else {
            return Err(FinishFault { builder: self });
        };
        let Ok(keys) = entries.finish(self.alloc) else {
            return Err(FinishFault { builder: self });
        };
        let table = Table {
            keys,
            ranges: self.ranges.finish(range_room),
            ideographs: Vec::new(self.alloc),
            longest_key: self.entries.longest_key(),
            cells: None,
        };
        // The entries have been copied, and take more than what is kept about characters.
        drop(self.entries);
        Ok(table.prepared(self.alloc))
    }
}

/// Shows that each code point of a slice of characters is a scalar value.
pub(crate) fn show_key(key: &[char])
    ensures { All IsScalar key.now }
{
    for c in key {
        let _scalar = *c;
    }
}

/// Shows that each weight of the elements has sixteen bits.
pub(crate) fn show_elements(elements: &[Element])
    ensures { All IsElement elements.now }
{
    for element in elements {
        show_element(element);
    }
}

/// Shows that each weight of an element has sixteen bits.
fn show_element(element: &Element)
    ensures { IsElement element.now }
{
    let _primary = element.l1;
    let _secondary = element.l2;
    let _tertiary = element.l3;
}
