ghost use Rattle.std.specs.Prelude.{◌≡◌, ◌≤◌, ◌-◌, [], false, OnOk, OnErr, IfErr, length, vec_capacity, List};
ghost use Rattle.std.specs.List.{list_any};
ghost use Rattle.uca_model.specs.Table.{AreRanges};
ghost use Rattle.uca_model.specs.ImplicitWeights.{lowest_first};
ghost use Rattle.uca_model.specs.Ranges.{shares, highest_last, is_bad_range, put_range, AreByFirst};
ghost use Rattle.std.specs.BTreeMap.{get};
ghost use Rattle.std.specs.Map.{values_of};
ghost use Rattle.std.specs.Ordering.{nat_cmp};
ghost use Rattle.uca_weights.specs.declared.range.Range.{Range};
ghost use Rattle.uca_table.specs.Coded.{coded_ranges};
ghost use Rattle.uca_table.specs.Extents.{AreByLast, AreExtents};

use crate::fault::RangeFault;
use crate::ranges::{Extent, Ranges, widened};
use std::alloc::Global;
use std::collections::BTreeMap;
use std::marker::Model;
use uca_weights::Range;

/// The ranges of a builder. Inserting one takes logarithmic time.
#[derive(Drop)]
pub(crate) struct RangeMap {
    // By their last code points, which rise as the first ones do.
    by_last: BTreeMap<char, Range>,
    // By their bases.
    extents: BTreeMap<u16, Extent>,
}

impl Model for RangeMap {
    ghost Value = { List Range };

    ghost coded = { coded_ranges };

    ghost view = { λ m. values_of m.by_last.entries };

    ghost invariant = { λ m. AreByLast m.by_last.entries × AreExtents (get nat_cmp m.extents) (values_of m.by_last.entries) };
}

impl RangeMap {
    /// No ranges.
    pub(crate) fn new(alloc: Global) -> RangeMap
        ensures { result ≡ [] }
    {
        RangeMap {
            by_last: BTreeMap::new(alloc),
            extents: BTreeMap::new(alloc),
        }
    }

    /// How many ranges there are.
    pub(crate) fn len(&self) -> usize
        ensures { result ≡ length self.now }
    {
        self.by_last.len()
    }

    /// Whether a range conflicts with these, in logarithmic time.
    pub(crate) fn is_bad(&self, range: Range) -> bool
        requires { AreByFirst self.now }
        ensures { result ≡ is_bad_range self.now range }
    {
        range.first > range.last
            || range.base < 0x8000
            || self.shares_with_any(range)
            || self.span_with(range) > 0x7FFF
    }

    /// Whether a range shares a code point with one of these. The first that doesn't end below it decides.
    #[tactic(auto, using(crate::proofs::RangeLemmas::shares_first, crate::proofs::RangeLemmas::first_begins))]
    fn shares_with_any(&self, range: Range) -> bool
        requires { AreByFirst self.now }
        ensures { result ≡ list_any (shares range) self.now }
    {
        match self.by_last.range(range.first..).next() {
            Some((_, other)) => other.first <= range.last,
            None => false,
        }
    }

    /// How far the last code point of a range and of all of its base lies after the first one.
    #[tactic(auto, using(crate::proofs::RangeLemmas::extents))]
    fn span_with(&self, range: Range) -> u32
        ensures { result ≡ highest_last self.now range.base range.last - lowest_first self.now range.base range.first }
    {
        let extent = widened(&self.extents, range);
        (extent.highest as u32).saturating_sub(extent.lowest as u32)
    }

    /// Puts a range before the first one that begins above it.
    pub(crate) fn put(&mut self, range: Range) -> Result<(), RangeFault>
        requires fine { is_bad_range self.old range ≡ false }
        requires ranges { AreRanges self.old }
        ensures ok { OnOk result (self.new ≡ put_range range self.old) }
        ensures err { OnErr result (self.new ≡ self.old) }
        ensures memory { IfErr result (λ f. f ≡ RangeFault.OutOfMemory) }
    {
        let extent = widened(&self.extents, range);
        if let Err(_) = self.by_last.insert(range.last, range) {
            return Err(RangeFault::OutOfMemory);
        }
        match self.extents.insert(range.base, extent) {
            Ok(_) => Ok(()),
            Err(_) => {
                // No other range ends there.
                self.by_last.remove(&range.last);
                Err(RangeFault::OutOfMemory)
            }
        }
    }

    /// The same ranges in a vector with capacity for them.
    pub(crate) fn finish(self, room: Vec<Range>) -> Ranges
        requires empty { length room.items ≡ 0 }
        requires room { length self ≤ vec_capacity room }
        ensures { result ≡ self }
    {
        let mut by_first = room;
        for (_, range) in self.by_last {
            by_first.push_reserved(range);
        }
        Ranges {
            by_first,
            extents: self.extents,
        }
    }
}
