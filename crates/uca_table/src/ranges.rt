ghost use Rattle.std.specs.Prelude.{◌≡◌, IfOk, List};
ghost use Rattle.std.specs.BTreeMap.{get};
ghost use Rattle.std.specs.List.{slice_get};
ghost use Rattle.std.specs.Ordering.{nat_cmp};
ghost use Rattle.uca_model.specs.Table.{AreRanges};
ghost use Rattle.uca_model.specs.ImplicitWeights.{lowest_first, range_of};
ghost use Rattle.uca_model.specs.Ranges.{AreByFirst};
ghost use Rattle.uca_table.specs.Extents.{begins_by, extent_with, AreExtents};
ghost use Rattle.uca_weights.specs.declared.range.Range.{Range};
ghost use Rattle.uca_table.specs.Coded.{coded_ranges};

use std::alloc::{AllocError, Global};
use std::collections::BTreeMap;
use std::marker::Model;
use uca_weights::Range;

/// The ranges of a table, in which a code point is found in logarithmic time.
#[derive(Drop)]
pub(crate) struct Ranges {
    // By their first code points.
    pub(crate) by_first: Vec<Range>,
    // By their bases.
    pub(crate) extents: BTreeMap<u16, Extent>,
}

impl Model for Ranges {
    ghost Value = { List Range };

    ghost coded = { coded_ranges };

    ghost view = { λ r. r.by_first.items };

    ghost invariant = { λ r. AreExtents (get nat_cmp r.extents) r.by_first.items };
}

impl Ranges {
    /// The ranges by their first code points.
    pub(crate) fn as_slice(&self) -> &[Range]
        ensures { result.now ≡ self.now }
    {
        self.by_first.as_slice()
    }

    /// A copy of the ranges.
    pub(crate) fn try_clone(&self, alloc: Global) -> Result<Ranges, AllocError>
        ensures { IfOk result (λ r. r ≡ self.now) }
    {
        let by_first = self.by_first.as_slice().to_vec(alloc)?;
        let extents = self.extents.clone()?;
        Ok(Ranges { by_first, extents })
    }

    /// The range in which a code point lies.
    pub(crate) fn range_of(&self, c: char) -> Option<Range>
        requires ranges { AreRanges self.now }
        requires by_first { AreByFirst self.now }
        ensures { result ≡ range_of self.now c }
    {
        let range = self.by_first.get(self.place_of(c))?;
        if range.first <= c {
            return Some(*range);
        }
        None
    }

    /// How many ranges end below a code point. They come first, and no range but the next one may have it.
    fn place_of(&self, c: char) -> usize
        requires ranges { AreRanges self.now }
        requires by_first { AreByFirst self.now }
        ensures { range_of self.now c ≡ begins_by c (slice_get self.now result) }
    {
        self.by_first.partition_point(|range| range.last < c)
    }

    /// The lowest first code point among a range and the others of its base.
    #[tactic(auto, using(crate::proofs::RangeLemmas::extents))]
    pub(crate) fn lowest_first(&self, range: Range) -> char
        ensures { result ≡ lowest_first self.now range.base range.first }
    {
        widened(&self.extents, range).lowest
    }
}

/// The lowest first and the highest last code point of the ranges that share a base.
#[derive(Clone, Copy)]
pub(crate) struct Extent {
    pub(crate) lowest: char,
    pub(crate) highest: char,
}

/// The extent of a range together with the others of its base.
pub(crate) fn widened(extents: &BTreeMap<u16, Extent>, range: Range) -> Extent
    ensures { result ≡ extent_with range (get nat_cmp extents.now range.base) }
{
    match extents.get(&range.base) {
        Some(others) => Extent {
            lowest: others.lowest.min(range.first),
            highest: others.highest.max(range.last),
        },
        None => Extent {
            lowest: range.first,
            highest: range.last,
        },
    }
}
