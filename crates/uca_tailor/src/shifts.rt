//! The gaps that were made at one level, one after the other.
ghost use Rattle.std.specs.Prelude.{◌≡◌, ◌+◌, ◌-◌, ◌<◌, ◌≤◌, ◌++◌, ◌∷◌, [], min, length, take, drop, insert, vec_len, vec_capacity, OnOk, OnErr};
ghost use Rattle.uca_tailor.specs.Shifts.{moved, moved_at_once, count_below, bounds_with, Rise};

use crate::gap::weight_with_gap;
use std::alloc::{AllocError, Global};
use std::marker::Model;

/// How many gaps in a row have their bounds together in a small block, and in a large one.
const SMALL: usize = 64;

const LARGE: usize = 4096;

/// The weights of one level above which a gap was made, in the order in which it was made.
#[derive(Drop)]
pub(crate) struct Shifts {
    made: Vec<u16>,
    // Of each gap the greatest weight that it leaves, among those before all gaps; in rising order.
    bounds: Vec<u16>,
    // The same of each `SMALL` gaps in a row by themselves, for weights that were added in between.
    small: Vec<u16>,
    // And of each `LARGE` gaps.
    large: Vec<u16>,
}

impl Model for Shifts {
    ghost use Rattle.std.specs.Prelude.{ℕ, List};
    ghost use Rattle.uca_tailor.specs.Shifts.{AreBounds, AreBlocks};

    ghost Value = { List ℕ };

    ghost view = { λ s. s.made.items };

    ghost invariant = { λ s. AreBounds s.bounds.items s.made.items × AreBlocks 64 s.small.items s.made.items × AreBlocks 4096 s.large.items s.made.items };
}

impl Shifts {
    /// No gap was made.
    pub(crate) fn new(alloc: Global) -> Shifts
        ensures { result ≡ [] }
    {
        Shifts {
            made: Vec::new(alloc),
            bounds: Vec::new(alloc),
            small: Vec::new(alloc),
            large: Vec::new(alloc),
        }
    }

    /// How often a gap was made.
    pub(crate) fn len(&self) -> usize
        ensures { result ≡ length self.now }
    {
        self.made.len()
    }

    /// Makes a gap above a weight.
    pub(crate) fn push(&mut self, w: u16) -> Result<(), AllocError>
        ensures ok { OnOk result (self.new ≡ self.old ++ w ∷ []) }
        ensures err { OnErr result (self.new ≡ self.old) }
    {
        let count = self.made.len();
        self.bounds.reserve(1)?;
        self.small.reserve(1)?;
        self.large.reserve(1)?;
        self.made.push(w)?;
        insert_bound(&mut self.bounds, 0, w);
        insert_bound(&mut self.small, count - count % SMALL, w);
        insert_bound(&mut self.large, count - count % LARGE, w);
        Ok(())
    }

    /// What a weight has become since `after` gaps had been made, at most 65535.
    pub(crate) fn moved(&self, level: u8, after: usize, weight: u16) -> u16
        requires { after ≤ length self.now }
        ensures { result ≡ min (moved level (drop after self.now) weight) 65535 }
    {
        if after == 0 {
            return moved_at_once(level, &self.bounds, weight);
        }
        let mut moved = weight;
        let mut at = after;
        while at < self.made.len() {
            let is_large = at % LARGE == 0;
            let is_small = at % SMALL == 0;
            if is_large {
                let wide = block(&self.large, at, LARGE);
                let by_wide = moved_at_once(level, wide, moved);
                moved = by_wide;
                at += wide.len();
            } else if is_small {
                let narrow = block(&self.small, at, SMALL);
                let by_narrow = moved_at_once(level, narrow, moved);
                moved = by_narrow;
                at += narrow.len();
            } else {
                let by_gap = weight_with_gap(level, self.made[at], moved);
                moved = by_gap;
                at += 1;
            }
        }
        moved
    }
}

/// The bounds of the block that begins at a place.
fn block(bounds: &[u16], at: usize, size: usize) -> &[u16]
    requires { at ≤ length bounds.now }
    ensures { result.now ≡ take size (drop at bounds.now) }
{
    let rest = &bounds[at..];
    &rest[..rest.len().min(size)]
}

/// Inserts the bound of one more gap among those of the last gaps, which begin at a place. It does not allocate.
fn insert_bound(bounds: &mut Vec<u16>, from: usize, w: u16)
    requires from { from ≤ length bounds.old.items }
    requires capacity { vec_len bounds.old < vec_capacity bounds.old }
    requires rise { Rise (drop from bounds.old.items) }
    ensures { bounds.new.items ≡ take from bounds.old.items ++ bounds_with w (drop from bounds.old.items) }
{
    let at = place_of(&bounds[from..], w);
    let _fits = bounds.insert(from + at, w - at as u16);
}

/// The place of the bound of one more gap.
fn place_of(bounds: &[u16], w: u16) -> usize
    requires { Rise bounds.now }
    ensures bounds { insert bounds.now result (w - result) ≡ bounds_with w bounds.now }
    ensures within { result ≤ length bounds.now }
    ensures fits { result ≤ w }
{
    let mut low = 0;
    let mut high = bounds.len();
    while low < high {
        let middle = low + (high - low) / 2;
        let is_below = bounds[middle] as usize + middle < w as usize;
        if is_below {
            low = middle + 1;
        } else {
            high = middle;
        }
    }
    low
}

/// How many bounds are below a weight.
fn count_below(bounds: &[u16], weight: u16) -> usize
    requires { Rise bounds.now }
    ensures { result ≡ count_below weight bounds.now }
{
    let mut low = 0;
    let mut high = bounds.len();
    while low < high {
        let middle = low + (high - low) / 2;
        let is_below = bounds[middle] < weight;
        if is_below {
            low = middle + 1;
        } else {
            high = middle;
        }
    }
    low
}

/// A weight moved by all gaps together, at most 65535.
fn moved_at_once(level: u8, bounds: &[u16], weight: u16) -> u16
    requires { Rise bounds.now }
    ensures { result ≡ min (moved_at_once level bounds.now weight) 65535 }
{
    if level == 1 && weight >= 0x8000 {
        return weight;
    }
    let most = if level == 1 { 0x8000 } else { 0xFFFF };
    let count = count_below(bounds, weight);
    count.saturating_add(weight as usize).min(most) as u16
}
