//! How many elements of a table have each weight of a level, so that no look at the table is needed to tell whether one
//! has the greatest.
ghost use Rattle.std.specs.Prelude.{◌≡◌, ◌≤◌, ◌<◌, ◌+◌, ◌-◌, ◌==◌, ℕ, List, min, length, if◌then◌else◌, IsTrue, IfSome};
ghost use Rattle.uca_model.specs.Gap.{table_with_gap};
ghost use Rattle.uca_model.specs.Table.{ElementTable, with_entry};
ghost use Rattle.uca_tailor.specs.Counts.{count_at, Reach, Opens, AreAllCounts, AreCapped, AreCounts, AreNone, HaveCounts, elements_or_none, reaches_limit};

use crate::gap::max_weight;
use std::alloc::Global;
use uca_table::Element;

/// For each level how many elements of a table have each weight below the implicit ones, or nothing where that was not
/// counted.
#[derive(Drop)]
pub(crate) struct Counts {
    pub(crate) first: Vec<u32>,
    pub(crate) second: Vec<u32>,
    pub(crate) third: Vec<u32>,
}

/// A count with one more. The greatest count means that many or more.
fn one_more(count: u32) -> u32
    ensures { result ≡ min (count + 1) 4294967295 }
{
    count.saturating_add(1)
}

/// A count with one less, where it is exact.
fn one_less(count: u32) -> u32
    ensures { result < 4294967295 → (count < 4294967295) × (result ≡ count - 1) }
{
    if count == u32::MAX {
        count
    } else {
        count.saturating_sub(1)
    }
}

/// Counts one more element.
pub(crate) fn add_one(counts: &mut [u32], weight: u16)
    ensures size { length counts.new ≡ length counts.old }
    ensures capped { (n : ℕ → ℕ) → AreCapped counts.old n → AreCapped counts.new (λ x. n x + (if weight == x then 1 else 0)) }
    ensures reach { (n : ℕ → ℕ) → Reach counts.old n → Reach counts.new (λ x. n x + (if weight == x then 1 else 0)) }
{
    let place = weight as usize;
    if place < counts.len() {
        counts[place] = one_more(counts[place]);
    }
}

/// Stops counting an element.
fn take_one(counts: &mut [u32], weight: u16)
    ensures size { length counts.new ≡ length counts.old }
    ensures reach { (n : ℕ → ℕ) → Reach counts.old (λ x. n x + (if weight == x then 1 else 0)) → Reach counts.new n }
{
    let place = weight as usize;
    if place < counts.len() {
        counts[place] = one_less(counts[place]);
    }
}

/// Counts more elements.
fn add(level: u8, counts: &mut [u32], elements: &[Element])
    requires first { 1 ≤ level }
    requires last { level ≤ 3 }
    ensures size { length counts.new ≡ length counts.old }
    ensures reach { (n : ℕ → ℕ) → Reach counts.old n → Reach counts.new (λ x. n x + count_at level x elements.now) }
{
    for element in elements {
        add_one(counts, element.weight(level));
    }
}

/// Stops counting elements.
fn take(level: u8, counts: &mut [u32], elements: &[Element])
    requires first { 1 ≤ level }
    requires last { level ≤ 3 }
    ensures size { length counts.new ≡ length counts.old }
    ensures reach { (n : ℕ → ℕ) → Reach counts.old (λ x. n x + count_at level x elements.now) → Reach counts.new n }
{
    for element in elements {
        take_one(counts, element.weight(level));
    }
}

/// Counts elements in place of others.
fn exchange(level: u8, counts: &mut [u32], before: &[Element], elements: &[Element])
    requires first { 1 ≤ level }
    requires last { level ≤ 3 }
    ensures size { length counts.new ≡ length counts.old }
    ensures reach { (n : ℕ → ℕ) → Reach counts.old (λ x. n x + count_at level x before.now) → Reach counts.new (λ x. n x + count_at level x elements.now) }
{
    take(level, counts, before);
    add(level, counts, elements);
}

/// Makes a gap above a weight: the counts of all weights above it go up by one place, but that of the greatest is left out.
fn make_gap(counts: &mut [u32], w: u16)
    ensures { Opens w counts.old counts.new }
{
    let from = w as usize + 1;
    if from < counts.len() {
        counts.copy_within(from..counts.len() - 1, from + 1);
        counts[from] = 0;
    }
}

/// Whether some element has the greatest weight of a level, if that was counted and is known.
fn reaches_limit(level: u8, counts: &[u32]) -> Option<bool>
    ensures { IfSome result (λ at_limit. (t : ElementTable) → AreCounts level counts.now t → at_limit ≡ reaches_limit level t) }
{
    match counts.get(max_weight(level) as usize) {
        Some(count) if *count < u32::MAX => Some(*count > 0),
        _ => None,
    }
}

/// Whether some element has the greatest weight of a level, where all were counted and none was taken away since.
pub(crate) fn has_greatest(level: u8, counts: &[u32]) -> bool
    requires first { 1 ≤ level }
    requires last { level ≤ 3 }
    ensures { (t : ElementTable) → AreAllCounts level counts.now t → result ≡ reaches_limit level t }
{
    match counts.get(max_weight(level) as usize) {
        Some(count) => *count > 0,
        None => false,
    }
}

impl Counts {
    /// Nothing was counted.
    pub(crate) fn new(alloc: Global) -> Counts
        ensures { AreNone result }
    {
        Counts {
            first: Vec::new(alloc),
            second: Vec::new(alloc),
            third: Vec::new(alloc),
        }
    }

    /// Whether nothing was counted.
    pub(crate) fn are_none(&self) -> bool
        ensures { IsTrue result → AreNone self.now }
    {
        self.first.is_empty() && self.second.is_empty() && self.third.is_empty()
    }

    /// Takes the counts of a level, 1 to 3.
    pub(crate) fn set(&mut self, level: u8, counts: Vec<u32>)
        requires first { 1 ≤ level }
        requires last { level ≤ 3 }
        ensures { (t : ElementTable) → AreAllCounts level counts.items t → HaveCounts self.old t → HaveCounts self.new t }
    {
        match level {
            1 => self.first = counts,
            2 => self.second = counts,
            _ => self.third = counts,
        }
    }

    /// Makes a gap above a weight of a level, 1 to 3.
    pub(crate) fn make_gap(&mut self, level: u8, w: u16)
        requires first { 1 ≤ level }
        requires last { level ≤ 3 }
        ensures { (t : ElementTable) → HaveCounts self.old t → HaveCounts self.new (table_with_gap level w t) }
    {
        match level {
            1 => make_gap(&mut self.first, w),
            2 => make_gap(&mut self.second, w),
            _ => make_gap(&mut self.third, w),
        }
    }

    /// Counts the elements that a key gets in place of those that it had.
    pub(crate) fn exchange(&mut self, before: &[Element], elements: &[Element])
        ensures some { (t : ElementTable) (key : List ℕ) → before.now ≡ elements_or_none t key → HaveCounts self.old t → HaveCounts self.new (with_entry t key elements.now) }
        ensures none { AreNone self.old → AreNone self.new }
    {
        exchange(1, &mut self.first, before, elements);
        exchange(2, &mut self.second, before, elements);
        exchange(3, &mut self.third, before, elements);
    }

    /// Whether some element of a table has the greatest weight of a level, 1 to 3, if that was counted and is known.
    pub(crate) fn reaches_limit(&self, level: u8) -> Option<bool>
        requires first { 1 ≤ level }
        requires last { level ≤ 3 }
        ensures { IfSome result (λ at_limit. (t : ElementTable) → HaveCounts self.now t → at_limit ≡ reaches_limit level t) }
    {
        match level {
            1 => reaches_limit(1, &self.first),
            2 => reaches_limit(2, &self.second),
            _ => reaches_limit(3, &self.third),
        }
    }
}
