//! Entries that come in the order of a table, so that each is appended.
ghost use Rattle.std.specs.Prelude.{◌≡◌, IfOk, OnOk, OnErr, MatchResult, None, List};
ghost use Rattle.std.specs.FinMap.{empty, insert, FinMap, from_sorted};
ghost use Rattle.uca_table.specs.Ascending.{append_fault, reported_append_fault, AreAscending, longest_of};
ghost use Rattle.uca_weights.specs.declared.element.Element.{Element};
ghost use Rattle.uca_model.specs.Table.{key_cmp};
ghost use Rattle.uca_table.specs.Coded.{coded_map};

use crate::builder::{show_elements, show_key};
use crate::fault::AppendFault;
use crate::table::Table;
use std::alloc::{AllocError, Global};
use std::cmp::Ordering;
use std::marker::Model;
use uca_keys::Nodes;
use uca_weights::{Element, MAX_ELEMENTS, MAX_KEY};

/// Collects the entries of a table whose keys come in their order: by code points, a proper prefix first.
#[derive(Drop)]
pub struct AscendingEntries {
    entries: Nodes,
    longest_key: usize,
}

impl Model for AscendingEntries {
    ghost Value = { FinMap key_cmp (List Element) };

    ghost coded = { coded_map };

    ghost view = { λ a. from_sorted {R = key_cmp} a.entries };

    ghost invariant = { λ a. AreAscending a.entries × (a.longest_key ≡ longest_of a.entries) };
}

impl AscendingEntries {
    /// No entries.
    #[tactic(auto, using(crate::proofs::EntryLemmas::from_sorted_none))]
    pub fn new(alloc: Global) -> AscendingEntries
        ensures { result ≡ empty }
    {
        AscendingEntries {
            entries: Nodes::new(alloc),
            longest_key: 1,
        }
    }

    /// Appends a key of 1 to `MAX_KEY` code points, which comes after all others, with 1 to `MAX_ELEMENTS` collation
    /// elements (UTS #10, section 3). On a fault the entries stay as they are.
    #[tactic(auto, using(crate::proofs::EntryLemmas::pushing))]
    pub fn push(&mut self, key: &[char], elements: &[Element]) -> Result<(), AppendFault>
        ensures ok { OnOk result (self.new ≡ insert self.old key.now elements.now) }
        ensures err { OnErr result (self.new ≡ self.old) }
        ensures fault { MatchResult result (λ _. append_fault self.old key.now elements.now ≡ None) (λ f. append_fault self.old key.now elements.now ≡ reported_append_fault f) }
    {
        if key.is_empty() {
            return Err(AppendFault::EmptyKey);
        }
        if key.len() > MAX_KEY {
            return Err(AppendFault::KeyTooLong);
        }
        if elements.is_empty() {
            return Err(AppendFault::NoElement);
        }
        if elements.len() > MAX_ELEMENTS {
            return Err(AppendFault::TooManyElements);
        }
        show_key(key);
        show_elements(elements);
        match key.cmp(self.entries.last()) {
            Ordering::Greater => {
                self.entries
                    .push(key, elements)
                    .map_err(|_| AppendFault::OutOfMemory)?;
                self.longest_key = self.longest_key.max(key.len());
                Ok(())
            }
            Ordering::Equal => Err(AppendFault::Repeated),
            Ordering::Less => Err(AppendFault::OutOfOrder),
        }
    }

    /// The table of these entries, with the ranges of implicit weights and of ideographs of another table.
    pub fn finish(self, alloc: Global, other: &Table) -> Result<Table, AllocError>
        ensures { IfOk result (λ t. t ≡ record { entries = self; ranges = other.now.ranges; ideographs = other.now.ideographs }) }
    {
        other.with_entries(alloc, self.entries, self.longest_key)
    }
}
