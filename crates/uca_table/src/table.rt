ghost use Rattle.std.specs.Prelude.{◌≡◌, ℕ, List, ◌≤◌, ◌<◌, ◌^◌, ◌++◌, ◌∷◌, [], length, chars, All, option_copied, IfSome, IfOk, OnOk, OnErr, IsTrue, MatchResult, None};
ghost use Rattle.unicode_normalization.specs.Forms.{nfd};
ghost use Rattle.uca_model.specs.CollationElements.{elements};
ghost use Rattle.uca_model.specs.StandAlone.{joining, bearing};
ghost use Rattle.std.specs.Option.{ForSome};
ghost use Rattle.uca_model.specs.Table.{ElementTable, with_ideographs, IsElement, IsTable, elements_at, key_cmp, longest};
ghost use Rattle.uca_model.specs.UnifiedIdeographs.{AreIdeographs};
ghost use Rattle.uca_table.specs.Ascending.{AreStored, table_of, longest_of, AreAscending};
ghost use Rattle.uca_table.specs.Cells.{HoldsCharacters};
ghost use Rattle.uca_table.specs.Coded.{coded_table};
ghost use Rattle.uca_keys.specs.Paths.{entries_of};
ghost use Rattle.uca_weights.specs.declared.limits.TheConstants.{MAX_KEY, MAX_ELEMENTS};
ghost use Rattle.uca_table.specs.Lead.{IsLead, IsLeadWeight};
ghost use Rattle.uca_table.specs.Builder.{ideographs_fault, reported_range_fault, with_more_ideographs};
ghost use Rattle.uca_model.specs.ImplicitWeights.{implicit};
ghost use Rattle.uca_model.specs.Prefix.{is_closed, is_silent};
ghost use Rattle.uca_model.specs.SafeCut.{is_cut, is_safe_starter};
ghost use Rattle.std.specs.FinMap.{entries, from_sorted};
ghost use Rattle.uca_model.specs.Ranges.{AreByFirst};

use crate::cells::{Cells, push_run, push_text};
use crate::characters::{Character, Characters};
use crate::fault::RangeFault;
use crate::ranges::Ranges;
use crate::walk::Walk;
use crate::{ideographs, implicit_weights, scan};
use std::alloc::{AllocError, Global};
use std::marker::Model;
use uca_keys::{Cursor, Entries, Nodes, Trie};
use uca_weights::{Element, Ideographs, Range};

/// A collation element table: a finite map from keys to their elements, with ranges of implicit weights and of
/// ideographs.
#[derive(Drop)]
pub struct Table {
    pub(crate) keys: Trie,
    pub(crate) ranges: Ranges,
    // By their first code points.
    pub(crate) ideographs: Vec<Ideographs>,
    pub(crate) longest_key: usize,
    // What is known about single characters; nothing once ranges of ideographs were added, or where memory was refused.
    pub(crate) cells: Option<Cells>,
}

impl Model for Table {
    ghost Value = { ElementTable };

    ghost coded = { coded_table };

    ghost view = { λ t. with_ideographs (table_of (entries_of t.keys) t.ranges) t.ideographs.items };

    ghost invariant = { λ t. AreStored (entries_of t.keys) t.ranges × (t.longest_key ≡ longest_of (entries_of t.keys)) × AreIdeographs t.ideographs.items × ForSome t.cells (HoldsCharacters (with_ideographs (table_of (entries_of t.keys) t.ranges) t.ideographs.items)) };
}

impl Table {
    ghost use Rattle.uca_table.specs.Characters.{IsCharacter, table_of_characters};
    ghost use Rattle.uca_table.specs.Walk.{path_of, table_of_walk};

    /// The collation elements of a key, 1 to `MAX_ELEMENTS` of them (UTS #10, section 3). `None`: it is no key.
    pub fn get(&self, key: &[char]) -> Option<&[Element]>
        ensures value { option_copied result ≡ elements_at self.now key.now }
        ensures some { IfSome result (λ es. 0 < length es.now) }
        ensures few { IfSome result (λ es. length es.now ≤ MAX_ELEMENTS) }
        ensures elements { IfSome result (λ es. All IsElement es.now) }
    {
        self.keys.get(key)
    }

    /// The elements of a key of one code point. `None`: it is no key. Where the code points of several calls ascend, with the same
    /// `near`, there is no search.
    pub(crate) fn get_near(&self, point: char, near: &mut usize) -> Option<&[Element]>
        ensures value { option_copied result ≡ elements_at self.now (point ∷ []) }
        ensures some { IfSome result (λ es. 0 < length es.now) }
    {
        self.keys.get_near(point, near)
    }

    /// A walk along the keys that has not been stepped yet.
    #[tactic(auto, using(crate::proofs::EntryLemmas::stored))]
    pub fn walk(&self) -> Walk<'_>
        ensures table { table_of_walk result ≡ self.now }
        ensures path { path_of result ≡ [] }
    {
        Walk::new(self, &self.keys)
    }

    /// The length of the longest key in code points, or 1 where there is no key.
    #[tactic(auto, using(crate::proofs::EntryLemmas::limits))]
    pub fn longest(&self) -> usize
        ensures value { result ≡ longest self.now }
        ensures valid { IsTable self.now }
        ensures bounds { (1 ≤ result) × (result ≤ MAX_KEY) }
    {
        self.longest_key
    }

    /// The two collation elements of a code point that is no key where it stands alone. Their primary weights are
    /// made from the code point (UTS #10, section 10.1.3).
    pub fn implicit(&self, c: char) -> [Element; 2]
        ensures { result ≡ implicit self.now c }
    {
        implicit_weights::implicit(&self.ranges, self.ideographs.as_slice(), c)
    }

    /// The entries by key order: by code points, a proper prefix first.
    #[tactic(auto, using(crate::proofs::EntryLemmas::stored))]
    pub fn entries(&self) -> Entries<'_>
        ensures value { result ≡ entries self.now.entries }
        ensures few { length (entries self.now.entries) < 2 ^ 64 }
    {
        self.keys.entries()
    }

    /// A walk along the entries by key order, before the first one.
    #[tactic(auto, using(crate::proofs::EntryLemmas::stored))]
    pub(crate) fn cursor(&self) -> Cursor<'_>
        ensures { result.coming ≡ entries self.now.entries }
    {
        self.keys.cursor()
    }

    /// A table with the same ranges and other entries, with cells where memory is not refused for them.
    pub(crate) fn with_entries(
        &self,
        alloc: Global,
        entries: Nodes,
        longest_key: usize,
    ) -> Result<Table, AllocError>
        requires ascending { AreAscending entries }
        requires longest { longest_key ≡ longest_of entries }
        ensures { IfOk result (λ t. t ≡ record { entries = from_sorted {R = key_cmp} entries; ranges = self.now.ranges; ideographs = self.now.ideographs }) }
    {
        let table = Table {
            ranges: self.ranges.try_clone(alloc)?,
            ideographs: self.ideographs.as_slice().to_vec(alloc)?,
            keys: entries.finish(alloc)?,
            longest_key,
            cells: None,
        };
        Ok(table.prepared(alloc))
    }

    /// The ranges of implicit weights by their first code points.
    pub fn ranges(&self) -> &[Range]
        ensures value { result.now ≡ self.now.ranges }
        ensures by_first { AreByFirst result.now }
    {
        self.ranges.as_slice()
    }

    /// The ranges of unified ideographs besides the listed ones, by their first code points.
    pub fn ideographs(&self) -> &[Ideographs]
        ensures value { result.now ≡ self.now.ideographs }
        ensures valid { AreIdeographs result.now }
    {
        self.ideographs.as_slice()
    }

    /// Makes the code points from `first` to `last`, both inclusive, unified ideographs. Where such a code point has
    /// no key, its implicit weights are those of an ideograph, unless it is assigned and lies in a range of implicit
    /// weights (UTS #10, section 10.1.3). On a fault the table stays as it is.
    pub fn add_ideographs(&mut self, first: char, last: char) -> Result<(), RangeFault>
        ensures ok { OnOk result (self.new ≡ with_more_ideographs self.old (record { first = first; last = last })) }
        ensures err { OnErr result (self.new ≡ self.old) }
        ensures fault { let fault = ideographs_fault self.old.ideographs (record { first = first; last = last }) in MatchResult result (λ _. fault ≡ None) (λ f. fault ≡ reported_range_fault f) }
    {
        ideographs::add(&mut self.ideographs, Ideographs { first, last })?;
        self.cells = None;
        Ok(())
    }

    /// Whether a text may be cut before a code point, so that its two parts have their elements independently: a starter
    /// that is in no key at the second place or later, and whose keys all begin with a primary weight.
    pub fn safe_starter(&self, c: char) -> bool
        ensures { result ≡ is_safe_starter self.now c }
    {
        scan::is_safe_starter(self, c)
    }

    /// Whether a text may be cut before a character: the NFD of the character begins with a safe starter.
    pub fn is_cut(&self, c: char) -> bool
        ensures { result ≡ is_cut self.now c }
    {
        scan::is_cut(self, c)
    }

    /// Whether no match that began before a starter goes on after it, and every key that begins with it has its primary weights.
    pub fn is_closed(&self, s: char) -> bool
        ensures { result ≡ is_closed self.now s }
    {
        scan::is_closed(self, s)
    }

    /// Whether a code point has no primary weight, and no key that begins with it has one.
    pub fn is_silent(&self, c: char) -> bool
        ensures { result ≡ is_silent self.now c }
    {
        scan::is_silent(self, c)
    }

    /// Rebuilds the cells, which quick look-ups use and `add_ideographs` drops. Call it after the last change of a
    /// table. The entries and ranges stay the same, also where memory is refused.
    pub fn prepare(&mut self, alloc: Global) -> Result<(), AllocError>
        ensures { self.new ≡ self.old }
    {
        self.cells = Some(Cells::new(alloc, self)?);
        Ok(())
    }

    /// The table with cells, where memory is not refused for them.
    pub(crate) fn prepared(mut self, alloc: Global) -> Table
        ensures { result ≡ self }
    {
        let _known = self.prepare(alloc);
        self
    }

    /// Frees what is kept about single characters, by which texts are read fast. A table that is only tailored does without it.
    pub fn forget_characters(&mut self, _alloc: Global)
        ensures { self.new ≡ self.old }
    {
        self.cells = None;
    }

    /// What is known about single characters, for the many look-ups of a text. It does not allocate. `None`: nothing is known.
    #[inline(always)]
    pub fn characters(&self) -> Option<Characters<'_>>
        ensures { IfSome result (λ known. table_of_characters known ≡ self.now) }
    {
        Some(self.cells.as_ref()?.characters(self))
    }

    /// Whether a character joins nothing before it, so that a text that ends before it and one that begins with
    /// it have their collation elements independently (UTS #10, section 7.2). It does not allocate. `false` means that it is not known.
    #[inline(always)]
    pub fn joins_nothing(&self, c: char) -> bool
        ensures { IsTrue result → joining self.now c ≡ 0 }
    {
        self.characters()
            .is_some_and(|characters| characters.joins_nothing(c))
    }

    /// Whether a text after a character has its collation elements by itself, whatever comes before the character (UTS #10,
    /// section 7.2). It does not allocate. `false` means that it is not known.
    #[inline(always)]
    pub fn bears_all(&self, c: char) -> bool
        ensures { IsTrue result → 3 ≤ bearing self.now c }
    {
        self.characters()
            .is_some_and(|characters| characters.bears_all(c))
    }

    /// The collation elements of a character after text that bears so much after it, and what the character bears (UTS #10, section
    /// 7.2): the text before has its elements independently of it. It does not allocate. `None`: that is not known.
    #[inline(always)]
    pub fn character_after(&self, bearing: u8, c: char) -> Option<Character<'_>>
        ensures character { IfSome result (IsCharacter self.now c) }
        ensures joins { IfSome result (λ _. joining self.now c ≤ bearing) }
    {
        self.characters()?.after(bearing, c)
    }

    /// The collation elements of a character before other text, where that text does not change them (UTS #10, section 7.2).
    /// It does not allocate. `None`: they are not known without a look at more of the text.
    #[inline(always)]
    pub fn alone_before(&self, c: char, after: &str) -> Option<&[Element]>
        ensures { IfSome result (λ es. es.now ++ elements self.now (nfd (chars after.now)) ≡ elements self.now (nfd (c ∷ chars after.now))) }
    {
        self.characters()?.alone_before(c, after)
    }

    /// The first collation element of a character, where it has a primary weight and no other has. Neither the text before the
    /// character nor that after it changes its elements (UTS #10, section 7.2). It does not allocate. `None`: that is not known.
    #[inline(always)]
    pub fn lead(&self, c: char) -> Option<&Element>
        ensures joins { IfSome result (λ _. joining self.now c ≡ 0) }
        ensures lead { IfSome result (λ e. IsLead e.now (elements self.now (nfd (c ∷ [])))) }
        ensures alone { IfSome result (λ _. (after : List ℕ) → elements self.now (nfd (c ∷ [])) ++ elements self.now (nfd after) ≡ elements self.now (nfd (c ∷ after))) }
    {
        self.characters()?.lead(c)
    }

    /// The primary weight of the first collation element of a character below U+0800, where it has one and no other has. Neither the
    /// text before the character nor that after it changes its elements (UTS #10, section 7.2). It does not allocate. `None`: that is
    /// not known.
    #[inline(always)]
    pub fn lead_weight(&self, c: char) -> Option<u16>
        ensures weight { IfSome result (IsLeadWeight self.now c) }
        ensures some { IfSome result (λ w. 0 < w) }
    {
        self.cells.as_ref()?.lead_weight(self, c)
    }

    /// The collation elements of a character, where no text after it changes them (UTS #10, section 7.2). It does not
    /// allocate. `None`: they are not known.
    pub fn always_alone(&self, c: char) -> Option<&[Element]>
        ensures { IfSome result (λ es. (after : List ℕ) → es.now ++ elements self.now (nfd after) ≡ elements self.now (nfd (c ∷ after))) }
    {
        self.characters()?.always_alone(c)
    }

    /// The implicit elements of a character, where no text after it changes them (UTS #10, section 10.1.3). It does not allocate.
    /// `None`: keys may begin with it, or that is not known.
    pub fn implicit_alone(&self, c: char) -> Option<[Element; 2]>
        ensures { IfSome result (λ es. (after : List ℕ) → es ++ elements self.now (nfd after) ≡ elements self.now (nfd (c ∷ after))) }
    {
        self.cells.as_ref()?.implicit_alone(self, c)
    }

    /// Appends the collation elements of a text (UTS #10, sections 7.1 and 7.2, steps S1 and S2).
    pub fn push_elements(
        &self,
        alloc: Global,
        out: &mut Vec<Element>,
        text: &[char],
    ) -> Result<(), AllocError>
        ensures { OnOk result (out.new.items ≡ out.old.items ++ elements self.now (nfd text.now)) }
    {
        match &self.cells {
            Some(cells) => push_text(alloc, out, self, cells, text),
            None => push_run(&mut Vec::new(alloc), out, self, text),
        }
    }
}
