ghost use Rattle.std.specs.Prelude.{◌≡◌, ◌==◌, ◌<◌, ◌∷◌, [], ℕ, length, get_or, if◌then◌else◌, IfOk, OnOk};
ghost use Rattle.uca_table.specs.Blocks.{place};
ghost use Rattle.uca_model.specs.CollationElements.{elements_or_implicit};
ghost use Rattle.uca_model.specs.Prefix.{have_primaries_of};
ghost use Rattle.uca_table.specs.Marks.{AreMarks, HoldsMarks, Untouched, first_marks, join, later, later_marks, marks, marks_of, said};

use crate::blocks::{BLOCK, BLOCKS, Blocks};
use crate::primaries::{begins_with_primary, have_primaries_of};
use crate::table::Table;
use std::alloc::{AllocError, Global};
use uca_weights::Element;

/// What the keys of a table say about a code point.
#[derive(Clone, Copy)]
pub(crate) struct Marks {
    /// Some key begins with it.
    pub(crate) begins: bool,
    /// Some key of two code points or more begins with it.
    pub(crate) leads: bool,
    /// Some key has it after the first place.
    pub(crate) continues: bool,
    /// Every key keeps it apart: none has it after the first place, and the elements of those that begin with it begin with a
    /// primary weight.
    pub(crate) apart: bool,
    /// No key has it between two other code points.
    pub(crate) ends: bool,
    /// Every key that begins with it has its primary weights.
    pub(crate) keeps: bool,
}

/// The marks of a code point that is in no key.
pub(crate) const UNTOUCHED: Marks = Marks {
    begins: false,
    leads: false,
    continues: false,
    apart: true,
    ends: true,
    keeps: true,
};

impl Marks {
    /// What some keys say, and others.
    #[tactic(auto, unfolding(crate::specs::Marks::join))]
    pub(crate) fn and(self, more: Marks) -> Marks
        ensures { result ≡ join self more }
    {
        Marks {
            begins: self.begins || more.begins,
            leads: self.leads || more.leads,
            continues: self.continues || more.continues,
            apart: self.apart && more.apart,
            ends: self.ends && more.ends,
            keeps: self.keeps && more.keeps,
        }
    }
}

/// The marks of all code points. Each of their blocks has a number.
#[derive(Drop)]
pub(crate) struct MarkTable {
    pub(crate) blocks: Blocks<Marks>,
}

/// So many items, all the same.
pub(crate) fn filled<T: Copy>(alloc: Global, item: T, n: usize) -> Result<Vec<T>, AllocError>
    requires { (x : T) → T.is_clone item x → x ≡ item }
    ensures size { IfOk result (λ v. length v.items ≡ n) }
    ensures each { IfOk result (λ v. (i : ℕ) → get_or v.items i item ≡ item) }
{
    vec![in alloc; item; n]
}

/// Whether elements have the primary weights of a code point.
pub(crate) fn have_primaries_of_point(t: &Table, c: char, elements: &[Element]) -> bool
    ensures { result ≡ have_primaries_of (elements_or_implicit t.now (c ∷ [])) elements.now }
{
    match t.get(&[c]) {
        Some(own) => have_primaries_of(own, elements),
        None => have_primaries_of(&t.implicit(c), elements),
    }
}

/// What a key says about its first code point.
fn first_marks(t: &Table, first: char, others: &[char], elements: &[Element]) -> Marks
    ensures { result ≡ first_marks t.now first others.now elements.now }
{
    let alone = others.is_empty();
    Marks {
        begins: true,
        leads: !alone,
        apart: begins_with_primary(elements),
        keeps: alone || have_primaries_of_point(t, first, elements),
        ..UNTOUCHED
    }
}

/// What a key says about a code point after its first place, by what follows it.
fn later_marks(after: &[char]) -> Marks
    ensures { result ≡ later_marks after.now }
{
    Marks {
        continues: true,
        apart: false,
        ends: after.is_empty(),
        ..UNTOUCHED
    }
}

impl MarkTable {
    /// The marks of a code point, as they are so far.
    pub(crate) fn get(&self, c: char) -> Marks
        requires { AreMarks self.now }
        ensures so_far { result ≡ marks_of self.now c }
        ensures whole { (t : _) → HoldsMarks t self.now → result ≡ marks t c }
    {
        self.blocks.items[self.blocks.place(c)]
    }

    /// Adds what one more key says about a code point.
    fn add(&mut self, c: char, more: Marks) -> Result<(), AllocError>
        requires { AreMarks self.old }
        ensures table { OnOk result (AreMarks self.new) }
        ensures added { OnOk result ((p : ℕ) → marks_of self.new p ≡ (if c == p then join (marks_of self.old p) more else marks_of self.old p)) }
    {
        self.blocks.own(c as usize / BLOCK, UNTOUCHED)?;
        let known = self.get(c);
        self.blocks.put(c, known.and(more));
        Ok(())
    }

    /// Marks the code points that a key has after its first place.
    fn mark_later(&mut self, points: &[char]) -> Result<(), AllocError>
        requires { AreMarks self.old }
        ensures table { OnOk result (AreMarks self.new) }
        ensures marks { OnOk result ((p : ℕ) → marks_of self.new p ≡ join (marks_of self.old p) (later p points.now)) }
    {
        let mut rest = points;
        while let Some((c, after)) = rest.split_first() {
            self.add(*c, later_marks(after))?;
            rest = after;
        }
        Ok(())
    }

    /// Marks the code points of a key.
    fn mark_key(&mut self, t: &Table, key: &[char], elements: &[Element]) -> Result<(), AllocError>
        requires { AreMarks self.old }
        ensures table { OnOk result (AreMarks self.new) }
        ensures marks { OnOk result ((p : ℕ) → marks_of self.new p ≡ join (marks_of self.old p) (said t.now p (key.now, elements.now))) }
    {
        let Some((first, others)) = key.split_first() else {
            return Ok(());
        };
        self.add(*first, first_marks(t, *first, others, elements))?;
        self.mark_later(others)?;
        Ok(())
    }

    /// Marks the code points of all keys, where none is marked yet.
    #[tactic(auto, using(crate::proofs::MarkLemmas::keys_said))]
    fn mark_keys(&mut self, t: &Table) -> Result<(), AllocError>
        requires table { AreMarks self.old }
        requires fresh { (p : ℕ) → marks_of self.old p ≡ Untouched }
        ensures { OnOk result (HoldsMarks t.now self.new) }
    {
        let mut cursor = t.cursor();
        'entries: while let Some(elements) = cursor.advance() {
            self.mark_key(t, cursor.key(), elements)?;
        }
        Ok(())
    }

    /// Gives all blocks of code points up to a number marks of their own.
    fn own_up_to(&mut self, t: &Table, end: usize) -> Result<(), AllocError>
        requires { HoldsMarks t.now self.old }
        ensures { OnOk result (HoldsMarks t.now self.new) }
    {
        for block in 0..end.min(BLOCKS as usize) {
            self.blocks.own(block, UNTOUCHED)?;
        }
        Ok(())
    }

    /// The marks of a table. Blocks up to a number have marks of their own, whether or not a key has their code points.
    pub(crate) fn new(alloc: Global, t: &Table, end: usize) -> Result<MarkTable, AllocError>
        ensures { IfOk result (λ made. HoldsMarks t.now made) }
    {
        let blocks = Blocks {
            numbers: filled(alloc, 0, BLOCKS as usize)?,
            items: filled(alloc, UNTOUCHED, BLOCK)?,
        };
        let mut made = MarkTable { blocks };
        made.mark_keys(t)?;
        made.own_up_to(t, end)?;
        Ok(made)
    }
}
