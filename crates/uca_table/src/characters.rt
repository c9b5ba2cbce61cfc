ghost use Rattle.std.specs.Prelude.{◌≡◌, ◌+◌, ◌∷◌, ◌++◌, [], ◌<◌, ◌≤◌, ℕ, List, true, length, take, drop, chars, IfSome, IsTrue};
ghost use Rattle.unicode_normalization.specs.Forms.{nfd};
ghost use Rattle.uca_model.specs.CollationElements.{elements};
ghost use Rattle.uca_model.specs.SafeCut.{is_cut};
ghost use Rattle.uca_model.specs.StandAlone.{joining, bearing};
ghost use Rattle.uca_table.specs.Cells.{IsCell, AreCells};

use crate::blocks::BLOCK;
use crate::table::Table;
use uca_weights::Element;

/// The elements of a character by itself, and whether it keeps them within a text. Sixteen bytes, since each character of a text is
/// looked up.
#[derive(Clone, Copy)]
pub(crate) struct Cell {
    // Its first element, where no other has a primary weight: most characters of a text are read without a look at the elements of all
    // cells. Otherwise an element without weights.
    pub(crate) element: [Element; 1],
    // Where its elements begin among those of all cells.
    pub(crate) start: u32,
    // How many there are, or 0 where they are not known.
    pub(crate) count: u8,
    // How a text that begins with it may join the text before: 0 not at all, 1 in a key, 2 as nonstarters too.
    pub(crate) joining: u8,
    // The greatest of these that it bears after it; 3 where it bears all, whatever comes before it.
    pub(crate) bearing: u8,
    // Whether a text may be cut before it. `false`: that is not known.
    pub(crate) cut: bool,
}

/// A character by itself: its elements, and what it bears after it.
#[derive(Clone, Copy)]
pub struct Character<'t> {
    /// Its collation elements where it stands alone (UTS #10, section 7.2).
    pub elements: &'t [Element],
    /// How text after it may join it, at most, for both to have their elements independently: 0 not at all, 1 in a key, from 2 on in
    /// any way.
    pub bearing: u8,
}

/// What is known of the characters of a table, for look-ups: these are what most of the reading of a text takes.
#[derive(Clone, Copy)]
pub struct Characters<'t> {
    pub(crate) table: &'t Table,
    // Of each block of code points, the number of its block of cells.
    pub(crate) blocks: &'t [u16],
    pub(crate) cells: &'t [Cell],
    // The elements of all cells.
    pub(crate) elements: &'t [Element],
    ghost sound: { AreCells table.now elements.now blocks.now cells.now },
}

impl<'t> Characters<'t> {
    ghost use Rattle.uca_table.specs.Characters.{IsCharacter, table_of_characters};
    ghost use Rattle.uca_table.specs.Lead.{IsLead, IsLeadWeight};

    // The cell of a character. Neither index is checked when this runs: every block of code points has a block of cells.
    #[inline(always)]
    fn cell(&self, c: char) -> &'t Cell
        ensures { IsCell self.now.table.now self.now.elements.now c result.now }
    {
        let block = self.blocks[c as usize / BLOCK] as usize;
        &self.cells[block * BLOCK + c as usize % BLOCK]
    }

    // The elements of a character by itself. `None`: they are not known.
    #[inline(always)]
    fn elements_of(&self, c: char, cell: &'t Cell) -> Option<&'t [Element]>
        requires { IsCell self.now.table.now self.now.elements.now c cell.now }
        ensures { IfSome result (λ es. es.now ≡ elements self.now.table.now (nfd (c ∷ []))) }
    {
        if cell.count == 1 {
            return Some(&cell.element);
        }
        if cell.count == 0 {
            return None;
        }
        let start = cell.start as usize;
        Some(&self.elements[start..start + cell.count as usize])
    }

    // How a character joins what comes before it, at most.
    #[inline(always)]
    fn joining(&self, c: char) -> u8
        ensures { joining self.now.table.now c ≤ result }
    {
        self.cell(c).joining
    }

    // How characters join what comes before them, at most; not at all where there are none.
    fn joining_of_characters(&self, text: &[char]) -> u8
        ensures { (c : ℕ) (later : List ℕ) → text.now ≡ c ∷ later → joining self.now.table.now c ≤ result }
    {
        match text.first() {
            Some(c) => self.joining(*c),
            None => 0,
        }
    }

    // How a text joins what comes before it, at most; not at all where it is empty.
    fn joining_of_text(&self, text: &str) -> u8
        ensures { (c : ℕ) (later : List ℕ) → chars text.now ≡ c ∷ later → joining self.now.table.now c ≤ result }
    {
        match text.chars().next() {
            Some(c) => self.joining(c),
            None => 0,
        }
    }

    /// Whether a text may be cut before a character. `false`: that is not known.
    pub(crate) fn is_cut(&self, c: char) -> bool
        ensures { IsTrue result → is_cut (table_of_characters self.now) c ≡ true }
    {
        self.cell(c).cut
    }

    /// Whether a text may be cut after a character, whatever comes before it. `false`: that is not known.
    #[inline(always)]
    pub(crate) fn bears_all(&self, c: char) -> bool
        ensures { IsTrue result → 3 ≤ bearing (table_of_characters self.now) c }
    {
        self.cell(c).bearing == 3
    }

    /// Whether a character joins nothing before it. `false`: that is not known.
    #[inline(always)]
    pub(crate) fn joins_nothing(&self, c: char) -> bool
        ensures { IsTrue result → joining (table_of_characters self.now) c ≡ 0 }
    {
        self.joining(c) == 0
    }

    /// The collation elements of a character after text that bears so much after it, and what the character bears (UTS #10, section
    /// 7.2): the text before has its elements independently of it. It does not allocate. `None`: that is not known.
    #[inline(always)]
    pub fn after(&self, bearing: u8, c: char) -> Option<Character<'t>>
        ensures character { IfSome result (IsCharacter (table_of_characters self.now) c) }
        ensures joins { IfSome result (λ _. joining (table_of_characters self.now) c ≤ bearing) }
    {
        let cell = self.cell(c);
        if cell.joining > bearing {
            return None;
        }
        Some(Character {
            elements: self.elements_of(c, cell)?,
            bearing: cell.bearing,
        })
    }

    /// The elements of a character before others, where they stand alone. The next one is looked up only where they may depend on it.
    pub(crate) fn alone(&self, c: char, after: &[char]) -> Option<&'t [Element]>
        ensures { IfSome result (λ es. es.now ++ elements (table_of_characters self.now) (nfd after.now) ≡ elements (table_of_characters self.now) (nfd (c ∷ after.now))) }
    {
        let cell = self.cell(c);
        if cell.bearing < 2 && self.joining_of_characters(after) > cell.bearing {
            return None;
        }
        self.elements_of(c, cell)
    }

    /// The elements of a character before other text, where they stand alone. That text is looked at only where they may depend on it.
    #[inline(always)]
    pub(crate) fn alone_before(&self, c: char, after: &str) -> Option<&'t [Element]>
        ensures { IfSome result (λ es. es.now ++ elements (table_of_characters self.now) (nfd (chars after.now)) ≡ elements (table_of_characters self.now) (nfd (c ∷ chars after.now))) }
    {
        let cell = self.cell(c);
        if cell.bearing >= 2 && cell.count == 1 {
            return Some(&cell.element);
        }
        if cell.bearing < 2 && self.joining_of_text(after) > cell.bearing {
            return None;
        }
        self.elements_of(c, cell)
    }

    /// The first element of a character, where it has a primary weight and no other has. The character joins nothing before it, and
    /// its elements stand alone before every text. `None`: that is not known. Most comparisons end here, so it asks all at once.
    #[inline(always)]
    pub(crate) fn lead(&self, c: char) -> Option<&'t Element>
        ensures joins { IfSome result (λ _. joining (table_of_characters self.now) c ≡ 0) }
        ensures lead { IfSome result (λ e. IsLead e.now (elements (table_of_characters self.now) (nfd (c ∷ [])))) }
        ensures alone { IfSome result (λ _. (after : List ℕ) → elements (table_of_characters self.now) (nfd (c ∷ [])) ++ elements (table_of_characters self.now) (nfd after) ≡ elements (table_of_characters self.now) (nfd (c ∷ after))) }
    {
        let cell = self.cell(c);
        let [lead] = &cell.element;
        if (cell.joining > 0) | (cell.bearing < 2) | (lead.l1 == 0) {
            return None;
        }
        Some(lead)
    }

    /// The primary weight by which the character of a code point may be read alone, or 0: that is not known.
    pub(crate) fn lead_weight(&self, point: u32) -> u16
        ensures { 0 < result → IsLeadWeight (table_of_characters self.now) point result }
    {
        match char::from_u32(point) {
            Some(c) => match self.lead(c) {
                Some(lead) => lead.l1,
                None => 0,
            },
            None => 0,
        }
    }

    /// The elements of a character, where they stand alone before every text.
    pub(crate) fn always_alone(&self, c: char) -> Option<&'t [Element]>
        ensures { IfSome result (λ es. (after : List ℕ) → es.now ++ elements (table_of_characters self.now) (nfd after) ≡ elements (table_of_characters self.now) (nfd (c ∷ after))) }
    {
        let cell = self.cell(c);
        if cell.bearing < 2 {
            return None;
        }
        self.elements_of(c, cell)
    }

    /// How many characters of a text come before the next that joins nothing.
    #[tactic(auto, using(crate::proofs::CellLemmas::runs))]
    pub(crate) fn run_len(&self, text: &[char]) -> usize
        requires { 0 < length text.now }
        ensures some { 0 < result }
        ensures within { result ≤ length text.now }
        ensures apart { elements (table_of_characters self.now) (nfd (take result text.now)) ++ elements (table_of_characters self.now) (nfd (drop result text.now)) ≡ elements (table_of_characters self.now) (nfd text.now) }
    {
        for at in 1..text.len() {
            if self.joins_nothing(text[at]) {
                return at;
            }
        }
        text.len()
    }
}
