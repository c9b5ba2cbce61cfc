ghost use Rattle.std.specs.Prelude.{◌≡◌, true, ◌+◌, ◌/◌, ◌∷◌, ◌++◌, [], ◌<◌, ◌≤◌, ℕ, List, length, take, drop, get_or, IfOk, IfSome, OnOk, IsTrue};
ghost use Rattle.unicode_normalization.specs.Decompose.{decompose_canonical};
ghost use Rattle.unicode_normalization.specs.Forms.{nfd};
ghost use Rattle.unicode_normalization.specs.Order.{is_starter};
ghost use Rattle.uca_model.specs.CollationElements.{elements};
ghost use Rattle.uca_model.specs.SafeCut.{begins_apart};
ghost use Rattle.uca_model.specs.StandAlone.{joining_of, bearing_of};
ghost use Rattle.uca_table.specs.Cells.{IsCell, HoldsCells, HoldsCharacters, Grows};
ghost use Rattle.uca_table.specs.Lead.{HoldsLeads, IsLead, IsLeadWeight, first_of};
ghost use Rattle.uca_table.specs.Characters.{table_of_characters};
ghost use Rattle.uca_table.specs.Marks.{HoldsMarks};

use crate::blocks::{BLOCK, BLOCKS};
use crate::characters::{Cell, Characters};
use crate::collation::{push_found, push_matches};
use crate::marks::{MarkTable, filled};
use crate::table::Table;
use std::alloc::{AllocError, Global};
use uca_weights::Element;
use unicode_normalization::char::{canonical_combining_class, decomposition};
use unicode_normalization::{Form, slice};

/// Characters below this one have cells, whether they have a key or not.
const LIMIT: usize = 0x1_0000;

/// A table whose keys have fewer nodes is small.
const FEW: usize = 256;

/// Characters of a small table below this one have cells. All those below `LIMIT` would take longer than the table takes to read.
const LIMIT_OF_FEW: usize = 0x1000;

/// How many blocks of cells every table may have besides those below `LIMIT`.
const FEW_BLOCKS: usize = 64;

/// A table may have one more block of cells for this many nodes of its keys.
const NODES_OF_A_BLOCK: usize = 8;

/// Characters below this one, those of one or two bytes, have their leads' weights beside their cells.
const LEADS: usize = 0x800;

/// The cell of a character about which nothing is known.
const UNKNOWN: Cell = Cell {
    element: [NO_ELEMENT],
    start: 0,
    count: 0,
    joining: 2,
    bearing: 0,
    cut: false,
};

// What a cell has in place of its first element where others may have a primary weight, or none is known.
const NO_ELEMENT: Element = Element {
    starred: false,
    l1: 0,
    l2: 0,
    l3: 0,
};

/// What a table says about single characters, by blocks: what its keys say about each, and its cell. Blocks in which no key has
/// a code point share one block.
#[derive(Drop)]
pub struct Cells {
    pub(crate) marks: MarkTable,
    // At the places of the marks.
    cells: Vec<Cell>,
    elements: Vec<Element>,
    // The primary weights by which the first characters may be read alone, or 0. They lie close together, and one look tells them.
    leads: Vec<u16>,
}

fn is_starter(c: char) -> bool
    ensures { result ≡ is_starter c }
{
    canonical_combining_class(c) == 0
}

// Whether a character is a starter and its own NFD.
fn is_own_nfd(c: char) -> bool
    ensures { IsTrue result → (decompose_canonical c ≡ c ∷ []) × (is_starter c ≡ true) }
{
    let mut room = ['\0'; 3];
    let [p] = decomposition(c, Form::Nfd, &mut room) else {
        return false;
    };
    *p == c && is_starter(c)
}

// How a code point that is a decomposition by itself joins other text. Its cell says nothing else.
fn joins_of_one(t: &Table, marks: &MarkTable, p: char) -> Cell
    requires { HoldsMarks t.now marks.now }
    ensures joining { (later : List ℕ) → joining_of t.now (p ∷ later) ≤ result.joining }
    ensures bearing { result.bearing ≤ bearing_of t.now (p ∷ []) }
    ensures cut { (later : List ℕ) → IsTrue result.cut → begins_apart t.now (p ∷ later) ≡ true }
{
    let starter = is_starter(p);
    let known = marks.get(p);
    Cell {
        joining: if !starter {
            2
        } else if known.continues {
            1
        } else {
            0
        },
        bearing: if known.leads {
            0
        } else if !starter {
            1
        } else if known.ends {
            3
        } else {
            2
        },
        cut: starter && known.apart,
        ..UNKNOWN
    }
}

// How a character joins other text. `points` are its decomposition: it joins as the first does, and bears what the last does, unless
// one of them leads a key.
fn joins_of(t: &Table, marks: &MarkTable, points: &[char]) -> Cell
    requires { HoldsMarks t.now marks.now }
    ensures joining { joining_of t.now points.now ≤ result.joining }
    ensures bearing { result.bearing ≤ bearing_of t.now points.now }
    ensures cut { IsTrue result.cut → begins_apart t.now points.now ≡ true }
{
    let Some((first, _)) = points.split_first() else {
        return UNKNOWN;
    };
    let joins = joins_of_one(t, marks, *first);
    let mut bearing = joins.bearing;
    for at in 1..points.len() {
        if bearing == 0 {
            continue;
        }
        bearing = joins_of_one(t, marks, points[at]).bearing;
    }
    Cell { bearing, ..joins }
}

// Where elements lie from `start` on, as numbers that fit in a cell; no elements where they do not fit.
fn extent(start: usize, end: usize) -> (u32, u8)
    requires { start ≤ end }
    ensures within { result.0 + result.1 ≤ end }
    ensures place { 0 < result.1 → (result.0 ≡ start) × (result.0 + result.1 ≡ end) }
{
    match (u32::try_from(start), u8::try_from(end - start)) {
        (Ok(start), Ok(count)) => (start, count),
        _ => (0, 0),
    }
}

// What is used again for each cell that is made.
#[derive(Drop)]
struct Buffers {
    // See `Table::get_near`.
    near: usize,
    // The elements of one character.
    elements: Vec<Element>,
}

// Appends the elements of a single code point. For `near` see `Table::get_near`.
#[tactic(auto, using(crate::proofs::CellLemmas::singles))]
fn push_single(
    out: &mut Vec<Element>,
    t: &Table,
    marks: &MarkTable,
    p: char,
    near: &mut usize,
) -> Result<(), AllocError>
    requires { HoldsMarks t.now marks.now }
    ensures { OnOk result (out.new.items ≡ out.old.items ++ elements t.now (p ∷ [])) }
{
    if !marks.get(p).begins {
        return out.extend_from_slice(&t.implicit(p));
    }
    push_found(out, t, &[p], t.get_near(p, near))
}

impl Cells {
    // Appends the elements of a character, by the cells made so far.
    fn push_elements(
        &mut self,
        alloc: Global,
        t: &Table,
        c: char,
        points: &[char],
        buffers: &mut Buffers,
    ) -> Result<(), AllocError>
        requires cells { HoldsCells t.now self.old }
        requires points { points.now ≡ decompose_canonical c }
        ensures elements { OnOk result (self.new.elements.items ≡ self.old.elements.items ++ elements t.now (nfd (c ∷ []))) }
        ensures others { OnOk result (self.new ≡ record self.old { elements = self.new.elements }) }
    {
        if let [p] = points {
            return push_single(&mut self.elements, t, &self.marks, *p, &mut buffers.near);
        }
        buffers.elements.clear();
        push_text(alloc, &mut buffers.elements, t, self, points)?;
        self.elements.extend_from_slice(&buffers.elements)
    }

    // The first element of a cell that has one, or two of which the second has no primary weight, and otherwise none.
    fn lead_of(&self, start: u32, count: u8) -> [Element; 1]
        requires { start + count ≤ length self.now.elements.items }
        ensures one { count ≡ 1 → result ≡ take count (drop start self.now.elements.items) }
        ensures some { 0 < (first_of result).l1 → 0 < count }
        ensures lead { 0 < (first_of result).l1 → IsLead (first_of result) (take count (drop start self.now.elements.items)) }
    {
        let start = start as usize;
        match &self.elements[start..start + count as usize] {
            [e] => [*e],
            [e, mark] if mark.l1 == 0 => [*e],
            _ => [NO_ELEMENT],
        }
    }

    // The cell of a character, whose elements are appended to the others.
    fn cell_of(
        &mut self,
        alloc: Global,
        t: &Table,
        c: char,
        buffers: &mut Buffers,
    ) -> Result<Cell, AllocError>
        requires { HoldsCells t.now self.old }
        ensures cell { IfOk result (λ cell. IsCell t.now self.new.elements.items c cell) }
        ensures others { OnOk result (self.new ≡ record self.old { elements = self.new.elements }) }
        ensures grows { OnOk result (Grows self.old.elements.items self.new.elements.items) }
    {
        let mut room = ['\0'; 3];
        let points = decomposition(c, Form::Nfd, &mut room);
        let joins = joins_of(t, &self.marks, points);
        let before = self.elements.len();
        self.push_elements(alloc, t, c, points, buffers)?;
        let (start, count) = extent(before, self.elements.len());
        let element = self.lead_of(start, count);
        Ok(Cell {
            element,
            start,
            count,
            ..joins
        })
    }

    // Makes the cells of a block of characters that has its own.
    fn fill_block(
        &mut self,
        alloc: Global,
        t: &Table,
        block: u32,
        buffers: &mut Buffers,
    ) -> Result<(), AllocError>
        requires cells { HoldsCells t.now self.old }
        requires within { block < 8704 }
        requires own { 0 < get_or self.old.marks.blocks.numbers.items block 0 }
        ensures { OnOk result (HoldsCells t.now self.new) }
    {
        let first = block * BLOCK as u32;
        for point in first..first + BLOCK as u32 {
            let Some(c) = char::from_u32(point) else {
                continue;
            };
            let cell = self.cell_of(alloc, t, c, buffers)?;
            let at = self.marks.blocks.place(c);
            self.cells[at] = cell;
        }
        Ok(())
    }

    // Makes the cells of all blocks that have their own, as far as they take at most 256 bytes for each node of the table's keys.
    fn fill_blocks(&mut self, alloc: Global, t: &Table) -> Result<(), AllocError>
        requires { HoldsCells t.now self.old }
        ensures { OnOk result (HoldsCells t.now self.new) }
    {
        let mut buffers = Buffers {
            near: 0,
            elements: Vec::new(alloc),
        };
        let mut left = LIMIT / BLOCK + FEW_BLOCKS + t.keys.len() / NODES_OF_A_BLOCK;
        for block in 0..BLOCKS {
            if left > 0 && self.marks.blocks.has_own(block as usize) {
                self.fill_block(alloc, t, block, &mut buffers)?;
                left -= 1;
            }
        }
        Ok(())
    }

    // The primary weights by which the first characters may be read alone, as their cells say.
    fn leads_of(&self, alloc: Global, t: &Table) -> Result<Vec<u16>, AllocError>
        requires { HoldsCells t.now self.now }
        ensures { IfOk result (λ leads. HoldsLeads t.now leads.items) }
    {
        let known = self.characters(t);
        let mut leads = filled(alloc, 0, LEADS)?;
        for point in 0..LEADS {
            leads[point] = known.lead_weight(point as u32);
        }
        Ok(leads)
    }

    /// The cells of a table.
    pub(crate) fn new(alloc: Global, t: &Table) -> Result<Cells, AllocError>
        ensures { IfOk result (λ cells. HoldsCharacters t.now cells) }
    {
        let limit = if t.keys.len() < FEW {
            LIMIT_OF_FEW
        } else {
            LIMIT
        };
        let marks = MarkTable::new(alloc, t, limit / BLOCK)?;
        let cells = vec![in alloc; UNKNOWN; marks.blocks.items.len()]?;
        let mut made = Cells {
            marks,
            cells,
            elements: Vec::new(alloc),
            leads: Vec::new(alloc),
        };
        made.fill_blocks(alloc, t)?;
        made.leads = made.leads_of(alloc, t)?;
        Ok(made)
    }

    /// The cells, for look-ups.
    #[inline(always)]
    pub(crate) fn characters<'t>(&'t self, t: &'t Table) -> Characters<'t>
        requires { HoldsCells t.now self.now }
        ensures { table_of_characters result ≡ t.now }
    {
        Characters {
            table: t,
            blocks: &self.marks.blocks.numbers,
            cells: &self.cells,
            elements: &self.elements,
        }
    }

    /// The primary weight by which a character may be read alone. `None`: that is not known.
    #[inline(always)]
    pub(crate) fn lead_weight(&self, t: &Table, c: char) -> Option<u16>
        requires { HoldsLeads t.now self.now.leads.items }
        ensures weight { IfSome result (IsLeadWeight t.now c) }
        ensures some { IfSome result (λ w. 0 < w) }
    {
        if c as usize >= LEADS {
            return None;
        }
        match self.leads[c as usize] {
            0 => None,
            weight => Some(weight),
        }
    }

    /// The implicit elements of a character with which no key begins and that is a starter and its own NFD.
    #[tactic(auto, using(crate::proofs::CellLemmas::alone_by_implicit))]
    pub(crate) fn implicit_alone(&self, t: &Table, c: char) -> Option<[Element; 2]>
        requires cells { HoldsCells t.now self.now }
        ensures { IfSome result (λ es. (after : List ℕ) → es ++ elements t.now (nfd after) ≡ elements t.now (nfd (c ∷ after))) }
    {
        if self.marks.get(c).begins {
            return None;
        }
        if !is_own_nfd(c) {
            return None;
        }
        Some(t.implicit(c))
    }
}

/// Appends elements. Most characters have one, which is appended without a copy of a slice.
pub fn push_few(out: &mut Vec<Element>, elements: &[Element]) -> Result<(), AllocError>
    ensures { OnOk result (out.new.items ≡ out.old.items ++ elements.now) }
{
    if let [element] = elements {
        out.push(*element)?;
        return Ok(());
    }
    out.extend_from_slice(elements)
}

/// Appends the elements of a text, whatever it is. `points` is a buffer for its code points in NFD.
pub(crate) fn push_run(
    points: &mut Vec<char>,
    out: &mut Vec<Element>,
    t: &Table,
    run: &[char],
) -> Result<(), AllocError>
    ensures { OnOk result (out.new.items ≡ out.old.items ++ elements t.now (nfd run.now)) }
{
    points.clear();
    slice::extend_nfd(points, run)?;
    push_matches(out, t, points)
}

// Appends the elements of the first characters of a text, one or more, whatever they are, and returns the others.
fn push_others<'t>(
    points: &mut Vec<char>,
    out: &mut Vec<Element>,
    t: &Table,
    cells: &Cells,
    text: &'t [char],
) -> Result<&'t [char], AllocError>
    requires some { 0 < length text.now }
    requires cells { HoldsCells t.now cells.now }
    ensures some { IfOk result (λ rest. length rest.now < length text.now) }
    ensures elements { IfOk result (λ rest. out.new.items ++ elements t.now (nfd rest.now) ≡ out.old.items ++ elements t.now (nfd text.now)) }
{
    if let Some(elements) = cells.implicit_alone(t, text[0]) {
        out.extend_from_slice(&elements)?;
        return Ok(&text[1..]);
    }
    let n = cells.characters(t).run_len(text);
    push_run(points, out, t, &text[..n])?;
    Ok(&text[n..])
}

/// Appends the elements of a text. A character whose elements stand alone takes those of its cell.
#[tactic(auto, using(crate::proofs::CellLemmas::texts))]
pub(crate) fn push_text(
    alloc: Global,
    out: &mut Vec<Element>,
    t: &Table,
    cells: &Cells,
    text: &[char],
) -> Result<(), AllocError>
    requires { HoldsCells t.now cells.now }
    ensures { OnOk result (out.new.items ≡ out.old.items ++ elements t.now (nfd text.now)) }
{
    let known = cells.characters(t);
    let mut points = Vec::new(alloc);
    let mut rest = text;
    'characters: while let Some((c, after)) = rest.split_first() {
        rest = match known.alone(*c, after) {
            Some(elements) => {
                push_few(out, elements)?;
                after
            }
            None => push_others(&mut points, out, t, cells, rest)?,
        };
    }
    Ok(())
}
