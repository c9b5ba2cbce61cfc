//! The gaps that were made at all three levels.
ghost use Rattle.std.specs.Prelude.{◌≡◌, ◌≤◌, ◌++◌, [], map, OnOk, OnErr};
ghost use Rattle.uca_tailor.specs.Moves.{IsPast, now_of, with_move, moved_element, cut};

use crate::shifts::Shifts;
use std::alloc::{AllocError, Global};
use uca_table::Element;

/// The gaps that were made at each level.
#[derive(Drop)]
pub(crate) struct Moves {
    pub(crate) first: Shifts,
    pub(crate) second: Shifts,
    pub(crate) third: Shifts,
}

/// How often a gap had been made at each level.
#[derive(Clone, Copy)]
pub(crate) struct Stamp {
    pub(crate) first: usize,
    pub(crate) second: usize,
    pub(crate) third: usize,
}

/// Before the first gap.
pub(crate) const START: Stamp = Stamp {
    first: 0,
    second: 0,
    third: 0,
};

impl Moves {
    /// No gap was made.
    pub(crate) fn new(alloc: Global) -> Moves
        ensures { result ≡ record { first = []; second = []; third = [] } }
    {
        Moves {
            first: Shifts::new(alloc),
            second: Shifts::new(alloc),
            third: Shifts::new(alloc),
        }
    }

    /// How often a gap was made until now.
    pub(crate) fn now(&self) -> Stamp
        ensures { result ≡ now_of self.now }
    {
        Stamp {
            first: self.first.len(),
            second: self.second.len(),
            third: self.third.len(),
        }
    }

    /// Makes a gap above a weight of a level, 1 to 3.
    pub(crate) fn make_gap(&mut self, level: u8, w: u16) -> Result<(), AllocError>
        requires first { 1 ≤ level }
        requires last { level ≤ 3 }
        ensures ok { OnOk result (self.new ≡ with_move level w self.old) }
        ensures err { OnErr result (self.new ≡ self.old) }
    {
        match level {
            1 => self.first.push(w),
            2 => self.second.push(w),
            _ => self.third.push(w),
        }
    }

    /// What an element that was added after the first gaps has become.
    pub(crate) fn moved(&self, after: Stamp, element: Element) -> Element
        requires { IsPast self.now after }
        ensures { result ≡ cut (moved_element self.now after element) }
    {
        Element {
            starred: element.starred,
            l1: self.first.moved(1, after.first, element.l1),
            l2: self.second.moved(2, after.second, element.l2),
            l3: self.third.moved(3, after.third, element.l3),
        }
    }

    /// Appends what elements that were added after the first gaps have become.
    pub(crate) fn push_moved(
        &self,
        out: &mut Vec<Element>,
        after: Stamp,
        elements: &[Element],
    ) -> Result<(), AllocError>
        requires { IsPast self.now after }
        ensures { OnOk result (out.new.items ≡ out.old.items ++ map cut (map (moved_element self.now after) elements.now)) }
    {
        for element in elements {
            out.push(self.moved(after, *element))?;
        }
        Ok(())
    }
}
