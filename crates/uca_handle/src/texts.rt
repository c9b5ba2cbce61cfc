ghost use Rattle.uca_handle.specs.Calls.{Checks, ComparesBy, TellsFault};

use crate::faults::CompareFault;
use std::cmp::Ordering;
use uca_levels::compare;
use uca_table::Table;
use uca_weights::Settings;
use uca_window::{Passage, TextFault, is_text_line};

/// The fault of a text, if it has one. It is not inlined, so that texts without one do not pay for its stack frame.
#[inline(never)]
fn look(text: &[u8]) -> Result<(), TextFault>
    ensures { Checks text.now result }
{
    match Passage::of_bytes(text) {
        Ok(_) => Ok(()),
        Err(fault) => Err(fault),
    }
}

/// Whether bytes are a text that can be collated: UTF-8 whose runs of nonstarters are short. It does not allocate.
pub fn check(text: &[u8]) -> Result<(), TextFault>
    ensures { Checks text.now result }
{
    if is_text_line(text) {
        return Ok(());
    }
    look(text)
}

/// The fault of the first of two texts that has one.
#[inline(never)]
fn find_fault(a: &[u8], b: &[u8]) -> Option<CompareFault>
    ensures { TellsFault a.now b.now result }
{
    if let Err(fault) = look(a) {
        return Some(CompareFault::First(fault));
    }
    if let Err(fault) = look(b) {
        return Some(CompareFault::Second(fault));
    }
    None
}

/// The same. Most texts have no fault, and then none is put into memory.
#[inline(always)]
pub(crate) fn fault_of(a: &[u8], b: &[u8]) -> Option<CompareFault>
    ensures { TellsFault a.now b.now result }
{
    if is_text_line(a) && is_text_line(b) {
        return None;
    }
    find_fault(a, b)
}

/// The order of the sort keys of two texts, or the fault of the first of them that has one.
pub(crate) fn order_of(t: &Table, s: Settings, a: &[u8], b: &[u8]) -> Result<Ordering, CompareFault>
    ensures { ComparesBy t.now s a.now b.now result }
{
    if let Some(fault) = fault_of(a, b) {
        return Err(fault);
    }
    let (left, right) = (Passage::of_checked(a), Passage::of_checked(b));
    Ok(compare(t, s, &left, &right))
}
