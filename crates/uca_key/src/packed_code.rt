//! The code of primary weights in packed keys: what a table says of common characters, with a slot for each weight.
ghost use Rattle.std.specs.Prelude.{◌≡◌, true, false, IfOk, MatchOption, slice_index};
ghost use Rattle.uca_key.specs.PrimaryCode.{anchor_of, code_of};
ghost use Rattle.uca_key.specs.WeightCodes.{IsCodeOf, IsWindow, keeps_window};

use crate::weight_codes::{WeightCode, WeightCodes};
use crate::windows::{Window, windows_of};
use std::alloc::{AllocError, Global};
use std::marker::Model;
use uca_table::Table;

/// The code of primary weights under a table. It takes some 0.9 MB, and more time to make than many keys, so who makes keys by one
/// table keeps its code beside it.
#[derive(Drop)]
pub struct PackedCode {
    codes: WeightCodes,
    windows: Vec<Window>,
}

impl Model for PackedCode {
    ghost use Rattle.uca_key.specs.PrimaryCode.{PrimaryCode};
    ghost use Rattle.uca_key.specs.WeightCodes.{AreWindows, coded_code};

    ghost Value = { PrimaryCode };

    ghost coded = { coded_code };

    ghost view = { λ c. c.codes };

    ghost invariant = { λ c. AreWindows c.codes c.windows.items };
}

impl PackedCode {
    /// Makes the code under a table. `AllocError`: an allocation was refused.
    pub fn new(alloc: Global, t: &Table) -> Result<PackedCode, AllocError>
        ensures { IfOk result (λ k. k ≡ code_of t.now) }
    {
        let codes = WeightCodes::new(alloc, t)?;
        let windows = windows_of(alloc, &codes)?;
        Ok(PackedCode { codes, windows })
    }

    /// What the code has of a weight.
    #[inline(always)]
    pub(crate) fn of(&self, w: u16) -> WeightCode
        ensures { IsCodeOf self.now w result }
    {
        self.codes.of(w)
    }

    /// The window of each text before its first weight.
    #[inline(always)]
    pub(crate) fn first_window(&self) -> &Window
        ensures base { result.now.base ≡ slice_index self.now.anchors 0 }
        ensures window { IsWindow self.now result.now }
    {
        &self.windows[0]
    }

    /// The window after a weight outside the one before, unless that stays.
    #[inline(always)]
    pub(crate) fn next_window(&self, w: u16) -> Option<&Window>
        ensures { MatchOption result (keeps_window self.now w ≡ true)
            (λ n. (keeps_window self.now w ≡ false) × (n.now.base ≡ anchor_of self.now w) × IsWindow self.now n.now) }
    {
        let next = self.of(w).next as usize;
        if next == 0 {
            return None;
        }
        Some(&self.windows[next - 1])
    }
}
