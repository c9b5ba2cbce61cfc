ghost use Rattle.std.specs.Prelude.{◌≡◌};

use std::alloc::AllocError;
use uca_allkeys::{ReadCause, ReadFault};
use uca_tailor::{RuleCause, RuleFault, TailorCause, TailorFault};
use uca_window::TextFault;

/// Why two texts say no table.
#[derive(Clone, Copy, Debug, PartialEq, Eq)]
pub enum OpenFault {
    /// The text of the table is refused.
    Table(ReadFault),
    /// The rules are not UTF-8 from this byte on.
    RulesNotUtf8(usize),
    /// The text of the rules is refused.
    Rules(RuleFault),
    /// The rules cannot tailor the table.
    Tailor(TailorFault),
    /// An allocation failed.
    OutOfMemory,
}

/// Why a collator does not share its table.
#[derive(Clone, Copy, Debug, PartialEq, Eq)]
pub enum ShareFault {
    /// It has none.
    Closed,
    /// An allocation failed.
    OutOfMemory,
}

/// Why two texts were not compared.
#[derive(Clone, Copy, Debug, PartialEq, Eq)]
pub enum CompareFault {
    /// The collator has no table.
    Closed,
    /// The first text is at fault.
    First(TextFault),
    /// The second text is at fault, and the first is not.
    Second(TextFault),
}

/// Why no sort key was made, or no matches were found.
#[derive(Clone, Copy, Debug, PartialEq, Eq)]
pub enum KeyFault {
    /// The collator has no table.
    Closed,
    /// The text is at fault.
    Text(TextFault),
    /// An allocation failed.
    OutOfMemory,
}

/// Why a text has no bounds of the keys that begin as its own does.
#[derive(Clone, Copy, Debug, PartialEq, Eq)]
pub enum BoundsFault {
    /// The collator has no table.
    Closed,
    /// The text is at fault.
    Text(TextFault),
    /// An allocation failed.
    OutOfMemory,
}

/// Why no fingerprint was made.
#[derive(Clone, Copy, Debug, PartialEq, Eq)]
pub enum FingerprintFault {
    /// The collator has no table.
    Closed,
    /// An allocation failed.
    OutOfMemory,
}

impl From<AllocError> for OpenFault {
    ghost use Rattle.uca_handle.specs.declared.faults.OpenFault.TheVariants.{OutOfMemory};

    ghost from_gives = { λ _ fault. fault ≡ OutOfMemory };

    fn from(_refused: AllocError) -> OpenFault {
        OpenFault::OutOfMemory
    }
}

impl From<ReadFault> for OpenFault {
    ghost use Rattle.uca_allkeys.specs.Faults.{read_cause};
    ghost use Rattle.uca_handle.specs.Opening.{reported};
    ghost use Rattle.uca_handle.specs.declared.faults.OpenFault.TheVariants.{Table};

    ghost from_gives = { λ fault opened. opened ≡ reported (read_cause fault.cause) (Table fault) };

    fn from(fault: ReadFault) -> OpenFault {
        match fault.cause {
            ReadCause::OutOfMemory => OpenFault::OutOfMemory,
            _ => OpenFault::Table(fault),
        }
    }
}

impl From<RuleFault> for OpenFault {
    ghost use Rattle.uca_tailor.specs.Faults.{reported_text_cause};
    ghost use Rattle.uca_handle.specs.Opening.{reported};
    ghost use Rattle.uca_handle.specs.declared.faults.OpenFault.TheVariants.{Rules};

    ghost from_gives = { λ fault opened. opened ≡ reported (reported_text_cause fault.cause) (Rules fault) };

    fn from(fault: RuleFault) -> OpenFault {
        match fault.cause {
            RuleCause::OutOfMemory => OpenFault::OutOfMemory,
            _ => OpenFault::Rules(fault),
        }
    }
}

impl From<TailorFault> for OpenFault {
    ghost use Rattle.uca_tailor.specs.Faults.{reported_cause};
    ghost use Rattle.uca_handle.specs.Opening.{reported};
    ghost use Rattle.uca_handle.specs.declared.faults.OpenFault.TheVariants.{Tailor};

    ghost from_gives = { λ fault opened. opened ≡ reported (reported_cause fault.cause) (Tailor fault) };

    fn from(fault: TailorFault) -> OpenFault {
        match fault.cause {
            TailorCause::OutOfMemory => OpenFault::OutOfMemory,
            _ => OpenFault::Tailor(fault),
        }
    }
}

impl From<AllocError> for ShareFault {
    ghost use Rattle.uca_handle.specs.declared.faults.ShareFault.TheVariants.{OutOfMemory};

    ghost from_gives = { λ _ fault. fault ≡ OutOfMemory };

    fn from(_refused: AllocError) -> ShareFault {
        ShareFault::OutOfMemory
    }
}
