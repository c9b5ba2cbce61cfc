ghost use Rattle.std.specs.Prelude.{◌≡◌};
ghost use Rattle.uca_tailor.specs.declared.faults.RuleCause.TheVariants.{OutOfMemory};

use std::alloc::{AllocError, AllocFailed};
use thiserror::Error;

/// Why a text of rules is refused.
#[derive(Clone, Copy, Debug, PartialEq, Eq, Error)]
pub enum RuleCause {
    /// The text does not have the form of rules.
    #[error("Syntax")]
    Syntax,
    /// A part of the syntax of UTS #35 that this profile leaves out.
    #[error("LeftOut")]
    LeftOut,
    /// A string has no character.
    #[error("EmptyString")]
    EmptyString,
    /// The NFD of a string has more than `MAX_RUN` nonstarters in a row.
    #[error("LongRun")]
    LongRun,
    /// The NFD of a string has more than `MAX_KEY` code points.
    #[error("KeyTooLong")]
    KeyTooLong,
    /// There are more than `MAX_RELATIONS` relations.
    #[error("TooManyRelations")]
    TooManyRelations,
    /// An allocation failed.
    #[error("OutOfMemory")]
    OutOfMemory,
}

impl<T: Drop> From<AllocFailed<T>> for RuleCause {
    ghost from_gives = { λ _ cause. cause ≡ OutOfMemory };

    fn from(_refused: AllocFailed<T>) -> RuleCause {
        RuleCause::OutOfMemory
    }
}

impl From<AllocError> for RuleCause {
    ghost from_gives = { λ _ cause. cause ≡ OutOfMemory };

    fn from(_refused: AllocError) -> RuleCause {
        RuleCause::OutOfMemory
    }
}

/// Where and why a text of rules is refused.
#[derive(Clone, Copy, Debug, PartialEq, Eq)]
pub struct RuleFault {
    /// The byte in the text; 0 on `OutOfMemory`.
    pub at: usize,
    pub cause: RuleCause,
}

/// Why a relation is refused.
#[derive(Clone, Copy, Debug, PartialEq, Eq, Error)]
pub enum TailorCause {
    /// The anchor has no weight at the level, or one below those of implicit elements.
    #[error("SmallWeight")]
    SmallWeight,
    /// The anchor has a primary weight as high as the implicit ones.
    #[error("HighReset")]
    HighReset,
    /// A weight of this level cannot move up.
    #[error("Full {0}")]
    Full(u8),
    /// The item would have more than `MAX_ELEMENTS` collation elements.
    #[error("TooManyElements")]
    TooManyElements,
    /// An allocation failed.
    #[error("OutOfMemory")]
    OutOfMemory,
}

impl From<AllocError> for TailorCause {
    ghost use Rattle.uca_tailor.specs.declared.faults.TailorCause.TheVariants.{OutOfMemory};

    ghost from_gives = { λ _ cause. cause ≡ OutOfMemory };

    fn from(_refused: AllocError) -> TailorCause {
        TailorCause::OutOfMemory
    }
}

/// Where and why a table can't be tailored.
#[derive(Clone, Copy, Debug, PartialEq, Eq)]
pub struct TailorFault {
    /// The relation, counted from 1 over all chains; 0 on `OutOfMemory`.
    pub relation: u64,
    pub cause: TailorCause,
}

impl From<AllocError> for TailorFault {
    ghost use Rattle.uca_tailor.specs.declared.faults.TailorCause.TheVariants.{OutOfMemory};

    ghost from_gives = { λ _ fault. fault ≡ record { relation = 0; cause = OutOfMemory } };

    fn from(_refused: AllocError) -> TailorFault {
        TailorFault {
            relation: 0,
            cause: TailorCause::OutOfMemory,
        }
    }
}
