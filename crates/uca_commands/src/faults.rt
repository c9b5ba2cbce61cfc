ghost use Rattle.std.specs.Prelude.{◌≡◌};
ghost use Rattle.uca_commands.specs.declared.faults.CliFault.TheVariants.{Conform, Input, Output, OutOfMemory, Rules, Table, Tailor};

use crate::input_fault::{InputCause, InputFault};
use std::alloc::AllocError;
use std::fmt;
use thiserror::Error;
use uca_allkeys::{ReadCause, ReadFault};
use uca_conform::ConformFault;
use uca_tailor::{RuleCause, RuleFault, TailorCause, TailorFault};
use uca_weights::WriteFault;

/// Why the bytes of a file of rules are not a text.
#[derive(Clone, Copy, Debug, PartialEq, Eq, Error)]
pub enum RulesTextCause {
    /// They are not UTF-8.
    #[error("NotUtf8")]
    NotUtf8,
    /// There are more than `MAX_RULES` of them.
    #[error("TooLarge")]
    TooLarge,
    /// The reader failed.
    #[error("Read")]
    Read,
}

/// Why a command failed.
#[derive(Clone, Copy, Debug, PartialEq, Eq)]
pub enum CliFault {
    Table(ReadFault),
    /// The range of ideographs ends before it begins, or shares a code point with the listed ones.
    Ideographs,
    /// The bytes of the rules are not a text.
    RulesText {
        /// How many bytes at the start are valid UTF-8; `MAX_RULES` where there are too many; 0 where the reader failed.
        at: usize,
        cause: RulesTextCause,
    },
    Rules(RuleFault),
    Tailor(TailorFault),
    Input(InputFault),
    Conform(ConformFault),
    Output(WriteFault),
    /// Memory was refused, other than for the table's text, for the rules that were read, or for the input.
    OutOfMemory,
}

impl From<AllocError> for CliFault {
    ghost from_gives = { λ _ result. result ≡ OutOfMemory };

    fn from(_refused: AllocError) -> CliFault {
        CliFault::OutOfMemory
    }
}

impl From<ReadFault> for CliFault {
    ghost from_gives = { λ fault result. result ≡ Table fault };

    fn from(fault: ReadFault) -> CliFault {
        CliFault::Table(fault)
    }
}

impl From<RuleFault> for CliFault {
    ghost from_gives = { λ fault result. result ≡ Rules fault };

    fn from(fault: RuleFault) -> CliFault {
        CliFault::Rules(fault)
    }
}

impl From<TailorFault> for CliFault {
    ghost from_gives = { λ fault result. result ≡ Tailor fault };

    fn from(fault: TailorFault) -> CliFault {
        CliFault::Tailor(fault)
    }
}

impl From<InputFault> for CliFault {
    ghost from_gives = { λ fault result. result ≡ Input fault };

    fn from(fault: InputFault) -> CliFault {
        CliFault::Input(fault)
    }
}

impl From<ConformFault> for CliFault {
    ghost from_gives = { λ fault result. result ≡ Conform fault };

    fn from(fault: ConformFault) -> CliFault {
        CliFault::Conform(fault)
    }
}

impl From<WriteFault> for CliFault {
    ghost from_gives = { λ fault result. result ≡ Output fault };

    fn from(fault: WriteFault) -> CliFault {
        CliFault::Output(fault)
    }
}

// What a fault of the table's text prints.
fn write_read_fault<W: fmt::Write>(f: &mut fmt::Formatter<W>, fault: &ReadFault) -> fmt::Result {
    let ReadFault { line, cause } = fault;
    match cause {
        ReadCause::OutOfMemory => write!(f, "uca: {cause}"),
        _ => write!(f, "uca: table line {line}: {cause}"),
    }
}

// What a fault of the text of the rules prints.
fn write_rule_fault<W: fmt::Write>(f: &mut fmt::Formatter<W>, fault: &RuleFault) -> fmt::Result {
    let RuleFault { at, cause } = fault;
    match cause {
        RuleCause::OutOfMemory => write!(f, "uca: {cause}"),
        _ => write!(f, "uca: rules byte {at}: {cause}"),
    }
}

// What a fault of a relation prints.
fn write_tailor_fault<W: fmt::Write>(
    f: &mut fmt::Formatter<W>,
    fault: &TailorFault,
) -> fmt::Result {
    let TailorFault { relation, cause } = fault;
    match cause {
        TailorCause::OutOfMemory => write!(f, "uca: {cause}"),
        _ => write!(f, "uca: rules relation {relation}: {cause}"),
    }
}

// What a fault of an input of lines prints.
fn write_input_fault<W: fmt::Write>(f: &mut fmt::Formatter<W>, fault: &InputFault) -> fmt::Result {
    let InputFault { line, at, cause } = fault;
    match cause {
        InputCause::NotUtf8 | InputCause::LongRun => {
            write!(f, "uca: input line {line} byte {at}: {cause}")
        }
        InputCause::TooLarge | InputCause::Read | InputCause::NotOneLine => {
            write!(f, "uca: input: {cause}")
        }
        InputCause::OutOfMemory => write!(f, "uca: {cause}"),
    }
}

impl fmt::Display for CliFault {
    fn fmt<W: fmt::Write>(&self, f: &mut fmt::Formatter<W>) -> fmt::Result {
        match self {
            CliFault::Table(fault) => write_read_fault(f, fault),
            CliFault::Ideographs => write!(f, "uca: ideographs: BadRange"),
            CliFault::RulesText { at, cause } => write!(f, "uca: rules byte {at}: {cause}"),
            CliFault::Rules(fault) => write_rule_fault(f, fault),
            CliFault::Tailor(fault) => write_tailor_fault(f, fault),
            CliFault::Input(fault) => write_input_fault(f, fault),
            CliFault::Conform(ConformFault { line, cause }) => {
                write!(f, "uca: input line {line}: {cause}")
            }
            CliFault::Output(WriteFault { written, cause }) => {
                write!(f, "uca: output byte {written}: {cause}")
            }
            CliFault::OutOfMemory => write!(f, "uca: OutOfMemory"),
        }
    }
}
