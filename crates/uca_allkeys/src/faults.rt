ghost use Rattle.std.specs.Prelude.{◌≡◌, Some};
ghost use Rattle.uca_allkeys.specs.Faults.{cause_of, read_cause, IsOfText};

use thiserror::Error;

/// Why the text of a table was refused.
#[derive(Clone, Copy, Debug, PartialEq, Eq, Error)]
pub enum ReadCause {
    /// A line has more than `MAX_LINE` bytes before its LF.
    #[error("LineTooLong")]
    LineTooLong,
    /// A directive is unknown or malformed, or there is a second version.
    #[error("BadDirective")]
    BadDirective,
    /// A code point is not four to six hexadecimal digits, or is not a scalar value.
    #[error("BadCodePoint")]
    BadCodePoint,
    /// A key has more than `MAX_KEY` code points.
    #[error("KeyTooLong")]
    KeyTooLong,
    /// An entry has no `;` after its key.
    #[error("NoSemicolon")]
    NoSemicolon,
    /// What follows a key is not a collation element.
    #[error("BadElement")]
    BadElement,
    /// An entry has no collation element.
    #[error("NoElement")]
    NoElement,
    /// An entry has more than `MAX_ELEMENTS` collation elements.
    #[error("TooManyElements")]
    TooManyElements,
    /// An earlier line has the same key.
    #[error("Repeated")]
    Repeated,
    /// A range of implicit weights conflicts with those of earlier lines.
    #[error("BadRange")]
    BadRange,
    /// The text has more than `MAX_INPUT` bytes.
    #[error("TooLarge")]
    TooLarge,
    /// The reader failed.
    #[error("Read")]
    Read,
    /// An allocation failed.
    #[error("OutOfMemory")]
    OutOfMemory,
}

/// Where and why the text of a table was refused.
#[derive(Clone, Copy, Debug, PartialEq, Eq)]
pub struct ReadFault {
    /// The line, counted from 1; 0 where an allocation failed.
    pub line: u64,
    pub cause: ReadCause,
}

/// Why a line is refused, whatever comes before it.
#[derive(Clone, Copy)]
pub(crate) enum LineFault {
    BadDirective,
    BadCodePoint,
    KeyTooLong,
    NoSemicolon,
    BadElement,
    NoElement,
    TooManyElements,
}

impl LineFault {
    /// The same as the cause that a reader of texts reports.
    pub(crate) fn cause(self) -> ReadCause
        ensures cause { read_cause result ≡ Some (cause_of self) }
        ensures of_text { IsOfText result }
    {
        match self {
            LineFault::BadDirective => ReadCause::BadDirective,
            LineFault::BadCodePoint => ReadCause::BadCodePoint,
            LineFault::KeyTooLong => ReadCause::KeyTooLong,
            LineFault::NoSemicolon => ReadCause::NoSemicolon,
            LineFault::BadElement => ReadCause::BadElement,
            LineFault::NoElement => ReadCause::NoElement,
            LineFault::TooManyElements => ReadCause::TooManyElements,
        }
    }
}
