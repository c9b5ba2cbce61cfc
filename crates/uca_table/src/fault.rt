use crate::builder::TableBuilder;
use thiserror::Error;

/// Why an entry wasn't inserted. The first cause that holds, in the order here, is reported.
#[derive(Clone, Copy, Debug, PartialEq, Eq, Error)]
#[error("{:?}", self)]
pub enum InsertFault {
    /// The key has no code point.
    EmptyKey,
    /// The key has more than `MAX_KEY` code points.
    KeyTooLong,
    /// There is no collation element.
    NoElement,
    /// There are more than `MAX_ELEMENTS` collation elements.
    TooManyElements,
    /// The table already has the key.
    Repeated,
    /// An allocation failed.
    OutOfMemory,
}

/// Why an entry wasn't appended to others in key order. The first cause that holds, in the order here, is reported.
#[derive(Clone, Copy, Debug, PartialEq, Eq, Error)]
#[error("{:?}", self)]
pub enum AppendFault {
    /// The key has no code point.
    EmptyKey,
    /// The key has more than `MAX_KEY` code points.
    KeyTooLong,
    /// There is no collation element.
    NoElement,
    /// There are more than `MAX_ELEMENTS` collation elements.
    TooManyElements,
    /// A greater key was appended earlier.
    OutOfOrder,
    /// The key is the last that was appended.
    Repeated,
    /// An allocation failed.
    OutOfMemory,
}

/// Why a range of implicit weights, or of ideographs, wasn't added.
#[derive(Clone, Copy, Debug, PartialEq, Eq, Error)]
#[error("{:?}", self)]
pub enum RangeFault {
    /// The range ends before it begins, or shares a code point with an earlier one of its kind. A range of implicit
    /// weights: its base is below 8000h, or with the other ranges of its base it spans more than 8000h code points. A
    /// range of ideographs: it shares a code point with the standard's list.
    BadRange,
    /// An allocation failed.
    OutOfMemory,
}

/// Memory for the table was refused. The builder is returned unchanged.
#[derive(Debug, Drop, Error)]
#[error("OutOfMemory")]
pub struct FinishFault {
    pub builder: TableBuilder,
}
