use thiserror::Error;

/// Why an input of lines was refused.
#[derive(Clone, Copy, Debug, PartialEq, Eq, Error)]
pub enum InputCause {
    /// A line is not UTF-8, from this byte on.
    #[error("NotUtf8")]
    NotUtf8,
    /// A line has a run of nonstarters that is too long, from the character at this byte on.
    #[error("LongRun")]
    LongRun,
    /// The input is longer than `MAX_INPUT`.
    #[error("TooLarge")]
    TooLarge,
    /// The reader failed.
    #[error("Read")]
    Read,
    /// Memory for the input was refused.
    #[error("OutOfMemory")]
    OutOfMemory,
    /// There is not exactly one line where one is expected.
    #[error("NotOneLine")]
    NotOneLine,
}

/// Where and why an input of lines was refused.
#[derive(Clone, Copy, Debug, PartialEq, Eq)]
pub struct InputFault {
    /// The line, counted from 1; 0 where no line is at fault.
    pub line: u64,
    /// The byte of the line, counted from 0.
    pub at: usize,
    pub cause: InputCause,
}
