use thiserror::Error;

/// Why bytes are no text that can be collated.
#[derive(Clone, Copy, Debug, PartialEq, Eq, Error)]
pub enum TextFault {
    /// They are not UTF-8 from this byte on.
    #[error("NotUtf8")]
    NotUtf8(usize),
    /// A run of nonstarters is too long, from the character at this byte on.
    #[error("LongRun")]
    LongRun(usize),
}
