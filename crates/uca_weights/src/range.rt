/// A range of code points whose implicit weights have a base of their own (UTS #10, section 10.1.3).
#[derive(Clone, Copy, Debug, PartialEq, Eq)]
pub struct Range {
    pub first: char,
    /// The last code point of the range, inclusive.
    pub last: char,
    /// The first of the two implicit primary weights, `AAAA` in the standard.
    pub base: u16,
}

/// A range of code points that are unified ideographs besides those of the standard's list (UTS #10, section 10.1.3).
#[derive(Clone, Copy, Debug, PartialEq, Eq)]
pub struct Ideographs {
    pub first: char,
    /// The last code point of the range, inclusive.
    pub last: char,
}
