/// The most bytes of a line that is read, before its LF.
pub const MAX_LINE: usize = 4_096;

/// The most bytes of a text that is read.
pub const MAX_INPUT: usize = 67_108_864;
