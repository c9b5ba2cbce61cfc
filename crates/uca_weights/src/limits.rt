/// The most code points of a key of a table, or of a string of rules.
pub const MAX_KEY: usize = 32;

/// The most collation elements of an entry.
pub const MAX_ELEMENTS: usize = 64;

/// The longest run of nonstarters in a safe text (compare UAX #15, Stream-Safe Text Format).
pub const MAX_RUN: usize = 60;

/// The most code points of the NFD of a character of a safe text. No character is known to have more.
pub const MAX_DECOMPOSITION: usize = 4;

/// How many code points of a text are held at most, beyond the length of the longest key.
pub const MAX_LOOKAHEAD: usize = 64;

/// The most bytes of a line of a table or of a test file, before its LF.
pub const MAX_LINE: usize = uca_io::MAX_LINE;

/// The most bytes of a table, a test file or an input of lines.
pub const MAX_INPUT: usize = uca_io::MAX_INPUT;

/// The most bytes of a rule file.
pub const MAX_RULES: usize = 1_048_576;

/// The most relations in rules.
pub const MAX_RELATIONS: usize = 20_000;
