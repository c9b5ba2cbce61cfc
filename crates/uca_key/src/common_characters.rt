//! The characters that most texts are made of. Their primary weights have the shortest codes in packed keys.

/// Ranges of letters and digits, from the first code point to the last: of each script that many people write today, the letters of
/// its main languages. Letters with marks are here for tailored tables, which may give them primary weights of their own. Digits come
/// before Latin letters in published tables, and share their window.
pub const COMMON_RANGES: [(u32, u32); 46] = [
    (0x0030, 0x0039),
    (0x0061, 0x007A),
    (0x00DF, 0x017F),
    (0x01A1, 0x01A1),
    (0x01B0, 0x01B0),
    (0x03AC, 0x03CE),
    (0x0430, 0x045F),
    (0x0491, 0x0491),
    (0x0561, 0x0586),
    (0x05D0, 0x05EA),
    (0x0621, 0x064A),
    (0x067E, 0x067E),
    (0x0686, 0x0686),
    (0x0688, 0x0688),
    (0x0691, 0x0691),
    (0x0698, 0x0698),
    (0x06A9, 0x06A9),
    (0x06AF, 0x06AF),
    (0x06BA, 0x06BA),
    (0x06BE, 0x06BE),
    (0x06C1, 0x06C1),
    (0x06CC, 0x06CC),
    (0x06D2, 0x06D2),
    (0x0904, 0x094D),
    (0x0985, 0x09CD),
    (0x0A05, 0x0A4D),
    (0x0A85, 0x0ACD),
    (0x0B05, 0x0B4D),
    (0x0B85, 0x0BCD),
    (0x0C05, 0x0C4D),
    (0x0C85, 0x0CCD),
    (0x0D05, 0x0D4D),
    (0x0D85, 0x0DDF),
    (0x0E01, 0x0E45),
    (0x0E81, 0x0EC4),
    (0x0F40, 0x0F6C),
    (0x1000, 0x102A),
    (0x10D0, 0x10F0),
    (0x1100, 0x1112),
    (0x1161, 0x1175),
    (0x11A8, 0x11C2),
    (0x1200, 0x1357),
    (0x1780, 0x17B3),
    (0x1820, 0x1842),
    (0x3042, 0x3093),
    (0x3105, 0x312F),
];

/// Characters between words of all scripts, the long mark of kana, which published tables put before all letters, and two ideographs: each of
/// the main block has the first primary weight of one of them.
pub const SINGLE_CHARACTERS: [char; 12] = [
    ' ', '\'', '(', ')', ',', '-', '.', '/', ':', '\u{30FC}', '\u{4E00}', '\u{8000}',
];

/// The first letter of each script, in the order of published tables, and the digit zero for Latin.
pub const FIRST_LETTERS: [char; 27] = [
    '0', '\u{03B1}', '\u{0430}', '\u{10D0}', '\u{0561}', '\u{05D0}', '\u{0621}', '\u{1200}',
    '\u{0904}', '\u{0985}', '\u{0A05}', '\u{0A85}', '\u{0B05}', '\u{0B85}', '\u{0C05}', '\u{0C85}',
    '\u{0D05}', '\u{0D85}', '\u{0E01}', '\u{0E81}', '\u{0F40}', '\u{1000}', '\u{1780}', '\u{1820}',
    '\u{1100}', '\u{3042}', '\u{3105}',
];
