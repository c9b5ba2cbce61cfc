// The numbers of statuses and of kinds of faults. They are for ever: new ones go to the end.

pub const OK: u32 = 0;

pub const NOT_UTF8: u32 = 1;

pub const LONG_RUN: u32 = 2;

pub const CLOSED: u32 = 3;

pub const BAD_SETTINGS: u32 = 4;

pub const NO_MEMORY: u32 = 5;

pub const BAD_TABLE: u32 = 6;

pub const BAD_RULES: u32 = 7;

pub const BAD_TAILORING: u32 = 8;

pub const TABLE_LINE_TOO_LONG: u32 = 1;

pub const TABLE_BAD_DIRECTIVE: u32 = 2;

pub const TABLE_BAD_CODE_POINT: u32 = 3;

pub const TABLE_KEY_TOO_LONG: u32 = 4;

pub const TABLE_NO_SEMICOLON: u32 = 5;

pub const TABLE_BAD_ELEMENT: u32 = 6;

pub const TABLE_NO_ELEMENT: u32 = 7;

pub const TABLE_TOO_MANY_ELEMENTS: u32 = 8;

pub const TABLE_REPEATED: u32 = 9;

pub const TABLE_BAD_RANGE: u32 = 10;

pub const TABLE_TOO_LARGE: u32 = 11;

pub const RULES_SYNTAX: u32 = 21;

pub const RULES_LEFT_OUT: u32 = 22;

pub const RULES_EMPTY_STRING: u32 = 23;

pub const RULES_LONG_RUN: u32 = 24;

pub const RULES_KEY_TOO_LONG: u32 = 25;

pub const RULES_TOO_MANY_RELATIONS: u32 = 26;

pub const RULES_NOT_UTF8: u32 = 27;

pub const TAILOR_SMALL_WEIGHT: u32 = 41;

pub const TAILOR_HIGH_RESET: u32 = 42;

pub const TAILOR_FULL_PRIMARY: u32 = 43;

pub const TAILOR_FULL_SECONDARY: u32 = 44;

pub const TAILOR_FULL_TERTIARY: u32 = 45;

pub const TAILOR_TOO_MANY_ELEMENTS: u32 = 46;
