use uca_weights::{Element, Range};

/// A key with its one element, whose mark is `*` where the flag is true.
pub type Entry = (&'static [char], bool, [u16; 3]);

/// The entries of the small table, in no order: an ignorable code point, variable elements, marks, letters and
/// contractions.
#[rattlefmt::skip]
pub const SMALL_TABLE: [Entry; 18] = [
    (&['\u{1}'], false, [0, 0, 0]),
    (&[' '], true, [0x201, 0x20, 2]),
    (&['-'], true, [0x202, 0x20, 2]),
    (&['\u{300}'], false, [0, 0x21, 2]),
    (&['\u{301}'], false, [0, 0x22, 2]),
    (&['\u{308}'], false, [0, 0x23, 2]),
    (&['\u{323}'], false, [0, 0x24, 2]),
    (&['a'], false, [0x1000, 0x20, 2]),
    (&['A'], false, [0x1000, 0x20, 8]),
    (&['b'], false, [0x1001, 0x20, 2]),
    (&['c'], false, [0x1002, 0x20, 2]),
    (&['e'], false, [0x1004, 0x20, 2]),
    (&['h'], false, [0x1005, 0x20, 2]),
    (&['z'], false, [0x1006, 0x20, 2]),
    (&['c', 'h'], false, [0x1007, 0x20, 2]),
    (&['a', '\u{301}'], false, [0x1008, 0x20, 2]),
    (&['b', '\u{301}'], false, [0x1009, 0x20, 2]),
    (&['b', '\u{301}', '\u{308}'], false, [0x100A, 0x20, 2]),
];

/// The ranges of the small table: Tangut, and its supplement under the same base.
pub const TWO_RANGES: [Range; 2] = [
    Range {
        first: '\u{17000}',
        last: '\u{18AFF}',
        base: 0xFB00,
    },
    Range {
        first: '\u{18D00}',
        last: '\u{18D8F}',
        base: 0xFB00,
    },
];

/// The canonical text of the small table.
pub const SMALL_TEXT: &[u8] = b"\
@implicitweights 17000..18AFF; FB00
@implicitweights 18D00..18D8F; FB00
0001 ; [.0000.0000.0000]
0020 ; [*0201.0020.0002]
002D ; [*0202.0020.0002]
0041 ; [.1000.0020.0008]
0061 ; [.1000.0020.0002]
0061 0301 ; [.1008.0020.0002]
0062 ; [.1001.0020.0002]
0062 0301 ; [.1009.0020.0002]
0062 0301 0308 ; [.100A.0020.0002]
0063 ; [.1002.0020.0002]
0063 0068 ; [.1007.0020.0002]
0065 ; [.1004.0020.0002]
0068 ; [.1005.0020.0002]
007A ; [.1006.0020.0002]
0300 ; [.0000.0021.0002]
0301 ; [.0000.0022.0002]
0308 ; [.0000.0023.0002]
0323 ; [.0000.0024.0002]
";

/// A text of the small table, as a person would write it.
pub const WRITTEN_BY_HAND: &[u8] = b"\
@version 15.1.0
@implicitweights 17000..18AFF; FB00 # first range
@implicitweights 18D00..18D8F; FB00 # second range, the same base

0001  ; [.0000.0000.0000] # completely ignorable
0020  ; [*0201.0020.0002] # SPACE
002D  ; [*0202.0020.0002.002D] # HYPHEN-MINUS, an old fourth weight
0300  ; [.0000.0021.0002]
0301  ; [.0000.0022.0002]
0308  ; [.0000.0023.0002]
0323  ; [.0000.0024.0002]
0061  ; [.1000.0020.0002]
0041  ; [.1000.0020.0008]
0062  ; [.1001.0020.0002]
0063  ; [.1002.0020.0002]
0065  ; [.1004.0020.0002]
0068  ; [.1005.0020.0002]
007a  ; [.1006.0020.0002]
0063 0068 ; [.1007.0020.0002]
0061 0301 ; [.1008.0020.0002]
0062 0301 ; [.1009.0020.0002]
0062 0301 0308 ; [.100a.0020.0002]
";

/// An element with the mark `*`, where `starred`, and these weights.
pub fn element(starred: bool, [l1, l2, l3]: [u16; 3]) -> Element {
    Element {
        starred,
        l1,
        l2,
        l3,
    }
}

/// An element with the mark `.` and the third weight 2.
pub fn plain(l1: u16, l2: u16) -> Element {
    element(false, [l1, l2, 2])
}
