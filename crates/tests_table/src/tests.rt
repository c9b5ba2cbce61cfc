use arrayvec::ArrayVec;
use std::alloc::Global;
use std::process::Abort;
use std::test::Fail;
use uca_table::{Element, InsertFault, Range, RangeFault, Table, TableBuilder};
use uca_testing::{Entry, SMALL_TABLE, TWO_RANGES, element};

const ELEMENT: Element = Element {
    starred: false,
    l1: 0x1001,
    l2: 0x20,
    l3: 2,
};

/// Inserts an entry, retrying where memory was refused.
pub(crate) fn insert(
    builder: &mut TableBuilder,
    key: &[char],
    elements: &[Element],
) -> Result<(), InsertFault> {
    match builder.insert(key, elements) {
        Err(InsertFault::OutOfMemory) => builder.insert(key, elements),
        answer => answer,
    }
}

/// Adds a range, retrying where memory was refused.
fn add_implicit(builder: &mut TableBuilder, range: Range) -> Result<(), RangeFault> {
    match builder.add_implicit(range.first, range.last, range.base) {
        Err(RangeFault::OutOfMemory) => {
            builder.add_implicit(range.first, range.last, range.base)
        }
        answer => answer,
    }
}

/// Makes the table, retrying where memory was refused.
pub(crate) fn finish(builder: TableBuilder) -> Option<Table> {
    match builder.finish() {
        Ok(table) => Some(table),
        Err(fault) => fault.builder.finish().ok(),
    }
}

fn small_builder(rt: &impl Abort, alloc: Global) -> TableBuilder {
    let mut builder = TableBuilder::new(alloc);
    insert_all(rt, &mut builder, &SMALL_TABLE);
    for range in &TWO_RANGES {
        assert!(rt; add_implicit(&mut builder, *range) == Ok(()));
    }
    builder
}

fn insert_all(rt: &impl Abort, builder: &mut TableBuilder, entries: &[Entry]) {
    for (key, starred, weights) in entries {
        let inserted = insert(builder, key, &[element(*starred, *weights)]);
        assert!(rt; inserted == Ok(()), "{key:?}");
    }
}

pub(crate) fn small_table(rt: &impl Abort, alloc: Global) -> Table {
    finish(small_builder(rt, alloc)).expect(rt, "a table")
}

/// A table of one key, which has one element.
fn table_of_key(rt: &impl Abort, alloc: Global, key: &[char]) -> Table {
    let mut builder = TableBuilder::new(alloc);
    assert!(rt; insert(&mut builder, key, &[ELEMENT]) == Ok(()));
    finish(builder).expect(rt, "a table")
}

static LONG_KEY: [char; 33] = ['a'; 33];

/// As many elements as an entry may have, and one more.
static MANY: [Element; 65] = [ELEMENT; 65];

/// Keys, their elements, and what their entries are refused for, if they are, one after the other.
const ENTRIES: [(&'static [char], &'static [Element], Result<(), InsertFault>); 10] = [
    (&[], &[ELEMENT], Err(InsertFault::EmptyKey)),
    (&[], &[], Err(InsertFault::EmptyKey)),
    (&LONG_KEY, &[ELEMENT], Err(InsertFault::KeyTooLong)),
    (&LONG_KEY, &[], Err(InsertFault::KeyTooLong)),
    (&['b'], &[], Err(InsertFault::NoElement)),
    (&['b'], &MANY, Err(InsertFault::TooManyElements)),
    (&['b'], &[ELEMENT], Ok(())),
    (&['b'], &[ELEMENT], Err(InsertFault::Repeated)),
    (&['b'], &[], Err(InsertFault::NoElement)),
    (&['b'], &MANY, Err(InsertFault::TooManyElements)),
];

fn assert_answers(rt: &impl Abort, builder: &mut TableBuilder) {
    for (key, elements, answer) in &ENTRIES {
        assert!(rt; insert(builder, key, elements) == *answer, "{key:?}");
    }
}

#[test]
fn entries_are_refused_for_the_first_fault(rt: HostRuntime) {
    let mut builder = TableBuilder::new(rt.alloc());
    assert_answers(&rt, &mut builder);
    assert!(rt; insert(&mut builder, &LONG_KEY[..32], &MANY[..64]) == Ok(()));
}

#[test]
fn faults_are_reported_by_their_names(rt: HostRuntime) -> Result<(), Fail> {
    let name = format!(in rt.alloc(); "{} {}", InsertFault::EmptyKey, RangeFault::BadRange);
    if let Ok(name) = name {
        assert!(rt; name.as_str() == "EmptyKey BadRange");
    }
    Ok(())
}

fn assert_found(rt: &impl Abort, table: &Table, entries: &[Entry]) {
    for (key, starred, weights) in entries {
        let found = table.get(key).expect(rt, "an entry");
        assert!(rt;
            found == [element(*starred, *weights)].as_slice(),
            "{key:?}"
        );
    }
}

const OTHER_KEYS: [&'static [char]; 6] = [
    &[],
    &['\u{0}'],
    &['b', '\u{308}'],
    &['c', 'h', 'h'],
    &['d'],
    &['\u{10FFFF}'],
];

fn assert_unknown(rt: &impl Abort, table: &Table, keys: &[&[char]]) {
    for key in keys {
        assert!(rt; table.get(key).is_none(), "{key:?}");
    }
}

#[test]
fn each_entry_is_found_and_nothing_else(rt: HostRuntime) {
    let table = small_table(&rt, rt.alloc());
    assert!(rt; table.longest() == 3);
    assert_found(&rt, &table, &SMALL_TABLE);
    assert_unknown(&rt, &table, &OTHER_KEYS);
}

#[test]
fn a_table_without_entries_has_longest_one(rt: HostRuntime) {
    let table = finish(TableBuilder::new(rt.alloc())).expect(&rt, "a table");
    assert!(rt; table.longest() == 1);
    assert_unknown(&rt, &table, &[&['a']]);
}

/// Code points, and the primary weights of the two elements of each.
const IMPLICIT: [(char, u16, u16); 11] = [
    ('\u{4E00}', 0xFB40, 0xCE00),
    ('\u{9FFF}', 0xFB41, 0x9FFF),
    ('\u{FA0E}', 0xFB41, 0xFA0E),
    ('\u{F900}', 0xFBC1, 0xF900),
    ('\u{3400}', 0xFB80, 0xB400),
    ('\u{20000}', 0xFB84, 0x8000),
    ('\u{2B81D}', 0xFB85, 0xB81D),
    ('\u{2B81E}', 0xFBC5, 0xB81E),
    ('\u{17000}', 0xFB00, 0x8000),
    ('\u{18D00}', 0xFB00, 0x9D00),
    ('\u{10FFFF}', 0xFBE1, 0xFFFF),
];

/// Fails a test where a code point has other implicit weights.
fn assert_implicit(rt: &impl Abort, table: &Table, rows: &[(char, u16, u16)]) {
    for (c, first, second) in rows {
        let [x, y] = table.implicit(*c);
        assert!(rt; x == element(false, [*first, 0x20, 2]), "{c:?}");
        assert!(rt; y == element(false, [*second, 0, 0]), "{c:?}");
    }
}

#[test]
fn implicit_weights_are_by_range_or_block(rt: HostRuntime) {
    let table = small_table(&rt, rt.alloc());
    assert_implicit(&rt, &table, &IMPLICIT);
}

/// The ends of ranges, their bases, and what they are refused for, if they are, one after the other.
const RANGES: [(char, char, u16, Result<(), RangeFault>); 8] = [
    ('\u{17500}', '\u{17600}', 0xFB01, Err(RangeFault::BadRange)),
    ('\u{20000}', '\u{28000}', 0xFB05, Err(RangeFault::BadRange)),
    ('\u{1B170}', '\u{1B2FF}', 0x7FFF, Err(RangeFault::BadRange)),
    ('\u{1B2FF}', '\u{1B170}', 0xFB01, Err(RangeFault::BadRange)),
    ('\u{18AFF}', '\u{18B00}', 0xFB02, Err(RangeFault::BadRange)),
    ('\u{1F000}', '\u{1F001}', 0xFB00, Err(RangeFault::BadRange)),
    ('\u{1B170}', '\u{1B2FF}', 0xFB01, Ok(())),
    ('\u{18B00}', '\u{18CFF}', 0xFB02, Ok(())),
];

fn add_ranges(rt: &impl Abort, builder: &mut TableBuilder) {
    for (first, last, base, answer) in &RANGES {
        let range = Range {
            first: *first,
            last: *last,
            base: *base,
        };
        assert!(rt; add_implicit(builder, range) == *answer, "{first:?}");
    }
}

fn assert_four_ranges(rt: &impl Abort, ranges: &[Range]) {
    assert!(rt; ranges.len() == 4);
    assert!(rt; ranges[0] == TWO_RANGES[0]);
    assert!(rt; ranges[1].first == '\u{18B00}');
    assert!(rt; ranges[2] == TWO_RANGES[1]);
    assert!(rt; ranges[3].first == '\u{1B170}');
}

#[test]
fn ranges_may_not_meet_nor_span_too_far(rt: HostRuntime) {
    let mut builder = small_builder(&rt, rt.alloc());
    add_ranges(&rt, &mut builder);
    let table = finish(builder).expect(&rt, "a table");
    assert_four_ranges(&rt, table.ranges());
}

const KEY_ORDER: [&'static [char]; 18] = [
    &['\u{1}'],
    &[' '],
    &['-'],
    &['A'],
    &['a'],
    &['a', '\u{301}'],
    &['b'],
    &['b', '\u{301}'],
    &['b', '\u{301}', '\u{308}'],
    &['c'],
    &['c', 'h'],
    &['e'],
    &['h'],
    &['z'],
    &['\u{300}'],
    &['\u{301}'],
    &['\u{308}'],
    &['\u{323}'],
];

fn assert_entries(rt: &impl Abort, table: &Table, keys: &[&[char]]) {
    let mut place = 0;
    for (key, elements) in table.entries() {
        let key: ArrayVec<char, 32> = key;
        assert!(rt; place < keys.len());
        assert!(rt; key.as_slice() == keys[place], "{place}");
        assert!(rt; table.get(key.as_slice()) == Some(elements), "{place}");
        place += 1;
    }
    assert!(rt; place == keys.len());
}

#[test]
fn entries_come_by_key_order(rt: HostRuntime) {
    let table = small_table(&rt, rt.alloc());
    assert_entries(&rt, &table, &KEY_ORDER);
}

/// A code point, whether a walk goes on with it, and the primary weight of its element then, if it has one.
type Step = (char, bool, Option<u16>);

/// Fails a test where a walk from the beginning takes other steps.
fn assert_walk(rt: &impl Abort, table: &Table, steps: &[Step]) {
    let mut walk = table.walk();
    assert!(rt; walk.elements().is_none());
    for (c, stepped, primary) in steps {
        assert!(rt; walk.step(*c) == *stepped, "{c:?}");
        assert_primary(rt, walk.elements(), *primary);
    }
}

/// Fails a test where elements are not one with this primary weight.
fn assert_primary(rt: &impl Abort, found: Option<&[Element]>, primary: Option<u16>) {
    let Some(l1) = primary else {
        assert!(rt; found.is_none());
        return;
    };
    let wanted = [element(false, [l1, 0x20, 2])];
    assert!(rt; found == Some(wanted.as_slice()), "{l1}");
}

#[test]
fn a_walk_stays_where_no_key_goes_on(rt: HostRuntime) {
    let table = small_table(&rt, rt.alloc());
    let steps: &[Step] = &[
        ('c', true, Some(0x1002)),
        ('x', false, Some(0x1002)),
        ('h', true, Some(0x1007)),
        ('h', false, Some(0x1007)),
    ];
    assert_walk(&rt, &table, steps);
}

#[test]
fn a_walk_goes_over_fronts_that_are_no_keys(rt: HostRuntime) {
    let table = table_of_key(&rt, rt.alloc(), &['c', 'h']);
    let steps: &[Step] = &[('c', true, None), ('h', true, Some(0x1001))];
    assert_walk(&rt, &table, steps);
}

#[test]
fn a_walk_begins_beyond_the_first_plane(rt: HostRuntime) {
    let table = table_of_key(&rt, rt.alloc(), &['\u{11131}', '\u{11127}']);
    let steps: &[Step] = &[
        ('\u{11130}', false, None),
        ('\u{11132}', false, None),
        ('\u{10FFFF}', false, None),
        ('\u{11131}', true, None),
        ('\u{11127}', true, Some(0x1001)),
    ];
    assert_walk(&rt, &table, steps);
}

/// A safe starter; the end of a contraction; a mark; an element that weighs nothing; one with implicit weights.
const CUTS: [(char, bool); 6] = [
    ('z', true),
    ('c', true),
    ('h', false),
    ('\u{301}', false),
    ('\u{1}', false),
    ('\u{4E00}', true),
];

fn assert_starters(rt: &impl Abort, table: &Table, cuts: &[(char, bool)]) {
    for (c, wanted) in cuts {
        assert!(rt; table.safe_starter(*c) == *wanted, "{c:?}");
    }
}

#[test]
fn a_safe_starter_ends_no_contraction_and_has_a_primary_weight(rt: HostRuntime) {
    let table = small_table(&rt, rt.alloc());
    assert_starters(&rt, &table, &CUTS);
}

/// A letter, the end of a contraction, and an element without a primary weight.
const FAR_ENTRIES: [Entry; 3] = [
    (&['\u{1F600}'], false, [0x1001, 0x20, 2]),
    (&['z', '\u{1F601}'], false, [0x1001, 0x20, 2]),
    (&['\u{1F602}'], false, [0, 0x20, 2]),
];

const FAR_CUTS: [(char, bool); 7] = [
    ('z', true),
    ('\u{1F600}', true),
    ('\u{1F601}', false),
    ('\u{1F602}', false),
    ('\u{1F603}', true),
    // A mark that has no key, and the last code point.
    ('\u{1D165}', false),
    ('\u{10FFFF}', true),
];

#[test]
fn safe_starters_go_beyond_the_first_plane(rt: HostRuntime) {
    let mut builder = small_builder(&rt, rt.alloc());
    insert_all(&rt, &mut builder, &FAR_ENTRIES);
    let table = finish(builder).expect(&rt, "a table");
    assert_starters(&rt, &table, &FAR_CUTS);
}

/// Makes the cells of a table, retrying where memory was refused.
fn prepare(table: &mut Table, alloc: Global) -> bool {
    table.prepare(alloc).is_ok() || table.prepare(alloc).is_ok()
}

/// The primary weight of the element that stands for a character at the first level.
fn lead_weight(table: &Table, c: char) -> Option<u16> {
    table.lead(c).map(|element| element.l1)
}

const CELL_ENTRIES: [Entry; 2] = [
    (&['\u{1F600}'], false, [0x1001, 0x20, 2]),
    (&['\u{1F601}', '\u{1F602}'], false, [0x1001, 0x20, 2]),
];

#[test]
fn characters_beyond_the_first_plane_have_cells(rt: HostRuntime) {
    let mut builder = small_builder(&rt, rt.alloc());
    insert_all(&rt, &mut builder, &CELL_ENTRIES);
    let mut table = finish(builder).expect(&rt, "a table");
    assert!(rt; prepare(&mut table, rt.alloc()));
    assert_primary(&rt, table.always_alone('\u{1F600}'), Some(0x1001));
    assert_primary(&rt, table.always_alone('\u{1F601}'), None);
    assert_primary(&rt, table.always_alone('\u{20000}'), None);
    assert_primary(&rt, table.always_alone('\u{1D165}'), None);
    assert!(rt; lead_weight(&table, '\u{1F600}') == Some(0x1001));
    assert!(rt; lead_weight(&table, '\u{1F601}').is_none());
}

/// Characters, and the primary weight by which each may be read alone.
const LEADS: [(char, Option<u16>); 6] = [
    ('z', Some(0x1006)),
    // A variable one.
    (' ', Some(0x201)),
    // It begins a key of two code points.
    ('c', None),
    // A mark.
    ('\u{301}', None),
    // It has no key.
    ('\u{7FF}', None),
    // It is not among the first characters.
    ('\u{4E00}', None),
];

#[test]
fn first_characters_have_their_weights_side_by_side(rt: HostRuntime) {
    let mut table = small_table(&rt, rt.alloc());
    assert!(rt; prepare(&mut table, rt.alloc()));
    for (c, weight) in &LEADS {
        assert!(rt; table.lead_weight(*c) == *weight, "{c:?}");
    }
}

/// How much the text before a character bears, the character, and how much it bears itself, if it may follow.
const FOLLOWERS: [(u8, char, Option<u8>); 7] = [
    (0, 'z', Some(3)),
    (0, 'c', Some(0)),
    (0, 'h', None),
    (1, 'h', Some(3)),
    (1, '\u{301}', None),
    (2, '\u{301}', Some(1)),
    // It has no cell.
    (2, '\u{4E00}', None),
];

fn borne_after(table: &Table, bearing: u8, c: char) -> Option<u8> {
    match table.character_after(bearing, c) {
        Some(character) => Some(character.bearing),
        None => None,
    }
}

#[test]
fn a_character_follows_what_bears_how_it_joins(rt: HostRuntime) {
    let mut table = small_table(&rt, rt.alloc());
    assert!(rt; prepare(&mut table, rt.alloc()));
    for (bearing, c, wanted) in &FOLLOWERS {
        assert!(rt; borne_after(&table, *bearing, *c) == *wanted, "{c:?}");
    }
}

mod blocks;
mod ideographs;
mod well_formed;
