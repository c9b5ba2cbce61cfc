mod read;

use arrayvec::ArrayVec;
use std::alloc::Global;
use std::io;
use std::io::Write;
use std::process::Abort;
use uca_allkeys::laws::written_table_is_read_back;
use uca_allkeys::write_table;
use uca_table::{Table, TableBuilder};
use uca_testing::{SMALL_TABLE, SMALL_TEXT, TWO_RANGES, element, table_from};
use uca_weights::{Element, Range, WriteCause, WriteFault, Writing};

/// Inserts an entry, retrying where memory was refused.
fn insert(builder: &mut TableBuilder, key: &[char], elements: &[Element]) -> bool {
    builder.insert(key, elements).is_ok() || builder.insert(key, elements).is_ok()
}

/// Adds a range, retrying where memory was refused.
fn add_implicit(builder: &mut TableBuilder, range: Range) -> bool {
    builder
        .add_implicit(range.first, range.last, range.base)
        .is_ok()
        || builder
            .add_implicit(range.first, range.last, range.base)
            .is_ok()
}

/// Makes the table, retrying where memory was refused.
fn finish(builder: TableBuilder) -> Option<Table> {
    match builder.finish() {
        Ok(table) => Some(table),
        Err(fault) => fault.builder.finish().ok(),
    }
}

fn small_table(rt: &impl Abort, alloc: Global) -> Table {
    let mut builder = TableBuilder::new(alloc);
    for range in &TWO_RANGES {
        assert!(rt; add_implicit(&mut builder, *range));
    }
    for (key, starred, weights) in &SMALL_TABLE {
        assert!(rt; insert(&mut builder, key, &[element(*starred, *weights)]));
    }
    finish(builder).expect(rt, "a table")
}

/// Keeps what it takes. Once it is full, it fails or takes none.
#[derive(Drop)]
struct Shelf {
    taken: ArrayVec<u8, 1024>,
    room: usize,
    fails: bool,
}

impl Write for Shelf {
    fn write(&mut self, buf: &[u8]) -> io::Result<usize> {
        if self.room == 0 && self.fails {
            return Err(io::Error::from(io::ErrorKind::Other));
        }
        let n = buf.len().min(self.room);
        let _fits = self.taken.try_extend_from_slice(&buf[..n]);
        self.room -= n;
        Ok(n)
    }

    fn flush(&mut self) -> io::Result<()> {
        Ok(())
    }
}

fn with_room(room: usize, fails: bool) -> Writing<Shelf> {
    Writing::new(Shelf {
        taken: ArrayVec::new(),
        room,
        fails,
    })
}

/// Fails a test where a table is not written as this text.
pub(crate) fn assert_written(rt: &impl Abort, table: &Table, text: &[u8]) {
    let mut writer = with_room(1024, true);
    assert!(rt; write_table(&mut writer, table) == Ok(text.len() as u128));
    let taken = writer.into_inner().taken;
    assert!(rt; taken.as_slice() == text);
}

#[test]
fn a_small_table_has_its_canonical_text(rt: HostRuntime) {
    let table = small_table(&rt, rt.alloc());
    assert_written(&rt, &table, SMALL_TEXT);
}

/// Code points of four, five and six digits.
const LONG_POINTS: &[u8] =
    b"@implicitweights F0000..F7FFF; FB00\nFFFF F0000 100000 ; [.1000.0020.0002]\n";

/// Fails a test where a canonical text is not the text of its table.
fn assert_read_back(rt: &impl Abort, alloc: Global, text: &[u8]) {
    let table = table_from(alloc, text).ok().expect(rt, "a table");
    assert_written(rt, &table, text);
}

#[test]
fn a_written_table_is_read_back(rt: HostRuntime) {
    let table = small_table(&rt, rt.alloc());
    written_table_is_read_back(&table);
    assert_read_back(&rt, rt.alloc(), SMALL_TEXT);
    assert_read_back(&rt, rt.alloc(), LONG_POINTS);
}

#[test]
fn an_empty_table_has_no_text(rt: HostRuntime) {
    let table = finish(TableBuilder::new(rt.alloc())).expect(&rt, "a table");
    let mut writer = with_room(0, true);
    assert!(rt; write_table(&mut writer, &table) == Ok(0));
}

const SIX_POINTS: &[char] = &[
    '\u{FFFF}',
    '\u{10000}',
    '\u{FFFFF}',
    '\u{100000}',
    '\u{10FFFF}',
    '\0',
];

const TWO_ELEMENTS: &[Element] = &[
    Element {
        starred: true,
        l1: 0xFFFF,
        l2: 0xF,
        l3: 0xABC,
    },
    Element {
        starred: false,
        l1: 0x9,
        l2: 0x10,
        l3: 0x1000,
    },
];

#[test]
fn code_points_have_four_to_six_digits(rt: HostRuntime) {
    let mut builder = TableBuilder::new(rt.alloc());
    assert!(rt; insert(&mut builder, SIX_POINTS, TWO_ELEMENTS));
    let table = finish(builder).expect(&rt, "a table");
    let text = b"FFFF 10000 FFFFF 100000 10FFFF 0000 ; [*FFFF.000F.0ABC][.0009.0010.1000]\n";
    assert_written(&rt, &table, text);
}

/// Fails a test where a writer of this capacity gets other bytes, or a fault says otherwise.
fn assert_stopped(rt: &impl Abort, table: &Table, room: usize, fails: bool, cause: WriteCause) {
    let mut writer = with_room(room, fails);
    let written = room as u128;
    assert!(rt; write_table(&mut writer, table) == Err(WriteFault { written, cause }));
    let taken = writer.into_inner().taken;
    assert!(rt; Some(taken.as_slice()) == SMALL_TEXT.get(..room));
}

#[test]
fn a_writer_that_stops_reports_what_went_out(rt: HostRuntime) {
    let table = small_table(&rt, rt.alloc());
    for room in &[0, 3, 40, 100] {
        assert_stopped(&rt, &table, *room, true, WriteCause::Failed);
        assert_stopped(&rt, &table, *room, false, WriteCause::Zero);
    }
}

fn insert_ideographs(rt: &impl Abort, builder: &mut TableBuilder) {
    for c in '\u{4E00}'..'\u{5000}' {
        assert!(rt; insert(builder, &[c], &[element(false, [0x1000, 0x20, 2])]));
    }
}

#[test]
fn a_table_longer_than_the_buffer_is_whole(rt: HostRuntime) {
    let mut builder = TableBuilder::new(rt.alloc());
    insert_ideographs(&rt, &mut builder);
    let table = finish(builder).expect(&rt, "a table");
    let mut writer = Writing::new(io::sink());
    assert!(rt; write_table(&mut writer, &table) == Ok(512 * 25));
}
