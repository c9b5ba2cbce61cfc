//! The job `table`, and the result of reading a table.
use super::given::{Given, failing, whole};
use std::test::Fail;
use uca_allkeys::{ReadCause, ReadFault};
use uca_cli::{CliFault, Task};
use uca_testing::{Pieces, SMALL_TEXT, WRITTEN_BY_HAND};

/// The job `table` with the table in a reader. The reader of the input fails at each call, so that a job that reads it is not
/// done.
fn table_in(text: Pieces<'_>) -> Given<'_> {
    Given::new(Task::Table, failing()).over(text)
}

fn table_refused(line: u64, cause: ReadCause) -> CliFault {
    CliFault::Table(ReadFault { line, cause })
}

#[test]
fn a_table_is_written_in_its_canonical_text(rt: HostRuntime) {
    assert!(rt; table_in(whole(WRITTEN_BY_HAND)).writes(&rt, rt.alloc(), SMALL_TEXT));
    assert!(rt; table_in(whole(SMALL_TEXT)).writes(&rt, rt.alloc(), SMALL_TEXT));
    for most in &[1, 7, 4096] {
        let given = table_in(Pieces::new(WRITTEN_BY_HAND, *most, 10_000));
        assert!(rt; given.writes(&rt, rt.alloc(), SMALL_TEXT), "{most} at once");
    }
    assert!(rt; table_in(whole(b"")).writes(&rt, rt.alloc(), b""));
}

#[test]
fn the_built_in_table_is_this_one(rt: HostRuntime) {
    let given = Given::new(Task::Table, failing());
    assert!(rt; given.writes(&rt, rt.alloc(), SMALL_TEXT));
}

/// Tables, and the line and the cause of the first fault.
const FAULTY_TABLES: [(&'static [u8], u64, ReadCause); 5] = [
    (b"0061 ; [.1000.0020]\n", 1, ReadCause::BadElement),
    (
        b"0061 ; [.1000.0020.0002]\n\n0061 ; [.1000.0020.0002]",
        3,
        ReadCause::Repeated,
    ),
    (b"# \xFF\n@variable shifted\n", 2, ReadCause::BadDirective),
    (b"0061", 1, ReadCause::NoSemicolon),
    (
        b"@implicitweights 17000..18AFF; 7FFF\n",
        1,
        ReadCause::BadRange,
    ),
];

#[test]
fn a_faulty_text_is_reported_and_nothing_is_written(rt: HostRuntime) {
    for (text, line, cause) in &FAULTY_TABLES {
        let fault = table_refused(*line, *cause);
        let given = table_in(whole(text));
        assert!(rt; given.is_refused(&rt, rt.alloc(), fault), "{cause:?}");
    }
}

#[test]
fn a_failed_read_of_the_table_is_reported(rt: HostRuntime) {
    // The line in which the reader fails, a byte at a time.
    for (calls, line) in &[(0, 1), (15, 1), (16, 2), (65, 2), (66, 3)] {
        let given = table_in(Pieces::new(WRITTEN_BY_HAND, 1, *calls));
        let fault = table_refused(*line, ReadCause::Read);
        assert!(rt;
            given.is_refused(&rt, rt.alloc(), fault),
            "after {calls} calls"
        );
    }
}

#[test]
fn a_writer_that_stops_gets_the_front_of_the_table(rt: HostRuntime) {
    table_in(whole(WRITTEN_BY_HAND)).assert_front(&rt, rt.alloc(), SMALL_TEXT);
}

#[test]
fn a_written_table_is_read_again(rt: HostRuntime) {
    let written = table_in(whole(WRITTEN_BY_HAND)).output(&rt, rt.alloc());
    assert!(rt; table_in(whole(&written)).writes(&rt, rt.alloc(), SMALL_TEXT));
}

/// Faults of a table, and their texts.
const TEXTS: [(ReadFault, &'static str); 4] = [
    (
        ReadFault {
            line: 2,
            cause: ReadCause::BadElement,
        },
        "uca: table line 2: BadElement",
    ),
    (
        ReadFault {
            line: 1,
            cause: ReadCause::Read,
        },
        "uca: table line 1: Read",
    ),
    (
        ReadFault {
            line: 67_108_865,
            cause: ReadCause::TooLarge,
        },
        "uca: table line 67108865: TooLarge",
    ),
    (
        ReadFault {
            line: 0,
            cause: ReadCause::OutOfMemory,
        },
        "uca: OutOfMemory",
    ),
];

#[test]
fn faults_of_the_table_have_their_texts(rt: HostRuntime) -> Result<(), Fail> {
    for (fault, want) in &TEXTS {
        let text = CliFault::Table(*fault).to_string(rt.alloc())?;
        assert!(rt; text.as_str() == *want);
    }
    Ok(())
}
