//! The job `lint`.
use super::given::{Given, failing, whole};
use uca_allkeys::{ReadCause, ReadFault};
use uca_cli::{CliFault, Task};

/// A table that breaks each condition.
const BROKEN: &[u8] = b"\
0061 ; [.1000.0020.0002]
002D ; [*1000.0020.0002]
0300 ; [*0000.0020.0000]
0062 0301 0308 ; [.1001.0020.0002]
";

/// What is found in it.
const FINDINGS: &[u8] = b"WF1\nWF2\nWF3\nWF4\nWF5\n";

/// The job `lint` with the built-in table. The reader of the input fails at each call, so that a job that reads it fails.
fn lint() -> Given<'static> {
    Given::new(Task::Lint, failing())
}

/// The job `lint` with the table of a text.
fn lint_of(text: &[u8]) -> Given<'_> {
    Given::new(Task::Lint, failing()).over(whole(text))
}

#[test]
fn the_built_in_table_is_well_formed(rt: HostRuntime) {
    assert!(rt; lint().writes(&rt, rt.alloc(), b""));
}

/// Tables, and the status and the findings of each.
const TABLES: [(&'static [u8], u8, &'static [u8]); 8] = [
    (b"", 0, b""),
    (b"0061 ; [.1000.0020.0002]\n", 0, b""),
    (BROKEN, 1, FINDINGS),
    // A primary weight of 8000 or more needs no other weights.
    (b"0061 ; [.8000.0020.0002][.1000.0000.0000]\n", 1, b"WF1\n"),
    (b"0061 ; [.FB40.0020.0002][.8000.0000.0000]\n", 0, b""),
    (
        b"0061 ; [.1000.0020.0002]\n0300 ; [.0000.0020.0002]\n",
        1,
        b"WF2\n",
    ),
    (
        b"002D ; [*1000.0020.0002]\n002E ; [*1002.0020.0002]\n0061 ; [.1001.0020.0002]\n",
        1,
        b"WF4\n",
    ),
    // The front of the first key is a key, and the second ends in a starter.
    (
        b"0062 0301 ; [.1000.0020.0002]\n0062 0301 0308 ; [.1001.0020.0002]\n0062 0301 0062 ; [.1002.0020.0002]\n",
        0,
        b"",
    ),
];

#[test]
fn each_broken_condition_is_a_line_and_the_status_is_one(rt: HostRuntime) {
    for (text, status, want) in &TABLES {
        let given = lint_of(text);
        assert!(rt;
            given.comes_to(&rt, rt.alloc(), Ok(*status), want),
            "{text:?}"
        );
    }
}

#[test]
fn a_faulty_text_has_no_findings(rt: HostRuntime) {
    let fault = CliFault::Table(ReadFault {
        line: 1,
        cause: ReadCause::NoSemicolon,
    });
    assert!(rt; lint_of(b"0061").is_refused(&rt, rt.alloc(), fault));
}

#[test]
fn a_writer_that_stops_gets_the_front_of_the_findings(rt: HostRuntime) {
    lint_of(BROKEN).assert_front(&rt, rt.alloc(), FINDINGS);
}
