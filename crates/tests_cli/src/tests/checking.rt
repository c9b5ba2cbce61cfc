//! The job `check`.
use super::given::{Given, whole};
use std::test::Fail;
use uca_cli::{CliFault, ConformCause, ConformFault, Task};
use uca_testing::Pieces;

/// A file whose last line is below the first one.
const FAILING: &[u8] = b"0062\nD800\n0061;x\n";

/// Its report.
const REPORT: &[u8] = b"lines 3\nskipped 1\nfirst failure 3\n";

/// The job `check` with the built-in table.
fn check(file: Pieces<'_>) -> Given<'_> {
    Given::new(Task::Check, file)
}

fn file_refused(line: u64, cause: ConformCause) -> CliFault {
    CliFault::Conform(ConformFault { line, cause })
}

/// Files, and the status and the report of each.
const FILES: [(&'static [u8], u8, &'static [u8]); 3] = [
    (FAILING, 1, REPORT),
    (
        b"0061\n# x\n\n0062",
        0,
        b"lines 2\nskipped 0\nfirst failure none\n",
    ),
    (b"", 0, b"lines 0\nskipped 0\nfirst failure none\n"),
];

#[test]
fn a_failing_line_is_reported_and_the_status_is_one(rt: HostRuntime) {
    for (file, status, want) in &FILES {
        let given = check(whole(file));
        assert!(rt;
            given.comes_to(&rt, rt.alloc(), Ok(*status), want),
            "{file:?}"
        );
    }
}

#[test]
fn a_faulty_file_is_reported_and_nothing_is_written(rt: HostRuntime) {
    let faulty = check(whole(b"0062\n;x\n0061\n"));
    let bad = file_refused(2, ConformCause::BadLine);
    assert!(rt; faulty.is_refused(&rt, rt.alloc(), bad));
    let failing = check(Pieces::new(FAILING, 1, 6));
    let read = file_refused(2, ConformCause::Read);
    assert!(rt; failing.is_refused(&rt, rt.alloc(), read));
}

#[test]
fn a_writer_that_stops_gets_the_front_of_the_report(rt: HostRuntime) {
    check(whole(FAILING)).assert_front(&rt, rt.alloc(), REPORT);
}

/// Causes, and their texts.
const TEXTS: [(ConformCause, &'static str); 4] = [
    (ConformCause::LineTooLong, "uca: input line 7: LineTooLong"),
    (ConformCause::BadLine, "uca: input line 7: BadLine"),
    (ConformCause::TooLarge, "uca: input line 7: TooLarge"),
    (ConformCause::Read, "uca: input line 7: Read"),
];

#[test]
fn faults_of_a_test_file_have_their_texts(rt: HostRuntime) -> Result<(), Fail> {
    for (cause, want) in &TEXTS {
        let fault = file_refused(7, *cause);
        let text = format!(in rt.alloc(); "{fault}")?;
        assert!(rt; text.as_str() == *want);
    }
    Ok(())
}
