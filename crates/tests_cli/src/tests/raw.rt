//! The job `key --raw`.
use super::given::{Given, whole};
use super::{PLAIN, input_refused, plain_job, wants_memory};
use std::test::Fail;
use uca_cli::{InputCause, Job, Task, perform};
use uca_testing::{Expecting, Pieces, Repeating, repeated};
use uca_weights::{Settings, Strength, Variable, WriteCause};

/// The key of `a`.
const KEY: &[u8] = &[0x10, 0, 0, 0, 0, 0x20, 0, 0, 0, 2];

const PRIMARY: Settings = Settings {
    strength: Strength::Primary,
    weighting: Variable::NonIgnorable,
};

const IDENTICAL: Settings = Settings {
    strength: Strength::Identical,
    weighting: Variable::NonIgnorable,
};

/// A job with the flag, and with the built-in table.
fn raw(command: Task, input: Pieces<'_>) -> Given<'_> {
    Given {
        raw: true,
        ..Given::new(command, input)
    }
}

/// The job `key --raw`.
fn raw_key(input: &[u8]) -> Given<'_> {
    raw(Task::Key, whole(input))
}

/// Inputs of one line, settings, and the key.
const RAW_KEYS: [(&'static [u8], Settings, &'static [u8]); 9] = [
    (b"a\n", PLAIN, KEY),
    (b"a", PLAIN, KEY),
    (b"a\r\n", PLAIN, KEY),
    (b"a\r", PLAIN, KEY),
    // An empty line is a line.
    (b"\n", PLAIN, &[0; 4]),
    (b"\r", PLAIN, &[0; 4]),
    (b"\n", PRIMARY, &[]),
    (
        b"a",
        IDENTICAL,
        &[0x10, 0, 0, 0, 0, 0x20, 0, 0, 0, 2, 0, 0, 0, 0, 0, 0, 0x61],
    ),
    (b"ch\xE4\xB8\x80", PRIMARY, &[0x10, 7, 0xFB, 0x40, 0xCE, 0]),
];

#[test]
fn the_key_of_the_one_line_is_written_as_its_bytes(rt: HostRuntime) {
    for (input, settings, want) in &RAW_KEYS {
        let given = raw_key(input).at(*settings);
        assert!(rt; given.writes(&rt, rt.alloc(), want), "{input:?}");
    }
}

#[test]
fn a_raw_key_is_that_of_the_settings(rt: HostRuntime) {
    let shifted = Settings {
        strength: Strength::Quaternary,
        weighting: Variable::Shifted,
    };
    let want: &[u8] = &[
        0x10, 0, 0x10, 1, 0, 0, 0, 0x20, 0, 0x20, 0, 0, 0, 2, 0, 2, 0, 0, 0xFF, 0xFF, 2, 2, 0xFF,
        0xFF,
    ];
    let given = raw_key(b"a-b\n").at(shifted);
    assert!(rt; given.writes(&rt, rt.alloc(), want));
}

const NOT_ONE_LINE: [&'static [u8]; 6] = [b"", b"a\nab\n", b"a\nab", b"\n\n", b"\n\r", b"a\n\n"];

#[test]
fn an_input_that_is_not_one_line_is_refused(rt: HostRuntime) {
    for input in &NOT_ONE_LINE {
        let fault = input_refused(0, 0, InputCause::NotOneLine);
        assert!(rt;
            raw_key(input).is_refused(&rt, rt.alloc(), fault),
            "{input:?}"
        );
    }
}

#[test]
fn other_faults_of_the_input_come_before_the_number_of_lines(rt: HostRuntime) -> Result<(), Fail> {
    let alloc = rt.alloc();
    let fault = input_refused(2, 1, InputCause::NotUtf8);
    assert!(rt; raw_key(b"a\nb\xFF\n").is_refused(&rt, alloc, fault));
    let mut input = repeated(alloc, "\u{301}".as_bytes(), 61)?;
    input.extend_from_slice(b"\n\n")?;
    let fault = input_refused(1, 120, InputCause::LongRun);
    assert!(rt; raw_key(&input).is_refused(&rt, alloc, fault));
    let given = raw(Task::Key, Pieces::new(b"a\nb\n", 2, 1));
    let fault = input_refused(0, 0, InputCause::Read);
    assert!(rt; given.is_refused(&rt, alloc, fault));
    Ok(())
}

#[test]
fn an_input_past_the_limit_is_too_large_and_not_many_lines(rt: HostRuntime) {
    let alloc = rt.alloc();
    let job = Job {
        raw: true,
        ..plain_job(Task::Key, PLAIN)
    };
    let reader = Repeating::new(0, 67_108_865, false);
    let mut writer = Expecting::new(b"", 0, WriteCause::Failed);
    let mut input = reader;
    let (table, rules): (Option<&mut Pieces>, Option<&mut Pieces>) = (None, None);
    let mut answer = perform(alloc, &job, table, rules, &mut input, &mut writer);
    if wants_memory(&answer) {
        let (table, rules): (Option<&mut Pieces>, Option<&mut Pieces>) = (None, None);
        input = reader;
        answer = perform(alloc, &job, table, rules, &mut input, &mut writer);
    }
    assert!(rt; answer == Err(input_refused(0, 0, InputCause::TooLarge)));
}

#[test]
fn a_writer_that_stops_gets_the_front_of_a_raw_key(rt: HostRuntime) {
    raw_key(b"a\n").assert_front(&rt, rt.alloc(), KEY);
}

/// Commands that take no notice of the flag, and what they write.
const OTHER_COMMANDS: [(Task, &'static [u8]); 2] = [
    (Task::Elements, b"[.1000.0020.0002]\n[.1001.0020.0002]\n"),
    (Task::Compare, b"less\n"),
];

#[test]
fn the_flag_is_one_of_keys_alone(rt: HostRuntime) {
    for (command, want) in &OTHER_COMMANDS {
        let given = raw(*command, whole(b"a\nb\n"));
        assert!(rt; given.writes(&rt, rt.alloc(), want), "{command:?}");
    }
}
