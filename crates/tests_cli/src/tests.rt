mod agreement;
mod checking;
mod findings;
mod given;
mod in_turn;
mod ordering;
mod raw;
mod rules;
mod tables;
mod words;

use given::{Given, failing, output_refused, whole};
use std::alloc::{AllocError, Global};
use std::process::Abort;
use std::test::Fail;
use uca_allkeys::ReadCause;
use uca_cli::{CliFault, InputCause, InputFault, Job, Task, perform, status_of};
use uca_commands::read_text_lines;
use uca_tailor::{RuleCause, TailorCause};
use uca_testing::{Expecting, Pieces, Repeating, repeated};
use uca_weights::{Reader, Reading, Settings, Strength, Variable, WriteCause, Writer};

/// The lines `a` and `ab`, and their keys.
const TWO_LINES: &[u8] = b"a\nab\n";

const TWO_KEYS: &[u8] =
    b"10 00 00 00 00 20 00 00 00 02\n10 00 10 01 00 00 00 20 00 20 00 00 00 02 00 02\n";

/// The settings of a job without options.
const PLAIN: Settings = Settings {
    strength: Strength::Tertiary,
    weighting: Variable::NonIgnorable,
};

/// A job without the flag `raw`. The readers of its table and its rules are passed beside it.
fn plain_job(command: Task, settings: Settings) -> Job {
    Job {
        command,
        strength: settings.strength,
        weighting: settings.weighting,
        raw: false,
        table: None,
        rules: None,
        ideographs: None,
    }
}

/// Does a job with the built-in table.
fn perform_as<I: Reader, W: Writer>(
    alloc: Global,
    command: Task,
    settings: Settings,
    input: &mut I,
    output: &mut W,
) -> Result<u8, CliFault> {
    let job = plain_job(command, settings);
    let table: Option<&mut Repeating> = None;
    let rules: Option<&mut Repeating> = None;
    perform(alloc, &job, table, rules, input, output)
}

/// Does the job `key` without options.
fn perform_key<I: Reader, W: Writer>(
    alloc: Global,
    input: &mut I,
    output: &mut W,
) -> Result<u8, CliFault> {
    perform_as(alloc, Task::Key, PLAIN, input, output)
}

/// Whether a growth was refused.
fn wants_memory(answer: &Result<u8, CliFault>) -> bool {
    match answer {
        Err(CliFault::Input(fault)) => fault.cause == InputCause::OutOfMemory,
        Err(CliFault::Table(fault)) => fault.cause == ReadCause::OutOfMemory,
        Err(CliFault::Rules(fault)) => fault.cause == RuleCause::OutOfMemory,
        Err(CliFault::Tailor(fault)) => fault.cause == TailorCause::OutOfMemory,
        Err(CliFault::OutOfMemory) => true,
        _ => false,
    }
}

/// The answer of the job `key` where it writes nothing, tried again where memory was refused.
fn key_answer<I: Reader + Copy>(alloc: Global, reader: I) -> Result<u8, CliFault> {
    let mut input = reader;
    let mut writer = Expecting::new(b"", 0, WriteCause::Failed);
    let answer = perform_key(alloc, &mut input, &mut writer);
    if !wants_memory(&answer) {
        return answer;
    }
    input = reader;
    perform_key(alloc, &mut input, &mut writer)
}

fn input_refused(line: u64, at: usize, cause: InputCause) -> CliFault {
    CliFault::Input(InputFault { line, at, cause })
}

/// Inputs, and the keys of their lines.
const LINE_KEYS: [(&'static [u8], &'static [u8]); 12] = [
    (TWO_LINES, TWO_KEYS),
    (
        b"\xC3\xA0\n\n\xE4\xB8\x80\n",
        b"10 00 00 00 00 20 00 21 00 00 00 02 00 02\n00 00 00 00\nFB 40 CE 00 00 00 00 20 00 00 00 02\n",
    ),
    (b"", b""),
    (b"\n", b"00 00 00 00\n"),
    (b"\n\n", b"00 00 00 00\n00 00 00 00\n"),
    // A line ends at the end of the input too.
    (b"a\nab", TWO_KEYS),
    // One CR is not part of the line.
    (b"a\r\nab\r\n", TWO_KEYS),
    (b"a\nab\r", TWO_KEYS),
    (b"\r", b"00 00 00 00\n"),
    (b"\r\n", b"00 00 00 00\n"),
    // Another CR is, and has an implicit weight.
    (b"\r\r\n", b"FB C0 80 0D 00 00 00 20 00 00 00 02\n"),
    (b"\r\r", b"FB C0 80 0D 00 00 00 20 00 00 00 02\n"),
];

#[test]
fn each_line_gets_its_key(rt: HostRuntime) {
    for (input, want) in &LINE_KEYS {
        // From a reader of std, and in one piece.
        let mut writer = Expecting::new(want, want.len(), WriteCause::Failed);
        let answer = perform_key(rt.alloc(), &mut Reading::new(*input), &mut writer);
        assert!(rt; wants_memory(&answer) || (answer == Ok(0) && writer.left() == Some(0)));
        let given = Given::new(Task::Key, whole(input));
        assert!(rt; given.writes(&rt, rt.alloc(), want), "{input:?}");
    }
}

/// Inputs, and the line, the byte and the cause of the first fault.
const FAULTY_LINES: [(&'static [u8], u64, usize, InputCause); 7] = [
    (b"a\nb\xFF\n", 2, 1, InputCause::NotUtf8),
    (b"a\nb\xFF", 2, 1, InputCause::NotUtf8),
    (b"\r\n\n\xFF\r\n\xFF\xFF", 3, 0, InputCause::NotUtf8),
    // A sequence of bytes that its line cuts off.
    (b"ab\xC3\n\xA0", 1, 2, InputCause::NotUtf8),
    (b"ab\xC3\r\n\xA0", 1, 2, InputCause::NotUtf8),
    (b"\xED\xA0\x80", 1, 0, InputCause::NotUtf8),
    (b"\xEF\xBB\xBF\xC0\x80", 1, 3, InputCause::NotUtf8),
];

#[test]
fn the_first_faulty_line_is_reported_and_nothing_is_written(rt: HostRuntime) {
    for (input, line, at, cause) in &FAULTY_LINES {
        let given = Given::new(Task::Key, whole(input));
        let fault = input_refused(*line, *at, *cause);
        assert!(rt; given.is_refused(&rt, rt.alloc(), fault), "{input:?}");
    }
}

/// A text after a front, this many times.
fn after(alloc: Global, front: &[u8], text: &[u8], count: usize) -> Result<Vec<u8>, AllocError> {
    let mut out = front.to_vec(alloc)?;
    for _ in 0..count {
        out.extend_from_slice(text)?;
    }
    Ok(out)
}

/// What comes before a run of this many marks, and the line and the byte of the fault.
const LONG_RUNS: [(&'static [u8], usize, u64, usize); 3] = [
    (b"a", 61, 1, 121),
    (b"b\n\na", 61, 3, 121),
    (b"a\n", 62, 2, 120),
];

#[test]
fn a_long_run_is_reported_by_its_place_in_the_line(rt: HostRuntime) -> Result<(), Fail> {
    let acutes = "\u{301}".as_bytes();
    let alloc = rt.alloc();
    for (front, count, line, at) in &LONG_RUNS {
        let input = after(alloc, front, acutes, *count)?;
        let given = Given::new(Task::Key, whole(&input));
        let fault = input_refused(*line, *at, InputCause::LongRun);
        assert!(rt; given.is_refused(&rt, alloc, fault));
    }
    Ok(())
}

#[test]
fn a_line_that_is_no_text_has_no_run(rt: HostRuntime) -> Result<(), Fail> {
    let alloc = rt.alloc();
    let mut input = repeated(alloc, "\u{301}".as_bytes(), 61)?;
    input.push(0xFF)?;
    let given = Given::new(Task::Key, whole(&input));
    let fault = input_refused(1, 122, InputCause::NotUtf8);
    assert!(rt; given.is_refused(&rt, alloc, fault));
    Ok(())
}

#[test]
fn an_input_past_the_limit_is_refused(rt: HostRuntime) {
    let alloc = rt.alloc();
    let large = Err(input_refused(0, 0, InputCause::TooLarge));
    let read = Err(input_refused(0, 0, InputCause::Read));
    let cases = [
        (67_108_865, false, large),
        // The byte too many comes before the failure, or the failure before it.
        (67_108_865, true, large),
        (67_108_864, true, read),
    ];
    for (count, fails, want) in cases {
        let answer = key_answer(alloc, Repeating::new(0, count, fails));
        assert!(rt; answer == want, "{count} bytes");
    }
}

#[test]
fn an_input_at_the_limit_is_read(rt: HostRuntime) {
    let reader = Repeating::new(0, 67_108_864, false);
    let mut input = reader;
    let mut answer = read_text_lines(rt.alloc(), &mut input);
    if let Err(InputFault { cause, .. }) = &answer {
        assert!(rt; *cause == InputCause::OutOfMemory);
        input = reader;
        answer = read_text_lines(rt.alloc(), &mut input);
    }
    let bytes = answer.ok().expect(&rt, "an input");
    assert!(rt; bytes.len() == 67_108_864);
}

#[test]
fn a_failed_read_is_reported(rt: HostRuntime) {
    for (most, calls) in &[(5, 0), (5, 1), (1, 3), (1, 5)] {
        let given = Given::new(Task::Key, Pieces::new(TWO_LINES, *most, *calls));
        let fault = input_refused(0, 0, InputCause::Read);
        assert!(rt; given.is_refused(&rt, rt.alloc(), fault));
    }
}

#[test]
fn pieces_of_the_input_change_nothing(rt: HostRuntime) {
    for most in &[1, 2, 3, 5] {
        let given = Given::new(Task::Key, Pieces::new(TWO_LINES, *most, 100));
        assert!(rt; given.writes(&rt, rt.alloc(), TWO_KEYS), "{most} at once");
    }
}

#[test]
fn a_writer_that_stops_gets_the_front(rt: HostRuntime) {
    let given = Given::new(Task::Key, whole(TWO_LINES));
    given.assert_front(&rt, rt.alloc(), TWO_KEYS);
}

#[test]
fn a_writer_may_stop_a_long_output(rt: HostRuntime) -> Result<(), Fail> {
    let alloc = rt.alloc();
    let input = repeated(alloc, TWO_LINES, 400)?;
    let output = repeated(alloc, TWO_KEYS, 400)?;
    let given = Given::new(Task::Key, whole(&input));
    for room in &[0, 1, 8191, 8192, 8193, 16_384, 31_199] {
        given.assert_stop(&rt, alloc, &output, *room);
    }
    assert!(rt; given.writes(&rt, alloc, &output));
    Ok(())
}

#[test]
fn lines_may_lie_across_the_pieces_read(rt: HostRuntime) -> Result<(), Fail> {
    let alloc = rt.alloc();
    let input = repeated(alloc, TWO_LINES, 30_000)?;
    let output = repeated(alloc, TWO_KEYS, 30_000)?;
    let given = Given::new(Task::Key, whole(&input));
    assert!(rt; given.writes(&rt, alloc, &output));
    Ok(())
}

/// Inputs, and the elements of their lines.
const LINE_ELEMENTS: [(&'static [u8], &'static [u8]); 5] = [
    (b"", b""),
    (
        b"ch\n\xE1\xBA\xA1\xCC\x81\n\n\xE4\xB8\x80-",
        b"[.1007.0020.0002]\n[.1008.0020.0002][.0000.0024.0002]\n\n[.FB40.0020.0002][.CE00.0000.0000][*0202.0020.0002]\n",
    ),
    (b"a-", b"[.1000.0020.0002][*0202.0020.0002]\n"),
    // One CR before LF is not part of the line, and another one is.
    (
        b"ab\n\r\nc\r\r\nd",
        b"[.1000.0020.0002][.1001.0020.0002]\n\n[.1002.0020.0002][.FBC0.0020.0002][.800D.0000.0000]\n[.FBC0.0020.0002][.8064.0000.0000]\n",
    ),
    // A range of implicit weights, and a mark that is blocked.
    (
        b"\xF0\x98\xB4\x80\r\na\xCC\x80\xCC\x81",
        b"[.FB00.0020.0002][.9D00.0000.0000]\n[.1000.0020.0002][.0000.0021.0002][.0000.0022.0002]\n",
    ),
];

#[test]
fn each_line_gets_its_elements(rt: HostRuntime) {
    for (input, want) in &LINE_ELEMENTS {
        let given = Given::new(Task::Elements, whole(input)).at(PLAIN);
        assert!(rt; given.writes(&rt, rt.alloc(), want), "{input:?}");
    }
}

const SECONDARY: Settings = Settings {
    strength: Strength::Secondary,
    weighting: Variable::NonIgnorable,
};

/// Settings, an input, and how each pair of neighbouring lines compares.
const NEIGHBOURS: [(Settings, &'static [u8], &'static [u8]); 6] = [
    (PLAIN, b"a\r\nA\nb", b"less\nless\n"),
    (SECONDARY, b"a\r\nA\nb", b"equal\nless\n"),
    (PLAIN, b"ch\ncz\n\n", b"greater\ngreater\n"),
    (PLAIN, b"", b""),
    (PLAIN, b"a", b""),
    (PLAIN, b"\n\n", b"equal\n"),
];

#[test]
fn each_two_neighbours_are_compared(rt: HostRuntime) {
    for (settings, input, want) in &NEIGHBOURS {
        let given = Given::new(Task::Compare, whole(input)).at(*settings);
        assert!(rt; given.writes(&rt, rt.alloc(), want), "{input:?}");
    }
}

const PRIMARY: Settings = Settings {
    strength: Strength::Primary,
    weighting: Variable::NonIgnorable,
};

/// Settings, an input, and its lines in their order.
const ORDERED_LINES: [(Settings, &'static [u8], &'static [u8]); 8] = [
    (PLAIN, b"b\r\nA\na", b"a\nA\nb\n"),
    (PLAIN, b"b\nA\na\nch\ncz", b"a\nA\nb\ncz\nch\n"),
    (PRIMARY, b"b\nA\na\nch\ncz", b"A\na\nb\ncz\nch\n"),
    // Lines of equal keys keep their order.
    (PRIMARY, b"b\r\nA\na\nA", b"A\na\nA\nb\n"),
    (PLAIN, b"ch\ncz\n\n", b"\ncz\nch\n"),
    (PLAIN, b"", b""),
    (PLAIN, b"a", b"a\n"),
    (PLAIN, b"\n\n", b"\n\n"),
];

#[test]
fn lines_go_out_in_the_order_of_their_keys(rt: HostRuntime) {
    for (settings, input, want) in &ORDERED_LINES {
        let given = Given::new(Task::Order, whole(input)).at(*settings);
        assert!(rt; given.writes(&rt, rt.alloc(), want), "{input:?}");
    }
}

const SHIFTED: Settings = Settings {
    strength: Strength::Quaternary,
    weighting: Variable::Shifted,
};

const IDENTICAL: Settings = Settings {
    strength: Strength::Identical,
    weighting: Variable::NonIgnorable,
};

const BLANKED: Settings = Settings {
    strength: Strength::Primary,
    weighting: Variable::Blanked,
};

/// Settings, an input, and the keys of its lines.
const KEYS_BY_SETTINGS: [(Settings, &'static [u8], &'static [u8]); 4] = [
    (
        SHIFTED,
        b"a-b",
        b"10 00 10 01 00 00 00 20 00 20 00 00 00 02 00 02 00 00 FF FF 02 02 FF FF\n",
    ),
    (
        IDENTICAL,
        b"a",
        b"10 00 00 00 00 20 00 00 00 02 00 00 00 00 00 00 61\n",
    ),
    (IDENTICAL, b"\n", b"00 00 00 00 00 00 00 00\n"),
    (BLANKED, b"a-b", b"10 00 10 01\n"),
];

#[test]
fn settings_are_those_of_the_job(rt: HostRuntime) {
    for (settings, input, want) in &KEYS_BY_SETTINGS {
        let given = Given::new(Task::Key, whole(input)).at(*settings);
        assert!(rt; given.writes(&rt, rt.alloc(), want), "{input:?}");
    }
}

#[test]
fn a_range_of_ideographs_is_that_of_the_job(rt: HostRuntime) {
    let alloc = rt.alloc();
    let without = Given::new(Task::Key, whole("\u{323B0}\n".as_bytes()));
    let given = Given {
        ideographs: Some(('\u{323B0}', '\u{33479}')),
        ..without
    };
    assert!(rt; given.writes(&rt, alloc, b"FB 86 A3 B0 00 00 00 20 00 00 00 02\n"));
    assert!(rt; without.writes(&rt, alloc, b"FB C6 A3 B0 00 00 00 20 00 00 00 02\n"));
    // The range is refused before the input is read.
    let refused = Given {
        ideographs: Some(('\u{4E00}', '\u{4E01}')),
        ..Given::new(Task::Key, failing())
    };
    assert!(rt; refused.is_refused(&rt, alloc, CliFault::Ideographs));
}

/// Fails a test where a fault has another text, or another status than three.
fn assert_text(
    rt: &impl Abort,
    alloc: Global,
    fault: CliFault,
    want: &str,
) -> Result<(), AllocError> {
    assert!(rt; status_of(&fault) == 3, "{want}");
    assert!(rt; fault.to_string(alloc)?.as_str() == want, "{want}");
    Ok(())
}

#[test]
fn faults_have_their_texts_and_status_three(rt: HostRuntime) -> Result<(), Fail> {
    let alloc = rt.alloc();
    assert_text(
        &rt,
        alloc,
        input_refused(2, 1, InputCause::NotUtf8),
        "uca: input line 2 byte 1: NotUtf8",
    )?;
    assert_text(
        &rt,
        alloc,
        input_refused(1, 61, InputCause::LongRun),
        "uca: input line 1 byte 61: LongRun",
    )?;
    assert_text(
        &rt,
        alloc,
        input_refused(0, 0, InputCause::TooLarge),
        "uca: input: TooLarge",
    )?;
    assert_text(
        &rt,
        alloc,
        input_refused(0, 0, InputCause::Read),
        "uca: input: Read",
    )?;
    assert_text(
        &rt,
        alloc,
        CliFault::Ideographs,
        "uca: ideographs: BadRange",
    )?;
    assert_text(
        &rt,
        alloc,
        input_refused(0, 0, InputCause::NotOneLine),
        "uca: input: NotOneLine",
    )?;
    assert_text(
        &rt,
        alloc,
        input_refused(0, 0, InputCause::OutOfMemory),
        "uca: OutOfMemory",
    )?;
    assert_text(
        &rt,
        alloc,
        output_refused(3, WriteCause::Failed),
        "uca: output byte 3: Failed",
    )?;
    assert_text(
        &rt,
        alloc,
        output_refused(0, WriteCause::Zero),
        "uca: output byte 0: Zero",
    )?;
    assert_text(&rt, alloc, CliFault::OutOfMemory, "uca: OutOfMemory")?;
    Ok(())
}
