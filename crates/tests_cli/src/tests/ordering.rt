//! The lines of an input in the order of their keys.
use super::given::{output_refused, whole};
use super::{PLAIN, input_refused};
use std::alloc::{AllocError, Global};
use std::process::Abort;
use std::test::Fail;
use uca_cli::{CliFault, InputCause, built_in, order};
use uca_testing::{Expecting, Pieces, Repeating, repeated};
use uca_weights::{Reader, Settings, Strength, Variable, WriteCause, Writer};

/// Lines out of order, and the last one without LF.
const LINES: &[u8] = b"b\nA\na\nch\r\ncz";

/// The same lines in order.
const ORDERED: &[u8] = b"a\nA\nb\ncz\nch\n";

const PRIMARY: Settings = Settings {
    strength: Strength::Primary,
    weighting: Variable::NonIgnorable,
};

/// Puts lines in order by the built-in table.
fn order_by_own<I: Reader, W: Writer>(
    alloc: Global,
    settings: Settings,
    input: &mut I,
    output: &mut W,
) -> Result<u64, CliFault> {
    match built_in(alloc) {
        Ok(t) => order(alloc, &t, settings, input, output),
        Err(_) => Err(CliFault::OutOfMemory),
    }
}

/// Whether a growth was refused.
fn wants_memory(answer: Result<u64, CliFault>) -> bool {
    match answer {
        Err(CliFault::Input(fault)) => fault.cause == InputCause::OutOfMemory,
        Err(CliFault::OutOfMemory) => true,
        _ => false,
    }
}

/// Puts lines in order, retrying where memory was refused. Then nothing was written yet.
fn ordered<I: Reader + Copy>(
    rt: &impl Abort,
    alloc: Global,
    settings: Settings,
    lines: I,
    writer: &mut Expecting,
) -> Result<u64, CliFault> {
    let begun = writer.left();
    let mut input = lines;
    let answer = order_by_own(alloc, settings, &mut input, writer);
    if !wants_memory(answer) {
        return answer;
    }
    assert!(rt; writer.left() == begun);
    input = lines;
    order_by_own(alloc, settings, &mut input, writer)
}

/// Whether an input has this result, and exactly these bytes are written.
fn comes_to<I: Reader + Copy>(
    rt: &impl Abort,
    alloc: Global,
    settings: Settings,
    lines: I,
    want: Result<u64, CliFault>,
    output: &[u8],
) -> bool {
    let mut writer = Expecting::new(output, usize::MAX, WriteCause::Failed);
    let answer = ordered(rt, alloc, settings, lines, &mut writer);
    answer == want && writer.left() == Some(0)
}

const SHIFTED: Settings = Settings {
    strength: Strength::Tertiary,
    weighting: Variable::Shifted,
};

const IDENTICAL: Settings = Settings {
    strength: Strength::Identical,
    weighting: Variable::NonIgnorable,
};

/// Settings, an input, how many lines it has, and the lines in their order.
const ORDERED_LINES: [(Settings, &'static [u8], u64, &'static [u8]); 11] = [
    (PLAIN, LINES, 5, ORDERED),
    // `A` and `a` have one key at the first level, and keep their order.
    (PRIMARY, LINES, 5, b"A\na\nb\ncz\nch\n"),
    (PRIMARY, b"a\nA\na\n", 3, b"a\nA\na\n"),
    // U+0001 has no weight, and counts at the fifth level alone.
    (PLAIN, b"a\n\na\x01\n\x01\na", 5, b"\n\x01\na\na\x01\na\n"),
    (
        IDENTICAL,
        b"a\n\na\x01\n\x01\na",
        5,
        b"\n\x01\na\na\na\x01\n",
    ),
    (PLAIN, b"", 0, b""),
    (PLAIN, b"\n", 1, b"\n"),
    // A key that is the front of another one comes first.
    (PLAIN, b"ab\n\na", 3, b"\na\nab\n"),
    // One CR before LF is not part of the line, and another one is.
    (PLAIN, b"b\r\na\r", 2, b"a\nb\n"),
    (PLAIN, b"\r\r\na\n", 2, b"a\n\r\n"),
    // The characters of a line are written, also where its key has none of them.
    (SHIFTED, b"-b\nc\n a\n", 3, b" a\n-b\nc\n"),
];

#[test]
fn lines_come_in_the_order_of_their_keys(rt: HostRuntime) {
    for (settings, input, count, output) in &ORDERED_LINES {
        assert!(rt;
            comes_to(&rt, rt.alloc(), *settings, whole(input), Ok(*count), output),
            "{input:?}"
        );
    }
}

#[test]
fn a_fault_of_the_input_leaves_the_writer_empty(rt: HostRuntime) {
    let alloc = rt.alloc();
    let faulty = whole(b"a\nb\xFF\n");
    let want = Err(input_refused(2, 1, InputCause::NotUtf8));
    assert!(rt; comes_to(&rt, alloc, PLAIN, faulty, want, b""));
    let failing = Pieces::new(LINES, 5, 1);
    let read = Err(input_refused(0, 0, InputCause::Read));
    assert!(rt; comes_to(&rt, alloc, PLAIN, failing, read, b""));
}

#[test]
fn empty_lines_without_end_are_too_large(rt: HostRuntime) {
    let lines = Repeating::new(b'\n', usize::MAX, false);
    let want = Err(input_refused(0, 0, InputCause::TooLarge));
    assert!(rt; comes_to(&rt, rt.alloc(), PLAIN, lines, want, b""));
}

/// Whether a writer of this capacity gets exactly the front of the output, and the fault says so.
fn stops(
    rt: &impl Abort,
    alloc: Global,
    input: &[u8],
    output: &[u8],
    room: usize,
    cause: WriteCause,
) -> bool {
    let mut writer = Expecting::new(output, room, cause);
    let answer = ordered(rt, alloc, PLAIN, whole(input), &mut writer);
    let written = room.min(output.len());
    if written < output.len() && answer != Err(output_refused(written as u128, cause)) {
        return false;
    }
    answer.is_ok() == (written == output.len()) && writer.left() == Some(output.len() - written)
}

#[test]
fn a_writer_that_stops_gets_the_front(rt: HostRuntime) {
    for room in 0..ORDERED.len() + 2 {
        let holds = stops(&rt, rt.alloc(), LINES, ORDERED, room, WriteCause::Failed);
        assert!(rt; holds, "{room} bytes, after which the writer fails");
        let holds = stops(&rt, rt.alloc(), LINES, ORDERED, room, WriteCause::Zero);
        assert!(rt; holds, "{room} bytes, after which the writer takes none");
    }
}

/// A line of this many `a`, after `b`, or before it.
fn long_lines(alloc: Global, count: usize) -> Result<(Vec<u8>, Vec<u8>), AllocError> {
    let line = repeated(alloc, b"a", count)?;
    let mut input = repeated(alloc, b"b\n", 1)?;
    input.extend_from_slice(&line)?;
    let mut output = line;
    output.extend_from_slice(b"\nb\n")?;
    Ok((input, output))
}

/// Fails a test where a line of this many characters is not written whole, or its front to a writer that takes no more.
fn assert_long(rt: &impl Abort, alloc: Global, count: usize) -> Result<(), AllocError> {
    let (input, output) = long_lines(alloc, count)?;
    let all = output.len();
    let holds = stops(rt, alloc, &input, &output, all, WriteCause::Failed);
    assert!(rt; holds, "{count} characters");
    let holds = stops(rt, alloc, &input, &output, count, WriteCause::Zero);
    assert!(rt; holds, "a front of {count} characters");
    Ok(())
}

#[test]
fn long_lines_go_out_whole(rt: HostRuntime) -> Result<(), Fail> {
    let alloc = rt.alloc();
    for count in &[8_191, 8_192, 8_193, 16_384, 16_385, 30_000] {
        assert_long(&rt, alloc, *count)?;
    }
    Ok(())
}

#[test]
fn many_lines_are_put_in_order(rt: HostRuntime) -> Result<(), Fail> {
    let alloc = rt.alloc();
    let input = repeated(alloc, b"b\na\n", 5_000)?;
    let mut output = repeated(alloc, b"a\n", 5_000)?;
    output.extend_from_slice(&repeated(alloc, b"b\n", 5_000)?)?;
    assert!(rt; comes_to(&rt, alloc, PLAIN, whole(&input), Ok(10_000), &output));
    Ok(())
}
