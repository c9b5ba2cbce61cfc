ghost use Rattle.std.specs.Prelude.{None};

use std::alloc::{AllocError, Global};
use std::process::Abort;
use std::test::Fail;
use uca_conform::{ConformCause, ConformFault, Conformance, conform};
use uca_table::{Table, TableBuilder};
use uca_testing::table_from;
use uca_weights::{MAX_INPUT, Reader, Refused, Settings, Strength, Variable};

/// Gives its bytes this many times, in pieces of at most `step`, and fails at the end if told to.
#[derive(Clone, Copy)]
struct Lines<'b> {
    bytes: &'b [u8],
    at: usize,
    left: usize,
    step: usize,
    fails: bool,
    failed: u128,
}

impl Reader for Lines<'_> {
    ghost state = { λ s. record { coming = None; failures = s.failed } };

    fn pull(&mut self, buf: &mut [u8]) -> Result<usize, Refused> {
        let most = self.left.min(buf.len()).min(self.step);
        if most == 0 && self.fails {
            self.failed = self.failed.saturating_add(1);
            return Err(Refused);
        }
        let bytes = self.bytes;
        let mut at = self.at;
        for byte in &mut buf[..most] {
            if at >= bytes.len() {
                at = 0;
            }
            if at < bytes.len() {
                *byte = bytes[at];
                at += 1;
            }
        }
        self.at = at;
        self.left -= most;
        Ok(most)
    }
}

const PLAIN: Settings = Settings {
    strength: Strength::Tertiary,
    weighting: Variable::NonIgnorable,
};

/// A report of lines, skipped lines, and the first failure.
fn report(
    lines: u64,
    skipped: u64,
    first_failure: Option<u64>,
) -> Result<Conformance, ConformFault> {
    Ok(Conformance {
        lines,
        skipped,
        first_failure,
    })
}

fn fault(line: u64, cause: ConformCause) -> Result<Conformance, ConformFault> {
    Err(ConformFault { line, cause })
}

fn repeated(bytes: &[u8], left: usize, step: usize, fails: bool) -> Lines<'_> {
    Lines {
        bytes,
        at: 0,
        left,
        step,
        fails,
        failed: 0,
    }
}

/// Checks the answer for what a reader gives.
fn assert_conforms(
    rt: &impl Abort,
    t: &Table,
    mut lines: Lines,
    wanted: Result<Conformance, ConformFault>,
) {
    let step = lines.step;
    assert!(rt; conform(t, PLAIN, &mut lines) == wanted, "{step} at once");
}

/// Checks the answer for a text, given at once and in small pieces.
fn assert_answer(
    rt: &impl Abort,
    t: &Table,
    text: &[u8],
    wanted: Result<Conformance, ConformFault>,
) {
    for step in &[1, 3, 4096] {
        assert_conforms(rt, t, repeated(text, text.len(), *step, false), wanted);
    }
}

/// A small table without variable elements.
const TABLE: &[u8] = b"\
0020 ; [.0201.0020.0002]
0041 ; [.1000.0020.0008]
0061 ; [.1000.0020.0002]
0062 ; [.1001.0020.0002]
0063 ; [.1002.0020.0002]
0065 ; [.1004.0020.0002]
0068 ; [.1005.0020.0002]
0063 0068 ; [.1007.0020.0002]
0061 0301 ; [.1008.0020.0002]
0301 ; [.0000.0022.0002]
0308 ; [.0000.0023.0002]
0323 ; [.0000.0024.0002]
";

/// The table of `TABLE`.
fn table(rt: &impl Abort, alloc: Global) -> Table {
    table_from(alloc, TABLE).ok().expect(rt, "a table")
}

/// The table without entries, retrying where memory was refused. A builder allocates little: the tests of large inputs are run
/// again for each growth.
fn empty_table(rt: &impl Abort, alloc: Global) -> Table {
    match TableBuilder::new(alloc).finish() {
        Ok(table) => table,
        Err(fault) => fault.builder.finish().ok().expect(rt, "a table"),
    }
}

/// `0061`, a line that begins with this many bytes, and the rest.
fn long_text(alloc: Global, width: usize, rest: &[u8]) -> Result<Vec<u8>, AllocError> {
    let mut text = Vec::new(alloc);
    text.extend_from_slice(b"0061\n")?;
    for _ in 0..width {
        text.push(b'#')?;
    }
    text.extend_from_slice(rest)?;
    Ok(text)
}

/// Checks the answer for such a text.
fn assert_long_text(
    rt: &impl Abort,
    alloc: Global,
    t: &Table,
    width: usize,
    rest: &[u8],
    wanted: Result<Conformance, ConformFault>,
) -> Result<(), Fail> {
    let text = long_text(alloc, width, rest)?;
    assert_answer(rt, t, &text, wanted);
    Ok(())
}

/// A letter with 61 marks between two others.
const MARKED: &[u8] = b"0062\n\
0061 0301 0301 0301 0301 0301 0301 0301 0301 0301 0301 0301 0301 0301 0301 0301 0301 0301 0301 0301 0301 0301 0301 \
0301 0301 0301 0301 0301 0301 0301 0301 0301 0301 0301 0301 0301 0301 0301 0301 0301 0301 0301 0301 0301 0301 0301 0301 \
0301 0301 0301 0301 0301 0301 0301 0301 0301 0301 0301 0301 0301 0301 0301\n0061\n";

/// The same without the first line.
const MARKS_FIRST: &[u8] = b"\
0061 0301 0301 0301 0301 0301 0301 0301 0301 0301 0301 0301 0301 0301 0301 0301 0301 0301 0301 0301 0301 0301 0301 \
0301 0301 0301 0301 0301 0301 0301 0301 0301 0301 0301 0301 0301 0301 0301 0301 0301 0301 0301 0301 0301 0301 0301 0301 \
0301 0301 0301 0301 0301 0301 0301 0301 0301 0301 0301 0301 0301 0301 0301\n0061\n";

/// Texts, each with how many lines it has, how many of them are skipped, and which one fails first.
static TEXTS: [(&[u8], u64, u64, Option<u64>); 22] = [
    (b"", 0, 0, None),
    (b"0062\nD800\n0061;x\n", 3, 1, Some(3)),
    (b"# nothing\n\n \t\n", 0, 0, None),
    (b"0062\nD800\n0061;x", 3, 1, Some(3)),
    (b"0061\n# x\n\n0062\n", 2, 0, None),
    (b"0061\n# x\n\n0062", 2, 0, None),
    (b"0061\r\n \t# x\r\n\t\r\n0062 # 0061", 2, 0, None),
    (b"0062\n0061\n0062\n0061\n", 4, 0, Some(2)),
    (b"0061\n0061\n", 2, 0, None),
    (b"0061\r\n \t# x\r\n\t0041 0301 # y\r\n0061;", 3, 0, Some(4)),
    (b"0062\t0061\n\n0062#\n10FFFF\n", 3, 0, Some(3)),
    (b"0063 0068;\n0063 0062", 2, 0, Some(2)),
    // Marks in another order are the same text in NFD.
    (
        b"0061\t0301 0323 # dotted\n0061 0323 0301;\n0061\n0041\n0061\n",
        5,
        0,
        Some(3),
    ),
    (b"000A\n000D\n0020;\n1F600 0041\n", 4, 0, Some(3)),
    (b"0061\n0061 dfff\n0061\n", 3, 1, None),
    (MARKED, 3, 1, Some(3)),
    (MARKS_FIRST, 2, 1, None),
    (b"D800 0061\n0062\n0061 DFFF\n0061", 4, 2, Some(4)),
    (b"0062\n0061 D800\n", 2, 1, None),
    (b"10FFFF\n00E9;G\n000061", 3, 0, Some(2)),
    (b" 0062 0061 ; x\n# x\n\t0062", 2, 0, Some(3)),
    (b"\n\n0062\n\n0061", 2, 0, Some(5)),
];

/// Checks the reports of such texts.
fn assert_reports(rt: &impl Abort, t: &Table, texts: &[(&[u8], u64, u64, Option<u64>)]) {
    for (text, lines, skipped, first_failure) in texts {
        assert_answer(rt, t, text, report(*lines, *skipped, *first_failure));
    }
}

#[test]
fn lines_are_compared_with_the_one_before(rt: HostRuntime) {
    let t = table(&rt, rt.alloc());
    assert_reports(&rt, &t, &TEXTS);
}

/// A line of 61 marks between two letters. The last mark makes it unsafe.
const UNSAFE: &[u8] = b"0062\n\
0301 0301 0301 0301 0301 0301 0301 0301 0301 0301 0301 0301 0301 0301 0301 0301 0301 0301 0301 0301 \
0301 0301 0301 0301 0301 0301 0301 0301 0301 0301 0301 0301 0301 0301 0301 0301 0301 0301 0301 0301 \
0301 0301 0301 0301 0301 0301 0301 0301 0301 0301 0301 0301 0301 0301 0301 0301 0301 0301 0301 0301 \
0301\n0061 ";

/// The same with spaces in place of the last mark.
const SAFE: &[u8] = b"0062\n\
0301 0301 0301 0301 0301 0301 0301 0301 0301 0301 0301 0301 0301 0301 0301 0301 0301 0301 0301 0301 \
0301 0301 0301 0301 0301 0301 0301 0301 0301 0301 0301 0301 0301 0301 0301 0301 0301 0301 0301 0301 \
0301 0301 0301 0301 0301 0301 0301 0301 0301 0301 0301 0301 0301 0301 0301 0301 0301 0301 0301 0301     \n\
0061 ";

#[test]
fn a_text_that_is_not_safe_is_skipped(rt: HostRuntime) {
    let t = table(&rt, rt.alloc());
    assert_answer(&rt, &t, UNSAFE, report(3, 1, Some(3)));
    assert_answer(&rt, &t, SAFE, report(3, 0, Some(2)));
}

/// Texts, each with the number of its first faulty line.
static FAULTY: [(&[u8], u64); 19] = [
    (b";x", 1),
    (b"00G1", 1),
    (b"0061\n061\n", 2),
    (b"0061\n#\n061\n00G1", 3),
    (b"0061\n0061 0000061\n", 2),
    (b"110000\n", 1),
    (b"0061\r\r\n", 1),
    (b"\n0061,0062 # x", 2),
    (b"0061 10FFFF;\r\n110000\n", 2),
    (b"0061 D800 00G1\n", 1),
    (b"0061\n0000061\n", 2),
    (b"0061\n110000\n", 2),
    (b"0061\n\n \t;\n", 3),
    (b"0061,0062", 1),
    (b"D800 00G1", 1),
    (b"0061 D800 110000", 1),
    (b"0061\n@ 0061\n", 2),
    (b"0061\n\r0061\n", 2),
    (b"0061\n00G1\n00G1", 2),
];

/// Checks the faults of such texts.
fn assert_faulty(rt: &impl Abort, t: &Table, texts: &[(&[u8], u64)]) {
    for (text, line) in texts {
        assert_answer(rt, t, text, fault(*line, ConformCause::BadLine));
    }
}

#[test]
fn a_faulty_line_is_reported(rt: HostRuntime) {
    let t = table(&rt, rt.alloc());
    assert_faulty(&rt, &t, &FAULTY);
}

/// Texts with a line of 4096 bytes, which ends in LF, in CR and LF or with the text.
static LONG: [(usize, &[u8], u64); 3] = [
    (4096, b"\n0062", 2),
    (4096, b"", 1),
    // The CR is a byte of the line.
    (4095, b"\r\n0062", 2),
];

/// Checks the answer for such a text, and for the same with one more byte in its line.
fn assert_line_limit(
    rt: &impl Abort,
    alloc: Global,
    t: &Table,
    (width, rest, lines): &(usize, &[u8], u64),
) -> Result<(), Fail> {
    assert_long_text(rt, alloc, t, *width, rest, report(*lines, 0, None))?;
    let long = fault(2, ConformCause::LineTooLong);
    assert_long_text(rt, alloc, t, width.saturating_add(1), rest, long)
}

/// Checks the answers for long lines of comments and of code points.
fn assert_long_lines(rt: &impl Abort, alloc: Global, t: &Table) -> Result<(), Fail> {
    for row in &LONG {
        assert_line_limit(rt, alloc, t, row)?;
    }
    // A line of code points with four bytes of UTF-8 each.
    let widest = repeated(b"10000 ", 4092, 4096, false);
    assert_conforms(rt, t, widest, report(1, 0, None));
    let long = fault(1, ConformCause::LineTooLong);
    assert_conforms(rt, t, repeated(b"0061 ", 4097, 1000, false), long);
    Ok(())
}

#[test]
fn a_line_has_a_limit(rt: HostRuntime) -> Result<(), Fail> {
    let t = table(&rt, rt.alloc());
    assert_long_lines(&rt, rt.alloc(), &t)
}

/// Checks the answers for files of lines of sixty-four bytes.
fn assert_large_files(rt: &impl Abort, t: &Table) {
    let text = b"# a line of sixty-four bytes, which is a comment and says naught\n";
    let lines = (MAX_INPUT / 65) as u64;
    let read = fault(lines + 1, ConformCause::Read);
    assert_conforms(rt, t, repeated(text, MAX_INPUT, 4096, true), read);
    let whole = repeated(text, MAX_INPUT, 4096, false);
    assert_conforms(rt, t, whole, report(0, 0, None));
    let large = fault(lines + 1, ConformCause::TooLarge);
    assert_conforms(rt, t, repeated(text, MAX_INPUT + 1, 4095, false), large);
}

/// Checks the answers for files of lines that are as wide as they may be.
fn assert_wide_files(rt: &impl Abort, t: &Table) {
    let mut widest = [b'#'; 4097];
    widest[4096] = b'\n';
    let whole = repeated(&widest, MAX_INPUT, 4096, false);
    assert_conforms(rt, t, whole, report(0, 0, None));
    let large = fault(16_381, ConformCause::TooLarge);
    assert_conforms(rt, t, repeated(&widest, MAX_INPUT + 1, 4096, false), large);
}

#[test]
fn a_file_has_a_limit(rt: HostRuntime) {
    let t = empty_table(&rt, rt.alloc());
    assert_large_files(&rt, &t);
    assert_wide_files(&rt, &t);
}

#[test]
fn empty_lines_without_end_are_too_large(rt: HostRuntime) {
    let t = empty_table(&rt, rt.alloc());
    let large = fault(67_108_865, ConformCause::TooLarge);
    assert_conforms(&rt, &t, repeated(b"\n", usize::MAX, 4096, false), large);
}

/// Texts whose reader fails at their end, each with what is met first, and on which line.
static FAILING: [(&[u8], u64, ConformCause); 5] = [
    (b"", 1, ConformCause::Read),
    (b"0061", 1, ConformCause::Read),
    (b"0061\n", 2, ConformCause::Read),
    (b"0061\n00G1", 2, ConformCause::Read),
    (b"0061\n00G1\n", 2, ConformCause::BadLine),
];

/// Checks the faults of such texts.
fn assert_failing(rt: &impl Abort, t: &Table, texts: &[(&[u8], u64, ConformCause)]) {
    for (text, line, cause) in texts {
        let fails = repeated(text, text.len(), 4, true);
        assert_conforms(rt, t, fails, fault(*line, *cause));
    }
}

#[test]
fn a_failed_read_is_reported(rt: HostRuntime) {
    let t = table(&rt, rt.alloc());
    assert_failing(&rt, &t, &FAILING);
}
