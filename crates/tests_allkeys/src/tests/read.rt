use super::assert_written;
use std::alloc::{AllocError, Global};
use std::process::Abort;
use std::test::Fail;
use uca_allkeys::{ReadCause, ReadFault, read_table};
use uca_table::Table;
use uca_testing::{SMALL_TEXT, WRITTEN_BY_HAND};
use uca_weights::{MAX_INPUT, Range, Reader, Reading, Refused};

/// Gives at most this many bytes a call, and fails at the end if told to.
#[derive(Drop)]
struct Slow<'t> {
    rest: &'t [u8],
    step: usize,
    fails: bool,
    failed: u128,
}

impl<'t> Reader for Slow<'t> {
    ghost use Rattle.std.specs.Prelude.{None};

    ghost state = { λ s. record { coming = None; failures = s.failed } };

    fn pull(&mut self, buf: &mut [u8]) -> Result<usize, Refused> {
        let count = self.rest.len().min(buf.len()).min(self.step);
        if count == 0 && self.fails {
            self.failed = self.failed.saturating_add(1);
            return Err(Refused);
        }
        buf[..count].copy_from_slice(&self.rest[..count]);
        self.rest = &self.rest[count..];
        Ok(count)
    }
}

/// Gives lines of this many `#`, up to this many bytes in all.
#[derive(Drop)]
struct Comments {
    width: usize,
    column: usize,
    left: usize,
}

impl Reader for Comments {
    ghost use Rattle.std.specs.Prelude.{None};

    ghost state = { λ s. record { coming = None; failures = 0 } };

    fn pull(&mut self, buf: &mut [u8]) -> Result<usize, Refused> {
        let count = self.left.min(buf.len());
        self.left -= count;
        for byte in &mut buf[..count] {
            if self.column < self.width {
                *byte = b'#';
                self.column += 1;
            } else {
                *byte = b'\n';
                self.column = 0;
            }
        }
        Ok(count)
    }
}

fn slow_reader(rest: &[u8], step: usize, fails: bool) -> Slow<'_> {
    Slow {
        rest,
        step,
        fails,
        failed: 0,
    }
}

/// Lines of this many `#`, up to this many bytes in all.
fn comment_reader(width: usize, left: usize) -> Comments {
    Comments {
        width,
        column: 0,
        left,
    }
}

/// Whether memory was refused: then the call is made again, for a run refuses one growth at most.
fn was_refused(answer: &Result<Table, ReadFault>) -> bool {
    matches!(answer, Err(fault) if fault.cause == ReadCause::OutOfMemory)
}

fn read(alloc: Global, text: &[u8]) -> Result<Table, ReadFault> {
    let answer = read_table(alloc, &mut Reading::new(text));
    if was_refused(&answer) {
        return read_table(alloc, &mut Reading::new(text));
    }
    answer
}

fn read_slowly(alloc: Global, text: &[u8], step: usize, fails: bool) -> Result<Table, ReadFault> {
    let answer = read_table(alloc, &mut slow_reader(text, step, fails));
    if was_refused(&answer) {
        return read_table(alloc, &mut slow_reader(text, step, fails));
    }
    answer
}

fn read_comments(alloc: Global, width: usize, bytes: usize) -> Result<Table, ReadFault> {
    let answer = read_table(alloc, &mut comment_reader(width, bytes));
    if was_refused(&answer) {
        return read_table(alloc, &mut comment_reader(width, bytes));
    }
    answer
}

/// The line and the cause, where a text is refused.
fn fault(answer: Result<Table, ReadFault>) -> Option<(u64, ReadCause)> {
    match answer {
        Ok(_) => None,
        Err(fault) => Some((fault.line, fault.cause)),
    }
}

/// Fails a test where the element of a key is not this one.
fn assert_element(rt: &impl Abort, table: &Table, key: &[char], starred: bool, l1: u16) {
    let elements = table.get(key).expect(rt, "an entry");
    assert!(rt; elements[0].starred == starred);
    assert!(rt; elements[0].l1 == l1);
}

const FIRST_RANGE: Range = Range {
    first: '\u{17000}',
    last: '\u{18AFF}',
    base: 0xFB00,
};

/// Checks the table of the small text.
fn assert_small(rt: &impl Abort, answer: Result<Table, ReadFault>) {
    let table = answer.expect(rt, "a table");
    assert!(rt; table.longest() == 3);
    assert!(rt; table.entries().count() == 18);
    let ranges = table.ranges();
    assert!(rt; ranges.len() == 2);
    assert!(rt; ranges[0] == FIRST_RANGE);
    assert_element(rt, &table, &['-'], true, 0x202);
    assert_element(rt, &table, &['b', '\u{301}', '\u{308}'], false, 0x100A);
    assert_written(rt, &table, SMALL_TEXT);
}

/// The text with CR before each LF.
fn with_returns(alloc: Global, text: &[u8]) -> Result<Vec<u8>, AllocError> {
    let mut lines = Vec::new(alloc);
    for byte in text {
        if *byte == b'\n' {
            lines.push(b'\r')?;
        }
        lines.push(*byte)?;
    }
    Ok(lines)
}

/// Some pieces of text, each this many times.
fn repeated(alloc: Global, pieces: &[(&str, usize)]) -> Result<Vec<u8>, AllocError> {
    let mut text = Vec::new(alloc);
    for (piece, count) in pieces {
        for _ in 0..*count {
            text.extend_from_slice(piece.as_bytes())?;
        }
    }
    Ok(text)
}

/// Checks the answer for a text, given at once and byte by byte.
fn assert_answer(rt: &impl Abort, alloc: Global, text: &[u8], answer: Option<(u64, ReadCause)>) {
    assert!(rt; fault(read(alloc, text)) == answer);
    assert!(rt; fault(read_slowly(alloc, text, 1, false)) == answer);
}

/// A text, and what is wrong with it, if anything is.
type Row = (&'static str, Option<(u64, ReadCause)>);

fn assert_answers(rt: &impl Abort, alloc: Global, rows: &[Row]) {
    for (text, answer) in rows {
        assert_answer(rt, alloc, text.as_bytes(), *answer);
    }
}

#[test]
fn a_text_gives_its_table(rt: HostRuntime) -> Result<(), Fail> {
    let text = WRITTEN_BY_HAND;
    assert_small(&rt, read(rt.alloc(), text));
    assert_small(&rt, read_slowly(rt.alloc(), text, 1, false));
    assert_small(&rt, read_slowly(rt.alloc(), text, 100, false));
    assert_small(&rt, read(rt.alloc(), SMALL_TEXT));
    let lines = with_returns(rt.alloc(), text)?;
    assert_small(&rt, read(rt.alloc(), &lines));
    Ok(())
}

#[test]
fn a_cut_text_says_the_same_at_once_and_in_pieces(rt: HostRuntime) {
    let text = WRITTEN_BY_HAND;
    for end in 0..text.len() {
        let at_once = fault(read(rt.alloc(), &text[..end]));
        let slowly = fault(read_slowly(rt.alloc(), &text[..end], 1, false));
        assert!(rt; at_once == slowly);
    }
}

/// How many bytes the lines before this one have.
fn front_of_lines(text: &[u8], lines: usize) -> usize {
    let mut left = lines;
    for (at, byte) in text.iter().enumerate() {
        if left == 0 {
            return at;
        }
        if *byte == b'\n' {
            left -= 1;
        }
    }
    0
}

/// What is left of the thirteenth line, and what is wrong with it.
const CUT_LINES: [(&'static str, ReadCause); 3] = [
    ("0041  ; [.1000.", ReadCause::BadElement),
    ("0041  ; ", ReadCause::NoElement),
    ("0041", ReadCause::NoSemicolon),
];

/// Checks the answer for the small text, cut after the beginning of its thirteenth line.
fn assert_cut(rt: &impl Abort, alloc: Global, front: usize, left: &[u8], cause: ReadCause) {
    let text = WRITTEN_BY_HAND;
    let line = text.get(front..).expect(rt, "a line");
    assert!(rt; line.starts_with(left));
    let cut = text.len().min(front.saturating_add(left.len()));
    assert_answer(rt, alloc, &text[..cut], Some((13, cause)));
}

#[test]
fn a_text_is_cut_in_its_thirteenth_line(rt: HostRuntime) {
    let text = WRITTEN_BY_HAND;
    let front = text.len().min(front_of_lines(text, 12));
    for (left, cause) in &CUT_LINES {
        assert_cut(&rt, rt.alloc(), front, left.as_bytes(), *cause);
    }
}

/// Fails a test where a text is refused, or its table has something.
fn assert_empty(rt: &impl Abort, answer: Result<Table, ReadFault>) {
    let table = answer.expect(rt, "a table");
    assert!(rt; table.longest() == 1);
    assert!(rt; table.entries().count() == 0);
    assert!(rt; table.ranges().is_empty());
}

#[test]
fn no_bytes_give_an_empty_table(rt: HostRuntime) {
    assert_empty(&rt, read(rt.alloc(), b""));
}

#[test]
fn the_longest_comment_gives_an_empty_table(rt: HostRuntime) -> Result<(), Fail> {
    let comment = repeated(rt.alloc(), &[("#", 1), ("x", 4_095), ("\n", 1)])?;
    assert_empty(&rt, read(rt.alloc(), &comment));
    Ok(())
}

#[test]
fn each_fault_of_an_entry_is_reported_at_its_line(rt: HostRuntime) {
    assert_answers(
        &rt,
        rt.alloc(),
        &[
            (
                "0061 ; [.1000.0020.0002]\n0062 ; [.1000.0020]",
                Some((2, ReadCause::BadElement)),
            ),
            (
                "0061 ; [.1000.0020.0002]\n0061 ; [.1001.0020.0002]",
                Some((2, ReadCause::Repeated)),
            ),
            ("0061 ; [.1000.0020]", Some((1, ReadCause::BadElement))),
            ("0061 ; # nothing", Some((1, ReadCause::NoElement))),
            (
                "0061 ; [.1000.0020.0002]\n0062 ;",
                Some((2, ReadCause::NoElement)),
            ),
            (
                "0061 ; [.1000.0020.0002]\n0062",
                Some((2, ReadCause::NoSemicolon)),
            ),
            (
                "0061 ; [.1000.0020.0002]\n00",
                Some((2, ReadCause::BadCodePoint)),
            ),
            (
                "0061 ; [.1000.0020.0002]\n0062 ; [.10",
                Some((2, ReadCause::BadElement)),
            ),
            (
                "\n# no key\n ; [.1000.0020.0002]",
                Some((3, ReadCause::BadCodePoint)),
            ),
            (
                "D800 ; [.1000.0020.0002]",
                Some((1, ReadCause::BadCodePoint)),
            ),
            (
                "110000 ; [.1000.0020.0002]",
                Some((1, ReadCause::BadCodePoint)),
            ),
            (
                "0000061 ; [.1000.0020.0002]",
                Some((1, ReadCause::BadCodePoint)),
            ),
            (
                "0061 006g ; [.1000.0020.0002]",
                Some((1, ReadCause::BadCodePoint)),
            ),
            ("0061 ; [-1000.0020.0002]", Some((1, ReadCause::BadElement))),
            (
                "0061 ; [.1000.0020.0002.002]",
                Some((1, ReadCause::BadElement)),
            ),
            (
                "0061 ; [.1000.0020.0002.0020020]",
                Some((1, ReadCause::BadElement)),
            ),
            (
                "0061 ; [.1000.0020.0002 ]",
                Some((1, ReadCause::BadElement)),
            ),
            (
                "0061 ; [.1000.0020.0002] x",
                Some((1, ReadCause::BadElement)),
            ),
            (
                "0061 ; [.1000.0020.0002]\n0061 ; # nothing",
                Some((2, ReadCause::NoElement)),
            ),
            (
                "0061\t;\t[.1000.0020.0002.10FFFF][*abCD.0020.0002] \t # two\r\n",
                None,
            ),
            ("10FFFF;[.1000.0020.0002] [.0000.0000.0002]", None),
        ],
    );
}

#[test]
fn each_fault_of_a_directive_is_reported_at_its_line(rt: HostRuntime) {
    assert_answers(
        &rt,
        rt.alloc(),
        &[
            (
                "0061 ; [.1000.0020.0002]\n@variable shifted",
                Some((2, ReadCause::BadDirective)),
            ),
            ("\n@variable shifted", Some((2, ReadCause::BadDirective))),
            (
                "@version 1\n@version 1\n",
                Some((2, ReadCause::BadDirective)),
            ),
            ("@version \t# 1", Some((1, ReadCause::BadDirective))),
            ("@implicitweights", Some((1, ReadCause::BadDirective))),
            (
                "@implicitweights 17;000",
                Some((1, ReadCause::BadCodePoint)),
            ),
            ("@implicitweights 17000", Some((1, ReadCause::BadDirective))),
            (
                "@implicitweights 17000. .17001; FB00",
                Some((1, ReadCause::BadDirective)),
            ),
            (
                "@implicitweights 17000..D800; FB00",
                Some((1, ReadCause::BadCodePoint)),
            ),
            (
                "@implicitweights 17000..17001, FB00",
                Some((1, ReadCause::BadCodePoint)),
            ),
            (
                "@implicitweights 17000..17001 FB00",
                Some((1, ReadCause::BadDirective)),
            ),
            (
                "@implicitweights 17000..17001; FB0",
                Some((1, ReadCause::BadDirective)),
            ),
            (
                "@implicitweights 17000..17001; FB00 x",
                Some((1, ReadCause::BadDirective)),
            ),
            (
                "@implicitweights 17001..17000; FB00",
                Some((1, ReadCause::BadRange)),
            ),
            (
                " @implicitweights\t17000 .. 17001 ;fb00 \n@version \u{e9}",
                None,
            ),
        ],
    );
}

#[test]
fn a_range_may_not_meet_those_before_it(rt: HostRuntime) -> Result<(), Fail> {
    assert_answers(
        &rt,
        rt.alloc(),
        &[
            (
                "@implicitweights 17002..17003; FB01\n@implicitweights 17000..17002; FB00",
                Some((2, ReadCause::BadRange)),
            ),
            (
                "@implicitweights 17000..17000; FB00\n@implicitweights 1F000..1F000; FB00",
                Some((2, ReadCause::BadRange)),
            ),
            (
                "@implicitweights 17000..17002; FB00\n@implicitweights 17002..17003; FB01",
                Some((2, ReadCause::BadRange)),
            ),
            (
                "@implicitweights 20000..20000; FB00\n@implicitweights 17000..18000; FB00",
                Some((2, ReadCause::BadRange)),
            ),
            (
                "@implicitweights 17000..17000; FB00\n@implicitweights 1EFFF..1EFFF; FB00",
                None,
            ),
            (
                "@implicitweights 17000..17001; 7FFF",
                Some((1, ReadCause::BadRange)),
            ),
        ],
    );
    let mut text = Vec::new(rt.alloc());
    text.extend_from_slice(WRITTEN_BY_HAND)?;
    text.extend_from_slice(b"@implicitweights 17500..17600; FB01")?;
    assert_answer(&rt, rt.alloc(), &text, Some((23, ReadCause::BadRange)));
    Ok(())
}

const LIMITS: [(&'static [(&'static str, usize)], Option<(u64, ReadCause)>); 11] = [
    (&[("#", 1), ("x", 4_095), ("\n", 1)], None),
    (
        &[("#", 1), ("x", 4_096), ("\n", 1)],
        Some((1, ReadCause::LineTooLong)),
    ),
    (&[("#", 1), ("x", 4_095)], None),
    (
        &[("\n", 2), ("x", 4_097)],
        Some((3, ReadCause::LineTooLong)),
    ),
    (&[("#", 1), ("x", 4_094), ("\r\n", 1)], None),
    (
        &[("#", 1), ("x", 4_095), ("\r\n", 1)],
        Some((1, ReadCause::LineTooLong)),
    ),
    (&[("0061 ", 33)], Some((1, ReadCause::KeyTooLong))),
    (&[("0061 ", 32), (";", 1), ("[.1000.0020.0002]", 64)], None),
    (
        &[("0061 ;", 1), ("[.1000.0020.0002]", 65), ("\n", 1)],
        Some((1, ReadCause::TooManyElements)),
    ),
    (
        &[("0061 ", 32), ("xyz", 1)],
        Some((1, ReadCause::BadCodePoint)),
    ),
    (
        &[("0061 ;", 1), ("[.1000.0020.0002]", 64), ("[]", 1)],
        Some((1, ReadCause::BadElement)),
    ),
];

/// Checks the answer for some pieces of text, each this many times.
fn assert_pieces(
    rt: &impl Abort,
    alloc: Global,
    pieces: &[(&str, usize)],
    answer: Option<(u64, ReadCause)>,
) -> Result<(), AllocError> {
    let text = repeated(alloc, pieces)?;
    assert_answer(rt, alloc, &text, answer);
    Ok(())
}

#[test]
fn limits_hold_to_the_byte(rt: HostRuntime) -> Result<(), Fail> {
    for (pieces, answer) in &LIMITS {
        assert_pieces(&rt, rt.alloc(), pieces, *answer)?;
    }
    Ok(())
}

/// Texts before a failure of the reader, and the line and the cause of the fault.
const FAILED_READS: [(&'static str, u64, ReadCause); 4] = [
    ("0061 ; [.1000.0020.0002]\n", 2, ReadCause::Read),
    ("", 1, ReadCause::Read),
    ("0061 ; [.1000.0020.0002]\n0062", 2, ReadCause::Read),
    (
        "0061 ; [.1000.0020.0002]\n0062\n",
        2,
        ReadCause::NoSemicolon,
    ),
];

#[test]
fn a_failure_of_the_reader_is_reported_at_its_line(rt: HostRuntime) {
    for (text, line, cause) in &FAILED_READS {
        let found = fault(read_slowly(rt.alloc(), text.as_bytes(), 7, true));
        assert!(rt; found == Some((*line, *cause)), "{text:?}");
    }
}

#[test]
fn a_line_without_end_is_refused(rt: HostRuntime) {
    let found = fault(read_comments(rt.alloc(), usize::MAX, usize::MAX));
    assert!(rt; found == Some((1, ReadCause::LineTooLong)));
}

#[test]
fn lines_without_end_are_refused(rt: HostRuntime) {
    for (width, line) in &[(0, 67_108_865), (63, 1_048_577), (4_095, 16_385)] {
        let found = fault(read_comments(rt.alloc(), *width, usize::MAX));
        assert!(rt; found == Some((*line, ReadCause::TooLarge)));
    }
}

#[test]
fn the_limit_of_the_input_holds_to_the_byte(rt: HostRuntime) {
    for (width, line) in &[(4_095, 16_385), (4_096, 16_381)] {
        let found = fault(read_comments(rt.alloc(), *width, MAX_INPUT));
        assert!(rt; found == None);
        let found = fault(read_comments(rt.alloc(), *width, MAX_INPUT + 1));
        assert!(rt; found == Some((*line, ReadCause::TooLarge)));
    }
}

const EARLY_FAULTS: [(&'static str, u64, ReadCause); 6] = [
    ("0041", 1, ReadCause::NoSemicolon),
    ("0041 ;", 1, ReadCause::NoElement),
    ("D800 ; [.1.1.1]", 1, ReadCause::BadCodePoint),
    ("# none\n\n0041 ; [.1", 3, ReadCause::BadElement),
    (
        "@version 17.0.0\n@version 17.0.0\n",
        2,
        ReadCause::BadDirective,
    ),
    (
        "@implicitweights 17000..17001; 7FFF",
        1,
        ReadCause::BadRange,
    ),
];

#[test]
fn a_fault_before_anything_was_added_takes_no_memory(rt: HostRuntime) {
    // Each is requested once: where no growth is requested, none can be refused.
    for (text, line, cause) in &EARLY_FAULTS {
        let found = fault(read_table(rt.alloc(), &mut Reading::new(text.as_bytes())));
        assert!(rt; found == Some((*line, *cause)), "{text:?}");
    }
    let mut failing = slow_reader(b"# none\n", 7, true);
    let found = fault(read_table(rt.alloc(), &mut failing));
    assert!(rt; found == Some((2, ReadCause::Read)));
    let mut endless = comment_reader(usize::MAX, usize::MAX);
    let found = fault(read_table(rt.alloc(), &mut endless));
    assert!(rt; found == Some((1, ReadCause::LineTooLong)));
}
