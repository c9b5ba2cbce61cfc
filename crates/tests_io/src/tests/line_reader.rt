ghost use Rattle.std.specs.Prelude.{None, Ok};
ghost use Rattle.uca_io.specs.LineFold.{Fold};

use std::io;
use std::io::Read;
use uca_io::{
    LineCause, LineFault, LineSink, MAX_INPUT, MAX_LINE, Reader, Reading, Refused, read_lines,
};

/// A line that is refused.
const REFUSED: &[u8] = b"bad";

/// A sum of lines by which each number and each byte counts. It refuses one line.
#[derive(Default, Drop)]
struct Sum {
    numbers: u64,
    bytes: u64,
}

/// The line was refused.
#[derive(Clone, Copy, PartialEq, Eq)]
struct Bad;

impl LineSink for Sum {
    type Cause = Bad;

    ghost State = { Unit {0} };

    ghost Fault = { Unit {0} };

    ghost state = { λ _. tt };

    ghost fold = { record { step = λ n a line. Ok a; long = tt; large = tt; failed = tt } };

    ghost fault_of = { λ _. None };

    ghost possible = { λ _. Unit {0} };

    ghost ready = { λ _ n. Unit {0} };

    fn add(&mut self, number: u64, line: &[u8]) -> Result<(), Bad> {
        if line == REFUSED {
            return Err(Bad);
        }
        self.numbers = self.numbers.wrapping_mul(10).wrapping_add(number);
        for byte in line {
            self.bytes = self.bytes.wrapping_mul(3).wrapping_add(*byte as u64);
        }
        Ok(())
    }
}

/// Gives a text one byte at a time.
#[derive(Drop)]
struct OneByOne<'a> {
    rest: &'a [u8],
}

impl<'a> Read for OneByOne<'a> {
    fn read(&mut self, buf: &mut [u8]) -> io::Result<usize> {
        let Some((first, others)) = self.rest.split_first() else {
            return Ok(0);
        };
        if buf.is_empty() {
            return Ok(0);
        }
        buf[0] = *first;
        self.rest = others;
        Ok(1)
    }
}

/// Gives lines of `MAX_LINE` bytes without end, and counts its calls and its bytes.
#[derive(Drop)]
struct Endless {
    column: usize,
    calls: u64,
    bytes: u64,
}

impl Reader for Endless {
    ghost state = { λ _. record { coming = None; failures = 0 } };

    ghost calls = { λ s. s.calls };

    fn pull(&mut self, buf: &mut [u8]) -> Result<usize, Refused> {
        let mut column = self.column;
        for byte in &mut *buf {
            if column < MAX_LINE {
                *byte = b'x';
                column += 1;
            } else {
                *byte = b'\n';
                column = 0;
            }
        }
        self.column = column;
        self.calls = self.calls.saturating_add(1);
        self.bytes = self.bytes.saturating_add(buf.len() as u64);
        Ok(buf.len())
    }
}

fn numbers_at_once(text: &[u8]) -> Result<u64, LineFault<Bad>> {
    let mut sum = Sum::default();
    read_lines(&mut Reading::new(text), &mut sum)?;
    Ok(sum.numbers)
}

fn numbers_one_by_one(text: &[u8]) -> Result<u64, LineFault<Bad>> {
    let mut sum = Sum::default();
    read_lines(&mut Reading::new(OneByOne { rest: text }), &mut sum)?;
    Ok(sum.numbers)
}

fn fault(line: u64, cause: LineCause<Bad>) -> Result<u64, LineFault<Bad>> {
    Err(LineFault { line, cause })
}

#[test]
fn lines_come_in_their_order_with_their_numbers(rt: HostRuntime) {
    let cases: &[(&[u8], Result<u64, LineFault<Bad>>)] = &[
        (b"", Ok(0)),
        (b"\n", Ok(1)),
        (b"a", Ok(1)),
        (b"a\n", Ok(1)),
        (b"\n\n", Ok(12)),
        (b"a\nb", Ok(12)),
        (b"a\n\nb\r\n", Ok(123)),
        (b"bad", fault(1, LineCause::Refused(Bad))),
        (b"a\nbad\nbad", fault(2, LineCause::Refused(Bad))),
        (b"bad\r\na", Ok(12)),
    ];
    for (text, want) in cases {
        assert!(rt; numbers_at_once(text) == *want);
        assert!(rt; numbers_one_by_one(text) == *want);
    }
}

#[test]
fn a_line_may_have_max_line_bytes(rt: HostRuntime) {
    let long = [b'x'; MAX_LINE + 1];
    assert!(rt; numbers_at_once(&long[1..]) == Ok(1));
    assert!(rt; numbers_at_once(&long) == fault(1, LineCause::LineTooLong));
    assert!(rt; numbers_one_by_one(&long) == fault(1, LineCause::LineTooLong));
}

#[test]
fn an_endless_text_is_refused_at_the_first_byte_past_the_limit(rt: HostRuntime) {
    let mut reader = Endless {
        column: 0,
        calls: 0,
        bytes: 0,
    };
    let large = LineFault {
        line: 16_381,
        cause: LineCause::TooLarge,
    };
    assert!(rt; read_lines(&mut reader, &mut Sum::default()) == Err(large));
    assert!(rt; reader.bytes == MAX_INPUT as u64 + 1);
    assert!(rt; reader.calls == 16_385);
}
