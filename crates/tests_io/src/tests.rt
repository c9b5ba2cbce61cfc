ghost use Rattle.std.specs.Prelude.{None};

mod line_reader;

use std::io;
use std::io::{Read, Write};
use std::test::Fail;
use uca_io::{
    MAX_INPUT, MAX_LINE, Reader, Reading, Refused, Stop, WriteCause, Writing, read_whole,
    write_whole,
};

#[test]
fn reads_memory(rt: HostRuntime) {
    let mut reader = Reading::new(b"abc".as_slice());
    let mut buf = [0; 2];
    assert_eq!(rt; reader.pull(&mut buf), Ok(2));
    assert_eq!(rt; buf, *b"ab");
    assert_eq!(rt; reader.pull(&mut buf), Ok(1));
    assert_eq!(rt; buf[0], b'c');
    assert_eq!(rt; reader.pull(&mut buf), Ok(0));
}

/// Gives one byte, fails once, and gives the next.
#[derive(Drop)]
struct Hiccup {
    calls: u8,
}

impl Read for Hiccup {
    fn read(&mut self, buf: &mut [u8]) -> io::Result<usize> {
        self.calls = self.calls.saturating_add(1);
        if self.calls == 2 {
            return Err(io::Error::from(io::ErrorKind::Interrupted));
        }
        Ok(buf.len().min(1))
    }
}

#[test]
fn an_interrupted_read_is_refused_and_not_tried_again(rt: HostRuntime) {
    let mut reader = Reading::new(Hiccup { calls: 0 });
    let mut buf = [0; 4];
    assert_eq!(rt; reader.pull(&mut buf), Ok(1));
    assert_eq!(rt; reader.pull(&mut buf), Err(Refused));
    assert_eq!(rt; reader.pull(&mut buf), Ok(1));
}

/// Gives a byte a call without end, and counts its calls.
#[derive(Drop)]
struct Drip {
    calls: u64,
}

impl Reader for Drip {
    ghost state = { λ _. record { coming = None; failures = 0 } };

    ghost calls = { λ s. s.calls };

    fn pull(&mut self, buf: &mut [u8]) -> Result<usize, Refused> {
        self.calls = self.calls.saturating_add(1);
        Ok(buf.len().min(1))
    }
}

#[test]
fn bytes_without_end_are_refused_at_the_first_one_past_the_limit(rt: HostRuntime) {
    for limit in [0, 1, 1_000] {
        let mut reader = Drip { calls: 0 };
        let mut answer = read_whole(rt.alloc(), &mut reader, limit);
        // Memory may be refused for the bytes.
        if matches!(&answer, Err(Stop::OutOfMemory)) {
            reader.calls = 0;
            answer = read_whole(rt.alloc(), &mut reader, limit);
        }
        assert!(rt; matches!(&answer, Err(Stop::TooLarge)));
        assert_eq!(rt; reader.calls, limit as u64 + 1);
    }
}

/// Takes this many bytes, then fails or takes none.
#[derive(Drop)]
struct Small {
    room: usize,
    fails: bool,
}

impl Write for Small {
    fn write(&mut self, buf: &[u8]) -> io::Result<usize> {
        if self.room == 0 && self.fails {
            return Err(io::Error::from(io::ErrorKind::Other));
        }
        let n = buf.len().min(self.room);
        self.room -= n;
        Ok(n)
    }

    fn flush(&mut self) -> io::Result<()> {
        Ok(())
    }
}

#[test]
fn a_writer_that_stops_reports_what_went_out(rt: HostRuntime) {
    for (fails, cause) in [(true, WriteCause::Failed), (false, WriteCause::Zero)] {
        for room in [0, 3, 5, 6] {
            let mut w = Writing::new(Small { room, fails });
            let written = write_whole(&mut w, b"abcde");
            if room < 5 {
                assert!(rt;
                    matches!(&written, Err(f) if f.written == room as u128 && f.cause == cause)
                );
            } else {
                assert!(rt; written.is_ok());
            }
        }
    }
    let mut w = Writing::new(Small {
        room: 0,
        fails: false,
    });
    assert!(rt; write_whole(&mut w, b"").is_ok());
}

#[test]
fn writes_memory(rt: HostRuntime) {
    let mut w = Writing::new(Vec::new(rt.alloc()));
    // Memory may be refused to the vector, as a writer's error.
    if write_whole(&mut w, b"abc").is_ok() {
        let out = w.into_inner();
        assert_eq!(rt; out.as_slice(), b"abc".as_slice());
    }
}

#[test]
fn causes_have_their_names(rt: HostRuntime) -> Result<(), Fail> {
    let text = format!(in rt.alloc(); "{} {}", WriteCause::Failed, WriteCause::Zero)?;
    assert_eq!(rt; text.as_str(), "Failed Zero");
    Ok(())
}

#[test]
fn limits_are_these_numbers(rt: HostRuntime) {
    assert!(rt; MAX_LINE == 4_096);
    assert!(rt; MAX_INPUT == 67_108_864);
}
