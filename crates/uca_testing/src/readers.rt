ghost use Rattle.uca_io.specs.Reader.{ReaderState};
ghost use Rattle.std.specs.Prelude.{None};

use uca_weights::{Reader, Refused};

/// Gives its bytes in pieces of at most `most`, and refuses the calls after the first `calls`.
#[derive(Clone, Copy)]
pub struct Pieces<'b> {
    left: &'b [u8],
    most: usize,
    calls: usize,
    failed: u128,
}

impl<'b> Pieces<'b> {
    /// A reader that has not been called.
    pub fn new(bytes: &'b [u8], most: usize, calls: usize) -> Pieces<'b> {
        Pieces {
            left: bytes,
            most,
            calls,
            failed: 0,
        }
    }
}

impl Reader for Pieces<'_> {
    ghost state = { λ s. record { coming = None; failures = s.failed } };

    fn pull(&mut self, buf: &mut [u8]) -> Result<usize, Refused> {
        if self.calls == 0 {
            self.failed = self.failed.saturating_add(1);
            return Err(Refused);
        }
        self.calls -= 1;
        let n = self.left.len().min(buf.len()).min(self.most);
        let (front, back) = self.left.split_at(n);
        buf[..n].copy_from_slice(front);
        self.left = back;
        Ok(n)
    }
}

/// Gives a byte this many times, and then is at its end or fails.
#[derive(Clone, Copy)]
pub struct Repeating {
    byte: u8,
    left: usize,
    fails: bool,
    failed: u128,
}

impl Repeating {
    /// A reader that has not been called.
    pub fn new(byte: u8, count: usize, fails: bool) -> Repeating {
        Repeating {
            byte,
            left: count,
            fails,
            failed: 0,
        }
    }
}

impl Reader for Repeating {
    ghost state = { λ s. record { coming = None; failures = s.failed } };

    fn pull(&mut self, buf: &mut [u8]) -> Result<usize, Refused> {
        if self.left == 0 && self.fails {
            self.failed = self.failed.saturating_add(1);
            return Err(Refused);
        }
        let n = self.left.min(buf.len());
        buf[..n].fill(self.byte);
        self.left -= n;
        Ok(n)
    }
}
