ghost use Rattle.uca_io.specs.WriterState.{WriterState};
ghost use Rattle.std.specs.Prelude.{None};

use uca_weights::{Refused, WriteCause, Writer};

/// Takes the bytes that it expects, while it has capacity, and then fails or takes none.
#[derive(Clone, Copy)]
pub struct Expecting<'b> {
    expected: &'b [u8],
    room: usize,
    cause: WriteCause,
    surprised: bool,
    failed: u128,
    none_taken: u128,
}

impl<'b> Expecting<'b> {
    /// A writer that has not been called.
    pub fn new(expected: &'b [u8], room: usize, cause: WriteCause) -> Expecting<'b> {
        Expecting {
            expected,
            room,
            cause,
            surprised: false,
            failed: 0,
            none_taken: 0,
        }
    }

    /// How many of the expected bytes are still to come. `None`: another byte came.
    pub fn left(&self) -> Option<usize> {
        if self.surprised {
            return None;
        }
        Some(self.expected.len())
    }
}

impl Writer for Expecting<'_> {
    ghost state = { λ s. record { taken = None; failures = s.failed; zeros = s.none_taken } };

    fn put(&mut self, bytes: &[u8]) -> Result<usize, Refused> {
        if self.room == 0 && self.cause == WriteCause::Failed {
            self.failed = self.failed.saturating_add(1);
            return Err(Refused);
        }
        // At most seven at once, so that a piece needs several calls.
        let n = bytes.len().min(self.room).min(7);
        if n == 0 && !bytes.is_empty() {
            self.none_taken = self.none_taken.saturating_add(1);
        }
        self.room -= n;
        match self.expected.strip_prefix(&bytes[..n]) {
            Some(rest) => self.expected = rest,
            None => self.surprised = true,
        }
        Ok(n)
    }
}
