ghost use Rattle.std.specs.Prelude.{◌≡◌, ℕ, ◌+◌, ◌≤◌, is_err};
ghost use Rattle.std.specs.Io.{ReadsAtMost};
ghost use Rattle.std.specs.Io.KnownBytes.{ReadConsumes};
ghost use Rattle.uca_io.specs.Counts.{counted};
ghost use Rattle.uca_io.specs.Reader.{ReaderState};

use std::io::Read;

/// A call of a reader or a writer failed.
#[derive(Clone, Copy, Debug, PartialEq, Eq)]
pub struct Refused;

/// A source of bytes, which states how many of its calls failed. The count stays at 2^128 - 1 once it is there.
pub trait Reader {
    /// The bytes still to come, where they are known, and how many of its calls failed.
    ghost state: { Self → ReaderState };
    /// How many calls of `pull` it counts, if it counts them.
    ghost calls: { Self → ℕ } = { λ _. 0 };

    /// Reads into the front of a buffer, and returns how many bytes it read. It returns 0 for a buffer that is
    /// not empty only where no byte is left. On an error it reads no byte.
    fn pull(&mut self, buf: &mut [u8]) -> Result<usize, Refused>
        ensures bound { ReadsAtMost result buf.new }
        ensures bytes { ReadConsumes (state self.old).coming (state self.new).coming result buf.new }
        ensures failures { (state self.new).failures ≡ counted (is_err result) (state self.old).failures }
        ensures calls { calls self.new ≤ calls self.old + 1 };
}

/// A [`Reader`] over any reader of std.
#[derive(Drop)]
pub struct Reading<R> {
    inner: R,
    failed: u128,
}

impl<R: Read> Reading<R> {
    /// A reader that has not failed yet.
    pub fn new(r: R) -> Reading<R>
        ensures { ⟦<Reading<R> as Reader>⟧.state result ≡ record { coming = R.remaining r; failures = 0 } }
    {
        Reading {
            inner: r,
            failed: 0,
        }
    }
}

impl<R: Read> Reader for Reading<R> {
    ghost state = { λ s. record { coming = R.remaining s.inner; failures = s.failed } };

    fn pull(&mut self, buf: &mut [u8]) -> Result<usize, Refused> {
        match self.inner.read(buf) {
            Ok(n) => Ok(n),
            Err(_) => {
                self.failed = self.failed.saturating_add(1);
                Err(Refused)
            }
        }
    }
}
