ghost use Rattle.std.specs.Prelude.{◌≡◌, is_err};
ghost use Rattle.std.specs.Io.{WritesAtMost};
ghost use Rattle.std.specs.Io.KnownBytes.{WriteAppends};
ghost use Rattle.uca_io.specs.Counts.{counted};
ghost use Rattle.uca_io.specs.WriterState.{WriterState, took_none};

use crate::reader::Refused;
use std::io::Write;
use thiserror::Error;

/// A sink of bytes, which states how many of its calls failed, and how many took nothing. A count stays at
/// 2^128 - 1 once it is there.
pub trait Writer {
    /// The bytes taken so far, where they are known, how many of its calls failed, and how many returned 0 for a
    /// piece that was not empty.
    ghost state: { Self → WriterState };

    /// Takes a front of the bytes, and returns how many it took. On an error it takes no byte.
    fn put(&mut self, bytes: &[u8]) -> Result<usize, Refused>
        ensures bound { WritesAtMost result bytes.now }
        ensures bytes { WriteAppends (state self.old).taken (state self.new).taken result bytes.now }
        ensures failures { (state self.new).failures ≡ counted (is_err result) (state self.old).failures }
        ensures zeros { (state self.new).zeros ≡ counted (took_none result bytes.now) (state self.old).zeros };
}

/// A [`Writer`] over any writer of std. It does not flush.
#[derive(Drop)]
pub struct Writing<W> {
    inner: W,
    failed: u128,
    none_taken: u128,
}

impl<W: Write> Writing<W> {
    /// A writer that has not failed yet.
    pub fn new(w: W) -> Writing<W>
        ensures { ⟦<Writing<W> as Writer>⟧.state result ≡ record { taken = W.contents w; failures = 0; zeros = 0 } }
    {
        Writing {
            inner: w,
            failed: 0,
            none_taken: 0,
        }
    }

    /// The writer of std below it.
    pub fn into_inner(self) -> W
        ensures { W.contents result ≡ (⟦<Writing<W> as Writer>⟧.state self).taken }
    {
        let Writing {
            inner,
            failed: _,
            none_taken: _,
        } = self;
        inner
    }
}

impl<W: Write> Writer for Writing<W> {
    ghost state = { λ s. record { taken = W.contents s.inner; failures = s.failed; zeros = s.none_taken } };

    fn put(&mut self, bytes: &[u8]) -> Result<usize, Refused> {
        match self.inner.write(bytes) {
            Ok(n) => {
                if n == 0 && !bytes.is_empty() {
                    self.none_taken = self.none_taken.saturating_add(1);
                }
                Ok(n)
            }
            Err(_) => {
                self.failed = self.failed.saturating_add(1);
                Err(Refused)
            }
        }
    }
}

/// Why a write stopped.
#[derive(Clone, Copy, Debug, PartialEq, Eq, Error)]
pub enum WriteCause {
    /// The writer returned an error, of whatever kind.
    #[error("Failed")]
    Failed,
    /// The writer took no byte of a piece that was not empty.
    #[error("Zero")]
    Zero,
}

/// How far a write came, and why it stopped.
#[derive(Clone, Copy, Debug, PartialEq, Eq)]
pub struct WriteFault {
    /// The count of bytes written.
    pub written: u128,
    pub cause: WriteCause,
}
