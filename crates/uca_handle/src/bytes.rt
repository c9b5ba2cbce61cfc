ghost use Rattle.std.specs.Prelude.{◌≡◌, Some};

use uca_io::{Reader, Refused};

/// A reader of bytes in memory, which never fails.
#[derive(Drop)]
pub(crate) struct Bytes<'b> {
    rest: &'b [u8],
}

impl<'b> Bytes<'b> {
    pub(crate) fn new(bytes: &'b [u8]) -> Bytes<'b>
        ensures { ⟦<Bytes<'b> as Reader>⟧.state result ≡ record { coming = Some bytes.now; failures = 0 } }
    {
        Bytes { rest: bytes }
    }
}

impl<'b> Reader for Bytes<'b> {
    ghost use Rattle.std.specs.Prelude.{Some};

    ghost state = { λ s. record { coming = Some s.rest.now; failures = 0 } };

    fn pull(&mut self, buf: &mut [u8]) -> Result<usize, Refused> {
        let n = buf.len().min(self.rest.len());
        let (front, rest) = self.rest.split_at(n);
        buf[..n].copy_from_slice(front);
        self.rest = rest;
        Ok(n)
    }
}
