ghost use Rattle.std.specs.Prelude.{◌≡◌, ◌+◌, ◌*◌, ◌^◌, ◌<◌, ◌≤◌, ◌++◌, [], length, take, MatchResult, OnErr, OnOk};

use crate::hex::put_pairs;
use crate::writer::{WriteFault, Writer};
use crate::writing::write_whole;
use std::marker::Model;

/// How many bytes an [`OutputBuffer`] holds.
pub const ROOM: usize = 8_192;

/// How many bytes an [`OutputBlock`] holds. Eight times as many as in an [`OutputBuffer`] take half the system time per byte.
pub const BLOCK: usize = 65_536;

/// A buffer before a [`Writer`]: what waits to be written, and the count of bytes written before it. Pieces are written
/// in their order, and a fault reports how many bytes of all pieces were written. `SIZE` is its capacity in bytes, and the
/// greatest length of a piece.
#[derive(Drop)]
pub struct Buffer<const SIZE: usize> {
    // What waits is at the front. What is behind it is left over, and an `ArrayVec` would clear it at each flush.
    bytes: [u8; SIZE],
    waiting: usize,
    written: u128,
}

/// A buffer for outputs of any length.
pub type OutputBuffer = Buffer<ROOM>;

/// A buffer for outputs of many lines.
pub type OutputBlock = Buffer<BLOCK>;

impl<const SIZE: usize> Model for Buffer<SIZE> {
    ghost use Rattle.std.specs.Prelude.{◌≤◌, length, take};
    ghost use Rattle.uca_io.specs.BufferState.{BufferState};

    ghost Value = { BufferState };

    ghost view = { λ o. record { waiting = take o.waiting o.bytes; written = o.written } };

    ghost invariant = { λ o. o.waiting ≤ length o.bytes };
}

impl<const SIZE: usize> Buffer<SIZE> {
    ghost use Rattle.uca_io.specs.Hex.{spaced_pairs};
    ghost use Rattle.uca_io.specs.OutputBuffer.{accepted, Accepts, FailsPartway};

    /// Nothing waits, and nothing was written.
    pub fn new() -> Buffer<SIZE>
        ensures written { result.written ≡ 0 }
        ensures waiting { result.waiting ≡ [] }
    {
        Buffer {
            bytes: [0; SIZE],
            waiting: 0,
            written: 0,
        }
    }

    /// The count of bytes written.
    pub fn written(&self) -> u128
        ensures { result ≡ self.now.written }
    {
        self.written
    }

    /// Writes what waits. On a fault the buffer stays as it was, and only the fault reports how much of it was written.
    pub fn flush<W: Writer>(&mut self, w: &mut W) -> Result<(), WriteFault>
        requires { accepted self.old < 2 ^ 128 }
        ensures all { MatchResult result
            (λ _. Accepts (W.state w.old) self.old (W.state w.new) self.new [])
            (λ f. FailsPartway (W.state w.old) self.old (W.state w.new) [] f) }
        ensures empty { MatchResult result (λ _. self.new.waiting ≡ []) (λ _. Unit {0}) }
        ensures err { OnErr result (self.new ≡ self.old) }
    {
        match write_whole(w, &self.bytes[..self.waiting]) {
            Ok(()) => {
                self.written += self.waiting as u128;
                self.waiting = 0;
                Ok(())
            }
            Err(fault) => Err(WriteFault {
                written: self.written + fault.written,
                cause: fault.cause,
            }),
        }
    }

    /// Writes what waits if there is not room behind it for so many bytes. On a fault the buffer stays as it was.
    pub(crate) fn make_room<W: Writer>(&mut self, w: &mut W, bytes: usize) -> Result<(), WriteFault>
        requires few { bytes ≤ SIZE }
        requires room { accepted self.old < 2 ^ 128 }
        ensures all { MatchResult result
            (λ _. Accepts (W.state w.old) self.old (W.state w.new) self.new [])
            (λ f. FailsPartway (W.state w.old) self.old (W.state w.new) [] f) }
        ensures room { OnOk result (length self.new.waiting + bytes ≤ SIZE) }
        ensures err { OnErr result (self.new ≡ self.old) }
    {
        if bytes > SIZE - self.waiting {
            return self.flush(w);
        }
        Ok(())
    }

    /// Puts a piece behind what waits.
    #[inline(always)]
    pub(crate) fn push(&mut self, piece: &[u8])
        requires { length self.old.waiting + length piece.now ≤ SIZE }
        ensures waiting { self.new.waiting ≡ self.old.waiting ++ piece.now }
        ensures written { self.new.written ≡ self.old.written }
    {
        let end = self.waiting + piece.len();
        let room = &mut self.bytes[..];
        room[self.waiting..end].copy_from_slice(piece);
        self.waiting = end;
    }

    /// Puts bytes behind what waits, as pairs of digits with a blank before each. It overwrites the eight bytes after them.
    pub(crate) fn push_pairs(&mut self, bytes: &[u8])
        requires { length self.old.waiting + (3 * length bytes.now + 8) ≤ SIZE }
        ensures waiting { self.new.waiting ≡ self.old.waiting ++ spaced_pairs bytes.now }
        ensures written { self.new.written ≡ self.old.written }
    {
        let room = &mut self.bytes[..];
        put_pairs(bytes, &mut room[self.waiting..]);
        self.waiting += 3 * bytes.len();
    }

    /// Writes a piece, now or later. On a fault the buffer stays as it was, without the piece, and only the fault
    /// reports how much of it was written.
    pub fn write<W: Writer>(&mut self, w: &mut W, piece: &[u8]) -> Result<(), WriteFault>
        requires short { length piece.now ≤ SIZE }
        requires room { accepted self.old + length piece.now < 2 ^ 128 }
        ensures all { MatchResult result
            (λ _. Accepts (W.state w.old) self.old (W.state w.new) self.new piece.now)
            (λ f. FailsPartway (W.state w.old) self.old (W.state w.new) piece.now f) }
        ensures err { OnErr result (self.new ≡ self.old) }
    {
        self.make_room(w, piece.len())?;
        self.push(piece);
        Ok(())
    }
}
