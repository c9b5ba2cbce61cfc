//! The lines of an input, one by one.
ghost use Rattle.std.specs.Prelude.{◌≡◌, ◌∷◌, ◌+◌, ◌-◌, ◌<◌, ◌≤◌, length, take, drop, IsFalse, IsTrue};
ghost use Rattle.uca_model.specs.Lines.{lines_of};
ghost use Rattle.uca_commands.specs.Input.{IsOneLine};

use uca_io::lines::{place_of, without_return};

/// What follows the byte at `end`.
fn rest_after(bytes: &[u8], end: usize) -> &[u8]
    ensures { result.now ≡ drop (end + 1) bytes.now }
{
    if end < bytes.len() {
        &bytes[end + 1..]
    } else {
        &bytes[..0]
    }
}

/// The first line of an input, without what ends it, and the bytes after that.
pub(crate) fn first_line(bytes: &[u8]) -> (&[u8], &[u8])
    requires { 0 < length bytes.now }
    ensures parts { lines_of bytes.now ≡ result.0.now ∷ lines_of result.1.now }
    ensures shorter { length result.1.now < length bytes.now }
    ensures front { result.0.now ≡ take (length result.0.now) bytes.now }
    ensures within { length result.0.now ≤ length bytes.now }
    ensures after { result.1.now ≡ drop (length bytes.now - length result.1.now) bytes.now }
{
    let end = place_of(b'\n', bytes);
    (without_return(&bytes[..end]), rest_after(bytes, end))
}

/// Whether an input is one line.
pub(crate) fn is_one_line(bytes: &[u8]) -> bool
    ensures one { IsTrue result → IsOneLine bytes.now }
    ensures other { IsFalse result → ¬ IsOneLine bytes.now }
{
    if bytes.is_empty() {
        return false;
    }
    let (_, others) = first_line(bytes);
    others.is_empty()
}
