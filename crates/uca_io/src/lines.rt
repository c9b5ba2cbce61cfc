//! Lines of bytes, and places in them.
ghost use Rattle.std.specs.Prelude.{◌≡◌, ◌==◌, ◌≤◌, ◌<◌, ◌+◌, ◌++◌, ◌∷◌, false, length, drop, MatchOption};
ghost use Rattle.std.specs.Bool.{OnTrue};
ghost use Rattle.std.specs.List.{position_or_len};
ghost use Rattle.uca_io.specs.Lines.{line_feed, without_return, IsOpen};

use arrayvec::ArrayVec;
use memchr::memchr;

/// The place where a byte first occurs, or the length.
pub fn place_of(byte: u8, text: &[u8]) -> usize
    ensures value { result ≡ position_or_len (λ b. b == byte) text.now }
    ensures within { result ≤ length text.now }
{
    match memchr(byte, text) {
        Some(at) => at,
        None => text.len(),
    }
}

/// The bytes from a place on.
pub fn from_place(text: &[u8], at: usize) -> &[u8]
    requires { at ≤ length text.now }
    ensures value { result.now ≡ drop at text.now }
    ensures len { length result.now + at ≡ length text.now }
{
    &text[at..]
}

/// The line without one CR at its end.
pub fn without_return(line: &[u8]) -> &[u8]
    ensures { result.now ≡ without_return line.now }
{
    if line.is_empty() {
        return line;
    }
    let end = line.len() - 1;
    if line[end] == b'\r' {
        &line[..end]
    } else {
        line
    }
}

/// What comes before the first LF, and what follows it.
pub(crate) fn next_line(text: &[u8]) -> Option<(&[u8], &[u8])>
    ensures { MatchOption result (IsOpen text.now) (λ p. (text.now ≡ p.0.now ++ line_feed ∷ p.1.now) × (IsOpen p.0.now × (length p.1.now < length text.now))) }
{
    let end = place_of(b'\n', text);
    if end < text.len() {
        Some((&text[..end], from_place(text, end + 1)))
    } else {
        None
    }
}

/// Holds more bytes of a line, and returns whether they fit. If not, it holds what it held.
pub(crate) fn extend_held<const N: usize>(held: &mut ArrayVec<u8, N>, part: &[u8]) -> bool
    ensures fits { OnTrue result (held.new.items ≡ held.old.items ++ part.now) }
    ensures short { OnTrue result (length held.new.items ≤ N) }
    ensures full { result ≡ false → N < length (held.old.items ++ part.now) }
    ensures kept { result ≡ false → held.new.items ≡ held.old.items }
{
    held.try_extend_from_slice(part).is_ok()
}
