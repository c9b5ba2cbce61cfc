//! The blanks and the words of a line.
ghost use Rattle.std.specs.Prelude.{◌≡◌, ◌≤◌, ◌<◌, ◌+◌, ◌++◌, ◌∷◌, [], length, IfSome, MatchOption};
ghost use Rattle.std.specs.List.{position_or_len};
ghost use Rattle.uca_io.specs.Words.{is_blank, skip_blanks, trim_end, words};

use crate::lines::from_place;

/// Whether a byte is a blank: a space or a tab.
pub fn is_blank(byte: u8) -> bool
    ensures { result ≡ is_blank byte }
{
    byte == b' ' || byte == b'\t'
}

/// The bytes without the blanks at the front.
pub fn skip_blanks(bytes: &[u8]) -> &[u8]
    ensures { result.now ≡ skip_blanks bytes.now }
{
    let mut rest = bytes;
    while let Some((first, others)) = rest.split_first() {
        if !is_blank(*first) {
            return rest;
        }
        rest = others;
    }
    rest
}

/// The bytes without the blanks at the end.
pub fn trim_end(bytes: &[u8]) -> &[u8]
    ensures { result.now ≡ trim_end bytes.now }
{
    let mut end = bytes.len();
    while end > 0 {
        if !is_blank(bytes[end - 1]) {
            break;
        }
        end -= 1;
    }
    &bytes[..end]
}

/// How many bytes come before the first blank.
pub fn word_len(text: &[u8]) -> usize
    ensures value { result ≡ position_or_len is_blank text.now }
    ensures within { result ≤ length text.now }
{
    let mut len = 0;
    let mut rest = text;
    while let Some((first, others)) = rest.split_first() {
        if is_blank(*first) {
            return len;
        }
        len += 1;
        rest = others;
    }
    len
}

/// The first word of a text, up to a blank, and what follows it.
pub fn next_word(text: &[u8]) -> Option<(&[u8], &[u8])>
    ensures words { MatchOption result (words text.now ≡ []) (λ p. (words text.now ≡ p.0.now ∷ words p.1.now) × ((length p.1.now < length text.now) × (length p.0.now + length p.1.now ≤ length text.now))) }
    ensures rest { IfSome result (λ p. skip_blanks text.now ≡ p.0.now ++ p.1.now) }
{
    let rest = skip_blanks(text);
    if rest.is_empty() {
        return None;
    }
    let end = word_len(rest);
    Some((&rest[..end], from_place(rest, end)))
}
