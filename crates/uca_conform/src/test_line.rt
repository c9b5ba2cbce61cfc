ghost use Rattle.std.specs.Prelude.{◌≡◌, ◌≤◌, ℕ, List, [], length, Err, IfErr, IfNone, IfOk, IfSome, MatchOption, true, false, ◌<◌};
ghost use Rattle.std.specs.Char.{digit_value, is_digit};
ghost use Rattle.uca_weights.specs.declared.limits.TheConstants.{MAX_LINE};
ghost use Rattle.uca_model.specs.TableText.{skip_blanks};
ghost use Rattle.uca_model.specs.TestFile.{is_test, points_of, test_point};
ghost use Rattle.uca_conform.specs.TestWords.{ends_at, ends_word, said_words, AreDigits, BeginsWithDigits, HasBadWord, IsDigitAt, IsNextPoint, NoDigitAt};
ghost use Rattle.uca_conform.specs.TestReading.{test_cause, text_in, IsBadLine, IsOfFile, SaysPoints};

use crate::conforming::ConformCause;
use crate::test_text::TestText;
use uca_io::words::{is_blank, skip_blanks};

/// The most digits of a code point.
const MAX_DIGITS: usize = 6;

/// Hexadecimal digits at the front of some bytes, six of them at most.
#[derive(Clone, Copy)]
struct Digits<'l> {
    value: u32,
    len: usize,
    // What follows them.
    rest: &'l [u8],
}

/// The value of a hexadecimal digit, of either case. `char::to_digit`, which handles every radix, takes three times as long.
#[inline(always)]
fn digit_of(byte: u8) -> Option<u32>
    ensures { MatchOption result (is_digit byte 16 ≡ false) (λ digit. (is_digit byte 16 ≡ true) × ((digit ≡ digit_value byte) × (digit < 16))) }
{
    let decimal = byte.wrapping_sub(b'0');
    if decimal < 10 {
        return Some(decimal as u32);
    }
    match byte {
        b'A'..=b'F' => Some((byte - b'A') as u32 + 10),
        b'a'..=b'f' => Some((byte - b'a') as u32 + 10),
        _ => None,
    }
}

/// The value of the digit at a place, of which six count at most.
#[inline(always)]
fn digit_at(bytes: &[u8], at: usize) -> Option<u32>
    ensures some { IfSome result (IsDigitAt bytes.now at) }
    ensures none { IfNone result (NoDigitAt bytes.now at) }
{
    if at == MAX_DIGITS {
        return None;
    }
    match bytes.get(at) {
        Some(byte) => digit_of(*byte),
        None => None,
    }
}

/// Reads the digits at the front of some bytes.
#[inline(always)]
fn read_digits(bytes: &[u8]) -> Digits<'_>
    ensures { BeginsWithDigits bytes.now result.value result.len result.rest.now }
{
    let mut value = 0;
    let mut len = 0;
    while let Some(digit) = digit_at(bytes, len) {
        value = value * 16 + digit;
        len += 1;
    }
    Digits {
        value,
        len,
        rest: &bytes[len..],
    }
}

/// The code point, also a surrogate, that digits spell where there are at least four of them.
#[inline(always)]
fn point_of(value: u32, len: usize) -> Option<u32>
    ensures value { (word : List ℕ) → AreDigits word value len → result ≡ test_point word }
    ensures long { IfSome result (λ _. 4 ≤ len) }
{
    if len < 4 {
        return None;
    }
    if value > 0x0010_FFFF {
        return None;
    }
    Some(value)
}

/// Whether a word ends before a byte.
#[inline(always)]
fn ends_at(byte: u8) -> bool
    ensures { result ≡ ends_at byte }
{
    is_blank(byte) || byte == b';' || byte == b'#'
}

/// Whether a word ends before these bytes.
#[inline(always)]
fn ends_word(bytes: &[u8]) -> bool
    ensures { result ≡ ends_word bytes.now }
{
    match bytes.first() {
        Some(byte) => ends_at(*byte),
        None => true,
    }
}

/// The next code point of a line, also a surrogate, and what follows it. `None`: there is no more.
#[inline(always)]
fn next_point(line: &[u8]) -> Result<Option<(u32, &[u8])>, ConformCause>
    ensures next { IfOk result (λ next. MatchOption next (said_words line.now ≡ []) (λ p. IsNextPoint line.now p.0 p.1.now)) }
    ensures bad { IfErr result (λ _. HasBadWord line.now) }
    ensures cause { IfErr result IsBadLine }
{
    let digits = read_digits(skip_blanks(line));
    if !ends_word(digits.rest) {
        return Err(ConformCause::BadLine);
    }
    if digits.len == 0 {
        return Ok(None);
    }
    match point_of(digits.value, digits.len) {
        Some(point) => Ok(Some((point, digits.rest))),
        None => Err(ConformCause::BadLine),
    }
}

/// Puts the text of a test line in place of another, and returns whether it is compared.
#[tactic(auto, unfolding(uca_model::specs::TestFile::points_of))]
pub(crate) fn text_of_test(line: &[u8], text: &mut TestText) -> Result<bool, ConformCause>
    requires { length line.now ≤ MAX_LINE }
    ensures points { IfOk result (λ is_compared. SaysPoints (points_of line.now) is_compared (text_in text.new)) }
    ensures fault { IfErr result (λ cause. points_of line.now ≡ Err (test_cause cause)) }
    ensures of_file { IfErr result IsOfFile }
{
    text.clear();
    let mut is_some = false;
    let mut is_text = true;
    let mut rest = line;
    while let Some((point, others)) = next_point(rest)? {
        let is_scalar = text.push(point);
        is_text = is_text && is_scalar;
        is_some = true;
        rest = others;
    }
    if !is_some {
        return Err(ConformCause::BadLine);
    }
    Ok(is_text && text.is_safe())
}

/// Whether a line is a test line: it has a byte that is not a blank, and the first such byte is not `#`.
pub(crate) fn is_test(line: &[u8]) -> bool
    ensures { result ≡ is_test (skip_blanks line.now) }
{
    match skip_blanks(line).first() {
        Some(first) => *first != b'#',
        None => false,
    }
}
