//! The numbers of a table's text, and single bytes that have to come first.
ghost use Rattle.std.specs.Prelude.{◌≡◌, MatchOption, Ok, Err};
ghost use Rattle.uca_model.specs.TableText.{four_digits, after_byte, Cause};

use uca_io::digits::number;

/// The weight that four hexadecimal digits spell.
#[tactic(auto, unfolding(uca_model::specs::TableText::four_digits))]
pub(crate) fn four_digits(digits: &[u8]) -> Option<u16>
    ensures { result ≡ four_digits digits.now }
{
    if digits.len() != 4 {
        return None;
    }
    match number(digits) {
        Some(weight) => Some(weight as u16),
        None => None,
    }
}

/// What follows a byte that has to come first.
pub(crate) fn after_byte(byte: u8, text: &[u8]) -> Option<&[u8]>
    ensures { MatchOption result
        ((c : Cause) → after_byte c byte text.now ≡ Err c)
        (λ rest. (c : Cause) → after_byte c byte text.now ≡ Ok rest.now) }
{
    let (first, rest) = text.split_first()?;
    if *first == byte { Some(rest) } else { None }
}
