//! Numbers and code points in hexadecimal digits.
ghost use Rattle.std.specs.Prelude.{◌≡◌, ◌≤◌, ◌<◌, ◌^◌, length, IfSome};
ghost use Rattle.uca_io.specs.Digits.{code_point, hex_digit, hex_pair, number};

/// The number that at most six hexadecimal digits spell.
pub fn number(digits: &[u8]) -> Option<u32>
    requires { length digits.now ≤ 6 }
    ensures value { result ≡ number digits.now }
    ensures small { IfSome result (λ n. n < 16 ^ length digits.now) }
{
    let mut said = 0;
    for byte in digits {
        match (*byte as char).to_digit(16) {
            Some(digit) => said = said * 16 + digit,
            None => return None,
        }
    }
    Some(said)
}

/// The code point that four to six hexadecimal digits spell.
#[tactic(auto, unfolding(crate::specs::Digits::code_point))]
pub fn code_point(digits: &[u8]) -> Option<char>
    ensures { result ≡ code_point digits.now }
{
    if digits.len() < 4 || digits.len() > 6 {
        return None;
    }
    match number(digits) {
        Some(code) => char::from_u32(code),
        None => None,
    }
}

/// An upper-case hexadecimal digit.
pub fn hex_digit(n: u8) -> u8
    requires { n < 16 }
    ensures { result ≡ hex_digit n }
{
    if n < 10 { b'0' + n } else { b'A' + (n - 10) }
}

/// A byte as two digits.
pub fn hex_pair(byte: u8) -> [u8; 2]
    ensures { result ≡ hex_pair byte }
{
    [hex_digit(byte / 16), hex_digit(byte % 16)]
}
