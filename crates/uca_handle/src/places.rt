// Where a byte of a table or of rules is.
ghost use Rattle.std.specs.Prelude.{◌≡◌, ◌++◌, [], ◌∷◌, ◌<◌, ◌^◌, ℕ, List};
ghost use Rattle.uca_handle.specs.Places.{begins_character, place_after, place_of};

/// A line and a character in it, both counted from 1.
#[derive(Clone, Copy, Debug, PartialEq, Eq)]
pub struct Place {
    pub line: u64,
    pub column: u64,
}

/// Whether a byte is the first of a character in UTF-8.
fn begins_character(byte: u8) -> bool
    ensures { result ≡ begins_character byte }
{
    !(0x80..=0xBF).contains(&byte)
}

/// The place after one more byte.
fn after(place: Place, byte: u8) -> Place
    requires line { place.line < 2 ^ 63 }
    requires column { place.column < 2 ^ 63 }
    ensures { (front : List ℕ) → place ≡ place_after front → result ≡ place_after (front ++ byte ∷ []) }
{
    if byte == b'\n' {
        return Place {
            line: place.line + 1,
            column: 1,
        };
    }
    Place {
        line: place.line,
        column: place.column + u64::from(begins_character(byte)),
    }
}

/// The place of a byte, counted from 0, or that of the end where there are fewer bytes. A line ends at LF. A character is a byte
/// that does not go on with the one before it in UTF-8, so bytes that are not UTF-8 have places, too. It does not allocate.
pub fn locate(bytes: &[u8], at: u64) -> Place
    ensures { result ≡ place_of bytes.now at }
{
    let end = at.min(bytes.len() as u64) as usize;
    let mut place = Place { line: 1, column: 1 };
    for byte in &bytes[..end] {
        place = after(place, *byte);
    }
    place
}
