use std::marker::Model;
use std::str::CharIndices;

/// Scans the characters of a text. It does not allocate.
#[derive(Drop)]
pub(crate) struct Scanner<'t> {
    rest: CharIndices<'t>,
}

impl<'t> Model for Scanner<'t> {
    ghost use Rattle.std.specs.Prelude.{chars};
    ghost use Rattle.std.specs.Str.Iter.{char_indices_rest, char_indices_offset};
    ghost use Rattle.uca_tailor.specs.Scan.{ScanState, IsCursor, state_of};

    ghost Value = { ScanState };

    ghost view = { λ s. state_of s.rest };

    ghost invariant = { λ s. IsCursor s.rest };
}

impl<'t> Scanner<'t> {
    ghost use Rattle.std.specs.Prelude.{◌≡◌, chars};
    ghost use Rattle.uca_model.specs.RuleText.{begins_with};
    ghost use Rattle.uca_tailor.specs.Scan.{scan_of, first_left, TakesOne};

    /// Before the first character of a text.
    pub(crate) fn new(text: &'t str) -> Scanner<'t>
        ensures { result ≡ scan_of (chars text.now) }
    {
        Scanner {
            rest: text.char_indices(),
        }
    }

    /// The byte at which the next character begins, or the length of the text.
    pub(crate) fn at(&self) -> usize
        ensures { result ≡ self.now.at }
    {
        self.rest.offset()
    }

    /// The next character, without taking it.
    pub(crate) fn peek(&self) -> Option<char>
        ensures { result ≡ first_left self.now.left }
    {
        self.rest.as_str().chars().next()
    }

    /// Takes the next character.
    pub(crate) fn next(&mut self) -> Option<char>
        ensures { TakesOne self.old result self.new }
    {
        let Some(item) = self.rest.next() else {
            return None;
        };
        Some(item.1)
    }

    /// Whether this character is next.
    pub(crate) fn is_next(&self, c: char) -> bool
        ensures { result ≡ begins_with c self.now.left }
    {
        match self.peek() {
            Some(next) => next == c,
            None => false,
        }
    }
}
