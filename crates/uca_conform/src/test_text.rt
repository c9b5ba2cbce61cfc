ghost use Rattle.std.specs.Prelude.{◌≡◌, ◌≤◌, ◌+◌, ◌++◌, true, [], length, encode_utf8};
ghost use lib.Utf8.{scalar};
ghost use Rattle.uca_weights.specs.declared.limits.TheConstants.{MAX_LINE};
ghost use Rattle.uca_model.specs.SafeText.{is_safe};
ghost use Rattle.uca_model.specs.SortKey.{key_order, sort_key};
ghost use Rattle.uca_window.specs.Passage.{text_of};
ghost use Rattle.uca_conform.specs.Comparing.{can_compare};
ghost use Rattle.uca_conform.specs.TestReading.{text_in};

use arrayvec::ArrayString;
use std::cmp::Ordering;
use uca_levels::compare;
use uca_table::Table;
use uca_weights::{MAX_DECOMPOSITION, MAX_LINE, MAX_RUN, Settings};
use uca_window::Passage;

/// A text of this many bytes is safe, whatever its characters are.
const SHORT: usize = MAX_RUN / MAX_DECOMPOSITION;

/// The text of a test line, which has no more bytes than the line.
#[derive(Drop)]
pub(crate) struct TestText {
    text: ArrayString<MAX_LINE>,
}

impl TestText {
    /// No text.
    pub(crate) fn new() -> TestText {
        TestText {
            text: ArrayString::new(),
        }
    }

    /// Drops all characters.
    pub(crate) fn clear(&mut self)
        ensures { self.new.text.bytes ≡ [] }
    {
        self.text.clear();
    }

    /// Adds a code point, if it is a scalar value, and returns whether it is.
    pub(crate) fn push(&mut self, point: u32) -> bool
        requires { length self.old.text.bytes + 4 ≤ MAX_LINE }
        ensures is_scalar { result ≡ scalar point }
        ensures adds { result ≡ true → self.new.text.bytes ≡ self.old.text.bytes ++ encode_utf8 point }
        ensures fits { length self.new.text.bytes ≤ length self.old.text.bytes + 4 }
    {
        match char::from_u32(point) {
            Some(c) => {
                // A branch for each length: where the length is known, no function is called to copy so few bytes.
                if point < 0x80 {
                    self.text.push_str(c.encode_utf8(&mut [0; 1]));
                } else if point < 0x800 {
                    self.text.push_str(c.encode_utf8(&mut [0; 2]));
                } else if point < 0x1_0000 {
                    self.text.push_str(c.encode_utf8(&mut [0; 3]));
                } else {
                    self.text.push_str(c.encode_utf8(&mut [0; 4]));
                }
                true
            }
            None => false,
        }
    }

    /// Whether the text is safe.
    pub(crate) fn is_safe(&self) -> bool
        ensures { result ≡ is_safe (text_in self.now) }
    {
        let text = self.text.as_str();
        if text.len() <= SHORT {
            return true;
        }
        match Passage::check(text) {
            Ok(_) => true,
            Err(_) => false,
        }
    }

    // The text, which was found safe.
    fn passage(&self) -> Passage<'_>
        requires { can_compare (text_in self.now) ≡ true }
        ensures { text_of result ≡ text_in self.now }
    {
        Passage::of_safe(self.text.as_str())
    }
}

/// The order of two texts that can be compared.
pub(crate) fn order_of_texts(t: &Table, s: Settings, a: &TestText, b: &TestText) -> Ordering
    requires text_a { can_compare (text_in a.now) ≡ true }
    requires text_b { can_compare (text_in b.now) ≡ true }
    ensures { result ≡ key_order (sort_key t.now s (text_in a.now)) (sort_key t.now s (text_in b.now)) }
{
    compare(t, s, &a.passage(), &b.passage())
}
