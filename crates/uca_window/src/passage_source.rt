ghost use Rattle.std.specs.Prelude.{◌≡◌, ◌+◌, ◌<◌, length, chars};
ghost use Rattle.std.specs.Str.Iter.{chars_rest};
ghost use Rattle.uca_window.specs.PassageSource.{StandsIn};

use crate::passage::Passage;
use crate::source::Source;
use std::marker::Model;
use std::str::Chars;

/// The characters of a [`Passage`]. It does not allocate.
#[derive(Drop)]
pub struct PassageSource<'t> {
    text: &'t str,
    rest: Chars<'t>,
    marked: Chars<'t>,
    reads: u128,
    rewinds: u128,
}

impl<'t> Model for PassageSource<'t> {
    ghost use Rattle.std.specs.Prelude.{chars};
    ghost use Rattle.std.specs.Str.Iter.{chars_rest};
    ghost use Rattle.uca_model.specs.Source.{SourceState};
    ghost use Rattle.uca_window.specs.PassageSource.{state_at, StandsIn};

    ghost Value = { SourceState };

    ghost view = { λ s. state_at (chars s.text.now) (chars (chars_rest s.rest)) (chars (chars_rest s.marked)) s.reads s.rewinds };

    ghost invariant = { λ s. StandsIn s.text.now (chars_rest s.rest) × StandsIn s.text.now (chars_rest s.marked) };
}

impl<'t> PassageSource<'t> {
    ghost use Rattle.uca_model.specs.SafeText.{IsSafe};
    ghost use Rattle.uca_model.specs.Source.{source_of};
    ghost use Rattle.uca_window.specs.Passage.{text_of};

    /// A source at the start of the passage.
    pub fn new(p: &Passage<'t>) -> PassageSource<'t>
        ensures value { result ≡ source_of (text_of p.now) }
        ensures safe { IsSafe (text_of p.now) }
    {
        let text = p.as_str();
        PassageSource {
            text,
            rest: text.chars(),
            marked: text.chars(),
            reads: 0,
            rewinds: 0,
        }
    }
}

// What is left of a text one character earlier.
fn after_last<'t>(text: &'t str, rest: &str) -> Chars<'t>
    requires stands { StandsIn text.now rest.now }
    requires some { length (chars rest.now) < length (chars text.now) }
    ensures stands { StandsIn text.now (chars_rest result) }
    ensures one_more { length (chars (chars_rest result)) ≡ length (chars rest.now) + 1 }
{
    let mut front = text.split_at(text.len() - rest.len()).0.chars();
    let _last = front.next_back();
    text.split_at(front.as_str().len()).1.chars()
}

impl<'t> Source for PassageSource<'t> {
    ghost state = { λ s. s };

    fn next(&mut self) -> Option<char> {
        self.reads = self.reads.saturating_add(1);
        self.rest.next()
    }

    fn restart(&mut self) {
        self.rewinds = self.rewinds.saturating_add(1);
        self.rest = self.text.chars();
    }

    fn mark(&mut self) {
        self.marked = after_last(self.text, self.rest.as_str());
    }

    fn rewind(&mut self) {
        self.rewinds = self.rewinds.saturating_add(1);
        self.rest = self.marked.as_str().chars();
    }
}
