ghost use Rattle.uca_model.specs.SafeText.{IsSafe};
ghost use Rattle.uca_model.specs.Source.{unread};

use uca_window::{Passage, PassageSource, Source};

/// The characters of a passage, with the calls counted.
#[derive(Drop)]
pub struct Counted<'t> {
    source: PassageSource<'t>,
    pub reads: usize,
    pub rewinds: usize,
}

impl<'t> Source for Counted<'t> {
    ghost state = { λ s. s.source };

    fn next(&mut self) -> Option<char> {
        self.reads = self.reads.saturating_add(1);
        self.source.next()
    }

    fn restart(&mut self) {
        self.rewinds = self.rewinds.saturating_add(1);
        self.source.restart();
    }

    fn mark(&mut self) {
        self.source.mark();
    }

    fn rewind(&mut self) {
        self.rewinds = self.rewinds.saturating_add(1);
        self.source.rewind();
    }
}

/// The characters of a passage from its start, none of which was read yet.
pub fn source_of<'t>(p: &Passage<'t>) -> Counted<'t>
    ensures unread { IsSafe (unread result.source) }
    ensures text { IsSafe result.source.text }
{
    Counted {
        source: PassageSource::new(p),
        reads: 0,
        rewinds: 0,
    }
}
