ghost use Rattle.std.specs.Prelude.{◌≡◌, ◌<◌};
ghost use Rattle.uca_model.specs.Source.{SourceState, GivesNext, restarted, marked, rewound};

/// The characters of a text, read one by one, and again from the start. A source states its text, its place, and
/// how often it was called; a count stays at 2^128 - 1 once it is there.
pub trait Source {
    ghost state: { Self → SourceState };

    /// Returns the character at the place and advances by one, or `None` at the end of the text, where the place stays.
    fn next(&mut self) -> Option<char>
        ensures { GivesNext (state self.old) result (state self.new) };

    /// Sets the place to the start of the text.
    fn restart(&mut self)
        ensures { state self.new ≡ restarted (state self.old) };

    /// Sets the mark to the character before the place, which is not the start.
    fn mark(&mut self)
        requires { 0 < (state self.old).place }
        ensures { state self.new ≡ marked (state self.old) };

    /// Sets the place to the mark, or to the start of the text where there is none.
    fn rewind(&mut self)
        ensures { state self.new ≡ rewound (state self.old) };
}
