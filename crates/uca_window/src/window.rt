ghost use Rattle.std.specs.Prelude.{◌≡◌, ℕ, List, ◌+◌, ◌-◌, ◌<◌, ◌≤◌, false, length, drop, nat_lt, not, ◌&&◌, true, slice_index};
ghost use Rattle.std.specs.List.{remove};
ghost use Rattle.unicode.specs.CanonicalCombiningClass.{canonical_combining_class};
ghost use Rattle.uca_weights.specs.declared.limits.TheConstants.{MAX_KEY, MAX_LOOKAHEAD};
ghost use Rattle.uca_model.specs.Source.{GivesNext, unread};

use crate::points::{ROOM, drop_points, push_decomposed};
use crate::source::Source;
use arrayvec::ArrayVec;
use std::marker::Model;

/// A stretch of a text in NFD, at most `longest + MAX_LOOKAHEAD` code points of it. It borrows a source at each call
/// that reads. Its rest over a source is the NFD of one list: its points, and then the characters that the source has
/// not given yet. It does not allocate.
#[derive(Drop)]
pub struct Window {
    points: ArrayVec<char, ROOM>,
    closed: usize,
    longest: usize,
    ended: bool,
}

impl Model for Window {
    ghost use Rattle.uca_model.specs.Window.{WindowState, IsWindow};

    ghost Value = { WindowState };

    ghost view = { λ w. record { points = w.points.items; closed = w.closed; longest = w.longest; ended = w.ended } };

    ghost invariant = { λ w. IsWindow (record { points = w.points.items; closed = w.closed; longest = w.longest; ended = w.ended }) };
}

impl Window {
    ghost use Rattle.uca_model.specs.SafeText.{IsSafe};
    ghost use Rattle.uca_model.specs.Window.{empty_window, rest_of, Fits, is_wanting, after_read, credit, ShowsFront, ReadsOn, ChangesRest, IsWindow};
    ghost use Rattle.uca_window.specs.Filling.{times_asked, filled, IsAsked};

    /// A window that has read nothing, for keys of up to `longest` code points. It fits each source whose unread
    /// characters are a safe text.
    pub fn new(longest: usize) -> Window
        requires first { 1 ≤ longest }
        requires last { longest ≤ MAX_KEY }
        ensures value { result ≡ empty_window longest }
        ensures fits { (left : List ℕ) → IsSafe left → Fits result left }
    {
        Window {
            points: ArrayVec::new(),
            closed: 0,
            longest,
            ended: false,
        }
    }

    /// The points, in NFD. The first of them, which are closed, are the first code points of the rest over each source
    /// that the window fits.
    pub fn points(&self) -> &[char]
        ensures value { result.now ≡ self.now.points }
        ensures bound { length result.now ≤ self.now.longest + MAX_LOOKAHEAD }
        ensures valid { IsWindow self.now }
        ensures front { (left : List ℕ) → Fits self.now left → ShowsFront self.now (rest_of self.now left) }
    {
        self.points.as_slice()
    }

    /// How many points are closed: those of whole segments. A segment is a starter with the nonstarters after it, or
    /// nonstarters at the start. It is whole once the starter after it or the end was read.
    pub fn closed(&self) -> usize
        ensures value { result ≡ self.now.closed }
        ensures valid { IsWindow self.now }
        ensures front { (left : List ℕ) → Fits self.now left → ShowsFront self.now (rest_of self.now left) }
    {
        self.closed
    }

    /// Reads on until at least `longest` points are closed, or to the end of the text, and no further: it reads a
    /// character only while fewer are closed. So what it holds depends only on what it held and on the unread characters.
    /// It leaves the rest as it is.
    pub fn fill<S: Source>(&mut self, source: &mut S)
        requires { Fits self.old (unread (S.state source.old)) }
        ensures reads { ReadsOn self.old (S.state source.old) self.new (S.state source.new) }
        ensures rest { rest_of self.new (unread (S.state source.new)) ≡ rest_of self.old (unread (S.state source.old)) }
        ensures enough { self.new.closed < self.new.longest → self.new.closed ≡ length (rest_of self.new (unread (S.state source.new))) }
        ensures idle { is_wanting self.old ≡ false → (self.new ≡ self.old) × (S.state source.new ≡ S.state source.old) }
        ensures holds { self.new ≡ filled self.old (unread (S.state source.old)) }
        ensures asks { IsAsked (times_asked self.old (unread (S.state source.old))) (S.state source.old) (S.state source.new) }
        ensures valid { IsWindow self.new }
    {
        while self.wants() {
            let _given = self.read(source);
        }
    }

    /// Removes the first `n` points, and so removes them from the rest.
    pub fn drop_front(&mut self, n: usize)
        requires { n ≤ self.old.closed }
        ensures points { self.new ≡ record self.old { points = drop n self.old.points; closed = self.old.closed - n } }
        ensures valid { IsWindow self.new }
        ensures rest { ChangesRest (drop n) self.old self.new }
    {
        drop_points(&mut self.points, n);
        self.closed -= n;
    }

    /// Removes the nonstarter at a place among the closed points, and so removes it from the rest.
    pub fn remove(&mut self, at: usize)
        requires closed { at < self.old.closed }
        requires nonstarter { 0 < canonical_combining_class (slice_index self.old.points at) }
        ensures points { self.new ≡ record self.old { points = remove self.old.points at; closed = self.old.closed - 1 } }
        ensures valid { IsWindow self.new }
        ensures rest { ChangesRest (λ rest. remove rest at) self.old self.new }
    {
        self.points.remove(at);
        self.closed -= 1;
    }

    /// Whether too few points are closed, and more may come.
    pub fn wants(&self) -> bool
        ensures value { result ≡ is_wanting self.now }
        ensures valid { IsWindow self.now }
    {
        self.closed < self.longest && !self.ended
    }

    /// Reads one character, or the end, and returns it. Only what a character decomposes to decides whether it closes a
    /// segment.
    pub fn read<S: Source>(&mut self, source: &mut S) -> Option<char>
        requires wants { is_wanting self.old ≡ true }
        requires fits { Fits self.old (unread (S.state source.old)) }
        ensures reads { ReadsOn self.old (S.state source.old) self.new (S.state source.new) }
        ensures rest { rest_of self.new (unread (S.state source.new)) ≡ rest_of self.old (unread (S.state source.old)) }
        ensures given { GivesNext (S.state source.old) result (S.state source.new) }
        ensures next { self.new ≡ after_read self.old result }
        ensures fewer { credit self.new (unread (S.state source.new)) < credit self.old (unread (S.state source.old)) }
        ensures valid { IsWindow self.new }
    {
        let given = source.next();
        match given {
            Some(c) => self.closed = push_decomposed(&mut self.points, self.closed, c),
            None => {
                self.closed = self.points.len();
                self.ended = true;
            }
        }
        given
    }
}
