ghost use Rattle.std.specs.Prelude.{◌≡◌, ◌==◌, ◌/◌, ℕ, [], get_or, if◌then◌else◌, OnOk, OnErr};
ghost use Rattle.uca_table.specs.EntryMap.{NoPlace, IsSingleMap, is_used, place_at, points_of};

use crate::blocks::{BLOCK, Blocks};
use std::alloc::{AllocError, Global};

/// Where the elements of an entry lie among those of all entries: from `start` on, and before `past`.
#[derive(Clone, Copy)]
pub(crate) struct Place {
    pub(crate) start: usize,
    pub(crate) past: usize,
}

/// The place of a key that there is not. It ends before it starts, as no other does: a key may have no elements.
const NO_PLACE: Place = Place { start: 1, past: 0 };

impl Place {
    /// Whether a key has this place.
    #[inline(always)]
    pub(crate) fn is_used(self) -> bool
        ensures { result ≡ is_used self }
    {
        self.start <= self.past
    }
}

/// The places of the keys of one code point. Finding and inserting one takes constant time.
#[derive(Drop)]
pub(crate) struct SingleMap {
    pub(crate) blocks: Blocks<Place>,
}

impl SingleMap {
    /// No keys. It allocates nothing.
    pub(crate) fn new(alloc: Global) -> SingleMap
        ensures map { IsSingleMap result }
        ensures none { result.blocks.numbers.items ≡ [] }
        ensures places { (p : ℕ) → place_at result p ≡ NoPlace }
    {
        SingleMap {
            blocks: Blocks::new(alloc),
        }
    }

    /// The place of a code point.
    #[inline(always)]
    pub(crate) fn get(&self, point: usize) -> Place
        ensures { result ≡ place_at self.now point }
    {
        self.blocks.get(point, NO_PLACE)
    }

    /// Gives a code point its place.
    pub(crate) fn insert(&mut self, c: char, place: Place) -> Result<(), AllocError>
        requires { IsSingleMap self.old }
        ensures map { IsSingleMap self.new }
        ensures ok { OnOk result ((p : ℕ) → place_at self.new p ≡ (if c == p then place else place_at self.old p)) }
        ensures err { OnErr result ((p : ℕ) → place_at self.new p ≡ place_at self.old p) }
    {
        self.blocks.make_room(c, NO_PLACE)?;
        self.blocks.put(c, place);
        Ok(())
    }
}
