ghost use Rattle.std.specs.Prelude.{◌≡◌, ℕ, List, Bool, ◌+◌, ◌++◌, ◌∷◌, [], cond, false, length, take, IsFalse, IsTrue};
ghost use Rattle.uca_model.specs.Table.{ElementTable, is_key};
ghost use Rattle.uca_table.specs.Walk.{path_of, table_of_walk};

use crate::walk::Walk;

/// A list of code points that may grow to a longer key.
pub trait Growing: Drop {
    /// How sets of keys are told.
    ghost Set: { Type 0 };

    /// The keys.
    ghost set: { Self → Set };

    /// Whether a list is one of the keys.
    ghost is_key: { Set → List ℕ → Bool };

    /// The code points.
    ghost path: { Self → List ℕ };

    /// The same list once more.
    fn same(&self) -> Self
        ensures path { path result ≡ path self.now }
        ensures set { set result ≡ set self.now };

    /// Appends a code point, and returns whether it did. Where no key begins with the list and it, the list may stay as it is.
    fn append(&mut self, c: char) -> bool
        ensures none { IsFalse result → (key : List ℕ) → take (length (path self.old) + 1) key ≡ path self.old ++ c ∷ [] → is_key (set self.old) key ≡ false }
        ensures path { path self.new ≡ cond result (path self.old ++ c ∷ []) (path self.old) }
        ensures set { set self.new ≡ set self.old };

    /// Whether the list is a key.
    fn is_found(&self) -> bool
        ensures { result ≡ is_key (set self.now) (path self.now) };

    /// Whether no code point makes a key. `false`: that is not known.
    fn is_whole(&self) -> bool
        ensures { IsTrue result → (c : ℕ) → is_key (set self.now) (path self.now ++ c ∷ []) ≡ false };
}

impl<'t> Growing for Walk<'t> {
    ghost Set = { ElementTable };

    ghost set = { table_of_walk };

    ghost is_key = { is_key };

    ghost path = { path_of };

    #[inline(always)]
    fn same(&self) -> Walk<'t> {
        *self
    }

    #[inline(always)]
    #[tactic(auto, using(crate::proofs::WalkLemmas::no_key_beyond))]
    fn append(&mut self, c: char) -> bool {
        self.step(c)
    }

    #[inline(always)]
    fn is_found(&self) -> bool {
        self.elements().is_some()
    }

    #[inline(always)]
    fn is_whole(&self) -> bool {
        self.is_leaf()
    }
}
