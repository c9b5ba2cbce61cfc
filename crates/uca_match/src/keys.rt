ghost use Rattle.std.specs.Prelude.{◌≡◌};
ghost use Rattle.std.specs.FinSet.{FinSet, contains};
ghost use Rattle.uca_model.specs.Table.{key_cmp};
ghost use Rattle.uca_match.specs.Keys.{AreKeys, HasLongest, key_set};

use uca_table::Table;

/// Keys that are looked for in a text: a finite set of lists of 1 to `MAX_KEY` code points. No call allocates.
pub trait Keys {
    /// The keys.
    ghost keys: { Self → FinSet key_cmp };

    /// Whether the code points are a key. A key has 1 to `MAX_KEY` of them.
    fn has(&self, key: &[char]) -> bool
        ensures value { result ≡ contains (keys self.now) key.now }
        ensures keys { AreKeys (keys self.now) };

    /// The length of the longest key in code points, or 1 where there is no key.
    fn longest(&self) -> usize
        ensures { HasLongest (keys self.now) result };
}

impl Keys for Table {
    ghost keys = { key_set };

    #[tactic(auto, using(crate::proofs::KeyLemmas::of_table))]
    fn has(&self, key: &[char]) -> bool {
        // Shows that each key of the table is valid.
        let _longest = self.longest();
        self.get(key).is_some()
    }

    #[tactic(auto, using(crate::proofs::KeyLemmas::of_table))]
    fn longest(&self) -> usize {
        self.longest()
    }
}
