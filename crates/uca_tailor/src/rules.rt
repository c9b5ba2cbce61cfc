ghost use Rattle.std.specs.Prelude.{◌≡◌, map};
ghost use Rattle.uca_tailor.specs.Chains.{chain_of};

use std::marker::Model;

/// How an item differs from what comes before it (UTS #35, Part 5, section 3.5, Orderings).
#[derive(Clone, Copy, Debug, PartialEq, Eq)]
pub enum Op {
    /// `<`: at the first level.
    First,
    /// `<<`: at the second level.
    Second,
    /// `<<<`: at the third level.
    Third,
    /// `=`: at no level.
    Same,
}

/// An item, which is placed after what comes before it.
#[derive(Debug, Drop)]
pub struct Relation {
    pub op: Op,
    /// The key that the item becomes, in NFD: 1 to `MAX_KEY` code points.
    pub item: Vec<char>,
    /// The string after `/`, in NFD, whose collation elements follow those of the item's place (UTS #35, Part 5,
    /// section 3.6, Expansions): at most `MAX_KEY` code points, and none where there is no `/`.
    pub expansion: Vec<char>,
}

/// A reset, and the relations after it (UTS #35, Part 5, section 3.5, Orderings).
#[derive(Debug, Drop)]
pub struct Chain {
    /// The string after `&`, in NFD: 1 to `MAX_KEY` code points.
    pub reset: Vec<char>,
    /// The relations in the order of the text.
    pub relations: Vec<Relation>,
}

/// The rules of a text: chains in order, with at most `MAX_RELATIONS` relations in all.
#[derive(Debug, Drop)]
pub struct Rules {
    pub(crate) chains: Vec<Chain>,
}

impl Model for Rules {
    ghost use Rattle.std.specs.Prelude.{List, map};
    ghost use Rattle.uca_model.specs.Rules.{AreRules, Chain};
    ghost use Rattle.uca_tailor.specs.Chains.{chain_of, coded_chains};

    ghost Value = { List Chain };

    ghost coded = { coded_chains };

    ghost view = { λ r. map chain_of r.chains.items };

    ghost invariant = { λ r. AreRules (map chain_of r.chains.items) };
}

impl Rules {
    ghost use Rattle.uca_model.specs.Rules.{AreRules};

    /// The chains in the order of the text.
    pub fn chains(&self) -> &[Chain]
        ensures value { map chain_of result.now ≡ self.now }
        ensures valid { AreRules self.now }
    {
        self.chains.as_slice()
    }
}
