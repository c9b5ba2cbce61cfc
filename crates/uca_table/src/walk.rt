ghost use Rattle.std.specs.Prelude.{◌≡◌, ◌++◌, ◌∷◌, [], ◌<◌, ◌≤◌, ℕ, cond, true, false, length, All, option_copied, IfSome, IsTrue};
ghost use Rattle.std.specs.Coded.{Coded-set};
ghost use Rattle.std.specs.FinMap.{entries};
ghost use Rattle.uca_model.specs.Table.{IsTable};
ghost use Rattle.uca_keys.specs.Coded.{coded_entries};
ghost use Rattle.uca_keys.specs.Fronts.{begins_entry};
ghost use Rattle.uca_keys.specs.Paths.{entries_of, path_at};
ghost use Rattle.uca_table.specs.Fronts.{begins_key};

use crate::table::Table;
use uca_keys::trie::ROOT;
use uca_keys::{NodeNumber, Trie};
use uca_weights::Element;

/// A walk along the keys of a table, one code point at a time. It has a path, empty at first, which is a prefix of
/// some key once it has been stepped.
#[derive(Clone, Copy)]
pub struct Walk<'t> {
    table: &'t Table,
    keys: &'t Trie,
    // The node that the path leads to.
    node: NodeNumber,
    // The length of the path.
    depth: usize,
    ghost same: { entries_of keys.now ≡ entries table.now.entries } by { Coded-set coded_entries _ _ },
    ghost within: { node.number ≤ length keys.now.nodes },
    ghost long: { length (path_at keys.now node.number) ≡ depth },
    ghost begins: { 0 < depth → begins_entry (entries_of keys.now) (path_at keys.now node.number) ≡ true },
}

/// Shows that the keys and the elements of a table are within its limits.
fn show_table(t: &Table)
    ensures { IsTable t.now }
{
    let _longest = t.longest();
}

impl<'t> Walk<'t> {
    ghost use Rattle.uca_weights.specs.declared.limits.TheConstants.{MAX_ELEMENTS};
    ghost use Rattle.uca_model.specs.Table.{IsElement, elements_at};
    ghost use Rattle.uca_table.specs.Walk.{path_of, table_of_walk};

    /// A walk that has not been stepped yet.
    pub(crate) fn new(table: &'t Table, keys: &'t Trie) -> Walk<'t>
        requires { entries_of keys.now ≡ entries table.now.entries }
        ensures table { table_of_walk result ≡ table.now }
        ensures path { path_of result ≡ [] }
    {
        Walk {
            table,
            keys,
            node: ROOT,
            depth: 0,
        }
    }

    /// Steps along one more code point, if some key begins with the path and it, and returns whether one does. Otherwise
    /// the walk stays as it is.
    #[tactic(auto, using(crate::proofs::EntryLemmas::begins_short, std::proofs::lemmas::List::length_push))]
    pub fn step(&mut self, c: char) -> bool
        ensures answers { result ≡ begins_key (table_of_walk self.old) (path_of self.old ++ c ∷ []) }
        ensures path { path_of self.new ≡ cond result (path_of self.old ++ c ∷ []) (path_of self.old) }
        ensures table { table_of_walk self.new ≡ table_of_walk self.old }
    {
        let Some(node) = self.keys.child(self.node, c) else {
            return false;
        };
        show_table(self.table);
        *self = Walk {
            table: self.table,
            keys: self.keys,
            node,
            depth: self.depth + 1,
        };
        true
    }

    /// Whether no key goes on from the path.
    pub fn is_leaf(&self) -> bool
        ensures { IsTrue result → (c : ℕ) → begins_key (table_of_walk self.now) (path_of self.now ++ c ∷ []) ≡ false }
    {
        self.keys.is_leaf(self.node)
    }

    /// How many code points were stepped. If there are any, some key begins with them.
    pub fn len(&self) -> usize
        ensures value { result ≡ length (path_of self.now) }
        ensures begins { 0 < result → begins_key (table_of_walk self.now) (path_of self.now) ≡ true }
    {
        self.depth
    }

    /// The collation elements of the path, 1 to `MAX_ELEMENTS` of them. `None`: it is no key.
    pub fn elements(&self) -> Option<&'t [Element]>
        ensures value { option_copied result ≡ elements_at (table_of_walk self.now) (path_of self.now) }
        ensures some { IfSome result (λ es. 0 < length es.now) }
        ensures few { IfSome result (λ es. length es.now ≤ MAX_ELEMENTS) }
        ensures elements { IfSome result (λ es. All IsElement es.now) }
    {
        show_table(self.table);
        self.keys.elements(self.node)
    }
}
