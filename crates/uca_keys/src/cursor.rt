ghost use Rattle.std.specs.Prelude.{◌≡◌, ◌∷◌, ◌≤◌, [], length, MatchOption, take};
ghost use Rattle.uca_weights.specs.declared.limits.TheConstants.{MAX_KEY};
ghost use Rattle.uca_keys.specs.Cursor.{CursorState};
ghost use Rattle.uca_keys.specs.Nodes.{AreFull, AreNext, entries_after};

use crate::node::Node;
use std::marker::Model;
use uca_weights::{Element, MAX_KEY};

/// A walk along the entries of keys in their order, which lends each key where an iterator would have to copy it.
#[derive(Drop)]
pub struct Cursor<'t> {
    nodes: &'t [Node],
    elements: &'t [Element],
    // The path of the node before these is the first `len` of these code points.
    path: [char; MAX_KEY],
    len: usize,
}

impl<'t> Model for Cursor<'t> {
    ghost Value = { CursorState };

    ghost view = { λ c. record { key = take c.len c.path; coming = entries_after c.elements.now (take c.len c.path) c.nodes.now } };

    ghost invariant = { λ c. (c.len ≤ MAX_KEY) × AreNext c.elements.now (take c.len c.path) c.nodes.now × AreFull c.nodes.now };
}

impl<'t> Cursor<'t> {
    /// Before the first entry of the nodes of keys.
    pub(crate) fn new(nodes: &'t [Node], elements: &'t [Element]) -> Cursor<'t>
        requires next { AreNext elements.now [] nodes.now }
        requires full { AreFull nodes.now }
        ensures { result ≡ record { key = []; coming = entries_after elements.now [] nodes.now } }
    {
        Cursor {
            nodes,
            elements,
            path: ['\0'; MAX_KEY],
            len: 0,
        }
    }

    /// The key of the entry that it came to last.
    pub fn key(&self) -> &[char]
        ensures value { result.now ≡ self.now.key }
        ensures short { length result.now ≤ MAX_KEY }
    {
        &self.path[..self.len]
    }

    /// Goes to the next entry, and returns its elements. After the last one it stays where it is.
    #[tactic(auto, using(std::proofs::lemmas::List::nil_from_length, crate::proofs::NodeLemmas::no_nodes))]
    pub fn advance(&mut self) -> Option<&'t [Element]>
        ensures { MatchOption result
            ((self.old.coming ≡ []) × (self.new ≡ self.old))
            (λ es. self.old.coming ≡ (self.new.key, es.now) ∷ self.new.coming) }
    {
        while let Some((node, others)) = self.nodes.split_first() {
            self.path[node.depth as usize] = node.point;
            self.len = node.depth as usize + 1;
            self.nodes = others;
            if node.count != 0 {
                let start = node.start as usize;
                return Some(&self.elements[start..start + node.count as usize]);
            }
        }
        None
    }
}
