ghost use Rattle.std.specs.Prelude.{◌≡◌, ◌≤◌, [], length, ℕ, List};
ghost use Rattle.uca_weights.specs.declared.limits.TheConstants.{MAX_KEY};
ghost use Rattle.uca_weights.specs.declared.element.Element.{Element};
ghost use Rattle.uca_keys.specs.Coded.{coded_entries, key_and_elements};
ghost use Rattle.uca_keys.specs.Nodes.{AreFull, AreNext, entries_after};
ghost use Rattle.std.specs.Iterator.{YieldsFirstBy, item_count};

use crate::cursor::Cursor;
use crate::node::Node;
use arrayvec::ArrayVec;
use std::fmt;
use std::marker::Model;
use uca_weights::{Element, MAX_KEY};

/// The entries of keys in their order: each key with its elements.
#[derive(Drop)]
pub struct Entries<'t> {
    cursor: Cursor<'t>,
}

impl<'t> Model for Entries<'t> {
    ghost Value = { List (List ℕ × List Element) };

    ghost coded = { coded_entries };

    ghost view = { λ e. e.cursor.coming };
}

impl<'t> Entries<'t> {
    /// Those of all nodes of keys.
    pub(crate) fn new(nodes: &'t [Node], elements: &'t [Element]) -> Entries<'t>
        requires next { AreNext elements.now [] nodes.now }
        requires full { AreFull nodes.now }
        ensures { result ≡ entries_after elements.now [] nodes.now }
    {
        Entries {
            cursor: Cursor::new(nodes, elements),
        }
    }
}

impl<'t> Iterator for Entries<'t> {
    type Item = (ArrayVec<char, MAX_KEY>, &'t [Element]);

    ghost next_gives = { YieldsFirstBy key_and_elements (λ s. s) };

    ghost remaining = { item_count (λ s. s) };

    fn next(&mut self) -> Option<(ArrayVec<char, MAX_KEY>, &'t [Element])> {
        let elements = self.cursor.advance()?;
        Some((copied(self.cursor.key()), elements))
    }
}

// Debug output is its name only: a table has tens of thousands of entries.
impl<'t> fmt::Debug for Entries<'t> {
    fn fmt<W: fmt::Write>(&self, f: &mut fmt::Formatter<W>) -> fmt::Result {
        f.debug_struct("Entries").finish_non_exhaustive()
    }
}

/// A copy of a key, which does not allocate.
fn copied(key: &[char]) -> ArrayVec<char, MAX_KEY>
    requires { length key.now ≤ MAX_KEY }
    ensures { result.items ≡ key.now }
{
    let mut copy = ArrayVec::new();
    let _fits = copy.try_extend_from_slice(key);
    copy
}
