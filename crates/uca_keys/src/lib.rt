//! Keys of code points with their collation elements, as one trie (UTS #10, section 3).
//!
//! [`Nodes`] take keys in their order, one after the other, and [`Trie::new`] makes them ready for look-ups. A node is a code
//! point after a prefix of the path of the node before it, and stores the length of that prefix.
//! No look-up allocates.
#![tactic(auto)]

pub mod cursor;
pub mod entries;
pub mod node;
pub mod nodes;
pub mod trie;

pub use cursor::Cursor;
pub use entries::Entries;
pub use nodes::Nodes;
pub use trie::{NodeNumber, Trie};
