//! What tests of several crates use: the small table, readers and writers that stop, a source that counts
//! its calls, and texts chosen by a number.
//!
//! No program depends on this crate. Tests try again where memory was refused, since a run refuses one growth at most.
#![tactic(auto)]

pub mod entries;
pub mod readers;
pub mod sources;
pub mod tables;
pub mod texts;
pub mod writers;

pub use entries::{Entry, SMALL_TABLE, SMALL_TEXT, TWO_RANGES, WRITTEN_BY_HAND, element, plain};
pub use readers::{Pieces, Repeating};
pub use sources::{Counted, source_of};
pub use tables::{small_table, table_from};
pub use texts::{generated, repeated};
pub use writers::Expecting;
