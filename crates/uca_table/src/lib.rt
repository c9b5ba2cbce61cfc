//! The collation element table (UTS #10, section 3): keys of code points with their collation elements, the
//! ranges of code points whose implicit weights have a base of their own, and ranges of further unified
//! ideographs (section 10.1.3).
//!
//! A [`TableBuilder`] collects entries, and [`TableBuilder::finish`] turns them into a [`Table`]. Contracts see both as
//! one value, a finite map with two lists of ranges. [`AscendingEntries`] take entries that come in key order. No
//! look-up allocates.
#![tactic(auto)]

pub mod ascending;
mod blocks;
pub mod builder;
pub mod cells;
pub mod characters;
mod collation;
mod debug;
mod entry_map;
pub mod fault;
pub mod growing;
mod ideographs;
mod implicit_weights;
mod marks;
pub mod matching;
mod primaries;
mod range_map;
mod ranges;
mod scan;
mod single_map;
pub mod table;
pub mod walk;
pub mod well_formed;

pub use ascending::AscendingEntries;
pub use builder::TableBuilder;
pub use characters::{Character, Characters};
pub use fault::{AppendFault, FinishFault, InsertFault, RangeFault};
pub use table::Table;
pub use uca_keys::Entries;
pub use uca_weights::{Element, Ideographs, Range};
pub use walk::Walk;
pub use well_formed::{WellFormed, lint};
