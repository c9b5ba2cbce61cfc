//! The text of a collation element table, in the format of `allkeys.txt` (UTS #10, Allkeys File Format): [`read_table`]
//! reads it, and [`write_table`] writes a table in the one canonical form.
#![tactic(auto)]

pub mod bytes;
pub mod canonical;
mod directive;
mod entry;
pub mod faults;
pub mod laws;
mod lines;
pub mod read;
mod statement;

pub use canonical::{element_text, write_table};
pub use faults::{ReadCause, ReadFault};
pub use read::read_table;
