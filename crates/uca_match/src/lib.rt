//! The collation elements of a text (UTS #10, section 7.2, Produce Collation Element Arrays, step S2).
//!
//! [`elements_of`] takes the longest matches of a table's keys one after the other, each with the unblocked nonstarters
//! that belong to it. [`Elements`] returns the same elements one by one, over a window of the text, and does not allocate.
//! [`is_complete`] says whether the primary weights of a text stay, whatever follows it.
#![tactic(auto)]

pub mod completeness;
pub mod elements;
pub mod keys;
pub mod matches;
pub mod stretch;
pub mod text_elements;
pub mod text_window;
mod window_match;

pub use completeness::is_complete;
pub use elements::{Elements, elements_of};
pub use keys::Keys;
pub use matches::{Match, matches_of, matches_of_points};
pub use stretch::{joins_nothing, put_stretch};
pub use text_elements::{ANY_TEXT, TextElements, read_text};
