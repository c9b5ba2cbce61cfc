//! Test files like the Unicode Consortium's CollationTest files: [`conform`] compares each test line with
//! the one before it, and reports how many lines there are, how many of them were not compared, and the first one that
//! is out of order.
#![tactic(auto)]

mod comparison;
pub mod conforming;
mod test_line;
mod test_text;

pub use conforming::{ConformCause, ConformFault, Conformance, conform};
