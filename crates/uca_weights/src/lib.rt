//! Collation elements, the settings of a comparison, and the limits.
//!
//! The weights of an element are those of the table (UTS #10, section 3), and [`Weigher`] returns for each element of a list
//! its weights at the levels 1 to 4, by the option for variable elements (section 4). The readers and writers of
//! `uca_io` are re-exported, since most callers use both.
#![tactic(auto)]

pub mod element;
pub mod limits;
pub mod range;
pub mod settings;
pub mod weigher;

pub use element::Element;
pub use limits::{
    MAX_DECOMPOSITION, MAX_ELEMENTS, MAX_INPUT, MAX_KEY, MAX_LINE, MAX_LOOKAHEAD, MAX_RELATIONS,
    MAX_RULES, MAX_RUN,
};
pub use range::{Ideographs, Range};
pub use settings::{Settings, Strength, Variable};
pub use uca_io::{Reader, Reading, Refused, WriteCause, WriteFault, Writer, Writing, write_whole};
pub use weigher::Weigher;

#[cfg(test)]
mod tests;
