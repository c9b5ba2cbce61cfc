//! The commands of `uca`, each a function of a table, settings, an input and a writer, and why a command failed.
//!
//! A command checks its whole input before it writes anything.
#![tactic(auto)]

pub mod commands;
pub mod faults;
mod input;
pub mod input_fault;
mod keyed_line;
mod line_sort;
mod lines;
mod output;

pub use commands::order::order;
pub use faults::{CliFault, RulesTextCause};
pub use input::read_text_lines;
pub use input_fault::{InputCause, InputFault};
