//! Texts that are safe to read with bounded memory, and the window in which they are read.
//!
//! [`Passage::check`] takes a text whose runs of nonstarters are short (compare UAX #15, section 13, Stream-Safe Text
//! Format), and reports the place of the first long run in any other. [`Passage::of_bytes`] takes bytes that are such a text in
//! UTF-8, which [`is_text_line`] asks without making one, and [`Passage::of_checked`] takes those that were looked at before.
//! [`nfd_of`] is the NFD of such a text, as one list.
//! A [`Window`] reads the text character by character from a [`Source`] and shows its NFD piece by piece. What it has shown
//! and what it will still show are together the NFD of the whole text.
#![tactic(auto)]

mod ascii;
pub mod decomposition;
pub mod fault;
pub mod passage;
pub mod passage_source;
mod passing;
pub mod points;
pub mod source;
mod utf8;
pub mod window;

pub use decomposition::nfd_of;
pub use fault::TextFault;
pub use passage::{LongRun, Passage, is_text_line};
pub use passage_source::PassageSource;
pub use source::Source;
pub use window::Window;
