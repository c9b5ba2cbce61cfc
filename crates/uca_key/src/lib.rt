//! Sort keys (UTS #10, section 7.3, Form Sort Keys).
//!
//! [`key_of`] makes the key of a text at all strengths, and under all options of variable weighting; a [`KeyMaker`] makes
//! the keys of many texts. [`PackedKeys`] makes packed keys, which are in the same order. [`write_key`] writes the bytes of a sort
//! key to a writer, and does not allocate. [`prefix_bounds`] gives the two ends between which an index has the keys of all texts
//! whose primary weights begin with those of a text.
#![tactic(auto)]

pub mod bounds;
pub mod common_characters;
mod form;
pub mod key_maker;
pub mod keys;
mod level_bytes;
pub mod packed_code;
pub mod packed_keys;
pub mod packed_laws;
mod packed_levels;
mod pieces;
pub mod placing;
mod runs;
pub mod streaming;
mod weighing;
mod weight_bytes;
mod weight_codes;
mod windows;

pub use bounds::{PrefixBounds, prefix_bounds};
pub use key_maker::KeyMaker;
pub use keys::key_of;
pub use packed_code::PackedCode;
pub use packed_keys::{
    PackedKeys, packed_key_by, packed_key_of, packed_prefix_bounds, put_packed_key,
};
pub use placing::{SHORT, copy_front, put_key};
pub use streaming::{KeyFault, write_key};
