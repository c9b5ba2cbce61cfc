//! The commands, one file each: it reads the input that the command needs, and writes its output.
pub mod check;
pub mod compare;
pub mod elements;
pub mod key;
pub mod lint;
pub mod order;
pub mod table;
