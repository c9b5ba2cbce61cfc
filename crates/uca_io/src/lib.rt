//! Input and output of bytes: readers, writers, a buffer before a writer, and lines of bytes.
//!
//! [`Reader`] and [`Writer`] count the calls that failed, so that a caller can promise that a fault is
//! reported only where one occurred.
#![tactic(auto)]

pub mod digits;
mod hex;
pub mod limits;
pub mod line_reader;
pub mod lines;
pub mod output_buffer;
pub mod reader;
pub mod reading;
pub mod words;
pub mod writer;
pub mod writing;

pub use hex::send_hex;
pub use limits::{MAX_INPUT, MAX_LINE};
pub use line_reader::{LineCause, LineFault, LineSink, read_lines};
pub use output_buffer::{Buffer, OutputBlock, OutputBuffer};
pub use reader::{Reader, Reading, Refused};
pub use reading::{Stop, read_whole};
pub use writer::{WriteCause, WriteFault, Writer, Writing};
pub use writing::write_whole;
