//! The commands of `uca` as functions of bytes.
//!
//! [`job_of`] reads a command line, and [`perform`] does the job that it requests: it reads its input from
//! a [`uca_weights::Reader`], checks all of it, and only then writes to a [`uca_weights::Writer`].
#![tactic(auto)]

mod built_in_table;
pub mod performing;
mod rule_file;

pub use built_in_table::built_in;
pub use performing::{perform, status_of};
pub use uca_commands::{CliFault, InputCause, InputFault, RulesTextCause, commands, faults, order};
pub use uca_conform::{ConformCause, ConformFault, Conformance, conform};
pub use uca_job::{Job, JobFault, Task, job_of};
