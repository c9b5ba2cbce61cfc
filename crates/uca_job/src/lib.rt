//! The command line of `uca`: its words, and the job that they request.
#![tactic(auto)]

pub mod job;

pub use job::{Job, JobFault, Task, job_of};
