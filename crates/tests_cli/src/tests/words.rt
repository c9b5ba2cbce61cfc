//! From the words of a command line to the bytes that are written.
use super::given::whole;
use super::wants_memory;
use std::alloc::Global;
use uca_cli::{CliFault, Job, JobFault, Task, job_of, perform};
use uca_testing::{Expecting, Pieces};
use uca_weights::{Strength, WriteCause};

const IDENTICAL: [&str; 3] = ["key", "--strength", "identical"];

/// The key of `a`, and after it the code point.
const KEY: &[u8] = b"10 00 00 00 00 20 00 00 00 02 00 00 00 00 00 00 61\n";

/// The job that words request, tried again where memory was refused.
fn job_again(alloc: Global, words: &[&str]) -> Result<Job, JobFault> {
    match job_of(alloc, words) {
        Err(JobFault::OutOfMemory) => job_of(alloc, words),
        answer => answer,
    }
}

/// Does a job with the built-in table and the line `a`.
fn perform_over(alloc: Global, job: &Job, writer: &mut Expecting) -> Result<u8, CliFault> {
    let table: Option<&mut Pieces> = None;
    let rules: Option<&mut Pieces> = None;
    perform(alloc, job, table, rules, &mut whole(b"a\n"), writer)
}

/// Whether a job writes exactly the key. It is tried again where memory was refused.
fn writes_key(alloc: Global, job: &Job) -> bool {
    let begun = Expecting::new(KEY, usize::MAX, WriteCause::Failed);
    let mut writer = begun;
    let mut answer = perform_over(alloc, job, &mut writer);
    if wants_memory(&answer) {
        writer = begun;
        answer = perform_over(alloc, job, &mut writer);
    }
    answer == Ok(0) && writer.left() == Some(0)
}

#[test]
fn words_ask_for_the_identical_level(rt: HostRuntime) {
    let job = job_again(rt.alloc(), &IDENTICAL).ok().expect(&rt, "a job");
    assert!(rt; job.command == Task::Key);
    assert!(rt; job.strength == Strength::Identical);
    assert!(rt; writes_key(rt.alloc(), &job));
}
