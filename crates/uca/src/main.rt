//! The program `uca`: its arguments, its streams and its exit status. The work is done by `uca_cli`.
#![tactic(auto)]

use std::alloc::AllocError;
use std::env::VarError;
use std::fs::File;
use std::io::{ErrorKind, IsTerminal, Read, Stdin, Write};
use std::process::ExitCode;
use std::{env, fs, io};
use uca_cli::{CliFault, Job, JobFault, Task, job_of, perform, status_of};
use uca_weights::{Reading, Writing};

/// The variable of the environment that names the file of the table where `--table` does not.
const TABLE_VARIABLE: &str = "UCA_TABLE";

/// The exit status for invalid arguments.
const REFUSED_WORDS: u8 = 2;

/// The exit status for a job that failed.
const NOT_DONE: u8 = 3;

fn main(rt: HostRuntime) -> ExitCode {
    ExitCode::from(run(&rt))
}

/// Does what the command line requests, and returns the status.
fn run(rt: &HostRuntime) -> u8 {
    let words = match words_of(rt) {
        Ok(words) => words,
        Err(error) => return refuse_words(rt, &error),
    };
    let Ok(views) = views_of(rt, &words) else {
        return out_of_memory(rt);
    };
    match job_of(rt.alloc(), &views) {
        Ok(job) => do_job_with_default(rt, job),
        Err(fault) => refuse_job(rt, &fault),
    }
}

/// Does a job, with the table that the environment names where the job names none.
fn do_job_with_default(rt: &HostRuntime, mut job: Job) -> u8 {
    if job.table.is_none() {
        match env::var(rt, TABLE_VARIABLE) {
            Ok(path) if !path.is_empty() => job.table = Some(path),
            Ok(_) | Err(VarError::NotPresent) => {}
            Err(VarError::NotUnicode) => return refuse_variable(rt),
            Err(VarError::OutOfMemory) => return out_of_memory(rt),
        }
    }
    do_job(rt, &job)
}

/// Reports that the variable could not be read.
fn refuse_variable(rt: &HostRuntime) -> u8 {
    let _ = eprintln!(rt; "uca: {TABLE_VARIABLE} is not UTF-8");
    REFUSED_WORDS
}

/// The words after the program's name.
fn words_of(rt: &HostRuntime) -> io::Result<Vec<String>> {
    let mut all = env::args(rt)?;
    let _ = all.next();
    Ok(all.collect(rt.alloc())?)
}

fn views_of<'a>(rt: &HostRuntime, words: &'a [String]) -> Result<Vec<&'a str>, AllocError> {
    let mut views = Vec::new(rt.alloc());
    for word in words {
        views.push(word.as_str())?;
    }
    Ok(views)
}

/// Reports that the words could not be read.
fn refuse_words(rt: &HostRuntime, error: &io::Error) -> u8 {
    if error.kind() == ErrorKind::OutOfMemory {
        return out_of_memory(rt);
    }
    let _ = eprintln!(rt; "uca: a word of the command line is not UTF-8");
    REFUSED_WORDS
}

fn out_of_memory(rt: &HostRuntime) -> u8 {
    let _ = eprintln!(rt; "uca: OutOfMemory");
    NOT_DONE
}

/// Reports that the arguments are invalid.
fn refuse_job(rt: &HostRuntime, fault: &JobFault) -> u8 {
    let _ = eprintln!(rt; "{fault}");
    match fault {
        JobFault::Usage(_) | JobFault::BadIdeographs => REFUSED_WORDS,
        JobFault::OutOfMemory => NOT_DONE,
    }
}

/// A file that a job names could not be opened, which was reported.
#[derive(Drop)]
struct NotOpened;

/// Standard input, which is never read where it was closed: a file that was opened since may have taken its place.
#[derive(Drop)]
struct Input {
    stdin: Stdin,
    is_open: bool,
}

impl Input {
    /// Looks at standard input, before any file is opened.
    fn new(rt: &HostRuntime) -> Input {
        let mut stdin = rt.stdin();
        let is_open = stdin.read(&mut []).is_ok();
        Input { stdin, is_open }
    }

    /// Says on a terminal that the input comes from it. A failure to write that is ignored.
    fn announce(&self, rt: &HostRuntime, command: Task) {
        let is_read = match command {
            Task::Lint | Task::Table => false,
            _ => true,
        };
        if is_read && self.stdin.is_terminal() {
            let _ = eprintln!(rt;
                "uca: reads from the keyboard; Ctrl-D on a line of its own ends the input"
            );
        }
    }
}

impl Read for Input {
    fn read(&mut self, buf: &mut [u8]) -> io::Result<usize> {
        if self.is_open {
            self.stdin.read(buf)
        } else {
            Err(io::Error::from(ErrorKind::Other))
        }
    }
}

/// Opens the files that the job names, first that of the table and then that of the rules, and does the job.
fn do_job(rt: &HostRuntime, job: &Job) -> u8 {
    let standard_input = Input::new(rt);
    let Ok(mut table) = reader_of(rt, job.table.as_ref()) else {
        return NOT_DONE;
    };
    let Ok(mut rules) = reader_of(rt, job.rules.as_ref()) else {
        return NOT_DONE;
    };
    standard_input.announce(rt, job.command);
    let mut input = Reading::new(standard_input);
    perform_on_streams(rt, job, table.as_mut(), rules.as_mut(), &mut input)
}

/// Reports why a job failed, and returns the status.
fn report(rt: &HostRuntime, fault: &CliFault) -> u8 {
    let _ = eprintln!(rt; "{fault}");
    status_of(fault)
}

/// The reader of the file of this path, if there is one.
fn reader_of(rt: &HostRuntime, path: Option<&String>) -> Result<Option<Reading<File>>, NotOpened> {
    let Some(path) = path else {
        return Ok(None);
    };
    match fs::open(rt, path) {
        Ok(file) => Ok(Some(Reading::new(file))),
        Err(_) => {
            let _ = eprintln!(rt; "uca: cannot open {path}");
            Err(NotOpened)
        }
    }
}

/// Does a job on the standard streams, with the readers of the table and of the rules if there are any.
fn perform_on_streams(
    rt: &HostRuntime,
    job: &Job,
    table: Option<&mut Reading<File>>,
    rules: Option<&mut Reading<File>>,
    input: &mut Reading<Input>,
) -> u8 {
    let mut output = Writing::new(rt.stdout());
    match perform(rt.alloc(), job, table, rules, input, &mut output) {
        Ok(status) => flushed(rt, status),
        Err(fault) => report(rt, &fault),
    }
}

/// Flushes standard output, and returns the status.
fn flushed(rt: &HostRuntime, status: u8) -> u8 {
    if rt.stdout().flush().is_err() {
        let _ = eprintln!(rt; "uca: output: Failed");
        return NOT_DONE;
    }
    status
}
