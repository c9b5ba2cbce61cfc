//! The words of the command line, and the job that they request.
ghost use Rattle.std.specs.Prelude.{◌≡◌, ◌≢◌, ◌⊎◌, IfErr, IfOk, IsSome, IsSomeAnd, MatchResult, codes, false, fold, map, option_map, string_bytes};
ghost use Rattle.clap.specs.declared.builder.command.Command.TheViews.{out-Command};
ghost use Rattle.clap.specs.Words.{app_of, first_of, found_of, kind_of, rows_of, rule_of, subcommand_rows_of};
ghost use Rattle.uca_job.specs.declared.job.JobFault.TheVariants.{OutOfMemory};
ghost use Rattle.uca_job.specs.CommandLine.{IsJobFrom, IsJobOf, IsRefused, IsUsage, IsWithoutRange, LacksRange};
ghost use Rattle.uca_job.specs.CommandLine.{bare_program, choices_of, command_with, ideographs_option, range_spelled, raw_flag, raw_in, rules_option, strength_option, table_option, uca_with, variable_option, with_command, with_files, with_options, with_settings};
ghost use Rattle.uca_job.specs.CommandLine.{strength_in, strength_named, task_named, weighting_in, weighting_named};

use clap::error::ErrorKind;
use clap::{Arg, ArgAction, ArgMatches, Command};
use std::alloc::{AllocError, Global};
use thiserror::Error;
use uca_io::digits::code_point;
use uca_weights::{Strength, Variable};

/// The names that the options `--strength` and `--variable` take. `clap` borrows them.
#[derive(Clone, Copy)]
struct Choices<'a> {
    strengths: &'a [&'a str],
    weightings: &'a [&'a str],
}

/// The commands by their names, and what each does.
static COMMANDS: [(&str, &str); 7] = [
    (
        "elements",
        "Writes the collation elements of each line of the input",
    ),
    ("key", "Writes the sort key of each line of the input"),
    (
        "compare",
        "Writes the order of each line of the input against the line before it",
    ),
    (
        "order",
        "Writes the lines of the input in the order of their sort keys",
    ),
    (
        "check",
        "Reads a CollationTest file as its input, and writes how many lines it has and which one fails first",
    ),
    (
        "lint",
        "Writes which conditions of well-formedness the table breaks; reads no input",
    ),
    (
        "table",
        "Writes the collation element table as text; reads no input",
    ),
];

/// The names that the option `--strength` takes.
static STRENGTHS: [&str; 5] = [
    "primary",
    "secondary",
    "tertiary",
    "quaternary",
    "identical",
];

/// The names that the option `--variable` takes.
static WEIGHTINGS: [&str; 3] = ["non-ignorable", "blanked", "shifted"];

/// What the program does with its input.
#[derive(Clone, Copy, Debug, PartialEq, Eq)]
pub enum Task {
    /// Writes the collation elements of each line (UTS #10, section 7.2).
    Elements,
    /// Writes the sort key of each line (UTS #10, section 7.3).
    Key,
    /// Writes the order of each pair of neighbouring lines (UTS #10, section 7.4).
    Compare,
    /// Writes the lines in the order of their sort keys.
    Order,
    /// Writes how the table sorts a test file like the Unicode Consortium's CollationTest files.
    Check,
    /// Writes which conditions of well-formedness the table breaks (UTS #10, section 5).
    Lint,
    /// Writes the collation element table as text.
    Table,
}

/// What the words of a command line request.
#[derive(Debug, PartialEq, Eq, Drop)]
pub struct Job {
    pub command: Task,
    pub strength: Strength,
    pub weighting: Variable,
    /// Whether the key of the input's one line is written as its bytes. Only [`Task::Key`] looks at it.
    pub raw: bool,
    /// The path of the table's file. Without one, the built-in table is used.
    pub table: Option<String>,
    /// The path of the file of rules. Without one, the table is used as it is.
    pub rules: Option<String>,
    /// The first and the last of a range of further unified ideographs, which the table gets before it is tailored.
    pub ideographs: Option<(char, char)>,
}

/// Why the words are not a job.
#[derive(Debug, PartialEq, Eq, Drop, Error)]
pub enum JobFault {
    /// The words are refused, or ask for help. The text is clap's, without the LF that ends it.
    #[error("{0}")]
    Usage(String),
    /// An allocation failed.
    #[error("uca: OutOfMemory")]
    OutOfMemory,
    /// The value of `--ideographs` is not two code points with `..` between.
    #[error("uca: --ideographs: BadIdeographs")]
    BadIdeographs,
}

impl From<AllocError> for JobFault {
    ghost from_gives = { λ _ fault. fault ≡ OutOfMemory };

    fn from(_refused: AllocError) -> JobFault {
        JobFault::OutOfMemory
    }
}

/// The job that the words after the program's name request. What they name is decided by `clap`. Where no option says
/// otherwise, the comparison is tertiary and leaves variable elements as they are.
pub fn job_of(alloc: Global, words: &[&str]) -> Result<Job, JobFault>
    ensures job { IfOk result (IsJobOf (map (λ w. w.now) words.now)) }
    ensures usage { IfErr result (λ f. IsUsage f → IsRefused (map (λ w. w.now) words.now)) }
    ensures ideographs { IfErr result (λ f. f ≡ JobFault.BadIdeographs → IsWithoutRange (map (λ w. w.now) words.now)) }
{
    let choices = Choices {
        strengths: STRENGTHS.as_slice(),
        weightings: WEIGHTINGS.as_slice(),
    };
    let command = uca_command(alloc, choices)?;
    match command.try_get_matches_from(words) {
        Ok(matches) => job_from(alloc, &matches),
        Err(error) => Err(fault_from(alloc, &error)),
    }
}

// The program with its commands.
fn uca_command<'a>(alloc: Global, choices: Choices<'a>) -> Result<Command<'a>, AllocError>
    ensures { IfOk result (λ c. app_of c
        ≡ uca_with (choices_of choices.entry)) }
{
    let program = bare_program(alloc)?;
    with_commands(alloc, program, choices, COMMANDS.as_slice())
}

// A program with more commands, each by its name and by what it does.
fn with_commands<'a>(
    alloc: Global,
    program: Command<'a>,
    choices: Choices<'a>,
    commands: &'a [(&'a str, &'a str)],
) -> Result<Command<'a>, AllocError>
    ensures { IfOk result (λ c. app_of c
        ≡ fold (with_command (choices_of choices.entry)) (app_of program.entry) (map (λ row. row.0.now) commands.now)) }
{
    let mut extended = program;
    for (name, about) in commands {
        extended = with_command(alloc, extended, name, about, choices)?;
    }
    Ok(extended)
}

// The program without its commands. The words come without its name, so usage lines are given it.
fn bare_program<'a>(alloc: Global) -> Result<Command<'a>, AllocError>
    ensures { IfOk result (λ c. app_of c ≡ bare_program) }
{
    let named = Command::new(alloc, "uca")
        .about(
            "Sorts and compares lines of text by the Unicode Collation Algorithm: reads standard input, and writes to standard output",
        )
        .bin_name("uca")?;
    Ok(named.no_binary_name(true).subcommand_required(true))
}

// A program with one more command.
fn with_command<'a>(
    alloc: Global,
    program: Command<'a>,
    name: &'a str,
    about: &'a str,
    choices: Choices<'a>,
) -> Result<Command<'a>, AllocError>
    ensures { IfOk result (λ c. app_of c
        ≡ with_command (choices_of choices.entry) (app_of program.entry) name.entry.now) }
{
    let added = command(alloc, name, about, choices)?;
    program.subcommand(added)
}

// A command. Each takes all options, even those that it ignores, and `key` also a flag.
fn command<'a>(
    alloc: Global,
    name: &'a str,
    about: &'a str,
    choices: Choices<'a>,
) -> Result<Command<'a>, AllocError>
    ensures app { IfOk result (λ c. app_of c
        ≡ command_with (choices_of choices.entry) name.entry.now) }
    ensures local { IfOk result (λ c. (out-Command c).has_globals ≡ false) }
{
    let plain = with_options(alloc, name, about, choices)?;
    if name == "key" {
        plain.arg(raw_flag(alloc))
    } else {
        Ok(plain)
    }
}

// A command with the options that each takes.
fn with_options<'a>(
    alloc: Global,
    name: &'a str,
    about: &'a str,
    choices: Choices<'a>,
) -> Result<Command<'a>, AllocError>
    ensures app { IfOk result (λ c. app_of c ≡ with_options (choices_of choices.entry) name.entry.now) }
    ensures local { IfOk result (λ c. (out-Command c).has_globals ≡ false) }
{
    with_settings(alloc, name, about, choices)?.arg(ideographs_option(alloc))
}

// A command with the options that name files and settings.
fn with_settings<'a>(
    alloc: Global,
    name: &'a str,
    about: &'a str,
    choices: Choices<'a>,
) -> Result<Command<'a>, AllocError>
    ensures app { IfOk result (λ c. app_of c
        ≡ with_settings (choices_of choices.entry) name.entry.now) }
    ensures local { IfOk result (λ c. (out-Command c).has_globals ≡ false) }
{
    with_files(alloc, name, about)?
        .arg(strength_option(alloc, choices.strengths))?
        .arg(variable_option(alloc, choices.weightings))
}

// A command with the options that name files.
fn with_files<'a>(alloc: Global, name: &'a str, about: &'a str) -> Result<Command<'a>, AllocError>
    ensures app { IfOk result (λ c. app_of c ≡ with_files name.entry.now) }
    ensures local { IfOk result (λ c. (out-Command c).has_globals ≡ false) }
{
    Command::new(alloc, name)
        .about(about)
        .arg(table_option(alloc))?
        .arg(rules_option(alloc))
}

// The flag `--raw`.
fn raw_flag<'a>(alloc: Global) -> Arg<'a>
    ensures rule { rule_of result ≡ raw_flag }
    ensures local { result.global ≡ false }
{
    Arg::new(alloc, "raw")
        .long("raw")
        .help("Writes the bytes of the key of the one line, and not digits")
        .action(ArgAction::SetTrue)
}

// The option `--table FILE`.
fn table_option<'a>(alloc: Global) -> Arg<'a>
    ensures rule { rule_of result ≡ table_option }
    ensures local { result.global ≡ false }
{
    Arg::new(alloc, "table")
        .long("table")
        .value_name("FILE")
        .help("The table's file, in place of the built-in table")
}

// The option `--rules FILE`.
fn rules_option<'a>(alloc: Global) -> Arg<'a>
    ensures rule { rule_of result ≡ rules_option }
    ensures local { result.global ≡ false }
{
    Arg::new(alloc, "rules")
        .long("rules")
        .value_name("FILE")
        .help("The file of rules that tailor the table")
}

// The option `--strength S`.
fn strength_option<'a>(alloc: Global, names: &'a [&'a str]) -> Arg<'a>
    ensures rule { rule_of result ≡ strength_option names.entry }
    ensures local { result.global ≡ false }
{
    Arg::new(alloc, "strength")
        .long("strength")
        .value_name("S")
        .help("The last level that is compared")
        .value_parser(names)
        .default_value("tertiary")
}

// The option `--variable V`.
fn variable_option<'a>(alloc: Global, names: &'a [&'a str]) -> Arg<'a>
    ensures rule { rule_of result ≡ variable_option names.entry }
    ensures local { result.global ≡ false }
{
    Arg::new(alloc, "variable")
        .long("variable")
        .value_name("V")
        .help("How variable elements are weighted")
        .value_parser(names)
        .default_value("non-ignorable")
}

// The option `--ideographs A..B`.
fn ideographs_option<'a>(alloc: Global) -> Arg<'a>
    ensures rule { rule_of result ≡ ideographs_option }
    ensures local { result.global ≡ false }
{
    Arg::new(alloc, "ideographs")
        .long("ideographs")
        .value_name("A..B")
        .help("A range of further unified ideographs, by code points, as 323B0..33479")
}

// The task of the command of this name.
fn task_named(name: &str) -> Option<Task>
    ensures { result ≡ task_named name.now }
{
    match name {
        "elements" => Some(Task::Elements),
        "key" => Some(Task::Key),
        "compare" => Some(Task::Compare),
        "order" => Some(Task::Order),
        "check" => Some(Task::Check),
        "lint" => Some(Task::Lint),
        "table" => Some(Task::Table),
        _ => None,
    }
}

// The strength of this name.
fn strength_named(name: &str) -> Option<Strength>
    ensures { result ≡ strength_named name.now }
{
    match name {
        "primary" => Some(Strength::Primary),
        "secondary" => Some(Strength::Secondary),
        "tertiary" => Some(Strength::Tertiary),
        "quaternary" => Some(Strength::Quaternary),
        "identical" => Some(Strength::Identical),
        _ => None,
    }
}

// The way of weighting variable elements that has this name.
fn weighting_named(name: &str) -> Option<Variable>
    ensures { result ≡ weighting_named name.now }
{
    match name {
        "non-ignorable" => Some(Variable::NonIgnorable),
        "blanked" => Some(Variable::Blanked),
        "shifted" => Some(Variable::Shifted),
        _ => None,
    }
}

// The job of the command that was met. There is one, since the program requires it, and each has its task.
fn job_from(alloc: Global, matches: &ArgMatches<'_>) -> Result<Job, JobFault>
    requires { IsSomeAnd (subcommand_rows_of matches.now) (λ found. IsSome (task_named found.0)) }
    ensures job { IfOk result (λ job. IsSomeAnd (subcommand_rows_of matches.now) (IsJobFrom job)) }
    ensures fault { IfErr result (λ f. (f ≡ JobFault.OutOfMemory) ⊎ ((f ≡ JobFault.BadIdeographs) × IsSomeAnd (subcommand_rows_of matches.now) LacksRange)) }
{
    let (name, options) = matches.subcommand().unwrap();
    let command = task_named(name).unwrap();
    Ok(Job {
        command,
        strength: strength_in(options),
        weighting: weighting_in(options),
        raw: raw_in(options),
        table: path_of(alloc, options, "table")?,
        rules: path_of(alloc, options, "rules")?,
        ideographs: ideographs_in(options)?,
    })
}

// The strength that the option names. `clap` lets only known names pass.
fn strength_in(options: &ArgMatches<'_>) -> Strength
    ensures { result ≡ strength_in (rows_of (found_of options.now)) }
{
    value_of(options, "strength")
        .and_then(strength_named)
        .unwrap_or(Strength::Tertiary)
}

// The weighting that the option names. `clap` lets only known names pass.
fn weighting_in(options: &ArgMatches<'_>) -> Variable
    ensures { result ≡ weighting_in (rows_of (found_of options.now)) }
{
    value_of(options, "variable")
        .and_then(weighting_named)
        .unwrap_or(Variable::NonIgnorable)
}

// Whether the flag was given. `clap` gives it the value `true` where it was.
fn raw_in(options: &ArgMatches<'_>) -> bool
    ensures { result ≡ raw_in (rows_of (found_of options.now)) }
{
    match value_of(options, "raw") {
        Some(value) => value == "true",
        None => false,
    }
}

// The range that the option gives.
fn ideographs_in(options: &ArgMatches<'_>) -> Result<Option<(char, char)>, JobFault>
    ensures { MatchResult result
        (λ range. option_map range_spelled (first_of (codes "ideographs") (rows_of (found_of options.now))) ≡ option_map Some range)
        (λ f. (f ≡ JobFault.BadIdeographs) × (option_map range_spelled (first_of (codes "ideographs") (rows_of (found_of options.now))) ≡ Some None)) }
{
    match value_of(options, "ideographs") {
        Some(value) => match range_spelled(value) {
            Some(range) => Ok(Some(range)),
            None => Err(JobFault::BadIdeographs),
        },
        None => Ok(None),
    }
}

// The two code points that are written with `..` between.
fn range_spelled(value: &str) -> Option<(char, char)>
    ensures { result ≡ range_spelled value.now }
{
    let (first, rest) = value.split_once('.')?;
    let last = rest.strip_prefix('.')?;
    let first = code_point(first.as_bytes())?;
    let last = code_point(last.as_bytes())?;
    Some((first, last))
}

// The path that an option names.
fn path_of(alloc: Global, options: &ArgMatches<'_>, id: &str) -> Result<Option<String>, AllocError>
    ensures { IfOk result (λ path. option_map string_bytes path ≡ first_of id.now (rows_of (found_of options.now))) }
{
    match value_of(options, id) {
        Some(path) => Ok(Some(String::from_str(alloc, path)?)),
        None => Ok(None),
    }
}

// The value of an option, where it was given or has a default.
fn value_of<'a>(options: &ArgMatches<'a>, id: &str) -> Option<&'a str>
    ensures { option_map (λ value. value.now) result ≡ first_of id.now (rows_of (found_of options.now)) }
{
    options.get_str(id)
}

// What an error of clap's is to the caller.
fn fault_from(alloc: Global, error: &clap::Error) -> JobFault
    ensures usage { IsUsage result → kind_of error.now ≢ ErrorKind.OutOfMemory }
    ensures own { result ≢ JobFault.BadIdeographs }
{
    if error.kind() == ErrorKind::OutOfMemory {
        return JobFault::OutOfMemory;
    }
    match usage_text(alloc, error) {
        Ok(text) => JobFault::Usage(text),
        Err(_) => JobFault::OutOfMemory,
    }
}

// The text of an error, without the LF that ends it.
fn usage_text(alloc: Global, error: &clap::Error) -> Result<String, AllocError> {
    let mut text = format!(in alloc; "{error}")?;
    if text.ends_with('\n') {
        text.pop();
    }
    Ok(text)
}
