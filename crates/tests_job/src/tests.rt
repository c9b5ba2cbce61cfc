use std::alloc::{AllocError, Global};
use std::process::Abort;
use std::test::Fail;
use uca_job::{Job, JobFault, Task, job_of};
use uca_weights::{Strength, Variable};

/// The commands by their names.
static COMMANDS: [(&str, Task); 7] = [
    ("elements", Task::Elements),
    ("key", Task::Key),
    ("compare", Task::Compare),
    ("order", Task::Order),
    ("check", Task::Check),
    ("lint", Task::Lint),
    ("table", Task::Table),
];

/// What an option of the command line sets.
#[derive(Clone, Copy)]
enum Setting {
    Strength(Strength),
    Weighting(Variable),
    Raw,
    Table(&'static str),
    Rules(&'static str),
    Ideographs(char, char),
}

/// What a job has besides its command.
#[derive(Clone, Copy)]
struct Options {
    strength: Strength,
    weighting: Variable,
    raw: bool,
    table: Option<&'static str>,
    rules: Option<&'static str>,
    ideographs: Option<(char, char)>,
}

// What a command has with these settings, and with the built-in table where none of them names another.
fn options_with(settings: &[Setting]) -> Options {
    let mut options = Options {
        strength: Strength::Tertiary,
        weighting: Variable::NonIgnorable,
        raw: false,
        table: None,
        rules: None,
        ideographs: None,
    };
    for setting in settings {
        match *setting {
            Setting::Strength(strength) => options.strength = strength,
            Setting::Weighting(weighting) => options.weighting = weighting,
            Setting::Raw => options.raw = true,
            Setting::Table(path) => options.table = Some(path),
            Setting::Rules(path) => options.rules = Some(path),
            Setting::Ideographs(first, last) => options.ideographs = Some((first, last)),
        }
    }
    options
}

// Tries again where memory was refused.
fn job_again(alloc: Global, words: &[&str]) -> Result<Job, JobFault> {
    match job_of(alloc, words) {
        Err(JobFault::OutOfMemory) => job_of(alloc, words),
        answer => answer,
    }
}

// A line's words, with a bar between each pair.
fn words_of<'a>(alloc: Global, line: &'a str) -> Result<Vec<&'a str>, AllocError> {
    line.split('|').collect(alloc)
}

// What a line of words requests.
fn job_by(alloc: Global, line: &str) -> Result<Result<Job, JobFault>, AllocError> {
    let words = words_of(alloc, line)?;
    Ok(job_again(alloc, &words))
}

// What a command and a line of words after it request.
fn job_after(
    alloc: Global,
    command: &str,
    line: &str,
) -> Result<Result<Job, JobFault>, AllocError> {
    let mut words = words_of(alloc, line)?;
    words.insert(0, command)?;
    Ok(job_again(alloc, &words))
}

// The answer is a job, and has this command and these options.
fn is_job(answer: Result<Job, JobFault>, task: Task, options: &Options) -> bool {
    let Ok(job) = answer else {
        return false;
    };
    // Each field is named, so that a further one can't be left out.
    let Job {
        command,
        strength,
        weighting,
        raw,
        table,
        rules,
        ideographs,
    } = &job;
    *command == task
        && *strength == options.strength
        && *weighting == options.weighting
        && *raw == options.raw
        && table.as_deref() == options.table
        && rules.as_deref() == options.rules
        && *ideographs == options.ideographs
}

// The answer is a text for the user, not an allocation failure.
fn is_refusal(answer: Result<Job, JobFault>) -> bool {
    match answer {
        Err(JobFault::Usage(text)) => !text.is_empty() && !text.ends_with('\n'),
        _ => false,
    }
}

// Checks what a line of words requests.
fn assert_asks(
    rt: &impl Abort,
    alloc: Global,
    line: &str,
    command: Task,
    settings: &[Setting],
) -> Result<(), Fail> {
    let answer = job_by(alloc, line)?;
    assert!(rt; is_job(answer, command, &options_with(settings)), "{line}");
    Ok(())
}

// Checks what a line of words requests after each command.
fn assert_each_asks(
    rt: &impl Abort,
    alloc: Global,
    line: &str,
    options: &Options,
) -> Result<(), Fail> {
    for (name, command) in &COMMANDS {
        let answer = job_after(alloc, name, line)?;
        assert!(rt; is_job(answer, *command, options), "{name} {line}");
    }
    Ok(())
}

// Checks whether each command takes each of these words, and has what they set.
fn assert_each_takes(rt: &impl Abort, alloc: Global, rows: &[(&str, Setting)]) -> Result<(), Fail> {
    for (line, setting) in rows {
        assert_each_asks(rt, alloc, line, &options_with(&[*setting]))?;
    }
    Ok(())
}

// Checks whether each line of words is refused.
fn assert_refused(rt: &impl Abort, alloc: Global, lines: &[&str]) -> Result<(), Fail> {
    for line in lines {
        assert!(rt; is_refusal(job_by(alloc, line)?), "{line}");
    }
    Ok(())
}

// Checks whether each line of words is refused after this command.
fn assert_refused_after(
    rt: &impl Abort,
    alloc: Global,
    command: &str,
    lines: &[&str],
) -> Result<(), Fail> {
    for line in lines {
        assert!(rt;
            is_refusal(job_after(alloc, command, line)?),
            "{command} {line}"
        );
    }
    Ok(())
}

// Checks whether each line of words is refused after each command.
fn assert_each_refuses(rt: &impl Abort, alloc: Global, lines: &[&str]) -> Result<(), Fail> {
    for (name, _) in &COMMANDS {
        assert_refused_after(rt, alloc, name, lines)?;
    }
    Ok(())
}

// Checks the text that a fault shows.
fn assert_shows(
    rt: &impl Abort,
    alloc: Global,
    fault: &JobFault,
    wanted: &str,
) -> Result<(), Fail> {
    let text = fault.to_string(alloc)?;
    assert!(rt; text.as_str() == wanted, "{text}");
    Ok(())
}

#[test]
fn a_command_alone_has_the_defaults(rt: HostRuntime) -> Result<(), Fail> {
    for (name, command) in &COMMANDS {
        assert_asks(&rt, rt.alloc(), name, *command, &[])?;
    }
    Ok(())
}

/// Options that name a strength.
static STRENGTHS: [(&str, Setting); 10] = [
    ("--strength|primary", Setting::Strength(Strength::Primary)),
    ("--strength=primary", Setting::Strength(Strength::Primary)),
    (
        "--strength|secondary",
        Setting::Strength(Strength::Secondary),
    ),
    (
        "--strength=secondary",
        Setting::Strength(Strength::Secondary),
    ),
    ("--strength|tertiary", Setting::Strength(Strength::Tertiary)),
    ("--strength=tertiary", Setting::Strength(Strength::Tertiary)),
    (
        "--strength|quaternary",
        Setting::Strength(Strength::Quaternary),
    ),
    (
        "--strength=quaternary",
        Setting::Strength(Strength::Quaternary),
    ),
    (
        "--strength|identical",
        Setting::Strength(Strength::Identical),
    ),
    (
        "--strength=identical",
        Setting::Strength(Strength::Identical),
    ),
];

#[test]
fn each_command_takes_each_strength(rt: HostRuntime) -> Result<(), Fail> {
    assert_each_takes(&rt, rt.alloc(), &STRENGTHS)
}

/// Options that name a weighting of variable elements.
static WEIGHTINGS: [(&str, Setting); 6] = [
    (
        "--variable|non-ignorable",
        Setting::Weighting(Variable::NonIgnorable),
    ),
    (
        "--variable=non-ignorable",
        Setting::Weighting(Variable::NonIgnorable),
    ),
    ("--variable|blanked", Setting::Weighting(Variable::Blanked)),
    ("--variable=blanked", Setting::Weighting(Variable::Blanked)),
    ("--variable|shifted", Setting::Weighting(Variable::Shifted)),
    ("--variable=shifted", Setting::Weighting(Variable::Shifted)),
];

#[test]
fn each_command_takes_each_weighting(rt: HostRuntime) -> Result<(), Fail> {
    assert_each_takes(&rt, rt.alloc(), &WEIGHTINGS)
}

/// Options that name a table, and its path.
static TABLES: [(&str, Setting); 5] = [
    ("--table|a b.txt", Setting::Table("a b.txt")),
    ("--table=F", Setting::Table("F")),
    ("--table|table", Setting::Table("table")),
    ("--table=", Setting::Table("")),
    // A value may be spelled like a flag.
    ("--table=--raw", Setting::Table("--raw")),
];

#[test]
fn each_command_has_the_path_of_its_table(rt: HostRuntime) -> Result<(), Fail> {
    assert_each_takes(&rt, rt.alloc(), &TABLES)
}

/// Options that name rules, and their path.
static RULES: [(&str, Setting); 2] = [
    ("--rules|a b.txt", Setting::Rules("a b.txt")),
    ("--rules=F", Setting::Rules("F")),
];

#[test]
fn each_command_has_the_path_of_its_rules(rt: HostRuntime) -> Result<(), Fail> {
    assert_each_takes(&rt, rt.alloc(), &RULES)
}

/// Values of `--ideographs`, and the range that each spells.
static RANGES: [(&str, Setting); 4] = [
    (
        "--ideographs|323B0..33479",
        Setting::Ideographs('\u{323B0}', '\u{33479}'),
    ),
    (
        "--ideographs|0061..10ffff",
        Setting::Ideographs('a', '\u{10FFFF}'),
    ),
    // Its ends may be the wrong way round: the table refuses that.
    (
        "--ideographs|4E01..04E00",
        Setting::Ideographs('\u{4E01}', '\u{4E00}'),
    ),
    (
        "--ideographs|E000..D7FF",
        Setting::Ideographs('\u{E000}', '\u{D7FF}'),
    ),
];

#[test]
fn each_command_takes_a_range_of_ideographs(rt: HostRuntime) -> Result<(), Fail> {
    assert_each_takes(&rt, rt.alloc(), &RANGES)
}

/// Values of `--ideographs` that spell no range.
static NO_RANGES: [&str; 19] = [
    "",
    "..",
    "323B0",
    "323B0..",
    "..33479",
    "323B0.33479",
    "323B0...33479",
    "323B0 ..33479",
    "323B0.. 33479",
    "323B0..33479 ",
    "061..0062",
    "0061..0000062",
    "0061..110000",
    "D800..E000",
    "0061..DFFF",
    "0061..006G",
    "U+0061..U+0062",
    "0061..0062..0063",
    "0061,.0062",
];

// Checks whether a value of `--ideographs` is refused.
fn assert_no_range(rt: &impl Abort, alloc: Global, value: &str) {
    let answer = job_again(alloc, &["key", "--ideographs", value]);
    assert!(rt; matches!(answer, Err(JobFault::BadIdeographs)), "{value:?}");
}

#[test]
fn a_value_that_spells_no_range_is_refused(rt: HostRuntime) -> Result<(), Fail> {
    let alloc = rt.alloc();
    for value in &NO_RANGES {
        assert_no_range(&rt, alloc, value);
    }
    assert_shows(
        &rt,
        alloc,
        &JobFault::BadIdeographs,
        "uca: --ideographs: BadIdeographs",
    )
}

/// Words with a value that spells no range, or with none, and with another mistake.
static OTHER_MISTAKES: [&str; 3] = [
    "key|--ideographs|x|--strength|third",
    "key|--ideographs|0061..0062|--ideographs|0061..0062",
    "key|--ideographs",
];

#[test]
fn other_mistakes_come_before_a_value_that_spells_no_range(rt: HostRuntime) -> Result<(), Fail> {
    assert_refused(&rt, rt.alloc(), &OTHER_MISTAKES)
}

/// The words of one job in several orders.
static ORDERS: [&str; 3] = [
    "key|--variable|shifted|--strength|quaternary",
    "key|--strength|quaternary|--variable|shifted",
    "key|--strength=quaternary|--variable=shifted|--",
];

/// What they request.
static ORDERED: [Setting; 2] = [
    Setting::Strength(Strength::Quaternary),
    Setting::Weighting(Variable::Shifted),
];

#[test]
fn options_come_in_any_order(rt: HostRuntime) -> Result<(), Fail> {
    for line in &ORDERS {
        assert_asks(&rt, rt.alloc(), line, Task::Key, &ORDERED)?;
    }
    Ok(())
}

/// A strength, a weighting, a table and rules.
static ALL_AT_ONCE: [Setting; 4] = [
    Setting::Strength(Strength::Primary),
    Setting::Weighting(Variable::Blanked),
    Setting::Table("F"),
    Setting::Rules("G"),
];

#[test]
fn a_job_has_all_options_at_once(rt: HostRuntime) -> Result<(), Fail> {
    let line = "elements|--rules=G|--variable=blanked|--table=F|--strength=primary";
    assert_asks(&rt, rt.alloc(), line, Task::Elements, &ALL_AT_ONCE)
}

#[test]
fn clap_takes_a_lone_double_dash(rt: HostRuntime) -> Result<(), Fail> {
    assert_asks(&rt, rt.alloc(), "key|--", Task::Key, &[])
}

/// Words without a command, or with a command after an option.
static NO_COMMANDS: [&str; 11] = [
    "",
    "sort",
    "sort|--strength|primary",
    "uca|key",
    "Key",
    "ke",
    "--version",
    "--strength|primary|key",
    "--variable=shifted|key",
    "--table|F|table",
    "--|key",
];

#[test]
fn words_without_a_command_are_refused(rt: HostRuntime) -> Result<(), Fail> {
    let alloc = rt.alloc();
    assert!(rt; is_refusal(job_again(alloc, &[])));
    assert_refused(&rt, alloc, &NO_COMMANDS)
}

/// Words that ask for help.
static HELP: [&str; 10] = [
    "--help",
    "-h",
    "help",
    "help|key",
    "key|-h",
    "elements|--help",
    "order|-h",
    "check|-h",
    "lint|--help",
    "table|--strength|primary|--help",
];

#[test]
fn requests_for_help_are_refused(rt: HostRuntime) -> Result<(), Fail> {
    assert_refused(&rt, rt.alloc(), &HELP)
}

/// Options with values that no option has.
static OTHER_VALUES: [&str; 11] = [
    "--strength|third",
    "--strength|Primary",
    "--strength|",
    "--strength|prim",
    "--strength|shifted",
    "--strength=primary,secondary",
    "--variable|ignorable",
    "--variable|Shifted",
    "--variable|",
    "--variable|NonIgnorable",
    "--variable=primary",
];

/// Words that no command takes.
static OTHER_WORDS: [&str; 18] = [
    "extra",
    "key",
    "--|extra",
    "--strength",
    "--variable",
    "--table",
    "--strength|--variable|shifted",
    "--strength|primary|--strength|primary",
    "--variable=blanked|--variable=shifted",
    "--table|F|--table|F",
    "--table|F|G",
    "--stren|primary",
    "--tab|F",
    "-s|primary",
    "--rules",
    "--rules|F|--rules|F",
    "--rule|F",
    "--raw=true",
];

#[test]
fn other_values_are_refused(rt: HostRuntime) -> Result<(), Fail> {
    assert_each_refuses(&rt, rt.alloc(), &OTHER_VALUES)
}

#[test]
fn other_words_after_a_command_are_refused(rt: HostRuntime) -> Result<(), Fail> {
    assert_each_refuses(&rt, rt.alloc(), &OTHER_WORDS)
}

/// Words with the flag `--raw` at which no command has it, or not so.
static OTHER_FLAGS: [&str; 10] = [
    "key|--raw|--raw",
    "key|--raw|true",
    "key|--raw=",
    "--raw|key",
    "elements|--raw",
    "compare|--raw",
    "order|--raw",
    "check|--raw",
    "lint|--raw",
    "table|--raw",
];

/// Words that ask for the key as its bytes.
static RAW_KEYS: [&str; 2] = [
    "key|--raw|--strength|primary",
    "key|--strength=primary|--raw",
];

/// What they request.
static RAW: [Setting; 2] = [Setting::Strength(Strength::Primary), Setting::Raw];

#[test]
fn the_key_may_be_asked_for_as_its_bytes(rt: HostRuntime) -> Result<(), Fail> {
    let alloc = rt.alloc();
    for line in &RAW_KEYS {
        assert_asks(&rt, alloc, line, Task::Key, &RAW)?;
    }
    assert_refused(&rt, alloc, &OTHER_FLAGS)
}

/// Words for a test where each growth is refused in turn: the answer after a refusal is the same too.
static ANY_WORDS: [&str; 8] = [
    "key",
    "order|--strength|primary",
    "lint|--rules=F",
    "table|--table|F",
    "elements|--strength=primary|--variable|shifted",
    "key|--strength|third",
    "key|extra",
    "--help",
];

// Whether words have the same answer twice.
fn is_same_twice(alloc: Global, words: &[&str]) -> bool {
    job_again(alloc, words) == job_again(alloc, words)
}

#[test]
fn a_refused_growth_changes_no_answer(rt: HostRuntime) -> Result<(), Fail> {
    for line in &ANY_WORDS {
        let words = words_of(rt.alloc(), line)?;
        assert!(rt; is_same_twice(rt.alloc(), &words), "{line}");
    }
    Ok(())
}

// Checks the text that the refusal of a line of words shows.
fn assert_refused_with(
    rt: &impl Abort,
    alloc: Global,
    line: &str,
    wanted: &str,
) -> Result<(), Fail> {
    match job_by(alloc, line)? {
        Ok(_) => assert!(rt; false, "{line}"),
        Err(fault) => assert_shows(rt, alloc, &fault, wanted)?,
    }
    Ok(())
}

#[test]
fn a_refusal_shows_the_text_of_clap(rt: HostRuntime) -> Result<(), Fail> {
    assert_refused_with(
        &rt,
        rt.alloc(),
        "key|extra",
        "error: unexpected argument 'extra' found\n\nUsage: uca key [OPTIONS]\n\nFor more information, try '--help'.",
    )
}

#[test]
fn a_refused_value_shows_the_allowed_names(rt: HostRuntime) -> Result<(), Fail> {
    assert_refused_with(
        &rt,
        rt.alloc(),
        "key|--strength|0",
        "error: invalid value '0' for '--strength <S>'\n  [possible values: primary, secondary, tertiary, quaternary, identical]\n\nFor more information, try '--help'.",
    )?;
    assert_refused_with(
        &rt,
        rt.alloc(),
        "table|--variable=0",
        "error: invalid value '0' for '--variable <V>'\n  [possible values: non-ignorable, blanked, shifted]\n\nFor more information, try '--help'.",
    )
}

#[test]
fn an_allocation_failure_shows_its_name(rt: HostRuntime) -> Result<(), Fail> {
    assert_shows(&rt, rt.alloc(), &JobFault::OutOfMemory, "uca: OutOfMemory")
}
