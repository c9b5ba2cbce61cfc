//! The rules of a job: the result of reading them, and the table that they tailor.
use super::given::{Given, failing, output_refused, whole};
use super::{PLAIN, assert_text, input_refused, plain_job, wants_memory};
use std::alloc::Global;
use std::test::Fail;
use uca_allkeys::{ReadCause, ReadFault};
use uca_cli::{CliFault, InputCause, RulesTextCause, Task, perform};
use uca_tailor::{RuleCause, RuleFault, TailorCause, TailorFault};
use uca_testing::{Expecting, Pieces, Repeating};
use uca_weights::{Reader, WriteCause};

/// A command with the built-in table and these rules. The reader of the input fails at its first call, so that a job that reads it
/// before the rules are taken fails.
fn ruled(command: Task, rules: &[u8]) -> Given<'_> {
    Given::new(command, failing()).by(whole(rules))
}

/// The result for the bytes of rules in a reader, tried again where memory was refused. The reader of the input and the
/// writer fail at their first calls.
fn answer_of<U: Reader + Copy>(alloc: Global, rules: U) -> Result<u8, CliFault> {
    let answer = answer_once(alloc, rules);
    if wants_memory(&answer) {
        return answer_once(alloc, rules);
    }
    answer
}

fn answer_once<U: Reader + Copy>(alloc: Global, mut rules: U) -> Result<u8, CliFault> {
    let job = plain_job(Task::Key, PLAIN);
    let table: Option<&mut Repeating> = None;
    let mut input = failing();
    let mut writer = Expecting::new(b"", 0, WriteCause::Failed);
    perform(
        alloc,
        &job,
        table,
        Some(&mut rules),
        &mut input,
        &mut writer,
    )
}

fn no_text(at: usize, cause: RulesTextCause) -> CliFault {
    CliFault::RulesText { at, cause }
}

/// Commands, rules, an input and the output.
const TAILORED: [(Task, &'static str, &'static str, &'static [u8]); 8] = [
    (
        Task::Key,
        "&c<<\u{E7}",
        "\u{E7}",
        b"10 02 00 00 00 21 00 00 00 02\n",
    ),
    // An implicit weight is the same before and after.
    (
        Task::Key,
        "",
        "\u{4E00}",
        b"FB 40 CE 00 00 00 00 20 00 00 00 02\n",
    ),
    (
        Task::Key,
        "&c<<\u{E7}",
        "\u{4E00}",
        b"FB 40 CE 00 00 00 00 20 00 00 00 02\n",
    ),
    (Task::Key, "", "a", b"10 00 00 00 00 20 00 00 00 02\n"),
    (
        Task::Key,
        "# nothing",
        "a",
        b"10 00 00 00 00 20 00 00 00 02\n",
    ),
    (
        Task::Elements,
        "&a<b &a<c",
        "abc",
        b"[.1000.0020.0002][.1002.0020.0002][.1001.0020.0002]\n",
    ),
    (Task::Compare, "&z<a", "z\na\nb", b"less\ngreater\n"),
    (Task::Compare, "", "z\na\nb", b"greater\nless\n"),
];

#[test]
fn rules_tailor_the_table_of_each_command(rt: HostRuntime) {
    let alloc = rt.alloc();
    for (command, rules, input, want) in &TAILORED {
        let given = Given::new(*command, whole(input.as_bytes())).by(whole(rules.as_bytes()));
        assert!(rt; given.writes(&rt, alloc, want), "{command:?} {rules}");
    }
}

#[test]
fn findings_are_those_of_the_tailored_table(rt: HostRuntime) {
    let alloc = rt.alloc();
    // What `lint` leaves unread cannot be read.
    assert!(rt; ruled(Task::Lint, b"&a<c").writes(&rt, alloc, b""));
    let given = ruled(Task::Lint, "&a<z\u{301}\u{308}".as_bytes());
    assert!(rt; given.comes_to(&rt, alloc, Ok(1), b"WF5\n"));
}

#[test]
fn rules_tailor_the_table_in_a_reader(rt: HostRuntime) {
    let want = b"0061 ; [.1000.0020.0002]\n0078 ; [.1000.0020.0003]\n";
    let given = Given::new(Task::Table, failing())
        .over(whole(b"0061 ; [.1000.0020.0002]\n"))
        .by(Pieces::new(b"&a<<<x", 1, 100));
    assert!(rt; given.writes(&rt, rt.alloc(), want));
}

#[test]
fn bytes_of_rules_that_are_no_text_are_refused(rt: HostRuntime) {
    let alloc = rt.alloc();
    let cases: [(&[u8], usize); 4] = [
        (b"&a\xFF", 2),
        (b"\xFF", 0),
        // The bytes are looked at before what they say.
        (b"a<\xC3", 2),
        ("&c<\u{E7}\u{E7}".as_bytes().split_at(6).0, 5),
    ];
    for (bytes, at) in cases {
        let fault = no_text(at, RulesTextCause::NotUtf8);
        let given = ruled(Task::Key, bytes);
        assert!(rt; given.is_refused(&rt, alloc, fault), "{bytes:?}");
    }
}

#[test]
fn rules_past_the_limit_are_refused(rt: HostRuntime) {
    let alloc = rt.alloc();
    let large = Err(no_text(1_048_576, RulesTextCause::TooLarge));
    let failed = Err(no_text(0, RulesTextCause::Read));
    let cases = [
        (usize::MAX, false, large),
        (1_048_577, false, large),
        // The byte too many comes before the failure, or the failure before it.
        (1_048_577, true, large),
        (1_048_576, true, failed),
    ];
    for (count, fails, want) in cases {
        let answer = answer_of(alloc, Repeating::new(b' ', count, fails));
        assert!(rt; answer == want, "{count} blanks");
    }
    assert!(rt; answer_of(alloc, Pieces::new(b"&a<b", 1, 3)) == failed);
}

/// Rules, and the cause and the byte of their first fault.
const FAULTY_RULES: [(&'static str, RuleCause, usize); 3] = [
    ("&a<", RuleCause::EmptyString, 3),
    ("&[before 1]a<x", RuleCause::LeftOut, 1),
    ("<a", RuleCause::Syntax, 0),
];

/// Rules that cannot be applied, and the cause and the number of the first relation that cannot.
const FAULTY_RELATIONS: [(&'static str, TailorCause, u64); 3] = [
    ("&\\u0001<x", TailorCause::SmallWeight, 1),
    ("&\u{4E00}<x", TailorCause::HighReset, 1),
    ("&a<b &\u{4E00}<x", TailorCause::HighReset, 2),
];

#[test]
fn the_first_fault_of_the_rules_is_reported_before_the_input_is_read(rt: HostRuntime) {
    let alloc = rt.alloc();
    for (rules, cause, at) in &FAULTY_RULES {
        let given = ruled(Task::Key, rules.as_bytes());
        let fault = CliFault::Rules(RuleFault {
            at: *at,
            cause: *cause,
        });
        assert!(rt; given.is_refused(&rt, alloc, fault), "{rules}");
    }
    for (rules, cause, relation) in &FAULTY_RELATIONS {
        let given = ruled(Task::Key, rules.as_bytes());
        let fault = CliFault::Tailor(TailorFault {
            relation: *relation,
            cause: *cause,
        });
        assert!(rt; given.is_refused(&rt, alloc, fault), "{rules}");
    }
}

#[test]
fn a_fault_of_the_table_comes_before_those_of_the_rules(rt: HostRuntime) {
    let given = Given::new(Task::Key, failing())
        .over(whole(b"0061"))
        .by(failing());
    let fault = CliFault::Table(ReadFault {
        line: 1,
        cause: ReadCause::NoSemicolon,
    });
    assert!(rt; given.is_refused(&rt, rt.alloc(), fault));
}

#[test]
fn faults_after_the_rules_are_reported(rt: HostRuntime) {
    let alloc = rt.alloc();
    let fault = input_refused(2, 1, InputCause::NotUtf8);
    let faulty = Given::new(Task::Key, whole(b"a\nb\xFF\n")).by(whole(b""));
    assert!(rt; faulty.is_refused(&rt, alloc, fault));
    let stopped = Given::new(Task::Key, whole(b"a")).by(whole(b""));
    let mut writer = Expecting::new(b"10 ", 3, WriteCause::Failed);
    let answer = stopped.answer(&rt, alloc, &mut writer);
    assert!(rt; answer == Err(output_refused(3, WriteCause::Failed)));
}

#[test]
fn faults_of_the_rules_have_their_texts(rt: HostRuntime) -> Result<(), Fail> {
    let alloc = rt.alloc();
    assert_text(
        &rt,
        alloc,
        no_text(2, RulesTextCause::NotUtf8),
        "uca: rules byte 2: NotUtf8",
    )?;
    assert_text(
        &rt,
        alloc,
        no_text(1_048_576, RulesTextCause::TooLarge),
        "uca: rules byte 1048576: TooLarge",
    )?;
    assert_text(
        &rt,
        alloc,
        no_text(0, RulesTextCause::Read),
        "uca: rules byte 0: Read",
    )?;
    assert_text(
        &rt,
        alloc,
        CliFault::Rules(RuleFault {
            at: 3,
            cause: RuleCause::EmptyString,
        }),
        "uca: rules byte 3: EmptyString",
    )?;
    assert_text(
        &rt,
        alloc,
        CliFault::Rules(RuleFault {
            at: 0,
            cause: RuleCause::OutOfMemory,
        }),
        "uca: OutOfMemory",
    )?;
    assert_text(
        &rt,
        alloc,
        CliFault::Tailor(TailorFault {
            relation: 1,
            cause: TailorCause::HighReset,
        }),
        "uca: rules relation 1: HighReset",
    )?;
    assert_text(
        &rt,
        alloc,
        CliFault::Tailor(TailorFault {
            relation: 20_000,
            cause: TailorCause::Full(3),
        }),
        "uca: rules relation 20000: Full 3",
    )?;
    assert_text(
        &rt,
        alloc,
        CliFault::Tailor(TailorFault {
            relation: 0,
            cause: TailorCause::OutOfMemory,
        }),
        "uca: OutOfMemory",
    )?;
    Ok(())
}
