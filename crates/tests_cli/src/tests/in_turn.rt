//! Each read of a job fails in turn, and its output stops after each of its bytes.
use super::given::{Given, whole};
use super::input_refused;
use uca_allkeys::{ReadCause, ReadFault};
use uca_cli::{CliFault, ConformCause, ConformFault, InputCause, RulesTextCause, Task};
use uca_testing::{Pieces, WRITTEN_BY_HAND};
use uca_weights::WriteCause;

/// How many bytes of a table are read at once.
const STEP: usize = 16;

/// A command over a table, rules and an input, and what it returns and writes.
#[derive(Clone, Copy)]
struct Case {
    command: Task,
    raw: bool,
    table: &'static [u8],
    rules: &'static [u8],
    input: &'static [u8],
    status: u8,
    output: &'static [u8],
}

impl Case {
    /// The job, none of whose readers fails.
    fn given(&self) -> Given<'static> {
        Given {
            raw: self.raw,
            ..Given::new(self.command, whole(self.input))
        }
        .over(whole(self.table))
        .by(whole(self.rules))
    }

    /// Whether the command reads its input.
    fn reads_input(&self) -> bool {
        !matches!(self.command, Task::Lint | Task::Table)
    }

    /// The fault where a read of the input fails after these bytes.
    fn input_fault(&self, front: &[u8]) -> CliFault {
        match self.command {
            Task::Check => CliFault::Conform(ConformFault {
                line: line_after(front),
                cause: ConformCause::Read,
            }),
            _ => input_refused(0, 0, InputCause::Read),
        }
    }
}

/// Over the small table `a` comes after `z` by these rules.
const AFTER_Z: &[u8] = b"&z<a # and no more";

/// Each command, with a table and rules.
const CASES: [Case; 8] = [
    Case {
        command: Task::Elements,
        raw: false,
        table: WRITTEN_BY_HAND,
        rules: AFTER_Z,
        input: b"za\n\nA-",
        status: 0,
        output: b"[.1006.0020.0002][.1007.0020.0002]\n\n[.1000.0020.0008][*0202.0020.0002]\n",
    },
    Case {
        command: Task::Key,
        raw: false,
        table: WRITTEN_BY_HAND,
        rules: AFTER_Z,
        input: b"a\r\n\nA",
        status: 0,
        output: b"10 07 00 00 00 20 00 00 00 02\n00 00 00 00\n10 00 00 00 00 20 00 00 00 08\n",
    },
    Case {
        command: Task::Key,
        raw: true,
        table: WRITTEN_BY_HAND,
        rules: AFTER_Z,
        input: b"za\n",
        status: 0,
        output: &[0x10, 6, 0x10, 7, 0, 0, 0, 0x20, 0, 0x20, 0, 0, 0, 2, 0, 2],
    },
    Case {
        command: Task::Compare,
        raw: false,
        table: WRITTEN_BY_HAND,
        rules: AFTER_Z,
        input: b"z\na\nb\nb",
        status: 0,
        output: b"less\ngreater\nequal\n",
    },
    Case {
        command: Task::Order,
        raw: false,
        table: WRITTEN_BY_HAND,
        rules: AFTER_Z,
        input: b"a\nz\r\nb",
        status: 0,
        output: b"b\nz\na\n",
    },
    Case {
        command: Task::Check,
        raw: false,
        table: WRITTEN_BY_HAND,
        rules: AFTER_Z,
        input: b"007A\n0061;x\n# x\nD800\n0062",
        status: 1,
        output: b"lines 4\nskipped 1\nfirst failure 5\n",
    },
    Case {
        command: Task::Lint,
        raw: false,
        table: WRITTEN_BY_HAND,
        rules: b"&a<z\xCC\x81\xCC\x88",
        input: b"",
        status: 1,
        output: b"WF5\n",
    },
    Case {
        command: Task::Table,
        raw: false,
        table: b"0061 ; [.1000.0020.0002]\n# x",
        rules: b"&a<<<x",
        input: b"",
        status: 0,
        output: b"0061 ; [.1000.0020.0002]\n0078 ; [.1000.0020.0003]\n",
    },
];

/// The line in which a text goes on after these bytes.
fn line_after(front: &[u8]) -> u64 {
    front.split(|b| *b == b'\n').count() as u64
}

/// The bytes of a text that this many calls return.
fn front_of(text: &[u8], step: usize, calls: usize) -> &[u8] {
    &text[..calls.saturating_mul(step).min(text.len())]
}

#[test]
fn each_command_reads_its_texts_and_writes_its_output(rt: HostRuntime) {
    for case in &CASES {
        let given = case.given();
        assert!(rt;
            given.comes_to(&rt, rt.alloc(), Ok(case.status), case.output),
            "{:?}",
            case.command
        );
    }
}

#[test]
fn each_read_of_the_table_fails_in_turn(rt: HostRuntime) {
    for case in &CASES {
        // The last read finds the end.
        for calls in 0..=case.table.len().div_ceil(STEP) {
            let given = case.given().over(Pieces::new(case.table, STEP, calls));
            let fault = CliFault::Table(ReadFault {
                line: line_after(front_of(case.table, STEP, calls)),
                cause: ReadCause::Read,
            });
            assert!(rt;
                given.is_refused(&rt, rt.alloc(), fault),
                "{:?} after {calls} calls",
                case.command
            );
        }
    }
}

#[test]
fn each_read_of_the_rules_fails_in_turn(rt: HostRuntime) {
    let fault = CliFault::RulesText {
        at: 0,
        cause: RulesTextCause::Read,
    };
    for case in &CASES {
        for calls in 0..=case.rules.len() {
            let given = case.given().by(Pieces::new(case.rules, 1, calls));
            assert!(rt;
                given.is_refused(&rt, rt.alloc(), fault),
                "{:?} after {calls} calls",
                case.command
            );
        }
    }
}

#[test]
fn each_read_of_the_input_fails_in_turn(rt: HostRuntime) {
    for case in &CASES {
        for calls in 0..=case.input.len() {
            let given = Given {
                input: Pieces::new(case.input, 1, calls),
                ..case.given()
            };
            let holds = if case.reads_input() {
                let fault = case.input_fault(front_of(case.input, 1, calls));
                given.is_refused(&rt, rt.alloc(), fault)
            } else {
                given.comes_to(&rt, rt.alloc(), Ok(case.status), case.output)
            };
            assert!(rt; holds, "{:?} after {calls} calls", case.command);
        }
    }
}

#[test]
fn the_output_stops_after_each_of_its_bytes(rt: HostRuntime) {
    for case in &CASES {
        case.given().assert_front(&rt, rt.alloc(), case.output);
    }
}
