//! A job and what is read for it, so that it can be tried again where memory was refused.
use super::{PLAIN, wants_memory};
use std::alloc::Global;
use std::process::Abort;
use uca_cli::{CliFault, Job, Task, perform};
use uca_testing::{Expecting, Pieces};
use uca_weights::{Settings, WriteCause, WriteFault, Writer, Writing};

/// A job and the readers of its texts, which are copied for each try.
#[derive(Clone, Copy)]
pub(super) struct Given<'b> {
    pub(super) command: Task,
    pub(super) settings: Settings,
    pub(super) raw: bool,
    pub(super) ideographs: Option<(char, char)>,
    pub(super) table: Option<Pieces<'b>>,
    pub(super) rules: Option<Pieces<'b>>,
    pub(super) input: Pieces<'b>,
}

/// A reader that gives these bytes and never fails.
pub(super) fn whole(bytes: &[u8]) -> Pieces<'_> {
    Pieces::new(bytes, usize::MAX, usize::MAX)
}

/// A reader that fails at its first call.
pub(super) fn failing() -> Pieces<'static> {
    Pieces::new(b"a", 1, 0)
}

pub(super) fn output_refused(written: u128, cause: WriteCause) -> CliFault {
    CliFault::Output(WriteFault { written, cause })
}

impl<'b> Given<'b> {
    /// A command with the built-in table and without options.
    pub(super) fn new(command: Task, input: Pieces<'b>) -> Given<'b> {
        Given {
            command,
            settings: PLAIN,
            raw: false,
            ideographs: None,
            table: None,
            rules: None,
            input,
        }
    }

    /// The same command with these settings.
    pub(super) fn at(self, settings: Settings) -> Given<'b> {
        Given { settings, ..self }
    }

    /// The same command with this table.
    pub(super) fn over(self, table: Pieces<'b>) -> Given<'b> {
        Given {
            table: Some(table),
            ..self
        }
    }

    /// The same command with these rules.
    pub(super) fn by(self, rules: Pieces<'b>) -> Given<'b> {
        Given {
            rules: Some(rules),
            ..self
        }
    }

    /// Does the job with copies of its readers.
    fn perform<W: Writer>(&self, alloc: Global, output: &mut W) -> Result<u8, CliFault> {
        let job = Job {
            command: self.command,
            strength: self.settings.strength,
            weighting: self.settings.weighting,
            raw: self.raw,
            table: None,
            rules: None,
            ideographs: self.ideographs,
        };
        let (mut table, mut rules, mut input) = (self.table, self.rules, self.input);
        perform(
            alloc,
            &job,
            table.as_mut(),
            rules.as_mut(),
            &mut input,
            output,
        )
    }

    /// Whether the command allocates for each line that it writes. Any other allocates before it writes the first byte.
    fn takes_memory_by_line(&self) -> bool {
        match self.command {
            Task::Elements => true,
            Task::Key => !self.raw,
            _ => false,
        }
    }

    /// The result of the job. It is tried again where memory was refused, for a run refuses one growth at most: the
    /// writer then starts again.
    pub(super) fn answer(
        &self,
        rt: &impl Abort,
        alloc: Global,
        writer: &mut Expecting,
    ) -> Result<u8, CliFault> {
        let begun = *writer;
        let answer = self.perform(alloc, writer);
        if !wants_memory(&answer) {
            return answer;
        }
        if self.takes_memory_by_line() {
            assert!(rt; writer.left().is_some());
        } else {
            assert!(rt; writer.left() == begun.left());
        }
        *writer = begun;
        self.perform(alloc, writer)
    }

    /// Whether the job returns this and writes exactly this.
    pub(super) fn comes_to(
        &self,
        rt: &impl Abort,
        alloc: Global,
        want: Result<u8, CliFault>,
        output: &[u8],
    ) -> bool {
        let mut writer = Expecting::new(output, usize::MAX, WriteCause::Failed);
        let answer = self.answer(rt, alloc, &mut writer);
        answer == want && writer.left() == Some(0)
    }

    /// Whether the job succeeds and writes exactly this.
    pub(super) fn writes(&self, rt: &impl Abort, alloc: Global, output: &[u8]) -> bool {
        self.comes_to(rt, alloc, Ok(0), output)
    }

    /// Whether the job fails for this reason, and writes nothing.
    pub(super) fn is_refused(&self, rt: &impl Abort, alloc: Global, fault: CliFault) -> bool {
        self.comes_to(rt, alloc, Err(fault), b"")
    }

    /// Whether a writer too small for the output gets exactly its front, and the fault says so.
    pub(super) fn stops_at(
        &self,
        rt: &impl Abort,
        alloc: Global,
        output: &[u8],
        room: usize,
        cause: WriteCause,
    ) -> bool {
        let mut writer = Expecting::new(output, room, cause);
        let answer = self.answer(rt, alloc, &mut writer);
        let Some(left) = writer.left() else {
            return false;
        };
        answer == Err(output_refused(room as u128, cause))
            && output.len() - left.min(output.len()) == room
    }

    /// Fails a test where a writer too small for the output, which fails or takes none, gets other bytes than its front.
    pub(super) fn assert_stop(&self, rt: &impl Abort, alloc: Global, output: &[u8], room: usize) {
        let fails = self.stops_at(rt, alloc, output, room, WriteCause::Failed);
        assert!(rt; fails, "{:?} {room} bytes", self.command);
        let takes_none = self.stops_at(rt, alloc, output, room, WriteCause::Zero);
        assert!(rt; takes_none, "{:?} {room} bytes", self.command);
    }

    /// The same, after each byte of the output.
    pub(super) fn assert_front(&self, rt: &impl Abort, alloc: Global, output: &[u8]) {
        for room in 0..output.len() {
            self.assert_stop(rt, alloc, output, room);
        }
    }

    /// What the job writes to memory. It succeeds.
    pub(super) fn output(&self, rt: &impl Abort, alloc: Global) -> Vec<u8> {
        let mut writer = Writing::new(Vec::new(alloc));
        let answer = self.perform(alloc, &mut writer);
        if answer == Ok(0) {
            return writer.into_inner();
        }
        // A vector that cannot grow fails as a writer.
        assert!(rt; wants_memory(&answer) || matches!(answer, Err(CliFault::Output(_))));
        writer = Writing::new(Vec::new(alloc));
        assert!(rt; self.perform(alloc, &mut writer) == Ok(0));
        writer.into_inner()
    }
}
