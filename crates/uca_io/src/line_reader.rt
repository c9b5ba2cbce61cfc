//! Lines of a reader, one after the other.
ghost use Rattle.std.specs.Prelude.{◌≡◌, ◌<◌, ◌≤◌, ◌+◌, ◌^◌, ◌++◌, ◌∷◌, [], length, List, ℕ, Option, Result, Ok, IfErr, IfOk, MatchOption, MatchResult};
ghost use Rattle.uca_io.specs.LineFold.{Fold, ends, stops, at_line, fault_at, unless_long, with_last, with_text};
ghost use Rattle.uca_io.specs.LineProgress.{fault_by, remaining, GoesOn, StopsAt, IsOfText};
ghost use Rattle.uca_io.specs.LineReader.{Leads, GivesText, StopsLines};
ghost use Rattle.uca_io.specs.Lines.{line_feed, IsOpen};

use crate::limits::{MAX_INPUT, MAX_LINE};
use crate::lines::{extend_held, next_line};
use crate::reader::Reader;
use arrayvec::ArrayVec;

/// How many bytes one call requests of a reader.
const CHUNK: usize = 4_096;

/// Takes the lines of a text, one by one.
pub trait LineSink {
    /// Why a line is refused.
    type Cause;

    // What lines amount to.
    ghost State: { Type 0 };
    // Why a text is at fault.
    ghost Fault: { Type 0 };
    // What the lines so far amount to.
    ghost state: { Self → Self.State };
    // What each line adds, or why it is at fault.
    ghost fold: { Fold Self.State Self.Fault };
    // The fault for a cause, and none where memory was refused.
    ghost fault_of: { Self.Cause → Option Self.Fault };
    // The causes that may be answered.
    ghost possible: { Self.Cause → Type 0 };
    // Whether the line of a number may be added.
    ghost ready: { Self → ℕ → Type 0 };

    /// Adds the line with this number, counted from 1. After an `Err` nothing more may be added.
    fn add(&mut self, number: u64, line: &[u8]) -> Result<(), Self::Cause>
        requires short { length line.now ≤ MAX_LINE }
        requires ready { Self.ready self.old number }
        ensures adds { Leads Self.fault_of (Self.fold.step number (Self.state self.old) line.now) (Self.state self.new) result }
        ensures ready { IfOk result (λ _. Self.ready self.new (number + 1)) }
        ensures possible { IfErr result Self.possible };
}

/// Why lines were not read to their end.
#[derive(Clone, Copy, Debug, PartialEq, Eq)]
pub enum LineCause<C> {
    /// A line is longer than `MAX_LINE`.
    LineTooLong,
    /// The text is longer than `MAX_INPUT`.
    TooLarge,
    /// The reader failed.
    Read,
    /// The sink refused a line.
    Refused(C),
}

/// Where and why lines were not read to their end.
#[derive(Clone, Copy, Debug, PartialEq, Eq)]
pub struct LineFault<C> {
    /// The line, counted from 1.
    pub line: u64,
    pub cause: LineCause<C>,
}

/// How far the reading of lines has come.
#[derive(Drop)]
pub(crate) struct Progress {
    // Of the line that is being read, counted from 1.
    number: u64,
    // The bytes of the line from earlier pieces.
    held: ArrayVec<u8, MAX_LINE>,
}

/// Before the first line.
fn start() -> Progress
    ensures number { result.number ≡ 1 }
    ensures held { result.held.items ≡ [] }
{
    Progress {
        number: 1,
        held: ArrayVec::new(),
    }
}

/// Adds a line that is short enough.
fn add_line<S: LineSink>(sink: &mut S, number: u64, line: &[u8]) -> Result<(), LineCause<S::Cause>>
    requires short { length line.now ≤ MAX_LINE }
    requires ready { S.ready sink.old number }
    ensures adds { Leads (fault_by S.fold S.fault_of) (S.fold.step number (S.state sink.old) line.now) (S.state sink.new) result }
    ensures ready { IfOk result (λ _. S.ready sink.new (number + 1)) }
    ensures of_text { IfErr result (IsOfText S.possible) }
{
    match sink.add(number, line) {
        Ok(()) => Ok(()),
        Err(cause) => Err(LineCause::Refused(cause)),
    }
}

/// Adds the line that the held bytes and `part` make.
fn take_line<S: LineSink>(
    progress: &mut Progress,
    sink: &mut S,
    part: &[u8],
) -> Result<(), LineCause<S::Cause>>
    requires { S.ready sink.old progress.old.number }
    ensures line { let line = progress.old.held.items ++ part.now in Leads (fault_by S.fold S.fault_of) (unless_long S.fold line (S.fold.step progress.old.number (S.state sink.old) line)) (S.state sink.new) result }
    ensures number { progress.new.number ≡ progress.old.number }
    ensures ready { IfOk result (λ _. S.ready sink.new (progress.old.number + 1)) }
    ensures of_text { IfErr result (IsOfText S.possible) }
{
    if progress.held.is_empty() {
        if part.len() > MAX_LINE {
            return Err(LineCause::LineTooLong);
        }
        return add_line(sink, progress.number, part);
    }
    if !extend_held(&mut progress.held, part) {
        return Err(LineCause::LineTooLong);
    }
    add_line(sink, progress.number, progress.held.as_slice())
}

/// Ends the line that the held bytes and `part` make.
fn end_line<S: LineSink>(
    progress: &mut Progress,
    sink: &mut S,
    part: &[u8],
) -> Result<(), LineFault<S::Cause>>
    requires open { IsOpen (progress.old.held.items ++ part.now) }
    requires room { progress.old.number + 1 < 2 ^ 64 }
    requires ready { S.ready sink.old progress.old.number }
    ensures goes { MatchResult result (λ _. GoesOn S.fold progress.old (S.state sink.old) (part.now ++ line_feed ∷ []) progress.new (S.state sink.new) []) (StopsAt S.fold S.fault_of progress.old (S.state sink.old) (part.now ++ line_feed ∷ [])) }
    ensures ready { IfOk result (λ _. S.ready sink.new progress.new.number) }
    ensures of_text { IfErr result (λ f. IsOfText S.possible f.cause) }
{
    match take_line(progress, sink, part) {
        Ok(()) => {
            progress.number += 1;
            progress.held.clear();
            Ok(())
        }
        Err(cause) => Err(LineFault {
            line: progress.number,
            cause,
        }),
    }
}

/// Holds the bytes of a line that is not at its end.
fn hold<S: LineSink>(progress: &mut Progress, part: &[u8]) -> Result<(), LineFault<S::Cause>>
    requires { IsOpen (progress.old.held.items ++ part.now) }
    ensures goes { (a : S.State) → MatchResult result (λ _. GoesOn S.fold progress.old a part.now progress.new a []) (StopsAt S.fold S.fault_of progress.old a part.now) }
    ensures number { progress.new.number ≡ progress.old.number }
    ensures of_text { IfErr result (λ f. IsOfText S.possible f.cause) }
{
    if extend_held(&mut progress.held, part) {
        Ok(())
    } else {
        Err(LineFault {
            line: progress.number,
            cause: LineCause::LineTooLong,
        })
    }
}

/// Reads a piece of a text.
fn take_piece<S: LineSink>(
    progress: &mut Progress,
    sink: &mut S,
    piece: &[u8],
) -> Result<(), LineFault<S::Cause>>
    requires open { IsOpen progress.old.held.items }
    requires short { length progress.old.held.items ≤ MAX_LINE }
    requires room { progress.old.number + (length progress.old.held.items + length piece.now) + 1 < 2 ^ 64 }
    requires ready { S.ready sink.old progress.old.number }
    ensures goes { MatchResult result (λ _. GoesOn S.fold progress.old (S.state sink.old) piece.now progress.new (S.state sink.new) []) (StopsAt S.fold S.fault_of progress.old (S.state sink.old) piece.now) }
    ensures ready { IfOk result (λ _. S.ready sink.new progress.new.number) }
    ensures of_text { IfErr result (λ f. IsOfText S.possible f.cause) }
{
    let mut rest = piece;
    while let Some((part, others)) = next_line(rest) {
        end_line(progress, sink, part)?;
        rest = others;
    }
    hold::<S>(progress, rest)
}

/// Adds the last line, which has no LF, if it has a byte.
fn take_last<S: LineSink>(progress: &Progress, sink: &mut S) -> Result<(), LineFault<S::Cause>>
    requires open { IsOpen progress.now.held.items }
    requires short { length progress.now.held.items ≤ MAX_LINE }
    requires ready { S.ready sink.old progress.now.number }
    ensures last { MatchResult result
        (λ _. remaining S.fold ends progress.now (S.state sink.old) [] ≡ Ok (S.state sink.new))
        (λ f. MatchOption (fault_by S.fold S.fault_of f.cause) (Unit {0}) (λ cause. remaining S.fold ends progress.now (S.state sink.old) [] ≡ fault_at f.line cause)) }
    ensures of_text { IfErr result (λ f. IsOfText S.possible f.cause) }
{
    if progress.held.is_empty() {
        return Ok(());
    }
    match add_line(sink, progress.number, progress.held.as_slice()) {
        Ok(()) => Ok(()),
        Err(cause) => Err(LineFault {
            line: progress.number,
            cause,
        }),
    }
}

/// The fault of a text that goes on after `MAX_INPUT` bytes, which end with `piece`.
fn too_large<S: LineSink>(
    progress: &mut Progress,
    sink: &mut S,
    piece: &[u8],
) -> LineFault<S::Cause>
    requires open { IsOpen progress.old.held.items }
    requires short { length progress.old.held.items ≤ MAX_LINE }
    requires room { progress.old.number + (length progress.old.held.items + length piece.now) + 1 < 2 ^ 64 }
    requires ready { S.ready sink.old progress.old.number }
    ensures fault { MatchOption (fault_by S.fold S.fault_of result.cause) (Unit {0}) (λ cause. remaining S.fold (stops S.fold.large) progress.old (S.state sink.old) piece.now ≡ fault_at result.line cause) }
    ensures of_text { IsOfText S.possible result.cause }
{
    match take_piece(progress, sink, piece) {
        Ok(()) => LineFault {
            line: progress.number,
            cause: LineCause::TooLarge,
        },
        Err(fault) => fault,
    }
}

/// Reads a text to its end or to its first fault, and adds its lines to a sink. Each line is without its LF, and the
/// last one may have none. At most one byte past `MAX_INPUT` is taken from a reader that states its bytes, and at most
/// `MAX_INPUT` + 1 calls are made of one that counts its calls. What the reader still holds after a fault is unspecified.
pub fn read_lines<R: Reader, S: LineSink>(
    reader: &mut R,
    sink: &mut S,
) -> Result<(), LineFault<S::Cause>>
    requires { S.ready sink.old 1 }
    ensures reads { MatchResult result
        (λ _. GivesText (with_text S.fold (S.state sink.old)) (R.state reader.old) (R.state reader.new) (S.state sink.new))
        (StopsLines S.fold S.fault_of S.possible (S.state sink.old) (R.state reader.old) (R.state reader.new)) }
    ensures calls { R.calls reader.new ≤ R.calls reader.old + (MAX_INPUT + 1) }
{
    let mut progress = start();
    let mut left = MAX_INPUT;
    let mut chunk = [0; CHUNK];
    loop {
        let room = left.saturating_add(1).min(CHUNK);
        let piece = &mut chunk[..room];
        match reader.pull(piece) {
            Ok(0) => return take_last(&progress, sink),
            Ok(n) => {
                if n > left {
                    return Err(too_large(&mut progress, sink, &piece[..left]));
                }
                match take_piece(&mut progress, sink, &piece[..n]) {
                    Ok(()) => left -= n,
                    Err(fault) => return Err(fault),
                }
            }
            Err(_) => {
                return Err(LineFault {
                    line: progress.number,
                    cause: LineCause::Read,
                });
            }
        }
    }
}
