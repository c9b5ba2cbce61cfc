ghost use Rattle.std.specs.Prelude.{◌≡◌, ◌≤◌, ◌<◌, ◌+◌, ◌^◌, true, false, length, Err, IfErr, IfOk};
ghost use Rattle.uca_weights.specs.declared.limits.TheConstants.{MAX_LINE};
ghost use Rattle.uca_io.specs.LineReader.{Leads};
ghost use Rattle.uca_model.specs.TestFile.{points_of};
ghost use Rattle.uca_conform.specs.Comparing.{can_compare, is_below, none_compared, with_line, with_skipped, with_text};
ghost use Rattle.uca_conform.specs.TestReading.{fault_of, next_of, state_of, test_cause, CanCompareLast, IsCounted, IsOfFile, SaysPoints};

use crate::conforming::{ConformCause, Conformance};
use crate::test_line::{is_test, text_of_test};
use crate::test_text::{TestText, order_of_texts};
use uca_io::lines::without_return;
use uca_table::Table;
use uca_weights::{MAX_LINE, Settings};

/// What the test lines so far amount to. Their texts lie in two buffers alternately, since a copy of a buffer would take longer
/// than most comparisons do.
#[derive(Drop)]
pub(crate) struct Comparison {
    pub(crate) report: Conformance,
    one: TestText,
    other: TestText,
    // Whether there is a last text yet.
    is_some: bool,
    // Whether it lies in the first buffer.
    is_one: bool,
}

/// Before the first line.
pub(crate) fn nothing_compared() -> Comparison
    ensures state { state_of result ≡ none_compared }
    ensures lines { result.report.lines ≡ 0 }
    ensures skipped { result.report.skipped ≡ 0 }
    ensures none { result.is_some ≡ false }
{
    Comparison {
        report: Conformance {
            lines: 0,
            skipped: 0,
            first_failure: None,
        },
        one: TestText::new(),
        other: TestText::new(),
        is_some: false,
        is_one: false,
    }
}

/// Reads the text of a test line into the buffer that does not hold the last one, and returns whether it is compared.
fn read_next(comparison: &mut Comparison, line: &[u8]) -> Result<bool, ConformCause>
    requires { length line.now ≤ MAX_LINE }
    ensures points { IfOk result (λ is_compared. SaysPoints (points_of line.now) is_compared (next_of comparison.new)) }
    ensures fault { IfErr result (λ cause. points_of line.now ≡ Err (test_cause cause)) }
    ensures of_file { IfErr result IsOfFile }
    ensures state { state_of comparison.new ≡ state_of comparison.old }
    ensures report { comparison.new.report ≡ comparison.old.report }
    ensures last { CanCompareLast comparison.old → CanCompareLast comparison.new }
{
    if comparison.is_one {
        text_of_test(line, &mut comparison.other)
    } else {
        text_of_test(line, &mut comparison.one)
    }
}

/// Whether the text that was read is below the one that was compared before it.
fn is_below(comparison: &Comparison, t: &Table, s: Settings) -> bool
    requires last { CanCompareLast comparison.now }
    requires next { can_compare (next_of comparison.now) ≡ true }
    ensures { result ≡ is_below t.now s (state_of comparison.now).last (next_of comparison.now) }
{
    if !comparison.is_some {
        return false;
    }
    let (last, next) = if comparison.is_one {
        (&comparison.one, &comparison.other)
    } else {
        (&comparison.other, &comparison.one)
    };
    order_of_texts(t, s, last, next).is_gt()
}

/// Adds the test line that was read, which is compared.
fn add_text(comparison: &mut Comparison, t: &Table, s: Settings, number: u64)
    requires lines { comparison.old.report.lines + 1 < 2 ^ 64 }
    requires last { CanCompareLast comparison.old }
    requires next { can_compare (next_of comparison.old) ≡ true }
    ensures sum { state_of comparison.new ≡ with_text t.now s number (state_of comparison.old) (next_of comparison.old) }
    ensures last { CanCompareLast comparison.new }
{
    if comparison.report.first_failure.is_none() && is_below(comparison, t, s) {
        comparison.report.first_failure = Some(number);
    }
    comparison.report.lines += 1;
    comparison.is_some = true;
    comparison.is_one = !comparison.is_one;
}

/// Adds a test line that isn't compared.
fn add_skipped(comparison: &mut Comparison)
    requires lines { comparison.old.report.lines + 1 < 2 ^ 64 }
    requires skipped { comparison.old.report.skipped ≤ comparison.old.report.lines }
    ensures sum { state_of comparison.new ≡ with_skipped (state_of comparison.old) }
    ensures last { CanCompareLast comparison.old → CanCompareLast comparison.new }
{
    comparison.report.lines += 1;
    comparison.report.skipped += 1;
}

/// Adds the line of a number.
pub(crate) fn add_line(
    comparison: &mut Comparison,
    t: &Table,
    s: Settings,
    number: u64,
    line: &[u8],
) -> Result<(), ConformCause>
    requires short { length line.now ≤ MAX_LINE }
    requires counted { IsCounted comparison.old number }
    ensures adds { Leads fault_of (with_line t.now s number (state_of comparison.old) line.now) (state_of comparison.new) result }
    ensures counted { IsCounted comparison.new (number + 1) }
    ensures of_file { IfErr result IsOfFile }
{
    let line = without_return(line);
    if !is_test(line) {
        return Ok(());
    }
    match read_next(comparison, line) {
        Ok(is_compared) => {
            if is_compared {
                add_text(comparison, t, s, number);
            } else {
                add_skipped(comparison);
            }
            Ok(())
        }
        Err(cause) => Err(cause),
    }
}
