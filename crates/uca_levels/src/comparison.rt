ghost use Rattle.std.specs.Prelude.{◌≡◌};
ghost use Rattle.uca_model.specs.DecidingLevel.{deciding_level};
ghost use Rattle.uca_model.specs.SafeText.{IsSafe};
ghost use Rattle.uca_model.specs.SortKey.{key_order, sort_key};
ghost use Rattle.uca_model.specs.SafeCut.{cut_of};
ghost use Rattle.uca_levels.specs.FromCut.{ReadsFromCut, goes_back};
ghost use Rattle.uca_levels.specs.Reads.{ReadsTimes};

use crate::common_pass::first_order;
use crate::level_order::order_of_level;
use std::cmp::Ordering;
use uca_table::Table;
use uca_weights::Settings;
use uca_window::Source;

/// The order of the sort keys of two texts (UTS #10, section 7.4, step S4), wherever their sources are, and whatever
/// marks they have. With `d` the first level at which the texts differ, or the last one where they do not, each source
/// goes back at most `d` times, and is asked at most `d * (n + 1)` times where its text has `n` characters. Later levels
/// begin at the safe cut `m` of the texts, so that it is asked at most `(n + 1) + (d - 1) * (n - m + 1)` times.
///
/// It does not allocate. Each level is read through a [`Weights`](crate::Weights) for each text, or through a
/// [`Points`](crate::Points), so that of either text at most `MAX_LOOKAHEAD` code points more than the longest key has are
/// held at a time: the clauses `bound` of `Weights::new` and `next`, and of `Points::new` and `next`, say so.
pub fn compare_sources<S: Source, T: Source>(
    t: &Table,
    s: Settings,
    a: &mut S,
    b: &mut T,
) -> Ordering
    requires safe_a { IsSafe (S.state a.old).text }
    requires safe_b { IsSafe (T.state b.old).text }
    ensures order { result ≡ key_order (sort_key t.now s (S.state a.old).text) (sort_key t.now s (T.state b.old).text) }
    ensures reads_a { ReadsTimes (deciding_level t.now s (S.state a.old).text (T.state b.old).text) (S.state a.old) (S.state a.new) }
    ensures reads_b { ReadsTimes (deciding_level t.now s (S.state a.old).text (T.state b.old).text) (T.state b.old) (T.state b.new) }
    ensures cut_a { ReadsFromCut (deciding_level t.now s (S.state a.old).text (T.state b.old).text) (cut_of t.now (S.state a.old).text (T.state b.old).text) (S.state a.old) (S.state a.new) }
    ensures cut_b { ReadsFromCut (deciding_level t.now s (S.state a.old).text (T.state b.old).text) (cut_of t.now (S.state a.old).text (T.state b.old).text) (T.state b.old) (T.state b.new) }
{
    let last = s.levels();
    let (first, marked) = first_order(t, s.weighting, a, b);
    if first.is_ne() {
        return first;
    }
    let mut level = 2;
    'each: while level <= last {
        go_back(marked, a);
        go_back(marked, b);
        let order = order_of_level(t, s.weighting, level, a, b);
        if order.is_ne() {
            return order;
        }
        level += 1;
    }
    Ordering::Equal
}

// Sets a source to its mark, where this comparison set one, else to its start.
fn go_back<S: Source>(marked: bool, source: &mut S)
    ensures { S.state source.new ≡ goes_back marked (S.state source.old) }
{
    if marked {
        source.rewind();
    } else {
        source.restart();
    }
}
