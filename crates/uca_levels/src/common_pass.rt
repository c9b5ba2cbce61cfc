ghost use Rattle.std.specs.Prelude.{◌≡◌, ◌<◌, true, false};
ghost use Rattle.uca_weights.specs.declared.settings.Variable.{Variable};
ghost use Rattle.uca_model.specs.Source.{SourceState, unread};
ghost use Rattle.uca_model.specs.Table.{IsTable};
ghost use Rattle.uca_model.specs.Window.{Fits};
ghost use Rattle.uca_levels.specs.FromCut.{ReadsFromCut, place_back};
ghost use Rattle.uca_levels.specs.InCommon.{InCommon, Parted, work_left};
ghost use Rattle.uca_model.specs.LevelWeights.{level_list};
ghost use Rattle.uca_model.specs.DecidingLevel.{OrdersLevel};
ghost use Rattle.uca_model.specs.SafeCut.{cut_of};
ghost use Rattle.uca_model.specs.SafeText.{IsSafe};

use crate::first_weight::order_by_first;
use crate::level_order::order_of_remaining;
use crate::weights::Weights;
use std::cmp::Ordering;
use uca_table::Table;
use uca_weights::Variable;
use uca_window::Source;

// Goes one step on in two texts that agree so far: reads a character of each, or, where none has to be read, gives a
// weight of each. It marks the sources at each character before which they may be cut. Returns whether they still agree;
// where they do not, `read` is what was read of each last.
fn goes_on<'t, S: Source, T: Source>(
    t: &Table,
    left: &mut Weights<'t>,
    right: &mut Weights<'t>,
    marked: &mut bool,
    read: &mut (Option<char>, Option<char>),
    a: &mut S,
    b: &mut T,
) -> bool
    requires valid { IsTable t.now }
    requires same { left.old ≡ right.old }
    requires fits_a { Fits left.old.elements.window (unread (S.state a.old)) }
    requires fits_b { Fits right.old.elements.window (unread (T.state b.old)) }
    ensures on { (v : Variable) (was wus : SourceState) → InCommon t.now v was wus left.old right.old marked.old (S.state a.old) (T.state b.old) → result ≡ true
        → InCommon t.now v was wus left.new right.new marked.new (S.state a.new) (T.state b.new) × (work_left left.new (S.state a.new) < work_left left.old (S.state a.old)) }
    ensures parts { (v : Variable) (was wus : SourceState) → InCommon t.now v was wus left.old right.old marked.old (S.state a.old) (T.state b.old) → result ≡ false
        → Parted t.now v was wus left.new right.new marked.new (S.state a.new) (T.state b.new) read.new.0 read.new.1 }
{
    if !left.wants() {
        let _weight = left.next_of_all(a);
        let _same = right.next_of_all(b);
        return true;
    }
    let x = left.read(a);
    let y = right.read(b);
    *read = (x, y);
    if x != y {
        return false;
    }
    match x {
        None => false,
        Some(c) => {
            if t.is_cut(c) {
                a.mark();
                b.mark();
                *marked = true;
                return true;
            }
            true
        }
    }
}

/// The order of two texts at the first level. Each is read once, from its start. If the second result says that marks were set, each
/// source has its mark at the safe cut of the texts. Where none were, the cut is the start.
pub(crate) fn first_order<S: Source, T: Source>(
    t: &Table,
    v: Variable,
    a: &mut S,
    b: &mut T,
) -> (Ordering, bool)
    requires safe_a { IsSafe (S.state a.old).text }
    requires safe_b { IsSafe (T.state b.old).text }
    ensures order { OrdersLevel 1 (level_list t.now v (S.state a.old).text 1) (level_list t.now v (T.state b.old).text 1) result.0 }
    ensures back_a { place_back result.1 (S.state a.new) ≡ cut_of t.now (S.state a.old).text (T.state b.old).text }
    ensures back_b { place_back result.1 (T.state b.new) ≡ cut_of t.now (S.state a.old).text (T.state b.old).text }
    ensures reads_a { ReadsFromCut 1 (cut_of t.now (S.state a.old).text (T.state b.old).text) (S.state a.old) (S.state a.new) }
    ensures reads_b { ReadsFromCut 1 (cut_of t.now (S.state a.old).text (T.state b.old).text) (T.state b.old) (T.state b.new) }
    ensures valid { IsTable t.now }
{
    a.restart();
    b.restart();
    let _longest = t.longest();
    let mut left = Weights::new(t, v, 1);
    let mut right = Weights::new(t, v, 1);
    let mut marked = false;
    let mut read = (None, None);
    while goes_on(t, &mut left, &mut right, &mut marked, &mut read, a, b) {}
    let (x, y) = read;
    if let Some(order) = order_by_first(t, v, x, y) {
        return (order, marked);
    }
    let order = order_of_remaining(&mut left, &mut right, a, b);
    (order, marked)
}
