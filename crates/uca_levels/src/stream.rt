#![tactic(auto, using(crate::proofs::StreamLemmas::steps))]

ghost use Rattle.std.specs.Prelude.{◌≡◌, ◌≤◌, List, ℕ, IfErr, IfOk, IfSome, MatchResult};
ghost use Rattle.uca_match.specs.Yields.{YieldsFirst};
ghost use Rattle.uca_model.specs.DecidingLevel.{OrdersLevel};
ghost use Rattle.uca_levels.specs.Decides.{IsOfLevel};
ghost use Rattle.uca_levels.specs.Reads.{InStep};
ghost use Rattle.uca_levels.specs.Streams.{given_before};

use crate::decided::{decided, widened};
use std::cmp::Ordering;

/// The next character of a text does not stand alone.
#[derive(Clone, Copy)]
pub(crate) struct NotAlone;

/// The weights of one level of a text in memory that are not zero, one by one.
pub(crate) trait WeightStream {
    /// Its level.
    ghost level: { Self → ℕ };

    /// The weights that were not given yet.
    ghost left: { Self → List ℕ };

    /// The next weight, or `None` at the end. `NotAlone`: this way of reading cannot tell, and nothing was given.
    fn next_weight(&mut self) -> Result<Option<u16>, NotAlone>
        ensures yields { MatchResult result (λ given. YieldsFirst (left self.old) given (left self.new)) (λ _. left self.new ≡ left self.old) }
        ensures weight { IfOk result (λ given. IfSome given (IsOfLevel (level self.old))) }
        ensures level { level self.new ≡ level self.old };
}

/// One of two streams could not tell its next weight.
#[derive(Clone, Copy)]
pub(crate) struct Undecided {
    /// The weight that the first stream gave and that was not compared.
    pub(crate) given: Option<u16>,
}

/// The order of two streams of weights of one level, if both can tell them up to where they differ. If not, both have given the same
/// weights, and the first may have given one more.
#[inline(always)]
pub(crate) fn order_of<L: WeightStream, R: WeightStream>(
    left: &mut L,
    right: &mut R,
) -> Result<Ordering, Undecided>
    requires level { L.level left.old ≡ R.level right.old }
    requires last { L.level left.old ≤ 4 }
    ensures order { MatchResult result
        (λ order. OrdersLevel (L.level left.old) (L.left left.old) (R.left right.old) order)
        (λ stop. InStep (L.left left.old) (R.left right.old) (given_before stop.given (L.left left.new)) (R.left right.new)) }
    ensures given { IfErr result (λ stop. IfSome stop.given (IsOfLevel (L.level left.old))) }
    ensures levels { (L.level left.new ≡ L.level left.old) × (R.level right.new ≡ R.level right.old) }
{
    loop {
        let x = match left.next_weight() {
            Ok(x) => x,
            Err(NotAlone) => return Err(Undecided { given: None }),
        };
        let y = match right.next_weight() {
            Ok(y) => y,
            Err(NotAlone) => return Err(Undecided { given: x }),
        };
        if let Some(order) = decided(widened(x), widened(y)) {
            return Ok(order);
        }
    }
}
