ghost use Rattle.std.specs.Prelude.{◌≡◌, ◌≤◌, ◌<◌, ◌++◌, [], chars, length, take};
ghost use Rattle.std.specs.Option.{ForSome};
ghost use Rattle.unicode_normalization.specs.Forms.{nfd};
ghost use Rattle.uca_weights.specs.declared.settings.Variable.{Variable};
ghost use Rattle.uca_weights.specs.VariableWeighting.{weighted};
ghost use Rattle.uca_model.specs.CollationElements.{elements};
ghost use Rattle.uca_model.specs.SafeText.{IsSafe};
ghost use Rattle.uca_key.specs.Weighing.{all_own};

use crate::weighing::weigh_all;
use uca_match::{TextElements, read_text};
use uca_table::Table;
use uca_weights::{Element, Settings, Variable, Weigher};

/// The most elements that are packed or sent together.
pub(crate) const PIECE: usize = 64;

/// The elements of a text, weighed, as often as they are asked for: held in room, or else read into it again each time.
#[derive(Drop)]
pub(crate) struct TextReading<'t> {
    pub(crate) table: &'t Table,
    pub(crate) text: &'t str,
    /// The option by which they are weighed, and how many levels are asked for.
    pub(crate) settings: Settings,
    /// How many elements the text has, where the room holds them all.
    pub(crate) held: Option<usize>,
    ghost safe: { IsSafe (chars text.now) },
}

// Reads a text into room, weighs its elements, and returns how many they are where the room holds them all.
#[inline(always)]
fn read_and_weigh(t: &Table, v: Variable, text: &str, room: &mut [Element]) -> Option<usize>
    requires { IsSafe (chars text.now) }
    ensures { ForSome result (λ n. (n ≤ length room.new) × (all_own v (take n room.new) ≡ weighted v (elements t.now (nfd (chars text.now))))) }
{
    let (read, rest) = read_text(t, text, room);
    if !rest.is_empty() {
        return None;
    }
    weigh_all(v, &mut Weigher::new(v), &mut room[..read]);
    Some(read)
}

impl<'t> TextReading<'t> {
    ghost use Rattle.uca_key.specs.Pieces.{HoldsWeights, weights_left, weights_of};

    /// Reads a text into room.
    #[inline(always)]
    pub(crate) fn new(
        t: &'t Table,
        s: Settings,
        text: &'t str,
        room: &mut [Element],
    ) -> TextReading<'t>
        requires { IsSafe (chars text.now) }
        ensures table { result.table.now ≡ t.now }
        ensures text { result.text.now ≡ text.now }
        ensures settings { result.settings ≡ s }
        ensures holds { HoldsWeights result room.new }
    {
        let held = read_and_weigh(t, s.weighting, text, room);
        TextReading {
            table: t,
            text,
            settings: s,
            held,
        }
    }

    /// Reads the text once more.
    pub(crate) fn again(&self) -> WeighedElements<'t>
        ensures left { weights_left result ≡ weights_of self.now }
        ensures weighting { result.weighting ≡ self.now.settings.weighting }
    {
        WeighedElements {
            elements: TextElements::new(self.table, self.text),
            weighting: self.settings.weighting,
            weigher: Weigher::new(self.settings.weighting),
        }
    }
}

/// The elements of a text that are left, which are weighed as they are read.
#[derive(Drop)]
pub(crate) struct WeighedElements<'t> {
    elements: TextElements<'t>,
    weighting: Variable,
    weigher: Weigher,
    ghost same: { weigher.weighting ≡ weighting },
}

impl<'t> WeighedElements<'t> {
    ghost use Rattle.uca_key.specs.Pieces.{weights_left};

    /// Puts the next elements into room, from its front on, and returns how many: none only where none is left.
    pub(crate) fn read(&mut self, room: &mut [Element]) -> usize
        requires { 0 < length room.old }
        ensures left { weights_left self.old ≡ all_own self.old.weighting (take result room.new) ++ weights_left self.new }
        ensures weighting { self.new.weighting ≡ self.old.weighting }
        ensures within { result ≤ length room.old }
        ensures end { result ≡ 0 → weights_left self.old ≡ [] }
    {
        let n = self.elements.read(room);
        weigh_all(self.weighting, &mut self.weigher, &mut room[..n]);
        n
    }
}
