ghost use Rattle.std.specs.Prelude.{◌≡◌, ◌≤◌, ◌-◌, Bool, false, List, [], ◌∷◌, ◌++◌, slice_index, take, IsFalse, IsTrue};
ghost use Rattle.uca_weights.specs.declared.element.Element.{Element};
ghost use Rattle.uca_weights.specs.declared.settings.Variable.{Variable};
ghost use Rattle.uca_weights.specs.VariableWeighting.{is_after_variable, weighted, weights};

use crate::{Element, Variable};
use std::marker::Model;

/// Weighs the elements of a list, one by one and in order (UTS #10, section 4).
#[derive(Debug, Drop)]
pub struct Weigher {
    weighting: Variable,
    after_variable: bool,
}

impl Model for Weigher {
    ghost use Rattle.uca_weights.specs.Weigher.{WeigherState};
    ghost use Rattle.uca_weights.specs.Coded.{coded_weigher};

    ghost Value = { WeigherState };

    ghost coded = { coded_weigher };

    ghost view = { λ w. record { weighting = w.weighting; after = w.after_variable } };
}

impl Weigher {
    ghost use Rattle.uca_weights.specs.Weigher.{HasSeen, after_element, weighted_from};

    /// A weigher that has seen no element yet. Given the elements of a list one by one, it returns the weights of
    /// that list.
    pub fn new(v: Variable) -> Weigher
        ensures value { result ≡ record { weighting = v; after = false } }
        ensures seen { HasSeen v result [] }
        ensures list { (es : List Element) → weighted_from result es ≡ weighted v es }
    {
        Weigher {
            weighting: v,
            after_variable: false,
        }
    }

    // Passes over an element. From then on `after_variable` also says whether options other than `NonIgnorable` hide the element: it is
    // variable, or it has no primary weight and follows a variable.
    #[inline(always)]
    fn pass(&mut self, e: Element)
        ensures { self.new ≡ record self.old { after = after_element self.old.after e } }
    {
        if e.l1 != 0 {
            self.after_variable = e.starred;
        }
    }

    // Whether the element that was passed last has no weight at the first three levels, whatever its own are.
    #[inline(always)]
    fn hides(&self) -> bool
        ensures shown { (after : Bool) (e : Element) → self.now.after ≡ after_element after e → IsFalse result → take 3 (weights self.now.weighting after e) ≡ e.l1 ∷ e.l2 ∷ e.l3 ∷ [] }
        ensures hidden { (after : Bool) (e : Element) → self.now.after ≡ after_element after e → IsTrue result → take 3 (weights self.now.weighting after e) ≡ 0 ∷ 0 ∷ 0 ∷ [] }
    {
        match self.weighting {
            Variable::NonIgnorable => false,
            Variable::Blanked | Variable::Shifted => self.after_variable,
        }
    }

    // The weight at the fourth level of the element that was passed last.
    #[inline(always)]
    fn fourth(&self, e: Element) -> u16
        ensures { (after : Bool) → self.now.after ≡ after_element after e → result ≡ slice_index (weights self.now.weighting after e) 3 }
    {
        match self.weighting {
            Variable::NonIgnorable | Variable::Blanked => 0,
            Variable::Shifted if self.after_variable => e.l1,
            Variable::Shifted if e.l1 == 0 && e.l2 == 0 && e.l3 == 0 => 0,
            Variable::Shifted => 0xffff,
        }
    }

    /// The weights of the next element at the levels 1 to 4. An element counts as after a variable where the nearest
    /// earlier one with a primary weight is variable.
    pub fn weigh(&mut self, e: Element) -> [u16; 4]
        ensures weights { result ≡ weights self.old.weighting self.old.after e }
        ensures moved { self.new ≡ record self.old { after = after_element self.old.after e } }
        ensures first { (es : List Element) → weighted_from self.old (e ∷ es) ≡ result ∷ weighted_from self.new es }

        // Over a list of elements, the results are the weights of the definition.
        ensures in_order { (v : Variable) (seen : List Element) → HasSeen v self.old seen → result ≡ weights v (is_after_variable seen) e }
        ensures seen { (v : Variable) (seen : List Element) → HasSeen v self.old seen → HasSeen v self.new (seen ++ e ∷ []) }
    {
        self.pass(e);
        let fourth = self.fourth(e);
        if self.hides() {
            [0, 0, 0, fourth]
        } else {
            [e.l1, e.l2, e.l3, fourth]
        }
    }

    /// The weight of the next element at one level from 1 to 4: that of the four which `weigh` returns.
    #[inline(always)]
    pub fn weigh_at(&mut self, e: Element, level: u8) -> u16
        requires first { 1 ≤ level }
        requires last { level ≤ 4 }
        ensures weight { result ≡ slice_index (weights self.old.weighting self.old.after e) (level - 1) }
        ensures moved { self.new ≡ record self.old { after = after_element self.old.after e } }
    {
        self.pass(e);
        if level == 4 {
            return self.fourth(e);
        }
        if self.hides() {
            return 0;
        }
        e.weight(level)
    }
}

#[cfg(test)]
mod tests;
