ghost use Rattle.std.specs.Prelude.{◌≡◌, ◌≤◌};
ghost use Rattle.uca_weights.specs.Element.{weight};

/// A collation element: three weights, and whether it is marked as variable (UTS #10, section 3).
#[derive(Clone, Copy, Debug, Default, PartialEq, Eq)]
pub struct Element {
    /// Whether it is variable: a table writes it with `*`, and other elements with `.`.
    pub starred: bool,
    /// The primary weight. A weight of zero is ignorable at its level.
    pub l1: u16,
    /// The secondary weight.
    pub l2: u16,
    /// The tertiary weight.
    pub l3: u16,
}

impl Element {
    /// The weight at a level from 1 to 3.
    pub fn weight(&self, level: u8) -> u16
        requires first { 1 ≤ level }
        requires last { level ≤ 3 }
        ensures { result ≡ weight level self.now }
    {
        match level {
            1 => self.l1,
            2 => self.l2,
            _ => self.l3,
        }
    }
}
