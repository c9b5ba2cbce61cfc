ghost use Rattle.std.specs.Prelude.{◌≡◌};
ghost use Rattle.uca_weights.specs.Settings.{levels};

/// How many levels a comparison uses (UTS #10, section 7.3, step S3).
#[derive(Clone, Copy, Debug, PartialEq, Eq)]
pub enum Strength {
    Primary,
    Secondary,
    Tertiary,
    Quaternary,
    /// The four levels, and then the text itself in NFD.
    Identical,
}

/// How variable elements are weighted (UTS #10, section 4).
#[derive(Clone, Copy, Debug, PartialEq, Eq)]
pub enum Variable {
    NonIgnorable,
    Blanked,
    Shifted,
}

/// The settings of a comparison.
#[derive(Clone, Copy, Debug, PartialEq, Eq)]
pub struct Settings {
    pub strength: Strength,
    pub weighting: Variable,
}

impl Settings {
    /// The number of levels that a sort key has, from 1 to 5.
    pub fn levels(&self) -> u8
        ensures { result ≡ levels self.now.strength }
    {
        match self.strength {
            Strength::Primary => 1,
            Strength::Secondary => 2,
            Strength::Tertiary => 3,
            Strength::Quaternary => 4,
            Strength::Identical => 5,
        }
    }
}
