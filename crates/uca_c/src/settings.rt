ghost use Rattle.std.specs.Prelude.{◌≡◌};
ghost use Rattle.uca_c.specs.Settings.{has_zeros, settings_named, strength_named, variable_named};

use uca_weights::{Settings, Strength, Variable};

/// Settings by their numbers, and fields for later ones, which have to be 0.
#[repr(C)]
#[derive(Clone, Copy)]
pub struct RawSettings {
    pub strength: u32,
    pub variable: u32,
    pub reserved_1: u32,
    pub reserved_2: u32,
    pub reserved_3: u32,
    pub reserved_4: u32,
    pub reserved_5: u32,
    pub reserved_6: u32,
}

/// A strength by its number, 1 to 5.
fn strength_of(strength: u32) -> Option<Strength>
    ensures { result ≡ strength_named strength }
{
    match strength {
        1 => Some(Strength::Primary),
        2 => Some(Strength::Secondary),
        3 => Some(Strength::Tertiary),
        4 => Some(Strength::Quaternary),
        5 => Some(Strength::Identical),
        _ => None,
    }
}

/// An option for variable elements by its number, 0 to 2.
fn variable_of(variable: u32) -> Option<Variable>
    ensures { result ≡ variable_named variable }
{
    match variable {
        0 => Some(Variable::NonIgnorable),
        1 => Some(Variable::Blanked),
        2 => Some(Variable::Shifted),
        _ => None,
    }
}

/// Whether the numbers without a meaning are 0.
fn has_zeros(raw: &RawSettings) -> bool
    ensures { result ≡ has_zeros raw.now }
{
    (raw.reserved_1 == 0)
        & (raw.reserved_2 == 0)
        & (raw.reserved_3 == 0)
        & (raw.reserved_4 == 0)
        & (raw.reserved_5 == 0)
        & (raw.reserved_6 == 0)
}

/// The settings that the numbers name.
pub(crate) fn settings_of(raw: &RawSettings) -> Option<Settings>
    ensures { result ≡ settings_named raw.now }
{
    if !has_zeros(raw) {
        return None;
    }
    let strength = strength_of(raw.strength)?;
    let weighting = variable_of(raw.variable)?;
    Some(Settings {
        strength,
        weighting,
    })
}
