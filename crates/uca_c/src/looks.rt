// The exports that show why texts are in their order.
ghost use Rattle.std.specs.Prelude.{◌≡◌, MatchOption};
ghost use Rattle.uca_handle.specs.Collator.{held};
ghost use Rattle.uca_handle.specs.Levels.{ComparesLevels};
ghost use Rattle.uca_handle.specs.Matches.{PutsMatches};
ghost use Rattle.uca_c.specs.Looks.{decided_order_after, level_after, levels_report, matches_report, needed_after};
ghost use Rattle.uca_c.specs.Reports.{IsRefused, Reports};
ghost use Rattle.uca_c.specs.Settings.{settings_named};

use crate::numbers::*;
use crate::reports::{Fault, NO_FAULT, Report, order_number};
use crate::settings::{RawSettings, settings_of};
use std::alloc::Global;
use uca_handle::{Collator, CompareFault, Decision, ElementForm, KeyFault, MatchForm, MatchesSize};

/// How many matches a text has, and how many code points and collation elements they have.
#[repr(C)]
#[derive(Clone, Copy)]
pub struct MatchesNeeded {
    pub matches: usize,
    pub points: usize,
    pub elements: usize,
}

/// What `uca_compare_levels` reports.
fn of_levels(outcome: Result<Decision, CompareFault>) -> Report
    ensures { result ≡ levels_report outcome }
{
    match outcome {
        Ok(_) => Report::plain(OK),
        Err(CompareFault::Closed) => Report::plain(CLOSED),
        Err(CompareFault::First(fault)) => Report::of_text(1, fault),
        Err(CompareFault::Second(fault)) => Report::of_text(2, fault),
    }
}

/// What `uca_matches` reports.
fn of_matches(outcome: Result<MatchesSize, KeyFault>) -> Report
    ensures { result ≡ matches_report outcome }
{
    match outcome {
        Ok(_) => Report::plain(OK),
        Err(KeyFault::Closed) => Report::plain(CLOSED),
        Err(KeyFault::Text(fault)) => Report::of_text(1, fault),
        Err(KeyFault::OutOfMemory) => Report::plain(NO_MEMORY),
    }
}

/// Compares two texts. The order is -1, 0 or 1; the level is the first at which they differ, or the last that is compared where
/// they do not.
#[unsafe(no_mangle)]
pub extern "C" fn uca_compare_levels(
    collator: &mut Collator,
    settings: &RawSettings,
    a: &[u8],
    b: &[u8],
    order: &mut i32,
    level: &mut u32,
    fault: &mut Fault,
) -> u32
    ensures compares { MatchOption (settings_named settings.now)
        (IsRefused result fault.new × (order.new ≡ order.old) × (level.new ≡ level.old))
        (λ s. Reports levels_report result fault.new (λ outcome. ComparesLevels (held collator.old) s a.now b.now outcome × (order.new ≡ decided_order_after order.old outcome) × (level.new ≡ level_after level.old outcome))) }
    ensures same { held collator.new ≡ held collator.old }
{
    let Some(s) = settings_of(settings) else {
        *fault = NO_FAULT;
        return BAD_SETTINGS;
    };
    let outcome = collator.compare_levels(s, a, b);
    if let Ok(found) = outcome {
        *order = order_number(found.order);
        *level = u32::from(found.level);
    }
    let report = of_levels(outcome);
    *fault = report.fault;
    report.status
}

/// Puts the matches of a text into the fronts of three arrays, or as many of them as fit, and reports how many they are.
#[unsafe(no_mangle)]
pub extern "C" fn uca_matches(
    alloc: Global,
    collator: &mut Collator,
    text: &[u8],
    matches: &mut [MatchForm],
    points: &mut [u32],
    elements: &mut [ElementForm],
    needed: &mut MatchesNeeded,
    fault: &mut Fault,
) -> u32
    ensures matches { Reports matches_report result fault.new (λ outcome. PutsMatches (held collator.old) text.now matches.old matches.new points.old points.new elements.old elements.new outcome × (needed.new ≡ needed_after needed.old outcome)) }
    ensures same { held collator.new ≡ held collator.old }
{
    let outcome = collator.matches(alloc, text, matches, points, elements);
    if let Ok(size) = outcome {
        *needed = MatchesNeeded {
            matches: size.matches,
            points: size.points,
            elements: size.elements,
        };
    }
    let report = of_matches(outcome);
    *fault = report.fault;
    report.status
}
