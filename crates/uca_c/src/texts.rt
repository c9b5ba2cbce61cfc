// The exports over texts that were checked before. The caller has to keep their bytes as they were.
ghost use Rattle.std.specs.Prelude.{◌≡◌, MatchOption, chars};
ghost use Rattle.uca_model.specs.Lines.{IsTextLine};
ghost use Rattle.uca_handle.specs.Calls.{MakesKey, MakesPackedKey};
ghost use Rattle.uca_handle.specs.Collator.{held};
ghost use Rattle.uca_handle.specs.Texts.{text_order};
ghost use Rattle.uca_c.specs.Reports.{ReportsStatus, size_after};
ghost use Rattle.uca_c.specs.Settings.{settings_named};
ghost use Rattle.uca_c.specs.Texts.{found_order_after, key_status, order_status};

use crate::numbers::*;
use crate::reports::{of_key, order_number};
use crate::settings::{RawSettings, settings_of};
use std::alloc::Global;
use std::cmp::Ordering;
use uca_handle::{Collator, KeyFault, Passage};

/// The status of `uca_compare_texts`.
fn of_order(outcome: Option<Ordering>) -> u32
    ensures { result ≡ order_status outcome }
{
    match outcome {
        Some(_) => OK,
        None => CLOSED,
    }
}

/// Reports the length of a key, or else the status alone.
fn report_size(outcome: Result<usize, KeyFault>, needed: &mut usize) -> u32
    ensures needed { needed.new ≡ size_after needed.old outcome }
    ensures status { result ≡ key_status outcome }
{
    if let Ok(size) = outcome {
        *needed = size;
    }
    of_key(outcome).status
}

/// Compares two texts that were checked. The order is -1, 0 or 1.
#[unsafe(no_mangle)]
pub extern "C" fn uca_compare_texts(
    collator: &mut Collator,
    settings: &RawSettings,
    a: &[u8],
    b: &[u8],
    order: &mut i32,
) -> u32
    requires first { IsTextLine a.now }
    requires second { IsTextLine b.now }
    ensures compares { MatchOption (settings_named settings.now)
        ((result ≡ BAD_SETTINGS) × (order.new ≡ order.old))
        (λ s. ReportsStatus order_status result (λ outcome. (outcome ≡ text_order (held collator.old) s (chars a.now) (chars b.now)) × (order.new ≡ found_order_after order.old outcome))) }
    ensures same { held collator.new ≡ held collator.old }
{
    let Some(s) = settings_of(settings) else {
        return BAD_SETTINGS;
    };
    let outcome = collator.compare_texts(s, &Passage::of_checked(a), &Passage::of_checked(b));
    if let Some(found) = outcome {
        *order = order_number(found);
    }
    of_order(outcome)
}

/// Puts the sort key of a text that was checked into the front of a buffer, or as many of its bytes as fit, and reports how many it has.
#[unsafe(no_mangle)]
pub extern "C" fn uca_sort_key_of(
    alloc: Global,
    collator: &mut Collator,
    settings: &RawSettings,
    text: &[u8],
    out: &mut [u8],
    needed: &mut usize,
) -> u32
    requires { IsTextLine text.now }
    ensures key { MatchOption (settings_named settings.now)
        ((result ≡ BAD_SETTINGS) × (out.new ≡ out.old) × (needed.new ≡ needed.old))
        (λ s. ReportsStatus key_status result (λ outcome. MakesKey (held collator.old) s text.now out.old out.new outcome × (needed.new ≡ size_after needed.old outcome))) }
    ensures same { held collator.new ≡ held collator.old }
{
    let Some(s) = settings_of(settings) else {
        return BAD_SETTINGS;
    };
    report_size(
        collator.sort_key_of(alloc, s, &Passage::of_checked(text), out),
        needed,
    )
}

/// Puts the packed sort key of a text that was checked into the front of a buffer, or as many of its bytes as fit, and reports how many
/// it has.
#[unsafe(no_mangle)]
pub extern "C" fn uca_packed_key_of(
    alloc: Global,
    collator: &mut Collator,
    settings: &RawSettings,
    text: &[u8],
    out: &mut [u8],
    needed: &mut usize,
) -> u32
    requires { IsTextLine text.now }
    ensures key { MatchOption (settings_named settings.now)
        ((result ≡ BAD_SETTINGS) × (out.new ≡ out.old) × (needed.new ≡ needed.old))
        (λ s. ReportsStatus key_status result (λ outcome. MakesPackedKey (held collator.old) s text.now out.old out.new outcome × (needed.new ≡ size_after needed.old outcome))) }
    ensures same { held collator.new ≡ held collator.old }
{
    let Some(s) = settings_of(settings) else {
        return BAD_SETTINGS;
    };
    report_size(
        collator.packed_key_of(alloc, s, &Passage::of_checked(text), out),
        needed,
    )
}
