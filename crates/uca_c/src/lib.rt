//! The exports for C, which `include/uca.h` declares. Each calls the function of `uca_handle` that does the work, and
//! states its contract again: the outcome of that call is reported as a status, which is returned, and a fault.
#![tactic(auto)]

ghost use Rattle.std.specs.Prelude.{◌≡◌, ◌+◌, ◌*◌, None, MatchOption};
ghost use Rattle.ucd_table.specs.declared.version.TheConstants.{UNICODE_VERSION};
ghost use Rattle.uca_handle.specs.Calls.{Checks, Compares, Fingerprints, MakesKey, MakesPackedKey, Opens, PutsBounds, PutsPackedBounds, Shares, WritesKey};
ghost use Rattle.uca_handle.specs.Collator.{held};
ghost use Rattle.uca_handle.specs.Completeness.{TellsComplete};
ghost use Rattle.uca_handle.specs.Places.{place_of};
ghost use Rattle.uca_c.specs.Reports.{IsRefused, Reports, ReportsStatus, bounds_report, check_report, compare_report, complete_after, completeness_report, digest_after, fingerprint_status, key_report, lower_size_after, open_report, order_after, share_status, size_after, upper_size_after};
ghost use Rattle.uca_c.specs.Settings.{settings_named};

mod looks;
mod numbers;
mod reports;
mod settings;
mod texts;

pub use looks::MatchesNeeded;
use numbers::BAD_SETTINGS;
pub use reports::{Digest, Fault};
use reports::{
    NO_FAULT, of_check, of_comparison, of_completeness, of_fingerprint, of_opening, of_sharing,
    order_number, report_bounds, report_key,
};
pub use settings::RawSettings;
use settings::settings_of;
use std::alloc::Global;
use uca_handle::{Collator, locate};
use unicode_normalization::UNICODE_VERSION;

/// The version of the library: 65536 times the major, and 256 times the minor number, and the patch.
const VERSION: u32 = 0x01_00_00;

/// Returns the version of the library.
#[unsafe(no_mangle)]
pub extern "C" fn uca_version() -> u32
    ensures { result ≡ VERSION }
{
    VERSION
}

/// Returns the version of Unicode by which texts are decomposed.
#[unsafe(no_mangle)]
pub extern "C" fn uca_unicode_version() -> u32
    ensures { result ≡ UNICODE_VERSION.0 * 65536 + UNICODE_VERSION.1 * 256 + UNICODE_VERSION.2 }
{
    let (major, minor, update) = UNICODE_VERSION;
    u32::from(major) * 65536 + u32::from(minor) * 256 + u32::from(update)
}

/// Gives a collator the table that two texts say, or leaves it as it was.
#[unsafe(no_mangle)]
pub extern "C" fn uca_open(
    alloc: Global,
    collator: &mut Collator,
    table: &[u8],
    rules: &[u8],
    fault: &mut Fault,
) -> u32
    ensures { Reports open_report result fault.new (Opens table.now rules.now (held collator.old) (held collator.new)) }
{
    let report = of_opening(collator.load(alloc, table, rules));
    *fault = report.fault;
    report.status
}

/// Lets go of a collator's table, which is freed with the last collator that has it.
#[unsafe(no_mangle)]
pub extern "C" fn uca_close(alloc: Global, collator: &mut Collator)
    ensures { held collator.new ≡ None }
{
    collator.close(alloc);
}

/// Gives another collator the same table, or leaves it as it was.
#[unsafe(no_mangle)]
pub extern "C" fn uca_clone(alloc: Global, collator: &mut Collator, other: &mut Collator) -> u32
    ensures shares { ReportsStatus share_status result (Shares (held collator.old) (held other.old) (held other.new)) }
    ensures same { held collator.new ≡ held collator.old }
{
    of_sharing(collator.share(alloc, other))
}

/// Checks whether bytes are a text that can be collated.
#[unsafe(no_mangle)]
pub extern "C" fn uca_check(text: &[u8], fault: &mut Fault) -> u32
    ensures { Reports check_report result fault.new (Checks text.now) }
{
    let report = of_check(uca_handle::check(text));
    *fault = report.fault;
    report.status
}

/// Compares two texts. The order is -1, 0 or 1.
#[unsafe(no_mangle)]
pub extern "C" fn uca_compare(
    collator: &mut Collator,
    settings: &RawSettings,
    a: &[u8],
    b: &[u8],
    order: &mut i32,
    fault: &mut Fault,
) -> u32
    ensures compares { MatchOption (settings_named settings.now)
        (IsRefused result fault.new × (order.new ≡ order.old))
        (λ s. Reports compare_report result fault.new (λ outcome. Compares (held collator.old) s a.now b.now outcome × (order.new ≡ order_after order.old outcome))) }
    ensures same { held collator.new ≡ held collator.old }
{
    let Some(s) = settings_of(settings) else {
        *fault = NO_FAULT;
        return BAD_SETTINGS;
    };
    let outcome = collator.compare(s, a, b);
    if let Ok(found) = outcome {
        *order = order_number(found);
    }
    let report = of_comparison(outcome);
    *fault = report.fault;
    report.status
}

/// Puts the sort key of a text into the front of a buffer, or as many of its bytes as fit, and reports how many it has.
#[unsafe(no_mangle)]
pub extern "C" fn uca_sort_key(
    alloc: Global,
    collator: &mut Collator,
    settings: &RawSettings,
    text: &[u8],
    out: &mut [u8],
    needed: &mut usize,
    fault: &mut Fault,
) -> u32
    ensures key { MatchOption (settings_named settings.now)
        (IsRefused result fault.new × (out.new ≡ out.old) × (needed.new ≡ needed.old))
        (λ s. Reports key_report result fault.new (λ outcome. MakesKey (held collator.old) s text.now out.old out.new outcome × (needed.new ≡ size_after needed.old outcome))) }
    ensures same { held collator.new ≡ held collator.old }
{
    let Some(s) = settings_of(settings) else {
        *fault = NO_FAULT;
        return BAD_SETTINGS;
    };
    report_key(collator.sort_key(alloc, s, text, out), needed, fault)
}

/// Puts the packed sort key of a text into the front of a buffer, or as many of its bytes as fit, and reports how many it has.
#[unsafe(no_mangle)]
pub extern "C" fn uca_packed_key(
    alloc: Global,
    collator: &mut Collator,
    settings: &RawSettings,
    text: &[u8],
    out: &mut [u8],
    needed: &mut usize,
    fault: &mut Fault,
) -> u32
    ensures key { MatchOption (settings_named settings.now)
        (IsRefused result fault.new × (out.new ≡ out.old) × (needed.new ≡ needed.old))
        (λ s. Reports key_report result fault.new (λ outcome. MakesPackedKey (held collator.old) s text.now out.old out.new outcome × (needed.new ≡ size_after needed.old outcome))) }
    ensures same { held collator.new ≡ held collator.old }
{
    let Some(s) = settings_of(settings) else {
        *fault = NO_FAULT;
        return BAD_SETTINGS;
    };
    report_key(collator.packed_key(alloc, s, text, out), needed, fault)
}

/// Writes the sort key of a text into the front of a buffer, or as many of its bytes as fit, and reports how many it has. It
/// does not allocate.
#[unsafe(no_mangle)]
pub extern "C" fn uca_write_key(
    collator: &mut Collator,
    settings: &RawSettings,
    text: &[u8],
    out: &mut [u8],
    needed: &mut usize,
    fault: &mut Fault,
) -> u32
    ensures key { MatchOption (settings_named settings.now)
        (IsRefused result fault.new × (out.new ≡ out.old) × (needed.new ≡ needed.old))
        (λ s. Reports key_report result fault.new (λ outcome. WritesKey (held collator.old) s text.now out.old out.new outcome × (needed.new ≡ size_after needed.old outcome))) }
    ensures same { held collator.new ≡ held collator.old }
{
    let Some(s) = settings_of(settings) else {
        *fault = NO_FAULT;
        return BAD_SETTINGS;
    };
    report_key(collator.write_key(s, text, out), needed, fault)
}

/// Puts the two ends of the keys of all texts whose primary weights begin with those of a text into the fronts of two buffers, or
/// as many of their bytes as fit, and reports how many they have. An upper end that is there has at least one byte; where there is
/// none, it is reported to have 0.
#[unsafe(no_mangle)]
pub extern "C" fn uca_prefix_bounds(
    alloc: Global,
    collator: &mut Collator,
    settings: &RawSettings,
    text: &[u8],
    lower: &mut [u8],
    upper: &mut [u8],
    lower_needed: &mut usize,
    upper_needed: &mut usize,
    fault: &mut Fault,
) -> u32
    ensures bounds { MatchOption (settings_named settings.now)
        (IsRefused result fault.new × (lower.new ≡ lower.old) × (upper.new ≡ upper.old) × (lower_needed.new ≡ lower_needed.old) × (upper_needed.new ≡ upper_needed.old))
        (λ s. Reports bounds_report result fault.new (λ outcome. PutsBounds (held collator.old) s.weighting text.now lower.old lower.new upper.old upper.new outcome × (lower_needed.new ≡ lower_size_after lower_needed.old outcome) × (upper_needed.new ≡ upper_size_after upper_needed.old outcome))) }
    ensures same { held collator.new ≡ held collator.old }
{
    let Some(s) = settings_of(settings) else {
        *fault = NO_FAULT;
        return BAD_SETTINGS;
    };
    report_bounds(
        collator.prefix_bounds(alloc, s.weighting, text, lower, upper),
        lower_needed,
        upper_needed,
        fault,
    )
}

/// The same of packed keys, as `uca_packed_key` makes them.
#[unsafe(no_mangle)]
pub extern "C" fn uca_packed_prefix_bounds(
    alloc: Global,
    collator: &mut Collator,
    settings: &RawSettings,
    text: &[u8],
    lower: &mut [u8],
    upper: &mut [u8],
    lower_needed: &mut usize,
    upper_needed: &mut usize,
    fault: &mut Fault,
) -> u32
    ensures bounds { MatchOption (settings_named settings.now)
        (IsRefused result fault.new × (lower.new ≡ lower.old) × (upper.new ≡ upper.old) × (lower_needed.new ≡ lower_needed.old) × (upper_needed.new ≡ upper_needed.old))
        (λ s. Reports bounds_report result fault.new (λ outcome. PutsPackedBounds (held collator.old) s.weighting text.now lower.old lower.new upper.old upper.new outcome × (lower_needed.new ≡ lower_size_after lower_needed.old outcome) × (upper_needed.new ≡ upper_size_after upper_needed.old outcome))) }
    ensures same { held collator.new ≡ held collator.old }
{
    let Some(s) = settings_of(settings) else {
        *fault = NO_FAULT;
        return BAD_SETTINGS;
    };
    report_bounds(
        collator.packed_prefix_bounds(alloc, s.weighting, text, lower, upper),
        lower_needed,
        upper_needed,
        fault,
    )
}

/// Tells whether a text is complete: 1 if it is, else 0. Then every text that begins with it has its keys between the two ends, and
/// its packed keys between theirs.
#[unsafe(no_mangle)]
pub extern "C" fn uca_is_complete(
    collator: &mut Collator,
    text: &[u8],
    complete: &mut u32,
    fault: &mut Fault,
) -> u32
    ensures complete { Reports completeness_report result fault.new (λ outcome. TellsComplete (held collator.old) text.now outcome × (complete.new ≡ complete_after complete.old outcome)) }
    ensures same { held collator.new ≡ held collator.old }
{
    let outcome = collator.is_complete(text);
    if let Ok(found) = outcome {
        *complete = u32::from(found);
    }
    let report = of_completeness(outcome);
    *fault = report.fault;
    report.status
}

/// Tells at which line a byte is, and at which character of the line, both counted from 1.
#[unsafe(no_mangle)]
pub extern "C" fn uca_locate(bytes: &[u8], at: u64, line: &mut u64, column: &mut u64)
    ensures line { line.new ≡ (place_of bytes.now at).line }
    ensures column { column.new ≡ (place_of bytes.now at).column }
{
    let place = locate(bytes, at);
    *line = place.line;
    *column = place.column;
}

/// Reports the fingerprint of a collator's table and settings.
#[unsafe(no_mangle)]
pub extern "C" fn uca_fingerprint(
    alloc: Global,
    collator: &mut Collator,
    settings: &RawSettings,
    out: &mut Digest,
) -> u32
    ensures digest { MatchOption (settings_named settings.now)
        ((result ≡ BAD_SETTINGS) × (out.new ≡ out.old))
        (λ s. ReportsStatus fingerprint_status result (λ outcome. Fingerprints (held collator.old) s outcome × (out.new ≡ digest_after out.old outcome))) }
    ensures same { held collator.new ≡ held collator.old }
{
    let Some(s) = settings_of(settings) else {
        return BAD_SETTINGS;
    };
    let outcome = collator.fingerprint(alloc, s);
    if let Ok(bytes) = outcome {
        *out = Digest { bytes };
    }
    of_fingerprint(outcome)
}
