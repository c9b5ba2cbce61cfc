ghost use Rattle.std.specs.Prelude.{◌≡◌};
ghost use Rattle.uca_c.specs.Reports.{bounds_report, check_report, compare_report, completeness_report, fingerprint_status, key_report, lower_size_after, open_report, order_number, placed, plain, rule_kind, share_status, size_after, table_kind, tailoring_kind, text_report, upper_size_after};

use crate::numbers::*;
use std::cmp::Ordering;
use uca_allkeys::ReadCause;
use uca_handle::{
    BoundsFault, BoundsSize, CompareFault, FingerprintFault, KeyFault, OpenFault, ShareFault,
    TextFault,
};
use uca_tailor::{RuleCause, TailorCause};

/// Where a fault is, and of what kind.
#[repr(C)]
#[derive(Clone, Copy)]
pub struct Fault {
    /// The kind of a fault of the table, the rules or the tailoring, and else 0.
    pub kind: u32,
    /// Which text is at fault, counted from 1; 0 where the table or the rules are, or nothing is.
    pub text: u32,
    /// The byte of the text or of the rules, the line of the table or the relation of the rules.
    pub at: u64,
}

/// A SHA-256 digest.
#[repr(C)]
#[derive(Clone, Copy)]
pub struct Digest {
    pub bytes: [u8; 32],
}

/// What a call reports.
#[derive(Clone, Copy)]
pub(crate) struct Report {
    pub status: u32,
    pub fault: Fault,
}

/// The fault of a call that has none to report.
pub(crate) const NO_FAULT: Fault = Fault {
    kind: 0,
    text: 0,
    at: 0,
};

impl Report {
    /// No fault.
    pub(crate) fn plain(status: u32) -> Report
        ensures { result ≡ plain status }
    {
        Report {
            status,
            fault: NO_FAULT,
        }
    }

    /// A fault of this kind at a place.
    fn at(status: u32, kind: u32, at: u64) -> Report
        ensures { result ≡ placed status kind at }
    {
        Report {
            status,
            fault: Fault { kind, text: 0, at },
        }
    }

    /// The fault of a text by its number.
    pub(crate) fn of_text(text: u32, fault: TextFault) -> Report
        ensures { result ≡ text_report text fault }
    {
        let (status, byte) = match fault {
            TextFault::NotUtf8(byte) => (NOT_UTF8, byte),
            TextFault::LongRun(byte) => (LONG_RUN, byte),
        };
        Report {
            status,
            fault: Fault {
                kind: 0,
                text,
                at: byte as u64,
            },
        }
    }
}

/// The kind of a fault of a table's text.
fn table_kind(cause: ReadCause) -> u32
    ensures { result ≡ table_kind cause }
{
    match cause {
        ReadCause::LineTooLong => TABLE_LINE_TOO_LONG,
        ReadCause::BadDirective => TABLE_BAD_DIRECTIVE,
        ReadCause::BadCodePoint => TABLE_BAD_CODE_POINT,
        ReadCause::KeyTooLong => TABLE_KEY_TOO_LONG,
        ReadCause::NoSemicolon => TABLE_NO_SEMICOLON,
        ReadCause::BadElement => TABLE_BAD_ELEMENT,
        ReadCause::NoElement => TABLE_NO_ELEMENT,
        ReadCause::TooManyElements => TABLE_TOO_MANY_ELEMENTS,
        ReadCause::Repeated => TABLE_REPEATED,
        ReadCause::BadRange => TABLE_BAD_RANGE,
        ReadCause::TooLarge => TABLE_TOO_LARGE,
        // Bytes in memory are read whole, and an allocation failure has a status of its own.
        ReadCause::Read | ReadCause::OutOfMemory => 0,
    }
}

/// The kind of a fault of a text of rules.
fn rule_kind(cause: RuleCause) -> u32
    ensures { result ≡ rule_kind cause }
{
    match cause {
        RuleCause::Syntax => RULES_SYNTAX,
        RuleCause::LeftOut => RULES_LEFT_OUT,
        RuleCause::EmptyString => RULES_EMPTY_STRING,
        RuleCause::LongRun => RULES_LONG_RUN,
        RuleCause::KeyTooLong => RULES_KEY_TOO_LONG,
        RuleCause::TooManyRelations => RULES_TOO_MANY_RELATIONS,
        // An allocation failure has a status of its own.
        RuleCause::OutOfMemory => 0,
    }
}

/// The kind of a fault of a relation.
fn tailoring_kind(cause: TailorCause) -> u32
    ensures { result ≡ tailoring_kind cause }
{
    match cause {
        TailorCause::SmallWeight => TAILOR_SMALL_WEIGHT,
        TailorCause::HighReset => TAILOR_HIGH_RESET,
        TailorCause::Full(level) => match level {
            1 => TAILOR_FULL_PRIMARY,
            2 => TAILOR_FULL_SECONDARY,
            _ => TAILOR_FULL_TERTIARY,
        },
        TailorCause::TooManyElements => TAILOR_TOO_MANY_ELEMENTS,
        // An allocation failure has a status of its own.
        TailorCause::OutOfMemory => 0,
    }
}

/// What `uca_open` reports.
pub(crate) fn of_opening(outcome: Result<(), OpenFault>) -> Report
    ensures { result ≡ open_report outcome }
{
    match outcome {
        Ok(()) => Report::plain(OK),
        Err(OpenFault::Table(fault)) => Report::at(BAD_TABLE, table_kind(fault.cause), fault.line),
        Err(OpenFault::RulesNotUtf8(byte)) => Report::at(BAD_RULES, RULES_NOT_UTF8, byte as u64),
        Err(OpenFault::Rules(fault)) => Report::at(
            BAD_RULES,
            rule_kind(fault.cause),
            fault.at as u64,
        ),
        Err(OpenFault::Tailor(fault)) => Report::at(
            BAD_TAILORING,
            tailoring_kind(fault.cause),
            fault.relation,
        ),
        Err(OpenFault::OutOfMemory) => Report::plain(NO_MEMORY),
    }
}

/// The status of `uca_clone`.
pub(crate) fn of_sharing(outcome: Result<(), ShareFault>) -> u32
    ensures { result ≡ share_status outcome }
{
    match outcome {
        Ok(()) => OK,
        Err(ShareFault::Closed) => CLOSED,
        Err(ShareFault::OutOfMemory) => NO_MEMORY,
    }
}

/// What `uca_check` reports.
pub(crate) fn of_check(outcome: Result<(), TextFault>) -> Report
    ensures { result ≡ check_report outcome }
{
    match outcome {
        Ok(()) => Report::plain(OK),
        Err(fault) => Report::of_text(1, fault),
    }
}

/// What `uca_compare` reports.
pub(crate) fn of_comparison(outcome: Result<Ordering, CompareFault>) -> Report
    ensures { result ≡ compare_report outcome }
{
    match outcome {
        Ok(_) => Report::plain(OK),
        Err(CompareFault::Closed) => Report::plain(CLOSED),
        Err(CompareFault::First(fault)) => Report::of_text(1, fault),
        Err(CompareFault::Second(fault)) => Report::of_text(2, fault),
    }
}

/// What `uca_sort_key` and its like report.
pub(crate) fn of_key(outcome: Result<usize, KeyFault>) -> Report
    ensures { result ≡ key_report outcome }
{
    match outcome {
        Ok(_) => Report::plain(OK),
        Err(KeyFault::Closed) => Report::plain(CLOSED),
        Err(KeyFault::Text(fault)) => Report::of_text(1, fault),
        Err(KeyFault::OutOfMemory) => Report::plain(NO_MEMORY),
    }
}

/// Reports the length of a key, or else the fault.
pub(crate) fn report_key(
    outcome: Result<usize, KeyFault>,
    needed: &mut usize,
    fault: &mut Fault,
) -> u32
    ensures needed { needed.new ≡ size_after needed.old outcome }
    ensures report { key_report outcome ≡ record { status = result; fault = fault.new } }
{
    if let Ok(size) = outcome {
        *needed = size;
    }
    let report = of_key(outcome);
    *fault = report.fault;
    report.status
}

/// What `uca_prefix_bounds` and `uca_packed_prefix_bounds` report.
fn of_bounds(outcome: Result<BoundsSize, BoundsFault>) -> Report
    ensures { result ≡ bounds_report outcome }
{
    match outcome {
        Ok(_) => Report::plain(OK),
        Err(BoundsFault::Closed) => Report::plain(CLOSED),
        Err(BoundsFault::Text(fault)) => Report::of_text(1, fault),
        Err(BoundsFault::OutOfMemory) => Report::plain(NO_MEMORY),
    }
}

/// Reports the lengths of the two ends of a range, 0 for one that is not there, or else the fault.
pub(crate) fn report_bounds(
    outcome: Result<BoundsSize, BoundsFault>,
    lower_needed: &mut usize,
    upper_needed: &mut usize,
    fault: &mut Fault,
) -> u32
    ensures lower { lower_needed.new ≡ lower_size_after lower_needed.old outcome }
    ensures upper { upper_needed.new ≡ upper_size_after upper_needed.old outcome }
    ensures report { bounds_report outcome ≡ record { status = result; fault = fault.new } }
{
    if let Ok(size) = outcome {
        *lower_needed = size.lower;
        *upper_needed = size.upper.unwrap_or(0);
    }
    let report = of_bounds(outcome);
    *fault = report.fault;
    report.status
}

/// What `uca_is_complete` reports.
pub(crate) fn of_completeness(outcome: Result<bool, KeyFault>) -> Report
    ensures { result ≡ completeness_report outcome }
{
    match outcome {
        Ok(_) => Report::plain(OK),
        Err(KeyFault::Closed) => Report::plain(CLOSED),
        Err(KeyFault::Text(fault)) => Report::of_text(1, fault),
        Err(KeyFault::OutOfMemory) => Report::plain(NO_MEMORY),
    }
}

/// The status of `uca_fingerprint`.
pub(crate) fn of_fingerprint(outcome: Result<[u8; 32], FingerprintFault>) -> u32
    ensures { result ≡ fingerprint_status outcome }
{
    match outcome {
        Ok(_) => OK,
        Err(FingerprintFault::Closed) => CLOSED,
        Err(FingerprintFault::OutOfMemory) => NO_MEMORY,
    }
}

/// An order as C has it.
pub(crate) fn order_number(order: Ordering) -> i32
    ensures { result ≡ order_number order }
{
    match order {
        Ordering::Less => -1,
        Ordering::Equal => 0,
        Ordering::Greater => 1,
    }
}
