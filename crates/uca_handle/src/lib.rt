//! A collator that outlives a call: it owns a share of a tailored table behind one pointer, so that code which is not
//! Rattle can hold it.
//!
//! [`Collator::load`] gives it the table that two texts say, and [`Collator::share`] gives another collator the same
//! table. The table is freed with the last collator that has it. [`Collator::compare`], [`Collator::sort_key`],
//! [`Collator::packed_key`], [`Collator::write_key`], [`Collator::prefix_bounds`] and [`Collator::packed_prefix_bounds`] work on
//! bytes: they check them, and report where a text ends or is not safe. [`Collator::compare_levels`] and [`Collator::matches`] show
//! why texts are in their order. [`Collator::fingerprint`] is of the table and the settings alone. [`Collator::compare_texts`],
//! [`Collator::sort_key_of`] and [`Collator::packed_key_of`] take texts that were checked before, and [`locate`] finds the line of
//! a byte.
#![tactic(auto)]

pub mod bounds;
mod bytes;
pub mod collator;
mod completeness;
mod digest;
pub mod faults;
pub mod handle;
mod keys;
pub mod laws;
pub mod levels;
mod loose;
pub mod matches;
mod opened;
mod opening;
pub mod places;
pub mod texts;

pub use bounds::BoundsSize;
pub use collator::Collator;
pub use faults::{BoundsFault, CompareFault, FingerprintFault, KeyFault, OpenFault, ShareFault};
pub use levels::Decision;
pub use matches::{ElementForm, MatchForm, MatchesSize};
pub use places::{Place, locate};
pub use texts::check;
pub use uca_window::{Passage, TextFault};
