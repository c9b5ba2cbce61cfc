//! The definitions of collation, and their laws.
//!
//! Every public contract of the workspace is stated in the terms of this crate's `specs/`. The lemmas about these terms
//! are in `proofs/`, and each law is the contract of a function of `laws` whose body is empty. There is no other code here: the
//! functions that compute are in the crates above, each proved to meet its definition.
//!
//! Sections of UTS #10 are cited as revision 43 numbers them, the one of Unicode 13.0, whose published files the tests
//! of the workspace read. Sections of UAX #15 and UTS #35 are cited by the revisions of the same version.
#![tactic(auto)]

pub mod laws;
