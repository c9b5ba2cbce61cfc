//! Tests of `uca_tailor`. They live in a crate of their own, so that the crate is not proved again with them.
#![tactic(auto)]

#[cfg(test)]
mod tests;
