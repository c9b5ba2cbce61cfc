//! Tests of `uca_handle`. They live in a crate of their own, so that the crate is not proved again with them.
#![tactic(auto)]

#[cfg(test)]
mod looks;
#[cfg(test)]
mod tests;
#[cfg(test)]
mod texts;
