//! The proved callers and tests of `blaze_joins`, as a crate that stands on it writes them.
#![tactic(auto)]

pub mod callers;
#[cfg(test)]
mod join_tests;
#[cfg(test)]
mod tests;
