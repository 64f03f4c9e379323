//! The proved callers and tests of `sorted_pairs`, as a crate that stands on it writes them.
#![tactic(auto)]

pub mod callers;
#[cfg(test)]
mod copies;
#[cfg(test)]
mod tests;
