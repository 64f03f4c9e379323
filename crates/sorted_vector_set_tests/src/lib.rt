//! The proved callers and tests of `sorted_vector_set`, as a crate that stands on it writes them.
#![tactic(auto)]

pub mod callers;
#[cfg(test)]
mod pair_tests;
#[cfg(test)]
mod tests;
