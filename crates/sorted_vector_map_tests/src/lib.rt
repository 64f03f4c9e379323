//! The proved callers and tests of `sorted_vector_map`, as a crate that stands on it writes them.
#![tactic(auto)]

pub mod callers;
#[cfg(test)]
mod iter_mut_tests;
#[cfg(test)]
mod tests;
