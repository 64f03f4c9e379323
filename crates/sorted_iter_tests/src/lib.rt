//! The proved callers and tests of `sorted_iter`, as a crate that stands on it writes them.
#![tactic(auto)]

pub mod callers;
#[cfg(test)]
mod copies;
#[cfg(test)]
mod multiway_tests;
#[cfg(test)]
mod stream_tests;
#[cfg(test)]
mod tests;
