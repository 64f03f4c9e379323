//! The proved callers and tests of `range_multimap`, as a crate that stands on it writes them.
#![tactic(auto)]

pub mod callers;
#[cfg(test)]
mod changing_tests;
#[cfg(test)]
mod tests;
#[cfg(test)]
mod whole_tests;
