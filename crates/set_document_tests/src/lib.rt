//! The proved callers and tests of `set_document`, as a crate that stands on it writes them.
#![tactic(auto)]

#[cfg(test)]
mod both_tests;
pub mod callers;
#[cfg(test)]
mod sample_tests;
#[cfg(test)]
mod table_tests;
#[cfg(test)]
mod tests;
