//! The proved callers and tests of `cut_points`, as a crate that stands on it writes them.
#![tactic(auto)]

pub mod callers;
#[cfg(test)]
mod tests;
