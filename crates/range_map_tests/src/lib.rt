//! The proved callers and tests of `range_map`, as a crate that stands on it writes them.
#![tactic(auto)]

pub mod callers;
#[cfg(test)]
mod changing_tests;
#[cfg(test)]
mod from_iter_tests;
#[cfg(test)]
mod map_tests;
#[cfg(test)]
mod tests;
pub mod whole_callers;
#[cfg(test)]
mod whole_tests;
