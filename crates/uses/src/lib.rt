//! Callers that use several crates together, as a user would write them. Each is proved from public
//! contracts alone.
#![tactic(auto)]

mod merging;
mod streams;

pub use crate::merging::{left_merge_join, merge_join};
pub use crate::streams::{is_part_of, items_of_both, keys_of_either, number_of_keys};

#[cfg(test)]
mod empty_map_tests;
#[cfg(test)]
mod merging_tests;
#[cfg(test)]
mod tag_tests;
#[cfg(test)]
mod tests;
