//! A set whose items lie in order in one vector.
//!
//! Look-ups are a binary search, and items in order are put in at the end without one. Putting an
//! item in before others, or taking one out, moves those behind it; many new items at once are
//! merged in.
#![tactic(auto)]

mod combine;
mod compared;
mod grow;
mod iters;
mod lazy;
mod merge;
mod ranges;
mod relations;
mod retain;
mod set;

pub use element_core::{NoMemory, Refused};
pub use lazy::{Difference, Intersection, SymmetricDifference, Union};
pub use set::SortedVectorSet;
