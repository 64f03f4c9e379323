//! A map whose pairs lie in the order of their keys in one vector.
//!
//! Look-ups are a binary search, and keys in order are put in at the end without one. Putting a
//! pair in before others, or taking one out, moves those behind it; many new pairs at once are
//! merged in.
#![tactic(auto)]

mod compared;
mod entry;
mod grow;
mod iters;
pub mod laws;
mod lending;
mod map;
mod merge;
mod ranges;
mod retain;

pub use element_core::{NoMemory, Refused};
pub use entry::{Entry, OccupiedEntry, VacantEntry};
pub use iters::{IntoKeys, IntoValues, Iter, IterMut, Keys, Values, ValuesMut};
pub use map::SortedVectorMap;
