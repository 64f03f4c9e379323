//! Inclusive ranges of a numbered type, sets of its values kept as ranges, and maps from them kept
//! as ranges with a value each.
#![tactic(auto)]

mod iterated;
pub mod laws;
mod map;
#[doc(hidden)]
pub mod pairs;
mod range;
mod set;
pub mod sweep;

#[doc(hidden)]
pub use map::MapBuilder;
pub use map::{OverlapError, PairIter, RangeMap, TryFromIterError};
pub use range::Range;
pub use set::{EltIter, RangeIter, RangeSet};
