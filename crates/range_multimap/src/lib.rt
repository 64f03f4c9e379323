//! Ranges with values that may overlap, kept in the order in which they came, and grouped into
//! ranges that don't.
#![tactic(auto)]

mod changing;
mod grouped;
mod grouping;
mod multimap;
mod whole;

pub use grouped::Group;
pub use multimap::RangeMultiMap;
