//! Sets of ranges as their cuts: the values at which membership changes.
//!
//! The cuts of a set are the first value of each of its ranges, and the value behind the last one
//! of each where there is one. A value is a member exactly where the count of cuts at most it is
//! odd. A set is given by its cuts, each ascending list of values is the cuts of one set, and the
//! cuts of the members of just one of two sets are those cuts that just one of them has.
#![tactic(auto)]

mod convert;
mod cuts_left;
pub mod laws;
mod many;
mod operations;

pub use convert::{contains_by_cuts, cuts, from_cut_slice, from_cuts};
pub use many::all_cuts;
pub use operations::{difference, symmetric_difference};
