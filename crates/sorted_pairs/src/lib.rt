//! Streams of pairs whose keys strictly ascend: their joins by key, their keys, and their values by
//! a function.
#![tactic(auto)]

mod adapter_marks;
mod assumed;
mod filter_map_values;
mod join;
mod keys;
pub mod laws;
mod left_join;
mod map_values;
mod marks;
mod matching;
mod outer_join;
mod right_join;
mod std_marks;

pub use crate::assumed::{AssumeSortedByKey, AssumeSortedByKeyExt};
pub use crate::filter_map_values::FilterMapValues;
pub use crate::join::Join;
pub use crate::keys::Keys;
pub use crate::left_join::LeftJoin;
pub use crate::map_values::MapValues;
pub use crate::marks::{SortedByKey, SortedPairIterator};
// What the walk of the joins answers: the definitions of their contracts name it.
#[doc(hidden)]
pub use crate::matching::EitherOrBoth;
pub use crate::outer_join::OuterJoin;
pub use crate::right_join::RightJoin;
