//! Lazy set operations over streams whose items strictly ascend. A mark with laws says of an
//! iterator that they do.
#![tactic(auto)]

mod adapter_marks;
mod ahead;
mod hints;
mod marks;
mod multiway;
mod pairs;
mod sides;
mod std_marks;
mod streams;

// Their fields are read by the contracts of the streams and by the proofs of crates above. The key
// joins of `sorted_pairs` are built of these, of `Wants` and of the hints.
#[doc(hidden)]
pub use crate::ahead::{Ahead, Head};
#[doc(hidden)]
pub use crate::hints::{Hint, of_intersection, of_union};
pub use crate::marks::{
    AssumeSortedByItem, AssumeSortedByItemExt, OneOrLess, SortedByItem, SortedIterator,
};
#[doc(hidden)]
pub use crate::multiway::InputHead;
pub use crate::multiway::{MultiwayUnion, multiway_union};
pub use crate::pairs::Pairs;
#[doc(hidden)]
pub use crate::sides::{Sides, Wants};
pub use crate::streams::{Difference, Intersection, SymmetricDifference, Union};
