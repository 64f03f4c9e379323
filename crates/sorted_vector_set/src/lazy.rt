//! Lazy set operations on two sets: the calls that begin.
ghost use Rattle.std.specs.Prelude.{◌≡◌, Some, length};
ghost use Rattle.std.specs.List.Sorted.{IsStrictlySortedBy};
ghost use Rattle.ordered_lists.specs.Lists.{union, intersection, difference, symmetric_difference};
ghost use Rattle.sorted_iter.specs.Hints.{sum_where_known};
ghost use Rattle.sorted_vector_set.specs.Lazy.{union_to_come, intersection_to_come, difference_to_come, symmetric_difference_to_come, left_of, IsSide, AreSides};

use crate::set::SortedVectorSet;
use sorted_iter::{Ahead, Head, Sides};
use std::slice::Iter;

mod apart;
mod either;
mod missing;
mod shared;

pub use apart::SymmetricDifference;
pub use either::Union;
pub use missing::Difference;
pub use shared::Intersection;

// The two sides of a walk along two sets.
pub(crate) type TwoSets<'a, T> = Sides<Iter<'a, T>, Iter<'a, T>>;

impl<T: Ord> SortedVectorSet<T> {
    /// Returns the items of this set to which no item of `other` is equal, lazily and in ascending
    /// order. O(1) time, and O(n + m) for all items together, as do the other three. None takes
    /// memory.
    pub fn difference<'a>(&'a self, other: &'a Self) -> Difference<'a, T>
        ensures own { result.own ≡ self.now.items }
        ensures other { result.other ≡ other.now.items }
        ensures items { difference_to_come T.cmp result
            ≡ difference T.cmp self.now.items other.now.items }
        ensures ascending { IsStrictlySortedBy T.cmp (difference_to_come T.cmp result) }
    {
        Difference {
            sides: walk_along(self, other),
        }
    }

    /// Returns the items of either set to which no item of the other is equal, lazily and in
    /// ascending order.
    pub fn symmetric_difference<'a>(&'a self, other: &'a Self) -> SymmetricDifference<'a, T>
        ensures own { result.own ≡ self.now.items }
        ensures other { result.other ≡ other.now.items }
        ensures items { symmetric_difference_to_come T.cmp result
            ≡ symmetric_difference T.cmp self.now.items other.now.items }
        ensures ascending { IsStrictlySortedBy T.cmp (symmetric_difference_to_come T.cmp result) }
    {
        SymmetricDifference {
            sides: walk_along(self, other),
        }
    }

    /// Returns the items of this set to which an item of `other` is equal, lazily and in ascending
    /// order.
    pub fn intersection<'a>(&'a self, other: &'a Self) -> Intersection<'a, T>
        ensures own { result.own ≡ self.now.items }
        ensures other { result.other ≡ other.now.items }
        ensures items { intersection_to_come T.cmp result
            ≡ intersection T.cmp self.now.items other.now.items }
        ensures ascending { IsStrictlySortedBy T.cmp (intersection_to_come T.cmp result) }
    {
        Intersection {
            sides: walk_along(self, other),
        }
    }

    /// Returns the items of either set, lazily, in ascending order and each once; of two equal
    /// items that of `other`.
    pub fn union<'a>(&'a self, other: &'a Self) -> Union<'a, T>
        ensures own { result.own ≡ self.now.items }
        ensures other { result.other ≡ other.now.items }
        ensures items { union_to_come T.cmp result ≡ union T.cmp other.now.items self.now.items }
        ensures ascending { IsStrictlySortedBy T.cmp (union_to_come T.cmp result) }
    {
        Union {
            sides: walk_along(other, self),
        }
    }
}

// A walk that begins.
fn walk_along<'a, T: Ord>(
    left: &'a SortedVectorSet<T>,
    right: &'a SortedVectorSet<T>,
) -> TwoSets<'a, T>
    ensures left { left_of result.left ≡ left.now.items }
    ensures right { left_of result.right ≡ right.now.items }
    ensures sides { AreSides T.cmp result }
{
    Sides::new(left.iter(), right.iter())
}

// The number of items that are left of a side.
pub(crate) fn count_left<T: Ord>(side: &Ahead<Iter<'_, T>>) -> usize
    requires { IsSide T.cmp side.now }
    ensures { result ≡ length (left_of side.now) }
{
    match &side.head {
        Head::Held(_) => side.source.len() + 1,
        Head::Unread => side.source.len(),
        Head::Ended => 0,
    }
}

// The sum of two numbers, where it fits.
pub(crate) fn sum_of(m: usize, n: usize) -> Option<usize>
    ensures { result ≡ sum_where_known (Some m) (Some n) }
{
    m.checked_add(n)
}

// The same walk, as far as it has come.
pub(crate) fn copy_of<'a, T: Ord>(sides: &TwoSets<'a, T>) -> TwoSets<'a, T>
    requires { AreSides T.cmp sides.now }
    ensures left { left_of result.left ≡ left_of sides.now.left }
    ensures right { left_of result.right ≡ left_of sides.now.right }
    ensures sides { AreSides T.cmp result }
{
    Sides {
        left: copy_of_side(&sides.left),
        right: copy_of_side(&sides.right),
    }
}

// One side of such a walk.
fn copy_of_side<'a, T: Ord>(side: &Ahead<Iter<'a, T>>) -> Ahead<Iter<'a, T>>
    requires { IsSide T.cmp side.now }
    ensures left { left_of result ≡ left_of side.now }
    ensures side { IsSide T.cmp result }
{
    let head = match &side.head {
        Head::Held(item) => Head::Held(*item),
        Head::Unread => Head::Unread,
        Head::Ended => Head::Ended,
    };
    Ahead {
        source: side.source.as_slice().iter(),
        head,
    }
}
