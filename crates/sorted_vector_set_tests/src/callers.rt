//! What the caller of a guest list learns, and a stream of `sorted_iter` that is made from a set,
//! by what the set says of its items.
#![tactic(auto, using(sorted_iter::specs::Sources::sources))]

ghost use Rattle.std.specs.Prelude.{◌≡◌, ◌-◌, ◌&&◌, not, IfOk};
ghost use Rattle.std.specs.List.{range_with_len};
ghost use Rattle.std.specs.Ordering.{nat_cmp};
ghost use Rattle.std.specs.Slice.Iter.{iter_steps};
ghost use Rattle.ordered_lists.specs.Lists.{has, intersection};
ghost use Rattle.sorted_iter.specs.Orders.{InOrder};
ghost use Rattle.sorted_iter.specs.Streams.{assumed_source};

use sorted_iter::{AssumeSortedByItem, AssumeSortedByItemExt, SortedIterator};
use sorted_vector_set::SortedVectorSet;
use std::alloc::{AllocError, Global};
use std::slice::Iter;

/// Returns whether a guest is let in, who is on the list and isn't barred.
pub fn is_let_in(guests: &SortedVectorSet<u32>, barred: &SortedVectorSet<u32>, guest: u32) -> bool
    ensures { result
        ≡ (has nat_cmp guests.now.items guest && not (has nat_cmp barred.now.items guest)) }
{
    guests.contains(&guest) && !barred.contains(&guest)
}

/// The items of a set as a stream in order.
pub fn stream_of<'a, T: Ord>(set: &'a SortedVectorSet<T>) -> AssumeSortedByItem<Iter<'a, T>>
    ensures { InOrder (λ x y. T.cmp x.now y.now) (iter_steps {A = T}) (assumed_source result) }
{
    set.iter().assume_sorted_by_item()
}

/// The items of a set that lie in a range of numbers.
pub fn those_between(
    alloc: Global,
    set: &SortedVectorSet<u32>,
    low: u32,
    high: u32,
) -> Result<Vec<u32>, AllocError>
    ensures { IfOk result (λ all. all.items
        ≡ intersection nat_cmp set.now.items (range_with_len low (high - low))) }
{
    let items = set.iter().copied().assume_sorted_by_item();
    items.intersection(low..high).collect(alloc)
}
