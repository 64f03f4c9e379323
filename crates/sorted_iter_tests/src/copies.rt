//! Streams and what is left of them, each by a copy.
#![tactic(auto, using(sorted_iter::specs::Sources::sources, crate::proofs::Literals::literals))]

ghost use Rattle.std.specs.List.Sorted.{IsStrictlySortedBy};
ghost use Rattle.std.specs.Ordering.{nat_cmp};

use element_core::NoMemory;
use sorted_iter::{AssumeSortedByItemExt, SortedIterator};
use std::alloc::Global;

// Returns the union, and what is left of it after its first item, each by a copy of the stream.
pub(crate) fn copies_of_union(
    alloc: Global,
    a: &[u32],
    b: &[u32],
) -> Result<(Vec<u32>, Vec<u32>), NoMemory>
    requires left { IsStrictlySortedBy nat_cmp a.now }
    requires right { IsStrictlySortedBy nat_cmp b.now }
{
    let left = a.iter().copied().assume_sorted_by_item();
    let mut stream = left.union(b.iter().copied().assume_sorted_by_item());
    let fresh = stream.try_clone()?;
    drop(stream.next());
    let rest = stream.try_clone()?;
    Ok((fresh.collect(alloc)?, rest.collect(alloc)?))
}

// Returns the intersection, and what is left of it after its first item, each by a copy of the
// stream.
pub(crate) fn copies_of_intersection(
    alloc: Global,
    a: &[u32],
    b: &[u32],
) -> Result<(Vec<u32>, Vec<u32>), NoMemory>
    requires left { IsStrictlySortedBy nat_cmp a.now }
    requires right { IsStrictlySortedBy nat_cmp b.now }
{
    let left = a.iter().copied().assume_sorted_by_item();
    let mut stream = left.intersection(b.iter().copied().assume_sorted_by_item());
    let fresh = stream.try_clone()?;
    drop(stream.next());
    let rest = stream.try_clone()?;
    Ok((fresh.collect(alloc)?, rest.collect(alloc)?))
}

// Returns the difference, and what is left of it after its first item, each by a copy of the
// stream.
pub(crate) fn copies_of_difference(
    alloc: Global,
    a: &[u32],
    b: &[u32],
) -> Result<(Vec<u32>, Vec<u32>), NoMemory>
    requires left { IsStrictlySortedBy nat_cmp a.now }
    requires right { IsStrictlySortedBy nat_cmp b.now }
{
    let left = a.iter().copied().assume_sorted_by_item();
    let mut stream = left.difference(b.iter().copied().assume_sorted_by_item());
    let fresh = stream.try_clone()?;
    drop(stream.next());
    let rest = stream.try_clone()?;
    Ok((fresh.collect(alloc)?, rest.collect(alloc)?))
}

// Returns the symmetric difference, and what is left of it after its first item, each by a copy of
// the stream.
pub(crate) fn copies_of_symmetric_difference(
    alloc: Global,
    a: &[u32],
    b: &[u32],
) -> Result<(Vec<u32>, Vec<u32>), NoMemory>
    requires left { IsStrictlySortedBy nat_cmp a.now }
    requires right { IsStrictlySortedBy nat_cmp b.now }
{
    let left = a.iter().copied().assume_sorted_by_item();
    let mut stream = left.symmetric_difference(b.iter().copied().assume_sorted_by_item());
    let fresh = stream.try_clone()?;
    drop(stream.next());
    let rest = stream.try_clone()?;
    Ok((fresh.collect(alloc)?, rest.collect(alloc)?))
}

// Returns the pairs of a stream, and what is left of them after the first one, each by a copy of
// the stream.
pub(crate) fn copies_of_pairs(
    alloc: Global,
    a: &[u32],
) -> Result<(Vec<(u32, ())>, Vec<(u32, ())>), NoMemory>
    requires { IsStrictlySortedBy nat_cmp a.now }
{
    let mut stream = a.iter().copied().assume_sorted_by_item().pairs();
    let fresh = stream.try_clone()?;
    drop(stream.next());
    let rest = stream.try_clone()?;
    Ok((fresh.collect(alloc)?, rest.collect(alloc)?))
}

// Returns a stream by assumption and its copy.
pub(crate) fn copy_of_assumed(alloc: Global, a: &[u32]) -> Result<Vec<u32>, NoMemory>
    requires { IsStrictlySortedBy nat_cmp a.now }
{
    let mut stream = a.iter().copied().assume_sorted_by_item();
    drop(stream.next());
    Ok(stream.try_clone()?.collect(alloc)?)
}
