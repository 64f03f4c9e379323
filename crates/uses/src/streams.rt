//! Streams over the keys of sorted maps and the items of sorted sets.
#![tactic(auto, using(sorted_iter::specs::Sources::sources))]

ghost use Rattle.std.specs.Prelude.{◌≡◌, IfOk, map};
ghost use Rattle.ordered_lists.specs.Lists.{union, intersection};

use sorted_iter::{AssumeSortedByItemExt, SortedIterator};
use sorted_vector_map::SortedVectorMap;
use sorted_vector_set::SortedVectorSet;
use std::alloc::{AllocError, Global};

/// Returns the keys of either map, ascending, each once.
pub fn keys_of_either<K: Ord + Copy, V, W>(
    alloc: Global,
    a: &SortedVectorMap<K, V>,
    b: &SortedVectorMap<K, W>,
) -> Result<Vec<K>, AllocError>
    ensures { IfOk result (λ keys. keys.items ≡ union K.cmp (map (λ p. p.0) a.now.pairs)
        (map (λ p. p.0) b.now.pairs)) }
{
    let left = a.keys().copied().assume_sorted_by_item();
    let right = b.keys().copied().assume_sorted_by_item();
    left.union(right).collect(alloc)
}

/// Returns the items of `a` that have an equal in `b`, ascending.
pub fn items_of_both<T: Ord + Copy>(
    alloc: Global,
    a: &SortedVectorSet<T>,
    b: &SortedVectorSet<T>,
) -> Result<Vec<T>, AllocError>
    ensures { IfOk result (λ items. items.items ≡ intersection T.cmp a.now.items b.now.items) }
{
    let left = a.iter().copied().assume_sorted_by_item();
    let right = b.iter().copied().assume_sorted_by_item();
    left.intersection(right).collect(alloc)
}

/// Returns how many keys two maps have together. The stream hands out references, and nothing is
/// copied.
pub fn number_of_keys<K: Ord, V, W>(a: &SortedVectorMap<K, V>, b: &SortedVectorMap<K, W>) -> usize {
    let left = a.keys().assume_sorted_by_item();
    let mut count = 0usize;
    for _ in left.union(b.keys().assume_sorted_by_item()) {
        count = count.saturating_add(1);
    }
    count
}

/// Returns whether each item of `a` is in `b`, by streams of references.
pub fn is_part_of<T: Ord>(a: &SortedVectorSet<T>, b: &SortedVectorSet<T>) -> bool {
    let left = a.iter().assume_sorted_by_item();
    left.is_subset(b.iter().assume_sorted_by_item())
}
