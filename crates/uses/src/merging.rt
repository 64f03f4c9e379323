//! Merge joins of two sorted maps.
ghost use Rattle.std.specs.Prelude.{◌≡◌, IfOk};
ghost use Rattle.ordered_lists.specs.Joins.{join, left_join};

use sorted_pairs::{AssumeSortedByKeyExt, SortedPairIterator};
use sorted_vector_map::SortedVectorMap;
use std::alloc::{AllocError, Global};

/// Returns the pairs of two maps that have one key, each with both values, in the order of the
/// keys. O(n + m) comparisons.
pub fn merge_join<K: Ord + Copy, V: Copy, W: Copy>(
    alloc: Global,
    a: &SortedVectorMap<K, V>,
    b: &SortedVectorMap<K, W>,
) -> Result<Vec<(K, (V, W))>, AllocError>
    ensures { IfOk result (λ v. v.items ≡ join K.cmp a.now.pairs b.now.pairs) }
{
    let left = a.iter().assume_sorted_by_key();
    let right = b.iter().assume_sorted_by_key();
    let mut all = Vec::new(alloc);
    for (key, (v, w)) in left.join(right) {
        all.push((*key, (*v, *w)))?;
    }
    Ok(all)
}

/// Returns each pair of the first map, with the value of the second one at its key, if any, in the
/// order of the keys. O(n + m) comparisons.
pub fn left_merge_join<K: Ord + Copy, V: Copy, W: Copy>(
    alloc: Global,
    a: &SortedVectorMap<K, V>,
    b: &SortedVectorMap<K, W>,
) -> Result<Vec<(K, (V, Option<W>))>, AllocError>
    ensures { IfOk result (λ v. v.items ≡ left_join K.cmp a.now.pairs b.now.pairs) }
{
    let left = a.iter().assume_sorted_by_key();
    let right = b.iter().assume_sorted_by_key();
    let mut all = Vec::new(alloc);
    for (key, (v, w)) in left.left_join(right) {
        all.push((*key, (*v, w.copied())))?;
    }
    Ok(all)
}
