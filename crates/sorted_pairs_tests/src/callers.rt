//! Callers as a user would write them, each proved to learn the list that it gets.
#![tactic(auto, using(sorted_pairs::specs::Sources::sources, crate::proofs::Literals::literals))]

ghost use Rattle.std.specs.Prelude.{◌≡◌, IfOk, IfSome, Some};
ghost use Rattle.std.specs.List.Sorted.{IsStrictlySortedBy};
ghost use Rattle.ordered_lists.specs.Joins.{keys, join, left_join, right_join, outer_join};
ghost use Rattle.ordered_lists.specs.Lists.{by_key};
ghost use Rattle.sorted_pairs.specs.JoinStreams.{join_steps};
ghost use Rattle.sorted_pairs.specs.Joined.{JoinsRuns};

use sorted_pairs::{AssumeSortedByKeyExt, Join, SortedPairIterator};
use std::alloc::{AllocError, Global};

/// Returns the first pair, and then the join of the rest with another stream.
pub fn join_after_first<
    K: Ord + Drop,
    V: Drop,
    W: Drop,
    I: Iterator<Item = (K, V)> + SortedPairIterator<K, V>,
    J: Iterator<Item = (K, W)> + SortedPairIterator<K, W>,
>(mut left: I, right: J) -> Option<((K, V), Join<I, J>)>
where
    requires can { I.can_next left }
    requires left_ascends { I.in_order left }
    requires right_ascends { J.in_order right }
    ensures { IfSome result (λ p. (t : I) × I.next_gives left (Some p.0) t
        × JoinsRuns K.cmp (join K.cmp) (join_steps K.cmp I.next_gives J.next_gives) p.1
        I.next_gives t J.next_gives right) }
{
    let first = left.next()?;
    Some((first, left.join(right)))
}

/// Returns the pairs of two slices that have one key.
pub fn join_of<K: Ord + Copy, V: Copy, W: Copy>(
    alloc: Global,
    a: &[(K, V)],
    b: &[(K, W)],
) -> Result<Vec<(K, (V, W))>, AllocError>
    requires left { IsStrictlySortedBy (by_key K.cmp) a.now }
    requires right { IsStrictlySortedBy (by_key K.cmp) b.now }
    ensures { IfOk result (λ v. v.items ≡ join K.cmp a.now b.now) }
{
    let left = a.iter().copied().assume_sorted_by_key();
    let right = b.iter().copied().assume_sorted_by_key();
    left.join(right).collect(alloc)
}

/// Returns each pair of the first slice, with the second one's value.
pub fn left_join_of<K: Ord + Copy, V: Copy, W: Copy>(
    alloc: Global,
    a: &[(K, V)],
    b: &[(K, W)],
) -> Result<Vec<(K, (V, Option<W>))>, AllocError>
    requires left { IsStrictlySortedBy (by_key K.cmp) a.now }
    requires right { IsStrictlySortedBy (by_key K.cmp) b.now }
    ensures { IfOk result (λ v. v.items ≡ left_join K.cmp a.now b.now) }
{
    let left = a.iter().copied().assume_sorted_by_key();
    let right = b.iter().copied().assume_sorted_by_key();
    left.left_join(right).collect(alloc)
}

/// Returns each pair of the second slice, with the first one's value.
pub fn right_join_of<K: Ord + Copy, V: Copy, W: Copy>(
    alloc: Global,
    a: &[(K, V)],
    b: &[(K, W)],
) -> Result<Vec<(K, (Option<V>, W))>, AllocError>
    requires left { IsStrictlySortedBy (by_key K.cmp) a.now }
    requires right { IsStrictlySortedBy (by_key K.cmp) b.now }
    ensures { IfOk result (λ v. v.items ≡ right_join K.cmp a.now b.now) }
{
    let left = a.iter().copied().assume_sorted_by_key();
    let right = b.iter().copied().assume_sorted_by_key();
    left.right_join(right).collect(alloc)
}

/// Returns each key of either slice, with both values.
pub fn outer_join_of<K: Ord + Copy, V: Copy, W: Copy>(
    alloc: Global,
    a: &[(K, V)],
    b: &[(K, W)],
) -> Result<Vec<(K, (Option<V>, Option<W>))>, AllocError>
    requires left { IsStrictlySortedBy (by_key K.cmp) a.now }
    requires right { IsStrictlySortedBy (by_key K.cmp) b.now }
    ensures { IfOk result (λ v. v.items ≡ outer_join K.cmp a.now b.now) }
{
    let left = a.iter().copied().assume_sorted_by_key();
    let right = b.iter().copied().assume_sorted_by_key();
    left.outer_join(right).collect(alloc)
}

/// Returns the keys of a slice of pairs.
pub fn keys_of<K: Ord + Copy, V: Copy>(alloc: Global, a: &[(K, V)]) -> Result<Vec<K>, AllocError>
    requires { IsStrictlySortedBy (by_key K.cmp) a.now }
    ensures { IfOk result (λ v. v.items ≡ keys a.now) }
{
    a.iter()
        .copied()
        .assume_sorted_by_key()
        .keys()
        .collect(alloc)
}
