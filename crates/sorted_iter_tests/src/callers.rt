//! Callers as a user would write them, each proved to learn what it needs.
#![tactic(auto, using(sorted_iter::specs::Sources::sources, crate::proofs::Literals::literals))]

ghost use Rattle.std.specs.Prelude.{◌≡◌, [], ◌∷◌, IfOk, IfSome, Some, Option, is_some};
ghost use Rattle.std.specs.Iterator.{IsFinite};
ghost use Rattle.ordered_lists.specs.Lists.{union};
ghost use Rattle.sorted_iter.specs.Orders.{RunsAre};
ghost use Rattle.sorted_iter.specs.Streams.{union_steps};
ghost use Rattle.sorted_iter.specs.Subsets.{TellsOfLists, is_within};

use sorted_iter::{AssumeSortedByItemExt, OneOrLess, SortedIterator, Union};
use std::alloc::{AllocError, Global};
use std::collections::{BTreeMap, BTreeSet};
use std::iter::once;

/// Returns the first item, and then the union of the rest with another stream.
pub fn union_after_first<I: SortedIterator, J: SortedIterator<Item = I::Item>>(
    mut left: I,
    right: J,
) -> Option<(I::Item, Union<I, J>)>
where
    I::Item: Ord + Drop,
    requires can { I.can_next left }
    requires left_ascends { I.in_order left }
    requires right_ascends { J.in_order right }
    ensures { IfSome result (λ p. (t : I) × I.next_gives left (Some p.0) t
        × RunsAre I.Item.cmp (union I.Item.cmp)
        (union_steps I.Item.cmp I.next_gives J.next_gives) p.1 I.next_gives t J.next_gives
        right) }
{
    let first = left.next()?;
    Some((first, left.union(right)))
}

/// Returns the items of two sets that are given up.
pub fn items_of_either<K: Ord + Drop>(
    alloc: Global,
    a: BTreeSet<K>,
    b: BTreeSet<K>,
) -> Result<Vec<K>, AllocError>
    ensures { IfOk result (λ v. v.items ≡ union K.cmp a.keys b.keys) }
{
    a.into_iter().union(b.into_iter()).collect(alloc)
}

/// Returns the keys that two maps have in common, as a stream.
pub fn shared_keys<K: Ord + Copy, V, W>(
    alloc: Global,
    a: &BTreeMap<K, V>,
    b: &BTreeMap<K, W>,
) -> Result<Vec<K>, AllocError> {
    a.keys().intersection(b.keys()).copied().collect(alloc)
}

/// Returns an array that is written out, and a range.
pub fn written_out(alloc: Global) -> Result<Vec<u32>, AllocError>
    ensures { IfOk result (λ all. all.items ≡ 1 ∷ 2 ∷ 3 ∷ 5 ∷ []) }
{
    let listed = [1u32, 2, 5].iter().copied().assume_sorted_by_item();
    listed.union(2..4).collect(alloc)
}

/// Returns a stream without its first item and without those that are odd, and one more item.
pub fn even_with_one_more(alloc: Global) -> Result<Vec<u32>, AllocError> {
    let even = (0..9u32).skip(1).filter(|x| *x % 2 == 0);
    even.union(once(5)).collect(alloc)
}

/// Returns the first items of a stream: `take` and then `fuse`.
pub fn first_of_union(alloc: Global, n: usize) -> Result<Vec<u32>, AllocError> {
    let first = (0..9u32).take(n).fuse();
    first
        .union(Some(14).into_iter().map(|x| x / 2))
        .collect(alloc)
}

/// Returns whether one stream is within another.
pub fn is_part_of<I: SortedIterator, J: SortedIterator<Item = I::Item>>(a: I, b: J) -> bool
where
    I::Item: Ord + Drop,
    requires can_a { I.can_next a }
    requires can_b { J.can_next b }
    requires finite_a { IsFinite (I.remaining a) }
    requires finite_b { IsFinite (J.remaining b) }
    requires a_ascends { I.in_order a }
    requires b_ascends { J.in_order b }
    ensures { TellsOfLists I.Item.cmp (is_within I.Item.cmp) result I.next_gives a J.next_gives b }
{
    a.is_subset(b)
}

/// Returns whether an item comes.
pub fn has_item<I: OneOrLess>(mut it: I) -> bool
where
    I::Item: Drop,
    requires can { I.can_next it }
    requires short { I.one_or_less it }
    ensures { (item : Option I.Item) × (rest : I) × I.next_gives it item rest
        × (result ≡ is_some item) }
{
    it.next().is_some()
}
