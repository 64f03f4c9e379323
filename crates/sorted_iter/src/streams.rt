//! The four set operations on two streams.
ghost use Rattle.std.specs.Prelude.{IfOk, true, IfSome, false};
ghost use Rattle.std.specs.Iterator.{count_add, UpTo, count_min};
ghost use Rattle.std.specs.Iterator.SizeHint.{IsWithinCount};
ghost use Rattle.ordered_lists.specs.Walks.{walk};
ghost use Rattle.ordered_lists.specs.Lists.{union, intersection, difference, symmetric_difference};
ghost use Rattle.ordered_lists.specs.Taken.{ClonesAreEqual};
ghost use Rattle.sorted_iter.specs.Copies.{ClonesGoAlike, IsCopy};
ghost use Rattle.sorted_iter.specs.GoesOn.{walk-goes_on};
ghost use Rattle.sorted_iter.specs.Hints.{IsHintOf, union_hint, intersection_hint, difference_hint, symmetric_difference_hint};
ghost use Rattle.sorted_iter.specs.Laws.{walk-in_order};
ghost use Rattle.sorted_iter.specs.Lookahead.{ahead_left};
ghost use Rattle.sorted_iter.specs.Streams.{union_sides, union_steps, intersection_sides, intersection_steps, difference_sides, difference_steps, symmetric_difference_sides, symmetric_difference_steps};
ghost use Rattle.sorted_iter.specs.TwoSides.{sides_can, sides_ascend};

use crate::hints::{of_difference, of_intersection, of_symmetric_difference, of_union};
use crate::marks::SortedByItem;
use crate::sides::{Sides, Wants};
use element_core::NoMemory;

/// The items of either stream, ascending, each once; of two equal items the left one.
///
/// It is made by [`union`](crate::SortedIterator::union), lazily: `next` asks each source at most
/// once for each item that it passes over. Making and stepping it takes no memory.
#[derive(Drop)]
#[must_use = "a stream is lazy and does nothing until it is asked"]
pub struct Union<I: Iterator, J: Iterator>
where
    I::Item: Drop,
    J::Item: Drop,
{
    pub(crate) sides: Sides<I, J>,
}

impl<I: Iterator, J: Iterator<Item = I::Item>> Iterator for Union<I, J>
where
    I::Item: Ord + Drop,
{
    type Item = I::Item;

    ghost can_next = { λ s. sides_can I.can_next I.remaining J.can_next J.remaining
        (union_sides s) };

    ghost next_gives = { union_steps I.Item.cmp I.next_gives J.next_gives };

    ghost remaining = { λ s. count_add (ahead_left I.remaining (union_sides s).left)
        (ahead_left J.remaining (union_sides s).right) };

    #[inline]
    fn next(&mut self) -> Option<I::Item> {
        self.sides.next(Wants {
            left: true,
            both: true,
            right: true,
        })
    }

    fn size_hint(&self) -> (usize, Option<usize>)
        ensures lower { IsWithinCount result.0
            (count_add (ahead_left I.remaining (union_sides self.now).left)
            (ahead_left J.remaining (union_sides self.now).right)) }
        ensures upper { IfSome result.1 (UpTo
            (count_add (ahead_left I.remaining (union_sides self.now).left)
            (ahead_left J.remaining (union_sides self.now).right))) }
        ensures table { IsHintOf union_sides I.Item.cmp (union I.Item.cmp) union_hint
            I.remaining I.next_gives J.remaining J.next_gives self.now result }
    {
        of_union(self.sides.left.size_hint(), self.sides.right.size_hint())
    }
}

impl<I: SortedByItem, J: SortedByItem<Item = I::Item>> SortedByItem for Union<I, J>
where
    I::Item: Ord + Drop,
{
    ghost in_order = { λ s. sides_ascend I.Item.cmp I.next_gives I.Item.cmp J.next_gives
        (union_sides s) };

    fn mark(&self) {}

    ghost sorted = { λ s h. walk-in_order true true true I.next_gives J.next_gives
        I.Item.total union_sides s h };

    ghost goes_on = { λ s t r h e. walk-goes_on (walk I.Item.cmp true true true) I.Item.cmp
        I.next_gives
        J.next_gives (union_sides s) (union_sides t) r h e };
}

impl<I: Iterator, J: Iterator<Item = I::Item>> Union<I, J>
where
    I::Item: Ord + Drop,
{
    /// Returns a second stream that goes on alike: what is still to come from it is equal to what
    /// is still to come from this one. O(1), beside the clones of both sources and of the items
    /// that were read ahead. It is refused where one of these clones is.
    pub fn try_clone(&self) -> Result<Self, NoMemory>
    where
        I: Clone,
        J: Clone,
        I::Item: Clone,
        requires left { ClonesGoAlike I.is_clone I.can_next I.remaining I.next_gives }
        requires right { ClonesGoAlike J.is_clone J.can_next J.remaining J.next_gives }
        requires items { ClonesAreEqual I.Item.is_clone I.Item.eq }
        ensures { IfOk result (λ copy. IsCopy union_sides I.Item.cmp I.Item.eq
            (union I.Item.cmp) I.can_next I.remaining I.next_gives J.can_next J.remaining
            J.next_gives (union_steps I.Item.cmp I.next_gives J.next_gives) self.now copy) }
    {
        let sides = self.sides.try_clone()?;
        Ok(Union { sides })
    }
}

/// The left items to which an item on the right is equal, ascending.
///
/// It is made by [`intersection`](crate::SortedIterator::intersection), lazily: `next` asks each
/// source at most once for each item that it passes over. Making and stepping it takes no memory.
#[derive(Drop)]
#[must_use = "a stream is lazy and does nothing until it is asked"]
pub struct Intersection<I: Iterator, J: Iterator>
where
    I::Item: Drop,
    J::Item: Drop,
{
    pub(crate) sides: Sides<I, J>,
}

impl<I: Iterator, J: Iterator<Item = I::Item>> Iterator for Intersection<I, J>
where
    I::Item: Ord + Drop,
{
    type Item = I::Item;

    ghost can_next = { λ s. sides_can I.can_next I.remaining J.can_next J.remaining
        (intersection_sides s) };

    ghost next_gives = { intersection_steps I.Item.cmp I.next_gives J.next_gives };

    ghost remaining = { λ s. count_min (ahead_left I.remaining (intersection_sides s).left)
        (ahead_left J.remaining (intersection_sides s).right) };

    #[inline]
    fn next(&mut self) -> Option<I::Item> {
        self.sides.next_common()
    }

    fn size_hint(&self) -> (usize, Option<usize>)
        ensures lower { IsWithinCount result.0
            (count_min (ahead_left I.remaining (intersection_sides self.now).left)
            (ahead_left J.remaining (intersection_sides self.now).right)) }
        ensures upper { IfSome result.1 (UpTo
            (count_min (ahead_left I.remaining (intersection_sides self.now).left)
            (ahead_left J.remaining (intersection_sides self.now).right))) }
        ensures table { IsHintOf intersection_sides I.Item.cmp
            (intersection I.Item.cmp) intersection_hint
            I.remaining I.next_gives J.remaining J.next_gives self.now result }
    {
        of_intersection(self.sides.left.size_hint(), self.sides.right.size_hint())
    }
}

impl<I: SortedByItem, J: SortedByItem<Item = I::Item>> SortedByItem for Intersection<I, J>
where
    I::Item: Ord + Drop,
{
    ghost in_order = { λ s. sides_ascend I.Item.cmp I.next_gives I.Item.cmp J.next_gives
        (intersection_sides s) };

    fn mark(&self) {}

    ghost sorted = { λ s h. walk-in_order false true false I.next_gives J.next_gives
        I.Item.total intersection_sides s h };

    ghost goes_on = { λ s t r h e. walk-goes_on (walk I.Item.cmp false true false) I.Item.cmp
        I.next_gives
        J.next_gives (intersection_sides s) (intersection_sides t) r h e };
}

impl<I: Iterator, J: Iterator<Item = I::Item>> Intersection<I, J>
where
    I::Item: Ord + Drop,
{
    /// Returns a second stream that goes on alike: what is still to come from it is equal to what
    /// is still to come from this one. O(1), beside the clones of both sources and of the items
    /// that were read ahead. It is refused where one of these clones is.
    pub fn try_clone(&self) -> Result<Self, NoMemory>
    where
        I: Clone,
        J: Clone,
        I::Item: Clone,
        requires left { ClonesGoAlike I.is_clone I.can_next I.remaining I.next_gives }
        requires right { ClonesGoAlike J.is_clone J.can_next J.remaining J.next_gives }
        requires items { ClonesAreEqual I.Item.is_clone I.Item.eq }
        ensures { IfOk result (λ copy. IsCopy intersection_sides I.Item.cmp I.Item.eq
            (intersection I.Item.cmp) I.can_next I.remaining I.next_gives J.can_next J.remaining
            J.next_gives (intersection_steps I.Item.cmp I.next_gives J.next_gives) self.now copy) }
    {
        let sides = self.sides.try_clone()?;
        Ok(Intersection { sides })
    }
}

/// The left items to which no item on the right is equal, ascending.
///
/// It is made by [`difference`](crate::SortedIterator::difference), lazily: `next` asks each source
/// at most once for each item that it passes over. Making and stepping it takes no memory.
#[derive(Drop)]
#[must_use = "a stream is lazy and does nothing until it is asked"]
pub struct Difference<I: Iterator, J: Iterator>
where
    I::Item: Drop,
    J::Item: Drop,
{
    pub(crate) sides: Sides<I, J>,
}

impl<I: Iterator, J: Iterator<Item = I::Item>> Iterator for Difference<I, J>
where
    I::Item: Ord + Drop,
{
    type Item = I::Item;

    ghost can_next = { λ s. sides_can I.can_next I.remaining J.can_next J.remaining
        (difference_sides s) };

    ghost next_gives = { difference_steps I.Item.cmp I.next_gives J.next_gives };

    ghost remaining = { λ s. ahead_left I.remaining (difference_sides s).left };

    #[inline]
    fn next(&mut self) -> Option<I::Item> {
        self.sides.next(Wants {
            left: true,
            both: false,
            right: false,
        })
    }

    fn size_hint(&self) -> (usize, Option<usize>)
        ensures lower { IsWithinCount result.0
            (ahead_left I.remaining (difference_sides self.now).left) }
        ensures upper { IfSome result.1 (UpTo
            (ahead_left I.remaining (difference_sides self.now).left)) }
        ensures table { IsHintOf difference_sides I.Item.cmp (difference I.Item.cmp) difference_hint
            I.remaining I.next_gives J.remaining J.next_gives self.now result }
    {
        of_difference(self.sides.left.size_hint(), self.sides.right.size_hint())
    }
}

impl<I: SortedByItem, J: SortedByItem<Item = I::Item>> SortedByItem for Difference<I, J>
where
    I::Item: Ord + Drop,
{
    ghost in_order = { λ s. sides_ascend I.Item.cmp I.next_gives I.Item.cmp J.next_gives
        (difference_sides s) };

    fn mark(&self) {}

    ghost sorted = { λ s h. walk-in_order true false false I.next_gives J.next_gives
        I.Item.total difference_sides s h };

    ghost goes_on = { λ s t r h e. walk-goes_on (walk I.Item.cmp true false false) I.Item.cmp
        I.next_gives
        J.next_gives (difference_sides s) (difference_sides t) r h e };
}

impl<I: Iterator, J: Iterator<Item = I::Item>> Difference<I, J>
where
    I::Item: Ord + Drop,
{
    /// Returns a second stream that goes on alike: what is still to come from it is equal to what
    /// is still to come from this one. O(1), beside the clones of both sources and of the items
    /// that were read ahead. It is refused where one of these clones is.
    pub fn try_clone(&self) -> Result<Self, NoMemory>
    where
        I: Clone,
        J: Clone,
        I::Item: Clone,
        requires left { ClonesGoAlike I.is_clone I.can_next I.remaining I.next_gives }
        requires right { ClonesGoAlike J.is_clone J.can_next J.remaining J.next_gives }
        requires items { ClonesAreEqual I.Item.is_clone I.Item.eq }
        ensures { IfOk result (λ copy. IsCopy difference_sides I.Item.cmp I.Item.eq
            (difference I.Item.cmp) I.can_next I.remaining I.next_gives J.can_next J.remaining
            J.next_gives (difference_steps I.Item.cmp I.next_gives J.next_gives) self.now copy) }
    {
        let sides = self.sides.try_clone()?;
        Ok(Difference { sides })
    }
}

/// The items of either stream to which no item of the other is equal, ascending.
///
/// It is made by [`symmetric_difference`](crate::SortedIterator::symmetric_difference), lazily:
/// `next` asks each source at most once for each item that it passes over. Making and stepping it
/// takes no memory.
#[derive(Drop)]
#[must_use = "a stream is lazy and does nothing until it is asked"]
pub struct SymmetricDifference<I: Iterator, J: Iterator>
where
    I::Item: Drop,
    J::Item: Drop,
{
    pub(crate) sides: Sides<I, J>,
}

impl<I: Iterator, J: Iterator<Item = I::Item>> Iterator for SymmetricDifference<I, J>
where
    I::Item: Ord + Drop,
{
    type Item = I::Item;

    ghost can_next = { λ s. sides_can I.can_next I.remaining J.can_next J.remaining
        (symmetric_difference_sides s) };

    ghost next_gives = { symmetric_difference_steps I.Item.cmp I.next_gives J.next_gives };

    ghost remaining = { λ s. count_add (ahead_left I.remaining (symmetric_difference_sides s).left)
        (ahead_left J.remaining (symmetric_difference_sides s).right) };

    #[inline]
    fn next(&mut self) -> Option<I::Item> {
        self.sides.next(Wants {
            left: true,
            both: false,
            right: true,
        })
    }

    fn size_hint(&self) -> (usize, Option<usize>)
        ensures lower { IsWithinCount result.0
            (count_add (ahead_left I.remaining (symmetric_difference_sides self.now).left)
            (ahead_left J.remaining (symmetric_difference_sides self.now).right)) }
        ensures upper { IfSome result.1 (UpTo
            (count_add (ahead_left I.remaining (symmetric_difference_sides self.now).left)
            (ahead_left J.remaining (symmetric_difference_sides self.now).right))) }
        ensures table { IsHintOf symmetric_difference_sides I.Item.cmp
            (symmetric_difference I.Item.cmp) symmetric_difference_hint
            I.remaining I.next_gives J.remaining J.next_gives self.now result }
    {
        of_symmetric_difference(self.sides.left.size_hint(), self.sides.right.size_hint())
    }
}

impl<I: SortedByItem, J: SortedByItem<Item = I::Item>> SortedByItem for SymmetricDifference<I, J>
where
    I::Item: Ord + Drop,
{
    ghost in_order = { λ s. sides_ascend I.Item.cmp I.next_gives I.Item.cmp J.next_gives
        (symmetric_difference_sides s) };

    fn mark(&self) {}

    ghost sorted = { λ s h. walk-in_order true false true I.next_gives J.next_gives
        I.Item.total symmetric_difference_sides s h };

    ghost goes_on = { λ s t r h e. walk-goes_on (walk I.Item.cmp true false true) I.Item.cmp
        I.next_gives
        J.next_gives (symmetric_difference_sides s) (symmetric_difference_sides t) r h e };
}

impl<I: Iterator, J: Iterator<Item = I::Item>> SymmetricDifference<I, J>
where
    I::Item: Ord + Drop,
{
    /// Returns a second stream that goes on alike: what is still to come from it is equal to what
    /// is still to come from this one. O(1), beside the clones of both sources and of the items
    /// that were read ahead. It is refused where one of these clones is.
    pub fn try_clone(&self) -> Result<Self, NoMemory>
    where
        I: Clone,
        J: Clone,
        I::Item: Clone,
        requires left { ClonesGoAlike I.is_clone I.can_next I.remaining I.next_gives }
        requires right { ClonesGoAlike J.is_clone J.can_next J.remaining J.next_gives }
        requires items { ClonesAreEqual I.Item.is_clone I.Item.eq }
        ensures { IfOk result (λ copy. IsCopy symmetric_difference_sides I.Item.cmp I.Item.eq
            (symmetric_difference I.Item.cmp) I.can_next I.remaining I.next_gives
            J.can_next J.remaining J.next_gives
            (symmetric_difference_steps I.Item.cmp I.next_gives J.next_gives) self.now copy) }
    {
        let sides = self.sides.try_clone()?;
        Ok(SymmetricDifference { sides })
    }
}
