//! The stream of Join.
ghost use Rattle.std.specs.Prelude.{IfOk, IfSome};
ghost use Rattle.std.specs.Iterator.{UpTo, count_min};
ghost use Rattle.std.specs.Iterator.SizeHint.{IsWithinCount};
ghost use Rattle.ordered_lists.specs.Joins.{join};
ghost use Rattle.ordered_lists.specs.Taken.{ClonesAreEqual};
ghost use Rattle.sorted_iter.specs.Copies.{ClonesGoAlike};
ghost use Rattle.sorted_iter.specs.Hints.{intersection_hint};
ghost use Rattle.sorted_iter.specs.Lookahead.{ahead_left};
ghost use Rattle.sorted_iter.specs.TwoSides.{sides_can};
ghost use Rattle.sorted_pairs.specs.JoinCopies.{IsBothCopy, IsJoinCopy};
ghost use Rattle.sorted_pairs.specs.JoinHints.{IsJoinHint};
ghost use Rattle.sorted_pairs.specs.JoinLaws.{join-in_order, joined-goes_on};
ghost use Rattle.sorted_pairs.specs.JoinStreams.{join_sides, join_steps, keys_ascend};
ghost use Rattle.sorted_pairs.specs.Matches.{join_walk};

use crate::marks::SortedByKey;
use crate::matching::{EitherOrBoth, next_match};
use element_core::NoMemory;
use sorted_iter::{Sides, Wants, of_intersection};

/// The pairs of both streams that have equal keys, in the order of their keys; of two equal keys
/// the left one.
///
/// It is made by [`join`](crate::SortedPairIterator::join), lazily: `next` asks each stream at most
/// once for each pair that it passes over. Making and stepping it takes no memory.
#[derive(Drop)]
#[must_use = "a stream is lazy and does nothing until it is asked"]
pub struct Join<I: Iterator, J: Iterator>
where
    I::Item: Drop,
    J::Item: Drop,
{
    pub(crate) sides: Sides<I, J>,
}

impl<
    K: Ord + Drop,
    V: Drop,
    W: Drop,
    I: Iterator<Item = (K, V)>,
    J: Iterator<Item = (K, W)>,
> Iterator for Join<I, J> {
    type Item = (K, (V, W));

    ghost can_next = { λ s. sides_can I.can_next I.remaining J.can_next J.remaining
        (join_sides s) };

    ghost next_gives = { join_steps K.cmp I.next_gives J.next_gives };

    ghost remaining = { λ s. count_min (ahead_left I.remaining (join_sides s).left)
        (ahead_left J.remaining (join_sides s).right) };

    #[inline]
    fn next(&mut self) -> Option<(K, (V, W))> {
        let wants = Wants {
            left: false,
            both: true,
            right: false,
        };
        match next_match(&mut self.sides, wants)? {
            EitherOrBoth::Both((key, v), (_, w)) => Some((key, (v, w))),
            EitherOrBoth::Left(_) | EitherOrBoth::Right(_) => unreachable!(),
        }
    }

    fn size_hint(&self) -> (usize, Option<usize>)
        ensures lower { IsWithinCount result.0
            (count_min (ahead_left I.remaining (join_sides self.now).left)
            (ahead_left J.remaining (join_sides self.now).right)) }
        ensures upper { IfSome result.1 (UpTo
            (count_min (ahead_left I.remaining (join_sides self.now).left)
            (ahead_left J.remaining (join_sides self.now).right))) }
        ensures table { IsJoinHint join_sides K.cmp (join K.cmp) intersection_hint
            I.remaining I.next_gives J.remaining J.next_gives self.now result }
    {
        of_intersection(self.sides.left.size_hint(), self.sides.right.size_hint())
    }
}

impl<
    K: Ord + Drop,
    V: Drop,
    W: Drop,
    I: Iterator<Item = (K, V)> + SortedByKey<K, V>,
    J: Iterator<Item = (K, W)> + SortedByKey<K, W>,
> SortedByKey<K, (V, W)> for Join<I, J> {
    ghost in_order = { λ s. keys_ascend K.cmp I.next_gives J.next_gives (join_sides s) };

    fn mark(&self) {}

    ghost sorted = { λ s h. join-in_order K.total I.next_gives J.next_gives join_sides s h };

    ghost goes_on = { λ s t r h e. joined-goes_on K.cmp (join_walk K.cmp) I.next_gives J.next_gives
        join_sides s t r h e };
}

impl<K: Ord + Drop, V: Drop, W: Drop, I: Iterator<Item = (K, V)>, J: Iterator<Item = (K, W)>> Join<
    I,
    J,
> {
    /// Returns a second stream that goes on alike: its keys are equal to those that are to come
    /// from this one, and its values are the same, or clones where they were read ahead. O(1),
    /// beside the clones of both streams and of the pairs that were read ahead. It is refused where
    /// one of these clones is.
    pub fn try_clone(&self) -> Result<Self, NoMemory>
    where
        I: Clone,
        J: Clone,
        K: Clone,
        V: Clone,
        W: Clone,
        requires left { ClonesGoAlike I.is_clone I.can_next I.remaining I.next_gives }
        requires right { ClonesGoAlike J.is_clone J.can_next J.remaining J.next_gives }
        requires keys { ClonesAreEqual K.is_clone K.eq }
        ensures { IfOk result (IsJoinCopy join_sides K.cmp (join K.cmp)
            (IsBothCopy K.eq V.is_clone W.is_clone) I.can_next I.remaining I.next_gives J.can_next
            J.remaining J.next_gives (join_steps K.cmp I.next_gives J.next_gives) self.now) }
    {
        let left = self.sides.left.try_clone()?;
        let right = self.sides.right.try_clone()?;
        Ok(Join {
            sides: Sides { left, right },
        })
    }
}
