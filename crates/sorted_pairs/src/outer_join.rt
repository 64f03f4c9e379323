//! The stream of OuterJoin.
ghost use Rattle.std.specs.Prelude.{IfOk, IfSome};
ghost use Rattle.std.specs.Iterator.{UpTo, count_add};
ghost use Rattle.std.specs.Iterator.SizeHint.{IsWithinCount};
ghost use Rattle.ordered_lists.specs.Joins.{outer_join};
ghost use Rattle.ordered_lists.specs.Taken.{ClonesAreEqual};
ghost use Rattle.sorted_iter.specs.Copies.{ClonesGoAlike};
ghost use Rattle.sorted_iter.specs.Hints.{union_hint};
ghost use Rattle.sorted_iter.specs.Lookahead.{ahead_left};
ghost use Rattle.sorted_iter.specs.TwoSides.{sides_can};
ghost use Rattle.sorted_pairs.specs.JoinCopies.{IsEitherCopy, IsJoinCopy};
ghost use Rattle.sorted_pairs.specs.JoinHints.{IsJoinHint};
ghost use Rattle.sorted_pairs.specs.JoinLaws.{outer_join-in_order, joined-goes_on};
ghost use Rattle.sorted_pairs.specs.JoinStreams.{outer_join_sides, outer_join_steps, keys_ascend};
ghost use Rattle.sorted_pairs.specs.Matches.{outer_join_walk};

use crate::marks::SortedByKey;
use crate::matching::{EitherOrBoth, next_match};
use element_core::NoMemory;
use sorted_iter::{Sides, Wants, of_union};

/// Each key of either stream, with the value of each stream at it, if any; of two equal keys the
/// left one.
///
/// It is made by [`outer_join`](crate::SortedPairIterator::outer_join), lazily: `next` asks each
/// stream at most once for each pair that it passes over. Making and stepping it takes no memory.
#[derive(Drop)]
#[must_use = "a stream is lazy and does nothing until it is asked"]
pub struct OuterJoin<I: Iterator, J: Iterator>
where
    I::Item: Drop,
    J::Item: Drop,
{
    pub(crate) sides: Sides<I, J>,
}

impl<
    K: Ord + Drop,
    V: Drop,
    W: Drop,
    I: Iterator<Item = (K, V)>,
    J: Iterator<Item = (K, W)>,
> Iterator for OuterJoin<I, J> {
    type Item = (K, (Option<V>, Option<W>));

    ghost can_next = { λ s. sides_can I.can_next I.remaining J.can_next J.remaining
        (outer_join_sides s) };

    ghost next_gives = { outer_join_steps K.cmp I.next_gives J.next_gives };

    ghost remaining = { λ s. count_add (ahead_left I.remaining (outer_join_sides s).left)
        (ahead_left J.remaining (outer_join_sides s).right) };

    #[inline]
    fn next(&mut self) -> Option<(K, (Option<V>, Option<W>))> {
        let wants = Wants {
            left: true,
            both: true,
            right: true,
        };
        match next_match(&mut self.sides, wants)? {
            EitherOrBoth::Left((key, v)) => Some((key, (Some(v), None))),
            EitherOrBoth::Both((key, v), (_, w)) => Some((key, (Some(v), Some(w)))),
            EitherOrBoth::Right((key, w)) => Some((key, (None, Some(w)))),
        }
    }

    fn size_hint(&self) -> (usize, Option<usize>)
        ensures lower { IsWithinCount result.0
            (count_add (ahead_left I.remaining (outer_join_sides self.now).left)
            (ahead_left J.remaining (outer_join_sides self.now).right)) }
        ensures upper { IfSome result.1 (UpTo
            (count_add (ahead_left I.remaining (outer_join_sides self.now).left)
            (ahead_left J.remaining (outer_join_sides self.now).right))) }
        ensures table { IsJoinHint outer_join_sides K.cmp (outer_join K.cmp) union_hint
            I.remaining I.next_gives J.remaining J.next_gives self.now result }
    {
        of_union(self.sides.left.size_hint(), self.sides.right.size_hint())
    }
}

impl<
    K: Ord + Drop,
    V: Drop,
    W: Drop,
    I: Iterator<Item = (K, V)> + SortedByKey<K, V>,
    J: Iterator<Item = (K, W)> + SortedByKey<K, W>,
> SortedByKey<K, (Option<V>, Option<W>)> for OuterJoin<I, J> {
    ghost in_order = { λ s. keys_ascend K.cmp I.next_gives J.next_gives (outer_join_sides s) };

    fn mark(&self) {}

    ghost sorted = { λ s h. outer_join-in_order K.total I.next_gives J.next_gives outer_join_sides s
        h };

    ghost goes_on = { λ s t r h e. joined-goes_on K.cmp (outer_join_walk K.cmp) I.next_gives
        J.next_gives
        outer_join_sides s t r h e };
}

impl<
    K: Ord + Drop,
    V: Drop,
    W: Drop,
    I: Iterator<Item = (K, V)>,
    J: Iterator<Item = (K, W)>,
> OuterJoin<I, J> {
    /// Returns a second stream that goes on alike: its keys are equal to those that are to come
    /// from this one, and its values are the same, or clones where they were read ahead. O(1),
    /// beside the clones of both streams and of the pairs that were read ahead. It is refused where
    /// one of these clones is.
    pub fn try_clone(&self) -> Result<Self, NoMemory>
    where
        I: Clone,
        J: Clone,
        K: Clone,
        V: Clone,
        W: Clone,
        requires left { ClonesGoAlike I.is_clone I.can_next I.remaining I.next_gives }
        requires right { ClonesGoAlike J.is_clone J.can_next J.remaining J.next_gives }
        requires keys { ClonesAreEqual K.is_clone K.eq }
        ensures { IfOk result (IsJoinCopy outer_join_sides K.cmp (outer_join K.cmp)
            (IsEitherCopy K.eq V.is_clone W.is_clone) I.can_next I.remaining I.next_gives J.can_next
            J.remaining J.next_gives (outer_join_steps K.cmp I.next_gives J.next_gives) self.now) }
    {
        let left = self.sides.left.try_clone()?;
        let right = self.sides.right.try_clone()?;
        Ok(OuterJoin {
            sides: Sides { left, right },
        })
    }
}
