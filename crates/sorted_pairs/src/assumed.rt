//! The mark by assumption.
ghost use Rattle.std.specs.Prelude.{◌≡◌, IfOk, List};
ghost use Rattle.std.specs.Iterator.Runs.{EachRunFrom, SomeRun, IsIdenticalRun};
ghost use Rattle.ordered_lists.specs.Lists.{by_key};
ghost use Rattle.sorted_iter.specs.Copies.{ClonesGoAlike, GoesAlike};
ghost use Rattle.sorted_iter.specs.GoesOn.{in_order-goes_on};
ghost use Rattle.sorted_iter.specs.Orders.{InOrder, GivesList};
ghost use Rattle.sorted_iter.specs.TwoSidesLemmas.{through-in_order};
ghost use Rattle.sorted_pairs.specs.AssumedStreams.{assumed_source, assumed_steps};

use crate::marks::SortedByKey;
use element_core::NoMemory;

/// An iterator of which its maker knows that its keys strictly ascend and that it stays ended.
#[derive(Clone, Debug, Drop)]
#[must_use = "a stream is lazy and does nothing until it is asked"]
pub struct AssumeSortedByKey<I> {
    pub(crate) source: I,
}

impl<I: Iterator> Iterator for AssumeSortedByKey<I> {
    type Item = I::Item;

    ghost can_next = { λ s. I.can_next (assumed_source s) };

    ghost next_gives = { assumed_steps I.next_gives };

    ghost remaining = { λ s. I.remaining (assumed_source s) };

    #[inline]
    fn next(&mut self) -> Option<I::Item> {
        self.source.next()
    }

    fn size_hint(&self) -> (usize, Option<usize>) {
        self.source.size_hint()
    }
}

impl<I: DoubleEndedIterator> DoubleEndedIterator for AssumeSortedByKey<I> {
    ghost can_next_back = { λ s. I.can_next_back (assumed_source s) };

    ghost next_back_gives = { assumed_steps I.next_back_gives };

    #[inline]
    fn next_back(&mut self) -> Option<I::Item> {
        self.source.next_back()
    }
}

impl<I: ExactSizeIterator> ExactSizeIterator for AssumeSortedByKey<I> {
    fn len(&self) -> usize {
        self.source.len()
    }
}

impl<K: Ord, V, I: Iterator<Item = (K, V)>> SortedByKey<K, V> for AssumeSortedByKey<I> {
    ghost in_order = { λ s. InOrder (by_key K.cmp) I.next_gives (assumed_source s) };

    fn mark(&self) {}

    ghost sorted = { λ s h. through-in_order assumed_source I.next_gives (by_key K.cmp) s h };

    ghost goes_on = { λ s t r h e. in_order-goes_on (by_key K.cmp) I.next_gives (assumed_source s)
        (assumed_source t) r h e };
}

impl<I: Iterator> AssumeSortedByKey<I> {
    /// Returns a second stream from which the same is still to come. O(1), beside the clone of the
    /// source; refused where that is.
    pub fn try_clone(&self) -> Result<Self, NoMemory>
    where
        I: Clone,
        requires { ClonesGoAlike I.is_clone I.can_next I.remaining I.next_gives }
        ensures { IfOk result (λ copy. GoesAlike (λ s. I.can_next (assumed_source s))
            (λ s. I.remaining (assumed_source s)) (assumed_steps I.next_gives) self.now copy) }
    {
        let source = self.source.clone()?;
        Ok(AssumeSortedByKey { source })
    }
}

/// Gives any iterator of pairs the mark [`SortedByKey`].
pub trait AssumeSortedByKeyExt<K: Ord, V>: Iterator<Item = (K, V)> + Sized {
    /// Returns the same iterator with the mark. Its keys still to come have to strictly ascend, and
    /// it has to stay ended. O(1) time, no memory.
    final fn assume_sorted_by_key(self) -> AssumeSortedByKey<Self>
    where
        requires { InOrder (by_key K.cmp) Self.next_gives self }
        ensures source { assumed_source result ≡ self }
        ensures in_order { InOrder (by_key K.cmp) Self.next_gives (assumed_source result) }
        ensures runs { EachRunFrom (assumed_steps Self.next_gives) result
            (λ p. SomeRun Self.next_gives self (λ q. IsIdenticalRun p q)) }
        ensures lists { (ps : List (K × V)) → GivesList Self.next_gives self ps
            → GivesList (assumed_steps Self.next_gives) result ps }
    {
        AssumeSortedByKey { source: self }
    }
}

impl<K: Ord, V, I: Iterator<Item = (K, V)>> AssumeSortedByKeyExt<K, V> for I {}
