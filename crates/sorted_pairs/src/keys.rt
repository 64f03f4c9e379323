//! The stream of Keys.
ghost use Rattle.std.specs.Prelude.{IfOk};
ghost use Rattle.sorted_iter.specs.Copies.{ClonesGoAlike, GoesAlike};
ghost use Rattle.sorted_pairs.specs.KeyStreams.{keys_source, keys_steps};
ghost use Rattle.sorted_pairs.specs.KeyLaws.{keys-in_order, keys-goes_on};

use crate::marks::SortedByKey;
use element_core::NoMemory;
use sorted_iter::SortedByItem;

/// The keys of a stream of pairs.
///
/// It is made by [`keys`](crate::SortedPairIterator::keys), lazily: `next` and `next_back` take one
/// pair from their end. Making and stepping it takes no memory.
#[derive(Debug, Drop)]
#[must_use = "a stream is lazy and does nothing until it is asked"]
pub struct Keys<I> {
    pub(crate) source: I,
}

impl<K, V: Drop, I: Iterator<Item = (K, V)>> Iterator for Keys<I> {
    type Item = K;

    ghost can_next = { λ s. I.can_next (keys_source s) };

    ghost next_gives = { keys_steps I.next_gives };

    ghost remaining = { λ s. I.remaining (keys_source s) };

    #[inline]
    fn next(&mut self) -> Option<K> {
        let (key, _) = self.source.next()?;
        Some(key)
    }

    fn size_hint(&self) -> (usize, Option<usize>) {
        self.source.size_hint()
    }
}

impl<K, V: Drop, I: DoubleEndedIterator<Item = (K, V)>> DoubleEndedIterator for Keys<I> {
    ghost can_next_back = { λ s. I.can_next_back (keys_source s) };

    ghost next_back_gives = { keys_steps I.next_back_gives };

    #[inline]
    fn next_back(&mut self) -> Option<K> {
        let (key, _) = self.source.next_back()?;
        Some(key)
    }
}

impl<K, V: Drop, I: ExactSizeIterator<Item = (K, V)>> ExactSizeIterator for Keys<I> {
    fn len(&self) -> usize {
        self.source.len()
    }
}

impl<K: Ord, V: Drop, I: Iterator<Item = (K, V)> + SortedByKey<K, V>> SortedByItem for Keys<I> {
    ghost in_order = { λ s. I.in_order (keys_source s) };

    fn mark(&self) {}

    ghost sorted = { λ s h. keys-in_order I.next_gives K.cmp s (I.sorted (keys_source s) h) };

    ghost goes_on = { λ s t r h e. keys-goes_on I.next_gives I.in_order I.goes_on s t r h e };
}

impl<K, V: Drop, I: Iterator<Item = (K, V)>> Keys<I> {
    /// Returns a second stream from which the same is still to come. O(1), beside the clone of the
    /// source; refused where that is.
    pub fn try_clone(&self) -> Result<Self, NoMemory>
    where
        I: Clone,
        requires { ClonesGoAlike I.is_clone I.can_next I.remaining I.next_gives }
        ensures { IfOk result (λ copy. GoesAlike (λ s. I.can_next (keys_source s))
            (λ s. I.remaining (keys_source s)) (keys_steps I.next_gives) self.now copy) }
    {
        let source = self.source.clone()?;
        Ok(Keys { source })
    }
}
