//! The stream of MapValues.
ghost use Rattle.sorted_pairs.specs.Calls.{MayBeCalled};
ghost use Rattle.sorted_pairs.specs.ValueLaws.{map_values-in_order, map_values-goes_on};
ghost use Rattle.sorted_pairs.specs.ValueStreams.{map_values_source, map_values_closure, map_values_steps};

use crate::marks::SortedByKey;

/// The pairs of a stream, each with the answer of a function in place of its value.
///
/// It is made by [`map_values`](crate::SortedPairIterator::map_values), lazily: `next` and
/// `next_back` take one pair from their end and call the function once on its value. They take no
/// memory, beside what the function takes.
#[derive(Debug, Drop)]
#[must_use = "a stream is lazy and does nothing until it is asked"]
pub struct MapValues<I, F> {
    pub(crate) source: I,
    pub(crate) f: F,
}

impl<K, V, W, I: Iterator<Item = (K, V)>, F: FnMut(V) -> W> Iterator for MapValues<I, F> {
    type Item = (K, W);

    ghost can_next = { λ s. I.can_next (map_values_source s)
        × MayBeCalled I.next_gives F.FnMut (map_values_source s) (map_values_closure s) };

    ghost next_gives = { map_values_steps I.next_gives F.FnMut };

    ghost remaining = { λ s. I.remaining (map_values_source s) };

    #[inline]
    fn next(&mut self) -> Option<(K, W)> {
        let (key, value) = self.source.next()?;
        Some((key, (self.f)(value)))
    }

    fn size_hint(&self) -> (usize, Option<usize>) {
        self.source.size_hint()
    }
}

impl<K, V, W, I: DoubleEndedIterator<Item = (K, V)>, F: FnMut(V) -> W> DoubleEndedIterator
    for MapValues<I, F> {
    ghost can_next_back = { λ s. I.can_next_back (map_values_source s)
        × MayBeCalled I.next_back_gives F.FnMut (map_values_source s) (map_values_closure s) };

    ghost next_back_gives = { map_values_steps I.next_back_gives F.FnMut };

    #[inline]
    fn next_back(&mut self) -> Option<(K, W)> {
        let (key, value) = self.source.next_back()?;
        Some((key, (self.f)(value)))
    }
}

impl<K, V, W, I: ExactSizeIterator<Item = (K, V)>, F: FnMut(V) -> W> ExactSizeIterator
    for MapValues<I, F> {
    fn len(&self) -> usize {
        self.source.len()
    }
}

impl<K: Ord, V, W, I: Iterator<Item = (K, V)> + SortedByKey<K, V>, F: FnMut(V) -> W> SortedByKey<
    K,
    W,
> for MapValues<I, F> {
    ghost in_order = { λ s. I.in_order (map_values_source s) };

    fn mark(&self) {}

    ghost sorted = { λ s h. map_values-in_order I.next_gives K.cmp F.FnMut s
        (I.sorted (map_values_source s) h) };

    ghost goes_on = { λ s t r h e. map_values-goes_on I.next_gives I.in_order I.goes_on F.FnMut s
        t r h e };
}
