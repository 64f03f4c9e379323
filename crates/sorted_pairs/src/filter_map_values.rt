//! The stream of FilterMapValues.
ghost use Rattle.std.specs.Prelude.{◌≡◌, IfSome};
ghost use Rattle.std.specs.Iterator.{IsFinite, UpTo};
ghost use Rattle.std.specs.Iterator.SizeHint.{IsWithinCount};
ghost use Rattle.sorted_pairs.specs.Calls.{MayBeCalled};
ghost use Rattle.sorted_pairs.specs.ValueLaws.{filter_map_values-in_order, filter_map_values-goes_on};
ghost use Rattle.sorted_pairs.specs.ValueStreams.{filter_map_values_source, filter_map_values_closure, filter_map_values_steps};

use crate::marks::SortedByKey;

/// The pairs of a stream on whose values a function answers `Some`, with the answers in place of
/// the values.
///
/// It is made by [`filter_map_values`](crate::SortedPairIterator::filter_map_values), lazily:
/// `next` takes pairs and calls the function once on the value of each, up to the first answer that
/// is `Some`. It takes no memory, beside what the function takes.
#[derive(Debug, Drop)]
#[must_use = "a stream is lazy and does nothing until it is asked"]
pub struct FilterMapValues<I, F> {
    pub(crate) source: I,
    pub(crate) f: F,
}

impl<K: Drop, V, W, I: Iterator<Item = (K, V)>, F: FnMut(V) -> Option<W>> Iterator
    for FilterMapValues<I, F> {
    type Item = (K, W);

    ghost can_next = { λ s. I.can_next (filter_map_values_source s)
        × IsFinite (I.remaining (filter_map_values_source s))
        × MayBeCalled I.next_gives F.FnMut (filter_map_values_source s)
        (filter_map_values_closure s) };

    ghost next_gives = { filter_map_values_steps I.next_gives F.FnMut };

    ghost remaining = { λ s. I.remaining (filter_map_values_source s) };

    fn next(&mut self) -> Option<(K, W)> {
        while let Some((key, value)) = self.source.next() {
            if let Some(answer) = (self.f)(value) {
                return Some((key, answer));
            }
        }
        None
    }

    fn size_hint(&self) -> (usize, Option<usize>)
        ensures lower { IsWithinCount result.0 (I.remaining (filter_map_values_source self.now)) }
        ensures upper { IfSome result.1 (UpTo (I.remaining (filter_map_values_source self.now))) }
        ensures low { result.0 ≡ 0 }
    {
        (0, self.source.size_hint().1)
    }
}

impl<
    K: Ord + Drop,
    V,
    W,
    I: Iterator<Item = (K, V)> + SortedByKey<K, V>,
    F: FnMut(V) -> Option<W>,
> SortedByKey<K, W> for FilterMapValues<I, F> {
    ghost in_order = { λ s. I.in_order (filter_map_values_source s) };

    fn mark(&self) {}

    ghost sorted = { λ s h. filter_map_values-in_order I.next_gives K.cmp F.FnMut s
        (I.sorted (filter_map_values_source s) h) };

    ghost goes_on = { λ s t r h e. filter_map_values-goes_on I.next_gives I.in_order I.goes_on
        F.FnMut s t r h e };
}
