//! The mark of std's adapters over a source that has the mark, and of `Pairs`.
ghost use Rattle.std.specs.Iterator.Adapters.{skip_source, filter_source, take_while_source, map_source};
ghost use Rattle.ordered_lists.specs.Lists.{by_key};
ghost use Rattle.sorted_iter.specs.Adapted.{skip-in_order, skip-keeps, filter-in_order, filter-keeps, take_while-in_order, take_while-keeps, map-in_order, map-keeps, taken_source, taken-in_order, taken-keeps, WhileOpen as WhileTaken};
ghost use Rattle.sorted_iter.specs.PairStreams.{pairs_source};
ghost use Rattle.sorted_pairs.specs.MarkLaws.{pairs-in_order, zipped_first, zipped-in_order, zipped-goes_on, WhileOpen};

use crate::marks::SortedByKey;
use sorted_iter::{OneOrLess, Pairs, SortedByItem};
use std::iter::{Filter, Fuse, Map, Skip, Take, TakeWhile, Zip};

impl<I: SortedByItem> SortedByKey<I::Item, ()> for Pairs<I>
where
    I::Item: Ord,
{
    ghost in_order = { λ s. I.in_order (pairs_source s) };

    fn mark(&self) {}

    ghost sorted = { λ s h. pairs-in_order I.next_gives I.Item.cmp s
        (I.sorted (pairs_source s) h) };

    ghost goes_on = { λ s t r h e. I.goes_on (pairs_source s) (pairs_source t) _ h e };
}

// `Zip` alone doesn't say that it stays ended, and fused it does. What stands on the right doesn't
// matter then.
impl<I: SortedByItem, J: Iterator> SortedByKey<I::Item, J::Item> for Fuse<Zip<I, J>>
where
    I::Item: Ord + Drop,
{
    ghost in_order = { WhileOpen I.next_gives J.next_gives I.in_order };

    fn mark(&self) {}

    ghost sorted = { λ s h. zipped-in_order I.next_gives J.next_gives I.Item.cmp s
        (λ e. I.sorted (zipped_first I.next_gives J.next_gives s) (h e)) };

    ghost goes_on = { λ s t r h e. zipped-goes_on I.next_gives J.next_gives I.in_order I.goes_on
        s t r h e };
}

impl<K: Ord + Drop, V: Drop, I: Iterator<Item = (K, V)> + SortedByKey<K, V>> SortedByKey<K, V>
    for Skip<I> {
    ghost in_order = { λ s. I.in_order (skip_source s) };

    fn mark(&self) {}

    ghost sorted = { λ s h. skip-in_order I.next_gives s (by_key K.cmp)
        (I.sorted (skip_source s) h) };

    ghost goes_on = { λ s t r h e. skip-keeps I.next_gives I.in_order I.goes_on s t r h e };
}

impl<
    K: Ord + Drop,
    V: Drop,
    I: Iterator<Item = (K, V)> + SortedByKey<K, V>,
    P: FnMut(&(K, V)) -> bool,
> SortedByKey<K, V> for Filter<I, P> {
    ghost in_order = { λ s. I.in_order (filter_source s) };

    fn mark(&self) {}

    ghost sorted = { λ s h. filter-in_order P.FnMut I.next_gives s (by_key K.cmp)
        (I.sorted (filter_source s) h) };

    ghost goes_on = { λ s t r h e. filter-keeps P.FnMut I.next_gives I.in_order I.goes_on s t
        r h e };
}

impl<
    K: Ord + Drop,
    V: Drop,
    I: Iterator<Item = (K, V)> + SortedByKey<K, V>,
    P: FnMut(&(K, V)) -> bool,
> SortedByKey<K, V> for TakeWhile<I, P> {
    ghost in_order = { λ s. I.in_order (take_while_source s) };

    fn mark(&self) {}

    ghost sorted = { λ s h. take_while-in_order P.FnMut I.next_gives s (by_key K.cmp)
        (I.sorted (take_while_source s) h) };

    ghost goes_on = { λ s t r h e. take_while-keeps P.FnMut I.next_gives I.in_order I.goes_on s t
        r h e };
}

impl<K: Ord, V, I: OneOrLess, F: FnMut(I::Item) -> (K, V)> SortedByKey<K, V> for Map<I, F> {
    ghost in_order = { λ s. I.one_or_less (map_source s) };

    fn mark(&self) {}

    ghost sorted = { λ s h. map-in_order F.FnMut I.next_gives (by_key K.cmp) s
        (I.at_most_one (map_source s) h) };

    ghost goes_on = { λ s t r h e. map-keeps F.FnMut I.next_gives I.one_or_less I.goes_on s
        t r h e };
}

// `Take` alone doesn't say that it stays ended, and fused it does.
impl<K: Ord, V, I: Iterator<Item = (K, V)> + SortedByKey<K, V>> SortedByKey<K, V>
    for Fuse<Take<I>> {
    ghost in_order = { WhileTaken I.next_gives I.in_order };

    fn mark(&self) {}

    ghost sorted = { λ s h. taken-in_order I.next_gives (by_key K.cmp) s
        (λ e. I.sorted (taken_source I.next_gives s) (h e)) };

    ghost goes_on = { λ s t r h e. taken-keeps I.next_gives I.in_order I.goes_on s t r h e };
}
