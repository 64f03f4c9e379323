//! The marks of std's adapters, over a source that has the mark.
ghost use Rattle.std.specs.Iterator.Adapters.{skip_source, filter_source, take_while_source, copied_source, cloned_source, map_source};
ghost use Rattle.sorted_iter.specs.Adapted.{skip-one, skip-in_order, skip-keeps, filter-one, filter-in_order, filter-keeps, take_while-one, take_while-in_order, take_while-keeps, copied-one, copied-in_order, cloned-one, map-one, map-in_order, map-keeps, taken_source, taken-one, taken-in_order, taken-keeps, WhileOpen};

use crate::marks::{OneOrLess, SortedByItem};
use std::iter::{Cloned, Copied, Filter, Fuse, Map, Skip, Take, TakeWhile};

impl<I: OneOrLess> OneOrLess for Skip<I>
where
    I::Item: Drop,
{
    ghost one_or_less = { λ s. I.one_or_less (skip_source s) };

    fn mark(&self) {}

    ghost at_most_one = { λ s h. skip-one I.next_gives s (I.at_most_one (skip_source s) h) };

    ghost goes_on = { λ s t r h e. skip-keeps I.next_gives I.one_or_less I.goes_on s t r h e };
}

impl<I: SortedByItem> SortedByItem for Skip<I>
where
    I::Item: Ord + Drop,
{
    ghost in_order = { λ s. I.in_order (skip_source s) };

    fn mark(&self) {}

    ghost sorted = { λ s h. skip-in_order I.next_gives s I.Item.cmp (I.sorted (skip_source s) h) };

    ghost goes_on = { λ s t r h e. skip-keeps I.next_gives I.in_order I.goes_on s t r h e };
}

impl<I: OneOrLess, P: FnMut(&I::Item) -> bool> OneOrLess for Filter<I, P>
where
    I::Item: Drop,
{
    ghost one_or_less = { λ s. I.one_or_less (filter_source s) };

    fn mark(&self) {}

    ghost at_most_one = { λ s h. filter-one P.FnMut I.next_gives s
        (I.at_most_one (filter_source s) h) };

    ghost goes_on = { λ s t r h e. filter-keeps P.FnMut I.next_gives I.one_or_less I.goes_on
        s t r h e };
}

impl<I: SortedByItem, P: FnMut(&I::Item) -> bool> SortedByItem for Filter<I, P>
where
    I::Item: Ord + Drop,
{
    ghost in_order = { λ s. I.in_order (filter_source s) };

    fn mark(&self) {}

    ghost sorted = { λ s h. filter-in_order P.FnMut I.next_gives s I.Item.cmp
        (I.sorted (filter_source s) h) };

    ghost goes_on = { λ s t r h e. filter-keeps P.FnMut I.next_gives I.in_order I.goes_on s t
        r h e };
}

impl<I: OneOrLess, P: FnMut(&I::Item) -> bool> OneOrLess for TakeWhile<I, P>
where
    I::Item: Drop,
{
    ghost one_or_less = { λ s. I.one_or_less (take_while_source s) };

    fn mark(&self) {}

    ghost at_most_one = { λ s h. take_while-one P.FnMut I.next_gives s
        (I.at_most_one (take_while_source s) h) };

    ghost goes_on = { λ s t r h e. take_while-keeps P.FnMut I.next_gives I.one_or_less I.goes_on
        s t r h e };
}

impl<I: SortedByItem, P: FnMut(&I::Item) -> bool> SortedByItem for TakeWhile<I, P>
where
    I::Item: Ord + Drop,
{
    ghost in_order = { λ s. I.in_order (take_while_source s) };

    fn mark(&self) {}

    ghost sorted = { λ s h. take_while-in_order P.FnMut I.next_gives s I.Item.cmp
        (I.sorted (take_while_source s) h) };

    ghost goes_on = { λ s t r h e. take_while-keeps P.FnMut I.next_gives I.in_order I.goes_on s t
        r h e };
}

impl<'a, T: Copy + 'a, I: OneOrLess<Item = &'a T>> OneOrLess for Copied<I> {
    ghost one_or_less = { λ s. I.one_or_less (copied_source s) };

    fn mark(&self) {}

    ghost at_most_one = { λ s h. copied-one I.next_gives s (I.at_most_one (copied_source s) h) };

    ghost goes_on = { λ s t r h e. I.goes_on (copied_source s) (copied_source t) e.0 h e.1 };
}

impl<'a, T: Ord + Copy + 'a, I: SortedByItem<Item = &'a T>> SortedByItem for Copied<I> {
    ghost in_order = { λ s. I.in_order (copied_source s) };

    fn mark(&self) {}

    ghost sorted = { λ s h. copied-in_order I.next_gives T.cmp s (I.sorted (copied_source s) h) };

    ghost goes_on = { λ s t r h e. I.goes_on (copied_source s) (copied_source t) e.0 h e.1 };
}

impl<'a, T: Clone + 'a, I: OneOrLess<Item = &'a T>> OneOrLess for Cloned<I> {
    ghost one_or_less = { λ s. I.one_or_less (cloned_source s) };

    fn mark(&self) {}

    ghost at_most_one = { λ s h. cloned-one I.next_gives T.is_clone s
        (I.at_most_one (cloned_source s) h) };

    ghost goes_on = { λ s t r h e. I.goes_on (cloned_source s) (cloned_source t) e.0 h e.1 };
}

impl<B, I: OneOrLess, F: FnMut(I::Item) -> B> OneOrLess for Map<I, F> {
    ghost one_or_less = { λ s. I.one_or_less (map_source s) };

    fn mark(&self) {}

    ghost at_most_one = { λ s h. map-one F.FnMut I.next_gives s (I.at_most_one (map_source s) h) };

    ghost goes_on = { λ s t r h e. map-keeps F.FnMut I.next_gives I.one_or_less I.goes_on s
        t r h e };
}

impl<B: Ord, I: OneOrLess, F: FnMut(I::Item) -> B> SortedByItem for Map<I, F> {
    ghost in_order = { λ s. I.one_or_less (map_source s) };

    fn mark(&self) {}

    ghost sorted = { λ s h. map-in_order F.FnMut I.next_gives B.cmp s
        (I.at_most_one (map_source s) h) };

    ghost goes_on = { λ s t r h e. map-keeps F.FnMut I.next_gives I.one_or_less I.goes_on s
        t r h e };
}

// `Take` alone doesn't say that it stays ended, and fused it does.
impl<I: OneOrLess> OneOrLess for Fuse<Take<I>> {
    ghost one_or_less = { WhileOpen I.next_gives I.one_or_less };

    fn mark(&self) {}

    ghost at_most_one = { λ s h. taken-one I.next_gives s
        (λ e. I.at_most_one (taken_source I.next_gives s) (h e)) };

    ghost goes_on = { λ s t r h e. taken-keeps I.next_gives I.one_or_less I.goes_on s t r h e };
}

impl<I: SortedByItem> SortedByItem for Fuse<Take<I>>
where
    I::Item: Ord,
{
    ghost in_order = { WhileOpen I.next_gives I.in_order };

    fn mark(&self) {}

    ghost sorted = { λ s h. taken-in_order I.next_gives I.Item.cmp s
        (λ e. I.sorted (taken_source I.next_gives s) (h e)) };

    ghost goes_on = { λ s t r h e. taken-keeps I.next_gives I.in_order I.goes_on s t r h e };
}
