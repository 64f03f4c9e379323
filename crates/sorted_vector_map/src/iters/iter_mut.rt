//! The values of a map for writing, in the order of their keys.
ghost use types.Logic.{sem};
ghost use Rattle.std.specs.Prelude.{◌≡◌, length, map};
ghost use Rattle.std.specs.Iterator.{at_most};
ghost use Rattle.std.specs.List.Sorted.{IsStrictlySortedBy};
ghost use Rattle.std.specs.Map.Iter.{deref_pair_mut};
ghost use Rattle.std.specs.Range.Bound.{bound_map};
ghost use Rattle.ordered_lists.specs.Bounds.{pairs_within, AreInOrder};
ghost use Rattle.ordered_lists.specs.Lists.{by_key};
ghost use Rattle.sorted_vector_map.specs.Hints.{IsExact};
ghost use Rattle.sorted_vector_map.specs.Lending.{LendsFirstOf, LendsLastOf, ComesForWriting, deref_mut};
ghost use Rattle.sorted_vector_map.specs.Refilled.{lends_values};
ghost use Rattle.sorted_vector_map.specs.Slots.{pair_of, cell_of};

use crate::iters::ValuesMut;
use crate::lending::{Lent, Slot};
use crate::map::SortedVectorMap;
use std::iter::ExactSizeIterator;
use std::marker::Model;
use std::ops::Bound;

impl<K: Ord, V> SortedVectorMap<K, V> {
    /// Returns the pairs in the order of their keys, with their values for writing. The keys, their
    /// order and their number stay. O(1) time, no memory.
    ///
    /// ```ignore
    /// for (_, price) in prices.iter_mut() {
    ///     *price *= 2;
    /// }
    /// ```
    pub fn iter_mut(&mut self) -> IterMut<'_, K, V>
        ensures* writes_back { sem 𝓛 (lends_values K.row V.row K.Ord self.entry result.loan) }
        ensures pairs { ComesForWriting deref_pair_mut self.old.pairs result.rest }
        ensures ascending { IsStrictlySortedBy (by_key K.cmp) self.old.pairs }
    {
        let (slots, lent) = self.lend();
        IterMut::new(slots, lent)
    }

    /// Returns the values in the order of their keys, for writing. O(1) time, no memory.
    pub fn values_mut(&mut self) -> ValuesMut<'_, K, V>
        ensures* writes_back { sem 𝓛 (lends_values K.row V.row K.Ord self.entry result.loan) }
        ensures values { ComesForWriting deref_mut (map (λ p. p.1) self.old.pairs) result.rest }
    {
        ValuesMut {
            pairs: self.iter_mut(),
        }
    }

    /// Returns the pairs whose keys lie within `low` and `high`, with their values for writing. The
    /// bounds are in order: the low key is at most the high one, and they aren't equal and both
    /// excluded. O(log n) time, no memory.
    pub fn range_mut(&mut self, low: Bound<&K>, high: Bound<&K>) -> IterMut<'_, K, V>
        requires { AreInOrder K.cmp (bound_map (λ k. k.now) low) (bound_map (λ k. k.now) high) }
        ensures* writes_back { sem 𝓛 (lends_values K.row V.row K.Ord self.entry result.loan) }
        ensures pairs { ComesForWriting deref_pair_mut
            (pairs_within K.cmp (bound_map (λ k. k.now) low.entry)
            (bound_map (λ k. k.now) high.entry) self.old.pairs) result.rest }
        ensures ascending { IsStrictlySortedBy (by_key K.cmp) self.old.pairs }
    {
        let start = self.start_of(low);
        let end = self.end_of(high).max(start);
        let (slots, mut lent) = self.lend();
        lent.narrow(start, end - start);
        IterMut::new(&slots[start..end], lent)
    }
}

impl<'map, K: Ord, V> IntoIterator for &'map mut SortedVectorMap<K, V> {
    type Item = (&'map K, &'map mut V);

    type IntoIter = IterMut<'map, K, V>;

    ghost into_iter_gives = { λ map iter. ComesForWriting deref_pair_mut map.now.pairs iter.rest
        × IsStrictlySortedBy (by_key K.cmp) map.now.pairs };

    fn into_iter(self) -> IterMut<'map, K, V>
        ensures* writes_back { sem 𝓛 (lends_values K.row V.row K.Ord self.entry result.loan) }
        ensures into_iter_gives { ComesForWriting deref_pair_mut self.old.pairs result.rest
            × IsStrictlySortedBy (by_key K.cmp) self.old.pairs }
    {
        self.iter_mut()
    }
}

/// The pairs of a map that are still to come, with their values for writing.
///
/// Gives them from both ends, with their exact number as its hint. Each call O(1) time, no memory.
#[derive(Drop)]
pub struct IterMut<'map, K, V> {
    slots: &'map [Slot<K, V>],
    lent: Lent<'map, V>,
}

impl<'map, K, V> Model for IterMut<'map, K, V> {
    ghost use Rattle.std.specs.Prelude.{◌≡◌, map};
    ghost use Rattle.sorted_vector_map.specs.Lending.{Lending};
    ghost use Rattle.sorted_vector_map.specs.Slots.{pair_of, cell_of};

    ghost Value = { Lending (K × V) };

    ghost view = { λ it. record { rest = map pair_of it.slots.now; loan = it.lent.tie } };

    ghost invariant = { λ it. it.lent.cells ≡ map cell_of it.slots.now };
}

impl<'map, K, V> IterMut<'map, K, V> {
    fn new(slots: &'map [Slot<K, V>], lent: Lent<'map, V>) -> Self
        requires { lent.cells ≡ map cell_of slots.now }
        ensures rest { result.rest ≡ map pair_of slots.now }
        ensures loan { result.loan ≡ lent.entry.tie }
    {
        IterMut { slots, lent }
    }
}

impl<'map, K, V> Iterator for IterMut<'map, K, V> {
    type Item = (&'map K, &'map mut V);

    ghost next_gives = { LendsFirstOf deref_pair_mut };

    ghost remaining = { λ it. at_most (length it.rest) };

    fn next(&mut self) -> Option<Self::Item> {
        let (slot, rest) = self.slots.split_first()?;
        self.slots = rest;
        Some(slot.take_first(&mut self.lent))
    }

    fn size_hint(&self) -> (usize, Option<usize>)
        ensures { IsExact (length self.now.rest) result }
    {
        let len = self.slots.len();
        (len, Some(len))
    }
}

impl<'map, K, V> DoubleEndedIterator for IterMut<'map, K, V> {
    ghost next_back_gives = { LendsLastOf deref_pair_mut };

    fn next_back(&mut self) -> Option<Self::Item> {
        let (slot, rest) = self.slots.split_last()?;
        self.slots = rest;
        Some(slot.take_last(&mut self.lent))
    }
}

impl<'map, K, V> ExactSizeIterator for IterMut<'map, K, V> {
    fn len(&self) -> usize {
        self.slots.len()
    }
}
