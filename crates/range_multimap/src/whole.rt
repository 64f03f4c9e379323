//! Multimaps from and to lists of pairs, and groups as lists.
ghost use Rattle.std.specs.Prelude.{◌≡◌, ◌<◌, ◌^◌, ◌↔◌, List, [], length, IsTrue, IfOk};
ghost use Rattle.std.specs.Iterator.{IsFinite, Drains};
ghost use Rattle.std.specs.Slice.Iter.{iter_rest};
ghost use Rattle.range_map.specs.Valued.{pairs_in_numbers};

use crate::grouped::Group;
use crate::multimap::RangeMultiMap;
use element_core::{Element, NoMemory};
use range_map::Range;
use std::alloc::Global;
use std::slice::Iter;

impl<T: Element, V: Eq> RangeMultiMap<T, V> {
    /// Returns the pairs that `iter` gives, in their order. O(n) time for n pairs.
    pub fn try_from_iter<I: IntoIterator<Item = (Range<T>, V)>>(
        alloc: Global,
        iter: I,
    ) -> Result<Self, NoMemory>
    where
        V: Drop,
        requires { (it : I.IntoIter) → I.into_iter_gives iter it
            → I.IntoIter.can_next it × IsFinite (I.IntoIter.remaining it) }
        ensures { IfOk result (λ map. (it : I.IntoIter) × (pairs : List ((T × T) × V))
            × I.into_iter_gives iter it × Drains I.IntoIter.next_gives it pairs
            × (map ≡ pairs_in_numbers T.numbers pairs)) }
    {
        let pairs = Vec::from_iter(alloc, iter)?;
        Ok(RangeMultiMap::from_vec(pairs))
    }

    /// Returns the pairs in their order. O(1) time, no memory.
    pub fn into_vec(self) -> Vec<(Range<T>, V)>
        ensures { pairs_in_numbers T.numbers result.items ≡ self }
    {
        self.pairs
    }
}

/// The pairs in their order.
impl<'a, T: Element, V: Eq> IntoIterator for &'a RangeMultiMap<T, V> {
    type Item = &'a (Range<T>, V);

    type IntoIter = Iter<'a, (Range<T>, V)>;

    ghost into_iter_gives = { λ map pairs. (pairs_in_numbers T.numbers (iter_rest pairs) ≡ map.now)
        × (length (iter_rest pairs) < 2 ^ 64) };

    fn into_iter(self) -> Iter<'a, (Range<T>, V)> {
        self.ranges_values()
    }
}

impl<V: Eq> Group<V> {
    /// Returns the group of these values. O(1) time, no memory.
    pub fn from_vec(values: Vec<V>) -> Self
        ensures { result ≡ values.items }
    {
        Group { values }
    }

    /// Returns the number of values. O(1) time, no memory.
    pub fn len(&self) -> usize
        ensures { result ≡ length self.now }
    {
        self.values.len()
    }

    /// Returns whether there is no value. O(1) time, no memory.
    pub fn is_empty(&self) -> bool
        ensures { IsTrue result ↔ (self.now ≡ []) }
    {
        self.values.is_empty()
    }

    /// Returns the values in their order, from both ends. O(1) time, no memory.
    pub fn iter(&self) -> Iter<'_, V>
        ensures list { iter_rest result ≡ self.now }
        ensures bound { length (iter_rest result) < 2 ^ 64 }
    {
        self.values.iter()
    }
}
