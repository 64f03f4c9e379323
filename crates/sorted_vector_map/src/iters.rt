//! The pairs, keys and values of a map, in the order of the keys: the calls that begin.
ghost use Rattle.std.specs.Prelude.{map};
ghost use Rattle.std.specs.List.Sorted.{IsStrictlySortedBy};
ghost use Rattle.std.specs.Map.Iter.{deref, deref_pair};
ghost use Rattle.ordered_lists.specs.Lists.{by_key};
ghost use Rattle.sorted_vector_map.specs.Coming.{ComesByReference, ComesByValue, ComesFromVector};

use crate::map::SortedVectorMap;

mod borrowed;
mod iter_mut;
mod owned;
mod values_mut;

pub use borrowed::{Iter, Keys, Values};
pub use iter_mut::IterMut;
pub use owned::{IntoKeys, IntoValues};
pub use values_mut::ValuesMut;

impl<K: Ord, V> SortedVectorMap<K, V> {
    /// Returns the pairs in the order of their keys. O(1) time, no memory, as do the other calls
    /// that begin an iterator.
    pub fn iter(&self) -> Iter<'_, K, V>
        ensures pairs { ComesByReference deref_pair self.now.pairs result }
        ensures ascending { IsStrictlySortedBy (by_key K.cmp) self.now.pairs }
    {
        Iter::new(&self.items)
    }

    /// Returns the keys in ascending order.
    pub fn keys(&self) -> Keys<'_, K, V>
        ensures keys { ComesByReference deref (map (λ p. p.0) self.now.pairs) result }
        ensures ascending { IsStrictlySortedBy K.cmp (map (λ p. p.0) self.now.pairs) }
    {
        Keys::of(self.iter())
    }

    /// Returns the values in the order of their keys.
    pub fn values(&self) -> Values<'_, K, V>
        ensures values { ComesByReference deref (map (λ p. p.1) self.now.pairs) result }
    {
        Values::of(self.iter())
    }

    /// Returns the keys in ascending order, by value.
    pub fn into_keys(self) -> IntoKeys<K, V>
        ensures keys { ComesByValue (map (λ p. p.0) self.pairs) result }
        ensures ascending { IsStrictlySortedBy K.cmp (map (λ p. p.0) self.pairs) }
    {
        IntoKeys::of(self.items)
    }

    /// Returns the values in the order of their keys, by value.
    pub fn into_values(self) -> IntoValues<K, V>
        ensures values { ComesByValue (map (λ p. p.1) self.pairs) result }
    {
        IntoValues::of(self.items)
    }
}

impl<'map, K: Ord, V> IntoIterator for &'map SortedVectorMap<K, V> {
    type Item = (&'map K, &'map V);

    type IntoIter = Iter<'map, K, V>;

    ghost into_iter_gives = { λ map iter. ComesByReference deref_pair map.now.pairs iter
        × IsStrictlySortedBy (by_key K.cmp) map.now.pairs };

    fn into_iter(self) -> Self::IntoIter {
        self.iter()
    }
}

impl<K: Ord + Drop, V: Drop> IntoIterator for SortedVectorMap<K, V> {
    type Item = (K, V);

    type IntoIter = std::vec::IntoIter<(K, V)>;

    ghost into_iter_gives = { λ map iter. ComesFromVector map.pairs iter
        × IsStrictlySortedBy (by_key K.cmp) map.pairs };

    fn into_iter(self) -> Self::IntoIter {
        self.items.into_iter()
    }
}
