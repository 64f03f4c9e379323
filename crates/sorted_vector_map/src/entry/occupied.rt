//! An occupied entry, and its calls.
ghost use Rattle.std.specs.Prelude.{◌≡◌, ◌≤◌, ◌<◌, Some, length, slice_get};
ghost use Rattle.std.specs.Borrow.{sem};

use crate::map::SortedVectorMap;
use std::mem::replace;

/// The place of a pair that is stored, from `SortedVectorMap::entry`, `first_entry` or
/// `last_entry`.
#[derive(Drop)]
pub struct OccupiedEntry<'a, K: Ord, V> {
    pub(crate) map: &'a mut SortedVectorMap<K, V>,
    pub(crate) at: usize,
    ghost within: { at < length map.now.pairs },
}

impl<'a, K: Ord, V> OccupiedEntry<'a, K, V> {
    ghost use Rattle.sorted_vector_map.specs.Entry.{Occupied, home, HasKey, stored, after_writing, after_removal, IsSamePlace, writes_through, writes_into};

    /// Returns the stored key. O(1) time, no memory, as do the other calls that take nothing out.
    pub fn key(&self) -> &K
        ensures { HasKey (Occupied self.now) result.now }
    {
        self.pair().0
    }

    /// Returns the stored value.
    pub fn get(&self) -> &V
        ensures { stored (Occupied self.now) ≡ Some result.now }
    {
        self.pair().1
    }

    // The stored pair.
    fn pair(&self) -> (&K, &V)
        ensures { slice_get self.now.map.now.pairs self.now.at ≡ Some (result.0.now, result.1.now) }
    {
        let here = self.at;
        self.map.pair_at(here)
    }

    /// Returns the stored value for writing.
    pub fn get_mut(&mut self) -> &mut V
        ensures* writes_back { sem 𝓛 (writes_into K.row V.row self.entry result) }
        ensures value { stored (Occupied self.old) ≡ Some result.now }
    {
        let here = self.at;
        self.map.value_mut_at(here)
    }

    /// Returns the stored value for writing, as long as the map is lent.
    pub fn into_mut(self) -> &'a mut V
        ensures* writes_back { sem 𝓛 (writes_through K.row V.row (Occupied self.entry) result) }
        ensures value { stored (Occupied self.entry) ≡ Some result.now }
    {
        let OccupiedEntry { map, at, .. } = self;
        map.value_mut_at(at)
    }

    /// Puts `value` in the place of the stored value, which is returned. The stored key stays.
    pub fn insert(&mut self, value: V) -> V
        ensures replaced { stored (Occupied self.old) ≡ Some result }
        ensures stored { stored (Occupied self.new) ≡ Some value }
        ensures place { IsSamePlace (Occupied self.old) (Occupied self.new) }
        ensures pairs { (home (Occupied self.new)).now.pairs
            ≡ after_writing (Occupied self.old) value }
    {
        let stored = self.get_mut();
        replace(stored, value)
    }

    /// Takes the stored pair out. Takes time for the pairs of greater keys, which move, and no
    /// memory.
    pub fn remove_entry(self) -> (K, V)
        ensures key { HasKey (Occupied self.entry) result.0 }
        ensures value { stored (Occupied self.entry) ≡ Some result.1 }
        ensures pairs { self.exit.0.now.pairs ≡ after_removal (Occupied self.entry) }
        ensures spare { (home (Occupied self.entry)).now.spare ≤ self.exit.0.now.spare }
    {
        let here = self.at;
        self.map.remove_at(here)
    }

    /// Takes the stored pair out and returns its value. Costs what `remove_entry` costs.
    pub fn remove(self) -> V
    where
        K: Drop,
        ensures value { stored (Occupied self.entry) ≡ Some result }
        ensures pairs { self.exit.0.now.pairs ≡ after_removal (Occupied self.entry) }
        ensures spare { (home (Occupied self.entry)).now.spare ≤ self.exit.0.now.spare }
    {
        let (_, value) = self.remove_entry();
        value
    }
}
