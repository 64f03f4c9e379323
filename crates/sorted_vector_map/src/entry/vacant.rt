//! A vacant entry, and its calls.
ghost use Rattle.std.specs.Prelude.{◌≡◌, ◌≤◌, IsOk, IfOk, IfErr};
ghost use Rattle.std.specs.Borrow.{sem};
ghost use Rattle.ordered_lists.specs.Search.{IsPairMissing};

use crate::map::SortedVectorMap;
use element_core::Refused;

/// The place of a key that isn't present, and the key, from `SortedVectorMap::entry`.
#[derive(Drop)]
pub struct VacantEntry<'a, K: Ord, V> {
    pub(crate) map: &'a mut SortedVectorMap<K, V>,
    pub(crate) key: K,
    pub(crate) at: usize,
    ghost missing: { IsPairMissing K.cmp map.now.pairs key at },
}

impl<'a, K: Ord, V> VacantEntry<'a, K, V> {
    ghost use Rattle.sorted_vector_map.specs.Entry.{Vacant, home, HasKey, writes_through_if_ok};

    /// Returns the given key. O(1) time, no memory.
    pub fn key(&self) -> &K
        ensures { HasKey (Vacant self.now) result.now }
    {
        &self.key
    }

    /// Returns the given key, by value. The map stays. O(1) time, no memory.
    pub fn into_key(self) -> K
        ensures key { HasKey (Vacant self.entry) result }
        ensures map { self.exit.0.now ≡ (home (Vacant self.entry)).now }
    {
        self.key
    }

    /// Puts `value` in at the given key, and returns it for writing.
    ///
    /// Where memory is short, the map stays, and the key and `value` come back; that never happens
    /// where the map has spare. Takes time for the pairs of greater keys, which move; no key is
    /// searched for.
    pub fn insert(self, value: V) -> Result<&'a mut V, Refused<(K, V)>>
        ensures* writes_back { sem 𝓛 (writes_through_if_ok K.row V.row (Vacant self.entry) result) }
        ensures value { IfOk result (λ lent. lent.now ≡ value) }
        ensures given { IfErr result (λ refused. HasKey (Vacant self.entry) refused.given.0
            × (refused.given.1 ≡ value)) }
        ensures roomy { 1 ≤ (home (Vacant self.entry)).now.spare → IsOk result }
    {
        let VacantEntry { map, key, at, .. } = self;
        map.insert_mut_at(at, key, value)
    }
}
