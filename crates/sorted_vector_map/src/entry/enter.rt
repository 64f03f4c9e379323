//! The calls of a map that return an entry.
ghost use Rattle.std.specs.Prelude.{Some, ◌≡◌, ◌≤◌, ◌<◌, ◌-◌, [], length, unwrap_or, IsTrue, IfSome, IfNone};
ghost use Rattle.std.specs.Borrow.{sem};
ghost use Rattle.std.specs.Option.{option_map};
ghost use Rattle.ordered_lists.specs.Lists.{to_key, find, has, put, take_out};
ghost use Rattle.sorted_vector_map.specs.Entry.{StandsIn, StandsAt, HasKey, is_taken, stored, after_writing, after_removal, lends_or_stays};

use super::{Entry, OccupiedEntry, VacantEntry};
use crate::map::SortedVectorMap;

impl<K: Ord, V> SortedVectorMap<K, V> {
    /// Returns the place of `key`: occupied exactly where an equal key is present. O(log n) time,
    /// or O(1) for a key above all others, and no memory.
    pub fn entry(&mut self, key: K) -> Entry<'_, K, V>
    where
        K: Drop,
        ensures place { StandsIn self.entry result }
        ensures taken { is_taken result ≡ has (to_key K.cmp) self.old.pairs key }
        ensures key { HasKey result (unwrap_or
            (option_map (λ pair. pair.0) (find (to_key K.cmp) self.old.pairs key)) key) }
        ensures stored { stored result ≡ option_map (λ pair. pair.1)
            (find (to_key K.cmp) self.old.pairs key) }
        ensures written { (w : V) → after_writing result w ≡ put K.cmp self.old.pairs key w }
        ensures found { (w : V) → IsTrue (has (to_key K.cmp) (after_writing result w) key) }
        ensures removed { after_removal result ≡ take_out (to_key K.cmp) self.old.pairs key }
    {
        match self.place_for(&key) {
            Ok(at) => Entry::Occupied(OccupiedEntry { map: self, at }),
            Err(at) => Entry::Vacant(VacantEntry { map: self, key, at }),
        }
    }

    /// Returns the place of the first pair, or `None` where the map is empty. O(1) time, no memory.
    pub fn first_entry(&mut self) -> Option<OccupiedEntry<'_, K, V>>
        ensures* map { sem 𝓛 (lends_or_stays K.row V.row K.Ord self.entry result) }
        ensures none { IfNone result (self.old.pairs ≡ []) }
        ensures some { IfSome result (λ _. 0 < length self.old.pairs) }
        ensures first { IfSome result (StandsAt self.entry 0) }
    {
        self.entry_at(0)
    }

    /// Returns the place of the last pair, or `None` where the map is empty. O(1) time, no memory.
    pub fn last_entry(&mut self) -> Option<OccupiedEntry<'_, K, V>>
        ensures* map { sem 𝓛 (lends_or_stays K.row V.row K.Ord self.entry result) }
        ensures none { IfNone result (self.old.pairs ≡ []) }
        ensures some { IfSome result (λ _. 0 < length self.old.pairs) }
        ensures last { IfSome result (StandsAt self.entry (length self.old.pairs - 1)) }
    {
        let last = self.items.len().saturating_sub(1);
        self.entry_at(last)
    }

    // The place of the pair at `at`, or `None` from the length on.
    fn entry_at(&mut self, at: usize) -> Option<OccupiedEntry<'_, K, V>>
        ensures* map { sem 𝓛 (lends_or_stays K.row V.row K.Ord self.entry result) }
        ensures none { IfNone result (length self.old.pairs ≤ at) }
        ensures some { IfSome result (λ _. at < length self.old.pairs) }
        ensures pair { IfSome result (StandsAt self.entry at) }
    {
        if at < self.items.len() {
            Some(OccupiedEntry { map: self, at })
        } else {
            None
        }
    }
}
