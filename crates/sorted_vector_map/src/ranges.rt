//! Parts of a map between two keys.
ghost use Rattle.std.specs.Prelude.{◌≡◌, not, OnOk, OnErr, IfOk};
ghost use Rattle.std.specs.List.{filter};
ghost use Rattle.std.specs.List.Sorted.{IsStrictlySortedBy};
ghost use Rattle.std.specs.Map.Iter.{deref_pair};
ghost use Rattle.std.specs.Ordering.{is_lt, is_le};
ghost use Rattle.std.specs.Range.Bound.{bound_map};
ghost use Rattle.ordered_lists.specs.Bounds.{is_before, is_within, pairs_within, AreInOrder};
ghost use Rattle.ordered_lists.specs.Lists.{by_key};
ghost use Rattle.ordered_lists.specs.Search.{IsCutAt};
ghost use Rattle.sorted_vector_map.specs.Coming.{ComesByReference};

use crate::iters::Iter;
use crate::map::SortedVectorMap;
use element_core::NoMemory;
use std::alloc::Global;
use std::ops::Bound;

impl<K: Ord, V> SortedVectorMap<K, V> {
    /// Returns the pairs whose keys lie within `low` and `high`, which are in order: the low key is
    /// at most the high one, and they aren't equal and both excluded. O(log n) time, no memory.
    pub fn range(&self, low: Bound<&K>, high: Bound<&K>) -> Iter<'_, K, V>
        requires { AreInOrder K.cmp (bound_map (λ k. k.now) low) (bound_map (λ k. k.now) high) }
        ensures pairs { ComesByReference deref_pair
            (pairs_within K.cmp (bound_map (λ k. k.now) low.entry)
            (bound_map (λ k. k.now) high.entry) self.now.pairs) result }
        ensures ascending { IsStrictlySortedBy (by_key K.cmp) self.now.pairs }
    {
        let start = self.start_of(low);
        let end = self.end_of(high).max(start);
        Iter::new(&self.items[start..end])
    }

    /// Keeps the pairs of keys below `q`, and returns a map of the others.
    ///
    /// Where memory is short, the map stays. O(log n) time, and time for the pairs that leave.
    pub fn split_off(&mut self, alloc: Global, q: &K) -> Result<Self, NoMemory>
        ensures below { OnOk result (self.new.pairs
            ≡ filter (λ p. is_lt (K.cmp p.0 q.now)) self.old.pairs) }
        ensures from { IfOk result (λ rest. rest.pairs
            ≡ filter (λ p. not (is_lt (K.cmp p.0 q.now))) self.old.pairs) }
        ensures err { OnErr result (self.new.pairs ≡ self.old.pairs) }
    {
        // The pairs that leave take the allocator of the map, which is the only one.
        let _ = alloc;
        let at = self.place_of(q);
        let Ok(items) = self.items.split_off(at) else {
            return Err(NoMemory);
        };
        Ok(SortedVectorMap { items })
    }

    // Where q is, or where it would go.
    fn place_of(&self, q: &K) -> usize
        ensures { IsCutAt (λ p. is_lt (K.cmp p.0 q.now)) self.now.pairs result }
    {
        match self.search(q) {
            Ok(at) => at,
            Err(at) => at,
        }
    }

    // The place after q, or where it would go.
    fn place_after(&self, q: &K) -> usize
        ensures { IsCutAt (λ p. is_le (K.cmp p.0 q.now)) self.now.pairs result }
    {
        // Gives the proof that the place after one is a `usize` too.
        let _len = self.items.len();
        match self.search(q) {
            Ok(at) => at + 1,
            Err(at) => at,
        }
    }

    // The place of the first pair whose key isn't below the low bound.
    pub(crate) fn start_of(&self, low: Bound<&K>) -> usize
        ensures { IsCutAt (λ p. is_before K.cmp (bound_map (λ k. k.now) low.entry) p.0)
            self.now.pairs result }
    {
        match low {
            Bound::Included(k) => self.place_of(k),
            Bound::Excluded(k) => self.place_after(k),
            Bound::Unbounded => 0,
        }
    }

    // The place of the first pair whose key is above the high bound.
    pub(crate) fn end_of(&self, high: Bound<&K>) -> usize
        ensures { IsCutAt (λ p. is_within K.cmp (bound_map (λ k. k.now) high.entry) p.0)
            self.now.pairs result }
    {
        match high {
            Bound::Included(k) => self.place_after(k),
            Bound::Excluded(k) => self.place_of(k),
            Bound::Unbounded => self.items.len(),
        }
    }
}
