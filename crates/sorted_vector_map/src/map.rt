//! The map: making one, looking into it, putting pairs in, and taking them out.
ghost use Rattle.std.specs.Prelude.{Some, ◌≡◌, ◌≤◌, ◌<◌, ◌+◌, ◌-◌, ◌++◌, ◌↔◌, [], length, slice_get, IsTrue, IsOk, IfOk, IfErr, IfNone, OnOk, is_ok, if◌then◌else◌};
ghost use Rattle.std.specs.Borrow.{sem};
ghost use Rattle.std.specs.List.{insert, remove};
ghost use Rattle.std.specs.List.Sorted.{IsStrictlySortedBy};
ghost use Rattle.std.specs.Option.{option_map, option_copied, option_copied_mut, option_to_list};
ghost use Rattle.ordered_lists.specs.Lists.{by_key, to_key, find, has, put, take_out};
ghost use Rattle.ordered_lists.specs.Search.{IsPairFound, IsPairMissing, set_value};
ghost use Rattle.sorted_vector_map.specs.Lent.{lends_at, lends_added, lends_value, lends_value_if};

use element_core::{NoMemory, Refused};
use std::alloc::Global;
use std::marker::Model;
use std::mem::replace;

/// A map whose pairs lie in one vector, in ascending order of their keys. Equal keys may differ in
/// what their comparison doesn't look at, so each call says which one stays.
///
/// Its spare is the number of pairs that it can take without memory.
#[derive(Drop)]
pub struct SortedVectorMap<K: Ord, V> {
    pub(crate) items: Vec<(K, V)>,
}

impl<K: Ord, V> Model for SortedVectorMap<K, V> {
    ghost use Rattle.std.specs.Prelude.{◌-◌};
    ghost use Rattle.std.specs.Vec.{vec_len, vec_capacity};
    ghost use Rattle.std.specs.List.Sorted.{IsStrictlySortedBy};
    ghost use Rattle.ordered_lists.specs.Lists.{by_key};
    ghost use Rattle.sorted_vector_map.specs.Content.{Content};

    ghost Value = { Content K V };

    ghost view = { λ m. record {
      pairs = m.items.items;
      spare
          = vec_capacity m.items - vec_len m.items;
    } };

    ghost invariant = { λ m. IsStrictlySortedBy (by_key K.cmp) m.items.items };
}

impl<K: Ord, V> SortedVectorMap<K, V> {
    /// Returns the empty map. O(1) time, no memory.
    pub fn new(alloc: Global) -> Self
        ensures { result.pairs ≡ [] }
    {
        SortedVectorMap {
            items: Vec::new(alloc),
        }
    }

    /// Returns the empty map with room for `capacity` pairs. Where memory is short, or so many
    /// pairs are more than any memory can hold, it is refused. O(1) time.
    pub fn with_capacity(alloc: Global, capacity: usize) -> Result<Self, NoMemory>
        ensures pairs { IfOk result (λ m. m.pairs ≡ []) }
        ensures spare { IfOk result (λ m. capacity ≤ m.spare) }
    {
        let items = Vec::with_capacity(alloc, capacity)?;
        Ok(SortedVectorMap { items })
    }

    /// Returns the vector of the pairs, in ascending order of their keys. O(1) time, no memory.
    pub fn into_inner(self) -> Vec<(K, V)>
        ensures pairs { result.items ≡ self.pairs }
        ensures ascending { IsStrictlySortedBy (by_key K.cmp) result.items }
    {
        self.items
    }

    /// Takes all pairs out. Their room stays. O(n) time, no memory.
    pub fn clear(&mut self)
    where
        K: Drop,
        V: Drop,
        ensures pairs { self.new.pairs ≡ [] }
        ensures spare { self.old.spare ≤ self.new.spare }
    {
        self.items.clear();
    }

    /// Returns the number of pairs. O(1) time, no memory.
    pub fn len(&self) -> usize
        ensures { result ≡ length self.now.pairs }
    {
        self.items.len()
    }

    /// Returns whether there is no pair. O(1) time, no memory.
    pub fn is_empty(&self) -> bool
        ensures { IsTrue result ↔ (self.now.pairs ≡ []) }
    {
        self.items.is_empty()
    }

    /// Returns the pair at place `index`, counted from 0 in the order of the keys, or `None` from
    /// the length on. O(1) time, no memory.
    pub fn get_key_value_at_index(&self, index: usize) -> Option<(&K, &V)>
        ensures { option_map (λ p. (p.0.now, p.1.now)) result ≡ slice_get self.now.pairs index }
    {
        if index < self.items.len() {
            Some(self.pair_at(index))
        } else {
            None
        }
    }

    /// Returns the value at a key equal to `q`, or `None` where there is none. O(log n) time, no
    /// memory, as do the other calls that look a key up.
    pub fn get(&self, q: &K) -> Option<&V>
        ensures { option_copied result ≡ option_map (λ p. p.1)
            (find (to_key K.cmp) self.now.pairs q.now) }
    {
        match self.search(q) {
            Ok(at) => Some(self.pair_at(at).1),
            Err(_) => None,
        }
    }

    /// Returns the stored key that is equal to `q` and its value, or `None` where there is none.
    pub fn get_key_value(&self, q: &K) -> Option<(&K, &V)>
        ensures { option_map (λ p. (p.0.now, p.1.now)) result
            ≡ find (to_key K.cmp) self.now.pairs q.now }
    {
        match self.search(q) {
            Ok(at) => Some(self.pair_at(at)),
            Err(_) => None,
        }
    }

    /// Returns whether a key is equal to `q`.
    pub fn contains_key(&self, q: &K) -> bool
        ensures { result ≡ has (to_key K.cmp) self.now.pairs q.now }
    {
        self.search(q).is_ok()
    }

    /// Returns the value at a key equal to `q`, for writing, or `None` where there is none. Nothing
    /// else changes.
    pub fn get_mut(&mut self, q: &K) -> Option<&mut V>
        ensures* writes_back { sem 𝓛 (lends_value_if K.row V.row K.Ord self.entry q.now result) }
        ensures value { option_copied_mut result
            ≡ option_map (λ p. p.1) (find (to_key K.cmp) self.old.pairs q.now) }
    {
        match self.search(q) {
            Ok(at) => Some(self.value_mut_at(at)),
            Err(_) => None,
        }
    }

    /// Returns the value at a key equal to `q`, which is present.
    pub fn index(&self, q: &K) -> &V
        requires { IsTrue (has (to_key K.cmp) self.now.pairs q.now) }
        ensures { option_map (λ p. p.1) (find (to_key K.cmp) self.now.pairs q.now)
            ≡ Some result.now }
    {
        let at = self.place_present(q);
        self.pair_at(at).1
    }

    /// Returns the value at a key equal to `q`, which is present, for writing. Nothing else
    /// changes.
    pub fn index_mut(&mut self, q: &K) -> &mut V
        requires { IsTrue (has (to_key K.cmp) self.old.pairs q.now) }
        ensures* writes_back { sem 𝓛 (lends_value K.row V.row K.Ord self.entry q.now result) }
        ensures value { option_map (λ p. p.1) (find (to_key K.cmp) self.old.pairs q.now)
            ≡ Some result.now }
    {
        let at = self.place_present(q);
        self.value_mut_at(at)
    }

    /// Returns the pair of the least key, or `None` where the map is empty. O(1) time, no memory.
    pub fn first_key_value(&self) -> Option<(&K, &V)>
        ensures { option_map (λ p. (p.0.now, p.1.now)) result ≡ slice_get self.now.pairs 0 }
    {
        self.get_key_value_at_index(0)
    }

    /// Returns the pair of the greatest key, or `None` where the map is empty. O(1) time, no
    /// memory.
    pub fn last_key_value(&self) -> Option<(&K, &V)>
        ensures { option_map (λ p. (p.0.now, p.1.now)) result
            ≡ slice_get self.now.pairs (length self.now.pairs - 1) }
    {
        self.get_key_value_at_index(self.items.len().saturating_sub(1))
    }

    /// Puts `v` in the place of the value at a key equal to `k`, whose stored key stays, and
    /// returns the old value. Without such a key it puts the pair in and returns `None`.
    ///
    /// Where memory is short, the map stays and the pair comes back. That never happens where an
    /// equal key is present or the map has spare. O(log n) time, and time for the pairs of greater
    /// keys, which move; a key above all others takes O(1) amortised time.
    #[inline]
    pub fn insert(&mut self, k: K, v: V) -> Result<Option<V>, Refused<(K, V)>>
    where
        K: Drop,
        ensures pairs { self.new.pairs ≡ (if is_ok result then put K.cmp self.old.pairs k v else
            self.old.pairs) }
        ensures replaced { IfOk result (λ old. old
            ≡ option_map (λ p. p.1) (find (to_key K.cmp) self.old.pairs k)) }
        ensures found { OnOk result (IsTrue (has (to_key K.cmp) self.new.pairs k)) }
        ensures holds { OnOk result (option_map (λ p. p.1) (find (to_key K.cmp) self.new.pairs k)
            ≡ Some v) }
        ensures given { IfErr result (λ refused. refused.given ≡ (k, v)) }
        ensures present { IsTrue (has (to_key K.cmp) self.old.pairs k) → IsOk result }
        ensures roomy { 1 ≤ self.old.spare → IsOk result }
        ensures spare { self.old.spare ≤ self.new.spare + 1 }
        ensures kept_spare { IsTrue (has (to_key K.cmp) self.old.pairs k)
            → self.old.spare ≤ self.new.spare }
    {
        match self.place_for(&k) {
            Ok(at) => Ok(Some(self.write_at(at, v))),
            Err(at) => {
                self.insert_at(at, k, v)?;
                Ok(None)
            }
        }
    }

    /// Takes the pair of a key equal to `q` out, or returns `None` where there is none. O(log n)
    /// time, and time for the pairs of greater keys, which move, and no memory.
    pub fn remove_entry(&mut self, q: &K) -> Option<(K, V)>
        ensures pairs { self.new.pairs ≡ take_out (to_key K.cmp) self.old.pairs q.now }
        ensures taken { result ≡ find (to_key K.cmp) self.old.pairs q.now }
        ensures spare { self.old.spare ≤ self.new.spare }
    {
        match self.search(q) {
            Ok(at) => Some(self.remove_at(at)),
            Err(_) => None,
        }
    }

    /// Takes the pair of a key equal to `q` out and returns its value, or `None` where there is
    /// none. Costs what `remove_entry` costs.
    pub fn remove(&mut self, q: &K) -> Option<V>
    where
        K: Drop,
        ensures pairs { self.new.pairs ≡ take_out (to_key K.cmp) self.old.pairs q.now }
        ensures taken { result ≡ option_map (λ p. p.1) (find (to_key K.cmp) self.old.pairs q.now) }
        ensures spare { self.old.spare ≤ self.new.spare }
    {
        let (_, v) = self.remove_entry(q)?;
        Some(v)
    }

    /// Takes the pair of the greatest key out, or returns `None` where the map is empty. O(1) time,
    /// no memory.
    pub fn pop_last(&mut self) -> Option<(K, V)>
        ensures pairs { self.old.pairs ≡ self.new.pairs ++ option_to_list result }
        ensures none { IfNone result (self.old.pairs ≡ []) }
        ensures spare { self.old.spare ≤ self.new.spare }
    {
        self.items.pop()
    }

    // The place of the pair whose key is equal to q, or else that of q.
    pub(crate) fn search(&self, q: &K) -> Result<usize, usize>
        ensures found { IfOk result (IsPairFound K.cmp self.now.pairs q.now) }
        ensures missing { IfErr result (IsPairMissing K.cmp self.now.pairs q.now) }
    {
        self.items.binary_search_by(|pair| pair.0.cmp(q))
    }

    // The same. Keys often come in order, so the end is tried first.
    pub(crate) fn place_for(&self, q: &K) -> Result<usize, usize>
        ensures found { IfOk result (IsPairFound K.cmp self.now.pairs q.now) }
        ensures missing { IfErr result (IsPairMissing K.cmp self.now.pairs q.now) }
    {
        if let Some(last) = self.items.last() {
            if last.0.cmp(q).is_lt() {
                return Err(self.items.len());
            }
        }
        self.search(q)
    }

    // The place of a key that is present.
    fn place_present(&self, q: &K) -> usize
        requires { IsTrue (has (to_key K.cmp) self.now.pairs q.now) }
        ensures { IsPairFound K.cmp self.now.pairs q.now result }
    {
        match self.search(q) {
            Ok(at) => at,
            Err(_) => unreachable!(),
        }
    }

    // The pair at a place.
    pub(crate) fn pair_at(&self, at: usize) -> (&K, &V)
        requires { at < length self.now.pairs }
        ensures { slice_get self.now.pairs at ≡ Some (result.0.now, result.1.now) }
    {
        let pair = &self.items[at];
        (&pair.0, &pair.1)
    }

    // Puts v in the place of the value there, which is returned.
    fn write_at(&mut self, at: usize, v: V) -> V
        requires { at < length self.old.pairs }
        ensures pairs { self.new.pairs ≡ set_value self.old.pairs at v }
        ensures value { option_map (λ p. p.1) (slice_get self.old.pairs at) ≡ Some result }
        ensures spare { self.new.spare ≡ self.old.spare }
    {
        replace(&mut self.items[at].1, v)
    }

    // The value there, for writing.
    pub(crate) fn value_mut_at(&mut self, at: usize) -> &mut V
        requires { at < length self.old.pairs }
        ensures* writes_back { sem 𝓛 (lends_at K.row V.row K.Ord self.entry at result) }
        ensures value { option_map (λ p. p.1) (slice_get self.old.pairs at) ≡ Some result.now }
    {
        &mut self.items[at].1
    }

    // Puts a pair in at the place of its key, which is missing.
    fn insert_at(&mut self, at: usize, k: K, v: V) -> Result<(), Refused<(K, V)>>
        requires { IsPairMissing K.cmp self.old.pairs k at }
        ensures pairs { self.new.pairs ≡ (if is_ok result then insert self.old.pairs at
            (k, v) else self.old.pairs) }
        ensures given { IfErr result (λ refused. refused.given ≡ (k, v)) }
        ensures roomy { 1 ≤ self.old.spare → IsOk result }
        ensures spare { self.old.spare ≤ self.new.spare + (if is_ok result then 1 else 0) }
    {
        if let Err(refused) = self.items.push((k, v)) {
            return Err(Refused {
                given: refused.value,
            });
        }
        self.items[at..].rotate_right(1);
        Ok(())
    }

    // The same, and returns the value for writing.
    pub(crate) fn insert_mut_at(&mut self, at: usize, k: K, v: V) -> Result<&mut V, Refused<(K, V)>>
        requires { IsPairMissing K.cmp self.old.pairs k at }
        ensures* writes_back { sem 𝓛 (lends_added K.row V.row K.Ord self.entry at k result) }
        ensures value { IfOk result (λ r. r.now ≡ v) }
        ensures given { IfErr result (λ refused. refused.given ≡ (k, v)) }
        ensures roomy { 1 ≤ self.old.spare → IsOk result }
    {
        self.insert_at(at, k, v)?;
        Ok(self.value_mut_at(at))
    }

    // Takes the pair there out.
    pub(crate) fn remove_at(&mut self, at: usize) -> (K, V)
        requires { at < length self.old.pairs }
        ensures pairs { self.new.pairs ≡ remove self.old.pairs at }
        ensures taken { slice_get self.old.pairs at ≡ Some result }
        ensures spare { self.old.spare ≤ self.new.spare }
    {
        self.items.remove(at)
    }
}
