//! Putting many pairs in at once.
ghost use Rattle.std.specs.Prelude.{Some, ◌≡◌, ◌≤◌, ◌+◌, ◌++◌, List, [], ◌∷◌, length, map, take, IsTrue, IsOk, IfSome, IfNone, IfOk, IfErr, OnOk, OnErr, is_ok, if◌then◌else◌};
ghost use Rattle.std.specs.Borrow.{Bor};
ghost use Rattle.std.specs.Iterator.{IsFiniteIterable};
ghost use Rattle.std.specs.List.Sorted.{IsPermutation, IsSorted, IsStrictlySortedBy};
ghost use Rattle.std.specs.Map.Iter.{deref_pair};
ghost use Rattle.std.specs.Vec.{vec_len};
ghost use Rattle.ordered_lists.specs.Lists.{by_key, to_key, has, sets};
ghost use Rattle.ordered_lists.specs.Taken.{ClonesAreEqual, GivesAll};
ghost use Rattle.sorted_vector_map.specs.Cloned.{AreClones};
ghost use Rattle.sorted_vector_map.specs.Grown.{after_extending};

use crate::map::SortedVectorMap;
use crate::merge::{keep_last, merge, sort_by_key};
use element_core::{NoMemory, Refused};
use std::alloc::Global;
use std::collections::BTreeMap;
use std::mem::{replace, swap};

impl<K: Ord, V> SortedVectorMap<K, V> {
    /// Puts the pairs of `new` in. No pair changes nothing; one pair is put in as by `insert`, so a
    /// stored key stays. Of more pairs the last of equal keys wins, and its key and value replace a
    /// stored pair.
    ///
    /// Where memory is short, the map stays and the same pairs come back, in any order. That never
    /// happens without a pair, nor with one that `insert` would take. O(m log m) time for m new
    /// pairs, and time for the pairs whose keys are above the least new one.
    pub fn extend_with_vec(&mut self, new: Vec<(K, V)>) -> Result<(), Refused<Vec<(K, V)>>>
    where
        K: Drop,
        V: Drop,
        ensures pairs { self.new.pairs ≡ (if is_ok result then after_extending K.cmp self.old.pairs
            new.items else self.old.pairs) }
        ensures given { IfErr result (λ refused. IsPermutation new.items refused.given.items) }
        ensures none { new.items ≡ [] → IsOk result }
        ensures present { (p : K × V) → new.items ≡ p ∷ []
            → IsTrue (has (to_key K.cmp) self.old.pairs p.0) → IsOk result }
        ensures roomy { length new.items ≤ 1 → 1 ≤ self.old.spare → IsOk result }
        ensures spare { length new.items ≤ 1 → self.old.spare ≤ self.new.spare + 1 }
        ensures kept_spare { (p : K × V) → new.items ≡ p ∷ []
            → IsTrue (has (to_key K.cmp) self.old.pairs p.0) → self.old.spare ≤ self.new.spare }
    {
        if new.len() <= 1 {
            self.extend_with_one(new)
        } else {
            self.extend_with_many(new)
        }
    }

    /// Puts the pairs that `iter` gives in, as `extend_with_vec` does, and costs what it costs. The
    /// pairs are collected first, in memory of their own.
    ///
    /// Where memory is short, the map stays, and the pairs are gone.
    pub fn extend<I: IntoIterator<Item = (K, V)>>(&mut self, iter: I) -> Result<(), NoMemory>
    where
        K: Drop,
        V: Drop,
        requires { IsFiniteIterable I.into_iter_gives I.IntoIter.can_next
            I.IntoIter.remaining iter }
        ensures ok { OnOk result ((new : List (K × V))
            × GivesAll I.into_iter_gives I.IntoIter.next_gives iter new
            × (self.new.pairs ≡ after_extending K.cmp self.old.pairs new)) }
        ensures err { OnErr result (self.new.pairs ≡ self.old.pairs) }
    {
        let alloc = *self.items.allocator();
        let Ok(new) = Vec::from_iter(alloc, iter) else {
            return Err(NoMemory);
        };
        let Ok(()) = self.extend_with_vec(new) else {
            return Err(NoMemory);
        };
        Ok(())
    }

    /// Puts copies of the pairs that `iter` gives in, as `extend_with_vec` does, and costs what
    /// `extend` costs.
    ///
    /// Where memory is short, the map stays.
    pub fn extend_copied<'a, I: IntoIterator<Item = (&'a K, &'a V)>>(
        &mut self,
        iter: I,
    ) -> Result<(), NoMemory>
    where
        K: Copy + 'a,
        V: Copy + 'a,
        requires { IsFiniteIterable I.into_iter_gives I.IntoIter.can_next
            I.IntoIter.remaining iter }
        ensures ok { OnOk result ((shown : List (Bor K × Bor V))
            × GivesAll I.into_iter_gives I.IntoIter.next_gives iter shown
            × (self.new.pairs ≡ after_extending K.cmp self.old.pairs (map deref_pair shown))) }
        ensures err { OnErr result (self.new.pairs ≡ self.old.pairs) }
    {
        let alloc = *self.items.allocator();
        let mut new = Vec::new(alloc);
        for (k, v) in iter {
            if new.push((*k, *v)).is_err() {
                return Err(NoMemory);
            }
        }
        let Ok(()) = self.extend_with_vec(new) else {
            return Err(NoMemory);
        };
        Ok(())
    }

    /// Puts all pairs of `other` in, which is empty then. Of equal keys the pair of `other` stays.
    ///
    /// Where memory is short, both maps stay. O(log n) time for one search, and O(m) amortised time
    /// for the m pairs of both maps whose keys aren't below the least key of `other`. Where this
    /// map is empty it O(1) time, no memory, so it is never refused.
    pub fn append(&mut self, other: &mut Self) -> Result<(), NoMemory>
    where
        K: Drop,
        V: Drop,
        ensures pairs { self.new.pairs ≡ (if is_ok result then sets
            (by_key K.cmp) self.old.pairs other.old.pairs else self.old.pairs) }
        ensures other { other.new.pairs ≡ (if is_ok result then [] else other.old.pairs) }
        ensures none { self.old.pairs ≡ [] → IsOk result }
    {
        let alloc = *other.items.allocator();
        if self.items.is_empty() {
            swap(&mut self.items, &mut other.items);
            return Ok(());
        }
        let Some(tail) = self.open_for(&other.items) else {
            return Err(NoMemory);
        };
        let new = replace(&mut other.items, Vec::new(alloc));
        self.merge_in(tail, new);
        Ok(())
    }

    /// Returns the map of the pairs that `iter` gives: `extend` of the empty map. Where memory is
    /// short, it is refused, and the pairs are gone. O(m log m) time for m pairs.
    pub fn try_from_iter<I: IntoIterator<Item = (K, V)>>(
        alloc: Global,
        iter: I,
    ) -> Result<Self, NoMemory>
    where
        K: Drop,
        V: Drop,
        requires { IsFiniteIterable I.into_iter_gives I.IntoIter.can_next
            I.IntoIter.remaining iter }
        ensures { IfOk result (λ m. (new : List (K × V))
            × GivesAll I.into_iter_gives I.IntoIter.next_gives iter new
            × (m.pairs ≡ after_extending K.cmp [] new)) }
    {
        let mut map = SortedVectorMap::new(alloc);
        map.extend(iter)?;
        Ok(map)
    }

    /// Returns the map of the pairs of `bmap`. Where memory is short, it is refused, and the pairs
    /// are gone. O(n) time, without comparisons, and memory for all pairs at once.
    pub fn try_from_btree_map(alloc: Global, bmap: BTreeMap<K, V>) -> Result<Self, NoMemory>
    where
        K: Drop,
        V: Drop,
        ensures { IfOk result (λ m. m.pairs ≡ bmap.entries) }
    {
        let items = pairs_of(alloc, bmap)?;
        Ok(SortedVectorMap { items })
    }

    /// Returns a map of clones of the pairs, in their order and with room for them. The clone of a
    /// key is equal to it. Where memory is short, it is refused. O(n) time.
    pub fn try_clone(&self, alloc: Global) -> Result<Self, NoMemory>
    where
        K: Clone,
        V: Clone,
        requires { ClonesAreEqual K.is_clone K.eq }
        ensures { IfOk result (λ m. AreClones K.is_clone V.is_clone self.now.pairs m.pairs) }
    {
        let mut items = Vec::with_capacity(alloc, self.items.len())?;
        items.extend_with_clones(&self.items)?;
        Ok(SortedVectorMap { items })
    }

    // The part of `extend_with_vec` for one pair or none.
    fn extend_with_one(&mut self, mut new: Vec<(K, V)>) -> Result<(), Refused<Vec<(K, V)>>>
    where
        K: Drop,
        V: Drop,
        requires { vec_len new ≤ 1 }
        ensures pairs { self.new.pairs ≡ (if is_ok result then after_extending K.cmp self.old.pairs
            new.items else self.old.pairs) }
        ensures given { IfErr result (λ refused. refused.given.items ≡ new.items) }
        ensures none { new.items ≡ [] → IsOk result }
        ensures present { (p : K × V) → new.items ≡ p ∷ []
            → IsTrue (has (to_key K.cmp) self.old.pairs p.0) → IsOk result }
        ensures roomy { 1 ≤ self.old.spare → IsOk result }
        ensures spare { self.old.spare ≤ self.new.spare + 1 }
        ensures kept_spare { (p : K × V) → new.items ≡ p ∷ []
            → IsTrue (has (to_key K.cmp) self.old.pairs p.0) → self.old.spare ≤ self.new.spare }
    {
        let Some((k, v)) = new.pop() else {
            return Ok(());
        };
        match self.insert(k, v) {
            Ok(_) => Ok(()),
            Err(refused) => {
                new.push_reserved(refused.given);
                Err(Refused { given: new })
            }
        }
    }

    // The part of `extend_with_vec` for more pairs.
    fn extend_with_many(&mut self, mut new: Vec<(K, V)>) -> Result<(), Refused<Vec<(K, V)>>>
    where
        K: Drop,
        V: Drop,
        ensures pairs { self.new.pairs ≡ (if is_ok result then sets
            (by_key K.cmp) self.old.pairs new.items else self.old.pairs) }
        ensures given { IfErr result (λ refused. IsPermutation new.items refused.given.items) }
    {
        if sort_by_key(&mut new).is_err() {
            return Err(Refused { given: new });
        }
        if self.items.capacity() == 0 {
            keep_last(&mut new);
            self.items = new;
            return Ok(());
        }
        let Some(tail) = self.open_for(&new) else {
            return Err(Refused { given: new });
        };
        keep_last(&mut new);
        self.merge_in(tail, new);
        Ok(())
    }

    // Up to here the pairs have keys below those of new, whose first key is its least.
    fn place_under(&self, new: &[(K, V)]) -> usize
        requires { IsSorted (by_key K.cmp) new.now }
        ensures in_range { result ≤ length self.now.pairs }
        ensures stays { (l : List (K × V)) → sets (by_key K.cmp) (take result self.now.pairs ++ l)
            new.now ≡ take result self.now.pairs ++ sets (by_key K.cmp) l new.now }
    {
        let Some(first) = new.first() else {
            return self.items.len();
        };
        match self.place_for(&first.0) {
            Ok(at) => at,
            Err(at) => at,
        }
    }

    // Makes room for new, and takes the pairs out that don't stay in front of it. All growth is
    // here.
    fn open_for(&mut self, new: &[(K, V)]) -> Option<Vec<(K, V)>>
        requires { IsSorted (by_key K.cmp) new.now }
        ensures parts { IfSome result (λ tail. self.old.pairs ≡ self.new.pairs ++ tail.items) }
        ensures stays { IfSome result (λ _. (l : List (K × V))
            → sets (by_key K.cmp) (self.new.pairs ++ l) new.now
            ≡ self.new.pairs ++ sets (by_key K.cmp) l new.now) }
        ensures ascending { IfSome result (λ _. IsStrictlySortedBy (by_key K.cmp) self.old.pairs) }
        ensures room { IfSome result (λ tail. vec_len tail + length new.now ≤ self.new.spare) }
        ensures none { IfNone result (self.new.pairs ≡ self.old.pairs) }
    {
        let at = self.place_under(new);
        let spare = self.items.capacity().saturating_sub(self.items.len());
        if spare < new.len() && at <= self.items.len() / 2 {
            return self.open_anew(new);
        }
        if self.items.reserve(new.len()).is_err() {
            return None;
        }
        let Ok(tail) = self.items.split_off(at) else {
            return None;
        };
        Some(tail)
    }

    // The same, and takes all pairs out: where there is too little room and at least half of the
    // pairs would leave, none is moved twice then.
    fn open_anew(&mut self, new: &[(K, V)]) -> Option<Vec<(K, V)>>
        ensures tail { IfSome result (λ tail. tail.items ≡ self.old.pairs) }
        ensures opened { IfSome result (λ _. self.new.pairs ≡ []) }
        ensures ascending { IfSome result (λ _. IsStrictlySortedBy (by_key K.cmp) self.old.pairs) }
        ensures room { IfSome result (λ tail. vec_len tail + length new.now ≤ self.new.spare) }
        ensures none { IfNone result (self.new.pairs ≡ self.old.pairs) }
    {
        let alloc = *self.items.allocator();
        let least = self.items.len().checked_add(new.len())?;
        let room = self.items.capacity().saturating_mul(2).max(least);
        let Ok(items) = Vec::with_capacity(alloc, room) else {
            return None;
        };
        Some(replace(&mut self.items, items))
    }

    // Puts the pairs of tail and new behind those that are there.
    fn merge_in(&mut self, tail: Vec<(K, V)>, new: Vec<(K, V)>)
    where
        K: Drop,
        V: Drop,
        requires ascending { IsStrictlySortedBy (by_key K.cmp) new.items }
        requires whole { IsStrictlySortedBy (by_key K.cmp)
            (self.old.pairs ++ sets (by_key K.cmp) tail.items new.items) }
        requires room { vec_len tail + vec_len new ≤ self.old.spare }
        ensures { self.new.pairs ≡ self.old.pairs ++ sets (by_key K.cmp) tail.items new.items }
    {
        merge(tail, new, &mut self.items);
    }
}

// The pairs of a tree, in a vector that takes its memory at once.
fn pairs_of<K: Ord + Drop, V: Drop>(
    alloc: Global,
    bmap: BTreeMap<K, V>,
) -> Result<Vec<(K, V)>, NoMemory>
    ensures pairs { IfOk result (λ items. items.items ≡ bmap.entries) }
    ensures ascending { IfOk result (λ _. IsStrictlySortedBy K.cmp (map (λ p. p.0) bmap.entries)) }
{
    let mut items = Vec::with_capacity(alloc, bmap.len())?;
    for pair in bmap {
        items.push(pair)?;
    }
    Ok(items)
}
