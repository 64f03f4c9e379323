//! Putting many items in at once.
ghost use Rattle.std.specs.Prelude.{true, ◌≡◌, ◌≤◌, ◌+◌, ◌++◌, List, [], ◌∷◌, length, map, take, IsTrue, IsOk, IfSome, IfNone, IfOk, IfErr, OnOk, OnErr, is_ok, if◌then◌else◌};
ghost use Rattle.std.specs.Borrow.{Bor};
ghost use Rattle.std.specs.Cmp.Lexicographic.{pointwise};
ghost use Rattle.std.specs.Iterator.{IsFiniteIterable};
ghost use Rattle.std.specs.List.{AllZip};
ghost use Rattle.std.specs.List.Sorted.{IsPermutation, IsSorted, IsStrictlySortedBy};
ghost use Rattle.std.specs.Map.Iter.{deref};
ghost use Rattle.std.specs.Vec.{vec_len};
ghost use Rattle.ordered_lists.specs.Lists.{has, sets};
ghost use Rattle.ordered_lists.specs.Taken.{ClonesAreEqual, GivesAll};

use crate::merge::{keep_last, merge};
use crate::set::SortedVectorSet;
use element_core::{NoMemory, Refused};
use std::alloc::Global;
use std::collections::BTreeSet;
use std::mem::{replace, swap};

impl<T: Ord> SortedVectorSet<T> {
    /// Puts the items of `new` in. The last of equal items wins, and replaces a stored one.
    ///
    /// Where memory is short, the set stays and the same items come back, in any order. That never
    /// happens without an item, nor with one that `insert` would take. O(m log m) time for m new
    /// items, and time for the items above the least new one.
    pub fn extend_with_vec(&mut self, new: Vec<T>) -> Result<(), Refused<Vec<T>>>
    where
        T: Drop,
        ensures items { self.new.items ≡ (if is_ok result then sets T.cmp self.old.items new.items
            else self.old.items) }
        ensures given { IfErr result (λ refused. IsPermutation new.items refused.given.items) }
        ensures none { new.items ≡ [] → IsOk result }
        ensures present { (x : T) → new.items ≡ x ∷ [] → IsTrue (has T.cmp self.old.items x)
            → IsOk result }
        ensures roomy { length new.items ≤ 1 → 1 ≤ self.old.spare → IsOk result }
        ensures spare { length new.items ≤ 1 → self.old.spare ≤ self.new.spare + 1 }
        ensures kept_spare { (x : T) → new.items ≡ x ∷ [] → IsTrue (has T.cmp self.old.items x)
            → self.old.spare ≤ self.new.spare }
        ensures refused_spare { OnErr result (self.old.spare ≤ self.new.spare) }
    {
        if new.len() <= 1 {
            self.extend_with_one(new)
        } else {
            self.extend_with_many(new)
        }
    }

    /// Puts the items that `iter` gives in, as `extend_with_vec` does, and costs what it costs. The
    /// items are collected first, in memory of their own.
    ///
    /// Where memory is short, the set stays, and the items are gone.
    pub fn extend<I: IntoIterator<Item = T>>(&mut self, iter: I) -> Result<(), NoMemory>
    where
        T: Drop,
        requires { IsFiniteIterable I.into_iter_gives I.IntoIter.can_next
            I.IntoIter.remaining iter }
        ensures ok { OnOk result ((new : List T)
            × GivesAll I.into_iter_gives I.IntoIter.next_gives iter new
            × (self.new.items ≡ sets T.cmp self.old.items new)) }
        ensures err { OnErr result (self.new.items ≡ self.old.items) }
        ensures refused_spare { OnErr result (self.old.spare ≤ self.new.spare) }
    {
        let alloc = *self.items.allocator();
        let Ok(new) = Vec::from_iter(alloc, iter) else {
            return Err(NoMemory);
        };
        let Ok(()) = self.extend_with_vec(new) else {
            return Err(NoMemory);
        };
        Ok(())
    }

    /// Puts copies of the items that `iter` gives in, as `extend_with_vec` does, and costs what
    /// `extend` costs.
    ///
    /// Where memory is short, the set stays.
    pub fn extend_copied<'a, I: IntoIterator<Item = &'a T>>(
        &mut self,
        iter: I,
    ) -> Result<(), NoMemory>
    where
        T: Copy + 'a,
        requires { IsFiniteIterable I.into_iter_gives I.IntoIter.can_next
            I.IntoIter.remaining iter }
        ensures ok { OnOk result ((shown : List (Bor T))
            × GivesAll I.into_iter_gives I.IntoIter.next_gives iter shown
            × (self.new.items ≡ sets T.cmp self.old.items (map deref shown))) }
        ensures err { OnErr result (self.new.items ≡ self.old.items) }
        ensures refused_spare { OnErr result (self.old.spare ≤ self.new.spare) }
    {
        let alloc = *self.items.allocator();
        let mut new = Vec::new(alloc);
        for item in iter {
            if new.push(*item).is_err() {
                return Err(NoMemory);
            }
        }
        let Ok(()) = self.extend_with_vec(new) else {
            return Err(NoMemory);
        };
        Ok(())
    }

    /// Puts all items of `other` in, which is empty then. Of two equal items that of `other` stays.
    ///
    /// Where memory is short, both sets stay. O(log n) time for one search, and O(m) amortised time
    /// for the m items of both sets that aren't below the least item of `other`. Where this set is
    /// empty it O(1) time, no memory, so it is never refused.
    pub fn append(&mut self, other: &mut Self) -> Result<(), NoMemory>
    where
        T: Drop,
        ensures items { self.new.items ≡ (if is_ok result then sets T.cmp self.old.items
            other.old.items else self.old.items) }
        ensures other { other.new.items ≡ (if is_ok result then [] else other.old.items) }
        ensures none { self.old.items ≡ [] → IsOk result }
        ensures refused_spare { OnErr result (self.old.spare ≤ self.new.spare) }
        ensures other_spare { OnErr result (other.new.spare ≡ other.old.spare) }
    {
        let alloc = *other.items.allocator();
        if self.items.is_empty() {
            swap(&mut self.items, &mut other.items);
            return Ok(());
        }
        let Some(tail) = self.open_for(&other.items) else {
            return Err(NoMemory);
        };
        let new = replace(&mut other.items, Vec::new(alloc));
        self.merge_in(tail, new);
        Ok(())
    }

    /// Returns the set of the items that `iter` gives: `extend` of the empty set. Where memory is
    /// short, it is refused, and the items are gone. O(m log m) time for m items.
    pub fn try_from_iter<I: IntoIterator<Item = T>>(
        alloc: Global,
        iter: I,
    ) -> Result<Self, NoMemory>
    where
        T: Drop,
        requires { IsFiniteIterable I.into_iter_gives I.IntoIter.can_next
            I.IntoIter.remaining iter }
        ensures { IfOk result (λ s. (new : List T)
            × GivesAll I.into_iter_gives I.IntoIter.next_gives iter new
            × (s.items ≡ sets T.cmp [] new)) }
    {
        let mut set = SortedVectorSet::new(alloc);
        set.extend(iter)?;
        Ok(set)
    }

    /// Returns the set of the items of `bset`. Where memory is short, it is refused, and the items
    /// are gone. O(n) time, without comparisons, and memory for all items at once.
    pub fn try_from_btree_set(alloc: Global, bset: BTreeSet<T>) -> Result<Self, NoMemory>
    where
        T: Drop,
        ensures { IfOk result (λ s. s.items ≡ bset.keys) }
    {
        let items = items_of(alloc, bset)?;
        Ok(SortedVectorSet { items })
    }

    /// Returns a set of clones of the items, in their order and with room for them. The clone of an
    /// item is equal to it, so the sets are equal. Where memory is short, it is refused. O(n) time.
    pub fn try_clone(&self, alloc: Global) -> Result<Self, NoMemory>
    where
        T: Clone,
        requires { ClonesAreEqual T.is_clone T.eq }
        ensures clones { IfOk result (λ s. AllZip T.is_clone self.now.items s.items) }
        ensures equal { IfOk result (λ s. pointwise T.eq s.items self.now.items ≡ true) }
    {
        let mut items = Vec::with_capacity(alloc, self.items.len())?;
        items.extend_with_clones(&self.items)?;
        Ok(SortedVectorSet { items })
    }

    // The part of `extend_with_vec` for one item or none.
    fn extend_with_one(&mut self, mut new: Vec<T>) -> Result<(), Refused<Vec<T>>>
    where
        T: Drop,
        requires { vec_len new ≤ 1 }
        ensures items { self.new.items ≡ (if is_ok result then sets T.cmp self.old.items new.items
            else self.old.items) }
        ensures given { IfErr result (λ refused. refused.given.items ≡ new.items) }
        ensures none { new.items ≡ [] → IsOk result }
        ensures present { (x : T) → new.items ≡ x ∷ [] → IsTrue (has T.cmp self.old.items x)
            → IsOk result }
        ensures roomy { 1 ≤ self.old.spare → IsOk result }
        ensures spare { self.old.spare ≤ self.new.spare + 1 }
        ensures kept_spare { (x : T) → new.items ≡ x ∷ [] → IsTrue (has T.cmp self.old.items x)
            → self.old.spare ≤ self.new.spare }
        ensures refused_spare { OnErr result (self.old.spare ≤ self.new.spare) }
    {
        let Some(item) = new.pop() else {
            return Ok(());
        };
        match self.insert(item) {
            Ok(_) => Ok(()),
            Err(refused) => {
                new.push_reserved(refused.given);
                Err(Refused { given: new })
            }
        }
    }

    // The part of `extend_with_vec` for more items.
    fn extend_with_many(&mut self, mut new: Vec<T>) -> Result<(), Refused<Vec<T>>>
    where
        T: Drop,
        ensures items { self.new.items ≡ (if is_ok result then sets T.cmp self.old.items new.items
            else self.old.items) }
        ensures given { IfErr result (λ refused. IsPermutation new.items refused.given.items) }
        ensures refused_spare { OnErr result (self.old.spare ≤ self.new.spare) }
    {
        if new.sort().is_err() {
            return Err(Refused { given: new });
        }
        if self.items.capacity() == 0 {
            keep_last(&mut new);
            self.items = new;
            return Ok(());
        }
        let Some(tail) = self.open_for(&new) else {
            return Err(Refused { given: new });
        };
        keep_last(&mut new);
        self.merge_in(tail, new);
        Ok(())
    }

    // Up to here the items are below those of new, whose first item is its least.
    fn place_under(&self, new: &[T]) -> usize
        requires { IsSorted T.cmp new.now }
        ensures in_range { result ≤ length self.now.items }
        ensures stays { (l : List T) → sets T.cmp (take result self.now.items ++ l) new.now
            ≡ take result self.now.items ++ sets T.cmp l new.now }
    {
        let Some(first) = new.first() else {
            return self.items.len();
        };
        match self.place_of(first) {
            Ok(at) => at,
            Err(at) => at,
        }
    }

    // Makes room for new, and takes the items out that don't stay in front of it. All growth is
    // here.
    fn open_for(&mut self, new: &[T]) -> Option<Vec<T>>
        requires { IsSorted T.cmp new.now }
        ensures parts { IfSome result (λ tail. self.old.items ≡ self.new.items ++ tail.items) }
        ensures stays { IfSome result (λ _. (l : List T)
            → sets T.cmp (self.new.items ++ l) new.now ≡ self.new.items ++ sets T.cmp l new.now) }
        ensures ascending { IfSome result (λ _. IsStrictlySortedBy T.cmp self.old.items) }
        ensures room { IfSome result (λ tail. vec_len tail + length new.now ≤ self.new.spare) }
        ensures none { IfNone result (self.new.items ≡ self.old.items) }
        ensures none_spare { IfNone result (self.old.spare ≤ self.new.spare) }
    {
        let at = self.place_under(new);
        let spare = self.items.capacity().saturating_sub(self.items.len());
        if spare < new.len() && at <= self.items.len() / 2 {
            return self.open_anew(new);
        }
        if self.items.reserve(new.len()).is_err() {
            return None;
        }
        let Ok(tail) = self.items.split_off(at) else {
            return None;
        };
        Some(tail)
    }

    // The same, and takes all items out: where there is too little room and at least half of the
    // items would leave, none is moved twice then.
    fn open_anew(&mut self, new: &[T]) -> Option<Vec<T>>
        ensures tail { IfSome result (λ tail. tail.items ≡ self.old.items) }
        ensures opened { IfSome result (λ _. self.new.items ≡ []) }
        ensures ascending { IfSome result (λ _. IsStrictlySortedBy T.cmp self.old.items) }
        ensures room { IfSome result (λ tail. vec_len tail + length new.now ≤ self.new.spare) }
        ensures none { IfNone result (self.new.items ≡ self.old.items) }
        ensures none_spare { IfNone result (self.old.spare ≤ self.new.spare) }
    {
        let alloc = *self.items.allocator();
        let least = self.items.len().checked_add(new.len())?;
        let room = self.items.capacity().saturating_mul(2).max(least);
        let Ok(items) = Vec::with_capacity(alloc, room) else {
            return None;
        };
        Some(replace(&mut self.items, items))
    }

    // Puts the items of tail and new behind those that are there.
    fn merge_in(&mut self, tail: Vec<T>, new: Vec<T>)
    where
        T: Drop,
        requires ascending { IsStrictlySortedBy T.cmp new.items }
        requires whole { IsStrictlySortedBy T.cmp
            (self.old.items ++ sets T.cmp tail.items new.items) }
        requires room { vec_len tail + vec_len new ≤ self.old.spare }
        ensures { self.new.items ≡ self.old.items ++ sets T.cmp tail.items new.items }
    {
        merge(tail, new, &mut self.items);
    }
}

// The items of a tree, in a vector that takes its memory at once.
fn items_of<T: Ord + Drop>(alloc: Global, bset: BTreeSet<T>) -> Result<Vec<T>, NoMemory>
    ensures items { IfOk result (λ items. items.items ≡ bset.keys) }
    ensures ascending { IfOk result (λ _. IsStrictlySortedBy T.cmp bset.keys) }
{
    let mut items = Vec::with_capacity(alloc, bset.len())?;
    for item in bset {
        items.push(item)?;
    }
    Ok(items)
}
