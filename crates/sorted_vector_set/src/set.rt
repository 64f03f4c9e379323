//! The set: making one, looking into it, putting items in, and taking them out.
ghost use Rattle.std.specs.Prelude.{Some, ◌≡◌, ◌≤◌, ◌<◌, ◌+◌, ◌-◌, ◌++◌, ◌↔◌, not, [], length, slice_get, slice_set, IsTrue, IsOk, IfOk, IfErr, IfNone, OnErr, is_ok, if◌then◌else◌};
ghost use Rattle.std.specs.List.{insert as list_insert, remove as list_remove};
ghost use Rattle.std.specs.List.Sorted.{IsStrictlySortedBy};
ghost use Rattle.std.specs.Option.{option_copied, option_to_list};
ghost use Rattle.ordered_lists.specs.Lists.{find, has, set, take_out};
ghost use Rattle.ordered_lists.specs.Search.{IsFound, IsMissing};

use element_core::{NoMemory, Refused};
use std::alloc::Global;
use std::marker::Model;
use std::mem::replace;

/// A set whose items lie in one vector, in ascending order. Equal items may differ in what their
/// comparison doesn't look at, so each call says which one stays.
///
/// Its spare is the number of items that it can take without memory.
#[derive(Drop)]
pub struct SortedVectorSet<T: Ord> {
    pub(crate) items: Vec<T>,
}

impl<T: Ord> Model for SortedVectorSet<T> {
    ghost use Rattle.std.specs.Prelude.{◌-◌};
    ghost use Rattle.std.specs.Vec.{vec_len, vec_capacity};
    ghost use Rattle.std.specs.List.Sorted.{IsStrictlySortedBy};
    ghost use Rattle.sorted_vector_set.specs.Content.{Content};

    ghost Value = { Content T };

    ghost view = { λ s. record {
      items = s.items.items;
      spare
          = vec_capacity s.items - vec_len s.items;
    } };

    ghost invariant = { λ s. IsStrictlySortedBy T.cmp s.items.items };
}

impl<T: Ord> SortedVectorSet<T> {
    /// Returns the empty set. O(1) time, no memory.
    pub fn new(alloc: Global) -> Self
        ensures { result.items ≡ [] }
    {
        SortedVectorSet {
            items: Vec::new(alloc),
        }
    }

    /// Returns the empty set with room for `capacity` items. Where memory is short, or so many
    /// items are more than any memory can hold, it is refused. O(1) time.
    pub fn with_capacity(alloc: Global, capacity: usize) -> Result<Self, NoMemory>
        ensures items { IfOk result (λ s. s.items ≡ []) }
        ensures spare { IfOk result (λ s. capacity ≤ s.spare) }
    {
        let items = Vec::with_capacity(alloc, capacity)?;
        Ok(SortedVectorSet { items })
    }

    /// Returns the vector of the items, in ascending order. O(1) time, no memory.
    pub fn into_inner(self) -> Vec<T>
        ensures items { result.items ≡ self.items }
        ensures ascending { IsStrictlySortedBy T.cmp result.items }
    {
        self.items
    }

    /// Takes all items out. Their room stays. O(n) time, no memory.
    pub fn clear(&mut self)
    where
        T: Drop,
        ensures items { self.new.items ≡ [] }
        ensures spare { self.old.spare ≤ self.new.spare }
    {
        self.items.clear();
    }

    /// Returns the number of items. O(1) time, no memory.
    pub fn len(&self) -> usize
        ensures { result ≡ length self.now.items }
    {
        self.items.len()
    }

    /// Returns whether there is no item. O(1) time, no memory.
    pub fn is_empty(&self) -> bool
        ensures { IsTrue result ↔ (self.now.items ≡ []) }
    {
        self.items.is_empty()
    }

    /// Returns whether an item is equal to `q`. O(log n) time, no memory.
    pub fn contains(&self, q: &T) -> bool
        ensures { result ≡ has T.cmp self.now.items q.now }
    {
        self.search(q).is_ok()
    }

    /// Returns the item that is equal to `q`, or `None` where there is none. O(log n) time, no
    /// memory.
    pub fn get(&self, q: &T) -> Option<&T>
        ensures { option_copied result ≡ find T.cmp self.now.items q.now }
    {
        match self.search(q) {
            Ok(at) => Some(&self.items[at]),
            Err(_) => None,
        }
    }

    /// Returns the least item, or `None` where the set is empty. O(1) time, no memory.
    pub fn first(&self) -> Option<&T>
        ensures { option_copied result ≡ slice_get self.now.items 0 }
    {
        self.items.first()
    }

    /// Returns the greatest item, or `None` where the set is empty. O(1) time, no memory.
    pub fn last(&self) -> Option<&T>
        ensures { option_copied result ≡ slice_get self.now.items (length self.now.items - 1) }
    {
        self.items.last()
    }

    /// Puts `value` in the place of the item that is equal to it, and returns that item. Without
    /// one it puts `value` in and returns `None`.
    ///
    /// Where memory is short, the set stays and `value` comes back. That never happens where an
    /// equal item is present or the set has spare. O(log n) time, and time for the greater items,
    /// which move; an item above all others takes O(1) amortised time.
    #[inline]
    pub fn replace(&mut self, value: T) -> Result<Option<T>, Refused<T>>
        ensures items { self.new.items ≡ (if is_ok result then set T.cmp self.old.items value else
            self.old.items) }
        ensures replaced { IfOk result (λ old. old ≡ find T.cmp self.old.items value) }
        ensures given { IfErr result (λ refused. refused.given ≡ value) }
        ensures present { IsTrue (has T.cmp self.old.items value) → IsOk result }
        ensures roomy { 1 ≤ self.old.spare → IsOk result }
        ensures spare { self.old.spare ≤ self.new.spare + 1 }
        ensures kept_spare { IsTrue (has T.cmp self.old.items value)
            → self.old.spare ≤ self.new.spare }
        ensures refused_spare { OnErr result (self.old.spare ≤ self.new.spare) }
    {
        match self.place_of(&value) {
            Ok(at) => Ok(Some(self.replace_at(at, value))),
            Err(at) => {
                self.insert_at(at, value)?;
                Ok(None)
            }
        }
    }

    /// Does what `replace` does, and returns whether no item was equal to `value`.
    ///
    /// It is refused where `replace` is, and costs the same.
    #[inline]
    pub fn insert(&mut self, value: T) -> Result<bool, Refused<T>>
    where
        T: Drop,
        ensures items { self.new.items ≡ (if is_ok result then set T.cmp self.old.items value else
            self.old.items) }
        ensures inserted { IfOk result (λ new. new ≡ not (has T.cmp self.old.items value)) }
        ensures given { IfErr result (λ refused. refused.given ≡ value) }
        ensures present { IsTrue (has T.cmp self.old.items value) → IsOk result }
        ensures roomy { 1 ≤ self.old.spare → IsOk result }
        ensures spare { self.old.spare ≤ self.new.spare + 1 }
        ensures kept_spare { IsTrue (has T.cmp self.old.items value)
            → self.old.spare ≤ self.new.spare }
        ensures refused_spare { OnErr result (self.old.spare ≤ self.new.spare) }
    {
        let old = self.replace(value)?;
        Ok(old.is_none())
    }

    /// Takes the item that is equal to `value` out, or returns `None` where there is none. O(log n)
    /// time, and time for the greater items, which move, and no memory.
    pub fn take(&mut self, value: &T) -> Option<T>
        ensures items { self.new.items ≡ take_out T.cmp self.old.items value.now }
        ensures taken { result ≡ find T.cmp self.old.items value.now }
        ensures spare { self.old.spare ≤ self.new.spare }
    {
        match self.search(value) {
            Ok(at) => Some(self.remove_at(at)),
            Err(_) => None,
        }
    }

    /// Takes the item that is equal to `value` out, and returns whether there was one. Costs what
    /// `take` costs.
    pub fn remove(&mut self, value: &T) -> bool
    where
        T: Drop,
        ensures items { self.new.items ≡ take_out T.cmp self.old.items value.now }
        ensures removed { result ≡ has T.cmp self.old.items value.now }
        ensures spare { self.old.spare ≤ self.new.spare }
    {
        self.take(value).is_some()
    }

    /// Takes the greatest item out, or returns `None` where the set is empty. O(1) time, no memory.
    pub fn pop_last(&mut self) -> Option<T>
        ensures items { self.old.items ≡ self.new.items ++ option_to_list result }
        ensures none { IfNone result (self.old.items ≡ []) }
        ensures spare { self.old.spare ≤ self.new.spare }
    {
        self.items.pop()
    }

    // The place of the item that is equal to q, or else that of q.
    pub(crate) fn search(&self, q: &T) -> Result<usize, usize>
        ensures found { IfOk result (IsFound (λ x. x) T.cmp self.now.items q.now) }
        ensures missing { IfErr result (IsMissing (λ x. x) T.cmp self.now.items q.now) }
    {
        self.items.binary_search(q)
    }

    // The same. Items often come in order, so the end is tried first.
    pub(crate) fn place_of(&self, q: &T) -> Result<usize, usize>
        ensures found { IfOk result (IsFound (λ x. x) T.cmp self.now.items q.now) }
        ensures missing { IfErr result (IsMissing (λ x. x) T.cmp self.now.items q.now) }
    {
        if let Some(last) = self.items.last() {
            if last.cmp(q).is_lt() {
                return Err(self.items.len());
            }
        }
        self.search(q)
    }

    // Puts value in the place of the item that is equal to it, which is returned.
    fn replace_at(&mut self, at: usize, value: T) -> T
        requires { IsFound (λ x. x) T.cmp self.old.items value at }
        ensures items { self.new.items ≡ slice_set self.old.items at value }
        ensures value { slice_get self.old.items at ≡ Some result }
        ensures spare { self.new.spare ≡ self.old.spare }
    {
        replace(&mut self.items[at], value)
    }

    // Puts value in at its place, where no item is equal to it.
    fn insert_at(&mut self, at: usize, value: T) -> Result<(), Refused<T>>
        requires { IsMissing (λ x. x) T.cmp self.old.items value at }
        ensures items { self.new.items ≡ (if is_ok result then list_insert self.old.items at value
            else self.old.items) }
        ensures given { IfErr result (λ refused. refused.given ≡ value) }
        ensures roomy { 1 ≤ self.old.spare → IsOk result }
        ensures spare { self.old.spare ≤ self.new.spare + (if is_ok result then 1 else 0) }
    {
        if let Err(refused) = self.items.push(value) {
            return Err(Refused {
                given: refused.value,
            });
        }
        self.items[at..].rotate_right(1);
        Ok(())
    }

    // Takes the item there out.
    fn remove_at(&mut self, at: usize) -> T
        requires { at < length self.old.items }
        ensures items { self.new.items ≡ list_remove self.old.items at }
        ensures taken { slice_get self.old.items at ≡ Some result }
        ensures spare { self.old.spare ≤ self.new.spare }
    {
        self.items.remove(at)
    }
}
