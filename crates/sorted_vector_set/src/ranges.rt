//! Parts of a set between two items.
ghost use Rattle.std.specs.Prelude.{◌≡◌, ◌≤◌, ◌^◌, ◌<◌, length, not, OnOk, OnErr, IfOk};
ghost use Rattle.std.specs.Iterator.Adapters.{IterYieldsInOrder, IterYieldsInReverse};
ghost use Rattle.std.specs.List.{filter};
ghost use Rattle.std.specs.List.Sorted.{IsStrictlySortedBy};
ghost use Rattle.std.specs.Ordering.{is_lt, is_le};
ghost use Rattle.std.specs.Range.Bound.{bound_map};
ghost use Rattle.std.specs.Slice.Iter.{iter_rest};
ghost use Rattle.ordered_lists.specs.Bounds.{is_before, is_within, items_within, AreInOrder};
ghost use Rattle.ordered_lists.specs.Search.{IsCutAt};

use crate::set::SortedVectorSet;
use element_core::NoMemory;
use std::alloc::Global;
use std::ops::Bound;
use std::slice::Iter;

impl<T: Ord> SortedVectorSet<T> {
    /// Returns the items that lie within `low` and `high`, in ascending order and from both ends.
    /// The bounds are in order: the low item is at most the high one, and they aren't equal and
    /// both excluded. O(log n) time, no memory.
    pub fn range(&self, low: Bound<&T>, high: Bound<&T>) -> Iter<'_, T>
        requires { AreInOrder T.cmp (bound_map (λ x. x.now) low) (bound_map (λ x. x.now) high) }
        ensures rest { iter_rest result ≡ items_within T.cmp (bound_map (λ x. x.now) low.entry)
            (bound_map (λ x. x.now) high.entry) self.now.items }
        ensures bound { length (iter_rest result) < 2 ^ 64 }
        ensures ascending { IsStrictlySortedBy T.cmp (iter_rest result) }
        ensures runs { IterYieldsInOrder T }
        ensures runs_back { IterYieldsInReverse T }
    {
        let start = self.start_of(low);
        let end = self.end_of(high).max(start);
        self.items[start..end].iter()
    }

    /// Keeps the items below `q`, and returns a set of the others.
    ///
    /// Where memory is short, the set stays. O(log n) time, and time for the items that leave.
    pub fn split_off(&mut self, alloc: Global, q: &T) -> Result<Self, NoMemory>
        ensures below { OnOk result (self.new.items
            ≡ filter (λ x. is_lt (T.cmp x q.now)) self.old.items) }
        ensures from { IfOk result (λ rest. rest.items
            ≡ filter (λ x. not (is_lt (T.cmp x q.now))) self.old.items) }
        ensures err { OnErr result (self.new.items ≡ self.old.items) }
        ensures spare { self.old.spare ≤ self.new.spare }
    {
        // The items that leave take the allocator of the set, which is the only one.
        let _ = alloc;
        let at = self.place_before(q);
        let Ok(items) = self.items.split_off(at) else {
            return Err(NoMemory);
        };
        Ok(SortedVectorSet { items })
    }

    // Where q is, or where it would go.
    fn place_before(&self, q: &T) -> usize
        ensures { IsCutAt (λ x. is_lt (T.cmp x q.now)) self.now.items result }
    {
        match self.search(q) {
            Ok(at) => at,
            Err(at) => at,
        }
    }

    // The place after q, or where it would go.
    fn place_after(&self, q: &T) -> usize
        ensures { IsCutAt (λ x. is_le (T.cmp x q.now)) self.now.items result }
    {
        // Gives the proof that the place after one is a `usize` too.
        let _len = self.items.len();
        match self.search(q) {
            Ok(at) => at + 1,
            Err(at) => at,
        }
    }

    // The place of the first item that isn't below the low bound.
    fn start_of(&self, low: Bound<&T>) -> usize
        ensures { IsCutAt (λ x. is_before T.cmp (bound_map (λ y. y.now) low.entry) x) self.now.items
            result }
    {
        match low {
            Bound::Included(x) => self.place_before(x),
            Bound::Excluded(x) => self.place_after(x),
            Bound::Unbounded => 0,
        }
    }

    // The place of the first item that is above the high bound.
    fn end_of(&self, high: Bound<&T>) -> usize
        ensures { IsCutAt (λ x. is_within T.cmp (bound_map (λ y. y.now) high.entry) x)
            self.now.items result }
    {
        match high {
            Bound::Included(x) => self.place_after(x),
            Bound::Excluded(x) => self.place_before(x),
            Bound::Unbounded => self.items.len(),
        }
    }
}
