//! The items of a set, in order.
ghost use Rattle.std.specs.Prelude.{◌≡◌, ◌^◌, ◌<◌, length};
ghost use Rattle.std.specs.declared.alloc.Global.{Global};
ghost use Rattle.std.specs.List.Sorted.{IsStrictlySortedBy};
ghost use Rattle.std.specs.Slice.Iter.{iter_rest};
ghost use Rattle.std.specs.Iterator.Adapters.{IterYieldsInOrder, IterYieldsInReverse};
ghost use Rattle.std.specs.Iterator.Runs.{EveryRun, ItemsAre, ItemsAreReversed};
ghost use Rattle.std.specs.Vec.Iter.{into_iter_steps, into_iter_steps_back, into_iter_items, into_iter_len};

use crate::set::SortedVectorSet;
use std::slice::Iter;
use std::vec::IntoIter;

impl<T: Ord> SortedVectorSet<T> {
    /// Returns the items in ascending order, from both ends, with their exact number. O(1) time, no
    /// memory, as does each of its calls.
    pub fn iter(&self) -> Iter<'_, T>
        ensures rest { iter_rest result ≡ self.now.items }
        ensures bound { length (iter_rest result) < 2 ^ 64 }
        ensures ascending { IsStrictlySortedBy T.cmp self.now.items }
        ensures runs { IterYieldsInOrder T }
        ensures runs_back { IterYieldsInReverse T }
    {
        self.items.iter()
    }
}

impl<'a, T: Ord> IntoIterator for &'a SortedVectorSet<T> {
    type Item = &'a T;

    type IntoIter = Iter<'a, T>;

    ghost into_iter_gives = { λ s r. (iter_rest r ≡ s.now.items) × (length (iter_rest r) < 2 ^ 64)
        × IsStrictlySortedBy T.cmp s.now.items × IterYieldsInOrder T × IterYieldsInReverse T };

    fn into_iter(self) -> Iter<'a, T> {
        self.items.iter()
    }
}

impl<T: Ord + Drop> IntoIterator for SortedVectorSet<T> {
    type Item = T;

    type IntoIter = IntoIter<T>;

    ghost into_iter_gives = { λ s r. (into_iter_items r ≡ s.items)
        × (into_iter_len r ≡ length s.items) × (into_iter_len r < 2 ^ 64)
        × IsStrictlySortedBy T.cmp s.items × EveryRun (into_iter_steps {X = T} {Z = Global})
        (λ p. ItemsAre p (into_iter_items p.from))
        × EveryRun (into_iter_steps_back {X = T} {Z = Global})
        (λ p. ItemsAreReversed p (into_iter_items p.from)) };

    fn into_iter(self) -> IntoIter<T> {
        self.items.into_iter()
    }
}
