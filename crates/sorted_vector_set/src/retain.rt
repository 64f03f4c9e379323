//! Keeping the items that pass a test.
ghost use Rattle.std.specs.Prelude.{◌≡◌, ◌≤◌, length, take};
ghost use Rattle.std.specs.Fn.{CalledAt, TakesAt};
ghost use Rattle.std.specs.List.Retain.{IsFiltered};
ghost use Rattle.sorted_vector_set.specs.Calls.{CallableOnEach};

use crate::set::SortedVectorSet;

impl<T: Ord> SortedVectorSet<T> {
    /// Calls `f` once on each item in ascending order, and keeps the items at which it returns
    /// true. O(n) time, no memory.
    pub fn retain<F: FnMut(&T) -> bool>(&mut self, mut f: F)
    where
        T: Drop,
        requires { CallableOnEach (CalledAt F.FnMut) (TakesAt F.FnMut) f self.old.items }
        ensures filtered { IsFiltered (CalledAt F.FnMut) f self.old.items self.new.items }
        ensures spare { self.old.spare ≤ self.new.spare }
    {
        let kept = bring_forward(&mut f, &mut self.items);
        self.items.truncate(kept);
    }
}

// Moves the items at which f returns true to the front, in their order, and returns how many they
// are.
fn bring_forward<T, F: FnMut(&T) -> bool>(f: &mut F, items: &mut [T]) -> usize
    requires { CallableOnEach (CalledAt F.FnMut) (TakesAt F.FnMut) f.old items.old }
    ensures in_range { result ≤ length items.new }
    ensures kept { IsFiltered (CalledAt F.FnMut) f.old items.old (take result items.new) }
{
    let mut kept = 0;
    for at in 0..items.len() {
        if passes(f, &items[at]) {
            items.swap(kept, at);
            kept += 1;
        }
    }
    kept
}

// What f returns at the item.
fn passes<T, F: FnMut(&T) -> bool>(f: &mut F, item: &T) -> bool
    requires { TakesAt F.FnMut f.old item.now }
    ensures { CalledAt F.FnMut f.old item.now result f.new }
{
    f(item)
}
