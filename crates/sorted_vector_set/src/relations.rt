//! Whether two sets share an item, and whether one is within the other.
ghost use Rattle.std.specs.Prelude.{◌≡◌};
ghost use Rattle.std.specs.List.{list_all};
ghost use Rattle.ordered_lists.specs.Lists.{has};
ghost use Rattle.sorted_iter.specs.Subsets.{are_disjoint, is_within, is_around};

use crate::set::SortedVectorSet;

impl<T: Ord> SortedVectorSet<T> {
    /// Returns whether no item has an equal in `other`. Stops at the first two equal items. O(n +
    /// m) time, no memory.
    pub fn is_disjoint(&self, other: &Self) -> bool
        ensures { result ≡ are_disjoint T.cmp self.now.items other.now.items }
    {
        let mut shared = self.intersection(other);
        shared.next().is_none()
    }

    /// Returns whether each item has an equal in `other`. Stops at the first item that has none.
    /// The items are looked up in `other` where that takes fewer comparisons than passing over both
    /// sets. Takes the lesser of O(n + m) and O(n log m) time, and no memory.
    pub fn is_subset(&self, other: &Self) -> bool
        ensures { result ≡ is_within T.cmp self.now.items other.now.items }
    {
        if self.items.len() > other.items.len() {
            return false;
        }
        if is_looking_up_cheaper(self.len(), other.len()) {
            return are_all_in(&self.items, other);
        }
        let mut missing = self.difference(other);
        missing.next().is_none()
    }

    /// Returns whether each item of `other` has an equal here. Costs what `is_subset` costs with
    /// the sets exchanged.
    pub fn is_superset(&self, other: &Self) -> bool
        ensures { result ≡ is_around T.cmp self.now.items other.now.items }
    {
        other.is_subset(self)
    }
}

// Whether looking up `few` items among `many` takes fewer comparisons than passing over all of
// them. It says nothing of what is answered.
fn is_looking_up_cheaper(few: usize, many: usize) -> bool {
    let search = many.checked_ilog2().map_or(0, |log| log as usize + 1);
    few.saturating_mul(search) < few.saturating_add(many)
}

// Whether each item has an equal in the set.
fn are_all_in<T: Ord>(items: &[T], set: &SortedVectorSet<T>) -> bool
    ensures { result ≡ list_all (has T.cmp set.now.items) items.now }
{
    for item in items {
        if !set.contains(item) {
            return false;
        }
    }
    true
}
