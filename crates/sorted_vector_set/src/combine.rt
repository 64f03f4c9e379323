//! New sets of clones of the items of two sets.
ghost use Rattle.std.specs.Prelude.{List, map, IfOk};
ghost use Rattle.std.specs.Borrow.{Bor};
ghost use Rattle.std.specs.Iterator.{IsFinite, Drains};
ghost use Rattle.std.specs.List.{AllZip};
ghost use Rattle.std.specs.List.Sorted.{IsStrictlySortedBy};
ghost use Rattle.std.specs.Map.Iter.{deref};
ghost use Rattle.ordered_lists.specs.Lists.{union, intersection, difference, symmetric_difference};
ghost use Rattle.ordered_lists.specs.Taken.{ClonesAreEqual};

use crate::set::SortedVectorSet;
use element_core::NoMemory;
use std::alloc::Global;

impl<T: Ord> SortedVectorSet<T> {
    /// Returns a set of clones of the items to which an item of `rhs` is equal. The clone of an
    /// item is equal to it.
    ///
    /// Where memory is short, it is refused. O(n + m) time, as do the other three.
    pub fn bitand(&self, alloc: Global, rhs: &Self) -> Result<Self, NoMemory>
    where
        T: Clone,
        requires { ClonesAreEqual T.is_clone T.eq }
        ensures { IfOk result (λ s. AllZip T.is_clone
            (intersection T.cmp self.now.items rhs.now.items) s.items) }
    {
        let set = clones_of(alloc, self.intersection(rhs))?;
        Ok(set)
    }

    /// Returns a set of clones of the items of either set; of two equal items that of `rhs`.
    pub fn bitor(&self, alloc: Global, rhs: &Self) -> Result<Self, NoMemory>
    where
        T: Clone,
        requires { ClonesAreEqual T.is_clone T.eq }
        ensures { IfOk result (λ s. AllZip T.is_clone (union T.cmp rhs.now.items self.now.items)
            s.items) }
    {
        let set = clones_of(alloc, self.union(rhs))?;
        Ok(set)
    }

    /// Returns a set of clones of the items to which no item of `rhs` is equal.
    pub fn sub(&self, alloc: Global, rhs: &Self) -> Result<Self, NoMemory>
    where
        T: Clone,
        requires { ClonesAreEqual T.is_clone T.eq }
        ensures { IfOk result (λ s. AllZip T.is_clone
            (difference T.cmp self.now.items rhs.now.items) s.items) }
    {
        let set = clones_of(alloc, self.difference(rhs))?;
        Ok(set)
    }

    /// Returns a set of clones of the items of either set to which no item of the other is equal.
    pub fn bitxor(&self, alloc: Global, rhs: &Self) -> Result<Self, NoMemory>
    where
        T: Clone,
        requires { ClonesAreEqual T.is_clone T.eq }
        ensures { IfOk result (λ s. AllZip T.is_clone
            (symmetric_difference T.cmp self.now.items rhs.now.items) s.items) }
    {
        let set = clones_of(alloc, self.symmetric_difference(rhs))?;
        Ok(set)
    }
}

// A set of clones of what comes, which ascends.
fn clones_of<'a, T: Ord + Clone + 'a, I: Iterator<Item = &'a T>>(
    alloc: Global,
    items: I,
) -> Result<SortedVectorSet<T>, NoMemory>
    requires can { I.can_next items }
    requires finite { IsFinite (I.remaining items) }
    requires clones { ClonesAreEqual T.is_clone T.eq }
    requires ascending { (shown : List (Bor T)) → Drains I.next_gives items shown
        → IsStrictlySortedBy T.cmp (map deref shown) }
    ensures { IfOk result (λ s. (shown : List (Bor T)) × Drains I.next_gives items shown
        × AllZip T.is_clone (map deref shown) s.items) }
{
    let mut copies = Vec::new(alloc);
    for item in items {
        copies.push(item.clone()?)?;
    }
    Ok(SortedVectorSet { items: copies })
}
