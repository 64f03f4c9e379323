//! Sets made from ranges in any order.
ghost use Rattle.std.specs.Prelude.{◌≡◌, ℤ, ◌≤ℤ◌, List, IfOk};
ghost use Rattle.std.specs.Iterator.{IsFinite, Drains};
ghost use Rattle.number_line.specs.Ranges.{holds, IsCanonical};
ghost use Rattle.range_map.specs.Set.{all_in_numbers};
ghost use Rattle.range_map.specs.Merging.{BeginInOrder};

use crate::range::Range;
use crate::set::RangeSet;
use element_core::{Element, NoMemory, compare};
use std::alloc::Global;

// Returns the set of the values in any of the ranges, which begin in order.
fn join_in_order<T: Element>(alloc: Global, ranges: &[Range<T>]) -> Result<RangeSet<T>, NoMemory>
    requires { BeginInOrder (all_in_numbers T.numbers ranges.now) }
    ensures canonical { IfOk result (IsCanonical T.numbers.least T.numbers.greatest) }
    ensures members { IfOk result
        (λ set. (x : ℤ) → holds set x ≡ holds (all_in_numbers T.numbers ranges.now) x) }
{
    let mut set = RangeSet::with_capacity(alloc, ranges.len())?;
    for range in ranges {
        set.push_joined(*range)?;
    }
    Ok(set)
}

// Returns the set of the values in any of the ranges.
fn join_all<T: Element>(alloc: Global, mut ranges: Vec<Range<T>>) -> Result<RangeSet<T>, NoMemory>
    ensures canonical { IfOk result (IsCanonical T.numbers.least T.numbers.greatest) }
    ensures members { IfOk result
        (λ set. (x : ℤ) → holds set x ≡ holds (all_in_numbers T.numbers ranges.items) x) }
{
    ranges.sort_unstable_by(|a, b| compare(a.start(), b.start()));
    join_in_order(alloc, ranges.as_slice())
}

impl<T: Element> RangeSet<T> {
    /// Returns the set of the values in any of the ranges that `iter` gives, in any order; they may
    /// overlap. O(n log n) time for n ranges.
    pub fn try_from_iter<I: IntoIterator<Item = Range<T>>>(
        alloc: Global,
        iter: I,
    ) -> Result<Self, NoMemory>
        requires { (it : I.IntoIter) → I.into_iter_gives iter it
            → I.IntoIter.can_next it × IsFinite (I.IntoIter.remaining it) }
        ensures canonical { IfOk result (IsCanonical T.numbers.least T.numbers.greatest) }
        ensures members { IfOk result (λ set. (it : I.IntoIter) × (ranges : List (T × T))
            × I.into_iter_gives iter it × Drains I.IntoIter.next_gives it ranges
            × ((x : ℤ) → holds set x ≡ holds (all_in_numbers T.numbers ranges) x)) }
    {
        let ranges = Vec::from_iter(alloc, iter)?;
        let set = join_all(alloc, ranges)?;
        Ok(set)
    }
}
