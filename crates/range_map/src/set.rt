//! Sets of values, each kept as its ranges.
ghost use Rattle.std.specs.Prelude.{◌≡◌, ℤ, ◌&&◌, ◌||◌, not};
ghost use Rattle.std.specs.Prelude.{[], ◌∷◌, length, IfOk, IsTrue, ◌↔◌};
ghost use Rattle.number_line.specs.Ranges.{holds, IsCanonical};
ghost use Rattle.range_map.specs.Range.{in_numbers, EachNumber};
ghost use Rattle.range_map.specs.Set.{all_in_numbers, IsSet};

mod counting;
mod elements;
mod except;
mod from_iter;
mod iter;
mod merging;
mod places;

use crate::range::Range;
pub(crate) use counting::size_of;
use element_core::{Element, NoMemory, is_below};
pub use elements::EltIter;
pub(crate) use elements::without_first;
pub use iter::RangeIter;
use merging::take_first;
pub(crate) use places::ranges_from;
use std::alloc::Global;
use std::hash::{Hash, Hasher};
use std::marker::Model;

/// A set of values, kept as the fewest ranges that hold them, ascending: each begins two or more
/// past the end of the one before it.
///
/// Contracts see a set as the list of its ranges in numbers. Two sets with the same members are
/// equal. Where memory is short, a call that makes a set answers `NoMemory`, and the sets that it
/// read stay as they were.
#[derive(Debug, Drop)]
pub struct RangeSet<T: Element> {
    pub(crate) ranges: Vec<Range<T>>,
}

impl<T: Element> Model for RangeSet<T> {
    ghost use Rattle.std.specs.Prelude.{ℤ, List};
    ghost use Rattle.range_map.specs.Set.{all_in_numbers, IsSet};

    ghost Value = { List (ℤ × ℤ) };

    ghost view = { λ set. all_in_numbers T.numbers set.ranges.items };

    ghost invariant = { λ set. IsSet T.numbers set.ranges.items };
}

impl<T: Element> RangeSet<T> {
    /// Returns the empty set. O(1) time, no memory.
    pub fn new(alloc: Global) -> Self
        ensures { result ≡ [] }
    {
        RangeSet {
            ranges: Vec::new(alloc),
        }
    }

    /// Returns the set of all values of the type. O(1) time.
    pub fn full(alloc: Global) -> Result<Self, NoMemory>
        ensures canonical { IfOk result (IsCanonical T.numbers.least T.numbers.greatest) }
        ensures list { IfOk result (λ set. set ≡ (T.numbers.least, T.numbers.greatest) ∷ []) }
    {
        RangeSet::from_range(alloc, Range::full())
    }

    /// Returns the set of `x` alone. O(1) time.
    pub fn single(alloc: Global, x: T) -> Result<Self, NoMemory>
        ensures canonical { IfOk result (IsCanonical T.numbers.least T.numbers.greatest) }
        ensures list { IfOk result (λ set. set ≡ (T.numbers.number x, T.numbers.number x) ∷ []) }
    {
        RangeSet::from_range(alloc, Range::single(x))
    }

    /// Returns the set of the values in `range`. O(1) time.
    pub fn from_range(alloc: Global, range: Range<T>) -> Result<Self, NoMemory>
        ensures canonical { IfOk result (IsCanonical T.numbers.least T.numbers.greatest) }
        ensures list { IfOk result (λ set. set ≡ in_numbers T.numbers range ∷ []) }
    {
        // These two tell that the range lies within the type.
        range.start();
        range.end();
        let mut ranges = Vec::with_capacity(alloc, 1)?;
        ranges.push(range)?;
        Ok(RangeSet { ranges })
    }

    /// The set of ranges that are those of one already. O(1) time, no memory.
    // For the crates whose operations make canonical lists themselves.
    #[doc(hidden)]
    pub fn from_canonical(ranges: Vec<Range<T>>) -> Self
        requires { IsSet T.numbers ranges.items }
        ensures { result ≡ all_in_numbers T.numbers ranges.items }
    {
        RangeSet { ranges }
    }

    /// The ranges, ascending. O(1) time, no memory.
    // For the crates that walk over sets by their ranges.
    #[doc(hidden)]
    pub fn as_slice(&self) -> &[Range<T>]
        ensures list { all_in_numbers T.numbers result.now ≡ self.now }
        ensures canonical { IsCanonical T.numbers.least T.numbers.greatest self.now }
    {
        self.ranges.as_slice()
    }

    /// Returns whether no value is a member. O(1) time, no memory.
    pub fn is_empty(&self) -> bool
        ensures { IsTrue result ↔ (self.now ≡ []) }
    {
        self.ranges.is_empty()
    }

    /// Returns the number of ranges. O(1) time, no memory.
    pub fn num_ranges(&self) -> usize
        ensures { result ≡ length self.now }
    {
        self.ranges.len()
    }

    /// Returns the ranges, ascending. O(1) time, no memory.
    pub fn ranges(&self) -> RangeIter<'_, T>
        ensures list { result ≡ self.now }
        ensures canonical { IsCanonical T.numbers.least T.numbers.greatest self.now }
    {
        RangeIter {
            ranges: self.ranges.as_slice(),
        }
    }

    /// Returns whether `value` is a member. O(log n) time for n ranges, no memory.
    pub fn contains(&self, value: T) -> bool
        ensures { result ≡ holds self.now (T.numbers.number value) }
    {
        self.ranges
            .binary_search_by(|range| range.cmp_element(value))
            .is_ok()
    }

    /// Returns the set of the values that are members of either set. O(n + m) time for n and m
    /// ranges.
    pub fn union(&self, alloc: Global, other: &Self) -> Result<Self, NoMemory>
        ensures canonical { IfOk result (IsCanonical T.numbers.least T.numbers.greatest) }
        ensures members { IfOk result
            (λ set. (x : ℤ) → holds set x ≡ (holds self.now x || holds other.now x)) }
    {
        let mut left = self.ranges.as_slice();
        let mut right = other.ranges.as_slice();
        let mut set = RangeSet::with_capacity(alloc, left.len().saturating_add(right.len()))?;
        while let Some(taken) = take_first(left, right) {
            set.push_joined(taken.next)?;
            left = taken.left;
            right = taken.right;
        }
        Ok(set)
    }

    /// Returns the set of the values that are members of both sets. O(n + m) time for n and m
    /// ranges.
    pub fn intersection(&self, alloc: Global, other: &Self) -> Result<Self, NoMemory>
        ensures canonical { IfOk result (IsCanonical T.numbers.least T.numbers.greatest) }
        ensures members { IfOk result
            (λ set. (x : ℤ) → holds set x ≡ (holds self.now x && holds other.now x)) }
    {
        let mut left = self.ranges.as_slice();
        let mut right = other.ranges.as_slice();
        let mut set = RangeSet::with_capacity(alloc, left.len().saturating_add(right.len()))?;
        while let Some((first, after_first)) = left.split_first() {
            let Some((second, after_second)) = right.split_first() else {
                return Ok(set);
            };
            set.push_common(first, second)?;
            if is_below(first.end(), second.end()) {
                left = after_first;
            } else {
                right = after_second;
            }
        }
        Ok(set)
    }

    /// Returns the set of the values that aren't members, the two ends of the type included. O(n)
    /// time for n ranges.
    pub fn negated(&self, alloc: Global) -> Result<Self, NoMemory>
        ensures canonical { IfOk result (IsCanonical T.numbers.least T.numbers.greatest) }
        ensures members { IfOk result
            (λ set. EachNumber T.numbers (λ x. holds set x ≡ not (holds self.now x))) }
    {
        let mut set = RangeSet::with_capacity(alloc, self.ranges.len().saturating_add(1))?;
        let mut start = T::min_value();
        for range in &self.ranges {
            set.push_gap(start, range)?;
            match range.end().successor() {
                Some(next) => start = next,
                None => return Ok(set),
            }
        }
        start.in_type();
        set.push_apart(Range::new(start, T::max_value()))?;
        Ok(set)
    }

    /// Returns a set equal to this one. O(n) time for n ranges.
    pub fn try_clone(&self, alloc: Global) -> Result<Self, NoMemory>
        ensures canonical { IfOk result (IsCanonical T.numbers.least T.numbers.greatest) }
        ensures list { IfOk result (λ set. set ≡ self.now) }
    {
        let mut ranges = Vec::with_capacity(alloc, self.ranges.len())?;
        ranges.extend_from_slice(self.ranges.as_slice())?;
        Ok(RangeSet { ranges })
    }
}

impl<T: Element> PartialEq for RangeSet<T> {
    ghost use Rattle.std.specs.Cmp.{partial_equiv_from_equiv};
    ghost use Rattle.range_map.specs.SetLaws.{same_ranges, same_ranges_equivalence};

    ghost eq = { same_ranges };

    ghost laws = { partial_equiv_from_equiv same_ranges_equivalence };

    fn eq(&self, other: &RangeSet<T>) -> bool {
        self.ranges == other.ranges
    }
}

impl<T: Element> Eq for RangeSet<T> {
    ghost use Rattle.range_map.specs.SetLaws.{same_ranges_equivalence};

    ghost laws = { same_ranges_equivalence };
}

impl<T: Element + Hash> Hash for RangeSet<T> {
    ghost use Rattle.std.proofs.Common.{ap};
    ghost use Rattle.range_map.specs.SetLaws.{ranges_fed, same_ranges_decides};

    ghost hash_input = { ranges_fed T.numbers T.hash_input };

    ghost respects_eq = { λ x y equal. ap (ranges_fed T.numbers T.hash_input)
        ((same_ranges_decides x y).0 equal) };

    fn hash<H: Hasher>(&self, state: &mut H) {
        self.ranges.hash(state);
    }
}
