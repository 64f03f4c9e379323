//! Maps from the values of a numbered type, kept as ranges with a value each.
ghost use Rattle.std.specs.Prelude.{◌≡◌, ◌<◌, ◌^◌, [], length, IsTrue, IfOk, ◌↔◌};
ghost use Rattle.std.specs.Option.{option_copied};
ghost use Rattle.std.specs.Slice.Iter.{iter_rest};
ghost use Rattle.number_line.specs.Valued.{value_at, IsCanonicalMap};
ghost use Rattle.range_map.specs.Valued.{pairs_in_numbers, IsMap};

mod changing;
mod cloned;
mod common;
mod compared;
mod counting;
mod error;
mod from_iter;
mod growing;
mod pair_iter;

use crate::range::Range;
use element_core::{Element, NoMemory};
pub use error::{OverlapError, TryFromIterError};
#[doc(hidden)]
pub use growing::MapBuilder;
pub use pair_iter::PairIter;
use std::alloc::Global;
use std::marker::Model;
use std::slice::Iter;

/// A map from keys of the type `T` to values, kept as ascending ranges of keys with a value each.
/// No two ranges overlap, and ranges that touch have different values.
///
/// Contracts see a map as the list of its ranges in numbers with their values, and `value_at` says
/// which value a key has. Two maps with equal values at each key are equal.
#[derive(Debug, Drop)]
pub struct RangeMap<T: Element, V: Eq> {
    pub(crate) pairs: Vec<(Range<T>, V)>,
}

impl<T: Element, V: Eq> Model for RangeMap<T, V> {
    ghost use Rattle.std.specs.Prelude.{ℤ, List};
    ghost use Rattle.range_map.specs.Valued.{pairs_in_numbers, IsMap};

    ghost Value = { List ((ℤ × ℤ) × V) };

    ghost view = { λ map. pairs_in_numbers T.numbers map.pairs.items };

    ghost invariant = { λ map. IsMap T.numbers V.eq map.pairs.items };
}

impl<T: Element, V: Eq> RangeMap<T, V> {
    /// Returns the empty map. O(1) time, no memory.
    pub fn new(alloc: Global) -> Self
        ensures { result ≡ [] }
    {
        RangeMap {
            pairs: Vec::new(alloc),
        }
    }

    /// The map of ranges that are those of one already. O(1) time, no memory.
    // For the copy of a map, whose values come one by one.
    #[doc(hidden)]
    pub fn from_canonical(pairs: Vec<(Range<T>, V)>) -> Self
        requires { IsMap T.numbers V.eq pairs.items }
        ensures { result ≡ pairs_in_numbers T.numbers pairs.items }
    {
        RangeMap { pairs }
    }

    /// The empty map, with room for so many ranges. O(1) time.
    // For the crates that make maps: a caller would use `try_from_iter`.
    #[doc(hidden)]
    pub fn with_capacity(alloc: Global, ranges: usize) -> Result<Self, NoMemory>
        ensures { IfOk result (λ map. map ≡ []) }
    {
        let pairs = Vec::with_capacity(alloc, ranges)?;
        Ok(RangeMap { pairs })
    }

    /// The ranges with their values, ascending. O(1) time, no memory.
    // For the joins, which walk over maps by the places of their ranges.
    #[doc(hidden)]
    pub fn as_slice(&self) -> &[(Range<T>, V)]
        ensures list { pairs_in_numbers T.numbers result.now ≡ self.now }
        ensures canonical { IsCanonicalMap V.eq T.numbers.least T.numbers.greatest self.now }
    {
        self.pairs.as_slice()
    }

    /// Returns whether no key has a value. O(1) time, no memory.
    pub fn is_empty(&self) -> bool
        ensures { IsTrue result ↔ (self.now ≡ []) }
    {
        self.pairs.is_empty()
    }

    /// Returns the number of ranges. O(1) time, no memory.
    pub fn num_ranges(&self) -> usize
        ensures { result ≡ length self.now }
    {
        self.pairs.len()
    }

    /// Returns the ranges with their values, ascending, from both ends. O(1) time, no memory.
    pub fn ranges_values(&self) -> Iter<'_, (Range<T>, V)>
        ensures list { pairs_in_numbers T.numbers (iter_rest result) ≡ self.now }
        ensures canonical { IsCanonicalMap V.eq T.numbers.least T.numbers.greatest self.now }
        ensures bound { length (iter_rest result) < 2 ^ 64 }
    {
        self.pairs.iter()
    }

    /// Returns the value at the key `x`, or `None` where it has none. O(log n) time for n ranges,
    /// no memory.
    pub fn get(&self, x: T) -> Option<&V>
        ensures { option_copied result ≡ value_at self.now (T.numbers.number x) }
    {
        let found = self.pairs.binary_search_by(|pair| pair.0.cmp_element(x));
        match found {
            Ok(at) => Some(&self.pairs[at].1),
            Err(_) => None,
        }
    }

    /// Returns the ranges with their values, ascending. O(1) time, no memory.
    pub fn into_vec(self) -> Vec<(Range<T>, V)>
        ensures list { pairs_in_numbers T.numbers result.items ≡ self }
        ensures canonical { IsCanonicalMap V.eq T.numbers.least T.numbers.greatest self }
    {
        self.pairs
    }
}
