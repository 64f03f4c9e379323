//! Sets and maps in a loop, by reference.
ghost use Rattle.std.specs.Prelude.{◌≡◌, ◌<◌, ◌^◌, length};
ghost use Rattle.std.specs.Slice.Iter.{iter_rest};
ghost use Rattle.number_line.specs.Ranges.{IsCanonical};
ghost use Rattle.number_line.specs.Valued.{IsCanonicalMap};
ghost use Rattle.range_map.specs.Valued.{pairs_in_numbers};

use crate::map::RangeMap;
use crate::range::Range;
use crate::set::{RangeIter, RangeSet};
use element_core::Element;
use std::slice::Iter;

/// The ranges, ascending.
impl<'a, T: Element> IntoIterator for &'a RangeSet<T> {
    type Item = Range<T>;

    type IntoIter = RangeIter<'a, T>;

    ghost into_iter_gives = { λ set ranges. (ranges ≡ set.now)
        × IsCanonical T.numbers.least T.numbers.greatest set.now };

    fn into_iter(self) -> RangeIter<'a, T> {
        self.ranges()
    }
}

/// The ranges with their values, ascending.
impl<'a, T: Element, V: Eq> IntoIterator for &'a RangeMap<T, V> {
    type Item = &'a (Range<T>, V);

    type IntoIter = Iter<'a, (Range<T>, V)>;

    ghost into_iter_gives = { λ map pairs. (pairs_in_numbers T.numbers (iter_rest pairs) ≡ map.now)
        × (length (iter_rest pairs) < 2 ^ 64)
        × IsCanonicalMap V.eq T.numbers.least T.numbers.greatest map.now };

    fn into_iter(self) -> Iter<'a, (Range<T>, V)> {
        self.ranges_values()
    }
}
