//! Inclusive ranges, each by its first and its last value.
ghost use Rattle.std.specs.Prelude.{◌≡◌, ℤ, ◌≤ℤ◌, ◌&&◌, IfSome, IfNone, true, false};
ghost use Rattle.std.specs.Bool.{OnTrue, OnFalse};
ghost use Rattle.std.specs.Int.{int_min, int_max};
ghost use Rattle.number_line.specs.Ranges.{lies_in};
ghost use Rattle.number_line.specs.Kept.{overlaps, touches};
ghost use Rattle.range_map.specs.Range.{IsRange, in_numbers, place_beside};

use element_core::{Element, is_below};
use std::alloc::AllocError;
use std::cmp::Ordering;
use std::marker::Model;

/// The values from a start to an end, both included. The start is never greater than the end.
///
/// Ranges are ordered by their starts, and those with equal starts by their ends. Every call O(1)
/// time, no memory.
#[derive(Copy, PartialEq, Eq, PartialOrd, Ord, Hash, Debug)]
pub struct Range<T: Element> {
    start: T,
    end: T,
}

impl<T: Element> Model for Range<T> {
    ghost Value = { T × T };

    ghost view = { λ range. (range.start, range.end) };

    ghost inverse = { λ ends. record { start = ends.0; end = ends.1 } };

    ghost invariant = { λ range. IsRange T.numbers (range.start, range.end) };
}

impl<T: Element> Clone for Range<T> {
    ghost is_clone = { λ x y. y ≡ x };

    fn clone(&self) -> Result<Range<T>, AllocError> {
        Ok(*self)
    }
}

impl<T: Element> Range<T> {
    /// Returns the range from `start` to `end`. Generic code tells that they are in order by
    /// `is_at_most` of `element_core`.
    pub fn new(start: T, end: T) -> Self
        requires { T.numbers.number start ≤ℤ T.numbers.number end }
        ensures value { result ≡ (start, end) }
        ensures range { IsRange T.numbers result }
    {
        start.in_type();
        end.in_type();
        Range { start, end }
    }

    /// Returns the range of all values of the type.
    pub fn full() -> Self
        ensures start { T.numbers.number result.0 ≡ T.numbers.least }
        ensures end { T.numbers.number result.1 ≡ T.numbers.greatest }
        ensures range { IsRange T.numbers result }
    {
        Range::new(T::min_value(), T::max_value())
    }

    /// Returns the range of `x` alone.
    pub fn single(x: T) -> Self
        ensures value { result ≡ (x, x) }
        ensures range { IsRange T.numbers result }
    {
        Range::new(x, x)
    }

    /// Returns the first value.
    pub fn start(&self) -> T
        ensures value { result ≡ self.now.0 }
        ensures range { IsRange T.numbers self.now }
        ensures low { T.numbers.least ≤ℤ T.numbers.number self.now.0 }
    {
        self.start.in_type();
        self.start
    }

    /// Returns the last value.
    pub fn end(&self) -> T
        ensures value { result ≡ self.now.1 }
        ensures range { IsRange T.numbers self.now }
        ensures high { T.numbers.number self.now.1 ≤ℤ T.numbers.greatest }
    {
        self.end.in_type();
        self.end
    }

    /// Returns whether `x` lies between the two ends, both included.
    pub fn contains(&self, x: T) -> bool
        ensures { result ≡ lies_in (in_numbers T.numbers self.now) (T.numbers.number x) }
    {
        !is_below(x, self.start) && !is_below(self.end, x)
    }

    /// Returns whether some value lies in both ranges.
    pub fn intersects(&self, other: &Self) -> bool
        ensures shared { OnTrue result ((x : ℤ) × ((lies_in (in_numbers T.numbers self.now) x
            && lies_in (in_numbers T.numbers other.now) x) ≡ true)) }
        ensures apart { OnFalse result ((x : ℤ) → (lies_in (in_numbers T.numbers self.now) x
            && lies_in (in_numbers T.numbers other.now) x) ≡ false) }
        ensures ends { result ≡ overlaps (in_numbers T.numbers self.now)
            (in_numbers T.numbers other.now) }
    {
        !is_below(other.end, self.start) && !is_below(self.end, other.start)
    }

    // Returns whether `next` begins with the value behind this range.
    pub(crate) fn touches(&self, next: &Self) -> bool
        ensures { result ≡ touches (in_numbers T.numbers self.now) (in_numbers T.numbers next.now) }
    {
        let start = next.start();
        start.in_type();
        match self.end().successor() {
            Some(after) => !is_below(after, start) && !is_below(start, after),
            None => false,
        }
    }

    /// Returns the range of the values that lie in both, or `None` where no value does.
    pub fn intersection(&self, other: &Self) -> Option<Self>
        ensures start { IfSome result (λ both. T.numbers.number both.0
            ≡ int_max (T.numbers.number self.now.0) (T.numbers.number other.now.0)) }
        ensures end { IfSome result (λ both. T.numbers.number both.1
            ≡ int_min (T.numbers.number self.now.1) (T.numbers.number other.now.1)) }
        ensures range { IfSome result (IsRange T.numbers) }
        ensures none { IfNone result ((x : ℤ) → (lies_in (in_numbers T.numbers self.now) x
            && lies_in (in_numbers T.numbers other.now) x) ≡ false) }
    {
        let start = if is_below(self.start, other.start) {
            other.start
        } else {
            self.start
        };
        let end = if is_below(self.end, other.end) {
            self.end
        } else {
            other.end
        };
        if is_below(end, start) {
            None
        } else {
            Some(Range { start, end })
        }
    }

    /// Returns the smallest range that covers both.
    pub fn cover(&self, other: &Self) -> Self
        ensures start { T.numbers.number result.0
            ≡ int_min (T.numbers.number self.now.0) (T.numbers.number other.now.0) }
        ensures end { T.numbers.number result.1
            ≡ int_max (T.numbers.number self.now.1) (T.numbers.number other.now.1) }
        ensures range { IsRange T.numbers result }
    {
        let start = if is_below(other.start, self.start) {
            other.start
        } else {
            self.start
        };
        let end = if is_below(self.end, other.end) {
            other.end
        } else {
            self.end
        };
        Range { start, end }
    }

    /// Where the range lies beside `x`: `Less` where its end is below `x`, `Greater` where its
    /// start is above it, and `Equal` where it contains `x`.
    pub fn cmp_element(&self, x: T) -> Ordering
        ensures { result ≡ place_beside (T.numbers.number x) (in_numbers T.numbers self.now) }
    {
        if is_below(self.end, x) {
            Ordering::Less
        } else if is_below(x, self.start) {
            Ordering::Greater
        } else {
            Ordering::Equal
        }
    }
}
