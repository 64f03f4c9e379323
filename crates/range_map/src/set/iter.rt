//! The ranges of a set, one after another.
ghost use Rattle.std.specs.Prelude.{◌≡◌, ⊤, length, Some, IfSome};
ghost use Rattle.std.specs.Iterator.{YieldsFirstBy, item_count, at_most, UpTo};
ghost use Rattle.std.specs.Iterator.SizeHint.{IsWithinCount};
ghost use Rattle.range_map.specs.Range.{in_numbers};

use crate::range::Range;
use element_core::Element;
use std::alloc::AllocError;
use std::marker::Model;

/// The ranges of a set, ascending, seen as the list of those still to come, each by the numbers of
/// its two ends.
///
/// Each call O(1) time, no memory.
#[derive(Debug, Drop)]
pub struct RangeIter<'a, T: Element> {
    pub(crate) ranges: &'a [Range<T>],
}

impl<'a, T: Element> Model for RangeIter<'a, T> {
    ghost use Rattle.std.specs.Prelude.{ℤ, List};
    ghost use Rattle.range_map.specs.Set.{all_in_numbers};

    ghost Value = { List (ℤ × ℤ) };

    ghost view = { λ iter. all_in_numbers T.numbers iter.ranges.now };
}

impl<'a, T: Element> Clone for RangeIter<'a, T> {
    ghost is_clone = { λ iter copy. copy ≡ iter };

    ghost is_infallible = { λ _. ⊤ };

    fn clone(&self) -> Result<Self, AllocError> {
        Ok(RangeIter {
            ranges: self.ranges,
        })
    }
}

impl<'a, T: Element> Iterator for RangeIter<'a, T> {
    type Item = Range<T>;

    ghost next_gives = { YieldsFirstBy (in_numbers T.numbers) (λ left. left) };

    ghost remaining = { item_count (λ left. left) };

    fn next(&mut self) -> Option<Range<T>> {
        let (first, others) = self.ranges.split_first()?;
        self.ranges = others;
        Some(*first)
    }

    fn size_hint(&self) -> (usize, Option<usize>)
        ensures lower { IsWithinCount result.0 (at_most (length self.now)) }
        ensures upper { IfSome result.1 (UpTo (at_most (length self.now))) }
        ensures exact { result ≡ (length self.now, Some (length self.now)) }
    {
        (self.ranges.len(), Some(self.ranges.len()))
    }
}

impl<'a, T: Element> ExactSizeIterator for RangeIter<'a, T> {
    fn len(&self) -> usize {
        self.ranges.len()
    }
}
