//! How many values a set has, and whether it has all.
ghost use Rattle.std.specs.Prelude.{◌≡◌, min, length, IsTrue, true, ◌↔◌};
ghost use Rattle.number_line.specs.Members.{size, members};
ghost use Rattle.number_line.specs.Ranges.{holds};
ghost use Rattle.range_map.specs.Range.{in_numbers, EachNumber};

use crate::range::Range;
use crate::set::RangeSet;
use element_core::{Element, is_below};

// Returns the number of values in the range, or `usize::MAX` where there are more.
pub(crate) fn size_of<T: Element>(range: &Range<T>) -> usize
    ensures { result ≡ min (size (in_numbers T.numbers range.now)) usize.MAX }
{
    range.start().steps_to(range.end()).saturating_add(1)
}

impl<T: Element> RangeSet<T> {
    /// Returns whether every value of the type is a member. O(1) time, no memory.
    pub fn is_full(&self) -> bool
        ensures { IsTrue result ↔ EachNumber T.numbers (λ x. holds self.now x ≡ true) }
    {
        let least = T::min_value();
        // This tells that there is a value at all.
        least.in_type();
        match self.ranges.split_first() {
            Some((range, _)) => {
                !is_below(least, range.start()) && !is_below(range.end(), T::max_value())
            }
            None => false,
        }
    }

    /// Returns the number of members, or `usize::MAX` where there are more. O(n) time for n ranges,
    /// no memory.
    pub fn num_elements(&self) -> usize
        ensures { result ≡ min (length (members self.now)) usize.MAX }
    {
        let mut count: usize = 0;
        for range in &self.ranges {
            count = count.saturating_add(size_of(range));
        }
        count
    }
}
