//! How many keys a map has, whether it has all, and their set.
ghost use Rattle.std.specs.Prelude.{◌≡◌, ℤ, min, length, IsTrue, IfOk, is_some, true, ◌↔◌};
ghost use Rattle.number_line.specs.Members.{members};
ghost use Rattle.number_line.specs.Ranges.{holds, IsCanonical};
ghost use Rattle.number_line.specs.Valued.{value_at};
ghost use Rattle.range_map.specs.Bounds.{ranges_of};
ghost use Rattle.range_map.specs.Range.{EachNumber};

use crate::map::RangeMap;
use crate::set::{RangeSet, size_of};
use element_core::{Element, NoMemory, is_below};
use std::alloc::Global;

impl<T: Element, V: Eq> RangeMap<T, V> {
    /// Returns whether every value of the type is a key. O(n) time for n ranges, no memory.
    pub fn is_full(&self) -> bool
        ensures { IsTrue result
            ↔ EachNumber T.numbers (λ x. is_some (value_at self.now x) ≡ true) }
    {
        let mut start = T::min_value();
        // This tells that there is a value at all.
        start.in_type();
        for pair in &self.pairs {
            if is_below(start, pair.0.start()) {
                return false;
            }
            match pair.0.end().successor() {
                Some(next) => {
                    next.in_type();
                    start = next;
                }
                None => return true,
            }
        }
        false
    }

    /// Returns the number of keys, or `usize::MAX` where there are more. O(n) time for n ranges, no
    /// memory.
    pub fn num_keys(&self) -> usize
        ensures { result ≡ min (length (members (ranges_of self.now))) usize.MAX }
    {
        let mut count: usize = 0;
        for pair in &self.pairs {
            count = count.saturating_add(size_of(&pair.0));
        }
        count
    }

    /// Returns the set of the keys. O(n) time for n ranges.
    pub fn to_range_set(&self, alloc: Global) -> Result<RangeSet<T>, NoMemory>
        ensures canonical { IfOk result (IsCanonical T.numbers.least T.numbers.greatest) }
        ensures members { IfOk result (λ set. (x : ℤ)
            → holds set x ≡ is_some (value_at self.now x)) }
    {
        let mut set = RangeSet::with_capacity(alloc, self.pairs.len())?;
        for pair in &self.pairs {
            set.push_joined(pair.0)?;
        }
        Ok(set)
    }
}
