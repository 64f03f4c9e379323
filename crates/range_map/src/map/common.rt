//! What of a map lies in a set.
ghost use Rattle.std.specs.Prelude.{ℤ, IfOk};
ghost use Rattle.number_line.specs.Parts.{parts_of_pairs, value_within, ArePairClones};
ghost use Rattle.number_line.specs.Valued.{IsCanonicalMap, HasValues};
ghost use Rattle.ordered_lists.specs.Taken.{ClonesAreEqual};

use crate::map::RangeMap;
use crate::pairs::parts_in_set;
use crate::set::RangeSet;
use element_core::{Element, NoMemory};
use std::alloc::Global;

impl<T: Element, V: Eq> RangeMap<T, V> {
    /// Returns the map of the keys that are members of `set`, with clones of their values: the
    /// parts of each range in the set, ascending. O(n log m) time for n ranges and m ranges of the
    /// set, and O(n + m) where few of the set's lie between one range and the next; beside the
    /// clones, one for each range of the answer.
    pub fn intersection(&self, alloc: Global, set: &RangeSet<T>) -> Result<Self, NoMemory>
    where
        V: Clone + Drop,
        requires { ClonesAreEqual V.is_clone V.eq }
        ensures canonical { IfOk result (IsCanonicalMap V.eq T.numbers.least T.numbers.greatest) }
        ensures values { IfOk result (HasValues V.eq (value_within self.now set.now)
            T.numbers.least T.numbers.greatest) }
        ensures parts { IfOk result
            (ArePairClones V.is_clone (parts_of_pairs self.now set.now)) }
    {
        // This tells that the set is canonical.
        set.ranges();
        let pairs = parts_in_set(alloc, self.pairs.as_slice(), set)?;
        Ok(RangeMap { pairs })
    }
}
