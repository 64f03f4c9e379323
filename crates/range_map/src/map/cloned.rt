//! Copies of maps.
ghost use Rattle.std.specs.Prelude.{◌≡◌, IfOk, true};
ghost use Rattle.number_line.specs.Parts.{ArePairClones};
ghost use Rattle.number_line.specs.Valued.{same_list, IsCanonicalMap};
ghost use Rattle.ordered_lists.specs.Taken.{ClonesAreEqual};

use crate::map::RangeMap;
use crate::pairs::clones_of_pairs;
use element_core::{Element, NoMemory};
use std::alloc::Global;

impl<T: Element, V: Eq> RangeMap<T, V> {
    /// Returns a map equal to this one, with clones of its values. O(n) time for n ranges, beside
    /// the clones.
    pub fn try_clone(&self, alloc: Global) -> Result<Self, NoMemory>
    where
        V: Clone + Drop,
        requires { ClonesAreEqual V.is_clone V.eq }
        ensures canonical { IfOk result (IsCanonicalMap V.eq T.numbers.least T.numbers.greatest) }
        ensures clones { IfOk result (ArePairClones V.is_clone self.now) }
        ensures equal { IfOk result (λ copy. same_list V.eq copy self.now ≡ true) }
    {
        let pairs = clones_of_pairs(alloc, self.pairs.as_slice())?;
        Ok(RangeMap { pairs })
    }
}
