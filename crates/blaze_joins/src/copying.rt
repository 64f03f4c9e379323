//! Maps with the same keys as another one, and maps in which every key has one value.
ghost use Rattle.std.specs.Prelude.{◌≡◌, ℤ, ◌∷◌, [], IfOk, is_some, true};
ghost use Rattle.number_line.specs.Pieces.{IsJoined};
ghost use Rattle.number_line.specs.Valued.{value_at, IsCanonicalMap, same_list};
ghost use Rattle.ordered_lists.specs.Taken.{ClonesAreEqual};
ghost use Rattle.number_line.specs.Parts.{ArePairClones};
ghost use Rattle.blaze_joins.specs.Joins.{CalledAtValue};

use crate::map::RangeMapBlaze;
use element_core::{Element, NoMemory};
use range_map::pairs::clones_of_pairs;
use range_map::{MapBuilder, Range, RangeMap};
use std::alloc::Global;

impl<T: Element, V: Eq> RangeMapBlaze<T, V> {
    /// Returns the map in which every key has `value`. O(1) time.
    pub fn universe_with(alloc: Global, value: V) -> Result<Self, NoMemory>
    where
        V: Drop,
        ensures { IfOk result (λ map. map ≡ ((T.numbers.least, T.numbers.greatest), value) ∷ []) }
    {
        let mut map = RangeMap::new(alloc);
        map.push(Range::full(), value)?;
        Ok(RangeMapBlaze { map })
    }

    /// Returns the map of what `f` answers, called once for each range, in order, with its value.
    /// The keys are the same. Of touching ranges with equal answers, which become one, the first
    /// answer stays. After `NoMemory` the function was not called. O(n) time for n ranges, beside
    /// the calls.
    pub fn transform_values<X: Eq + Drop, F: FnMut(&V) -> X + Drop>(
        &self,
        alloc: Global,
        mut f: F,
    ) -> Result<RangeMapBlaze<T, X>, NoMemory>
        requires { F.IsAlwaysCallable f }
        ensures canonical { IfOk result (IsCanonicalMap X.eq T.numbers.least T.numbers.greatest) }
        ensures joined { IfOk result (IsJoined (CalledAtValue F.FnMut) X.eq f self.now) }
        ensures keys { IfOk result
            (λ map. (x : ℤ) → is_some (value_at map x) ≡ is_some (value_at self.now x)) }
    {
        let pairs = self.map.as_slice();
        let mut made = MapBuilder::with_room(alloc, pairs.len())?;
        for pair in pairs {
            let answer = f(&pair.1);
            made.push(pair.0, answer);
        }
        Ok(RangeMapBlaze {
            map: made.into_map(),
        })
    }

    /// Returns a map equal to this one, with clones of its values. O(n) time for n ranges, beside
    /// the clones.
    pub fn try_clone(&self, alloc: Global) -> Result<Self, NoMemory>
    where
        V: Clone + Drop,
        requires { ClonesAreEqual V.is_clone V.eq }
        ensures canonical { IfOk result (IsCanonicalMap V.eq T.numbers.least T.numbers.greatest) }
        ensures clones { IfOk result (ArePairClones V.is_clone self.now) }
        ensures equal { IfOk result (λ copy. same_list V.eq copy self.now ≡ true) }
    {
        let pairs = clones_of_pairs(alloc, self.map.as_slice())?;
        Ok(RangeMapBlaze {
            map: RangeMap::from_canonical(pairs),
        })
    }
}
