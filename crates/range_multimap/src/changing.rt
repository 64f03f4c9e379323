//! Multimaps whose values are changed, or of which some pairs are kept, in place, and what of them
//! lies in a set.
ghost use Rattle.std.specs.Prelude.{IfOk};
ghost use Rattle.std.specs.Fn.{CalledAt};
ghost use Rattle.std.specs.List.Retain.{IsFiltered};
ghost use Rattle.number_line.specs.Answered.{IsAnswered};
ghost use Rattle.number_line.specs.Parts.{parts_of_pairs, ArePairClones};
ghost use Rattle.range_map.specs.Changing.{CalledAtValue};

use crate::multimap::RangeMultiMap;
use element_core::{Element, NoMemory};
use range_map::RangeSet;
use range_map::pairs::{answer_each, parts_in_set, retain_by_value};
use std::alloc::Global;

impl<T: Element, V: Eq> RangeMultiMap<T, V> {
    /// Calls `f` once for each pair, in order, with its value, and writes the answer in the value's
    /// place. O(n) time for n pairs, beside the calls, no memory.
    pub fn map_values<F: FnMut(&V) -> V>(&mut self, mut f: F)
    where
        V: Drop,
        requires { F.IsAlwaysCallable f }
        ensures { IsAnswered (CalledAt F.FnMut) f self.old self.new }
    {
        answer_each(&mut f, &mut self.pairs);
    }

    /// Calls `f` once for each pair, in order, with its value, and keeps the pairs at which it
    /// answers true. O(n) time for n pairs, beside the calls, no memory.
    pub fn retain_values<F: FnMut(&V) -> bool>(&mut self, f: F)
    where
        V: Drop,
        requires { F.IsAlwaysCallable f }
        ensures { IsFiltered (CalledAtValue F.FnMut) f self.old self.new }
    {
        retain_by_value(&mut self.pairs, f);
    }

    /// Returns the parts of each pair in the set, pair by pair in their order and each pair's parts
    /// ascending, with clones of the pair's value. O(n log m) time for n pairs and m ranges of the
    /// set, and O(n + m) where the pairs ascend and few of the set's ranges lie between one and the
    /// next; beside the clones, one for each pair of the answer.
    pub fn intersection(&self, alloc: Global, set: &RangeSet<T>) -> Result<Self, NoMemory>
    where
        V: Clone + Drop,
        ensures { IfOk result (ArePairClones V.is_clone (parts_of_pairs self.now set.now)) }
    {
        let pairs = parts_in_set(alloc, self.pairs.as_slice(), set)?;
        Ok(RangeMultiMap { pairs })
    }
}
