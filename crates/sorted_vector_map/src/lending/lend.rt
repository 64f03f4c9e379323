//! A map lends its values, and shares its keys.
ghost use types.Logic.{sem};
ghost use Rattle.std.specs.Prelude.{◌≡◌, map};
ghost use Rattle.std.specs.List.Sorted.{IsStrictlySortedBy};
ghost use Rattle.ordered_lists.specs.Lists.{by_key};
ghost use Rattle.sorted_vector_map.specs.Slots.{pair_of, cell_of};
ghost use Rattle.sorted_vector_map.specs.Refilled.{lends_values};

use super::{Lent, Slot};
use crate::map::SortedVectorMap;
use std::marker::PhantomData;

impl<K: Ord, V> SortedVectorMap<K, V> {
    // The vector seen as slots, and the loan of each of its values.
    pub(crate) fn lend<'a>(&'a mut self) -> (&'a Vec<Slot<K, V>>, Lent<'a, V>)
        ensures* writes_back { sem 𝓛 (lends_values K.row V.row K.Ord self.entry result.1.tie) }
        ensures pairs { map pair_of result.0.now.items ≡ self.old.pairs }
        ensures cells { result.1.cells ≡ map cell_of result.0.now.items }
        ensures ascending { IsStrictlySortedBy (by_key K.cmp) self.old.pairs }
    {
        let items = &raw mut self.items as *const Vec<Slot<K, V>>;
        (unsafe { &*items }, Lent { mark: PhantomData })
    }
}
