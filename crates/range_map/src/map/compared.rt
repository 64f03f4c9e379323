//! Equality and hash of maps, which are those of their lists of ranges with values.

use crate::map::RangeMap;
use element_core::Element;
use std::hash::{Hash, Hasher};

impl<T: Element, V: Eq> PartialEq for RangeMap<T, V> {
    ghost use Rattle.std.specs.Cmp.{partial_equiv_from_equiv};
    ghost use Rattle.number_line.specs.Valued.{same_list};
    ghost use Rattle.range_map.specs.MapLaws.{same_list_equivalence};

    ghost eq = { same_list V.eq };

    ghost laws = { partial_equiv_from_equiv (same_list_equivalence V.Eq.laws) };

    fn eq(&self, other: &RangeMap<T, V>) -> bool {
        self.pairs == other.pairs
    }
}

impl<T: Element, V: Eq> Eq for RangeMap<T, V> {
    ghost use Rattle.range_map.specs.MapLaws.{same_list_equivalence};

    ghost laws = { same_list_equivalence V.Eq.laws };
}

impl<T: Element + Hash, V: Eq + Hash> Hash for RangeMap<T, V> {
    ghost use Rattle.range_map.specs.MapLaws.{pairs_fed, same_list_fed};

    ghost hash_input = { pairs_fed T.numbers T.hash_input V.hash_input };

    ghost respects_eq = { same_list_fed T.numbers T.hash_input V.eq V.hash_input V.respects_eq };

    fn hash<H: Hasher>(&self, state: &mut H) {
        self.pairs.hash(state);
    }
}
