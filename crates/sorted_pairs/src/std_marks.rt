//! The mark of std's iterators of pairs.
ghost use Rattle.std.specs.Prelude.{⊤};
ghost use Rattle.std.specs.Iterator.Adapters.{once_steps};
ghost use Rattle.std.specs.List.Sorted.{IsStrictlySortedBy};
ghost use Rattle.std.specs.Map.Iter.{deref_pair};
ghost use Rattle.ordered_lists.specs.Joins.{keys};
ghost use Rattle.ordered_lists.specs.Lists.{by_key};
ghost use Rattle.sorted_iter.specs.AdapterLaws.{one-in_order};
ghost use Rattle.sorted_iter.specs.StdLaws.{once-one};
ghost use Rattle.sorted_pairs.specs.MarkLaws.{shown-in_order, shown-goes_on};

use crate::marks::SortedByKey;
use std::collections::btree_map;
use std::iter::Once;

impl<'a, K: Ord, V> SortedByKey<&'a K, &'a V> for btree_map::Iter<'a, K, V> {
    ghost in_order = { λ s. IsStrictlySortedBy K.cmp (keys s) };

    fn mark(&self) {}

    ghost sorted = { λ s h. shown-in_order deref_pair K.cmp s h };

    ghost goes_on = { λ s t r h e. shown-goes_on deref_pair K.cmp s t r h e };
}

impl<'a, K: Ord, V> SortedByKey<&'a K, &'a V> for btree_map::Range<'a, K, V> {
    ghost in_order = { λ s. IsStrictlySortedBy K.cmp (keys s) };

    fn mark(&self) {}

    ghost sorted = { λ s h. shown-in_order deref_pair K.cmp s h };

    ghost goes_on = { λ s t r h e. shown-goes_on deref_pair K.cmp s t r h e };
}

impl<K: Ord + Drop, V: Drop> SortedByKey<K, V> for btree_map::IntoIter<K, V> {
    ghost in_order = { λ s. IsStrictlySortedBy K.cmp (keys s) };

    fn mark(&self) {}

    ghost sorted = { λ s h. shown-in_order (λ p. p) K.cmp s h };

    ghost goes_on = { λ s t r h e. shown-goes_on (λ p. p) K.cmp s t r h e };
}

// One type of std serves as `Once`, as `Empty` and as the iterator of an `Option`.
impl<K: Ord + Drop, V: Drop> SortedByKey<K, V> for Once<(K, V)> {
    ghost in_order = { λ _. ⊤ };

    fn mark(&self) {}

    ghost sorted = { λ s h. one-in_order (by_key K.cmp) once_steps s (once-one s) };

    ghost goes_on = { λ s t r h e. h };
}
