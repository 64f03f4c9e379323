//! Equality, order and hash of maps, which are those of their lists of pairs, and how a map is
//! shown.
ghost use Rattle.std.specs.Prelude.{◌&&◌, ◌++◌};
ghost use Rattle.std.specs.Hash as fed;
ghost use Rattle.std.specs.Hash.{on_Alike, and-Alike, items_Alike};
ghost use Rattle.std.specs.Cmp.{on_equiv, and_equiv, then_agrees, on_total, then_total, both_tied, on_per, and_per, on_po, then_po};
ghost use Rattle.std.specs.Cmp.Lexicographic.{pointwise, slice_cmp, slice_partial_cmp, lists_equiv, lists_agrees, lists_total, lists_ties, lists_per, lists_po};
ghost use Rattle.std.specs.Ordering.{ordering_then, partial_ordering_then};

use crate::map::SortedVectorMap;
use std::cmp::Ordering;
use std::fmt;
use std::hash::{Hash, Hasher};

impl<K: Ord, V: PartialEq> PartialEq for SortedVectorMap<K, V> {
    ghost eq = { λ m n. pointwise (λ p q. K.eq p.0 q.0 && V.eq p.1 q.1) m.pairs n.pairs };

    ghost laws = { on_per (λ m. m.pairs) (lists_per
        (and_per (on_per (λ p. p.0) K.PartialEq.laws) (on_per (λ p. p.1) V.laws))) };

    fn eq(&self, other: &Self) -> bool {
        self.items == other.items
    }
}

impl<K: Ord, V: Eq> Eq for SortedVectorMap<K, V> {
    ghost laws = { on_equiv (λ m. m.pairs) (lists_equiv
        (and_equiv (on_equiv (λ p. p.0) K.Eq.laws) (on_equiv (λ p. p.1) V.Eq.laws))) };
}

impl<K: Ord, V: PartialOrd> PartialOrd for SortedVectorMap<K, V> {
    ghost partial_cmp = { λ m n. slice_partial_cmp
        (λ p q. partial_ordering_then (K.partial_cmp p.0 q.0) (V.partial_cmp p.1 q.1)) m.pairs
        n.pairs };

    ghost laws = { on_po (λ m. m.pairs) (lists_po
        (then_po (on_po (λ p. p.0) K.PartialOrd.laws) (on_po (λ p. p.1) V.PartialOrd.laws))) };

    fn partial_cmp(&self, other: &Self) -> Option<Ordering> {
        self.items.partial_cmp(&other.items)
    }
}

impl<K: Ord, V: Ord> Ord for SortedVectorMap<K, V> {
    ghost cmp = { λ m n. slice_cmp (λ p q. ordering_then (K.cmp p.0 q.0) (V.cmp p.1 q.1)) m.pairs
        n.pairs };

    ghost total = { on_total (λ m. m.pairs) (lists_total
        (then_total (on_total (λ p. p.0) K.total) (on_total (λ p. p.1) V.total))) };

    ghost matches_partial_cmp = { λ m n. lists_agrees
        (then_agrees (λ p q. K.matches_partial_cmp p.0 q.0) (λ p q. V.matches_partial_cmp p.1 q.1))
        m.pairs n.pairs };

    ghost matches_eq = { λ m n. lists_ties (λ p q. ordering_then (K.cmp p.0 q.0) (V.cmp p.1 q.1))
        (λ p q. both_tied _ _ (K.cmp p.0 q.0) (V.cmp p.1 q.1) (K.matches_eq p.0 q.0)
        (V.matches_eq p.1 q.1)) m.pairs n.pairs };

    fn cmp(&self, other: &Self) -> Ordering {
        self.items.cmp(&other.items)
    }
}

impl<K: Ord + Hash, V: Hash> Hash for SortedVectorMap<K, V> {
    ghost hash_input = { λ m. fed.slice (λ p. K.hash_input p.0 ++ V.hash_input p.1) m.pairs };

    ghost respects_eq = { (on_Alike (λ m. m.pairs)
        (items_Alike (and-Alike (on_Alike (λ p. p.0) (record { fed = K.respects_eq }))
        (on_Alike (λ p. p.1) (record { fed = V.respects_eq }))))).fed };

    fn hash<H: Hasher>(&self, state: &mut H) {
        self.items.hash(state);
    }
}

impl<K: Ord + fmt::Debug, V: fmt::Debug> fmt::Debug for SortedVectorMap<K, V> {
    fn fmt<W: fmt::Write>(&self, f: &mut fmt::Formatter<W>) -> fmt::Result {
        f.debug_map().entries(self.iter()).finish()
    }
}
