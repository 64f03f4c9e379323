//! Equality, order and hash of sets, which are those of their lists of items, and how a set is
//! shown.
ghost use Rattle.std.specs.Hash as fed;
ghost use Rattle.std.specs.Cmp.Lexicographic.{pointwise, slice_cmp, slice_partial_cmp, lists_equiv, lists_agrees, lists_total, lists_ties, lists_per, lists_po};
ghost use Rattle.std.specs.Cmp.{on_equiv, on_total, on_per, on_po};
ghost use Rattle.std.specs.Hash.{on_Alike, items_Alike};

use crate::set::SortedVectorSet;
use std::cmp::Ordering;
use std::fmt;
use std::hash::{Hash, Hasher};

impl<T: Ord> PartialEq for SortedVectorSet<T> {
    ghost eq = { λ s t. pointwise T.eq s.items t.items };

    ghost laws = { on_per (λ s. s.items) (lists_per T.PartialEq.laws) };

    fn eq(&self, other: &Self) -> bool {
        self.items == other.items
    }
}

impl<T: Ord> Eq for SortedVectorSet<T> {
    ghost laws = { on_equiv (λ s. s.items) (lists_equiv T.Eq.laws) };
}

impl<T: Ord> PartialOrd for SortedVectorSet<T> {
    ghost partial_cmp = { λ s t. slice_partial_cmp T.partial_cmp s.items t.items };

    ghost laws = { on_po (λ s. s.items) (lists_po T.PartialOrd.laws) };

    fn partial_cmp(&self, other: &Self) -> Option<Ordering> {
        self.items.partial_cmp(&other.items)
    }
}

impl<T: Ord> Ord for SortedVectorSet<T> {
    ghost cmp = { λ s t. slice_cmp T.cmp s.items t.items };

    ghost total = { on_total (λ s. s.items) (lists_total T.total) };

    ghost matches_partial_cmp = { λ s t. lists_agrees T.matches_partial_cmp s.items t.items };

    ghost matches_eq = { λ s t. lists_ties T.cmp T.matches_eq s.items t.items };

    fn cmp(&self, other: &Self) -> Ordering {
        self.items.cmp(&other.items)
    }
}

impl<T: Ord + Hash> Hash for SortedVectorSet<T> {
    ghost hash_input = { λ s. fed.slice T.hash_input s.items };

    ghost respects_eq = { (on_Alike (λ s. s.items)
        (items_Alike (record { fed = T.respects_eq }))).fed };

    fn hash<H: Hasher>(&self, state: &mut H) {
        self.items.hash(state);
    }
}

impl<T: Ord + fmt::Debug> fmt::Debug for SortedVectorSet<T> {
    fn fmt<W: fmt::Write>(&self, f: &mut fmt::Formatter<W>) -> fmt::Result {
        f.debug_set().entries(self.items.iter()).finish()
    }
}
