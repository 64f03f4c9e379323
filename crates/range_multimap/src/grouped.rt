//! The values of the ranges that hold a key.
ghost use Rattle.std.specs.Prelude.{◌≡◌, IfOk, true};
ghost use Rattle.std.specs.Cmp.Lexicographic.{pointwise};
ghost use Rattle.std.specs.List.{AllZip};
ghost use Rattle.ordered_lists.specs.Taken.{ClonesAreEqual};

use element_core::NoMemory;
use std::alloc::Global;
use std::hash::{Hash, Hasher};
use std::marker::Model;

/// The values of the ranges that hold a key, in the order in which these came and as often as they
/// hold it.
///
/// Contracts see a group as the list of its values. `RangeMultiMap::group` never makes an empty
/// one.
#[derive(Debug, Drop)]
pub struct Group<V: Eq> {
    pub(crate) values: Vec<V>,
}

impl<V: Eq> Model for Group<V> {
    ghost use Rattle.std.specs.Prelude.{List};

    ghost Value = { List V };

    ghost view = { λ group. group.values.items };
}

impl<V: Eq> Group<V> {
    /// Returns the values. O(1) time, no memory.
    pub fn as_slice(&self) -> &[V]
        ensures { result.now ≡ self.now }
    {
        self.values.as_slice()
    }

    /// Returns the values. O(1) time, no memory.
    pub fn into_vec(self) -> Vec<V>
        ensures { result.items ≡ self }
    {
        self.values
    }

    /// Returns a group equal to this one, with clones of its values. O(n) time for n values, beside
    /// the clones.
    pub fn try_clone(&self, alloc: Global) -> Result<Self, NoMemory>
    where
        V: Clone + Drop,
        requires { ClonesAreEqual V.is_clone V.eq }
        ensures clones { IfOk result (AllZip V.is_clone self.now) }
        ensures equal { IfOk result (λ copy. pointwise V.eq copy self.now ≡ true) }
    {
        let mut values = Vec::with_capacity(alloc, self.values.len())?;
        values.extend_with_clones(self.values.as_slice())?;
        Ok(Group { values })
    }
}

impl<V: Eq> PartialEq for Group<V> {
    ghost use Rattle.std.specs.Cmp.Lexicographic.{pointwise, lists_per};

    ghost eq = { pointwise V.eq };

    ghost laws = { lists_per V.PartialEq.laws };

    fn eq(&self, other: &Group<V>) -> bool {
        self.values == other.values
    }
}

impl<V: Eq> Eq for Group<V> {
    ghost use Rattle.std.specs.Cmp.Lexicographic.{lists_equiv};

    ghost laws = { lists_equiv V.Eq.laws };
}

impl<V: Eq + Hash> Hash for Group<V> {
    ghost use Rattle.std.specs.Hash as fed;
    ghost use Rattle.std.specs.Hash.{items_Alike};

    ghost hash_input = { fed.slice V.hash_input };

    ghost respects_eq = { (items_Alike (record { fed = V.respects_eq })).fed };

    fn hash<H: Hasher>(&self, state: &mut H) {
        self.values.hash(state);
    }
}
