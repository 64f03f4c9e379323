//! A pair whose value is lent for writing, while its key is shared.
ghost use Rattle.std.specs.Prelude.{◌≡◌, List, [], ◌∷◌, ◌++◌};
ghost use base.Fml.{ffalse};
ghost use denote.RawPtr.{Ptr};
ghost use Rattle.sorted_vector_map.specs.Slots.{LentPair, lent_pair_code, cell_of, sees_key};

use super::Lent;
use std::cell::UnsafeCell;
use std::marker::{Move, Owns};

// None is ever made. It is what a pair of the vector is seen as, while its value is lent.
pub struct Slot<K, V> {
    pair: UnsafeCell<(K, V)>,
}

impl<K, V> Owns for Slot<K, V> {
    ghost Value = { LentPair K V };

    ghost coded = { lent_pair_code K.code V.code };

    ghost shr_at = { λ s p κ. sees_key K.row V.row s p κ };
}

impl<K, V> Move for Slot<K, V> {
    ghost own_val = { λ _ _. ffalse };
}

impl<K, V> Slot<K, V> {
    // The key, and the value out of the loan, in which it is the first.
    pub(crate) fn take_first<'a>(&'a self, lent: &mut Lent<'a, V>) -> (&'a K, &'a mut V)
        requires { (later : List (Ptr × V)) × (lent.old.cells ≡ cell_of self.now ∷ later) }
        ensures pair { (result.0.now ≡ self.now.key) × (result.1.now ≡ self.now.value) }
        ensures cells { lent.old.cells ≡ cell_of self.now ∷ lent.new.cells }
        ensures tie { lent.new.tie ≡ lent.old.tie }
    {
        let pair = self as *const Slot<K, V> as *mut (K, V);
        unsafe { (&(*pair).0, &mut (*pair).1) }
    }

    // The key, and the value out of the loan, in which it is the last.
    pub(crate) fn take_last<'a>(&'a self, lent: &mut Lent<'a, V>) -> (&'a K, &'a mut V)
        requires { (earlier : List (Ptr × V))
            × (lent.old.cells ≡ earlier ++ cell_of self.now ∷ []) }
        ensures pair { (result.0.now ≡ self.now.key) × (result.1.now ≡ self.now.value) }
        ensures cells { lent.old.cells ≡ lent.new.cells ++ cell_of self.now ∷ [] }
        ensures tie { lent.new.tie ≡ lent.old.tie }
    {
        let pair = self as *const Slot<K, V> as *mut (K, V);
        unsafe { (&(*pair).0, &mut (*pair).1) }
    }
}
