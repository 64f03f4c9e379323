//! The right to write values that are lent each at its own place.
ghost use Rattle.std.specs.Prelude.{◌≡◌, ℕ, List, ◌++◌, take, drop};
ghost use base.Fml.{GName, ftrue};
ghost use denote.RawPtr.{Ptr};
ghost use Rattle.sorted_vector_map.specs.Loans.{lends_cells};

use std::marker::{Model, PhantomData};

// The loan `name` lends the values that are passed over, those in `cells`, which may be taken from
// both ends, and those left out. What it ends at is what the loan `tie` ends at.
pub struct Lent<'a, V> {
    pub(crate) mark: PhantomData<&'a mut V>,
    ghost name: { GName },
    ghost tie: { GName },
    ghost before: { List (Ptr × V) },
    ghost cells: { List (Ptr × V) },
    ghost after: { List (Ptr × V) },
}

impl<'a, V> Model for Lent<'a, V> {
    ghost also_owns = { λ l. lends_cells 'a V.row l.name (l.before ++ (l.cells ++ l.after)) };

    ghost also_shares = { λ _ _ _. ftrue };
}

impl<V> Drop for Lent<'_, V> {
    fn drop(self) {
        let Self { mark: _ } = self;
    }
}

impl<'a, V> Lent<'a, V> {
    // Leaves out all but `count` cells from the `start`-th on. Nothing is done when it runs: what
    // is left out is known to the proofs alone.
    pub(crate) fn narrow(&mut self, start: usize, count: usize)
        ensures cells { self.new.cells ≡ take count (drop start self.old.cells) }
        ensures tie { self.new.tie ≡ self.old.tie }
    {
        let _ = (start, count);
    }
}
