//! The lazy symmetric difference of two sets.
ghost use Rattle.std.specs.Prelude.{◌≡◌, ⊤, IfSome, length, Some};
ghost use Rattle.std.specs.Iterator.{YieldsFirstBy, UpTo, item_count};
ghost use Rattle.std.specs.Iterator.SizeHint.{IsWithinCount};
ghost use Rattle.std.specs.Map.Iter.{deref};
ghost use Rattle.sorted_iter.specs.Hints.{sum_where_known};
ghost use Rattle.sorted_vector_set.specs.Lazy.{symmetric_difference_to_come};

use crate::lazy::{TwoSets, copy_of, count_left, sum_of};
use sorted_iter::Wants;
use std::alloc::AllocError;
use std::marker::Model;

/// The items to come of either set to which no item of the other is equal, ascending.
///
/// Made by [`symmetric_difference`](crate::SortedVectorSet::symmetric_difference). An item O(k)
/// time for the k items that are passed over for it, no memory.
#[derive(Drop)]
#[must_use = "a set operation is lazy and does nothing until it is asked"]
pub struct SymmetricDifference<'a, T: Ord> {
    pub(super) sides: TwoSets<'a, T>,
}

impl<'a, T: Ord> Model for SymmetricDifference<'a, T> {
    ghost use Rattle.sorted_vector_set.specs.Lazy.{BothLeft, AreSides, left_of};

    ghost Value = { BothLeft T };

    ghost view = { λ s. record { own = left_of s.sides.left; other = left_of s.sides.right } };

    ghost invariant = { λ s. AreSides T.cmp s.sides };
}

impl<'a, T: Ord> Clone for SymmetricDifference<'a, T> {
    ghost is_clone = { λ stream copy. copy ≡ stream };

    ghost is_infallible = { λ _. ⊤ };

    fn clone(&self) -> Result<Self, AllocError> {
        let sides = copy_of(&self.sides);
        Ok(SymmetricDifference { sides })
    }
}

impl<'a, T: Ord> Iterator for SymmetricDifference<'a, T> {
    type Item = &'a T;

    ghost next_gives = { YieldsFirstBy deref (symmetric_difference_to_come T.cmp) };

    ghost remaining = { item_count (symmetric_difference_to_come T.cmp) };

    fn next(&mut self) -> Option<&'a T> {
        self.sides.next(Wants {
            left: true,
            both: false,
            right: true,
        })
    }

    fn size_hint(&self) -> (usize, Option<usize>)
        ensures lower { IsWithinCount result.0
            (item_count (symmetric_difference_to_come T.cmp) self.now) }
        ensures upper { IfSome result.1 (UpTo
            (item_count (symmetric_difference_to_come T.cmp) self.now)) }
        ensures lengths { result ≡ (
          0,
          sum_where_known (Some (length self.now.own))
              (Some (length self.now.other)),
        ) }
    {
        let own = count_left(&self.sides.left);
        let other = count_left(&self.sides.right);
        (0, sum_of(own, other))
    }
}
