//! The lazy intersection of two sets.
ghost use Rattle.std.specs.Prelude.{◌≡◌, ⊤, IfSome, length};
ghost use Rattle.std.specs.Iterator.{YieldsFirstBy, UpTo, item_count};
ghost use Rattle.std.specs.Iterator.SizeHint.{IsWithinCount};
ghost use Rattle.std.specs.Map.Iter.{deref};
ghost use Rattle.sorted_iter.specs.Hints.{intersection_hint};
ghost use Rattle.sorted_vector_set.specs.Hints.{exactly};
ghost use Rattle.sorted_vector_set.specs.Lazy.{intersection_to_come};

use crate::lazy::{TwoSets, copy_of, count_left};
use std::alloc::AllocError;
use std::marker::Model;

/// The items to come of a set to which an item of the other set is equal, ascending.
///
/// Made by [`intersection`](crate::SortedVectorSet::intersection). An item O(k) time for the k
/// items that are passed over for it, no memory.
#[derive(Drop)]
#[must_use = "a set operation is lazy and does nothing until it is asked"]
pub struct Intersection<'a, T: Ord> {
    pub(super) sides: TwoSets<'a, T>,
}

impl<'a, T: Ord> Model for Intersection<'a, T> {
    ghost use Rattle.sorted_vector_set.specs.Lazy.{BothLeft, AreSides, left_of};

    ghost Value = { BothLeft T };

    ghost view = { λ s. record { own = left_of s.sides.left; other = left_of s.sides.right } };

    ghost invariant = { λ s. AreSides T.cmp s.sides };
}

impl<'a, T: Ord> Clone for Intersection<'a, T> {
    ghost is_clone = { λ stream copy. copy ≡ stream };

    ghost is_infallible = { λ _. ⊤ };

    fn clone(&self) -> Result<Self, AllocError> {
        let sides = copy_of(&self.sides);
        Ok(Intersection { sides })
    }
}

impl<'a, T: Ord> Iterator for Intersection<'a, T> {
    type Item = &'a T;

    ghost next_gives = { YieldsFirstBy deref (intersection_to_come T.cmp) };

    ghost remaining = { item_count (intersection_to_come T.cmp) };

    fn next(&mut self) -> Option<&'a T> {
        self.sides.next_common()
    }

    fn size_hint(&self) -> (usize, Option<usize>)
        ensures lower { IsWithinCount result.0 (item_count (intersection_to_come T.cmp) self.now) }
        ensures upper { IfSome result.1 (UpTo (item_count (intersection_to_come T.cmp) self.now)) }
        ensures lengths { result ≡ intersection_hint (exactly (length self.now.own))
            (exactly (length self.now.other)) }
    {
        let own = count_left(&self.sides.left);
        let other = count_left(&self.sides.right);
        (0, Some(own.min(other)))
    }
}
