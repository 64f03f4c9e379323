//! The values of a map for writing, without their keys.
ghost use Rattle.std.specs.Prelude.{◌≡◌, length};
ghost use Rattle.std.specs.Iterator.{at_most};
ghost use Rattle.sorted_vector_map.specs.Hints.{IsExact};
ghost use Rattle.sorted_vector_map.specs.Lending.{LendsFirstOf, LendsLastOf, deref_mut};

use crate::iters::IterMut;
use std::iter::ExactSizeIterator;
use std::marker::Model;

/// The values of a map that are still to come, for writing.
///
/// Gives them from both ends, with their exact number as its hint. Each call O(1) time, no memory.
#[derive(Drop)]
pub struct ValuesMut<'map, K, V> {
    pub(crate) pairs: IterMut<'map, K, V>,
}

impl<'map, K, V> Model for ValuesMut<'map, K, V> {
    ghost use Rattle.std.specs.Prelude.{map};
    ghost use Rattle.sorted_vector_map.specs.Lending.{Lending};

    ghost Value = { Lending V };

    ghost view = { λ it. record { rest = map (λ p. p.1) it.pairs.rest; loan = it.pairs.loan } };
}

impl<'map, K, V> Iterator for ValuesMut<'map, K, V> {
    type Item = &'map mut V;

    ghost next_gives = { LendsFirstOf deref_mut };

    ghost remaining = { λ it. at_most (length it.rest) };

    fn next(&mut self) -> Option<Self::Item> {
        let (_, value) = self.pairs.next()?;
        Some(value)
    }

    fn size_hint(&self) -> (usize, Option<usize>)
        ensures { IsExact (length self.now.rest) result }
    {
        let len = self.pairs.len();
        (len, Some(len))
    }
}

impl<'map, K, V> DoubleEndedIterator for ValuesMut<'map, K, V> {
    ghost next_back_gives = { LendsLastOf deref_mut };

    fn next_back(&mut self) -> Option<Self::Item> {
        let (_, value) = self.pairs.next_back()?;
        Some(value)
    }
}

impl<'map, K, V> ExactSizeIterator for ValuesMut<'map, K, V> {
    fn len(&self) -> usize {
        self.pairs.len()
    }
}
