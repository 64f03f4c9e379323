//! The iterators of a map that is borrowed.
ghost use Rattle.std.specs.Prelude.{◌≡◌, ◌^◌, ◌<◌, ⊤, length, map};
ghost use Rattle.std.specs.Iterator.{YieldsFirstBy, YieldsLastBy, item_count};
ghost use Rattle.std.specs.Map.Iter.{deref, deref_pair};
ghost use Rattle.sorted_vector_map.specs.Hints.{IsExact};

use std::alloc::AllocError;
use std::iter::ExactSizeIterator;
use std::marker::Model;
use std::slice;

/// The pairs of a map that are still to come.
///
/// Gives them from both ends, with their exact number as its hint. Each call O(1) time, no memory.
#[derive(Drop)]
pub struct Iter<'map, K, V> {
    pairs: slice::Iter<'map, (K, V)>,
}

impl<'map, K, V> Model for Iter<'map, K, V> {
    ghost use Rattle.std.specs.Prelude.{List};
    ghost use Rattle.std.specs.Slice.Iter.{iter_rest};

    ghost Value = { List (K × V) };

    ghost view = { λ iter. iter_rest iter.pairs };
}

impl<'map, K, V> Iter<'map, K, V> {
    pub(crate) fn new(pairs: &'map [(K, V)]) -> Self
        ensures all { result ≡ pairs.now }
        ensures countable { length result < 2 ^ 64 }
    {
        Iter {
            pairs: pairs.iter(),
        }
    }
}

impl<'map, K, V> Clone for Iter<'map, K, V> {
    ghost is_clone = { λ iter copy. copy ≡ iter };

    ghost is_infallible = { λ _. ⊤ };

    fn clone(&self) -> Result<Self, AllocError> {
        let pairs = self.pairs.clone()?;
        Ok(Iter { pairs })
    }
}

impl<'map, K, V> Iterator for Iter<'map, K, V> {
    type Item = (&'map K, &'map V);

    ghost next_gives = { YieldsFirstBy deref_pair (λ left. left) };

    ghost remaining = { item_count (λ left. left) };

    fn next(&mut self) -> Option<(&'map K, &'map V)> {
        let pair = self.pairs.next()?;
        Some((&pair.0, &pair.1))
    }

    fn size_hint(&self) -> (usize, Option<usize>)
        ensures { IsExact (length self.now) result }
    {
        let count = self.pairs.len();
        (count, Some(count))
    }
}

impl<'map, K, V> DoubleEndedIterator for Iter<'map, K, V> {
    ghost next_back_gives = { YieldsLastBy deref_pair (λ left. left) };

    fn next_back(&mut self) -> Option<(&'map K, &'map V)> {
        let pair = self.pairs.next_back()?;
        Some((&pair.0, &pair.1))
    }
}

impl<'map, K, V> ExactSizeIterator for Iter<'map, K, V> {
    fn len(&self) -> usize {
        self.pairs.len()
    }
}

/// The keys of a map that are still to come.
///
/// Gives them from both ends, with their exact number as its hint. Each call O(1) time, no memory.
#[derive(Drop)]
pub struct Keys<'map, K, V> {
    pairs: Iter<'map, K, V>,
}

impl<'map, K, V> Model for Keys<'map, K, V> {
    ghost use Rattle.std.specs.Prelude.{List, map};

    ghost Value = { List K };

    ghost view = { λ iter. map (λ p. p.0) iter.pairs };
}

impl<'map, K, V> Keys<'map, K, V> {
    pub(crate) fn of(pairs: Iter<'map, K, V>) -> Self
        ensures { result ≡ map (λ p. p.0) pairs.entry }
    {
        Keys { pairs }
    }
}

impl<'map, K, V> Clone for Keys<'map, K, V> {
    ghost is_clone = { λ iter copy. copy ≡ iter };

    ghost is_infallible = { λ _. ⊤ };

    fn clone(&self) -> Result<Self, AllocError> {
        let pairs = self.pairs.clone()?;
        Ok(Keys { pairs })
    }
}

impl<'map, K, V> Iterator for Keys<'map, K, V> {
    type Item = &'map K;

    ghost next_gives = { YieldsFirstBy deref (λ left. left) };

    ghost remaining = { item_count (λ left. left) };

    fn next(&mut self) -> Option<&'map K> {
        let (key, _) = self.pairs.next()?;
        Some(key)
    }

    fn size_hint(&self) -> (usize, Option<usize>)
        ensures { IsExact (length self.now) result }
    {
        self.pairs.size_hint()
    }
}

impl<'map, K, V> DoubleEndedIterator for Keys<'map, K, V> {
    ghost next_back_gives = { YieldsLastBy deref (λ left. left) };

    fn next_back(&mut self) -> Option<&'map K> {
        let (key, _) = self.pairs.next_back()?;
        Some(key)
    }
}

impl<'map, K, V> ExactSizeIterator for Keys<'map, K, V> {
    fn len(&self) -> usize {
        self.pairs.len()
    }
}

/// The values of a map that are still to come.
///
/// Gives them from both ends, with their exact number as its hint. Each call O(1) time, no memory.
#[derive(Drop)]
pub struct Values<'map, K, V> {
    pairs: Iter<'map, K, V>,
}

impl<'map, K, V> Model for Values<'map, K, V> {
    ghost use Rattle.std.specs.Prelude.{List, map};

    ghost Value = { List V };

    ghost view = { λ iter. map (λ p. p.1) iter.pairs };
}

impl<'map, K, V> Values<'map, K, V> {
    pub(crate) fn of(pairs: Iter<'map, K, V>) -> Self
        ensures { result ≡ map (λ p. p.1) pairs.entry }
    {
        Values { pairs }
    }
}

impl<'map, K, V> Clone for Values<'map, K, V> {
    ghost is_clone = { λ iter copy. copy ≡ iter };

    ghost is_infallible = { λ _. ⊤ };

    fn clone(&self) -> Result<Self, AllocError> {
        let pairs = self.pairs.clone()?;
        Ok(Values { pairs })
    }
}

impl<'map, K, V> Iterator for Values<'map, K, V> {
    type Item = &'map V;

    ghost next_gives = { YieldsFirstBy deref (λ left. left) };

    ghost remaining = { item_count (λ left. left) };

    fn next(&mut self) -> Option<&'map V> {
        let (_, value) = self.pairs.next()?;
        Some(value)
    }

    fn size_hint(&self) -> (usize, Option<usize>)
        ensures { IsExact (length self.now) result }
    {
        self.pairs.size_hint()
    }
}

impl<'map, K, V> DoubleEndedIterator for Values<'map, K, V> {
    ghost next_back_gives = { YieldsLastBy deref (λ left. left) };

    fn next_back(&mut self) -> Option<&'map V> {
        let (_, value) = self.pairs.next_back()?;
        Some(value)
    }
}

impl<'map, K, V> ExactSizeIterator for Values<'map, K, V> {
    fn len(&self) -> usize {
        self.pairs.len()
    }
}
