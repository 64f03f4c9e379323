//! The iterators of a map that is used up.
ghost use Rattle.std.specs.Prelude.{◌≡◌, ◌^◌, ◌<◌, length, map};
ghost use Rattle.std.specs.Iterator.{YieldsFirst, YieldsLast, item_count};
ghost use Rattle.sorted_vector_map.specs.Hints.{IsExact};

use std::iter::ExactSizeIterator;
use std::marker::Model;
use std::vec;

/// The keys that are still to come of a map that is used up.
///
/// Gives them from both ends, with their exact number as its hint. Each call O(1) time, no memory.
#[derive(Drop)]
pub struct IntoKeys<K, V> {
    pairs: vec::IntoIter<(K, V)>,
}

impl<K, V> Model for IntoKeys<K, V> {
    ghost use Rattle.std.specs.Prelude.{List, map};
    ghost use Rattle.std.specs.Vec.Iter.{into_iter_items};

    ghost Value = { List K };

    ghost view = { λ iter. map (λ p. p.0) (into_iter_items iter.pairs) };
}

impl<K, V> IntoKeys<K, V> {
    pub(crate) fn of(pairs: Vec<(K, V)>) -> Self
        ensures all { result ≡ map (λ p. p.0) pairs.items }
        ensures countable { length result < 2 ^ 64 }
    {
        IntoKeys {
            pairs: pairs.into_iter(),
        }
    }
}

impl<K: Drop, V: Drop> Iterator for IntoKeys<K, V> {
    type Item = K;

    ghost next_gives = { YieldsFirst (λ left. left) };

    ghost remaining = { item_count (λ left. left) };

    fn next(&mut self) -> Option<K> {
        let (key, _) = self.pairs.next()?;
        Some(key)
    }

    fn size_hint(&self) -> (usize, Option<usize>)
        ensures { IsExact (length self.now) result }
    {
        let count = self.pairs.len();
        (count, Some(count))
    }
}

impl<K: Drop, V: Drop> DoubleEndedIterator for IntoKeys<K, V> {
    ghost next_back_gives = { YieldsLast (λ left. left) };

    fn next_back(&mut self) -> Option<K> {
        let (key, _) = self.pairs.next_back()?;
        Some(key)
    }
}

impl<K: Drop, V: Drop> ExactSizeIterator for IntoKeys<K, V> {
    fn len(&self) -> usize {
        self.pairs.len()
    }
}

/// The values that are still to come of a map that is used up.
///
/// Gives them from both ends, with their exact number as its hint. Each call O(1) time, no memory.
#[derive(Drop)]
pub struct IntoValues<K, V> {
    pairs: vec::IntoIter<(K, V)>,
}

impl<K, V> Model for IntoValues<K, V> {
    ghost use Rattle.std.specs.Prelude.{List, map};
    ghost use Rattle.std.specs.Vec.Iter.{into_iter_items};

    ghost Value = { List V };

    ghost view = { λ iter. map (λ p. p.1) (into_iter_items iter.pairs) };
}

impl<K, V> IntoValues<K, V> {
    pub(crate) fn of(pairs: Vec<(K, V)>) -> Self
        ensures all { result ≡ map (λ p. p.1) pairs.items }
        ensures countable { length result < 2 ^ 64 }
    {
        IntoValues {
            pairs: pairs.into_iter(),
        }
    }
}

impl<K: Drop, V: Drop> Iterator for IntoValues<K, V> {
    type Item = V;

    ghost next_gives = { YieldsFirst (λ left. left) };

    ghost remaining = { item_count (λ left. left) };

    fn next(&mut self) -> Option<V> {
        let (_, value) = self.pairs.next()?;
        Some(value)
    }

    fn size_hint(&self) -> (usize, Option<usize>)
        ensures { IsExact (length self.now) result }
    {
        let count = self.pairs.len();
        (count, Some(count))
    }
}

impl<K: Drop, V: Drop> DoubleEndedIterator for IntoValues<K, V> {
    ghost next_back_gives = { YieldsLast (λ left. left) };

    fn next_back(&mut self) -> Option<V> {
        let (_, value) = self.pairs.next_back()?;
        Some(value)
    }
}

impl<K: Drop, V: Drop> ExactSizeIterator for IntoValues<K, V> {
    fn len(&self) -> usize {
        self.pairs.len()
    }
}
