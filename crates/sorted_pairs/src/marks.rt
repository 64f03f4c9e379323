//! The mark of iterators of pairs whose keys strictly ascend, and the calls that it gives.
ghost use Rattle.std.specs.Prelude.{◌≡◌, List, Option};
ghost use Rattle.std.specs.Iterator.Runs.{EachRunFrom, SomeRun};
ghost use Rattle.ordered_lists.specs.Joins.{keys, join, left_join, right_join, outer_join};
ghost use Rattle.ordered_lists.specs.Lists.{by_key};
ghost use Rattle.sorted_iter.specs.Orders.{InOrder, GivesList};
ghost use Rattle.sorted_iter.specs.TwoSides.{sides_of};
ghost use Rattle.sorted_pairs.specs.JoinStreams.{keys_ascend, join_sides, join_steps, left_join_sides, left_join_steps, right_join_sides, right_join_steps, outer_join_sides, outer_join_steps};
ghost use Rattle.sorted_pairs.specs.Joined.{JoinsRuns, JoinsLists};
ghost use Rattle.sorted_pairs.specs.KeyStreams.{keys_source, keys_steps};
ghost use Rattle.sorted_pairs.specs.ValueStreams.{map_values_source, map_values_closure, CallsInTurn, filter_map_values_source, filter_map_values_closure, AsksInTurn};

use crate::filter_map_values::FilterMapValues;
use crate::join::Join;
use crate::keys::Keys;
use crate::left_join::LeftJoin;
use crate::map_values::MapValues;
use crate::outer_join::OuterJoin;
use crate::right_join::RightJoin;
use sorted_iter::Sides;

/// An iterator of pairs whose keys still to come strictly ascend, and that stays ended.
pub trait SortedByKey<K: Ord, V>: Iterator<Item = (K, V)> {
    // Holds of the states of which it is known that the keys to come ascend.
    ghost in_order: { Self → Type 0 };

    /// Does nothing.
    fn mark(&self);

    ghost sorted: { (s : Self) → in_order s → InOrder (by_key K.cmp) Self.next_gives s };

    // What is known of a state is known of the state after a call of `next`.
    ghost goes_on: { (s t : Self) (r : Option (K × V)) → in_order s → Self.next_gives s r t
        → in_order t };
}

/// The joins of streams of pairs in the order of their keys, and what else such streams can do.
/// Every iterator with the mark [`SortedByKey`] has them.
///
/// Each call answers a lazy stream in O(1). None takes memory.
pub trait SortedPairIterator<K: Ord, V>: SortedByKey<K, V> + Sized {
    /// `(key, (v, w))` for each key that both streams have, with the left key.
    final fn join<W: Drop, J: SortedPairIterator<K, W>>(self, that: J) -> Join<Self, J>
    where
        K: Drop,
        V: Drop,
        requires left { Self.in_order self }
        requires right { J.in_order that }
        ensures sources { join_sides result ≡ sides_of self that }
        ensures in_order { keys_ascend K.cmp Self.next_gives J.next_gives (join_sides result) }
        ensures runs { JoinsRuns K.cmp (join K.cmp)
            (join_steps K.cmp Self.next_gives J.next_gives) result Self.next_gives self
            J.next_gives that }
        ensures lists { JoinsLists K.cmp (join K.cmp)
            (join_steps K.cmp Self.next_gives J.next_gives) result Self.next_gives self
            J.next_gives that }
    {
        Join {
            sides: Sides::new(self, that),
        }
    }

    /// `(key, (v, w))` for each pair `(key, v)` of this stream, where `w` is the value of `that` at
    /// the key, or `None`.
    final fn left_join<W: Drop, J: SortedPairIterator<K, W>>(self, that: J) -> LeftJoin<Self, J>
    where
        K: Drop,
        V: Drop,
        requires left { Self.in_order self }
        requires right { J.in_order that }
        ensures sources { left_join_sides result ≡ sides_of self that }
        ensures in_order { keys_ascend K.cmp Self.next_gives J.next_gives
            (left_join_sides result) }
        ensures runs { JoinsRuns K.cmp (left_join K.cmp)
            (left_join_steps K.cmp Self.next_gives J.next_gives) result Self.next_gives self
            J.next_gives that }
        ensures lists { JoinsLists K.cmp (left_join K.cmp)
            (left_join_steps K.cmp Self.next_gives J.next_gives) result Self.next_gives self
            J.next_gives that }
    {
        LeftJoin {
            sides: Sides::new(self, that),
        }
    }

    /// `(key, (v, w))` for each pair `(key, w)` of `that`, where `v` is the value of this stream at
    /// the key, or `None`. The key is that of `that`.
    final fn right_join<W: Drop, J: SortedPairIterator<K, W>>(self, that: J) -> RightJoin<Self, J>
    where
        K: Drop,
        V: Drop,
        requires left { Self.in_order self }
        requires right { J.in_order that }
        ensures sources { right_join_sides result ≡ sides_of self that }
        ensures in_order { keys_ascend K.cmp Self.next_gives J.next_gives
            (right_join_sides result) }
        ensures runs { JoinsRuns K.cmp (right_join K.cmp)
            (right_join_steps K.cmp Self.next_gives J.next_gives) result Self.next_gives self
            J.next_gives that }
        ensures lists { JoinsLists K.cmp (right_join K.cmp)
            (right_join_steps K.cmp Self.next_gives J.next_gives) result Self.next_gives self
            J.next_gives that }
    {
        RightJoin {
            sides: Sides::new(self, that),
        }
    }

    /// `(key, (v, w))` for each key of either stream, with the value of each at the key, or `None`.
    /// Where both have the key it is the left one.
    final fn outer_join<W: Drop, J: SortedPairIterator<K, W>>(self, that: J) -> OuterJoin<Self, J>
    where
        K: Drop,
        V: Drop,
        requires left { Self.in_order self }
        requires right { J.in_order that }
        ensures sources { outer_join_sides result ≡ sides_of self that }
        ensures in_order { keys_ascend K.cmp Self.next_gives J.next_gives
            (outer_join_sides result) }
        ensures runs { JoinsRuns K.cmp (outer_join K.cmp)
            (outer_join_steps K.cmp Self.next_gives J.next_gives) result Self.next_gives self
            J.next_gives that }
        ensures lists { JoinsLists K.cmp (outer_join K.cmp)
            (outer_join_steps K.cmp Self.next_gives J.next_gives) result Self.next_gives self
            J.next_gives that }
    {
        OuterJoin {
            sides: Sides::new(self, that),
        }
    }

    /// Returns each key with what `f` answers on its value. `f` is called once on the value of each
    /// pair that is taken, in the order in which they are taken, from whichever end.
    final fn map_values<W, F: FnMut(V) -> W>(self, f: F) -> MapValues<Self, F>
    where
        ensures source { map_values_source result ≡ self }
        ensures closure { map_values_closure result ≡ f }
        ensures calls { CallsInTurn Self.next_gives F.FnMut result self f }
    {
        MapValues { source: self, f }
    }

    /// Returns each key on whose value `f` answers `Some(w)`, with w. `f` is called once on the
    /// value of each pair that is taken, in order; those on which it answers `None` are passed
    /// over.
    final fn filter_map_values<W, F: FnMut(V) -> Option<W>>(self, f: F) -> FilterMapValues<Self, F>
    where
        ensures source { filter_map_values_source result ≡ self }
        ensures closure { filter_map_values_closure result ≡ f }
        ensures calls { AsksInTurn Self.next_gives F.FnMut result self f }
    {
        FilterMapValues { source: self, f }
    }

    /// Returns the keys, ascending.
    final fn keys(self) -> Keys<Self>
        ensures source { keys_source result ≡ self }
        ensures runs { EachRunFrom (keys_steps Self.next_gives) result
            (λ p. SomeRun Self.next_gives self (λ q. (p.items ≡ keys q.items)
            × (p.whole ≡ q.whole))) }
        ensures lists { (ps : List (K × V)) → GivesList Self.next_gives self ps
            → GivesList (keys_steps Self.next_gives) result (keys ps) }
    {
        Keys { source: self }
    }
}

impl<K: Ord, V, I: SortedByKey<K, V>> SortedPairIterator<K, V> for I {}
