//! The keys of a map with their values, one after another.
ghost use Rattle.std.specs.Prelude.{◌≡◌, length, None, IfSome};
ghost use Rattle.std.specs.Iterator.{YieldsFirstBy, item_count, at_most, UpTo};
ghost use Rattle.std.specs.Iterator.SizeHint.{IsWithinCount};
ghost use Rattle.number_line.specs.KeysValues.{keys_values};
ghost use Rattle.range_map.specs.KeysValues.{key_value, pairs_left};

use crate::map::RangeMap;
use crate::range::Range;
use crate::set::without_first;
use element_core::Element;

/// The keys of a map, ascending, each with its value. Contracts speak of those still to come by
/// `pairs_left`, the list of their numbers with the values.
///
/// Each call O(1) time, no memory.
#[derive(Clone, Copy, Debug)]
pub struct PairIter<'a, T: Element, V> {
    // What is left of the first range, where it was begun.
    begun: Option<Range<T>>,
    rest: &'a [(Range<T>, V)],
}

impl<'a, T: Element, V> Iterator for PairIter<'a, T, V> {
    type Item = (T, &'a V);

    ghost next_gives = { YieldsFirstBy (key_value T.numbers) (pairs_left T.numbers) };

    ghost remaining = { item_count (pairs_left T.numbers) };

    fn next(&mut self) -> Option<(T, &'a V)> {
        let Some((pair, others)) = self.rest.split_first() else {
            return None;
        };
        let range = self.begun.unwrap_or(pair.0);
        self.begun = without_first(&range);
        if self.begun.is_none() {
            self.rest = others;
        }
        Some((range.start(), &pair.1))
    }

    fn size_hint(&self) -> (usize, Option<usize>)
        ensures lower { IsWithinCount result.0 (at_most (length (pairs_left T.numbers self.now))) }
        ensures upper { IfSome result.1
            (UpTo (at_most (length (pairs_left T.numbers self.now)))) }
        ensures open { result.1 ≡ None }
    {
        // Each range has a key at least that is still to come.
        (self.rest.len(), None)
    }
}

impl<T: Element, V: Eq> RangeMap<T, V> {
    /// Returns the keys, ascending, each with its value. O(1) time, no memory.
    pub fn keys_values(&self) -> PairIter<'_, T, V>
        ensures { pairs_left T.numbers result ≡ keys_values self.now }
    {
        PairIter {
            begun: None,
            rest: self.pairs.as_slice(),
        }
    }
}
