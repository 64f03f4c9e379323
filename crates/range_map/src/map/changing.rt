//! Maps whose values are changed, or of which some ranges are kept, in place.
ghost use Rattle.std.specs.Prelude.{◌≡◌, ℤ, is_some};
ghost use Rattle.std.specs.Bool.{MatchBool};
ghost use Rattle.std.specs.Fn.{CalledAt};
ghost use Rattle.std.specs.List.Retain.{IsFiltered};
ghost use Rattle.number_line.specs.Merged.{goes_on, longer, merged};
ghost use Rattle.number_line.specs.Pieces.{IsJoined};
ghost use Rattle.number_line.specs.Valued.{value_at, IsCanonicalMap};
ghost use Rattle.range_map.specs.Changing.{CalledAtValue};
ghost use Rattle.range_map.specs.Range.{IsRange};
ghost use Rattle.range_map.specs.Valued.{pair_in_numbers, pairs_in_numbers, AreValuedRanges};

use crate::map::RangeMap;
use crate::pairs::{answer_each, retain_by_value};
use crate::range::Range;
use element_core::Element;

// Makes `last` longer where `next` begins behind it with an equal value, and answers whether it
// does.
fn join_next<T: Element, V: Eq>(last: &mut (Range<T>, V), next: &(Range<T>, V)) -> bool
    ensures range { IsRange T.numbers last.new.0 }
    ensures joins { result ≡ goes_on V.eq (pair_in_numbers T.numbers last.old)
        (pair_in_numbers T.numbers next.now) }
    ensures joined { MatchBool result
        (pair_in_numbers T.numbers last.new ≡ longer (pair_in_numbers T.numbers last.old)
        (pair_in_numbers T.numbers next.now))
        (last.new ≡ last.old) }
{
    // These two tell that each range begins no later than it ends.
    last.0.start();
    next.0.start();
    if !last.0.touches(&next.0) || last.1 != next.1 {
        return false;
    }
    last.0 = last.0.cover(&next.0);
    true
}

// Joins touching ranges with equal values, whose first value stays.
fn join_touching<T: Element, V: Eq + Drop>(pairs: &mut Vec<(Range<T>, V)>)
    requires { AreValuedRanges T.numbers pairs.old.items }
    ensures ranges { AreValuedRanges T.numbers pairs.new.items }
    ensures merged { pairs_in_numbers T.numbers pairs.new.items
        ≡ merged V.eq (pairs_in_numbers T.numbers pairs.old.items) }
{
    pairs.dedup_by(|next, last| join_next(last, next));
}

impl<T: Element, V: Eq> RangeMap<T, V> {
    /// Calls `f` once for each range, in order, with its value, and writes the answer in the
    /// value's place. The keys stay. Of touching ranges with equal answers, which become one, the
    /// first answer stays. O(n) time for n ranges, beside the calls, no memory.
    pub fn map_values<F: FnMut(&V) -> V>(&mut self, mut f: F)
    where
        V: Drop,
        requires { F.IsAlwaysCallable f }
        ensures canonical { IsCanonicalMap V.eq T.numbers.least T.numbers.greatest self.new }
        ensures joined { IsJoined (CalledAt F.FnMut) V.eq f self.old self.new }
        ensures keys { (x : ℤ) → is_some (value_at self.new x) ≡ is_some (value_at self.old x) }
    {
        answer_each(&mut f, &mut self.pairs);
        join_touching(&mut self.pairs);
    }

    /// Calls `f` once for each range, in order, with its value, and keeps the ranges at which it
    /// answers true. O(n) time for n ranges, beside the calls, no memory.
    pub fn retain_values<F: FnMut(&V) -> bool>(&mut self, f: F)
    where
        V: Drop,
        requires { F.IsAlwaysCallable f }
        ensures canonical { IsCanonicalMap V.eq T.numbers.least T.numbers.greatest self.new }
        ensures kept { IsFiltered (CalledAtValue F.FnMut) f self.old self.new }
    {
        retain_by_value(&mut self.pairs, f);
    }
}
