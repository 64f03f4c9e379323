//! Maps without gaps.
ghost use Rattle.std.specs.Prelude.{◌≡◌, ◌++◌, Some, IfOk, OnOk};
ghost use Rattle.std.specs.Option.{option_eq};
ghost use Rattle.number_line.specs.Merged.{FirstStays};
ghost use Rattle.number_line.specs.Parts.{ArePairClones};
ghost use Rattle.number_line.specs.Valued.{value_at, IsCanonicalMap, HasValues};
ghost use Rattle.range_map.specs.Valued.{pairs_in_numbers, AreValuedRanges};
ghost use Rattle.blaze_joins.specs.Filled.{IsOptionClone, gap_before, with_gaps};
ghost use Rattle.ordered_lists.specs.Taken.{ClonesAreEqual};

use crate::map::RangeMapBlaze;
use element_core::{Element, NoMemory, is_below};
use range_map::{Range, RangeMap};
use std::alloc::Global;

// Puts the keys from `start` to below `range` with `None` behind the others, if there are any.
fn push_gap<T: Element, V: Drop>(
    filled: &mut Vec<(Range<T>, Option<V>)>,
    start: T,
    range: &Range<T>,
) -> Result<(), NoMemory>
    requires { AreValuedRanges T.numbers filled.old.items }
    ensures ranges { OnOk result (AreValuedRanges T.numbers filled.new.items) }
    ensures list { OnOk result (pairs_in_numbers T.numbers filled.new.items
        ≡ pairs_in_numbers T.numbers filled.old.items
        ++ gap_before (T.numbers.number start) (T.numbers.number range.now.0)) }
{
    start.in_type();
    if !is_below(start, range.start()) {
        return Ok(());
    }
    match range.start().predecessor() {
        None => Ok(()),
        Some(end) => {
            filled.push((Range::new(start, end), None))?;
            Ok(())
        }
    }
}

// Returns the ranges with clones of their values, and the gaps before, between and behind them with
// `None`.
fn clones_and_gaps<T: Element, V: Eq + Clone + Drop>(
    alloc: Global,
    pairs: &[(Range<T>, V)],
) -> Result<Vec<(Range<T>, Option<V>)>, NoMemory>
    requires { IsCanonicalMap V.eq T.numbers.least T.numbers.greatest
        (pairs_in_numbers T.numbers pairs.now) }
    ensures ranges { IfOk result (λ filled. AreValuedRanges T.numbers filled.items) }
    ensures clones { IfOk result (λ filled. ArePairClones (IsOptionClone V.is_clone)
        (with_gaps T.numbers.least T.numbers.greatest (pairs_in_numbers T.numbers pairs.now))
        (pairs_in_numbers T.numbers filled.items)) }
{
    let most = pairs.len().saturating_mul(2).saturating_add(1);
    let mut filled = Vec::with_capacity(alloc, most)?;
    let mut start = T::min_value();
    for pair in pairs {
        push_gap(&mut filled, start, &pair.0)?;
        filled.push((pair.0, Some(pair.1.clone()?)))?;
        match pair.0.end().successor() {
            Some(next) => start = next,
            None => return Ok(filled),
        }
    }
    start.in_type();
    filled.push((Range::new(start, T::max_value()), None))?;
    Ok(filled)
}

impl<T: Element, V: Eq + Clone + Drop> RangeMapBlaze<T, V> {
    /// Returns the map in which every key has a value: `Some` of a clone of its value here, or
    /// `None` where it has none. O(n) time for n ranges, beside the clones: one for each range.
    pub fn fill_gaps(&self, alloc: Global) -> Result<RangeMapBlaze<T, Option<V>>, NoMemory>
        requires { ClonesAreEqual V.is_clone V.eq }
        ensures canonical { IfOk result
            (IsCanonicalMap (option_eq V.eq) T.numbers.least T.numbers.greatest) }
        ensures values { IfOk result (HasValues (option_eq V.eq) (λ x. Some (value_at self.now x))
            T.numbers.least T.numbers.greatest) }
        ensures first_stays { IfOk result
            (FirstStays (IsOptionClone V.is_clone) (λ x. Some (value_at self.now x))) }
    {
        let filled = clones_and_gaps(alloc, self.map.as_slice())?;
        Ok(RangeMapBlaze {
            map: RangeMap::from_canonical(filled),
        })
    }
}
