//! Maps made from pairs of a range and a value in any order.
ghost use Rattle.std.specs.Prelude.{◌≡◌, List, [], OnOk, IfOk, IfErr};
ghost use Rattle.std.specs.Bool.{OnTrue};
ghost use Rattle.std.specs.Int.{int_max};
ghost use Rattle.std.specs.Iterator.{IsFinite, Drains};
ghost use Rattle.std.specs.List.Sorted.{IsPermutation};
ghost use Rattle.number_line.specs.Valued.{IsCanonicalMap};
ghost use Rattle.number_line.specs.Kept.{clashes, joins, range_cmp};
ghost use Rattle.number_line.specs.Kept.{placed, kept_and_discarded, IsDivided};
ghost use Rattle.range_map.specs.Range.{IsRange, in_numbers};
ghost use Rattle.range_map.specs.Valued.{pair_in_numbers, pairs_in_numbers, AreValuedRanges, IsMap};
ghost use Rattle.range_map.specs.MapError.{IfOverlap};

use crate::map::RangeMap;
use crate::map::error::{OverlapError, TryFromIterError};
use crate::map::growing::continues;
use crate::range::Range;
use element_core::{Element, NoMemory, compare, is_below};
use std::alloc::Global;
use std::cmp::Ordering;
use std::mem;

// Returns how two ranges compare: by their starts, and where these are equal by their ends.
fn compare_ranges<T: Element>(a: &Range<T>, b: &Range<T>) -> Ordering
    ensures { result ≡ range_cmp (in_numbers T.numbers a.now) (in_numbers T.numbers b.now) }
{
    compare(a.start(), b.start()).then(compare(a.end(), b.end()))
}

// Returns whether `next` overlaps `last` with another value.
fn clash<T: Element, V: Eq>(last: &(Range<T>, V), next: &(Range<T>, V)) -> bool
    ensures { result ≡ clashes V.eq (pair_in_numbers T.numbers last.now)
        (pair_in_numbers T.numbers next.now) }
{
    last.0.intersects(&next.0) && last.1 != next.1
}

// Returns whether `next` overlaps or touches `last` with an equal value.
fn join<T: Element, V: Eq>(last: &(Range<T>, V), next: &(Range<T>, V)) -> bool
    ensures { result ≡ joins V.eq (pair_in_numbers T.numbers last.now)
        (pair_in_numbers T.numbers next.now) }
{
    (last.0.intersects(&next.0) || last.0.touches(&next.0)) && last.1 == next.1
}

// Returns the range as far as the larger of its own end and that of `next`.
fn grow<T: Element>(range: &Range<T>, next: &Range<T>) -> Range<T>
    ensures value { in_numbers T.numbers result ≡ (
      T.numbers.number range.now.0,
      int_max (T.numbers.number range.now.1) (T.numbers.number next.now.1),
    ) }
    ensures range { IsRange T.numbers result }
{
    let start = range.start();
    if is_below(range.end(), next.end()) {
        return Range::new(start, next.end());
    }
    *range
}

/// The kept pairs and the discarded ones.
#[derive(Drop)]
struct Divided<T: Element, V> {
    kept: Vec<(Range<T>, V)>,
    discarded: Vec<(Range<T>, V)>,
}

// Walks pairs in order with the last kept one.
fn divide_sorted<T: Element, V: Eq + Drop>(
    alloc: Global,
    pairs: Vec<(Range<T>, V)>,
) -> Result<Divided<T, V>, NoMemory>
    ensures given { IfOk result (λ _. AreValuedRanges T.numbers pairs.items) }
    ensures ranges { IfOk result (λ divided. AreValuedRanges T.numbers divided.kept.items) }
    ensures rules { IfOk result
        (λ divided. kept_and_discarded V.eq (pairs_in_numbers T.numbers pairs.items)
        ≡ record {
          kept = pairs_in_numbers T.numbers divided.kept.items;
          discarded = pairs_in_numbers T.numbers divided.discarded.items;
        }) }
{
    let mut kept = Vec::with_capacity(alloc, pairs.len())?;
    let mut discarded = Vec::new(alloc);
    let mut rest = pairs.into_iter();
    let Some(mut last) = rest.next() else {
        return Ok(Divided { kept, discarded });
    };
    // This tells that the range lies within the type; so it does below.
    last.0.start();
    for pair in rest {
        pair.0.start();
        if clash(&last, &pair) {
            discarded.push(pair)?;
        } else if join(&last, &pair) {
            last.0 = grow(&last.0, &pair.0);
        } else {
            kept.push(mem::replace(&mut last, pair))?;
        }
    }
    kept.push(last)?;
    Ok(Divided { kept, discarded })
}

// Sorts the pairs by their ranges, those with one range in the order in which they came.
fn sort_by_range<T: Element, V>(pairs: &mut Vec<(Range<T>, V)>) -> Result<(), NoMemory>
    ensures permutation { OnOk result (IsPermutation pairs.old.items pairs.new.items) }
    ensures placed { OnOk result
        (pairs_in_numbers T.numbers pairs.new.items
        ≡ placed (pairs_in_numbers T.numbers pairs.old.items)) }
{
    pairs.sort_by(|a, b| compare_ranges(&a.0, &b.0))?;
    Ok(())
}

// Returns whether the pairs are the list of a map: their ranges ascend without overlap, and those
// that touch have different values. O(n) time for n pairs, no memory.
fn is_map<T: Element, V: Eq>(pairs: &[(Range<T>, V)]) -> bool
    ensures { OnTrue result (IsMap T.numbers V.eq pairs.now) }
{
    let Some((first, rest)) = pairs.split_first() else {
        return true;
    };
    let mut last = first;
    // These tell that the ranges lie within the type.
    last.0.start();
    for pair in rest {
        let end = last.0.end();
        if !is_below(end, pair.0.start()) || continues(last, &pair.0, &pair.1) {
            return false;
        }
        last = pair;
    }
    last.0.end();
    true
}

// Returns which of the pairs are kept, as the list of a map, and which are discarded.
fn divide<T: Element, V: Eq + Drop>(
    alloc: Global,
    mut pairs: Vec<(Range<T>, V)>,
) -> Result<Divided<T, V>, NoMemory>
    ensures map { IfOk result (λ divided. IsMap T.numbers V.eq divided.kept.items) }
    ensures divided { IfOk result
        (λ divided. IsDivided V.eq (pairs_in_numbers T.numbers pairs.items)
        (pairs_in_numbers T.numbers divided.kept.items)
        (pairs_in_numbers T.numbers divided.discarded.items)) }
{
    sort_by_range(&mut pairs)?;
    if is_map(pairs.as_slice()) {
        // Nothing is joined or discarded, so nothing is copied.
        return Ok(Divided {
            kept: pairs,
            discarded: Vec::new(alloc),
        });
    }
    let divided = divide_sorted(alloc, pairs)?;
    Ok(divided)
}

// Returns the same of the pairs that `iter` gives.
fn divide_all<T: Element, V: Eq + Drop, I: IntoIterator<Item = (Range<T>, V)>>(
    alloc: Global,
    iter: I,
) -> Result<Divided<T, V>, NoMemory>
    requires { (it : I.IntoIter) → I.into_iter_gives iter it
        → I.IntoIter.can_next it × IsFinite (I.IntoIter.remaining it) }
    ensures map { IfOk result (λ divided. IsMap T.numbers V.eq divided.kept.items) }
    ensures divided { IfOk result (λ divided. (it : I.IntoIter) × (pairs : List ((T × T) × V))
        × I.into_iter_gives iter it × Drains I.IntoIter.next_gives it pairs
        × IsDivided V.eq (pairs_in_numbers T.numbers pairs)
        (pairs_in_numbers T.numbers divided.kept.items)
        (pairs_in_numbers T.numbers divided.discarded.items)) }
{
    let pairs = Vec::from_iter(alloc, iter)?;
    let divided = divide(alloc, pairs)?;
    Ok(divided)
}

impl<T: Element, V: Eq + Drop> RangeMap<T, V> {
    /// Returns the map of the pairs that `iter` gives, in any order. They are taken in the order of
    /// their ranges, and those with one range in the order in which they came: a pair that overlaps
    /// or touches the range before it with an equal value makes that range grow, whose value stays,
    /// and a pair that overlaps it with another value is discarded. O(n log n) time for n pairs.
    ///
    /// Where a pair is discarded, the answer is `Overlap` with the map of the others and the
    /// discarded pairs.
    pub fn try_from_iter<I: IntoIterator<Item = (Range<T>, V)>>(
        alloc: Global,
        iter: I,
    ) -> Result<Self, TryFromIterError<T, V>>
        requires { (it : I.IntoIter) → I.into_iter_gives iter it
            → I.IntoIter.can_next it × IsFinite (I.IntoIter.remaining it) }
        ensures canonical { IfOk result (IsCanonicalMap V.eq T.numbers.least T.numbers.greatest) }
        ensures map { IfOk result (λ map. (it : I.IntoIter) × (pairs : List ((T × T) × V))
            × I.into_iter_gives iter it × Drains I.IntoIter.next_gives it pairs
            × IsDivided V.eq (pairs_in_numbers T.numbers pairs) map []) }
        ensures overlap { IfErr result (IfOverlap (λ map discarded.
            (it : I.IntoIter) × (pairs : List ((T × T) × V))
            × I.into_iter_gives iter it × Drains I.IntoIter.next_gives it pairs
            × IsDivided V.eq (pairs_in_numbers T.numbers pairs) map
            (pairs_in_numbers T.numbers discarded))) }
        ensures some_discarded { IfErr result (IfOverlap (λ map discarded. discarded ≡ [] → ⊥)) }
    {
        let divided = divide_all(alloc, iter)?;
        if divided.discarded.is_empty() {
            return Ok(RangeMap {
                pairs: divided.kept,
            });
        }
        Err(TryFromIterError::Overlap(OverlapError {
            non_overlapping: RangeMap {
                pairs: divided.kept,
            },
            discarded: divided.discarded,
        }))
    }
}
