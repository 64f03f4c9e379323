//! The ranges of a set from a value on.
ghost use Rattle.std.specs.Prelude.{◌≡◌};
ghost use Rattle.number_line.specs.Ranges.{IsCanonical};
ghost use Rattle.range_map.specs.Merging.{ending_from};
ghost use Rattle.range_map.specs.Set.{all_in_numbers};

use crate::range::Range;
use element_core::{Element, is_below};

// How many ranges are passed over one by one before a search.
const FEW: usize = 8;

// Returns the ranges that end at `start` or behind it. O(log n) time for n ranges, no memory.
fn search_from<T: Element>(ranges: &[Range<T>], start: T) -> &[Range<T>]
    requires { IsCanonical T.numbers.least T.numbers.greatest
        (all_in_numbers T.numbers ranges.now) }
    ensures { all_in_numbers T.numbers result.now
        ≡ ending_from (T.numbers.number start) (all_in_numbers T.numbers ranges.now) }
{
    let place = ranges.partition_point(|range| is_below(range.end(), start));
    &ranges[place..]
}

// Returns the same ranges. Passes over the first few of the others one by one, before it searches:
// O(k) time for k others where they are few, and O(log n) else, no memory.
fn walk_from<T: Element>(ranges: &[Range<T>], start: T) -> &[Range<T>]
    requires { IsCanonical T.numbers.least T.numbers.greatest
        (all_in_numbers T.numbers ranges.now) }
    ensures { all_in_numbers T.numbers result.now
        ≡ ending_from (T.numbers.number start) (all_in_numbers T.numbers ranges.now) }
{
    let mut rest = ranges;
    for _ in 0..FEW {
        let Some((first, others)) = rest.split_first() else {
            return rest;
        };
        if !is_below(first.end(), start) {
            return rest;
        }
        rest = others;
    }
    search_from(rest, start)
}

// Returns the ranges of `all` that end at `start` or behind it, where `rest` are those that end at
// `last` or behind it. Goes on from `rest` where `start` isn't below `last`.
pub(crate) fn ranges_from<'a, T: Element>(
    all: &'a [Range<T>],
    rest: &'a [Range<T>],
    last: T,
    start: T,
) -> &'a [Range<T>]
    requires canonical { IsCanonical T.numbers.least T.numbers.greatest
        (all_in_numbers T.numbers all.now) }
    requires rest { all_in_numbers T.numbers rest.now
        ≡ ending_from (T.numbers.number last) (all_in_numbers T.numbers all.now) }
    ensures { all_in_numbers T.numbers result.now
        ≡ ending_from (T.numbers.number start) (all_in_numbers T.numbers all.now) }
{
    if is_below(start, last) {
        search_from(all, start)
    } else {
        walk_from(rest, start)
    }
}
