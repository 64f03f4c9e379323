//! What a caller learns: of two values in hand that they make a range, and of a set's ranges in a
//! loop over them, by the first and the rest, and as the whole list.
ghost use Rattle.std.specs.Prelude.{◌≡◌, ℤ, pos, ◌||◌, ◌≤ℤ◌, ◌<ℤ◌, IfOk, IfSome, IfNone};
ghost use Rattle.number_line.specs.Ranges.{lies_in, holds};
ghost use Rattle.range_map.specs.Set.{all_in_numbers};

use element_core::{Element, NoMemory, is_at_most};
use range_map::{Range, RangeSet};
use std::alloc::Global;

/// Returns the range between two values, or `None` where they aren't in order.
pub fn between<T: Element>(a: T, b: T) -> Option<Range<T>>
    ensures range { IfSome result (λ range. range ≡ (a, b)) }
    ensures turned { IfNone result (T.numbers.number b <ℤ T.numbers.number a) }
{
    if is_at_most(a, b) {
        Some(Range::new(a, b))
    } else {
        None
    }
}

/// At `i64` the numbers of a set are the values themselves.
pub fn two_runs(alloc: Global) -> Result<RangeSet<i64>, NoMemory>
    ensures { IfOk result
        (λ set. (x : ℤ) → holds set x ≡ (lies_in (pos 1, pos 5) x || lies_in (pos 8, pos 9) x)) }
{
    let small = RangeSet::from_range(alloc, Range::new(1, 5))?;
    let large = RangeSet::from_range(alloc, Range::new(8, 9))?;
    small.union(alloc, &large)
}

pub fn listed(alloc: Global, set: &RangeSet<i64>) -> Result<Vec<Range<i64>>, NoMemory>
    ensures { IfOk result (λ list. list.items ≡ set.now) }
{
    let mut list = Vec::with_capacity(alloc, set.num_ranges())?;
    for range in set.ranges() {
        list.push(range)?;
    }
    Ok(list)
}

pub fn first_and_rest(alloc: Global, set: &RangeSet<i64>) -> Result<Vec<Range<i64>>, NoMemory>
    ensures { IfOk result (λ list. list.items ≡ set.now) }
{
    let mut list = Vec::new(alloc);
    let mut ranges = set.ranges();
    if let Some(first) = ranges.next() {
        list.push(first)?;
    }
    for range in ranges {
        list.push(range)?;
    }
    Ok(list)
}

pub fn collected<T: Element>(alloc: Global, set: &RangeSet<T>) -> Result<Vec<Range<T>>, NoMemory>
    ensures { IfOk result (λ list. all_in_numbers T.numbers list.items ≡ set.now) }
{
    Ok(set.ranges().collect(alloc)?)
}
