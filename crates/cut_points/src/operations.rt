//! The members of just one of two sets, by cuts, and those of the left one alone.
ghost use Rattle.std.specs.Prelude.{◌≡◌, ◌&&◌, not, IfOk};
ghost use Rattle.number_line.specs.Ranges.{holds, IsCanonical, xor};
ghost use Rattle.range_map.specs.Range.{EachNumber};

use crate::convert::range_before;
use crate::cuts_left::{CutsLeft, take_lesser};
use element_core::{Element, NoMemory};
use range_map::RangeSet;
use std::alloc::Global;

/// Returns the set of the values that are members of just one of the two sets. Its cuts are those
/// that just one of them has. O(n + m) time for n and m ranges, and memory for the result alone.
pub fn symmetric_difference<T: Element>(
    alloc: Global,
    left: &RangeSet<T>,
    right: &RangeSet<T>,
) -> Result<RangeSet<T>, NoMemory>
    ensures canonical { IfOk result (IsCanonical T.numbers.least T.numbers.greatest) }
    ensures members { IfOk result (λ set. EachNumber T.numbers
        (λ x. holds set x ≡ xor (holds left.now x) (holds right.now x))) }
{
    // Each range has two cuts at most, and each range of the result but the last takes two.
    let most = left.num_ranges().saturating_add(right.num_ranges());
    let mut ranges = Vec::with_capacity(alloc, most)?;
    let mut left_cuts = CutsLeft::of(left);
    let mut right_cuts = CutsLeft::of(right);
    while let Some(start) = take_lesser(&mut left_cuts, &mut right_cuts) {
        let after = take_lesser(&mut left_cuts, &mut right_cuts);
        ranges.push(range_before(start, after))?;
    }
    Ok(RangeSet::from_canonical(ranges))
}

/// Returns the set of the members of `left` that aren't members of `right`. O(n + m) time for n and
/// m ranges, and memory: it negates `right` and intersects.
pub fn difference<T: Element>(
    alloc: Global,
    left: &RangeSet<T>,
    right: &RangeSet<T>,
) -> Result<RangeSet<T>, NoMemory>
    ensures canonical { IfOk result (IsCanonical T.numbers.least T.numbers.greatest) }
    ensures members { IfOk result (λ set. EachNumber T.numbers
        (λ x. holds set x ≡ (holds left.now x && not (holds right.now x)))) }
{
    let others = right.negated(alloc)?;
    let set = left.intersection(alloc, &others)?;
    Ok(set)
}
