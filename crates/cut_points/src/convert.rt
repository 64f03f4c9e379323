//! From a set to its cuts and back, and membership by cuts.
ghost use Rattle.std.specs.Prelude.{◌≡◌, ◌<ℤ◌, int_le, IfOk, OnOk, IfSome};
ghost use Rattle.std.specs.Prelude.{[], ◌∷◌, ◌++◌, option_map};
ghost use Rattle.std.specs.List.{AllByRecursion};
ghost use Rattle.std.specs.Option.{option_to_list};
ghost use Rattle.number_line.specs.Ranges.{IsCanonical};
ghost use Rattle.range_map.specs.Range.{IsRange, in_numbers};
ghost use Rattle.range_map.specs.Sweep.{numbers_of};
ghost use Rattle.cut_points.specs.Cuts.{IsAscending, cuts as list_cuts, from_cuts, parity};

use element_core::{Element, NoMemory, is_below};
use range_map::{Range, RangeSet};
use sorted_vector_set::SortedVectorSet;
use std::alloc::Global;

// Puts `cut`, which is above all others, behind those kept.
pub(crate) fn push_cut<T: Element>(kept: &mut SortedVectorSet<T>, cut: T) -> Result<(), NoMemory>
    requires values { AllByRecursion T.numbers.IsValue kept.old.items }
    requires ascending { IsAscending T.numbers.least T.numbers.greatest
        (numbers_of T.numbers kept.old.items ++ T.numbers.number cut ∷ []) }
    ensures values { OnOk result (AllByRecursion T.numbers.IsValue kept.new.items) }
    ensures numbers { OnOk result (numbers_of T.numbers kept.new.items
        ≡ numbers_of T.numbers kept.old.items ++ T.numbers.number cut ∷ []) }
{
    cut.in_type();
    match kept.insert(cut) {
        Ok(_) => Ok(()),
        Err(_) => Err(NoMemory),
    }
}

// Puts the cuts of `range`, which are above all others, behind those kept.
fn push_cuts<T: Element>(kept: &mut SortedVectorSet<T>, range: Range<T>) -> Result<(), NoMemory>
    requires values { AllByRecursion T.numbers.IsValue kept.old.items }
    requires ascending { IsAscending T.numbers.least T.numbers.greatest
        (numbers_of T.numbers kept.old.items ++ list_cuts T.numbers.greatest
        (in_numbers T.numbers range ∷ [])) }
    ensures values { OnOk result (AllByRecursion T.numbers.IsValue kept.new.items) }
    ensures numbers { OnOk result (numbers_of T.numbers kept.new.items
        ≡ numbers_of T.numbers kept.old.items ++ list_cuts T.numbers.greatest
        (in_numbers T.numbers range ∷ [])) }
{
    match range.end().successor() {
        Some(after) => {
            push_cut(kept, range.start())?;
            push_cut(kept, after)
        }
        None => push_cut(kept, range.start()),
    }
}

/// Returns the cuts of `set`, ascending: the first value of each range, and the value behind the
/// last one of each where the type has one. O(n) time for n ranges, and memory for 2n cuts.
pub fn cuts<T: Element>(alloc: Global, set: &RangeSet<T>) -> Result<SortedVectorSet<T>, NoMemory>
    ensures numbers { IfOk result (λ found. numbers_of T.numbers found.items
        ≡ list_cuts T.numbers.greatest set.now) }
    ensures values { IfOk result (λ found. AllByRecursion T.numbers.IsValue found.items) }
{
    let mut kept = SortedVectorSet::with_capacity(alloc, set.num_ranges().saturating_mul(2))?;
    for range in set.ranges() {
        push_cuts(&mut kept, range)?;
    }
    Ok(kept)
}

// Does nothing. Its contract tells of the items of a list that each is a value of its type.
pub(crate) fn are_values<T: Element>(list: &[T])
    ensures { AllByRecursion T.numbers.IsValue list.now }
{
    for value in list {
        value.in_type();
    }
}

// Returns the range from `start` to below `after`, or to the greatest value where there is none.
pub(crate) fn range_before<T: Element>(start: T, after: Option<T>) -> Range<T>
    requires { IfSome after (λ cut. T.numbers.number start <ℤ T.numbers.number cut) }
    ensures ends { in_numbers T.numbers result ∷ [] ≡ from_cuts T.numbers.greatest
        (T.numbers.number start ∷ option_to_list (option_map T.numbers.number after)) }
    ensures range { IsRange T.numbers result }
{
    start.in_type();
    let Some(cut) = after else {
        return Range::new(start, T::max_value());
    };
    match cut.predecessor() {
        Some(end) => Range::new(start, end),
        // A cut above `start` isn't the least value, so this arm is never run.
        None => Range::single(start),
    }
}

/// Returns the one set whose cuts are these values, which ascend, as `from_cuts` makes it of a
/// sorted set. O(n) time for n cuts, and memory.
pub fn from_cut_slice<T: Element>(alloc: Global, list: &[T]) -> Result<RangeSet<T>, NoMemory>
    requires { IsAscending T.numbers.least T.numbers.greatest (numbers_of T.numbers list.now) }
    ensures { IfOk result (λ set.
        set ≡ from_cuts T.numbers.greatest (numbers_of T.numbers list.now)) }
{
    // Each range of the result but the last takes two cuts.
    let mut ranges = Vec::with_capacity(alloc, list.len().div_ceil(2))?;
    let mut rest = list.iter();
    while let Some(start) = rest.next() {
        let after = rest.next().copied();
        ranges.push(range_before(*start, after))?;
    }
    Ok(RangeSet::from_canonical(ranges))
}

/// Returns the one set whose cuts are these values: each cut begins a range or ends one, in turn,
/// and the last range goes to the greatest value of the type where no cut ends it. O(n) time for n
/// cuts, and memory.
pub fn from_cuts<T: Element>(
    alloc: Global,
    cuts: &SortedVectorSet<T>,
) -> Result<RangeSet<T>, NoMemory>
    ensures canonical { IfOk result (IsCanonical T.numbers.least T.numbers.greatest) }
    ensures cuts { IfOk result (λ set. list_cuts T.numbers.greatest set
        ≡ numbers_of T.numbers cuts.now.items) }
{
    let list = cuts.iter().as_slice();
    are_values(list);
    let set = from_cut_slice(alloc, list)?;
    Ok(set)
}

fn is_at_most<T: Element>(cut: T, x: T) -> bool
    ensures { result ≡ int_le (T.numbers.number cut) (T.numbers.number x) }
{
    !is_below(x, cut)
}

/// Returns whether `x` is a member of the set with these cuts: whether the count of cuts at most
/// `x` is odd. Finds the count by binary search, in O(log n) comparisons for n cuts, after one pass
/// over the cuts that does nothing with each. Takes no memory.
pub fn contains_by_cuts<T: Element>(cuts: &SortedVectorSet<T>, x: T) -> bool
    ensures { result ≡ parity (numbers_of T.numbers cuts.now.items) (T.numbers.number x) }
{
    let list = cuts.iter().as_slice();
    are_values(list);
    list.partition_point(|cut| is_at_most(*cut, x)) % 2 == 1
}
