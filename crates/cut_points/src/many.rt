//! The cuts of many ranges together.
ghost use Rattle.std.specs.Prelude.{◌≡◌, ℤ, [], ◌∷◌, ◌++◌, map, Some, IfOk, OnOk};
ghost use Rattle.std.specs.Iterator.Adapters.{once_item};
ghost use Rattle.std.specs.List.{AllByRecursion};
ghost use Rattle.std.specs.Ordering.{int_cmp};
ghost use Rattle.ordered_lists.specs.Lists.{has};
ghost use Rattle.ordered_lists.specs.Multiway.{IsMultiwayUnion};
ghost use Rattle.range_map.specs.Range.{in_numbers};
ghost use Rattle.range_map.specs.Set.{all_in_numbers};
ghost use Rattle.range_map.specs.Sweep.{numbers_of};
ghost use Rattle.cut_points.specs.Cuts.{IsAscending, cuts as list_cuts, cuts_alone};

use crate::convert::{are_values, push_cut};
use element_core::{Element, NoMemory};
use range_map::Range;
use sorted_iter::multiway_union;
use sorted_vector_set::SortedVectorSet;
use std::alloc::Global;
use std::iter::{Once, once};

// Puts the cuts of a range behind those listed.
fn push_cuts_of<T: Element>(list: &mut Vec<T>, range: Range<T>) -> Result<(), NoMemory>
    ensures { OnOk result (numbers_of T.numbers list.new.items
        ≡ numbers_of T.numbers list.old.items
        ++ list_cuts T.numbers.greatest (in_numbers T.numbers range ∷ [])) }
{
    match range.end().successor() {
        Some(after) => {
            list.push(range.start())?;
            list.push(after)?;
            Ok(())
        }
        None => {
            list.push(range.start())?;
            Ok(())
        }
    }
}

// The cuts of each range taken alone, range by range.
fn cuts_of_each<T: Element>(alloc: Global, ranges: &[Range<T>]) -> Result<Vec<T>, NoMemory>
    ensures { IfOk result (λ list. numbers_of T.numbers list.items
        ≡ cuts_alone T.numbers.greatest (all_in_numbers T.numbers ranges.now)) }
{
    let mut list = Vec::with_capacity(alloc, ranges.len().saturating_mul(2))?;
    for range in ranges {
        push_cuts_of(&mut list, *range)?;
    }
    Ok(list)
}

// A stream of each value alone.
fn streams_of<T: Element>(alloc: Global, values: &[T]) -> Result<Vec<Once<T>>, NoMemory>
    ensures { IfOk result (λ streams. map once_item streams.items
        ≡ map (λ value. Some value) values.now) }
{
    let mut streams = Vec::with_capacity(alloc, values.len())?;
    for value in values {
        streams.push(once(*value))?;
    }
    Ok(streams)
}

// Each of the values once, ascending.
fn union_of<T: Element>(alloc: Global, values: &[T]) -> Result<Vec<T>, NoMemory>
    ensures { IfOk result (λ all.
        IsMultiwayUnion T.cmp (map (λ value. value ∷ []) values.now) all.items) }
{
    let streams = streams_of(alloc, values)?;
    Ok(multiway_union(alloc, streams)?.collect(alloc)?)
}

// The set of values that ascend.
fn set_of_values<T: Element>(alloc: Global, values: &[T]) -> Result<SortedVectorSet<T>, NoMemory>
    requires { IsAscending T.numbers.least T.numbers.greatest (numbers_of T.numbers values.now) }
    ensures numbers { IfOk result (λ set.
        numbers_of T.numbers set.items ≡ numbers_of T.numbers values.now) }
    ensures values { IfOk result (λ set. AllByRecursion T.numbers.IsValue set.items) }
{
    let mut set = SortedVectorSet::with_capacity(alloc, values.len())?;
    for value in values {
        push_cut(&mut set, *value)?;
    }
    Ok(set)
}

/// Returns the values that are a cut of at least one of the ranges taken alone, ascending, each
/// once.
///
/// A range taken alone has its start as a cut, and the value behind its end where the type has one.
/// So 1..=5, 4..=8 and 6..=MAX have the cuts 1, 4, 6 and 9, and no range has none. It is the union
/// of the streams of these cuts, in O(n log n) for n ranges. It takes memory, and is refused where
/// there is none.
pub fn all_cuts<T: Element>(
    alloc: Global,
    ranges: &[Range<T>],
) -> Result<SortedVectorSet<T>, NoMemory>
    ensures members { IfOk result (λ found. (x : ℤ)
        → has int_cmp (numbers_of T.numbers found.items) x ≡ has int_cmp
        (cuts_alone T.numbers.greatest (all_in_numbers T.numbers ranges.now)) x) }
    ensures ascending { IfOk result (λ found.
        IsAscending T.numbers.least T.numbers.greatest (numbers_of T.numbers found.items)) }
    ensures values { IfOk result (λ found. AllByRecursion T.numbers.IsValue found.items) }
{
    let each = cuts_of_each(alloc, ranges)?;
    let all = union_of(alloc, &each)?;
    are_values(&each);
    are_values(&all);
    let found = set_of_values(alloc, &all)?;
    Ok(found)
}
