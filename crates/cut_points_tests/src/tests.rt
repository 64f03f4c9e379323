//! What no contract shows: that the calls succeed where memory suffices, and cuts that people know.
use crate::callers::{added, changed};
use cut_points::{all_cuts, contains_by_cuts, cuts, difference, from_cuts, symmetric_difference};
use element_core::{Element, NoMemory};
use range_map::{Range, RangeSet};
use sorted_vector_set::SortedVectorSet;
use std::alloc::Global;
use std::process::Abort;
use std::test::Fail;

fn two_of<T: Element>(
    alloc: Global,
    first: Range<T>,
    second: Range<T>,
) -> Result<RangeSet<T>, NoMemory> {
    let mut ranges = Vec::with_capacity(alloc, 2)?;
    ranges.push(second)?;
    ranges.push(first)?;
    RangeSet::try_from_iter(alloc, ranges)
}

fn items_of<T: Element>(alloc: Global, cuts: &SortedVectorSet<T>) -> Result<Vec<T>, NoMemory> {
    let mut items = Vec::new(alloc);
    for cut in cuts {
        items.push(*cut)?;
    }
    Ok(items)
}

fn ends_of<T: Element>(alloc: Global, set: &RangeSet<T>) -> Result<Vec<(T, T)>, NoMemory> {
    let mut ends = Vec::new(alloc);
    for range in set.ranges() {
        ends.push((range.start(), range.end()))?;
    }
    Ok(ends)
}

#[test]
fn starts_and_successors_of_ends(rt: HostRuntime) -> Result<(), Fail> {
    let alloc = rt.alloc();
    let set = two_of(alloc, Range::new(1i64, 3), Range::new(6, 8))?;
    let found = cuts(alloc, &set)?;
    assert_eq!(rt;
        items_of(alloc, &found)?.as_slice(),
        [1, 4, 6, 9].as_slice()
    );
    let again = from_cuts(alloc, &found)?;
    assert!(rt; again == set);
    Ok(())
}

#[test]
fn cuts_of_many_ranges_come_once(rt: HostRuntime) -> Result<(), Fail> {
    let alloc = rt.alloc();
    let ranges = [
        Range::new(6, i64::MAX),
        Range::new(1, 5),
        Range::new(4, 8),
        Range::new(4, 5),
    ];
    let found = all_cuts(alloc, &ranges)?;
    assert_eq!(rt;
        items_of(alloc, &found)?.as_slice(),
        [1, 4, 6, 9].as_slice()
    );
    let none: [Range<i64>; 0] = [];
    assert!(rt; all_cuts(alloc, &none)?.is_empty());
    Ok(())
}

#[test]
fn no_cut_behind_the_greatest_value(rt: HostRuntime) -> Result<(), Fail> {
    let alloc = rt.alloc();
    let set = RangeSet::from_range(alloc, Range::new(5, i64::MAX))?;
    let found = cuts(alloc, &set)?;
    assert_eq!(rt; items_of(alloc, &found)?.as_slice(), [5].as_slice());
    let again = from_cuts(alloc, &found)?;
    assert_eq!(rt;
        ends_of(alloc, &again)?.as_slice(),
        [(5, i64::MAX)].as_slice()
    );
    Ok(())
}

#[test]
fn empty_and_full_sets(rt: HostRuntime) -> Result<(), Fail> {
    let alloc = rt.alloc();
    let none = cuts(alloc, &RangeSet::<u8>::new(alloc))?;
    assert!(rt; none.is_empty() && !contains_by_cuts(&none, 0) && !contains_by_cuts(&none, 255));
    assert!(rt; from_cuts(alloc, &none)?.is_empty());
    let all = cuts(alloc, &RangeSet::<u8>::full(alloc)?)?;
    assert_eq!(rt; items_of(alloc, &all)?.as_slice(), [0].as_slice());
    assert!(rt; contains_by_cuts(&all, 0) && contains_by_cuts(&all, 255));
    assert_eq!(rt;
        ends_of(alloc, &from_cuts(alloc, &all)?)?.as_slice(),
        [(0, 255)].as_slice()
    );
    Ok(())
}

// Membership of the set of the least and the greatest value alone.
fn ends_alone<T: Element>(rt: &impl Abort, alloc: Global) -> Result<(), NoMemory> {
    let least = T::min_value();
    let greatest = T::max_value();
    let set = two_of(alloc, Range::single(least), Range::single(greatest))?;
    let found = cuts(alloc, &set)?;
    assert!(rt; contains_by_cuts(&found, least) && contains_by_cuts(&found, greatest));
    if let Some(second) = least.successor() {
        assert!(rt; !contains_by_cuts(&found, second));
    }
    if let Some(last_but_one) = greatest.predecessor() {
        assert!(rt; !contains_by_cuts(&found, last_but_one));
    }
    Ok(())
}

#[test]
fn membership_at_the_ends_of_types(rt: HostRuntime) -> Result<(), Fail> {
    let alloc = rt.alloc();
    ends_alone::<u8>(&rt, alloc)?;
    ends_alone::<i64>(&rt, alloc)?;
    ends_alone::<u128>(&rt, alloc)?;
    Ok(())
}

#[test]
fn membership_around_cuts(rt: HostRuntime) -> Result<(), Fail> {
    let alloc = rt.alloc();
    let set = two_of(alloc, Range::new(1u8, 3), Range::new(6, 8))?;
    let found = cuts(alloc, &set)?;
    for (value, member) in [
        (0, false),
        (1, true),
        (3, true),
        (4, false),
        (5, false),
        (6, true),
        (8, true),
        (9, false),
        (255, false),
    ] {
        assert_eq!(rt; contains_by_cuts(&found, value), member, "at {value}");
    }
    Ok(())
}

#[test]
fn members_of_just_one_and_of_the_left_alone(rt: HostRuntime) -> Result<(), Fail> {
    let alloc = rt.alloc();
    let left = RangeSet::from_range(alloc, Range::new(1i64, 5))?;
    let right = RangeSet::from_range(alloc, Range::new(4, 8))?;
    let either = symmetric_difference(alloc, &left, &right)?;
    assert_eq!(rt;
        ends_of(alloc, &either)?.as_slice(),
        [(1, 3), (6, 8)].as_slice()
    );
    let alone = difference(alloc, &left, &right)?;
    assert_eq!(rt; ends_of(alloc, &alone)?.as_slice(), [(1, 3)].as_slice());
    assert!(rt; symmetric_difference(alloc, &left, &left)?.is_empty());
    Ok(())
}

#[test]
fn what_changed_between_two_lists(rt: HostRuntime) -> Result<(), Fail> {
    let alloc = rt.alloc();
    let before = two_of(alloc, Range::new(1u32, 4), Range::new(9, 9))?;
    let after = two_of(alloc, Range::new(3u32, 6), Range::new(9, 9))?;
    let changed = ends_of(alloc, &changed(alloc, &before, &after)?)?;
    assert_eq!(rt; changed.as_slice(), [(1, 2), (5, 6)].as_slice());
    let added = ends_of(alloc, &added(alloc, &before, &after)?)?;
    assert_eq!(rt; added.as_slice(), [(5, 6)].as_slice());
    Ok(())
}
