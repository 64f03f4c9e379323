//! What no contract shows: that the calls succeed where memory suffices, and that the contracts say
//! what is meant.
use crate::callers::{between, collected, first_and_rest, listed, two_runs};
use element_core::{Element, NoMemory};
use range_map::{Range, RangeSet};
use std::alloc::Global;
use std::cmp::Ordering;
use std::hash::{DefaultHasher, Hash, Hasher};
use std::process::Abort;
use std::test::Fail;

// The set of the numbers in any of the ranges; ranges whose start is greater than their end are
// left out.
fn set_of(alloc: Global, ranges: &[(i64, i64)]) -> Result<RangeSet<i64>, NoMemory> {
    let mut set = RangeSet::new(alloc);
    for (start, end) in ranges {
        if *start <= *end {
            let range = RangeSet::from_range(alloc, Range::new(*start, *end))?;
            set = set.union(alloc, &range)?;
        }
    }
    Ok(set)
}

fn ends_of(alloc: Global, set: &RangeSet<i64>) -> Result<Vec<(i64, i64)>, NoMemory> {
    let mut ends = Vec::new(alloc);
    for range in set.ranges() {
        ends.push((range.start(), range.end()))?;
    }
    Ok(ends)
}

fn hash_of<T: Hash>(value: &T) -> u64 {
    let mut state = DefaultHasher::new();
    value.hash(&mut state);
    state.finish()
}

fn empty_and_full<T: Element>(rt: &impl Abort, alloc: Global) -> Result<(), NoMemory> {
    let empty = RangeSet::<T>::new(alloc);
    let full = RangeSet::<T>::full(alloc)?;
    assert!(rt; empty.is_empty() && empty.num_ranges() == 0);
    assert!(rt; !full.is_empty() && full.num_ranges() == 1);
    assert!(rt; full.contains(T::min_value()) && full.contains(T::max_value()));
    assert!(rt; !empty.contains(T::min_value()) && !empty.contains(T::max_value()));
    assert!(rt; full.negated(alloc)? == empty && empty.negated(alloc)? == full);
    Ok(())
}

// `others` holds all values but `one`, which is the least or the greatest.
fn all_but_one<T: Element>(
    rt: &impl Abort,
    alloc: Global,
    others: &RangeSet<T>,
    one: T,
) -> Result<(), NoMemory> {
    let only_one = RangeSet::single(alloc, one)?;
    assert!(rt; only_one.contains(one) && !others.contains(one));
    assert!(rt; others.negated(alloc)? == only_one && only_one.negated(alloc)? == *others);
    assert!(rt; others.union(alloc, &only_one)? == RangeSet::full(alloc)?);
    assert!(rt; only_one.union(alloc, others)? == RangeSet::full(alloc)?);
    assert!(rt; others.intersection(alloc, &only_one)?.is_empty());
    Ok(())
}

fn reaches_both_ends<T: Element>(rt: &impl Abort, alloc: Global) -> Result<(), NoMemory> {
    empty_and_full::<T>(rt, alloc)?;
    let least = T::min_value();
    let greatest = T::max_value();
    let (Some(after), Some(before)) = (least.successor(), greatest.predecessor()) else {
        assert!(rt; false);
        return Ok(());
    };
    after.in_type();
    before.in_type();
    let but_greatest = RangeSet::from_range(alloc, Range::new(least, before))?;
    all_but_one(rt, alloc, &but_greatest, greatest)?;
    let but_least = RangeSet::from_range(alloc, Range::new(after, greatest))?;
    all_but_one(rt, alloc, &but_least, least)
}

#[test]
fn sets_are_exact_at_both_ends_of_each_type(rt: HostRuntime) -> Result<(), Fail> {
    let alloc = rt.alloc();
    reaches_both_ends::<i8>(&rt, alloc)?;
    reaches_both_ends::<i16>(&rt, alloc)?;
    reaches_both_ends::<i32>(&rt, alloc)?;
    reaches_both_ends::<i64>(&rt, alloc)?;
    reaches_both_ends::<i128>(&rt, alloc)?;
    reaches_both_ends::<isize>(&rt, alloc)?;
    reaches_both_ends::<u8>(&rt, alloc)?;
    reaches_both_ends::<u16>(&rt, alloc)?;
    reaches_both_ends::<u32>(&rt, alloc)?;
    reaches_both_ends::<u64>(&rt, alloc)?;
    reaches_both_ends::<u128>(&rt, alloc)?;
    reaches_both_ends::<usize>(&rt, alloc)?;
    Ok(())
}

#[test]
fn bytes_up_to_254_and_255_are_all_bytes(rt: HostRuntime) -> Result<(), Fail> {
    let below = RangeSet::<u8>::from_range(rt.alloc(), Range::new(0, 254))?;
    let last = RangeSet::<u8>::single(rt.alloc(), 255)?;
    assert!(rt; below.union(rt.alloc(), &last)? == RangeSet::full(rt.alloc())?);
    assert!(rt; below.negated(rt.alloc())? == last);
    assert!(rt; last.negated(rt.alloc())? == below);
    Ok(())
}

#[test]
fn union_joins_ranges_that_overlap_or_touch(rt: HostRuntime) -> Result<(), Fail> {
    let rows = [
        ([(1, 3), (1, 0)], [(4, 6), (1, 0)], [(1, 6)].as_slice()),
        ([(4, 6), (1, 0)], [(1, 3), (1, 0)], [(1, 6)].as_slice()),
        ([(1, 5), (1, 0)], [(4, 8), (1, 0)], [(1, 8)].as_slice()),
        (
            [(1, 3), (1, 0)],
            [(5, 6), (1, 0)],
            [(1, 3), (5, 6)].as_slice(),
        ),
        ([(1, 9), (1, 0)], [(3, 4), (6, 7)], [(1, 9)].as_slice()),
        (
            [(1, 2), (10, 12)],
            [(3, 4), (9, 9)],
            [(1, 4), (9, 12)].as_slice(),
        ),
        (
            [(i64::MIN, -1), (1, i64::MAX)],
            [(0, 0), (1, 0)],
            [(i64::MIN, i64::MAX)].as_slice(),
        ),
        (
            [(1, 0), (1, 0)],
            [(7, 7), (9, 9)],
            [(7, 7), (9, 9)].as_slice(),
        ),
    ];
    for (left, right, want) in rows {
        let left = set_of(rt.alloc(), left.as_slice())?;
        let right = set_of(rt.alloc(), right.as_slice())?;
        let both = left.union(rt.alloc(), &right)?;
        assert_eq!(rt; ends_of(rt.alloc(), &both)?.as_slice(), want);
        assert_eq!(rt; both.num_ranges(), want.len());
    }
    Ok(())
}

#[test]
fn intersection_keeps_what_both_hold(rt: HostRuntime) -> Result<(), Fail> {
    let rows = [
        ([(1, 5), (1, 0)], [(4, 8), (1, 0)], [(4, 5)].as_slice()),
        ([(1, 3), (1, 0)], [(3, 6), (1, 0)], [(3, 3)].as_slice()),
        ([(1, 3), (1, 0)], [(4, 6), (1, 0)], [].as_slice()),
        (
            [(1, 10), (1, 0)],
            [(2, 3), (9, 12)],
            [(2, 3), (9, 10)].as_slice(),
        ),
        (
            [(1, 4), (6, 9)],
            [(2, 4), (7, 9)],
            [(2, 4), (7, 9)].as_slice(),
        ),
        (
            [(i64::MIN, i64::MAX), (1, 0)],
            [(i64::MIN, 3), (i64::MAX, i64::MAX)],
            [(i64::MIN, 3), (i64::MAX, i64::MAX)].as_slice(),
        ),
        ([(1, 0), (1, 0)], [(7, 7), (9, 9)], [].as_slice()),
    ];
    for (left, right, want) in rows {
        let left = set_of(rt.alloc(), left.as_slice())?;
        let right = set_of(rt.alloc(), right.as_slice())?;
        let both = left.intersection(rt.alloc(), &right)?;
        assert_eq!(rt; ends_of(rt.alloc(), &both)?.as_slice(), want);
        assert!(rt; right.intersection(rt.alloc(), &left)? == both);
    }
    Ok(())
}

#[test]
fn negation_keeps_the_gaps(rt: HostRuntime) -> Result<(), Fail> {
    let rows = [
        (
            [(1, 3), (7, 9)],
            [(i64::MIN, 0), (4, 6), (10, i64::MAX)].as_slice(),
        ),
        ([(i64::MIN, 3), (5, i64::MAX)], [(4, 4)].as_slice()),
        (
            [(i64::MIN, i64::MAX - 1), (1, 0)],
            [(i64::MAX, i64::MAX)].as_slice(),
        ),
        (
            [(i64::MIN + 1, i64::MAX), (1, 0)],
            [(i64::MIN, i64::MIN)].as_slice(),
        ),
    ];
    for (ranges, want) in rows {
        let set = set_of(rt.alloc(), ranges.as_slice())?;
        let negated = set.negated(rt.alloc())?;
        assert_eq!(rt; ends_of(rt.alloc(), &negated)?.as_slice(), want);
        assert!(rt; negated.negated(rt.alloc())? == set);
    }
    Ok(())
}

#[test]
fn membership_changes_at_the_ends_of_ranges(rt: HostRuntime) -> Result<(), Fail> {
    let set = set_of(
        rt.alloc(),
        [(i64::MIN, -5), (1, 3), (5, 5), (9, i64::MAX)].as_slice(),
    )?;
    let rows = [
        (i64::MIN, true),
        (-5, true),
        (-4, false),
        (0, false),
        (1, true),
        (3, true),
        (4, false),
        (5, true),
        (6, false),
        (8, false),
        (9, true),
        (i64::MAX, true),
    ];
    for (value, want) in rows {
        assert_eq!(rt; set.contains(value), want, "at {value}");
    }
    Ok(())
}

#[test]
fn range_calls_at_both_ends(rt: HostRuntime) {
    let full = Range::<i64>::full();
    let low = Range::new(i64::MIN, 3);
    let high = Range::new(3, i64::MAX);
    assert!(rt; full.start() == i64::MIN && full.end() == i64::MAX);
    assert!(rt; low.contains(i64::MIN) && low.contains(3) && !low.contains(4));
    assert!(rt; low.intersects(&high) && low.intersection(&high) == Some(Range::single(3)));
    assert!(rt; !low.intersects(&Range::new(4, 6)) && low.intersection(&Range::new(4, 6)) == None);
    assert!(rt; low.cover(&high) == full);
    assert!(rt; Range::<i64>::single(7).cover(&Range::single(2)) == Range::new(2, 7));
    assert!(rt; high.cmp_element(2) == Ordering::Greater);
    assert!(rt; high.cmp_element(3) == Ordering::Equal);
    assert!(rt; low.cmp_element(3) == Ordering::Equal);
    assert!(rt; low.cmp_element(4) == Ordering::Less);
}

#[test]
fn ranges_are_ordered_by_start_then_end(rt: HostRuntime) {
    let range = Range::<i32>::new(2, 5);
    assert!(rt; range.cmp(&Range::new(1, 9)) == Ordering::Greater);
    assert!(rt; range.cmp(&Range::new(2, 4)) == Ordering::Greater);
    assert!(rt; range.cmp(&Range::new(2, 5)) == Ordering::Equal);
    assert!(rt; range.cmp(&Range::new(2, 6)) == Ordering::Less);
    assert!(rt; range < Range::new(3, 3));
    assert!(rt; hash_of(&range) == hash_of(&Range::<i32>::new(2, 5)));
}

#[test]
fn equal_sets_hash_alike(rt: HostRuntime) -> Result<(), Fail> {
    let left = set_of(rt.alloc(), [(1, 3), (4, 6)].as_slice())?;
    let right = set_of(rt.alloc(), [(2, 6), (1, 1)].as_slice())?;
    let other = set_of(rt.alloc(), [(1, 3), (5, 6)].as_slice())?;
    assert!(rt; left == right && left != other);
    assert_eq!(rt; hash_of(&left), hash_of(&right));
    assert!(rt; left.try_clone(rt.alloc())? == left);
    assert!(rt; other.try_clone(rt.alloc())? == other);
    Ok(())
}

#[test]
fn ranges_come_in_order_and_then_none(rt: HostRuntime) -> Result<(), Fail> {
    let set = two_runs(rt.alloc())?;
    let mut ranges = set.ranges();
    assert!(rt; ranges.size_hint() == (2, Some(2)) && ranges.len() == 2);
    assert!(rt; ranges.next() == Some(Range::new(1, 5)));
    let rest = ranges.clone()?;
    assert!(rt; ranges.next() == Some(Range::new(8, 9)));
    assert!(rt; ranges.next() == None && ranges.next() == None);
    assert!(rt; rest.len() == 1 && ranges.len() == 0);
    let want = [Range::<i64>::new(1, 5), Range::new(8, 9)];
    assert!(rt; listed(rt.alloc(), &set)?.as_slice() == want.as_slice());
    assert!(rt; first_and_rest(rt.alloc(), &set)?.as_slice() == want.as_slice());
    assert!(rt; collected(rt.alloc(), &set)?.as_slice() == want.as_slice());
    Ok(())
}

#[test]
fn debug_is_written(rt: HostRuntime) -> Result<(), Fail> {
    let set = two_runs(rt.alloc())?;
    let range = Range::<i64>::single(3);
    let ranges = set.ranges();
    assert!(rt; format!(in rt.alloc(); "{range:?}")?.len() > 0);
    assert!(rt; format!(in rt.alloc(); "{set:?}")?.len() > 0);
    assert!(rt; format!(in rt.alloc(); "{ranges:?}")?.len() > 0);
    Ok(())
}

#[test]
fn two_values_in_order_make_a_range(rt: HostRuntime) {
    assert!(&rt; between(3u8, 5) == Some(Range::new(3, 5)));
    assert!(&rt; between(5u8, 5) == Some(Range::single(5)));
    assert!(&rt; between(i64::MIN, i64::MAX) == Some(Range::full()));
    assert!(&rt; between(5u8, 4).is_none());
}
