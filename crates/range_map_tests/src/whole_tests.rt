//! What no contract shows of counts, members and sets of all but some: that the calls succeed where
//! memory suffices, and that the contracts say what is meant.
use crate::whole_callers::{
    cancel, day_by_day, free_days, hand_over, in_season, lets_in, shut_but,
};
use element_core::{Element, NoMemory};
use range_map::{Range, RangeMap, RangeSet};
use std::alloc::Global;
use std::process::Abort;
use std::test::Fail;

fn map_of(alloc: Global, rows: &[(u8, u8, u8)]) -> Result<RangeMap<u8, u8>, NoMemory> {
    let mut pairs = Vec::new(alloc);
    for (start, end, value) in rows {
        if *start <= *end {
            pairs.push((Range::new(*start, *end), *value))?;
        }
    }
    match RangeMap::try_from_iter(alloc, pairs) {
        Ok(map) => Ok(map),
        Err(_) => Err(NoMemory),
    }
}

fn fullness<T: Element>(rt: &impl Abort, alloc: Global) -> Result<(), NoMemory> {
    let full = RangeSet::<T>::full(alloc)?;
    let but_least = all_but(alloc, T::min_value())?;
    let but_greatest = all_but(alloc, T::max_value())?;
    assert!(rt; full.is_full() && full.negated(alloc)?.is_empty());
    assert!(rt; !but_least.is_full() && but_least.num_ranges() == 1);
    assert!(rt; !but_greatest.is_full() && but_greatest.num_ranges() == 1);
    assert!(rt; !but_least.contains(T::min_value()) && but_least.contains(T::max_value()));
    assert!(rt; but_greatest.contains(T::min_value()) && !but_greatest.contains(T::max_value()));
    Ok(())
}

// The set of all values but one, which is that of `except` and of `negated`.
fn all_but<T: Element>(alloc: Global, x: T) -> Result<RangeSet<T>, NoMemory> {
    let set = RangeSet::single(alloc, x)?.negated(alloc)?;
    match RangeSet::except(alloc, [x, x].as_slice().iter().copied())? {
        Some(other) if other == set => Ok(set),
        _ => RangeSet::full(alloc),
    }
}

#[test]
fn full_at_both_ends_of_signed_types(rt: HostRuntime) -> Result<(), Fail> {
    fullness::<i8>(&rt, rt.alloc())?;
    fullness::<i16>(&rt, rt.alloc())?;
    fullness::<i32>(&rt, rt.alloc())?;
    fullness::<i64>(&rt, rt.alloc())?;
    fullness::<i128>(&rt, rt.alloc())?;
    fullness::<isize>(&rt, rt.alloc())?;
    Ok(())
}

#[test]
fn full_at_both_ends_of_unsigned_types(rt: HostRuntime) -> Result<(), Fail> {
    fullness::<u8>(&rt, rt.alloc())?;
    fullness::<u16>(&rt, rt.alloc())?;
    fullness::<u32>(&rt, rt.alloc())?;
    fullness::<u64>(&rt, rt.alloc())?;
    fullness::<u128>(&rt, rt.alloc())?;
    fullness::<usize>(&rt, rt.alloc())?;
    Ok(())
}

#[test]
fn members_are_counted_up_to_the_greatest_count(rt: HostRuntime) -> Result<(), Fail> {
    let alloc = rt.alloc();
    assert_eq!(rt; RangeSet::<i8>::full(alloc)?.num_elements(), 256);
    assert_eq!(rt; RangeSet::<i64>::full(alloc)?.num_elements(), usize::MAX);
    assert_eq!(rt; RangeSet::<u128>::full(alloc)?.num_elements(), usize::MAX);
    assert_eq!(rt; RangeSet::<u8>::new(alloc).num_elements(), 0);
    Ok(())
}

#[test]
fn all_but_falling_values_is_none(rt: HostRuntime) -> Result<(), Fail> {
    let rows = [[1, 3, 2], [i32::MAX, i32::MAX - 1, i32::MAX], [0, 0, -1]];
    for values in rows {
        let set = RangeSet::except(rt.alloc(), values.as_slice().iter().copied())?;
        assert!(rt; set.is_none());
    }
    Ok(())
}

#[test]
fn all_but_values_in_order(rt: HostRuntime) -> Result<(), Fail> {
    let alloc = rt.alloc();
    let none = RangeSet::<i32>::except(alloc, [].as_slice().iter().copied())?;
    assert!(rt; none == Some(RangeSet::full(alloc)?));
    let five = RangeSet::except(alloc, [5, 5].as_slice().iter().copied())?;
    let single = RangeSet::single(alloc, 5)?;
    assert!(rt; five == Some(single.negated(alloc)?));
    Ok(())
}

#[test]
fn members_come_ascending(rt: HostRuntime) -> Result<(), Fail> {
    let alloc = rt.alloc();
    let low = RangeSet::from_range(alloc, Range::new(0u8, 2))?;
    let high = RangeSet::from_range(alloc, Range::new(254u8, u8::MAX))?;
    let set = low.union(alloc, &high)?;
    let members: Vec<u8> = set.elements().collect(alloc)?;
    assert_eq!(rt; members.as_slice(), [0, 1, 2, 254, 255].as_slice());
    Ok(())
}

#[test]
fn maps_that_have_every_key(rt: HostRuntime) -> Result<(), Fail> {
    let rows = [
        ([(0, 99, 1), (100, 255, 2)].as_slice(), true, 256),
        ([(0, 99, 1), (101, 255, 2)].as_slice(), false, 255),
        ([(0, 254, 1)].as_slice(), false, 255),
        ([(1, 255, 1)].as_slice(), false, 255),
        ([].as_slice(), false, 0),
    ];
    for (pairs, is_full, keys) in rows {
        let map = map_of(rt.alloc(), pairs)?;
        assert_eq!(rt; map.is_full(), is_full);
        assert_eq!(rt; map.num_keys(), keys);
    }
    Ok(())
}

#[test]
fn keys_and_copies_of_a_map(rt: HostRuntime) -> Result<(), Fail> {
    let alloc = rt.alloc();
    let map = map_of(alloc, [(1, 5, 1), (8, 12, 2)].as_slice())?;
    let keys = map.to_range_set(alloc)?;
    assert_eq!(rt; map.num_keys(), 10);
    assert!(rt; keys.num_ranges() == 2 && keys.num_elements() == 10);
    assert!(rt; keys.contains(5) && !keys.contains(6) && keys.contains(8) && !keys.contains(13));
    assert!(rt; map.try_clone(alloc)? == map);
    Ok(())
}

// The bookings of the days 3 to 5 and 6 to 9.
fn bookings(alloc: Global) -> Result<RangeMap<u16, u32>, NoMemory> {
    let mut pairs = Vec::new(alloc);
    pairs.push((Range::new(3, 5), 41))?;
    pairs.push((Range::new(6, 9), 42))?;
    match RangeMap::try_from_iter(alloc, pairs) {
        Ok(table) => Ok(table),
        Err(_) => Err(NoMemory),
    }
}

#[test]
fn days_that_are_free(rt: HostRuntime) -> Result<(), Fail> {
    let table = bookings(rt.alloc())?;
    let free = free_days(rt.alloc(), &table)?;
    assert!(rt; free.contains(0) && free.contains(2) && !free.contains(3) && !free.contains(9));
    assert!(rt; free.contains(10) && free.contains(u16::MAX) && free.num_ranges() == 2);
    Ok(())
}

#[test]
fn addresses_that_are_let_in(rt: HostRuntime) -> Result<(), Fail> {
    let shut = RangeSet::from_range(rt.alloc(), Range::new(10, 20))?;
    let rows = [(9, true), (10, false), (20, false), (21, true)];
    for (address, is_in) in rows {
        assert_eq!(rt; lets_in(&shut, address), is_in);
    }
    Ok(())
}

#[test]
fn bookings_that_are_handed_over_or_cancelled(rt: HostRuntime) -> Result<(), Fail> {
    let mut table = bookings(rt.alloc())?;
    hand_over(&mut table, 42, 41);
    assert!(rt; table.num_ranges() == 1 && table.get(9) == Some(&41));
    cancel(&mut table, 42);
    assert!(rt; table.num_keys() == 7);
    cancel(&mut table, 41);
    assert!(rt; table.is_empty());
    Ok(())
}

#[test]
fn bookings_of_a_season(rt: HostRuntime) -> Result<(), Fail> {
    let table = bookings(rt.alloc())?;
    let season = RangeSet::from_range(rt.alloc(), Range::new(5, 6))?;
    let some = in_season(rt.alloc(), &table, &season)?;
    let days = day_by_day(rt.alloc(), &some)?;
    assert_eq!(rt; days.as_slice(), [(5, 41), (6, 42)].as_slice());
    Ok(())
}

#[test]
fn addresses_that_are_let_in_alone(rt: HostRuntime) -> Result<(), Fail> {
    let mut allowed = Vec::new(rt.alloc());
    for address in [7, 7, u32::MAX] {
        allowed.push(address)?;
    }
    let shut = shut_but(rt.alloc(), allowed)?.expect(&rt, "the addresses don't fall");
    let rows = [(0, false), (7, true), (8, false), (u32::MAX, true)];
    for (address, is_in) in rows {
        assert_eq!(rt; lets_in(&shut, address), is_in);
    }
    Ok(())
}
