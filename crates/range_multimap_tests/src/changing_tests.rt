//! What no contract shows of multimaps that are changed, or cut by a set.
use crate::callers::drop_value;
use element_core::NoMemory;
use range_map::{Range, RangeSet};
use range_multimap::RangeMultiMap;
use std::alloc::Global;
use std::test::Fail;

fn map_of(alloc: Global, rows: &[(i32, i32, u8)]) -> Result<RangeMultiMap<i32, u8>, NoMemory> {
    let mut pairs = Vec::new(alloc);
    for (start, end, value) in rows {
        if *start <= *end {
            pairs.push((Range::new(*start, *end), *value))?;
        }
    }
    RangeMultiMap::try_from_iter(alloc, pairs)
}

fn rows_of(alloc: Global, map: &RangeMultiMap<i32, u8>) -> Result<Vec<(i32, i32, u8)>, NoMemory> {
    let mut rows = Vec::new(alloc);
    for pair in map {
        rows.push((pair.0.start(), pair.0.end(), pair.1))?;
    }
    Ok(rows)
}

#[test]
fn parts_come_pair_by_pair(rt: HostRuntime) -> Result<(), Fail> {
    let alloc = rt.alloc();
    let map = map_of(alloc, [(1, 5, 7), (3, 9, 8)].as_slice())?;
    let mut ranges = Vec::new(alloc);
    ranges.push(Range::new(6, 20))?;
    ranges.push(Range::new(4, 4))?;
    let set = RangeSet::try_from_iter(alloc, ranges)?;
    let common = map.intersection(alloc, &set)?;
    let want = [(4, 4, 7), (4, 4, 8), (6, 9, 8)];
    assert_eq!(rt; rows_of(alloc, &common)?.as_slice(), want.as_slice());
    Ok(())
}

#[test]
fn parts_at_both_ends_of_the_type(rt: HostRuntime) -> Result<(), Fail> {
    let alloc = rt.alloc();
    let map = map_of(alloc, [(i32::MIN, i32::MAX, 1), (5, 6, 2)].as_slice())?;
    let set = RangeSet::single(alloc, 5)?.negated(alloc)?;
    let common = map.intersection(alloc, &set)?;
    let want = [(i32::MIN, 4, 1), (6, i32::MAX, 1), (6, 6, 2)];
    assert_eq!(rt; rows_of(alloc, &common)?.as_slice(), want.as_slice());
    assert!(rt; map.intersection(alloc, &RangeSet::new(alloc))?.is_empty());
    Ok(())
}

#[test]
fn values_are_changed_once_a_pair(rt: HostRuntime) -> Result<(), Fail> {
    let alloc = rt.alloc();
    let mut map = map_of(alloc, [(3, 8, 20), (1, 5, 10), (3, 8, 11)].as_slice())?;
    let mut calls = [0u8; 4];
    let mut count = 0usize;
    map.map_values(|value: &u8| {
        if count < 4 {
            calls[count] = *value;
            count += 1;
        }
        *value / 10
    });
    let want = [(3, 8, 2), (1, 5, 1), (3, 8, 1)];
    assert_eq!(rt; rows_of(alloc, &map)?.as_slice(), want.as_slice());
    assert!(rt; count == 3 && calls == [20, 10, 11, 0]);
    Ok(())
}

#[test]
fn pairs_are_kept_by_one_call_each(rt: HostRuntime) -> Result<(), Fail> {
    let alloc = rt.alloc();
    let mut map = map_of(
        alloc,
        [(3, 8, 1), (1, 5, 2), (3, 8, 1), (0, 0, 3)].as_slice(),
    )?;
    let mut count = 0usize;
    map.retain_values(|value: &u8| {
        count = count.saturating_add(1);
        *value != 2
    });
    let want = [(3, 8, 1), (3, 8, 1), (0, 0, 3)];
    assert_eq!(rt; rows_of(alloc, &map)?.as_slice(), want.as_slice());
    assert!(rt; count == 4);
    Ok(())
}

#[test]
fn pairs_of_a_value_are_dropped(rt: HostRuntime) -> Result<(), Fail> {
    let alloc = rt.alloc();
    let mut map = map_of(alloc, [(3, 8, 1), (1, 5, 2), (3, 8, 1)].as_slice())?;
    drop_value(&mut map, 1);
    assert_eq!(rt; rows_of(alloc, &map)?.as_slice(), [(1, 5, 2)].as_slice());
    Ok(())
}
