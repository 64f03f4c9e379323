//! What is written through the iterators that lend values stands in the map.

use crate::callers::set_all;
use sorted_vector_map::SortedVectorMap;
use std::alloc::Global;
use std::ops::Bound;
use std::test::Fail;

// The even keys from 0 to 38, each with a hundred times itself.
pub(crate) fn even_keys(alloc: Global) -> Result<SortedVectorMap<u32, u32>, Fail> {
    let mut map = SortedVectorMap::new(alloc);
    for half in 0u32..20 {
        map.insert(half * 2, half * 200)?;
    }
    Ok(map)
}

#[test]
fn every_value_is_doubled(rt: HostRuntime) -> Result<(), Fail> {
    let mut map = even_keys(rt.alloc())?;
    for (_, value) in map.iter_mut() {
        *value = value.wrapping_mul(2);
    }
    assert_eq!(rt; map.len(), 20);
    for half in 0u32..20 {
        let key = half * 2;
        assert_eq!(rt; map.get(&key).copied(), Some(half * 400), "at {key}");
    }
    set_all(&mut map, 7);
    assert_eq!(rt; map.len(), 20);
    assert_eq!(rt; map.get(&38).copied(), Some(7));
    Ok(())
}

#[test]
fn a_loop_over_the_map_writes_each_value(rt: HostRuntime) -> Result<(), Fail> {
    let mut map = SortedVectorMap::new(rt.alloc());
    map.insert('b', 0u32)?;
    map.insert('a', 0)?;
    for (key, value) in &mut map {
        *value = *key as u32;
    }
    assert_eq!(rt; map.get(&'a').copied(), Some(97));
    assert_eq!(rt; map.get(&'b').copied(), Some(98));
    Ok(())
}

#[test]
fn values_are_written_from_both_ends(rt: HostRuntime) -> Result<(), Fail> {
    let mut map = SortedVectorMap::new(rt.alloc());
    for key in [3u32, 1, 4, 2, 5] {
        map.insert(key, 'z')?;
    }
    let mut values = map.values_mut();
    assert_eq!(rt; values.size_hint(), (5, Some(5)));
    if let Some(first) = values.next() {
        *first = 'a';
    }
    if let Some(last) = values.next_back() {
        *last = 'e';
    }
    if let Some(second) = values.next() {
        *second = 'b';
    }
    assert_eq!(rt; values.size_hint(), (2, Some(2)));
    drop(values);
    for (key, value) in [(1u32, 'a'), (2, 'b'), (3, 'z'), (4, 'z'), (5, 'e')] {
        assert_eq!(rt; map.get(&key).copied(), Some(value), "at {key}");
    }
    Ok(())
}

#[test]
fn a_range_is_written_and_the_others_stay(rt: HostRuntime) -> Result<(), Fail> {
    let mut map = even_keys(rt.alloc())?;
    for (_, value) in map.range_mut(Bound::Included(&5), Bound::Included(&14)) {
        *value = 1;
    }
    for half in 0u32..20 {
        let key = half * 2;
        let value = if 3 <= half && half <= 7 {
            1
        } else {
            half * 200
        };
        assert_eq!(rt; map.get(&key).copied(), Some(value), "at {key}");
    }
    Ok(())
}

#[test]
fn what_is_left_counts_down(rt: HostRuntime) -> Result<(), Fail> {
    let mut map = SortedVectorMap::new(rt.alloc());
    for key in [1u32, 2, 3] {
        map.insert(key, 'x')?;
    }
    let mut pairs = map.iter_mut();
    assert_eq!(rt; pairs.len(), 3);
    assert!(rt; pairs.next().is_some_and(|pair| *pair.0 == 1));
    assert!(rt; pairs.next_back().is_some_and(|pair| *pair.0 == 3));
    assert_eq!(rt; pairs.len(), 1);
    assert_eq!(rt; pairs.size_hint(), (1, Some(1)));
    assert!(rt; pairs.next().is_some_and(|pair| *pair.0 == 2));
    assert!(rt; pairs.next_back().is_none());
    assert_eq!(rt; pairs.size_hint(), (0, Some(0)));
    Ok(())
}
