//! What no contract shows: that the calls succeed where memory suffices, and that the contracts say
//! what is meant.
use crate::callers::{has_value, has_value_when_filled};
use blaze_joins::RangeMapBlaze;
use element_core::{Element, NoMemory};
use range_map::Range;
use std::alloc::Global;
use std::test::Fail;

// The list of a map, with the ends of each range.
pub(crate) fn listed<T: Element, V: Eq + Copy>(
    alloc: Global,
    map: &RangeMapBlaze<T, V>,
) -> Result<Vec<(T, T, V)>, NoMemory> {
    let mut list = Vec::new(alloc);
    for pair in map.range_values() {
        list.push((pair.0.start(), pair.0.end(), pair.1))?;
    }
    Ok(list)
}

// The map of pairs, each with the two ends of its range; those whose ends are turned are left out.
pub(crate) fn map_of(
    alloc: Global,
    pairs: &[(u8, u8, u8)],
) -> Result<RangeMapBlaze<u8, u8>, NoMemory> {
    let mut list = Vec::new(alloc);
    for pair in pairs {
        if pair.0 <= pair.1 {
            list.push((Range::new(pair.0, pair.1), pair.2))?;
        }
    }
    RangeMapBlaze::from_pairs(alloc, list)
}

#[test]
fn a_later_pair_wins(rt: HostRuntime) -> Result<(), Fail> {
    let alloc = rt.alloc();
    let map = map_of(alloc, [(1, 5, 1), (3, 4, 2)].as_slice())?;
    assert_eq!(rt;
        listed(alloc, &map)?.as_slice(),
        [(1, 2, 1), (3, 4, 2), (5, 5, 1)].as_slice()
    );
    assert!(rt; map.get(2) == Some(&1) && map.get(3) == Some(&2) && map.get(5) == Some(&1));
    assert!(rt; map.get(0).is_none() && map.get(6).is_none());
    Ok(())
}

#[test]
fn a_copy_is_equal(rt: HostRuntime) -> Result<(), Fail> {
    let alloc = rt.alloc();
    let map = map_of(alloc, [(1, 5, 1), (3, 4, 2)].as_slice())?;
    let copy = map.try_clone(alloc)?;
    assert!(rt; copy == map);
    assert!(rt; format!(in alloc; "{copy:?}")?.len() > 0);
    Ok(())
}

#[test]
fn one_value_at_every_key(rt: HostRuntime) -> Result<(), Fail> {
    let alloc = rt.alloc();
    let map: RangeMapBlaze<u8, u8> = RangeMapBlaze::universe_with(alloc, 1)?;
    assert_eq!(rt; listed(alloc, &map)?.as_slice(), [(0, 255, 1)].as_slice());
    assert!(rt; map.is_universal());
    Ok(())
}

#[test]
fn values_are_transformed_once_a_range(rt: HostRuntime) -> Result<(), Fail> {
    let alloc = rt.alloc();
    let map = map_of(alloc, [(1, 3, 10), (4, 6, 11), (8, 9, 20)].as_slice())?;
    let mut calls = [0u8; 4];
    let mut count = 0usize;
    let tens = map.transform_values(alloc, |value: &u8| {
        if count < 4 {
            calls[count] = *value;
            count += 1;
        }
        *value / 10
    })?;
    assert_eq!(rt;
        listed(alloc, &tens)?.as_slice(),
        [(1, 6, 1), (8, 9, 2)].as_slice()
    );
    assert!(rt; count == 3 && calls == [10, 11, 20, 0]);
    Ok(())
}

#[test]
fn touching_equal_values_join(rt: HostRuntime) -> Result<(), Fail> {
    let alloc = rt.alloc();
    let map = map_of(
        alloc,
        [(4, 9, 7), (1, 3, 7), (20, 20, 8), (19, 19, 7)].as_slice(),
    )?;
    assert_eq!(rt;
        listed(alloc, &map)?.as_slice(),
        [(1, 9, 7), (19, 19, 7), (20, 20, 8)].as_slice()
    );
    Ok(())
}

#[test]
fn smallest_and_largest_keys(rt: HostRuntime) -> Result<(), Fail> {
    let alloc = rt.alloc();
    let map = map_of(alloc, [(0, 255, 1), (255, 255, 2), (0, 0, 3)].as_slice())?;
    assert_eq!(rt;
        listed(alloc, &map)?.as_slice(),
        [(0, 0, 3), (1, 254, 1), (255, 255, 2)].as_slice()
    );
    assert!(rt; map.get(0) == Some(&3) && map.get(255) == Some(&2));
    assert!(rt; map.is_universal() && !map.is_empty());
    Ok(())
}

#[test]
fn gaps_are_filled(rt: HostRuntime) -> Result<(), Fail> {
    let alloc = rt.alloc();
    let map = map_of(alloc, [(1, 5, 7)].as_slice())?;
    assert!(rt; !map.is_universal());
    let filled = map.fill_gaps(alloc)?;
    assert_eq!(rt;
        listed(alloc, &filled)?.as_slice(),
        [(0, 0, None), (1, 5, Some(7)), (6, 255, None)].as_slice()
    );
    assert!(rt; filled.is_universal());
    Ok(())
}

#[test]
fn no_gap_at_the_ends(rt: HostRuntime) -> Result<(), Fail> {
    let alloc = rt.alloc();
    let map = map_of(alloc, [(0, 3, 1), (4, 5, 2), (9, 255, 1)].as_slice())?;
    let filled = map.fill_gaps(alloc)?;
    assert_eq!(rt;
        listed(alloc, &filled)?.as_slice(),
        [
            (0, 3, Some(1)),
            (4, 5, Some(2)),
            (6, 8, None),
            (9, 255, Some(1))
        ]
        .as_slice()
    );
    Ok(())
}

#[test]
fn the_empty_map_is_one_gap(rt: HostRuntime) -> Result<(), Fail> {
    let alloc = rt.alloc();
    let empty: RangeMapBlaze<u8, u8> = RangeMapBlaze::new(alloc);
    assert!(rt; empty.is_empty() && !empty.is_universal() && empty.get(0).is_none());
    let filled = empty.fill_gaps(alloc)?;
    assert_eq!(rt;
        listed(alloc, &filled)?.as_slice(),
        [(0, 255, None)].as_slice()
    );
    Ok(())
}

#[test]
fn maps_are_equal_by_their_values(rt: HostRuntime) -> Result<(), Fail> {
    let alloc = rt.alloc();
    let one = map_of(alloc, [(1, 3, 7), (4, 9, 7)].as_slice())?;
    let other = map_of(alloc, [(5, 9, 7), (1, 8, 7)].as_slice())?;
    let shorter = map_of(alloc, [(1, 8, 7)].as_slice())?;
    assert!(rt; one == other && one != shorter);
    Ok(())
}

#[test]
fn a_caller_asks_for_keys(rt: HostRuntime) -> Result<(), Fail> {
    let alloc = rt.alloc();
    let mut list = Vec::new(alloc);
    list.push((Range::new(i64::MIN, -1), 3))?;
    let map = RangeMapBlaze::from_pairs(alloc, list)?;
    assert!(rt; has_value(&map, i64::MIN) && has_value(&map, -1) && !has_value(&map, 0));
    assert!(rt;
        has_value_when_filled(alloc, &map, 0)? && has_value_when_filled(alloc, &map, i64::MAX)?
    );
    Ok(())
}
