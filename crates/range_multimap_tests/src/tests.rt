//! What no contract shows: that the calls succeed where memory suffices, and that the contracts say
//! what is meant.
ghost use Rattle.std.specs.Prelude.{◌≡◌};

use crate::callers::push_pair;
use element_core::NoMemory;
use range_map::{Range, RangeMap};
use range_multimap::{Group, RangeMultiMap};
use std::alloc::{AllocError, Global};
use std::hash::{DefaultHasher, Hash, Hasher};
use std::test::Fail;

fn hash_of<T: Hash>(value: &T) -> u64 {
    let mut state = DefaultHasher::new();
    value.hash(&mut state);
    state.finish()
}

// The ends of each range of a map.
fn ends_of(alloc: Global, map: &RangeMap<i32, Group<u8>>) -> Result<Vec<(i32, i32)>, NoMemory> {
    let mut ends = Vec::new(alloc);
    for pair in map.ranges_values() {
        ends.push((pair.0.start(), pair.0.end()))?;
    }
    Ok(ends)
}

// The values at a key, or none.
fn values_at(map: &RangeMap<i32, Group<u8>>, key: i32) -> &[u8] {
    match map.get(key) {
        Some(group) => group.as_slice(),
        None => &[],
    }
}

fn low_and_high(alloc: Global) -> Result<RangeMultiMap<i32, u8>, NoMemory> {
    let mut map = RangeMultiMap::new(alloc);
    map.insert(Range::new(i32::MIN, 200), 5)?;
    map.insert(Range::new(100, i32::MAX), 10)?;
    Ok(map)
}

#[test]
fn overlapping_ranges_are_grouped(rt: HostRuntime) -> Result<(), Fail> {
    let alloc = rt.alloc();
    let map = low_and_high(alloc)?;
    let groups = map.group(alloc)?;
    assert_eq!(rt;
        ends_of(alloc, &groups)?.as_slice(),
        [(i32::MIN, 99), (100, 200), (201, i32::MAX)].as_slice()
    );
    assert_eq!(rt; values_at(&groups, 99), [5].as_slice());
    assert_eq!(rt; values_at(&groups, 100), [5, 10].as_slice());
    assert_eq!(rt; values_at(&groups, i32::MAX), [10].as_slice());
    Ok(())
}

#[test]
fn a_vector_is_taken_over(rt: HostRuntime) -> Result<(), Fail> {
    let mut list = Vec::new(rt.alloc());
    list.push((Range::new(i32::MIN, 200), 5))?;
    list.push((Range::new(100, i32::MAX), 10))?;
    assert!(rt; RangeMultiMap::from_vec(list) == low_and_high(rt.alloc())?);
    Ok(())
}

#[test]
fn equal_multimaps_and_groups(rt: HostRuntime) -> Result<(), Fail> {
    let alloc = rt.alloc();
    let map = low_and_high(alloc)?;
    let copy = map.try_clone(alloc)?;
    assert!(rt; copy == map && hash_of(&copy) == hash_of(&map) && copy.num_ranges() == 2);
    let groups = map.group(alloc)?;
    let middle = groups.get(150).expect(&rt, "150 has a group");
    let same = middle.try_clone(alloc)?;
    assert!(rt; same == *middle && hash_of(&same) == hash_of(middle));
    assert_eq!(rt; same.into_vec().as_slice(), [5, 10].as_slice());
    Ok(())
}

#[test]
fn values_come_in_list_order_and_as_often(rt: HostRuntime) -> Result<(), Fail> {
    let alloc = rt.alloc();
    let mut map = RangeMultiMap::new(alloc);
    assert!(rt; map.is_empty());
    map.insert(Range::new(3, 8), 9)?;
    map.insert(Range::new(1, 5), 7)?;
    map.insert(Range::new(2, 4), 9)?;
    assert!(rt; !map.is_empty() && map.num_ranges() == 3);
    let groups = map.group(alloc)?;
    assert_eq!(rt; values_at(&groups, 1), [7].as_slice());
    assert_eq!(rt; values_at(&groups, 2), [7, 9].as_slice());
    assert_eq!(rt; values_at(&groups, 4), [9, 7, 9].as_slice());
    assert_eq!(rt; values_at(&groups, 5), [9, 7].as_slice());
    assert!(rt; groups.get(0).is_none() && groups.get(9).is_none());
    Ok(())
}

#[test]
fn touching_equal_groups_join(rt: HostRuntime) -> Result<(), Fail> {
    let alloc = rt.alloc();
    let mut map = RangeMultiMap::new(alloc);
    push_pair(&mut map, Range::new(4, 6), 1)?;
    push_pair(&mut map, Range::new(1, 3), 1)?;
    push_pair(&mut map, Range::new(8, 9), 1)?;
    let groups = map.group(alloc)?;
    assert_eq!(rt;
        ends_of(alloc, &groups)?.as_slice(),
        [(1, 6), (8, 9)].as_slice()
    );
    Ok(())
}

#[test]
fn pairs_keep_their_order(rt: HostRuntime) -> Result<(), Fail> {
    let alloc = rt.alloc();
    let mut map = RangeMultiMap::new(alloc);
    map.insert(Range::new(3, 8), 9)?;
    map.insert(Range::new(1, 5), 7)?;
    let mut turned = RangeMultiMap::new(alloc);
    turned.insert(Range::new(1, 5), 7)?;
    turned.insert(Range::new(3, 8), 9)?;
    assert!(rt; map != turned);
    let mut values = Vec::new(alloc);
    for pair in map.ranges_values() {
        values.push((pair.0.start(), pair.1))?;
    }
    assert_eq!(rt; values.as_slice(), [(3, 9), (1, 7)].as_slice());
    Ok(())
}

/// A name whose letter counts, but not where it was written.
#[derive(Copy, Debug)]
struct Name {
    letter: u8,
    line: u8,
}

impl Clone for Name {
    ghost is_clone = { λ x y. y ≡ x };

    fn clone(&self) -> Result<Name, AllocError> {
        Ok(*self)
    }
}

impl PartialEq for Name {
    ghost use Rattle.std.specs.Prelude.{nat_eq};
    ghost use Rattle.std.specs.Cmp.{on_equiv, nat_eq_equiv, partial_equiv_from_equiv};

    ghost eq = { λ a b. nat_eq a.letter b.letter };

    ghost laws = { partial_equiv_from_equiv (on_equiv (λ name. name.letter) nat_eq_equiv) };

    fn eq(&self, other: &Name) -> bool {
        self.letter == other.letter
    }
}

impl Eq for Name {
    ghost use Rattle.std.specs.Cmp.{on_equiv, nat_eq_equiv};

    ghost laws = { on_equiv (λ name. name.letter) nat_eq_equiv };
}

#[test]
fn the_first_of_equal_touching_groups_stays(rt: HostRuntime) -> Result<(), Fail> {
    let mut map = RangeMultiMap::<u8, Name>::new(rt.alloc());
    for (start, end, line) in [(4, 255, 3), (0, 1, 1), (2, 3, 2)] {
        map.insert(Range::new(start, end), Name { letter: 7, line })?;
    }
    let groups = map.group(rt.alloc())?;
    assert!(rt; groups.num_ranges() == 1);
    let group = groups.get(255).expect(&rt, "every key has a group");
    assert!(rt; group.as_slice().first().map(|name| name.line) == Some(1));
    Ok(())
}

#[test]
fn multimaps_and_groups_are_shown(rt: HostRuntime) -> Result<(), Fail> {
    let alloc = rt.alloc();
    let map = low_and_high(alloc)?;
    let shown = format!(in alloc; "{map:?}")?;
    assert!(&rt; shown.as_str().contains("200") && shown.as_str().contains("10"));
    let groups = map.group(alloc)?;
    let group = groups.get(150).expect(&rt, "150 has a group");
    let shown = format!(in alloc; "{group:?}")?;
    assert!(&rt; shown.as_str().contains("[5, 10]"));
    Ok(())
}
