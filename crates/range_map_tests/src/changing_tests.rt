//! What no contract shows of maps that are changed, walked by key, or cut by a set.
ghost use Rattle.std.specs.Prelude.{◌≡◌};

use element_core::NoMemory;
use range_map::{Range, RangeMap, RangeSet};
use std::alloc::{AllocError, Global};
use std::test::Fail;

// The map of these starts, ends and values; want of memory stands for pairs that overlap.
fn map_of(alloc: Global, rows: &[(u8, u8, u8)]) -> Result<RangeMap<u8, u8>, NoMemory> {
    let mut pairs = Vec::new(alloc);
    for (start, end, value) in rows {
        if *start <= *end {
            pairs.push((Range::new(*start, *end), *value))?;
        }
    }
    match RangeMap::try_from_iter(alloc, pairs) {
        Ok(map) => Ok(map),
        Err(_) => Err(NoMemory),
    }
}

fn rows_of(alloc: Global, map: &RangeMap<u8, u8>) -> Result<Vec<(u8, u8, u8)>, NoMemory> {
    let mut rows = Vec::new(alloc);
    for pair in map.ranges_values() {
        rows.push((pair.0.start(), pair.0.end(), pair.1))?;
    }
    Ok(rows)
}

// The set of the values from `start` to `end` and from `next` on.
fn set_of(alloc: Global, start: u8, end: u8, next: u8) -> Result<RangeSet<u8>, NoMemory> {
    let mut ranges = Vec::new(alloc);
    if start <= end {
        ranges.push(Range::new(start, end))?;
    }
    if next <= u8::MAX {
        ranges.push(Range::new(next, u8::MAX))?;
    }
    RangeSet::try_from_iter(alloc, ranges)
}

#[test]
fn keys_come_ascending_with_their_values(rt: HostRuntime) -> Result<(), Fail> {
    let map = map_of(rt.alloc(), [(0, 2, 7), (3, 3, 8), (254, 255, 7)].as_slice())?;
    let mut rows = Vec::new(rt.alloc());
    for (key, value) in map.keys_values() {
        rows.push((key, *value))?;
    }
    let want = [(0, 7), (1, 7), (2, 7), (3, 8), (254, 7), (255, 7)];
    assert_eq!(rt; rows.as_slice(), want.as_slice());
    Ok(())
}

fn copy_of<C: Copy>(one: &C) -> C {
    *one
}

#[test]
fn a_walk_is_copied_where_it_stands(rt: HostRuntime) -> Result<(), Fail> {
    let map = map_of(rt.alloc(), [(4, 5, 1), (9, 9, 2)].as_slice())?;
    let mut walk = map.keys_values();
    assert!(rt; walk.size_hint() == (2, None) && walk.next() == Some((4, &1)));
    let mut copy = copy_of(&walk);
    assert!(rt; walk.next() == Some((5, &1)) && walk.next() == Some((9, &2)));
    assert!(rt; copy.next() == Some((5, &1)) && walk.next().is_none());
    assert!(rt; format!(in rt.alloc(); "{copy:?}")?.len() > 0);
    Ok(())
}

#[test]
fn what_of_a_map_lies_in_a_set(rt: HostRuntime) -> Result<(), Fail> {
    let alloc = rt.alloc();
    let rows = [
        (
            [(1, 5, 1), (8, 12, 2)],
            (4, 9, 255),
            [(4, 5, 1), (8, 9, 2)].as_slice(),
        ),
        (
            [(1, 5, 1), (6, 12, 2)],
            (5, 6, 12),
            [(5, 5, 1), (6, 6, 2), (12, 12, 2)].as_slice(),
        ),
        (
            [(0, 9, 1), (250, 255, 1)],
            (0, 0, 255),
            [(0, 0, 1), (255, 255, 1)].as_slice(),
        ),
        ([(1, 5, 1), (8, 12, 2)], (6, 7, 13), [].as_slice()),
    ];
    for (given, (start, end, next), want) in rows {
        let map = map_of(alloc, given.as_slice())?;
        let set = set_of(alloc, start, end, next)?;
        let common = map.intersection(alloc, &set)?;
        assert_eq!(rt; rows_of(alloc, &common)?.as_slice(), want);
    }
    Ok(())
}

#[test]
fn values_are_changed_once_a_range(rt: HostRuntime) -> Result<(), Fail> {
    let alloc = rt.alloc();
    let mut map = map_of(alloc, [(1, 3, 10), (4, 6, 11), (8, 9, 20)].as_slice())?;
    let mut calls = [0u8; 4];
    let mut count = 0usize;
    map.map_values(|value: &u8| {
        if count < 4 {
            calls[count] = *value;
            count += 1;
        }
        *value / 10
    });
    assert_eq!(rt;
        rows_of(alloc, &map)?.as_slice(),
        [(1, 6, 1), (8, 9, 2)].as_slice()
    );
    assert!(rt; count == 3 && calls == [10, 11, 20, 0]);
    Ok(())
}

#[test]
fn ranges_are_kept_by_one_call_each(rt: HostRuntime) -> Result<(), Fail> {
    let alloc = rt.alloc();
    let mut map = map_of(
        alloc,
        [(1, 3, 1), (4, 6, 2), (7, 9, 1), (255, 255, 3)].as_slice(),
    )?;
    let mut calls = [0u8; 5];
    let mut count = 0usize;
    map.retain_values(|value: &u8| {
        if count < 5 {
            calls[count] = *value;
            count += 1;
        }
        *value != 2
    });
    let want = [(1, 3, 1), (7, 9, 1), (255, 255, 3)];
    assert_eq!(rt; rows_of(alloc, &map)?.as_slice(), want.as_slice());
    assert!(rt; count == 4 && calls == [1, 2, 1, 3, 0]);
    Ok(())
}

/// A name whose letter counts, but not the line where it was written.
#[derive(Copy, Debug)]
struct Name {
    letter: u8,
    line: u8,
}

impl Clone for Name {
    ghost is_clone = { λ x y. y ≡ x };

    fn clone(&self) -> Result<Name, AllocError> {
        Ok(*self)
    }
}

impl PartialEq for Name {
    ghost use Rattle.std.specs.Prelude.{nat_eq};
    ghost use Rattle.std.specs.Cmp.{on_equiv, nat_eq_equiv, partial_equiv_from_equiv};

    ghost eq = { λ a b. nat_eq a.letter b.letter };

    ghost laws = { partial_equiv_from_equiv (on_equiv (λ name. name.letter) nat_eq_equiv) };

    fn eq(&self, other: &Name) -> bool {
        self.letter == other.letter
    }
}

impl Eq for Name {
    ghost use Rattle.std.specs.Cmp.{on_equiv, nat_eq_equiv};

    ghost laws = { on_equiv (λ name. name.letter) nat_eq_equiv };
}

// The map in which 0 to 1 and 2 to 3 have names of other letters, written on the lines 1 and 2.
fn names(alloc: Global) -> Result<RangeMap<u8, Name>, NoMemory> {
    let mut pairs = Vec::new(alloc);
    pairs.push((Range::new(2, 3), Name { letter: 8, line: 2 }))?;
    pairs.push((Range::new(0, 1), Name { letter: 7, line: 1 }))?;
    match RangeMap::try_from_iter(alloc, pairs) {
        Ok(map) => Ok(map),
        Err(_) => Err(NoMemory),
    }
}

#[test]
fn the_first_of_equal_answers_stays(rt: HostRuntime) -> Result<(), Fail> {
    let mut map = names(rt.alloc())?;
    map.map_values(|name: &Name| Name {
        letter: 9,
        line: name.line,
    });
    assert!(rt; map.num_ranges() == 1);
    assert!(rt;
        map.get(3)
            .is_some_and(|name| name.line == 1 && name.letter == 9)
    );
    Ok(())
}

#[test]
fn each_part_has_its_own_value(rt: HostRuntime) -> Result<(), Fail> {
    let map = names(rt.alloc())?;
    let set = set_of(rt.alloc(), 1, 2, u8::MAX)?;
    let common = map.intersection(rt.alloc(), &set)?;
    assert!(rt; common.num_ranges() == 2 && common.get(0).is_none());
    assert!(rt; common.get(1).is_some_and(|name| name.line == 1));
    assert!(rt; common.get(2).is_some_and(|name| name.line == 2) && common.get(3).is_none());
    Ok(())
}
