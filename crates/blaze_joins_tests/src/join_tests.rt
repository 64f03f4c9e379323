//! What the joins answer, when they call their function, and which of two equal answers stays.
use crate::callers::{clashes, side_by_side};
use crate::tests::{listed, map_of};
use blaze_joins::{RangeMapBlaze, full_join_all, inner_join_all};
use element_core::NoMemory;
use range_map::Range;
use std::alloc::Global;
use std::test::Fail;

#[test]
fn full_join_calls_once_a_piece(rt: HostRuntime) -> Result<(), Fail> {
    let alloc = rt.alloc();
    let left = map_of(alloc, [(0, 9, 1), (10, 19, 2)].as_slice())?;
    let right = map_of(alloc, [(5, 14, 10)].as_slice())?;
    let mut calls = [(None, None); 5];
    let mut count = 0usize;
    let joined = left.full_join(alloc, &right, |one: Option<&u8>, other: Option<&u8>| {
        if count < 5 {
            calls[count] = (one.copied(), other.copied());
            count += 1;
        }
        u8::from(one.is_some()) + u8::from(other.is_some())
    })?;
    assert_eq!(rt; count, 4);
    assert_eq!(rt;
        calls.as_slice(),
        [
            (Some(1), None),
            (Some(1), Some(10)),
            (Some(2), Some(10)),
            (Some(2), None),
            (None, None)
        ]
        .as_slice()
    );
    assert_eq!(rt;
        listed(alloc, &joined)?.as_slice(),
        [(0, 4, 1), (5, 14, 2), (15, 19, 1)].as_slice()
    );
    Ok(())
}

#[test]
fn left_join_keeps_the_left_keys(rt: HostRuntime) -> Result<(), Fail> {
    let alloc = rt.alloc();
    let left = map_of(alloc, [(1, 5, 7)].as_slice())?;
    let right = map_of(alloc, [(4, 8, 9)].as_slice())?;
    let joined = left.left_join(alloc, &right, |one: &u8, other: Option<&u8>| {
        (*one, other.copied())
    })?;
    assert_eq!(rt;
        listed(alloc, &joined)?.as_slice(),
        [(1, 3, (7, None)), (4, 5, (7, Some(9)))].as_slice()
    );
    let both = left.inner_join(alloc, &right, |one: &u8, other: &u8| (*one, *other))?;
    assert_eq!(rt;
        listed(alloc, &both)?.as_slice(),
        [(4, 5, (7, 9))].as_slice()
    );
    Ok(())
}

#[test]
fn joins_of_filled_maps(rt: HostRuntime) -> Result<(), Fail> {
    let alloc = rt.alloc();
    let left = map_of(alloc, [(1, 5, 7)].as_slice())?.fill_gaps(alloc)?;
    let right = map_of(alloc, [(4, 8, 9)].as_slice())?.fill_gaps(alloc)?;
    let both = left.inner_join(
        alloc,
        &right,
        |one: &Option<u8>, other: &Option<u8>| (*one, *other),
    )?;
    assert_eq!(rt;
        listed(alloc, &both)?.as_slice(),
        [
            (0, 0, (None, None)),
            (1, 3, (Some(7), None)),
            (4, 5, (Some(7), Some(9))),
            (6, 8, (None, Some(9))),
            (9, 255, (None, None))
        ]
        .as_slice()
    );
    Ok(())
}

// Three maps that overlap in turn.
fn three_maps(alloc: Global) -> Result<Vec<RangeMapBlaze<u8, u8>>, NoMemory> {
    let mut maps = Vec::new(alloc);
    maps.push(map_of(alloc, [(0, 9, 1)].as_slice())?)?;
    maps.push(map_of(alloc, [(5, 14, 10)].as_slice())?)?;
    maps.push(map_of(alloc, [(8, 20, 100)].as_slice())?)?;
    Ok(maps)
}

#[test]
fn full_join_of_three_maps(rt: HostRuntime) -> Result<(), Fail> {
    let alloc = rt.alloc();
    let maps = three_maps(alloc)?;
    let sum = full_join_all(alloc, maps.as_slice(), |values: &[Option<u8>]| {
        let mut sum = 0u8;
        for value in values {
            sum = sum.wrapping_add(value.unwrap_or(0));
        }
        sum
    })?;
    assert_eq!(rt;
        listed(alloc, &sum)?.as_slice(),
        [
            (0, 4, 1),
            (5, 7, 11),
            (8, 9, 111),
            (10, 14, 110),
            (15, 20, 100)
        ]
        .as_slice()
    );
    Ok(())
}

#[test]
fn inner_join_of_three_maps(rt: HostRuntime) -> Result<(), Fail> {
    let alloc = rt.alloc();
    let maps = three_maps(alloc)?;
    let sum = inner_join_all(alloc, maps.as_slice(), |values: &[u8]| {
        let mut sum = 0u8;
        for value in values {
            sum = sum.wrapping_add(*value);
        }
        sum
    })?;
    assert_eq!(rt; listed(alloc, &sum)?.as_slice(), [(8, 9, 111)].as_slice());
    Ok(())
}

#[test]
fn joins_of_no_maps(rt: HostRuntime) -> Result<(), Fail> {
    let alloc = rt.alloc();
    let none: Vec<RangeMapBlaze<u8, u8>> = Vec::new(alloc);
    let mut calls = 0u8;
    let full = full_join_all(alloc, none.as_slice(), |_values: &[Option<u8>]| {
        calls = calls.wrapping_add(1);
        7
    })?;
    assert!(rt; full.is_empty() && calls == 0);
    let inner = inner_join_all(alloc, none.as_slice(), |values: &[u8]| {
        calls = calls.wrapping_add(1);
        values.len()
    })?;
    assert_eq!(rt; listed(alloc, &inner)?.as_slice(), [(0, 255, 0)].as_slice());
    assert_eq!(rt; calls, 1);
    Ok(())
}

#[test]
fn left_and_inner_join_call_once_a_piece(rt: HostRuntime) -> Result<(), Fail> {
    let alloc = rt.alloc();
    let left = map_of(alloc, [(0, 9, 1), (10, 19, 2)].as_slice())?;
    let right = map_of(alloc, [(5, 14, 10)].as_slice())?;
    let mut calls = [0u8; 6];
    let mut count = 0usize;
    left.left_join(alloc, &right, |one: &u8, other: Option<&u8>| {
        if count < 6 {
            calls[count] = one.wrapping_add(other.copied().unwrap_or(0));
            count += 1;
        }
    })?;
    left.inner_join(alloc, &right, |one: &u8, other: &u8| {
        if count < 6 {
            calls[count] = one.wrapping_add(*other);
            count += 1;
        }
    })?;
    assert!(rt; count == 6 && calls == [1, 11, 12, 2, 11, 12]);
    Ok(())
}

#[test]
fn many_way_joins_call_once_a_piece(rt: HostRuntime) -> Result<(), Fail> {
    let alloc = rt.alloc();
    let maps = three_maps(alloc)?;
    let mut calls = [0usize; 6];
    let mut count = 0usize;
    full_join_all(alloc, maps.as_slice(), |values: &[Option<u8>]| {
        if count < 6 {
            calls[count] = values.iter().filter(|value| value.is_some()).count();
            count += 1;
        }
    })?;
    inner_join_all(alloc, maps.as_slice(), |values: &[u8]| {
        if count < 6 {
            calls[count] = values.len();
            count += 1;
        }
    })?;
    assert!(rt; count == 6 && calls == [1, 2, 3, 2, 1, 3]);
    Ok(())
}

#[test]
fn joins_reach_both_ends_of_i64(rt: HostRuntime) -> Result<(), Fail> {
    let alloc = rt.alloc();
    let mut low = Vec::new(alloc);
    low.push((Range::<i64>::new(i64::MIN, 0), 1u8))?;
    let mut high = Vec::new(alloc);
    high.push((Range::<i64>::new(0, i64::MAX), 2u8))?;
    let left = RangeMapBlaze::from_pairs(alloc, low)?;
    let right = RangeMapBlaze::from_pairs(alloc, high)?;
    let both = left.full_join(alloc, &right, |one: Option<&u8>, other: Option<&u8>| {
        one.copied()
            .unwrap_or(0)
            .wrapping_add(other.copied().unwrap_or(0))
    })?;
    assert!(rt; both.get(i64::MIN) == Some(&1) && both.get(-1) == Some(&1));
    assert!(rt;
        both.get(0) == Some(&3) && both.get(1) == Some(&2) && both.get(i64::MAX) == Some(&2)
    );
    Ok(())
}

// Two calendars: rooms by the hour.
#[test]
fn bookings_side_by_side(rt: HostRuntime) -> Result<(), Fail> {
    let alloc = rt.alloc();
    let mine = map_of(alloc, [(9, 11, 4)].as_slice())?;
    let yours = map_of(alloc, [(11, 12, 5)].as_slice())?;
    let both = clashes(alloc, &mine, &yours)?;
    assert_eq!(rt;
        listed(alloc, &both)?.as_slice(),
        [(11, 11, (4, 5))].as_slice()
    );
    let all = side_by_side(alloc, &mine, &yours)?;
    assert_eq!(rt;
        listed(alloc, &all)?.as_slice(),
        [
            (9, 10, (Some(4), None)),
            (11, 11, (Some(4), Some(5))),
            (12, 12, (None, Some(5)))
        ]
        .as_slice()
    );
    Ok(())
}

/// A name whose letter counts, but not the line where it was written.
#[derive(Clone, Copy, Debug)]
struct Name {
    letter: u8,
    line: u8,
}

impl PartialEq for Name {
    ghost use Rattle.std.specs.Prelude.{nat_eq};
    ghost use Rattle.std.specs.Cmp.{on_equiv, nat_eq_equiv, partial_equiv_from_equiv};

    ghost eq = { λ a b. nat_eq a.letter b.letter };

    ghost laws = { partial_equiv_from_equiv (on_equiv (λ name. name.letter) nat_eq_equiv) };

    fn eq(&self, other: &Name) -> bool {
        self.letter == other.letter
    }
}

impl Eq for Name {
    ghost use Rattle.std.specs.Cmp.{on_equiv, nat_eq_equiv};

    ghost laws = { on_equiv (λ name. name.letter) nat_eq_equiv };
}

// The name that is equal to each other one.
fn on_line(line: u8) -> Name {
    Name { letter: 7, line }
}

// The line of the value at the keys 0 to 3, if they are one range.
fn line_of_one_range(map: &RangeMapBlaze<u8, Name>) -> Option<u8> {
    let mut ranges = map.range_values();
    match ranges.next() {
        None => None,
        Some(pair) => {
            if pair.0.start() == 0 && pair.0.end() == 3 {
                Some(pair.1.line)
            } else {
                None
            }
        }
    }
}

#[test]
fn the_first_of_equal_values_stays(rt: HostRuntime) -> Result<(), Fail> {
    let alloc = rt.alloc();
    let mut pairs = Vec::new(alloc);
    pairs.push((Range::<u8>::new(2, 3), on_line(2)))?;
    pairs.push((Range::<u8>::new(0, 1), on_line(1)))?;
    let map = RangeMapBlaze::from_pairs(alloc, pairs)?;
    assert_eq!(rt; line_of_one_range(&map), Some(1));
    let filled = map.fill_gaps(alloc)?;
    assert!(rt;
        filled
            .get(3)
            .is_some_and(|name| name.is_some_and(|name| name.line == 1))
    );
    Ok(())
}

#[test]
fn the_first_of_equal_answers_stays(rt: HostRuntime) -> Result<(), Fail> {
    let alloc = rt.alloc();
    let left = map_of(alloc, [(0, 1, 1), (2, 3, 2)].as_slice())?;
    let right = map_of(alloc, [(0, 3, 9)].as_slice())?;
    let full = left.full_join(alloc, &right, |one: Option<&u8>, _other: Option<&u8>| {
        on_line(one.copied().unwrap_or(0))
    })?;
    assert_eq!(rt; line_of_one_range(&full), Some(1));
    let some = left.left_join(alloc, &right, |one: &u8, _other: Option<&u8>| on_line(*one))?;
    assert_eq!(rt; line_of_one_range(&some), Some(1));
    let both = left.inner_join(alloc, &right, |one: &u8, _other: &u8| on_line(*one))?;
    assert_eq!(rt; line_of_one_range(&both), Some(1));
    Ok(())
}

#[test]
fn the_first_of_equal_answers_stays_of_many(rt: HostRuntime) -> Result<(), Fail> {
    let alloc = rt.alloc();
    let map = map_of(alloc, [(0, 1, 1), (2, 3, 2)].as_slice())?;
    let lines = map.transform_values(alloc, |value: &u8| on_line(*value))?;
    assert_eq!(rt; line_of_one_range(&lines), Some(1));
    let mut maps = Vec::new(alloc);
    maps.push(map)?;
    let full = full_join_all(alloc, maps.as_slice(), |values: &[Option<u8>]| {
        on_line(values.first().copied().flatten().unwrap_or(0))
    })?;
    assert_eq!(rt; line_of_one_range(&full), Some(1));
    let inner = inner_join_all(alloc, maps.as_slice(), |values: &[u8]| {
        on_line(values.first().copied().unwrap_or(0))
    })?;
    assert_eq!(rt; line_of_one_range(&inner), Some(1));
    Ok(())
}
