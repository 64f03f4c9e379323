//! What maps made from pairs hold, by example.
use element_core::NoMemory;
use range_map::{OverlapError, Range, RangeMap, TryFromIterError};
use std::alloc::Global;
use std::hash::{DefaultHasher, Hash, Hasher};
use std::test::Fail;

// Pairs of these starts, ends and values; those whose start is above their end are left out.
fn pairs_of(alloc: Global, rows: &[(i64, i64, u8)]) -> Result<Vec<(Range<i64>, u8)>, NoMemory> {
    let mut pairs = Vec::new(alloc);
    for (start, end, value) in rows {
        if *start <= *end {
            pairs.push((Range::new(*start, *end), *value))?;
        }
    }
    Ok(pairs)
}

fn rows_of(alloc: Global, pairs: &[(Range<i64>, u8)]) -> Result<Vec<(i64, i64, u8)>, NoMemory> {
    let mut rows = Vec::new(alloc);
    for pair in pairs {
        rows.push((pair.0.start(), pair.0.end(), pair.1))?;
    }
    Ok(rows)
}

// The map of pairs that don't overlap with different values; no memory stands for those that do.
fn map_of(alloc: Global, rows: &[(i64, i64, u8)]) -> Result<RangeMap<i64, u8>, NoMemory> {
    match RangeMap::try_from_iter(alloc, pairs_of(alloc, rows)?) {
        Ok(map) => Ok(map),
        Err(_) => Err(NoMemory),
    }
}

// What is answered of pairs of which some overlap with different values, or `None` where none do.
fn overlap_of(
    alloc: Global,
    rows: &[(i64, i64, u8)],
) -> Result<Option<OverlapError<i64, u8>>, NoMemory> {
    match RangeMap::try_from_iter(alloc, pairs_of(alloc, rows)?) {
        Err(TryFromIterError::Overlap(error)) => Ok(Some(error)),
        _ => Ok(None),
    }
}

fn hash_of<T: Hash>(value: &T) -> u64 {
    let mut state = DefaultHasher::new();
    value.hash(&mut state);
    state.finish()
}

#[test]
fn equal_values_that_overlap_or_touch_are_joined(rt: HostRuntime) -> Result<(), Fail> {
    let rows = [
        ([(1, 5, 1), (2, 10, 1), (9, 11, 1)], [(1, 11, 1)].as_slice()),
        ([(9, 11, 1), (1, 5, 1), (6, 8, 1)], [(1, 11, 1)].as_slice()),
        (
            [(1, 9, 1), (2, 3, 1), (10, 10, 2)],
            [(1, 9, 1), (10, 10, 2)].as_slice(),
        ),
        (
            [(1, 2, 1), (4, 5, 1), (7, 8, 2)],
            [(1, 2, 1), (4, 5, 1), (7, 8, 2)].as_slice(),
        ),
        (
            [(0, i64::MAX, 3), (i64::MIN, -1, 3), (1, 0, 0)],
            [(i64::MIN, i64::MAX, 3)].as_slice(),
        ),
    ];
    for (given, want) in rows {
        let map = map_of(rt.alloc(), given.as_slice())?;
        assert_eq!(rt; map.num_ranges(), want.len());
        let list = map.into_vec();
        assert_eq!(rt; rows_of(rt.alloc(), list.as_slice())?.as_slice(), want);
    }
    Ok(())
}

#[test]
fn a_pair_that_overlaps_another_value_is_discarded(rt: HostRuntime) -> Result<(), Fail> {
    let rows = [
        (
            [(1, 5, 1), (5, 10, 2), (1, 0, 0)],
            [(1, 5, 1)].as_slice(),
            [(5, 10, 2)].as_slice(),
        ),
        (
            [(4, 9, 2), (3, 8, 2), (1, 5, 1)],
            [(1, 5, 1)].as_slice(),
            [(3, 8, 2), (4, 9, 2)].as_slice(),
        ),
        (
            [(1, 5, 1), (4, 8, 1), (7, 9, 2)],
            [(1, 8, 1)].as_slice(),
            [(7, 9, 2)].as_slice(),
        ),
        (
            [(1, 1, 5), (1, 1, 6), (2, 2, 6)],
            [(1, 1, 5), (2, 2, 6)].as_slice(),
            [(1, 1, 6)].as_slice(),
        ),
    ];
    for (given, kept, discarded) in rows {
        let Some(error) = overlap_of(rt.alloc(), given.as_slice())? else {
            assert!(rt; false, "some pair is discarded");
            return Ok(());
        };
        let list = error.non_overlapping.into_vec();
        assert_eq!(rt; rows_of(rt.alloc(), list.as_slice())?.as_slice(), kept);
        assert_eq!(rt;
            rows_of(rt.alloc(), error.discarded.as_slice())?.as_slice(),
            discarded
        );
    }
    Ok(())
}

#[test]
fn values_are_found_inside_between_and_at_both_ends(rt: HostRuntime) -> Result<(), Fail> {
    let given = [(i64::MIN, -5, 1), (-4, 3, 2), (5, 5, 2), (9, i64::MAX, 4)];
    let map = map_of(rt.alloc(), given.as_slice())?;
    let rows = [
        (i64::MIN, Some(1)),
        (-6, Some(1)),
        (-5, Some(1)),
        (-4, Some(2)),
        (3, Some(2)),
        (4, None),
        (5, Some(2)),
        (6, None),
        (8, None),
        (9, Some(4)),
        (i64::MAX, Some(4)),
    ];
    for (key, want) in rows {
        assert_eq!(rt; map.get(key).copied(), want, "at {key}");
    }
    Ok(())
}

#[test]
fn no_pair_gives_the_empty_map(rt: HostRuntime) -> Result<(), Fail> {
    let none: Vec<(Range<u8>, u8)> = Vec::new(rt.alloc());
    match RangeMap::try_from_iter(rt.alloc(), none) {
        Ok(map) => {
            assert!(rt; map.is_empty() && map.num_ranges() == 0 && map.get(0).is_none());
            assert!(rt; map == RangeMap::new(rt.alloc()));
            assert!(rt; map.into_vec().is_empty());
        }
        Err(_) => assert!(rt; false, "nothing overlaps"),
    }
    Ok(())
}

/// A name whose letters count, but not where it was written.
#[derive(Debug, Drop)]
struct Name {
    letter: u8,
    line: u8,
}

impl PartialEq for Name {
    ghost use Rattle.std.specs.Prelude.{nat_eq};
    ghost use Rattle.std.specs.Cmp.{on_equiv, nat_eq_equiv, partial_equiv_from_equiv};

    ghost eq = { λ a b. nat_eq a.letter b.letter };

    ghost laws = { partial_equiv_from_equiv (on_equiv (λ name. name.letter) nat_eq_equiv) };

    fn eq(&self, other: &Name) -> bool {
        self.letter == other.letter
    }
}

impl Eq for Name {
    ghost use Rattle.std.specs.Cmp.{on_equiv, nat_eq_equiv};

    ghost laws = { on_equiv (λ name. name.letter) nat_eq_equiv };
}

#[test]
fn the_first_of_equal_values_stays(rt: HostRuntime) -> Result<(), Fail> {
    let mut pairs = Vec::new(rt.alloc());
    pairs.push((Range::<u8>::new(4, 255), Name { letter: 7, line: 3 }))?;
    pairs.push((Range::new(0, 1), Name { letter: 7, line: 1 }))?;
    pairs.push((Range::new(2, 3), Name { letter: 7, line: 2 }))?;
    match RangeMap::try_from_iter(rt.alloc(), pairs) {
        Ok(map) => {
            assert!(rt; map.num_ranges() == 1);
            assert!(rt; map.get(255).map(|name| name.line) == Some(1));
        }
        Err(_) => assert!(rt; false, "nothing is discarded"),
    }
    Ok(())
}

#[test]
fn equal_maps_hash_alike(rt: HostRuntime) -> Result<(), Fail> {
    let left = map_of(rt.alloc(), [(1, 3, 7), (4, 6, 7)].as_slice())?;
    let right = map_of(rt.alloc(), [(2, 6, 7), (1, 1, 7)].as_slice())?;
    let other = map_of(rt.alloc(), [(1, 6, 8)].as_slice())?;
    assert!(rt; left == right && left != other);
    assert_eq!(rt; hash_of(&left), hash_of(&right));
    Ok(())
}

#[test]
fn an_overlap_is_compared_and_written(rt: HostRuntime) -> Result<(), Fail> {
    let given = [(1, 5, 1), (5, 10, 2)];
    let one = overlap_of(rt.alloc(), given.as_slice())?;
    let other = overlap_of(rt.alloc(), given.as_slice())?;
    assert!(rt; one.is_some() && one == other);
    assert_eq!(rt; hash_of(&one), hash_of(&other));
    assert!(rt; format!(in rt.alloc(); "{one:?}")?.len() > 0);
    Ok(())
}

#[test]
fn ranges_come_with_their_values(rt: HostRuntime) -> Result<(), Fail> {
    let given = [(4, 6, 2), (1, 3, 1), (9, 9, 2)];
    let map = map_of(rt.alloc(), given.as_slice())?;
    let mut rows = Vec::new(rt.alloc());
    for pair in map.ranges_values() {
        rows.push((pair.0.start(), pair.0.end(), pair.1))?;
    }
    assert_eq!(rt;
        rows.as_slice(),
        [(1, 3, 1), (4, 6, 2), (9, 9, 2)].as_slice()
    );
    assert!(rt; format!(in rt.alloc(); "{map:?}")?.len() > 0);
    Ok(())
}
