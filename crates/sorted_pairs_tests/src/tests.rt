//! Joins, keys, stored functions, hints, marks and copies: each at a concrete type, on lists that
//! people know.
#![tactic(auto, using(sorted_pairs::specs::Sources::sources, crate::proofs::Literals::literals))]

use crate::callers::{
    join_after_first, join_of, keys_of, left_join_of, outer_join_of, right_join_of,
};
use crate::copies::{
    copies_of_join, copies_of_keys, copies_of_left_join, copies_of_outer_join,
    copies_of_right_join, copy_of_assumed,
};
use sorted_iter::SortedIterator;
use sorted_pairs::{AssumeSortedByKeyExt, SortedPairIterator};
use std::alloc::Global;
use std::collections::BTreeMap;
use std::iter::{empty, once};
use std::test::Fail;

#[test]
fn the_four_joins_of_two_lists(rt: HostRuntime) -> Result<(), Fail> {
    let alloc = rt.alloc();
    let a = [(1u32, 'a'), (2, 'b')];
    let b = [(2u32, 'x'), (3, 'y')];
    assert_eq!(rt;
        join_of(alloc, &a, &b)?.as_slice(),
        [(2, ('b', 'x'))].as_slice()
    );
    assert_eq!(rt;
        left_join_of(alloc, &a, &b)?.as_slice(),
        [(1, ('a', None)), (2, ('b', Some('x')))].as_slice()
    );
    assert_eq!(rt;
        right_join_of(alloc, &a, &b)?.as_slice(),
        [(2, (Some('b'), 'x')), (3, (None, 'y'))].as_slice()
    );
    assert_eq!(rt;
        outer_join_of(alloc, &a, &b)?.as_slice(),
        [
            (1, (Some('a'), None)),
            (2, (Some('b'), Some('x'))),
            (3, (None, Some('y'))),
        ]
        .as_slice()
    );
    assert_eq!(rt; keys_of(alloc, &a)?.as_slice(), [1, 2].as_slice());
    Ok(())
}

#[test]
fn copies_of_a_join_and_of_a_left_join(rt: HostRuntime) -> Result<(), Fail> {
    let alloc = rt.alloc();
    let a = [(1u32, 'a'), (2, 'b')];
    let b = [(2u32, 'x'), (3, 'y')];
    let (all, rest) = copies_of_join(alloc, &a, &b)?;
    assert_eq!(rt; all.as_slice(), [(2, ('b', 'x'))].as_slice());
    assert!(rt; rest.is_empty());
    let (all, rest) = copies_of_left_join(alloc, &a, &b)?;
    assert_eq!(rt;
        all.as_slice(),
        [(1, ('a', None)), (2, ('b', Some('x')))].as_slice()
    );
    assert_eq!(rt; rest.as_slice(), [(2, ('b', Some('x')))].as_slice());
    Ok(())
}

#[test]
fn copies_of_a_right_join_and_of_an_outer_join(rt: HostRuntime) -> Result<(), Fail> {
    let alloc = rt.alloc();
    let a = [(1u32, 'a'), (2, 'b')];
    let b = [(2u32, 'x'), (3, 'y')];
    let (all, rest) = copies_of_right_join(alloc, &a, &b)?;
    assert_eq!(rt;
        all.as_slice(),
        [(2, (Some('b'), 'x')), (3, (None, 'y'))].as_slice()
    );
    assert_eq!(rt; rest.as_slice(), [(3, (None, 'y'))].as_slice());
    let (all, rest) = copies_of_outer_join(alloc, &a, &b)?;
    assert_eq!(rt; all.len(), 3);
    assert_eq!(rt;
        rest.as_slice(),
        [(2, (Some('b'), Some('x'))), (3, (None, Some('y')))].as_slice()
    );
    Ok(())
}

#[test]
fn copies_of_keys_and_of_a_stream_by_assumption(rt: HostRuntime) -> Result<(), Fail> {
    let alloc = rt.alloc();
    let a = [(1u32, 'a'), (2, 'b')];
    let (all, rest) = copies_of_keys(alloc, &a)?;
    assert_eq!(rt; all.as_slice(), [1, 2].as_slice());
    assert_eq!(rt; rest.as_slice(), [2].as_slice());
    assert_eq!(rt;
        copy_of_assumed(alloc, &a)?.as_slice(),
        [(2, 'b')].as_slice()
    );
    Ok(())
}

#[test]
fn an_empty_side(rt: HostRuntime) -> Result<(), Fail> {
    let alloc = rt.alloc();
    let a = [(1u32, 'a')];
    let none: [(u32, char); 0] = [];
    assert!(rt; join_of(alloc, &a, &none)?.is_empty());
    assert_eq!(rt;
        left_join_of(alloc, &a, &none)?.as_slice(),
        [(1, ('a', None))].as_slice()
    );
    assert!(rt; right_join_of(alloc, &a, &none)?.is_empty());
    assert_eq!(rt;
        outer_join_of(alloc, &none, &a)?.as_slice(),
        [(1, (None, Some('a')))].as_slice()
    );
    Ok(())
}

/// A key that is compared by its number alone.
#[derive(Clone, Copy)]
#[derive_where(PartialEq, Eq, PartialOrd, Ord)]
struct Tag {
    number: u32,
    #[derive_where(skip(EqHashOrd))]
    label: char,
}

// The labels of the keys of the join, of the left join, of the right join and of the outer join of
// two pairs.
fn labels(a: Tag, b: Tag) -> [Option<char>; 4] {
    let joined = once((a, 1u8)).join(once((b, 2u8))).next();
    let left = once((a, 1u8)).left_join(once((b, 2u8))).next();
    let right = once((a, 1u8)).right_join(once((b, 2u8))).next();
    let outer = once((a, 1u8)).outer_join(once((b, 2u8))).next();
    [
        joined.map(|p| p.0.label),
        left.map(|p| p.0.label),
        right.map(|p| p.0.label),
        outer.map(|p| p.0.label),
    ]
}

#[test]
fn which_of_two_equal_keys_comes(rt: HostRuntime) -> Result<(), Fail> {
    let x = Tag {
        number: 7,
        label: 'x',
    };
    let y = Tag {
        number: 7,
        label: 'y',
    };
    assert_eq!(rt; labels(x, y), [Some('x'), Some('x'), Some('y'), Some('x')]);
    assert_eq!(rt; labels(y, x), [Some('y'), Some('y'), Some('x'), Some('y')]);
    Ok(())
}

#[test]
fn a_counting_function_is_called_once_for_each_pair_from_either_end(
    rt: HostRuntime,
) -> Result<(), Fail> {
    let pairs = [(1u32, 'a'), (2, 'b'), (3, 'c')];
    let mut calls = 0u32;
    let mut counted = pairs
        .iter()
        .copied()
        .assume_sorted_by_key()
        .map_values(|value| {
            calls = calls.wrapping_add(1);
            (calls, value)
        });
    assert_eq!(rt; counted.len(), 3);
    assert_eq!(rt; counted.next(), Some((1, (1, 'a'))));
    assert_eq!(rt; counted.next_back(), Some((3, (2, 'c'))));
    assert_eq!(rt; counted.next(), Some((2, (3, 'b'))));
    assert_eq!(rt; counted.next_back(), None);
    assert_eq!(rt; counted.next(), None);
    drop(counted);
    assert_eq!(rt; calls, 3);
    Ok(())
}

#[test]
fn a_mapped_stream_dropped_early_calls_no_more(rt: HostRuntime) -> Result<(), Fail> {
    let pairs = [(1u32, 'a'), (2, 'b'), (3, 'c')];
    let mut calls = 0u32;
    let mut counted = pairs
        .iter()
        .copied()
        .assume_sorted_by_key()
        .map_values(|value| {
            calls = calls.wrapping_add(1);
            value
        });
    assert_eq!(rt; counted.next(), Some((1, 'a')));
    drop(counted);
    assert_eq!(rt; calls, 1);
    Ok(())
}

#[test]
fn pairs_that_a_function_passes_over(rt: HostRuntime) -> Result<(), Fail> {
    let pairs = [(1u32, 5u32), (2, 6), (3, 7), (4, 8), (5, 9)];
    let mut calls = 0u32;
    let mut even = pairs
        .iter()
        .copied()
        .assume_sorted_by_key()
        .filter_map_values(|value| {
            calls = calls.wrapping_add(1);
            if value % 2 == 0 {
                Some((calls, value))
            } else {
                None
            }
        });
    assert_eq!(rt; even.size_hint(), (0, Some(5)));
    assert_eq!(rt; even.next(), Some((2, (2, 6))));
    assert_eq!(rt; even.next(), Some((4, (4, 8))));
    assert_eq!(rt; even.next(), None);
    drop(even);
    assert_eq!(rt; calls, 5);
    Ok(())
}

#[test]
fn hints_of_joins_just_made(rt: HostRuntime) -> Result<(), Fail> {
    let a = || (0..5u32).pairs();
    let b = || (3..5u32).pairs();
    assert_eq!(rt; a().join(b()).size_hint(), (0, Some(2)));
    assert_eq!(rt; a().left_join(b()).size_hint(), (5, Some(5)));
    assert_eq!(rt; a().right_join(b()).size_hint(), (2, Some(2)));
    assert_eq!(rt; a().outer_join(b()).size_hint(), (5, Some(7)));
    assert_eq!(rt; a().keys().size_hint(), (5, Some(5)));
    assert_eq!(rt; a().map_values(|_| 1u8).size_hint(), (5, Some(5)));
    Ok(())
}

#[test]
fn hints_count_the_pair_read_ahead(rt: HostRuntime) -> Result<(), Fail> {
    let mut outer = (1..3u32).pairs().outer_join((2..4u32).pairs());
    assert_eq!(rt; outer.next(), Some((1, (Some(()), None))));
    assert_eq!(rt; outer.size_hint(), (2, Some(3)));
    Ok(())
}

#[test]
fn keys_and_pairs_by_assumption_from_both_ends(rt: HostRuntime) -> Result<(), Fail> {
    let pairs = [(1u32, 'a'), (2, 'b'), (5, 'c')];
    let mut all = pairs.iter().copied().assume_sorted_by_key();
    assert_eq!(rt; all.len(), 3);
    assert_eq!(rt; all.next_back(), Some((5, 'c')));
    let mut keys = all.keys();
    assert_eq!(rt; keys.len(), 2);
    assert_eq!(rt; keys.next_back(), Some(2));
    assert_eq!(rt; keys.next(), Some(1));
    assert_eq!(rt; keys.size_hint(), (0, Some(0)));
    Ok(())
}

// The join of what is left of each of three adapters with the squares of its keys.
fn of_adapters(alloc: Global) -> Result<Vec<(u32, ((), ()))>, Fail> {
    let skipped = (0..9u32).pairs().skip(1);
    let tested = (0..9u32).pairs().filter(|p| p.0 % 2 == 0);
    let begun = (0..9u32).pairs().take_while(|p| p.0 < 5);
    Ok(
        skipped
            .join(tested)
            .keys()
            .pairs()
            .join(begun)
            .collect(alloc)?,
    )
}

#[test]
fn marks_of_adapters(rt: HostRuntime) -> Result<(), Fail> {
    let alloc = rt.alloc();
    assert_eq!(rt;
        of_adapters(alloc)?.as_slice(),
        [(2, ((), ())), (4, ((), ()))].as_slice()
    );
    let first = (0..9u32).pairs().take(2).fuse();
    let zipped = (1..3u32).zip(5..9u32).fuse();
    let met: Vec<(u32, ((), u32))> = first.join(zipped).collect(alloc)?;
    assert_eq!(rt; met.as_slice(), [(1, ((), 5))].as_slice());
    Ok(())
}

#[test]
fn marks_of_one_pair_or_none(rt: HostRuntime) -> Result<(), Fail> {
    let one = Some(3u32).into_iter().map(|x| (x, 'm'));
    assert_eq!(rt; one.join(once((3u32, 'o'))).next(), Some((3, ('m', 'o'))));
    let none = empty::<(u32, char)>();
    assert_eq!(rt;
        Some((4u32, 'i')).into_iter().left_join(none).next(),
        Some((4, ('i', None)))
    );
    Ok(())
}

// The pairs of two maps that have one key, by a range of the one and the iterator of the other,
// with the keys in turn.
fn of_maps(
    alloc: Global,
    a: &BTreeMap<u32, char>,
    b: BTreeMap<u32, char>,
) -> Result<Vec<u32>, Fail> {
    let ranged = a.range(2..9).keys().copied();
    Ok(ranged.union(b.into_iter().keys()).collect(alloc)?)
}

// The first pair of two maps that have one key.
fn first_of_maps<K: Ord + Copy, V: Copy, W: Copy>(
    a: &BTreeMap<K, V>,
    b: &BTreeMap<K, W>,
) -> Option<(K, (V, W))> {
    let (key, (v, w)) = a.iter().join(b.iter()).next()?;
    Some((*key, (*v, *w)))
}

#[test]
fn pairs_of_maps(rt: HostRuntime) -> Result<(), Fail> {
    let alloc = rt.alloc();
    let mut a = BTreeMap::new(alloc);
    let mut b = BTreeMap::new(alloc);
    a.insert(1u32, 'a')?;
    a.insert(5u32, 'b')?;
    b.insert(4u32, 'x')?;
    b.insert(5u32, 'y')?;
    assert_eq!(rt; first_of_maps(&a, &b), Some((5, ('b', 'y'))));
    assert_eq!(rt; of_maps(alloc, &a, b)?.as_slice(), [4, 5].as_slice());
    Ok(())
}

#[test]
fn a_join_of_a_join(rt: HostRuntime) -> Result<(), Fail> {
    let alloc = rt.alloc();
    let all: Vec<(u32, (((), ()), Option<()>))> = (0..9u32)
        .pairs()
        .join((4..7u32).pairs())
        .left_join((5..6u32).pairs())
        .collect(alloc)?;
    assert_eq!(rt;
        all.as_slice(),
        [
            (4, (((), ()), None)),
            (5, (((), ()), Some(()))),
            (6, (((), ()), None)),
        ]
        .as_slice()
    );
    Ok(())
}

#[test]
fn streams_with_a_function_as_sides(rt: HostRuntime) -> Result<(), Fail> {
    let left = (0..5u32).pairs().map_values(|_| 1u8);
    let mut passed = false;
    let right = (3..9u32).pairs().filter_map_values(move |_| {
        if passed {
            return Some('x');
        }
        passed = true;
        None
    });
    assert_eq!(rt; left.join(right).next(), Some((4, (1, 'x'))));
    Ok(())
}

#[test]
fn the_rest_after_a_pair(rt: HostRuntime) -> Result<(), Fail> {
    let alloc = rt.alloc();
    let Some((first, rest)) = join_after_first((2..5u32).pairs(), (0..4u32).pairs()) else {
        return Err(Fail::new("a pair comes"));
    };
    assert_eq!(rt; first, (2, ()));
    let rest: Vec<(u32, ((), ()))> = rest.collect(alloc)?;
    assert_eq!(rt; rest.as_slice(), [(3, ((), ()))].as_slice());
    Ok(())
}

#[test]
fn right_and_outer_joins_as_sides(rt: HostRuntime) -> Result<(), Fail> {
    let right = (0..2u32).pairs().right_join((1..3u32).pairs());
    let outer = (2..3u32).pairs().outer_join((5..6u32).pairs());
    let keys: Vec<u32> = right.outer_join(outer).keys().collect(rt.alloc())?;
    assert_eq!(rt; keys.as_slice(), [1, 2, 5].as_slice());
    Ok(())
}
