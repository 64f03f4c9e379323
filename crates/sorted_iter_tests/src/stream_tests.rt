//! Copies, pairs, tests on two streams, hints, marks and both ends: each at a concrete type.
#![tactic(auto, using(sorted_iter::specs::Sources::sources, crate::proofs::Literals::literals))]

use crate::callers::{
    even_with_one_more, first_of_union, has_item, is_part_of, items_of_either, shared_keys,
    union_after_first, written_out,
};
use crate::copies::{
    copies_of_difference, copies_of_intersection, copies_of_pairs, copies_of_symmetric_difference,
    copies_of_union, copy_of_assumed,
};
use sorted_iter::{AssumeSortedByItemExt, SortedIterator};
use std::collections::{BTreeMap, BTreeSet};
use std::iter::{empty, once};
use std::test::Fail;

#[test]
fn copies_of_streams_that_keep_more(rt: HostRuntime) -> Result<(), Fail> {
    let alloc = rt.alloc();
    let (all, rest) = copies_of_union(alloc, &[1, 2], &[2, 3])?;
    assert_eq!(rt; all.as_slice(), [1, 2, 3].as_slice());
    assert_eq!(rt; rest.as_slice(), [2, 3].as_slice());
    let (all, rest) = copies_of_symmetric_difference(alloc, &[1, 2], &[2, 3])?;
    assert_eq!(rt; all.as_slice(), [1, 3].as_slice());
    assert_eq!(rt; rest.as_slice(), [3].as_slice());
    Ok(())
}

#[test]
fn copies_of_streams_that_keep_less(rt: HostRuntime) -> Result<(), Fail> {
    let alloc = rt.alloc();
    let (all, rest) = copies_of_intersection(alloc, &[1, 2], &[2, 3])?;
    assert_eq!(rt; all.as_slice(), [2].as_slice());
    assert!(rt; rest.is_empty());
    let (all, rest) = copies_of_difference(alloc, &[1, 2], &[2, 3])?;
    assert_eq!(rt; all.as_slice(), [1].as_slice());
    assert!(rt; rest.is_empty());
    Ok(())
}

#[test]
fn copies_of_pairs_and_of_a_stream_by_assumption(rt: HostRuntime) -> Result<(), Fail> {
    let alloc = rt.alloc();
    let (all, rest) = copies_of_pairs(alloc, &[1, 2])?;
    assert_eq!(rt; all.as_slice(), [(1, ()), (2, ())].as_slice());
    assert_eq!(rt; rest.as_slice(), [(2, ())].as_slice());
    let rest = copy_of_assumed(alloc, &[1, 2])?;
    assert_eq!(rt; rest.as_slice(), [2].as_slice());
    Ok(())
}

#[test]
fn streams_that_share_items_or_lie_within(rt: HostRuntime) -> Result<(), Fail> {
    assert!(rt; (0..3u32).is_disjoint(3..5u32));
    assert!(rt; !(0..3u32).is_disjoint(2..5u32));
    assert!(rt; (0..3u32).is_subset(0..5u32));
    assert!(rt; !(0..5u32).is_subset(0..3u32));
    assert!(rt; (0..5u32).is_superset(0..3u32));
    assert!(rt; !(0..3u32).is_superset(0..5u32));
    Ok(())
}

#[test]
fn an_empty_stream_is_within_and_beside_each(rt: HostRuntime) -> Result<(), Fail> {
    assert!(rt; (0..0u32).is_disjoint(0..5u32));
    assert!(rt; (0..0u32).is_subset(0..5u32));
    assert!(rt; !(0..0u32).is_superset(0..5u32));
    assert!(rt; is_part_of(0..0u32, 0..0u32));
    Ok(())
}

#[test]
fn hints_of_streams_just_made(rt: HostRuntime) -> Result<(), Fail> {
    assert_eq!(rt; (0..5u32).union(3..5u32).size_hint(), (5, Some(7)));
    assert_eq!(rt; (0..5u32).intersection(3..5u32).size_hint(), (0, Some(2)));
    assert_eq!(rt; (0..5u32).difference(3..5u32).size_hint(), (3, Some(5)));
    assert_eq!(rt;
        (0..5u32).symmetric_difference(3..5u32).size_hint(),
        (3, Some(7))
    );
    assert_eq!(rt;
        (3..5u32).symmetric_difference(0..5u32).size_hint(),
        (3, Some(7))
    );
    assert_eq!(rt; (0..5u32).pairs().size_hint(), (5, Some(5)));
    let listed = [1u32, 4].iter().copied().assume_sorted_by_item();
    assert_eq!(rt; listed.size_hint(), (2, Some(2)));
    Ok(())
}

#[test]
fn hints_count_the_item_read_ahead(rt: HostRuntime) -> Result<(), Fail> {
    let mut all = (1..3u32).union(2..4u32);
    assert_eq!(rt; all.next(), Some(1));
    assert_eq!(rt; all.size_hint(), (2, Some(3)));
    Ok(())
}

#[test]
fn a_side_that_ends_early(rt: HostRuntime) -> Result<(), Fail> {
    let alloc = rt.alloc();
    let none: Vec<u32> = (0..2u32).intersection(5..9u32).collect(alloc)?;
    assert!(rt; none.is_empty());
    let rest: Vec<u32> = (0..4u32).difference(0..1u32).collect(alloc)?;
    assert_eq!(rt; rest.as_slice(), [1, 2, 3].as_slice());
    Ok(())
}

#[test]
fn marks_of_adapters(rt: HostRuntime) -> Result<(), Fail> {
    let alloc = rt.alloc();
    assert_eq!(rt; written_out(alloc)?.as_slice(), [1, 2, 3, 5].as_slice());
    assert_eq!(rt;
        even_with_one_more(alloc)?.as_slice(),
        [2, 4, 5, 6, 8].as_slice()
    );
    assert_eq!(rt; first_of_union(alloc, 2)?.as_slice(), [0, 1, 7].as_slice());
    Ok(())
}

#[test]
fn marks_of_one_item_or_none(rt: HostRuntime) -> Result<(), Fail> {
    assert!(rt; has_item(once(3u32)));
    assert!(rt; !has_item(empty::<u32>()));
    assert!(rt; has_item(Some(4u32).into_iter().skip(0)));
    assert!(rt; !has_item(Some(4u32).into_iter().skip(1)));
    Ok(())
}

#[test]
fn sets_given_up_and_keys_of_maps(rt: HostRuntime) -> Result<(), Fail> {
    let alloc = rt.alloc();
    let mut a = BTreeSet::new(alloc);
    let mut b = BTreeSet::new(alloc);
    a.insert(5u32)?;
    a.insert(1)?;
    b.insert(4u32)?;
    assert_eq!(rt;
        items_of_either(alloc, a, b)?.as_slice(),
        [1, 4, 5].as_slice()
    );
    let mut ages = BTreeMap::new(alloc);
    let mut names = BTreeMap::new(alloc);
    ages.insert(2u32, 7u8)?;
    names.insert(2u32, 'b')?;
    assert_eq!(rt;
        shared_keys(alloc, &ages, &names)?.as_slice(),
        [2].as_slice()
    );
    Ok(())
}

#[test]
fn a_stream_by_assumption_from_both_ends(rt: HostRuntime) -> Result<(), Fail> {
    let items = [1u32, 2, 5];
    let mut it = items.iter().copied().assume_sorted_by_item();
    assert_eq!(rt; it.len(), 3);
    assert_eq!(rt; it.next_back(), Some(5));
    assert_eq!(rt; it.next(), Some(1));
    assert_eq!(rt; it.len(), 1);
    Ok(())
}

#[test]
fn the_rest_after_an_item(rt: HostRuntime) -> Result<(), Fail> {
    let alloc = rt.alloc();
    let Some((first, rest)) = union_after_first(2..5u32, 7..9u32) else {
        return Err(Fail::new("an item comes"));
    };
    assert_eq!(rt; first, 2);
    let rest: Vec<u32> = rest.collect(alloc)?;
    assert_eq!(rt; rest.as_slice(), [3, 4, 7, 8].as_slice());
    Ok(())
}
