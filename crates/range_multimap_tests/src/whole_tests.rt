//! Multimaps from lists and back, and groups as lists, by example.
use range_map::Range;
use range_multimap::{Group, RangeMultiMap};
use std::test::Fail;

#[test]
fn pairs_come_in_their_order(rt: HostRuntime) -> Result<(), Fail> {
    let alloc = rt.alloc();
    let rows = [(3, 9, 8), (1, 5, 7), (1, 5, 7)];
    let mut pairs = Vec::new(alloc);
    for (start, end, value) in rows {
        if start <= end {
            pairs.push((Range::new(start, end), value))?;
        }
    }
    let map = RangeMultiMap::<i32, u8>::try_from_iter(alloc, pairs)?;
    assert_eq!(rt; map.num_ranges(), 3);
    let mut values = Vec::new(alloc);
    for pair in &map {
        values.push(pair.1)?;
    }
    assert_eq!(rt; values.as_slice(), [8, 7, 7].as_slice());
    let list = map.into_vec();
    assert_eq!(rt; list.len(), 3);
    Ok(())
}

#[test]
fn groups_of_lists(rt: HostRuntime) -> Result<(), Fail> {
    let alloc = rt.alloc();
    let mut values = Vec::new(alloc);
    values.push(5u8)?;
    values.push(10u8)?;
    let group = Group::from_vec(values);
    assert!(rt; group.len() == 2 && !group.is_empty());
    assert!(rt; group.iter().next() == Some(&5));
    assert!(rt; Group::<u8>::from_vec(Vec::new(alloc)).is_empty());
    Ok(())
}
