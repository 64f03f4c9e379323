//! The callers at concrete types.
use crate::{is_part_of, items_of_both, keys_of_either, number_of_keys};
use sorted_vector_map::SortedVectorMap;
use sorted_vector_set::SortedVectorSet;
use std::alloc::Global;
use std::test::Fail;

fn set_of(alloc: Global, items: &[u16]) -> Result<SortedVectorSet<u16>, Fail> {
    let mut set = SortedVectorSet::new(alloc);
    for item in items {
        set.insert(*item)?;
    }
    Ok(set)
}

fn map_of(alloc: Global, keys: &[u16]) -> Result<SortedVectorMap<u16, char>, Fail> {
    let mut map = SortedVectorMap::new(alloc);
    for key in keys {
        map.insert(*key, 'x')?;
    }
    Ok(map)
}

#[test]
fn keys_of_two_maps(rt: HostRuntime) -> Result<(), Fail> {
    let alloc = rt.alloc();
    let a = map_of(alloc, &[80, 443, 22])?;
    let b = map_of(alloc, &[443, 25])?;
    let keys = keys_of_either(alloc, &a, &b)?;
    assert_eq!(rt; keys.as_slice(), [22, 25, 80, 443].as_slice());
    assert_eq!(rt; number_of_keys(&a, &b), 4);
    Ok(())
}

#[test]
fn items_of_two_sets(rt: HostRuntime) -> Result<(), Fail> {
    let alloc = rt.alloc();
    let a = set_of(alloc, &[7, 1, 5])?;
    let b = set_of(alloc, &[5, 9, 1])?;
    let both = items_of_both(alloc, &a, &b)?;
    assert_eq!(rt; both.as_slice(), [1, 5].as_slice());
    assert!(rt; !is_part_of(&a, &b));
    assert!(rt; is_part_of(&set_of(alloc, &[9, 5])?, &b));
    Ok(())
}
