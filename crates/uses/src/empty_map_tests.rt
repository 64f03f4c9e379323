//! What a sorted map without pairs answers.
use sorted_vector_map::SortedVectorMap;
use std::test::Fail;

#[test]
fn nothing_is_found_in_an_empty_map(rt: HostRuntime) -> Result<(), Fail> {
    let mut map: SortedVectorMap<u32, char> = SortedVectorMap::new(rt.alloc());
    assert!(rt; map.get(&1).is_none());
    assert!(rt; map.get_key_value(&1).is_none());
    assert!(rt; map.get_mut(&1).is_none());
    assert!(rt; map.get_key_value_at_index(0).is_none());
    assert!(rt; !map.contains_key(&1));
    Ok(())
}

#[test]
fn nothing_is_taken_out_of_an_empty_map(rt: HostRuntime) -> Result<(), Fail> {
    let mut map: SortedVectorMap<u32, char> = SortedVectorMap::new(rt.alloc());
    assert!(rt; map.remove(&1).is_none());
    assert!(rt; map.remove_entry(&1).is_none());
    assert!(rt; map.pop_last().is_none());
    Ok(())
}

#[test]
fn an_empty_map_has_no_first_and_no_last_pair(rt: HostRuntime) -> Result<(), Fail> {
    let mut map: SortedVectorMap<u32, char> = SortedVectorMap::new(rt.alloc());
    assert!(rt; map.first_key_value().is_none());
    assert!(rt; map.last_key_value().is_none());
    assert!(rt; map.first_entry().is_none());
    assert!(rt; map.last_entry().is_none());
    Ok(())
}
