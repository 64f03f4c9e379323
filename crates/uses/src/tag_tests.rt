//! Which of two equal keys stays in a sorted map, call by call.
use sorted_vector_map::SortedVectorMap;
use std::alloc::Global;
use std::test::Fail;

// Tags are equal where their numbers are.
#[derive(Clone, Copy, Drop)]
#[derive_where(PartialEq, Eq, PartialOrd, Ord, Debug)]
struct Tag {
    number: u32,
    #[derive_where(skip(EqHashOrd))]
    label: char,
}

fn seven(label: char) -> Tag {
    Tag { number: 7, label }
}

// A map of one pair, whose key has the label.
fn map_of_seven(alloc: Global, label: char) -> Result<SortedVectorMap<Tag, u32>, Fail> {
    let mut map = SortedVectorMap::new(alloc);
    map.insert(seven(label), 1)?;
    Ok(map)
}

// Whether the map has one pair, with that label and that value.
fn is_one(map: &SortedVectorMap<Tag, u32>, label: char, value: u32) -> bool {
    map.len() == 1
        && map
            .first_key_value()
            .is_some_and(|pair| pair.0.label == label && *pair.1 == value)
}

#[test]
fn insert_and_entry_keep_the_stored_key(rt: HostRuntime) -> Result<(), Fail> {
    let mut map = map_of_seven(rt.alloc(), 'x')?;
    assert_eq!(rt; map.insert(seven('y'), 2)?, Some(1));
    assert!(rt; is_one(&map, 'x', 2));
    *map.entry(seven('z')).or_insert(3)? = 4;
    assert!(rt; is_one(&map, 'x', 4));
    Ok(())
}

#[test]
fn append_and_many_new_pairs_replace_the_stored_key(rt: HostRuntime) -> Result<(), Fail> {
    let mut map = map_of_seven(rt.alloc(), 'x')?;
    map.append(&mut map_of_seven(rt.alloc(), 'y')?)?;
    assert!(rt; is_one(&map, 'y', 1));
    map.extend_with_vec(vec![in rt.alloc(); (seven('v'), 5u32)]?)?;
    assert!(rt; is_one(&map, 'y', 5));
    map.extend_with_vec(vec![in rt.alloc(); (seven('v'), 6u32), (seven('w'), 7)]?)?;
    assert!(rt; is_one(&map, 'w', 7));
    Ok(())
}
