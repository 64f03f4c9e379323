//! What the contracts mean by example, and a caller that reads a whole map.
ghost use Rattle.std.specs.Prelude.{◌≡◌, IfOk, map};
ghost use Rattle.std.specs.Ordering.{nat_cmp};
ghost use Rattle.std.specs.Range.Bound.{bound_map};
ghost use Rattle.ordered_lists.specs.Bounds.{AreInOrder};

use crate::callers::{
    clone_gives_the_same, clone_is_equal, put_and_read, read_or_default, read_or_fill,
    read_or_insert, read_or_insert_with,
};
use crate::iter_mut_tests::even_keys;
use sorted_vector_map::{NoMemory, SortedVectorMap};
use std::alloc::Global;
use std::collections::BTreeMap;
use std::hash::{DefaultHasher, Hash, Hasher};
use std::iter::ExactSizeIterator;
use std::ops::Bound;
use std::test::Fail;

// Tags are equal where their numbers are.
#[derive(Clone, Copy, Drop)]
#[derive_where(PartialEq, Eq, PartialOrd, Ord, Debug)]
struct Tag {
    number: u32,
    #[derive_where(skip(EqHashOrd))]
    label: char,
}

fn labelled(number: u32, label: char) -> Tag {
    Tag { number, label }
}

fn keys_of(alloc: Global, ages: &SortedVectorMap<u32, u32>) -> Result<Vec<u32>, NoMemory>
    ensures { IfOk result (λ keys. keys.items ≡ map (λ p. p.0) ages.now.pairs) }
{
    let mut keys = Vec::new(alloc);
    for key in ages.keys() {
        keys.push(*key)?;
    }
    Ok(keys)
}

fn hash_of<T: Hash>(value: &T) -> u64 {
    let mut state = DefaultHasher::new();
    value.hash(&mut state);
    state.finish()
}

fn numbered(alloc: Global, low: u32, high: u32) -> Result<SortedVectorMap<u32, u32>, Fail> {
    let mut map = SortedVectorMap::new(alloc);
    for key in low..high {
        map.insert(key, 0)?;
    }
    Ok(map)
}

#[test]
fn split_parts_come_together(rt: HostRuntime) -> Result<(), Fail> {
    let mut first = numbered(rt.alloc(), 1, 6)?;
    let mut second = first.split_off(rt.alloc(), &3)?;
    assert_eq!(rt; keys_of(rt.alloc(), &first)?.as_slice(), [1, 2].as_slice());
    assert_eq!(rt;
        keys_of(rt.alloc(), &second)?.as_slice(),
        [3, 4, 5].as_slice()
    );
    second.extend([(6, 0), (7, 0)])?;
    assert_eq!(rt;
        keys_of(rt.alloc(), &second)?.as_slice(),
        [3, 4, 5, 6, 7].as_slice()
    );
    second.append(&mut first)?;
    assert_eq!(rt;
        keys_of(rt.alloc(), &second)?.as_slice(),
        [1, 2, 3, 4, 5, 6, 7].as_slice()
    );
    assert!(rt; first.is_empty());
    Ok(())
}

#[test]
fn last_of_equal_new_keys_wins(rt: HostRuntime) -> Result<(), Fail> {
    let mut map = SortedVectorMap::new(rt.alloc());
    let mut new = Vec::new(rt.alloc());
    for pair in [(3u32, 'a'), (1, 'b'), (1, 'c')] {
        new.push(pair)?;
    }
    map.extend_with_vec(new)?;
    assert_eq!(rt; map.get(&1).copied(), Some('c'));
    assert_eq!(rt; map.get(&3).copied(), Some('a'));
    assert_eq!(rt; map.len(), 2);
    Ok(())
}

// Whether the first key is 7 with the label, and its value is 2.
fn first_is(map: &SortedVectorMap<Tag, u32>, label: char) -> bool {
    map.first_key_value().is_some_and(|pair| pair.0.number == 7
        && pair.0.label == label
        && *pair.1 == 2)
}

fn labelled_seven(alloc: Global) -> Result<SortedVectorMap<Tag, u32>, Fail> {
    let mut map = SortedVectorMap::new(alloc);
    map.insert(labelled(7, 'x'), 1)?;
    Ok(map)
}

#[test]
fn appending_replaces_the_stored_key(rt: HostRuntime) -> Result<(), Fail> {
    let mut map = labelled_seven(rt.alloc())?;
    let mut other = SortedVectorMap::new(rt.alloc());
    other.insert(labelled(7, 'y'), 2)?;
    map.append(&mut other)?;
    assert!(rt; first_is(&map, 'y'));
    assert!(rt; other.is_empty());
    Ok(())
}

fn keys_within(
    alloc: Global,
    map: &SortedVectorMap<u32, u32>,
    low: Bound<&u32>,
    high: Bound<&u32>,
) -> Result<Vec<u32>, NoMemory>
    requires { AreInOrder nat_cmp (bound_map (λ k. k.now) low) (bound_map (λ k. k.now) high) }
{
    let mut keys = Vec::new(alloc);
    for (key, _) in map.range(low, high) {
        keys.push(*key)?;
    }
    Ok(keys)
}

#[test]
fn a_range_holds_its_included_ends(rt: HostRuntime) -> Result<(), Fail> {
    let map = even_keys(rt.alloc())?;
    let keys = keys_within(rt.alloc(), &map, Bound::Included(&5), Bound::Included(&14))?;
    assert_eq!(rt; keys.as_slice(), [6, 8, 10, 12, 14].as_slice());
    Ok(())
}

#[test]
fn a_range_without_a_low_bound_begins_at_the_first_key(rt: HostRuntime) -> Result<(), Fail> {
    let map = even_keys(rt.alloc())?;
    let keys = keys_within(rt.alloc(), &map, Bound::Unbounded, Bound::Excluded(&7))?;
    assert_eq!(rt; keys.as_slice(), [0, 2, 4, 6].as_slice());
    Ok(())
}

#[test]
fn a_map_and_its_entries_are_shown(rt: HostRuntime) -> Result<(), Fail> {
    let mut map = SortedVectorMap::try_from_iter(rt.alloc(), [(2u32, 20u32), (1, 10)])?;
    let shown = format!(in rt.alloc(); "{map:?}")?;
    assert_eq!(rt; shown.as_str(), "{1: 10, 2: 20}");
    let occupied = map.entry(2);
    let pair = format!(in rt.alloc(); "{occupied:?}")?;
    assert_eq!(rt; pair.as_str(), "{2: 20}");
    let vacant = map.entry(3);
    let key = format!(in rt.alloc(); "{vacant:?}")?;
    assert_eq!(rt; key.as_str(), "{3}");
    Ok(())
}

#[test]
fn insert_answers_the_old_value(rt: HostRuntime) -> Result<(), Fail> {
    let mut map = SortedVectorMap::with_capacity(rt.alloc(), 4)?;
    for key in [2u32, 1, 4, 3] {
        assert_eq!(rt; map.insert(key, 'a')?, None, "at {key}");
    }
    assert_eq!(rt; map.insert(1, 'b')?, Some('a'));
    assert_eq!(rt; map.len(), 4);
    for (index, key) in [(0usize, 1u32), (1, 2), (2, 3), (3, 4)] {
        let found = map.get_key_value_at_index(index);
        assert!(rt; found.is_some_and(|pair| *pair.0 == key), "at {index}");
    }
    assert_eq!(rt; map.get(&1).copied(), Some('b'));
    Ok(())
}

#[test]
fn a_key_that_was_put_in_is_read(rt: HostRuntime) -> Result<(), Fail> {
    let mut ages = SortedVectorMap::new(rt.alloc());
    assert_eq!(rt; put_and_read(&mut ages, 'a', 100)?, 100);
    assert_eq!(rt; read_or_insert(&mut ages, 'a', 1)?, 100);
    assert_eq!(rt; read_or_insert_with(&mut ages, 'g', 7)?, 7);
    assert_eq!(rt; read_or_default(&mut ages, 'f')?, 0);
    assert_eq!(rt; read_or_fill(&mut ages, 'h', 9)?, 9);
    assert_eq!(rt; ages.len(), 4);
    Ok(())
}

#[test]
fn default_is_called_where_the_entry_is_vacant(rt: HostRuntime) -> Result<(), Fail> {
    let mut map = SortedVectorMap::new(rt.alloc());
    let mut calls = 0u32;
    for (key, total) in [('a', 1u32), ('a', 1), ('b', 2), ('b', 2), ('a', 2)] {
        map.entry(key).or_insert_with(|| {
            calls = calls.wrapping_add(1);
            calls
        })?;
        assert_eq!(rt; calls, total, "at {key}");
    }
    assert_eq!(rt; map.get(&'b').copied(), Some(2));
    Ok(())
}

#[test]
fn a_change_is_called_where_the_entry_is_occupied(rt: HostRuntime) -> Result<(), Fail> {
    let mut map = numbered(rt.alloc(), 1, 3)?;
    let mut calls = 0u32;
    for (key, total) in [(0u32, 0u32), (1, 1), (3, 1), (2, 2), (4, 2)] {
        let entry = map.entry(key).and_modify(|value| {
            calls = calls.wrapping_add(1);
            *value = calls;
        });
        assert_eq!(rt; *entry.key(), key);
        assert_eq!(rt; calls, total, "at {key}");
    }
    assert_eq!(rt; map.get(&2).copied(), Some(2));
    Ok(())
}

#[test]
fn a_few_new_pairs_keep_or_replace_the_stored_key(rt: HostRuntime) -> Result<(), Fail> {
    let mut inserted = labelled_seven(rt.alloc())?;
    assert_eq!(rt; inserted.insert(labelled(7, 'y'), 2)?, Some(1));
    assert!(rt; first_is(&inserted, 'x'));
    for (last, label) in [(7u32, 'x'), (8, 'y')] {
        let mut map = labelled_seven(rt.alloc())?;
        let mut new = Vec::new(rt.alloc());
        for number in 7..=last {
            new.push((labelled(number, 'y'), 2u32))?;
        }
        map.extend_with_vec(new)?;
        assert!(rt; first_is(&map, label), "up to {last}");
    }
    Ok(())
}

#[test]
fn a_tree_a_list_and_a_clone_make_one_map(rt: HostRuntime) -> Result<(), Fail> {
    let made = SortedVectorMap::try_from_iter(rt.alloc(), [(2u32, 20u32), (1, 10)])?;
    let mut tree = BTreeMap::new(rt.alloc());
    tree.insert(1, 10)?;
    tree.insert(2, 20)?;
    let mut copied = SortedVectorMap::new(rt.alloc());
    copied.extend_copied(&tree)?;
    assert!(rt; copied == made);
    let moved = SortedVectorMap::try_from_btree_map(rt.alloc(), tree)?;
    assert!(rt; clone_is_equal(rt.alloc(), &moved)?);
    assert_eq!(rt;
        moved.into_inner().as_slice(),
        [(1, 10), (2, 20)].as_slice()
    );
    Ok(())
}

#[test]
fn maps_are_ordered_and_hashed_as_their_lists(rt: HostRuntime) -> Result<(), Fail> {
    let short = numbered(rt.alloc(), 1, 3)?;
    let long = numbered(rt.alloc(), 1, 4)?;
    assert!(rt; short.cmp(&long).is_lt());
    let again = numbered(rt.alloc(), 1, 3)?;
    assert!(rt; short.cmp(&again).is_eq());
    assert_eq!(rt; hash_of(&short), hash_of(&again));
    Ok(())
}

#[test]
fn pairs_come_from_both_ends(rt: HostRuntime) -> Result<(), Fail> {
    let map = numbered(rt.alloc(), 1, 6)?;
    let mut pairs = map.iter();
    assert!(rt; pairs.next().is_some_and(|pair| *pair.0 == 1));
    assert!(rt; pairs.next_back().is_some_and(|pair| *pair.0 == 5));
    assert_eq!(rt; pairs.len(), 3);
    let mut key = 0;
    for (next, value) in map {
        key = next;
        assert_eq!(rt; value, 0, "at {next}");
    }
    assert_eq!(rt; key, 5);
    Ok(())
}

#[test]
fn keys_meet_in_the_middle(rt: HostRuntime) -> Result<(), Fail> {
    let map = numbered(rt.alloc(), 1, 4)?;
    let mut keys = map.keys();
    assert_eq!(rt; keys.next_back().copied(), Some(3));
    assert_eq!(rt; keys.size_hint(), (2, Some(2)));
    let mut owned = map.into_keys();
    assert_eq!(rt; owned.next(), Some(1));
    assert_eq!(rt; owned.next_back(), Some(3));
    assert_eq!(rt; owned.size_hint(), (1, Some(1)));
    Ok(())
}

fn four(alloc: Global) -> Result<SortedVectorMap<u32, char>, Fail> {
    Ok(SortedVectorMap::try_from_iter(alloc, [(1, 'a'), (2, 'b'), (3, 'c'), (4, 'd')])?)
}

#[test]
fn a_clone_of_pairs_gives_the_same_rest(rt: HostRuntime) -> Result<(), Fail> {
    let map = four(rt.alloc())?;
    let mut pairs = map.iter();
    assert!(rt; pairs.next().is_some_and(|pair| *pair.0 == 1));
    let mut copy = pairs.clone()?;
    assert!(rt;
        pairs
            .next()
            .is_some_and(|pair| *pair.0 == 2 && *pair.1 == 'b')
    );
    assert_eq!(rt; copy.len(), 3);
    assert!(rt;
        copy.next()
            .is_some_and(|pair| *pair.0 == 2 && *pair.1 == 'b')
    );
    assert!(rt;
        copy.next_back()
            .is_some_and(|pair| *pair.0 == 4 && *pair.1 == 'd')
    );
    assert_eq!(rt; copy.len(), 1);
    Ok(())
}

#[test]
fn a_clone_of_keys_gives_the_same_rest(rt: HostRuntime) -> Result<(), Fail> {
    let map = numbered(rt.alloc(), 1, 6)?;
    let mut keys = map.keys();
    assert_eq!(rt; keys.next_back().copied(), Some(5));
    let mut copy = keys.clone()?;
    assert!(rt; clone_gives_the_same(&mut keys)?);
    assert_eq!(rt; copy.len(), 4);
    assert_eq!(rt; copy.next().copied(), Some(1));
    assert_eq!(rt; copy.next_back().copied(), Some(4));
    assert_eq!(rt; keys.len(), 2);
    Ok(())
}

#[test]
fn a_clone_of_values_gives_the_same_rest(rt: HostRuntime) -> Result<(), Fail> {
    let map = four(rt.alloc())?;
    let mut values = map.values();
    assert_eq!(rt; values.next().copied(), Some('a'));
    let mut copy = values.clone()?;
    assert_eq!(rt; values.next_back().copied(), Some('d'));
    assert_eq!(rt; values.len(), 2);
    assert_eq!(rt; copy.len(), 3);
    assert_eq!(rt; copy.next().copied(), Some('b'));
    assert_eq!(rt; copy.next_back().copied(), Some('d'));
    Ok(())
}

#[test]
fn every_iterator_has_its_length(rt: HostRuntime) -> Result<(), Fail> {
    let mut map = four(rt.alloc())?;
    let mut written = map.values_mut();
    written.next();
    assert_eq!(rt; written.len(), 3);
    drop(written);
    let mut keys = four(rt.alloc())?.into_keys();
    keys.next();
    assert_eq!(rt; keys.len(), 3);
    let mut values = map.into_values();
    values.next_back();
    assert_eq!(rt; values.len(), 3);
    Ok(())
}

#[test]
fn pairs_are_taken_out(rt: HostRuntime) -> Result<(), Fail> {
    let mut map = numbered(rt.alloc(), 0, 10)?;
    map.retain(|key, value| {
        *value = *key;
        key % 2 == 1
    });
    assert_eq!(rt; map.remove(&3), Some(3));
    assert_eq!(rt; map.pop_last(), Some((9, 9)));
    let first = map.first_entry().map(|entry| entry.remove_entry());
    assert_eq!(rt; first, Some((1, 1)));
    let last = map.last_entry().map(|entry| entry.remove());
    assert_eq!(rt; last, Some(7));
    assert_eq!(rt; map.last_key_value().map(|pair| *pair.0), Some(5));
    Ok(())
}

#[test]
fn values_are_looked_up_and_written(rt: HostRuntime) -> Result<(), Fail> {
    let mut map = SortedVectorMap::try_from_iter(rt.alloc(), [(2u32, 20u32), (1, 10)])?;
    if let Some(value) = map.get_mut(&1) {
        *value = 11;
    }
    if map.contains_key(&2) {
        *map.index_mut(&2) = 21;
    }
    let mut values = map.values();
    assert_eq!(rt; values.next().copied(), Some(11));
    assert_eq!(rt; values.next_back().copied(), Some(21));
    let mut owned = map.into_values();
    assert_eq!(rt; owned.next_back(), Some(21));
    Ok(())
}

#[test]
fn an_occupied_entry_is_read_and_replaced(rt: HostRuntime) -> Result<(), Fail> {
    let mut map = numbered(rt.alloc(), 1, 2)?;
    if let sorted_vector_map::Entry::Occupied(mut taken) = map.entry(1) {
        assert_eq!(rt; *taken.key(), 1);
        assert_eq!(rt; taken.insert(11), 0);
        *taken.get_mut() = 12;
        assert_eq!(rt; *taken.get(), 12);
        *taken.into_mut() = 13;
    }
    assert_eq!(rt; map.get_key_value(&1).map(|pair| *pair.1), Some(13));
    Ok(())
}

#[test]
fn a_vacant_entry_gives_its_key_back(rt: HostRuntime) -> Result<(), Fail> {
    let mut map = numbered(rt.alloc(), 1, 2)?;
    if let sorted_vector_map::Entry::Vacant(free) = map.entry(2) {
        assert_eq!(rt; *free.key(), 2);
        assert_eq!(rt; free.into_key(), 2);
    }
    map.clear();
    assert!(rt; map.is_empty());
    Ok(())
}
