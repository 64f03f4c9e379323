//! What the contracts mean by example, and a caller that reads a whole set.
ghost use Rattle.std.specs.Prelude.{◌≡◌, IfOk};
ghost use Rattle.std.specs.Ordering.{nat_cmp};
ghost use Rattle.std.specs.Range.Bound.{bound_map};
ghost use Rattle.ordered_lists.specs.Bounds.{AreInOrder};

use crate::callers::{is_let_in, stream_of, those_between};
use sorted_vector_set::{NoMemory, SortedVectorSet};
use std::alloc::Global;
use std::collections::BTreeSet;
use std::hash::{DefaultHasher, Hash, Hasher};
use std::iter::ExactSizeIterator;
use std::ops::Bound;
use std::test::Fail;

// Tags are equal where their numbers are.
#[derive(Clone, Copy, Drop)]
#[derive_where(PartialEq, Eq, PartialOrd, Ord, Debug)]
pub(crate) struct Tag {
    pub(crate) number: u32,
    #[derive_where(skip(EqHashOrd))]
    pub(crate) label: char,
}

pub(crate) fn labelled(number: u32, label: char) -> Tag {
    Tag { number, label }
}

pub(crate) fn listed(alloc: Global, set: &SortedVectorSet<u32>) -> Result<Vec<u32>, NoMemory>
    ensures { IfOk result (λ list. list.items ≡ set.now.items) }
{
    let mut list = Vec::new(alloc);
    for item in set {
        list.push(*item)?;
    }
    Ok(list)
}

#[test]
fn insert_tells_what_is_new(rt: HostRuntime) -> Result<(), Fail> {
    let mut set = SortedVectorSet::with_capacity(rt.alloc(), 4)?;
    for (item, new) in [(1, true), (2, true), (4, true), (3, true), (1, false)] {
        assert_eq!(rt; set.insert(item)?, new, "at {item}");
    }
    assert_eq!(rt;
        listed(rt.alloc(), &set)?.as_slice(),
        [1, 2, 3, 4].as_slice()
    );
    assert_eq!(rt; set.len(), 4);
    for (item, present) in [(0, false), (1, true), (3, true), (4, true), (5, false)] {
        assert_eq!(rt; set.contains(&item), present, "at {item}");
    }
    Ok(())
}

#[test]
fn replaced_item_gives_way(rt: HostRuntime) -> Result<(), Fail> {
    let mut set = SortedVectorSet::new(rt.alloc());
    assert!(rt; set.is_empty());
    set.insert(labelled(7, 'x'))?;
    let old = set.replace(labelled(7, 'y'))?;
    assert!(rt; old.is_some_and(|tag| tag.label == 'x'));
    assert_eq!(rt; set.len(), 1);
    for tag in set {
        assert_eq!(rt; (tag.number, tag.label), (7, 'y'));
    }
    Ok(())
}

fn hash_of<T: Hash>(value: &T) -> u64 {
    let mut state = DefaultHasher::new();
    value.hash(&mut state);
    state.finish()
}

pub(crate) fn set_of(alloc: Global, items: &[u32]) -> Result<SortedVectorSet<u32>, Fail> {
    let mut set = SortedVectorSet::new(alloc);
    for item in items {
        set.insert(*item)?;
    }
    Ok(set)
}

#[test]
fn equal_lists_make_equal_sets(rt: HostRuntime) -> Result<(), Fail> {
    let low = set_of(rt.alloc(), &[3, 1])?;
    let high = set_of(rt.alloc(), &[1, 3])?;
    assert!(rt; low == high);
    assert_eq!(rt; hash_of(&low), hash_of(&high));
    Ok(())
}

#[test]
fn a_set_is_ordered_and_shown_as_its_list(rt: HostRuntime) -> Result<(), Fail> {
    let short = set_of(rt.alloc(), &[3, 1])?;
    let long = set_of(rt.alloc(), &[1, 3, 2])?;
    assert!(rt; long.cmp(&short).is_lt());
    assert_eq!(rt; long.iter().next_back().copied(), Some(3));
    let shown = format!(in rt.alloc(); "{long:?}")?;
    assert_eq!(rt; shown.as_str(), "{1, 2, 3}");
    Ok(())
}

fn items_within(
    alloc: Global,
    set: &SortedVectorSet<u32>,
    low: Bound<&u32>,
    high: Bound<&u32>,
) -> Result<Vec<u32>, NoMemory>
    requires { AreInOrder nat_cmp (bound_map (λ x. x.now) low) (bound_map (λ x. x.now) high) }
{
    let mut items = Vec::new(alloc);
    for item in set.range(low, high) {
        items.push(*item)?;
    }
    Ok(items)
}

#[test]
fn a_range_holds_its_included_ends_alone(rt: HostRuntime) -> Result<(), Fail> {
    let odd = set_of(rt.alloc(), &[1, 3, 5, 7, 9, 11])?;
    let some = items_within(rt.alloc(), &odd, Bound::Included(&3), Bound::Excluded(&9))?;
    assert_eq!(rt; some.as_slice(), [3, 5, 7].as_slice());
    let last = items_within(rt.alloc(), &odd, Bound::Excluded(&7), Bound::Unbounded)?;
    assert_eq!(rt; last.as_slice(), [9, 11].as_slice());
    let first = items_within(rt.alloc(), &odd, Bound::Unbounded, Bound::Included(&5))?;
    assert_eq!(rt; first.as_slice(), [1, 3, 5].as_slice());
    Ok(())
}

#[test]
fn split_parts_come_together(rt: HostRuntime) -> Result<(), Fail> {
    let mut first = set_of(rt.alloc(), &[1, 3, 5, 7, 9, 11])?;
    let mut second = first.split_off(rt.alloc(), &7)?;
    assert_eq!(rt;
        listed(rt.alloc(), &first)?.as_slice(),
        [1, 3, 5].as_slice()
    );
    assert_eq!(rt; second.iter().as_slice(), [7, 9, 11].as_slice());
    second.extend([4, 5, 6, 7, 8])?;
    assert_eq!(rt; second.iter().as_slice(), [4, 5, 6, 7, 8, 9, 11].as_slice());
    second.append(&mut first)?;
    assert_eq!(rt;
        second.iter().as_slice(),
        [1, 3, 4, 5, 6, 7, 8, 9, 11].as_slice()
    );
    assert!(rt; first.is_empty());
    Ok(())
}

#[test]
fn new_items_come_into_order(rt: HostRuntime) -> Result<(), Fail> {
    let mut set = SortedVectorSet::new(rt.alloc());
    let mut new = Vec::new(rt.alloc());
    for item in [3, 2, 1, 6, 4, 5, 1, 6] {
        new.push(item)?;
    }
    set.extend_with_vec(new)?;
    assert_eq!(rt;
        listed(rt.alloc(), &set)?.as_slice(),
        [1, 2, 3, 4, 5, 6].as_slice()
    );
    Ok(())
}

#[test]
fn one_set_is_made_in_four_ways(rt: HostRuntime) -> Result<(), Fail> {
    let from_iter: SortedVectorSet<u32> = SortedVectorSet::try_from_iter(rt.alloc(), [2, 1])?;
    assert_eq!(rt; from_iter.iter().as_slice(), [1, 2].as_slice());
    let mut tree = BTreeSet::new(rt.alloc());
    tree.insert(2u32)?;
    tree.insert(1)?;
    let from_tree = SortedVectorSet::try_from_btree_set(rt.alloc(), tree)?;
    assert!(rt; from_tree == from_iter);
    let mut copied = SortedVectorSet::new(rt.alloc());
    copied.extend_copied(&[2, 1])?;
    assert!(rt; copied == from_iter);
    let clone = from_iter.try_clone(rt.alloc())?;
    assert!(rt; clone == from_iter);
    Ok(())
}

#[test]
fn items_are_taken_out(rt: HostRuntime) -> Result<(), Fail> {
    let mut set = set_of(rt.alloc(), &[1, 2, 3, 4, 5, 6])?;
    assert_eq!(rt; set.take(&3), Some(3));
    assert_eq!(rt; set.take(&3), None);
    assert!(rt; set.remove(&1));
    assert!(rt; !set.remove(&7));
    assert_eq!(rt; set.pop_last(), Some(6));
    set.retain(|item| item % 2 == 0);
    assert_eq!(rt; set.iter().as_slice(), [2, 4].as_slice());
    assert_eq!(rt;
        (set.first().copied(), set.last().copied()),
        (Some(2), Some(4))
    );
    assert_eq!(rt; set.into_inner().as_slice(), [2, 4].as_slice());
    Ok(())
}

#[test]
fn nothing_is_in_an_empty_set(rt: HostRuntime) -> Result<(), Fail> {
    let mut set = set_of(rt.alloc(), &[1, 2])?;
    set.clear();
    assert!(rt; set.is_empty());
    assert_eq!(rt; (set.first().copied(), set.last().copied()), (None, None));
    assert_eq!(rt; set.get(&1).copied(), None);
    assert_eq!(rt; set.pop_last(), None);
    Ok(())
}

#[test]
fn items_come_from_both_ends(rt: HostRuntime) -> Result<(), Fail> {
    let set = set_of(rt.alloc(), &[1, 2, 3, 4])?;
    let mut items = set.iter();
    assert_eq!(rt; items.len(), 4);
    assert_eq!(rt;
        (items.next().copied(), items.next_back().copied()),
        (Some(1), Some(4))
    );
    assert_eq!(rt; items.len(), 2);
    let mut owned = set.into_iter();
    assert_eq!(rt; (owned.next_back(), owned.next()), (Some(4), Some(1)));
    assert_eq!(rt; owned.len(), 2);
    Ok(())
}

#[test]
fn who_is_let_in(rt: HostRuntime) -> Result<(), Fail> {
    let guests = set_of(rt.alloc(), &[1, 2, 3])?;
    let barred = set_of(rt.alloc(), &[3, 4])?;
    for (guest, wanted) in [(1, true), (3, false), (4, false), (5, false)] {
        assert!(rt; is_let_in(&guests, &barred, guest) == wanted);
    }
    Ok(())
}

#[test]
fn a_set_is_a_stream_in_order(rt: HostRuntime) -> Result<(), Fail> {
    let set = set_of(rt.alloc(), &[80, 22, 443, 8080])?;
    let low = those_between(rt.alloc(), &set, 0, 1024)?;
    assert_eq!(rt; low.as_slice(), [22, 80, 443].as_slice());
    assert_eq!(rt; stream_of(&set).len(), 4);
    Ok(())
}
