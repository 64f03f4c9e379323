//! What comes of two sets, and which of two equal items stays.
ghost use Rattle.std.specs.Iterator.{IsFinite};

use crate::tests::{Tag, labelled, set_of};
use sorted_vector_set::{NoMemory, SortedVectorSet};
use std::alloc::{AllocError, Global};
use std::test::Fail;

const FIRST: [u32; 7] = [1, 3, 4, 5, 6, 7, 9];

const SECOND: [u32; 7] = [2, 4, 5, 6, 7, 8, 10];

#[test]
fn the_four_operations_on_two_sets(rt: HostRuntime) -> Result<(), Fail> {
    let first = set_of(rt.alloc(), &FIRST)?;
    let second = set_of(rt.alloc(), &SECOND)?;
    let both = first.bitand(rt.alloc(), &second)?;
    assert_eq!(rt; both.iter().as_slice(), [4, 5, 6, 7].as_slice());
    let own = first.sub(rt.alloc(), &second)?;
    assert_eq!(rt; own.iter().as_slice(), [1, 3, 9].as_slice());
    let apart = first.bitxor(rt.alloc(), &second)?;
    assert_eq!(rt; apart.iter().as_slice(), [1, 2, 3, 8, 9, 10].as_slice());
    let either = first.bitor(rt.alloc(), &second)?;
    assert_eq!(rt;
        either.iter().as_slice(),
        [1, 2, 3, 4, 5, 6, 7, 8, 9, 10].as_slice()
    );
    Ok(())
}

fn listed<'a, I: Iterator<Item = &'a u32>>(alloc: Global, items: I) -> Result<Vec<u32>, AllocError>
    requires can { I.can_next items }
    requires finite { IsFinite (I.remaining items) }
{
    items.copied().collect(alloc)
}

#[test]
fn the_four_operations_come_lazily(rt: HostRuntime) -> Result<(), Fail> {
    let first = set_of(rt.alloc(), &[1, 4, 9])?;
    let second = set_of(rt.alloc(), &[2, 4])?;
    let shared = listed(rt.alloc(), first.intersection(&second))?;
    assert_eq!(rt; shared.as_slice(), [4].as_slice());
    let missing = listed(rt.alloc(), first.difference(&second))?;
    assert_eq!(rt; missing.as_slice(), [1, 9].as_slice());
    let apart = listed(rt.alloc(), first.symmetric_difference(&second))?;
    assert_eq!(rt; apart.as_slice(), [1, 2, 9].as_slice());
    let either = listed(rt.alloc(), first.union(&second))?;
    assert_eq!(rt; either.as_slice(), [1, 2, 4, 9].as_slice());
    Ok(())
}

#[test]
fn a_stream_may_be_dropped_after_one_item(rt: HostRuntime) -> Result<(), Fail> {
    let first = set_of(rt.alloc(), &FIRST)?;
    let second = set_of(rt.alloc(), &SECOND)?;
    let mut either = first.union(&second);
    assert_eq!(rt; either.next().copied(), Some(1));
    drop(either);
    let mut shared = first.intersection(&second);
    assert_eq!(rt; shared.next().copied(), Some(4));
    drop(shared);
    let mut missing = first.difference(&second);
    assert_eq!(rt; missing.next().copied(), Some(1));
    drop(missing);
    let mut apart = second.symmetric_difference(&first);
    assert_eq!(rt; apart.next().copied(), Some(1));
    drop(apart);
    assert_eq!(rt; first.len(), 7);
    Ok(())
}

#[test]
fn a_clone_of_a_union_gives_the_same_rest(rt: HostRuntime) -> Result<(), Fail> {
    let first = set_of(rt.alloc(), &FIRST)?;
    let second = set_of(rt.alloc(), &SECOND)?;
    let mut either = first.union(&second);
    either.next();
    let rest = listed(rt.alloc(), either.clone()?)?;
    assert_eq!(rt; rest.as_slice(), [2, 3, 4, 5, 6, 7, 8, 9, 10].as_slice());
    assert_eq!(rt; either.next().copied(), Some(2));
    Ok(())
}

#[test]
fn a_clone_of_an_intersection_gives_the_same_rest(rt: HostRuntime) -> Result<(), Fail> {
    let first = set_of(rt.alloc(), &FIRST)?;
    let second = set_of(rt.alloc(), &SECOND)?;
    let mut shared = first.intersection(&second);
    shared.next();
    let rest = listed(rt.alloc(), shared.clone()?)?;
    assert_eq!(rt; rest.as_slice(), [5, 6, 7].as_slice());
    assert_eq!(rt; shared.next().copied(), Some(5));
    Ok(())
}

#[test]
fn a_clone_of_a_difference_gives_the_same_rest(rt: HostRuntime) -> Result<(), Fail> {
    let first = set_of(rt.alloc(), &FIRST)?;
    let second = set_of(rt.alloc(), &SECOND)?;
    let mut missing = first.difference(&second);
    missing.next();
    let rest = listed(rt.alloc(), missing.clone()?)?;
    assert_eq!(rt; rest.as_slice(), [3, 9].as_slice());
    assert_eq!(rt; missing.next().copied(), Some(3));
    Ok(())
}

#[test]
fn a_clone_of_a_symmetric_difference_gives_the_same_rest(rt: HostRuntime) -> Result<(), Fail> {
    let first = set_of(rt.alloc(), &FIRST)?;
    let second = set_of(rt.alloc(), &SECOND)?;
    let mut apart = first.symmetric_difference(&second);
    apart.next();
    let rest = listed(rt.alloc(), apart.clone()?)?;
    assert_eq!(rt; rest.as_slice(), [2, 3, 8, 9, 10].as_slice());
    assert_eq!(rt; apart.next().copied(), Some(2));
    Ok(())
}

#[test]
fn hints_go_by_the_lengths_that_are_left(rt: HostRuntime) -> Result<(), Fail> {
    let first = set_of(rt.alloc(), &FIRST)?;
    let second = set_of(rt.alloc(), &[4, 10])?;
    assert_eq!(rt; first.intersection(&second).size_hint(), (0, Some(2)));
    assert_eq!(rt; first.difference(&second).size_hint(), (5, Some(7)));
    assert_eq!(rt;
        first.symmetric_difference(&second).size_hint(),
        (0, Some(9))
    );
    let mut either = first.union(&second);
    assert_eq!(rt; either.size_hint(), (7, Some(9)));
    either.next();
    assert_eq!(rt; either.size_hint(), (6, Some(8)));
    Ok(())
}

#[test]
fn a_part_is_a_subset_of_the_whole(rt: HostRuntime) -> Result<(), Fail> {
    let whole = set_of(rt.alloc(), &FIRST)?;
    let one = set_of(rt.alloc(), &[4])?;
    let most = set_of(rt.alloc(), &[3, 4, 5, 6, 7])?;
    let other = set_of(rt.alloc(), &[3, 4, 5, 6, 8])?;
    assert!(rt; one.is_subset(&whole));
    assert!(rt; !whole.is_subset(&one));
    assert!(rt; most.is_subset(&whole));
    assert!(rt; !other.is_subset(&whole));
    assert!(rt; whole.is_superset(&most));
    assert!(rt; !most.is_superset(&whole));
    Ok(())
}

#[test]
fn sets_that_share_an_item_are_not_disjoint(rt: HostRuntime) -> Result<(), Fail> {
    let odd = set_of(rt.alloc(), &[1, 3, 5])?;
    let even = set_of(rt.alloc(), &[2, 4])?;
    let none = set_of(rt.alloc(), &[])?;
    assert!(rt; odd.is_disjoint(&even));
    assert!(rt; !odd.is_disjoint(&odd));
    assert!(rt; none.is_disjoint(&odd));
    assert!(rt; none.is_subset(&even));
    Ok(())
}

// The set of the numbers 7 and n, with the label.
fn tagged(alloc: Global, n: u32, label: char) -> Result<SortedVectorSet<Tag>, Fail> {
    let mut set = SortedVectorSet::new(alloc);
    set.insert(labelled(7, label))?;
    set.insert(labelled(n, label))?;
    Ok(set)
}

fn labels(alloc: Global, set: &SortedVectorSet<Tag>) -> Result<Vec<char>, NoMemory> {
    let mut labels = Vec::new(alloc);
    for tag in set {
        labels.push(tag.label)?;
    }
    Ok(labels)
}

#[test]
fn what_is_put_in_replaces_an_equal_item(rt: HostRuntime) -> Result<(), Fail> {
    let mut set = tagged(rt.alloc(), 8, 'x')?;
    set.insert(labelled(7, 'y'))?;
    assert_eq!(rt; labels(rt.alloc(), &set)?.as_slice(), ['y', 'x'].as_slice());
    set.extend([labelled(8, 'a'), labelled(8, 'b'), labelled(9, 'c')])?;
    assert_eq!(rt;
        labels(rt.alloc(), &set)?.as_slice(),
        ['y', 'b', 'c'].as_slice()
    );
    set.extend([labelled(9, 'd')])?;
    assert!(rt;
        set.get(&labelled(9, 'q'))
            .is_some_and(|tag| tag.label == 'd')
    );
    assert!(rt;
        set.take(&labelled(8, 'q'))
            .is_some_and(|tag| tag.label == 'b')
    );
    Ok(())
}

#[test]
fn appending_keeps_the_items_of_the_other_set(rt: HostRuntime) -> Result<(), Fail> {
    let mut set = tagged(rt.alloc(), 8, 'x')?;
    let mut other = tagged(rt.alloc(), 9, 'y')?;
    set.append(&mut other)?;
    assert_eq!(rt;
        labels(rt.alloc(), &set)?.as_slice(),
        ['y', 'x', 'y'].as_slice()
    );
    assert!(rt; other.is_empty());
    Ok(())
}

#[test]
fn a_union_has_the_items_of_the_other_set(rt: HostRuntime) -> Result<(), Fail> {
    let set = tagged(rt.alloc(), 8, 'x')?;
    let other = tagged(rt.alloc(), 9, 'y')?;
    let either = set.bitor(rt.alloc(), &other)?;
    assert_eq!(rt;
        labels(rt.alloc(), &either)?.as_slice(),
        ['y', 'x', 'y'].as_slice()
    );
    assert!(rt; set.union(&other).next().is_some_and(|tag| tag.label == 'y'));
    Ok(())
}

#[test]
fn an_intersection_has_its_own_items(rt: HostRuntime) -> Result<(), Fail> {
    let set = tagged(rt.alloc(), 8, 'x')?;
    let other = tagged(rt.alloc(), 9, 'y')?;
    let both = set.bitand(rt.alloc(), &other)?;
    assert_eq!(rt; labels(rt.alloc(), &both)?.as_slice(), ['x'].as_slice());
    let apart = set.bitxor(rt.alloc(), &other)?;
    assert_eq!(rt;
        labels(rt.alloc(), &apart)?.as_slice(),
        ['x', 'y'].as_slice()
    );
    Ok(())
}
