//! Callers of the streams, each proved to learn the list that it gets, and lists that people know.
#![tactic(auto, using(sorted_iter::specs::Sources::sources, crate::proofs::Literals::literals))]

ghost use Rattle.std.specs.Prelude.{◌≡◌, IfOk};
ghost use Rattle.std.specs.List.Sorted.{IsStrictlySortedBy};
ghost use Rattle.std.specs.Ordering.{nat_cmp};
ghost use Rattle.ordered_lists.specs.Lists.{union, intersection, difference, symmetric_difference};

use sorted_iter::{AssumeSortedByItemExt, SortedIterator};
use std::alloc::{AllocError, Global};
use std::collections::BTreeSet;
use std::test::Fail;

fn union_of<T: Ord + Copy>(alloc: Global, a: &[T], b: &[T]) -> Result<Vec<T>, AllocError>
    requires left { IsStrictlySortedBy T.cmp a.now }
    requires right { IsStrictlySortedBy T.cmp b.now }
    ensures { IfOk result (λ v. v.items ≡ union T.cmp a.now b.now) }
{
    let left = a.iter().copied().assume_sorted_by_item();
    let right = b.iter().copied().assume_sorted_by_item();
    left.union(right).collect(alloc)
}

fn intersection_of<T: Ord + Copy>(alloc: Global, a: &[T], b: &[T]) -> Result<Vec<T>, AllocError>
    requires left { IsStrictlySortedBy T.cmp a.now }
    requires right { IsStrictlySortedBy T.cmp b.now }
    ensures { IfOk result (λ v. v.items ≡ intersection T.cmp a.now b.now) }
{
    let left = a.iter().copied().assume_sorted_by_item();
    let right = b.iter().copied().assume_sorted_by_item();
    left.intersection(right).collect(alloc)
}

fn difference_of<T: Ord + Copy>(alloc: Global, a: &[T], b: &[T]) -> Result<Vec<T>, AllocError>
    requires left { IsStrictlySortedBy T.cmp a.now }
    requires right { IsStrictlySortedBy T.cmp b.now }
    ensures { IfOk result (λ v. v.items ≡ difference T.cmp a.now b.now) }
{
    let left = a.iter().copied().assume_sorted_by_item();
    let right = b.iter().copied().assume_sorted_by_item();
    left.difference(right).collect(alloc)
}

// A loop in place of `collect`.
fn symmetric_difference_of<T: Ord + Copy>(
    alloc: Global,
    a: &[T],
    b: &[T],
) -> Result<Vec<T>, AllocError>
    requires left { IsStrictlySortedBy T.cmp a.now }
    requires right { IsStrictlySortedBy T.cmp b.now }
    ensures { IfOk result (λ v. v.items ≡ symmetric_difference T.cmp a.now b.now) }
{
    let left = a.iter().copied().assume_sorted_by_item();
    let right = b.iter().copied().assume_sorted_by_item();
    let mut all = Vec::new(alloc);
    for x in left.symmetric_difference(right) {
        all.push(x)?;
    }
    Ok(all)
}

// A union of a union, over vectors that are given up.
fn union_of_three<T: Ord + Drop>(
    alloc: Global,
    a: Vec<T>,
    b: Vec<T>,
    c: Vec<T>,
) -> Result<Vec<T>, AllocError>
    requires first { IsStrictlySortedBy T.cmp a.items }
    requires second { IsStrictlySortedBy T.cmp b.items }
    requires third { IsStrictlySortedBy T.cmp c.items }
    ensures { IfOk result (λ v. v.items ≡ union T.cmp (union T.cmp a.items b.items) c.items) }
{
    let first = a.into_iter().assume_sorted_by_item();
    let second = b.into_iter().assume_sorted_by_item();
    let third = c.into_iter().assume_sorted_by_item();
    first.union(second).union(third).collect(alloc)
}

#[test]
fn the_four_operations_on_two_lists(rt: HostRuntime) -> Result<(), Fail> {
    let alloc = rt.alloc();
    let a = [1u32, 2];
    let b = [2u32, 3];
    assert_eq!(rt; union_of(alloc, &a, &b)?.as_slice(), [1, 2, 3].as_slice());
    assert_eq!(rt; intersection_of(alloc, &a, &b)?.as_slice(), [2].as_slice());
    assert_eq!(rt; difference_of(alloc, &a, &b)?.as_slice(), [1].as_slice());
    assert_eq!(rt;
        symmetric_difference_of(alloc, &a, &b)?.as_slice(),
        [1, 3].as_slice()
    );
    Ok(())
}

#[test]
fn what_is_left_of_one_side_comes_last(rt: HostRuntime) -> Result<(), Fail> {
    let alloc = rt.alloc();
    let a = [2u32, 5];
    let b = [1u32, 2, 3, 4];
    assert_eq!(rt;
        union_of(alloc, &a, &b)?.as_slice(),
        [1, 2, 3, 4, 5].as_slice()
    );
    assert_eq!(rt;
        union_of(alloc, &b, &a)?.as_slice(),
        [1, 2, 3, 4, 5].as_slice()
    );
    assert_eq!(rt;
        difference_of(alloc, &b, &a)?.as_slice(),
        [1, 3, 4].as_slice()
    );
    assert_eq!(rt;
        symmetric_difference_of(alloc, &b, &a)?.as_slice(),
        [1, 3, 4, 5].as_slice()
    );
    assert_eq!(rt; intersection_of(alloc, &b, &a)?.as_slice(), [2].as_slice());
    Ok(())
}

#[test]
fn an_empty_side(rt: HostRuntime) -> Result<(), Fail> {
    let alloc = rt.alloc();
    let a = [1u32, 2];
    let none: [u32; 0] = [];
    assert_eq!(rt; union_of(alloc, &a, &none)?.as_slice(), [1, 2].as_slice());
    assert_eq!(rt; union_of(alloc, &none, &a)?.as_slice(), [1, 2].as_slice());
    assert_eq!(rt;
        difference_of(alloc, &a, &none)?.as_slice(),
        [1, 2].as_slice()
    );
    assert!(rt; difference_of(alloc, &none, &a)?.is_empty());
    assert!(rt; intersection_of(alloc, &a, &none)?.is_empty());
    assert!(rt; symmetric_difference_of(alloc, &none, &none)?.is_empty());
    Ok(())
}

#[test]
fn a_union_of_a_union(rt: HostRuntime) -> Result<(), Fail> {
    let alloc = rt.alloc();
    let a = vec![in alloc; 1u32, 4]?;
    let b = vec![in alloc; 2u32, 4]?;
    let c = vec![in alloc; 3u32, 4, 5]?;
    assert_eq!(rt;
        union_of_three(alloc, a, b, c)?.as_slice(),
        [1, 2, 3, 4, 5].as_slice()
    );
    Ok(())
}

/// A value that is compared by its number alone.
#[derive(Clone, Copy)]
#[derive_where(PartialEq, Eq, PartialOrd, Ord)]
struct Tag {
    number: u32,
    #[derive_where(skip(EqHashOrd))]
    label: char,
}

fn labels(alloc: Global, tags: &[Tag]) -> Result<Vec<char>, AllocError> {
    tags.iter().map(|t| t.label).collect(alloc)
}

// The labels of the union, of the intersection and of the symmetric difference.
fn labels_of(
    alloc: Global,
    a: &[Tag],
    b: &[Tag],
) -> Result<(Vec<char>, Vec<char>, Vec<char>), AllocError>
    requires left { IsStrictlySortedBy ⟦<Tag as Ord>⟧.cmp a.now }
    requires right { IsStrictlySortedBy ⟦<Tag as Ord>⟧.cmp b.now }
{
    let either = union_of(alloc, a, b)?;
    let shared = intersection_of(alloc, a, b)?;
    let apart = symmetric_difference_of(alloc, a, b)?;
    let either = labels(alloc, &either)?;
    let shared = labels(alloc, &shared)?;
    let apart = labels(alloc, &apart)?;
    Ok((either, shared, apart))
}

#[test]
fn of_two_equal_items_the_left_one_comes(rt: HostRuntime) -> Result<(), Fail> {
    let alloc = rt.alloc();
    let a = [
        Tag {
            number: 1,
            label: 'a',
        },
        Tag {
            number: 7,
            label: 'b',
        },
    ];
    let b = [
        Tag {
            number: 7,
            label: 'x',
        },
        Tag {
            number: 8,
            label: 'y',
        },
    ];
    let (either, shared, apart) = labels_of(alloc, &a, &b)?;
    assert_eq!(rt; either.as_slice(), ['a', 'b', 'y'].as_slice());
    assert_eq!(rt; shared.as_slice(), ['b'].as_slice());
    assert_eq!(rt; apart.as_slice(), ['a', 'y'].as_slice());
    let (either, shared, apart) = labels_of(alloc, &b, &a)?;
    assert_eq!(rt; either.as_slice(), ['a', 'x', 'y'].as_slice());
    assert_eq!(rt; shared.as_slice(), ['x'].as_slice());
    assert_eq!(rt; apart.as_slice(), ['a', 'y'].as_slice());
    Ok(())
}

#[test]
fn ranges_with_a_vector(rt: HostRuntime) -> Result<(), Fail> {
    let alloc = rt.alloc();
    let all: Vec<u32> = (2..5u32).union(7..=8u32).collect(alloc)?;
    assert_eq!(rt; all.as_slice(), [2, 3, 4, 7, 8].as_slice());
    let signed: Vec<i64> = (-2..3i64).difference(0..=1i64).collect(alloc)?;
    assert_eq!(rt; signed.as_slice(), [-2, -1, 2].as_slice());
    let last: Vec<u8> = (250..=255u8).intersection(253..=255u8).collect(alloc)?;
    assert_eq!(rt; last.as_slice(), [253, 254, 255].as_slice());
    let odd = [1u32, 3, 9];
    assert_eq!(rt;
        with_range(alloc, &odd)?.as_slice(),
        [1, 2, 4, 9].as_slice()
    );
    Ok(())
}

// A range and a slice.
fn with_range(alloc: Global, a: &[u32]) -> Result<Vec<u32>, AllocError>
    requires { IsStrictlySortedBy nat_cmp a.now }
{
    let given = a.iter().copied().assume_sorted_by_item();
    (2..5u32).symmetric_difference(given).collect(alloc)
}

// The keys of two sets: a loop over references.
fn keys_of_union<K: Ord + Copy>(
    alloc: Global,
    a: &BTreeSet<K>,
    b: &BTreeSet<K>,
) -> Result<Vec<K>, AllocError>
    ensures { IfOk result (λ v. v.items ≡ union K.cmp a.now.keys b.now.keys) }
{
    let mut all = Vec::new(alloc);
    for key in a.iter().union(b.iter()) {
        all.push(*key)?;
    }
    Ok(all)
}

// The keys of two sets and the items of a slice.
fn sets_and_slice(
    alloc: Global,
    a: &BTreeSet<u32>,
    b: &BTreeSet<u32>,
    c: &[u32],
) -> Result<Vec<u32>, AllocError>
    requires { IsStrictlySortedBy nat_cmp c.now }
{
    let shared = a.iter().intersection(b.iter());
    shared
        .union(c.iter().assume_sorted_by_item())
        .copied()
        .collect(alloc)
}

#[test]
fn sets_with_a_slice(rt: HostRuntime) -> Result<(), Fail> {
    let alloc = rt.alloc();
    let mut a = BTreeSet::new(alloc);
    let mut b = BTreeSet::new(alloc);
    for key in [5u32, 1, 3] {
        a.insert(key)?;
    }
    for key in [4u32, 3, 5] {
        b.insert(key)?;
    }
    assert_eq!(rt;
        keys_of_union(alloc, &a, &b)?.as_slice(),
        [1, 3, 4, 5].as_slice()
    );
    let c = [2u32, 3];
    assert_eq!(rt;
        sets_and_slice(alloc, &a, &b, &c)?.as_slice(),
        [2, 3, 5].as_slice()
    );
    Ok(())
}
