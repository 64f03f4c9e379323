//! Callers of the union of many streams, each proved to learn what it gets, and lists that people
//! know.
#![tactic(auto)]

ghost use Rattle.std.specs.Prelude.{◌≡◌, All, IfOk, List};
ghost use Rattle.std.specs.Iterator.{IsFinite};
ghost use Rattle.std.specs.List.{AllZip};
ghost use Rattle.std.specs.declared.cmp.Ordering.TheVariants.{Equal};
ghost use Rattle.ordered_lists.specs.Multiway.{IsMultiwayUnion};
ghost use Rattle.sorted_iter.specs.Orders.{GivesList};
ghost use Rattle.sorted_iter.specs.MultiwayClones.{ComesAlike};

use element_core::NoMemory;
use sorted_iter::{MultiwayUnion, SortedByItem, SortedIterator, Union, multiway_union};
use std::alloc::Global;
use std::collections::BTreeSet;
use std::ops::Range;
use std::test::Fail;

// All items of the union of many streams.
fn all_of<I: SortedIterator>(alloc: Global, iters: Vec<I>) -> Result<Vec<I::Item>, NoMemory>
where
    I::Item: Ord + Drop,
    requires can { All (λ it. I.can_next it × IsFinite (I.remaining it)) iters.items }
    requires ascend { All I.in_order iters.items }
    ensures { IfOk result (λ v. (ls : List (List I.Item))
        → AllZip (GivesList I.next_gives) iters.items ls
        → IsMultiwayUnion I.Item.cmp ls v.items) }
{
    Ok(multiway_union(alloc, iters)?.collect(alloc)?)
}

// All items of a clone of the union of many streams.
fn all_of_clone<I: SortedIterator + Clone>(
    alloc: Global,
    iters: Vec<I>,
) -> Result<Vec<I::Item>, NoMemory>
where
    I::Item: Ord + Clone,
    requires can { All (λ it. I.can_next it × IsFinite (I.remaining it)) iters.items }
    requires ascend { All I.in_order iters.items }
    requires items { (x copy : I.Item) → I.Item.is_clone x copy → I.Item.cmp x copy ≡ Equal }
    requires inputs { (s copy : I) → I.is_clone s copy
        → ComesAlike I.can_next I.remaining I.Item.cmp I.next_gives s copy }
    ensures { IfOk result (λ v. (ls : List (List I.Item))
        → AllZip (GivesList I.next_gives) iters.items ls
        → (m : List I.Item) × IsMultiwayUnion I.Item.cmp ls m
        × AllZip (λ x y. I.Item.cmp x y ≡ Equal) m v.items) }
{
    let all = multiway_union(alloc, iters)?;
    Ok(all.try_clone(alloc)?.collect(alloc)?)
}

// An item is taken from the union of many streams, and the rest goes into a union.
fn rest_with<I: SortedIterator, J: SortedIterator<Item = I::Item>>(
    alloc: Global,
    iters: Vec<I>,
    other: J,
) -> Result<Union<MultiwayUnion<I>, J>, NoMemory>
where
    I::Item: Ord + Drop,
    requires can { All (λ it. I.can_next it × IsFinite (I.remaining it)) iters.items }
    requires ascend { All I.in_order iters.items }
    requires other { J.in_order other }
{
    let mut many = multiway_union(alloc, iters)?;
    drop(many.next());
    Ok(many.union(other))
}

fn set_of(alloc: Global, keys: &[u32]) -> Result<BTreeSet<u32>, NoMemory> {
    let mut set = BTreeSet::new(alloc);
    for key in keys {
        set.insert(*key)?;
    }
    Ok(set)
}

// The items of the union of the keys of three sets, and those of its clone.
fn union_and_clone(
    alloc: Global,
    a: &BTreeSet<u32>,
    b: &BTreeSet<u32>,
    c: &BTreeSet<u32>,
) -> Result<(Vec<u32>, Vec<u32>), NoMemory> {
    let mut iters = Vec::with_capacity(alloc, 3)?;
    iters.push(a.iter())?;
    iters.push(b.iter())?;
    iters.push(c.iter())?;
    let all = multiway_union(alloc, iters)?;
    let copy = all.try_clone(alloc)?;
    Ok((all.copied().collect(alloc)?, copy.copied().collect(alloc)?))
}

#[test]
fn three_sets(rt: HostRuntime) -> Result<(), Fail> {
    let alloc = rt.alloc();
    let a = set_of(alloc, &[0, 5, 10, 15, 20, 25])?;
    let b = set_of(alloc, &[0, 1, 4, 9, 16, 25, 36])?;
    let c = set_of(alloc, &[4, 7, 11, 15, 18])?;
    let (all, copy) = union_and_clone(alloc, &a, &b, &c)?;
    let expected = [0, 1, 4, 5, 7, 9, 10, 11, 15, 16, 18, 20, 25, 36];
    assert_eq!(rt; all.as_slice(), expected.as_slice());
    assert_eq!(rt; copy.as_slice(), expected.as_slice());
    Ok(())
}

// The hint of the union of ranges, just made, and its items.
fn hint_and_items(
    alloc: Global,
    ranges: Vec<Range<u32>>,
) -> Result<((usize, Option<usize>), Vec<u32>), NoMemory> {
    let all = multiway_union(alloc, ranges)?;
    Ok((all.size_hint(), all.collect(alloc)?))
}

#[test]
fn no_input_and_one(rt: HostRuntime) -> Result<(), Fail> {
    let alloc = rt.alloc();
    let (hint, items) = hint_and_items(alloc, Vec::new(alloc))?;
    assert_eq!(rt; hint, (0, Some(0)));
    assert_eq!(rt; items.len(), 0);
    let (hint, items) = hint_and_items(alloc, vec![in alloc; 3..6]?)?;
    assert_eq!(rt; hint, (3, Some(3)));
    assert_eq!(rt; items.as_slice(), [3, 4, 5].as_slice());
    Ok(())
}

#[test]
fn an_input_ends_early(rt: HostRuntime) -> Result<(), Fail> {
    let alloc = rt.alloc();
    let (hint, items) = hint_and_items(alloc, vec![in alloc; 0..2, 4..4, 1..6]?)?;
    assert_eq!(rt; hint, (5, Some(7)));
    assert_eq!(rt; items.as_slice(), [0, 1, 2, 3, 4, 5].as_slice());
    Ok(())
}

#[test]
fn equal_items_of_200_inputs_come_once(rt: HostRuntime) -> Result<(), Fail> {
    let alloc = rt.alloc();
    let mut ranges = Vec::new(alloc);
    for _ in 0..200 {
        ranges.push(7u32..8)?;
    }
    let (hint, items) = hint_and_items(alloc, ranges)?;
    assert_eq!(rt; hint, (1, Some(200)));
    assert_eq!(rt; items.as_slice(), [7].as_slice());
    Ok(())
}
