//! Heads in a vector in which each is at most its two children.
ghost use Rattle.std.specs.Prelude.{◌≡◌, ℕ, ◌≤◌, ◌<◌, ◌+◌, ◌*◌, ◌/◌, IsPermutation, length};
ghost use Rattle.ordered_lists.specs.Heaps.{IsHeap, IsHeapBut, IsHeapFrom, IsLeastChild};
ghost use Rattle.sorted_iter.specs.MultiwayHeads.{before};

use crate::multiway::heads::InputHead;
use std::cmp::Ordering;

// Whether `a` has the lesser item.
#[inline]
fn is_before<I: Iterator>(a: &InputHead<I>, b: &InputHead<I>) -> bool
where
    I::Item: Ord + Drop,
    ensures { result ≡ before I.Item.cmp a.now b.now }
{
    a.item.cmp(&b.item) == Ordering::Less
}

// The place of the lesser child of the head at `place`.
#[inline]
fn lesser_child<I: Iterator>(heads: &Vec<InputHead<I>>, place: usize) -> usize
where
    I::Item: Ord + Drop,
    requires { place < length heads.now.items / 2 }
    ensures { IsLeastChild (before I.Item.cmp) place result heads.now.items }
{
    let left = 2 * place + 1;
    let right = left + 1;
    if right < heads.len() && is_before(&heads[right], &heads[left]) {
        right
    } else {
        left
    }
}

// Moves the head at `place` down until no child of it is less.
fn sift_from<I: Iterator>(heads: &mut Vec<InputHead<I>>, place: usize)
where
    I::Item: Ord + Drop,
    ensures same { IsPermutation heads.old.items heads.new.items }
    ensures heap { (from : ℕ) → IsHeapBut (before I.Item.cmp) from place heads.old.items
        → IsHeapFrom (before I.Item.cmp) from heads.new.items }
{
    let mut place = place;
    while place < heads.len() / 2 {
        let child = lesser_child(heads, place);
        if !is_before(&heads[child], &heads[place]) {
            return;
        }
        heads.swap(place, child);
        place = child;
    }
}

// Moves the first head down to its place, where the others are in order.
#[inline]
pub(crate) fn sift_down<I: Iterator>(heads: &mut Vec<InputHead<I>>)
where
    I::Item: Ord + Drop,
    ensures same { IsPermutation heads.old.items heads.new.items }
    ensures heap { IsHeapBut (before I.Item.cmp) 0 0 heads.old.items
        → IsHeap (before I.Item.cmp) heads.new.items }
{
    sift_from(heads, 0);
}

// Puts any heads in order, in O(k).
pub(crate) fn heapify<I: Iterator>(heads: &mut Vec<InputHead<I>>)
where
    I::Item: Ord + Drop,
    ensures same { IsPermutation heads.old.items heads.new.items }
    ensures heap { IsHeap (before I.Item.cmp) heads.new.items }
{
    let mut place = heads.len() / 2;
    while place > 0 {
        place -= 1;
        sift_from(heads, place);
    }
}
