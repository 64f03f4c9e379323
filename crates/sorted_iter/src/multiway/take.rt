//! The least item of a heap of heads goes out.
ghost use Rattle.std.specs.Prelude.{◌≡◌, ◌<◌, IfSome, MatchOption, All, [], false, slice_index_or};
ghost use Rattle.ordered_lists.specs.Heaps.{IsHeap};
ghost use Rattle.std.specs.declared.cmp.Ordering.TheVariants.{Equal};
ghost use Rattle.sorted_iter.specs.MultiwayHeads.{before, can_go, heads_left, starts_with, TakesLeast};

use crate::multiway::heads::InputHead;
use crate::multiway::heap::sift_down;
use std::cmp::Ordering;

// Returns the item of the first head, which then goes on to its input's next one or leaves. O(log
// k) time, no memory.
pub(crate) fn take_least<I: Iterator>(heads: &mut Vec<InputHead<I>>) -> Option<I::Item>
where
    I::Item: Ord + Drop,
    requires heap { IsHeap (before I.Item.cmp) heads.old.items }
    requires can { All (can_go I.can_next I.remaining) heads.old.items }
    ensures heap { IsHeap (before I.Item.cmp) heads.new.items }
    ensures can { All (can_go I.can_next I.remaining) heads.new.items }
    ensures takes { MatchOption result ((heads.old.items ≡ []) × (heads.new.items ≡ []))
        (λ x. TakesLeast I.Item.cmp I.next_gives heads.old.items x heads.new.items) }
    ensures first { IfSome result (λ x. (d : InputHead I I.Item)
        → (slice_index_or heads.old.items 0 d).item ≡ x) }
    ensures fewer { IfSome result (λ _. heads_left I.remaining heads.new.items
        < heads_left I.remaining heads.old.items) }
{
    if heads.is_empty() {
        return None;
    }
    match heads[0].advance() {
        Some(item) => {
            sift_down(heads);
            Some(item)
        }
        None => {
            let head = heads.swap_remove(0);
            sift_down(heads);
            Some(head.item)
        }
    }
}

// Whether the first head has an item equal to x.
#[inline]
fn begins_with<I: Iterator>(heads: &Vec<InputHead<I>>, x: &I::Item) -> bool
where
    I::Item: Ord + Drop,
    ensures { result ≡ starts_with I.Item.cmp heads.now.items x.now }
{
    match heads.first() {
        Some(head) => x.cmp(&head.item) == Ordering::Equal,
        None => false,
    }
}

// Returns what `take_least` takes, where it is equal to `x`.
pub(crate) fn take_equal<I: Iterator>(heads: &mut Vec<InputHead<I>>, x: &I::Item) -> Option<I::Item>
where
    I::Item: Ord + Drop,
    requires heap { IsHeap (before I.Item.cmp) heads.old.items }
    requires can { All (can_go I.can_next I.remaining) heads.old.items }
    ensures heap { IsHeap (before I.Item.cmp) heads.new.items }
    ensures can { All (can_go I.can_next I.remaining) heads.new.items }
    ensures takes { MatchOption result ((heads.new.items ≡ heads.old.items)
        × (starts_with I.Item.cmp heads.old.items x.now ≡ false))
        (λ y. (I.Item.cmp x.now y ≡ Equal)
        × TakesLeast I.Item.cmp I.next_gives heads.old.items y heads.new.items) }
    ensures fewer { IfSome result (λ _. heads_left I.remaining heads.new.items
        < heads_left I.remaining heads.old.items) }
{
    if begins_with(heads, x) {
        take_least(heads)
    } else {
        None
    }
}
