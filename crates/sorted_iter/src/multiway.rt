//! The union of many streams in order, as a heap of their next items.
ghost use Rattle.std.proofs.Props.{props};
ghost use Rattle.ordered_lists.specs.Heaps.{IsHeap};
ghost use Rattle.sorted_iter.specs.MultiwayHeads.{before};

mod copy;
mod heads;
mod heap;
mod hint;
mod make;
mod stream;
mod take;

pub use heads::InputHead;
pub use make::multiway_union;

/// Each value that some input holds, once, ascending. It is made by
/// [`multiway_union`](crate::multiway_union).
///
/// The inputs that have not ended stand in one vector, each with its next item in hand: a heap, in
/// which no head is less than the one above it. `next` takes O(log k) comparisons for each of k
/// inputs that it asks, and no memory.
#[derive(Drop)]
#[must_use = "a stream is lazy and does nothing until it is asked"]
pub struct MultiwayUnion<I: Iterator>
where
    I::Item: Ord + Drop,
{
    pub(crate) heads: Vec<InputHead<I>>,

    ghost ordered: { IsHeap (before I.Item.cmp) heads.items } by { Prim.hlevel props },
}
