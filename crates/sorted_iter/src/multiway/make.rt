//! Making a MultiwayUnion.
ghost use Rattle.std.specs.Prelude.{◌≡◌, All, IfOk};
ghost use Rattle.std.specs.Iterator.{IsFinite};
ghost use Rattle.std.specs.Iterator.Runs.{EachRunFrom, WholeRun, AllItems};
ghost use Rattle.sorted_iter.specs.MultiwayRunLemmas.{HeadAscends};
ghost use Rattle.sorted_iter.specs.MultiwayHeads.{can_go, heads_count};
ghost use Rattle.sorted_iter.specs.MultiwaySteps.{Started, multi_steps, MultiRunsAre, MultiListsAre};
ghost use Rattle.sorted_iter.specs.MultiwayViews.{union_heads};

use crate::marks::SortedIterator;
use crate::multiway::MultiwayUnion;
use crate::multiway::heads::InputHead;
use crate::multiway::heap::heapify;
use element_core::NoMemory;
use std::alloc::Global;

// The inputs that have an item, each with its first one in hand.
fn heads_of<I: SortedIterator, T: IntoIterator<Item = I>>(
    alloc: Global,
    iters: T,
) -> Result<Vec<InputHead<I>>, NoMemory>
where
    I::Item: Ord + Drop,
    requires sources { (j : T.IntoIter) → T.into_iter_gives iters j → T.IntoIter.can_next j
        × IsFinite (T.IntoIter.remaining j) × EachRunFrom T.IntoIter.next_gives j
        (λ p. AllItems p (λ it. I.can_next it × IsFinite (I.remaining it))) }
    ensures can { IfOk result (λ v. All (can_go I.can_next I.remaining) v.items) }
    ensures started { IfOk result (λ v. (j : T.IntoIter) × T.into_iter_gives iters j
        × WholeRun T.IntoIter.next_gives j (λ p. Started I.next_gives p.items v.items)) }
{
    let mut heads = Vec::new(alloc);
    for it in iters {
        let mut rest = it;
        if let Some(item) = rest.next() {
            heads.push(InputHead { item, rest })?;
        }
    }
    Ok(heads)
}

/// Returns each value that some input holds, once, ascending. Which of several equal items comes is
/// open.
///
/// The call asks each input for its first item, and makes a heap of those that have one, in O(k)
/// for k inputs. All memory is taken here, and the call is refused where there is none: `next`
/// takes none.
///
/// Of 1, 4, 9 and 2, 4 and 4, 8, 9 it gives 1, 2, 4, 8, 9.
pub fn multiway_union<I: SortedIterator, T: IntoIterator<Item = I>>(
    alloc: Global,
    iters: T,
) -> Result<MultiwayUnion<I>, NoMemory>
where
    I::Item: Ord + Drop,
    requires sources { (j : T.IntoIter) → T.into_iter_gives iters j → T.IntoIter.can_next j
        × IsFinite (T.IntoIter.remaining j) × EachRunFrom T.IntoIter.next_gives j
        (λ p. AllItems p (λ it. I.can_next it × IsFinite (I.remaining it))) }
    requires in_order { (j : T.IntoIter) → T.into_iter_gives iters j
        → EachRunFrom T.IntoIter.next_gives j (λ p. AllItems p I.in_order) }
    ensures can { IfOk result (λ m. All (can_go I.can_next I.remaining) (union_heads m)) }
    ensures ends { IfOk result (λ m. IsFinite (heads_count I.remaining (union_heads m))) }
    ensures in_order { IfOk result (λ m.
        All (HeadAscends I.Item.cmp I.next_gives) (union_heads m)) }
    ensures gives { IfOk result (λ m. (j : T.IntoIter) × T.into_iter_gives iters j
        × WholeRun T.IntoIter.next_gives j (λ p.
        MultiRunsAre I.Item.cmp (multi_steps I.Item.cmp I.next_gives) (union_heads m)
        I.next_gives p.items
        × MultiListsAre I.Item.cmp (multi_steps I.Item.cmp I.next_gives) (union_heads m)
        I.next_gives p.items)) }
{
    let mut heads = heads_of(alloc, iters)?;
    heapify(&mut heads);
    Ok(MultiwayUnion { heads })
}
