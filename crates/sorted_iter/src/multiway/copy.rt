//! Copying a many-way union.
ghost use Rattle.std.specs.Prelude.{◌≡◌, All, IfOk};
ghost use Rattle.std.specs.List.{AllZip};
ghost use Rattle.std.specs.declared.cmp.Ordering.TheVariants.{Equal};
ghost use Rattle.sorted_iter.specs.MultiwayClones.{ComesAlike, IsHeadClone};
ghost use Rattle.sorted_iter.specs.MultiwayHeads.{can_go, heads_count};
ghost use Rattle.sorted_iter.specs.MultiwayRunLemmas.{HeadAscends};
ghost use Rattle.sorted_iter.specs.MultiwaySteps.{multi_steps};
ghost use Rattle.sorted_iter.specs.MultiwayViews.{union_heads};

use crate::multiway::MultiwayUnion;
use crate::multiway::heads::InputHead;
use element_core::NoMemory;
use std::alloc::Global;

// Clones of the heads, each in its place.
fn clones_of<I: Iterator + Clone>(
    alloc: Global,
    heads: &Vec<InputHead<I>>,
) -> Result<Vec<InputHead<I>>, NoMemory>
where
    I::Item: Drop + Clone,
    ensures { IfOk result (λ copies. AllZip (IsHeadClone I.is_clone I.Item.is_clone) heads.now.items
        copies.items) }
{
    let mut copies = Vec::with_capacity(alloc, heads.len())?;
    for head in heads {
        copies.push(head.try_clone()?)?;
    }
    Ok(copies)
}

impl<I: Iterator> MultiwayUnion<I>
where
    I::Item: Ord + Drop,
{
    /// Returns a stream with the same items still to come, of clones of the items in hand and of
    /// the inputs. Which of several equal items comes may differ.
    ///
    /// Clones of items equal their source, and clones of an input give the same items still to
    /// come. O(k) clones for k inputs; it takes memory, and is refused where there is none.
    pub fn try_clone(&self, alloc: Global) -> Result<Self, NoMemory>
    where
        I: Clone,
        I::Item: Clone,
        requires items { (x copy : I.Item) → I.Item.is_clone x copy → I.Item.cmp x copy ≡ Equal }
        requires inputs { (s copy : I) → I.is_clone s copy
            → ComesAlike I.can_next I.remaining I.Item.cmp I.next_gives s copy }
        ensures same { IfOk result (λ copy. ComesAlike (All (can_go I.can_next I.remaining))
            (heads_count I.remaining) I.Item.cmp (multi_steps I.Item.cmp I.next_gives)
            (union_heads self.now) (union_heads copy)) }
        ensures in_order { IfOk result (λ copy.
            All (HeadAscends I.Item.cmp I.next_gives) (union_heads self.now)
            → All (HeadAscends I.Item.cmp I.next_gives) (union_heads copy)) }
    {
        let heads = clones_of(alloc, &self.heads)?;
        Ok(MultiwayUnion { heads })
    }
}
