//! Stepping a many-way union, and its mark.
ghost use Rattle.std.specs.Prelude.{◌≡◌, All, IfSome};
ghost use Rattle.std.specs.Iterator.{UpTo};
ghost use Rattle.std.specs.Iterator.SizeHint.{IsWithinCount};
ghost use Rattle.sorted_iter.specs.TwoSidesLemmas.{through-in_order};
ghost use Rattle.sorted_iter.specs.MultiwayHeads.{can_go, heads_count};
ghost use Rattle.sorted_iter.specs.MultiwayHints.{IsMultiwayHint};
ghost use Rattle.sorted_iter.specs.MultiwayLaws.{multi-in_order, multi-goes_on};
ghost use Rattle.sorted_iter.specs.MultiwayRunLemmas.{HeadAscends};
ghost use Rattle.sorted_iter.specs.MultiwaySteps.{multi_steps};
ghost use Rattle.sorted_iter.specs.MultiwayViews.{union_heads, multiway_steps};

use crate::marks::SortedByItem;
use crate::multiway::MultiwayUnion;
use crate::multiway::hint::hint_of;
use crate::multiway::take::{take_equal, take_least};

impl<I: Iterator> Iterator for MultiwayUnion<I>
where
    I::Item: Ord + Drop,
{
    type Item = I::Item;

    ghost can_next = { λ s. All (can_go I.can_next I.remaining) (union_heads s) };

    ghost next_gives = { multiway_steps I.Item.cmp I.next_gives };

    ghost remaining = { λ s. heads_count I.remaining (union_heads s) };

    fn next(&mut self) -> Option<I::Item> {
        let x = take_least(&mut self.heads)?;
        while let Some(equal) = take_equal(&mut self.heads, &x) {
            drop(equal);
        }
        Some(x)
    }

    /// At least as many items as the greatest of the inputs has, and at most as many as all have
    /// together. Both count from the inputs' own hints and the items in hand, in O(k) for k inputs.
    fn size_hint(&self) -> (usize, Option<usize>)
        ensures lower { IsWithinCount result.0 (heads_count I.remaining (union_heads self.now)) }
        ensures upper { IfSome result.1 (UpTo (heads_count I.remaining (union_heads self.now))) }
        ensures hints { IsMultiwayHint I.Item.cmp I.next_gives I.remaining (union_heads self.now)
            (multiway_steps I.Item.cmp I.next_gives) self.now result }
    {
        hint_of(&self.heads)
    }
}

impl<I: SortedByItem> SortedByItem for MultiwayUnion<I>
where
    I::Item: Ord + Drop,
{
    ghost in_order = { λ s. All (HeadAscends I.Item.cmp I.next_gives) (union_heads s) };

    fn mark(&self) {}

    ghost sorted = { λ s h. through-in_order union_heads
        (multi_steps I.Item.cmp I.next_gives) I.Item.cmp s
        (multi-in_order I.Item.total I.next_gives (union_heads s) h) };

    ghost goes_on = { λ s t r h e. multi-goes_on I.Item.total I.next_gives (union_heads s)
        (union_heads t) r h e };
}
