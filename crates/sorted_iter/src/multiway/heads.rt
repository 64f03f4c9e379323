//! An input of a many-way union with its next item in hand.
ghost use Rattle.std.specs.Prelude.{IfOk};
ghost use Rattle.std.specs.Iterator.{MakesProgress};
ghost use Rattle.sorted_iter.specs.MultiwayClones.{IsHeadClone};
ghost use Rattle.sorted_iter.specs.MultiwayHeads.{GoesOn};

use element_core::NoMemory;
use std::mem;

/// An input whose next item was taken.
#[derive(Drop)]
pub struct InputHead<I: Iterator>
where
    I::Item: Drop,
{
    /// The next item of the input.
    pub item: I::Item,

    /// The rest of the input.
    pub rest: I,
}

impl<I: Iterator> InputHead<I>
where
    I::Item: Drop,
{
    // Returns the item, where the input has another one, which takes its place.
    #[inline]
    pub(crate) fn advance(&mut self) -> Option<I::Item>
        requires { I.can_next self.old.rest }
        ensures steps { GoesOn I.next_gives self.old result self.new }
        ensures goes { MakesProgress I.can_next I.remaining self.old.rest result self.new.rest }
    {
        let next = self.rest.next()?;
        Some(mem::replace(&mut self.item, next))
    }

    // Returns clones of the item and of the rest of the input.
    pub(crate) fn try_clone(&self) -> Result<Self, NoMemory>
    where
        I: Clone,
        I::Item: Clone,
        ensures { IfOk result (λ copy. IsHeadClone I.is_clone I.Item.is_clone self.now copy) }
    {
        Ok(InputHead {
            item: self.item.clone()?,
            rest: self.rest.clone()?,
        })
    }
}
