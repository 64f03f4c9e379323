//! The walk along two ascending sources, which the four streams share.
ghost use Rattle.std.specs.Prelude.{◌≡◌, IfOk, true, false};
ghost use Rattle.ordered_lists.specs.Walks.{walk};
ghost use Rattle.sorted_iter.specs.Copies.{IsAheadClone};
ghost use Rattle.sorted_iter.specs.TwoSides.{sides_of, sides_can, StepsTwo, Nears};

use crate::ahead::Ahead;
use std::alloc::AllocError;
use std::cmp::Ordering;

/// Which items a walk gives.
#[derive(Clone, Copy)]
pub struct Wants {
    /// The left items to which no right one is equal.
    pub left: bool,

    /// Of two equal items, the left one.
    pub both: bool,

    /// The right items to which no left one is equal.
    pub right: bool,
}

/// The two sources of a stream.
#[derive(Drop)]
pub struct Sides<I: Iterator, J: Iterator>
where
    I::Item: Drop,
    J::Item: Drop,
{
    /// The source on the left.
    pub left: Ahead<I>,

    /// The source on the right.
    pub right: Ahead<J>,
}

impl<I: Iterator, J: Iterator> Sides<I, J>
where
    I::Item: Drop,
    J::Item: Drop,
{
    /// Returns two sources that were not asked yet. O(1) time, no memory.
    pub fn new(left: I, right: J) -> Self
        ensures { result ≡ sides_of left right }
    {
        Sides {
            left: Ahead::new(left),
            right: Ahead::new(right),
        }
    }
}

impl<I: Iterator, J: Iterator<Item = I::Item>> Sides<I, J>
where
    I::Item: Ord + Drop,
{
    /// Returns the next item of the walk that is wanted. It asks each source at most once for each
    /// item that it passes over, and takes no memory of its own.
    #[inline(always)]
    pub fn next(&mut self, wants: Wants) -> Option<I::Item>
        requires { sides_can I.can_next I.remaining J.can_next J.remaining self.old }
        ensures steps { StepsTwo (walk I.Item.cmp wants.left wants.both wants.right) I.next_gives
            J.next_gives self.old result self.new }
        ensures nears { Nears I.can_next I.remaining J.can_next J.remaining wants self.old result
            self.new }
    {
        'walk: loop {
            let Some(x) = self.left.take() else {
                return if wants.right { self.right.take() } else { None };
            };
            let Some(y) = self.right.take() else {
                return if wants.left { Some(x) } else { None };
            };
            match x.cmp(&y) {
                Ordering::Less => {
                    self.right.put_back(y);
                    if wants.left {
                        return Some(x);
                    }
                }
                Ordering::Equal => {
                    if wants.both {
                        return Some(x);
                    }
                }
                Ordering::Greater => {
                    self.left.put_back(x);
                    if wants.right {
                        return Some(y);
                    }
                }
            }
        }
    }

    /// Returns the next left item to which a right one is equal, as `next` does where `both` alone
    /// is wanted, and puts no item back. It asks each source at most once for each item that it
    /// passes over, and takes no memory of its own.
    #[inline(always)]
    pub fn next_common(&mut self) -> Option<I::Item>
        requires { sides_can I.can_next I.remaining J.can_next J.remaining self.old }
        ensures steps { StepsTwo (walk I.Item.cmp false true false) I.next_gives J.next_gives
            self.old result self.new }
        ensures nears { Nears I.can_next I.remaining J.can_next J.remaining
            (record { left = false; both = true; right = false }) self.old result self.new }
    {
        let mut x = self.left.take()?;
        let mut y = self.right.take()?;
        'walk: loop {
            match x.cmp(&y) {
                Ordering::Less => x = self.left.take()?,
                Ordering::Equal => return Some(x),
                Ordering::Greater => y = self.right.take()?,
            }
        }
    }
}

impl<I: Iterator + Clone, J: Iterator<Item = I::Item> + Clone> Sides<I, J>
where
    I::Item: Clone,
{
    // Clones of both sources, with clones of the items that are held in front of them.
    pub(crate) fn try_clone(&self) -> Result<Self, AllocError>
        ensures { IfOk result (λ copy. IsAheadClone I.is_clone I.Item.is_clone self.now.left
            copy.left
            × IsAheadClone J.is_clone I.Item.is_clone self.now.right copy.right) }
    {
        let left = self.left.try_clone()?;
        let right = self.right.try_clone()?;
        Ok(Sides { left, right })
    }
}
