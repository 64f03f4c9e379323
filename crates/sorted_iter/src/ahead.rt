//! A source of items in front of which one may be held: what the streams of two sources are built
//! of.
ghost use Rattle.std.specs.Prelude.{◌≡◌, ℕ, IfOk, Option};
ghost use Rattle.sorted_iter.specs.Copies.{IsHeadClone, IsAheadClone};
ghost use Rattle.sorted_iter.specs.Hints.{IsHint, ahead_hint};
ghost use Rattle.sorted_iter.specs.Lookahead.{ahead_of, ahead_can, Takes, PutsBack};

use crate::hints::{Hint, sum_of};
use std::alloc::AllocError;
use std::mem;

/// What is known of the next item of a source.
#[derive(Drop)]
pub enum Head<T> {
    /// Nothing yet: the source is to be asked.
    Unread,

    /// It was read and is held.
    Held(T),

    /// The source has ended, and isn't asked again.
    Ended,
}

impl<T: Clone> Head<T> {
    // The same, with a clone of the item that is held.
    fn try_clone(&self) -> Result<Self, AllocError>
        ensures { IfOk result (λ copy. IsHeadClone T.is_clone self.now copy) }
    {
        match self {
            Head::Unread => Ok(Head::Unread),
            Head::Held(item) => Ok(Head::Held(item.clone()?)),
            Head::Ended => Ok(Head::Ended),
        }
    }
}

/// A source in front of which an item may be held. Once the source has answered `None` it isn't
/// asked again.
#[derive(Drop)]
pub struct Ahead<I: Iterator>
where
    I::Item: Drop,
{
    /// The source.
    pub source: I,

    /// What is known of its next item.
    pub head: Head<I::Item>,
}

impl<I: Iterator> Ahead<I>
where
    I::Item: Drop,
{
    /// Returns a source that was not asked yet. O(1) time, no memory.
    pub fn new(source: I) -> Self
        ensures { result ≡ ahead_of source }
    {
        Ahead {
            source,
            head: Head::Unread,
        }
    }

    /// Returns the item that is held, or else the next one of the source. It takes no memory of its
    /// own.
    #[inline(always)]
    pub fn take(&mut self) -> Option<I::Item>
        requires { ahead_can I.can_next self.old }
        ensures { Takes I.can_next I.remaining I.next_gives self.old result self.new }
    {
        match mem::replace(&mut self.head, Head::Unread) {
            Head::Held(item) => Some(item),
            Head::Unread => match self.source.next() {
                Some(item) => Some(item),
                None => {
                    self.head = Head::Ended;
                    None
                }
            },
            Head::Ended => {
                self.head = Head::Ended;
                None
            }
        }
    }

    /// Returns a hint of how many items `take` gives before its first `None`, from that of the
    /// source.
    pub fn size_hint(&self) -> Hint
        ensures { (h : ℕ × Option ℕ) × IsHint (I.remaining self.now.source) h
            × (result ≡ ahead_hint self.now.head h) }
    {
        let (low, high) = self.source.size_hint();
        match &self.head {
            Head::Unread => (low, high),
            Head::Held(_) => (low.saturating_add(1), sum_of(high, Some(1))),
            Head::Ended => (0, Some(0)),
        }
    }

    /// Holds an item, which the next `take` gives, in place of one that is held. O(1) time, no
    /// memory.
    #[inline(always)]
    pub fn put_back(&mut self, item: I::Item)
        ensures { PutsBack self.old item self.new }
    {
        self.head = Head::Held(item);
    }
}

impl<I: Iterator + Clone> Ahead<I>
where
    I::Item: Clone,
{
    /// Returns a clone of the source, with a clone of the item that is held in front of it.
    pub fn try_clone(&self) -> Result<Self, AllocError>
        ensures { IfOk result (λ copy. IsAheadClone I.is_clone I.Item.is_clone self.now copy) }
    {
        let source = self.source.clone()?;
        let head = self.head.try_clone()?;
        Ok(Ahead { source, head })
    }
}
