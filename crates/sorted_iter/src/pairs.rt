//! The stream of Pairs.
ghost use Rattle.std.specs.Prelude.{IfOk};
ghost use Rattle.sorted_iter.specs.Copies.{ClonesGoAlike, GoesAlike};
ghost use Rattle.sorted_iter.specs.PairStreams.{pairs_source, pairs_steps};

use element_core::NoMemory;

/// The items of a stream, each as a key with `()` beside it.
///
/// It is made by [`pairs`](crate::SortedIterator::pairs), lazily: `next` asks the source once.
/// Making and stepping it takes no memory.
#[derive(Debug, Drop)]
#[must_use = "a stream is lazy and does nothing until it is asked"]
pub struct Pairs<I> {
    pub(crate) source: I,
}

impl<I: Iterator> Iterator for Pairs<I> {
    type Item = (I::Item, ());

    ghost can_next = { λ s. I.can_next (pairs_source s) };

    ghost next_gives = { pairs_steps I.next_gives };

    ghost remaining = { λ s. I.remaining (pairs_source s) };

    #[inline]
    fn next(&mut self) -> Option<(I::Item, ())> {
        match self.source.next() {
            Some(item) => Some((item, ())),
            None => None,
        }
    }

    fn size_hint(&self) -> (usize, Option<usize>) {
        self.source.size_hint()
    }
}

impl<I: Iterator> Pairs<I> {
    /// Returns a second stream from which the same is still to come. O(1), beside the clone of the
    /// source; refused where that is.
    pub fn try_clone(&self) -> Result<Self, NoMemory>
    where
        I: Clone,
        requires { ClonesGoAlike I.is_clone I.can_next I.remaining I.next_gives }
        ensures { IfOk result (λ copy. GoesAlike (λ s. I.can_next (pairs_source s))
            (λ s. I.remaining (pairs_source s)) (pairs_steps I.next_gives) self.now copy) }
    {
        let source = self.source.clone()?;
        Ok(Pairs { source })
    }
}
