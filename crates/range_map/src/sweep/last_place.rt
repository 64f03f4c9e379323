//! The last of several ranges that holds a number, as the number ascends.
ghost use Rattle.std.specs.Prelude.{◌≡◌, ℤ, ◌≤ℤ◌, [], List, map, IfOk, OnOk};
ghost use Rattle.std.specs.BinaryHeap.{IsHeap, heap_items};
ghost use Rattle.std.specs.Ordering.{nat_cmp};
ghost use Rattle.range_map.specs.Begun.{AreBegun, IsLastTo, FirstReaches};
ghost use Rattle.range_map.specs.Bounds.{ranges_of, bounds_in_numbers, FirstIsBehind};
ghost use Rattle.range_map.specs.Sweep.{DoNotFallFrom};
ghost use Rattle.range_map.specs.Valued.{pairs_in_numbers};

use crate::range::Range;
use crate::sweep::Stretch;
use crate::sweep::bounds::{Bound, end_before};
use element_core::{Element, NoMemory, compare, is_below};
use std::alloc::Global;
use std::collections::BinaryHeap;
use std::marker::Model;

/// Where several ranges begin, ascending. Ranges are known by their places, which count from 0.
#[derive(Debug, Drop)]
pub struct Starts<T: Element> {
    starts: Vec<Bound<T>>,
}

impl<T: Element> Model for Starts<T> {
    ghost use Rattle.std.specs.Prelude.{ℕ, ℤ, List, map};
    ghost use Rattle.range_map.specs.Sweep.{DoNotFallFrom};
    ghost use Rattle.range_map.specs.Bounds.{bounds_in_numbers};

    ghost Value = { List (ℤ × ℕ) };

    ghost view = { λ all. bounds_in_numbers T.numbers all.starts.items };

    ghost invariant = { λ all. DoNotFallFrom T.numbers T.numbers.least
        (map (λ bound. bound.at) all.starts.items) };
}

/// The places of the ranges that have begun, of which the greatest whose range holds a value is
/// asked.
#[derive(Drop)]
pub struct LastPlace<'a, T: Element> {
    // Where a range has ended, its place leaves once it is the greatest.
    pub(crate) begun: BinaryHeap<usize>,
    pub(crate) rest: &'a [Bound<T>],
}

impl<'a, T: Element> Model for LastPlace<'a, T> {
    ghost use Rattle.std.specs.BinaryHeap.{IsHeap, heap_items};
    ghost use Rattle.std.specs.Ordering.{nat_cmp};
    ghost use Rattle.std.specs.Prelude.{map};
    ghost use Rattle.range_map.specs.Begun.{Begun};
    ghost use Rattle.range_map.specs.Bounds.{bounds_in_numbers};
    ghost use Rattle.range_map.specs.Sweep.{DoNotFallFrom};

    ghost Value = { Begun };

    ghost view = { λ last. record {
      places = heap_items last.begun;
      rest = bounds_in_numbers T.numbers last.rest.now;
    } };

    ghost invariant = { λ last.
        DoNotFallFrom T.numbers T.numbers.least (map (λ bound. bound.at) last.rest.now)
        × IsHeap nat_cmp (heap_items last.begun) };
}

impl<T: Element> Starts<T> {
    /// Returns where the ranges of `pairs` begin. O(n log n) time for n pairs.
    pub fn new<V>(alloc: Global, pairs: &[(Range<T>, V)]) -> Result<Self, NoMemory>
        ensures { IfOk result (λ starts. (n : ℤ) → AreBegun
            (ranges_of (pairs_in_numbers T.numbers pairs.now)) n
            (record { places = []; rest = starts })) }
    {
        let mut starts = Vec::with_capacity(alloc, pairs.len())?;
        for (place, pair) in pairs.iter().enumerate() {
            starts.push(Bound {
                at: pair.0.start(),
                place,
            })?;
        }
        starts.sort_unstable_by(|a, b| compare(a.at, b.at));
        Ok(Starts { starts })
    }

    /// Returns the last place before the least number, when no range has begun. O(1) time, no
    /// memory.
    pub fn last_place(&self, alloc: Global) -> LastPlace<'_, T>
        ensures { result ≡ record { places = []; rest = self.now } }
    {
        LastPlace {
            begun: BinaryHeap::new(alloc),
            rest: self.starts.as_slice(),
        }
    }
}

// Takes the places of ranges that end before `x` off the heap, as long as the greatest is one.
// O(log n) time for each of them, no memory.
fn drop_ended<T: Element, V>(
    begun: &mut BinaryHeap<usize>,
    pairs: &[(Range<T>, V)],
    rest: &[Bound<T>],
    x: T,
)
    requires heap { IsHeap nat_cmp (heap_items begun.old) }
    requires begun { AreBegun (ranges_of (pairs_in_numbers T.numbers pairs.now))
        (T.numbers.number x) (record {
          places = heap_items begun.old;
          rest = bounds_in_numbers T.numbers rest.now;
        }) }
    ensures heap { IsHeap nat_cmp (heap_items begun.new) }
    ensures begun { AreBegun (ranges_of (pairs_in_numbers T.numbers pairs.now))
        (T.numbers.number x) (record {
          places = heap_items begun.new;
          rest = bounds_in_numbers T.numbers rest.now;
        }) }
    ensures reaches { FirstReaches (ranges_of (pairs_in_numbers T.numbers pairs.now))
        (T.numbers.number x) (heap_items begun.new) }
{
    while let Some(&place) = begun.peek() {
        if !is_below(pairs[place].0.end(), x) {
            break;
        }
        begun.pop();
    }
}

impl<T: Element> LastPlace<'_, T> {
    // Puts the places of the ranges that begin at `x` or before it into the heap. O(log n) time for
    // each of them, of n in the heap.
    fn begin_up_to(&mut self, x: T) -> Result<(), NoMemory>
        ensures begun { (ranges : List (ℤ × ℤ)) → AreBegun ranges (T.numbers.number x) self.old
            → AreBegun ranges (T.numbers.number x) self.new }
        ensures behind { OnOk result (FirstIsBehind (T.numbers.number x) self.new.rest) }
    {
        while let Some((start, behind)) = self.rest.split_first() {
            if is_below(x, start.at) {
                break;
            }
            self.begun.push(start.place)?;
            self.rest = behind;
        }
        Ok(())
    }

    /// Goes on to `x`, which must not be below what was entered before. Returns the last place of
    /// `pairs` whose range holds `x`, and up to which value it is that place. O(log n) time for
    /// each range that begins or is found to have ended, of n pairs. After `NoMemory` the same
    /// value, or a greater one, may be entered still.
    pub fn enter<V>(&mut self, pairs: &[(Range<T>, V)], x: T) -> Result<Stretch<T, usize>, NoMemory>
        requires { AreBegun (ranges_of (pairs_in_numbers T.numbers pairs.now))
            (T.numbers.number x) self.old }
        ensures goes_on { (n : ℤ) → T.numbers.number x ≤ℤ n
            → AreBegun (ranges_of (pairs_in_numbers T.numbers pairs.now)) n self.new }
        ensures last { IfOk result (λ stretch.
            IsLastTo (ranges_of (pairs_in_numbers T.numbers pairs.now)) (T.numbers.number x)
            stretch.label (T.numbers.number stretch.end)) }
    {
        self.begin_up_to(x)?;
        drop_ended(&mut self.begun, pairs, self.rest, x);
        let before = end_before(x, self.rest);
        match self.begun.peek() {
            None => Ok(Stretch {
                label: None,
                end: before,
            }),
            Some(&place) => {
                let last = pairs[place].0.end();
                let end = if is_below(last, before) { last } else { before };
                Ok(Stretch {
                    label: Some(place),
                    end,
                })
            }
        }
    }
}
