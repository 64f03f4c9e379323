//! Where several ranges begin and end.
ghost use Rattle.std.specs.Prelude.{◌≡◌, ℕ, ℤ, ◌≤ℤ◌, map, IfOk, OnOk};
ghost use Rattle.std.specs.List.{All};
ghost use Rattle.range_map.specs.Range.{in_numbers};
ghost use Rattle.range_map.specs.Valued.{pairs_in_numbers};
ghost use Rattle.range_map.specs.Sweep.{DoNotFallFrom};
ghost use Rattle.range_map.specs.Bounds.{ranges_of, bounds_in_numbers, AreBounds};
ghost use Rattle.range_map.specs.Bounds.{AreBoundsPushed, StartsActive};
ghost use Rattle.range_map.specs.Bounds.{FirstIsBehind, AllBehind};

use crate::range::Range;
use crate::sweep::active_places::ActivePlaces;
use crate::sweep::value_before;
use element_core::{Element, NoMemory, compare};
use std::alloc::Global;
use std::marker::Model;

/// The value at which the range at `place` begins, or the value behind its end.
// Public because the models of the types below name it.
#[doc(hidden)]
#[derive(Clone, Copy, Debug)]
pub struct Bound<T: Element> {
    pub(crate) at: T,
    pub(crate) place: usize,
}

/// Where several ranges begin and end, ascending. Ranges are known by their places, which count
/// from 0.
#[derive(Debug, Drop)]
pub struct Bounds<T: Element> {
    bounds: Vec<Bound<T>>,
}

impl<T: Element> Model for Bounds<T> {
    ghost use Rattle.std.specs.Prelude.{ℕ, ℤ, List, map};
    ghost use Rattle.range_map.specs.Sweep.{DoNotFallFrom};
    ghost use Rattle.range_map.specs.Bounds.{bounds_in_numbers};

    ghost Value = { List (ℤ × ℕ) };

    ghost view = { λ all. bounds_in_numbers T.numbers all.bounds.items };

    ghost invariant = { λ all. DoNotFallFrom T.numbers T.numbers.least
        (map (λ bound. bound.at) all.bounds.items) };
}

// Puts the bounds of `range` behind the others. An end at the greatest value has none.
fn push_bounds<T: Element>(
    bounds: &mut Vec<Bound<T>>,
    range: &Range<T>,
    place: usize,
) -> Result<(), NoMemory>
    requires { All (λ bound. T.numbers.IsValue bound.at) bounds.old.items }
    ensures values { OnOk result (All (λ bound. T.numbers.IsValue bound.at) bounds.new.items) }
    ensures pushed { OnOk result (AreBoundsPushed T.numbers.greatest
        (bounds_in_numbers T.numbers bounds.old.items) (in_numbers T.numbers range.now) place
        (bounds_in_numbers T.numbers bounds.new.items)) }
{
    bounds.push(Bound {
        at: range.start(),
        place,
    })?;
    match range.end().successor() {
        None => Ok(()),
        Some(at) => {
            bounds.push(Bound { at, place })?;
            Ok(())
        }
    }
}

// Returns the last value before all of the bounds, of which the first lies behind `x`.
pub(crate) fn end_before<T: Element>(x: T, bounds: &[Bound<T>]) -> T
    requires in_order { DoNotFallFrom T.numbers T.numbers.least
        (map (λ bound. bound.at) bounds.now) }
    requires behind { FirstIsBehind (T.numbers.number x)
        (bounds_in_numbers T.numbers bounds.now) }
    ensures order { T.numbers.number x ≤ℤ T.numbers.number result }
    ensures high { T.numbers.number result ≤ℤ T.numbers.greatest }
    ensures behind { AllBehind (T.numbers.number result)
        (bounds_in_numbers T.numbers bounds.now) }
{
    x.in_type();
    match bounds.split_first() {
        None => T::max_value(),
        Some((bound, _)) => value_before(x, bound.at),
    }
}

impl<T: Element> Bounds<T> {
    /// Returns the bounds of the ranges of `pairs`. O(n log n) time for n pairs.
    pub fn new<V>(alloc: Global, pairs: &[(Range<T>, V)]) -> Result<Self, NoMemory>
        ensures { IfOk result
            (AreBounds T.numbers.greatest (ranges_of (pairs_in_numbers T.numbers pairs.now))) }
    {
        let mut bounds = Vec::with_capacity(alloc, pairs.len().saturating_mul(2))?;
        for (place, pair) in pairs.iter().enumerate() {
            push_bounds(&mut bounds, &pair.0, place)?;
        }
        bounds.sort_unstable_by(|a, b| compare(a.at, b.at));
        Ok(Bounds { bounds })
    }

    /// Returns the places of the ranges that hold a number, before the least one. O(1) time, no
    /// memory.
    pub fn active(&self, alloc: Global) -> ActivePlaces<'_, T>
        ensures { StartsActive T.numbers.greatest self.now result }
    {
        ActivePlaces {
            places: Vec::new(alloc),
            rest: self.bounds.as_slice(),
            passed: Vec::new(alloc),
            left: Vec::new(alloc),
        }
    }
}
