//! Which of several ranges hold a number, as a list, as the number ascends.
ghost use Rattle.std.specs.Prelude.{◌≡◌, ℕ, ◌+◌, ◌==◌, ℤ, ◌≤ℤ◌, List, IfOk, OnOk, OnErr};
ghost use Rattle.std.specs.List.Sorted.{IsSorted};
ghost use Rattle.std.specs.Ordering.{nat_cmp};
ghost use Rattle.number_line.specs.Ranges.{xor};
ghost use Rattle.range_map.specs.Bounds.{has_place, is_odd, AscendFrom, AscendBelow};
ghost use Rattle.range_map.specs.Bounds.{IsToggled, StaysActive, ArePlacesAt, HeldAlikeTo};

use crate::sweep::bounds::{Bound, end_before};
use element_core::{Element, NoMemory, is_below};
use std::alloc::Global;
use std::marker::Model;
use std::mem;

/// The places of the ranges that hold the value last entered, ascending.
#[derive(Drop)]
pub struct ActivePlaces<'a, T: Element> {
    pub(crate) places: Vec<usize>,
    pub(crate) rest: &'a [Bound<T>],
    // These two hold nothing that is read again: `enter` makes its lists in their room.
    pub(crate) passed: Vec<usize>,
    pub(crate) left: Vec<usize>,
}

impl<'a, T: Element> Model for ActivePlaces<'a, T> {
    ghost use Rattle.std.specs.Prelude.{map};
    ghost use Rattle.range_map.specs.Sweep.{DoNotFallFrom};
    ghost use Rattle.range_map.specs.Bounds.{Active, AscendFrom, bounds_in_numbers};

    ghost Value = { Active };

    ghost view = { λ active. record {
      places = active.places.items;
      rest = bounds_in_numbers T.numbers active.rest.now;
    } };

    ghost invariant = { λ active.
        DoNotFallFrom T.numbers T.numbers.least (map (λ bound. bound.at) active.rest.now)
        × AscendFrom 0 active.places.items };
}

// Takes `place` off where it is the last one, and else puts it behind the others. None of them is
// greater.
fn toggle(places: &mut Vec<usize>, place: usize) -> Result<(), NoMemory>
    requires { AscendBelow 0 (place + 1) places.old.items }
    ensures ascending { OnOk result (AscendBelow 0 (place + 1) places.new.items) }
    ensures toggled { OnOk result (IsToggled places.old.items place places.new.items) }
{
    let Some(last) = places.pop() else {
        places.push(place)?;
        return Ok(());
    };
    if last != place {
        places.push(last)?;
        places.push(place)?;
    }
    Ok(())
}

// Returns the places that stand in a sorted list an odd number of times, in the room of `odd`.
fn odd_ones(mut odd: Vec<usize>, sorted: &[usize]) -> Result<Vec<usize>, NoMemory>
    requires { IsSorted nat_cmp sorted.now }
    ensures ascending { IfOk result (λ odd. AscendFrom 0 odd.items) }
    ensures odd { IfOk result
        (λ odd. (place : ℕ) → has_place odd.items place ≡ is_odd sorted.now place) }
{
    odd.clear();
    for place in sorted {
        toggle(&mut odd, *place)?;
    }
    Ok(odd)
}

impl<'a, T: Element> ActivePlaces<'a, T> {
    /// Goes on to `x`, which must not be below what was entered before, and returns the last value
    /// up to which the same ranges hold each. O(n + m log m) time and O(n + m) memory for n places
    /// and m bounds that are passed. After `NoMemory` everything is as before.
    pub fn enter(&mut self, alloc: Global, x: T) -> Result<T, NoMemory>
        ensures goes_on { OnOk result (StaysActive T.numbers.greatest (T.numbers.number x)
            self.old self.new) }
        ensures entered { OnOk result (ArePlacesAt T.numbers.greatest (T.numbers.number x)
            self.old self.new.places) }
        ensures stays { IfOk result (λ end. HeldAlikeTo T.numbers.greatest (T.numbers.number x)
            (T.numbers.number end) self.old) }
        ensures unchanged { OnErr result (self.new ≡ self.old) }
    {
        x.in_type();
        let mut all = mem::replace(&mut self.passed, Vec::new(alloc));
        all.clear();
        all.extend_from_slice(self.places.as_slice())?;
        let mut rest = self.rest;
        while let Some((bound, behind)) = rest.split_first() {
            if is_below(x, bound.at) {
                break;
            }
            all.push(bound.place)?;
            rest = behind;
        }
        // A place that was active and one of whose bounds was passed stands there twice. The sort
        // takes one pass where few bounds were passed.
        all.sort()?;
        let left = mem::replace(&mut self.left, Vec::new(alloc));
        let odd = odd_ones(left, all.as_slice())?;
        self.left = mem::replace(&mut self.places, odd);
        self.passed = all;
        self.rest = rest;
        Ok(end_before(x, rest))
    }

    /// Returns the places, ascending. O(1) time, no memory.
    pub fn places(&self) -> &[usize]
        ensures { result.now ≡ self.now.places }
    {
        self.places.as_slice()
    }
}
