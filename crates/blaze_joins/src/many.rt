//! Joins of many maps: a function is called once for each piece of all of them, and its answers
//! become a map.
ghost use Rattle.std.specs.Prelude.{◌≡◌, ℤ, pos, ◌+ℤ◌, ◌≤ℤ◌, Some};
ghost use Rattle.std.specs.Prelude.{IfOk, is_some, length, map, true};
ghost use Rattle.std.specs.List.{AllZip, list_any, list_all};
ghost use Rattle.number_line.specs.Pieces.{value_in, values_of_all, in_all};
ghost use Rattle.number_line.specs.Valued.{IsCanonicalMap};
ghost use Rattle.blaze_joins.specs.Filled.{IsOptionClone};
ghost use Rattle.blaze_joins.specs.Joins.{IsFullJoinOfAll, IsInnerJoinOfAll};
ghost use Rattle.blaze_joins.specs.PlaceView.{at_place};
ghost use Rattle.blaze_joins.specs.SideView.{IsPlace, IsSideOf, AreSidesOf};
ghost use Rattle.blaze_joins.specs.SideView.{holders_in, least_of, ends_of};

use crate::map::RangeMapBlaze;
use crate::places::{held_from, place_behind};
use crate::walk::lesser;
use element_core::{Element, NoMemory};
use range_map::{Range, RangeMap};
use std::alloc::Global;

/// Where a walk stands in one map.
#[derive(Clone, Copy)]
pub(crate) struct Side<T: Element> {
    /// The place of the first pair that ends at the key or behind it.
    at: usize,
    /// The place of the pair that holds the key, or `None` without one.
    place: Option<usize>,
    /// The last key up to which that stays.
    end: T,
}

impl<T: Element, V: Eq> RangeMapBlaze<T, V> {
    // Returns what holds the key `start`, of the pairs from the place `at` on.
    fn side_from(&self, at: usize, start: T) -> Side<T>
        requires { IsPlace T.numbers V.eq (T.numbers.number start) self.now at }
        ensures { IsSideOf T.numbers V.eq (T.numbers.number start) self.now result }
    {
        let held = held_from(self.map.as_slice(), at, start);
        Side {
            at,
            place: held.place,
            end: held.end,
        }
    }

    // Returns what holds the least key.
    fn first_side(&self) -> Side<T>
        ensures { IsSideOf T.numbers V.eq T.numbers.least self.now result }
    {
        let held = held_from(self.map.as_slice(), 0, T::min_value());
        Side {
            at: 0,
            place: held.place,
            end: held.end,
        }
    }

    // Returns what holds the key `next`, which comes behind the key `end`.
    fn side_behind(&self, side: Side<T>, end: T, next: T) -> Side<T>
        requires side { (n : ℤ) × (n ≤ℤ T.numbers.number end) × IsSideOf T.numbers V.eq n self.now
            side }
        requires end { T.numbers.number end ≤ℤ T.numbers.number side.end }
        requires next { T.numbers.number next ≡ T.numbers.number end +ℤ pos 1 }
        ensures { IsSideOf T.numbers V.eq (T.numbers.number next) self.now result }
    {
        let at = place_behind(self.map.as_slice(), side.at, end);
        self.side_from(at, next)
    }

    // Returns a clone of the value at a place, or `None` without one.
    fn clone_at_place(&self, place: Option<usize>) -> Result<Option<V>, NoMemory>
    where
        V: Clone,
        ensures { IfOk result (IsOptionClone V.is_clone (value_in (at_place self.now place))) }
    {
        match place {
            None => Ok(None),
            Some(place) => match self.map.as_slice().get(place) {
                None => Ok(None),
                Some(pair) => Ok(Some(pair.1.clone()?)),
            },
        }
    }
}

// Returns what holds the least key in each map.
fn first_sides<T: Element, V: Eq>(
    alloc: Global,
    maps: &[RangeMapBlaze<T, V>],
) -> Result<Vec<Side<T>>, NoMemory>
    ensures { IfOk result
        (λ sides. AreSidesOf T.numbers V.eq T.numbers.least maps.now sides.items) }
{
    let mut sides = Vec::with_capacity(alloc, maps.len())?;
    for map in maps {
        sides.push(map.first_side())?;
    }
    Ok(sides)
}

// Returns what holds the key `next` in each map. It comes behind the key `end`.
fn sides_behind<T: Element, V: Eq>(
    alloc: Global,
    maps: &[RangeMapBlaze<T, V>],
    sides: &[Side<T>],
    end: T,
    next: T,
) -> Result<Vec<Side<T>>, NoMemory>
    requires sides { (n : ℤ) × (n ≤ℤ T.numbers.number end) × AreSidesOf T.numbers V.eq n maps.now
        sides.now }
    requires end { T.numbers.number end ≤ℤ least_of T.numbers.greatest
        (ends_of T.numbers sides.now) }
    requires next { T.numbers.number next ≡ T.numbers.number end +ℤ pos 1 }
    ensures { IfOk result
        (λ new. AreSidesOf T.numbers V.eq (T.numbers.number next) maps.now new.items) }
{
    let mut new = Vec::with_capacity(alloc, maps.len())?;
    for (i, map) in maps.iter().enumerate() {
        new.push(map.side_behind(sides[i], end, next))?;
    }
    Ok(new)
}

// Returns the first key at which one of the sides ends, or the greatest key without any.
fn first_end<T: Element>(sides: &[Side<T>]) -> T
    ensures is_value { T.numbers.IsValue result }
    ensures least { T.numbers.number result ≡ least_of T.numbers.greatest
        (ends_of T.numbers sides.now) }
{
    let mut end = T::max_value();
    for side in sides {
        end = lesser(end, side.end);
    }
    end
}

// Returns a clone of the value in each map, or `None` where it has none, in the order of the maps.
fn values_of_each<T: Element, V: Eq + Clone + Drop>(
    alloc: Global,
    maps: &[RangeMapBlaze<T, V>],
    sides: &[Side<T>],
) -> Result<Vec<Option<V>>, NoMemory>
    requires { length maps.now ≡ length sides.now }
    ensures { IfOk result (λ values. AllZip (IsOptionClone V.is_clone)
        (values_of_all (holders_in maps.now sides.now)) values.items) }
{
    let mut values = Vec::with_capacity(alloc, maps.len())?;
    for (i, map) in maps.iter().enumerate() {
        let side = sides[i];
        values.push(map.clone_at_place(side.place)?)?;
    }
    Ok(values)
}

// Returns a clone of the value in each map, in the order of the maps. Each of them has one.
fn present_values<T: Element, V: Eq + Clone + Drop>(
    alloc: Global,
    maps: &[RangeMapBlaze<T, V>],
    sides: &[Side<T>],
) -> Result<Vec<V>, NoMemory>
    requires length { length maps.now ≡ length sides.now }
    requires present { in_all (holders_in maps.now sides.now) ≡ true }
    ensures { IfOk result (λ values. AllZip (IsOptionClone V.is_clone)
        (values_of_all (holders_in maps.now sides.now)) (map (λ v. Some v) values.items)) }
{
    let mut values = Vec::with_capacity(alloc, maps.len())?;
    for (i, map) in maps.iter().enumerate() {
        let side = sides[i];
        if let Some(value) = map.clone_at_place(side.place)? {
            values.push(value)?;
        }
    }
    Ok(values)
}

// Returns whether one of the maps has a value.
fn one_holds<T: Element>(sides: &[Side<T>]) -> bool
    ensures { result ≡ list_any (λ side. is_some side.place) sides.now }
{
    sides.iter().any(|side| side.place.is_some())
}

// Returns whether each of the maps has a value.
fn each_holds<T: Element>(sides: &[Side<T>]) -> bool
    ensures { result ≡ list_all (λ side. is_some side.place) sides.now }
{
    sides.iter().all(|side| side.place.is_some())
}

/// Returns the map of what `f` answers, called once for each piece over the keys in any of the
/// maps, in order, with a clone of each map's value there, or `None`, in the order of the maps. A
/// piece is a range of keys on which what holds them, in each map, stays the same. Of touching
/// pieces with equal answers the first answer stays. Without maps `f` isn't called, and no key has
/// a value. After `NoMemory` the function was called at the first pieces, or at none. O(k) time a
/// piece for k maps, beside the call and the clones, and O(k) memory beside the answer.
pub fn full_join_all<
    T: Element,
    V: Eq + Clone + Drop,
    X: Eq + Drop,
    F: FnMut(&[Option<V>]) -> X + Drop,
>(alloc: Global, maps: &[RangeMapBlaze<T, V>], mut f: F) -> Result<RangeMapBlaze<T, X>, NoMemory>
    requires { F.IsAlwaysCallable f }
    ensures canonical { IfOk result (IsCanonicalMap X.eq T.numbers.least T.numbers.greatest) }
    ensures joined { IfOk result (IsFullJoinOfAll T.numbers V.is_clone F.FnMut X.eq maps.now f) }
{
    let mut map = RangeMap::new(alloc);
    let mut start = T::min_value();
    let mut sides = first_sides(alloc, maps)?;
    loop {
        let end = first_end(sides.as_slice());
        if one_holds(sides.as_slice()) {
            let values = values_of_each(alloc, maps, sides.as_slice())?;
            let answer = f(values.as_slice());
            map.push(Range::new(start, end), answer)?;
        }
        let Some(next) = end.successor() else {
            // This tells that the ranges are canonical.
            map.as_slice();
            return Ok(RangeMapBlaze { map });
        };
        sides = sides_behind(alloc, maps, sides.as_slice(), end, next)?;
        start = next;
    }
}

/// Returns the same over the keys in all maps, each of whose values is handed over. Without maps
/// `f` is called once, with no value, and every key has its answer.
pub fn inner_join_all<T: Element, V: Eq + Clone + Drop, X: Eq + Drop, F: FnMut(&[V]) -> X + Drop>(
    alloc: Global,
    maps: &[RangeMapBlaze<T, V>],
    mut f: F,
) -> Result<RangeMapBlaze<T, X>, NoMemory>
    requires { F.IsAlwaysCallable f }
    ensures canonical { IfOk result (IsCanonicalMap X.eq T.numbers.least T.numbers.greatest) }
    ensures joined { IfOk result (IsInnerJoinOfAll T.numbers V.is_clone F.FnMut X.eq maps.now f) }
{
    let mut map = RangeMap::new(alloc);
    let mut start = T::min_value();
    let mut sides = first_sides(alloc, maps)?;
    loop {
        let end = first_end(sides.as_slice());
        if each_holds(sides.as_slice()) {
            let values = present_values(alloc, maps, sides.as_slice())?;
            let answer = f(values.as_slice());
            map.push(Range::new(start, end), answer)?;
        }
        let Some(next) = end.successor() else {
            // This tells that the ranges are canonical.
            map.as_slice();
            return Ok(RangeMapBlaze { map });
        };
        sides = sides_behind(alloc, maps, sides.as_slice(), end, next)?;
        start = next;
    }
}
