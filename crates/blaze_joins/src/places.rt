//! The places of the pairs that hold the keys from one on.
ghost use Rattle.std.specs.Prelude.{◌≡◌, ℤ, pos, ◌+ℤ◌, ◌≤ℤ◌, ◌≤◌};
ghost use Rattle.std.specs.Prelude.{List, is_some, length};
ghost use Rattle.number_line.specs.Valued.{IsCanonicalMap};
ghost use Rattle.number_line.proofs.PieceLemmas.{IsHeld, EndsFrom, IsLeft};
ghost use Rattle.blaze_joins.specs.PlaceView.{pairs_from, ranges_from, ranges_behind};
ghost use Rattle.blaze_joins.specs.PlaceView.{pair_at_place};

use element_core::{Element, is_below};
use range_map::Range;

/// The place of the pair that holds some keys, and the last key up to which it does.
#[derive(Clone, Copy)]
pub(crate) struct Held<T: Element> {
    pub(crate) place: Option<usize>,
    pub(crate) end: T,
}

// Returns what holds the key `start`, of the pairs from the place `at` on, and the last key up to
// which that stays.
pub(crate) fn held_from<T: Element, V: Eq>(pairs: &[(Range<T>, V)], at: usize, start: T) -> Held<T>
    requires canonical { IsCanonicalMap V.eq T.numbers.least T.numbers.greatest
        (pairs_from T.numbers at pairs.now) }
    requires ends { EndsFrom (T.numbers.number start) (pairs_from T.numbers at pairs.now) }
    ensures is_value { T.numbers.IsValue result.end }
    ensures held { IsHeld V.eq T.numbers.greatest (pairs_from T.numbers at pairs.now)
        (T.numbers.number start) (T.numbers.number result.end)
        (pair_at_place T.numbers pairs.now result.place) }
    ensures there { is_some result.place
        ≡ is_some (pair_at_place T.numbers pairs.now result.place) }
{
    start.in_type();
    match pairs.get(at) {
        None => {
            let end = T::max_value();
            Held { place: None, end }
        }
        Some(first) => {
            let from = first.0.start();
            if !is_below(start, from) {
                let end = first.0.end();
                end.in_type();
                return Held {
                    place: Some(at),
                    end,
                };
            }
            match from.predecessor() {
                None => Held {
                    place: None,
                    end: start,
                },
                Some(end) => Held { place: None, end },
            }
        }
    }
}

// Returns the first place from `at` on whose pair ends at the key `start` or behind it, or how many
// pairs there are.
#[inline(always)]
pub(crate) fn place_from<T: Element, V: Eq>(pairs: &[(Range<T>, V)], at: usize, start: T) -> usize
    requires within { at ≤ length pairs.now }
    ensures within { result ≤ length pairs.now }
    ensures pairs { pairs_from T.numbers result pairs.now
        ≡ ranges_from (T.numbers.number start) (pairs_from T.numbers at pairs.now) }
{
    let mut place = at;
    while let Some(pair) = pairs.get(place) {
        if !is_below(pair.0.end(), start) {
            return place;
        }
        place += 1;
    }
    place
}

// Returns the place behind the pairs that end at the key `end`. None of those from the place `at`
// on ends before it.
#[inline(always)]
pub(crate) fn place_behind<T: Element, V: Eq>(pairs: &[(Range<T>, V)], at: usize, end: T) -> usize
    requires within { at ≤ length pairs.now }
    ensures within { result ≤ length pairs.now }
    ensures pairs { pairs_from T.numbers result pairs.now
        ≡ ranges_behind (T.numbers.number end) (pairs_from T.numbers at pairs.now) }
{
    match pairs.get(at) {
        None => at,
        Some(first) => at + usize::from(!is_below(end, first.0.end())),
    }
}
