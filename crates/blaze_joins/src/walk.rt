//! The walk over two maps that cuts the keys into pieces: the ranges of keys on each of which what
//! holds a key, in either map, stays the same.
ghost use Rattle.std.specs.Prelude.{◌≡◌, ◌+◌, ◌*◌, ◌≤◌, ℤ, pos, ◌+ℤ◌, ◌≤ℤ◌, ◌<ℤ◌};
ghost use Rattle.std.specs.Prelude.{◌||◌, is_some, Some, IfSome, IfNone, length};
ghost use Rattle.std.specs.Int.{int_min, int_max};
ghost use Rattle.std.specs.Option.{option_copied};
ghost use Rattle.number_line.specs.Pieces.{in_either, in_both, value_in};
ghost use Rattle.number_line.specs.Valued.{IsCanonicalMap};
ghost use Rattle.number_line.proofs.PieceLemmas.{EndsFrom};
ghost use Rattle.range_map.specs.Valued.{pairs_in_numbers};
ghost use Rattle.blaze_joins.specs.PlaceView.{pairs_from, ranges_behind};
ghost use Rattle.blaze_joins.specs.WalkView.{first_holder, first_end, next_number};
ghost use Rattle.blaze_joins.specs.WalkView.{IsWalk, IsWalkAt, IsMeeting, pieces_to_come};
ghost use Rattle.blaze_joins.specs.WalkView.{IsNextOf, NoneIsNext};

use crate::places::place_behind;
use element_core::{Element, is_below};
use range_map::Range;

/// A range of keys, and the values that each of them has in the two maps.
#[derive(Drop)]
pub(crate) struct Piece<T: Element, L, R> {
    pub(crate) range: Range<T>,
    pub(crate) left: L,
    pub(crate) right: R,
}

/// The value of some keys, or `None` where they have none, and the last key up to which that stays.
#[derive(Drop)]
pub(crate) struct Holder<'a, T: Element, V> {
    pub(crate) value: Option<&'a V>,
    pub(crate) end: T,
}

/// Where a walk over two maps stands.
#[derive(Drop)]
pub(crate) struct Walk<'a, 'b, T: Element, V: Eq, W: Eq> {
    left: &'a [(Range<T>, V)],
    /// The place of the first pair of the left map that ends at the next key or behind it.
    left_place: usize,
    right: &'b [(Range<T>, W)],
    /// The same of the right map.
    right_place: usize,
    /// The next key, or `None` behind the last.
    start: Option<T>,
}

// Returns what holds the key `start`, of the pairs from the place `at` on, which end there or
// behind it.
#[inline(always)]
pub(crate) fn holder_from<'a, T: Element, V: Eq>(
    pairs: &'a [(Range<T>, V)],
    at: usize,
    start: T,
) -> Holder<'a, T, V>
    ensures is_value { T.numbers.IsValue result.end }
    ensures end { T.numbers.number result.end
        ≡ first_end T.numbers.greatest (T.numbers.number start)
        (pairs_from T.numbers at pairs.now) }
    ensures value { option_copied result.value ≡ value_in
        (first_holder (T.numbers.number start) (pairs_from T.numbers at pairs.now)) }
{
    start.in_type();
    match pairs.get(at) {
        None => Holder {
            value: None,
            end: T::max_value(),
        },
        Some(first) => {
            let from = first.0.start();
            if !is_below(start, from) {
                let end = first.0.end();
                end.in_type();
                return Holder {
                    value: Some(&first.1),
                    end,
                };
            }
            match from.predecessor() {
                None => Holder {
                    value: None,
                    end: start,
                },
                Some(end) => Holder { value: None, end },
            }
        }
    }
}

// Returns the lesser of two keys, which are values of the type.
#[inline(always)]
pub(crate) fn lesser<T: Element>(a: T, b: T) -> T
    ensures is_value { T.numbers.IsValue result }
    ensures left { T.numbers.number result ≤ℤ T.numbers.number a }
    ensures right { T.numbers.number result ≤ℤ T.numbers.number b }
    ensures either { T.numbers.number result ≡ int_min (T.numbers.number a) (T.numbers.number b) }
{
    a.in_type();
    b.in_type();
    if is_below(b, a) { b } else { a }
}

// Returns the greater one.
#[inline(always)]
fn greater<T: Element>(a: T, b: T) -> T
    ensures { T.numbers.number result ≡ int_max (T.numbers.number a) (T.numbers.number b) }
{
    if is_below(a, b) { b } else { a }
}

// Returns the key behind `end` where it isn't beyond `last`.
#[inline(always)]
pub(crate) fn next_within<T: Element>(end: T, last: T) -> Option<T>
    ensures next { IfSome result
        (λ key. T.numbers.number key ≡ T.numbers.number end +ℤ pos 1) }
    ensures within { IfSome result
        (λ _. T.numbers.number end <ℤ T.numbers.number last) }
    ensures none { IfNone result (T.numbers.number last ≤ℤ T.numbers.number end) }
{
    end.in_type();
    last.in_type();
    if is_below(end, last) {
        end.successor()
    } else {
        None
    }
}

// Returns whether there is a value on either side.
#[inline(always)]
fn is_on_either<V, W>(left: Option<&V>, right: Option<&W>) -> bool
    ensures { result ≡ (is_some (option_copied left.entry)
        || is_some (option_copied right.entry)) }
{
    left.is_some() || right.is_some()
}

impl<'a, 'b, T: Element, V: Eq, W: Eq> Walk<'a, 'b, T, V, W> {
    // Returns the walk over the pairs of two maps, at the least key.
    pub(crate) fn new(left: &'a [(Range<T>, V)], right: &'b [(Range<T>, W)]) -> Self
        requires left { IsCanonicalMap V.eq T.numbers.least T.numbers.greatest
            (pairs_in_numbers T.numbers left.now) }
        requires right { IsCanonicalMap W.eq T.numbers.least T.numbers.greatest
            (pairs_in_numbers T.numbers right.now) }
        ensures left { result.left.now ≡ left.now }
        ensures right { result.right.now ≡ right.now }
        ensures walk { IsWalk T.numbers V.eq W.eq result }
        ensures meeting { IsMeeting T.numbers result }
        ensures start { next_number T.numbers result.start ≡ T.numbers.least }
        ensures most { pieces_to_come T.numbers result
            ≤ 1 + (2 * length left.now + 2 * length right.now) }
    {
        let start = T::min_value();
        start.in_type();
        Walk {
            left,
            left_place: 0,
            right,
            right_place: 0,
            start: Some(start),
        }
    }

    // Goes on behind the key `end`, before which no pair ends that is still to come.
    #[inline(always)]
    fn go_behind(&mut self, end: T)
        requires at { (n : ℤ) × (n ≤ℤ T.numbers.number end)
            × IsWalkAt T.numbers V.eq W.eq n self.old }
        requires left { EndsFrom (T.numbers.number end)
            (pairs_from T.numbers self.old.left_place self.old.left.now) }
        requires right { EndsFrom (T.numbers.number end)
            (pairs_from T.numbers self.old.right_place self.old.right.now) }
        ensures same_left { self.new.left ≡ self.old.left }
        ensures same_right { self.new.right ≡ self.old.right }
        ensures walk { IsWalk T.numbers V.eq W.eq self.new }
        ensures start { next_number T.numbers self.new.start
            ≡ T.numbers.number end +ℤ pos 1 }
        ensures left { pairs_from T.numbers self.new.left_place self.new.left.now
            ≡ ranges_behind (T.numbers.number end)
            (pairs_from T.numbers self.old.left_place self.old.left.now) }
        ensures right { pairs_from T.numbers self.new.right_place self.new.right.now
            ≡ ranges_behind (T.numbers.number end)
            (pairs_from T.numbers self.old.right_place self.old.right.now) }
    {
        end.in_type();
        self.left_place = place_behind(self.left, self.left_place, end);
        self.right_place = place_behind(self.right, self.right_place, end);
        self.start = end.successor();
    }

    // Goes on behind the next piece that has a value in either map and returns it, or returns
    // `None` where none comes. O(1) time.
    #[inline(always)]
    pub(crate) fn next_of_either(&mut self) -> Option<Piece<T, Option<&'a V>, Option<&'b W>>>
        requires walk { IsWalk T.numbers V.eq W.eq self.old }
        ensures same_left { self.new.left ≡ self.old.left }
        ensures same_right { self.new.right ≡ self.old.right }
        ensures walk { IsWalk T.numbers V.eq W.eq self.new }
        ensures piece { IfSome result (λ piece. IsNextOf T.numbers in_either self.old piece.range
            (option_copied piece.left, option_copied piece.right) self.new) }
        ensures none { IfNone result (NoneIsNext T.numbers in_either self.old) }
    {
        'pieces: loop {
            let start = self.start?;
            start.in_type();
            let left = holder_from(self.left, self.left_place, start);
            let right = holder_from(self.right, self.right_place, start);
            let end = lesser(left.end, right.end);
            self.go_behind(end);
            if is_on_either(left.value, right.value) {
                return Some(Piece {
                    range: Range::new(start, end),
                    left: left.value,
                    right: right.value,
                });
            }
        }
    }

    // The same of the next piece that has a value in both maps. O(k) time where k pairs end before
    // it.
    #[inline(always)]
    pub(crate) fn next_of_both(&mut self) -> Option<Piece<T, &'a V, &'b W>>
        requires walk { IsWalk T.numbers V.eq W.eq self.old }
        requires meeting { IsMeeting T.numbers self.old }
        ensures same_left { self.new.left ≡ self.old.left }
        ensures same_right { self.new.right ≡ self.old.right }
        ensures walk { IsWalk T.numbers V.eq W.eq self.new }
        ensures meeting { IsMeeting T.numbers self.new }
        ensures piece { IfSome result (λ piece. IsNextOf T.numbers in_both self.old piece.range
            (Some piece.left.now, Some piece.right.now) self.new) }
        ensures none { IfNone result (NoneIsNext T.numbers in_both self.old) }
    {
        'pieces: loop {
            let left = self.left.get(self.left_place)?;
            let right = self.right.get(self.right_place)?;
            let start = greater(left.0.start(), right.0.start());
            let end = lesser(left.0.end(), right.0.end());
            self.go_behind(end);
            if !is_below(end, start) {
                return Some(Piece {
                    range: Range::new(start, end),
                    left: &left.1,
                    right: &right.1,
                });
            }
        }
    }
}
