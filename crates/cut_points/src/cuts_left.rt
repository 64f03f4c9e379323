//! The cuts of a set one after another, each made as it is asked for.
ghost use Rattle.std.specs.Prelude.{◌≡◌, ℤ, List, [], ◌∷◌, drop, IfSome, IfNone};
ghost use Rattle.std.specs.Ordering.{int_cmp};
ghost use Rattle.number_line.specs.Ranges.{IsCanonical};
ghost use Rattle.ordered_lists.specs.Lists.{symmetric_difference};
ghost use Rattle.cut_points.specs.Cuts.{IsAscending, cuts as list_cuts};

use element_core::{Element, compare};
use range_map::{Range, RangeSet};
use std::cmp::Ordering;
use std::marker::Model;

/// The cuts of a set that are still to come, ascending, seen as the list of their numbers.
///
/// Each call O(1) time, no memory.
#[derive(Drop)]
pub(crate) struct CutsLeft<'a, T: Element> {
    ranges: &'a [Range<T>],
    // Whether the start of the first of these ranges was passed.
    begun: bool,
}

impl<'a, T: Element> Model for CutsLeft<'a, T> {
    ghost use Rattle.std.specs.Prelude.{ℤ, List};
    ghost use Rattle.number_line.specs.Ranges.{IsCanonical};
    ghost use Rattle.range_map.specs.Set.{all_in_numbers};
    ghost use Rattle.cut_points.specs.Cuts.{cuts_left};

    ghost Value = { List ℤ };

    ghost view = { λ left. cuts_left T.numbers.greatest left.begun
        (all_in_numbers T.numbers left.ranges.now) };

    ghost invariant = { λ left. IsCanonical T.numbers.least T.numbers.greatest
        (all_in_numbers T.numbers left.ranges.now) };
}

impl<'a, T: Element> CutsLeft<'a, T> {
    // Returns the cuts of `set`, all of them still to come.
    pub(crate) fn of(set: &'a RangeSet<T>) -> Self
        ensures all { result ≡ list_cuts T.numbers.greatest set.now }
        ensures canonical { IsCanonical T.numbers.least T.numbers.greatest set.now }
    {
        CutsLeft {
            ranges: set.as_slice(),
            begun: false,
        }
    }

    // Returns the next cut, which stays to come.
    fn peek(&self) -> Option<T>
        ensures some { IfSome result
            (λ cut. (rest : List ℤ) × (self.now ≡ T.numbers.number cut ∷ rest)) }
        ensures none { IfNone result (self.now ≡ []) }
        ensures ascending { IsAscending T.numbers.least T.numbers.greatest self.now }
    {
        let (range, _) = self.ranges.split_first()?;
        if self.begun {
            range.end().successor()
        } else {
            Some(range.start())
        }
    }

    // Passes over the next cut, if there is one.
    fn pass(&mut self)
        ensures { self.new ≡ drop 1 self.old }
    {
        if !self.begun {
            self.begun = true;
            return;
        }
        if let Some((_, others)) = self.ranges.split_first() {
            self.ranges = others;
            self.begun = false;
        }
    }
}

// Returns the first cut that just one side has, and passes over it and those before it.
pub(crate) fn take_lesser<T: Element>(
    left: &mut CutsLeft<'_, T>,
    right: &mut CutsLeft<'_, T>,
) -> Option<T>
    ensures some { IfSome result (λ cut. symmetric_difference int_cmp left.old right.old
        ≡ T.numbers.number cut ∷ symmetric_difference int_cmp left.new right.new) }
    ensures none { IfNone result ((symmetric_difference int_cmp left.old right.old ≡ [])
        × (symmetric_difference int_cmp left.new right.new ≡ [])) }
{
    while let Some(first) = left.peek() {
        let Some(second) = right.peek() else {
            left.pass();
            return Some(first);
        };
        match compare(first, second) {
            Ordering::Less => {
                left.pass();
                return Some(first);
            }
            Ordering::Greater => {
                right.pass();
                return Some(second);
            }
            Ordering::Equal => {
                left.pass();
                right.pass();
            }
        }
    }
    let last = right.peek()?;
    right.pass();
    Some(last)
}
