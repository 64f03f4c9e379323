//! Sets of all values but some.
ghost use Rattle.std.specs.Prelude.{◌≡◌, ℤ, pos, ◌+ℤ◌, ◌≤ℤ◌, ◌<ℤ◌, List, Some, IfOk, OnOk};
ghost use Rattle.std.specs.Prelude.{IfSome, IfNone};
ghost use Rattle.std.specs.Bool.{OnTrue, OnFalse};
ghost use Rattle.std.specs.Iterator.{IsFinite, Drains};
ghost use Rattle.number_line.specs.Except.{IsExcept};
ghost use Rattle.range_map.specs.LeftOut.{number_after};
ghost use Rattle.range_map.specs.Merging.{EndApart, IsGapPushed};
ghost use Rattle.range_map.specs.Sweep.{numbers_of};

use crate::range::Range;
use crate::set::RangeSet;
use element_core::{Element, NoMemory, is_at_most, is_below};
use std::alloc::Global;

// Returns the value behind `last`, or the least one where there is none; `None` where `last` is
// the greatest.
fn value_after<T: Element>(last: Option<T>) -> Option<T>
    ensures some { IfSome result (λ next. T.numbers.number next ≡ number_after T.numbers last) }
    ensures none { IfNone result (number_after T.numbers last ≡ T.numbers.greatest +ℤ pos 1) }
{
    match last {
        None => Some(T::min_value()),
        Some(last) => last.successor(),
    }
}

// Returns whether `x` is less than `last`.
fn is_below_last<T: Element>(x: T, last: Option<T>) -> bool
    ensures below { OnTrue result ((v : T) × (last ≡ Some v)
        × (T.numbers.number x <ℤ T.numbers.number v)) }
    ensures not_below { OnFalse result
        (IfSome last (λ v. T.numbers.number v ≤ℤ T.numbers.number x)) }
{
    match last {
        Some(last) => is_below(x, last),
        None => false,
    }
}

// Puts the values behind `last` and below `x` behind the others, if there are any.
fn push_gap_to<T: Element>(set: &mut RangeSet<T>, last: Option<T>, x: T) -> Result<(), NoMemory>
    requires { EndApart (number_after T.numbers last) set.old }
    ensures pushed { OnOk result (IsGapPushed set.old (number_after T.numbers last)
        (T.numbers.number x) set.new) }
    ensures low { T.numbers.least ≤ℤ T.numbers.number x }
    ensures high { T.numbers.number x ≤ℤ T.numbers.greatest }
{
    x.in_type();
    if let Some(start) = value_after(last) {
        if is_at_most(start, x) {
            set.push_gap(start, &Range::single(x))?;
        }
    }
    Ok(())
}

// Puts the values behind `last` behind the others, if there are any.
fn push_gap_to_end<T: Element>(set: &mut RangeSet<T>, last: Option<T>) -> Result<(), NoMemory>
    requires { EndApart (number_after T.numbers last) set.old }
    ensures { OnOk result (IsGapPushed set.old (number_after T.numbers last)
        (T.numbers.greatest +ℤ pos 1) set.new) }
{
    if let Some(start) = value_after(last) {
        start.in_type();
        set.push_apart(Range::new(start, T::max_value()))?;
    }
    Ok(())
}

impl<T: Element> RangeSet<T> {
    /// Returns the set of all values but those that `it` gives, or `None` where some of these is
    /// less than the one before it. A value may come again and again; where none comes, the set is
    /// full. Takes O(n) calls of `next` and O(n) time for n values, and memory for the set.
    pub fn except<I: Iterator<Item = T>>(alloc: Global, it: I) -> Result<Option<Self>, NoMemory>
        requires { I.can_next it × IsFinite (I.remaining it) }
        ensures { IfOk result (λ set. (values : List T) × Drains I.next_gives it values
            × IsExcept T.numbers.least T.numbers.greatest (numbers_of T.numbers values) set) }
    {
        let mut set = RangeSet::new(alloc);
        let mut last = None;
        let mut falls = false;
        for x in it {
            if falls {
                continue;
            }
            if is_below_last(x, last) {
                falls = true;
                continue;
            }
            push_gap_to(&mut set, last, x)?;
            last = Some(x);
        }
        if falls {
            return Ok(None);
        }
        push_gap_to_end(&mut set, last)?;
        Ok(Some(set))
    }
}
