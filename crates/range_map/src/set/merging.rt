//! Two lists of ranges read together, and a set made from its first range on.
ghost use Rattle.std.specs.Prelude.{◌≡◌, ℤ, pos, ◌+◌, ◌<◌, ◌≤ℤ◌, ◌+ℤ◌};
ghost use Rattle.std.specs.Prelude.{◌&&◌, true, [], ◌∷◌, ◌++◌, length};
ghost use Rattle.std.specs.Prelude.{IfOk, OnOk, IfSome, IfNone, vec_len, vec_capacity};
ghost use Rattle.std.specs.Bool.{MatchBool};
ghost use Rattle.number_line.specs.Ranges.{lies_in};
ghost use Rattle.range_map.specs.Range.{in_numbers};
ghost use Rattle.range_map.specs.Set.{all_in_numbers, AreRanges, IsSet};
ghost use Rattle.range_map.specs.Merging.{BeginBy, EndApart, IsTaken};
ghost use Rattle.range_map.specs.Merging.{IsJoined, IsGapPushed, IsCommonPushed};

use crate::range::Range;
use crate::set::RangeSet;
use element_core::{Element, NoMemory, is_below};
use std::alloc::Global;

/// The range of two lists that begins first, and what is left of them.
#[derive(Clone, Copy)]
pub(crate) struct Taken<'a, T: Element> {
    pub(crate) next: Range<T>,
    pub(crate) left: &'a [Range<T>],
    pub(crate) right: &'a [Range<T>],
}

// Takes the range that begins first; the left one, where both first ranges begin with one value.
// `None` where both lists are empty.
pub(crate) fn take_first<'a, T: Element>(
    left: &'a [Range<T>],
    right: &'a [Range<T>],
) -> Option<Taken<'a, T>>
    ensures none { IfNone result ((left.now ≡ []) × (right.now ≡ [])) }
    ensures taken { IfSome result (λ t. IsTaken T.numbers.greatest
        (all_in_numbers T.numbers left.now) (all_in_numbers T.numbers right.now)
        (in_numbers T.numbers t.next)
        (all_in_numbers T.numbers t.left.now) (all_in_numbers T.numbers t.right.now)) }
    ensures fewer { IfSome result (λ t.
        length t.left.now + length t.right.now < length left.now + length right.now) }
{
    let Some((a, after_a)) = left.split_first() else {
        let (b, after_b) = right.split_first()?;
        return Some(Taken {
            next: *b,
            left,
            right: after_b,
        });
    };
    let Some((b, after_b)) = right.split_first() else {
        return Some(Taken {
            next: *a,
            left: after_a,
            right,
        });
    };
    if is_below(b.start(), a.start()) {
        Some(Taken {
            next: *b,
            left,
            right: after_b,
        })
    } else {
        Some(Taken {
            next: *a,
            left: after_a,
            right,
        })
    }
}

// Returns whether `next`, which begins no earlier than `last`, overlaps or touches it.
fn joins<T: Element>(last: &Range<T>, next: &Range<T>) -> bool
    ensures { MatchBool result
        (T.numbers.number next.now.0 ≤ℤ (T.numbers.number last.now.1 +ℤ pos 1))
        ((T.numbers.number last.now.1 +ℤ pos 2) ≤ℤ T.numbers.number next.now.0) }
{
    let start = next.start();
    start.in_type();
    match last.end().successor() {
        Some(after) => !is_below(after, start),
        None => true,
    }
}

// Puts `range` behind the ranges of a set, none of which begins later and for which there is room,
// as one with the last of them where the two overlap or touch.
fn join_last<T: Element>(list: &mut Vec<Range<T>>, range: Range<T>)
    requires set { IsSet T.numbers list.old.items }
    requires begin_by { BeginBy (T.numbers.number range.0)
        (all_in_numbers T.numbers list.old.items) }
    requires room { vec_len list.old < vec_capacity list.old }
    ensures are_ranges { AreRanges T.numbers list.new.items }
    ensures joined { IsJoined T.numbers.least T.numbers.greatest
        (all_in_numbers T.numbers list.old.items)
        (in_numbers T.numbers range) (all_in_numbers T.numbers list.new.items) }
{
    // These two tell that the range lies within the type.
    range.start();
    range.end();
    match list.pop() {
        None => list.push_reserved(range),
        Some(last) => {
            if joins(&last, &range) {
                list.push_reserved(last.cover(&range));
            } else {
                list.push_reserved(last);
                list.push_reserved(range);
            }
        }
    }
}

impl<T: Element> RangeSet<T> {
    // Returns the empty set, with room for so many ranges.
    pub(crate) fn with_capacity(alloc: Global, ranges: usize) -> Result<Self, NoMemory>
        ensures { IfOk result (λ set. set ≡ []) }
    {
        let ranges = Vec::with_capacity(alloc, ranges)?;
        Ok(RangeSet { ranges })
    }

    // Puts `range` behind the others, none of which begins later, as one with the last of them
    // where the two overlap or touch.
    pub(crate) fn push_joined(&mut self, range: Range<T>) -> Result<(), NoMemory>
        requires { BeginBy (T.numbers.number range.0) self.old }
        ensures { OnOk result (IsJoined T.numbers.least T.numbers.greatest self.old
            (in_numbers T.numbers range) self.new) }
    {
        self.ranges.reserve(1)?;
        join_last(&mut self.ranges, range);
        Ok(())
    }

    // Puts `range` behind the others, which end two values or more before it.
    pub(crate) fn push_apart(&mut self, range: Range<T>) -> Result<(), NoMemory>
        requires { EndApart (T.numbers.number range.0) self.old }
        ensures { OnOk result (self.new ≡ self.old ++ in_numbers T.numbers range ∷ []) }
    {
        // These two tell that the range lies within the type.
        range.start();
        range.end();
        self.ranges.push(range)?;
        Ok(())
    }

    // Puts the values from `start` to below `range` behind the others, if there are any.
    pub(crate) fn push_gap(&mut self, start: T, range: &Range<T>) -> Result<(), NoMemory>
        requires apart { EndApart (T.numbers.number start) self.old }
        requires no_later { T.numbers.number start ≤ℤ T.numbers.number range.now.0 }
        ensures { OnOk result (IsGapPushed self.old (T.numbers.number start)
            (T.numbers.number range.now.0) self.new) }
    {
        start.in_type();
        if let Some(end) = range.start().predecessor() {
            if !is_below(end, start) {
                self.push_apart(Range::new(start, end))?;
            }
        }
        Ok(())
    }

    // Puts the values in both ranges behind the others, if there are any.
    pub(crate) fn push_common(&mut self, left: &Range<T>, right: &Range<T>) -> Result<(), NoMemory>
        requires { (x : ℤ) → (lies_in (in_numbers T.numbers left.now) x
            && lies_in (in_numbers T.numbers right.now) x) ≡ true → EndApart x self.old }
        ensures { OnOk result (IsCommonPushed self.old (in_numbers T.numbers left.now)
            (in_numbers T.numbers right.now) self.new) }
    {
        if let Some(both) = left.intersection(right) {
            self.push_apart(both)?;
        }
        Ok(())
    }
}
