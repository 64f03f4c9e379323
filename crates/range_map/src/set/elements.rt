//! The members of a set, one after another.
ghost use Rattle.std.specs.Prelude.{◌≡◌, ℤ, pos, ◌+ℤ◌, ◌<ℤ◌, [], ◌∷◌, length, None, IfSome, IfNone};
ghost use Rattle.std.specs.Iterator.{YieldsFirstBy, item_count, at_most, UpTo};
ghost use Rattle.std.specs.Iterator.SizeHint.{IsWithinCount};
ghost use Rattle.number_line.specs.Members.{members};
ghost use Rattle.range_map.specs.Range.{in_numbers};
ghost use Rattle.range_map.specs.Elements.{begun_before, members_left};

use crate::range::Range;
use crate::set::RangeSet;
use element_core::{Element, is_at_most};

/// The members of a set, ascending. Contracts speak of those still to come by `members_left`, the
/// list of their numbers.
///
/// Each call O(1) time, no memory.
#[derive(Clone, Copy, Debug)]
pub struct EltIter<'a, T: Element> {
    begun: Option<Range<T>>,
    rest: &'a [Range<T>],
}

// Returns the range without its first value, or `None` where it has no other.
pub(crate) fn without_first<T: Element>(range: &Range<T>) -> Option<Range<T>>
    ensures more { IfSome result
        (λ _. T.numbers.number range.now.0 <ℤ T.numbers.number range.now.1) }
    ensures others { IfSome result (λ left. in_numbers T.numbers left
        ≡ (T.numbers.number range.now.0 +ℤ pos 1, T.numbers.number range.now.1)) }
    ensures alone { IfNone result (T.numbers.number range.now.0 ≡ T.numbers.number range.now.1) }
{
    let end = range.end();
    let next = range.start().successor()?;
    if is_at_most(next, end) {
        Some(Range::new(next, end))
    } else {
        None
    }
}

// Returns the range that was begun or else the next one, and the ranges behind it.
fn next_range<'a, T: Element>(
    begun: Option<Range<T>>,
    rest: &'a [Range<T>],
) -> Option<(Range<T>, &'a [Range<T>])>
    ensures some { IfSome result (λ next. begun_before begun rest.now ≡ next.0 ∷ next.1.now) }
    ensures none { IfNone result (begun_before begun rest.now ≡ []) }
{
    match begun {
        Some(range) => Some((range, rest)),
        None => {
            let (range, others) = rest.split_first()?;
            Some((*range, others))
        }
    }
}

impl<'a, T: Element> Iterator for EltIter<'a, T> {
    type Item = T;

    ghost next_gives = { YieldsFirstBy T.numbers.number (members_left T.numbers) };

    ghost remaining = { item_count (members_left T.numbers) };

    fn next(&mut self) -> Option<T> {
        let Some(next) = next_range(self.begun, self.rest) else {
            return None;
        };
        self.begun = without_first(&next.0);
        self.rest = next.1;
        Some(next.0.start())
    }

    fn size_hint(&self) -> (usize, Option<usize>)
        ensures lower { IsWithinCount result.0
            (at_most (length (members_left T.numbers self.now))) }
        ensures upper { IfSome result.1
            (UpTo (at_most (length (members_left T.numbers self.now)))) }
        ensures open { result.1 ≡ None }
    {
        // Each range that isn't begun has a member at least.
        (self.rest.len(), None)
    }
}

impl<T: Element> RangeSet<T> {
    /// Returns the members, ascending. O(1) time, no memory.
    pub fn elements(&self) -> EltIter<'_, T>
        ensures { members_left T.numbers result ≡ members self.now }
    {
        EltIter {
            begun: None,
            rest: self.ranges.as_slice(),
        }
    }
}
