//! Hints of how many items are to come, made of those of the two sides of a stream.
ghost use Rattle.std.specs.Prelude.{◌≡◌};
ghost use Rattle.sorted_iter.specs.Hints.{sum_where_known, lesser_where_known, less_where_known, union_hint, intersection_hint, difference_hint, symmetric_difference_hint};

/// A lower bound, and an upper one where it is known.
pub type Hint = (usize, Option<usize>);

// The sum of two upper bounds, where both are known and it fits.
pub(crate) fn sum_of(a: Option<usize>, b: Option<usize>) -> Option<usize>
    ensures { result ≡ sum_where_known a b }
{
    match (a, b) {
        (Some(m), Some(n)) => m.checked_add(n),
        _ => None,
    }
}

// The lesser of two upper bounds, where both are known.
fn lesser_of(a: Option<usize>, b: Option<usize>) -> Option<usize>
    ensures { result ≡ lesser_where_known a b }
{
    match (a, b) {
        (Some(m), Some(n)) => Some(m.min(n)),
        _ => None,
    }
}

// A lower bound less an upper one, at least 0; 0 where the upper one is unknown.
fn less_by(low: usize, high: Option<usize>) -> usize
    ensures { result ≡ less_where_known low high }
{
    match high {
        Some(high) => low.saturating_sub(high),
        None => 0,
    }
}

/// Returns the hint of the items of either side.
pub fn of_union(a: Hint, b: Hint) -> Hint
    ensures { result ≡ union_hint a b }
{
    (a.0.max(b.0), sum_of(a.1, b.1))
}

/// Returns the hint of the items that both sides have.
pub fn of_intersection(a: Hint, b: Hint) -> Hint
    ensures { result ≡ intersection_hint a b }
{
    (0, lesser_of(a.1, b.1))
}

pub(crate) fn of_difference(a: Hint, b: Hint) -> Hint
    ensures { result ≡ difference_hint a b }
{
    (less_by(a.0, b.1), a.1)
}

pub(crate) fn of_symmetric_difference(a: Hint, b: Hint) -> Hint
    ensures { result ≡ symmetric_difference_hint a b }
{
    let low = less_by(b.0, a.1).max(less_by(a.0, b.1));
    (low, sum_of(a.1, b.1))
}
