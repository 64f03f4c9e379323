//! The hint of a many-way union, from the hints of its inputs.
ghost use Rattle.std.specs.Prelude.{◌≡◌, ℕ, List, Some};
ghost use Rattle.std.specs.List.{AllZip};
ghost use Rattle.sorted_iter.specs.MultiwayHints.{fitting, Hint, IsHint, known_sum, multiway_hint};

use crate::multiway::heads::InputHead;

// One more than `most` on top of `sum`, where both are known and all fits.
fn add_upper(sum: Option<usize>, most: Option<usize>) -> Option<usize>
    ensures { result ≡ fitting (known_sum sum (known_sum most (Some 1))) }
{
    sum?.checked_add(most?)?.checked_add(1)
}

// Returns the hint from the inputs' own: the greatest lower number plus 1, and the sum of the
// upper ones, each plus 1.
pub(crate) fn hint_of<I: Iterator>(heads: &Vec<InputHead<I>>) -> (usize, Option<usize>)
where
    I::Item: Drop,
    ensures { (hints : List Hint) × (result ≡ multiway_hint hints)
        × AllZip (λ h input. IsHint (I.remaining h.rest) input) heads.now.items hints }
{
    let mut lower = 0usize;
    let mut upper = Some(0usize);
    for head in heads {
        let (least, most) = head.rest.size_hint();
        lower = lower.max(least.saturating_add(1));
        upper = add_upper(upper, most);
    }
    (lower, upper)
}
