//! The walk along two sources of pairs in the order of their keys, which the four joins share.
ghost use Rattle.std.specs.Prelude.{IfSome};
ghost use Rattle.sorted_iter.specs.TwoSides.{sides_can, StepsTwo, Nears};
ghost use Rattle.sorted_pairs.specs.Matches.{across, matches, IsWanted};

use sorted_iter::{Sides, Wants};
use std::cmp::Ordering;

/// What two sources have at the next key: the item of one, or that of each.
#[derive(Drop)]
pub enum EitherOrBoth<A, B> {
    /// No item of the right source has the key.
    Left(A),

    /// The keys are equal.
    Both(A, B),

    /// No item of the left source has the key.
    Right(B),
}

// Returns what is at the next key that is wanted. It asks each source at most once for each item
// that it passes over, and takes no memory of its own.
#[inline(always)]
pub(crate) fn next_match<
    K: Ord + Drop,
    V: Drop,
    W: Drop,
    I: Iterator<Item = (K, V)>,
    J: Iterator<Item = (K, W)>,
>(sides: &mut Sides<I, J>, wants: Wants) -> Option<EitherOrBoth<(K, V), (K, W)>>
where
    requires { sides_can I.can_next I.remaining J.can_next J.remaining sides.old }
    ensures steps { StepsTwo (matches (across K.cmp) wants.left wants.both wants.right)
        I.next_gives J.next_gives sides.old result sides.new }
    ensures nears { Nears I.can_next I.remaining J.can_next J.remaining wants sides.old result
        sides.new }
    ensures wanted { IfSome result (IsWanted wants.left wants.both wants.right) }
{
    'walk: loop {
        let Some(x) = sides.left.take() else {
            if !wants.right {
                return None;
            }
            let Some(y) = sides.right.take() else {
                return None;
            };
            return Some(EitherOrBoth::Right(y));
        };
        let Some(y) = sides.right.take() else {
            if !wants.left {
                return None;
            }
            return Some(EitherOrBoth::Left(x));
        };
        match x.0.cmp(&y.0) {
            Ordering::Less => {
                sides.right.put_back(y);
                if wants.left {
                    return Some(EitherOrBoth::Left(x));
                }
            }
            Ordering::Equal => {
                if wants.both {
                    return Some(EitherOrBoth::Both(x, y));
                }
            }
            Ordering::Greater => {
                sides.left.put_back(x);
                if wants.right {
                    return Some(EitherOrBoth::Right(y));
                }
            }
        }
    }
}
