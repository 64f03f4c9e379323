//! The trait of numbered types.
ghost use Rattle.std.specs.Prelude.{◌≡◌, ℤ, pos, ◌+ℤ◌, ◌-ℤ◌, ◌≤ℤ◌, ◌<ℤ◌, min, IfSome, IsNone, ◌↔◌, unsigned_abs};
ghost use Rattle.std.specs.Bool.{MatchBool};
ghost use Rattle.std.specs.Ordering.{int_cmp};
ghost use Rattle.element_core.specs.Numbering.{Numbering, IsNumbering};

use std::cmp::Ordering;

/// A type whose values are numbered, one for each whole number from a least to a greatest one, in
/// their order.
///
/// The numbers are those of the contracts alone: no call answers one, since the numbers of `u128`
/// fit no type that holds those of `i128` too. The trait stands where the Rust crates ask for
/// `PrimInt` or `Integer`, and is implemented for the twelve integer types, whose number is the
/// value itself.
///
/// Each call O(1) time, no memory.
pub trait Element: Copy + Ord {
    ghost numbers: { Numbering Self };

    /// Returns the value of the least number.
    fn min_value() -> Self
        ensures is_value { numbers.IsValue result }
        ensures number { numbers.number result ≡ numbers.least };

    /// Returns the value of the greatest number.
    fn max_value() -> Self
        ensures is_value { numbers.IsValue result }
        ensures number { numbers.number result ≡ numbers.greatest };

    /// Does nothing. Its contract tells of a value in hand that it passes the type's own test, and
    /// so that its number lies between the two ends.
    fn in_type(self)
        ensures is_value { numbers.IsValue self }
        ensures low { numbers.least ≤ℤ numbers.number self }
        ensures high { numbers.number self ≤ℤ numbers.greatest };

    /// Returns the value of the next number, or `None` at the greatest.
    fn successor(self) -> Option<Self>
        ensures next { IfSome result (λ y. numbers.IsValue y
            × (numbers.number y ≡ numbers.number self +ℤ pos 1)) }
        ensures at_end { IsNone result ↔ (numbers.number self ≡ numbers.greatest) };

    /// Returns the value of the number before, or `None` at the least.
    fn predecessor(self) -> Option<Self>
        ensures before { IfSome result (λ y. numbers.IsValue y
            × (numbers.number y +ℤ pos 1 ≡ numbers.number self)) }
        ensures at_end { IsNone result ↔ (numbers.number self ≡ numbers.least) };

    /// Returns the number of steps from this value up to `end`, or `usize::MAX` where there are
    /// more.
    fn steps_to(self, end: Self) -> usize
        requires { numbers.number self ≤ℤ numbers.number end }
        ensures { result ≡ min (unsigned_abs (numbers.number end -ℤ numbers.number self))
            usize.MAX };

    ghost numbered: { IsNumbering Self.cmp numbers };
}

/// Returns how the numbers of two values compare. Generic code asks this in place of `a.cmp(&b)`,
/// whose contract speaks of no numbers.
pub fn compare<T: Element>(a: T, b: T) -> Ordering
    ensures { result ≡ int_cmp (T.numbers.number a) (T.numbers.number b) }
{
    a.in_type();
    b.in_type();
    a.cmp(&b)
}

/// Returns whether the number of `a` is below that of `b`. Generic code asks this in place of `a <
/// b`.
pub fn is_below<T: Element>(a: T, b: T) -> bool
    ensures { MatchBool result (T.numbers.number a <ℤ T.numbers.number b)
        (T.numbers.number b ≤ℤ T.numbers.number a) }
{
    a.in_type();
    b.in_type();
    matches!(a.cmp(&b), Ordering::Less)
}

/// Returns whether the number of `a` is at most that of `b`. Generic code asks this in place of `a
/// <= b`.
pub fn is_at_most<T: Element>(a: T, b: T) -> bool
    ensures { MatchBool result (T.numbers.number a ≤ℤ T.numbers.number b)
        (T.numbers.number b <ℤ T.numbers.number a) }
{
    !is_below(b, a)
}
