//! What a caller learns of maps: whether a key has a value, and that a filled map has one at every
//! key.
ghost use Rattle.std.specs.Prelude.{◌≡◌, ℕ, pos, ◌+ℤ◌, is_some, IfOk, IsTrue, true};
ghost use Rattle.std.specs.Option.{option_eq, option_copied};
ghost use Rattle.std.specs.Ordering.{int_cmp};
ghost use Rattle.ordered_lists.specs.Joins.{join, outer_join};
ghost use Rattle.number_line.specs.Elements.{elements, same_elements};
ghost use Rattle.blaze_joins.specs.Laws.{same_pair};
ghost use Rattle.number_line.specs.Valued.{value_at};

use blaze_joins::RangeMapBlaze;
use element_core::{Element, NoMemory};
use std::alloc::Global;

/// At `i64` the number of a key is the key itself.
pub fn has_value(map: &RangeMapBlaze<i64, u8>, key: i64) -> bool
    ensures { result ≡ is_some (value_at map.now key) }
{
    map.get(key).is_some()
}

/// Returns whether the map has a value at `key` once its gaps are filled: it has one at every key.
pub fn has_value_when_filled(
    alloc: Global,
    map: &RangeMapBlaze<i64, u8>,
    key: i64,
) -> Result<bool, NoMemory>
    ensures { IfOk result IsTrue }
{
    let filled = map.fill_gaps(alloc)?;
    Ok(filled.get(key).is_some())
}

/// Returns the bookings of two calendars at each moment at which one of them has any. The elements
/// are the outer join of the elements of the two.
pub fn side_by_side<T: Element, V: Eq + Copy, W: Eq + Copy>(
    alloc: Global,
    mine: &RangeMapBlaze<T, V>,
    yours: &RangeMapBlaze<T, W>,
) -> Result<RangeMapBlaze<T, (Option<V>, Option<W>)>, NoMemory>
    ensures { IfOk result (λ map. (n : ℕ) → T.numbers.greatest +ℤ pos 1 ≡ T.numbers.least +ℤ pos n
        → same_elements (same_pair (option_eq V.eq) (option_eq W.eq))
        (elements (value_at map) T.numbers.least n)
        (outer_join int_cmp (elements (value_at mine.now) T.numbers.least n)
        (elements (value_at yours.now) T.numbers.least n)) ≡ true) }
{
    let pair = |one: Option<&V>, other: Option<&W>| -> (Option<V>, Option<W>)
        ensures { result ≡ (option_copied one.entry, option_copied other.entry) }
    { (one.copied(), other.copied()) };
    let map = mine.full_join(alloc, yours, pair)?;
    Ok(map)
}

/// Returns the bookings of two calendars at each moment at which both have one. The elements are
/// the join of the elements of the two.
pub fn clashes<T: Element, V: Eq + Copy, W: Eq + Copy>(
    alloc: Global,
    mine: &RangeMapBlaze<T, V>,
    yours: &RangeMapBlaze<T, W>,
) -> Result<RangeMapBlaze<T, (V, W)>, NoMemory>
    ensures { IfOk result (λ map. (n : ℕ) → T.numbers.greatest +ℤ pos 1 ≡ T.numbers.least +ℤ pos n
        → same_elements (same_pair V.eq W.eq) (elements (value_at map) T.numbers.least n)
        (join int_cmp (elements (value_at mine.now) T.numbers.least n)
        (elements (value_at yours.now) T.numbers.least n)) ≡ true) }
{
    let pair = |one: &V, other: &W| -> (V, W)
        ensures { result ≡ (one.entry.now, other.entry.now) }
    { (*one, *other) };
    let map = mine.inner_join(alloc, yours, pair)?;
    Ok(map)
}
