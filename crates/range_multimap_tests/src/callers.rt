//! What a caller learns of a multimap: one more pair, and some pairs less.
ghost use Rattle.std.specs.Prelude.{◌≡◌, [], ◌∷◌, ◌++◌, ◌==◌, not, filter, OnOk};

use element_core::NoMemory;
use range_map::Range;
use range_multimap::RangeMultiMap;

/// At `i32` the numbers of a range are its two values.
pub fn push_pair(
    pairs: &mut RangeMultiMap<i32, u8>,
    range: Range<i32>,
    value: u8,
) -> Result<(), NoMemory>
    ensures { OnOk result (pairs.new ≡ pairs.old ++ (range, value) ∷ []) }
{
    match pairs.insert(range, value) {
        Ok(()) => Ok(()),
        Err(_) => Err(NoMemory),
    }
}

/// Takes the pairs with a value out.
pub fn drop_value(pairs: &mut RangeMultiMap<i32, u8>, value: u8)
    ensures { pairs.new ≡ filter (λ pair. not (pair.1 == value)) pairs.old }
{
    pairs.retain_values(|other| *other != value);
}
