//! What the caller of two access lists learns.
ghost use Rattle.std.specs.Prelude.{◌≡◌, ℤ, pos, ◌≤ℤ◌, ◌&&◌, not, IfOk};
ghost use Rattle.number_line.specs.Ranges.{holds, xor};

use cut_points::{difference, symmetric_difference};
use element_core::NoMemory;
use range_map::RangeSet;
use std::alloc::Global;

/// Returns the addresses that an access list treats otherwise than the one before it.
pub fn changed(
    alloc: Global,
    before: &RangeSet<u32>,
    after: &RangeSet<u32>,
) -> Result<RangeSet<u32>, NoMemory>
    ensures { IfOk result (λ set. (x : ℤ) → pos 0 ≤ℤ x → x ≤ℤ pos 4294967295
        → holds set x ≡ xor (holds before.now x) (holds after.now x)) }
{
    symmetric_difference(alloc, before, after)
}

/// Returns the addresses that the new list lets in and the one before it didn't.
pub fn added(
    alloc: Global,
    before: &RangeSet<u32>,
    after: &RangeSet<u32>,
) -> Result<RangeSet<u32>, NoMemory>
    ensures { IfOk result (λ set. (x : ℤ) → pos 0 ≤ℤ x → x ≤ℤ pos 4294967295
        → holds set x ≡ (holds after.now x && not (holds before.now x))) }
{
    difference(alloc, after, before)
}
