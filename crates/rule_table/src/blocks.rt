//! Blocks of addresses.
ghost use Rattle.std.specs.Prelude.{◌≤◌, ◌<◌, ◌^◌};
ghost use Rattle.rule_table.specs.Blocks.{IsLeastLength};

// The least length of a block that begins at `at` and lies before `end`.
pub(crate) fn least_length(at: u64, end: u64) -> u32
    requires within { at < end }
    requires bound { end ≤ 2 ^ 32 }
    ensures { IsLeastLength end at result }
{
    32 - at.trailing_zeros().min((end - at).ilog2())
}
