//! What holds of the definitions, for any rules. Each function does nothing: its contract is the
//! law.
ghost use Rattle.rule_table.specs.Laws.{FewestBlocks, TilingTiles, BlockHoldsAgreeing, WinnerIsGreatest, DeadWinsNowhere, SegmentsAreFewest};
ghost use Rattle.rule_table.specs.declared.rule.Decision.{Decision};

/// No list of blocks that tiles a stretch of addresses in order is shorter than the tiling by
/// greatest blocks.
pub fn fewest_blocks()
    ensures { FewestBlocks }
{}

/// The tiling goes from the first address to the last, and each block has the least length at its
/// start.
pub fn tiling_tiles()
    ensures { TilingTiles }
{}

/// A block holds the addresses that agree with its first one in all but the lowest bits.
pub fn block_holds_agreeing()
    ensures { BlockHoldsAgreeing }
{}

/// The winner is the greatest place of a rule that holds the address, and there is none only where
/// no rule does.
pub fn winner_is_greatest()
    ensures { WinnerIsGreatest Decision }
{}

/// A rule is dead exactly where it is the winner of no address.
pub fn dead_wins_nowhere()
    ensures { DeadWinsNowhere Decision }
{}

/// The segments cover all addresses in order, without gap or overlap, and neighbours differ in
/// their decisions. They are the fewest: no list of ranges that covers all addresses so, and has
/// one decision throughout each range, is shorter.
pub fn fewest_segments()
    ensures { SegmentsAreFewest }
{}
