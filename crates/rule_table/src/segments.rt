//! The segments of the decision over all addresses.
ghost use Rattle.std.specs.Prelude.{◌≡◌, IfOk, map};
ghost use Rattle.element_core.specs.Numberings.{unsigned};
ghost use Rattle.number_line.specs.Rows.{segment_of};
ghost use Rattle.range_map.specs.Valued.{pairs_in_numbers};
ghost use Rattle.rule_table.specs.Rules.{rules_in_numbers};
ghost use Rattle.rule_table.specs.Decisions.{decision_segments};

use crate::rule::{Decision, Rule};
use blaze_joins::RangeMapBlaze;
use element_core::NoMemory;
use range_map::Range;
use std::alloc::Global;

// Each rule's addresses with its decision.
fn decisions_of(alloc: Global, rules: &[Rule]) -> Result<Vec<(Range<u32>, Decision)>, NoMemory>
    ensures { IfOk result (λ pairs.
        pairs_in_numbers (unsigned 32) pairs.items ≡ rules_in_numbers rules.now) }
{
    let mut pairs = Vec::with_capacity(alloc, rules.len())?;
    for rule in rules {
        pairs.push((rule.addresses, rule.decision))?;
    }
    Ok(pairs)
}

// The segments of the decision over all addresses, ascending.
pub(crate) fn decision_segments(
    alloc: Global,
    rules: &[Rule],
) -> Result<RangeMapBlaze<u32, Option<Decision>>, NoMemory>
    ensures { IfOk result (λ segments.
        map segment_of segments ≡ decision_segments (rules_in_numbers rules.now)) }
{
    let pairs = decisions_of(alloc, rules)?;
    let decisions = RangeMapBlaze::from_pairs(alloc, pairs)?;
    let segments = decisions.fill_gaps(alloc)?;
    Ok(segments)
}
