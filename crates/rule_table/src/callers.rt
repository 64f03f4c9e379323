//! A firewall over a list of rules, as a caller would write it.
ghost use Rattle.std.specs.Prelude.{◌≡◌, ◌↔◌, ℤ, pos, IfOk, IsTrue, Some, true};
ghost use Rattle.element_core.specs.Numberings.{unsigned};
ghost use Rattle.number_line.specs.Ranges.{lies_in};
ghost use Rattle.range_map.specs.Range.{in_numbers};
ghost use Rattle.rule_table.specs.Rules.{decision_at};
ghost use Rattle.rule_table.specs.declared.rule.Decision.TheVariants as Decision;

use crate::{Decision, Rule, RuleTable};
use element_core::NoMemory;
use range_map::Range;
use std::alloc::Global;

// Returns whether a packet from that address may pass: only where a rule allows it.
pub(crate) fn may_pass(table: &RuleTable, source: u32) -> bool
    ensures { IsTrue result ↔ (decision_at table.now (pos source) ≡ Some Decision.Allow) }
{
    matches!(table.decide(source), Some(Decision::Allow))
}

// Returns the table of the rules and a ban, which denies all of its addresses, whatever they say.
pub(crate) fn with_ban(
    alloc: Global,
    rules: &[Rule],
    banned: Range<u32>,
) -> Result<RuleTable, NoMemory>
    ensures { IfOk result (λ table. (x : ℤ) → lies_in (in_numbers (unsigned 32) banned) x ≡ true
        → decision_at table x ≡ Some Decision.Deny) }
{
    let mut all = Vec::from_slice(alloc, rules)?;
    all.push(Rule {
        decision: Decision::Deny,
        addresses: banned,
    })?;
    let table = RuleTable::build(alloc, all.as_slice())?;
    Ok(table)
}
