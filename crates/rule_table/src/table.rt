//! The table of rules.
ghost use Rattle.std.specs.Prelude.{◌≡◌, ◌≤◌, pos, length, IfOk, IfSome, IsNone, ◌↔◌, replicate, true};
ghost use Rattle.std.specs.Bool.{MatchBool};
ghost use Rattle.element_core.specs.Numberings.{unsigned};
ghost use Rattle.number_line.specs.Rows.{with_places};
ghost use Rattle.range_map.specs.Valued.{pairs_in_numbers};
ghost use Rattle.rule_table.specs.Rules.{rules_in_numbers, winner, decision_at, IsDead, Wins};
ghost use Rattle.rule_table.specs.Dead.{dead_at};
ghost use Rattle.rule_table.specs.Winners.{AreWinners, ArePlacesBelow, marks_left, AreDeadMarks};

use crate::rule::{Decision, Rule};
use blaze_joins::RangeMapBlaze;
use element_core::NoMemory;
use range_map::Range;
use std::alloc::Global;
use std::marker::Model;

/// Rules in order, of which the last that holds an address decides.
///
/// Contracts see a table as the list of its rules in order, each with its first and last number
/// and its decision. Rules are named by their places, which count from 0.
#[derive(Drop)]
pub struct RuleTable {
    rules: Vec<Rule>,
    // the place of the rule that wins at each address
    winners: RangeMapBlaze<u32, usize>,
    // for each rule whether it wins nowhere
    dead: Vec<bool>,
}

impl Model for RuleTable {
    ghost use Rattle.std.specs.Prelude.{ℤ, List};
    ghost use Rattle.rule_table.specs.declared.rule.Decision.{Decision};
    ghost use Rattle.rule_table.specs.Rules.{rules_in_numbers};
    ghost use Rattle.rule_table.specs.Winners.{AreWinners, AreDeadMarks};

    ghost Value = { List ((ℤ × ℤ) × Decision) };

    ghost view = { λ table. rules_in_numbers table.rules.items };

    ghost invariant = { λ table. AreWinners (rules_in_numbers table.rules.items) table.winners
        × AreDeadMarks (rules_in_numbers table.rules.items) table.dead.items };
}

// Each rule's addresses with its place.
fn places_of(alloc: Global, rules: &[Rule]) -> Result<Vec<(Range<u32>, usize)>, NoMemory>
    ensures { IfOk result (λ places.
        pairs_in_numbers (unsigned 32) places.items ≡ with_places 0 (rules_in_numbers rules.now)) }
{
    let mut places = Vec::with_capacity(alloc, rules.len())?;
    for rule in rules {
        let place = places.len();
        places.push((rule.addresses, place))?;
    }
    Ok(places)
}

// The place of the winner of each address.
fn winners_of(alloc: Global, rules: &[Rule]) -> Result<RangeMapBlaze<u32, usize>, NoMemory>
    ensures { IfOk result (AreWinners (rules_in_numbers rules.now)) }
{
    let places = places_of(alloc, rules)?;
    let winners = RangeMapBlaze::from_pairs(alloc, places)?;
    Ok(winners)
}

// Takes away the mark of each value of the map.
fn unmark(dead: &mut [bool], winners: &RangeMapBlaze<u32, usize>)
    requires { ArePlacesBelow (length dead.old) winners.now }
    ensures { dead.new ≡ marks_left dead.old winners.now }
{
    for (_, place) in winners.range_values() {
        dead[*place] = false;
    }
}

// A mark for each of some rules.
fn all_marked(alloc: Global, count: usize) -> Result<Vec<bool>, NoMemory>
    ensures { IfOk result (λ marks. marks.items ≡ replicate count true) }
{
    let marks = vec![in alloc; true; count]?;
    Ok(marks)
}

// For each rule whether it is the winner of no address.
fn dead_of(
    alloc: Global,
    rules: &[Rule],
    winners: &RangeMapBlaze<u32, usize>,
) -> Result<Vec<bool>, NoMemory>
    requires { AreWinners (rules_in_numbers rules.now) winners.now }
    ensures { IfOk result (λ dead. AreDeadMarks (rules_in_numbers rules.now) dead.items) }
{
    let mut dead = all_marked(alloc, rules.len())?;
    unmark(dead.as_mut_slice(), winners);
    Ok(dead)
}

impl RuleTable {
    /// Returns the table of the rules, in their order. O(n log n) time for n rules.
    pub fn build(alloc: Global, rules: &[Rule]) -> Result<RuleTable, NoMemory>
        ensures { IfOk result (λ table. table ≡ rules_in_numbers rules.now) }
    {
        let winners = winners_of(alloc, rules)?;
        let dead = dead_of(alloc, rules, &winners)?;
        let rules = Vec::from_slice(alloc, rules)?;
        Ok(RuleTable {
            rules,
            winners,
            dead,
        })
    }

    /// Returns the greatest place of a rule that holds `x`, or `None` where no rule does. O(log n)
    /// time for n rules, no memory.
    pub fn winner(&self, x: u32) -> Option<usize>
        ensures { result ≡ winner self.now (pos x) }
    {
        self.winners.get(x).copied()
    }

    /// Returns the winner's decision, or `None` where there is no winner. O(log n) time for n
    /// rules, no memory.
    pub fn decide(&self, x: u32) -> Option<Decision>
        ensures { result ≡ decision_at self.now (pos x) }
    {
        let place = self.winner(x)?;
        let rule = self.rules.get(place)?;
        Some(rule.decision)
    }

    // Whether the rule at a place is dead, as it was marks_left.
    fn mark(&self, index: usize) -> Option<bool>
        ensures none { IsNone result ↔ (length self.now ≤ index) }
        ensures some { IfSome result (λ dead.
            MatchBool dead (IsDead self.now index) (Wins self.now index)) }
    {
        self.dead.get(index).copied()
    }

    /// Returns whether the rule at that place is the winner of no address, or `None` where there is
    /// no such rule. O(1) time, no memory.
    pub fn is_dead(&self, index: usize) -> Option<bool>
        ensures none { IsNone result ↔ (length self.now ≤ index) }
        ensures some { IfSome result (λ dead.
            MatchBool dead (IsDead self.now index) (Wins self.now index)) }
        ensures test { result ≡ dead_at self.now index }
    {
        self.mark(index)
    }
}
