//! Reads the rules of a text.
ghost use Rattle.std.specs.Prelude.{◌≡◌, ◌++◌, OnOk, IfOk, IfErr, None};
ghost use Rattle.rule_table.specs.Text.{form};
ghost use Rattle.rule_table.specs.Faults.{form_fault, first_fault, IsFirstFault};
ghost use Rattle.rule_table.specs.Rules.{rules_in_numbers};
ghost use Rattle.rule_table.specs.Document.{form_rules, rules, line_numbers, without_numbers};

use crate::fault::RuleError;
use crate::line::{RuleLine, read_line};
use crate::rule::{Decision, Rule};
use range_map::Range;
use std::alloc::Global;
use text_lines::cut_line;

// The rules of a text, and the number of each one's line.
#[derive(Drop)]
pub(crate) struct NumberedRules {
    pub(crate) rules: Vec<Rule>,
    pub(crate) lines: Vec<usize>,
}

// Judges one line, and keeps its rule where it is one.
fn add_line(found: &mut NumberedRules, line: usize, piece: &[u8]) -> Result<(), RuleError>
    ensures fault_free { OnOk result (form_fault line (form piece.now) ≡ None) }
    ensures rules { OnOk result (rules_in_numbers found.new.rules.items
        ≡ rules_in_numbers found.old.rules.items
        ++ without_numbers (form_rules line (form piece.now))) }
    ensures lines { OnOk result (found.new.lines.items
        ≡ found.old.lines.items ++ line_numbers (form_rules line (form piece.now))) }
    ensures fault { IfErr result (IsFirstFault (form_fault line (form piece.now))) }
{
    match read_line(piece) {
        RuleLine::Comment => Ok(()),
        RuleLine::Ruling(decision, first, last) => {
            if last < first {
                return Err(RuleError::ReversedRule { line });
            }
            let addresses = Range::new(first, last);
            found.rules.push(Rule {
                decision,
                addresses,
            })?;
            found.lines.push(line)?;
            Ok(())
        }
        RuleLine::Bad => Err(RuleError::BadRule { line }),
    }
}

// The rules of a text, or its first fault.
#[tactic(auto, unfolding(crate::specs::Faults::first_fault))]
pub(crate) fn read_rules(alloc: Global, text: &[u8]) -> Result<NumberedRules, RuleError>
    ensures fault_free { OnOk result (first_fault text.now ≡ None) }
    ensures rules { IfOk result (λ found.
        rules_in_numbers found.rules.items ≡ without_numbers (rules text.now)) }
    ensures lines { IfOk result (λ found. found.lines.items ≡ line_numbers (rules text.now)) }
    ensures fault { IfErr result (IsFirstFault (first_fault text.now)) }
{
    let mut found = NumberedRules {
        rules: Vec::new(alloc),
        lines: Vec::new(alloc),
    };
    let mut rest = text;
    let mut line = 1;
    while !rest.is_empty() {
        let (piece, after) = cut_line(rest);
        add_line(&mut found, line, piece)?;
        rest = after;
        line += 1;
    }
    Ok(found)
}
