//! The answer to a text of rules.
ghost use Rattle.std.specs.Prelude.{◌≡◌, OnOk, IfOk, IfErr, None};
ghost use Rattle.rule_table.specs.Faults.{first_fault, IsFirstFault};
ghost use Rattle.rule_table.specs.Document.{rules_answer};

use crate::fault::RuleError;
use crate::print::print_table;
use crate::reading::read_rules;
use std::alloc::Global;

/// Returns the answer to a text of rules: the segments of the decision, the blocks of those that
/// are allowed, and the dead rules. A text with a fault is refused with its first one. O(n log n)
/// time for n bytes of text, beside the time to write the answer.
pub fn rules_document(alloc: Global, text: &[u8]) -> Result<Vec<u8>, RuleError>
    ensures fault_free { OnOk result (first_fault text.now ≡ None) }
    ensures answer { IfOk result (λ out. out.items ≡ rules_answer text.now) }
    ensures fault { IfErr result (IsFirstFault (first_fault text.now)) }
{
    let found = read_rules(alloc, text)?;
    let out = print_table(alloc, found.rules.as_slice(), found.lines.as_slice())?;
    Ok(out)
}
