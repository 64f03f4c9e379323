//! Proved callers of `run`, with contracts in the words of the languages alone.
ghost use Rattle.std.specs.Prelude.{◌≡◌, ◌≤◌, ◌++◌, None, Some, IfSome, [], ◌∷◌, codes, length};
ghost use Rattle.std.specs.Io.KnownBytes.{Appends};
ghost use Rattle.rule_table.specs.Document.{rules_answer};
ghost use Rattle.rule_table.specs.FaultText.{fault_text};
ghost use Rattle.rule_table.specs.Faults as rules;
ghost use Rattle.set_document.specs.Answer.{answer};
ghost use Rattle.set_document.specs.FaultText.{fault_line};
ghost use Rattle.set_document.specs.Faults.{first_fault, IsWellFormed};
ghost use Rattle.set_program.specs.Counts.{NotRose};
ghost use Rattle.set_program.specs.Outcome.{IsUnlessNoMemory};

use crate::arguments::Argument;
use crate::devices::{Sink, Source};
use crate::program::run;
use crate::reading::MAX_TEXT;
use crate::status::Status;
use rule_table::RuleError;
use set_document::AlgebraError;
use std::alloc::Global;

// Without words: the answer of a text of named sets, or the line of its first fault.
fn answer_sets<S: Source, K: Sink>(alloc: Global, source: &mut S, sink: &mut K) -> Status
    ensures well_formed { result ≡ Status.Done → IfSome (S.left source.old) IsWellFormed }
    ensures answer { result ≡ Status.Done → IfSome (S.left source.old) (λ text.
        Appends (K.written sink.old) (K.written sink.new) (answer text)) }
    ensures first_fault { (fault : AlgebraError) → result ≡ Status.TextFault fault
        → IfSome (S.left source.old) (λ text. first_fault text ≡ Some fault) }
    ensures fault_line { (fault : AlgebraError) → result ≡ Status.TextFault fault
        → Appends (K.written sink.old) (K.written sink.new) (fault_line fault) }
    ensures complete { IfSome (S.left source.old) (λ text. length text ≤ MAX_TEXT
        → NotRose (S.faults source.old) (S.faults source.new)
        → NotRose (K.faults sink.old) (K.faults sink.new)
        → IsWellFormed text → IsUnlessNoMemory result Status.Done) }
    ensures complete_fault { (fault : AlgebraError) → IfSome (S.left source.old) (λ text.
        length text ≤ MAX_TEXT
        → NotRose (S.faults source.old) (S.faults source.new)
        → NotRose (K.faults sink.old) (K.faults sink.new)
        → first_fault text ≡ Some fault → IsUnlessNoMemory result (Status.TextFault fault)) }
{
    run(alloc, &[], source, sink)
}

// With the word `rules`: the answer of a text of address rules, or the line of its first fault.
fn answer_rules<S: Source, K: Sink>(
    alloc: Global,
    words: &[Argument],
    source: &mut S,
    sink: &mut K,
) -> Status
    requires { words.now ≡ codes "rules" ∷ [] }
    ensures fault_free { result ≡ Status.Done
        → IfSome (S.left source.old) (λ text. rules.first_fault text ≡ None) }
    ensures answer { result ≡ Status.Done → IfSome (S.left source.old) (λ text.
        Appends (K.written sink.old) (K.written sink.new) (rules_answer text)) }
    ensures first_fault { (fault : RuleError) → result ≡ Status.RuleFault fault
        → IfSome (S.left source.old) (λ text. rules.first_fault text ≡ Some fault) }
    ensures fault_line { (fault : RuleError) → result ≡ Status.RuleFault fault
        → Appends (K.written sink.old) (K.written sink.new) (fault_text fault ++ codes "\n") }
    ensures complete { IfSome (S.left source.old) (λ text. length text ≤ MAX_TEXT
        → NotRose (S.faults source.old) (S.faults source.new)
        → NotRose (K.faults sink.old) (K.faults sink.new)
        → rules.first_fault text ≡ None → IsUnlessNoMemory result Status.Done) }
    ensures complete_fault { (fault : RuleError) → IfSome (S.left source.old) (λ text.
        length text ≤ MAX_TEXT
        → NotRose (S.faults source.old) (S.faults source.new)
        → NotRose (K.faults sink.old) (K.faults sink.new)
        → rules.first_fault text ≡ Some fault
        → IsUnlessNoMemory result (Status.RuleFault fault)) }
    ensures no_text_fault { (fault : AlgebraError) → result ≡ Status.TextFault fault → ⊥ }
{
    run(alloc, words, source, sink)
}
