//! From a text to what the sink gets.
ghost use Rattle.std.specs.Prelude.{◌≡◌, ◌≤◌, ◌++◌, codes, None, Some, IfOk, IfSome};
ghost use Rattle.set_program.specs.Counts.{NotRose};
ghost use Rattle.set_program.specs.Documents.{first_fault, answer_of, line_of, text_of, IsFirstFault};
ghost use Rattle.set_program.specs.Endings.{sink_seen, IsWritten, IsCutShort};
ghost use Rattle.set_program.specs.Outcome.{status_of, fault_of, IsAfterReading, IsUnlessNoMemory};

use crate::command::Document;
use crate::devices::{Failed, Sink};
use crate::status::Status;
use crate::writing::write_text;
use element_core::NoMemory;
use rule_table::{RuleError, rules_document};
use set_document::{AlgebraError, evaluate_document};
use std::alloc::Global;
use std::fmt::Display;
use std::io::Write;

// The line that tells a fault.
fn fault_line<F: Display>(alloc: Global, fault: &F) -> Result<Vec<u8>, NoMemory>
    ensures { IfOk result (λ line. IfSome (F.output fault.now)
        (λ text. line.items ≡ text ++ codes "\n")) }
{
    let mut line = Vec::new(alloc);
    match writeln!(line, "{fault}") {
        Ok(()) => Ok(line),
        Err(_) => Err(NoMemory),
    }
}

// How a run ends that reads this text as a document of the kind, and what it writes, if no call
// fails.
#[tactic(auto, unfolding(set_document::specs::FaultText::fault_line))]
fn judge(alloc: Global, kind: Document, text: &[u8]) -> Result<(Status, Vec<u8>), NoMemory>
    ensures status { IfOk result (λ told. told.0 ≡ status_of kind text.now) }
    ensures bytes { IfOk result (λ told. told.1.items ≡ text_of kind text.now) }
    ensures fault { IfOk result (λ told. IfSome (fault_of told.0) (IsFirstFault kind text.now)) }
{
    match kind {
        Document::Sets => match evaluate_document(alloc, text) {
            Ok(answer) => Ok((Status::Done, answer)),
            Err(AlgebraError::NoMemory) => Err(NoMemory),
            Err(fault) => Ok((Status::TextFault(fault), fault_line(alloc, &fault)?)),
        },
        Document::Rules => match rules_document(alloc, text) {
            Ok(answer) => Ok((Status::Done, answer)),
            Err(RuleError::NoMemory) => Err(NoMemory),
            Err(fault) => Ok((Status::RuleFault(fault), fault_line(alloc, &fault)?)),
        },
    }
}

/// Writes the answer of a text as a document of the kind, or the line of its first fault.
pub fn answer_text<K: Sink>(alloc: Global, kind: Document, text: &[u8], sink: &mut K) -> Status
    ensures reached { IsAfterReading result }
    ensures done { result ≡ Status.Done → first_fault kind text.now ≡ None }
    ensures answered { result ≡ Status.Done → IsWritten (Some (answer_of kind text.now))
        (sink_seen K.Sink sink.old) (sink_seen K.Sink sink.new) }
    ensures fault { IfSome (fault_of result) (IsFirstFault kind text.now) }
    ensures told { IfSome (fault_of result) (λ fault. IsWritten (Some (line_of fault))
        (sink_seen K.Sink sink.old) (sink_seen K.Sink sink.new)) }
    ensures cut_short { result ≡ Status.WriteFault → IsCutShort (Some (text_of kind text.now))
        (sink_seen K.Sink sink.old) (sink_seen K.Sink sink.new) }
    ensures no_memory { result ≡ Status.NoMemory → sink.new ≡ sink.old }
    ensures complete { NotRose (K.faults sink.old) (K.faults sink.new)
        → IsUnlessNoMemory result (status_of kind text.now) }
    ensures faults_never_fall { K.faults sink.old ≤ K.faults sink.new }
{
    let Ok((status, bytes)) = judge(alloc, kind, text) else {
        return Status::NoMemory;
    };
    match write_text(sink, &bytes) {
        Ok(()) => status,
        Err(Failed) => Status::WriteFault,
    }
}
