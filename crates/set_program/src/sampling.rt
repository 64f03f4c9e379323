//! From a number of lines to the counts of a sample's answer, which the sink gets.
ghost use Rattle.std.specs.Prelude.{◌≡◌, ◌≤◌, Some, IfOk, length, sum_by};
ghost use Rattle.set_document.specs.Answer.{shape_text};
ghost use Rattle.set_document.specs.Sample.{counts_text, summary};
ghost use Rattle.set_program.specs.Counts.{NotRose};
ghost use Rattle.set_program.specs.Endings.{sink_seen, IsWritten, IsCutShort};
ghost use Rattle.set_program.specs.Outcome.{IsUnlessNoMemory, IsWithoutText};

use crate::devices::{Failed, Sink};
use crate::status::Status;
use crate::writing::write_text;
use element_core::NoMemory;
use set_document::{Answer, evaluate, sample_text};
use std::alloc::Global;
use std::io::Write;

// The ranges of an answer that is printed in these bytes. There are no more of them than bytes, so
// their number is exact.
#[tactic(auto, using(set_document::proofs::CountLemmas::runs_below_bytes))]
fn ranges_of(answer: &Answer<'_>, bytes: &[u8]) -> usize
    requires { bytes.now ≡ shape_text answer.now }
    ensures { result ≡ sum_by (λ l. length l.1) answer.now.lines }
{
    let _most = bytes.len();
    answer.num_ranges()
}

// The line that tells how many named lines, ranges and rows an answer has, and how many bytes it is
// printed in.
fn counts_of(alloc: Global, answer: &Answer<'_>, bytes: &[u8]) -> Result<Vec<u8>, NoMemory>
    requires { bytes.now ≡ shape_text answer.now }
    ensures { IfOk result (λ line. line.items ≡ counts_text answer.now) }
{
    let mut line = Vec::new(alloc);
    writeln!(
        line,
        "lines {} ranges {} rows {} bytes {}",
        answer.num_lines(),
        ranges_of(answer, bytes),
        answer.num_rows(),
        bytes.len()
    )
    .map_err(|_| NoMemory)?;
    Ok(line)
}

// The counts of the answer to the sample text of so many lines.
#[tactic(auto, unfolding(set_document::specs::Sample::summary))]
fn summary_of(alloc: Global, lines: usize) -> Result<Vec<u8>, NoMemory>
    requires { lines ≤ 1000 }
    ensures { IfOk result (λ line. line.items ≡ summary lines) }
{
    let text = sample_text(alloc, lines)?;
    let Ok(answer) = evaluate(alloc, &text) else {
        return Err(NoMemory);
    };
    let bytes = answer.print(alloc)?;
    counts_of(alloc, &answer, &bytes)
}

/// Writes the counts of the answer to the sample text of so many lines. All memory is taken before
/// the first write.
pub fn write_summary<K: Sink>(alloc: Global, lines: usize, sink: &mut K) -> Status
    requires { lines ≤ 1000 }
    ensures reached { IsWithoutText result }
    ensures done { result ≡ Status.Done → IsWritten (Some (summary lines))
        (sink_seen K.Sink sink.old) (sink_seen K.Sink sink.new) }
    ensures cut_short { result ≡ Status.WriteFault → IsCutShort (Some (summary lines))
        (sink_seen K.Sink sink.old) (sink_seen K.Sink sink.new) }
    ensures no_memory { result ≡ Status.NoMemory → sink.new ≡ sink.old }
    ensures complete { NotRose (K.faults sink.old) (K.faults sink.new)
        → IsUnlessNoMemory result Status.Done }
    ensures faults_never_fall { K.faults sink.old ≤ K.faults sink.new }
{
    let Ok(line) = summary_of(alloc, lines) else {
        return Status::NoMemory;
    };
    match write_text(sink, &line) {
        Ok(()) => Status::Done,
        Err(Failed) => Status::WriteFault,
    }
}
