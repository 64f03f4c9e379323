//! From the words, the source and the sink to the status.
ghost use Rattle.std.specs.Prelude.{◌≡◌, ◌<◌, ◌≤◌, ◌↔◌, ℕ, Some, IfSome, length};
ghost use Rattle.set_document.specs.Sample.{summary};
ghost use Rattle.set_program.specs.Command.{AreUnusable, AskForDocument, AskForSample, AskForText};
ghost use Rattle.set_program.specs.Counts.{Rose, NotRose};
ghost use Rattle.set_program.specs.Documents.{kind_of};
ghost use Rattle.set_program.specs.Endings.{source_seen, sink_seen, seen, IsWritten, IsCutShort};
ghost use Rattle.set_program.specs.Endings.{Answered, Faulted, WriteFailed, IsTooLong, IsBounded};
ghost use Rattle.set_program.specs.Outcome.{IsUnlessNoMemory, IsWithoutWriting, status_of, fault_of};
ghost use Rattle.set_program.specs.declared.command.Document.{Document};

use crate::answering::answer_text;
use crate::arguments::Argument;
use crate::command::{Command, read_command};
use crate::devices::{Sink, Source};
use crate::reading::{MAX_READ, MAX_TEXT, Reading, read_text, zeroed};
use crate::sampling::write_summary;
use crate::status::Status;
use std::alloc::Global;

/// Without words it reads a text of named sets from the source, and with the word `rules` one of
/// address rules; it writes the text's answer to the sink, or the line of its first fault. With the
/// words `sample` and a decimal from 1 to 1000 it leaves the source alone, and writes the counts of
/// the answer to the sample text of so many lines, as `lines 4 ranges 6 rows 8 bytes 223`.
///
/// It judges the words first: any others are `Usage`, with no device called. Then it reads to the
/// end of the input, or to the 65,537th byte, which is `TooLong` at once; then it evaluates the
/// text, writes, and finishes the sink. Each write is handed all that isn't written yet, in one
/// piece. The first failed call on a device ends the run as `ReadFault` or `WriteFault`. All memory
/// is taken before the first write, and `NoMemory` leaves the sink as it was.
///
/// O(n) calls of the devices for n bytes read and written.
pub fn run<S: Source, K: Sink>(
    alloc: Global,
    words: &[Argument],
    source: &mut S,
    sink: &mut K,
) -> Status
    // The words decide first.
    ensures usage { (result ≡ Status.Usage) ↔ AreUnusable words.now }
    ensures unread { result ≡ Status.Usage → source.new ≡ source.old }
    ensures unwritten { IsWithoutWriting result → sink.new ≡ sink.old }

    // With words that ask for a document: the answer of the text, or its first fault.
    ensures done { (kind : Document) → AskForDocument words.now kind → result ≡ Status.Done
        → Answered kind (seen S.Source K.Sink source.old sink.old)
        (seen S.Source K.Sink source.new sink.new) }
    ensures text_fault { IfSome (fault_of result) (λ fault. AskForDocument words.now (kind_of fault)
        × Faulted fault (seen S.Source K.Sink source.old sink.old)
        (seen S.Source K.Sink source.new sink.new)) }
    ensures read_fault { result ≡ Status.ReadFault
        → AskForText words.now × Rose (S.faults source.old) (S.faults source.new) }
    ensures too_long { result ≡ Status.TooLong
        → AskForText words.now × IsTooLong (source_seen S.Source source.old)
        (source_seen S.Source source.new) }
    ensures write_fault { (kind : Document) → AskForDocument words.now kind
        → result ≡ Status.WriteFault
        → WriteFailed kind (seen S.Source K.Sink source.old sink.old)
        (seen S.Source K.Sink source.new sink.new) }
    ensures no_memory { result ≡ Status.NoMemory
        → S.faults source.new ≡ S.faults source.old }

    // With the words `sample` and a number of lines: the counts of the sample's answer.
    ensures sample_source { (lines : ℕ) → AskForSample words.now lines
        → source.new ≡ source.old }
    ensures sample_done { (lines : ℕ) → AskForSample words.now lines → result ≡ Status.Done
        → IsWritten (Some (summary lines)) (sink_seen K.Sink sink.old)
        (sink_seen K.Sink sink.new) }
    ensures sample_write_fault { (lines : ℕ) → AskForSample words.now lines
        → result ≡ Status.WriteFault
        → IsCutShort (Some (summary lines)) (sink_seen K.Sink sink.old)
        (sink_seen K.Sink sink.new) }

    // Where no call fails, the words and the text decide.
    ensures complete_text { (kind : Document) → AskForDocument words.now kind
        → IfSome (S.left source.old) (λ text. length text ≤ MAX_TEXT
        → NotRose (S.faults source.old) (S.faults source.new)
        → NotRose (K.faults sink.old) (K.faults sink.new)
        → IsUnlessNoMemory result (status_of kind text)) }
    ensures complete_long { AskForText words.now → IfSome (S.left source.old) (λ text.
        MAX_TEXT < length text → NotRose (S.faults source.old) (S.faults source.new)
        → IsUnlessNoMemory result Status.TooLong) }
    ensures complete_sample { (lines : ℕ) → AskForSample words.now lines
        → NotRose (K.faults sink.old) (K.faults sink.new)
        → IsUnlessNoMemory result Status.Done }

    // Whatever the status.
    ensures bounded { IsBounded (seen S.Source K.Sink source.old sink.old)
        (seen S.Source K.Sink source.new sink.new) }
{
    let kind = match read_command(words) {
        Some(Command::Answer(kind)) => kind,
        Some(Command::Sample(lines)) => return write_summary(alloc, lines, sink),
        None => return Status::Usage,
    };
    let Ok(mut buffer) = zeroed(alloc, MAX_READ) else {
        return Status::NoMemory;
    };
    match read_text(source, &mut buffer) {
        Reading::Whole(length) => answer_text(alloc, kind, &buffer[..length], sink),
        Reading::PastLimit => Status::TooLong,
        Reading::Failed => Status::ReadFault,
    }
}
