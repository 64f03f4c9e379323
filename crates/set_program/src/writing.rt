//! Writes a text to a sink.
ghost use Rattle.std.specs.Prelude.{◌≡◌, ◌≤◌, true, OnOk, OnErr};
ghost use Rattle.std.specs.Io.KnownBytes.{Appends};
ghost use Rattle.set_program.specs.Counts.{HasCause};
ghost use Rattle.set_program.specs.Devices.{AppendsPrefix};

use crate::devices::{Failed, Sink};

/// Writes all bytes, and finishes the sink. Each write is handed all that isn't written yet, and
/// the first failed call ends it. Takes no memory.
#[tactic(auto, using(crate::proofs::Pieces::one_more_written))]
pub fn write_text<K: Sink>(sink: &mut K, bytes: &[u8]) -> Result<(), Failed>
    ensures ok { OnOk result (Appends (K.written sink.old) (K.written sink.new) bytes.now) }
    ensures finished { OnOk result (K.finished sink.new ≡ true) }
    ensures err { OnErr result (AppendsPrefix (K.written sink.old) (K.written sink.new) bytes.now) }
    ensures unfinished { OnErr result (K.finished sink.new ≡ true → K.finished sink.old ≡ true) }
    ensures cause { HasCause (K.faults sink.old) (K.faults sink.new) result }
{
    let mut written = 0;
    while written < bytes.len() {
        written += sink.write(&bytes[written..])?;
    }
    sink.finish()
}
