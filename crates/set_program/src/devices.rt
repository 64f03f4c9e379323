//! Where a text comes from, and where its answer goes.
ghost use Rattle.std.specs.Prelude.{◌≡◌, ◌<◌, ◌≤◌, ℕ, List, Option, Bool, true, false, length, IfOk, OnOk, OnErr};
ghost use Rattle.std.specs.Io.{ReadsAtMost};
ghost use Rattle.std.specs.Io.KnownBytes.{ReadConsumes, WriteAppends, Keeps};
ghost use Rattle.set_program.specs.Counts.{HasCause, CountsTaken};

mod memory_sink;
mod memory_source;
mod plain;
mod standard;
#[cfg(test)]
mod standard_tests;
#[cfg(test)]
mod watched;

pub use crate::devices::memory_sink::MemorySink;
pub use crate::devices::memory_source::MemorySource;
pub use crate::devices::plain::{PlainSink, PlainSource};
pub use crate::devices::standard::{StdSink, StdSource};
#[cfg(test)]
pub(crate) use crate::devices::watched::{EndlessSource, WatchedSink, WatchedSource};

/// A call on a device failed.
#[derive(Clone, Copy, Debug, PartialEq, Eq)]
pub struct Failed;

/// Where a text comes from. It counts the bytes that were taken and the reads that failed; a count
/// never falls, and stays at `u64::MAX` once it is there.
pub trait Source {
    /// The bytes that are left to read, where the source tells them.
    ghost left: { Self → Option (List ℕ) };

    /// How many bytes were taken.
    ghost taken: { Self → ℕ };

    /// How many reads failed.
    ghost faults: { Self → ℕ };

    /// Puts the next bytes at the front of the buffer, and answers how many. `Ok(0)` is the end of
    /// the input. After `Failed` nothing was taken, and the failed read is counted.
    fn read(&mut self, buffer: &mut [u8]) -> Result<usize, Failed>
        requires { 0 < length buffer.old }
        ensures bound { ReadsAtMost result buffer.new }
        ensures bytes { ReadConsumes (left self.old) (left self.new) result buffer.new }
        ensures taken { CountsTaken (taken self.old) (taken self.new) result }
        ensures cause { HasCause (faults self.old) (faults self.new) result };
}

/// Where an answer goes. It counts the writes and finishes that failed; the count never falls, and
/// stays at `u64::MAX` once it is there.
pub trait Sink {
    /// The bytes that were written, where the sink tells them.
    ghost written: { Self → Option (List ℕ) };

    /// Whether it is finished.
    ghost finished: { Self → Bool };

    /// How many writes and finishes failed.
    ghost faults: { Self → ℕ };

    /// Writes bytes from the front of the piece, and answers how many, at least one. After `Failed`
    /// nothing was written, and the failed write is counted.
    fn write(&mut self, piece: &[u8]) -> Result<usize, Failed>
        requires { 0 < length piece.now }
        ensures bound { IfOk result (λ n. (1 ≤ n) × (n ≤ length piece.now)) }
        ensures bytes { WriteAppends (written self.old) (written self.new) result piece.now }
        ensures unfinished { OnOk result (finished self.new ≡ false) }
        ensures failed { OnErr result (finished self.new ≡ finished self.old) }
        ensures cause { HasCause (faults self.old) (faults self.new) result };

    /// Ends the writing: what was written has gone on its way. After `Failed` the sink is finished
    /// only if it was before, and the failed finish is counted.
    fn finish(&mut self) -> Result<(), Failed>
        ensures bytes { Keeps (written self.old) (written self.new) }
        ensures finished { OnOk result (finished self.new ≡ true) }
        ensures failed { OnErr result (finished self.new ≡ finished self.old) }
        ensures cause { HasCause (faults self.old) (faults self.new) result };
}
