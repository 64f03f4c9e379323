//! The devices over readers and writers of std, which tell no bytes.
ghost use Rattle.std.specs.Prelude.{◌≡◌, ◌<◌, ◌≤◌, None, true, false, length, IfOk, OnOk, OnErr};
ghost use Rattle.std.specs.Io.{ReadsAtMost};
ghost use Rattle.set_program.specs.Counts.{HasCause, CountsTaken, next};
ghost use Rattle.set_program.specs.Standard.{StdSourceState, StdSinkState};

use crate::devices::{Failed, Sink, Source};
use std::io::{Read, Write};
use std::marker::Model;

/// A source over a reader of std: one read of it for each read. An error of the reader is a counted
/// fault.
#[derive(Drop)]
pub struct StdSource<R> {
    reader: R,
    taken: u64,
    faults: u64,
}

impl<R> Model for StdSource<R> {
    ghost Value = { StdSourceState R };

    ghost view = { λ s. record { reader = s.reader; taken = s.taken; faults = s.faults } };
}

impl<R: Read> StdSource<R> {
    /// A source over this reader, of which no byte is taken yet. Takes no memory.
    pub fn new(reader: R) -> Self
        ensures { result ≡ record { reader = reader; taken = 0; faults = 0 } }
    {
        StdSource {
            reader,
            taken: 0,
            faults: 0,
        }
    }
}

impl<R: Read> Source for StdSource<R> {
    ghost left = { λ _. None };

    ghost taken = { λ source. source.taken };

    ghost faults = { λ source. source.faults };

    fn read(&mut self, buffer: &mut [u8]) -> Result<usize, Failed>
        requires { 0 < length buffer.old }
        ensures bound { ReadsAtMost result buffer.new }
        ensures taken { CountsTaken self.old.taken self.new.taken result }
        ensures cause { HasCause self.old.faults self.new.faults result }

        ensures one_fault { OnErr result (self.new.faults ≡ next self.old.faults) }
    {
        match self.reader.read(buffer) {
            Ok(count) => {
                self.taken = self.taken.saturating_add(count as u64);
                Ok(count)
            }
            Err(_) => {
                self.faults = self.faults.saturating_add(1);
                Err(Failed)
            }
        }
    }
}

/// A sink over a writer of std: one write of it for each write, and one `flush` for each finish. An
/// error of the writer, or a write that takes nothing, is a counted fault.
#[derive(Drop)]
pub struct StdSink<W> {
    writer: W,
    finished: bool,
    faults: u64,
}

impl<W> Model for StdSink<W> {
    ghost Value = { StdSinkState W };

    ghost view = { λ s. record { writer = s.writer; finished = s.finished; faults = s.faults } };
}

impl<W: Write> StdSink<W> {
    /// A sink over this writer that isn't finished. Takes no memory.
    pub fn new(writer: W) -> Self
        ensures { result ≡ record { writer = writer; finished = false; faults = 0 } }
    {
        StdSink {
            writer,
            finished: false,
            faults: 0,
        }
    }
}

impl<W: Write> Sink for StdSink<W> {
    ghost written = { λ _. None };

    ghost finished = { λ sink. sink.finished };

    ghost faults = { λ sink. sink.faults };

    fn write(&mut self, piece: &[u8]) -> Result<usize, Failed>
        requires { 0 < length piece.now }
        ensures bound { IfOk result (λ n. (1 ≤ n) × (n ≤ length piece.now)) }
        ensures unfinished { OnOk result (self.new.finished ≡ false) }
        ensures failed { OnErr result (self.new.finished ≡ self.old.finished) }
        ensures cause { HasCause self.old.faults self.new.faults result }

        ensures one_fault { OnErr result (self.new.faults ≡ next self.old.faults) }
    {
        match self.writer.write(piece) {
            Ok(count) if count > 0 => {
                self.finished = false;
                Ok(count)
            }
            _ => {
                self.faults = self.faults.saturating_add(1);
                Err(Failed)
            }
        }
    }

    fn finish(&mut self) -> Result<(), Failed>
        ensures finished { OnOk result (self.new.finished ≡ true) }
        ensures failed { OnErr result (self.new.finished ≡ self.old.finished) }
        ensures cause { HasCause self.old.faults self.new.faults result }

        ensures one_fault { OnErr result (self.new.faults ≡ next self.old.faults) }
    {
        match self.writer.flush() {
            Ok(()) => {
                self.finished = true;
                Ok(())
            }
            Err(_) => {
                self.faults = self.faults.saturating_add(1);
                Err(Failed)
            }
        }
    }
}
