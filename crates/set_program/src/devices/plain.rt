//! A source and a sink that never fail.
ghost use Rattle.std.specs.Prelude.{◌≡◌, ◌≤◌, ◌<◌, min, Bool, None, Some, true, false, length, drop, IsOk, IfOk, IsOkAnd};
ghost use Rattle.std.specs.Io.{ReadsAtMost};
ghost use Rattle.std.specs.Io.KnownBytes.{ReadConsumes};
ghost use Rattle.set_program.specs.Counts.{CountsTaken, HasCause};
ghost use Rattle.set_program.specs.Plain.{PlainState};

use crate::devices::memory_source::give;
use crate::devices::{Failed, Sink, Source};
use std::marker::Model;

/// A source in memory that never fails, seen as the bytes left and the number of bytes taken. A
/// read gives as many bytes as are left and fit.
#[derive(Drop)]
pub struct PlainSource {
    bytes: Vec<u8>,
    position: usize,
    taken: u64,
}

impl Model for PlainSource {
    ghost Value = { PlainState };

    ghost view = { λ s. record { left = drop s.position s.bytes.items; taken = s.taken } };

    ghost invariant = { λ s. s.position ≤ length s.bytes.items };
}

impl PlainSource {
    /// A source of these bytes. Takes no memory.
    pub fn new(bytes: Vec<u8>) -> Self
        ensures { result ≡ record { left = bytes.items; taken = 0 } }
    {
        PlainSource {
            bytes,
            position: 0,
            taken: 0,
        }
    }
}

impl Source for PlainSource {
    ghost left = { λ source. Some source.left };

    ghost taken = { λ source. source.taken };

    ghost faults = { λ _. 0 };

    fn read(&mut self, buffer: &mut [u8]) -> Result<usize, Failed>
        requires { 0 < length buffer.old }
        ensures bound { ReadsAtMost result buffer.new }
        ensures bytes { ReadConsumes (Some self.old.left) (Some self.new.left) result buffer.new }
        ensures taken { CountsTaken self.old.taken self.new.taken result }
        ensures cause { HasCause 0 0 result }

        ensures never_fails { IsOk result }
        ensures count { IfOk result (λ n. n ≡ min (length self.old.left) (length buffer.old)) }
    {
        let count = give(&self.bytes[self.position..], buffer, buffer.len());
        self.position += count;
        self.taken = self.taken.saturating_add(count as u64);
        Ok(count)
    }
}

/// A sink that takes each piece whole, keeps no byte and never fails. It is seen as whether it is
/// finished.
#[derive(Drop)]
pub struct PlainSink {
    finished: bool,
}

impl Model for PlainSink {
    ghost Value = { Bool };

    ghost view = { λ s. s.finished };
}

impl PlainSink {
    /// A sink that isn't finished. Takes no memory.
    pub fn new() -> Self
        ensures { result ≡ false }
    {
        PlainSink { finished: false }
    }
}

impl Sink for PlainSink {
    ghost written = { λ _. None };

    ghost finished = { λ sink. sink };

    ghost faults = { λ _. 0 };

    fn write(&mut self, piece: &[u8]) -> Result<usize, Failed>
        requires { 0 < length piece.now }
        ensures whole { IsOkAnd result (λ n. n ≡ length piece.now) }
        ensures bound { IfOk result (λ n. (1 ≤ n) × (n ≤ length piece.now)) }
        ensures unfinished { self.new ≡ false }
        ensures cause { HasCause 0 0 result }
    {
        self.finished = false;
        Ok(piece.len())
    }

    fn finish(&mut self) -> Result<(), Failed>
        ensures never_fails { IsOk result }
        ensures finished { self.new ≡ true }
        ensures cause { HasCause 0 0 result }
    {
        self.finished = true;
        Ok(())
    }
}
