//! A source in memory, whose reads fail where a test wants it.
ghost use Rattle.std.specs.Prelude.{◌≡◌, ◌<◌, ◌≤◌, Some, length, min, take, drop, IfOk, OnErr, is_err};
ghost use Rattle.std.specs.Io.{ReadsAtMost};
ghost use Rattle.std.specs.Io.KnownBytes.{ReadConsumes};
ghost use Rattle.set_program.specs.Counts.{HasCause, CountsTaken, next};
ghost use Rattle.set_program.specs.MemorySource.{SourceState, read_count, read_fails};

use crate::devices::{Failed, Source};
use std::marker::Model;

/// A source in memory, seen as what is left in it and what its next reads do. Reads are numbered
/// from 1; one whose number is listed fails, and any other gives as many bytes as its piece, the
/// buffer and the bytes left allow.
#[derive(Drop)]
pub struct MemorySource {
    bytes: Vec<u8>,
    position: usize,
    piece: usize,
    failing: Vec<u64>,
    reads: u64,
    taken: u64,
    faults: u64,
}

impl Model for MemorySource {
    ghost Value = { SourceState };

    ghost view = { λ s. record {
      left = drop s.position s.bytes.items;
      piece = s.piece;
      failing = s.failing.items;
      reads = s.reads;
      taken = s.taken;
      faults = s.faults;
    } };

    ghost invariant = { λ s. (s.position ≤ length s.bytes.items) × (1 ≤ s.piece) };
}

impl MemorySource {
    /// A source of these bytes, at most `piece` of them in a read; the reads whose numbers are in
    /// `failing`, counted from 1, fail. Takes no memory.
    pub fn new(bytes: Vec<u8>, piece: usize, failing: Vec<u64>) -> Self
        requires { 1 ≤ piece }
        ensures { result ≡ record {
          left = bytes.items;
          piece = piece;
          failing = failing.items;
          reads = 0;
          taken = 0;
          faults = 0;
        } }
    {
        MemorySource {
            bytes,
            position: 0,
            piece,
            failing,
            reads: 0,
            taken: 0,
            faults: 0,
        }
    }
}

impl Source for MemorySource {
    ghost left = { λ source. Some source.left };

    ghost taken = { λ source. source.taken };

    ghost faults = { λ source. source.faults };

    fn read(&mut self, buffer: &mut [u8]) -> Result<usize, Failed>
        requires { 0 < length buffer.old }
        ensures bound { ReadsAtMost result buffer.new }
        ensures bytes { ReadConsumes (Some self.old.left) (Some self.new.left) result buffer.new }
        ensures taken { CountsTaken self.old.taken self.new.taken result }
        ensures cause { HasCause self.old.faults self.new.faults result }

        // When it fails, and how many bytes it gives.
        ensures fails { is_err result ≡ read_fails self.old }
        ensures count { IfOk result (λ n. n ≡ read_count self.old (length buffer.old)) }
        ensures one_fault { OnErr result (self.new.faults ≡ next self.old.faults) }
        ensures numbered { self.new.reads ≡ next self.old.reads }
        ensures same_piece { self.new.piece ≡ self.old.piece }
        ensures same_failing { self.new.failing ≡ self.old.failing }
    {
        self.reads = self.reads.saturating_add(1);
        if self.failing.contains(&self.reads) {
            self.faults = self.faults.saturating_add(1);
            return Err(Failed);
        }
        let count = give(&self.bytes[self.position..], buffer, self.piece);
        self.position += count;
        self.taken = self.taken.saturating_add(count as u64);
        Ok(count)
    }
}

/// Copies bytes to the front of a buffer: as many as there are, the buffer has room for and `most`
/// allows.
pub(crate) fn give(bytes: &[u8], buffer: &mut [u8], most: usize) -> usize
    ensures count { result ≡ min (length bytes.now) (min most (length buffer.old)) }
    ensures given { take result buffer.new ≡ take result bytes.now }
{
    let count = bytes.len().min(most.min(buffer.len()));
    buffer[..count].copy_from_slice(&bytes[..count]);
    count
}
