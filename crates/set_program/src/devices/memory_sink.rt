//! A sink in memory, whose calls fail where a test wants it.
ghost use Rattle.std.specs.Prelude.{◌≡◌, ◌<◌, ◌≤◌, Some, [], true, false, length, IfOk, OnOk, OnErr, is_err, vec_capacity};
ghost use Rattle.std.specs.Io.KnownBytes.{WriteAppends, Keeps};
ghost use Rattle.set_program.specs.Counts.{HasCause, next};
ghost use Rattle.set_program.specs.MemorySink.{SinkState, write_count, write_fails};

use crate::devices::{Failed, Sink};
use element_core::NoMemory;
use std::alloc::{AllocError, Global};
use std::marker::Model;

/// A sink in memory, seen as what was written to it and what its next calls do. Writes are numbered
/// from 1; one whose number is listed fails, and one that finds no room. Any other takes as many
/// bytes as its piece, the bytes handed in and the room left allow. All its memory is taken by
/// `new`.
#[derive(Drop)]
pub struct MemorySink {
    bytes: Vec<u8>,
    room: usize,
    piece: usize,
    failing: Vec<u64>,
    fail_finish: bool,
    writes: u64,
    finished: bool,
    faults: u64,
}

impl Model for MemorySink {
    ghost Value = { SinkState };

    ghost view = { λ s. record {
      written = s.bytes.items;
      room = s.room;
      piece = s.piece;
      failing = s.failing.items;
      fail_finish = s.fail_finish;
      writes = s.writes;
      finished = s.finished;
      faults = s.faults;
    } };

    ghost invariant = { λ s.
        (length s.bytes.items ≤ s.room) × (s.room ≤ vec_capacity s.bytes) × (1 ≤ s.piece) };
}

impl MemorySink {
    /// A sink with room for `room` bytes, which is taken here, and at most `piece` of them in a
    /// write. The writes whose numbers are in `failing`, counted from 1, fail, and where
    /// `fail_finish` is true each finish fails.
    pub fn new(
        alloc: Global,
        room: usize,
        piece: usize,
        failing: Vec<u64>,
        fail_finish: bool,
    ) -> Result<Self, NoMemory>
        requires { 1 ≤ piece }
        ensures { IfOk result (λ sink. sink ≡ record {
          written = [];
          room = room;
          piece = piece;
          failing = failing.items;
          fail_finish = fail_finish;
          writes = 0;
          finished = false;
          faults = 0;
        }) }
    {
        Ok(MemorySink {
            bytes: Vec::with_capacity(alloc, room)?,
            room,
            piece,
            failing,
            fail_finish,
            writes: 0,
            finished: false,
            faults: 0,
        })
    }

    /// The bytes that were written. O(1), takes no memory.
    pub fn bytes(&self) -> &[u8]
        ensures { result.now ≡ self.now.written }
    {
        &self.bytes
    }
}

impl Sink for MemorySink {
    ghost written = { λ sink. Some sink.written };

    ghost finished = { λ sink. sink.finished };

    ghost faults = { λ sink. sink.faults };

    fn write(&mut self, piece: &[u8]) -> Result<usize, Failed>
        requires { 0 < length piece.now }
        ensures bound { IfOk result (λ n. (1 ≤ n) × (n ≤ length piece.now)) }
        ensures bytes { WriteAppends (Some self.old.written) (Some self.new.written)
            result piece.now }
        ensures unfinished { OnOk result (self.new.finished ≡ false) }
        ensures failed { OnErr result (self.new.finished ≡ self.old.finished) }
        ensures cause { HasCause self.old.faults self.new.faults result }

        // When it fails, and how many bytes it takes.
        ensures fails { is_err result ≡ write_fails self.old }
        ensures count { IfOk result (λ n. n ≡ write_count self.old (length piece.now)) }
        ensures one_fault { OnErr result (self.new.faults ≡ next self.old.faults) }
        ensures numbered { self.new.writes ≡ next self.old.writes }
        ensures same_room { self.new.room ≡ self.old.room }
        ensures same_piece { self.new.piece ≡ self.old.piece }
        ensures same_failing { self.new.failing ≡ self.old.failing }
        ensures same_finish { self.new.fail_finish ≡ self.old.fail_finish }
    {
        self.writes = self.writes.saturating_add(1);
        let room = self.room - self.bytes.len();
        if room == 0 || self.failing.contains(&self.writes) {
            self.faults = self.faults.saturating_add(1);
            return Err(Failed);
        }
        let count = room.min(self.piece.min(piece.len()));
        match self.bytes.extend_from_slice(&piece[..count]) {
            Ok(()) => {
                self.finished = false;
                Ok(count)
            }
            Err(AllocError) => unreachable!(),
        }
    }

    fn finish(&mut self) -> Result<(), Failed>
        ensures bytes { self.new.written ≡ self.old.written }
        ensures finished { OnOk result (self.new.finished ≡ true) }
        ensures failed { OnErr result (self.new.finished ≡ self.old.finished) }
        ensures cause { HasCause self.old.faults self.new.faults result }

        // When it fails.
        ensures fails { is_err result ≡ self.old.fail_finish }
        ensures one_fault { OnErr result (self.new.faults ≡ next self.old.faults) }
        ensures same_writes { self.new.writes ≡ self.old.writes }
        ensures same_room { self.new.room ≡ self.old.room }
        ensures same_piece { self.new.piece ≡ self.old.piece }
        ensures same_failing { self.new.failing ≡ self.old.failing }
        ensures same_finish { self.new.fail_finish ≡ self.old.fail_finish }
    {
        if self.fail_finish {
            self.faults = self.faults.saturating_add(1);
            return Err(Failed);
        }
        self.finished = true;
        Ok(())
    }
}
