//! Devices for tests, which note how they are called.
ghost use Rattle.std.specs.Prelude.{◌≡◌, ◌<◌, ◌≤◌, None, length};
ghost use Rattle.set_program.specs.Counts.{CountsTaken};

use crate::devices::memory_source::give;
use crate::devices::{Failed, Sink, Source};

/// A source that notes how long each buffer was that it was handed.
#[derive(Drop)]
pub struct WatchedSource {
    bytes: Vec<u8>,
    position: usize,
    piece: usize,
    taken: u64,
    handed: Vec<usize>,
}

impl WatchedSource {
    /// A source of these bytes, at most so many in a read, which notes the lengths in `handed`.
    pub fn new(bytes: Vec<u8>, piece: usize, handed: Vec<usize>) -> Self {
        WatchedSource {
            bytes,
            position: 0,
            piece,
            taken: 0,
            handed,
        }
    }

    /// How long each buffer was.
    pub fn handed(&self) -> &[usize] {
        &self.handed
    }
}

impl Source for WatchedSource {
    ghost left = { λ _. None };

    ghost taken = { λ source. source.taken };

    ghost faults = { λ _. 0 };

    fn read(&mut self, buffer: &mut [u8]) -> Result<usize, Failed> {
        let _ = self.handed.push(buffer.len());
        let rest = self.bytes.get(self.position..).unwrap_or(&[]);
        let count = give(rest, buffer, self.piece);
        self.position = self.position.saturating_add(count);
        self.taken = self.taken.saturating_add(count as u64);
        Ok(count)
    }
}

/// A source that gives one `#` in each read, never ends, and counts its reads.
#[derive(Drop)]
pub struct EndlessSource {
    reads: u64,
}

impl EndlessSource {
    /// A source that wasn't read yet.
    pub fn new() -> Self {
        EndlessSource { reads: 0 }
    }

    /// How often it was read.
    pub fn reads(&self) -> u64 {
        self.reads
    }
}

impl Source for EndlessSource {
    ghost left = { λ _. None };

    ghost taken = { λ source. source.reads };

    ghost faults = { λ _. 0 };

    fn read(&mut self, buffer: &mut [u8]) -> Result<usize, Failed> {
        let reads = self.reads;
        self.reads = reads.saturating_add(1);
        buffer[0] = b'#';
        Ok(1)
    }
}

/// A sink that notes how long each piece was that it was handed, and how often it was finished.
#[derive(Drop)]
pub struct WatchedSink {
    piece: usize,
    handed: Vec<usize>,
    finishes: u64,
    finished: bool,
}

impl WatchedSink {
    /// A sink that takes so many bytes of a piece at most, but at least one, and notes the lengths
    /// in `handed`.
    pub fn new(piece: usize, handed: Vec<usize>) -> Self {
        WatchedSink {
            piece,
            handed,
            finishes: 0,
            finished: false,
        }
    }

    /// How long each piece was.
    pub fn handed(&self) -> &[usize] {
        &self.handed
    }

    /// How often it was finished.
    pub fn finishes(&self) -> u64 {
        self.finishes
    }
}

impl Sink for WatchedSink {
    ghost written = { λ _. None };

    ghost finished = { λ sink. sink.finished };

    ghost faults = { λ _. 0 };

    fn write(&mut self, piece: &[u8]) -> Result<usize, Failed> {
        let _ = self.handed.push(piece.len());
        self.finished = false;
        Ok(self.piece.max(1).min(piece.len()))
    }

    fn finish(&mut self) -> Result<(), Failed> {
        self.finishes = self.finishes.saturating_add(1);
        self.finished = true;
        Ok(())
    }
}
