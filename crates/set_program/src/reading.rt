//! Reads a text to its end, or to the first byte past the limit.
ghost use Rattle.std.specs.Prelude.{◌≡◌, ◌+◌, ◌<◌, ◌≤◌, [], Some, IfOk, IfSome, length, take, vec_len};
ghost use Rattle.set_program.specs.Counts.{Rose, RoseBy};
ghost use Rattle.set_program.specs.Reading.{IfWhole, IsPastLimit, IsFailed};

use crate::devices::{Failed, Source};
use element_core::NoMemory;
use std::alloc::Global;

/// How many bytes a text may have.
pub const MAX_TEXT: usize = 65_536;

/// How many bytes are read at most: the last one shows that the text is too long.
pub const MAX_READ: usize = 65_537;

/// What reading a whole text came to.
#[derive(Clone, Copy)]
pub enum Reading {
    /// The text was read to its end, and stands at the front of the buffer: so many bytes.
    Whole(usize),
    /// The text has a byte past the limit.
    PastLimit,
    /// A read failed.
    Failed,
}

/// So many bytes of 0.
pub fn zeroed(alloc: Global, length: usize) -> Result<Vec<u8>, NoMemory>
    ensures { IfOk result (λ bytes. vec_len bytes ≡ length) }
{
    Ok(vec![in alloc; 0u8; length]?)
}

/// Reads into the buffer, to the text's end or until the buffer is full. The first failed read ends
/// it.
#[tactic(auto, using(crate::proofs::Pieces::one_more_read))]
pub fn read_text<S: Source>(source: &mut S, buffer: &mut [u8]) -> Reading
    requires { length buffer.old ≡ MAX_READ }
    ensures whole_length { IfWhole result (λ n. n ≤ MAX_TEXT) }
    ensures whole_bytes { IfWhole result (λ n.
        IfSome (S.left source.old) (λ text. text ≡ take n buffer.new)) }
    ensures whole_end { IfWhole result (λ _.
        IfSome (S.left source.old) (λ _. S.left source.new ≡ Some [])) }
    ensures whole_faults { IfWhole result (λ _. S.faults source.new ≡ S.faults source.old) }
    ensures long_bytes { IsPastLimit result
        → IfSome (S.left source.old) (λ text. MAX_TEXT < length text) }
    ensures long_taken { IsPastLimit result
        → RoseBy MAX_READ (S.taken source.old) (S.taken source.new) }
    ensures long_faults { IsPastLimit result → S.faults source.new ≡ S.faults source.old }
    ensures failed { IsFailed result → Rose (S.faults source.old) (S.faults source.new) }
    ensures taken { S.taken source.new ≤ S.taken source.old + MAX_READ }
    ensures taken_never_falls { S.taken source.old ≤ S.taken source.new }
    ensures faults_never_fall { S.faults source.old ≤ S.faults source.new }
{
    let mut filled = 0;
    while filled < MAX_READ {
        match source.read(&mut buffer[filled..]) {
            Ok(0) => return Reading::Whole(filled),
            Ok(count) => filled += count,
            Err(Failed) => return Reading::Failed,
        }
    }
    Reading::PastLimit
}
