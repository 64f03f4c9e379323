//! The words of the command line.
ghost use Rattle.std.specs.Prelude.{◌≡◌, ℕ, List, IfOk, drop, map, string_bytes};
ghost use Rattle.std.specs.Vec.Iter.{into_iter_items};

use element_core::NoMemory;
use std::alloc::Global;
use std::env::Args;
use std::marker::Model;

/// A word of the command line: bytes, which needn't be text.
#[derive(Drop)]
pub struct Argument {
    bytes: Vec<u8>,
}

impl Model for Argument {
    ghost Value = { List ℕ };

    ghost view = { λ word. word.bytes.items };
}

impl Argument {
    /// The word of these bytes. Takes no memory.
    pub fn new(bytes: Vec<u8>) -> Self
        ensures { result ≡ bytes.items }
    {
        Argument { bytes }
    }

    /// The bytes of the word. Takes no memory.
    pub fn as_bytes(&self) -> &[u8]
        ensures { result.now ≡ self.now }
    {
        &self.bytes
    }
}

/// The words behind the program's name, which is the first of the arguments.
pub(crate) fn words_of(alloc: Global, args: Args) -> Result<Vec<Argument>, NoMemory>
    ensures { IfOk result (λ words.
        words.items ≡ map string_bytes (drop 1 (into_iter_items args))) }
{
    let words = args
        .skip(1)
        .map(|word| Argument::new(word.into_bytes()))
        .collect(alloc)?;
    Ok(words)
}
