//! What is answered where memory is short.
ghost use Rattle.std.specs.Prelude.{⊤, Some, codes};

use std::alloc::{AllocError, AllocFailed};
use std::error::Error;
use std::fmt;
use thiserror::Error as ThisError;

/// Memory ran out. It is written as `no memory`.
#[derive(Clone, Copy, Debug, PartialEq, Eq, Hash)]
pub struct NoMemory;

impl From<AllocError> for NoMemory {
    ghost from_gives = { λ _ _. ⊤ };

    fn from(_error: AllocError) -> NoMemory {
        NoMemory
    }
}

impl<T: Drop> From<AllocFailed<T>> for NoMemory {
    ghost from_gives = { λ _ _. ⊤ };

    fn from(_failed: AllocFailed<T>) -> NoMemory {
        NoMemory
    }
}

impl fmt::Display for NoMemory {
    ghost output = { λ _. Some (codes "no memory") };

    fn fmt<W: fmt::Write>(&self, f: &mut fmt::Formatter<W>) -> fmt::Result {
        write!(f, "no memory")
    }
}

impl Error for NoMemory {}

/// Memory ran out, and what was handed in comes back in `given`.
#[derive(Debug, Drop, ThisError)]
#[error_bound(T: fmt::Debug)]
#[error("no memory: {given:?}")]
pub struct Refused<T> {
    pub given: T,
}

impl<T: Drop> From<Refused<T>> for NoMemory {
    ghost from_gives = { λ _ _. ⊤ };

    fn from(_refused: Refused<T>) -> NoMemory {
        NoMemory
    }
}
