//! What may be wrong with a document, and how it is written.
ghost use Rattle.std.specs.Prelude.{◌≡◌, Some};
ghost use Rattle.set_document.specs.FaultText.{fault_text};
ghost use Rattle.set_document.specs.declared.fault.AlgebraError.TheVariants as AlgebraError;

use element_core::NoMemory;
use std::alloc::{AllocError, AllocFailed};
use std::error::Error;
use std::fmt;

/// Why a document has no answer: its first fault, or want of memory. Lines count from 1, comments
/// included, and words from 1 in their line.
///
/// It is written as its place and its name, as `line 2, word 1: bad word`.
#[derive(Clone, Copy, Debug, PartialEq, Eq)]
pub enum AlgebraError {
    /// The line is no comment and no named line.
    BadLine { line: usize },
    /// The piece is no word.
    BadWord { line: usize, word: usize },
    /// A range's first number is greater than its last.
    Reversed { line: usize, word: usize },
    /// No earlier line has the name.
    UnknownName { line: usize, word: usize },
    /// The operator has fewer sets before it than it needs.
    StackShort { line: usize, word: usize },
    /// The words of the line leave no set, or more than one.
    NotOne { line: usize },
    /// Memory ran out. It may come in place of any other answer.
    NoMemory,
}

impl From<NoMemory> for AlgebraError {
    ghost from_gives = { λ _ e. e ≡ AlgebraError.NoMemory };

    fn from(_error: NoMemory) -> AlgebraError {
        AlgebraError::NoMemory
    }
}

impl From<AllocError> for AlgebraError {
    ghost from_gives = { λ _ e. e ≡ AlgebraError.NoMemory };

    fn from(_error: AllocError) -> AlgebraError {
        AlgebraError::NoMemory
    }
}

impl<T: Drop> From<AllocFailed<T>> for AlgebraError {
    ghost from_gives = { λ _ e. e ≡ AlgebraError.NoMemory };

    fn from(_failed: AllocFailed<T>) -> AlgebraError {
        AlgebraError::NoMemory
    }
}

impl fmt::Display for AlgebraError {
    ghost output = { λ e. Some (fault_text e) };

    fn fmt<W: fmt::Write>(&self, f: &mut fmt::Formatter<W>) -> fmt::Result {
        match self {
            AlgebraError::BadLine { line } => write!(f, "line {line}: bad line"),
            AlgebraError::BadWord { line, word } => write!(f, "line {line}, word {word}: bad word"),
            AlgebraError::Reversed { line, word } => {
                write!(f, "line {line}, word {word}: reversed range")
            }
            AlgebraError::UnknownName { line, word } => {
                write!(f, "line {line}, word {word}: unknown name")
            }
            AlgebraError::StackShort { line, word } => {
                write!(f, "line {line}, word {word}: too few sets")
            }
            AlgebraError::NotOne { line } => write!(f, "line {line}: not one set"),
            AlgebraError::NoMemory => write!(f, "no memory"),
        }
    }
}

impl Error for AlgebraError {}
