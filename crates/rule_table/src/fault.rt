//! What may be wrong with a text of rules, and how it is written.
ghost use Rattle.std.specs.Prelude.{◌≡◌, Some};
ghost use Rattle.rule_table.specs.FaultText.{fault_text};
ghost use Rattle.rule_table.specs.declared.fault.RuleError.TheVariants as RuleError;

use element_core::NoMemory;
use std::alloc::{AllocError, AllocFailed};
use std::error::Error;
use std::fmt;

/// Why a text of rules has no answer: its first fault, or want of memory. Lines count from 1,
/// comments included.
///
/// It is written as its line and its name, as `line 2: bad rule`.
#[derive(Clone, Copy, Debug, PartialEq, Eq)]
pub enum RuleError {
    /// The line is neither a comment nor a rule.
    BadRule { line: usize },
    /// The rule's first address is greater than its last.
    ReversedRule { line: usize },
    /// Memory ran out. It may come in place of any other answer.
    NoMemory,
}

impl From<NoMemory> for RuleError {
    ghost from_gives = { λ _ e. e ≡ RuleError.NoMemory };

    fn from(_error: NoMemory) -> RuleError {
        RuleError::NoMemory
    }
}

impl From<AllocError> for RuleError {
    ghost from_gives = { λ _ e. e ≡ RuleError.NoMemory };

    fn from(_error: AllocError) -> RuleError {
        RuleError::NoMemory
    }
}

impl<T: Drop> From<AllocFailed<T>> for RuleError {
    ghost from_gives = { λ _ e. e ≡ RuleError.NoMemory };

    fn from(_failed: AllocFailed<T>) -> RuleError {
        RuleError::NoMemory
    }
}

impl fmt::Display for RuleError {
    ghost output = { λ e. Some (fault_text e) };

    fn fmt<W: fmt::Write>(&self, f: &mut fmt::Formatter<W>) -> fmt::Result {
        match self {
            RuleError::BadRule { line } => write!(f, "line {line}: bad rule"),
            RuleError::ReversedRule { line } => write!(f, "line {line}: reversed range"),
            RuleError::NoMemory => write!(f, "no memory"),
        }
    }
}

impl Error for RuleError {}
