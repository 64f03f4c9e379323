//! How a run ends, and the code that the process then ends with.
ghost use Rattle.std.specs.Prelude.{◌≡◌};
ghost use Rattle.set_program.specs.Codes.{code_of};

use rule_table::RuleError;
use set_document::AlgebraError;

/// How a run ended.
#[derive(Clone, Copy, Debug, PartialEq, Eq)]
pub enum Status {
    /// The whole answer was written, or the counts of a sample's.
    Done,
    /// The first fault of a text of sets was written; it is never want of memory.
    TextFault(AlgebraError),
    /// Memory ran out before anything was written.
    NoMemory,
    /// A read failed, and nothing was written.
    ReadFault,
    /// A write failed, or the sink couldn't be finished.
    WriteFault,
    /// The text has more than 65,536 bytes, and nothing was written.
    TooLong,
    /// The words are of no form that the program has; nothing was read or written.
    Usage,
    /// The first fault of a text of rules was written; it is never want of memory.
    RuleFault(RuleError),
}

impl Status {
    /// The code that the process ends with, from 0 for `Done` to 7 for `RuleFault`. O(1), takes no
    /// memory.
    pub fn code(&self) -> u8
        ensures { result ≡ code_of self.now }
    {
        match self {
            Status::Done => 0,
            Status::TextFault(_) => 1,
            Status::NoMemory => 2,
            Status::ReadFault => 3,
            Status::WriteFault => 4,
            Status::TooLong => 5,
            Status::Usage => 6,
            Status::RuleFault(_) => 7,
        }
    }
}
