//! Postfix lines folded over truth values, 64 ascending numbers at a time.
//!
//! Some numbers are visited, ascending, and each has a place from 0 on. A line is a list of steps
//! on a stack of truth values; what it gives at a place is the value that its steps leave there.
//! The numbers are taken in blocks of 64, and the values of a line in a block are the bits of one
//! word. One pass over the numbers answers, for each line, those at which its value changes, and
//! the rows, which begin where one of the lines that are shown changes.
#![tactic(auto)]

mod block;
mod note;
mod rows;
mod step;
#[cfg(test)]
mod tests;
mod walk;

pub use block::LineSteps;
pub use note::Noted;
pub use rows::Row;
pub use step::Step;
pub use walk::{Pass, one_pass};
