//! The lines of a text: how they are cut into lines and words, and the numbers that words write.
//!
//! A text is bytes. Small languages of lines stand on this crate, each with its own lines and
//! words: here is what they share, and the definition of a first fault by line.
#![tactic(auto)]

mod line;
mod number;
#[cfg(test)]
mod tests;

pub use line::{cut_line, cut_piece, first_place};
pub use number::read_i64;
