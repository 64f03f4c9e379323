//! A document of named sets: its lines and words, what they mean, its first fault, and its answer.
//!
//! A document is bytes. Each line that isn't a comment gives a name to a set of `i64` numbers,
//! written as words in postfix order: `a: 1..=5 4..=8 |`. The answer writes each named set as
//! ascending ranges, and then a table of which names hold where.
#![tactic(auto)]

mod answer;
mod compile;
mod evaluator;
mod fault;
mod judge;
mod labels;
pub mod laws;
mod line;
mod named_lines;
mod names;
mod number;
mod pass;
mod print;
mod sample;
mod table;
mod truth;
mod word;

pub use answer::{Answer, evaluate, evaluate_by_sets, evaluate_document};
pub use fault::AlgebraError;
pub use line::{LineForm, read_line};
pub use number::read_number;
pub use sample::sample_text;
pub use truth::truths_at;
pub use word::{Name, Word, read_word};
