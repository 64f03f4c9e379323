//! Address rules, of which the last that holds an address decides.
//!
//! An address is a `u32`, and a rule allows or denies a range of them. The table of some rules
//! answers which rule wins at an address, what it decides, and which rules win nowhere. A text has
//! a rule on each line, and its answer is the segments of the decision over all addresses, the
//! fewest blocks that tile those that are allowed, and the rules that win nowhere.
#![tactic(auto)]

mod address;
mod blocks;
#[cfg(test)]
mod callers;
mod document;
mod fault;
pub mod laws;
mod line;
mod print;
mod reading;
mod rule;
mod segments;
mod table;
#[cfg(test)]
mod tests;

pub use document::rules_document;
pub use fault::RuleError;
pub use rule::{Decision, Rule};
pub use table::RuleTable;
