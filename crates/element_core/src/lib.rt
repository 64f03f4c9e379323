//! Types whose values are numbered from a least to a greatest one, and the errors for want of
//! memory that every crate of the workspace shares.
#![tactic(auto)]

mod element;
mod integers;
mod memory;

pub use element::{Element, compare, is_at_most, is_below};
pub use memory::{NoMemory, Refused};

#[cfg(test)]
mod tests;
