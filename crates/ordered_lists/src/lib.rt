//! Lists in order: definitions and laws that the crates of streams and of sorted vectors cite. The
//! crate has no data and no code of its own.
#![tactic(auto)]

pub mod laws;
