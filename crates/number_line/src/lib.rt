//! Whole numbers in ranges: when a list of ranges is canonical, which numbers it holds, how a
//! labelling of the numbers is cut into segments and runs, and which values ranges carry to the
//! numbers in them.
//!
//! The crate holds definitions that the crates above it cite, and the laws of those definitions. It
//! has no data and no code of its own.
#![tactic(auto)]

pub mod laws;
