//! How a map lends all its values for writing while its keys are shared: all unsafe code of the
//! crate, in three small files.
//!
//! A map must be in order whatever is written while it is lent, and whoever holds `&mut (K, V)`
//! can write another key. So the values alone are lent, each at its own place, and the keys are
//! lent for reading.
//!
//! What is unsafe, and why it holds:
//!
//! - `lend` reads the vector of pairs as a vector of [`Slot`]s. A slot is a pair in an
//!   `UnsafeCell` and nothing else, so it lies in memory as the pair does. The map is lent for as
//!   long as the slots are, so nothing else reaches its vector.
//! - [`Slot::take_first`] and [`Slot::take_last`] give, out of a shared slot, its key for reading
//!   and its value for writing. Each takes the value out of [`Lent`], which has the right to write
//!   every value that wasn't taken yet, once; so no value is given twice, and no key for writing.
//! - [`Lent::narrow`] leaves values out, which are then given by nobody.
//!
//! When the loan ends the map has its keys, in their order, and the values that were last written.
//! These four functions and the laws of the two types are proved by hand, in the program logic;
//! all that stands on them is proved from their contracts.
mod lend;
mod lent;
mod slot;

pub(crate) use lent::Lent;
pub(crate) use slot::Slot;
