//! What is answered where pairs of a range and a value don't make a map, and what that writes.
ghost use Rattle.std.specs.Prelude.{◌≡◌, Some, codes};
ghost use Rattle.range_map.specs.declared.map.error.TryFromIterError.TheVariants.{NoMemory};

use crate::map::RangeMap;
use crate::range::Range;
use element_core::{Element, NoMemory};
use std::error::Error;
use std::fmt;

/// Why pairs didn't make a map.
#[derive(Debug, Drop)]
pub enum TryFromIterError<T: Element, V: Eq> {
    /// Some pair overlaps another one with another value.
    Overlap(OverlapError<T, V>),
    /// Memory ran out.
    NoMemory,
}

/// Pairs of which some overlap others with other values: the map of those that don't, and the rest.
#[derive(Debug, Drop, PartialEq, Eq, Hash)]
pub struct OverlapError<T: Element, V: Eq> {
    /// The map without the discarded pairs.
    pub non_overlapping: RangeMap<T, V>,
    /// The pairs that overlap it with another value, in the order of their ranges.
    pub discarded: Vec<(Range<T>, V)>,
}

impl<T: Element, V: Eq> From<NoMemory> for TryFromIterError<T, V> {
    ghost from_gives = { λ _ error. error ≡ NoMemory };

    fn from(_error: NoMemory) -> TryFromIterError<T, V> {
        TryFromIterError::NoMemory
    }
}

impl<T: Element, V: Eq> fmt::Display for OverlapError<T, V> {
    ghost output = { λ _. Some (codes "some ranges overlap with different values") };

    fn fmt<W: fmt::Write>(&self, f: &mut fmt::Formatter<W>) -> fmt::Result {
        write!(f, "some ranges overlap with different values")
    }
}

impl<T: Element + fmt::Debug, V: Eq + fmt::Debug + Drop> Error for OverlapError<T, V> {}

impl<T: Element, V: Eq> fmt::Display for TryFromIterError<T, V> {
    ghost use Rattle.range_map.specs.ErrorText.{error_text};

    ghost output = { λ error. Some (error_text error) };

    fn fmt<W: fmt::Write>(&self, f: &mut fmt::Formatter<W>) -> fmt::Result {
        match self {
            TryFromIterError::Overlap(_) => write!(f, "some ranges overlap with different values"),
            TryFromIterError::NoMemory => write!(f, "no memory"),
        }
    }
}

impl<T: Element + fmt::Debug, V: Eq + fmt::Debug + Drop> Error for TryFromIterError<T, V> {}
