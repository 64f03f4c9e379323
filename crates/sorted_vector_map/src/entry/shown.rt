//! How entries are shown: an occupied one as the map of its pair, a vacant one as the set of its
//! key.
use super::{Entry, OccupiedEntry, VacantEntry};
use std::fmt::{Debug, Formatter, Result, Write};

impl<'a, K: Ord + Debug, V> Debug for VacantEntry<'a, K, V> {
    fn fmt<W: Write>(&self, out: &mut Formatter<W>) -> Result {
        out.debug_set().entry(self.key()).finish()
    }
}

impl<'a, K: Ord + Debug, V: Debug> Debug for OccupiedEntry<'a, K, V> {
    fn fmt<W: Write>(&self, out: &mut Formatter<W>) -> Result {
        out.debug_map().entry(self.key(), self.get()).finish()
    }
}

impl<'a, K: Ord + Debug, V: Debug> Debug for Entry<'a, K, V> {
    fn fmt<W: Write>(&self, out: &mut Formatter<W>) -> Result {
        match self {
            Entry::Occupied(taken) => taken.fmt(out),
            Entry::Vacant(free) => free.fmt(out),
        }
    }
}
