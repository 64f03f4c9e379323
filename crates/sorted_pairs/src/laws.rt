//! Laws of the streams. Each function does nothing: its contract is the law.
ghost use Rattle.sorted_pairs.specs.ValueStreams.{CallsFromEitherEnd};

use crate::map_values::MapValues;

/// A `MapValues` calls its function in the order in which pairs are taken, from whichever end, once
/// on the value of each.
pub fn calls_from_either_end<K, V, W, I, F>()
where
    I: DoubleEndedIterator<Item = (K, V)>,
    F: FnMut(V) -> W,
    ensures { (s : MapValues I F) → CallsFromEitherEnd I.next_gives I.next_back_gives F.FnMut s }
{}
