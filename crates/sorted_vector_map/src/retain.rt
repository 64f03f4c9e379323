//! Keeping the pairs that pass a test.
ghost use Rattle.std.specs.Prelude.{◌≡◌, ◌≤◌, length, take};
ghost use Rattle.std.specs.Map.Calls.{CalledAtPair, TakesPair, CallableOnEachPair, RetainsPairs};

use crate::map::SortedVectorMap;

impl<K: Ord, V> SortedVectorMap<K, V> {
    /// Calls `f` once on each pair in the order of the keys, and keeps the pairs at which it
    /// returns true, with the values that the calls left. O(n) time, no memory.
    pub fn retain<F: FnMut(&K, &mut V) -> bool>(&mut self, mut f: F)
    where
        K: Drop,
        V: Drop,
        requires { CallableOnEachPair (CalledAtPair F.FnMut) (TakesPair F.FnMut) f self.old.pairs }
        ensures filtered { RetainsPairs (CalledAtPair F.FnMut) f self.old.pairs self.new.pairs }
        ensures spare { self.old.spare ≤ self.new.spare }
    {
        let kept = bring_forward(&mut f, &mut self.items);
        self.items.truncate(kept);
    }
}

// Moves the pairs at which f returns true to the front, in their order, and returns how many they
// are.
fn bring_forward<K, V, F: FnMut(&K, &mut V) -> bool>(f: &mut F, pairs: &mut [(K, V)]) -> usize
    requires { CallableOnEachPair (CalledAtPair F.FnMut) (TakesPair F.FnMut) f.old pairs.old }
    ensures in_range { result ≤ length pairs.new }
    ensures kept { RetainsPairs (CalledAtPair F.FnMut) f.old pairs.old (take result pairs.new) }
{
    let mut kept = 0;
    for at in 0..pairs.len() {
        if passes(f, &mut pairs[at]) {
            pairs.swap(kept, at);
            kept += 1;
        }
    }
    kept
}

// What f returns at the pair, whose value it may write.
fn passes<K, V, F: FnMut(&K, &mut V) -> bool>(f: &mut F, pair: &mut (K, V)) -> bool
    requires { TakesPair F.FnMut f.old pair.old.0 pair.old.1 }
    ensures called { CalledAtPair F.FnMut f.old pair.old.0 pair.old.1 result pair.new.1 f.new }
    ensures key { pair.new.0 ≡ pair.old.0 }
{
    f(&pair.0, &mut pair.1)
}
