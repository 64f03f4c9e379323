//! Lists of ranges with values, changed and read pair by pair: what maps and multimaps share.
ghost use Rattle.std.specs.Prelude.{◌≡◌, ◌≤◌, length, take, IfOk, OnOk};
ghost use Rattle.std.specs.Fn.{CalledAt};
ghost use Rattle.std.specs.List.Retain.{IsFiltered};
ghost use Rattle.number_line.specs.Answered.{IsAnswered};
ghost use Rattle.number_line.specs.Parts.{parts_of_pairs, ArePairClones};
ghost use Rattle.number_line.specs.Ranges.{IsCanonical};
ghost use Rattle.range_map.specs.Changing.{CalledAtValue, IsPartsPushed};
ghost use Rattle.range_map.specs.Merging.{EndFrom};
ghost use Rattle.range_map.specs.Range.{IsRange, in_numbers};
ghost use Rattle.range_map.specs.Set.{all_in_numbers};
ghost use Rattle.range_map.specs.Valued.{pairs_in_numbers, AreValuedRanges};

use crate::range::Range;
use crate::set::{RangeSet, ranges_from};
use element_core::{Element, NoMemory};
use std::alloc::Global;

// Writes what `f` answers at the value of the pair in the value's place.
fn answer<T: Element, V: Drop, F: FnMut(&V) -> V>(f: &mut F, pair: &mut (Range<T>, V))
    requires { F.IsAlwaysCallable f.old }
    ensures callable { F.IsAlwaysCallable f.new }
    ensures called { CalledAt F.FnMut f.old pair.old.1 pair.new.1 f.new }
    ensures same_range { pair.new.0 ≡ pair.old.0 }
    ensures range { IsRange T.numbers pair.new.0 }
{
    // This tells that the range is one of the type.
    pair.0.start();
    pair.1 = f(&pair.1);
}

/// Calls `f` once for each pair, in order, with its value, and writes the answer in the value's
/// place. O(n) time for n pairs, beside the calls, no memory.
pub fn answer_each<T: Element, V: Drop, F: FnMut(&V) -> V>(f: &mut F, pairs: &mut [(Range<T>, V)])
    requires { F.IsAlwaysCallable f.old }
    ensures ranges { AreValuedRanges T.numbers pairs.new }
    ensures answered { IsAnswered (CalledAt F.FnMut) f.old (pairs_in_numbers T.numbers pairs.old)
        (pairs_in_numbers T.numbers pairs.new) }
{
    for at in 0..pairs.len() {
        answer(f, &mut pairs[at]);
    }
}

// Returns what `f` answers at the value of the pair.
fn passes<T: Element, V, F: FnMut(&V) -> bool>(f: &mut F, pair: &(Range<T>, V)) -> bool
    requires { F.IsAlwaysCallable f.old }
    ensures callable { F.IsAlwaysCallable f.new }
    ensures called { CalledAt F.FnMut f.old pair.now.1 result f.new }
{
    f(&pair.1)
}

// Moves the pairs at whose values `f` answers true to the front, in their order, and answers how
// many they are.
fn bring_forward<T: Element, V, F: FnMut(&V) -> bool>(
    f: &mut F,
    pairs: &mut [(Range<T>, V)],
) -> usize
    requires { F.IsAlwaysCallable f.old }
    ensures in_range { result ≤ length pairs.new }
    ensures kept { IsFiltered (CalledAtValue F.FnMut) f.old pairs.old (take result pairs.new) }
{
    let mut kept = 0;
    for at in 0..pairs.len() {
        if passes(f, &pairs[at]) {
            pairs.swap(kept, at);
            kept += 1;
        }
    }
    kept
}

/// Calls `f` once for each pair, in order, with its value, and keeps the pairs at which it answers
/// true. O(n) time for n pairs, beside the calls, no memory.
pub fn retain_by_value<T: Element, V: Drop, F: FnMut(&V) -> bool>(
    pairs: &mut Vec<(Range<T>, V)>,
    mut f: F,
)
    requires { F.IsAlwaysCallable f }
    ensures { IsFiltered (CalledAtValue F.FnMut) f pairs.old.items pairs.new.items }
{
    let kept = bring_forward(&mut f, pairs);
    pairs.truncate(kept);
}

// Puts the parts of the pair in the ranges behind the others, each with a clone of its value. The
// ranges are canonical, and none ends before the pair begins.
fn push_parts<T: Element, V: Clone + Drop>(
    made: &mut Vec<(Range<T>, V)>,
    pair: &(Range<T>, V),
    ranges: &[Range<T>],
) -> Result<(), NoMemory>
    requires valued { AreValuedRanges T.numbers made.old.items }
    requires range { IsRange T.numbers pair.now.0 }
    requires canonical { IsCanonical T.numbers.least T.numbers.greatest
        (all_in_numbers T.numbers ranges.now) }
    requires end_from { EndFrom (T.numbers.number pair.now.0.0)
        (all_in_numbers T.numbers ranges.now) }
    ensures valued { OnOk result (AreValuedRanges T.numbers made.new.items) }
    ensures pushed { OnOk result (IsPartsPushed V.is_clone
        (pairs_in_numbers T.numbers made.old.items)
        (in_numbers T.numbers pair.now.0) pair.now.1 (all_in_numbers T.numbers ranges.now)
        (pairs_in_numbers T.numbers made.new.items)) }
{
    for range in ranges {
        let Some(both) = pair.0.intersection(range) else {
            return Ok(());
        };
        made.push((both, pair.1.clone()?))?;
    }
    Ok(())
}

/// Returns the parts of each pair in the ranges of the set, in their order, each with a clone of
/// the pair's value. O(n log m) time for n pairs and m ranges of the set, and O(n + m) where the
/// pairs ascend and few of the set's ranges lie between one and the next; beside the clones, one
/// for each pair of the answer.
pub fn parts_in_set<T: Element, V: Clone + Drop>(
    alloc: Global,
    pairs: &[(Range<T>, V)],
    set: &RangeSet<T>,
) -> Result<Vec<(Range<T>, V)>, NoMemory>
    ensures ranges { IfOk result (λ made. AreValuedRanges T.numbers made.items) }
    ensures parts { IfOk result (λ made. ArePairClones V.is_clone
        (parts_of_pairs (pairs_in_numbers T.numbers pairs.now) set.now)
        (pairs_in_numbers T.numbers made.items)) }
{
    let mut made = Vec::with_capacity(alloc, pairs.len())?;
    let all = set.as_slice();
    let mut rest = all;
    let mut last = T::min_value();
    for pair in pairs {
        let start = pair.0.start();
        rest = ranges_from(all, rest, last, start);
        last = start;
        push_parts(&mut made, pair, rest)?;
    }
    Ok(made)
}

/// Returns the pairs in their order, each with a clone of its value. O(n) time for n pairs, beside
/// the clones.
pub fn clones_of_pairs<T: Element, V: Clone + Drop>(
    alloc: Global,
    pairs: &[(Range<T>, V)],
) -> Result<Vec<(Range<T>, V)>, NoMemory>
    ensures ranges { IfOk result (λ copy. AreValuedRanges T.numbers copy.items) }
    ensures clones { IfOk result
        (λ copy. ArePairClones V.is_clone (pairs_in_numbers T.numbers pairs.now)
        (pairs_in_numbers T.numbers copy.items)) }
{
    let mut copy = Vec::with_capacity(alloc, pairs.len())?;
    for pair in pairs {
        // This tells that the range is one of the type.
        pair.0.start();
        copy.push((pair.0, pair.1.clone()?))?;
    }
    Ok(copy)
}
