//! Pairs in order: sorting them, leaving one of equal keys, and merging two vectors of them.
ghost use Rattle.std.specs.Prelude.{◌≡◌, ◌≤◌, ◌+◌, ◌++◌, [], List, length, IfNone, OnOk, OnErr};
ghost use Rattle.std.specs.Option.{option_to_list};
ghost use Rattle.std.specs.List.Sorted.{IsPermutation, IsSorted, IsStrictlySortedBy};
ghost use Rattle.std.specs.Vec.{vec_len, vec_capacity};
ghost use Rattle.std.specs.VecDeque.{deque_len};
ghost use Rattle.ordered_lists.specs.Lists.{by_key, sets};
ghost use Rattle.ordered_lists.specs.Merge.{side as next_side};

use std::alloc::AllocError;
use std::cmp::Ordering;
use std::collections::VecDeque;
use std::mem::swap;

// `Less` where the least key is that of `left`, `Greater` where it is that of `right`.
fn side<K: Ord, V>(left: &VecDeque<(K, V)>, right: &VecDeque<(K, V)>) -> Ordering
    ensures { result ≡ next_side (by_key K.cmp) left.now.items right.now.items }
{
    match (left.front(), right.front()) {
        (Some(l), Some(r)) => l.0.cmp(&r.0),
        (Some(_), None) => Ordering::Less,
        (None, _) => Ordering::Greater,
    }
}

// The pair of the least key of both. Of two equal keys it is that of `right`, and the other is
// dropped.
fn next_of<K: Ord + Drop, V: Drop>(
    left: &mut VecDeque<(K, V)>,
    right: &mut VecDeque<(K, V)>,
) -> Option<(K, V)>
    requires { IsStrictlySortedBy (by_key K.cmp) right.old.items }
    ensures merged { sets (by_key K.cmp) left.old.items right.old.items
        ≡ option_to_list result ++ sets (by_key K.cmp) left.new.items right.new.items }
    ensures ascending { IsStrictlySortedBy (by_key K.cmp) right.new.items }
    ensures len { deque_len left.new + deque_len right.new + length (option_to_list result)
        ≤ deque_len left.old + deque_len right.old }
    ensures none { IfNone result ((left.new.items ≡ []) × (right.new.items ≡ [])) }
{
    match side(left, right) {
        Ordering::Less => left.pop_front(),
        Ordering::Greater => right.pop_front(),
        Ordering::Equal => {
            left.pop_front();
            right.pop_front()
        }
    }
}

// Puts the pairs of both behind those of `merged`, which has room for them. Of two equal keys that
// of `right` stays.
pub(crate) fn merge<K: Ord + Drop, V: Drop>(
    left: Vec<(K, V)>,
    right: Vec<(K, V)>,
    merged: &mut Vec<(K, V)>,
)
    requires ascending { IsStrictlySortedBy (by_key K.cmp) right.items }
    requires room { vec_len merged.old + vec_len left + vec_len right ≤ vec_capacity merged.old }
    ensures { merged.new.items ≡ merged.old.items ++ sets (by_key K.cmp) left.items right.items }
{
    if left.is_empty() {
        move_behind(right, merged);
    } else {
        merge_queues(VecDeque::from_vec(left), VecDeque::from_vec(right), merged);
    }
}

// Puts the pairs of `right` behind those of `merged`, which has room for them.
fn move_behind<K: Drop, V: Drop>(mut right: Vec<(K, V)>, merged: &mut Vec<(K, V)>)
    requires { vec_len merged.old + vec_len right ≤ vec_capacity merged.old }
    ensures { merged.new.items ≡ merged.old.items ++ right.items }
{
    let _ = merged.append(&mut right);
}

// The same of two queues.
fn merge_queues<K: Ord + Drop, V: Drop>(
    mut left: VecDeque<(K, V)>,
    mut right: VecDeque<(K, V)>,
    merged: &mut Vec<(K, V)>,
)
    requires ascending { IsStrictlySortedBy (by_key K.cmp) right.items }
    requires room { vec_len merged.old + deque_len left + deque_len right
        ≤ vec_capacity merged.old }
    ensures { merged.new.items ≡ merged.old.items ++ sets (by_key K.cmp) left.items right.items }
{
    while let Some(pair) = next_of(&mut left, &mut right) {
        merged.push_reserved(pair);
    }
}

// Sorts by key, and leaves equal keys in their order.
pub(crate) fn sort_by_key<K: Ord, V>(items: &mut Vec<(K, V)>) -> Result<(), AllocError>
    ensures permutation { IsPermutation items.old.items items.new.items }
    ensures len { vec_len items.new ≡ vec_len items.old }
    ensures sorted { OnOk result (IsSorted (by_key K.cmp) items.new.items) }
    ensures same { (l : List (K × V)) → IsStrictlySortedBy (by_key K.cmp) l
        → sets (by_key K.cmp) l items.new.items ≡ sets (by_key K.cmp) l items.old.items }
    ensures err { OnErr result (items.new.items ≡ items.old.items) }
{
    items.sort_by(|a, b| a.0.cmp(&b.0))?;
    Ok(())
}

// Of pairs of equal keys, which stand in a row, leaves the last.
pub(crate) fn keep_last<K: Ord + Drop, V: Drop>(items: &mut Vec<(K, V)>)
    requires { IsSorted (by_key K.cmp) items.old.items }
    ensures ascending { IsStrictlySortedBy (by_key K.cmp) items.new.items }
    ensures same { (l : List (K × V)) → sets (by_key K.cmp) l items.new.items
        ≡ sets (by_key K.cmp) l items.old.items }
    ensures len { vec_len items.new ≤ vec_len items.old }
{
    items.dedup_by(|later, kept| {
        let same = later.0.cmp(&kept.0).is_eq();
        if same {
            swap(later, kept);
        }
        same
    });
}
