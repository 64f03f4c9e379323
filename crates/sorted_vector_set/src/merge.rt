//! Items in order: leaving one of equal items, and merging two vectors of them.
ghost use Rattle.std.specs.Prelude.{◌≡◌, ◌≤◌, ◌+◌, ◌++◌, [], List, length, IfNone};
ghost use Rattle.std.specs.Option.{option_to_list};
ghost use Rattle.std.specs.List.Sorted.{IsSorted, IsStrictlySortedBy};
ghost use Rattle.std.specs.Vec.{vec_len, vec_capacity};
ghost use Rattle.std.specs.VecDeque.{deque_len};
ghost use Rattle.ordered_lists.specs.Lists.{sets};
ghost use Rattle.ordered_lists.specs.Merge.{side as next_side};

use std::cmp::Ordering;
use std::collections::VecDeque;
use std::mem::swap;

// `Less` where the least item is that of `left`, `Greater` where it is that of `right`.
fn side<T: Ord>(left: &VecDeque<T>, right: &VecDeque<T>) -> Ordering
    ensures { result ≡ next_side T.cmp left.now.items right.now.items }
{
    match (left.front(), right.front()) {
        (Some(l), Some(r)) => l.cmp(r),
        (Some(_), None) => Ordering::Less,
        (None, _) => Ordering::Greater,
    }
}

// The least item of both. Of two equal items it is that of `right`, and the other is dropped.
fn next_of<T: Ord + Drop>(left: &mut VecDeque<T>, right: &mut VecDeque<T>) -> Option<T>
    requires { IsStrictlySortedBy T.cmp right.old.items }
    ensures merged { sets T.cmp left.old.items right.old.items
        ≡ option_to_list result ++ sets T.cmp left.new.items right.new.items }
    ensures ascending { IsStrictlySortedBy T.cmp right.new.items }
    ensures len { deque_len left.new + deque_len right.new + length (option_to_list result)
        ≤ deque_len left.old + deque_len right.old }
    ensures none { IfNone result ((left.new.items ≡ []) × (right.new.items ≡ [])) }
{
    match side(left, right) {
        Ordering::Less => left.pop_front(),
        Ordering::Greater => right.pop_front(),
        Ordering::Equal => {
            left.pop_front();
            right.pop_front()
        }
    }
}

// Puts the items of both behind those of `merged`, which has room for them. Of two equal items that
// of `right` stays.
pub(crate) fn merge<T: Ord + Drop>(left: Vec<T>, right: Vec<T>, merged: &mut Vec<T>)
    requires ascending { IsStrictlySortedBy T.cmp right.items }
    requires room { vec_len merged.old + vec_len left + vec_len right ≤ vec_capacity merged.old }
    ensures { merged.new.items ≡ merged.old.items ++ sets T.cmp left.items right.items }
{
    if left.is_empty() {
        move_behind(right, merged);
    } else {
        merge_queues(VecDeque::from_vec(left), VecDeque::from_vec(right), merged);
    }
}

// Puts the items of `right` behind those of `merged`, which has room for them.
fn move_behind<T: Drop>(mut right: Vec<T>, merged: &mut Vec<T>)
    requires { vec_len merged.old + vec_len right ≤ vec_capacity merged.old }
    ensures { merged.new.items ≡ merged.old.items ++ right.items }
{
    let _ = merged.append(&mut right);
}

// The same of two queues.
fn merge_queues<T: Ord + Drop>(mut left: VecDeque<T>, mut right: VecDeque<T>, merged: &mut Vec<T>)
    requires ascending { IsStrictlySortedBy T.cmp right.items }
    requires room { vec_len merged.old + deque_len left + deque_len right
        ≤ vec_capacity merged.old }
    ensures { merged.new.items ≡ merged.old.items ++ sets T.cmp left.items right.items }
{
    while let Some(item) = next_of(&mut left, &mut right) {
        merged.push_reserved(item);
    }
}

// Of equal items, which stand in a row, leaves the last.
pub(crate) fn keep_last<T: Ord + Drop>(items: &mut Vec<T>)
    requires { IsSorted T.cmp items.old.items }
    ensures ascending { IsStrictlySortedBy T.cmp items.new.items }
    ensures same { (l : List T) → sets T.cmp l items.new.items ≡ sets T.cmp l items.old.items }
    ensures len { vec_len items.new ≤ vec_len items.old }
{
    items.dedup_by(|later, kept| {
        let same = later.cmp(&kept).is_eq();
        if same {
            swap(later, kept);
        }
        same
    });
}
