//! Streams of pairs and what is left of them, each by a copy.
#![tactic(auto, using(sorted_pairs::specs::Sources::sources, crate::proofs::Literals::literals))]

ghost use Rattle.std.specs.List.Sorted.{IsStrictlySortedBy};
ghost use Rattle.std.specs.Ordering.{nat_cmp};
ghost use Rattle.ordered_lists.specs.Lists.{by_key};

use element_core::NoMemory;
use sorted_pairs::{AssumeSortedByKeyExt, SortedPairIterator};
use std::alloc::Global;

// Returns the join, and what is left of it after its first item, each by a copy of the stream.
pub(crate) fn copies_of_join(
    alloc: Global,
    a: &[(u32, char)],
    b: &[(u32, char)],
) -> Result<(Vec<(u32, (char, char))>, Vec<(u32, (char, char))>), NoMemory>
    requires left { IsStrictlySortedBy (by_key nat_cmp) a.now }
    requires right { IsStrictlySortedBy (by_key nat_cmp) b.now }
{
    let left = a.iter().copied().assume_sorted_by_key();
    let mut stream = left.join(b.iter().copied().assume_sorted_by_key());
    let fresh = stream.try_clone()?;
    drop(stream.next());
    let rest = stream.try_clone()?;
    Ok((fresh.collect(alloc)?, rest.collect(alloc)?))
}

// Returns the left join, and what is left of it after its first item, each by a copy of the
// stream.
pub(crate) fn copies_of_left_join(
    alloc: Global,
    a: &[(u32, char)],
    b: &[(u32, char)],
) -> Result<
    (
        Vec<(u32, (char, Option<char>))>,
        Vec<(u32, (char, Option<char>))>,
    ),
    NoMemory,
>
    requires left { IsStrictlySortedBy (by_key nat_cmp) a.now }
    requires right { IsStrictlySortedBy (by_key nat_cmp) b.now }
{
    let left = a.iter().copied().assume_sorted_by_key();
    let mut stream = left.left_join(b.iter().copied().assume_sorted_by_key());
    let fresh = stream.try_clone()?;
    drop(stream.next());
    let rest = stream.try_clone()?;
    Ok((fresh.collect(alloc)?, rest.collect(alloc)?))
}

// Returns the right join, and what is left of it after its first item, each by a copy of the
// stream.
pub(crate) fn copies_of_right_join(
    alloc: Global,
    a: &[(u32, char)],
    b: &[(u32, char)],
) -> Result<
    (
        Vec<(u32, (Option<char>, char))>,
        Vec<(u32, (Option<char>, char))>,
    ),
    NoMemory,
>
    requires left { IsStrictlySortedBy (by_key nat_cmp) a.now }
    requires right { IsStrictlySortedBy (by_key nat_cmp) b.now }
{
    let left = a.iter().copied().assume_sorted_by_key();
    let mut stream = left.right_join(b.iter().copied().assume_sorted_by_key());
    let fresh = stream.try_clone()?;
    drop(stream.next());
    let rest = stream.try_clone()?;
    Ok((fresh.collect(alloc)?, rest.collect(alloc)?))
}

// Returns the outer join, and what is left of it after its first item, each by a copy of the
// stream.
pub(crate) fn copies_of_outer_join(
    alloc: Global,
    a: &[(u32, char)],
    b: &[(u32, char)],
) -> Result<
    (
        Vec<(u32, (Option<char>, Option<char>))>,
        Vec<(u32, (Option<char>, Option<char>))>,
    ),
    NoMemory,
>
    requires left { IsStrictlySortedBy (by_key nat_cmp) a.now }
    requires right { IsStrictlySortedBy (by_key nat_cmp) b.now }
{
    let left = a.iter().copied().assume_sorted_by_key();
    let mut stream = left.outer_join(b.iter().copied().assume_sorted_by_key());
    let fresh = stream.try_clone()?;
    drop(stream.next());
    let rest = stream.try_clone()?;
    Ok((fresh.collect(alloc)?, rest.collect(alloc)?))
}

// Returns the keys, and what is left of them after the first one, each by a copy of the stream.
pub(crate) fn copies_of_keys(
    alloc: Global,
    a: &[(u32, char)],
) -> Result<(Vec<u32>, Vec<u32>), NoMemory>
    requires { IsStrictlySortedBy (by_key nat_cmp) a.now }
{
    let mut stream = a.iter().copied().assume_sorted_by_key().keys();
    let fresh = stream.try_clone()?;
    drop(stream.next());
    let rest = stream.try_clone()?;
    Ok((fresh.collect(alloc)?, rest.collect(alloc)?))
}

// Returns what is left of a stream by assumption after its first item, by a copy.
pub(crate) fn copy_of_assumed(
    alloc: Global,
    a: &[(u32, char)],
) -> Result<Vec<(u32, char)>, NoMemory>
    requires { IsStrictlySortedBy (by_key nat_cmp) a.now }
{
    let mut stream = a.iter().copied().assume_sorted_by_key();
    drop(stream.next());
    Ok(stream.try_clone()?.collect(alloc)?)
}
