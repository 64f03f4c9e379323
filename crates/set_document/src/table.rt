//! The table of a document: which names hold where.
ghost use Rattle.std.specs.Prelude.{◌≡◌, ◌++◌, ℤ, ◌≤ℤ◌, nat_eq, map, IfOk, OnOk, Some};
ghost use Rattle.std.specs.Cmp.Lexicographic.{pointwise};
ghost use Rattle.number_line.specs.Rows.{with_places};
ghost use Rattle.number_line.specs.Valued.{value_at, IsCanonicalMap};
ghost use Rattle.range_multimap.specs.Grouped.{grouped_at};
ghost use Rattle.set_document.specs.Lines.{lines_of, AllCanonical};
ghost use Rattle.set_document.specs.Numbers.{least, greatest};
ghost use Rattle.set_document.specs.Table.{names_held};
ghost use Rattle.set_document.specs.Tabled.{names_of_slot, table_rows, rows_of_table};
ghost use Rattle.set_document.specs.Truth.{at};

use crate::named_lines::NamedLines;
use blaze_joins::RangeMapBlaze;
use element_core::NoMemory;
use range_map::{Range, RangeMap, RangeSet};
use range_multimap::{Group, RangeMultiMap};
use std::alloc::Global;

// A row: its numbers, and the indices of the names that hold there.
#[derive(Drop)]
pub(crate) struct TableRow {
    pub(crate) numbers: Range<i64>,
    pub(crate) names: Vec<usize>,
}

// The indices of the names of a slot: those of its group, or none.
fn names_in(groups: &RangeMap<i64, Group<usize>>, slot: Option<usize>) -> &[usize]
    ensures { result.now ≡ names_of_slot groups.now slot }
{
    let Some(index) = slot else {
        return &[];
    };
    match groups.ranges_values().as_slice().get(index) {
        Some((_, group)) => group.as_slice(),
        None => &[],
    }
}

// Puts the ranges of a set in, each with the index of its name.
fn push_ranges(
    holders: &mut RangeMultiMap<i64, usize>,
    set: &RangeSet<i64>,
    index: usize,
) -> Result<(), NoMemory>
    ensures { OnOk result (holders.new ≡ holders.old ++ map (λ range. (range, index)) set.now) }
{
    for range in set.ranges() {
        holders.insert(range, index).map_err(|_| NoMemory)?;
    }
    Ok(())
}

// The ranges of each name's last line, with the name's index among the distinct names.
fn gather(alloc: Global, done: &NamedLines<'_>) -> Result<RangeMultiMap<i64, usize>, NoMemory>
    ensures lines { AllCanonical done.now }
    ensures values { IfOk result
        (λ holders. (x : ℤ) → grouped_at holders x ≡ names_held (at (lines_of done.now) x)) }
{
    let lines = done.lines();
    let mut holders = RangeMultiMap::new(alloc);
    let mut index = 0;
    for (_, place) in done.names() {
        if let Some(line) = lines.get(*place) {
            push_ranges(&mut holders, &line.set, index)?;
        }
        index += 1;
    }
    Ok(holders)
}

// Each group's range with the group's index.
fn group_indices(
    alloc: Global,
    groups: &RangeMap<i64, Group<usize>>,
) -> Result<Vec<(Range<i64>, usize)>, NoMemory>
    ensures { IfOk result (λ indices. indices.items ≡ with_places 0 groups.now) }
{
    let groups = groups.ranges_values();
    let mut indices = Vec::with_capacity(alloc, groups.len())?;
    for (range, _) in groups {
        let index = indices.len();
        indices.push((*range, index))?;
    }
    Ok(indices)
}

// The rows of groups and slots, each with its own list of indices.
fn rows_of(
    alloc: Global,
    groups: &RangeMap<i64, Group<usize>>,
    slots: &RangeMapBlaze<i64, Option<usize>>,
) -> Result<Vec<TableRow>, NoMemory>
    ensures { IfOk result (λ rows. table_rows rows.items ≡ rows_of_table groups.now slots.now) }
{
    let slots = slots.range_values();
    let mut rows = Vec::with_capacity(alloc, slots.len())?;
    for (range, slot) in slots {
        let mut names = Vec::new(alloc);
        names.extend_from_slice(names_in(groups, *slot))?;
        rows.push(TableRow {
            numbers: *range,
            names,
        })?;
    }
    Ok(rows)
}

// The rows of the lines that stand in `done`: their ranges are grouped, and each number has a slot,
// the index of its group or none.
#[tactic(auto, unfolding(crate::specs::Numbers::least, crate::specs::Numbers::greatest))]
pub(crate) fn rows_by_sets(alloc: Global, done: &NamedLines<'_>) -> Result<Vec<TableRow>, NoMemory>
    ensures lines { AllCanonical done.now }
    ensures canonical { IfOk result
        (λ rows. IsCanonicalMap (pointwise nat_eq) least greatest (table_rows rows.items)) }
    ensures values { IfOk result (λ rows. (x : ℤ) → least ≤ℤ x → x ≤ℤ greatest
        → value_at (table_rows rows.items) x ≡ Some (names_held (at (lines_of done.now) x))) }
{
    let holders = gather(alloc, done)?;
    let groups = holders.group(alloc)?;
    let indices = group_indices(alloc, &groups)?;
    let group_map = RangeMapBlaze::from_pairs(alloc, indices)?;
    let slots = group_map.fill_gaps(alloc)?;
    let rows = rows_of(alloc, &groups, &slots)?;
    Ok(rows)
}
