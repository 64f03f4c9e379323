//! Writes sets and rows in the form of a document.
ghost use Rattle.std.specs.Prelude.{◌≡◌, ◌++◌, ℕ, ℤ, List, OnOk};
ghost use Rattle.set_document.specs.Words.{letters};
ghost use Rattle.set_document.specs.Answer.{range_text, further_text, list_text, line_text, lines_text, row_text, rows_text};
ghost use Rattle.set_document.specs.Labels.{HasLabels};
ghost use Rattle.set_document.specs.Lines.{line_lists_of};
ghost use Rattle.set_document.specs.Tabled.{table_rows};

use crate::labels::{Labels, names_len, push_names};
use crate::named_lines::Line;
use crate::table::TableRow;
use element_core::NoMemory;
use range_map::{Range, RangeIter, RangeSet};
use std::io::Write;

// Writes a range as `1..=5`.
fn push_range(out: &mut Vec<u8>, range: &Range<i64>) -> Result<(), NoMemory>
    ensures { OnOk result (out.new.items ≡ out.old.items ++ range_text range.now) }
{
    write!(out, "{}..={}", range.start(), range.end()).map_err(|_| NoMemory)
}

// Writes each range behind those before it, joined to them by `|`.
fn push_further(out: &mut Vec<u8>, ranges: RangeIter<'_, i64>) -> Result<(), NoMemory>
    ensures { OnOk result (out.new.items ≡ out.old.items ++ further_text ranges.entry) }
{
    for range in ranges {
        out.extend_from_slice(b" ")?;
        push_range(out, &range)?;
        out.extend_from_slice(b" |")?;
    }
    Ok(())
}

// Writes the ranges of a set, or `empty`.
fn push_list(out: &mut Vec<u8>, set: &RangeSet<i64>) -> Result<(), NoMemory>
    ensures { OnOk result (out.new.items ≡ out.old.items ++ list_text set.now) }
{
    let mut ranges = set.ranges();
    let Some(first) = ranges.next() else {
        out.extend_from_slice(b"empty")?;
        return Ok(());
    };
    push_range(out, &first)?;
    push_further(out, ranges)
}

// Writes a line: its name, and the ranges of its set.
pub(crate) fn push_line(out: &mut Vec<u8>, line: &Line<'_>) -> Result<(), NoMemory>
    ensures { OnOk result
        (out.new.items ≡ out.old.items ++ line_text (letters line.now.name, line.now.set)) }
{
    out.extend_from_slice(line.name.as_bytes())?;
    out.extend_from_slice(b": ")?;
    push_list(out, &line.set)?;
    out.extend_from_slice(b"\n")?;
    Ok(())
}

// Writes the lines in order.
pub(crate) fn push_lines(out: &mut Vec<u8>, lines: &[Line<'_>]) -> Result<(), NoMemory>
    ensures { OnOk result (out.new.items ≡ out.old.items ++ lines_text (line_lists_of lines.now)) }
{
    for line in lines {
        push_line(out, line)?;
    }
    Ok(())
}

// Writes a row: its numbers, and the names that hold there.
fn push_row(
    out: &mut Vec<u8>,
    labels: &Labels,
    range: &Range<i64>,
    indices: &[usize],
) -> Result<(), NoMemory>
    ensures { (names : List (List ℕ)) → HasLabels names labels.now → OnOk result
        (out.new.items ≡ out.old.items ++ row_text names (range.now, indices.now)) }
{
    out.extend_from_slice(b"# ")?;
    push_range(out, range)?;
    push_names(out, labels, indices)?;
    out.extend_from_slice(b"\n")?;
    Ok(())
}

// Writes the rows in order.
pub(crate) fn push_rows(
    out: &mut Vec<u8>,
    labels: &Labels,
    rows: &[TableRow],
) -> Result<(), NoMemory>
    ensures { (names : List (List ℕ)) → HasLabels names labels.now → OnOk result
        (out.new.items ≡ out.old.items ++ rows_text names (table_rows rows.now)) }
{
    for row in rows {
        push_row(out, labels, &row.numbers, &row.names)?;
    }
    Ok(())
}

// How many bytes a number takes.
fn number_len(n: i64) -> usize {
    let digits = match n.unsigned_abs().checked_ilog10() {
        Some(log) => (log as usize).saturating_add(1),
        None => 1,
    };
    if n < 0 {
        digits.saturating_add(1)
    } else {
        digits
    }
}

// How many bytes a range takes, with what joins it to others.
fn range_len(range: &Range<i64>) -> usize {
    number_len(range.start())
        .saturating_add(number_len(range.end()))
        .saturating_add(6)
}

// How many bytes a line takes, or a few more.
fn line_len(line: &Line<'_>) -> usize {
    let mut total = line.name.as_bytes().len().saturating_add(8);
    for range in line.set.ranges() {
        total = total.saturating_add(range_len(&range));
    }
    total
}

// How many bytes a row takes, or a few more.
fn row_len(labels: &Labels, row: &TableRow) -> usize {
    range_len(&row.numbers).saturating_add(names_len(labels, &row.names))
}

// Room for the bytes of lines and rows. It spares that the bytes are moved as they grow, and no
// more.
pub(crate) fn room_for(lines: &[Line<'_>], labels: &Labels, rows: &[TableRow]) -> usize {
    let mut total: usize = 0;
    for line in lines {
        total = total.saturating_add(line_len(line));
    }
    for row in rows {
        total = total.saturating_add(row_len(labels, row));
    }
    total
}
