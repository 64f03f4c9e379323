//! The named lines and the rows of a text, by one pass over the numbers at which lines may change.
ghost use Rattle.std.specs.Prelude.{◌≡◌, ℕ, ◌+◌, ◌<◌, ◌≤◌, ◌++◌, ◌∷◌, [], ℤ, pos, ◌-ℤ◌, ◌<ℤ◌, int_lt, if◌then◌else◌, IfOk, OnOk, List, length, map};
ghost use Rattle.std.specs.List.{AllByRecursion, filter};
ghost use Rattle.cut_points.specs.Cuts.{IsAscending, cuts_alone, from_cuts as list_from_cuts};
ghost use Rattle.set_document.specs.Answer.{line_lists};
ghost use Rattle.set_document.specs.Lines.{line_lists_of, names_of, AllCanonical};
ghost use Rattle.set_document.specs.Literals.{literal_cuts};
ghost use Rattle.set_document.specs.Numbers.{least, greatest};
ghost use Rattle.set_document.specs.Table.{rows as text_rows};
ghost use Rattle.set_document.specs.Tabled.{table_rows};
ghost use Rattle.set_document.specs.Visits.{IsWalk, rows_with_ends, numbers_of_first, firsts};
ghost use Rattle.set_document.specs.Words.{letters_of};
ghost use Rattle.truth_blocks.specs.Notes.{states};
ghost use Rattle.truth_blocks.specs.Rows.{rows_of};

use crate::compile::{Program, compile};
use crate::named_lines::{Line, NamedLines};
use crate::table::TableRow;
use crate::word::Name;
use cut_points::{all_cuts, from_cut_slice};
use element_core::NoMemory;
use range_map::{Range, RangeSet};
use std::alloc::Global;
use std::mem;
use truth_blocks::{Noted, Pass, Row, one_pass};

// Puts the least number in.
#[tactic(auto, unfolding(crate::specs::Numbers::least, crate::specs::Numbers::greatest))]
fn push_least(visited: &mut Vec<i64>) -> Result<(), NoMemory>
    ensures { OnOk result (visited.new.items ≡ visited.old.items ++ least ∷ []) }
{
    visited.push(i64::MIN)?;
    Ok(())
}

// Puts a number behind those to visit, where it is above the least one.
#[tactic(auto, unfolding(crate::specs::Numbers::least, crate::specs::Numbers::greatest))]
fn push_above(visited: &mut Vec<i64>, cut: i64) -> Result<(), NoMemory>
    ensures { OnOk result ((rest : List ℤ) → visited.new.items ++ rest
        ≡ visited.old.items ++ (if int_lt least cut then cut ∷ rest else rest)) }
{
    if i64::MIN < cut {
        visited.push(cut)?;
        return Ok(());
    }
    Ok(())
}

// The least number, and those of the cuts that are above it.
fn with_least(alloc: Global, cuts: &[i64]) -> Result<Vec<i64>, NoMemory>
    ensures { IfOk result
        (λ visited. visited.items ≡ least ∷ filter (λ c. int_lt least c) cuts.now) }
{
    let mut visited = Vec::with_capacity(alloc, cuts.len().saturating_add(1))?;
    push_least(&mut visited)?;
    for cut in cuts {
        push_above(&mut visited, *cut)?;
    }
    Ok(visited)
}

// The numbers to visit: the least one, and each cut above it of one of the ranges taken alone.
pub(crate) fn numbers_to_visit(alloc: Global, ranges: &[Range<i64>]) -> Result<Vec<i64>, NoMemory>
    ensures { IfOk result
        (λ visited. IsWalk least greatest (cuts_alone greatest ranges.now) visited.items) }
{
    let cuts = all_cuts(alloc, ranges)?;
    let visited = with_least(alloc, cuts.iter().as_slice())?;
    Ok(visited)
}

// The set whose cuts these numbers are.
fn set_of_numbers(alloc: Global, numbers: &[i64]) -> Result<RangeSet<i64>, NoMemory>
    requires { IsAscending least greatest numbers.now }
    ensures { IfOk result (λ set. set ≡ list_from_cuts greatest numbers.now) }
{
    let set = from_cut_slice(alloc, numbers)?;
    Ok(set)
}

// Each name with the set whose cuts were noted of its line.
fn lines_from<'t>(
    alloc: Global,
    names: &[Name<'t>],
    notes: Vec<Noted>,
) -> Result<Vec<Line<'t>>, NoMemory>
    requires each { length names.now ≡ length notes.items }
    requires ascending { AllByRecursion (λ n. IsAscending least greatest n.1) (states notes.items) }
    ensures names { IfOk result
        (λ lines. names_of (line_lists_of lines.items) ≡ letters_of names.now) }
    ensures sets { IfOk result (λ lines. map (λ l. l.set) lines.items
        ≡ map (λ n. list_from_cuts greatest n.1) (states notes.items)) }
    ensures canonical { IfOk result (λ lines. AllCanonical (line_lists_of lines.items)) }
{
    let mut left = notes;
    let mut lines = Vec::with_capacity(alloc, left.len())?;
    let mut i = 0;
    while i < left.len() {
        let numbers = mem::replace(&mut left[i].numbers, Vec::new(alloc));
        let set = set_of_numbers(alloc, &numbers)?;
        lines.push(Line::new(names[i], set))?;
        i += 1;
    }
    Ok(lines)
}

// The numbers from the first to the one before `next`.
#[tactic(auto, unfolding(crate::specs::Numbers::least, crate::specs::Numbers::greatest))]
fn range_before(first: i64, next: i64) -> Range<i64>
    requires { first <ℤ next }
    ensures { result ≡ (first, next -ℤ pos 1) }
{
    Range::new(first, next - 1)
}

// The numbers from the first on.
#[tactic(auto, unfolding(crate::specs::Numbers::least, crate::specs::Numbers::greatest))]
fn range_from(first: i64) -> Range<i64>
    ensures { result ≡ (first, greatest) }
{
    Range::new(first, i64::MAX)
}

// The numbers of the first of these rows.
fn closed_range(rows: &[Row]) -> Range<i64>
    requires { IsAscending least greatest (firsts (rows_of rows.now)) }
    ensures { 0 < length rows.now → result ≡ numbers_of_first greatest (rows_of rows.now) }
{
    match rows {
        [row, next, ..] => range_before(row.first, next.first),
        [row] => range_from(row.first),
        [] => Range::full(),
    }
}

// The rows with their last numbers.
fn close_rows(alloc: Global, rows: Vec<Row>) -> Result<Vec<TableRow>, NoMemory>
    requires { IsAscending least greatest (firsts (rows_of rows.items)) }
    ensures { IfOk result
        (λ done. table_rows done.items ≡ rows_with_ends greatest (rows_of rows.items)) }
{
    let mut left = rows;
    let mut done = Vec::with_capacity(alloc, left.len())?;
    let mut i = 0;
    while i < left.len() {
        let numbers = closed_range(&left[i..]);
        let names = mem::replace(&mut left[i].held, Vec::new(alloc));
        done.push(TableRow { numbers, names })?;
        i += 1;
    }
    Ok(done)
}

// The named lines and the rows of a text, by one pass over these numbers.
pub(crate) fn pass_over<'t>(
    alloc: Global,
    text: &'t [u8],
    visited: &[i64],
) -> Result<(NamedLines<'t>, Vec<TableRow>), NoMemory>
    requires { IsWalk least greatest (literal_cuts text.now) visited.now }
    ensures lines { IfOk result (λ p. p.0 ≡ line_lists text.now) }
    ensures rows { IfOk result (λ p. table_rows p.1.items ≡ text_rows text.now) }
{
    let Program { lines, names } = compile(alloc, text, visited)?;
    let places = names.last_places(alloc)?;
    let Pass { notes, rows } = one_pass(alloc, visited, &lines, &places)?;
    let done = lines_from(alloc, names.as_slice(), notes)?;
    let table = close_rows(alloc, rows)?;
    Ok((NamedLines::with_names(done, names), table))
}
