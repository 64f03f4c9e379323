//! The answer of a document: its named sets, its table, and its bytes.
ghost use Rattle.std.specs.Prelude.{◌≡◌, ◌+◌, ◌*◌, ◌≤◌, Some, IfOk, IfErr, OnOk, length, List, map, min, sum_by, slice_get, option_map};
ghost use Rattle.set_document.specs.Answer.{shape, shape_text, answer};
ghost use Rattle.set_document.specs.Faults.{first_fault, IsWellFormed};
ghost use Rattle.set_document.specs.Laws.{HasFewRanges};
ghost use Rattle.set_document.specs.Literals.{literals};
ghost use Rattle.set_document.specs.Names.{with_last_places};
ghost use Rattle.set_document.specs.Steps.{IsFirstFault};
ghost use Rattle.set_document.specs.Words.{letters};

use crate::evaluator::evaluate_lines;
use crate::fault::AlgebraError;
use crate::judge::judge;
use crate::labels::Labels;
use crate::named_lines::NamedLines;
use crate::pass::{numbers_to_visit, pass_over};
use crate::print::{push_lines, push_rows, room_for};
use crate::table::{TableRow, rows_by_sets};
use crate::word::Name;
use element_core::NoMemory;
use range_map::{Range, RangeSet};
use sorted_vector_map::SortedVectorMap;
use std::alloc::Global;
use std::marker::Model;

/// What a document says: each named line's name and set, in the order of the lines, and the rows of
/// its table.
///
/// Contracts see an answer as its `Shape`: the lines as names with their ranges, the distinct names
/// in the order of their bytes, and the rows with the indices of the names that hold there.
#[derive(Drop)]
pub struct Answer<'t> {
    done: NamedLines<'t>,
    rows: Vec<TableRow>,
}

impl<'t> Model for Answer<'t> {
    ghost use Rattle.set_document.specs.Answer.{Shape};
    ghost use Rattle.set_document.specs.Lines.{names_of};
    ghost use Rattle.set_document.specs.Names.{distinct_names};
    ghost use Rattle.set_document.specs.Tabled.{table_rows};

    ghost Value = { Shape };

    ghost view = { λ answer. record {
      lines = answer.done;
      names = distinct_names (names_of answer.done);
      rows = table_rows answer.rows.items;
    } };
}

impl<'t> Answer<'t> {
    /// Returns the number of named lines. O(1) time, no memory.
    pub fn num_lines(&self) -> usize
        ensures { result ≡ length self.now.lines }
    {
        self.done.lines().len()
    }

    /// Returns the number of ranges of all lines together, or `usize::MAX` where there are more.
    /// O(n) time in the number of lines, no memory.
    pub fn num_ranges(&self) -> usize
        ensures { result ≡ min (sum_by (λ l. length l.1) self.now.lines) usize.MAX }
    {
        let mut total: usize = 0;
        for line in self.done.lines() {
            total = total.saturating_add(line.set.num_ranges());
        }
        total
    }

    /// Returns the name and the set of a named line, which count from 0 in the order of the lines,
    /// or `None` from the number of lines on. O(1) time, no memory.
    pub fn line(&self, index: usize) -> Option<(Name<'t>, &RangeSet<i64>)>
        ensures { option_map (λ l. (letters l.0, l.1.now)) result ≡ slice_get self.now.lines index }
    {
        let line = self.done.lines().get(index)?;
        Some((line.name, &line.set))
    }

    /// Returns the number of rows of the table. O(1) time, no memory.
    pub fn num_rows(&self) -> usize
        ensures { result ≡ length self.now.rows }
    {
        self.rows.len()
    }

    /// Returns the numbers of a row, which count from 0, and the indices of the names that hold
    /// there, ascending, as `name` takes them, or `None` from the number of rows on. O(1) time, no
    /// memory.
    pub fn row(&self, index: usize) -> Option<(Range<i64>, &[usize])>
        ensures { option_map (λ row. (row.0, row.1.now)) result ≡ slice_get self.now.rows index }
    {
        let row = self.rows.get(index)?;
        Some((row.numbers, row.names.as_slice()))
    }

    /// Returns the name at an index among the distinct names in the order of their bytes, from 0,
    /// or `None` from their number on. O(1) time, no memory.
    pub fn name(&self, index: usize) -> Option<Name<'t>>
        ensures { option_map letters result ≡ slice_get self.now.names index }
    {
        let (name, _) = self.done.names().get_key_value_at_index(index)?;
        Some(*name)
    }

    /// Returns the distinct names in the order of their bytes, each with the index of its last
    /// line, as `line` takes it. O(1) time, no memory.
    pub fn names(&self) -> &SortedVectorMap<Name<'t>, usize>
        ensures names { map (λ p. letters p.0) result.now.pairs ≡ self.now.names }
        ensures places { map (λ p. (letters p.0, Some p.1)) result.now.pairs ≡ with_last_places
            (map (λ l. l.0) self.now.lines) }
    {
        self.done.names()
    }

    /// Returns the bytes of the answer: for each named line its name, a colon, a space, its ranges
    /// and a line feed, and then for each row `#`, a space, its numbers as a range, each name that
    /// holds there after a space, and a line feed.
    ///
    /// The ranges of a line are `empty`, or the first as `1..=3`, and for each further one a space,
    /// the range, a space and `|`, so that the line is read again as the same set, and a row as a
    /// comment. O(n) time and memory in the bytes.
    pub fn print(&self, alloc: Global) -> Result<Vec<u8>, NoMemory>
        ensures { IfOk result (λ bytes. bytes.items ≡ shape_text self.now) }
    {
        let lines = self.done.lines();
        let labels = Labels::new(alloc, self.done.names())?;
        let mut out = Vec::with_capacity(alloc, room_for(lines, &labels, &self.rows))?;
        push_lines(&mut out, lines)?;
        push_rows(&mut out, &labels, &self.rows)?;
        Ok(out)
    }
}

/// Returns the answer of a document, or its first fault.
///
/// Lines are judged in order, in a line its form first, then its words from the left, and last the
/// number of sets that they leave. What the lines give changes only at the cuts of the numbers and
/// ranges in the text, each taken alone, so one pass over the least number and these cuts tells
/// all: at 64 of them at a time the words of all lines are folded over truth values, a name word
/// reads the values of its latest earlier line, and what changes is noted. With n number and range
/// words a list has at most n + 1 ranges, and the table at most 2n + 1 rows.
///
/// O(n log n) time for n cuts, a step for each word and 64 cuts, and the size of the answer; memory
/// for the cuts, the steps and the answer.
pub fn evaluate<'t>(alloc: Global, text: &'t [u8]) -> Result<Answer<'t>, AlgebraError>
    ensures well_formed { OnOk result (IsWellFormed text.now) }
    ensures shape { IfOk result (λ answer. answer ≡ shape text.now) }
    ensures fault { IfErr result (IsFirstFault (first_fault text.now)) }
    ensures few_ranges { IfOk result (λ answer. HasFewRanges text.now answer.lines) }
    ensures few_rows { IfOk result
        (λ answer. length answer.rows ≤ 2 * length (literals text.now) + 1) }
{
    let ranges = judge(alloc, text)?;
    let visited = numbers_to_visit(alloc, &ranges)?;
    let (done, rows) = pass_over(alloc, text, &visited)?;
    Ok(Answer { done, rows })
}

/// Returns the answer of a document, or its first fault, as `evaluate` does, by whole sets.
///
/// Each word takes sets off a stack and puts one there, and costs the ranges of these sets; the
/// table is made by a sweep over the bounds of all ranges of the names' last lines.
pub fn evaluate_by_sets<'t>(alloc: Global, text: &'t [u8]) -> Result<Answer<'t>, AlgebraError>
    ensures well_formed { OnOk result (IsWellFormed text.now) }
    ensures shape { IfOk result (λ answer. answer ≡ shape text.now) }
    ensures fault { IfErr result (IsFirstFault (first_fault text.now)) }
{
    let done = evaluate_lines(alloc, text)?;
    let rows = rows_by_sets(alloc, &done)?;
    Ok(Answer { done, rows })
}

/// Returns the bytes of the answer of a document, or its first fault. It costs as `evaluate` and
/// `Answer::print` together.
pub fn evaluate_document(alloc: Global, text: &[u8]) -> Result<Vec<u8>, AlgebraError>
    ensures well_formed { OnOk result (IsWellFormed text.now) }
    ensures answer { IfOk result (λ bytes. bytes.items ≡ answer text.now) }
    ensures fault { IfErr result (IsFirstFault (first_fault text.now)) }
{
    let answer = evaluate(alloc, text)?;
    Ok(answer.print(alloc)?)
}
