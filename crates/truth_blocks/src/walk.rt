//! One pass over the visited numbers: what each line notes, and the rows.
ghost use Rattle.std.specs.Prelude.{◌≡◌, ℕ, ◌+◌, ◌-◌, ◌<◌, ◌≤◌, ◌++◌, ◌∷◌, [], IfOk, OnOk, List, length, map};
ghost use Rattle.truth_blocks.specs.Blocks.{steps_of, values_of};
ghost use Rattle.truth_blocks.specs.Notes.{walk_places, states, no_notes, noted_values};
ghost use Rattle.truth_blocks.specs.Rows.{label_of, rows_from, rows_of, ArePlaces};

use crate::block::{LineSteps, fold_block};
use crate::note::{Noted, note_all, nothing_noted};
use crate::rows::{Row, push_rows, starts_of};
use element_core::NoMemory;
use std::alloc::Global;
use std::cmp::min;

/// What one pass leaves.
#[derive(Drop)]
pub struct Pass {
    /// What is noted of each line.
    pub notes: Vec<Noted>,
    /// The rows, ascending.
    pub rows: Vec<Row>,
}

// One more block, whose numbers stand at the places from `base` on.
fn pass_block(
    alloc: Global,
    pass: &mut Pass,
    lines: &[LineSteps],
    shown: &[usize],
    base: usize,
    block: &[i64],
) -> Result<(), NoMemory>
    requires some { 0 < length block.now }
    requires short { length block.now ≤ 64 }
    requires each { length pass.old.notes.items ≡ length lines.now }
    requires shown { ArePlaces (length lines.now) shown.now }
    requires carried { 0 < base
        → noted_values pass.old.notes.items ≡ values_of (steps_of lines.now) (base - 1) }
    ensures notes { OnOk result (states pass.new.notes.items
        ≡ walk_places (values_of (steps_of lines.now)) base (states pass.old.notes.items)
        block.now) }
    ensures len { OnOk result (length pass.new.notes.items ≡ length pass.old.notes.items) }
    ensures rows { OnOk result (rows_of pass.new.rows.items ≡ rows_of pass.old.rows.items
        ++ rows_from (label_of (steps_of lines.now) shown.now) base block.now) }
    ensures carried { OnOk result (noted_values pass.new.notes.items
        ≡ values_of (steps_of lines.now) ((base + length block.now) - 1)) }
{
    let words = fold_block(alloc, lines, base)?;
    let starts = starts_of(&words, &pass.notes, shown, base);
    push_rows(alloc, &mut pass.rows, starts, &words, shown, block)?;
    note_all(&mut pass.notes, &words, block)?;
    Ok(())
}

/// Returns what a pass over the visited numbers notes of each line, and the rows.
///
/// A line may take the values of those before it. It is noted at the visited numbers at which its
/// value isn't what it was at the number before, or isn't false at the first. A row begins at the
/// first number, and where one of the lines shown changes; it says which of them are true, each by
/// its place in `shown`.
///
/// O(s + k) time for each 64 numbers, with s steps in all and k lines shown, and O(k) for each row;
/// memory for what is noted, for the rows and for a word for each line. It is refused where there
/// is none.
pub fn one_pass(
    alloc: Global,
    visited: &[i64],
    lines: &[LineSteps],
    shown: &[usize],
) -> Result<Pass, NoMemory>
    requires { ArePlaces (length lines.now) shown.now }
    ensures notes { IfOk result (λ pass. states pass.notes.items
        ≡ walk_places (values_of (steps_of lines.now)) 0 (no_notes (steps_of lines.now))
        visited.now) }
    ensures rows { IfOk result (λ pass. rows_of pass.rows.items
        ≡ rows_from (label_of (steps_of lines.now) shown.now) 0 visited.now) }
{
    let mut pass = Pass {
        notes: nothing_noted(alloc, lines)?,
        rows: Vec::new(alloc),
    };
    let mut base = 0;
    while base < visited.len() {
        let size = min(visited.len() - base, 64);
        let block = &visited[base..base + size];
        pass_block(alloc, &mut pass, lines, shown, base, block)?;
        base += size;
    }
    Ok(pass)
}
