//! The rows: where one of the lines that are shown changes, 64 numbers at a time.
ghost use Rattle.std.specs.Prelude.{◌≡◌, ℕ, ◌+◌, ◌<◌, ◌≤◌, ◌++◌, ◌∷◌, [], ◌||◌, if◌then◌else◌, false, IfOk, OnOk, List, length, map, get_or, slice_index};
ghost use Rattle.std.specs.List.{AllByRecursion, list_any};
ghost use Rattle.truth_blocks.specs.Blocks.{is_one, bits};
ghost use Rattle.truth_blocks.specs.Notes.{is_change, items_at_ones, noted_values};
ghost use Rattle.truth_blocks.specs.Rows.{places_of_true, numbers_with_labels, rows_of, starts, ArePlaces};

use crate::note::{Noted, changes};
use element_core::NoMemory;
use std::alloc::Global;

/// A row: where it begins, and which of the lines that are shown are true from there on.
#[derive(Drop)]
pub struct Row {
    /// The number at which the row begins.
    pub first: i64,
    /// The places, among the lines that are shown, of those that are true, ascending.
    pub held: Vec<usize>,
}

// Ones where the line at this place changes.
fn change_of(words: &[u64], notes: &[Noted], line: usize) -> u64
    requires within { line < length words.now }
    requires each { length notes.now ≡ length words.now }
    ensures { (i : ℕ) → i < 64 → is_one result i
        ≡ is_change (slice_index words.now line) (get_or (noted_values notes.now) line false) i }
{
    changes(words[line], notes[line].value)
}

// Ones where one of these lines changes.
fn changed(words: &[u64], notes: &[Noted], shown: &[usize]) -> u64
    requires within { ArePlaces (length words.now) shown.now }
    requires each { length notes.now ≡ length words.now }
    ensures { (i : ℕ) → i < 64 → is_one result i ≡ list_any (λ line.
        is_change (slice_index words.now line) (get_or (noted_values notes.now) line false) i)
        shown.now }
{
    let mut all = 0;
    for line in shown {
        all |= change_of(words, notes, *line);
    }
    all
}

// Ones where a row begins: at the first place of all, and where one of these lines changes.
pub(crate) fn starts_of(words: &[u64], notes: &[Noted], shown: &[usize], base: usize) -> u64
    requires within { ArePlaces (length words.now) shown.now }
    requires each { length notes.now ≡ length words.now }
    ensures { (i : ℕ) → i < 64
        → is_one result i ≡ starts words.now (noted_values notes.now) shown.now base i }
{
    let all = changed(words, notes, shown);
    if base == 0 {
        return all | 1;
    }
    all
}

fn is_set(word: u64, place: usize) -> bool
    requires { place < 64 }
    ensures { result ≡ is_one word place }
{
    (word >> place) & 1 == 1
}

fn push_if(held: &mut Vec<usize>, place: usize, holds: bool) -> Result<(), NoMemory>
    ensures { OnOk result ((rest : List ℕ)
        → held.new.items ++ rest ≡ held.old.items ++ (if holds then place ∷ rest else rest)) }
{
    if holds {
        held.push(place)?;
        return Ok(());
    }
    Ok(())
}

// How many lines the next row may hold: one more than the last row. It spares room, and no more.
fn room_after(rows: &Vec<Row>) -> usize {
    match rows.last() {
        Some(row) => row.held.len().saturating_add(1),
        None => 0,
    }
}

// The lines that are true at a place of the block, by their places among those that are shown.
fn held_at(
    alloc: Global,
    words: &[u64],
    shown: &[usize],
    place: usize,
    room: usize,
) -> Result<Vec<usize>, NoMemory>
    requires within { ArePlaces (length words.now) shown.now }
    requires place { place < 64 }
    ensures { IfOk result (λ held. held.items ≡ places_of_true (bits place words.now) 0 shown.now) }
{
    let mut held = Vec::with_capacity(alloc, room)?;
    for (k, line) in shown.iter().enumerate() {
        push_if(&mut held, k, is_set(words[*line], place))?;
    }
    Ok(held)
}

// The rows that begin at the ones of `starts`.
pub(crate) fn push_rows(
    alloc: Global,
    rows: &mut Vec<Row>,
    starts: u64,
    words: &[u64],
    shown: &[usize],
    block: &[i64],
) -> Result<(), NoMemory>
    requires within { ArePlaces (length words.now) shown.now }
    requires short { length block.now ≤ 64 }
    ensures { OnOk result (rows_of rows.new.items ≡ rows_of rows.old.items
        ++ items_at_ones starts 0
        (numbers_with_labels (λ i. places_of_true (bits i words.now) 0 shown.now) 0 block.now)) }
{
    let mut left = starts;
    while left != 0 {
        let place = left.trailing_zeros();
        if place as usize >= block.len() {
            return Ok(());
        }
        let room = room_after(rows);
        let held = held_at(alloc, words, shown, place as usize, room)?;
        rows.push(Row {
            first: block[place as usize],
            held,
        })?;
        left &= !(1 << place);
    }
    Ok(())
}
