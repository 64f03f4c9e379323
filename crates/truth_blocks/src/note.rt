//! What is noted of the lines: the numbers at which the value of each isn't what it was before.
ghost use Rattle.std.specs.Prelude.{◌≡◌, ℕ, ◌+◌, ◌<◌, ◌≤◌, ◌++◌, ◌∷◌, [], IfOk, OnOk, List, length};
ghost use Rattle.truth_blocks.specs.Blocks.{is_one, steps_of};
ghost use Rattle.truth_blocks.specs.Notes.{is_change, items_at_ones, no_notes, note_from, note_words, state, states};

use crate::block::LineSteps;
use element_core::NoMemory;
use std::alloc::Global;

/// What is noted of a line.
#[derive(Drop)]
pub struct Noted {
    /// The line's value at the last visited number; false before the first.
    pub value: bool,
    /// The visited numbers at which its value changed, ascending.
    pub numbers: Vec<i64>,
}

// Nothing noted yet of each line.
pub(crate) fn nothing_noted(alloc: Global, lines: &[LineSteps]) -> Result<Vec<Noted>, NoMemory>
    ensures { IfOk result (λ notes. states notes.items ≡ no_notes (steps_of lines.now)) }
{
    let mut notes = Vec::with_capacity(alloc, lines.len())?;
    for _line in lines {
        notes.push(Noted {
            value: false,
            numbers: Vec::new(alloc),
        })?;
    }
    Ok(notes)
}

// Ones where a word's bit isn't the one before it; before the first stands `before`.
pub(crate) fn changes(word: u64, before: bool) -> u64
    ensures { (i : ℕ) → i < 64 → is_one result i ≡ is_change word before i }
{
    word ^ ((word << 1) | before as u64)
}

// The numbers of the block that stand at the ones of a word.
fn push_picked(numbers: &mut Vec<i64>, word: u64, block: &[i64]) -> Result<(), NoMemory>
    requires { length block.now ≤ 64 }
    ensures { OnOk result
        (numbers.new.items ≡ numbers.old.items ++ items_at_ones word 0 block.now) }
{
    let mut left = word;
    while left != 0 {
        let place = left.trailing_zeros();
        if place as usize >= block.len() {
            return Ok(());
        }
        numbers.push(block[place as usize])?;
        left &= !(1 << place);
    }
    Ok(())
}

// The notes of a line, after the numbers of a block at which it has the bits of `word`.
fn note_block(noted: &mut Noted, word: u64, block: &[i64]) -> Result<(), NoMemory>
    requires some { 0 < length block.now }
    requires within { length block.now ≤ 64 }
    ensures { OnOk result
        (state noted.new ≡ note_from (is_one word) 0 (state noted.old) block.now) }
{
    push_picked(&mut noted.numbers, changes(word, noted.value), block)?;
    noted.value = (word >> (block.len() - 1)) & 1 == 1;
    Ok(())
}

// The notes of all lines after a block at which each line has the bits of its word.
pub(crate) fn note_all(notes: &mut Vec<Noted>, words: &[u64], block: &[i64]) -> Result<(), NoMemory>
    requires some { 0 < length block.now }
    requires within { length block.now ≤ 64 }
    requires each { length notes.old.items ≡ length words.now }
    ensures notes { OnOk result
        (states notes.new.items ≡ note_words words.now (states notes.old.items) block.now) }
    ensures len { length notes.new.items ≡ length notes.old.items }
{
    let mut i = 0;
    while i < notes.len() {
        note_block(&mut notes[i], words[i], block)?;
        i += 1;
    }
    Ok(())
}
