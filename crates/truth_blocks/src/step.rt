//! One step of a line, at 64 places at once: bit i of a word is the truth at the i-th of them.
ghost use Rattle.std.specs.Prelude.{◌≡◌, ℕ, ◌+◌, ◌<◌, ◌++◌, ◌∷◌, [], ◌&&◌, nat_le, nat_lt, OnOk, MatchOption, length, List};
ghost use Rattle.truth_blocks.specs.Blocks.{is_one, IsBlockStep};

use element_core::NoMemory;
use std::cmp::min;

/// What a word of a line does to a stack of truth values, at the places of the visited numbers.
#[derive(Clone, Copy)]
pub enum Step {
    /// Pushes true from one place up to another, and false elsewhere.
    Literal { from: usize, to: usize },
    /// Pushes false.
    Empty,
    /// Pushes true.
    Full,
    /// Pushes what the earlier line at this place gives.
    Line(usize),
    /// Puts the other value in place of the last one.
    Not,
    /// Puts whether one of the last two is true in their place.
    Or,
    /// Puts whether both of the last two are true in their place.
    And,
    /// Puts whether the first of the last two is true and the second isn't in their place.
    Minus,
    /// Puts whether just one of the last two is true in their place.
    Xor,
}

fn push_word(stack: &mut Vec<u64>, word: u64) -> Result<(), NoMemory>
    ensures { OnOk result (stack.new.items ≡ stack.old.items ++ word ∷ []) }
{
    stack.push(word)?;
    Ok(())
}

// The last two words, taken off; where there are fewer, they stay.
fn pop_two(stack: &mut Vec<u64>) -> Option<(u64, u64)>
    ensures { MatchOption result
        ((length stack.old.items < 2) × (stack.new.items ≡ stack.old.items))
        (λ p. stack.old.items ≡ stack.new.items ++ p.0 ∷ p.1 ∷ []) }
{
    if stack.len() < 2 {
        return None;
    }
    let second = stack.pop()?;
    let first = stack.pop()?;
    Some((first, second))
}

// Ones at the places from `from` up to `to`, of the 64 places from `base` on.
fn literal_word(from: usize, to: usize, base: usize) -> u64
    ensures { (i : ℕ) → i < 64
        → is_one result i ≡ (nat_le from (base + i) && nat_lt (base + i) to) }
{
    let low = from.saturating_sub(base);
    let high = min(to.saturating_sub(base), 64);
    if low < high {
        return (u64::MAX << low) & (u64::MAX >> (64 - high));
    }
    0
}

// What one step does to the words of the stack.
#[tactic(auto, using(crate::proofs::BitLemmas::bits, std::proofs::lemmas::Grind::common_steps))]
pub(crate) fn apply_step(
    stack: &mut Vec<u64>,
    lines: &[u64],
    base: usize,
    step: Step,
) -> Result<(), NoMemory>
    ensures { OnOk result (IsBlockStep base lines.now step stack.old.items stack.new.items) }
{
    match step {
        Step::Literal { from, to } => push_word(stack, literal_word(from, to, base)),
        Step::Empty => push_word(stack, 0),
        Step::Full => push_word(stack, u64::MAX),
        Step::Line(place) => match lines.get(place) {
            Some(word) => push_word(stack, *word),
            None => push_word(stack, 0),
        },
        Step::Not => match stack.pop() {
            Some(word) => push_word(stack, !word),
            None => Ok(()),
        },
        Step::Or => match pop_two(stack) {
            Some((first, second)) => push_word(stack, first | second),
            None => Ok(()),
        },
        Step::And => match pop_two(stack) {
            Some((first, second)) => push_word(stack, first & second),
            None => Ok(()),
        },
        Step::Minus => match pop_two(stack) {
            Some((first, second)) => push_word(stack, first & !second),
            None => Ok(()),
        },
        Step::Xor => match pop_two(stack) {
            Some((first, second)) => push_word(stack, first ^ second),
            None => Ok(()),
        },
    }
}
