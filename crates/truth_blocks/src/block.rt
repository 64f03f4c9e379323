//! All lines at 64 places at once.
ghost use Rattle.std.specs.Prelude.{◌≡◌, ℕ, ◌+◌, ◌<◌, IfOk};
ghost use Rattle.truth_blocks.specs.Blocks.{is_one, bits, line_value, steps_of, values_of};

use crate::step::{Step, apply_step};
use element_core::NoMemory;
use std::alloc::Global;

/// The steps of a line.
#[derive(Drop)]
pub struct LineSteps {
    /// The steps, in the order in which they are done.
    pub steps: Vec<Step>,
}

// What the steps of a line leave: bit i is what the line gives at the i-th place from `base` on.
pub(crate) fn fold_line(
    stack: &mut Vec<u64>,
    lines: &[u64],
    base: usize,
    steps: &[Step],
) -> Result<u64, NoMemory>
    ensures { IfOk result (λ word. (i : ℕ) → i < 64
        → is_one word i ≡ line_value (bits i lines.now) (base + i) steps.now) }
{
    stack.clear();
    for step in steps {
        apply_step(stack, lines, base, *step)?;
    }
    match stack.pop() {
        Some(word) => Ok(word),
        None => Ok(0),
    }
}

// The word of each line, at the 64 places from `base` on.
pub(crate) fn fold_block(
    alloc: Global,
    lines: &[LineSteps],
    base: usize,
) -> Result<Vec<u64>, NoMemory>
    ensures { IfOk result (λ words. (i : ℕ) → i < 64
        → bits i words.items ≡ values_of (steps_of lines.now) (base + i)) }
{
    let mut stack = Vec::new(alloc);
    let mut words = Vec::with_capacity(alloc, lines.len())?;
    for line in lines {
        let word = fold_line(&mut stack, &words, base, &line.steps)?;
        words.push(word)?;
    }
    Ok(words)
}
