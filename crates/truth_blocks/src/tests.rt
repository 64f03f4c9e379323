//! A line that changes at the last number of a block and at the first of the next one.
use crate::{LineSteps, Pass, Step, one_pass};
use element_core::NoMemory;
use std::alloc::Global;
use std::test::Fail;

fn line(alloc: Global, steps: &[Step]) -> Result<LineSteps, NoMemory> {
    let mut list = Vec::new(alloc);
    list.extend_from_slice(steps)?;
    Ok(LineSteps { steps: list })
}

// The first line is true at the places 63 and 64, and the second one is its negation.
fn pass_over(alloc: Global, count: i64) -> Result<Pass, NoMemory> {
    let mut visited = Vec::new(alloc);
    for number in 0..count {
        visited.push(number)?;
    }
    let mut lines = Vec::new(alloc);
    lines.push(line(alloc, &[Step::Literal { from: 63, to: 65 }])?)?;
    lines.push(line(alloc, &[Step::Line(0), Step::Not])?)?;
    one_pass(alloc, &visited, &lines, &[0, 1])
}

#[test]
fn a_change_at_each_border_is_noted(rt: HostRuntime) -> Result<(), Fail> {
    for (count, first, second) in [
        (63, [].as_slice(), [0].as_slice()),
        (64, [63].as_slice(), [0, 63].as_slice()),
        (65, [63].as_slice(), [0, 63].as_slice()),
        (66, [63, 65].as_slice(), [0, 63, 65].as_slice()),
    ] {
        let pass = pass_over(rt.alloc(), count)?;
        assert!(&rt;
            pass.notes.len() == 2 && pass.rows.len() == second.len(),
            "{count}"
        );
        if let Some(noted) = pass.notes.first() {
            assert!(&rt; noted.numbers.as_slice() == first, "{count}");
        }
        if let Some(noted) = pass.notes.last() {
            assert!(&rt; noted.numbers.as_slice() == second, "{count}");
        }
        for (row, number) in pass.rows.iter().zip(second) {
            assert!(&rt; row.first == *number && row.held.len() == 1, "{count}");
        }
    }
    Ok(())
}
