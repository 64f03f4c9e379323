//! Writes what is known of rules.
ghost use Rattle.std.specs.Prelude.{◌≡◌, ◌++◌, OnOk, IfOk, map, length, unwrap_or, false};
ghost use Rattle.number_line.specs.Rows.{segment_of};
ghost use Rattle.rule_table.specs.Answer.{address_text, range_text, decision_text, segments_text, block_text, blocks_text, tilings_text, dead_line, dead_text, table_text};
ghost use Rattle.rule_table.specs.Tiling.{tiling};
ghost use Rattle.rule_table.specs.Rules.{rules_in_numbers};

use crate::blocks::least_length;
use crate::rule::{Decision, Rule};
use crate::segments::decision_segments;
use crate::table::RuleTable;
use blaze_joins::RangeMapBlaze;
use element_core::NoMemory;
use range_map::Range;
use std::alloc::Global;
use std::io::Write;

// Writes an address as four decimals joined by dots.
fn push_address(out: &mut Vec<u8>, a: u32) -> Result<(), NoMemory>
    ensures { OnOk result (out.new.items ≡ out.old.items ++ address_text a) }
{
    write!(
        out,
        "{}.{}.{}.{}",
        a / 16_777_216,
        a / 65_536 % 256,
        a / 256 % 256,
        a % 256
    )
    .map_err(|_| NoMemory)
}

// Writes a range as its first and last address.
fn push_range(out: &mut Vec<u8>, range: &Range<u32>) -> Result<(), NoMemory>
    ensures { OnOk result (out.new.items ≡ out.old.items ++ range_text range.now) }
{
    push_address(out, range.start())?;
    out.extend_from_slice(b"-")?;
    push_address(out, range.end())
}

// Writes a decision as one word.
fn push_decision(out: &mut Vec<u8>, decision: Option<Decision>) -> Result<(), NoMemory>
    ensures { OnOk result (out.new.items ≡ out.old.items ++ decision_text decision) }
{
    match decision {
        None => out.extend_from_slice(b"none")?,
        Some(Decision::Allow) => out.extend_from_slice(b"allow")?,
        Some(Decision::Deny) => out.extend_from_slice(b"deny")?,
    }
    Ok(())
}

// Writes the segments in order.
fn push_segments(
    out: &mut Vec<u8>,
    segments: &RangeMapBlaze<u32, Option<Decision>>,
) -> Result<(), NoMemory>
    ensures { OnOk result
        (out.new.items ≡ out.old.items ++ segments_text (map segment_of segments.now)) }
{
    for (range, decision) in segments.range_values() {
        push_range(out, range)?;
        out.extend_from_slice(b" ")?;
        push_decision(out, *decision)?;
        out.extend_from_slice(b"\n")?;
    }
    Ok(())
}

// Writes a block as its first address and its length.
fn push_block(out: &mut Vec<u8>, first: u32, length: u32) -> Result<(), NoMemory>
    ensures { OnOk result (out.new.items ≡ out.old.items ++ block_text (first, length)) }
{
    out.extend_from_slice(b"block ")?;
    push_address(out, first)?;
    write!(out, "/{length}\n").map_err(|_| NoMemory)
}

// Writes the blocks that tile a range.
fn push_blocks(out: &mut Vec<u8>, range: &Range<u32>) -> Result<(), NoMemory>
    ensures { OnOk result
        (out.new.items ≡ out.old.items ++ blocks_text (tiling range.now.0 range.now.1)) }
{
    let end = u64::from(range.end()) + 1;
    let mut at = u64::from(range.start());
    while at < end {
        let length = least_length(at, end);
        push_block(out, at as u32, length)?;
        at += 1 << (32 - length);
    }
    Ok(())
}

// Writes the blocks of the segments that are allowed, in order.
fn push_tilings(
    out: &mut Vec<u8>,
    segments: &RangeMapBlaze<u32, Option<Decision>>,
) -> Result<(), NoMemory>
    ensures { OnOk result
        (out.new.items ≡ out.old.items ++ tilings_text (map segment_of segments.now)) }
{
    for (range, decision) in segments.range_values() {
        if matches!(decision, Some(Decision::Allow)) {
            push_blocks(out, range)?;
        }
    }
    Ok(())
}

// Writes the line of a rule, where it is dead.
fn push_dead_line(out: &mut Vec<u8>, dead: Option<bool>, line: usize) -> Result<(), NoMemory>
    ensures { OnOk result
        (out.new.items ≡ out.old.items ++ dead_line (unwrap_or dead false) line) }
{
    match dead {
        Some(true) => write!(out, "dead {line}\n").map_err(|_| NoMemory),
        _ => Ok(()),
    }
}

// Writes the lines of the dead rules in order.
fn push_dead(out: &mut Vec<u8>, table: &RuleTable, lines: &[usize]) -> Result<(), NoMemory>
    requires { length lines.now ≡ length table.now }
    ensures { OnOk result (out.new.items ≡ out.old.items ++ dead_text table.now 0 lines.now) }
{
    for (place, line) in lines.iter().enumerate() {
        push_dead_line(out, table.is_dead(place), *line)?;
    }
    Ok(())
}

// Writes all that is known of rules that stand on those lines: the segments of the decision, the
// blocks of those that are allowed, and the dead rules.
pub(crate) fn print_table(
    alloc: Global,
    rules: &[Rule],
    lines: &[usize],
) -> Result<Vec<u8>, NoMemory>
    requires { length lines.now ≡ length rules.now }
    ensures { IfOk result (λ out. out.items ≡ table_text (rules_in_numbers rules.now) lines.now) }
{
    let table = RuleTable::build(alloc, rules)?;
    let segments = decision_segments(alloc, rules)?;
    let mut out = Vec::new(alloc);
    push_segments(&mut out, &segments)?;
    push_tilings(&mut out, &segments)?;
    push_dead(&mut out, &table, lines)?;
    Ok(out)
}
