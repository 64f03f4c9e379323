//! The sample text of so many lines.
ghost use Rattle.std.specs.Prelude.{◌≡◌, ◌++◌, ◌<◌, ◌≤◌, OnOk, IfOk};
ghost use Rattle.set_document.specs.Faults.{IsWellFormed};
ghost use Rattle.set_document.specs.Sample.{sample, sample_line, sample_name, sample_range, sample_words};

use element_core::NoMemory;
use std::alloc::Global;
use std::io::Write;

// Writes the name of the line at a place.
fn push_sample_name(out: &mut Vec<u8>, place: usize) -> Result<(), NoMemory>
    requires { place < 1000 }
    ensures { OnOk result (out.new.items ≡ out.old.items ++ sample_name place) }
{
    let name = [
        b'a' + (place / 676) as u8,
        b'a' + (place / 26 % 26) as u8,
        b'a' + (place % 26) as u8,
    ];
    out.extend_from_slice(&name)?;
    Ok(())
}

// Writes the range of the line at a place.
fn push_sample_range(out: &mut Vec<u8>, place: usize) -> Result<(), NoMemory>
    requires { place < 1000 }
    ensures { OnOk result (out.new.items ≡ out.old.items ++ sample_range place) }
{
    write!(out, "{}..={}", 10 * place, 10 * place + 25).map_err(|_| NoMemory)
}

// Writes the words of the line at a place.
fn push_sample_words(out: &mut Vec<u8>, place: usize) -> Result<(), NoMemory>
    requires { place < 1000 }
    ensures { OnOk result (out.new.items ≡ out.old.items ++ sample_words place) }
{
    if place % 4 == 0 {
        return push_sample_range(out, place);
    }
    if place % 4 == 3 {
        push_sample_name(out, place - 1)?;
        out.extend_from_slice(b" ! ")?;
        push_sample_range(out, place)?;
        out.extend_from_slice(b" &")?;
        return Ok(());
    }
    push_sample_range(out, place)?;
    out.extend_from_slice(b" ")?;
    push_sample_name(out, place - 1)?;
    out.extend_from_slice(if place % 4 == 1 { b" |" } else { b" ^" })?;
    Ok(())
}

// Writes the line at a place.
fn push_sample_line(out: &mut Vec<u8>, place: usize) -> Result<(), NoMemory>
    requires { place < 1000 }
    ensures { OnOk result (out.new.items ≡ out.old.items ++ sample_line place) }
{
    push_sample_name(out, place)?;
    out.extend_from_slice(b": ")?;
    push_sample_words(out, place)?;
    out.extend_from_slice(b"\n")?;
    Ok(())
}

/// Returns a text of so many lines without a fault, to try the program on: line k, from 0, is a
/// name of three letters and the range from 10k to 10k + 25, which most lines join with the line
/// before.
/// `sample_text(alloc, 2)` is `aaa: 0..=25` and `aab: 10..=35 aaa |`, each with a line feed.
///
/// O(n) time and memory in the number of lines.
pub fn sample_text(alloc: Global, lines: usize) -> Result<Vec<u8>, NoMemory>
    requires { lines ≤ 1000 }
    ensures text { IfOk result (λ bytes. bytes.items ≡ sample lines) }
    ensures well_formed { IsWellFormed (sample lines) }
{
    let mut out = Vec::new(alloc);
    for place in 0..lines {
        push_sample_line(&mut out, place)?;
    }
    Ok(out)
}
