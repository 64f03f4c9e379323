//! Reads addresses.
ghost use Rattle.std.specs.Prelude.{◌≡◌, ◌≤◌, ◌<◌, pos, unsigned_abs, if◌then◌else◌, IfSome, option_map, Some, None};
ghost use Rattle.text_lines.specs.Decimals.{is_between};
ghost use Rattle.rule_table.specs.Text.{decimal_up_to, part, address, span, block, addresses, joined};

use text_lines::{first_place, read_i64};

// The number where it lies from 0 to `most`.
fn within(most: u32, number: i64) -> Option<u32>
    ensures { result ≡ (if is_between (pos 0) (pos most) number
        then Some (unsigned_abs number) else None) }
{
    if 0 <= number && number <= i64::from(most) {
        Some(number as u32)
    } else {
        None
    }
}

// Reads a number of at most `most` in decimal without leading zeros.
fn read_decimal(most: u32, piece: &[u8]) -> Option<u32>
    ensures value { result ≡ decimal_up_to most piece.now }
    ensures bound { IfSome result (λ n. n ≤ most) }
{
    let number = read_i64(piece)?;
    within(most, number)
}

// Reads a decimal that a dot follows, and answers what stands behind the dot with it.
fn read_part<'t>(piece: &'t [u8]) -> Option<(u32, &'t [u8])>
    ensures value { option_map (λ read. (read.0, read.1.now)) result ≡ part piece.now }
    ensures bound { IfSome result (λ read. read.0 < 256) }
{
    let at = first_place(piece, b'.');
    if at < piece.len() {
        let number = read_decimal(255, &piece[..at])?;
        Some((number, &piece[at + 1..]))
    } else {
        None
    }
}

// Reads four decimals joined by dots.
fn read_address(piece: &[u8]) -> Option<u32>
    ensures { result ≡ address piece.now }
{
    let (a, rest) = read_part(piece)?;
    let (b, rest) = read_part(rest)?;
    let (c, rest) = read_part(rest)?;
    let d = read_decimal(255, rest)?;
    Some(((a * 256 + b) * 256 + c) * 256 + d)
}

// From one address to another.
fn span(first: Option<u32>, last: Option<u32>) -> Option<(u32, u32)>
    ensures { result ≡ span first last }
{
    match (first, last) {
        (Some(a), Some(b)) => Some((a, b)),
        _ => None,
    }
}

// The block at an address, where the lowest bits of the address are zero.
fn block_at(a: u32, n: u32) -> Option<(u32, u32)>
    requires { n ≤ 32 }
    ensures { result ≡ block (Some a) (Some n) }
{
    let size = 1u64 << (32 - n);
    let first = u64::from(a);
    if first % size != 0 {
        return None;
    }
    Some((a, (first + (size - 1)) as u32))
}

// The block of a first address and a length.
fn block(first: Option<u32>, length: Option<u32>) -> Option<(u32, u32)>
    requires { IfSome length (λ n. n ≤ 32) }
    ensures { result ≡ block first length }
{
    match (first, length) {
        (Some(a), Some(n)) => block_at(a, n),
        _ => None,
    }
}

// Reads the first and the last address that a piece writes as `A-B`, `A/n` or `A`. They may be
// reversed.
pub(crate) fn read_addresses(piece: &[u8]) -> Option<(u32, u32)>
    ensures { result ≡ addresses piece.now }
{
    let dash = first_place(piece, b'-');
    if dash < piece.len() {
        return span(
            read_address(&piece[..dash]),
            read_address(&piece[dash + 1..]),
        );
    }
    let slash = first_place(piece, b'/');
    if slash < piece.len() {
        return block(
            read_address(&piece[..slash]),
            read_decimal(32, &piece[slash + 1..]),
        );
    }
    let a = read_address(piece)?;
    Some((a, a))
}
