//! Reads the numbers of a text, each in its one form.
ghost use Rattle.std.specs.Prelude.{◌≡◌, List, Option};
ghost use Rattle.std.specs.Str.{all_ascii_digits};
ghost use Rattle.text_lines.specs.Decimals.{is_decimal, has_number_form, number_between};

use std::str;

// Whether every byte is a digit.
fn all_digits(piece: &[u8]) -> bool
    ensures { result ≡ all_ascii_digits piece.now }
{
    for c in piece {
        if !c.is_ascii_digit() {
            return false;
        }
    }
    true
}

// Whether the piece is `0`, or digits of which the first is not `0`.
fn is_decimal(piece: &[u8]) -> bool
    ensures { result ≡ is_decimal piece.now }
{
    match piece {
        [] => false,
        [c] => c.is_ascii_digit(),
        [c, ..] => *c != b'0' && all_digits(piece),
    }
}

// Whether the piece is a decimal, or `-` and a decimal that is not `0`.
fn has_number_form(piece: &[u8]) -> bool
    ensures { result ≡ has_number_form piece.now }
{
    match piece {
        [] => false,
        [b'-', rest @ ..] => is_decimal(rest) && rest != b"0".as_slice(),
        _ => is_decimal(piece),
    }
}

/// Returns the `i64` that a piece writes in its one form: `0`, or an optional `-`, a digit 1 to 9
/// and further digits. `None` where the piece has another form, and where the number is no `i64`.
/// O(n) time, no memory.
pub fn read_i64(piece: &[u8]) -> Option<i64>
    ensures { result ≡ number_between i64.MIN i64.MAX piece.now }
{
    if !has_number_form(piece) {
        return None;
    }
    match str::from_utf8(piece) {
        Ok(text) => text.parse().ok(),
        Err(_) => None,
    }
}
