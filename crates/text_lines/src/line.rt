//! Cuts a text into lines, and a line into words.
ghost use Rattle.std.specs.Prelude.{◌≡◌, ◌+◌, ◌<◌, ◌≤◌, ◌==◌, ◌∷◌, length, List, Option, Some, option_copied};
ghost use Rattle.std.specs.List.{position_or_len};
ghost use Rattle.text_lines.specs.Lines.{lines, words, left_len};

/// Returns the index of the first such byte of a piece, or the piece's length where there is none.
/// O(n) time, no memory.
pub fn first_place(piece: &[u8], byte: u8) -> usize
    ensures place { result ≡ position_or_len (λ c. c == byte) piece.now }
    ensures bound { result ≤ length piece.now }
{
    let mut at = 0;
    while at < piece.len() && piece[at] != byte {
        at += 1;
    }
    at
}

/// Returns the first piece between single spaces, and what follows the space behind it: `None`
/// where there is no space. O(n) time in the length of the piece, no memory.
pub fn cut_piece<'t>(bytes: &'t [u8]) -> (&'t [u8], Option<&'t [u8]>)
    ensures cut { words (Some bytes.now) ≡ result.0.now ∷ words (option_copied result.1) }
    ensures shorter { left_len (option_copied result.1) ≤ length bytes.now }
{
    let at = first_place(bytes, b' ');
    if at < bytes.len() {
        (&bytes[..at], Some(&bytes[at + 1..]))
    } else {
        (bytes, None)
    }
}

/// Returns the first line of a text, with its line feed where it has one, and what follows it. The
/// text isn't empty. O(n) time in the length of the line, no memory.
pub fn cut_line<'t>(text: &'t [u8]) -> (&'t [u8], &'t [u8])
    requires { 0 < length text.now }
    ensures lines { lines text.now ≡ result.0.now ∷ lines result.1.now }
    ensures shorter { length result.1.now < length text.now }
{
    let at = first_place(text, b'\n');
    if at < text.len() {
        text.split_at(at + 1)
    } else {
        text.split_at(at)
    }
}
