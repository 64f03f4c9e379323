//! Reads the form of a line.
ghost use Rattle.std.specs.Prelude.{◌≡◌, List, Option, option_copied};
ghost use Rattle.rule_table.specs.Text.{form, body_form, form_by, after_word, ruling, addresses};
ghost use Rattle.rule_table.specs.Shown.{shown_form};

use crate::address::read_addresses;
use crate::rule::Decision;

// The form of a line. The addresses of a rule go from the first to the last, and may be reversed.
#[derive(Clone, Copy, PartialEq, Eq, Debug)]
pub(crate) enum RuleLine {
    Comment,
    Ruling(Decision, u32, u32),
    Bad,
}

// Reads a rule behind its first word.
fn read_ruling(decision: Decision, piece: &[u8]) -> RuleLine
    ensures { shown_form result ≡ ruling decision (addresses piece.now) }
{
    match read_addresses(piece) {
        Some((first, last)) => RuleLine::Ruling(decision, first, last),
        None => RuleLine::Bad,
    }
}

// What follows a word at the front.
fn after_word<'t>(word: &[u8], body: &'t [u8]) -> Option<&'t [u8]>
    ensures { option_copied result ≡ after_word word.now body.now }
{
    if word.len() <= body.len() && &body[..word.len()] == word {
        Some(&body[word.len()..])
    } else {
        None
    }
}

// Reads a rule by what follows `allow ` and by what follows `deny `.
fn read_by(allowed: Option<&[u8]>, denied: Option<&[u8]>) -> RuleLine
    ensures { shown_form result
        ≡ form_by (option_copied allowed.entry) (option_copied denied.entry) }
{
    match (allowed, denied) {
        (Some(piece), _) => read_ruling(Decision::Allow, piece),
        (None, Some(piece)) => read_ruling(Decision::Deny, piece),
        (None, None) => RuleLine::Bad,
    }
}

// Reads a line without its line feed.
fn read_body(body: &[u8]) -> RuleLine
    ensures { shown_form result ≡ body_form body.now }
{
    match body {
        [b'#', ..] => RuleLine::Comment,
        _ => read_by(
            after_word(b"allow ".as_slice(), body),
            after_word(b"deny ".as_slice(), body),
        ),
    }
}

// Reads a line, given with its line feed where it has one.
pub(crate) fn read_line(line: &[u8]) -> RuleLine
    ensures { shown_form result ≡ form line.now }
{
    match line {
        [body @ .., b'\n'] => read_body(body),
        _ => RuleLine::Bad,
    }
}
