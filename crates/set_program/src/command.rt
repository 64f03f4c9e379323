//! What the words of the command line ask for.
ghost use Rattle.std.specs.Prelude.{ℕ, [], ◌∷◌, MatchOption};
ghost use Rattle.set_program.specs.Command.{AskFor, AskForDocument, IsLineCount};
ghost use Rattle.set_program.specs.declared.command.Document.{Document};

use crate::arguments::Argument;
use set_document::read_number;

/// What a text is read as.
#[derive(Clone, Copy, Debug, PartialEq, Eq)]
pub enum Document {
    /// Named sets, without words.
    Sets,
    /// Address rules, with the word `rules`.
    Rules,
}

/// What a run is asked for.
#[derive(Clone, Copy, Debug, PartialEq, Eq)]
pub enum Command {
    /// The answer of the text that the source has, as a document of this kind.
    Answer(Document),
    /// The counts of the answer to the sample text of so many lines.
    Sample(usize),
}

// The number of lines that a word asks for: a decimal from 1 to 1000 without leading zeros.
fn line_count(word: &[u8]) -> Option<usize>
    ensures { MatchOption result ((lines : ℕ) → IsLineCount word.now lines → ⊥)
        (IsLineCount word.now) }
{
    let count = read_number(word)?;
    if 1 <= count && count <= 1000 {
        Some(count as usize)
    } else {
        None
    }
}

// The kind of document that a word alone asks for.
fn named_document(word: &[u8]) -> Option<Document>
    ensures { MatchOption result ((kind : Document) → AskForDocument (word.now ∷ []) kind → ⊥)
        (AskForDocument (word.now ∷ [])) }
{
    if word == b"rules".as_slice() {
        Some(Document::Rules)
    } else {
        None
    }
}

/// Returns what the words ask for: no word for the answer of named sets, `rules` alone for that of
/// address rules, `sample` and a decimal from 1 to 1000 for the counts of a sample. `None` where
/// they are anything else. O(n) for words of n bytes, takes no memory.
pub fn read_command(words: &[Argument]) -> Option<Command>
    ensures { AskFor words.now result }
{
    match words {
        [] => Some(Command::Answer(Document::Sets)),
        [name] => Some(Command::Answer(named_document(name.as_bytes())?)),
        [name, count] if name.as_bytes() == b"sample".as_slice() => {
            Some(Command::Sample(line_count(count.as_bytes())?))
        }
        _ => None,
    }
}
