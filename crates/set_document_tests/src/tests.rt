//! What no contract shows: that the calls answer where memory suffices, and that the definitions
//! say what is meant.
use crate::callers::answered_again;
use element_core::NoMemory;
use set_document::{
    AlgebraError, LineForm, Word, evaluate, evaluate_document, read_line, read_word, truths_at,
};
use std::alloc::Global;
use std::process::Abort;
use std::test::Fail;

// How each table begins: at the least number.
const TABLE: &[u8] = b"# -9223372036854775808..=";

// What is written for a text without its table: its list lines, or its first fault and a line
// feed.
fn lists_of(rt: &impl Abort, alloc: Global, text: &[u8]) -> Result<Vec<u8>, AlgebraError> {
    let mut bytes = match evaluate_document(alloc, text) {
        Ok(bytes) => bytes,
        Err(fault) => return Ok(format!(in alloc; "{fault}\n")?.into_bytes()),
    };
    let table = bytes
        .windows(TABLE.len())
        .position(|window| window == TABLE);
    assert!(rt; table.is_some());
    bytes.truncate(table.unwrap_or(0));
    Ok(bytes)
}

// Each text gives the lists, or the fault, that stand beside it.
fn all_give(rt: &impl Abort, alloc: Global, cases: &[(&str, &str)]) -> Result<(), AlgebraError> {
    for (text, wanted) in cases {
        let got = lists_of(rt, alloc, text.as_bytes())?;
        assert!(rt; got.as_slice() == wanted.as_bytes(), "at {text:?}");
    }
    Ok(())
}

#[test]
fn lists_are_the_maximal_runs(rt: HostRuntime) -> Result<(), AlgebraError> {
    all_give(
        &rt,
        rt.alloc(),
        &[
            ("", ""),
            ("a: 1..=5 4..=8 |\n", "a: 1..=8\n"),
            ("a: 1..=3 4..=6 |\n", "a: 1..=6\n"),
            ("a: 1..=3 5..=6 |\n", "a: 1..=3 5..=6 |\n"),
            ("a: 5..=6 1..=3 |\n", "a: 1..=3 5..=6 |\n"),
            ("a: 1..=5 4..=8 &\n", "a: 4..=5\n"),
            ("a: 1..=5 5..=8 &\n", "a: 5..=5\n"),
            ("a: 1..=4 5..=8 &\n", "a: empty\n"),
            ("a: 1 2 | 3 | 7 |\n", "a: 1..=3 7..=7 |\n"),
            ("a: 1 3 | 5 |\n", "a: 1..=1 3..=3 | 5..=5 |\n"),
            ("a: empty\n", "a: empty\n"),
            ("a: 0 empty |\n", "a: 0..=0\n"),
            ("a: 3 !  !\n", "line 1, word 3: bad word\n"),
            ("a: 3 ! !\n", "a: 3..=3\n"),
            ("a: empty ! !\n", "a: empty\n"),
            ("a: -5..=-1 -3 ! &\n", "a: -5..=-4 -2..=-1 |\n"),
            ("a: 1\na: 2\n", "a: 1..=1\na: 2..=2\n"),
            ("a: 1\n# 2\nb: 3\n", "a: 1..=1\nb: 3..=3\n"),
        ],
    )
}

#[test]
fn the_ends_of_the_type_are_reached(rt: HostRuntime) -> Result<(), AlgebraError> {
    all_give(
        &rt,
        rt.alloc(),
        &[
            (
                "a: full\n",
                "a: -9223372036854775808..=9223372036854775807\n",
            ),
            ("a: full !\n", "a: empty\n"),
            (
                "a: empty !\n",
                "a: -9223372036854775808..=9223372036854775807\n",
            ),
            (
                "a: 9223372036854775807 !\n",
                "a: -9223372036854775808..=9223372036854775806\n",
            ),
            (
                "a: -9223372036854775808..=9223372036854775806 !\n",
                "a: 9223372036854775807..=9223372036854775807\n",
            ),
            (
                "a: -9223372036854775808 !\n",
                "a: -9223372036854775807..=9223372036854775807\n",
            ),
            (
                "a: 9223372036854775807 -9223372036854775808 |\n",
                "a: -9223372036854775808..=-9223372036854775808 \
                9223372036854775807..=9223372036854775807 |\n",
            ),
            (
                "a: -9223372036854775808..=9223372036854775806 9223372036854775807 |\n",
                "a: -9223372036854775808..=9223372036854775807\n",
            ),
            (
                "a: 0 !\n",
                "a: -9223372036854775808..=-1 1..=9223372036854775807 |\n",
            ),
            ("a: 9223372036854775808\n", "line 1, word 1: bad word\n"),
            ("a: -9223372036854775809\n", "line 1, word 1: bad word\n"),
            ("a: 5..=9223372036854775808\n", "line 1, word 1: bad word\n"),
            ("a: 99999999999999999999999\n", "line 1, word 1: bad word\n"),
        ],
    )
}

#[test]
fn each_fault_has_its_line_and_word(rt: HostRuntime) -> Result<(), AlgebraError> {
    all_give(
        &rt,
        rt.alloc(),
        &[
            ("a: 1", "line 1: bad line\n"),
            ("#", "line 1: bad line\n"),
            ("# no line feed", "line 1: bad line\n"),
            ("\n", "line 1: bad line\n"),
            ("a: 1\n\n", "line 2: bad line\n"),
            ("a: 1\r\n", "line 1, word 1: bad word\n"),
            ("A: 1\n", "line 1: bad line\n"),
            ("a:1\n", "line 1: bad line\n"),
            ("a 1\n", "line 1: bad line\n"),
            (" a: 1\n", "line 1: bad line\n"),
            (": 1\n", "line 1: bad line\n"),
            ("empty: 1\n", "line 1: bad line\n"),
            ("full: 1\n", "line 1: bad line\n"),
            ("fuller: 1\n", "fuller: 1..=1\n"),
            ("a: \n", "line 1, word 1: bad word\n"),
            ("a:\n", "line 1: not one set\n"),
            ("a: 1  2\n", "line 1, word 2: bad word\n"),
            ("a: 1 \n", "line 1, word 2: bad word\n"),
            ("a: 01\n", "line 1, word 1: bad word\n"),
            ("a: -0\n", "line 1, word 1: bad word\n"),
            ("a: +5\n", "line 1, word 1: bad word\n"),
            ("a: 1..2\n", "line 1, word 1: bad word\n"),
            ("a: 1..=2..=3\n", "line 1, word 1: bad word\n"),
            ("a: 1..=\n", "line 1, word 1: bad word\n"),
            ("a: ..=1\n", "line 1, word 1: bad word\n"),
            ("a: 5..=2\n", "line 1, word 1: reversed range\n"),
            ("a: 1\nb: 5..=2\n", "line 2, word 1: reversed range\n"),
            ("a: !\n", "line 1, word 1: too few sets\n"),
            ("a: |\n", "line 1, word 1: too few sets\n"),
            ("a: 1 &\n", "line 1, word 2: too few sets\n"),
            ("a: 1 |\nB: 1\n", "line 1, word 2: too few sets\n"),
            ("a: 1 2\n", "line 1: not one set\n"),
            ("a: 1 2\nb: x\n", "line 1: not one set\n"),
            ("a: 1 2 x 5..=2\n", "line 1, word 3: unknown name\n"),
            ("a: 5..=2 x\n", "line 1, word 1: reversed range\n"),
            (
                "# \u{e9}\u{0}\n# \t\na: 7 ! !\nb: 1 | 2\n",
                "line 4, word 2: too few sets\n",
            ),
        ],
    )
}

#[test]
fn the_members_of_one_set_alone(rt: HostRuntime) -> Result<(), AlgebraError> {
    all_give(
        &rt,
        rt.alloc(),
        &[
            ("a: 1..=5 4..=8 ^\n", "a: 1..=3 6..=8 |\n"),
            ("a: 1..=5 6..=8 ^\n", "a: 1..=8\n"),
            ("a: 1..=5 1..=5 ^\n", "a: empty\n"),
            ("a: 3 3 -\n", "a: empty\n"),
            ("a: 1..=5 4..=8 -\n", "a: 1..=3\n"),
            ("a: 4..=8 1..=5 -\n", "a: 6..=8\n"),
            (
                "a: full 9223372036854775807 -\n",
                "a: -9223372036854775808..=9223372036854775806\n",
            ),
            (
                "a: full -9223372036854775808 ^\n",
                "a: -9223372036854775807..=9223372036854775807\n",
            ),
            ("a: 1..=9 3 - 5 ^\n", "a: 1..=2 4..=4 | 6..=9 |\n"),
            ("a: 1 -\n", "line 1, word 2: too few sets\n"),
            ("a: ^\n", "line 1, word 1: too few sets\n"),
        ],
    )
}

#[test]
fn a_name_is_the_set_of_its_latest_line(rt: HostRuntime) -> Result<(), AlgebraError> {
    all_give(
        &rt,
        rt.alloc(),
        &[
            ("a: 1\nb: a\n", "a: 1..=1\nb: 1..=1\n"),
            (
                "a: 1..=10\nb: a 5 -\na: 3\n",
                "a: 1..=10\nb: 1..=4 6..=10 |\na: 3..=3\n",
            ),
            (
                "a: 1\na: a 2 |\na: a 3 |\nb: a\n",
                "a: 1..=1\na: 1..=2\na: 1..=3\nb: 1..=3\n",
            ),
            (
                "b: 2\nab: 3\na: 1\nc: a ab |\n",
                "b: 2..=2\nab: 3..=3\na: 1..=1\nc: 1..=1 3..=3 |\n",
            ),
            (
                "web: 80 443 | 8000..=8099 |\nlow: 0..=1023\nopen: web low &\n",
                "web: 80..=80 443..=443 | 8000..=8099 |\nlow: 0..=1023\n\
                open: 80..=80 443..=443 |\n",
            ),
            (
                "a: full\nb: empty\nc: a b ^ !\n",
                "a: -9223372036854775808..=9223372036854775807\nb: empty\nc: empty\n",
            ),
        ],
    )
}

#[test]
fn a_name_is_known_from_the_next_line_on(rt: HostRuntime) -> Result<(), AlgebraError> {
    all_give(
        &rt,
        rt.alloc(),
        &[
            ("a: a\n", "line 1, word 1: unknown name\n"),
            ("a: 1 2 x\n", "line 1, word 3: unknown name\n"),
            ("a: b\nb: 1\n", "line 1, word 1: unknown name\n"),
            ("ab: 1\nb: a\n", "line 2, word 1: unknown name\n"),
            ("a: 1\nb: ab\n", "line 2, word 1: unknown name\n"),
            ("# a: 1\nb: a\n", "line 2, word 1: unknown name\n"),
            ("a: 1\nb: 5..=2 x\n", "line 2, word 1: reversed range\n"),
            ("a: 1 x |\n", "line 1, word 2: unknown name\n"),
        ],
    )
}

#[test]
fn lines_and_words_are_read(rt: HostRuntime) {
    assert!(&rt; matches!(read_line(b"# any bytes\n"), LineForm::Comment));
    assert!(&rt; matches!(read_line(b"# any bytes"), LineForm::Bad));
    assert!(&rt;
        matches!(
        read_line(b"ab: 1 2\n"), LineForm::Named(name, Some(words))
        if name.as_bytes() == b"ab".as_slice() && words == b"1 2".as_slice()
    )
    );
    assert!(&rt; matches!(read_line(b"ab:\n"), LineForm::Named(_, None)));
    assert!(&rt;
        matches!(read_line(b"ab: \n"), LineForm::Named(_, Some(words)) if words.is_empty())
    );
    assert!(&rt; matches!(read_line(b"ab:\n\n"), LineForm::Bad));
    assert!(&rt; matches!(read_line(b""), LineForm::Bad));
    assert!(&rt; matches!(read_word(b"-7"), Some(Word::Number(-7))));
    assert!(&rt; matches!(read_word(b"9..=-7"), Some(Word::Span(9, -7))));
    assert!(&rt; matches!(read_word(b"empty"), Some(Word::Empty)));
    assert!(&rt; matches!(read_word(b"full"), Some(Word::Full)));
    assert!(&rt; matches!(read_word(b"!"), Some(Word::Not)));
    assert!(&rt; matches!(read_word(b"|"), Some(Word::Or)));
    assert!(&rt; matches!(read_word(b"&"), Some(Word::And)));
    assert!(&rt; matches!(read_word(b"-"), Some(Word::Minus)));
    assert!(&rt; matches!(read_word(b"^"), Some(Word::Xor)));
    assert!(&rt;
        matches!(
        read_word(b"fuller"), Some(Word::Named(name)) if name.as_bytes() == b"fuller".as_slice()
    )
    );
    assert!(&rt; read_word(b"").is_none());
    assert!(&rt; read_word(b"||").is_none());
    assert!(&rt; read_word(b"Full").is_none());
}

#[test]
fn an_answer_is_read_by_its_indices(rt: HostRuntime) -> Result<(), AlgebraError> {
    let alloc = rt.alloc();
    let answer = evaluate(alloc, b"a: 1 3 |\n# b\nc: empty\na: 5 !\n")?;
    assert!(&rt; answer.num_lines() == 3);
    assert!(&rt; answer.num_ranges() == 4);
    match answer.line(2) {
        Some((name, set)) => {
            assert!(&rt; name.as_bytes() == b"a".as_slice());
            assert!(&rt; set.contains(4) && !set.contains(5) && set.contains(i64::MAX));
        }
        None => assert!(&rt; false, "the third line is there"),
    }
    assert!(&rt; answer.line(3).is_none());
    let bytes = answer.print(alloc)?;
    let wanted =
        "a: 1..=1 3..=3 |\nc: empty\na: -9223372036854775808..=4 6..=9223372036854775807 |\n\
        # -9223372036854775808..=4 a\n# 5..=5\n# 6..=9223372036854775807 a\n";
    assert!(&rt; bytes.as_slice() == wanted.as_bytes());
    Ok(())
}

// The ends of a text's numbers and ranges.
fn literals_of(alloc: Global, text: &[u8]) -> Result<Vec<i64>, NoMemory> {
    let mut literals = Vec::new(alloc);
    for line in text.split(|b| *b == b'\n') {
        for piece in line.split(|b| *b == b' ') {
            match read_word(piece) {
                Some(Word::Number(n)) => literals.push(n)?,
                Some(Word::Span(start, end)) => {
                    literals.push(start)?;
                    literals.push(end)?;
                }
                _ => {}
            }
        }
    }
    Ok(literals)
}

// At `x` each line's set says what the plain reading says.
fn agrees_at(rt: &impl Abort, alloc: Global, text: &[u8], x: i64) -> Result<(), AlgebraError> {
    let answer = evaluate(alloc, text)?;
    let truths = truths_at(alloc, text, x)?;
    assert!(rt; answer.num_lines() == truths.len());
    for (index, truth) in truths.iter().enumerate() {
        match answer.line(index) {
            Some((_, set)) => assert!(rt; set.contains(x) == *truth, "line {index} at {x}"),
            None => assert!(rt; false, "line {index} is there"),
        }
    }
    Ok(())
}

#[test]
fn sets_agree_with_the_plain_reading(rt: HostRuntime) -> Result<(), AlgebraError> {
    let alloc = rt.alloc();
    let texts = [
        "a: 1..=5 4..=8 |\nb: 1..=5 4..=8 &\nc: 1..=5 4..=8 | !\n",
        "a: -9223372036854775808 9223372036854775807 | !\nb: full 3 ! &\n",
        "a: 1 3 | 5 | 7 | ! 2..=6 &\nb: empty ! 10..=20 12..=14 ! & &\n",
        "z: 5 6 | 7 | 8 | 4..=9 ! |\n# a comment\nz: 0 ! 1 ! &\n",
        "a: 1..=9 4..=12 ^ 6 -\nb: full 5..=7 - 6 ^ 9223372036854775807 ^\n",
        "a: 1..=9\nb: a 5 -\na: b 7 ^\nc: a b ^ !\n",
    ];
    let mut ends: usize = 0;
    for text in texts {
        for literal in literals_of(alloc, text.as_bytes())? {
            ends = ends.saturating_add(1);
            agrees_at(&rt, alloc, text.as_bytes(), literal.saturating_sub(1))?;
            agrees_at(&rt, alloc, text.as_bytes(), literal)?;
            agrees_at(&rt, alloc, text.as_bytes(), literal.saturating_add(1))?;
        }
    }
    assert!(&rt;
        ends == 46,
        "each number and both ends of each range are tried"
    );
    Ok(())
}

#[test]
fn the_plain_reading_reads_each_kind_of_word(rt: HostRuntime) -> Result<(), NoMemory> {
    let text = b"a: 1..=5 4..=8 ^\nb: a 2 -\na: b !\nc: a b ^\nd: 7 empty |\ne: full d &\n";
    let at_two = truths_at(rt.alloc(), text, 2)?;
    assert!(&rt; at_two.as_slice() == [true, false, true, true, false, false].as_slice());
    let at_four = truths_at(rt.alloc(), text, 4)?;
    assert!(&rt; at_four.as_slice() == [false, false, true, true, false, false].as_slice());
    let at_seven = truths_at(rt.alloc(), text, 7)?;
    assert!(&rt; at_seven.as_slice() == [true, true, false, true, true, true].as_slice());
    Ok(())
}

#[test]
fn faults_are_written(rt: HostRuntime) -> Result<(), Fail> {
    let alloc = rt.alloc();
    let unknown = AlgebraError::UnknownName { line: 3, word: 12 };
    assert!(&rt; format!(in alloc; "{unknown}")?.as_str() == "line 3, word 12: unknown name");
    let memory = AlgebraError::NoMemory;
    assert!(&rt; format!(in alloc; "{memory}")?.as_str() == "no memory");
    let short = NoMemory;
    assert!(&rt; format!(in alloc; "{short}")?.as_str() == "no memory");
    Ok(())
}

#[test]
fn an_answer_is_its_own_answer(rt: HostRuntime) -> Result<(), AlgebraError> {
    let alloc = rt.alloc();
    let text = b"a: 1..=5 4..=8 ^\nb: a !\n";
    let once = evaluate_document(alloc, text)?;
    let again = answered_again(alloc, text)?;
    assert!(rt; again == once);
    Ok(())
}
