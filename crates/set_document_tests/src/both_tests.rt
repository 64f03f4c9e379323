//! One table of texts through both evaluators, and texts at the borders of a block.
use element_core::NoMemory;
use set_document::{AlgebraError, Answer, evaluate, evaluate_by_sets};
use std::alloc::Global;
use std::process::Abort;

// What is written for what an evaluator answered: its bytes, or its fault and a line feed.
fn written(
    alloc: Global,
    answered: Result<Answer<'_>, AlgebraError>,
) -> Result<Vec<u8>, AlgebraError> {
    match answered {
        Ok(answer) => Ok(answer.print(alloc)?),
        Err(fault) => Ok(format!(in alloc; "{fault}\n")?.into_bytes()),
    }
}

// Both evaluators give the bytes that stand beside each text.
fn both_give(rt: &impl Abort, alloc: Global, cases: &[(&str, &str)]) -> Result<(), AlgebraError> {
    for (text, wanted) in cases {
        let by_pass = written(alloc, evaluate(alloc, text.as_bytes()))?;
        assert!(rt;
            by_pass.as_slice() == wanted.as_bytes(),
            "by one pass at {text:?}"
        );
        let by_sets = written(alloc, evaluate_by_sets(alloc, text.as_bytes()))?;
        assert!(rt;
            by_sets.as_slice() == wanted.as_bytes(),
            "by sets at {text:?}"
        );
    }
    Ok(())
}

#[test]
fn worked_answers_by_both(rt: HostRuntime) -> Result<(), AlgebraError> {
    both_give(
        &rt,
        rt.alloc(),
        &[
            (
                "a: 1..=5 4..=8 ^\n",
                "a: 1..=3 6..=8 |\n# -9223372036854775808..=0\n# 1..=3 a\n# 4..=5\n# 6..=8 a\n\
                # 9..=9223372036854775807\n",
            ),
            ("", "# -9223372036854775808..=9223372036854775807\n"),
            (
                "a: 9223372036854775807 !\n",
                "a: -9223372036854775808..=9223372036854775806\n\
                # -9223372036854775808..=9223372036854775806 a\n\
                # 9223372036854775807..=9223372036854775807\n",
            ),
            (
                "a: -9223372036854775808..=9223372036854775806 !\n",
                "a: 9223372036854775807..=9223372036854775807\n\
                # -9223372036854775808..=9223372036854775806\n\
                # 9223372036854775807..=9223372036854775807 a\n",
            ),
            (
                "a: 1..=10\nb: a 5 -\na: 3\n",
                "a: 1..=10\nb: 1..=4 6..=10 |\na: 3..=3\n# -9223372036854775808..=0\n# 1..=2 b\n\
                # 3..=3 a b\n# 4..=4 b\n# 5..=5\n# 6..=10 b\n# 11..=9223372036854775807\n",
            ),
            (
                "web: 80 443 | 8000..=8099 |\nlow: 0..=1023\nopen: web low &\n",
                "web: 80..=80 443..=443 | 8000..=8099 |\nlow: 0..=1023\n\
                open: 80..=80 443..=443 |\n# -9223372036854775808..=-1\n# 0..=79 low\n\
                # 80..=80 low open web\n# 81..=442 low\n# 443..=443 low open web\n\
                # 444..=1023 low\n# 1024..=7999\n# 8000..=8099 web\n# 8100..=9223372036854775807\n",
            ),
            (
                "a: 3 3 -\n",
                "a: empty\n# -9223372036854775808..=9223372036854775807\n",
            ),
            (
                "a: 1..=10\nb: 1..=4 6..=10 |\na: 3..=3\n# -9223372036854775808..=0\n# 1..=2 b\n\
                # 3..=3 a b\n# 4..=4 b\n# 5..=5\n# 6..=10 b\n# 11..=9223372036854775807\n",
                "a: 1..=10\nb: 1..=4 6..=10 |\na: 3..=3\n# -9223372036854775808..=0\n# 1..=2 b\n\
                # 3..=3 a b\n# 4..=4 b\n# 5..=5\n# 6..=10 b\n# 11..=9223372036854775807\n",
            ),
            (
                "a: 1..=3 4..=6 |\n",
                "a: 1..=6\n# -9223372036854775808..=0\n# 1..=6 a\n# 7..=9223372036854775807\n",
            ),
            (
                "a: full\nb: empty\nc: a b ^ !\n",
                "a: -9223372036854775808..=9223372036854775807\nb: empty\nc: empty\n\
                # -9223372036854775808..=9223372036854775807 a\n",
            ),
            (
                "a: -9223372036854775808\nb: 9223372036854775807\nc: a b |\n",
                "a: -9223372036854775808..=-9223372036854775808\n\
                b: 9223372036854775807..=9223372036854775807\n\
                c: -9223372036854775808..=-9223372036854775808 \
                9223372036854775807..=9223372036854775807 |\n\
                # -9223372036854775808..=-9223372036854775808 a c\n\
                # -9223372036854775807..=9223372036854775806\n\
                # 9223372036854775807..=9223372036854775807 b c\n",
            ),
        ],
    )
}

#[test]
fn worked_faults_by_both(rt: HostRuntime) -> Result<(), AlgebraError> {
    both_give(
        &rt,
        rt.alloc(),
        &[
            ("a: 1", "line 1: bad line\n"),
            ("a: \n", "line 1, word 1: bad word\n"),
            ("a:\n", "line 1: not one set\n"),
            ("a: 5..=9223372036854775808\n", "line 1, word 1: bad word\n"),
            ("a: 01\n", "line 1, word 1: bad word\n"),
            ("a: -0\n", "line 1, word 1: bad word\n"),
            ("a: +5\n", "line 1, word 1: bad word\n"),
            ("a: 1\nb: 5..=2\n", "line 2, word 1: reversed range\n"),
            ("a: a\n", "line 1, word 1: unknown name\n"),
            ("a: 1 |\nB: 1\n", "line 1, word 2: too few sets\n"),
            ("a: 1 2\nb: x\n", "line 1: not one set\n"),
            ("a: 1 2 x\n", "line 1, word 3: unknown name\n"),
        ],
    )
}

// The numbers 0, 2, 4 and so on, so many, and where `open` is true all from 1000 on.
fn apart(alloc: Global, count: i64, open: bool) -> Result<Vec<u8>, NoMemory> {
    let mut text = Vec::new(alloc);
    text.extend_from_slice(b"a: empty")?;
    for place in 0..count {
        let number = place.saturating_mul(2);
        text.extend_from_slice(format!(in alloc; " {number} |")?.as_bytes())?;
    }
    if open {
        text.extend_from_slice(b" 1000..=9223372036854775807 |")?;
    }
    text.extend_from_slice(b"\n")?;
    Ok(text)
}

// Both evaluators give the same bytes, with so many ranges and rows.
fn both_count(
    rt: &impl Abort,
    alloc: Global,
    text: &[u8],
    ranges: usize,
    rows: usize,
) -> Result<(), AlgebraError> {
    let answer = evaluate(alloc, text)?;
    assert!(rt; answer.num_ranges() == ranges, "{ranges} ranges");
    assert!(rt; answer.num_rows() == rows, "{rows} rows");
    let by_sets = evaluate_by_sets(alloc, text)?;
    assert!(rt; answer.print(alloc)? == by_sets.print(alloc)?);
    Ok(())
}

// With the least number 62 cuts are 63 numbers to visit; each cut begins a row.
#[test]
fn blocks_that_end_before_at_and_behind_a_cut(rt: HostRuntime) -> Result<(), AlgebraError> {
    let alloc = rt.alloc();
    for (count, open, ranges, rows) in [
        (0, false, 0, 1),
        (31, false, 31, 63),
        (31, true, 32, 64),
        (32, false, 32, 65),
        (63, true, 64, 128),
        (64, false, 64, 129),
    ] {
        both_count(&rt, alloc, &apart(alloc, count, open)?, ranges, rows)?;
    }
    Ok(())
}

// Lines named `aa`, `ab` and so on, so many, each with the number of its place.
fn named_apart(alloc: Global, count: u8) -> Result<Vec<u8>, NoMemory> {
    let mut text = Vec::new(alloc);
    for place in 0..count {
        text.push(b'a'.saturating_add(place / 26))?;
        text.push(b'a'.saturating_add(place % 26))?;
        text.extend_from_slice(format!(in alloc; ": {place}\n")?.as_bytes())?;
    }
    Ok(text)
}

#[test]
fn sixty_five_names(rt: HostRuntime) -> Result<(), AlgebraError> {
    let alloc = rt.alloc();
    let text = named_apart(alloc, 65)?;
    both_count(&rt, alloc, &text, 65, 67)?;
    let answer = evaluate(alloc, &text)?;
    for position in 0..65usize {
        match answer.row(position.saturating_add(1)) {
            Some((_, held)) => assert!(&rt; held == [position].as_slice(), "at {position}"),
            None => assert!(&rt; false, "row {position} is there"),
        }
    }
    Ok(())
}
