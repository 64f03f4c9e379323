//! Whole answers, and the rows, names and places that an answer has.
use set_document::{AlgebraError, evaluate, evaluate_document};
use std::alloc::Global;
use std::process::Abort;

// Each text gives the whole answer that stands beside it.
fn all_answer(rt: &impl Abort, alloc: Global, cases: &[(&str, &str)]) -> Result<(), AlgebraError> {
    for (text, wanted) in cases {
        let got = evaluate_document(alloc, text.as_bytes())?;
        assert!(rt; got.as_slice() == wanted.as_bytes(), "at {text:?}");
    }
    Ok(())
}

#[test]
fn rows_cover_every_number(rt: HostRuntime) -> Result<(), AlgebraError> {
    all_answer(
        &rt,
        rt.alloc(),
        &[
            ("", "# -9223372036854775808..=9223372036854775807\n"),
            (
                "# a comment alone\n",
                "# -9223372036854775808..=9223372036854775807\n",
            ),
            (
                "a: 3 3 -\n",
                "a: empty\n# -9223372036854775808..=9223372036854775807\n",
            ),
            (
                "a: 1..=5 4..=8 ^\n",
                "a: 1..=3 6..=8 |\n# -9223372036854775808..=0\n# 1..=3 a\n# 4..=5\n# 6..=8 a\n\
                # 9..=9223372036854775807\n",
            ),
            (
                "a: 1..=3 4..=6 |\n",
                "a: 1..=6\n# -9223372036854775808..=0\n# 1..=6 a\n# 7..=9223372036854775807\n",
            ),
        ],
    )
}

#[test]
fn rows_reach_both_ends(rt: HostRuntime) -> Result<(), AlgebraError> {
    all_answer(
        &rt,
        rt.alloc(),
        &[
            (
                "a: 9223372036854775807 !\n",
                "a: -9223372036854775808..=9223372036854775806\n\
                 # -9223372036854775808..=9223372036854775806 a\n\
                 # 9223372036854775807..=9223372036854775807\n",
            ),
            (
                "a: -9223372036854775808..=9223372036854775806 !\n",
                "a: 9223372036854775807..=9223372036854775807\n\
                 # -9223372036854775808..=9223372036854775806\n\
                 # 9223372036854775807..=9223372036854775807 a\n",
            ),
            (
                "a: full\nb: empty\nc: a b ^ !\n",
                "a: -9223372036854775808..=9223372036854775807\nb: empty\nc: empty\n\
                 # -9223372036854775808..=9223372036854775807 a\n",
            ),
        ],
    )
}

const OPEN_PORTS: &str = "web: 80 443 | 8000..=8099 |\nlow: 0..=1023\nopen: web low &\n";

#[test]
fn names_stand_in_the_order_of_their_bytes(rt: HostRuntime) -> Result<(), AlgebraError> {
    all_answer(
        &rt,
        rt.alloc(),
        &[
            (
                OPEN_PORTS,
                "web: 80..=80 443..=443 | 8000..=8099 |\nlow: 0..=1023\n\
                 open: 80..=80 443..=443 |\n\
                 # -9223372036854775808..=-1\n# 0..=79 low\n# 80..=80 low open web\n\
                 # 81..=442 low\n# 443..=443 low open web\n# 444..=1023 low\n\
                 # 1024..=7999\n# 8000..=8099 web\n\
                 # 8100..=9223372036854775807\n",
            ),
            (
                "ab: 1\nb: 1\na: 1\n",
                "ab: 1..=1\nb: 1..=1\na: 1..=1\n\
                 # -9223372036854775808..=0\n# 1..=1 a ab b\n# 2..=9223372036854775807\n",
            ),
        ],
    )
}

const TWICE_NAMED: &str = "a: 1..=10\nb: a 5 -\na: 3\n";

const TWICE_NAMED_ANSWER: &str = "a: 1..=10\nb: 1..=4 6..=10 |\na: 3..=3\n\
    # -9223372036854775808..=0\n# 1..=2 b\n# 3..=3 a b\n# 4..=4 b\n# 5..=5\n# 6..=10 b\n\
    # 11..=9223372036854775807\n";

#[test]
fn a_row_names_the_last_line_of_a_name(rt: HostRuntime) -> Result<(), AlgebraError> {
    let alloc = rt.alloc();
    all_answer(
        &rt,
        alloc,
        &[
            (TWICE_NAMED, TWICE_NAMED_ANSWER),
            (TWICE_NAMED_ANSWER, TWICE_NAMED_ANSWER),
        ],
    )
}

#[test]
fn rows_and_names_are_read_by_their_places(rt: HostRuntime) -> Result<(), AlgebraError> {
    let answer = evaluate(rt.alloc(), TWICE_NAMED.as_bytes())?;
    assert!(&rt; answer.num_rows() == 7);
    match answer.row(2) {
        Some((range, held)) => {
            assert!(&rt; range.start() == 3 && range.end() == 3);
            assert!(&rt; held == [0, 1].as_slice());
        }
        None => assert!(&rt; false, "the third row is there"),
    }
    match answer.row(4) {
        Some((_, held)) => assert!(&rt; held.is_empty()),
        None => assert!(&rt; false, "the fifth row is there"),
    }
    assert!(&rt; answer.row(7).is_none());
    assert!(&rt;
        answer
            .name(1)
            .is_some_and(|name| name.as_bytes() == b"b".as_slice())
    );
    assert!(&rt; answer.name(2).is_none());
    Ok(())
}

#[test]
fn each_name_has_the_place_of_its_last_line(rt: HostRuntime) -> Result<(), AlgebraError> {
    let answer = evaluate(rt.alloc(), TWICE_NAMED.as_bytes())?;
    assert!(&rt; answer.names().len() == 2);
    let first = answer.names().get_key_value_at_index(0);
    assert!(&rt;
        first.is_some_and(|(name, place)| name.as_bytes() == b"a".as_slice() && *place == 2)
    );
    let second = answer.names().get_key_value_at_index(1);
    assert!(&rt;
        second.is_some_and(|(name, place)| name.as_bytes() == b"b".as_slice() && *place == 1)
    );
    Ok(())
}
