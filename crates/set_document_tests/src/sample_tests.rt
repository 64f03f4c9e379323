//! That the sample text is the one that is meant, and that answers are read again.
use set_document::{AlgebraError, evaluate, evaluate_document, sample_text};

#[test]
fn four_lines_are_one_of_each_kind(rt: HostRuntime) -> Result<(), AlgebraError> {
    let text = sample_text(rt.alloc(), 4)?;
    assert!(&rt;
        text.as_slice()
            == b"aaa: 0..=25\naab: 10..=35 aaa |\naac: 20..=45 aab ^\n\
            aad: aac ! 30..=55 &\n"
                .as_slice()
    );
    Ok(())
}

#[test]
fn four_lines_have_their_answer(rt: HostRuntime) -> Result<(), AlgebraError> {
    let text = sample_text(rt.alloc(), 4)?;
    let answer = evaluate_document(rt.alloc(), text.as_slice())?;
    let wanted = "aaa: 0..=25\naab: 0..=35\naac: 0..=19 36..=45 |\naad: 30..=35 46..=55 |\n\
        # -9223372036854775808..=-1\n# 0..=19 aaa aab aac\n# 20..=25 aaa aab\n# 26..=29 aab\n\
        # 30..=35 aab aad\n# 36..=45 aac\n# 46..=55 aad\n# 56..=9223372036854775807\n";
    assert!(&rt; answer.as_slice() == wanted.as_bytes());
    assert!(&rt; answer.len() == 223);
    let again = evaluate_document(rt.alloc(), answer.as_slice())?;
    assert!(&rt; again == answer);
    Ok(())
}

#[test]
fn a_thousand_lines_end_at_the_last_name(rt: HostRuntime) -> Result<(), AlgebraError> {
    let text = sample_text(rt.alloc(), 1000)?;
    assert!(&rt; text.as_slice().ends_with(b"bml: bmk ! 9990..=10015 &\n"));
    let answer = evaluate(rt.alloc(), text.as_slice())?;
    assert!(&rt; answer.num_lines() == 1000);
    assert!(&rt; answer.num_ranges() == 1500);
    assert!(&rt; answer.num_rows() == 1751);
    Ok(())
}
