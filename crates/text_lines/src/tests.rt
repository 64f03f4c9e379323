//! What no contract shows: that the definitions say what is meant.
use crate::{cut_line, cut_piece, first_place, read_i64};
use std::process::Abort;
use std::test::Fail;

#[test]
fn a_line_keeps_its_feed(rt: HostRuntime) -> Result<(), Fail> {
    let (line, rest) = cut_line(b"a b\nc".as_slice());
    assert!(rt; line == b"a b\n".as_slice() && rest == b"c".as_slice());
    let (line, rest) = cut_line(rest);
    assert!(rt; line == b"c".as_slice() && rest.is_empty());
    Ok(())
}

#[test]
fn two_spaces_have_an_empty_piece_between(rt: HostRuntime) -> Result<(), Fail> {
    let (piece, rest) = cut_piece(b"a  b".as_slice());
    assert!(rt; piece == b"a".as_slice() && rest == Some(b" b".as_slice()));
    let (piece, rest) = cut_piece(b" b".as_slice());
    assert!(rt; piece.is_empty() && rest == Some(b"b".as_slice()));
    let (piece, rest) = cut_piece(b"b".as_slice());
    assert!(rt; piece == b"b".as_slice() && rest.is_none());
    assert!(rt; first_place(b"1..=5".as_slice(), b'.') == 1);
    Ok(())
}

#[test]
fn a_number_has_one_form(rt: HostRuntime) -> Result<(), Fail> {
    let read: [(&str, Option<i64>); 10] = [
        ("0", Some(0)),
        ("-1", Some(-1)),
        ("9223372036854775807", Some(i64::MAX)),
        ("-9223372036854775808", Some(i64::MIN)),
        ("9223372036854775808", None),
        ("-9223372036854775809", None),
        ("-0", None),
        ("01", None),
        ("+1", None),
        ("", None),
    ];
    for (piece, wanted) in &read {
        assert!(rt; read_i64(piece.as_bytes()) == *wanted, "at {piece:?}");
    }
    Ok(())
}
