//! Tests of `run` without words over devices in memory: what is written, how it ends, and how the
//! devices are called.
use crate::devices::{
    MemorySink, MemorySource, PlainSink, PlainSource, Source, WatchedSink, WatchedSource,
};
use crate::program::run;
use crate::status::Status;
use set_document::AlgebraError;
use std::alloc::{AllocError, Global};
use std::process::Abort;
use std::test::Fail;

const ROOM: usize = 65_536;

pub(crate) const FIRST: &[u8] = b"a: 1..=5 4..=8 ^\n";

const UNION: &[u8] = b"a: 1..=5 4..=8 |\n";

const FIRST_ANSWER: &str = "a: 1..=3 6..=8 |\n\
    # -9223372036854775808..=0\n# 1..=3 a\n# 4..=5\n# 6..=8 a\n# 9..=9223372036854775807\n";

const TWICE_NAMED_ANSWER: &str = "a: 1..=10\nb: 1..=4 6..=10 |\na: 3..=3\n\
    # -9223372036854775808..=0\n# 1..=2 b\n# 3..=3 a b\n# 4..=4 b\n# 5..=5\n# 6..=10 b\n\
    # 11..=9223372036854775807\n";

// A comment with its line feed, of so many bytes in all.
pub(crate) fn comment_of(alloc: Global, length: usize) -> Result<Vec<u8>, AllocError> {
    let mut text = Vec::new(alloc);
    text.push(b'#')?;
    for _ in 2..length {
        text.push(b'x')?;
    }
    text.push(b'\n')?;
    Ok(text)
}

// A sink with room for each answer here, whose calls don't fail.
pub(crate) fn good_sink(alloc: Global) -> Result<MemorySink, Fail> {
    Ok(MemorySink::new(alloc, ROOM, ROOM, Vec::new(alloc), false)?)
}

// Each text ends `Done` with the answer that stands beside it.
pub(crate) fn all_done(rt: &impl Abort, alloc: Global, table: &[(&str, &str)]) -> Result<(), Fail> {
    for (text, answer) in table {
        let mut source = PlainSource::new(text.as_bytes().to_vec(alloc)?);
        let mut sink = good_sink(alloc)?;
        let status = run(alloc, &[], &mut source, &mut sink);
        assert!(rt; status == Status::Done, "at {text}");
        assert!(rt; status.code() == 0);
        assert!(rt; sink.bytes() == answer.as_bytes(), "at {text}");
    }
    Ok(())
}

#[test]
fn answers(rt: HostRuntime) -> Result<(), Fail> {
    let alloc = rt.alloc();
    let table = [
        ("a: 1..=5 4..=8 ^\n", FIRST_ANSWER),
        ("", "# -9223372036854775808..=9223372036854775807\n"),
        ("a: 1..=10\nb: a 5 -\na: 3\n", TWICE_NAMED_ANSWER),
        (TWICE_NAMED_ANSWER, TWICE_NAMED_ANSWER),
        (
            "a: 3 3 -\n",
            "a: empty\n# -9223372036854775808..=9223372036854775807\n",
        ),
        (
            "a: 1..=3 4..=6 |\n",
            "a: 1..=6\n# -9223372036854775808..=0\n# 1..=6 a\n# 7..=9223372036854775807\n",
        ),
    ];
    all_done(&rt, alloc, table.as_slice())
}

#[test]
fn answers_at_both_ends(rt: HostRuntime) -> Result<(), Fail> {
    let alloc = rt.alloc();
    let table = [
        (
            "a: 9223372036854775807 !\n",
            "a: -9223372036854775808..=9223372036854775806\n\
             # -9223372036854775808..=9223372036854775806 a\n\
             # 9223372036854775807..=9223372036854775807\n",
        ),
        (
            "a: -9223372036854775808..=9223372036854775806 !\n",
            "a: 9223372036854775807..=9223372036854775807\n\
             # -9223372036854775808..=9223372036854775806\n\
             # 9223372036854775807..=9223372036854775807 a\n",
        ),
        (
            "a: 9223372036854775807 -9223372036854775808 |\n",
            "a: -9223372036854775808..=-9223372036854775808 \
             9223372036854775807..=9223372036854775807 |\n\
             # -9223372036854775808..=-9223372036854775808 a\n\
             # -9223372036854775807..=9223372036854775806\n\
             # 9223372036854775807..=9223372036854775807 a\n",
        ),
        (
            "a: full\nb: empty\nc: a b ^ !\n",
            "a: -9223372036854775808..=9223372036854775807\nb: empty\nc: empty\n\
             # -9223372036854775808..=9223372036854775807 a\n",
        ),
    ];
    all_done(&rt, alloc, table.as_slice())
}

#[test]
fn first_faults(rt: HostRuntime) -> Result<(), Fail> {
    let alloc = rt.alloc();
    let bad_word = AlgebraError::BadWord { line: 1, word: 1 };
    let table = [
        (
            "a: 1",
            AlgebraError::BadLine { line: 1 },
            "line 1: bad line\n",
        ),
        ("a: \n", bad_word, "line 1, word 1: bad word\n"),
        (
            "a: 5..=9223372036854775808\n",
            bad_word,
            "line 1, word 1: bad word\n",
        ),
        ("a: 01\n", bad_word, "line 1, word 1: bad word\n"),
        ("a: -0\n", bad_word, "line 1, word 1: bad word\n"),
        ("a: +5\n", bad_word, "line 1, word 1: bad word\n"),
        (
            "a:\n",
            AlgebraError::NotOne { line: 1 },
            "line 1: not one set\n",
        ),
        (
            "a: 1\nb: 5..=2\n",
            AlgebraError::Reversed { line: 2, word: 1 },
            "line 2, word 1: reversed range\n",
        ),
        (
            "a: 1 |\nB: 1\n",
            AlgebraError::StackShort { line: 1, word: 2 },
            "line 1, word 2: too few sets\n",
        ),
        (
            "a: 1 2\nb: x\n",
            AlgebraError::NotOne { line: 1 },
            "line 1: not one set\n",
        ),
        (
            "a: a\n",
            AlgebraError::UnknownName { line: 1, word: 1 },
            "line 1, word 1: unknown name\n",
        ),
        (
            "a: 1 2 x\n",
            AlgebraError::UnknownName { line: 1, word: 3 },
            "line 1, word 3: unknown name\n",
        ),
        (
            "a: 1..=3 4..=6 | 3\n",
            AlgebraError::NotOne { line: 1 },
            "line 1: not one set\n",
        ),
        (
            "a: 5..=2\n",
            AlgebraError::Reversed { line: 1, word: 1 },
            "line 1, word 1: reversed range\n",
        ),
    ];
    for (text, fault, line) in table {
        let mut source = PlainSource::new(text.as_bytes().to_vec(alloc)?);
        let mut sink = good_sink(alloc)?;
        let status = run(alloc, &[], &mut source, &mut sink);
        assert_eq!(rt; status, Status::TextFault(fault), "at {text}");
        assert_eq!(rt; status.code(), 1);
        assert_eq!(rt; sink.bytes(), line.as_bytes(), "at {text}");
    }
    Ok(())
}

#[test]
fn longest_text_is_read(rt: HostRuntime) -> Result<(), Fail> {
    let alloc = rt.alloc();
    let mut source = MemorySource::new(comment_of(alloc, 65_536)?, 1, Vec::new(alloc));
    let mut sink = good_sink(alloc)?;
    let status = run(alloc, &[], &mut source, &mut sink);
    assert_eq!(rt; status, Status::Done);
    assert_eq!(rt;
        sink.bytes(),
        b"# -9223372036854775808..=9223372036854775807\n".as_slice()
    );
    Ok(())
}

#[test]
fn comment_of_65_537_bytes_is_too_long(rt: HostRuntime) -> Result<(), Fail> {
    let alloc = rt.alloc();
    let mut source = MemorySource::new(comment_of(alloc, 65_537)?, 1, Vec::new(alloc));
    let mut sink = good_sink(alloc)?;
    let status = run(alloc, &[], &mut source, &mut sink);
    assert_eq!(rt; status, Status::TooLong);
    assert_eq!(rt; status.code(), 5);
    assert_eq!(rt; sink.bytes().len(), 0);
    Ok(())
}

#[test]
fn third_read_fails(rt: HostRuntime) -> Result<(), Fail> {
    let alloc = rt.alloc();
    let mut source = MemorySource::new(FIRST.to_vec(alloc)?, 4, vec![in alloc; 3u64]?);
    let mut sink = good_sink(alloc)?;
    let status = run(alloc, &[], &mut source, &mut sink);
    assert_eq!(rt; status, Status::ReadFault);
    assert_eq!(rt; status.code(), 3);
    assert_eq!(rt; sink.bytes().len(), 0);
    let mut next = [0u8; 8];
    assert_eq!(rt;
        source.read(&mut next),
        Ok(4),
        "no read comes after the failed one"
    );
    assert_eq!(rt; next.as_slice(), b" 4..\0\0\0\0".as_slice());
    Ok(())
}

#[test]
fn read_fails_at_the_longest_text(rt: HostRuntime) -> Result<(), Fail> {
    let alloc = rt.alloc();
    let mut source = MemorySource::new(comment_of(alloc, 65_536)?, ROOM, vec![in alloc; 2u64]?);
    let mut sink = good_sink(alloc)?;
    let status = run(alloc, &[], &mut source, &mut sink);
    assert_eq!(rt; status, Status::ReadFault);
    assert_eq!(rt; sink.bytes().len(), 0);
    Ok(())
}

#[test]
fn writes_fail(rt: HostRuntime) -> Result<(), Fail> {
    let alloc = rt.alloc();
    for (text, piece, failing) in [(UNION, 1usize, 5u64), (FIRST, 1, 5), (FIRST, 4, 2)] {
        let mut source = PlainSource::new(text.to_vec(alloc)?);
        let mut sink = MemorySink::new(alloc, ROOM, piece, vec![in alloc; failing]?, false)?;
        let status = run(alloc, &[], &mut source, &mut sink);
        assert_eq!(rt; status, Status::WriteFault);
        assert_eq!(rt; status.code(), 4);
        assert_eq!(rt; sink.bytes(), b"a: 1".as_slice(), "pieces of {piece}");
    }
    Ok(())
}

#[test]
fn room_runs_out(rt: HostRuntime) -> Result<(), Fail> {
    let alloc = rt.alloc();
    let mut source = PlainSource::new(FIRST.to_vec(alloc)?);
    let mut sink = MemorySink::new(alloc, 6, ROOM, Vec::new(alloc), false)?;
    assert_eq!(rt; run(alloc, &[], &mut source, &mut sink), Status::WriteFault);
    assert_eq!(rt; sink.bytes(), b"a: 1..".as_slice());
    Ok(())
}

#[test]
fn reads_to_the_end_and_hands_all_that_is_left(rt: HostRuntime) -> Result<(), Fail> {
    let alloc = rt.alloc();
    let mut source = WatchedSource::new(FIRST.to_vec(alloc)?, 4, Vec::new(alloc));
    let mut sink = WatchedSink::new(4, Vec::new(alloc));
    assert_eq!(rt; run(alloc, &[], &mut source, &mut sink), Status::Done);
    let reads = [65_537, 65_533, 65_529, 65_525, 65_521, 65_520];
    assert_eq!(rt; source.handed(), reads.as_slice());
    assert_eq!(rt; sink.handed().len(), 25);
    for (turn, left) in sink.handed().iter().enumerate() {
        assert_eq!(rt;
            left.saturating_add(turn.saturating_mul(4)),
            98,
            "at write {turn}"
        );
    }
    assert_eq!(rt; sink.finishes(), 1);
    Ok(())
}

#[test]
fn plain_sink_takes_all(rt: HostRuntime) -> Result<(), Fail> {
    let alloc = rt.alloc();
    let mut source = PlainSource::new(FIRST.to_vec(alloc)?);
    let mut sink = PlainSink::new();
    assert_eq!(rt; run(alloc, &[], &mut source, &mut sink), Status::Done);
    Ok(())
}
