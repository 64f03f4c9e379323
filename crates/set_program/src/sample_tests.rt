//! Tests of `run` with words: the counts of a sample, and words of no form.
use crate::arguments::Argument;
use crate::devices::{Failed, MemorySource, PlainSource, Source, WatchedSink, WatchedSource};
use crate::program::run;
use crate::run_tests::good_sink;
use crate::status::Status;
use set_document::{evaluate_document, sample_text};
use std::alloc::Global;
use std::test::Fail;

// The words of a command line, between single spaces.
pub(crate) fn words_of_line(alloc: Global, line: &str) -> Result<Vec<Argument>, Fail> {
    let mut words = Vec::new(alloc);
    for word in line.as_bytes().split(|byte| *byte == b' ') {
        words.push(Argument::new(word.to_vec(alloc)?))?;
    }
    Ok(words)
}

#[test]
fn other_words_are_usage(rt: HostRuntime) -> Result<(), Fail> {
    let alloc = rt.alloc();
    let lines = [
        "sample",
        "sample 0",
        "sample 01",
        "sample 1001",
        "sample 1 1",
        "x",
        "",
        "x 1",
        "sample +1",
        "sample -1",
        "sample 1 ",
    ];
    for line in lines {
        let words = words_of_line(alloc, line)?;
        let mut source = WatchedSource::new(b"a: 1\n".to_vec(alloc)?, 4, Vec::new(alloc));
        let mut sink = WatchedSink::new(4, Vec::new(alloc));
        let status = run(alloc, &words, &mut source, &mut sink);
        assert_eq!(rt; status, Status::Usage, "at {line}");
        assert_eq!(rt; status.code(), 6);
        assert_eq!(rt; source.handed().len(), 0);
        assert_eq!(rt; sink.handed().len(), 0);
        assert_eq!(rt; sink.finishes(), 0);
    }
    Ok(())
}

#[test]
fn samples_are_counted(rt: HostRuntime) -> Result<(), Fail> {
    let alloc = rt.alloc();
    let table = [
        ("sample 1", "lines 1 ranges 1 rows 3 bytes 80\n"),
        ("sample 4", "lines 4 ranges 6 rows 8 bytes 223\n"),
    ];
    for (line, counts) in table {
        let mut source = PlainSource::new(Vec::new(alloc));
        let mut sink = good_sink(alloc)?;
        let status = run(alloc, &words_of_line(alloc, line)?, &mut source, &mut sink);
        assert_eq!(rt; status, Status::Done, "at {line}");
        assert_eq!(rt; sink.bytes(), counts.as_bytes(), "at {line}");
    }
    Ok(())
}

#[test]
fn counts_of_a_sample_are_those_of_its_answer(rt: HostRuntime) -> Result<(), Fail> {
    let alloc = rt.alloc();
    let text = sample_text(alloc, 4)?;
    let mut source = PlainSource::new(text);
    let mut sink = good_sink(alloc)?;
    assert_eq!(rt; run(alloc, &[], &mut source, &mut sink), Status::Done);
    let wanted = "aaa: 0..=25\naab: 0..=35\naac: 0..=19 36..=45 |\naad: 30..=35 46..=55 |\n\
        # -9223372036854775808..=-1\n# 0..=19 aaa aab aac\n# 20..=25 aaa aab\n# 26..=29 aab\n\
        # 30..=35 aab aad\n# 36..=45 aac\n# 46..=55 aad\n# 56..=9223372036854775807\n";
    assert_eq!(rt; sink.bytes(), wanted.as_bytes());
    assert_eq!(rt; sink.bytes().len(), 223);
    Ok(())
}

#[test]
fn longest_sample_is_counted(rt: HostRuntime) -> Result<(), Fail> {
    let alloc = rt.alloc();
    let mut source = PlainSource::new(Vec::new(alloc));
    let mut sink = good_sink(alloc)?;
    let words = words_of_line(alloc, "sample 1000")?;
    assert_eq!(rt; run(alloc, &words, &mut source, &mut sink), Status::Done);
    let answer = evaluate_document(alloc, &sample_text(alloc, 1000)?)?;
    let bytes = answer.len();
    let counts = format!(in alloc; "lines 1000 ranges 1500 rows 1751 bytes {bytes}\n")?;
    assert_eq!(rt; sink.bytes(), counts.as_bytes());
    Ok(())
}

#[test]
fn a_sample_reads_nothing(rt: HostRuntime) -> Result<(), Fail> {
    let alloc = rt.alloc();
    let mut source = MemorySource::new(b"a: 1\n".to_vec(alloc)?, 8, vec![in alloc; 1u64]?);
    let mut sink = good_sink(alloc)?;
    let words = words_of_line(alloc, "sample 4")?;
    assert_eq!(rt; run(alloc, &words, &mut source, &mut sink), Status::Done);
    assert_eq!(rt;
        sink.bytes(),
        b"lines 4 ranges 6 rows 8 bytes 223\n".as_slice()
    );
    let mut buffer = [0u8; 8];
    assert_eq!(rt;
        source.read(&mut buffer),
        Err(Failed),
        "the first read is still to come"
    );
    assert_eq!(rt; source.read(&mut buffer), Ok(5));
    Ok(())
}
