//! Tests of `run` over devices that fail: what was written by then, and how it ends.
use crate::devices::{EndlessSource, MemorySink, MemorySource};
use crate::program::run;
use crate::run_tests::{FIRST, comment_of, good_sink};
use crate::sample_tests::words_of_line;
use crate::status::Status;
use std::alloc::Global;
use std::process::Abort;
use std::test::Fail;

// A run over devices that pass one byte a call: its text, the numbers of the reads and the writes
// that fail, whether `finish` does, what was written then, and the status.
#[derive(Clone, Copy)]
struct Case<'a> {
    text: &'a [u8],
    failing_reads: &'a [u64],
    failing_writes: &'a [u64],
    finish_fails: bool,
    written: &'a str,
    status: Status,
}

// A run in which a read fails before anything is written.
fn unwritten<'a>(text: &'a [u8], failing_reads: &'a [u64], status: Status) -> Case<'a> {
    Case {
        text,
        failing_reads,
        failing_writes: &[],
        finish_fails: false,
        written: "",
        status,
    }
}

// It ends so with the words of that command line, or without words where it is empty.
fn ends_so(rt: &impl Abort, alloc: Global, line: &str, case: Case<'_>) -> Result<(), Fail> {
    let words = if line.is_empty() {
        Vec::new(alloc)
    } else {
        words_of_line(alloc, line)?
    };
    let failing_reads = case.failing_reads.to_vec(alloc)?;
    let mut source = MemorySource::new(case.text.to_vec(alloc)?, 1, failing_reads);
    let failing_writes = case.failing_writes.to_vec(alloc)?;
    let mut sink = MemorySink::new(alloc, 64, 1, failing_writes, case.finish_fails)?;
    let status = run(alloc, &words, &mut source, &mut sink);
    assert_eq!(rt; status, case.status);
    assert_eq!(rt; sink.bytes(), case.written.as_bytes());
    Ok(())
}

// A read fails, or one byte too many comes first.
fn reads_fail(rt: &impl Abort, alloc: Global) -> Result<(), Fail> {
    let longest = comment_of(alloc, 65_536)?;
    let too_long = comment_of(alloc, 65_537)?;
    let cases = [
        unwritten(FIRST, &[1], Status::ReadFault),
        unwritten(FIRST, &[18], Status::ReadFault),
        unwritten(&longest, &[65_537], Status::ReadFault),
        unwritten(&too_long, &[65_537], Status::ReadFault),
        unwritten(&too_long, &[65_538], Status::TooLong),
    ];
    for case in cases {
        ends_so(rt, alloc, "", case)?;
    }
    Ok(())
}

// Words come before every device.
fn words_decide(rt: &impl Abort, alloc: Global) -> Result<(), Fail> {
    let sample = Case {
        written: "lines 4 ranges 6 rows 8 bytes 223\n",
        ..unwritten(FIRST, &[1], Status::Done)
    };
    ends_so(rt, alloc, "sample 4", sample)?;
    let unusable = Case {
        failing_writes: &[1],
        ..unwritten(FIRST, &[1], Status::Usage)
    };
    ends_so(rt, alloc, "x", unusable)?;
    let cut_short = Case {
        failing_writes: &[5],
        written: "line",
        ..unwritten(FIRST, &[], Status::WriteFault)
    };
    ends_so(rt, alloc, "sample 4", cut_short)
}

// A write or a `finish` fails, or a read before them.
fn writes_and_finishes_fail(rt: &impl Abort, alloc: Global) -> Result<(), Fail> {
    let of_a_fault = Case {
        failing_writes: &[6],
        written: "line ",
        ..unwritten(b"a: 1", &[], Status::WriteFault)
    };
    ends_so(rt, alloc, "", of_a_fault)?;
    let both = Case {
        failing_writes: &[1],
        ..unwritten(FIRST, &[1], Status::ReadFault)
    };
    ends_so(rt, alloc, "", both)?;
    let unfinished = Case {
        finish_fails: true,
        written: "# -9223372036854775808..=9223372036854775807\n",
        ..unwritten(b"", &[], Status::WriteFault)
    };
    ends_so(rt, alloc, "", unfinished)
}

// A source that never ends is left after the first byte that is too many.
fn endless_text_is_too_long(rt: &impl Abort, alloc: Global) -> Result<(), Fail> {
    let mut source = EndlessSource::new();
    let mut sink = good_sink(alloc)?;
    let status = run(alloc, &[], &mut source, &mut sink);
    assert_eq!(rt; status, Status::TooLong);
    assert_eq!(rt; sink.bytes().len(), 0);
    assert_eq!(rt; source.reads(), 65_537);
    Ok(())
}

#[test]
fn devices_fail(rt: HostRuntime) -> Result<(), Fail> {
    let alloc = rt.alloc();
    reads_fail(&rt, alloc)?;
    words_decide(&rt, alloc)?;
    writes_and_finishes_fail(&rt, alloc)?;
    endless_text_is_too_long(&rt, alloc)
}
