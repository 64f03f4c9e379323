//! Tests of `run` with the word `rules`.
use crate::devices::{MemorySink, MemorySource, PlainSource, WatchedSink, WatchedSource};
use crate::program::run;
use crate::run_tests::{comment_of, good_sink};
use crate::sample_tests::words_of_line;
use crate::status::Status;
use rule_table::RuleError;
use std::test::Fail;

const OFFICE: &str =
    "allow 10.0.0.0-10.0.0.9\ndeny 10.0.0.5\nallow 10.0.0.6/31\nallow 10.0.0.6/31\n";

const OFFICE_ANSWER: &str = "0.0.0.0-9.255.255.255 none\n10.0.0.0-10.0.0.4 allow\n\
    10.0.0.5-10.0.0.5 deny\n10.0.0.6-10.0.0.9 allow\n10.0.0.10-255.255.255.255 none\n\
    block 10.0.0.0/30\nblock 10.0.0.4/32\nblock 10.0.0.6/31\nblock 10.0.0.8/31\ndead 3\n";

const NETWORK: &str =
    "allow 192.168.1.0/24\nallow 192.168.1.3\ndeny 192.168.1.0/28\nallow 192.168.1.1\n";

const NETWORK_ANSWER: &str = "0.0.0.0-192.168.0.255 none\n192.168.1.0-192.168.1.0 deny\n\
    192.168.1.1-192.168.1.1 allow\n192.168.1.2-192.168.1.15 deny\n\
    192.168.1.16-192.168.1.255 allow\n192.168.2.0-255.255.255.255 none\n\
    block 192.168.1.1/32\nblock 192.168.1.16/28\nblock 192.168.1.32/27\n\
    block 192.168.1.64/26\nblock 192.168.1.128/25\ndead 2\n";

#[test]
fn rules_are_answered(rt: HostRuntime) -> Result<(), Fail> {
    let alloc = rt.alloc();
    let words = words_of_line(alloc, "rules")?;
    let bad = Status::RuleFault(RuleError::BadRule { line: 1 });
    let reversed = Status::RuleFault(RuleError::ReversedRule { line: 1 });
    let table = [
        (OFFICE, OFFICE_ANSWER, Status::Done, 0),
        (NETWORK, NETWORK_ANSWER, Status::Done, 0),
        ("", "0.0.0.0-255.255.255.255 none\n", Status::Done, 0),
        ("allow 10.0.0.1/31\n", "line 1: bad rule\n", bad, 7),
        ("a: 1\n", "line 1: bad rule\n", bad, 7),
        (
            "deny 9.0.0.1-9.0.0.0\n",
            "line 1: reversed range\n",
            reversed,
            7,
        ),
    ];
    for (text, written, status, code) in table {
        let mut source = PlainSource::new(text.as_bytes().to_vec(alloc)?);
        let mut sink = good_sink(alloc)?;
        assert_eq!(rt;
            run(alloc, &words, &mut source, &mut sink),
            status,
            "at {text}"
        );
        assert_eq!(rt; status.code(), code);
        assert_eq!(rt; sink.bytes(), written.as_bytes(), "at {text}");
    }
    Ok(())
}

#[test]
fn other_words_beside_rules_are_usage(rt: HostRuntime) -> Result<(), Fail> {
    let alloc = rt.alloc();
    for line in [
        "rules 1",
        "rules rules",
        "rule",
        "Rules",
        "rules ",
        "sample rules",
    ] {
        let words = words_of_line(alloc, line)?;
        let mut source = WatchedSource::new(OFFICE.as_bytes().to_vec(alloc)?, 4, Vec::new(alloc));
        let mut sink = WatchedSink::new(4, Vec::new(alloc));
        assert_eq!(rt;
            run(alloc, &words, &mut source, &mut sink),
            Status::Usage,
            "at {line}"
        );
        assert_eq!(rt; source.handed().len(), 0);
        assert_eq!(rt; sink.handed().len(), 0);
    }
    Ok(())
}

#[test]
fn third_read_of_rules_fails(rt: HostRuntime) -> Result<(), Fail> {
    let alloc = rt.alloc();
    let words = words_of_line(alloc, "rules")?;
    let text = OFFICE.as_bytes().to_vec(alloc)?;
    let mut source = MemorySource::new(text, 4, vec![in alloc; 3u64]?);
    let mut sink = good_sink(alloc)?;
    assert_eq!(rt;
        run(alloc, &words, &mut source, &mut sink),
        Status::ReadFault
    );
    assert_eq!(rt; sink.bytes().len(), 0);
    Ok(())
}

#[test]
fn fifth_write_of_rules_fails(rt: HostRuntime) -> Result<(), Fail> {
    let alloc = rt.alloc();
    let words = words_of_line(alloc, "rules")?;
    for (text, written) in [(OFFICE, "0.0."), ("allow 1\n", "line")] {
        let mut source = PlainSource::new(text.as_bytes().to_vec(alloc)?);
        let mut sink = MemorySink::new(alloc, 64, 1, vec![in alloc; 5u64]?, false)?;
        let status = run(alloc, &words, &mut source, &mut sink);
        assert_eq!(rt; status, Status::WriteFault, "at {text}");
        assert_eq!(rt; sink.bytes(), written.as_bytes(), "at {text}");
    }
    Ok(())
}

#[test]
fn comment_of_65_537_bytes_is_too_long_for_rules(rt: HostRuntime) -> Result<(), Fail> {
    let alloc = rt.alloc();
    let words = words_of_line(alloc, "rules")?;
    let mut source = PlainSource::new(comment_of(alloc, 65_537)?);
    let mut sink = good_sink(alloc)?;
    assert_eq!(rt; run(alloc, &words, &mut source, &mut sink), Status::TooLong);
    assert_eq!(rt; sink.bytes().len(), 0);
    Ok(())
}
