//! The documents of the folder examples/, each with the answer that stands beside it there.
use crate::devices::PlainSource;
use crate::program::run;
use crate::run_tests::{all_done, good_sink};
use crate::sample_tests::words_of_line;
use crate::status::Status;
use set_document::AlgebraError;
use std::test::Fail;

const PORTS: &str = "web: 80 443 | 8000..=8099 |\nlow: 0..=1023\nopen: web low &\n";

const PORTS_ANSWER: &str =
    "web: 80..=80 443..=443 | 8000..=8099 |\nlow: 0..=1023\nopen: 80..=80 443..=443 |\n\
    # -9223372036854775808..=-1\n# 0..=79 low\n# 80..=80 low open web\n# 81..=442 low\n\
    # 443..=443 low open web\n# 444..=1023 low\n# 1024..=7999\n# 8000..=8099 web\n\
    # 8100..=9223372036854775807\n";

const HOURS: &str = "# hours of a Saturday and a Sunday, from 0 to 47\nshop: 9..=17 33..=37 |\n\
    phone: 7..=20 31..=40 |\nring: phone shop -\nnight: 0..=47 shop phone | -\n";

const HOURS_ANSWER: &str = "shop: 9..=17 33..=37 |\nphone: 7..=20 31..=40 |\n\
    ring: 7..=8 18..=20 | 31..=32 | 38..=40 |\nnight: 0..=6 21..=30 | 41..=47 |\n\
    # -9223372036854775808..=-1\n# 0..=6 night\n# 7..=8 phone ring\n# 9..=17 phone shop\n\
    # 18..=20 phone ring\n# 21..=30 night\n# 31..=32 phone ring\n# 33..=37 phone shop\n\
    # 38..=40 phone ring\n# 41..=47 night\n# 48..=9223372036854775807\n";

const ENDS: &str =
    "least: -9223372036854775808\ngreatest: 9223372036854775807\nother: least greatest | !\n";

const ENDS_ANSWER: &str = "least: -9223372036854775808..=-9223372036854775808\n\
    greatest: 9223372036854775807..=9223372036854775807\n\
    other: -9223372036854775807..=9223372036854775806\n\
    # -9223372036854775808..=-9223372036854775808 least\n\
    # -9223372036854775807..=9223372036854775806 other\n\
    # 9223372036854775807..=9223372036854775807 greatest\n";

const FIREWALL: &str =
    "# who may reach a small office: the last rule that holds an address decides\n\
    allow 192.168.0.0/16\ndeny 192.168.7.0/24\nallow 192.168.7.20-192.168.7.22\n\
    allow 203.0.113.9\ndeny 203.0.113.0/24\n";

const FIREWALL_ANSWER: &str = "0.0.0.0-192.167.255.255 none\n192.168.0.0-192.168.6.255 allow\n\
    192.168.7.0-192.168.7.19 deny\n192.168.7.20-192.168.7.22 allow\n\
    192.168.7.23-192.168.7.255 deny\n192.168.8.0-192.168.255.255 allow\n\
    192.169.0.0-203.0.112.255 none\n203.0.113.0-203.0.113.255 deny\n\
    203.0.114.0-255.255.255.255 none\nblock 192.168.0.0/22\nblock 192.168.4.0/23\n\
    block 192.168.6.0/24\nblock 192.168.7.20/31\nblock 192.168.7.22/32\n\
    block 192.168.8.0/21\nblock 192.168.16.0/20\nblock 192.168.32.0/19\n\
    block 192.168.64.0/18\nblock 192.168.128.0/17\ndead 5\n";

const FAULT: &str = "# the range in the third line is reversed\nlow: 0..=1023\nhigh: 65535..=1024\n\
    all: low high |\n";

#[test]
fn examples_are_answered(rt: HostRuntime) -> Result<(), Fail> {
    let table = [
        (PORTS, PORTS_ANSWER),
        (HOURS, HOURS_ANSWER),
        (ENDS, ENDS_ANSWER),
    ];
    all_done(&rt, rt.alloc(), table.as_slice())
}

#[test]
fn the_example_of_rules_is_answered(rt: HostRuntime) -> Result<(), Fail> {
    let alloc = rt.alloc();
    let words = words_of_line(alloc, "rules")?;
    let mut source = PlainSource::new(FIREWALL.as_bytes().to_vec(alloc)?);
    let mut sink = good_sink(alloc)?;
    assert_eq!(rt; run(alloc, &words, &mut source, &mut sink), Status::Done);
    assert_eq!(rt; sink.bytes(), FIREWALL_ANSWER.as_bytes());
    Ok(())
}

#[test]
fn the_faulty_example_ends_with_its_first_fault(rt: HostRuntime) -> Result<(), Fail> {
    let alloc = rt.alloc();
    let mut source = PlainSource::new(FAULT.as_bytes().to_vec(alloc)?);
    let mut sink = good_sink(alloc)?;
    let status = run(alloc, &[], &mut source, &mut sink);
    let fault = AlgebraError::Reversed { line: 3, word: 1 };
    assert_eq!(rt; status, Status::TextFault(fault));
    assert_eq!(rt;
        sink.bytes(),
        b"line 3, word 1: reversed range\n".as_slice()
    );
    Ok(())
}
