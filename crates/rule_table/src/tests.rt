//! What no contract shows: that the calls succeed where memory suffices, and answers that people
//! know.
use crate::callers::{may_pass, with_ban};
use crate::{Decision, Rule, RuleTable, rules_document};
use range_map::Range;
use std::alloc::Global;
use std::process::Abort;
use std::test::Fail;

fn allow(addresses: Range<u32>) -> Rule {
    Rule {
        decision: Decision::Allow,
        addresses,
    }
}

fn deny(addresses: Range<u32>) -> Rule {
    Rule {
        decision: Decision::Deny,
        addresses,
    }
}

#[test]
fn the_last_rule_decides(rt: HostRuntime) -> Result<(), Fail> {
    let rules = [
        allow(Range::new(10, 19)),
        deny(Range::single(15)),
        allow(Range::new(16, 20)),
    ];
    let table = RuleTable::build(rt.alloc(), &rules)?;
    let known = [
        (9, None, None),
        (10, Some(0), Some(Decision::Allow)),
        (15, Some(1), Some(Decision::Deny)),
        (16, Some(2), Some(Decision::Allow)),
        (21, None, None),
    ];
    for (x, winner, decision) in known {
        assert!(rt;
            table.winner(x) == winner && table.decide(x) == decision,
            "at {x}"
        );
    }
    Ok(())
}

#[test]
fn a_rule_covered_piece_by_piece_is_dead(rt: HostRuntime) -> Result<(), Fail> {
    let rules = [
        allow(Range::new(10, 19)),
        allow(Range::new(5, 14)),
        deny(Range::new(15, 30)),
        deny(Range::new(14, 29)),
    ];
    let table = RuleTable::build(rt.alloc(), &rules)?;
    let known = [Some(true), Some(false), Some(false), Some(false), None];
    for (place, dead) in known.iter().enumerate() {
        assert!(rt; table.is_dead(place) == *dead, "at {place}");
    }
    Ok(())
}

#[test]
fn smallest_and_largest_address(rt: HostRuntime) -> Result<(), Fail> {
    let rules = [
        allow(Range::full()),
        deny(Range::single(0)),
        deny(Range::single(u32::MAX)),
    ];
    let table = RuleTable::build(rt.alloc(), &rules)?;
    let known = [
        (0, Some(1)),
        (1, Some(0)),
        (u32::MAX - 1, Some(0)),
        (u32::MAX, Some(2)),
    ];
    for (x, winner) in known {
        assert!(rt; table.winner(x) == winner, "at {x}");
    }
    Ok(())
}

// The answer to a text, or the text of its fault.
fn answer_of(alloc: Global, text: &str) -> Result<String, Fail> {
    match rules_document(alloc, text.as_bytes()) {
        Ok(bytes) => Ok(String::from_utf8(bytes)?),
        Err(fault) => Ok(fault.to_string(alloc)?),
    }
}

#[test]
fn texts_and_their_answers(rt: HostRuntime) -> Result<(), Fail> {
    let known = [
        (
            "allow 10.0.0.0-10.0.0.9\ndeny 10.0.0.5\nallow 10.0.0.6/31\nallow 10.0.0.6/31\n",
            "0.0.0.0-9.255.255.255 none\n10.0.0.0-10.0.0.4 allow\n10.0.0.5-10.0.0.5 deny\n\
                10.0.0.6-10.0.0.9 allow\n10.0.0.10-255.255.255.255 none\nblock 10.0.0.0/30\n\
                block 10.0.0.4/32\nblock 10.0.0.6/31\nblock 10.0.0.8/31\ndead 3\n",
        ),
        ("", "0.0.0.0-255.255.255.255 none\n"),
        (
            "allow 0.0.0.0/0\n",
            "0.0.0.0-255.255.255.255 allow\nblock 0.0.0.0/0\n",
        ),
        (
            "deny 0.0.0.0\nallow 255.255.255.253-255.255.255.255\n",
            "0.0.0.0-0.0.0.0 deny\n0.0.0.1-255.255.255.252 none\n\
                255.255.255.253-255.255.255.255 allow\nblock 255.255.255.253/32\n\
                block 255.255.255.254/31\n",
        ),
        (
            "# all but one\nallow 0.0.0.0/0\n#\ndeny 255.255.255.255/32\n",
            "0.0.0.0-255.255.255.254 allow\n255.255.255.255-255.255.255.255 deny\n\
                block 0.0.0.0/1\nblock 128.0.0.0/2\nblock 192.0.0.0/3\nblock 224.0.0.0/4\n\
                block 240.0.0.0/5\nblock 248.0.0.0/6\nblock 252.0.0.0/7\nblock 254.0.0.0/8\n\
                block 255.0.0.0/9\nblock 255.128.0.0/10\nblock 255.192.0.0/11\n\
                block 255.224.0.0/12\nblock 255.240.0.0/13\nblock 255.248.0.0/14\n\
                block 255.252.0.0/15\nblock 255.254.0.0/16\nblock 255.255.0.0/17\n\
                block 255.255.128.0/18\nblock 255.255.192.0/19\nblock 255.255.224.0/20\n\
                block 255.255.240.0/21\nblock 255.255.248.0/22\nblock 255.255.252.0/23\n\
                block 255.255.254.0/24\nblock 255.255.255.0/25\nblock 255.255.255.128/26\n\
                block 255.255.255.192/27\nblock 255.255.255.224/28\n\
                block 255.255.255.240/29\nblock 255.255.255.248/30\n\
                block 255.255.255.252/31\nblock 255.255.255.254/32\n",
        ),
        (
            "# dead by two\ndeny 0.0.0.0-0.0.0.3\nallow 0.0.0.2/31\nallow 0.0.0.0/31\n",
            "0.0.0.0-0.0.0.3 allow\n0.0.0.4-255.255.255.255 none\nblock 0.0.0.0/30\ndead 2\n",
        ),
    ];
    for (text, answer) in known {
        assert_eq!(rt; answer_of(rt.alloc(), text)?.as_str(), answer);
    }
    Ok(())
}

#[test]
fn the_first_fault_is_the_answer(rt: HostRuntime) -> Result<(), Fail> {
    let known = [
        ("allow 10.0.0.1/31\n", "line 1: bad rule"),
        ("deny 9.0.0.1-9.0.0.0\n", "line 1: reversed range"),
        ("# \nallow 0.0.0.0/33\n", "line 2: bad rule"),
        ("allow 0.0.0.0/00\n", "line 1: bad rule"),
        ("allow 01.0.0.0\n", "line 1: bad rule"),
        ("allow 256.0.0.0\n", "line 1: bad rule"),
        ("allow 1.0.0\n", "line 1: bad rule"),
        ("allow 1.0.0.0.0\n", "line 1: bad rule"),
        ("allow 1.0.0.0-1.0.0.0/32\n", "line 1: bad rule"),
        ("allow  1.0.0.0\n", "line 1: bad rule"),
        ("allow 1.0.0.0\n\n", "line 2: bad rule"),
        ("allow 1.0.0.0", "line 1: bad rule"),
        ("#", "line 1: bad rule"),
        ("deny 1.0.0.1-1.0.0.0\nallow\n", "line 1: reversed range"),
    ];
    for (text, fault) in known {
        assert_eq!(rt; answer_of(rt.alloc(), text)?.as_str(), fault);
    }
    Ok(())
}

#[test]
fn a_ban_is_the_last_word(rt: HostRuntime) -> Result<(), Fail> {
    let rules = [allow(Range::full()), deny(Range::single(7))];
    let table = with_ban(rt.alloc(), &rules, Range::new(10, 20))?;
    for x in [0, 9, 21, u32::MAX] {
        assert!(rt; may_pass(&table, x), "at {x}");
    }
    for x in [7, 10, 20] {
        assert!(rt; !may_pass(&table, x), "at {x}");
    }
    Ok(())
}
