//! What sets made from ranges in any order hold, by example.
use element_core::NoMemory;
use range_map::{Range, RangeSet};
use std::alloc::Global;
use std::test::Fail;

fn ends_of(alloc: Global, set: &RangeSet<i64>) -> Result<Vec<(i64, i64)>, NoMemory> {
    let mut ends = Vec::new(alloc);
    for range in set.ranges() {
        ends.push((range.start(), range.end()))?;
    }
    Ok(ends)
}

#[test]
fn ranges_in_any_order_are_joined(rt: HostRuntime) -> Result<(), Fail> {
    let alloc = rt.alloc();
    let mut ranges = Vec::new(alloc);
    ranges.push(Range::new(30, 31))?;
    ranges.push(Range::new(7, 20))?;
    ranges.push(Range::new(1, 3))?;
    ranges.push(Range::new(8, 9))?;
    ranges.push(Range::new(4, 5))?;
    let set = RangeSet::try_from_iter(alloc, ranges)?;
    assert_eq!(rt;
        ends_of(alloc, &set)?.as_slice(),
        [(1, 5), (7, 20), (30, 31)].as_slice()
    );
    Ok(())
}

#[test]
fn ranges_at_the_greatest_value_are_joined(rt: HostRuntime) -> Result<(), Fail> {
    let alloc = rt.alloc();
    let mut ranges = Vec::new(alloc);
    ranges.push(Range::new(i64::MAX, i64::MAX))?;
    ranges.push(Range::new(5, i64::MAX))?;
    let set = RangeSet::try_from_iter(alloc, ranges)?;
    assert_eq!(rt;
        ends_of(alloc, &set)?.as_slice(),
        [(5, i64::MAX)].as_slice()
    );
    Ok(())
}

#[test]
fn no_range_gives_the_empty_set(rt: HostRuntime) -> Result<(), Fail> {
    let alloc = rt.alloc();
    let none: Vec<Range<u8>> = Vec::new(alloc);
    let set = RangeSet::try_from_iter(alloc, none)?;
    assert!(rt; set.is_empty());
    Ok(())
}
