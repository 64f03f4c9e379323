//! What no contract shows: each type's calls at its two ends, through the trait.
use crate::{Element, NoMemory, Refused, compare, is_at_most, is_below};
use std::cmp::Ordering;
use std::process::Abort;
use std::test::Fail;

// The calls at the two ends of a type that has at least two values and `steps` steps between its
// ends.
fn stops_at_both_ends<T: Element>(rt: &impl Abort, steps: usize) {
    let least = T::min_value();
    let greatest = T::max_value();
    assert!(rt; least.predecessor().is_none() && greatest.successor().is_none());
    assert!(rt; compare(least, greatest) == Ordering::Less);
    assert!(rt; is_below(least, greatest) && !is_below(greatest, least) && !is_below(least, least));
    assert!(rt;
        is_at_most(least, greatest) && !is_at_most(greatest, least) && is_at_most(least, least)
    );
    match (least.successor(), greatest.predecessor()) {
        (Some(second), Some(last_but_one)) => {
            assert!(rt; is_below(least, second) && is_below(last_but_one, greatest));
            assert!(rt; least.steps_to(second) == 1 && last_but_one.steps_to(greatest) == 1);
        }
        _ => assert!(rt; false, "there are two values or more"),
    }
    least.in_type();
    greatest.in_type();
    assert!(rt; least.steps_to(greatest) == steps);
}

#[test]
fn every_type_stops_at_both_ends(rt: HostRuntime) {
    stops_at_both_ends::<i8>(&rt, 255);
    stops_at_both_ends::<i16>(&rt, 65_535);
    stops_at_both_ends::<i32>(&rt, 4_294_967_295);
    stops_at_both_ends::<i64>(&rt, usize::MAX);
    stops_at_both_ends::<i128>(&rt, usize::MAX);
    stops_at_both_ends::<isize>(&rt, usize::MAX);
    stops_at_both_ends::<u8>(&rt, 255);
    stops_at_both_ends::<u16>(&rt, 65_535);
    stops_at_both_ends::<u32>(&rt, 4_294_967_295);
    stops_at_both_ends::<u64>(&rt, usize::MAX);
    stops_at_both_ends::<u128>(&rt, usize::MAX);
    stops_at_both_ends::<usize>(&rt, usize::MAX);
}

#[test]
fn want_of_memory_is_written(rt: HostRuntime) -> Result<(), Fail> {
    let alloc = rt.alloc();
    assert!(&rt; format!(in alloc; "{NoMemory}")?.as_str() == "no memory");
    let refused = Refused { given: 7 };
    let text = format!(in alloc; "{refused}")?;
    assert!(&rt; text.as_str().len() > 0 && refused.given == 7);
    Ok(())
}

// Refuses the number, as a call that takes it over would.
fn refuse(number: u8) -> Result<(), Refused<u8>> {
    Err(Refused { given: number })
}

// Asks for memory through a call that hands its argument back.
fn ask(number: u8) -> Result<(), NoMemory> {
    refuse(number)?;
    Ok(())
}

#[test]
fn a_refused_argument_is_want_of_memory(rt: HostRuntime) {
    assert!(&rt; matches!(ask(7), Err(NoMemory)));
}
