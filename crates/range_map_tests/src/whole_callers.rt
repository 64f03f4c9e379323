//! What the caller of an access list and of a bookings table learns.
ghost use Rattle.std.specs.Prelude.{◌≡◌, ℤ, pos, ◌≤ℤ◌, ◌==◌, not, is_some, filter, map, true};
ghost use Rattle.std.specs.Prelude.{IfOk, nat_eq};
ghost use Rattle.std.specs.Option.{option_eq};
ghost use Rattle.number_line.specs.Except.{IsExcept};
ghost use Rattle.number_line.specs.KeysValues.{keys_values};
ghost use Rattle.number_line.specs.Parts.{value_within};
ghost use Rattle.number_line.specs.Ranges.{holds};
ghost use Rattle.number_line.specs.Valued.{value_at};

use element_core::NoMemory;
use range_map::{RangeMap, RangeSet};
use std::alloc::Global;

/// Returns whether an access list lets an address in, which is in no range that is shut.
pub fn lets_in(shut: &RangeSet<u32>, address: u32) -> bool
    ensures { result ≡ not (holds shut.now (pos address)) }
{
    !shut.contains(address)
}

/// Returns the days that no booking holds.
pub fn free_days(alloc: Global, bookings: &RangeMap<u16, u32>) -> Result<RangeSet<u16>, NoMemory>
    ensures { IfOk result (λ days. (day : ℤ) → pos 0 ≤ℤ day → day ≤ℤ pos 65535
        → holds days day ≡ not (is_some (value_at bookings.now day))) }
{
    let booked = bookings.to_range_set(alloc)?;
    let free = booked.negated(alloc)?;
    Ok(free)
}

/// Returns the addresses that are shut where just the given ones are let in, or `None` where some
/// of these is less than the one before it.
pub fn shut_but(alloc: Global, allowed: Vec<u32>) -> Result<Option<RangeSet<u32>>, NoMemory>
    ensures { IfOk result (IsExcept (pos 0) (pos 4294967295) (map pos allowed.items)) }
{
    let shut = RangeSet::except(alloc, allowed.into_iter())?;
    Ok(shut)
}

/// Takes the bookings of a customer out of the table.
pub fn cancel(bookings: &mut RangeMap<u16, u32>, customer: u32)
    ensures { bookings.new ≡ filter (λ booking. not (booking.1 == customer)) bookings.old }
{
    bookings.retain_values(|booking| *booking != customer);
}

/// Hands the bookings of a customer over to another one. Each day that was booked stays booked, and
/// no other is.
pub fn hand_over(bookings: &mut RangeMap<u16, u32>, customer: u32, other: u32)
    ensures { (day : ℤ) → is_some (value_at bookings.new day)
        ≡ is_some (value_at bookings.old day) }
{
    bookings.map_values(|booking| if *booking == customer {
        other
    } else {
        *booking
    });
}

/// Returns the bookings of the days of a season.
pub fn in_season(
    alloc: Global,
    bookings: &RangeMap<u16, u32>,
    season: &RangeSet<u16>,
) -> Result<RangeMap<u16, u32>, NoMemory>
    ensures { IfOk result (λ some. (day : ℤ) → pos 0 ≤ℤ day → day ≤ℤ pos 65535
        → option_eq nat_eq (value_at some day) (value_within bookings.now season.now day)
        ≡ true) }
{
    let some = bookings.intersection(alloc, season)?;
    Ok(some)
}

/// Returns the days that are booked, each with its customer.
pub fn day_by_day(alloc: Global, bookings: &RangeMap<u16, u32>) -> Result<Vec<(u16, u32)>, NoMemory>
    ensures { IfOk result (λ days. map (λ day. (pos day.0, day.1)) days.items
        ≡ keys_values bookings.now) }
{
    let mut days = Vec::new(alloc);
    for (day, customer) in bookings.keys_values() {
        days.push((day, *customer))?;
    }
    Ok(days)
}
