//! What a caller does next: a key that was put in is read, a clone is equal, and keys stay.
ghost use Rattle.std.specs.Prelude.{◌≡◌, true, length, map, IfOk};
ghost use Rattle.ordered_lists.specs.Taken.{ClonesAreEqual};

use sorted_vector_map::laws::{clones_are_equal, refilled_keeps_keys, refilled_keeps_length};
use sorted_vector_map::{Entry, Keys, NoMemory, Refused, SortedVectorMap};
use std::alloc::{AllocError, Global};

/// The value that was put in, read at its key.
pub fn put_and_read<K: Ord + Copy + Drop>(
    ages: &mut SortedVectorMap<K, u32>,
    key: K,
    age: u32,
) -> Result<u32, Refused<(K, u32)>>
    ensures { IfOk result (λ read. read ≡ age) }
{
    ages.insert(key, age)?;
    Ok(*ages.index(&key))
}

/// The value at a key, which `or_insert` puts in where it is missing.
pub fn read_or_insert<K: Ord + Copy + Drop>(
    ages: &mut SortedVectorMap<K, u32>,
    key: K,
    age: u32,
) -> Result<u32, Refused<(K, u32)>> {
    ages.entry(key).or_insert(age)?;
    Ok(*ages.index(&key))
}

/// The same by `or_insert_with`.
pub fn read_or_insert_with<K: Ord + Copy + Drop>(
    ages: &mut SortedVectorMap<K, u32>,
    key: K,
    age: u32,
) -> Result<u32, Refused<(K, u32)>> {
    ages.entry(key).or_insert_with(|| age)?;
    Ok(*ages.index(&key))
}

/// The same by `or_default`.
pub fn read_or_default<K: Ord + Copy + Drop>(
    ages: &mut SortedVectorMap<K, u32>,
    key: K,
) -> Result<u32, Refused<(K, u32)>> {
    ages.entry(key).or_default()?;
    Ok(*ages.index(&key))
}

/// The same by `VacantEntry::insert`.
pub fn read_or_fill<K: Ord + Copy + Drop>(
    ages: &mut SortedVectorMap<K, u32>,
    key: K,
    age: u32,
) -> Result<u32, Refused<(K, u32)>> {
    match ages.entry(key) {
        Entry::Vacant(free) => {
            free.insert(age)?;
            Ok(*ages.index(&key))
        }
        Entry::Occupied(taken) => Ok(*taken.get()),
    }
}

/// Whether a clone of the map is equal to it, which it is where clones of values are.
pub fn clone_is_equal<K: Ord + Clone + Drop, V: PartialEq + Clone + Drop>(
    alloc: Global,
    stock: &SortedVectorMap<K, V>,
) -> Result<bool, NoMemory>
    requires keys { ClonesAreEqual K.is_clone K.eq }
    requires values { ClonesAreEqual V.is_clone V.eq }
    ensures { IfOk result (λ equal. equal ≡ true) }
{
    clones_are_equal::<K, V>();
    let copy = stock.try_clone(alloc)?;
    Ok(copy == *stock)
}

/// Writes one price for all: the keys stay, and their number.
pub fn set_all(prices: &mut SortedVectorMap<u32, u32>, price: u32)
    ensures keys { map (λ p. p.0) prices.new.pairs ≡ map (λ p. p.0) prices.old.pairs }
    ensures len { length prices.new.pairs ≡ length prices.old.pairs }
{
    refilled_keeps_keys::<u32, u32>();
    refilled_keeps_length::<u32, u32>();
    for (_, value) in prices.iter_mut() {
        *value = price;
    }
}

/// Whether a clone of the keys gives what they give, from either end, which it does.
pub fn clone_gives_the_same(keys: &mut Keys<'_, u32, u32>) -> Result<bool, AllocError>
    ensures { IfOk result (λ same. same ≡ true) }
{
    let mut copy = keys.clone()?;
    let first = keys.next().copied() == copy.next().copied();
    let last = keys.next_back().copied() == copy.next_back().copied();
    Ok(first && last)
}
