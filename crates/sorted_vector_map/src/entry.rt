//! A key's place in a map: at its pair, or where there is none.
ghost use Rattle.std.specs.Prelude.{◌≡◌, ◌≤◌, true, false, Some, unwrap_or, IsOk, IfOk, IfErr};
ghost use Rattle.std.specs.Borrow.{sem, MutBor};
ghost use Rattle.std.specs.Map.Calls.{ModifiesValue};
ghost use Rattle.std.specs.Option.{UnwrapsOrElse};
ghost use Rattle.sorted_vector_map.specs.Entry.{home, is_taken, HasKey, stored, after_storing, IsSamePlace, writes_through_if_ok};

use element_core::Refused;

mod enter;
mod occupied;
mod shown;
mod vacant;

pub use occupied::OccupiedEntry;
pub use vacant::VacantEntry;

/// The place of a key in a map, from `SortedVectorMap::entry`.
#[derive(Drop)]
pub enum Entry<'a, K: Ord, V> {
    /// No stored key is equal to the given one, which the entry has.
    Vacant(VacantEntry<'a, K, V>),
    /// A stored key is equal to the given one, and its pair stands here.
    Occupied(OccupiedEntry<'a, K, V>),
}

impl<'a, K: Ord, V> Entry<'a, K, V> {
    /// Returns the stored key, or the given one where there is none. O(1) time, no memory.
    pub fn key(&self) -> &K
        ensures { HasKey self.now result.now }
    {
        match self {
            Entry::Occupied(taken) => taken.key(),
            Entry::Vacant(free) => free.key(),
        }
    }

    /// Returns the stored value for writing, or `default`, which is put in at the given key.
    ///
    /// Where memory is short, the map stays, and the key and `default` come back. That never
    /// happens where the entry is occupied or the map has spare. Putting in costs what
    /// `SortedVectorMap::insert` costs, without the search.
    pub fn or_insert(self, default: V) -> Result<&'a mut V, Refused<(K, V)>>
    where
        V: Drop,
        ensures* writes_back { sem 𝓛 (writes_through_if_ok K.row V.row self.entry result) }
        ensures value { IfOk result (λ lent. lent.now ≡ unwrap_or (stored self.entry) default) }
        ensures given { IfErr result (λ refused. HasKey self.entry refused.given.0
            × (refused.given.1 ≡ default)) }
        ensures present { is_taken self.entry ≡ true → IsOk result }
        ensures roomy { 1 ≤ (home self.entry).now.spare → IsOk result }
    {
        self.or_insert_with(|| default)
    }

    /// Returns the stored value for writing, or what `default` returns, which is put in at the
    /// given key. `default` is called exactly where the entry is vacant.
    ///
    /// It is refused where `or_insert` is, and costs the same.
    pub fn or_insert_with<F: FnOnce() -> V>(self, default: F) -> Result<&'a mut V, Refused<(K, V)>>
        requires { is_taken self ≡ false → F.pre default }
        ensures* writes_back { sem 𝓛 (writes_through_if_ok K.row V.row self.entry result) }
        ensures value { IfOk result (λ lent. UnwrapsOrElse (stored self.entry)
            (F.post default) lent.now) }
        ensures given { IfErr result (λ refused. HasKey self.entry refused.given.0
            × F.post default refused.given.1) }
        ensures present { is_taken self.entry ≡ true → IsOk result }
        ensures roomy { 1 ≤ (home self.entry).now.spare → IsOk result }
    {
        match self {
            Entry::Vacant(free) => free.insert(default()),
            Entry::Occupied(taken) => Ok(taken.into_mut()),
        }
    }

    /// Returns the stored value for writing, or the type's default, which is put in at the given
    /// key.
    ///
    /// It is refused where `or_insert` is, and costs the same.
    pub fn or_default(self) -> Result<&'a mut V, Refused<(K, V)>>
    where
        V: Default,
        ensures* writes_back { sem 𝓛 (writes_through_if_ok K.row V.row self.entry result) }
        ensures value { IfOk result (λ lent. UnwrapsOrElse (stored self.entry) V.is_default
            lent.now) }
        ensures given { IfErr result (λ refused. HasKey self.entry refused.given.0
            × V.is_default refused.given.1) }
        ensures present { is_taken self.entry ≡ true → IsOk result }
        ensures roomy { 1 ≤ (home self.entry).now.spare → IsOk result }
    {
        match self {
            Entry::Occupied(taken) => Ok(taken.into_mut()),
            Entry::Vacant(free) => free.insert(V::default()),
        }
    }

    /// Calls `f` on the stored value, exactly where the entry is occupied, and returns the entry.
    /// O(1) time beside the call, and no memory.
    pub fn and_modify<F: FnOnce(&mut V)>(self, f: F) -> Entry<'a, K, V>
        requires { (v : MutBor V) → stored self ≡ Some v.now → F.pre f v }
        ensures place { IsSamePlace self.entry result }
        ensures modified { ModifiesValue F.FnOnce f (stored self.entry) (stored result) }
        ensures pairs { (home result).now.pairs ≡ after_storing self.entry (stored result) }
    {
        match self {
            Entry::Occupied(mut taken) => {
                f(taken.get_mut());
                Entry::Occupied(taken)
            }
            Entry::Vacant(free) => Entry::Vacant(free),
        }
    }
}
