//! The names of the lines so far, and where each stands last.
ghost use Rattle.std.specs.Prelude.{◌≡◌, ◌∷◌, ◌++◌, [], IfOk, OnOk, map};
ghost use Rattle.set_document.specs.Names.{last_place, AreLastPlaces, IsIndex};
ghost use Rattle.set_document.specs.Words.{letters, letters_of};

use crate::word::Name;
use element_core::NoMemory;
use sorted_vector_map::SortedVectorMap;
use std::alloc::Global;
use std::marker::Model;

// The place of each pair, in order.
fn seconds(alloc: Global, latest: &SortedVectorMap<Name<'_>, usize>) -> Result<Vec<usize>, NoMemory>
    ensures { IfOk result (λ places. places.items ≡ map (λ p. p.1) latest.now.pairs) }
{
    let mut places = Vec::with_capacity(alloc, latest.len())?;
    for (_, place) in latest {
        places.push(*place)?;
    }
    Ok(places)
}

// The names of the lines in order, and for each name the place of its latest line. Contracts see
// the list of the names.
#[derive(Drop)]
pub(crate) struct Names<'t> {
    list: Vec<Name<'t>>,
    latest: SortedVectorMap<Name<'t>, usize>,
}

impl<'t> Model for Names<'t> {
    ghost use Rattle.std.specs.Prelude.{ℕ, List};

    ghost Value = { List (List ℕ) };

    ghost use Rattle.set_document.specs.Names.{IsIndex};
    ghost use Rattle.set_document.specs.Words.{letters_of};

    ghost view = { λ names. letters_of names.list.items };

    ghost invariant = { λ names. IsIndex (letters_of names.list.items) names.latest.pairs };
}

impl<'t> Names<'t> {
    pub(crate) fn new(alloc: Global) -> Names<'t>
        ensures { result ≡ [] }
    {
        Names {
            list: Vec::new(alloc),
            latest: SortedVectorMap::new(alloc),
        }
    }

    // The place of the latest line of that name.
    pub(crate) fn place(&self, name: &Name<'t>) -> Option<usize>
        ensures { result ≡ last_place self.now (letters name.now) }
    {
        let place = self.latest.get(name)?;
        Some(*place)
    }

    // The names in order.
    pub(crate) fn as_slice(&self) -> &[Name<'t>]
        ensures { letters_of result.now ≡ self.now }
    {
        self.list.as_slice()
    }

    // For each distinct name, in order, the place of its latest line.
    pub(crate) fn last_places(&self, alloc: Global) -> Result<Vec<usize>, NoMemory>
        ensures { IfOk result (λ places. AreLastPlaces self.now places.items) }
    {
        let places = seconds(alloc, &self.latest)?;
        Ok(places)
    }

    // For each distinct name, in order, the place of its latest line, as a map.
    pub(crate) fn into_latest(self) -> SortedVectorMap<Name<'t>, usize>
        ensures { IsIndex self.entry result.pairs }
    {
        self.latest
    }

    // Puts one more name behind the others.
    pub(crate) fn push(&mut self, name: Name<'t>) -> Result<(), NoMemory>
        ensures { OnOk result (self.new ≡ self.old ++ letters name.entry ∷ []) }
    {
        let place = self.list.len();
        self.list.reserve(1)?;
        match self.latest.insert(name, place) {
            Ok(_) => {
                self.list.push_reserved(name);
                Ok(())
            }
            Err(_) => Err(NoMemory),
        }
    }
}
