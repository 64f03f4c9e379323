//! The distinct names as rows write them, all in one piece, so that names that follow each other
//! are written at once.
ghost use Rattle.std.specs.Prelude.{◌≡◌, ◌==◌, ℕ, ◌+◌, ◌-◌, ◌<◌, ◌≤◌, ◌++◌, List, IfOk, OnOk, length, map, take, drop, flat_map, get_or};
ghost use Rattle.set_document.specs.Answer.{name_text};
ghost use Rattle.set_document.specs.Labels.{HasLabels, label, label_start, places_from};
ghost use Rattle.set_document.specs.Words.{letters};

use crate::word::Name;
use element_core::NoMemory;
use sorted_vector_map::SortedVectorMap;
use std::alloc::Global;

// The names, each behind a space, one after the other; where each begins, and where the last one
// ends.
#[derive(Drop)]
pub(crate) struct Labels {
    bytes: Vec<u8>,
    starts: Vec<usize>,
}

impl Labels {
    pub(crate) fn new(
        alloc: Global,
        names: &SortedVectorMap<Name<'_>, usize>,
    ) -> Result<Labels, NoMemory>
        ensures { IfOk result (HasLabels (map (λ p. letters p.0) names.now.pairs)) }
    {
        let mut bytes = Vec::new(alloc);
        let mut starts = Vec::with_capacity(alloc, names.len().saturating_add(1))?;
        for (name, _) in names {
            starts.push(bytes.len())?;
            bytes.extend_from_slice(b" ")?;
            bytes.extend_from_slice(name.as_bytes())?;
        }
        starts.push(bytes.len())?;
        Ok(Labels { bytes, starts })
    }

    // Where the label at a place begins, or where the last one ends.
    fn start(&self, place: usize) -> usize
        ensures { (names : List (List ℕ)) → HasLabels names self.now
            → result ≡ label_start names place }
    {
        match self.starts.get(place) {
            Some(start) => *start,
            None => self.bytes.len(),
        }
    }

    // The labels of so many names from a place on.
    pub(crate) fn run(&self, first: usize, count: usize) -> &[u8]
        ensures { (names : List (List ℕ)) → HasLabels names self.now
            → result.now ≡ flat_map label (take count (drop first names)) }
    {
        let behind = first.saturating_add(count).min(self.starts.len());
        match self.bytes.get(self.start(first)..self.start(behind)) {
            Some(part) => part,
            None => &[],
        }
    }
}

// Whether a place is the one so many behind another.
fn follows(first: usize, count: usize, place: usize) -> bool
    ensures { result ≡ (place == first + count) }
{
    place.checked_sub(first) == Some(count)
}

// How many of the places follow each other, from the first on.
fn run_len(places: &[usize]) -> usize
    requires { 0 < length places.now }
    ensures some { 0 < result }
    ensures within { result ≤ length places.now }
    ensures follow { take result places.now ≡ places_from (get_or places.now 0 0) result }
{
    let mut count = 1;
    while count < places.len() && follows(places[0], count, places[count]) {
        count += 1;
    }
    count
}

// Writes the names at these places, each behind a space.
pub(crate) fn push_names(
    out: &mut Vec<u8>,
    labels: &Labels,
    places: &[usize],
) -> Result<(), NoMemory>
    ensures { (names : List (List ℕ)) → HasLabels names labels.now → OnOk result
        (out.new.items ≡ out.old.items ++ flat_map (name_text names) places.now) }
{
    let mut at = 0;
    while at < places.len() {
        let count = run_len(&places[at..]);
        out.extend_from_slice(labels.run(places[at], count))?;
        at += count;
    }
    Ok(())
}

// How many bytes the names at these places take, each behind a space.
pub(crate) fn names_len(labels: &Labels, places: &[usize]) -> usize {
    let mut total: usize = 0;
    let mut at = 0;
    while at < places.len() {
        let count = run_len(&places[at..]);
        total = total.saturating_add(labels.run(places[at], count).len());
        at += count;
    }
    total
}
