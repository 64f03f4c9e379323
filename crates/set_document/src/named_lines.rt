//! The named lines of a document so far, and where each name stands last.
ghost use Rattle.std.specs.Prelude.{◌≡◌, ◌∷◌, ◌++◌, [], ℤ, map, OnOk, option_map, is_some, bytes_eq};
ghost use Rattle.std.specs.List.{list_any};
ghost use Rattle.number_line.specs.Ranges.{holds, IsCanonical};
ghost use Rattle.set_document.specs.Lines.{line_lists_of, lines_of, names_of, AllCanonical};
ghost use Rattle.set_document.specs.Names.{IsIndex, distinct_names};
ghost use Rattle.set_document.specs.Numbers.{least, greatest};
ghost use Rattle.set_document.specs.Truth.{at, latest};
ghost use Rattle.set_document.specs.Words.{letters};

use crate::names::Names;
use crate::word::Name;
use element_core::NoMemory;
use range_map::RangeSet;
use sorted_vector_map::SortedVectorMap;
use std::alloc::Global;
use std::marker::Model;

// A named line and the set that its words leave.
#[derive(Drop)]
pub(crate) struct Line<'t> {
    pub(crate) name: Name<'t>,
    pub(crate) set: RangeSet<i64>,
}

impl<'t> Line<'t> {
    #[tactic(auto, unfolding(crate::specs::Numbers::least, crate::specs::Numbers::greatest))]
    pub(crate) fn new(name: Name<'t>, set: RangeSet<i64>) -> Line<'t>
        ensures line { result ≡ record { name = name.entry; set = set } }
        ensures canonical { IsCanonical least greatest set }
    {
        // Reading a set tells that it is canonical.
        let _ = set.ranges();
        Line { name, set }
    }
}

// The named lines in order, and for each name the place of its latest line. Contracts see the
// lines as names with ranges.
#[derive(Drop)]
pub(crate) struct NamedLines<'t> {
    lines: Vec<Line<'t>>,
    latest: SortedVectorMap<Name<'t>, usize>,
}

impl<'t> Model for NamedLines<'t> {
    ghost use Rattle.std.specs.Prelude.{ℕ, ℤ, List};

    ghost Value = { List (List ℕ × List (ℤ × ℤ)) };

    ghost use Rattle.set_document.specs.Indexed.{AreIndexed};
    ghost use Rattle.set_document.specs.Lines.{line_lists_of};

    ghost view = { λ named. line_lists_of named.lines.items };

    ghost invariant = { λ named. AreIndexed (line_lists_of named.lines.items) named.latest.pairs };
}

impl<'t> NamedLines<'t> {
    pub(crate) fn new(alloc: Global) -> NamedLines<'t>
        ensures { result ≡ [] }
    {
        NamedLines {
            lines: Vec::new(alloc),
            latest: SortedVectorMap::new(alloc),
        }
    }

    // These lines, whose names in order are those.
    pub(crate) fn with_names(lines: Vec<Line<'t>>, names: Names<'t>) -> NamedLines<'t>
        requires names { names_of (line_lists_of lines.items) ≡ names }
        requires canonical { AllCanonical (line_lists_of lines.items) }
        ensures { result ≡ line_lists_of lines.entry.items }
    {
        let latest = names.into_latest();
        NamedLines { lines, latest }
    }

    // The lines in order.
    pub(crate) fn lines(&self) -> &[Line<'t>]
        ensures lines { line_lists_of result.now ≡ self.now }
        ensures canonical { AllCanonical self.now }
    {
        self.lines.as_slice()
    }

    // The distinct names in order, each with the place of its latest line.
    pub(crate) fn names(&self) -> &SortedVectorMap<Name<'t>, usize>
        ensures names { map (λ p. letters p.0) result.now.pairs
            ≡ distinct_names (names_of self.now) }
        ensures indexed { IsIndex (names_of self.now) result.now.pairs }
    {
        &self.latest
    }

    // The set of the latest line of that name.
    pub(crate) fn latest_set(&self, name: &Name<'t>) -> Option<&RangeSet<i64>>
        ensures truth { (x : ℤ) → option_map (λ set. holds set.now x) result ≡ latest
            (at (lines_of self.now) x) (letters name.now) }
        ensures known { is_some result ≡ list_any (λ n. bytes_eq n (letters name.now))
            (names_of self.now) }
    {
        let place = self.latest.get(name)?;
        let line = self.lines.get(*place)?;
        Some(&line.set)
    }

    // Puts one more line behind the others.
    pub(crate) fn push(&mut self, name: Name<'t>, set: RangeSet<i64>) -> Result<(), NoMemory>
        ensures { OnOk result (self.new ≡ self.old ++ (letters name.entry, set) ∷ []) }
    {
        let place = self.lines.len();
        self.lines.reserve(1)?;
        match self.latest.insert(name, place) {
            Ok(_) => {
                self.lines.push_reserved(Line::new(name, set));
                Ok(())
            }
            Err(_) => Err(NoMemory),
        }
    }
}
