//! Laws of the definitions. Each function does nothing: its contract is the law.
ghost use Rattle.number_line.specs.Laws.{OneCanonicalList, SegmentsAreTheCut, RunsAreCanonical, SegmentsAreFewest};
ghost use Rattle.number_line.specs.ValuedLaws.{CanonicalIsKept};

/// Two canonical lists that hold the same numbers are the same list.
pub fn one_canonical_list()
    ensures { OneCanonicalList }
{}

/// The runs of a test of numbers are canonical and hold just the numbers that pass it.
pub fn runs_are_canonical()
    ensures { RunsAreCanonical }
{}

/// The segments of a labelling cut the numbers where the label changes, and no other list does.
/// Labels are compared by `==` of their type.
pub fn segments_are_the_cut<L: Eq>()
    ensures { SegmentsAreTheCut L.eq }
{}

/// No split of the numbers into ranges of one label each is shorter than the segments.
pub fn segments_are_fewest<L: Eq>()
    ensures { SegmentsAreFewest L.eq }
{}

/// Of a canonical list of ranges with values every pair is kept as it is, and none is discarded.
pub fn canonical_is_kept<V: Eq>()
    ensures { CanonicalIsKept V.eq }
{}
