//! Laws of the definitions. Each function does nothing: its contract is the law.
ghost use Rattle.number_line.specs.Laws.{OneCanonicalList};
ghost use Rattle.number_line.specs.SetLaws.{NegatedTwice};
ghost use Rattle.number_line.specs.ValuedLaws.{SameValuesSameList};

/// Two canonical lists of ranges with the same members are the same list, and so two sets with the
/// same members are equal.
pub fn same_members_same_ranges()
    ensures { OneCanonicalList }
{}

/// Two canonical lists of ranges with values that have equal values, or none, at each number are
/// the same pair by pair, and so two maps with equal values at each key are equal.
pub fn same_values_same_map<V: Eq>()
    ensures { SameValuesSameList V.eq }
{}

/// What is left out by one that leaves out the members of a set is the set: two canonical lists
/// each of which has, at every number between the ends, what a third one hasn't, are the same list.
pub fn negated_twice_is_the_set()
    ensures { NegatedTwice }
{}
