//! What holds of cuts, for any numbers.
ghost use Rattle.cut_points.specs.Laws.{CutsOneToOne, CutsOfSymmetricDifference};

/// The cuts of canonical lists are the ascending lists of numbers, one for each, and a number is a
/// member exactly where the count of cuts at most it is odd.
pub fn cuts_one_to_one()
    ensures { CutsOneToOne }
{}

/// The cuts of the members of just one of two sets are the cuts of just one of them.
pub fn cuts_of_symmetric_difference()
    ensures { CutsOfSymmetricDifference }
{}
