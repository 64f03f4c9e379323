//! Laws of the definitions. Each function does nothing: its contract is the law.
ghost use Rattle.ordered_lists.specs.Laws.{PlacingAscends, OperationsAscend, FoundAlikeIsOne};

/// An item that is placed, in either way, leaves the list in order.
pub fn placing_ascends<T: Ord>()
    ensures { PlacingAscends T.cmp }
{}

/// The four set operations of two lists in order give lists in order.
pub fn operations_ascend<T: Ord>()
    ensures { OperationsAscend T.cmp }
{}

/// Two lists in order in which the same is found for every key are one list.
pub fn found_alike_is_one<T: Ord>()
    ensures { FoundAlikeIsOne T.cmp }
{}
