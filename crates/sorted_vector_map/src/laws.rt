//! Laws of the definitions. Each function does nothing: its contract is the law.
ghost use Rattle.sorted_vector_map.specs.Cloned.{ClonesOfPairsAreEqual};
ghost use Rattle.sorted_vector_map.specs.Refilled.{RefilledKeepsKeys, RefilledKeepsLength};

/// Whatever values are written through an iterator that lends them, the map keeps its keys, in
/// their order.
pub fn refilled_keeps_keys<K: Ord, V>()
    ensures { RefilledKeepsKeys K V }
{}

/// Whatever values are written through an iterator that lends them, the map keeps its number of
/// pairs.
pub fn refilled_keeps_length<K: Ord, V>()
    ensures { RefilledKeepsLength K V }
{}

/// Where clones are equal to what was cloned, keys and values, a map of clones is equal to the map.
pub fn clones_are_equal<K: Ord + Clone, V: PartialEq + Clone>()
    ensures { ClonesOfPairsAreEqual K.is_clone V.is_clone K.eq V.eq }
{}
