//! Laws of the paths that walks in the logs of an ordered core take, for any key and under any pin.
ghost use Rattle.nm_order.specs.Moments.{OfEachOrderedRun};
ghost use Rattle.nm_order.specs.RadixPaths.{AnyWalkInRangeWasReached, AnyWalkOutOfRangeEndsElsewhere, AnyWalkOutOfRangeWasRight, AnyWalkWasInTree};
ghost use Rattle.nm_order.specs.StalePaths.{AnyWalkReadsKeys, AnyWalkStaysInOrder, AnyWalkWasReached};
ghost use Rattle.nm_order.specs.WalkAnswers.{AnyWalkTells, WalksTellOfTheirPin};

/// Law: in every ordered run, a walk in a worker's log after its pin is not harmed by stale edges,
/// for any key below that of slot 2, with or without a call. In a tree of the shape of Natarajan
/// and Mittal, each slot to which the walk came was reached at some moment after the pin was
/// confirmed. This includes slots that it reached by edges that were cut off later. At that moment
/// the search for the key came to the slot, and the slot still has the same node. If that slot is
/// an internal node that is reached now, the search for the key comes to it now. In a tree of
/// either shape, a key that a walk read is still the node's key.
///
/// Each walk begins at the left edge of slot 2. The walks that a core keeps of a call are walks for
/// its key after its pin (`walks_are_arrivals`), so this holds of them. (The hindsight of O'Hearn,
/// Rinetzky, Vechev, Vafeiadis and Yorsh, for the search of Natarajan and Mittal, section 3.)
pub fn stale_paths_do_no_harm()
    ensures reached { OfEachOrderedRun AnyWalkWasReached }
    ensures intervals { OfEachOrderedRun AnyWalkStaysInOrder }
    ensures keys { OfEachOrderedRun AnyWalkReadsKeys }
{}

/// Law: in every ordered run, a walk in a worker's log after its pin comes only to slots that were
/// reached at some moment after the pin was confirmed, and that still have the same node. This holds
/// in a tree of either shape. In a radix tree, for any key below that of slot 2, with or without a
/// call: as long as the key is in the range of each node that the walk has passed, the search for
/// the key came to the slot at such a moment. So it did at the first node without the key in its
/// range from which the walk went on; and at that moment the key was not in the set. A walk that has
/// passed such a node ends at a leaf with another key.
///
/// The leaf at the end of such a walk need not have been reached with the key in its interval: the
/// schedule `stale-radix` of the examples shows it. (The hindsight of O'Hearn, Rinetzky, Vechev,
/// Vafeiadis and Yorsh; the argument for radix trees is ours.)
pub fn radix_walks_do_no_harm()
    ensures reached { OfEachOrderedRun AnyWalkWasInTree }
    ensures in_range { OfEachOrderedRun AnyWalkInRangeWasReached }
    ensures out_of_range { OfEachOrderedRun AnyWalkOutOfRangeWasRight }
    ensures ends { OfEachOrderedRun AnyWalkOutOfRangeEndsElsewhere }
{}

/// Law: in every ordered run, the leaf at which a walk in a worker's log after its pin has ended
/// shows whether the walk's key was in the set, for any key below that of slot 2. It was so at a
/// moment after the pin was confirmed, and later than any earlier run at whose end the worker was
/// not pinned. So several walks may alternate under one pin, and each has its own moment. (The
/// hindsight of O'Hearn, Rinetzky, Vechev, Vafeiadis and Yorsh, for the search of Natarajan and
/// Mittal, section 3.2.)
pub fn walks_tell_of_the_set()
    ensures pin { OfEachOrderedRun AnyWalkTells }
    ensures since { WalksTellOfTheirPin }
{}
