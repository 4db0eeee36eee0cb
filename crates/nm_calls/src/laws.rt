//! Laws of maps: a leaf keeps its value from its link to its cut, and the map is linearizable.
ghost use Rattle.nm_calls.specs.ComingBack.{NodesAreFreedOnce, PinnedValuesStayOut};
ghost use Rattle.nm_calls.specs.GotValues.{GotLeavesAreNotFreed, GotValuesStayOut, GuardedLeavesAreNotFreed, GuardedValuesStayOut};
ghost use Rattle.nm_calls.specs.KeptValues.{LeavesKeepTheirValues, PutValuesStay, TakenValuesAreCut, ValuesAreByAllStores};
ghost use Rattle.nm_calls.specs.MapHistories.{GetsAreOfTheMap, HistoriesAreOfMaps, TakenValuesAreOfTheirActs, ValuesWerePut};
ghost use Rattle.nm_calls.specs.OnceBack.{CutValuesWereStored, ValuesComeBackOnce, ValuesComeBackAsStored};
ghost use Rattle.nm_calls.specs.StoredLeaves.{LeavesHaveOneStore, StoredValuesAreAtOnePlace};

/// Law: in every ordered run, a leaf that is in the map stays in it with its key and its value
/// until a turn cuts it off.
pub fn leaves_keep_their_values()
    ensures { LeavesKeepTheirValues }
{}

/// Law: in every ordered run, if a worker put a key into the map with a value, the map has the key
/// with this value, and with no other, until a turn cuts off the leaf. It has it by all stores that
/// extend those which the worker had seen then.
pub fn put_values_stay()
    ensures { PutValuesStay }
{}

/// Law: in every ordered run, if a delete has taken a value, the map has the key with this value right
/// before the turn that cuts off the leaf which the delete has flagged.
pub fn taken_values_are_cut()
    ensures { TakenValuesAreCut }
{}

/// Law: in every ordered run, what the map has at a moment by the stores that one worker has seen, it
/// has by all later stores. So once a worker has heard another one's note, the values that both have
/// got are of one map.
pub fn values_are_by_all_stores()
    ensures { ValuesAreByAllStores }
{}

/// Law: in every ordered run, each history of the turns up to which the stores are given is one of
/// a plain map too. Its calls have values with which one map, empty at first, gives each call its
/// answer. Each won swap is a put. It finds the value of the old leaf, and leaves the value that its
/// worker stored for the new one. At each moment this map has just the keys of the reached leaves, with
/// their values.
pub fn histories_are_of_maps()
    ensures { HistoriesAreOfMaps }
{}

/// Law: in every ordered run, in each history of a map, the act of a true delete has the value that its
/// call has taken. So the map is linearizable with the values that its deletes return: each gets the
/// value that the plain map has right before the delete. The worker has won one flag during the call.
pub fn taken_values_are_of_their_acts()
    ensures { TakenValuesAreOfTheirActs }
{}

/// Law: a look-up of a value has the answer that the plain map of a history has at the moment of
/// the look-up.
pub fn gets_are_of_the_map()
    ensures { GetsAreOfTheMap }
{}

/// Law: in all turns that have the headline, no two turns free one node. So a leaf hands out its
/// value once.
pub fn nodes_are_freed_once()
    ensures { NodesAreFreedOnce }
{}

/// Law: in all turns that have the headline, a worker that got a value under its pin has unpinned
/// before the leaf that had the value is freed, if a later turn cuts it off.
pub fn pinned_values_stay_out()
    ensures { PinnedValuesStayOut }
{}

/// Law: in all turns that have the headline, each stored value comes back at most once. One turn
/// frees the leaf for which it was stored, and no other turn does.
pub fn values_come_back_once()
    ensures { ValuesComeBackOnce }
{}

/// Law: in every ordered run, the value that a leaf had when it was cut off is one that a worker
/// stored for this leaf. So each value that comes back was stored, and comes back once.
pub fn cut_values_were_stored()
    ensures { CutValuesWereStored }
{}

/// Law: in every ordered run, the value that a leaf has right before its cut is the one that was
/// stored for the leaf. So what a collection hands out for a leaf is what an insert has put there.
pub fn values_come_back_as_stored()
    ensures { ValuesComeBackAsStored }
{}

/// Law: in all turns that have the headline, a leaf has one store. So a free gives back one stored
/// value.
pub fn leaves_have_one_store()
    ensures { LeavesHaveOneStore }
{}

/// Law: in all turns that have the headline, the leaf for which a value was stored is at exactly one
/// place from its link on. It is on one path from the root, or it waits at one index of one worker's
/// cuts, or it was freed once.
pub fn stored_values_are_at_one_place()
    ensures { StoredValuesAreAtOnePlace }
{}

/// Law: in all turns that have the headline, if a worker got a value under its pin and has not
/// unpinned since, no turn has freed the leaf that had the value, whichever worker collects. So the
/// value that was stored for this leaf has not come back.
pub fn got_values_stay_out()
    ensures leaves { GotLeavesAreNotFreed }
    ensures values { GotValuesStayOut }
{}

/// Law: in all turns that have the headline, while a worker is pinned, no turn frees a leaf that the
/// map had at a moment of this pin. It does not matter which worker got the value of the leaf, removed
/// its key, or collects. So the value that was stored for this leaf has not come back.
pub fn guarded_values_stay_out()
    ensures leaves { GuardedLeavesAreNotFreed }
    ensures values { GuardedValuesStayOut }
{}

/// Law: what the plain map of a history has under a key at a moment was put there by an insert of the
/// key that returned true, or by a put. It took effect by that moment.
pub fn values_were_put()
    ensures { ValuesWerePut }
{}
