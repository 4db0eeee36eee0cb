//! Laws of ordered runs, in which every call is for a key of the set: the order of the tree. Each
//! holds for any workers' turns (transitions), in any order.
ghost use Rattle.nm_model.specs.Laws.{OfEachState};
ghost use Rattle.nm_order.specs.Intervals.{FlagsMarkLeaves, KeysAscend, KeysLieInIntervals, KeysTellTheSet, LeavesHaveTheirOwnKeys, LinksInsert, OfEachOrdered};
ghost use Rattle.nm_order.specs.NewNodes.{LinksNameNewNodes};

/// Law: in every ordered run the tree is in order: the search for a reached node's key comes to
/// that node, and no two reached leaves have the same key. (The invariant of an external search
/// tree; Natarajan and Mittal, section 3.1.)
pub fn trees_are_in_order()
    ensures keys { OfEachOrdered KeysLieInIntervals }
    ensures leaves { OfEachOrdered LeavesHaveTheirOwnKeys }
{}

/// Law: in every ordered run, a link that is won is one of a call to insert. The set, that is the
/// keys of the reached leaves, gains that call's key, which was not in it, and nothing else. (The
/// insert of Natarajan and Mittal, section 3.2.)
pub fn links_insert()
    ensures { OfEachOrdered LinksInsert }
{}

/// Law: in every run, even of a plain core, a link that is won names the new node, with the birth
/// that its slot has.
pub fn links_name_new_nodes()
    ensures { OfEachState LinksNameNewNodes }
{}

/// Law: in every ordered run, a flag that is won is one of a call to delete. It marks the edge to a
/// reached leaf with that call's key, which was not marked, and names that leaf. (The injection of
/// Natarajan and Mittal's delete, section 3.2.)
pub fn flags_mark_leaves()
    ensures { OfEachOrdered FlagsMarkLeaves }
{}

/// Law: in every ordered run, the keys that a core reports are those of the set below the
/// sentinels, each once and ascending.
pub fn keys_are_the_set()
    ensures set { OfEachOrdered KeysTellTheSet }
    ensures ascend { OfEachOrdered KeysAscend }
{}
