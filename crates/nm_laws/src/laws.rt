//! Laws of all runs. Each holds for every layout of at least 5 nodes and every list of events: for
//! all that the workers do, in every order.
ghost use Rattle.nm_model.specs.Lawful.{BriefsAreRight, CountsAddUp, EachBirthStands, EachReadStands, EpochsAgree, FlaggedEdgesLeadToLeaves, KnownLeavesAreLeaves, LabelsDoNotFall, NoLabelIsAboveTheEpoch, OnlyThePinnedKnow, QueuedNodesAreFrozen, ReachIsGuarded, ReachIsShared, TaggedEdgesHaveFlaggedTwins};
ghost use Rattle.nm_model.specs.Laws.{CutsJust, EachLedgerHasOneHolder, EachFreeTakesAFront, FreesThenQueueAreTheCuts, GraceHolds, IsFreedThenQueue, IsTheCuts, IsTheFrees, NamesBirths, NoNodeTwice, NothingElseCuts, OfEachCut, OfEachLedger, OfEachLedgerOfATree, OfEachState, OfEachSwap, OnlySplicesAnswerCuts, PinsStayNear, RetiredGrowsByTheCuts};
ghost use Rattle.nm_model.specs.Laws.{StatesJoin, TracesJoin};
ghost use Rattle.nm_model.specs.Ordered.{OrderedRunsAreRuns, PlainRunsAreRuns, SearchesTellTheLogs};
ghost use Rattle.nm_model.specs.Walks.{ArrivalsAreWalks, SearchesOnlyGrow};
ghost use Rattle.nm_model.specs.Places.{EachSlotInOnePlace};
ghost use Rattle.nm_laws.specs.Cardinality.{CountsAreNumbersOfSlots};
ghost use Rattle.nm_laws.specs.KeptEdges.{EachSpliceKeepsTheEdge};
ghost use Rattle.nm_laws.specs.LeafPaths.{KeysAreFromTheLeft};

/// Law: in every run, while a worker is pinned at an epoch, the global epoch is that one or the
/// next. (The bound of Fraser's epochs.)
pub fn pins_stay_near()
    ensures { PinsStayNear }
{}

/// Law: in every state of every run, each slot is in exactly one place. It is in the pool; among
/// one worker's private slots; at the end of one path from the root; or at one index of the queue
/// of one origin, which one worker holds.
pub fn each_slot_has_one_place()
    ensures { OfEachState EachSlotInOnePlace }
{}

/// Law: in every run, a won splice cuts off from the root exactly the nodes of its reply, by the
/// paths before and after it. From the successor downwards they are each internal node followed by
/// its flagged leaf, each with its birth (generation). The last internal node is the parent. The
/// ancestor's edge becomes the edge that the parent keeps, with its flag and without its tag, and
/// no other edge changes. (The cleanup of Natarajan and Mittal.)
pub fn splices_cut_their_nodes()
    ensures exactly { OfEachState
        (OfEachCut (λ before successor ns after. CutsJust before.memory ns after.memory)) }
    ensures births { OfEachState (OfEachCut (λ before successor ns after. NamesBirths before ns)) }
    ensures kept { OfEachState EachSpliceKeepsTheEdge }
{}

/// Law: in every run, a won swap cuts off from the root exactly its leaf, which its reply names with
/// its birth.
pub fn swaps_cut_their_leaves()
    ensures exactly { OfEachState
        (OfEachSwap (λ before leaf ns after. CutsJust before.memory ns after.memory)) }
    ensures births { OfEachState (OfEachSwap (λ before leaf ns after. NamesBirths before ns)) }
{}

/// Law: in every run, an event whose reply is not a cut makes no reached node unreached, and only a
/// splice or a swap has a cut as its reply.
pub fn nothing_else_cuts()
    ensures others { OfEachState NothingElseCuts }
    ensures splices { OfEachState OnlySplicesAnswerCuts }
{}

/// Law: in every run, exactly one worker holds the ledger of each origin.
pub fn each_ledger_has_one_holder()
    ensures { EachLedgerHasOneHolder }
{}

/// Law: in every run, the ledger of an origin is its cuts, whichever worker holds it. The retired
/// nodes are the freed ones followed by the queue, in this order. They are the nodes of the replies
/// of the splices that the origin won, in cut order, from the opening and from any state on.
pub fn ledgers_are_the_cuts()
    ensures split { OfEachLedger (λ origin turns. IsFreedThenQueue) }
    ensures replies { OfEachLedger IsTheCuts }
    ensures growing { OfEachState RetiredGrowsByTheCuts }
{}

/// Law: in every run, the freed nodes of an origin are those of its cuts that gives freed, by any
/// worker, in the order of the gives. The rest of its cuts wait. A node leaves a queue only by such
/// a give, which takes it from the front of a queue that its worker holds.
pub fn what_was_freed_is_what_gives_freed()
    ensures freed { OfEachLedgerOfATree IsTheFrees }
    ensures rest { OfEachLedgerOfATree FreesThenQueueAreTheCuts }
    ensures fronts { OfEachState EachFreeTakesAFront }
{}

/// Law: in every run, no node (a slot with its birth) is retired twice, over the ledgers of all
/// workers.
pub fn no_node_is_cut_twice()
    ensures { OfEachState NoNodeTwice }
{}

/// Law: in every run, if a node is cut by one event and freed by a later one, each worker that was
/// pinned at the cut has left between the two. This includes the remover, and any worker may free
/// the node. (Grace, the promise of epoch-based reclamation.)
pub fn grace_holds()
    ensures { OfEachState GraceHolds }
{}

/// Law: in every run, labels in a queue do not fall, unlabelled entries are last, and no label is
/// above the epoch. Only a worker's own queue has unlabelled entries, and its brief says whether
/// there are any.
pub fn labels_are_in_order()
    ensures rising { OfEachState LabelsDoNotFall }
    ensures below { OfEachState NoLabelIsAboveTheEpoch }
    ensures told { OfEachState BriefsAreRight }
{}

/// Law: in every run, an internal node in a queue has both edges marked. In a node that is reached
/// or queued, the twin of a tagged edge is flagged. In a node that paths from the root reach, or
/// that a worker can reach, a flagged edge leads to a leaf. (The marks of Natarajan and Mittal.)
pub fn frozen_edges_stay_frozen()
    ensures queued { OfEachState QueuedNodesAreFrozen }
    ensures twins { OfEachState TaggedEdgesHaveFlaggedTwins }
    ensures leaves { OfEachState FlaggedEdgesLeadToLeaves }
{}

/// Law: in every run, a worker knows nodes only while it is pinned. A slot that it can reach from
/// them is neither in the pool nor private to any worker. If the slot is queued with a label, the
/// worker's pin is not above the label.
pub fn pinned_workers_are_safe()
    ensures pinned { OfEachState OnlyThePinnedKnow }
    ensures shared { OfEachState ReachIsShared }
    ensures guarded { OfEachState ReachIsGuarded }
{}

/// Law: in every run, announcements, pins, sights (epoch reads) and scans agree with the epoch.
pub fn epochs_agree()
    ensures { OfEachState EpochsAgree }
{}

/// Law: a run of some events, followed by a run of the others, is one run of all. It leads to the
/// same state, and its trace is the two traces, one after the other.
pub fn runs_can_be_split()
    ensures state { StatesJoin }
    ensures trace { TracesJoin }
{}

/// Law: an ordered run is a run of the events that it allowed: they lead from state to state as in
/// a plain run, with the same outcomes. Every law of runs therefore holds for ordered runs.
pub fn ordered_runs_are_runs()
    ensures { OrderedRunsAreRuns }
{}

/// Law: what an ordered core keeps of a worker's operation is what that worker's log shows. Each
/// arrival is one of a walk for the operation's key, in the log after the pin. The walk looks at
/// the left edge of slot 2, and then at the key of each node to which an edge led and at its edge
/// on the key's side. These looks are in order, with gaps between them. If the arrival has ended,
/// the last edge was null. (The search of Natarajan and Mittal.)
pub fn arrivals_are_walks()
    ensures told { SearchesTellTheLogs }
    ensures walks { ArrivalsAreWalks }
{}

/// Law: while a pin lasts, what its search knows only grows. Its operation stays, and so do a link,
/// a cut, and each arrival with its key and its end.
pub fn searches_only_grow()
    ensures { SearchesOnlyGrow }
{}

/// Law: every core that is not ordered runs as its state does.
pub fn plain_runs_are_runs()
    ensures { PlainRunsAreRuns }
{}

/// Law: in every state of every run, the counts of the slots in the pool, private, reached and
/// queued add up to the number of nodes above slot 5.
pub fn counts_add_up()
    ensures { OfEachState CountsAddUp }
{}

/// Law: in every state of every run, each count is the number of the slots above 5 in its place.
/// The places are the pool; the private slots of a worker; the ends of paths from the root; and the
/// queue of an origin, which a worker holds.
pub fn counts_are_numbers_of_slots()
    ensures { OfEachState CountsAreNumbersOfSlots }
{}

/// Law: in every state of every run, the reported keys are those of the leaves to which paths from
/// the root lead, except the fixed leaves. There is one key for each such path, from left to right.
pub fn keys_stand_from_the_left()
    ensures { OfEachState KeysAreFromTheLeft }
{}

/// Law: in every run, what a worker has read of words that do not change is still true: a flag over
/// its slot, a tagged edge, a null edge, and a birth. A node that it knows as a leaf is one. The
/// edges, the birth and the key that it stored in a private slot are still there.
pub fn what_was_read_stands()
    ensures marks { OfEachState EachReadStands }
    ensures leaves { OfEachState KnownLeavesAreLeaves }
    ensures births { OfEachState EachBirthStands }
{}
