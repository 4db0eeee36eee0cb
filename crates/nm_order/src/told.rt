//! Laws of every log of one worker: what the reply of the log's last entry can be.
ghost use Rattle.nm_order.specs.Told.{ClaimsAreNew, CutsAreAsKnown, CutsEnterTheQueue, EdgesStayInside, FlaggedEdgesLeadHigh, FlaggedEdgesStandHigh, FlagsAreAsKnown, FlagsAreTold, FrozenChainsMayBeCut, LeavesLeadNowhere, LowKeysStandHigh, OfEachEntry, RootLeads, TagsLead, TwinsAreToldFlagged};

/// Law: for every log, an edge that the last entry returns agrees with what the worker knew. It is
/// flagged if its twin is known as tagged. If it is known as flagged, it is still flagged and leads
/// to the same slot. If it is flagged and its slot is known, it leads from a slot above 5 to a slot
/// above 5. It leads to a slot of the layout. It is not null if it is the left edge of slot 2, or
/// was tagged by this entry. It is null if its node is known as a leaf. (A tag follows the flag of
/// its twin: Natarajan and Mittal, section 3.2.)
pub fn edges_are_told()
    ensures twins { OfEachEntry TwinsAreToldFlagged }
    ensures flags { OfEachEntry FlagsAreTold }
    ensures high { OfEachEntry FlaggedEdgesLeadHigh }
    ensures owner { OfEachEntry FlaggedEdgesStandHigh }
    ensures inside { OfEachEntry EdgesStayInside }
    ensures root { OfEachEntry RootLeads }
    ensures tags { OfEachEntry TagsLead }
    ensures leaves { OfEachEntry LeavesLeadNowhere }
{}

/// Law: for every log, if the last entry reads a key below the sentinels, its slot is above 5.
pub fn low_keys_stand_high()
    ensures { OfEachEntry LowKeysStandHigh }
{}

/// Law: for every log, a slot that the last entry claims is above 5. Before that, it was not
/// private to the worker, not known to it, and in no queue that it holds.
pub fn claims_are_new()
    ensures { OfEachEntry ClaimsAreNew }
{}

/// Law: for every log, a won splice returns exactly the nodes of the chain that the worker's facts
/// name, downwards and each with its leaf. A won flag returns the leaf with its known birth. Other
/// workers cannot have changed these marks and births.
pub fn answers_name_what_is_known()
    ensures cuts { OfEachEntry CutsAreAsKnown }
    ensures flags { OfEachEntry FlagsAreAsKnown }
{}

/// Law: for every log, the nodes of a won splice are appended to the worker's own queue, and wait
/// there for their label. The other ledgers that the worker holds are unchanged. (Retired nodes
/// wait in order; Fraser, section 5.2.3.)
pub fn cuts_enter_the_queue()
    ensures { OfEachEntry CutsEnterTheQueue }
{}

/// Law: for every log, a chain that is frozen by the worker's facts may be cut off by a splice, by
/// the worker's own knowledge. Such a chain has tagged edges from one slot down to another, and a
/// flagged edge beside each. (The chain of Natarajan and Mittal's cleanup, section 3.2.)
pub fn frozen_chains_may_be_cut()
    ensures { FrozenChainsMayBeCut }
{}
