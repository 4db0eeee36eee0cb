//! Laws of every run of an ordered core, even one that ends in the middle of a call: the history of
//! the set, and the moments of its calls.
ghost use Rattle.nm_order.specs.Answered.{AnswersHaveMoments, PendingDeletesHaveFlagged};
ghost use Rattle.nm_order.specs.AnsweredSince.{AnswersAreOfTheirCalls};
ghost use Rattle.nm_order.specs.History.{RunHasHistory};
ghost use Rattle.nm_order.specs.Intervals.{OfEachOrdered};
ghost use Rattle.nm_order.specs.LoggedTotals.{TotalsAreInTheLogs};
ghost use Rattle.nm_order.specs.Legal.{OtherAnswersWereLegal};
ghost use Rattle.nm_order.specs.Moments.{OfEachOrderedRun};
ghost use Rattle.nm_order.specs.Pending.{CutLeavesAreOfOneDelete, FlaggedLeavesArePending};
ghost use Rattle.nm_order.specs.RealTime.{HistoriesHaveOneActACall, HistoriesKeepRealTime};
ghost use Rattle.nm_order.specs.Removals.{CutsTakeTheirKeys, SwapsTakeNoKey, TrueDeletesHaveDeleted};
ghost use Rattle.nm_order.specs.Totals.{TotalsAgree, TotalsAreTheSet};

/// Law: for every ordered run, a true delete is a cut: at a moment of the run, under its current
/// pin, a splice of some worker cut the leaf that the call had flagged. A splice removes from the set
/// exactly the keys of its leaves, and a swap removes none. Each leaf of a splice is that of one
/// delete, which is not answered yet. (The cleanup of Natarajan and Mittal, section 3.2.)
pub fn deletes_are_cuts()
    ensures moments { OfEachOrderedRun TrueDeletesHaveDeleted }
    ensures takes { OfEachOrdered CutsTakeTheirKeys }
    ensures swaps { OfEachOrdered SwapsTakeNoKey }
    ensures one { OfEachOrderedRun CutLeavesAreOfOneDelete }
{}

/// Law: for every ordered run, an answer that changes nothing (of `has`, a false insert or a false
/// delete) was right at some moment after the call's pin was confirmed. At that moment a plain set
/// of the reached keys gives this answer.
pub fn answers_were_legal()
    ensures { OfEachOrderedRun OtherAnswersWereLegal }
{}

/// Law: for every ordered run, a flagged edge of a reached node leads to the leaf of one delete,
/// which is not answered yet.
pub fn flagged_leaves_are_pending()
    ensures { OfEachOrderedRun FlaggedLeavesArePending }
{}

/// Law: for every ordered run and each key of the set, the calls for the key have won as many links
/// as flags, or one link more. There is one more exactly if a reached leaf has the key on an
/// unflagged edge. If no delete is pending, there is one more exactly if the key is in the set.
/// These links and flags are those in the parts of all workers.
pub fn totals_agree()
    ensures stand { OfEachOrderedRun TotalsAgree }
    ensures set { OfEachOrderedRun TotalsAreTheSet }
    ensures logs { OfEachOrderedRun TotalsAreInTheLogs }
{}

/// Law: every ordered run is a history of one plain set (it is linearizable). The history has the
/// answered calls, each unanswered insert that has linked and each unanswered delete whose leaf is
/// cut. Each is there once, in the order of moments that lie within the calls, and a plain set
/// gives their answers. In each such history each call has one act. A call that was answered before
/// another call's pin was confirmed comes first, and the calls of each worker keep their order.
/// (Herlihy and Wing, Linearizability, TOPLAS 1990.)
pub fn runs_are_histories()
    ensures history { OfEachOrderedRun RunHasHistory }
    ensures real_time { OfEachOrderedRun HistoriesKeepRealTime }
    ensures one_act { OfEachOrderedRun HistoriesHaveOneActACall }
{}

/// Law: for the log of one worker, and for every ordered run of which it is a part, a final answer
/// of the log has its moment in that run. The moment is the link of a true insert, the cut of a
/// true delete's leaf, or for any other answer a moment at which it was right. It is before the
/// answer and under the call's pin. A log that shows a flagged leaf is that of a pending delete.
pub fn logged_answers_have_moments()
    ensures answers { AnswersHaveMoments }
    ensures pending { PendingDeletesHaveFlagged }
{}

/// Law: for every worker that had no call in an earlier run, and every run that goes on from it,
/// the moment of the answer with which the worker's log ends is one of the answered call. The
/// call's pin was confirmed after the earlier run, and the moment is later than the pin. So an
/// earlier answer of the worker cannot be taken for this one.
pub fn answers_are_of_their_calls()
    ensures { AnswersAreOfTheirCalls }
{}
