//! Laws of the running threads and of their workers.
ghost use Rattle.nm_tree.specs.Running.{EachMomentIsOfTurns};
ghost use Rattle.nm_tree.specs.Settled.{HeirsHaveNothingPending, RestingWorkersHaveNothingPending};
ghost use Rattle.nm_tree.specs.Worked.{PendsOnWorkedTurns, TotalsWantThatNonePends};

/// Law: at every moment, whatever the threads have done, the words of the tree come from those of
/// the empty tree by turns, and the workers' logs are the parts of these turns. What each worker has
/// seen, of which its calls speak, is a beginning of these turns. The turns have the headline and a
/// history. The law assumes only the rule of the table, which each atomic operation keeps.
pub fn each_moment_is_of_turns()
    ensures { EachMomentIsOfTurns }
{}

/// Law: a worker with nothing pending that takes over from another one with nothing pending has
/// nothing pending. Nor has a worker anything pending if it reports no pending key and no worker
/// that resigned to it has one. So the answers of their calls show that the workers with which a
/// tree is closed have nothing pending, even if some have resigned (`rested` of `SaysClosed`).
pub fn heirs_have_nothing_pending()
    ensures heirs { HeirsHaveNothingPending }
    ensures resting { RestingWorkersHaveNothingPending }
{}

/// Law: on the worked turns of `nm_theorem` the definitions about pending deletes are not empty.
/// Before the cut a delete is pending, and after all turns none is; its key was linked once and
/// flagged once. While a delete is pending, the number of links and flags does not decide whether
/// the set has the key.
pub fn worked_turns_are_counted()
    ensures says { PendsOnWorkedTurns }
    ensures wrong { TotalsWantThatNonePends }
{}
