//! Laws of deletes that return `Busy` or are not finished.
ghost use Rattle.nm_progress.specs.Deletes.{BusyDeletesWereLost, UnfinishedDeletesWereLost, UnfinishedFinishesWereLost};

/// Law: for every delete that returns `Busy`, its number of tries was 0, or others advanced the
/// epoch at least as many times as it had tries, or each try to flag was lost. In the last case the
/// number of turns (transitions) that interfered with its worker, by changes of others or by its
/// own splices, is at least the number of tries. Won links and flags pay for them.
pub fn busy_deletes_were_lost()
    ensures { BusyDeletesWereLost }
{}

/// Law: for every delete that flagged its leaf, lost all later tries and did not finish it, the
/// number of turns that interfered with its worker is at least its number of tries less one, the try
/// that won the flag. For every call that goes on with such a delete and loses each try, other
/// workers changed edges at least as many times as that call had tries.
pub fn unfinished_deletes_were_lost()
    ensures flagged { UnfinishedDeletesWereLost }
    ensures finish { UnfinishedFinishesWereLost }
{}
