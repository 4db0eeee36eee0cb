//! Law of inserts that return `Busy`.
ghost use Rattle.nm_progress.specs.Inserts.{BusyInsertsWereLost};

/// Law: for every insert that returns `Busy`, its number of tries was 0, or others advanced the
/// epoch at least as many times as it had tries, or each try was lost. In the last case the number
/// of turns (transitions) that interfered with its worker, by changes of others or by its own
/// splices, is at least the number of tries. Won links and flags pay for them. (A walk that comes by
/// 64 tagged edges in a row was interfered with by another worker: beside each of them a delete is
/// pending, and there are at most 64 workers.)
pub fn busy_inserts_were_lost()
    ensures { BusyInsertsWereLost }
{}
