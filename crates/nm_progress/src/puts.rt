//! Laws of puts that return `Busy`, and of puts that run alone.
ghost use Rattle.nm_progress.specs.Puts.{BusyPutsWereLost, PutsAloneAreDone};

/// Law: for every put that returns `Busy`, its number of tries was 0, or others advanced the epoch at
/// least as many times as it had tries, or the number of turns (transitions) that interfered with its
/// worker is at least the number of tries, as for an insert. A won swap is such a turn.
pub fn busy_puts_were_lost()
    ensures { BusyPutsWereLost }
{}

/// Law: for every put that may make a try, it does not return `Busy` if no other worker makes a turn
/// between its begin and its end, and no delete of another worker was pending when it began.
pub fn puts_alone_are_done()
    ensures { PutsAloneAreDone }
{}
