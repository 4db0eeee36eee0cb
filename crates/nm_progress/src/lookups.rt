//! Law of look-ups that return `Busy`.
ghost use Rattle.nm_progress.specs.Lookups.{BusyLookupsMetInterference};

/// Law: for every look-up that returns `Busy`, its number of tries was 0, or between its begin and
/// its end others did one of two things at least as many times as it had tries. They advanced the
/// epoch, or they linked or cut off nodes.
pub fn busy_lookups_met_interference()
    ensures { BusyLookupsMetInterference }
{}
