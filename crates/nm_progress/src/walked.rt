//! Laws of calls that walk under a pin without an operation, and return `Busy`, and of scans that end
//! early.
ghost use Rattle.nm_progress.specs.Walked.{BusyManyMetInterference, BusyNearMetInterference, ShortScansMetInterference};

/// Law: for every look-up of several keys that returns `Busy`, its number of tries was 0, or others
/// advanced the epoch at least as many times as it had tries, or they linked or cut off a node. The
/// last is possible only in a tree of the shape of Natarajan and Mittal.
pub fn busy_many_met_interference()
    ensures { BusyManyMetInterference }
{}

/// Law: for every call for the next or the previous key that returns `Busy`, the same holds, or
/// others linked or cut off nodes at least half as many times as it had tries, rounded down.
pub fn busy_near_met_interference()
    ensures { BusyNearMetInterference }
{}

/// Law: during every scan that ended early after a walk that had stopped short, others linked or cut
/// off a node.
pub fn short_scans_met_interference()
    ensures { ShortScansMetInterference }
{}
