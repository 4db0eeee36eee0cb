//! Law of ordered runs: what a worker knows follows from its own part of the run.
ghost use Rattle.nm_order.specs.Logs.{LogsTellWhatIsKnown};

/// Law: for every ordered run, what a worker knows follows from its own part of the run: its
/// accepted events with their replies, and the join by which it resigned.
pub fn logs_tell_what_is_known()
    ensures { LogsTellWhatIsKnown }
{}
