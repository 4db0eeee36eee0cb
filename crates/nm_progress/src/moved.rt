//! Laws of pins that are missed.
ghost use Rattle.nm_progress.specs.Moves.{EpochsAreTheMoves, MissedPinsAreMoves};

/// Law: from any configuration on, the epoch has grown by the number of turns that advanced it.
/// (Fraser, section 5.2.3.)
pub fn epochs_are_the_moves()
    ensures { EpochsAreTheMoves }
{}

/// Law: for every log in which an epoch was read, if a sight (epoch read) right after the worker's
/// announcement missed, the epoch is later than the announced one. The announced one is the one
/// that the worker had read last.
pub fn missed_pins_are_moves()
    ensures { MissedPinsAreMoves }
{}
