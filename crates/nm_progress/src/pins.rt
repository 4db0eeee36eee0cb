//! Law of pins that lost each try.
ghost use Rattle.nm_progress.specs.Pins.{LostPinsWereMovedPast};

/// Law: for every pin that lost each try, other workers advanced the epoch at least as many times,
/// between the begin and the end of the call.
pub fn lost_pins_were_moved_past()
    ensures { LostPinsWereMovedPast }
{}
