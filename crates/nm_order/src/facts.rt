//! Laws of one worker's log: facts that it learned under one pin stay true.
ghost use Rattle.nm_order.specs.Moments.{OfEachOrderedRun};
ghost use Rattle.nm_order.specs.OwnBirths.{OwnBirthsStand};
ghost use Rattle.nm_order.specs.Facts.{FactsAreTrue, FactsStay, FlaggedSlotsStandHigh, LaterWalksFindTheFlag, TaggedSlotsStandHigh};

/// Law: for every ordered run, each fact that a worker's log holds is true of the memory, whatever
/// other workers did after it was learned. Marks and births are unchanged, leaves are leaves, and
/// keys are those that were read. A slot that the worker knows is neither in the pool nor private
/// to a worker. (Frozen edges never change: Natarajan and Mittal, section 3. No known slot is
/// reused under a pin: Fraser, section 5.2.3.)
pub fn facts_are_true()
    ensures { FactsAreTrue }
{}

/// Law: for every log, each fact that it holds is still held after one more entry, if that entry
/// neither confirms nor ends a pin.
pub fn facts_stay()
    ensures { FactsStay }
{}

/// Law: for every log, a slot of which the worker knows a flagged edge is above 5, and so is one of
/// which it knows a tagged edge. No fixed node has such an edge.
pub fn marked_slots_stand_high()
    ensures flagged { FlaggedSlotsStandHigh }
    ensures tagged { TaggedSlotsStandHigh }
{}

/// Law: for every log, if a walk that began after the call's won flag came to the flagged leaf, the
/// worker knows the edge by which it came as flagged. The reason is that a splice that moves the
/// leaf up copies its flag. (The copied flag of Natarajan and Mittal's cleanup, section 3.2.)
pub fn later_walks_find_the_flag()
    ensures { LaterWalksFindTheFlag }
{}

/// Law: for every ordered run, each birth that a worker's log shows under its pin is still the
/// birth in that slot, whatever other workers did. These are the births of known nodes that it
/// looked at, and the births that it stored in the two nodes of a link that it won. (No node is
/// reused under a pin: Fraser, section 5.2.3.)
pub fn own_births_stand()
    ensures { OfEachOrderedRun OwnBirthsStand }
{}
