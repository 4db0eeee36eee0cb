//! Laws of ordered runs: what the core keeps of a worker's call is exactly what the worker's log
//! shows of its walks.
ghost use Rattle.std.specs.Prelude.{All};
ghost use Rattle.nm_model.specs.Walks.{IsOfWalk};
ghost use Rattle.nm_order.specs.FlagsOfCalls.{FlagsAreKept, FlagsStay, LaterArrivalsOnlyGrow, NoSecondFlag};
ghost use Rattle.nm_order.specs.WalksToArrivals.{ComingsAreArrivals, EndsAreArrivals, OfEachCall, ReadingsAreArrivals, since_flag};

/// Law: in every ordered run, the arrivals that a core keeps of a call are the walks for its key in
/// the log after the pin, with gaps between their looks. An arrival is there exactly if a walk came
/// to its slot by its edge. It has a key exactly if a walk then read that key. It has ended exactly
/// if a walk then found the edge on the key's side null. (The seek of Natarajan and Mittal, section
/// 3.2.)
pub fn walks_are_arrivals()
    ensures comes { OfEachCall (λ k log s. ComingsAreArrivals k log s.walks) }
    ensures reads { OfEachCall (λ k log s. ReadingsAreArrivals k log s.walks) }
    ensures ends { OfEachCall (λ k log s. EndsAreArrivals k log s.walks) }
{}

/// Law: in every ordered run, the later arrivals of a call are, in the same way, the walks for its
/// key in the log after the flag that it won.
pub fn walks_after_the_flag()
    ensures walks { OfEachCall (λ k log s. All (IsOfWalk k (since_flag log)) s.later) }
    ensures comes { OfEachCall (λ k log s. ComingsAreArrivals k (since_flag log) s.later) }
    ensures reads { OfEachCall (λ k log s. ReadingsAreArrivals k (since_flag log) s.later) }
    ensures ends { OfEachCall (λ k log s. EndsAreArrivals k (since_flag log) s.later) }
{}

/// Law: in every ordered run, a call wins at most one flag, and the core keeps the flagged node.
/// The log after the pin is a part without a won flag, then that flag, and then the part after it.
pub fn flags_are_told()
    ensures told { OfEachCall (λ k log s. FlagsAreKept log s) }
    ensures once { OfEachCall (λ k log s. NoSecondFlag log) }
{}

/// Law: in every ordered core, while a pin lasts, the flag of its call stays. Each arrival of the
/// walks that began after the flag stays too, with its key and its end.
pub fn flags_stay()
    ensures flag { FlagsStay }
    ensures later { LaterArrivalsOnlyGrow }
{}
