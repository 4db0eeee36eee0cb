//! Laws on the number of tries that a worker can lose.
ghost use Rattle.nm_progress.specs.Tries.{OfEachPart, TriesAreLostToChanges, TriesArePaid, TriesArePaidEver, HindrancesArePaid, HindrancesAreByOthers};

/// Law: from one moment of an ordered run to a later one, a worker loses no more tries, by its own
/// log, than other workers make changes of edges.
pub fn tries_are_lost_to_changes()
    ensures { OfEachPart TriesAreLostToChanges }
{}

/// Law: from one moment of an ordered run to a later one, a worker loses at most as many tries as
/// there are won links, three times the won flags, and twice the workers. Over a whole run it loses
/// at most as many as there are won links and three times the won flags. So if a worker loses many
/// tries, other calls have their moment (linearization point). (Lock freedom: Herlihy and Shavit.)
pub fn tries_are_paid()
    ensures part { OfEachPart TriesArePaid }
    ensures ever { TriesArePaidEver }
{}

/// Law: from one moment of an ordered run to a later one, the number of turns (transitions) that
/// interfere with a worker is bounded by what is won. It is at most the number of won links, three
/// times the won flags, and twice the workers. A turn interferes if another worker changes an edge,
/// or if the worker itself wins a splice.
pub fn hindrances_are_paid()
    ensures { HindrancesArePaid }
{}

/// Law: from one moment of an ordered run to a later one, the number of turns that interfere with a
/// worker is bounded by what other workers do. It is at most twice their changes of edges, the flags
/// that the worker wins itself, and one for each worker. The reason is that each splice of the worker
/// removes a leaf that was flagged.
pub fn hindrances_are_by_others()
    ensures { HindrancesAreByOthers }
{}
