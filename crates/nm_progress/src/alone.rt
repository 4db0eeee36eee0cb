//! Laws of calls that run alone.
ghost use Rattle.nm_progress.specs.Alone.{DeletesAloneAreFinished, DeletesAloneAreNotBusy, FinishesAloneAreAnswered, InsertsAloneAreAnswered, LookupsAloneAreAnswered, ManyAloneAreAnswered, NearAloneAreAnswered};

/// Law: for every look-up that may make a try, it does not return `Busy` if no other worker makes a
/// turn (transition) between its begin and its end. (Obstruction freedom: Herlihy, Luchangco and
/// Moir.)
pub fn lookups_alone_are_answered()
    ensures { LookupsAloneAreAnswered }
{}

/// Law: for every look-up of several keys that may make a try, it does not return `Busy` if no
/// other worker makes a turn between its begin and its end. The same holds of every call for the
/// next or the previous key that may make two tries.
pub fn walks_alone_are_answered()
    ensures many { ManyAloneAreAnswered }
    ensures near { NearAloneAreAnswered }
{}

/// Law: for every insert that may make a try, it does not return `Busy` if no other worker makes a
/// turn between its begin and its end, and no delete of another worker was pending when it began.
pub fn inserts_alone_are_answered()
    ensures { InsertsAloneAreAnswered }
{}

/// Law: for every delete that may make a try, it does not return `Busy` if no other worker makes a
/// turn between its begin and its end, and no delete of another worker was pending when it began.
/// If it may make two tries and has the room for them, it is also finished.
pub fn deletes_alone_are_answered()
    ensures busy { DeletesAloneAreNotBusy }
    ensures finished { DeletesAloneAreFinished }
{}

/// Law: for every call that goes on with a delete and may make a try, it ends the delete if it has
/// room for that try and no other worker makes a turn between its begin and its end. Deletes of
/// other workers may be pending: one cleanup cuts off their nodes too, if they are in the way.
pub fn finishes_alone_are_answered()
    ensures { FinishesAloneAreAnswered }
{}
