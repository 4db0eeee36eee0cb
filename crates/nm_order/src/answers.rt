//! Laws of ordered runs: what a call changes by the exchanges that it wins, and the answers that
//! follow from them.
ghost use Rattle.nm_order.specs.Exchanges.{AnswersTellFlags, AnswersTellLinks, SilentLeavesWonNothing, TrueDeletesHaveFlagged, TrueInsertsHaveInserted};
ghost use Rattle.nm_order.specs.Moments.{OfEachOrderedRun};

/// Law: for every ordered run, an answer agrees with the exchanges that the call won after its pin,
/// by the worker's log. A true insert won exactly one link, and any other answer none. A true
/// delete won exactly one flag, and any other answer none. A worker that may leave without an
/// answer has won neither.
pub fn answers_tell_changes()
    ensures links { OfEachOrderedRun AnswersTellLinks }
    ensures flags { OfEachOrderedRun AnswersTellFlags }
    ensures silent { OfEachOrderedRun SilentLeavesWonNothing }
{}

/// Law: for every ordered run, a true insert won its own link at a moment (linearization point) of
/// the run under its current pin. By that link the set gained the call's key, which was not in it,
/// and nothing else. (The insert of Natarajan and Mittal, section 3.2.)
pub fn inserts_are_links()
    ensures { OfEachOrderedRun TrueInsertsHaveInserted }
{}

/// Law: for every ordered run, a true delete won a flag at a moment of the run under its current
/// pin. The flag marks the edge to the reached leaf with the call's key. (The injection of
/// Natarajan and Mittal's delete, section 3.2.)
pub fn deletes_have_flagged()
    ensures { OfEachOrderedRun TrueDeletesHaveFlagged }
{}
