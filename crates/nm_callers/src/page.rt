//! Laws of the page alone: they are about any turns of any workers, and name no run and no core.
ghost use Rattle.nm_model.specs.declared.event.Op.TheVariants.{Insert, Delete};
ghost use Rattle.std.specs.Prelude.{true, false};
ghost use Rattle.nm_callers.specs.Meanwhile.{IsAnsweredThen, IsMissedWhereNoneInserted, IsToldThen, NoneDeleted, NoneInserted, StaysWhereNoneDeleted};
ghost use Rattle.nm_callers.specs.Tallies.{KeysAreTheActs};

/// Law: if an insert of a key returned true, and a look-up began after all that the inserter had
/// then seen, it finds the key. The exception is that, in some history of the turns, a true delete
/// of the key has its moment (linearization point) after the insert began. (Herlihy and Wing,
/// Linearizability, TOPLAS 1990.)
pub fn inserted_keys_are_found()
    ensures { IsAnsweredThen NoneDeleted Insert true }
{}

/// Law: if a delete of a key returned true, and a look-up began after all that the deleter had then
/// seen, it does not find the key. The exception is that, in some history of the turns, a true
/// insert of the key has its moment after the delete began.
pub fn deleted_keys_are_missed()
    ensures { IsAnsweredThen NoneInserted Delete false }
{}

/// Law: if a delete of a key returned true, and another delete of it began after all that the
/// deleter had then seen, this one returns false. The exception is that, in some history of the
/// turns, a true insert of the key has its moment after the first delete began.
pub fn deleted_keys_are_deleted_once()
    ensures { IsToldThen NoneInserted Delete Delete false }
{}

/// Law: a look-up of a key returns false, unless in some history of the turns a true insert of the
/// key has its moment. So a set is empty at first.
pub fn keys_that_nobody_inserts_are_missed()
    ensures { IsMissedWhereNoneInserted }
{}

/// Law: if an insert of a key returned true, the key is in the set after any turns that extend
/// those of the answer. The exception is that, in some history of these turns, a true delete of the
/// key has its moment after the insert began.
pub fn inserted_keys_are_in_the_set()
    ensures { StaysWhereNoneDeleted }
{}

/// Law: in each history of some turns, a key was inserted once more than it was deleted, and is in
/// the set; or it was inserted as often as it was deleted, and is not. Only acts that return true
/// are counted. (Herlihy and Wing, Linearizability, TOPLAS 1990.)
pub fn keys_are_the_acts()
    ensures { KeysAreTheActs }
{}
