//! Threads that call one shared set by whichever worker is free.
ghost use Rattle.std.specs.Prelude.{◌≡◌, ◌<◌, ◌++◌, ◌∷◌, [], true, Some, Ok, IfNone, IfSome};
ghost use Rattle.nm_edge.specs.Keys.{IsKey};
ghost use Rattle.nm_model.specs.declared.event.Op.TheVariants.{Has, Insert, Delete};
ghost use Rattle.nm_callers.specs.AnyThread.{FindsAfterInsert, FoundNext, FoundTaken, InsertedThenFound, ReadLogIns, RemovesApart, TookDue, TookValue};
ghost use Rattle.nm_set.specs.Managed.{of_insert};
ghost use Rattle.nm_shared.specs.Sharing.{IsCallerOf, SaysShared, SaysSharedNext, SaysSharedPop, Visited};

use nm_edge::Key;
use nm_set::{CallFault, InsertFault, Keys, Member, Options, Query};
use nm_shared::{Caller, MapCaller, SharedMap, SharedSet};
use std::thread::{Threads, join};

/// Inserts a key, and then looks it up, each by whichever worker is free. `None`: a call had no
/// answer. Proved: in each history of one plain set the insert is before the look-up.
pub fn insert_then_find_shared(
    set: &SharedSet,
    caller: Caller,
    key: Key,
    options: &Options,
) -> (Caller, Option<(bool, bool)>)
    requires own { IsCallerOf set.now caller }
    ensures own { IsCallerOf set.now result.0 }
    ensures in_order { IfSome result.1 (FindsAfterInsert set.now key result.0) }
{
    let (caller, inserted) = insert_shared(set, caller, key, options);
    let Some(inserted) = inserted else {
        return (caller, None);
    };
    let (caller, found) = find_shared(set, caller, key, options);
    let Some(found) = found else {
        return (caller, None);
    };
    (caller, Some((inserted, found)))
}

/// Inserts a key and looks it up by one worker, which the caller keeps for both calls. `None`: a call
/// had no answer. Proved: both calls are one visit of the caller, and were made one after the other.
pub fn insert_then_find_attached(
    set: &SharedSet,
    caller: Caller,
    key: Key,
    options: &Options,
) -> (Caller, Option<(bool, bool)>)
    requires own { IsCallerOf set.now caller }
    ensures own { IsCallerOf set.now result.0 }
    ensures visited { IfSome result.1 (λ x. Visited (InsertedThenFound set.now.set.tree options.now key
        (Ok x.0) (Ok x.1)) set.now caller result.0) }
{
    let mut attached = match set.attach(caller) {
        Ok(attached) => attached,
        Err(caller) => return (caller, None),
    };
    let (inserted, found) = insert_then_find_by(&mut attached.member, key, options);
    let caller = set.detach(attached);
    match (inserted, found) {
        (Ok(inserted), Ok(found)) => (caller, Some((inserted, found))),
        _ => (caller, None),
    }
}

/// Inserts a key, and then looks it up, by this worker.
fn insert_then_find_by(
    member: &mut Member<Keys>,
    key: Key,
    options: &Options,
) -> (Result<bool, InsertFault>, Result<bool, CallFault>)
    ensures tree { member.new.tree ≡ member.old.tree }
    ensures says { InsertedThenFound member.old.tree options.now key (of_insert result.0) result.1
        member.old.worker member.new.worker }
{
    let inserted = member.insert(key, options);
    let found = member.contains(key, options);
    (inserted, found)
}

/// Looks a key up. `None`: the call had no answer.
fn find_shared(
    set: &SharedSet,
    caller: Caller,
    key: Key,
    options: &Options,
) -> (Caller, Option<bool>)
    requires own { IsCallerOf set.now caller }
    ensures own { IsCallerOf set.now result.0 }
    ensures says { IfSome result.1
        (λ x. SaysShared Has set.now options.now key caller result.0 (Ok x)) }
{
    let (caller, told) = set.contains(caller, key, options);
    match told {
        Some(Ok(answer)) => (caller, Some(answer)),
        _ => (caller, None),
    }
}

/// Inserts a key. `None`: the call had no answer.
fn insert_shared(
    set: &SharedSet,
    caller: Caller,
    key: Key,
    options: &Options,
) -> (Caller, Option<bool>)
    requires own { IsCallerOf set.now caller }
    ensures own { IsCallerOf set.now result.0 }
    ensures says { IfSome result.1
        (λ x. SaysShared Insert set.now options.now key caller result.0 (Ok x)) }
{
    let (caller, told) = set.insert(caller, key, options);
    match told {
        Some(Ok(answer)) => (caller, Some(answer)),
        _ => (caller, None),
    }
}

/// Removes a key. `None`: the call had no answer.
fn remove_shared(
    set: &SharedSet,
    caller: Caller,
    key: Key,
    options: &Options,
) -> (Caller, Option<bool>)
    requires own { IsCallerOf set.now caller }
    ensures own { IsCallerOf set.now result.0 }
    ensures says { IfSome result.1
        (λ x. SaysShared Delete set.now options.now key caller result.0 (Ok x)) }
{
    let (caller, told) = set.remove(caller, key, options);
    match told {
        Some(Ok(answer)) => (caller, Some(answer)),
        _ => (caller, None),
    }
}

/// Removes a key, and asks why if no worker was free. Proved: then this call has found the worker of
/// the given number in the hands of another one, or another call was faster there.
pub fn remove_unless_all_are_away(
    set: &SharedSet,
    caller: Caller,
    key: Key,
    options: &Options,
    number: u32,
) -> (Caller, Option<Result<bool, CallFault>>)
    requires own { IsCallerOf set.now caller }
    requires within { (number < set.now.table.words) × (number < 4294967295) }
    ensures own { IsCallerOf set.now result.0 }
    ensures away { IfNone result.1 (FoundTaken number caller result.0) }
{
    set.remove(caller, key, options)
}

/// Takes a key out of a shared map, and returns its value. `None`: the map did not have the key, or the
/// call had no answer. Proved: otherwise the map had the key with this value right before the flag of this
/// very call.
#[tactic(auto, using(crate::proofs::SharedCalls::took_value))]
pub fn take_value_shared(
    map: &SharedMap,
    caller: MapCaller,
    key: Key,
    options: &Options,
) -> (MapCaller, Option<u64>)
    requires own { IsCallerOf map.now caller }
    ensures own { IsCallerOf map.now result.0 }
    ensures took { IfSome result.1 (TookValue caller result.0 key) }
{
    let mut taken = 0;
    let (caller, told) = map.remove(caller, key, &mut taken, options);
    match told {
        Some(Ok(true)) => (caller, Some(taken)),
        _ => (caller, None),
    }
}

/// Reads from a table, which other threads fill, when each of these users has logged in last. Returns
/// false if the call had no answer. Proved: otherwise the table had each user with the time in its query,
/// or did not have the user, at a moment of this call.
#[tactic(auto, using(crate::proofs::SharedCalls::read_log_ins))]
pub fn read_log_ins_shared(
    map: &SharedMap,
    caller: MapCaller,
    users: &mut [Query],
    options: &Options,
) -> (MapCaller, bool)
    requires own { IsCallerOf map.now caller }
    ensures own { IsCallerOf map.now result.0 }
    ensures read { result.1 ≡ true → ReadLogIns caller result.0 users.old users.new }
{
    let (caller, told) = map.get_many(caller, users, options);
    match told {
        Some(Ok(())) => (caller, true),
        _ => (caller, false),
    }
}

/// Takes the least key below a bound, such as the first of a queue whose time has come. `None`: the set
/// had no such key, or the call had no answer. Proved: otherwise the key is below the bound, and a remove
/// of it by this call has its moment in the call.
pub fn take_due_shared(
    set: &SharedSet,
    caller: Caller,
    below: u64,
    options: &Options,
) -> (Caller, Option<Key>)
    requires own { IsCallerOf set.now caller }
    ensures own { IsCallerOf set.now result.0 }
    ensures took { IfSome result.1 (TookDue caller result.0 below) }
{
    let (caller, taken) = pop_shared(set, caller, below, options);
    let Some(taken) = taken else {
        return (caller, None);
    };
    (caller, taken)
}

/// Looks for the least key that is not below a given one. `None`: there was none, or the call had no
/// answer. Proved: otherwise the set had the key at a moment of the call, and each lower one that is not
/// below the given one was absent at a moment of its own.
pub fn next_shared(
    set: &SharedSet,
    caller: Caller,
    least: Key,
    options: &Options,
) -> (Caller, Option<Key>)
    requires own { IsCallerOf set.now caller }
    ensures own { IsCallerOf set.now result.0 }
    ensures found { IfSome result.1 (FoundNext caller result.0 least) }
{
    let (caller, found) = look_on_shared(set, caller, least, options);
    let Some(found) = found else {
        return (caller, None);
    };
    (caller, found)
}

/// Pops the least key below a bound. `None` in place of a result: the call had no answer.
fn pop_shared(
    set: &SharedSet,
    caller: Caller,
    below: u64,
    options: &Options,
) -> (Caller, Option<Option<Key>>)
    requires own { IsCallerOf set.now caller }
    ensures own { IsCallerOf set.now result.0 }
    ensures says { IfSome result.1 (λ x. SaysSharedPop (λ j. IsKey j × (j < below)) ◌<◌ set.now
        options.now caller result.0 (Ok x)) }
{
    let (caller, told) = set.pop_first_below(caller, below, options);
    match told {
        Some(Ok(taken)) => (caller, Some(taken)),
        _ => (caller, None),
    }
}

/// Looks for the least key that is not below this one. `None` in place of a result: the call had no
/// answer.
fn look_on_shared(
    set: &SharedSet,
    caller: Caller,
    least: Key,
    options: &Options,
) -> (Caller, Option<Option<Key>>)
    requires own { IsCallerOf set.now caller }
    ensures own { IsCallerOf set.now result.0 }
    ensures says { IfSome result.1
        (λ x. SaysSharedNext set.now options.now least caller result.0 (Ok x)) }
{
    let (caller, told) = set.next(caller, least, options);
    match told {
        Some(Ok(found)) => (caller, Some(found)),
        _ => (caller, None),
    }
}

/// Removes a key in two threads at the same time, through one shared set. Returns the caller of the
/// first thread, which takes over the visit of the second. `None`: a call had no answer. Proved:
/// the answers are those of two different calls of one plain set. So both are true only if an
/// insert of the key has its moment between them.
pub fn remove_in_two_threads<R: Threads + Sync>(
    rt: &R,
    set: &SharedSet,
    one: Caller,
    two: Caller,
    key: Key,
    options: &Options,
) -> (Caller, Option<(bool, bool)>)
    requires one { IsCallerOf set.now one }
    requires two { IsCallerOf set.now two }
    ensures own { IsCallerOf set.now result.0 }
    ensures apart { IfSome result.1 (RemovesApart set.now key one two result.0) }
{
    let ((one, first), (two, second)) = join(
        rt,
        move || -> (Caller, Option<bool>)
            requires own { IsCallerOf set.now one }
            ensures own { IsCallerOf set.entry.now result.0 }
            ensures says { IfSome result.1
                (λ x. SaysShared Delete set.entry.now options.entry.now key one result.0 (Ok x)) }
        { remove_shared(set, one, key, options) },
        move || -> (Caller, Option<bool>)
            requires own { IsCallerOf set.now two }
            ensures own { IsCallerOf set.entry.now result.0 }
            ensures says { IfSome result.1
                (λ x. SaysShared Delete set.entry.now options.entry.now key two result.0 (Ok x)) }
        { remove_shared(set, two, key, options) },
    );
    let (Some(first), Some(second)) = (first, second) else {
        return (one, None);
    };
    let mut caller = one;
    set.join(&mut caller, two);
    set.show(&mut caller);
    (caller, Some((first, second)))
}
