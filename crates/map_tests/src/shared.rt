//! Calls of a set that any thread calls.
ghost use Rattle.nm_shared.specs.Sharing.{IsCallerOf};

use nm_edge::Key;
use nm_set::{CallFault, Condition, Keys, Options, PutOutcome, Query, RemoveOutcome};
use nm_shared::{Caller, SharedMap, SharedSet};
use std::process::Abort;
use std::test::Fail;
use std::thread::join;

/// Returns a number as a key.
fn key(rt: &impl Abort, number: u64) -> Key {
    let Some(key) = Key::new(number) else {
        panic!(rt; "{number} is no key")
    };
    key
}

/// One caller inserts, looks up, removes and pops, by the one worker that there is.
#[test]
fn a_caller_needs_no_member(rt: HostRuntime) -> Result<(), Fail> {
    let set = SharedSet::<Keys>::new(rt.alloc(), 64, 1)?;
    let options = Options::default();
    assert_eq!(rt; set.workers(), 1);
    let (caller, told) = set.insert(set.caller(), key(&rt, 5), &options);
    assert_eq!(rt; told, Some(Ok(true)));
    let (caller, told) = set.insert(caller, key(&rt, 9), &options);
    assert_eq!(rt; told, Some(Ok(true)));
    let (caller, told) = set.contains(caller, key(&rt, 5), &options);
    assert_eq!(rt; told, Some(Ok(true)));
    let (caller, told) = set.remove(caller, key(&rt, 5), &options);
    assert_eq!(rt; told, Some(Ok(true)));
    let (caller, told) = set.pop_last(caller, &options);
    assert_eq!(rt; told, Some(Ok(Some(key(&rt, 9)))));
    let (_, told) = set.pop_first(caller, &options);
    assert_eq!(rt; told, Some(Ok(None)));
    Ok(())
}

/// One caller of a map puts, gets, takes and pops values, and gets back what it took.
#[test]
fn a_caller_of_a_map_needs_no_member(rt: HostRuntime) -> Result<(), Fail> {
    let map = SharedMap::new(rt.alloc(), 64, 1)?;
    let options = Options::default();
    let (mut found, mut taken, mut out) = (0, 0, [0; 8]);
    let (caller, told) = map.insert(map.caller(), key(&rt, 5), 50, &mut found, &options);
    assert_eq!(rt; told, Some(Ok(true)));
    let (caller, told) = map.insert(caller, key(&rt, 5), 51, &mut found, &options);
    assert_eq!(rt; (told, found), (Some(Ok(false)), 50));
    let (caller, told) = map.insert(caller, key(&rt, 9), 90, &mut found, &options);
    assert_eq!(rt; told, Some(Ok(true)));
    let (caller, told) = map.get(caller, key(&rt, 9), &options);
    assert_eq!(rt; told, Some(Ok(Some(90))));
    let (caller, told) = map.put(caller, key(&rt, 9), 90, Condition::IfItIs(91), &options);
    assert_eq!(rt; told, Some(Ok(PutOutcome::Other(90))));
    let (caller, told) = map.remove_if(caller, key(&rt, 9), 91, &options);
    assert_eq!(rt; told, Some(Ok(RemoveOutcome::Other(90))));
    let (caller, told) = map.next_with_value(caller, key(&rt, 6), &mut found, &options);
    assert_eq!(rt; (told, found), (Some(Ok(Some(key(&rt, 9)))), 90));
    let (caller, told) = map.remove(caller, key(&rt, 5), &mut taken, &options);
    assert_eq!(rt; (told, taken), (Some(Ok(true)), 50));
    let (caller, told) = map.pop_first(caller, &mut taken, &options);
    assert_eq!(rt; (told, taken), (Some(Ok(Some(key(&rt, 9)))), 90));
    let (_, told) = map.reclaim(caller, &mut out);
    let Some(reclaimed) = told else {
        panic!(rt; "the worker was borrowed")
    };
    assert_eq!(rt; (reclaimed.handed.values, out[0], out[1]), (2, 50, 90));
    Ok(())
}

/// One caller of a map gets the values of several keys by one call.
#[test]
fn a_caller_of_a_map_gets_several_values(rt: HostRuntime) -> Result<(), Fail> {
    let map = SharedMap::new(rt.alloc(), 64, 1)?;
    let options = Options::default();
    let mut found = 0;
    let (caller, told) = map.insert(map.caller(), key(&rt, 5), 50, &mut found, &options);
    assert_eq!(rt; told, Some(Ok(true)));
    let (caller, told) = map.insert(caller, key(&rt, 9), 90, &mut found, &options);
    assert_eq!(rt; told, Some(Ok(true)));
    let mut queries = [
        Query::new(key(&rt, 9)),
        Query::new(key(&rt, 7)),
        Query::new(key(&rt, 5)),
    ];
    let (caller, told) = map.get_many(caller, &mut queries, &options);
    assert_eq!(rt; told, Some(Ok(())));
    assert_eq!(rt; (queries[0].found, queries[0].value), (true, 90));
    assert_eq!(rt; queries[1].found, false);
    assert_eq!(rt; (queries[2].found, queries[2].value), (true, 50));
    let none = Options {
        tries: 0,
        ..options
    };
    let (caller, told) = map.get_many(caller, &mut queries, &none);
    assert_eq!(rt; told, Some(Err(CallFault::Busy)));
    let (_, told) = map.get(caller, key(&rt, 9), &options);
    assert_eq!(rt; told, Some(Ok(Some(90))));
    Ok(())
}

/// Gives a worker back that has made no call since it was attached.
fn attach_and_detach(set: &SharedSet, caller: Caller) -> (Caller, bool)
    requires own { IsCallerOf set.now caller }
    ensures own { IsCallerOf set.now result.0 }
{
    match set.attach(caller) {
        Ok(attached) => (set.detach(attached), true),
        Err(caller) => (caller, false),
    }
}

/// A worker that is attached makes several calls, and no other call is made by it. After it was
/// detached, other calls are.
#[test]
fn an_attached_worker_is_not_lent(rt: HostRuntime) -> Result<(), Fail> {
    let set = SharedSet::<Keys>::new(rt.alloc(), 64, 1)?;
    let options = Options::default();
    let (caller, is_attached) = attach_and_detach(&set, set.caller());
    assert!(rt; is_attached);
    let (caller, told) = set.insert(caller, key(&rt, 5), &options);
    assert_eq!(rt; told, Some(Ok(true)));
    let Ok(mut attached) = set.attach(caller) else {
        panic!(rt; "the worker is not lent")
    };
    assert!(rt; attached.member.pin(64).is_ok());
    let (_, told) = set.contains(set.caller(), key(&rt, 5), &options);
    assert_eq!(rt; told, None);
    assert!(rt; attached.member.unpin().is_ok());
    assert_eq!(rt; attached.member.contains(key(&rt, 5), &options), Ok(true));
    Ok(())
}

/// Inserts a key; returns whether it was absent.
fn inserts(set: &SharedSet, caller: Caller, key: Key) -> bool
    requires own { IsCallerOf set.now caller }
{
    let (_, told) = set.insert(caller, key, &Options::default());
    told == Some(Ok(true))
}

/// Two threads insert different keys through one shared set with two workers.
#[test]
fn two_threads_share_a_set(rt: HostRuntime) -> Result<(), Fail> {
    let set = SharedSet::new(rt.alloc(), 64, 2)?;
    let (one, two) = (set.caller(), set.caller());
    let (five, six) = (key(&rt, 5), key(&rt, 6));
    let set = &set;
    let both = join(
        &rt,
        move || -> bool
            requires own { IsCallerOf set.now one }
        { inserts(set, one, five) },
        move || -> bool
            requires own { IsCallerOf set.now two }
        { inserts(set, two, six) },
    );
    assert_eq!(rt; both, (true, true));
    Ok(())
}
