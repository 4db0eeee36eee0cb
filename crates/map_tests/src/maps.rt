//! Members of a map in one thread, with each answer compared, and two members in threads of their
//! own.
use nm_edge::Key;
use nm_set::{
    CallFault, CloseReason, Condition, EndError, Map, MapEntry, MapMember, NotPinned, Options,
    PinFault, PinnedGetFault, PutOutcome, RemoveOutcome, ResignReason,
};
use std::process::Abort;
use std::test::Fail;
use std::thread::{Threads, join};

/// The number of tries of each call.
const TRIES: u32 = 100;

/// Returns a number as a key.
fn key(rt: &impl Abort, number: u64) -> Key {
    let Some(key) = Key::new(number) else {
        panic!(rt; "{number} is no key")
    };
    key
}

/// Closes a map; returns how many keys it had.
fn keys_of(rt: &impl Abort, map: Map) -> usize {
    match map.close() {
        Ok(left) => left.report.keys.len(),
        Err(_) => panic!(rt; "the map was not closed"),
    }
}

/// A member answers what the map has, and an insert of a key that is there keeps the value.
#[test]
fn a_member_of_a_map_puts_and_gets(rt: HostRuntime) -> Result<(), Fail> {
    let map = Map::new(rt.alloc(), 64, 2)?;
    let mut first = map.member(0)?;
    let mut second = map.attach()?;
    let (five, nine) = (key(&rt, 5), key(&rt, 9));
    assert_eq!(rt; (first.number(), second.number()), (0, 1));
    assert_eq!(rt; first.try_get(five, TRIES), Ok(None));
    assert_eq!(rt; first.try_insert(five, 50, TRIES), Ok(true));
    assert_eq!(rt; second.try_insert(five, 51, TRIES), Ok(false));
    assert_eq!(rt; second.try_insert(nine, 90, TRIES), Ok(true));
    assert_eq!(rt;
        (second.try_get(five, TRIES), second.try_get(five, 0)),
        (Ok(Some(50)), Err(CallFault::Busy))
    );
    assert_eq!(rt;
        (
            second.try_contains(five, TRIES),
            second.contains(nine, &Options::default())
        ),
        (Ok(true), Ok(true))
    );
    assert_eq!(rt;
        (
            first.next(key(&rt, 6), TRIES),
            first.prev(key(&rt, 6), TRIES)
        ),
        (Ok(Some(nine)), Ok(Some(five)))
    );
    let mut out = [0; 3];
    assert_eq!(rt; first.scan(five, 100, &mut out, TRIES)?.count, 2);
    assert_eq!(rt; out, [5, 9, 0]);
    assert_eq!(rt; first.scan_back(nine, 0, &mut out, TRIES)?.count, 2);
    assert_eq!(rt; out, [9, 5, 0]);
    assert_eq!(rt; first.stats().links, 1);
    assert!(rt; first.queue_blocks() > 0);
    first.close();
    second.close();
    assert_eq!(rt; keys_of(&rt, map), 2);
    Ok(())
}

/// A put replaces the value of a key, if its condition holds, and returns the old one. The old values
/// come back from a reclaim, once each.
#[test]
fn replaced_values_come_back(rt: HostRuntime) -> Result<(), Fail> {
    let map = Map::new(rt.alloc(), 64, 1)?;
    let mut member = map.attach()?;
    let (five, options) = (key(&rt, 5), Options::default());
    let absent = member.put(five, 49, Condition::IfThere, &options);
    assert_eq!(rt; absent, Ok(PutOutcome::Absent));
    let inserted = member.put(five, 50, Condition::Always, &options);
    assert_eq!(rt; inserted, Ok(PutOutcome::Inserted));
    let replaced = member.put(five, 51, Condition::Always, &options);
    assert_eq!(rt; replaced, Ok(PutOutcome::Replaced(50)));
    let other = member.try_put(five, 52, Condition::IfItIs(50), TRIES);
    assert_eq!(rt; other, Ok(PutOutcome::Other(51)));
    let expected = member.try_put(five, 52, Condition::IfItIs(51), TRIES);
    assert_eq!(rt; expected, Ok(PutOutcome::Replaced(51)));
    assert_eq!(rt; member.get(five, &options), Ok(Some(52)));
    let mut out = [0; 4];
    let done = member.reclaim(&mut out);
    assert_eq!(rt; (done.handed.values, out), (2, [50, 51, 0, 0]));
    member.close();
    assert_eq!(rt; keys_of(&rt, map), 1);
    Ok(())
}

/// A remove that expects a value removes the key with this value alone, and the value comes back once.
#[test]
fn an_expected_value_is_removed(rt: HostRuntime) -> Result<(), Fail> {
    let map = Map::new(rt.alloc(), 64, 1)?;
    let mut member = map.attach()?;
    let (five, options) = (key(&rt, 5), Options::default());
    let absent = member.remove_if(five, 0, &options);
    assert_eq!(rt; absent, Ok(RemoveOutcome::Absent));
    assert_eq!(rt; member.try_insert(five, 50, TRIES), Ok(true));
    let other = member.remove_if(five, 51, &options);
    assert_eq!(rt; other, Ok(RemoveOutcome::Other(50)));
    let other = member.try_remove_if(five, 49, TRIES);
    assert_eq!(rt; other, Ok(RemoveOutcome::Other(50)));
    assert_eq!(rt; member.get(five, &options), Ok(Some(50)));
    let expected = member.remove_if(five, 50, &options);
    assert_eq!(rt; expected, Ok(RemoveOutcome::Removed));
    assert_eq!(rt; member.get(five, &options), Ok(None));
    let mut out = [0; 4];
    let done = member.reclaim(&mut out);
    assert_eq!(rt; (done.handed.values, out), (1, [50, 0, 0, 0]));
    member.close();
    assert_eq!(rt; keys_of(&rt, map), 0);
    Ok(())
}

/// Scans of a map write the keys of a range with their values, in both directions and in parts. A scan
/// that is refused writes nothing.
#[test]
fn a_member_of_a_map_scans(rt: HostRuntime) -> Result<(), Fail> {
    let map = Map::new(rt.alloc(), 64, 1)?;
    let mut member = map.attach()?;
    let first = key(&rt, 0);
    let none = MapEntry::default();
    let mut out = [none; 4];
    assert_eq!(rt;
        member.scan_with_values(first, 100, &mut out, TRIES)?.count,
        0
    );
    for number in 3..8 {
        let inserted = member.try_insert(key(&rt, number), 10 * number, TRIES);
        assert_eq!(rt; inserted, Ok(true));
    }
    assert_eq!(rt;
        member.scan_with_values(first, 100, &mut out, 0),
        Err(CallFault::Busy)
    );
    let _ = member.pin(TRIES)?;
    assert_eq!(rt;
        member.scan_back_with_values(first, 0, &mut out, TRIES),
        Err(CallFault::Pinned)
    );
    member.unpin()?;
    assert_eq!(rt; out, [none; 4]);
    let found = member.scan_with_values(first, 100, &mut out, TRIES)?;
    assert_eq!(rt; (found.count, found.next.is_some()), (4, true));
    assert_eq!(rt;
        out,
        [entry(3, 30), entry(4, 40), entry(5, 50), entry(6, 60)]
    );
    out = [none; 4];
    let found = member.scan_back_with_values(key(&rt, 5), 4, &mut out, TRIES)?;
    assert_eq!(rt; (found.count, found.next), (2, None));
    assert_eq!(rt; out, [entry(5, 50), entry(4, 40), none, none]);
    member.close();
    assert_eq!(rt; keys_of(&rt, map), 5);
    Ok(())
}

/// Returns the entry of a key and a value.
fn entry(key: u64, value: u64) -> MapEntry {
    MapEntry { key, value }
}

/// The value of a removed key comes back once, and not before a member that was pinned has unpinned.
#[test]
fn values_of_a_map_come_back(rt: HostRuntime) -> Result<(), Fail> {
    let (_map, mut members) = Map::with_members(rt.alloc(), 64, 2)?;
    let (Some(mut second), Some(mut first)) = (members.pop(), members.pop()) else {
        unreachable!()
    };
    let five = key(&rt, 5);
    assert_eq!(rt; first.try_insert(five, 50, TRIES), Ok(true));
    let epoch = first.pin(TRIES)?;
    assert_eq!(rt;
        (first.pinned(), first.pin(TRIES)),
        (Some(epoch), Err(PinFault::Pinned))
    );
    assert_eq!(rt;
        (
            first.try_get(five, TRIES),
            first.try_insert(five, 51, TRIES)
        ),
        (Err(CallFault::Pinned), Err(CallFault::Pinned))
    );
    assert_eq!(rt;
        (first.get_pinned(five), second.get_pinned(five)),
        (Ok(Some(50)), Err(PinnedGetFault::NotPinned))
    );
    assert_eq!(rt;
        (second.try_remove(five, TRIES), second.finish(TRIES)),
        (Ok(true), Ok(false))
    );
    assert_eq!(rt; first.get_pinned(five), Ok(None));
    assert_eq!(rt; (second.pending(), second.queue_len()), (None, 2));
    let mut out = [0; 2];
    let _ = second.advance();
    let _ = second.advance();
    assert_eq!(rt;
        (second.collect(&mut out).values, second.behind().mask),
        (0, 1)
    );
    assert_eq!(rt; (first.unpin(), first.unpin()), (Ok(()), Err(NotPinned)));
    let _ = second.advance();
    let _ = second.advance();
    assert_eq!(rt; second.collect(&mut out).values, 1);
    assert_eq!(rt; (out, second.queue_len()), ([50, 0], 0));
    assert_eq!(rt; second.collect(&mut out).values, 0);
    Ok(())
}

/// A remove writes the value that its key had. That value comes back later, like any other.
#[test]
fn a_member_of_a_map_takes_a_value(rt: HostRuntime) -> Result<(), Fail> {
    let map = Map::new(rt.alloc(), 64, 1)?;
    let mut member = map.member(0)?;
    let five = key(&rt, 5);
    let mut taken = 7;
    assert_eq!(rt;
        (member.try_take(five, &mut taken, TRIES), taken),
        (Ok(false), 7)
    );
    assert_eq!(rt; member.try_insert(five, 50, TRIES), Ok(true));
    assert_eq!(rt;
        (member.try_take(five, &mut taken, TRIES), taken),
        (Ok(true), 50)
    );
    let _ = member.advance();
    let _ = member.advance();
    let mut out = [0; 2];
    assert_eq!(rt; (member.collect(&mut out).values, out), (1, [50, 0]));
    Ok(())
}

/// Managed calls of a map find, put and take values, and an insert of a key that is there writes the
/// value that it has.
#[test]
fn managed_calls_of_a_map(rt: HostRuntime) -> Result<(), Fail> {
    let options = Options::default();
    let map = Map::new(rt.alloc(), 64, 1)?;
    let mut member = map.member(0)?;
    let five = key(&rt, 5);
    let (mut found, mut taken) = (7, 7);
    assert_eq!(rt; member.get(five, &options), Ok(None));
    assert_eq!(rt; member.insert(five, 50, &mut found, &options), Ok(true));
    assert_eq!(rt; member.get(five, &options), Ok(Some(50)));
    assert_eq!(rt;
        (member.insert(five, 51, &mut found, &options), found),
        (Ok(false), 50)
    );
    assert_eq!(rt;
        (member.remove(five, &mut taken, &options), taken),
        (Ok(true), 50)
    );
    assert_eq!(rt; member.remove(five, &mut taken, &options), Ok(false));
    assert_eq!(rt; member.get(five, &options), Ok(None));
    member.pin(TRIES)?;
    assert_eq!(rt; member.get(five, &options), Err(CallFault::Pinned));
    assert_eq!(rt;
        member.insert(five, 52, &mut found, &options),
        Err(CallFault::Pinned)
    );
    assert_eq!(rt;
        member.remove(five, &mut taken, &options),
        Err(CallFault::Pinned)
    );
    assert_eq!(rt; member.unpin(), Ok(()));
    Ok(())
}

/// An insert into a full map has room again after a `reclaim`, which writes the value of each key that
/// was removed.
#[test]
fn a_full_map_has_room_after_a_reclaim(rt: HostRuntime) -> Result<(), Fail> {
    let options = Options::default();
    let map = Map::new(rt.alloc(), 9, 1)?;
    let mut member = map.member(0)?;
    let (five, nine, two) = (key(&rt, 5), key(&rt, 9), key(&rt, 2));
    let (mut found, mut taken) = (0, 0);
    assert_eq!(rt; member.insert(five, 50, &mut found, &options), Ok(true));
    assert_eq!(rt; member.insert(nine, 90, &mut found, &options), Ok(true));
    assert_eq!(rt; member.remove(five, &mut taken, &options), Ok(true));
    assert_eq!(rt;
        member.insert(two, 20, &mut found, &options),
        Err(CallFault::Full)
    );
    let mut out = [0; 2];
    let back = member.reclaim(&mut out);
    assert_eq!(rt; (back.handed.values, out, back.behind), (1, [50, 0], None));
    assert_eq!(rt; member.insert(two, 20, &mut found, &options), Ok(true));
    assert_eq!(rt; keys_of_two(&rt, map, member), 2);
    Ok(())
}

/// Closes a member and then its map; returns how many keys the map had.
fn keys_of_two(rt: &impl Abort, map: Map, member: MapMember) -> usize {
    member.close();
    keys_of(rt, map)
}

/// Keys come with their values from both ends of a map, up to a bound, and next to a key.
#[test]
fn keys_of_a_map_come_with_their_values(rt: HostRuntime) -> Result<(), Fail> {
    let options = Options::default();
    let map = Map::new(rt.alloc(), 64, 1)?;
    let mut member = map.member(0)?;
    let mut found = 0;
    for number in 1..6 {
        let put = member.insert(
            key(&rt, number),
            number.saturating_mul(10),
            &mut found,
            &options,
        );
        assert_eq!(rt; put, Ok(true));
    }
    let mut value = 0;
    let three = key(&rt, 3);
    assert_eq!(rt;
        (member.next_with_value(three, &mut value, TRIES), value),
        (Ok(Some(three)), 30)
    );
    assert_eq!(rt;
        (
            member.prev_with_value(key(&rt, 9), &mut value, TRIES),
            value
        ),
        (Ok(Some(key(&rt, 5))), 50)
    );
    assert_eq!(rt;
        (member.pop_first(&mut value, &options), value),
        (Ok(Some(key(&rt, 1))), 10)
    );
    assert_eq!(rt;
        (member.pop_last(&mut value, &options), value),
        (Ok(Some(key(&rt, 5))), 50)
    );
    assert_eq!(rt; member.pop_first_below(2, &mut value, &options), Ok(None));
    assert_eq!(rt;
        (member.pop_first_below(3, &mut value, &options), value),
        (Ok(Some(key(&rt, 2))), 20)
    );
    assert_eq!(rt;
        (member.pop_last_from(4, &mut value, &options), value),
        (Ok(Some(key(&rt, 4))), 40)
    );
    assert_eq!(rt; member.pop_last_from(4, &mut value, &options), Ok(None));
    member.pin(TRIES)?;
    assert_eq!(rt;
        member.pop_first(&mut value, &options),
        Err(CallFault::Pinned)
    );
    assert_eq!(rt;
        member.next_with_value(three, &mut value, TRIES),
        Err(CallFault::Pinned)
    );
    Ok(())
}

/// Returns why a worker has not resigned, and the member that was to be its heir.
fn stays(rt: &impl Abort, heir: MapMember, leaver: u32) -> (ResignReason, MapMember) {
    match heir.resign(leaver) {
        Ok(_) => panic!(rt; "worker {leaver} has resigned"),
        Err(error) => (error.reason, error.member),
    }
}

/// A worker that is not attached resigns to a member, which then hands out its values.
#[test]
fn a_worker_of_a_map_resigns(rt: HostRuntime) -> Result<(), Fail> {
    let map = Map::new(rt.alloc(), 64, 2)?;
    let mut leaver = map.member(1)?;
    let five = key(&rt, 5);
    assert_eq!(rt; leaver.try_insert(five, 50, TRIES), Ok(true));
    assert_eq!(rt; leaver.try_remove(five, TRIES), Ok(true));
    let (reason, heir) = stays(&rt, map.member(0)?, 1);
    assert_eq!(rt; reason, ResignReason::Attached);
    leaver.close();
    let Ok(mut heir) = heir.resign(1) else {
        panic!(rt; "the worker has not resigned")
    };
    let _ = heir.advance();
    let _ = heir.advance();
    let mut out = [0; 1];
    assert_eq!(rt; (heir.collect(&mut out).values, out), (1, [50]));
    Ok(())
}

/// A map that keeps a worker which was returned is closed with it.
#[test]
fn a_map_closes_with_a_worker_that_was_returned(rt: HostRuntime) -> Result<(), Fail> {
    let mut map = Map::new(rt.alloc(), 64, 1)?;
    let mut member = map.member(0)?;
    assert_eq!(rt; member.try_insert(key(&rt, 5), 50, TRIES), Ok(true));
    assert!(rt; map.keep_returned(member.close()).is_ok());
    assert_eq!(rt; keys_of(&rt, map), 1);
    Ok(())
}

/// A map that has a member is not closed, and goes on.
#[test]
fn a_map_with_a_member_stays_open(rt: HostRuntime) -> Result<(), Fail> {
    let map = Map::new(rt.alloc(), 64, 2)?;
    let mut member = map.member(0)?;
    let Err(error) = map.close() else {
        panic!(rt; "the map was closed")
    };
    assert_eq!(rt; error.reason, CloseReason::Attached);
    assert_eq!(rt; member.try_insert(key(&rt, 5), 50, TRIES), Ok(true));
    Ok(())
}

/// The close of a map hands out the value under each key that is left, and the value of each leaf that
/// waits.
#[test]
fn a_close_hands_out_the_values(rt: HostRuntime) -> Result<(), Fail> {
    let map = Map::new(rt.alloc(), 64, 1)?;
    let mut member = map.member(0)?;
    for number in 5..8 {
        let inserted = member.try_insert(key(&rt, number), 10 * number, TRIES);
        assert_eq!(rt; inserted, Ok(true));
    }
    assert_eq!(rt; member.try_remove(key(&rt, 6), TRIES), Ok(true));
    member.close();
    let Ok(mut left) = map.close() else {
        panic!(rt; "the map was not closed")
    };
    assert_eq!(rt; left.report.keys.len(), 2);
    assert_eq!(rt;
        (
            left.values.of_key(0),
            left.values.of_key(1),
            left.values.of_key(2)
        ),
        (Some(50), Some(70), None)
    );
    let Some(held) = left.report.queues.get_mut(0) else {
        panic!(rt; "the worker has no queue")
    };
    let (Some(inner), Some(leaf)) = (held.queue.pop(), held.queue.pop()) else {
        panic!(rt; "no two nodes wait")
    };
    assert!(rt; held.queue.is_empty());
    assert_eq!(rt;
        (
            left.values.of_slot(leaf.node.slot),
            left.values.of_slot(inner.node.slot)
        ),
        (Some(60), Some(0))
    );
    assert_eq!(rt;
        (left.values.of_slot(0), left.values.of_slot(65)),
        (None, None)
    );
    Ok(())
}

/// The last member closes its map, after the `Map` was dropped.
#[test]
fn the_last_member_ends_its_map(rt: HostRuntime) -> Result<(), Fail> {
    let map = Map::new(rt.alloc(), 64, 1)?;
    let mut last = map.member(0)?;
    assert_eq!(rt; last.try_insert(key(&rt, 5), 50, TRIES), Ok(true));
    let Err(EndError::Attached(last)) = last.end() else {
        panic!(rt; "the map was ended")
    };
    drop(map);
    let Ok(left) = last.end() else {
        panic!(rt; "the map was not ended")
    };
    assert_eq!(rt; left.report.keys.len(), 1);
    assert_eq!(rt;
        (left.values.of_key(0), left.values.of_key(1)),
        (Some(50), None)
    );
    Ok(())
}

/// Inserts keys that are two apart, each with the key as its value, and removes every fourth; returns
/// how many of them the map then has with their values.
fn works(mut member: MapMember, from: u64, keys: u64) -> u64 {
    let mut found = 0u64;
    let mut out = [0; 16];
    for turn in 0..keys {
        let number = from.saturating_add(turn.saturating_mul(2));
        let Some(key) = Key::new(number) else {
            return found;
        };
        let _ = member.try_insert(key, number, TRIES);
        if turn % 4 == 0 {
            let _ = member.try_remove(key, TRIES);
        }
        found = found.saturating_add(u64::from(member.try_get(key, TRIES) == Ok(Some(number))));
        let _ = member.advance();
        let _ = member.collect(&mut out);
    }
    found
}

/// Lets both members work at the same time, each in a thread of its own.
fn by_two<R: Threads + Sync>(rt: &R, one: MapMember, two: MapMember) -> (u64, u64) {
    join(rt, move || works(one, 0, 400), move || works(two, 1, 400))
}

#[test]
fn two_threads_fill_a_map(rt: HostRuntime) -> Result<(), Fail> {
    let map = Map::new(rt.alloc(), 8192, 2)?;
    let (one, two) = by_two(&rt, map.member(0)?, map.member(1)?);
    assert_eq!(rt; (one, two), (300, 300));
    assert_eq!(rt; keys_of(&rt, map), 600);
    Ok(())
}
