//! Members of a set in one thread, with each answer compared, and two members in threads of their
//! own.
use nm_edge::Key;
use nm_set::{
    CallFault, CloseReason, EndError, Fit, Fullness, InsertFault, Keys, Member, MemberFault,
    NotPinned, ObserveFault, OfKeysError, Options, PinFault, Report, ResignReason, Set, SetOfKeys,
    Stamp,
};
use std::process::Abort;
use std::test::Fail;
use std::thread::{Threads, join};

/// The number of tries of each call.
const TRIES: u32 = 100;

/// Returns a number as a key.
fn key(rt: &impl Abort, number: u64) -> Key {
    let Some(key) = Key::new(number) else {
        panic!(rt; "{number} is no key")
    };
    key
}

/// Returns why a set was not closed, and the set.
fn refused(rt: &impl Abort, set: Set) -> (CloseReason, Set) {
    match set.close() {
        Ok(_) => panic!(rt; "the set was closed"),
        Err(error) => (error.reason, error.set),
    }
}

/// Closes a set; returns its keys, and how many of its slots are free, reached or waiting.
fn closed(rt: &impl Abort, set: Set) -> (Vec<Key>, u64) {
    let Ok(report) = set.close() else {
        panic!(rt; "the set was not closed")
    };
    told(report)
}

/// Returns the keys of a report, and how many slots are free, reached or waiting.
fn told(report: Report) -> (Vec<Key>, u64) {
    let mut slots = u64::from(report.free) + u64::from(report.reached);
    for held in &report.queues {
        slots = slots.saturating_add(u64::from(held.queue.len()));
    }
    (report.keys, slots)
}

#[test]
fn a_member_answers_and_keeps_what_it_holds(rt: HostRuntime) -> Result<(), Fail> {
    let set = Set::unbalanced(rt.alloc(), 64, 2, Fit::FirstFit)?;
    let mut first = set.member(0)?;
    let five = key(&rt, 5);
    assert_eq!(rt;
        (first.number(), first.try_insert(five, TRIES)),
        (0, Ok(true))
    );
    assert_eq!(rt;
        (
            first.try_insert(five, TRIES),
            first.try_contains(five, TRIES)
        ),
        (Ok(false), Ok(true))
    );
    assert_eq!(rt;
        (first.try_remove(five, TRIES), first.try_remove(five, TRIES)),
        (Ok(true), Ok(false))
    );
    assert_eq!(rt;
        (first.try_contains(five, TRIES), first.finish(TRIES)),
        (Ok(false), Ok(false))
    );
    assert_eq!(rt;
        (
            first.queue_len(),
            first.pending(),
            first.try_contains(five, 0)
        ),
        (2, None, Err(CallFault::Busy))
    );
    let ledger = first.stats();
    assert_eq!(rt;
        (ledger.links, ledger.flags, ledger.retired, ledger.queued),
        (1, 1, 2, 2)
    );
    first.close();
    let mut again = set.member(0)?;
    assert_eq!(rt; (again.queue_len(), again.stats().retired), (2, 2));
    let _ = again.advance();
    let _ = again.advance();
    assert_eq!(rt; (again.collect().freed, again.queue_len()), (2, 0));
    Ok(())
}

#[test]
fn a_returned_worker_is_taken_again(rt: HostRuntime) -> Result<(), Fail> {
    let set = Set::unbalanced(rt.alloc(), 64, 2, Fit::FirstFit)?;
    let five = key(&rt, 5);
    let mut first = set.member(0)?;
    assert_eq!(rt;
        (first.returns(), first.try_insert(five, TRIES)),
        (0, Ok(true))
    );
    let Ok(mut again) = first.close().again() else {
        panic!(rt; "nobody else has had the worker")
    };
    assert_eq!(rt;
        (again.returns(), again.try_contains(five, TRIES)),
        (1, Ok(true))
    );
    assert_eq!(rt; set.is_attached(0), Ok(true));
    let returned = again.close();
    assert_eq!(rt;
        (returned.done().inserted, set.is_attached(0)),
        (1, Ok(false))
    );
    set.attach()?.close();
    assert!(rt; returned.again().is_err());
    let (keys, slots) = closed(&rt, set);
    assert_eq!(rt; (keys.as_slice(), slots), ([five].as_slice(), 59));
    Ok(())
}

/// Returns why no set was made of keys.
fn not_made(rt: &impl Abort, made: Result<SetOfKeys, OfKeysError>) -> OfKeysError {
    match made {
        Ok(_) => panic!(rt; "a set was made"),
        Err(error) => error,
    }
}

#[test]
fn a_set_is_made_of_keys(rt: HostRuntime) -> Result<(), Fail> {
    let options = Options::default();
    let three = [key(&rt, 3), key(&rt, 5), key(&rt, 9)];
    let SetOfKeys {
        set,
        mut others,
        mut filler,
    } = Set::of_keys(rt.alloc(), 11, 2, &three, &options)?;
    let Some(mut other) = others.pop() else {
        panic!(rt; "a set of two workers has one other member")
    };
    assert_eq!(rt;
        (
            other.contains(three[1], &options),
            filler.contains(key(&rt, 4), &options)
        ),
        (Ok(true), Ok(false))
    );
    assert_eq!(rt; (other.stats().links, filler.stats().links), (0, 3));
    other.close();
    filler.close();
    let (left, slots) = closed(&rt, set);
    assert_eq!(rt; (left.len(), slots), (3, 6));
    let full = Set::of_keys(rt.alloc(), 10, 1, &three, &options);
    assert_eq!(rt; not_made(&rt, full), OfKeysError::Full);
    let twice = [key(&rt, 3), key(&rt, 3)];
    let doubled = Set::of_keys(rt.alloc(), 64, 1, &twice, &options);
    assert_eq!(rt; not_made(&rt, doubled), OfKeysError::Order);
    Ok(())
}

#[test]
fn a_full_set_tells_who_holds_memory_back(rt: HostRuntime) -> Result<(), Fail> {
    let set = Set::<Keys>::new(rt.alloc(), 7, 2)?;
    let mut first = set.member(0)?;
    let mut reader = set.member(1)?;
    let options = Options::default();
    let (five, six) = (key(&rt, 5), key(&rt, 6));
    let _epoch = reader.pin(TRIES)?;
    assert_eq!(rt;
        (first.insert(five, &options), first.remove(five, &options)),
        (Ok(true), Ok(true))
    );
    let held = Fullness {
        waiting: 2,
        behind: Some(1),
    };
    assert_eq!(rt; first.insert(six, &options), Err(InsertFault::Full(held)));
    assert_eq!(rt; first.try_insert(six, TRIES), Err(CallFault::Full));
    assert_eq!(rt;
        format!(in rt.alloc(); "{held}")?.as_str(),
        "no slot is free for a new node; 2 removed nodes wait, and worker 1 holds them back"
    );
    reader.unpin()?;
    assert_eq!(rt; first.insert(six, &options), Ok(true));
    let brimful = Fullness {
        waiting: 0,
        behind: None,
    };
    assert_eq!(rt;
        first.insert(five, &options),
        Err(InsertFault::Full(brimful))
    );
    Ok(())
}

#[test]
fn a_held_member_is_not_asked(rt: HostRuntime) -> Result<(), Fail> {
    let set = Set::unbalanced(rt.alloc(), 64, 2, Fit::NextFit)?;
    let mut first = set.member(0)?;
    let mut second = set.member(1)?;
    let five = key(&rt, 5);
    assert_eq!(rt; first.unpin(), Err(NotPinned));
    let epoch = first.pin(TRIES)?;
    assert_eq!(rt;
        (first.pinned(), first.pin(TRIES)),
        (Some(epoch), Err(PinFault::Pinned))
    );
    assert_eq!(rt;
        (
            first.try_contains(five, TRIES),
            first.try_insert(five, TRIES)
        ),
        (Err(CallFault::Pinned), Err(CallFault::Pinned))
    );
    assert_eq!(rt;
        (
            first.try_remove(five, TRIES),
            second.try_insert(five, TRIES)
        ),
        (Err(CallFault::Pinned), Ok(true))
    );
    let _ = second.advance();
    let _ = second.advance();
    assert_eq!(rt; second.behind().mask, 1);
    assert_eq!(rt;
        (first.unpin(), first.pinned(), second.behind().mask),
        (Ok(()), None, 0)
    );
    assert_eq!(rt; first.try_contains(five, TRIES), Ok(true));
    Ok(())
}

#[test]
fn a_set_closes_when_all_are_at_home(rt: HostRuntime) -> Result<(), Fail> {
    let set = Set::unbalanced(rt.alloc(), 64, 2, Fit::FirstFit)?;
    let mut first = set.member(0)?;
    let (again, none) = (set.member(0), set.member(2));
    assert_eq!(rt;
        (again.err(), none.err()),
        (Some(MemberFault::Attached), Some(MemberFault::Number))
    );
    for number in [7, 3, 9] {
        assert_eq!(rt; first.try_insert(key(&rt, number), TRIES), Ok(true));
    }
    assert_eq!(rt; first.try_remove(key(&rt, 7), TRIES), Ok(true));
    let (reason, set) = refused(&rt, set);
    assert_eq!(rt; reason, CloseReason::Attached);
    assert_eq!(rt; first.try_contains(key(&rt, 3), TRIES), Ok(true));
    drop(first);
    let (keys, slots) = closed(&rt, set);
    assert_eq!(rt;
        (keys.as_slice(), slots),
        ([key(&rt, 3), key(&rt, 9)].as_slice(), 59)
    );
    Ok(())
}

/// `attach` gives out members from the least number on. They make managed calls, and a set closes
/// the members that it keeps.
#[test]
fn a_kept_member_is_closed_with_its_set(rt: HostRuntime) -> Result<(), Fail> {
    let mut set = Set::unbalanced(rt.alloc(), 256, 16, Fit::NextFit)?;
    let mut first = set.attach()?;
    let second = set.attach()?;
    assert_eq!(rt; (first.number(), second.number()), (0, 1));
    let (five, nine, options) = (key(&rt, 5), key(&rt, 9), Options::default());
    assert_eq!(rt;
        (first.insert(five, &options), first.insert(five, &options)),
        (Ok(true), Ok(false))
    );
    assert_eq!(rt;
        (first.insert(nine, &options), first.contains(nine, &options)),
        (Ok(true), Ok(true))
    );
    assert_eq!(rt;
        (first.remove(five, &options), first.remove(five, &options)),
        (Ok(true), Ok(false))
    );
    second.close();
    assert!(rt; set.keep(first).is_ok());
    let (keys, slots) = closed(&rt, set);
    assert_eq!(rt; (keys.as_slice(), slots), ([nine].as_slice(), 251));
    Ok(())
}

/// Checks that a member does not close its set if it is not the last one, or if the `Set` still
/// exists; returns the member.
fn not_last(rt: &impl Abort, member: Member) -> Member {
    match member.end() {
        Err(EndError::Attached(member)) => member,
        _ => panic!(rt; "the set was ended, or closing"),
    }
}

/// The last member closes its set, after the `Set` was dropped and the other member was closed.
#[test]
fn the_last_member_ends_its_set(rt: HostRuntime) -> Result<(), Fail> {
    let set = Set::unbalanced(rt.alloc(), 64, 3, Fit::FirstFit)?;
    let mut last = set.member(1)?;
    let other = set.member(0)?;
    let (five, nine) = (key(&rt, 5), key(&rt, 9));
    assert_eq!(rt;
        (last.try_insert(five, TRIES), last.try_insert(nine, TRIES)),
        (Ok(true), Ok(true))
    );
    let last = not_last(&rt, last);
    drop(set);
    let mut last = not_last(&rt, last);
    assert_eq!(rt; last.try_remove(five, TRIES), Ok(true));
    other.close();
    let Ok(report) = last.end() else {
        panic!(rt; "the set was not ended")
    };
    let (keys, slots) = told(report);
    assert_eq!(rt; (keys.as_slice(), slots), ([nine].as_slice(), 59));
    Ok(())
}

/// A stamp can be observed several times, and has what its worker had done. A set reports which
/// workers are attached.
#[test]
fn members_leave_notes(rt: HostRuntime) -> Result<(), Fail> {
    let set = Set::unbalanced(rt.alloc(), 64, 3, Fit::NextFit)?;
    let mut writer = set.member(1)?;
    let mut reader = set.member(0)?;
    assert_eq!(rt;
        (reader.observe(1), reader.observe(3)),
        (Ok(None), Err(ObserveFault::Number))
    );
    assert_eq!(rt; writer.try_insert(key(&rt, 5), TRIES), Ok(true));
    let won = Stamp {
        inserted: 1,
        removed: 0,
    };
    assert_eq!(rt; writer.publish(), Some(won));
    assert_eq!(rt;
        (reader.observe(1), reader.observe(1)),
        (Ok(Some(won)), Ok(Some(won)))
    );
    reader.close();
    assert_eq!(rt;
        (set.is_attached(1), set.is_attached(0), set.is_attached(3)),
        (Ok(true), Ok(false), Err(MemberFault::Number))
    );
    writer.close();
    assert_eq!(rt; closed(&rt, set).1, 59);
    Ok(())
}

#[test]
fn a_worker_at_home_resigns_to_a_member(rt: HostRuntime) -> Result<(), Fail> {
    let set = Set::unbalanced(rt.alloc(), 64, 2, Fit::FirstFit)?;
    let mut leaver = set.member(1)?;
    let five = key(&rt, 5);
    assert_eq!(rt;
        (
            leaver.try_insert(five, TRIES),
            leaver.try_remove(five, TRIES)
        ),
        (Ok(true), Ok(true))
    );
    let heir = set.member(0)?;
    let (reason, heir) = stays(&rt, heir, 1);
    assert_eq!(rt; reason, ResignReason::Attached);
    let (reason, heir) = stays(&rt, heir, 2);
    assert_eq!(rt; reason, ResignReason::Number);
    let _ = leaver.pin(TRIES)?;
    leaver.close();
    let leaver = set.member(1)?;
    assert_eq!(rt; leaver.pinned(), None);
    leaver.close();
    let Ok(heir) = heir.resign(1) else {
        panic!(rt; "the worker has not resigned")
    };
    assert_eq!(rt;
        (heir.queue_len(), set.member(1).err()),
        (2, Some(MemberFault::Attached))
    );
    heir.close();
    assert_eq!(rt; closed(&rt, set).1, 59);
    Ok(())
}

/// Returns why a worker has not resigned, and the member that was to be its heir.
fn stays(rt: &impl Abort, heir: Member, leaver: u32) -> (ResignReason, Member) {
    match heir.resign(leaver) {
        Ok(_) => panic!(rt; "worker {leaver} has resigned"),
        Err(error) => (error.reason, error.member),
    }
}

/// Inserts keys that are two apart, and deletes every fourth; returns how often a call returned
/// true.
fn works(mut member: Member, from: u64, keys: u64) -> u64 {
    let mut done = 0u64;
    for turn in 0..keys {
        let Some(key) = Key::new(from.saturating_add(turn.saturating_mul(2))) else {
            return done;
        };
        done = done.saturating_add(u64::from(member.try_insert(key, TRIES) == Ok(true)));
        if turn % 4 == 0 {
            done = done.saturating_add(u64::from(member.try_remove(key, TRIES) == Ok(true)));
        }
        let _ = member.advance();
        let _ = member.collect();
    }
    done
}

/// Lets both members work at the same time, each in a thread of its own.
fn by_two<R: Threads + Sync>(rt: &R, one: Member, two: Member) -> (u64, u64) {
    join(rt, move || works(one, 0, 400), move || works(two, 1, 400))
}

#[test]
fn two_threads_fill_a_set(rt: HostRuntime) -> Result<(), Fail> {
    let set = Set::unbalanced(rt.alloc(), 8192, 2, Fit::NextFit)?;
    let (one, two) = by_two(&rt, set.member(0)?, set.member(1)?);
    assert_eq!(rt; (one, two), (500, 500));
    let (keys, slots) = closed(&rt, set);
    assert_eq!(rt; (keys.len(), slots), (600, 8187));
    Ok(())
}
