//! Calls of the set over passes: look-ups by two threads, and inserts and deletes of several
//! workers, one call after another.
ghost use Rattle.nm_steps.specs.Steps.{IsOf, IsSamePass};
ghost use Rattle.nm_epoch.specs.Resting.{IsResting};

use super::workers::{
    cannot_finish, deletes, finds, finishes, flags, inserts, key, starting, tag_beside,
};
use super::{both, three};
use nm_calls::{CallFault, has};
use nm_edge::{Key, Layout};
use nm_epoch::advance;
use nm_steps::{Pass, Shared};
use std::test::Fail;
use std::thread::{Threads, join};

const NODES: u32 = 7;

const WORKERS: u32 = 2;

const ROUNDS: u64 = 1000;

#[test]
fn the_empty_tree_has_no_key(rt: HostRuntime) -> Result<(), Fail> {
    let (shared, passes) = Shared::new(rt.alloc(), Layout::new(NODES, WORKERS)?)?;
    let (mut first, mut second) = both(&shared, passes);
    let Some(five) = Key::new(5) else {
        panic!(rt; "5 is a key")
    };
    let Some(greatest) = Key::new(u64::MAX - 3) else {
        panic!(rt; "the greatest key")
    };
    assert_eq!(rt; has(&shared, &mut first, five, 4), Ok(false));
    assert_eq!(rt; has(&shared, &mut first, greatest, 1), Ok(false));
    assert_eq!(rt; has(&shared, &mut second, five, 1), Ok(false));
    assert_eq!(rt; has(&shared, &mut second, five, 0), Err(CallFault::Busy));
    Ok(())
}

/// Looks up a key and advances the epoch; returns whether the key was found.
fn round(shared: &Shared, pass: &mut Pass, key: Key) -> bool
    requires own { IsOf shared.now pass.old }
    requires rests { IsResting pass.old }
    ensures same { IsSamePass pass.old pass.new }
    ensures rests { IsResting pass.new }
{
    let found = has(shared, pass, key, 4);
    let _ = advance(shared, pass);
    found == Ok(true)
}

/// Plays `ROUNDS` rounds; returns how often the key was found.
fn rounds(shared: &Shared, mut pass: Pass, key: Key) -> (Pass, u64)
    requires own { IsOf shared.now pass }
    requires rests { IsResting pass }
    ensures own { IsOf shared.now result.0 }
    ensures rests { IsResting result.0 }
{
    let mut times = 0;
    for _round in 0..ROUNDS {
        if round(shared, &mut pass, key) {
            times += 1;
        }
    }
    (pass, times)
}

#[test]
fn two_threads_look_a_key_up(rt: HostRuntime) -> Result<(), Fail> {
    let (shared, passes) = Shared::new(rt.alloc(), Layout::new(NODES, WORKERS)?)?;
    let (first, second) = both(&shared, passes);
    let Some(five) = Key::new(5) else {
        panic!(rt; "5 is a key")
    };
    let ((mut first, one), (second, two)) = by_two(&rt, &shared, first, second, five);
    assert_eq!(rt; one, 0);
    assert_eq!(rt; two, 0);
    assert_eq!(rt; second.number(), 1);
    assert_eq!(rt; has(&shared, &mut first, five, 1), Ok(false));
    Ok(())
}

fn by_two<R: Threads + Sync>(
    rt: &R,
    shared: &Shared,
    one: Pass,
    two: Pass,
    key: Key,
) -> ((Pass, u64), (Pass, u64))
    requires one { IsOf shared.now one }
    requires one_rests { IsResting one }
    requires two { IsOf shared.now two }
    requires two_rests { IsResting two }
    ensures one { IsOf shared.now result.0.0 }
    ensures one_rests { IsResting result.0.0 }
    ensures two { IsOf shared.now result.1.0 }
{
    join(
        rt,
        move || -> (Pass, u64)
            requires own { IsOf shared.now one }
            requires rests { IsResting one }
            ensures own { IsOf shared.entry.now result.0 }
            ensures rests { IsResting result.0 }
        { rounds(shared, one, key) },
        move || -> (Pass, u64)
            requires own { IsOf shared.now two }
            requires rests { IsResting two }
            ensures { IsOf shared.entry.now result.0 }
        { rounds(shared, two, key) },
    )
}

#[test]
fn one_worker_inserts_and_deletes(rt: HostRuntime) -> Result<(), Fail> {
    let (shared, passes) = Shared::new(rt.alloc(), Layout::new(9, 2)?)?;
    let (first, _second) = both(&shared, passes);
    let mut one = starting(rt.alloc(), &shared, first);
    let five = key(&rt, 5);
    let six = key(&rt, 6);
    deletes(&rt, &shared, &mut one, five, false);
    inserts(&rt, &shared, &mut one, five, 1, Ok(true));
    inserts(&rt, &shared, &mut one, five, 1, Ok(false));
    finds(&rt, &shared, &mut one, five, true);
    deletes(&rt, &shared, &mut one, five, true);
    assert_eq!(rt; one.held.queue.len(), 2);
    finds(&rt, &shared, &mut one, five, false);
    inserts(&rt, &shared, &mut one, six, 1, Ok(true));
    inserts(&rt, &shared, &mut one, five, 1, Err(CallFault::Full));
    inserts(&rt, &shared, &mut one, five, 0, Err(CallFault::Busy));
    let leaf = flags(&rt, &shared, &mut one, six);
    cannot_finish(&rt, &shared, &mut one, six, leaf);
    finishes(&rt, &shared, &mut one, six, leaf);
    assert_eq!(rt; one.held.queue.len(), 4);
    assert_eq!(rt; one.held.counts.splices, 2);
    finds(&rt, &shared, &mut one, six, false);
    Ok(())
}

/// An insert beside a leaf that another worker has flagged cuts that leaf off: its one try is lost,
/// and the next is won.
#[test]
fn an_insert_helps_a_delete(rt: HostRuntime) -> Result<(), Fail> {
    let (shared, passes) = Shared::new(rt.alloc(), Layout::new(11, 2)?)?;
    let (first, second) = both(&shared, passes);
    let mut one = starting(rt.alloc(), &shared, first);
    let mut two = starting(rt.alloc(), &shared, second);
    let five = key(&rt, 5);
    let six = key(&rt, 6);
    inserts(&rt, &shared, &mut one, five, 1, Ok(true));
    let leaf = flags(&rt, &shared, &mut one, five);
    finds(&rt, &shared, &mut two, five, true);
    inserts(&rt, &shared, &mut two, six, 1, Err(CallFault::Busy));
    assert_eq!(rt; two.held.queue.len(), 2);
    assert_eq!(rt; two.held.counts.splices, 1);
    finds(&rt, &shared, &mut two, five, false);
    inserts(&rt, &shared, &mut two, six, 1, Ok(true));
    finishes(&rt, &shared, &mut one, five, leaf);
    assert_eq!(rt; one.held.queue.len(), 0);
    assert_eq!(rt; one.held.counts.splices, 0);
    finds(&rt, &shared, &mut one, six, true);
    Ok(())
}

/// Two workers each flag a leaf and tag the edge beside it. So a third worker cuts off a chain of
/// three internal nodes by one splice, with the flagged leaf beside each.
#[test]
fn one_splice_cuts_a_chain_of_three(rt: HostRuntime) -> Result<(), Fail> {
    let (shared, passes) = Shared::new(rt.alloc(), Layout::new(13, 3)?)?;
    let (first, second, third) = three(&shared, passes);
    let mut one = starting(rt.alloc(), &shared, first);
    let mut two = starting(rt.alloc(), &shared, second);
    let mut last = starting(rt.alloc(), &shared, third);
    let ten = key(&rt, 10);
    let thirty = key(&rt, 30);
    let forty = key(&rt, 40);
    inserts(&rt, &shared, &mut last, forty, 1, Ok(true));
    inserts(&rt, &shared, &mut last, thirty, 1, Ok(true));
    inserts(&rt, &shared, &mut last, key(&rt, 20), 1, Ok(true));
    inserts(&rt, &shared, &mut last, ten, 1, Ok(true));
    let of_forty = flags(&rt, &shared, &mut one, forty);
    assert!(rt; tag_beside(&shared, &mut one, forty, of_forty));
    let of_thirty = flags(&rt, &shared, &mut two, thirty);
    assert!(rt; tag_beside(&shared, &mut two, thirty, of_thirty));
    deletes(&rt, &shared, &mut last, ten, true);
    assert_eq!(rt; last.held.queue.len(), 6);
    assert_eq!(rt; last.held.counts.splices, 1);
    finishes(&rt, &shared, &mut one, forty, of_forty);
    finishes(&rt, &shared, &mut two, thirty, of_thirty);
    assert_eq!(rt; one.held.queue.len(), 0);
    assert_eq!(rt; two.held.queue.len(), 0);
    finds(&rt, &shared, &mut one, key(&rt, 20), true);
    finds(&rt, &shared, &mut two, ten, false);
    Ok(())
}
