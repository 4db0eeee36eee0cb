//! Workers in threads of their own.
ghost use Rattle.nm_tree.specs.Calls.{MayCall};

use super::*;
use std::thread::{Threads, join};

/// The number of rounds that each of two or four workers plays.
pub(super) const ROUNDS: u32 = 10_000;

const KEYS: u32 = 10;

/// The number of tries of each call.
pub(super) const TRIES: u32 = 100;

/// How often the calls of a worker returned true.
#[derive(Clone, Copy, Debug, Default, PartialEq, Eq)]
pub(super) struct Score {
    pub(super) inserted: u32,
    pub(super) deleted: u32,
}

/// Returns the count, with one more if the call returned true.
fn counted(count: u32, answer: Result<bool, CallFault>) -> u32 {
    if answer == Ok(true) {
        count.saturating_add(1)
    } else {
        count
    }
}

/// Inserts a key and deletes the next one, finishes the pending delete, advances the epoch and
/// collects.
fn round(tree: &Tree, worker: &mut Worker, key: Key, next: Key, so_far: Score) -> Score
    requires { MayCall tree.now worker.old }
    ensures { MayCall tree.now worker.new }
{
    let inserted = counted(so_far.inserted, tree.insert(worker, key, TRIES));
    let deleted = counted(so_far.deleted, tree.delete(worker, next, TRIES));
    let deleted = counted(deleted, tree.finish(worker, TRIES));
    let _ = tree.advance(worker);
    let _ = tree.collect(worker);
    Score { inserted, deleted }
}

/// Plays `count` rounds over ten keys.
pub(super) fn rounds(tree: &Tree, mut worker: Worker, from: u32, count: u32) -> (Worker, Score)
    requires { MayCall tree.now worker }
    ensures { MayCall tree.now result.0 }
{
    let mut so_far = Score::default();
    for turn in 0..count {
        let place = turn.wrapping_add(from);
        let key = Key::new(u64::from(place % KEYS));
        let next = Key::new(u64::from(place.wrapping_add(3) % KEYS));
        if let (Some(key), Some(next)) = (key, next) {
            so_far = round(tree, &mut worker, key, next, so_far);
        }
    }
    (worker, so_far)
}

pub(super) fn by_two<R: Threads + Sync>(
    rt: &R,
    tree: &Tree,
    one: Worker,
    two: Worker,
) -> ((Worker, Score), (Worker, Score))
    requires one { MayCall tree.now one }
    requires two { MayCall tree.now two }
    ensures one { MayCall tree.now result.0.0 }
    ensures two { MayCall tree.now result.1.0 }
{
    join(
        rt,
        move || -> (Worker, Score)
            requires { MayCall tree.now one }
            ensures { MayCall tree.entry.now result.0 }
        { rounds(tree, one, 0, ROUNDS) },
        move || -> (Worker, Score)
            requires { MayCall tree.now two }
            ensures { MayCall tree.entry.now result.0 }
        { rounds(tree, two, 7, ROUNDS) },
    )
}

/// Returns how many of the ten keys are in the set.
fn there(tree: &Tree, worker: &mut Worker) -> u32
    requires { MayCall tree.now worker.old }
    ensures { MayCall tree.now worker.new }
{
    let mut found = 0u32;
    for number in 0..KEYS {
        if let Some(key) = Key::new(u64::from(number)) {
            found = counted(found, tree.has(worker, key, TRIES));
        }
    }
    found
}

/// Two workers insert and delete the same ten keys: the calls that returned true add up to the keys
/// that are in the tree.
#[test]
fn true_answers_add_up(rt: HostRuntime) -> Result<(), Fail> {
    let (tree, first, second) = two_of(&rt, 256)?;
    let ((mut first, one), (second, two)) = by_two(&rt, &tree, first, second);
    assert_eq!(rt;
        first.pending().is_none() && second.pending().is_none(),
        true
    );
    let inserted = one.inserted.saturating_add(two.inserted);
    let deleted = one.deleted.saturating_add(two.deleted);
    assert!(rt; 0 < inserted);
    assert_eq!(rt; inserted.saturating_sub(deleted), there(&tree, &mut first));
    let ours = first.ledger();
    let theirs = second.ledger();
    assert_eq!(rt;
        ours.links.saturating_add(theirs.links),
        u64::from(inserted)
    );
    assert_eq!(rt; ours.flags.saturating_add(theirs.flags), u64::from(deleted));
    assert_eq!(rt; ours.retired, ours.freed.saturating_add(ours.queued));
    Ok(())
}
