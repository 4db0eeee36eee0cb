//! The examples of `docs/RATTLE.md`.
ghost use Rattle.nm_tree.specs.Calls.{MayCall};

use super::*;
use std::thread::{Threads, join};

const TRIES: u32 = 100;

/// Inserts every second key below 200 from a first one on; returns the worker, and how many of the
/// keys were absent.
fn fill(tree: &Tree, mut worker: Worker, first: u64) -> (Worker, u64)
    requires { MayCall tree.now worker }
    ensures { MayCall tree.now result.0 }
{
    let mut inserted = 0u64;
    for number in 0..100u64 {
        let Some(key) = Key::new(number.wrapping_mul(2).wrapping_add(first)) else {
            continue;
        };
        if tree.insert(&mut worker, key, TRIES) == Ok(true) {
            inserted = inserted.saturating_add(1);
        }
    }
    (worker, inserted)
}

/// Inserts the even keys in one thread and the odd ones in another, on one tree.
pub(super) fn fill_both<R: Threads + Sync>(
    rt: &R,
    tree: &Tree,
    one: Worker,
    two: Worker,
) -> ((Worker, u64), (Worker, u64))
    requires one { MayCall tree.now one }
    requires two { MayCall tree.now two }
    ensures one { MayCall tree.now result.0.0 }
    ensures two { MayCall tree.now result.1.0 }
{
    join(
        rt,
        move || -> (Worker, u64)
            requires { MayCall tree.now one }
            ensures { MayCall tree.entry.now result.0 }
        { fill(tree, one, 0) },
        move || -> (Worker, u64)
            requires { MayCall tree.now two }
            ensures { MayCall tree.entry.now result.0 }
        { fill(tree, two, 1) },
    )
}

/// Returns whether the key was inserted, found and deleted.
fn visit(tree: &Tree, worker: &mut Worker, key: Key) -> Result<(bool, bool, bool), CallFault>
    requires { MayCall tree.now worker.old }
    ensures { MayCall tree.now worker.new }
{
    let inserted = tree.insert(worker, key, TRIES)?;
    let found = tree.has(worker, key, TRIES)?;
    let deleted = tree.delete(worker, key, TRIES)?;
    Ok((inserted, found, deleted))
}

/// Advances the epoch twice, unless others hold it back, and frees the nodes that have waited long
/// enough; returns how many.
fn tidy(tree: &Tree, worker: &mut Worker) -> u64
    requires { MayCall tree.now worker.old }
    ensures { MayCall tree.now worker.new }
{
    tree.advance(worker);
    tree.advance(worker);
    tree.collect(worker).freed
}

#[test]
fn two_threads_fill_a_set(rt: HostRuntime) -> Result<(), Fail> {
    let (tree, one, two) = two_of(&rt, 1024)?;
    let ((mut one, even), (_two, odd)) = fill_both(&rt, &tree, one, two);
    let Some(key) = Key::new(150) else {
        unreachable!()
    };
    assert_eq!(rt; (even, odd), (100, 100));
    assert_eq!(rt; tree.has(&mut one, key, TRIES), Ok(true));
    assert_eq!(rt; tree.delete(&mut one, key, TRIES), Ok(true));
    assert_eq!(rt; tree.has(&mut one, key, TRIES), Ok(false));
    Ok(())
}

#[test]
fn a_visit_leaves_two_nodes_to_free(rt: HostRuntime) -> Result<(), Fail> {
    let (tree, mut one, _two) = two_of(&rt, 1024)?;
    let Some(key) = Key::new(5) else {
        unreachable!()
    };
    assert_eq!(rt; visit(&tree, &mut one, key), Ok((true, true, true)));
    assert_eq!(rt; tidy(&tree, &mut one), 2);
    Ok(())
}
