//! Workers that resign, and trees that are closed.
ghost use Rattle.std.specs.Prelude.{◌≡◌, ◌∷◌, [], IfOk};
ghost use Rattle.nm_steps.specs.Steps.{IsOf};
ghost use Rattle.nm_tree.specs.Closing.{AreAllOf};

use super::*;
use nm_tree::{CloseReason, Report, ResignReason};
use std::alloc::{AllocError, Global};

/// Returns how many nodes wait, and the slots, generations (births) and labels of the first two.
pub(super) fn waiting(report: &mut Report, origin: usize) -> (u32, [(u32, u64, u64); 2]) {
    let mut found = [(0, 0, 0); 2];
    let Some(held) = report.queues.get_mut(origin) else {
        return (u32::MAX, found);
    };
    let count = held.queue.len();
    for place in 0..2usize {
        if let Some(entry) = held.queue.pop() {
            found[place] = (entry.node.slot, entry.node.birth, entry.label);
        }
    }
    (count, found)
}

/// Lets worker 1 insert and delete 5, and worker 0 insert and delete 6.
pub(super) fn each_deletes_one(
    rt: &impl Abort,
    tree: &Tree,
    first: &mut Worker,
    second: &mut Worker,
)
    requires first { IsOf tree.now first.old.pass }
    requires second { IsOf tree.now second.old.pass }
    ensures first { IsOf tree.now first.new.pass }
    ensures second { IsOf tree.now second.new.pass }
{
    let calls = [
        (1, Call::Insert(5), Answer::Is(true)),
        (1, Call::Delete(5), Answer::Is(true)),
        (0, Call::Insert(6), Answer::Is(true)),
        (0, Call::Delete(6), Answer::Is(true)),
    ];
    play(rt, tree, first, second, 4, &calls);
}

/// Returns the heir, if the leaver may resign.
fn heir_of(rt: &impl Abort, tree: &Tree, heir: Worker, leaver: Worker) -> Worker
    requires heir { IsOf tree.now heir.pass }
    requires leaver { IsOf tree.now leaver.pass }
    ensures { IsOf tree.now result.pass }
{
    let Ok(both) = tree.resign(heir, leaver) else {
        panic!(rt; "the leaver may not resign")
    };
    both
}

/// Returns a list of both workers.
pub(super) fn both(alloc: Global, first: Worker, second: Worker) -> Result<Vec<Worker>, AllocError>
    ensures { IfOk result (λ v. v.items ≡ first ∷ second ∷ []) }
{
    let mut workers = Vec::with_capacity(alloc, 2)?;
    workers.push(first)?;
    workers.push(second)?;
    Ok(workers)
}

/// Returns a list of one worker.
fn alone(alloc: Global, worker: Worker) -> Result<Vec<Worker>, AllocError>
    ensures { IfOk result (λ v. v.items ≡ worker ∷ []) }
{
    let mut workers = Vec::with_capacity(alloc, 1)?;
    workers.push(worker)?;
    Ok(workers)
}

/// Returns the report of a tree that is closed with all its workers.
pub(super) fn report_of(rt: &impl Abort, tree: Tree, workers: Vec<Worker>) -> Report
    requires { AreAllOf tree workers.items }
{
    let Ok(report) = tree.close(workers) else {
        panic!(rt; "not all workers were given")
    };
    report
}

/// Makes a call of one worker, and compares the answer.
pub(super) fn step(rt: &impl Abort, tree: &Tree, worker: &mut Worker, call: Call, want: Answer)
    requires own { IsOf tree.now worker.old.pass }
    ensures own { IsOf tree.now worker.new.pass }
{
    let answer = make(rt, tree, worker, call, 4);
    assert_eq!(rt; answer, want);
}

/// Advances the epoch twice, with a collection after each advance, and inserts a key.
fn free_all(rt: &impl Abort, tree: &Tree, worker: &mut Worker)
    requires own { IsOf tree.now worker.old.pass }
    ensures own { IsOf tree.now worker.new.pass }
{
    let moved = Answer::Moved(Advance::Moved { epoch: 1 });
    step(rt, tree, worker, Call::Advance, moved);
    let none = Answer::Freed(Collected { epoch: 1, freed: 0 });
    step(rt, tree, worker, Call::Collect, none);
    let moved = Answer::Moved(Advance::Moved { epoch: 2 });
    step(rt, tree, worker, Call::Advance, moved);
    let all = Answer::Freed(Collected { epoch: 2, freed: 4 });
    step(rt, tree, worker, Call::Collect, all);
    step(rt, tree, worker, Call::Insert(9), Answer::Is(true));
}

#[test]
fn an_heir_frees_for_both(rt: HostRuntime) -> Result<(), Fail> {
    let (tree, mut first, mut second) = two_of(&rt, 16)?;
    each_deletes_one(&rt, &tree, &mut first, &mut second);
    let mut heir = heir_of(&rt, &tree, first, second);
    assert_eq!(rt; heir.origins(), 2);
    assert_eq!(rt; heir.queue_len(), 4);
    free_all(&rt, &tree, &mut heir);
    let want = Counts {
        links: 1,
        flags: 1,
        splices: 1,
        retired: 2,
        freed: 2,
        queued: 0,
    };
    assert_eq!(rt; heir.ledger_of(1), Some(want));
    let mut report = report_of(&rt, tree, alone(rt.alloc(), heir)?);
    assert_eq!(rt; report.queues.len(), 2);
    assert_eq!(rt; waiting(&mut report, 0).0, 0);
    assert_eq!(rt; waiting(&mut report, 1).0, 0);
    assert_eq!(rt; report.keys.len(), 1);
    assert_eq!(rt; report.keys[0].get(), 9);
    assert_eq!(rt; report.free, 9);
    assert_eq!(rt; report.reached, 2);
    Ok(())
}

#[test]
fn a_worker_that_is_pinned_does_not_resign(rt: HostRuntime) -> Result<(), Fail> {
    let (tree, mut first, mut second) = two_of(&rt, 16)?;
    step(&rt, &tree, &mut second, Call::Pin, Answer::Pinned(0));
    let Err(fault) = tree.resign(first, second) else {
        panic!(rt; "a held worker has resigned")
    };
    assert_eq!(rt; fault.reason, ResignReason::Held);
    assert_eq!(rt; fault.leaver.held(), Some(0));
    assert_eq!(rt; fault.heir.origins(), 1);
    Ok(())
}

#[test]
fn closing_wants_all_workers(rt: HostRuntime) -> Result<(), Fail> {
    let (tree, mut first, second) = two_of(&rt, 16)?;
    step(&rt, &tree, &mut first, Call::Insert(5), Answer::Is(true));
    step(&rt, &tree, &mut first, Call::Delete(5), Answer::Is(true));
    let Err(error) = tree.close(alone(rt.alloc(), first)?) else {
        panic!(rt; "a worker was missing")
    };
    assert_eq!(rt; error.reason, CloseReason::NotAll { given: 1, made: 2 });
    let mut workers = error.workers;
    workers.push(second)?;
    let mut report = report_of(&rt, error.tree, workers);
    assert_eq!(rt; report.queues.len(), 2);
    assert_eq!(rt; waiting(&mut report, 0), (2, [(6, 1, 0), (7, 1, 0)]));
    assert_eq!(rt; waiting(&mut report, 1).0, 0);
    assert_eq!(rt; report.keys.len(), 0);
    assert_eq!(rt; report.free, 9);
    assert_eq!(rt; report.reached, 0);
    Ok(())
}

#[test]
fn a_held_worker_and_a_pending_one(rt: HostRuntime) -> Result<(), Fail> {
    let (tree, mut first, mut second) = two_of(&rt, 16)?;
    step(&rt, &tree, &mut first, Call::Insert(5), Answer::Is(true));
    step(&rt, &tree, &mut first, Call::Pin, Answer::Pinned(0));
    let unfinished = make(&rt, &tree, &mut second, Call::Delete(5), 1);
    assert_eq!(rt; unfinished, Answer::Not(CallFault::Unfinished));
    let Err(fault) = tree.resign(first, second) else {
        panic!(rt; "a worker with a pending key has resigned")
    };
    assert_eq!(rt; fault.reason, ResignReason::Pending);
    let mut report = report_of(&rt, tree, both(rt.alloc(), fault.leaver, fault.heir)?);
    assert_eq!(rt; waiting(&mut report, 0).0, 0);
    assert_eq!(rt; waiting(&mut report, 1).0, 0);
    assert_eq!(rt; report.keys.len(), 1);
    assert_eq!(rt; report.keys[0].get(), 5);
    assert_eq!(rt; report.free, 9);
    assert_eq!(rt; report.reached, 2);
    Ok(())
}
