//! Many workers in threads of their own, and the report of the tree at its close.
ghost use Rattle.std.specs.Prelude.{◌≡◌, ◌+◌, ◌-◌, All, IfOk};
ghost use Rattle.nm_steps.specs.Steps.{IsOf};
ghost use Rattle.nm_tree.specs.Closing.{AreAllOf};
ghost use Rattle.nm_tree.specs.Calls.{MayCall};
ghost use Rattle.nm_tree.specs.Workers.{waiting_in};

use super::threads::{ROUNDS, Score, TRIES, rounds};
use super::*;
use nm_tree::Report;
use std::alloc::{AllocError, Global};
use std::thread::{Threads, map_vec};

const NODES: u32 = 2048;

/// A worker after its rounds, and how often its calls returned true.
#[derive(Drop)]
pub(super) struct Played {
    pub(super) worker: Worker,
    pub(super) score: Score,
}

/// Plays the rounds of each worker, in a thread of its own.
fn play_all<R: Threads + Sync>(
    rt: &R,
    tree: &Tree,
    workers: Vec<Worker>,
    count: u32,
) -> Result<Vec<Played>, AllocError>
    requires { All (λ w. MayCall tree.now w) workers.items }
    ensures { IfOk result (λ v. All (λ p. MayCall tree.now p.worker) v.items) }
{
    map_vec(
        rt,
        workers,
        &|worker: Worker| -> Played
            requires { MayCall tree.now worker }
            ensures { MayCall tree.entry.now result.worker }
        {
            let from = worker.number();
            let (worker, score) = rounds(tree, worker, from, count);
            Played { worker, score }
        },
    )
}

/// Finishes the pending delete of a worker; returns the worker and the sum of both scores.
fn settled(tree: &Tree, played: Played, so_far: Score) -> (Worker, Score)
    requires { MayCall tree.now played.worker }
    ensures { IsOf tree.now result.0.pass }
{
    let Played { mut worker, score } = played;
    let late = tree.finish(&mut worker, TRIES) == Ok(true);
    let inserted = so_far.inserted.saturating_add(score.inserted);
    let deleted = so_far.deleted.saturating_add(score.deleted);
    let deleted = deleted.saturating_add(u32::from(late));
    (worker, Score { inserted, deleted })
}

/// Returns all workers, and how often their calls returned true.
#[tactic(auto, using(nm_tree::proofs::Closed::all_and))]
pub(super) fn gathered(
    alloc: Global,
    tree: &Tree,
    played: Vec<Played>,
) -> Result<(Vec<Worker>, Score), AllocError>
    requires { All (λ p. MayCall tree.now p.worker) played.items }
    ensures { IfOk result (λ r. AreAllOf tree.now r.0.items) }
{
    let mut workers = Vec::new(alloc);
    let mut sum = Score::default();
    for each in played {
        let (worker, score) = settled(tree, each, sum);
        sum = score;
        workers.push(worker)?;
    }
    Ok((workers, sum))
}

/// Returns how many nodes wait in all queues of a report.
pub(super) fn waiting(report: &Report) -> u32 {
    report
        .queues
        .iter()
        .fold(0u32, |sum, held| sum.saturating_add(held.queue.len()))
}

/// Returns the report of a tree that is closed with all its workers.
pub(super) fn report_of(rt: &impl Abort, tree: Tree, workers: Vec<Worker>) -> Report
    requires { AreAllOf tree workers.items }
    ensures sum { result.free + result.reached + waiting_in result.queues.items
        ≡ tree.layout.nodes - 5 }
{
    let Ok(report) = tree.close(workers) else {
        panic!(rt; "not closed")
    };
    report
}

/// Several workers insert and delete the same keys, advance the epoch and collect, each in a thread
/// of its own. The report has as many keys as follow from the calls that returned true, and each
/// slot is free, is reached or waits.
fn adds_up<R: Threads + Sync + Abort + AllocGlobal>(
    rt: &R,
    workers: u32,
    count: u32,
) -> Result<(), Fail> {
    let (tree, workers) = Tree::new(rt.alloc(), NODES, workers)?;
    let played = play_all(rt, &tree, workers, count)?;
    let (workers, score) = gathered(rt.alloc(), &tree, played)?;
    let report = report_of(rt, tree, workers);
    let kept = score.inserted.saturating_sub(score.deleted);
    assert!(rt; 0 < score.deleted);
    assert_eq!(rt; report.keys.len(), kept as usize);
    assert_eq!(rt; report.reached, kept.saturating_mul(2));
    let all = report
        .free
        .saturating_add(report.reached)
        .saturating_add(waiting(&report));
    assert_eq!(rt; all, NODES - 5);
    Ok(())
}

#[test]
fn two_workers_add_up(rt: HostRuntime) -> Result<(), Fail> {
    adds_up(&rt, 2, ROUNDS)
}

#[test]
fn four_workers_add_up(rt: HostRuntime) -> Result<(), Fail> {
    adds_up(&rt, 4, ROUNDS)
}

#[test]
fn sixty_four_workers_add_up(rt: HostRuntime) -> Result<(), Fail> {
    adds_up(&rt, 64, 500)
}
