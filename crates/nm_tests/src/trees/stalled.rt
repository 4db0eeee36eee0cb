//! Workers that stop: one while it is pinned, one while a delete is pending, and one that only pins
//! beside three that change the set.
ghost use Rattle.std.specs.Prelude.{All, IfOk};
ghost use Rattle.nm_steps.specs.Steps.{IsOf};
ghost use Rattle.nm_tree.specs.Calls.{MayCall};

use super::crowd::{Played, gathered, report_of, waiting};
use super::threads::{ROUNDS, Score, TRIES, rounds};
use super::*;
use nm_tree::Behind;
use std::alloc::AllocError;
use std::thread::{Threads, map_vec};

/// Worker 1 has stopped at epoch 0, and no slot is free. Worker 0 advances the epoch by one and no
/// further, frees nothing, finds no slot, and learns which worker holds the epoch back.
fn is_held_back(rt: &impl Abort, tree: &Tree, first: &mut Worker, second: &mut Worker)
    requires first { IsOf tree.now first.old.pass }
    requires second { IsOf tree.now second.old.pass }
    ensures first { IsOf tree.now first.new.pass }
    ensures second { IsOf tree.now second.new.pass }
{
    let held = Advance::Held {
        worker: 1,
        epoch: 0,
    };
    let none = Collected { epoch: 1, freed: 0 };
    let calls = [
        (0, Call::Insert(7), Answer::Not(CallFault::Full)),
        (0, Call::Advance, Answer::Moved(Advance::Moved { epoch: 1 })),
        (0, Call::Advance, Answer::Moved(held)),
        (0, Call::Collect, Answer::Freed(none)),
        (0, Call::Insert(7), Answer::Not(CallFault::Full)),
    ];
    play(rt, tree, first, second, 4, &calls);
    assert_eq!(rt; tree.behind(first), Behind { epoch: 1, mask: 2 });
}

/// Worker 1 has gone on. Worker 0 frees the two nodes that waited, and claims their slots.
fn recovers(rt: &impl Abort, tree: &Tree, first: &mut Worker, second: &mut Worker)
    requires first { IsOf tree.now first.old.pass }
    requires second { IsOf tree.now second.old.pass }
    ensures first { IsOf tree.now first.new.pass }
    ensures second { IsOf tree.now second.new.pass }
{
    assert_eq!(rt; tree.behind(first), Behind { epoch: 1, mask: 0 });
    let both = Collected { epoch: 2, freed: 2 };
    let calls = [
        (0, Call::Advance, Answer::Moved(Advance::Moved { epoch: 2 })),
        (0, Call::Collect, Answer::Freed(both)),
        (0, Call::Insert(7), Answer::Is(true)),
    ];
    play(rt, tree, first, second, 4, &calls);
}

#[test]
fn a_worker_stops_while_pinned(rt: HostRuntime) -> Result<(), Fail> {
    let (tree, mut first, mut second) = two_of(&rt, 9)?;
    let calls = [
        (1, Call::Pin, Answer::Pinned(0)),
        (0, Call::Insert(5), Answer::Is(true)),
        (0, Call::Delete(5), Answer::Is(true)),
        (0, Call::Insert(6), Answer::Is(true)),
    ];
    play(&rt, &tree, &mut first, &mut second, 4, &calls);
    is_held_back(&rt, &tree, &mut first, &mut second);
    let goes_on = [(1, Call::Unpin, Answer::Left)];
    play(&rt, &tree, &mut first, &mut second, 4, &goes_on);
    recovers(&rt, &tree, &mut first, &mut second);
    Ok(())
}

/// Worker 1 stops after it has flagged its leaf. The insert of worker 0 helps: it cuts that leaf
/// off, and then links its own.
#[test]
fn a_worker_stops_while_pending(rt: HostRuntime) -> Result<(), Fail> {
    let (tree, mut first, mut second) = two_of(&rt, 9)?;
    let stops = [
        (0, Call::Insert(5), Answer::Is(true)),
        (1, Call::Delete(5), Answer::Not(CallFault::Unfinished)),
    ];
    play(&rt, &tree, &mut first, &mut second, 1, &stops);
    let calls = [
        (0, Call::Has(5), Answer::Is(true)),
        (0, Call::Insert(6), Answer::Is(true)),
        (0, Call::Has(5), Answer::Is(false)),
    ];
    play(&rt, &tree, &mut first, &mut second, 4, &calls);
    is_held_back(&rt, &tree, &mut first, &mut second);
    let goes_on = [(1, Call::Finish, Answer::Is(true))];
    play(&rt, &tree, &mut first, &mut second, 4, &goes_on);
    recovers(&rt, &tree, &mut first, &mut second);
    Ok(())
}

/// Pins and unpins, many times.
fn pins(tree: &Tree, mut worker: Worker) -> Worker
    requires { MayCall tree.now worker }
    ensures { MayCall tree.now result }
{
    for _ in 0..ROUNDS {
        if let Ok(_epoch) = tree.pin(&mut worker, TRIES) {
            tree.unpin(&mut worker);
        }
    }
    worker
}

/// Plays the rounds of a worker; the last worker only pins.
fn rounds_of(tree: &Tree, worker: Worker) -> Played
    requires { MayCall tree.now worker }
    ensures { MayCall tree.now result.worker }
{
    let number = worker.number();
    if number == 3 {
        return Played {
            worker: pins(tree, worker),
            score: Score::default(),
        };
    }
    let (worker, score) = rounds(tree, worker, number, ROUNDS);
    Played { worker, score }
}

/// Plays the rounds of each worker, in a thread of its own.
fn play_each<R: Threads + Sync>(
    rt: &R,
    tree: &Tree,
    workers: Vec<Worker>,
) -> Result<Vec<Played>, AllocError>
    requires { All (λ w. MayCall tree.now w) workers.items }
    ensures { IfOk result (λ v. All (λ p. MayCall tree.now p.worker) v.items) }
{
    map_vec(
        rt,
        workers,
        &|worker: Worker| -> Played
            requires { MayCall tree.now worker }
            ensures { MayCall tree.entry.now result.worker }
        { rounds_of(tree, worker) },
    )
}

/// Three workers insert, delete, advance and collect on 64 nodes beside one that only pins. At the
/// end each slot above 5 is free, is reached or waits.
fn adds_up<R: Threads + Sync + Abort + AllocGlobal>(rt: &R) -> Result<(), Fail> {
    let (tree, workers) = Tree::new(rt.alloc(), 64, 4)?;
    let played = play_each(rt, &tree, workers)?;
    let (workers, score) = gathered(rt.alloc(), &tree, played)?;
    let report = report_of(rt, tree, workers);
    assert!(rt; 0 < score.deleted);
    let kept = score.inserted.saturating_sub(score.deleted);
    assert_eq!(rt; report.keys.len(), kept as usize);
    let all = report
        .free
        .saturating_add(report.reached)
        .saturating_add(waiting(&report));
    assert_eq!(rt; all, 59);
    Ok(())
}

#[test]
fn three_go_on_beside_one_that_pins(rt: HostRuntime) -> Result<(), Fail> {
    adds_up(&rt)
}
