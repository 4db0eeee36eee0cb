//! Threads that each play the lines of one worker.
ghost use Rattle.std.specs.Prelude.{◌≡◌, ◌≤◌, All, length, IfOk, IfErr};
ghost use Rattle.nm_steps.specs.Steps.{IsOf};
ghost use Rattle.nm_serial.specs.Makes.{IsOwnCall};
ghost use Rattle.nm_serial.specs.Stops.{IsRefusal};
ghost use Rattle.nm_serial.specs.Threads.{HasPlayed, HaveAllPlayed};

use crate::answer::Answer;
use crate::gate::Gate;
use crate::own_lines::{Lines, Stop, play_own};
use nm_files::read::entry::ScriptCall;
use nm_files::read::fault::RunFault;
use nm_tree::{Tree, Worker};
use std::alloc::Global;
use std::snapshot::Snapshot;
use std::sync::{RwLock, Wait};
use std::thread;
use std::thread::{Promise, PromisedHandle, Scope, Threads};

/// A worker after its lines, with their answers.
#[derive(Drop)]
pub(crate) struct Played {
    pub(crate) worker: Worker,
    pub(crate) answers: Result<Vec<Answer>, Stop>,
}

/// What a thread promises about its worker, which was this one.
#[derive(Drop)]
struct PlaysAll<'a, G: Gate> {
    gate: &'a G,
    tree: &'a Tree,
    tries: u32,
    calls: &'a [(u32, ScriptCall)],
    was: Snapshot<Worker>,
}

impl<'a, G: Gate> Promise<Played> for PlaysAll<'a, G> {
    ghost use Rattle.nm_serial.specs.Threads.{HasPlayed};

    ghost kept_by = { λ p r. HasPlayed (G.lets p.gate.now) (G.stops p.gate.now) p.tree.now p.tries
        p.calls.now p.was.value r.worker r.answers };
}

/// Plays all lines of a worker, and returns the worker.
fn play_all<G: Gate>(alloc: Global, lines: &Lines<'_, G>, mut worker: Worker) -> Played
    requires own { IsOf lines.now.tree.now worker.pass }
    requires plain { All (λ e. IsOwnCall e.1) lines.now.calls.now }
    requires few { length lines.now.calls.now ≤ 100000 }
    ensures { HasPlayed (G.lets lines.now.gate.now) (G.stops lines.now.gate.now) lines.now.tree.now
        lines.now.tries lines.now.calls.now worker result.worker result.answers }
{
    let answers = play_own(alloc, lines, &mut worker);
    Played { worker, answers }
}

/// Waits until the threads may start.
fn wait_for<R: Wait>(rt: &R, start: &RwLock<()>) {
    drop(start.read(rt));
}

/// Makes the thread of a worker, which plays its lines when the threads may start.
fn start_one<'s, R: Wait + Sync, E, G: Gate>(
    rt: &'s R,
    scope: &Scope<'s, E>,
    start: &'s RwLock<()>,
    alloc: Global,
    lines: &Lines<'s, G>,
    worker: Worker,
) -> Result<PromisedHandle<Played, PlaysAll<'s, G>>, RunFault>
    requires own { IsOf lines.now.tree.now worker.pass }
    requires plain { All (λ e. IsOwnCall e.1) lines.now.calls.now }
    requires few { length lines.now.calls.now ≤ 100000 }
    ensures started { IfOk result
        (λ h. (h.promise.gate.now ≡ lines.now.gate.now) × (h.promise.tree.now ≡ lines.now.tree.now)
        × (h.promise.tries ≡ lines.now.tries) × (h.promise.calls.now ≡ lines.now.calls.now)
        × (h.promise.was.value ≡ worker)) }
    ensures refused { IfErr result IsRefusal }
{
    let gate = lines.gate;
    let tree = lines.tree;
    let tries = lines.tries;
    let calls = lines.calls;
    let promise = PlaysAll {
        gate,
        tree,
        tries,
        calls,
        was: Snapshot::of(&worker),
    };
    let started = scope.spawn_with(
        promise,
        move || -> Played
            requires { IsOf tree.now worker.pass × All (λ e. IsOwnCall e.1) calls.now
                × (length calls.now ≤ 100000) }
            ensures { HasPlayed (G.lets gate.entry.now) (G.stops gate.entry.now) tree.entry.now
                tries calls.entry.now worker result.worker result.answers }
        {
            wait_for(rt, start);
            let lines = Lines {
                gate,
                tree,
                tries,
                calls,
            };
            play_all(alloc, &lines, worker)
        },
    );
    match started {
        Ok(handle) => Ok(handle),
        Err(_) => Err(RunFault::Thread),
    }
}

/// Makes a thread for each worker, and waits for all of them, in the scope in which they run. They
/// all start together after the last one is made. If one cannot be made, the others start when this
/// function returns.
fn play_each<'s, R: Threads + Wait + Sync, E, G: Gate>(
    rt: &'s R,
    scope: &Scope<'s, E>,
    start: &'s RwLock<()>,
    alloc: Global,
    lines: &Lines<'s, G>,
    workers: Vec<Worker>,
) -> Result<Vec<Played>, RunFault>
    requires own { All (λ w. IsOf lines.now.tree.now w.pass) workers.items }
    requires plain { All (λ e. IsOwnCall e.1) lines.now.calls.now }
    requires few { length lines.now.calls.now ≤ 100000 }
    ensures played { IfOk result
        (λ v. HaveAllPlayed (G.lets lines.now.gate.now) (G.stops lines.now.gate.now)
        lines.now.tree.now lines.now.tries lines.now.calls.now workers.items v.items) }
    ensures refused { IfErr result IsRefusal }
{
    let held_back = start.write(rt);
    let mut handles = Vec::new(alloc);
    for worker in workers {
        let handle = start_one(rt, scope, start, alloc, lines, worker)?;
        handles.push(handle).map_err(|_| RunFault::NoMemory)?;
    }
    drop(held_back);
    match thread::join_promised(rt, handles) {
        Ok(played) => Ok(played),
        Err(_) => Err(RunFault::NoMemory),
    }
}

/// Plays the lines of each worker in a thread of its own. All threads have ended when it returns,
/// even if one was refused.
pub(crate) fn play_apart<R: Threads + Wait + Sync, G: Gate>(
    rt: &R,
    alloc: Global,
    lines: &Lines<'_, G>,
    workers: Vec<Worker>,
) -> Result<Vec<Played>, RunFault>
    requires own { All (λ w. IsOf lines.now.tree.now w.pass) workers.items }
    requires plain { All (λ e. IsOwnCall e.1) lines.now.calls.now }
    requires few { length lines.now.calls.now ≤ 100000 }
    ensures played { IfOk result
        (λ v. HaveAllPlayed (G.lets lines.now.gate.now) (G.stops lines.now.gate.now)
        lines.now.tree.now lines.now.tries lines.now.calls.now workers.items v.items) }
    ensures refused { IfErr result IsRefusal }
{
    let start = RwLock::new(());
    let start = &start;
    let gate = lines.gate;
    let tree = lines.tree;
    let tries = lines.tries;
    let calls = lines.calls;
    thread::scope(
        thread::scope_env(),
        rt,
        |scope| -> Result<Vec<Played>, RunFault>
            requires { All (λ w. IsOf tree.now w.pass) workers.items
                × All (λ e. IsOwnCall e.1) calls.now × (length calls.now ≤ 100000) }
            ensures { IfOk result
                (λ v. HaveAllPlayed (G.lets gate.entry.now) (G.stops gate.entry.now) tree.entry.now
                tries calls.entry.now workers.items v.items) × IfErr result IsRefusal }
        {
            let lines = Lines {
                gate,
                tree,
                tries,
                calls,
            };
            play_each(rt, scope, start, alloc, &lines, workers)
        },
    )
}
