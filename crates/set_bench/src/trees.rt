//! Loads on a `Tree`.
ghost use Rattle.std.specs.Prelude.{All, IfOk};
ghost use Rattle.nm_tree.specs.Calls.{MayCall};

use crate::habits::{Habits, THREADS};
use crate::load::{Done, Load, SetCall, Tally, Totals, key_of};
use nm_tree::{CallFault, Tree, Worker};
use std::alloc::AllocError;
use std::thread::{self, Threads};

const TRIES: u32 = 100;

/// The number of shares into which the first keys are divided.
const SHARES: u64 = THREADS as u64;

/// Inserts a worker's share of the first `keys` keys.
fn fill(tree: &Tree, mut worker: Worker, habits: Habits, keys: u64, totals: &Totals) -> Worker
    requires { MayCall tree.now worker }
    ensures { MayCall tree.now result }
{
    let thread = u64::from(habits.thread(&worker));
    let mut tally = Tally::none();
    for number in 0..keys {
        if number % SHARES != thread {
            continue;
        }
        let Some(key) = key_of(number) else {
            continue;
        };
        tally = tally.with(make(tree, &mut worker, SetCall::Insert(key)));
    }
    totals.add(tally);
    worker
}

/// Inserts the first `keys` keys; each worker inserts its share of them in a thread of its own.
pub fn fill_all<R: Threads + Sync>(
    rt: &R,
    tree: &Tree,
    workers: Vec<Worker>,
    habits: Habits,
    keys: u64,
    totals: &Totals,
) -> Result<Vec<Worker>, AllocError>
    requires { All (λ w. MayCall tree.now w) workers.items }
    ensures { IfOk result (λ v. All (λ w. MayCall tree.now w) v.items) }
{
    let one = |worker: Worker| -> Worker
        requires { MayCall tree.now worker }
        ensures { MayCall tree.entry.now result }
    { fill(tree, worker, habits, keys, totals) };
    thread::map_vec(rt, workers, &one)
}

/// Advances the epoch, if no worker holds it back, and frees the ripe nodes.
fn tend(tree: &Tree, worker: &mut Worker)
    requires { MayCall tree.now worker.old }
    ensures { MayCall tree.now worker.new }
{
    let _ = tree.advance(worker);
    let _ = tree.collect(worker);
}

/// Makes a call, or finishes a delete that was left unfinished, and returns the result.
fn make(tree: &Tree, worker: &mut Worker, call: SetCall) -> Done
    requires { MayCall tree.now worker.old }
    ensures { MayCall tree.now worker.new }
{
    let (answer, done) = match call {
        SetCall::Has(key) => (tree.has(worker, key, TRIES), Done::Found),
        SetCall::Insert(key) => (tree.insert(worker, key, TRIES), Done::Inserted),
        SetCall::Delete(key) => (tree.delete(worker, key, TRIES), Done::Deleted),
    };
    match answer {
        Ok(true) => done,
        Err(CallFault::Unfinished | CallFault::Pending) => finish(tree, worker),
        Err(CallFault::Full) => {
            tend(tree, worker);
            Done::Nothing
        }
        Ok(false) | Err(CallFault::Pinned | CallFault::Busy | CallFault::NoMemory) => Done::Nothing,
    }
}

/// Finishes a delete.
fn finish(tree: &Tree, worker: &mut Worker) -> Done
    requires { MayCall tree.now worker.old }
    ensures { MayCall tree.now worker.new }
{
    if tree.finish(worker, TRIES) == Ok(true) {
        return Done::Deleted;
    }
    Done::Nothing
}

/// Makes the calls of one thread.
fn play(tree: &Tree, worker: &mut Worker, habits: Habits, load: Load) -> Tally
    requires { MayCall tree.now worker.old }
    ensures { MayCall tree.now worker.new }
{
    let thread = habits.thread(worker);
    let mut tally = Tally::none();
    for turn in 0..load.calls {
        if let Some(call) = load.call(thread, turn) {
            tally = tally.with(make(tree, worker, call));
        }
        if turn % habits.tend == 0 && load.lookups < 100 {
            tend(tree, worker);
        }
    }
    tally
}

/// Makes the calls of one worker; none if the load has fewer threads.
fn take_part(tree: &Tree, mut worker: Worker, habits: Habits, load: Load, totals: &Totals) -> Worker
    requires { MayCall tree.now worker }
    ensures { MayCall tree.now result }
{
    if habits.thread(&worker) < load.threads {
        totals.add(play(tree, &mut worker, habits, load));
    }
    worker
}

/// Makes the calls of all threads, each with a worker of its own.
pub fn play_all<R: Threads + Sync>(
    rt: &R,
    tree: &Tree,
    workers: Vec<Worker>,
    habits: Habits,
    load: Load,
    totals: &Totals,
) -> Result<Vec<Worker>, AllocError>
    requires { All (λ w. MayCall tree.now w) workers.items }
    ensures { IfOk result (λ v. All (λ w. MayCall tree.now w) v.items) }
{
    let one = |worker: Worker| -> Worker
        requires { MayCall tree.now worker }
        ensures { MayCall tree.entry.now result }
    { take_part(tree, worker, habits, load, totals) };
    thread::map_vec(rt, workers, &one)
}
