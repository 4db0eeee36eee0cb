//! Plays inserts and deletes whose growths may be refused, and closes the tree. A call that is
//! refused has changed nothing, except that it may have helped other calls, and is made again.
ghost use Rattle.std.specs.Prelude.{◌≡◌, [], ◌∷◌, All, IfOk, length};
ghost use Rattle.nm_tree.specs.Closing.{AreAllOf};
ghost use Rattle.nm_tree.specs.Calls.{MayCall};

use anyhow::{Context, Result};
use nm_edge::Key;
use nm_tree::{CallFault, CloseReason, NewError, Report, Tree, Worker};
use std::alloc::{AllocGlobal, Global};

const TRIES: u32 = 4;

/// Makes a tree of 16 nodes and its two workers, with a second attempt if memory was refused.
fn made(alloc: Global) -> Result<(Tree, Vec<Worker>), NewError>
    ensures ready { IfOk result (λ r. All (λ w. MayCall r.0 w) r.1.items) }
    ensures count { IfOk result (λ r. length r.1.items ≡ 2) }
{
    match Tree::new(alloc, 16, 2) {
        Err(NewError::NoMemory) => Tree::new(alloc, 16, 2),
        made => made,
    }
}

/// Makes such a tree and its workers, and a list with room for both.
fn open(alloc: Global) -> Result<(Tree, Worker, Worker, Vec<Worker>)>
    ensures { IfOk result (λ r. MayCall r.0 r.1 × MayCall r.0 r.2 × (r.3.items ≡ [])) }
{
    let (tree, mut workers) = made(alloc).context("the tree")?;
    let second = workers.pop().context("worker 1")?;
    let first = workers.pop().context("worker 0")?;
    Ok((tree, first, second, workers))
}

/// Returns what a refused call must leave unchanged: whether the key is in the set, and how many
/// nodes wait.
fn seen(tree: &Tree, worker: &mut Worker, key: Key) -> (Result<bool, CallFault>, u64)
    requires { MayCall tree.now worker.old }
    ensures { MayCall tree.now worker.new }
{
    (tree.has(worker, key, TRIES), worker.queue_len())
}

/// Inserts a key, with a second attempt if memory was refused. `None`: the refused call has changed
/// something.
fn insert(tree: &Tree, worker: &mut Worker, key: Key) -> Option<Result<bool, CallFault>>
    requires { MayCall tree.now worker.old }
    ensures { MayCall tree.now worker.new }
{
    let before = seen(tree, worker, key);
    let answer = tree.insert(worker, key, TRIES);
    if answer != Err(CallFault::NoMemory) {
        return Some(answer);
    }
    if seen(tree, worker, key) != before {
        return None;
    }
    Some(tree.insert(worker, key, TRIES))
}

/// Deletes a key, with a second attempt if memory was refused, and finishes what it left. `None`:
/// the refused call has changed something.
fn delete(tree: &Tree, worker: &mut Worker, key: Key) -> Option<Result<bool, CallFault>>
    requires { MayCall tree.now worker.old }
    ensures { MayCall tree.now worker.new }
{
    let before = seen(tree, worker, key);
    let answer = tree.delete(worker, key, TRIES);
    if answer == Err(CallFault::Unfinished) {
        return Some(tree.finish(worker, TRIES));
    }
    if answer != Err(CallFault::NoMemory) {
        return Some(answer);
    }
    if seen(tree, worker, key) != before {
        return None;
    }
    Some(tree.delete(worker, key, TRIES))
}

/// Lets one worker flag a key, by a delete with a single try, with a second attempt if memory was
/// refused. The other worker deletes the key too and helps. At its second try, for which it asks
/// for memory again, it finds that the key is absent. If memory is refused there, it has helped and
/// done nothing else. Then the first worker finishes, in the room that its delete has made, so that
/// no growth can be refused. `None`: a refused call has changed something else.
fn help(
    tree: &Tree,
    flagging: &mut Worker,
    helping: &mut Worker,
    key: Key,
) -> Option<[Result<bool, CallFault>; 3]>
    requires flagging { MayCall tree.now flagging.old }
    requires helping { MayCall tree.now helping.old }
    ensures flagging { MayCall tree.now flagging.new }
    ensures helping { MayCall tree.now helping.new }
{
    let mut flagged = tree.delete(flagging, key, 1);
    if flagged == Err(CallFault::NoMemory) {
        flagged = tree.delete(flagging, key, 1);
    }
    let waiting = helping.queue_len();
    let mut helped = tree.delete(helping, key, TRIES);
    if helped == Err(CallFault::NoMemory) {
        let left = seen(tree, helping, key);
        if left != (Ok(true), waiting) && left != (Ok(false), waiting.saturating_add(2)) {
            return None;
        }
        helped = tree.delete(helping, key, TRIES);
    }
    Some([flagged, helped, tree.finish(flagging, TRIES)])
}

/// Advances the epoch twice, and frees the ripe nodes.
fn drain(tree: &Tree, worker: &mut Worker) -> u64
    requires { MayCall tree.now worker.old }
    ensures { MayCall tree.now worker.new }
{
    let _ = tree.advance(worker);
    let _ = tree.advance(worker);
    tree.collect(worker).freed
}

/// The last answers of the calls of a play, and how many nodes waited and were freed.
#[derive(Clone, Copy)]
struct PlayAnswers {
    answers: [Option<Result<bool, CallFault>>; 5],
    helped: Option<[Result<bool, CallFault>; 3]>,
    waiting: (u64, u64),
    freed: (u64, u64),
}

/// Lets worker 0 insert a key three times: worker 1 deletes it, then both at once, and then worker
/// 0.
fn play(tree: &Tree, first: &mut Worker, second: &mut Worker, key: Key) -> PlayAnswers
    requires first { MayCall tree.now first.old }
    requires second { MayCall tree.now second.old }
    ensures first { MayCall tree.now first.new }
    ensures second { MayCall tree.now second.new }
{
    let inserted = insert(tree, first, key);
    let deleted = delete(tree, second, key);
    let again = insert(tree, first, key);
    let helped = help(tree, second, first, key);
    let last = insert(tree, first, key);
    let answers = [inserted, deleted, again, last, delete(tree, first, key)];
    let waiting = (first.queue_len(), second.queue_len());
    let freed = (drain(tree, first), drain(tree, second));
    PlayAnswers {
        answers,
        helped,
        waiting,
        freed,
    }
}

/// Returns both workers, in the list that had them before.
fn both(mut workers: Vec<Worker>, first: Worker, second: Worker) -> Result<Vec<Worker>>
    requires { workers.items ≡ [] }
    ensures { IfOk result (λ v. v.items ≡ first ∷ second ∷ []) }
{
    workers.push(first)?;
    workers.push(second)?;
    Ok(workers)
}

/// Closes the tree, with a second attempt if memory was refused. `None`: a refused call has not
/// given back both workers.
fn close(tree: Tree, workers: Vec<Worker>) -> Option<Report>
    requires { AreAllOf tree workers.items }
{
    let error = match tree.close(workers) {
        Ok(report) => return Some(report),
        Err(error) => error,
    };
    if error.reason != CloseReason::NoMemory || error.workers.len() != 2 {
        return None;
    }
    error.tree.close(error.workers).ok()
}

/// Opens a tree, plays on it and closes it.
fn play_anew(alloc: Global) -> Result<(PlayAnswers, Report)> {
    let (tree, mut first, mut second, workers) = open(alloc)?;
    let key = Key::new(5).context("a key")?;
    let played = play(&tree, &mut first, &mut second, key);
    let workers = both(workers, first, second)?;
    let report = close(tree, workers).context("the report")?;
    Ok((played, report))
}

/// Plays on a tree, and prints the answers of the calls and the numbers of the report.
pub fn play_trees<R: AllocGlobal + Print>(rt: &R) -> Result<()> {
    let (played, report) = play_anew(rt.alloc())?;
    for answer in &played.answers {
        println!(rt; "{answer:?}")?;
    }
    println!(rt; "{:?}", played.helped)?;
    println!(rt; "waiting {} and {}", played.waiting.0, played.waiting.1)?;
    println!(rt; "freed {} and {}", played.freed.0, played.freed.1)?;
    println!(rt;
        "{} keys, {} free, {} reached",
        report.keys.len(),
        report.free,
        report.reached
    )?;
    Ok(())
}
