//! Calls of a tree, in one thread with each answer compared, and by workers in threads of their
//! own.
ghost use Rattle.std.specs.Prelude.{IfOk};
ghost use Rattle.nm_steps.specs.Steps.{IsOf};
ghost use Rattle.nm_tree.specs.Calls.{MayCall};

use nm_edge::{Key, Layout};
use nm_tree::{Advance, CallFault, Collected, Counts, Fit, PinFault, Tree, Worker};
use std::process::Abort;
use std::test::Fail;

mod blocks;
mod crowd;
mod endings;
mod example;
mod near;
mod order;
mod readers;
mod stalled;
mod threads;
mod values;

/// A call of a worker.
#[derive(Clone, Copy)]
enum Call {
    Has(u64),
    Insert(u64),
    Delete(u64),
    Finish,
    Pin,
    Unpin,
    Advance,
    Collect,
}

/// The answer to a call.
#[derive(Clone, Copy, Debug, PartialEq, Eq)]
enum Answer {
    Is(bool),
    Not(CallFault),
    Pinned(u64),
    NotPinned(PinFault),
    Left,
    Moved(Advance),
    Freed(Collected),
    /// The caller has pinned the worker, or has not pinned it, so that the call is not made.
    Refused,
}

fn told(outcome: Result<bool, CallFault>) -> Answer {
    match outcome {
        Ok(is) => Answer::Is(is),
        Err(fault) => Answer::Not(fault),
    }
}

/// Makes a call for a key of the set.
fn make_keyed(tree: &Tree, worker: &mut Worker, call: Call, key: Key, tries: u32) -> Answer
    requires own { IsOf tree.now worker.old.pass }
    ensures own { IsOf tree.now worker.new.pass }
{
    if worker.held().is_some() {
        return Answer::Refused;
    }
    match call {
        Call::Insert(_) => told(tree.insert(worker, key, tries)),
        Call::Delete(_) => told(tree.delete(worker, key, tries)),
        _ => told(tree.has(worker, key, tries)),
    }
}

/// Makes a call for no key.
fn make_plain(tree: &Tree, worker: &mut Worker, call: Call, tries: u32) -> Answer
    requires own { IsOf tree.now worker.old.pass }
    ensures own { IsOf tree.now worker.new.pass }
{
    match call {
        Call::Finish => told(tree.finish(worker, tries)),
        Call::Pin => pin(tree, worker, tries),
        Call::Unpin => unpin(tree, worker),
        Call::Advance => Answer::Moved(tree.advance(worker)),
        _ => Answer::Freed(tree.collect(worker)),
    }
}

fn pin(tree: &Tree, worker: &mut Worker, tries: u32) -> Answer
    requires own { IsOf tree.now worker.old.pass }
    ensures own { IsOf tree.now worker.new.pass }
{
    if worker.held().is_some() {
        return Answer::Refused;
    }
    match tree.pin(worker, tries) {
        Ok(epoch) => Answer::Pinned(epoch),
        Err(fault) => Answer::NotPinned(fault),
    }
}

fn unpin(tree: &Tree, worker: &mut Worker) -> Answer
    requires own { IsOf tree.now worker.old.pass }
    ensures own { IsOf tree.now worker.new.pass }
{
    if worker.held().is_none() {
        return Answer::Refused;
    }
    tree.unpin(worker);
    Answer::Left
}

/// Makes a call, and returns its answer.
fn make(rt: &impl Abort, tree: &Tree, worker: &mut Worker, call: Call, tries: u32) -> Answer
    requires own { IsOf tree.now worker.old.pass }
    ensures own { IsOf tree.now worker.new.pass }
{
    match call {
        Call::Has(number) | Call::Insert(number) | Call::Delete(number) => {
            let Some(key) = Key::new(number) else {
                panic!(rt; "{number} is no key")
            };
            make_keyed(tree, worker, call, key, tries)
        }
        _ => make_plain(tree, worker, call, tries),
    }
}

/// Makes a tree and its two workers.
fn two_of(rt: &(impl Abort + AllocGlobal), nodes: u32) -> Result<(Tree, Worker, Worker), Fail>
    ensures { IfOk result (λ r. MayCall r.0 r.1 × MayCall r.0 r.2) }
{
    let (tree, mut workers) = Tree::new(rt.alloc(), nodes, 2)?;
    let Some(second) = workers.pop() else {
        unreachable!()
    };
    let Some(first) = workers.pop() else {
        unreachable!()
    };
    Ok((tree, first, second))
}

/// Makes these calls of workers 0 and 1, one after the other, and compares each answer.
fn play(
    rt: &impl Abort,
    tree: &Tree,
    first: &mut Worker,
    second: &mut Worker,
    tries: u32,
    calls: &[(u32, Call, Answer)],
)
    requires first { IsOf tree.now first.old.pass }
    requires second { IsOf tree.now second.old.pass }
    ensures first { IsOf tree.now first.new.pass }
    ensures second { IsOf tree.now second.new.pass }
{
    for (number, call, want) in calls {
        let answer = if *number == 0 {
            make(rt, tree, first, *call, tries)
        } else {
            make(rt, tree, second, *call, tries)
        };
        assert_eq!(rt; answer, *want);
    }
}
