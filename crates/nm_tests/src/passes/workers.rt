//! A worker that makes calls over a pass, and keeps between two calls what a caller keeps.
ghost use Rattle.std.specs.Prelude.{◌≡◌};
ghost use Rattle.nm_steps.specs.Steps.{IsOf};
ghost use Rattle.nm_calls.specs.Fresh.{HasDoneNothing};
ghost use Rattle.nm_tests.specs.Plays.{IsAtRest, IsPendingFor};

use nm_calls::{CallFault, Deletion, Unfinished, delete, finish, has, insert};
use nm_edge::{Fit, Key, NodeId, Placement};
use nm_epoch::HeldQueue;
use nm_steps::{Pass, Shared};
use nm_walks::{ChainEdges, Stop, Workspace, choose, seek, tag};
use std::alloc::Global;
use std::process::Abort;

/// One worker: its pass, its workspace, and the queue of the nodes that it cut off, with its
/// counts.
#[derive(Drop)]
pub(super) struct Worker {
    pub(super) pass: Pass,
    pub(super) workspace: Workspace,
    pub(super) held: HeldQueue,
}

/// Returns a worker that has done nothing.
#[tactic(auto, using(nm_calls::proofs::FreshWorkers::holds_nothing))]
pub(super) fn starting(alloc: Global, shared: &Shared, pass: Pass) -> Worker
    requires own { IsOf shared.now pass }
    requires new { HasDoneNothing pass }
    ensures { IsAtRest shared.now result.pass result.held }
{
    let held = HeldQueue::new(pass.number(), alloc);
    Worker {
        pass,
        workspace: Workspace::new(Placement::new(Fit::FirstFit, 6)),
        held,
    }
}

pub(super) fn key(rt: &impl Abort, number: u64) -> Key {
    let Some(key) = Key::new(number) else {
        panic!(rt; "a key of the set")
    };
    key
}

pub(super) fn finds(rt: &impl Abort, shared: &Shared, worker: &mut Worker, key: Key, wanted: bool)
    requires rests { IsAtRest shared.now worker.old.pass worker.old.held }
    ensures rests { IsAtRest shared.now worker.new.pass worker.new.held }
{
    let found = has(shared, &mut worker.pass, key, 1);
    assert!(rt; found == Ok(wanted));
}

pub(super) fn inserts(
    rt: &impl Abort,
    shared: &Shared,
    worker: &mut Worker,
    key: Key,
    tries: u32,
    wanted: Result<bool, CallFault>,
)
    requires rests { IsAtRest shared.now worker.old.pass worker.old.held }
    ensures rests { IsAtRest shared.now worker.new.pass worker.new.held }
{
    let inserted = insert(
        shared,
        &mut worker.pass,
        &mut worker.workspace,
        &mut worker.held,
        key,
        0,
        tries,
    );
    assert!(rt; inserted == wanted);
}

pub(super) fn deletes(rt: &impl Abort, shared: &Shared, worker: &mut Worker, key: Key, wanted: bool)
    requires rests { IsAtRest shared.now worker.old.pass worker.old.held }
    ensures rests { IsAtRest shared.now worker.new.pass worker.new.held }
{
    let mut unused = 0;
    let Ok(Deletion::Done(deleted)) = delete(
        shared,
        &mut worker.pass,
        &mut worker.workspace,
        &mut worker.held,
        key,
        &mut unused,
        2,
    ) else {
        panic!(rt; "two tries are enough")
    };
    assert!(rt; deleted == wanted);
}

/// Deletes a key with one try, which only flags the leaf.
pub(super) fn flags(rt: &impl Abort, shared: &Shared, worker: &mut Worker, key: Key) -> NodeId
    requires rests { IsAtRest shared.now worker.old.pass worker.old.held }
    ensures pending { IsPendingFor shared.now worker.new.pass worker.new.held key result }
{
    let mut unused = 0;
    let Ok(Deletion::Pending(leaf)) = delete(
        shared,
        &mut worker.pass,
        &mut worker.workspace,
        &mut worker.held,
        key,
        &mut unused,
        1,
    ) else {
        panic!(rt; "one try flags the leaf")
    };
    leaf
}

pub(super) fn finishes(
    rt: &impl Abort,
    shared: &Shared,
    worker: &mut Worker,
    key: Key,
    leaf: NodeId,
)
    requires pending { IsPendingFor shared.now worker.old.pass worker.old.held key leaf }
    ensures rests { IsAtRest shared.now worker.new.pass worker.new.held }
{
    let pending = Unfinished { key, leaf };
    let finished = finish(
        shared,
        &mut worker.pass,
        &mut worker.workspace,
        &mut worker.held,
        &pending,
        1,
    );
    assert!(rt; finished);
}

/// Checks that the leaf stays pending if `finish` has no try.
pub(super) fn cannot_finish(
    rt: &impl Abort,
    shared: &Shared,
    worker: &mut Worker,
    key: Key,
    leaf: NodeId,
)
    requires pending { IsPendingFor shared.now worker.old.pass worker.old.held key leaf }
    ensures pending { IsPendingFor shared.now worker.new.pass worker.new.held key leaf }
{
    let pending = Unfinished { key, leaf };
    let finished = finish(
        shared,
        &mut worker.pass,
        &mut worker.workspace,
        &mut worker.held,
        &pending,
        0,
    );
    assert!(rt; !finished);
}

/// Makes a cleanup that stops before its splice: it tags the edge beside the flagged leaf. Returns
/// whether it found the leaf.
pub(super) fn tag_beside(shared: &Shared, worker: &mut Worker, key: Key, leaf: NodeId) -> bool
    requires { IsPendingFor shared.now worker.old.pass worker.old.held key leaf }
    ensures { IsPendingFor shared.now worker.new.pass worker.new.held key leaf }
{
    let mut chain = ChainEdges::new();
    let Some(end) = seek(shared, &mut worker.pass, key.get(), Stop::Leaf, &mut chain) else {
        return false;
    };
    let Some(kept) = choose(shared, &mut worker.pass, &end.seek_record) else {
        return false;
    };
    let _ = tag(shared, &mut worker.pass, end.seek_record.parent, kept.side);
    true
}
