//! Workers that end before the tree is closed.
ghost use Rattle.std.specs.Prelude.{◌≡◌, ◌+◌, ◌≤◌, ◌<◌, [], length, insert, vec_capacity, None, IfOk, IfErr};
ghost use Rattle.nm_steps.specs.Rules.{ExtendsStores};
ghost use Rattle.nm_steps.specs.Steps.{IsOf, HasJoined, HasSeenAllOf};
ghost use Rattle.nm_tree.specs.Answers.{KeepsPlace};
ghost use Rattle.nm_tree.specs.Workers.{IsBetweenCalls};
ghost use Rattle.nm_tree.specs.Resigning.{HasResigned, IsReason, merged, place_in};

use crate::tree::Tree;
use crate::worker::{Standing, Worker};
use nm_epoch::HeldQueue;
use nm_steps::{Pass, Shared};
use nm_walks::Workspace;
use std::marker::Model;
use thiserror::Error;

/// Why a worker may not resign.
#[derive(Clone, Copy, Debug, Error, PartialEq, Eq)]
pub enum ResignReason {
    /// The caller has pinned the leaver, until `unpin`.
    #[error("the leaver is held")]
    Held,
    /// The leaver has flagged a leaf that is not known to be cut off. It is pinned until `finish`
    /// returns true.
    #[error("the leaver has a pending key")]
    Pending,
    /// The tree has no worker of that number. Only members, which name the leaver by its number,
    /// return this.
    #[error("there is no worker of that number")]
    Number,
    /// A member has that worker (the heir itself or another one), or the worker has resigned. Only
    /// members return this.
    #[error("the worker is attached")]
    Attached,
    /// There is no memory for the queues of the leaver.
    #[error("there is no memory for the queues of the leaver")]
    NoMemory,
}

/// A worker has not resigned. Both workers are unchanged, and there was no step.
#[derive(Drop)]
pub struct ResignFault {
    pub reason: ResignReason,
    pub heir: Worker,
    pub leaver: Worker,
}

/// A worker with room for the queues of all workers of its tree. A contract sees it as the worker.
#[derive(Drop)]
pub(crate) struct Heir {
    pub(crate) pass: Pass,
    pub(crate) queues: Vec<HeldQueue>,
    pub(crate) home: usize,
    pub(crate) standing: Standing,
    pub(crate) workspace: Box<Workspace>,
}

impl Model for Heir {
    ghost use Rattle.std.specs.Prelude.{◌≤◌, vec_capacity};
    ghost use Rattle.nm_tree.specs.Workers.{WorkerView, IsWorker, pending_in, held_in};

    ghost Value = { WorkerView };

    ghost view = { λ h. record {
      pass = h.pass;
      queues = h.queues.items;
      pending = pending_in h.standing;
      held = held_in h.standing;
      fit = h.workspace.value.placement;
    } };

    ghost invariant = { λ h. IsWorker
        (record {
          pass = h.pass;
          queues = h.queues.items;
          pending = pending_in h.standing;
          held = held_in h.standing;
          fit = h.workspace.value.placement;
        }) h.home × (h.pass.view.layout.workers ≤ vec_capacity h.queues) };
}

impl Heir {
    /// Moves the queues of a worker into this room, which is empty.
    pub(crate) fn of(worker: Worker, room: Vec<HeldQueue>) -> Heir
        requires empty { room.items ≡ [] }
        requires room { worker.pass.view.layout.workers ≤ vec_capacity room }
        ensures { result ≡ worker }
    {
        worker.know_run();
        let Worker {
            pass,
            queues: held,
            home,
            standing,
            workspace,
        } = worker;
        let mut queues = room;
        take_over(&mut queues, held);
        Heir {
            pass,
            queues,
            home,
            standing,
            workspace,
        }
    }

    /// Returns the worker, which keeps its room.
    fn into_worker(self) -> Worker
        ensures { result ≡ self }
    {
        let Heir {
            pass,
            queues,
            home,
            standing,
            workspace,
        } = self;
        Worker {
            pass,
            queues,
            home,
            standing,
            workspace,
        }
    }
}

impl Tree {
    /// Lets the leaver resign: its heir then holds all queues that the leaver held, each in its
    /// order, and `collect` of the heir frees from them too. It is for a thread that ends before
    /// the others. Both must be workers of this tree. The heir may be pinned by its caller, or have
    /// a pending key. The heir has then seen all that both had seen. It allocates room for the
    /// queues of all workers before the step, 96 bytes for each.
    ///
    /// Errors: both workers are given back unchanged, after no step. `Held`: the caller has pinned
    /// the leaver. `Pending`: the leaver has a pending key. `NoMemory`: the room was refused.
    ///
    /// Cost: one step. (Limbo lists that are passed on: Fraser, Practical lock-freedom, section
    /// 5.2.3.)
    pub fn resign(&self, heir: Worker, leaver: Worker) -> Result<Worker, ResignFault>
        requires heir { IsOf self.now heir.pass }
        requires leaver { IsOf self.now leaver.pass }
        ensures done { IfOk result (HasResigned heir leaver) }
        ensures refused { IfErr result
            (λ f. IsReason leaver f.reason × (f.heir ≡ heir) × (f.leaver ≡ leaver)) }
    {
        let reason = match leaver.standing {
            Standing::Held(_) => ResignReason::Held,
            Standing::Pending(_) => ResignReason::Pending,
            Standing::Resting => return resign_free(&self.shared, heir, leaver),
        };
        Err(ResignFault {
            reason,
            heir,
            leaver,
        })
    }
}

/// Lets a leaver that is free resign. Errors: only `NoMemory`.
fn resign_free(shared: &Shared, heir: Worker, leaver: Worker) -> Result<Worker, ResignFault>
    requires heir { IsOf shared.now heir.pass }
    requires leaver { IsOf shared.now leaver.pass }
    requires free { (leaver.held ≡ None) × (leaver.pending ≡ None) }
    ensures done { IfOk result (HasResigned heir leaver) }
    ensures refused { IfErr result
        (λ f. IsReason leaver f.reason × (f.heir ≡ heir) × (f.leaver ≡ leaver)) }
{
    let workers = shared.layout().workers() as usize;
    let Ok(room) = Vec::with_capacity(*heir.queues.allocator(), workers) else {
        return Err(ResignFault {
            reason: ResignReason::NoMemory,
            heir,
            leaver,
        });
    };
    Ok(unite(shared, Heir::of(heir, room), leaver).into_worker())
}

/// Unites two workers in one, in one step. What the first has pending, and its caller's pin, stay.
pub(crate) fn unite(shared: &Shared, heir: Heir, leaver: Worker) -> Heir
    requires heir { IsOf shared.now heir.pass }
    requires leaver { IsOf shared.now leaver.pass }
    ensures joined { HasJoined heir.pass leaver.pass result.pass }
    ensures seen { HasSeenAllOf result.pass heir.pass }
    ensures told { HasSeenAllOf result.pass leaver.pass }
    ensures stores { ExtendsStores result.pass.view.stores heir.pass.view.stores }
    ensures told_stores { ExtendsStores result.pass.view.stores leaver.pass.view.stores }
    ensures queues { result.queues ≡ merged heir.queues leaver.queues }
    ensures place { KeepsPlace heir result }
    ensures fit { result.fit ≡ heir.fit }
    ensures between { IsBetweenCalls result }
{
    let Heir {
        pass,
        mut queues,
        home: _,
        standing,
        workspace,
    } = heir;
    let Worker {
        pass: other,
        queues: more,
        home: _,
        standing: _,
        workspace: _,
    } = leaver;
    let pass = shared.join(pass, other);
    take_over(&mut queues, more);
    let home = place_of(queues.as_slice(), pass.number());
    Heir {
        pass,
        queues,
        home,
        standing,
        workspace,
    }
}

/// Inserts more queues among these, by origin. There must be room for them.
fn take_over(queues: &mut Vec<HeldQueue>, mut more: Vec<HeldQueue>)
    requires room { length queues.old.items + length more.items ≤ vec_capacity queues.old }
    ensures queues { queues.new.items ≡ merged queues.old.items more.items }
    ensures capacity { vec_capacity queues.new ≡ vec_capacity queues.old }
{
    while let Some(queue) = more.pop() {
        let place = place_of(queues.as_slice(), queue.origin);
        put_at(queues, place, queue);
    }
}

/// Inserts a queue at an index. There must be room for it.
fn put_at(queues: &mut Vec<HeldQueue>, place: usize, queue: HeldQueue)
    requires { (place ≤ length queues.old.items)
        × (length queues.old.items < vec_capacity queues.old) }
    ensures items { queues.new.items ≡ insert queues.old.items place queue }
    ensures capacity { vec_capacity queues.new ≡ vec_capacity queues.old }
{
    let Ok(()) = queues.insert(place, queue) else {
        unreachable!()
    };
}

/// Returns the index at which a queue of that origin belongs: the number of queues before it.
fn place_of(queues: &[HeldQueue], origin: u32) -> usize
    ensures place { result ≡ place_in origin queues.now }
    ensures within { result ≤ length queues.now }
{
    let Some((first, rest)) = queues.split_first() else {
        return 0;
    };
    if first.origin < origin {
        1 + place_of(rest, origin)
    } else {
        0
    }
}
