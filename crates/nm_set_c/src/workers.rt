//! What a worker reports of itself, and the end of another one, by its handle.
#![tactic(auto, using(crate::proofs::Owners::told_of_worker))]

ghost use Rattle.std.specs.Prelude.{◌≡◌, ⊤};
ghost use Rattle.nm_tree.specs.Workers.{waiting_in};
ghost use Rattle.nm_set_c.specs.Handles.{held_by};
ghost use Rattle.nm_set_c.specs.Outcomes.{IsCodeOf};
ghost use Rattle.nm_set_c.specs.Handles.Hold.{Open};
ghost use Rattle.nm_set_c.specs.Owners.{OfWorker, Owns};
ghost use Rattle.nm_set_c.specs.Workers.{TellsResign, TellsNumber, TellsOption, TellsStats, IsOptionTold, pending_key};

use crate::claiming::by_handle;
use crate::handle::Handle;
use crate::outcome::Outcome;
use crate::owner::Owner;
use nm_edge::Key;
use nm_set::{Contents, Member};
use std::alloc::Global;
use std::mem::replace;

/// What a worker has won, and what became of the nodes that it cut off: `Counts` of `nm_tree`.
#[repr(C)]
#[derive(Clone, Copy, Debug, Default, PartialEq, Eq)]
pub struct Stats {
    /// The links that it has won.
    pub links: u64,
    /// The flags that it has won.
    pub flags: u64,
    /// The splices that it has won.
    pub splices: u64,
    /// The nodes that its splices cut off.
    pub retired: u64,
    /// Those of them that were freed.
    pub freed: u64,
    /// Those of them that wait.
    pub queued: u64,
}

/// Writes the worker's number. Returns `Done`. Errors: `Closed`, `InUse`, `Kind`.
#[unsafe(no_mangle)]
pub extern "C" fn nm_worker_number(alloc: Global, worker: &mut Handle, number: &mut u32) -> i32
    ensures { IsCodeOf (OfWorker (λ m. TellsNumber m.worker.pass.view.number number.new m)
        (number.new ≡ number.old) (held_by worker.old) (held_by worker.new)) result }
{
    by_handle!(alloc, worker, Worker(member) => {
        *number = member.number();
        Outcome::Done
    })
}

/// Writes how many nodes wait in the queues that the worker holds. Returns `Done`. Errors:
/// `Closed`, `InUse`, `Kind`.
#[unsafe(no_mangle)]
pub extern "C" fn nm_worker_queue_len(alloc: Global, worker: &mut Handle, nodes: &mut u64) -> i32
    ensures { IsCodeOf (OfWorker (λ m. TellsNumber (waiting_in m.worker.queues) nodes.new m)
        (nodes.new ≡ nodes.old) (held_by worker.old) (held_by worker.new)) result }
{
    by_handle!(alloc, worker, Worker(member) => {
        *nodes = member.queue_len();
        Outcome::Done
    })
}

/// Finds the key of a remove that has flagged its leaf and is not finished. Returns `Yes` and
/// writes the key, or `No`. Errors: `Closed`, `InUse`, `Kind`.
#[unsafe(no_mangle)]
pub extern "C" fn nm_worker_pending(alloc: Global, worker: &mut Handle, key: &mut u64) -> i32
    ensures { IsCodeOf (OfWorker (λ m. TellsOption (pending_key m.worker) key.old key.new m)
        (key.new ≡ key.old) (held_by worker.old) (held_by worker.new)) result }
{
    by_handle!(alloc, worker, Worker(member) => pending(member, key))
}

pub(crate) fn pending<V: Contents>(member: &mut Member<V>, key: &mut u64) -> Outcome
    ensures { TellsOption (pending_key member.old.worker) key.old key.new member.old member.new
        result }
{
    let found = member.pending();
    tell_pending(found, key)
}

/// Writes the key that is pending, if there is one, and returns whether there is.
pub(crate) fn tell_pending(found: Option<Key>, key: &mut u64) -> Outcome
    ensures { IsOptionTold found key.old key.new result }
{
    match found {
        Some(pending) => {
            *key = pending.get();
            Outcome::Yes
        }
        None => Outcome::No,
    }
}

/// Finds the epoch at which the caller has pinned the worker, from a pin until its unpin. Returns
/// `Yes` and writes the epoch, or `No`. Errors: `Closed`, `InUse`, `Kind`.
#[unsafe(no_mangle)]
pub extern "C" fn nm_worker_pinned(alloc: Global, worker: &mut Handle, epoch: &mut u64) -> i32
    ensures { IsCodeOf (OfWorker (λ m. TellsOption m.worker.held epoch.old epoch.new m)
        (epoch.new ≡ epoch.old) (held_by worker.old) (held_by worker.new)) result }
{
    by_handle!(alloc, worker, Worker(member) => pinned(member, epoch))
}

fn pinned(member: &mut Member, epoch: &mut u64) -> Outcome
    ensures { TellsOption member.old.worker.held epoch.old epoch.new member.old member.new result }
{
    match member.pinned() {
        Some(held) => {
            *epoch = held;
            Outcome::Yes
        }
        None => Outcome::No,
    }
}

/// Writes what this worker has won, and what became of the nodes that it cut off. Returns `Done`.
/// Errors: `Closed`, `InUse`, `Kind`.
#[unsafe(no_mangle)]
pub extern "C" fn nm_worker_stats(alloc: Global, worker: &mut Handle, stats: &mut Stats) -> i32
    ensures { IsCodeOf (OfWorker (TellsStats stats.new) (stats.new ≡ stats.old)
        (held_by worker.old) (held_by worker.new)) result }
{
    by_handle!(alloc, worker, Worker(member) => {
        let counts = member.stats();
        *stats = Stats {
            links: counts.links,
            flags: counts.flags,
            splices: counts.splices,
            retired: counts.retired,
            freed: counts.freed,
            queued: counts.queued,
        };
        Outcome::Done
    })
}

/// Takes over a worker that is not attached: `Member::resign` of `nm_set`. This worker then holds
/// all that the leaver held, and the leaver never comes back. Returns `Done`. Errors: `Number`,
/// `Attached`, `Pending` and `NoMemory`, which are of the leaver. `Closed`, `InUse`, `Kind`.
#[tactic(auto, using(crate::proofs::Owners::refused, crate::proofs::Owners::owned))]
#[unsafe(no_mangle)]
pub extern "C" fn nm_worker_resign(alloc: Global, worker: &mut Handle, leaver: u32) -> i32
    ensures { IsCodeOf (OfWorker (TellsResign leaver) ⊤ (held_by worker.old) (held_by worker.new))
        result }
{
    let mut owner = match worker.claim(alloc) {
        Ok(owner) => owner,
        Err(told) => return told.code(),
    };
    let (heir, outcome) = resign(replace(&mut *owner, Owner::Nothing), leaver);
    *owner = heir;
    worker.put(owner);
    outcome.code()
}

#[tactic(auto, using(crate::proofs::Owners::does_owned, crate::proofs::Owners::is_other))]
fn resign(heir: Owner, leaver: u32) -> (Owner, Outcome)
    ensures { Owns Owner.Worker (TellsResign leaver) ⊤ heir (Open result.0) result.1 }
{
    let member = match heir {
        Owner::Worker(member) => member,
        other => return (other, Outcome::Kind),
    };
    match member.resign(leaver) {
        Ok(heir) => (Owner::Worker(heir), Outcome::Done),
        Err(error) => (
            Owner::Worker(error.member),
            Outcome::of_staying(error.reason),
        ),
    }
}
