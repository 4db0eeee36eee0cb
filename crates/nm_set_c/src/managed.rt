//! Managed calls for a key, by the handle of a worker.
#![tactic(auto, using(crate::proofs::Owners::asked_of_owner))]

ghost use Rattle.std.specs.Prelude.{⊤};
ghost use Rattle.nm_set_c.specs.Handles.{held_by};
ghost use Rattle.nm_set_c.specs.Outcomes.{IsCodeOf};
ghost use Rattle.nm_set_c.specs.Owners.{OfWorker};
ghost use Rattle.nm_set_c.specs.Workers.{TellsContains, TellsInsert, TellsRemove};

use crate::claiming::by_handle;
use crate::handle::Handle;
use crate::outcome::Outcome;
use nm_set::Options;
use std::alloc::Global;

/// Returns `Yes` if the set has the key, and else `No`: `Member::contains` of `nm_set`. Errors:
/// `Key`, `Busy`, `Pending`, `Pinned`, `Closed`, `InUse`, `Kind`.
#[unsafe(no_mangle)]
pub extern "C" fn nm_worker_contains(
    alloc: Global,
    worker: &mut Handle,
    key: u64,
    options: &Options,
) -> i32
    ensures tells { IsCodeOf (OfWorker (TellsContains options.now key) ⊤ (held_by worker.old)
        (held_by worker.new)) result }
{
    by_handle!(alloc, worker, Worker(member), key => Outcome::of_answer(member.contains(key, options)))
}

/// Inserts a key; returns `Yes` if it was absent, and else `No`: `Member::insert` of `nm_set`.
/// Errors: `Key`, `Busy`, `Full`, `Pending`, `Pinned`, `NoMemory`, `Closed`, `InUse`, `Kind`.
#[unsafe(no_mangle)]
pub extern "C" fn nm_worker_insert(
    alloc: Global,
    worker: &mut Handle,
    key: u64,
    options: &Options,
) -> i32
    ensures tells { IsCodeOf (OfWorker (TellsInsert options.now key) ⊤ (held_by worker.old)
        (held_by worker.new)) result }
{
    by_handle!(alloc, worker, Worker(member), key => Outcome::of_inserted(member.insert(key, options)))
}

/// Removes a key; returns `Yes` if it was present, and else `No`: `Member::remove` of `nm_set`.
/// Errors: `Key`, `Busy`, `Unfinished`, `Pending`, `Pinned`, `NoMemory`, `Closed`, `InUse`, `Kind`.
#[unsafe(no_mangle)]
pub extern "C" fn nm_worker_remove(
    alloc: Global,
    worker: &mut Handle,
    key: u64,
    options: &Options,
) -> i32
    ensures tells { IsCodeOf (OfWorker (TellsRemove options.now key) ⊤ (held_by worker.old)
        (held_by worker.new)) result }
{
    by_handle!(alloc, worker, Worker(member), key => Outcome::of_answer(member.remove(key, options)))
}
