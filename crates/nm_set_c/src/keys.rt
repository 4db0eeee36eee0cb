//! Calls of the tree for a key, by the handle of a worker.
#![tactic(auto, using(crate::proofs::Owners::asked_of_owner))]

ghost use Rattle.std.specs.Prelude.{⊤};
ghost use Rattle.nm_set_c.specs.Handles.{held_by};
ghost use Rattle.nm_set_c.specs.Outcomes.{IsCodeOf};
ghost use Rattle.nm_set_c.specs.Owners.{HasDone, OfWorker};
ghost use Rattle.nm_set_c.specs.Workers.{TellsTryContains, TellsTryInsert, TellsTryRemove, TellsFinish};

use crate::claiming::by_handle;
use crate::handle::Handle;
use crate::outcome::Outcome;
use nm_set::Member;
use std::alloc::Global;

/// Returns `Yes` if the set has the key, and else `No`: `Member::try_contains` of `nm_set`. Errors:
/// `Key`, `Busy`, `Pending`, `Pinned`, `NoMemory`, `Closed`, `InUse`, `Kind`.
#[unsafe(no_mangle)]
pub extern "C" fn nm_worker_try_contains(
    alloc: Global,
    worker: &mut Handle,
    key: u64,
    tries: u32,
) -> i32
    ensures tells { IsCodeOf (OfWorker (TellsTryContains tries key) ⊤ (held_by worker.old)
        (held_by worker.new)) result }
{
    by_handle!(alloc, worker, Worker(member), key => Outcome::of_answer(member.try_contains(key, tries)))
}

/// Inserts a key; returns `Yes` if it was absent, and else `No`: `Member::try_insert` of `nm_set`.
/// Errors: `Key`, `Busy`, `Full`, `Pending`, `Pinned`, `NoMemory`, `Closed`, `InUse`, `Kind`.
#[unsafe(no_mangle)]
pub extern "C" fn nm_worker_try_insert(
    alloc: Global,
    worker: &mut Handle,
    key: u64,
    tries: u32,
) -> i32
    ensures tells { IsCodeOf (OfWorker (TellsTryInsert tries key) ⊤ (held_by worker.old)
        (held_by worker.new)) result }
{
    by_handle!(alloc, worker, Worker(member), key => Outcome::of_answer(member.try_insert(key, tries)))
}

/// Removes a key; returns `Yes` if it was present, and else `No`: `Member::try_remove` of `nm_set`.
/// Errors: `Key`, `Busy`, `Unfinished`, `Pending`, `Pinned`, `NoMemory`, `Closed`, `InUse`, `Kind`.
#[unsafe(no_mangle)]
pub extern "C" fn nm_worker_try_remove(
    alloc: Global,
    worker: &mut Handle,
    key: u64,
    tries: u32,
) -> i32
    ensures tells { IsCodeOf (OfWorker (TellsTryRemove tries key) ⊤ (held_by worker.old)
        (held_by worker.new)) result }
{
    by_handle!(alloc, worker, Worker(member), key => Outcome::of_answer(member.try_remove(key, tries)))
}

/// Goes on with the remove that is pending: `Member::finish` of `nm_set`. Returns `Yes` if it is
/// finished now, and `No` if none is pending. Errors: `Unfinished`: the key is still pending.
/// `Closed`, `InUse`, `Kind`.
#[unsafe(no_mangle)]
pub extern "C" fn nm_worker_finish(alloc: Global, worker: &mut Handle, tries: u32) -> i32
    ensures tells { IsCodeOf (OfWorker (TellsFinish tries) ⊤ (held_by worker.old)
        (held_by worker.new)) result }
{
    by_handle!(alloc, worker, Worker(member) => finish(member, tries))
}

#[inline(always)]
fn finish(member: &mut Member, tries: u32) -> Outcome
    ensures tells { HasDone (TellsFinish tries) member.old member.new result }
{
    Outcome::of_answer(member.finish(tries))
}
