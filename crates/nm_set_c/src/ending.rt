//! The end of a set, by its own handle or by that of its last worker.
ghost use Rattle.nm_set_c.specs.Handles.{held_by};
ghost use Rattle.nm_set_c.specs.Outcomes.{IsCodeOf};
ghost use Rattle.nm_set_c.specs.Sets.{EndsHandle, EndsOwned, EndsByHandle, EndsByOwner, LeavesReport};

use crate::handle::Handle;
use crate::outcome::Outcome;
use crate::owner::Owner;
use crate::remains::Remains;
use nm_set::EndError;
use std::alloc::Global;
use std::mem::replace;

/// Ends the set when all its workers are closed: `Set::close` of `nm_set`. Returns `Done`, and the
/// handle owns the report from then on.
///
/// Errors: `Attached`: the handle still owns the set, unchanged. `NotAll`, `NoMemory`: the handle
/// still owns the set, and all workers were gathered. `Closed`, `InUse`, `Kind`.
#[unsafe(no_mangle)]
pub extern "C" fn nm_set_close(alloc: Global, set: &mut Handle) -> i32
    ensures { IsCodeOf (EndsHandle (held_by set.old) (held_by set.new)) result }
{
    let mut owner = match set.claim_soon(alloc) {
        Ok(owner) => owner,
        Err(told) => return told.code(),
    };
    let (left, outcome) = end(replace(&mut *owner, Owner::Nothing));
    *owner = left;
    set.put(owner);
    outcome.code()
}

#[tactic(auto, unfolding(crate::specs::Sets::EndsOwned))]
fn end(owner: Owner) -> (Owner, Outcome)
    ensures { EndsOwned Owner.Set LeavesReport owner result.0 result.1 }
{
    let set = match owner {
        Owner::Set(set) => set,
        other => return (other, Outcome::Kind),
    };
    match set.close() {
        Ok(report) => {
            let values = None;
            (Owner::Ended(Remains { report, values }), Outcome::Done)
        }
        Err(error) => (Owner::Set(error.set), Outcome::of_reason(error.reason)),
    }
}

/// Ends the set by its last worker, after the set's own handle was dropped and all its other
/// workers were closed: `Member::end` of `nm_set`. Returns `Done`, and the handle owns the report
/// from then on. It is the report of the tree on which this worker has worked, with all that the
/// worker has done.
///
/// Errors: `Attached`: the handle of the set or of another worker is still open, and the worker is
/// unchanged. `NotAll`, `NoMemory`: all workers were gathered; the handle owns the set from then
/// on, and only `nm_set_close` goes on. `Closed`, `InUse`, `Kind`.
#[unsafe(no_mangle)]
pub extern "C" fn nm_worker_end(alloc: Global, worker: &mut Handle) -> i32
    ensures { IsCodeOf (EndsByHandle (held_by worker.old) (held_by worker.new)) result }
{
    let mut owner = match worker.claim(alloc) {
        Ok(owner) => owner,
        Err(told) => return told.code(),
    };
    let (left, outcome) = end_by_worker(replace(&mut *owner, Owner::Nothing));
    *owner = left;
    worker.put(owner);
    outcome.code()
}

fn end_by_worker(owner: Owner) -> (Owner, Outcome)
    ensures { EndsByOwner owner result.0 result.1 }
{
    let member = match owner {
        Owner::Worker(member) => member,
        other => return (other, Outcome::Kind),
    };
    match member.end() {
        Ok(report) => {
            let values = None;
            (Owner::Ended(Remains { report, values }), Outcome::Done)
        }
        Err(EndError::Attached(member)) => (Owner::Worker(member), Outcome::Attached),
        Err(EndError::Gathered(error)) => {
            (Owner::Set(error.set), Outcome::of_reason(error.reason))
        }
    }
}
