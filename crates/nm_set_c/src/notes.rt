//! Stamps of what a worker has seen, by its handle: published by one worker, and observed by
//! another one of its set.
#![tactic(auto, using(crate::proofs::Owners::asked_of_owner))]

ghost use Rattle.std.specs.Prelude.{◌≡◌};
ghost use Rattle.nm_set_c.specs.Handles.{held_by};
ghost use Rattle.nm_set_c.specs.Notes.{TellsPublish, TellsObserve};
ghost use Rattle.nm_set_c.specs.Outcomes.{IsCodeOf};
ghost use Rattle.nm_set_c.specs.Owners.{HasDone, OfWorker};

use crate::claiming::by_handle;
use crate::handle::Handle;
use crate::outcome::Outcome;
use nm_set::{Member, ObserveFault};
use std::alloc::Global;

/// Publishes a stamp of all that the worker has seen, in place of its earlier one, and writes how
/// many keys it has inserted and removed so far: `Member::publish` of `nm_set`. Returns `Done`.
/// Errors: `Busy`: another worker is observing the earlier stamp at this moment. `Closed`, `InUse`,
/// `Kind`.
#[unsafe(no_mangle)]
pub extern "C" fn nm_worker_publish(
    alloc: Global,
    worker: &mut Handle,
    inserted: &mut u64,
    removed: &mut u64,
) -> i32
    ensures { IsCodeOf (OfWorker (TellsPublish inserted.old inserted.new removed.old removed.new)
        ((inserted.new ≡ inserted.old) × (removed.new ≡ removed.old)) (held_by worker.old)
        (held_by worker.new)) result }
{
    by_handle!(alloc, worker, Worker(member) => publish(member, inserted, removed))
}

fn publish(member: &mut Member, inserted: &mut u64, removed: &mut u64) -> Outcome
    ensures { HasDone (TellsPublish inserted.old inserted.new removed.old removed.new) member.old member.new result }
{
    match member.publish() {
        Some(posted) => {
            *inserted = posted.inserted;
            *removed = posted.removed;
            Outcome::Done
        }
        None => Outcome::Busy,
    }
}

/// Observes the stamp that the worker of a number has published, and writes how many keys that
/// worker had inserted and removed then: `Member::observe` of `nm_set`. Returns `Yes`, or `No` if
/// it has published none. Errors: `Number`. `Busy`: another worker is at that stamp at this moment.
/// `Closed`, `InUse`, `Kind`.
#[unsafe(no_mangle)]
pub extern "C" fn nm_worker_observe(
    alloc: Global,
    worker: &mut Handle,
    number: u32,
    inserted: &mut u64,
    removed: &mut u64,
) -> i32
    ensures { IsCodeOf (OfWorker (TellsObserve number inserted.old inserted.new removed.old removed.new)
        ((inserted.new ≡ inserted.old) × (removed.new ≡ removed.old)) (held_by worker.old)
        (held_by worker.new)) result }
{
    by_handle!(alloc, worker, Worker(member) => observe(member, number, inserted, removed))
}

fn observe(member: &mut Member, number: u32, inserted: &mut u64, removed: &mut u64) -> Outcome
    ensures { HasDone (TellsObserve number inserted.old inserted.new removed.old removed.new) member.old member.new result }
{
    match member.observe(number) {
        Ok(Some(posted)) => {
            *inserted = posted.inserted;
            *removed = posted.removed;
            Outcome::Yes
        }
        Ok(None) => Outcome::No,
        Err(ObserveFault::Number) => Outcome::Number,
        Err(ObserveFault::Busy) => Outcome::Busy,
    }
}
