//! Calls on the epoch, by the handle of a worker.
#![tactic(auto, using(crate::proofs::Owners::asked_of_owner))]

ghost use Rattle.std.specs.Prelude.{◌≡◌, ⊤};
ghost use Rattle.nm_set_c.specs.Handles.{held_by};
ghost use Rattle.nm_set_c.specs.Outcomes.{IsCodeOf};
ghost use Rattle.nm_set_c.specs.Owners.{HasDone, OfWorker};
ghost use Rattle.nm_set_c.specs.Workers.{TellsPin, TellsUnpin, TellsAdvance, TellsBehind, TellsCollect, of_pin, of_unpin, pin_epoch};

use crate::claiming::by_handle;
use crate::handle::Handle;
use crate::outcome::Outcome;
use nm_set::{Advance, Contents, Member, NotPinned, PinFault};
use std::alloc::Global;

/// Pins the epoch for the caller, until unpin, and writes it: `Member::pin` of `nm_set`. Returns
/// `Done`.
///
/// Errors: `Busy`: the epoch that was read last is written. `Pending`, `Pinned`, `Closed`, `InUse`,
/// `Kind`.
#[unsafe(no_mangle)]
pub extern "C" fn nm_worker_pin(
    alloc: Global,
    worker: &mut Handle,
    tries: u32,
    epoch: &mut u64,
) -> i32
    ensures { IsCodeOf (OfWorker (TellsPin tries epoch.old epoch.new) (epoch.new ≡ epoch.old)
        (held_by worker.old) (held_by worker.new)) result }
{
    by_handle!(alloc, worker, Worker(member) => pin(member, tries, epoch))
}

pub(crate) fn pin<V: Contents>(member: &mut Member<V>, tries: u32, epoch: &mut u64) -> Outcome
    ensures { HasDone (TellsPin tries epoch.old epoch.new) member.old member.new result }
{
    let answer = member.pin(tries);
    tell_pin(answer, epoch)
}

/// Writes the epoch that was pinned, or that was read last, and returns the outcome.
fn tell_pin(answer: Result<u64, PinFault>, epoch: &mut u64) -> Outcome
    ensures told { result ≡ of_pin answer }
    ensures written { epoch.new ≡ pin_epoch answer epoch.old }
{
    match answer {
        Ok(pinned) => {
            *epoch = pinned;
            Outcome::Done
        }
        Err(PinFault::Pinned) => Outcome::Pinned,
        Err(PinFault::Pending) => Outcome::Pending,
        Err(PinFault::Moved { epoch: found }) => {
            *epoch = found;
            Outcome::Busy
        }
    }
}

/// Ends the caller's pin: `Member::unpin` of `nm_set`. Returns `Done`. Errors: `NotPinned`,
/// `Closed`, `InUse`, `Kind`.
#[unsafe(no_mangle)]
pub extern "C" fn nm_worker_unpin(alloc: Global, worker: &mut Handle) -> i32
    ensures { IsCodeOf (OfWorker (TellsUnpin) ⊤ (held_by worker.old) (held_by worker.new)) result }
{
    by_handle!(alloc, worker, Worker(member) => unpin(member))
}

pub(crate) fn unpin<V: Contents>(member: &mut Member<V>) -> Outcome
    ensures { HasDone TellsUnpin member.old member.new result }
{
    let answer = member.unpin();
    tell_unpin(answer)
}

/// Returns the outcome of an unpin.
fn tell_unpin(answer: Result<(), NotPinned>) -> Outcome
    ensures { result ≡ of_unpin answer }
{
    match answer {
        Ok(()) => Outcome::Done,
        Err(_) => Outcome::NotPinned,
    }
}

/// Advances the epoch by one, if no worker holds it back: `Member::advance` of `nm_set`. Returns
/// `Done` and writes the new epoch.
///
/// Errors: `Behind`: a worker holds it back; its number and the epoch that it announces are
/// written. `Lost`: the epoch to which another worker advanced it is written. `Spent`, `Closed`,
/// `InUse`, `Kind`.
#[unsafe(no_mangle)]
pub extern "C" fn nm_worker_advance(
    alloc: Global,
    worker: &mut Handle,
    epoch: &mut u64,
    behind: &mut u32,
) -> i32
    ensures { IsCodeOf (OfWorker (TellsAdvance epoch.old epoch.new behind.old behind.new)
        ((epoch.new ≡ epoch.old) × (behind.new ≡ behind.old)) (held_by worker.old)
        (held_by worker.new)) result }
{
    by_handle!(alloc, worker, Worker(member) => advance(member, epoch, behind))
}

fn advance(member: &mut Member, epoch: &mut u64, behind: &mut u32) -> Outcome
    ensures { HasDone (TellsAdvance epoch.old epoch.new behind.old behind.new) member.old member.new result }
{
    match member.advance() {
        Advance::Moved { epoch: moved } => {
            *epoch = moved;
            Outcome::Done
        }
        Advance::Held {
            worker,
            epoch: announced,
        } => {
            *behind = worker;
            *epoch = announced;
            Outcome::Behind
        }
        Advance::Lost { epoch: found } => {
            *epoch = found;
            Outcome::Lost
        }
        Advance::Spent => Outcome::Spent,
    }
}

/// Finds which workers hold the epoch back: `Member::behind` of `nm_set`. Returns `Done`, and
/// writes the epoch and a mask; bit w is set exactly if worker w was found announcing another
/// epoch. Errors: `Closed`, `InUse`, `Kind`.
#[unsafe(no_mangle)]
pub extern "C" fn nm_worker_behind(
    alloc: Global,
    worker: &mut Handle,
    epoch: &mut u64,
    mask: &mut u64,
) -> i32
    ensures { IsCodeOf (OfWorker (TellsBehind epoch.new mask.new)
        ((epoch.new ≡ epoch.old) × (mask.new ≡ mask.old)) (held_by worker.old) (held_by worker.new))
        result }
{
    by_handle!(alloc, worker, Worker(member) => behind(member, epoch, mask))
}

fn behind(member: &mut Member, epoch: &mut u64, mask: &mut u64) -> Outcome
    ensures { HasDone (TellsBehind epoch.new mask.new) member.old member.new result }
{
    let found = member.behind();
    *epoch = found.epoch;
    *mask = found.mask;
    Outcome::Done
}

/// Frees what has waited long enough in the queues that the worker holds: `Member::collect` of
/// `nm_set`. Returns `Done`, and writes the epoch and how many nodes were freed. Errors: `Closed`,
/// `InUse`, `Kind`.
#[unsafe(no_mangle)]
pub extern "C" fn nm_worker_collect(
    alloc: Global,
    worker: &mut Handle,
    epoch: &mut u64,
    freed: &mut u64,
) -> i32
    ensures { IsCodeOf (OfWorker (TellsCollect epoch.new freed.new)
        ((epoch.new ≡ epoch.old) × (freed.new ≡ freed.old)) (held_by worker.old)
        (held_by worker.new)) result }
{
    by_handle!(alloc, worker, Worker(member) => collect(member, epoch, freed))
}

fn collect(member: &mut Member, epoch: &mut u64, freed: &mut u64) -> Outcome
    ensures { HasDone (TellsCollect epoch.new freed.new) member.old member.new result }
{
    let collected = member.collect();
    *epoch = collected.epoch;
    *freed = collected.freed;
    Outcome::Done
}
