//! Pins of a map's worker, values under them, and values that come back, by the handle of the worker.
#![tactic(auto, using(crate::proofs::Owners::asked_of_owner))]

ghost use Rattle.std.specs.Prelude.{◌≡◌, ⊤};
ghost use Rattle.nm_set_c.specs.Handles.{held_by};
ghost use Rattle.nm_set_c.specs.Maps.{TellsGetPinned, TellsReclaim, number_written, of_pinned_get, pinned_written};
ghost use Rattle.nm_set_c.specs.Outcomes.{IsCodeOf};
ghost use Rattle.nm_set_c.specs.Owners.{HasDone, OfMapWorker};
ghost use Rattle.nm_set_c.specs.Workers.{TellsPin, TellsUnpin};

use crate::claiming::by_handle;
use crate::epochs::{pin, unpin};
use crate::handle::Handle;
use crate::outcome::Outcome;
use nm_edge::Key;
use nm_set::{MapMember, PinnedGetFault};
use std::alloc::Global;

/// The number that stands for no worker. A worker's number is below 64.
const NOBODY: u32 = u32::MAX;

/// Pins the epoch for the caller, until unpin, and writes it: `MapMember::pin` of `nm_set`. Returns
/// and errors: as of `nm_worker_pin`.
#[unsafe(no_mangle)]
pub extern "C" fn nm_map_pin(alloc: Global, worker: &mut Handle, tries: u32, epoch: &mut u64) -> i32
    ensures tells { IsCodeOf (OfMapWorker (TellsPin tries epoch.old epoch.new) (epoch.new ≡ epoch.old)
        (held_by worker.old) (held_by worker.new)) result }
{
    by_handle!(alloc, worker, MapWorker(member) => pin(member, tries, epoch))
}

/// Ends the caller's pin: `MapMember::unpin` of `nm_set`. Returns `Done`. Errors: `NotPinned`,
/// `Closed`, `InUse`, `Kind`.
#[unsafe(no_mangle)]
pub extern "C" fn nm_map_unpin(alloc: Global, worker: &mut Handle) -> i32
    ensures tells { IsCodeOf (OfMapWorker TellsUnpin ⊤ (held_by worker.old) (held_by worker.new)) result }
{
    by_handle!(alloc, worker, MapWorker(member) => unpin(member))
}

/// Finds the value that the map has under a key, under the caller's pin: `MapMember::get_pinned` of
/// `nm_set`. Returns `Yes` and writes the value, or `No` if the map does not have the key. Errors:
/// `Key`, `NotPinned`, `Busy`, `Closed`, `InUse`, `Kind`.
#[unsafe(no_mangle)]
pub extern "C" fn nm_map_get_pinned(
    alloc: Global,
    worker: &mut Handle,
    key: u64,
    value: &mut u64,
) -> i32
    ensures tells { IsCodeOf (OfMapWorker (TellsGetPinned key value.old value.new)
        (value.new ≡ value.old) (held_by worker.old) (held_by worker.new)) result }
{
    by_handle!(alloc, worker, MapWorker(member) => get_pinned(member, key, value))
}

#[inline(always)]
fn get_pinned(member: &mut MapMember, key: u64, value: &mut u64) -> Outcome
    ensures tells { HasDone (TellsGetPinned key value.old value.new) member.old member.new result }
{
    let Some(key) = Key::new(key) else {
        return Outcome::Key;
    };
    let answer = member.get_pinned(key);
    tell_pinned_value(answer, value)
}

/// Writes the value that was found under a pin, if there is one, and returns the outcome.
#[inline(always)]
fn tell_pinned_value(answer: Result<Option<u64>, PinnedGetFault>, value: &mut u64) -> Outcome
    ensures told { result ≡ of_pinned_get answer }
    ensures written { value.new ≡ pinned_written answer value.old }
{
    match answer {
        Ok(Some(found)) => {
            *value = found;
            Outcome::Yes
        }
        Ok(None) => Outcome::No,
        Err(PinnedGetFault::NotPinned) => Outcome::NotPinned,
        Err(PinnedGetFault::Busy) => Outcome::Busy,
    }
}

/// Tries twice to advance the epoch, and frees what has waited long enough: `MapMember::reclaim` of
/// `nm_set`. Returns `Done`; writes the value of each freed leaf, how many these are, and which
/// worker was found to hold the epoch back, or `NOBODY`. Errors: `Closed`, `InUse`, `Kind`.
#[unsafe(no_mangle)]
pub extern "C" fn nm_map_reclaim(
    alloc: Global,
    worker: &mut Handle,
    values: &mut [u64],
    count: &mut u64,
    behind: &mut u32,
) -> i32
    ensures tells { IsCodeOf (OfMapWorker (TellsReclaim values.old values.new count.new behind.new)
        ((values.new ≡ values.old) × (count.new ≡ count.old) × (behind.new ≡ behind.old))
        (held_by worker.old) (held_by worker.new)) result }
{
    by_handle!(alloc, worker, MapWorker(member) => reclaim(member, values, count, behind))
}

fn reclaim(member: &mut MapMember, values: &mut [u64], count: &mut u64, behind: &mut u32) -> Outcome
    ensures tells { HasDone (TellsReclaim values.old values.new count.new behind.new) member.old member.new
        result }
{
    let reclaimed = member.reclaim(values);
    *count = reclaimed.handed.values as u64;
    *behind = number_of(reclaimed.behind);
    Outcome::Done
}

/// Converts the number of a worker that may be none.
fn number_of(worker: Option<u32>) -> u32
    ensures { result ≡ number_written worker }
{
    match worker {
        Some(number) => number,
        None => NOBODY,
    }
}
