//! The next key of a set that is in use, and the one before, by the handle of a worker.
#![tactic(auto, using(crate::proofs::Owners::asked_of_owner))]

ghost use Rattle.std.specs.Prelude.{◌≡◌};
ghost use Rattle.nm_set_c.specs.Handles.{held_by};
ghost use Rattle.nm_set_c.specs.NextKeys.{TellsNext, TellsPrev, found_written, of_found};
ghost use Rattle.nm_set_c.specs.Outcomes.{IsCodeOf};
ghost use Rattle.nm_set_c.specs.Owners.{HasDone, OfWorker};

use crate::claiming::by_handle;
use crate::handle::Handle;
use crate::outcome::Outcome;
use nm_edge::Key;
use nm_set::{CallFault, Member};
use std::alloc::Global;

/// Finds the least key of the set that is not below `key`: `Member::next` of `nm_set`. Returns
/// `Yes` and writes it, or `No` if there is none. Errors: `Key`, `Busy`, `Pending`, `Pinned`,
/// `NoMemory`, `Closed`, `InUse`, `Kind`.
#[unsafe(no_mangle)]
pub extern "C" fn nm_worker_next(
    alloc: Global,
    worker: &mut Handle,
    key: u64,
    tries: u32,
    found: &mut u64,
) -> i32
    ensures { IsCodeOf (OfWorker (TellsNext tries key found.old found.new) (found.new ≡ found.old)
        (held_by worker.old) (held_by worker.new)) result }
{
    by_handle!(alloc, worker, Worker(member) => next(member, key, tries, found))
}

fn next(member: &mut Member, key: u64, tries: u32, found: &mut u64) -> Outcome
    ensures { HasDone (TellsNext tries key found.old found.new) member.old member.new result }
{
    let Some(key) = Key::new(key) else {
        return Outcome::Key;
    };
    let answer = member.next(key, tries);
    tell_found(answer, found)
}

/// Finds the greatest key of the set that is not above `key`: `Member::prev` of `nm_set`. Returns
/// `Yes` and writes it, or `No` if there is none. Errors: `Key`, `Busy`, `Pending`, `Pinned`,
/// `NoMemory`, `Closed`, `InUse`, `Kind`.
#[unsafe(no_mangle)]
pub extern "C" fn nm_worker_prev(
    alloc: Global,
    worker: &mut Handle,
    key: u64,
    tries: u32,
    found: &mut u64,
) -> i32
    ensures { IsCodeOf (OfWorker (TellsPrev tries key found.old found.new) (found.new ≡ found.old)
        (held_by worker.old) (held_by worker.new)) result }
{
    by_handle!(alloc, worker, Worker(member) => prev(member, key, tries, found))
}

fn prev(member: &mut Member, key: u64, tries: u32, found: &mut u64) -> Outcome
    ensures { HasDone (TellsPrev tries key found.old found.new) member.old member.new result }
{
    let Some(key) = Key::new(key) else {
        return Outcome::Key;
    };
    let answer = member.prev(key, tries);
    tell_found(answer, found)
}

/// Writes the key that was found, if there is one, and returns the outcome.
pub(crate) fn tell_found(answer: Result<Option<Key>, CallFault>, found: &mut u64) -> Outcome
    ensures told { result ≡ of_found answer }
    ensures written { found.new ≡ found_written answer found.old }
{
    match answer {
        Ok(Some(key)) => {
            *found = key.get();
            Outcome::Yes
        }
        Ok(None) => Outcome::No,
        Err(fault) => Outcome::of_fault(fault),
    }
}
