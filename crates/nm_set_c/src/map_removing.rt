//! Removes that expect a value.
#![tactic(auto, using(crate::proofs::Owners::asked_of_owner))]

ghost use Rattle.std.specs.Prelude.{◌≡◌};
ghost use Rattle.nm_set_c.specs.Handles.{held_by};
ghost use Rattle.nm_set_c.specs.MapRemoves.{TellsRemoveIf, other_written};
ghost use Rattle.nm_set_c.specs.Outcomes.{IsCodeOf};
ghost use Rattle.nm_set_c.specs.Owners.{HasDone, OfMapWorker};

use crate::claiming::by_handle;
use crate::handle::Handle;
use crate::outcome::Outcome;
use nm_edge::Key;
use nm_set::{CallFault, MapMember, Options, RemoveOutcome};
use std::alloc::Global;

/// Removes a key, if it has the expected value: `MapMember::remove_if` of `nm_set`. Returns `Yes` if
/// the key is removed, or `Absent`, or `Other`, and then writes the value that the key had. With
/// `Unfinished` the key had the expected value, will be removed by this call, and is pending. Errors:
/// `Key`, `Busy`, `Pending`, `Pinned`, `NoMemory`, `Closed`, `InUse`, `Kind`.
#[unsafe(no_mangle)]
pub extern "C" fn nm_map_remove_if(
    alloc: Global,
    worker: &mut Handle,
    key: u64,
    expected: u64,
    options: &Options,
    found: &mut u64,
) -> i32
    ensures tells { IsCodeOf (OfMapWorker (TellsRemoveIf options.now key expected found.old found.new)
        (found.new ≡ found.old) (held_by worker.old) (held_by worker.new)) result }
{
    by_handle!(alloc, worker, MapWorker(member) =>
        remove_if(member, key, expected, options, found))
}

#[inline(always)]
fn remove_if(
    member: &mut MapMember,
    key: u64,
    expected: u64,
    options: &Options,
    found: &mut u64,
) -> Outcome
    ensures tells { HasDone (TellsRemoveIf options.now key expected found.old found.new) member.old
        member.new result }
{
    let Some(key) = Key::new(key) else {
        return Outcome::Key;
    };
    let done = member.remove_if(key, expected, options);
    write_other(&done, found);
    Outcome::of_remove(&done)
}

/// Writes the value that the key had, if it is not the expected one.
#[inline(always)]
fn write_other(done: &Result<RemoveOutcome, CallFault>, found: &mut u64)
    ensures { found.new ≡ other_written done.now found.old }
{
    match done {
        Ok(RemoveOutcome::Other(value)) => *found = *value,
        _ => {}
    }
}
