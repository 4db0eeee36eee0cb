//! Managed puts, by the handle of a map's worker.
#![tactic(auto, using(crate::proofs::Owners::asked_of_owner))]

ghost use Rattle.std.specs.Prelude.{◌≡◌};
ghost use Rattle.nm_set_c.specs.Handles.{held_by};
ghost use Rattle.nm_set_c.specs.MapPuts.{TellsPut, had_written};
ghost use Rattle.nm_set_c.specs.Outcomes.{IsCodeOf};
ghost use Rattle.nm_set_c.specs.Owners.{HasDone, OfMapWorker};

use crate::claiming::by_handle;
use crate::handle::Handle;
use crate::outcome::Outcome;
use nm_edge::Key;
use nm_set::{CallFault, Condition, MapMember, Options, PutOutcome};
use std::alloc::Global;

/// Gives a key the value, whether it is there or not: `MapMember::put` of `nm_set`. Returns `Inserted`,
/// or `Replaced`, and then writes the value that the key had. Errors: `Key`, `Busy`, `Full`, `Pending`,
/// `Pinned`, `NoMemory`, `Closed`, `InUse`, `Kind`.
#[unsafe(no_mangle)]
pub extern "C" fn nm_map_put(
    alloc: Global,
    worker: &mut Handle,
    key: u64,
    value: u64,
    options: &Options,
    old: &mut u64,
) -> i32
    ensures tells { IsCodeOf (OfMapWorker
        (TellsPut Condition.Always options.now key value old.old old.new)
        (old.new ≡ old.old) (held_by worker.old) (held_by worker.new)) result }
{
    by_handle!(alloc, worker, MapWorker(member) =>
        put(member, key, value, Condition::Always, options, old))
}

/// Gives a key another value, if the key is there: `MapMember::put` of `nm_set`. Returns `Replaced` and
/// writes the value that the key had, or `Absent`. Errors: as of `nm_map_put`.
#[unsafe(no_mangle)]
pub extern "C" fn nm_map_replace(
    alloc: Global,
    worker: &mut Handle,
    key: u64,
    value: u64,
    options: &Options,
    old: &mut u64,
) -> i32
    ensures tells { IsCodeOf (OfMapWorker
        (TellsPut Condition.IfThere options.now key value old.old old.new)
        (old.new ≡ old.old) (held_by worker.old) (held_by worker.new)) result }
{
    by_handle!(alloc, worker, MapWorker(member) =>
        put(member, key, value, Condition::IfThere, options, old))
}

/// Gives a key another value, if the key has the expected one: `MapMember::put` of `nm_set`. Returns
/// `Replaced`, `Other` or `Absent`. With the first two it writes the value that the key had. Errors: as
/// of `nm_map_put`.
#[unsafe(no_mangle)]
pub extern "C" fn nm_map_compare_replace(
    alloc: Global,
    worker: &mut Handle,
    key: u64,
    expected: u64,
    value: u64,
    options: &Options,
    found: &mut u64,
) -> i32
    ensures tells { IsCodeOf (OfMapWorker
        (TellsPut (Condition.IfItIs expected) options.now key value found.old found.new)
        (found.new ≡ found.old) (held_by worker.old) (held_by worker.new)) result }
{
    by_handle!(alloc, worker, MapWorker(member) =>
        put(member, key, value, Condition::IfItIs(expected), options, found))
}

#[inline(always)]
fn put(
    member: &mut MapMember,
    key: u64,
    value: u64,
    condition: Condition,
    options: &Options,
    found: &mut u64,
) -> Outcome
    ensures tells { HasDone (TellsPut condition options.now key value found.old found.new) member.old
        member.new result }
{
    let Some(key) = Key::new(key) else {
        return Outcome::Key;
    };
    let done = member.put(key, value, condition, options);
    write_found(&done, found);
    Outcome::of_put(&done)
}

/// Writes the value that the key had, if the put found one.
#[inline(always)]
fn write_found(done: &Result<PutOutcome, CallFault>, found: &mut u64)
    ensures { found.new ≡ had_written done.now found.old }
{
    match done {
        Ok(PutOutcome::Replaced(value)) => *found = *value,
        Ok(PutOutcome::Other(value)) => *found = *value,
        _ => {}
    }
}
