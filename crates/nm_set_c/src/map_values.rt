//! Managed calls for a key and its value, by the handle of a map's worker.
#![tactic(auto, using(crate::proofs::Owners::asked_of_owner))]

ghost use Rattle.std.specs.Prelude.{◌≡◌, ⊤};
ghost use Rattle.nm_set_c.specs.Handles.{held_by};
ghost use Rattle.nm_set_c.specs.Maps.{TellsFindOrInsert, TellsGet, TellsMapInsert, TellsTake, taken_written, there_written};
ghost use Rattle.nm_set_c.specs.NextKeys.{found_written, of_found};
ghost use Rattle.nm_set_c.specs.Outcomes.{IsCodeOf};
ghost use Rattle.nm_set_c.specs.Owners.{HasDone, OfMapWorker};

use crate::claiming::by_handle;
use crate::handle::Handle;
use crate::outcome::Outcome;
use nm_edge::Key;
use nm_set::{CallFault, MapMember, Options};
use std::alloc::Global;

/// Finds the value that the map has under a key: `MapMember::get` of `nm_set`. Returns `Yes` and
/// writes the value, or `No` if the map does not have the key. Errors: `Key`, `Busy`, `Pending`,
/// `Pinned`, `Closed`, `InUse`, `Kind`.
#[unsafe(no_mangle)]
pub extern "C" fn nm_map_get(
    alloc: Global,
    worker: &mut Handle,
    key: u64,
    options: &Options,
    value: &mut u64,
) -> i32
    ensures tells { IsCodeOf (OfMapWorker (TellsGet options.now key value.old value.new)
        (value.new ≡ value.old) (held_by worker.old) (held_by worker.new)) result }
{
    by_handle!(alloc, worker, MapWorker(member) => get(member, key, options, value))
}

#[inline(always)]
fn get(member: &mut MapMember, key: u64, options: &Options, value: &mut u64) -> Outcome
    ensures tells { HasDone (TellsGet options.now key value.old value.new) member.old member.new result }
{
    let Some(key) = Key::new(key) else {
        return Outcome::Key;
    };
    let answer = member.get(key, options);
    tell_value(answer, value)
}

/// Writes the value that was found, if there is one, and returns the outcome.
#[inline(always)]
fn tell_value(answer: Result<Option<u64>, CallFault>, value: &mut u64) -> Outcome
    ensures told { result ≡ of_found answer }
    ensures written { value.new ≡ found_written answer value.old }
{
    match answer {
        Ok(Some(found)) => {
            *value = found;
            Outcome::Yes
        }
        Ok(None) => Outcome::No,
        Err(fault) => Outcome::of_fault(fault),
    }
}

/// Inserts a key with a value: `MapMember::insert` of `nm_set`. Returns `Yes` if the key was absent,
/// and else `No`; then the key keeps its value. Errors: `Key`, `Busy`, `Full`, `Pending`, `Pinned`,
/// `NoMemory`, `Closed`, `InUse`, `Kind`.
#[unsafe(no_mangle)]
pub extern "C" fn nm_map_insert(
    alloc: Global,
    worker: &mut Handle,
    key: u64,
    value: u64,
    options: &Options,
) -> i32
    ensures tells { IsCodeOf (OfMapWorker (TellsMapInsert options.now key value) ⊤ (held_by worker.old)
        (held_by worker.new)) result }
{
    by_handle!(alloc, worker, MapWorker(member) => insert(member, key, value, options))
}

#[inline(always)]
fn insert(member: &mut MapMember, key: u64, value: u64, options: &Options) -> Outcome
    ensures tells { HasDone (TellsMapInsert options.now key value) member.old member.new result }
{
    let Some(key) = Key::new(key) else {
        return Outcome::Key;
    };
    let mut found = 0;
    Outcome::of_answer(member.insert(key, value, &mut found, options))
}

/// Inserts a key with a value, or finds the value that the key has: `MapMember::insert` of `nm_set`.
/// Returns `Yes` if the key was absent, or `No`, and then writes the value that the map has under the
/// key. Errors: as of `nm_map_insert`.
#[unsafe(no_mangle)]
pub extern "C" fn nm_map_get_or_insert(
    alloc: Global,
    worker: &mut Handle,
    key: u64,
    value: u64,
    options: &Options,
    found: &mut u64,
) -> i32
    ensures tells { IsCodeOf (OfMapWorker (TellsFindOrInsert options.now key value found.old found.new)
        (found.new ≡ found.old) (held_by worker.old) (held_by worker.new)) result }
{
    by_handle!(alloc, worker, MapWorker(member) => get_or_insert(member, key, value, options, found))
}

#[inline(always)]
fn get_or_insert(
    member: &mut MapMember,
    key: u64,
    value: u64,
    options: &Options,
    found: &mut u64,
) -> Outcome
    ensures tells { HasDone (TellsFindOrInsert options.now key value found.old found.new) member.old
        member.new result }
{
    let Some(key) = Key::new(key) else {
        return Outcome::Key;
    };
    let mut there = 0;
    let answer = member.insert(key, value, &mut there, options);
    write_there(&answer, there, found);
    Outcome::of_answer(answer)
}

/// Writes the value that the key of an insert has, if the key was there.
#[inline(always)]
fn write_there(answer: &Result<bool, CallFault>, there: u64, found: &mut u64)
    ensures { found.new ≡ there_written answer.now there found.old }
{
    match answer {
        Ok(false) => *found = there,
        _ => {}
    }
}

/// Removes a key, and writes the value that it had: `MapMember::remove` of `nm_set`. Returns `Yes`
/// and writes the value, or `No` if the key was absent. With `Unfinished` it writes the value too,
/// of the key that will be removed by this call and is pending. Errors: `Key`, `Busy`, `Pending`,
/// `Pinned`, `NoMemory`, `Closed`, `InUse`, `Kind`.
#[unsafe(no_mangle)]
pub extern "C" fn nm_map_remove(
    alloc: Global,
    worker: &mut Handle,
    key: u64,
    options: &Options,
    value: &mut u64,
) -> i32
    ensures tells { IsCodeOf (OfMapWorker (TellsTake options.now key value.old value.new)
        (value.new ≡ value.old) (held_by worker.old) (held_by worker.new)) result }
{
    by_handle!(alloc, worker, MapWorker(member) => remove(member, key, options, value))
}

#[inline(always)]
fn remove(member: &mut MapMember, key: u64, options: &Options, value: &mut u64) -> Outcome
    ensures tells { HasDone (TellsTake options.now key value.old value.new) member.old member.new result }
{
    let Some(key) = Key::new(key) else {
        return Outcome::Key;
    };
    let mut taken = 0;
    let answer = member.remove(key, &mut taken, options);
    write_taken(&answer, taken, value);
    Outcome::of_answer(answer)
}

/// Writes the value of the key that a remove has taken, finished or not.
#[inline(always)]
fn write_taken(answer: &Result<bool, CallFault>, taken: u64, value: &mut u64)
    ensures { value.new ≡ taken_written answer.now taken value.old }
{
    match answer {
        Ok(true) | Err(CallFault::Unfinished) => *value = taken,
        _ => {}
    }
}
