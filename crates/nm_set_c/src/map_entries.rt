//! The next key of a map with its value, and the one before; and managed calls that remove the least
//! or the greatest key and write its value. By the handle of a map's worker.
#![tactic(auto, using(crate::proofs::Owners::asked_of_owner))]

ghost use Rattle.std.specs.Prelude.{◌≡◌};
ghost use Rattle.nm_set_c.specs.Handles.{held_by};
ghost use Rattle.nm_set_c.specs.MapEntries.{TellsNextEntry, TellsPrevEntry, PopsFirst, PopsLast, PopsFirstBelow, PopsLastFrom, value_written};
ghost use Rattle.nm_set_c.specs.NextKeys.{found_written, of_found};
ghost use Rattle.nm_set_c.specs.Outcomes.{IsCodeOf};
ghost use Rattle.nm_set_c.specs.Owners.{HasDone, OfMapWorker};

use crate::claiming::by_handle;
use crate::handle::Handle;
use crate::next_key::tell_found;
use crate::outcome::Outcome;
use crate::popping::tell_taken;
use nm_edge::Key;
use nm_set::{CallFault, MapMember, Options};
use std::alloc::Global;

/// Finds the least key of the map that is not below `key`, with its value:
/// `MapMember::next_with_value` of `nm_set`. Returns `Yes` and writes both, or `No` if there is none.
/// Errors: `Key`, `Busy`, `Pending`, `Pinned`, `NoMemory`, `Closed`, `InUse`, `Kind`.
#[unsafe(no_mangle)]
pub extern "C" fn nm_map_next(
    alloc: Global,
    worker: &mut Handle,
    key: u64,
    tries: u32,
    found: &mut u64,
    value: &mut u64,
) -> i32
    ensures tells { IsCodeOf (OfMapWorker (TellsNextEntry tries key found.old found.new value.old value.new)
        ((found.new ≡ found.old) × (value.new ≡ value.old)) (held_by worker.old)
        (held_by worker.new)) result }
{
    by_handle!(alloc, worker, MapWorker(member) => next(member, key, tries, found, value))
}

fn next(member: &mut MapMember, key: u64, tries: u32, found: &mut u64, value: &mut u64) -> Outcome
    ensures tells { HasDone (TellsNextEntry tries key found.old found.new value.old value.new) member.old
        member.new result }
{
    let Some(key) = Key::new(key) else {
        return Outcome::Key;
    };
    let mut there = 0;
    let answer = member.next_with_value(key, &mut there, tries);
    write_value(&answer, there, value);
    tell_found(answer, found)
}

/// Finds the greatest key of the map that is not above `key`, with its value:
/// `MapMember::prev_with_value` of `nm_set`. Returns and errors: as of `nm_map_next`.
#[unsafe(no_mangle)]
pub extern "C" fn nm_map_prev(
    alloc: Global,
    worker: &mut Handle,
    key: u64,
    tries: u32,
    found: &mut u64,
    value: &mut u64,
) -> i32
    ensures tells { IsCodeOf (OfMapWorker (TellsPrevEntry tries key found.old found.new value.old value.new)
        ((found.new ≡ found.old) × (value.new ≡ value.old)) (held_by worker.old)
        (held_by worker.new)) result }
{
    by_handle!(alloc, worker, MapWorker(member) => prev(member, key, tries, found, value))
}

fn prev(member: &mut MapMember, key: u64, tries: u32, found: &mut u64, value: &mut u64) -> Outcome
    ensures tells { HasDone (TellsPrevEntry tries key found.old found.new value.old value.new) member.old
        member.new result }
{
    let Some(key) = Key::new(key) else {
        return Outcome::Key;
    };
    let mut there = 0;
    let answer = member.prev_with_value(key, &mut there, tries);
    write_value(&answer, there, value);
    tell_found(answer, found)
}

/// Writes the value of the key that was found, if there is one.
#[inline(always)]
fn write_value(answer: &Result<Option<Key>, CallFault>, there: u64, value: &mut u64)
    ensures { value.new ≡ value_written answer.now there value.old }
{
    match answer {
        Ok(Some(_)) => *value = there,
        _ => {}
    }
}

/// Removes the least key from the map: `MapMember::pop_first` of `nm_set`. Returns `Yes` and writes the
/// key and its value, or `No` if the map is empty. With `Unfinished` it writes the key alone, which
/// will be removed by this call and is pending. Errors: `Busy`, `Pending`, `Pinned`, `NoMemory`,
/// `Closed`, `InUse`, `Kind`.
#[unsafe(no_mangle)]
pub extern "C" fn nm_map_pop_first(
    alloc: Global,
    worker: &mut Handle,
    options: &Options,
    taken: &mut u64,
    value: &mut u64,
) -> i32
    ensures tells { IsCodeOf (OfMapWorker (PopsFirst options.now taken.old taken.new value.old value.new)
        ((taken.new ≡ taken.old) × (value.new ≡ value.old)) (held_by worker.old)
        (held_by worker.new)) result }
{
    by_handle!(alloc, worker, MapWorker(member) => pop_first(member, options, taken, value))
}

fn pop_first(member: &mut MapMember, options: &Options, taken: &mut u64, value: &mut u64) -> Outcome
    ensures tells { HasDone (PopsFirst options.now taken.old taken.new value.old value.new) member.old
        member.new result }
{
    let mut there = 0;
    let answer = member.pop_first(&mut there, options);
    let pending = member.pending();
    write_value(&answer, there, value);
    tell_taken(answer, pending, taken)
}

/// Removes the greatest key from the map, and returns and writes as `nm_map_pop_first` does:
/// `MapMember::pop_last` of `nm_set`.
#[unsafe(no_mangle)]
pub extern "C" fn nm_map_pop_last(
    alloc: Global,
    worker: &mut Handle,
    options: &Options,
    taken: &mut u64,
    value: &mut u64,
) -> i32
    ensures tells { IsCodeOf (OfMapWorker (PopsLast options.now taken.old taken.new value.old value.new)
        ((taken.new ≡ taken.old) × (value.new ≡ value.old)) (held_by worker.old)
        (held_by worker.new)) result }
{
    by_handle!(alloc, worker, MapWorker(member) => pop_last(member, options, taken, value))
}

fn pop_last(member: &mut MapMember, options: &Options, taken: &mut u64, value: &mut u64) -> Outcome
    ensures tells { HasDone (PopsLast options.now taken.old taken.new value.old value.new) member.old
        member.new result }
{
    let mut there = 0;
    let answer = member.pop_last(&mut there, options);
    let pending = member.pending();
    write_value(&answer, there, value);
    tell_taken(answer, pending, taken)
}

/// Removes the least key from the map if it is below `below`, and returns and writes as
/// `nm_map_pop_first` does: `MapMember::pop_first_below` of `nm_set`.
#[unsafe(no_mangle)]
pub extern "C" fn nm_map_pop_first_below(
    alloc: Global,
    worker: &mut Handle,
    below: u64,
    options: &Options,
    taken: &mut u64,
    value: &mut u64,
) -> i32
    ensures tells { IsCodeOf (OfMapWorker (PopsFirstBelow below options.now taken.old taken.new value.old value.new)
        ((taken.new ≡ taken.old) × (value.new ≡ value.old)) (held_by worker.old)
        (held_by worker.new)) result }
{
    by_handle!(alloc, worker, MapWorker(member) => pop_first_below(member, below, options, taken, value))
}

fn pop_first_below(
    member: &mut MapMember,
    below: u64,
    options: &Options,
    taken: &mut u64,
    value: &mut u64,
) -> Outcome
    ensures tells { HasDone (PopsFirstBelow below options.now taken.old taken.new value.old value.new) member.old
        member.new result }
{
    let mut there = 0;
    let answer = member.pop_first_below(below, &mut there, options);
    let pending = member.pending();
    write_value(&answer, there, value);
    tell_taken(answer, pending, taken)
}

/// Removes the greatest key from the map if it is not below `from`, and returns and writes as
/// `nm_map_pop_first` does: `MapMember::pop_last_from` of `nm_set`.
#[unsafe(no_mangle)]
pub extern "C" fn nm_map_pop_last_from(
    alloc: Global,
    worker: &mut Handle,
    from: u64,
    options: &Options,
    taken: &mut u64,
    value: &mut u64,
) -> i32
    ensures tells { IsCodeOf (OfMapWorker (PopsLastFrom from options.now taken.old taken.new value.old value.new)
        ((taken.new ≡ taken.old) × (value.new ≡ value.old)) (held_by worker.old)
        (held_by worker.new)) result }
{
    by_handle!(alloc, worker, MapWorker(member) => pop_last_from(member, from, options, taken, value))
}

fn pop_last_from(
    member: &mut MapMember,
    from: u64,
    options: &Options,
    taken: &mut u64,
    value: &mut u64,
) -> Outcome
    ensures tells { HasDone (PopsLastFrom from options.now taken.old taken.new value.old value.new) member.old
        member.new result }
{
    let mut there = 0;
    let answer = member.pop_last_from(from, &mut there, options);
    let pending = member.pending();
    write_value(&answer, there, value);
    tell_taken(answer, pending, taken)
}
