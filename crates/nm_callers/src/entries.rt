//! Members of a map that handle keys with their values, proved from the clauses of `nm_set`.
ghost use Rattle.std.specs.Prelude.{◌≡◌, ◌<◌, ◌≤◌, Some, IfSome};
ghost use Rattle.std.specs.List.{AllWithin};
ghost use Rattle.nm_calls.specs.MapScans.{HadEntry};
ghost use Rattle.nm_calls.specs.Maps.{MapGave};
ghost use Rattle.nm_set.specs.Maps.{TookMeanwhile};
ghost use Rattle.nm_callers.specs.Mapping.{HasPutOrFound};

use nm_edge::Key;
use nm_set::{MapEntry, MapMember, Options};

/// Inserts a key with a value, and returns the value that the key then had: this one, or the one
/// that was there. `None`: the call returned an error. Proved: otherwise the map had the key with
/// the value that is returned, at a moment (linearization point) of the call.
pub fn put_or_find(member: &mut MapMember, key: Key, value: u64, options: &Options) -> Option<u64>
    ensures tree { member.new.tree ≡ member.old.tree }
    ensures had { IfSome result
        (HasPutOrFound member.old.worker.pass member.new.worker.pass key value) }
{
    let mut found = 0;
    match member.insert(key, value, &mut found, options) {
        Ok(true) => Some(value),
        Ok(false) => Some(found),
        Err(_) => None,
    }
}

/// Returns the least key of the map from `key` on, with its value. `None`: there is none, or the
/// call returned an error. Proved: otherwise the map had that key with that value at a moment of
/// the call.
pub fn look_next(member: &mut MapMember, key: Key, tries: u32) -> Option<(Key, u64)>
    ensures tree { member.new.tree ≡ member.old.tree }
    ensures had { IfSome result
        (λ e. MapGave member.old.worker.pass member.new.worker.pass e.0 (Some e.1)) }
{
    let mut value = 0;
    match member.next_with_value(key, &mut value, tries) {
        Ok(Some(next)) => Some((next, value)),
        _ => None,
    }
}

/// Takes the least key of the map that is below a bound, with its value, as a timer takes a task
/// that is due. `None`: there is none, or the call returned an error. Proved: otherwise the map had
/// that key with that value right before a flag of this call, in the very leaf that it flagged.
pub fn take_due(member: &mut MapMember, below: u64, options: &Options) -> Option<(Key, u64)>
    ensures tree { member.new.tree ≡ member.old.tree }
    ensures took { IfSome result
        (λ e. TookMeanwhile member.old.worker.pass member.new.worker.pass e.0 e.1) }
{
    let mut value = 0;
    match member.pop_first_below(below, &mut value, options) {
        Ok(Some(due)) => Some((due, value)),
        _ => None,
    }
}

/// Returns the greatest key of the map that is not above `key`, with its value. `None`: there is
/// none, or the call returned an error. Proved: otherwise the map had that key with that value at a
/// moment of the call.
pub fn look_back(member: &mut MapMember, key: Key, tries: u32) -> Option<(Key, u64)>
    ensures tree { member.new.tree ≡ member.old.tree }
    ensures had { IfSome result
        (λ e. MapGave member.old.worker.pass member.new.worker.pass e.0 (Some e.1)) }
{
    let mut value = 0;
    match member.prev_with_value(key, &mut value, tries) {
        Ok(Some(previous)) => Some((previous, value)),
        _ => None,
    }
}

/// Removes a key, and returns the value that it had. `None`: the map did not have the key, or the
/// call returned an error. Proved: otherwise the map had the key with that value right before a flag
/// of this call, in the very leaf that it flagged.
pub fn take_out(member: &mut MapMember, key: Key, options: &Options) -> Option<u64>
    ensures tree { member.new.tree ≡ member.old.tree }
    ensures took { IfSome result (TookMeanwhile member.old.worker.pass member.new.worker.pass key) }
{
    let mut value = 0;
    match member.remove(key, &mut value, options) {
        Ok(true) => Some(value),
        _ => None,
    }
}

/// Takes the least key of the map, with its value. Proved: as of `take_due`.
pub fn take_first(member: &mut MapMember, options: &Options) -> Option<(Key, u64)>
    ensures tree { member.new.tree ≡ member.old.tree }
    ensures took { IfSome result
        (λ e. TookMeanwhile member.old.worker.pass member.new.worker.pass e.0 e.1) }
{
    let mut value = 0;
    match member.pop_first(&mut value, options) {
        Ok(Some(first)) => Some((first, value)),
        _ => None,
    }
}

/// Takes the greatest key of the map, with its value. Proved: as of `take_due`.
pub fn take_last(member: &mut MapMember, options: &Options) -> Option<(Key, u64)>
    ensures tree { member.new.tree ≡ member.old.tree }
    ensures took { IfSome result
        (λ e. TookMeanwhile member.old.worker.pass member.new.worker.pass e.0 e.1) }
{
    let mut value = 0;
    match member.pop_last(&mut value, options) {
        Ok(Some(last)) => Some((last, value)),
        _ => None,
    }
}

/// Takes the greatest key of the map that is not below a bound, with its value. Proved: as of
/// `take_due`.
pub fn take_last_from(member: &mut MapMember, from: u64, options: &Options) -> Option<(Key, u64)>
    ensures tree { member.new.tree ≡ member.old.tree }
    ensures took { IfSome result
        (λ e. TookMeanwhile member.old.worker.pass member.new.worker.pass e.0 e.1) }
{
    let mut value = 0;
    match member.pop_last_from(from, &mut value, options) {
        Ok(Some(last)) => Some((last, value)),
        _ => None,
    }
}

/// Lists the tasks of a map from `first` on that are due before `below`, in the order of their keys, as
/// a scheduler does that looks before it takes. Returns how many it has listed; 0 after an error too.
/// Proved, about each listed task: it is due, and the map had its key with its value at a moment of
/// the call.
pub fn list_due(
    member: &mut MapMember,
    first: Key,
    below: u64,
    out: &mut [MapEntry],
    tries: u32,
) -> usize
    ensures tree { member.new.tree ≡ member.old.tree }
    ensures due { AllWithin (λ e. (first ≤ e.key) × (e.key < below)) out.new 0 result }
    ensures had { AllWithin (HadEntry member.old.worker.pass member.new.worker.pass) out.new 0
        result }
{
    match member.scan_with_values(first, below, out, tries) {
        Ok(scanned) => scanned.count,
        Err(_) => 0,
    }
}

/// Lists the tasks of a map from `last` down that are not before `least`, the latest one first. Returns
/// how many it has listed; 0 after an error too. Proved, about each listed task: the map had its key
/// with its value at a moment of the call.
pub fn list_back(
    member: &mut MapMember,
    last: Key,
    least: u64,
    out: &mut [MapEntry],
    tries: u32,
) -> usize
    ensures tree { member.new.tree ≡ member.old.tree }
    ensures had { AllWithin (HadEntry member.old.worker.pass member.new.worker.pass) out.new 0
        result }
{
    match member.scan_back_with_values(last, least, out, tries) {
        Ok(scanned) => scanned.count,
        Err(_) => 0,
    }
}
