//! An arena: objects that the values of a map name, proved from the clauses of `nm_set` and the page
//! alone. Object i of a slice is named by the value i. An object is a number here, and 0 if it is
//! reset. Whoever removes a key, or puts another number under it, does not reset its object, because a
//! reader may still have the number. The object is reset when its number comes back.
ghost use Rattle.std.specs.Prelude.{ℕ, ◌≡◌, ◌⊎◌, ◌≤◌, length, get_or, set, take, Contains, IfSome};
ghost use Rattle.nm_puts.specs.Replaced.{HasReplaced};
ghost use Rattle.nm_callers.specs.Arenas.{AreReset, ChangesOnly, ReadsObject, ResetsOnlyReturned, object_at};

use nm_edge::Key;
use nm_set::{Condition, MapMember, Options, PinnedGetFault, PutOutcome};

/// Resets one object; changes nothing if there is none of that number.
fn reset_one(objects: &mut [u64], number: u64)
    ensures { objects.new ≡ set objects.old number 0 }
{
    let at = number as usize;
    if at < objects.len() {
        objects[at] = 0;
    }
}

/// Resets each object with one of these numbers.
fn reset_each(objects: &mut [u64], numbers: &[u64])
    ensures only { ChangesOnly numbers.now objects.old objects.new }
    ensures reset { AreReset numbers.now objects.new }
    ensures long { length objects.new ≡ length objects.old }
{
    if let Some((first, rest)) = numbers.split_first() {
        reset_one(objects, *first);
        reset_each(objects, rest);
    }
}

/// Returns the object of the number that was found, if there is one.
fn object_of(objects: &[u64], found: Result<Option<u64>, PinnedGetFault>) -> Option<u64>
    ensures { result ≡ object_at objects.now found }
{
    match found {
        Ok(Some(number)) => objects.get(number as usize).copied(),
        Ok(None) => None,
        Err(_) => None,
    }
}

/// Reads the object under a key: pins the worker, gets the number under that pin, reads the object, and
/// unpins. `None`: the map did not have the key, or there is no object of its number, or the pin was
/// lost in each try. Proved: otherwise the map had the key with the number at a moment of the look-up, and
/// the object is the one of that number. Argued, not proved: nobody resets the object while it is read,
/// because a number comes back after the unpin (`reset_returned`).
pub fn read_object(member: &mut MapMember, objects: &[u64], key: Key, tries: u32) -> Option<u64>
    ensures tree { member.new.tree ≡ member.old.tree }
    ensures read { IfSome result (ReadsObject member.new.worker objects.now key) }
{
    let Ok(_epoch) = member.pin(tries) else {
        return None;
    };
    let found = member.get_pinned(key);
    let object = object_of(objects, found);
    let _unpinned = member.unpin();
    object
}

/// Puts the number of another object under a key that has one; returns the number that it replaced.
/// `None`: the map did not have the key, or the put returned an error. Proved: otherwise the map had the
/// key with the old number right before one step of this call, and with the new one right after it. The
/// old object is not reset here, but after its number has come back (`reset_returned`).
pub fn replace_object(
    member: &mut MapMember,
    key: Key,
    number: u64,
    options: &Options,
) -> Option<u64>
    ensures tree { member.new.tree ≡ member.old.tree }
    ensures replaced { IfSome result (λ old. HasReplaced member.old.worker.pass member.new.worker.pass
        key old number) }
{
    match member.put(key, number, Condition::IfThere, options) {
        Ok(PutOutcome::Replaced(old)) => Some(old),
        _ => None,
    }
}

/// Reclaims the numbers of removed and replaced objects into `out`, and resets each of these objects. Returns how
/// many numbers came back. Proved: each object is as before, or its number has come back: a leaf with
/// this value was cut off, and each worker that was pinned at the cut has unpinned since. So no worker
/// that found the number in the map is still pinned when its object is reset. Proved too: each object
/// whose number came back is reset.
pub fn reset_returned(member: &mut MapMember, objects: &mut [u64], out: &mut [u64]) -> usize
    ensures tree { member.new.tree ≡ member.old.tree }
    ensures only { ResetsOnlyReturned member.new.worker.pass.view objects.old objects.new }
    ensures reset { AreReset (take result out.new) objects.new }
    ensures few { result ≤ length out.new }
{
    let count = member.reclaim(out).handed.values;
    reset_each(objects, &out[..count]);
    count
}
