//! Scans of a range of keys, by the handle of a worker.
#![tactic(auto, using(crate::proofs::Owners::asked_of_owner))]

ghost use Rattle.std.specs.Prelude.{◌≡◌};
ghost use Rattle.nm_edge.specs.declared.edge.Side.TheVariants.{Left, Right};
ghost use Rattle.nm_set_c.specs.Handles.{held_by};
ghost use Rattle.nm_set_c.specs.Outcomes.{IsCodeOf};
ghost use Rattle.nm_set_c.specs.Owners.{HasDone, OfWorker};
ghost use Rattle.nm_set_c.specs.Scanning.{TellsScan, counted, next_written, of_next, of_scan, place_written};

use crate::claiming::by_handle;
use crate::handle::Handle;
use crate::outcome::Outcome;
use nm_edge::Key;
use nm_set::{CallFault, Contents, Member, Scanned};
use std::alloc::Global;

/// Writes the keys of the set from `from` on that are below `below` into `keys`, in ascending order,
/// and how many there are: `Member::scan` of `nm_set`. Returns `Yes` and writes the key at which to
/// continue, or `No` if the range is finished. Errors: `Key`, `Busy`, `Pending`, `Pinned`,
/// `NoMemory`, `Closed`, `InUse`, `Kind`; then nothing is written.
#[unsafe(no_mangle)]
pub extern "C" fn nm_worker_scan(
    alloc: Global,
    worker: &mut Handle,
    from: u64,
    below: u64,
    keys: &mut [u64],
    count: &mut u64,
    next: &mut u64,
    tries: u32,
) -> i32
    ensures { IsCodeOf (OfWorker (TellsScan Right tries from below keys.old keys.new count.old count.new next.old next.new)
        ((keys.new ≡ keys.old) × (count.new ≡ count.old) × (next.new ≡ next.old))
        (held_by worker.old) (held_by worker.new)) result }
{
    by_handle!(alloc, worker, Worker(member) => scan(member, from, below, keys, count, next, tries))
}

pub(crate) fn scan<V: Contents>(
    member: &mut Member<V>,
    from: u64,
    below: u64,
    keys: &mut [u64],
    count: &mut u64,
    next: &mut u64,
    tries: u32,
) -> Outcome
    ensures { HasDone (TellsScan Right tries from below keys.old keys.new count.old count.new next.old next.new)
        member.old member.new result }
{
    let Some(from) = Key::new(from) else {
        return Outcome::Key;
    };
    let answer = member.scan(from, below, keys, tries);
    tell_scanned(answer, count, next)
}

/// Writes the keys of the set from `from` down that are not below `least` into `keys`, in descending
/// order, and returns and writes as `nm_worker_scan` does: `Member::scan_back` of `nm_set`.
#[unsafe(no_mangle)]
pub extern "C" fn nm_worker_scan_back(
    alloc: Global,
    worker: &mut Handle,
    from: u64,
    least: u64,
    keys: &mut [u64],
    count: &mut u64,
    next: &mut u64,
    tries: u32,
) -> i32
    ensures { IsCodeOf (OfWorker (TellsScan Left tries from least keys.old keys.new count.old count.new next.old next.new)
        ((keys.new ≡ keys.old) × (count.new ≡ count.old) × (next.new ≡ next.old))
        (held_by worker.old) (held_by worker.new)) result }
{
    by_handle!(alloc, worker, Worker(member) => scan_back(member, from, least, keys, count, next, tries))
}

pub(crate) fn scan_back<V: Contents>(
    member: &mut Member<V>,
    from: u64,
    least: u64,
    keys: &mut [u64],
    count: &mut u64,
    next: &mut u64,
    tries: u32,
) -> Outcome
    ensures { HasDone (TellsScan Left tries from least keys.old keys.new count.old count.new next.old next.new)
        member.old member.new result }
{
    let Some(from) = Key::new(from) else {
        return Outcome::Key;
    };
    let answer = member.scan_back(from, least, keys, tries);
    tell_scanned(answer, count, next)
}

/// Writes how many keys a scan has written, and the key at which to continue, if there is one, and
/// returns the outcome.
pub(crate) fn tell_scanned(
    answer: Result<Scanned, CallFault>,
    count: &mut u64,
    next: &mut u64,
) -> Outcome
    ensures told { result ≡ of_scan answer }
    ensures counted { count.new ≡ counted answer count.old }
    ensures written { next.new ≡ next_written answer next.old }
{
    match answer {
        Ok(scanned) => {
            *count = scanned.count as u64;
            tell_next(scanned.next, next)
        }
        Err(fault) => Outcome::of_fault(fault),
    }
}

/// Writes the key at which to continue, if there is one, and returns whether there is.
fn tell_next(key: Option<Key>, next: &mut u64) -> Outcome
    ensures told { result ≡ of_next key }
    ensures written { next.new ≡ place_written key next.old }
{
    match key {
        Some(key) => {
            *next = key.get();
            Outcome::Yes
        }
        None => Outcome::No,
    }
}
