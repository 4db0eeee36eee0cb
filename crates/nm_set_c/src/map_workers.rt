//! Scans of the keys of a map, and what its worker reports of itself, by the handle of the worker.
#![tactic(auto, using(crate::proofs::Owners::asked_of_owner))]

ghost use Rattle.std.specs.Prelude.{◌≡◌};
ghost use Rattle.nm_edge.specs.declared.edge.Side.TheVariants.{Left, Right};
ghost use Rattle.nm_tree.specs.Workers.{waiting_in};
ghost use Rattle.nm_set_c.specs.Handles.{held_by};
ghost use Rattle.nm_set_c.specs.Outcomes.{IsCodeOf};
ghost use Rattle.nm_set_c.specs.Owners.{OfMapWorker};
ghost use Rattle.nm_set_c.specs.Scanning.{TellsScan};
ghost use Rattle.nm_set_c.specs.Workers.{TellsNumber, TellsOption, pending_key};

use crate::claiming::by_handle;
use crate::handle::Handle;
use crate::outcome::Outcome;
use crate::scanning::{scan, scan_back};
use crate::workers::pending;
use std::alloc::Global;

/// Writes the keys of the map from `from` on that are below `below` into `keys`, in ascending order,
/// and how many there are: `MapMember::scan` of `nm_set`. Returns, writes and errors: as of
/// `nm_worker_scan`.
#[unsafe(no_mangle)]
pub extern "C" fn nm_map_scan(
    alloc: Global,
    worker: &mut Handle,
    from: u64,
    below: u64,
    keys: &mut [u64],
    count: &mut u64,
    next: &mut u64,
    tries: u32,
) -> i32
    ensures { IsCodeOf (OfMapWorker (TellsScan Right tries from below keys.old keys.new count.old count.new next.old next.new)
        ((keys.new ≡ keys.old) × (count.new ≡ count.old) × (next.new ≡ next.old))
        (held_by worker.old) (held_by worker.new)) result }
{
    by_handle!(alloc, worker, MapWorker(member) => scan(member, from, below, keys, count, next, tries))
}

/// Writes the keys of the map from `from` down that are not below `least` into `keys`, in descending
/// order, and returns and writes as `nm_map_scan` does: `MapMember::scan_back` of `nm_set`.
#[unsafe(no_mangle)]
pub extern "C" fn nm_map_scan_back(
    alloc: Global,
    worker: &mut Handle,
    from: u64,
    least: u64,
    keys: &mut [u64],
    count: &mut u64,
    next: &mut u64,
    tries: u32,
) -> i32
    ensures { IsCodeOf (OfMapWorker (TellsScan Left tries from least keys.old keys.new count.old count.new next.old next.new)
        ((keys.new ≡ keys.old) × (count.new ≡ count.old) × (next.new ≡ next.old))
        (held_by worker.old) (held_by worker.new)) result }
{
    by_handle!(alloc, worker, MapWorker(member) => scan_back(member, from, least, keys, count, next, tries))
}

/// Writes the worker's number. Returns `Done`. Errors: `Closed`, `InUse`, `Kind`.
#[unsafe(no_mangle)]
pub extern "C" fn nm_map_number(alloc: Global, worker: &mut Handle, number: &mut u32) -> i32
    ensures { IsCodeOf (OfMapWorker (λ m. TellsNumber m.worker.pass.view.number number.new m)
        (number.new ≡ number.old) (held_by worker.old) (held_by worker.new)) result }
{
    by_handle!(alloc, worker, MapWorker(member) => {
        *number = member.number();
        Outcome::Done
    })
}

/// Writes how many nodes wait in the queues that the worker holds. Returns `Done`. Errors:
/// `Closed`, `InUse`, `Kind`.
#[unsafe(no_mangle)]
pub extern "C" fn nm_map_queue_len(alloc: Global, worker: &mut Handle, nodes: &mut u64) -> i32
    ensures { IsCodeOf (OfMapWorker (λ m. TellsNumber (waiting_in m.worker.queues) nodes.new m)
        (nodes.new ≡ nodes.old) (held_by worker.old) (held_by worker.new)) result }
{
    by_handle!(alloc, worker, MapWorker(member) => {
        *nodes = member.queue_len();
        Outcome::Done
    })
}

/// Finds the key of a remove that has flagged its leaf and is not finished. Returns `Yes` and
/// writes the key, or `No`. Errors: `Closed`, `InUse`, `Kind`.
#[unsafe(no_mangle)]
pub extern "C" fn nm_map_pending(alloc: Global, worker: &mut Handle, key: &mut u64) -> i32
    ensures { IsCodeOf (OfMapWorker (λ m. TellsOption (pending_key m.worker) key.old key.new m)
        (key.new ≡ key.old) (held_by worker.old) (held_by worker.new)) result }
{
    by_handle!(alloc, worker, MapWorker(member) => pending(member, key))
}
