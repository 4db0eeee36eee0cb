//! Calls on the report of a set or a map that was closed, by its handle.
#![tactic(auto, using(crate::proofs::Owners::told_of_report))]

ghost use Rattle.std.specs.Prelude.{◌≡◌};
ghost use Rattle.nm_set_c.specs.Handles.{held_by};
ghost use Rattle.nm_set_c.specs.Outcomes.{IsCodeOf};
ghost use Rattle.nm_set_c.specs.Owners.{OfReport};
ghost use Rattle.nm_set_c.specs.Reports.{TellsSlots, TellsKeys, TellsKey, TellsQueue, TakesOldest};

use crate::claiming::by_handle;
use crate::handle::Handle;
use crate::outcome::Outcome;
use crate::remains::Remains;
use std::alloc::Global;

/// A node that waited in a worker's queue when the set or the map was closed.
#[repr(C)]
#[derive(Clone, Copy, Debug, Default, PartialEq, Eq)]
pub struct Waiting {
    /// The slot of the node.
    pub slot: u64,
    /// The node's generation: how often the slot had been put to use when the node was made.
    pub generation: u64,
    /// The epoch that the worker read after it cut the node off.
    pub label: u64,
}

/// Writes how many slots are free, and how many are reached from the root, without the five fixed
/// ones. Returns `Done`. Errors: `Closed`, `InUse`, `Kind`.
#[unsafe(no_mangle)]
pub extern "C" fn nm_report_slots(
    alloc: Global,
    report: &mut Handle,
    free: &mut u32,
    reached: &mut u32,
) -> i32
    ensures { IsCodeOf (OfReport (TellsSlots free.new reached.new)
        ((free.new ≡ free.old) × (reached.new ≡ reached.old)) (held_by report.old)
        (held_by report.new)) result }
{
    by_handle!(alloc, report, Ended(ended) => {
        *free = ended.report.free;
        *reached = ended.report.reached;
        Outcome::Done
    })
}

/// Writes how many keys the set had. Returns `Done`. Errors: `Closed`, `InUse`, `Kind`.
#[unsafe(no_mangle)]
pub extern "C" fn nm_report_keys(alloc: Global, report: &mut Handle, count: &mut u64) -> i32
    ensures { IsCodeOf (OfReport (TellsKeys count.new) (count.new ≡ count.old) (held_by report.old)
        (held_by report.new)) result }
{
    by_handle!(alloc, report, Ended(ended) => {
        *count = ended.report.keys.len() as u64;
        Outcome::Done
    })
}

/// Writes the key at an index, from 0 on; the keys ascend. Returns `Done`. Errors: `Number`: there
/// are not that many keys. `Closed`, `InUse`, `Kind`.
#[unsafe(no_mangle)]
pub extern "C" fn nm_report_key(
    alloc: Global,
    report: &mut Handle,
    index: u64,
    key: &mut u64,
) -> i32
    ensures { IsCodeOf (OfReport (TellsKey index key.old key.new) (key.new ≡ key.old)
        (held_by report.old) (held_by report.new)) result }
{
    by_handle!(alloc, report, Ended(ended) => key_at(ended, index, key))
}

fn key_at(remains: &mut Remains, index: u64, key: &mut u64) -> Outcome
    ensures { TellsKey index key.old key.new remains.old remains.new result }
{
    match remains.report.keys.get(index as usize) {
        Some(found) => {
            *key = found.get();
            Outcome::Done
        }
        None => Outcome::Number,
    }
}

/// Writes how many of the nodes wait that a worker's splices cut off. Returns `Done`. Errors:
/// `Number`: there is no such worker. `Closed`, `InUse`, `Kind`.
#[unsafe(no_mangle)]
pub extern "C" fn nm_report_queue(
    alloc: Global,
    report: &mut Handle,
    worker: u32,
    nodes: &mut u64,
) -> i32
    ensures { IsCodeOf (OfReport (TellsQueue worker nodes.old nodes.new) (nodes.new ≡ nodes.old)
        (held_by report.old) (held_by report.new)) result }
{
    by_handle!(alloc, report, Ended(ended) => queue_of(ended, worker, nodes))
}

fn queue_of(remains: &mut Remains, worker: u32, nodes: &mut u64) -> Outcome
    ensures { TellsQueue worker nodes.old nodes.new remains.old remains.new result }
{
    match remains.report.queues.get(worker as usize) {
        Some(held) => {
            *nodes = u64::from(held.queue.len());
            Outcome::Done
        }
        None => Outcome::Number,
    }
}

/// Takes the oldest node out of a worker's queue. Returns `Yes` and writes the node, or `No` if
/// none waits any more. Errors: `Number`: there is no such worker. `Closed`, `InUse`, `Kind`.
#[unsafe(no_mangle)]
pub extern "C" fn nm_report_waiting(
    alloc: Global,
    report: &mut Handle,
    worker: u32,
    waiting: &mut Waiting,
) -> i32
    ensures { IsCodeOf (OfReport (TakesOldest worker waiting.old waiting.new)
        (waiting.new ≡ waiting.old) (held_by report.old) (held_by report.new)) result }
{
    by_handle!(alloc, report, Ended(ended) => oldest(ended, worker, waiting))
}

fn oldest(remains: &mut Remains, worker: u32, waiting: &mut Waiting) -> Outcome
    ensures { TakesOldest worker waiting.old waiting.new remains.old remains.new result }
{
    let Some(held) = remains.report.queues.get_mut(worker as usize) else {
        return Outcome::Number;
    };
    let Some(entry) = held.queue.pop() else {
        return Outcome::No;
    };
    *waiting = Waiting {
        slot: u64::from(entry.node.slot),
        generation: entry.node.birth,
        label: entry.label,
    };
    Outcome::Yes
}
