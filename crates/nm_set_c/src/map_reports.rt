//! The values that were left in a map when it was closed, by the handle of its report.
#![tactic(auto, using(crate::proofs::Owners::told_of_report))]

ghost use Rattle.std.specs.Prelude.{◌≡◌, MatchOption};
ghost use Rattle.nm_tree.specs.MapReports.{value_at_slot};
ghost use Rattle.nm_set_c.specs.Handles.{held_by};
ghost use Rattle.nm_set_c.specs.MapReports.{LosesAll, LosesLeaf, TakesReturned, TellsValue, slot_written};
ghost use Rattle.nm_set_c.specs.Outcomes.{IsCodeOf};
ghost use Rattle.nm_set_c.specs.Owners.{OfReport};

use crate::claiming::by_handle;
use crate::handle::Handle;
use crate::outcome::Outcome;
use crate::remains::Remains;
use nm_set::{Entry, HeldQueue, MapValues};
use std::alloc::Global;

/// Writes the value under the key at an index of a map's report, from 0 on: `MapValues::of_key` of
/// `nm_set`. Returns `Done`. Errors: `Number`: there are not that many keys. `Kind`: also if the
/// report is that of a set. `Closed`, `InUse`.
#[unsafe(no_mangle)]
pub extern "C" fn nm_map_report_value(
    alloc: Global,
    report: &mut Handle,
    index: u64,
    value: &mut u64,
) -> i32
    ensures { IsCodeOf (OfReport (TellsValue index value.old value.new) (value.new ≡ value.old)
        (held_by report.old) (held_by report.new)) result }
{
    by_handle!(alloc, report, Ended(ended) => value_at(ended, index, value))
}

fn value_at(remains: &mut Remains, index: u64, value: &mut u64) -> Outcome
    ensures { TellsValue index value.old value.new remains.old remains.new result }
{
    let Some(values) = &remains.values else {
        return Outcome::Kind;
    };
    match values.of_key(index as usize) {
        Some(found) => {
            *value = found;
            Outcome::Done
        }
        None => Outcome::Number,
    }
}

/// Takes the oldest leaf out of a worker's queue in a map's report, and all internal nodes before it.
/// Returns `Yes` and writes the value of the leaf: `MapValues::of_slot` of `nm_set`. Returns `No` if
/// no leaf waits any more, and takes out what is left. Errors: `Number`: there is no such worker.
/// `Kind`: also if the report is that of a set. `Closed`, `InUse`.
#[unsafe(no_mangle)]
pub extern "C" fn nm_map_report_returned(
    alloc: Global,
    report: &mut Handle,
    worker: u32,
    value: &mut u64,
) -> i32
    ensures { IsCodeOf (OfReport (TakesReturned worker value.old value.new) (value.new ≡ value.old)
        (held_by report.old) (held_by report.new)) result }
{
    by_handle!(alloc, report, Ended(ended) => returned(ended, worker, value))
}

fn returned(remains: &mut Remains, worker: u32, value: &mut u64) -> Outcome
    ensures { TakesReturned worker value.old value.new remains.old remains.new result }
{
    let Some(values) = &remains.values else {
        return Outcome::Kind;
    };
    let Some(held) = remains.report.queues.get_mut(worker as usize) else {
        return Outcome::Number;
    };
    let Some(leaf) = pop_leaf(values, held) else {
        return Outcome::No;
    };
    write_value(values, leaf.node.slot, value);
    Outcome::Yes
}

/// Takes the oldest leaf out of a queue, and all internal nodes before it.
fn pop_leaf(values: &MapValues, held: &mut HeldQueue) -> Option<Entry>
    ensures { MatchOption result (LosesAll values.now held.old held.new)
        (LosesLeaf values.now held.old held.new) }
{
    while let Some(entry) = held.queue.pop() {
        if values.is_leaf(entry.node.slot) {
            return Some(entry);
        }
    }
    None
}

/// Writes the value of a slot, if there is such a slot.
fn write_value(values: &MapValues, slot: u32, value: &mut u64)
    ensures { value.new ≡ slot_written (value_at_slot values.now.slots slot) value.old }
{
    if let Some(found) = values.of_slot(slot) {
        *value = found;
    }
}
