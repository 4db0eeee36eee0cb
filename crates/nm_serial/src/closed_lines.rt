//! The last lines of the output: the nodes that each worker cut off, the keys of the set, and the
//! numbers of slots in each place.
ghost use Rattle.std.specs.Prelude.{◌≡◌, ◌++◌, OnOk};
ghost use Rattle.nm_serial.specs.ClosedLines as spec;

use nm_epoch::Entry;
use nm_files::write::last_lines::put_entry;
use nm_files::write::reply::put_number;
use nm_limbo::BlockQueue;
use nm_model::Queued;
use std::alloc::AllocError;

/// Appends the entries of a queue, each after a space, and takes them out of it.
fn put_spaced_entries(out: &mut Vec<u8>, queue: &mut BlockQueue<Entry>) -> Result<(), AllocError>
    ensures { OnOk result (out.new.items ≡ out.old.items ++ spec.spaced_waiting queue.old.items) }
{
    while let Some(entry) = queue.pop() {
        let queued = Queued {
            node: entry.node,
            label: Some(entry.label),
        };
        put_entry(out, queued)?;
    }
    Ok(())
}

/// Appends each entry of a queue after a space, or a dash if there is none.
fn put_queue(out: &mut Vec<u8>, queue: &mut BlockQueue<Entry>) -> Result<(), AllocError>
    ensures { OnOk result (out.new.items ≡ out.old.items ++ spec.waiting_text queue.old.items) }
{
    if queue.is_empty() {
        return out.extend_from_slice(b" -");
    }
    put_spaced_entries(out, queue)
}

/// Appends the line of a worker: how many nodes its splices cut off, how many of them were freed,
/// and those that wait. It takes the waiting nodes out of the queue.
#[tactic(auto, unfolding(crate::specs::ClosedLines::closed_worker_line))]
pub fn put_worker(
    out: &mut Vec<u8>,
    worker: u32,
    retired: u64,
    freed: u64,
    queue: &mut BlockQueue<Entry>,
) -> Result<(), AllocError>
    ensures { OnOk result (out.new.items
        ≡ out.old.items ++ spec.closed_worker_line worker retired freed queue.old.items) }
{
    put_number(out, b"worker ", u64::from(worker))?;
    put_number(out, b" retired ", retired)?;
    put_number(out, b" freed ", freed)?;
    out.extend_from_slice(b" queue")?;
    put_queue(out, queue)?;
    out.extend_from_slice(b"\n")
}

/// Appends the line with how many slots above 5 are in the pool, reached from the root, and in
/// queues.
#[tactic(auto, unfolding(crate::specs::ClosedLines::closed_places_line))]
pub fn put_closed_places(
    out: &mut Vec<u8>,
    pool: u32,
    reached: u32,
    queued: u64,
) -> Result<(), AllocError>
    ensures { OnOk result (out.new.items
        ≡ out.old.items ++ spec.closed_places_line pool reached queued) }
{
    put_number(out, b"places pool ", u64::from(pool))?;
    put_number(out, b" reached ", u64::from(reached))?;
    put_number(out, b" queued ", queued)?;
    out.extend_from_slice(b"\n")
}
