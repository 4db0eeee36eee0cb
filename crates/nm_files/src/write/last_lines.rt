//! Writes the summary of a last state as text: a worker's ledger, the epoch, the numbers of slots
//! by their place, and the keys of the set.
ghost use Rattle.std.specs.Prelude.{◌≡◌, ◌++◌, codes, Some, OnOk};
ghost use Rattle.nm_files.specs.LastLines as spec;

use crate::write::reply::{put_node, put_number, put_spaced_nodes};
use nm_edge::{Key, NodeId};
use nm_model::{Ledger, Places, Queued};
use std::alloc::AllocError;

/// Appends each node after a space, or a dash if there is none.
fn put_nodes(out: &mut Vec<u8>, nodes: &[NodeId]) -> Result<(), AllocError>
    ensures { OnOk result (out.new.items ≡ out.old.items ++ spec.nodes_text nodes.now) }
{
    if nodes.is_empty() {
        return out.extend_from_slice(b" -");
    }
    put_spaced_nodes(out, nodes)
}

/// Appends a label, or a dash if there is none yet.
fn put_label(out: &mut Vec<u8>, label: Option<u64>) -> Result<(), AllocError>
    ensures { OnOk result (out.new.items ≡ out.old.items ++ (codes "@" ++ spec.label_text label)) }
{
    match label {
        Some(epoch) => put_number(out, b"@", epoch),
        None => out.extend_from_slice(b"@-"),
    }
}

/// Appends a space, and an entry of a queue: its node, an at sign and its label.
pub fn put_entry(out: &mut Vec<u8>, entry: Queued) -> Result<(), AllocError>
    ensures { OnOk result (out.new.items ≡ out.old.items ++ (codes " " ++ spec.entry_text entry)) }
{
    put_node(out, b" ", entry.node)?;
    put_label(out, entry.label)
}

/// Appends the entries, each after a space.
fn put_spaced_entries(out: &mut Vec<u8>, entries: &[Queued]) -> Result<(), AllocError>
    ensures { OnOk result (out.new.items ≡ out.old.items ++ spec.spaced_entries entries.now) }
{
    for entry in entries {
        put_entry(out, *entry)?;
    }
    Ok(())
}

/// Appends each entry of a queue after a space, or a dash if there is none.
fn put_queue(out: &mut Vec<u8>, entries: &[Queued]) -> Result<(), AllocError>
    ensures { OnOk result (out.new.items ≡ out.old.items ++ spec.queue_text entries.now) }
{
    if entries.is_empty() {
        return out.extend_from_slice(b" -");
    }
    put_spaced_entries(out, entries)
}

/// Appends a line of the nodes that a worker's splices cut off, or of those that were freed.
fn put_nodes_line(
    out: &mut Vec<u8>,
    worker: u32,
    what: &[u8],
    nodes: &[NodeId],
) -> Result<(), AllocError>
    ensures { OnOk result (out.new.items
        ≡ out.old.items ++ spec.worker_line worker what.now (spec.nodes_text nodes.now)) }
{
    put_number(out, b"worker ", u64::from(worker))?;
    out.extend_from_slice(what)?;
    put_nodes(out, nodes)?;
    out.extend_from_slice(b"\n")
}

/// Appends the line of the queue of the nodes that a worker's splices cut off.
fn put_queue_line(out: &mut Vec<u8>, worker: u32, entries: &[Queued]) -> Result<(), AllocError>
    ensures { OnOk result (out.new.items
        ≡ out.old.items ++ spec.worker_line worker (codes " queue") (spec.queue_text entries.now)) }
{
    put_number(out, b"worker ", u64::from(worker))?;
    out.extend_from_slice(b" queue")?;
    put_queue(out, entries)?;
    out.extend_from_slice(b"\n")
}

/// Appends the three lines of a worker's ledger.
pub fn put_ledger(out: &mut Vec<u8>, worker: u32, ledger: &Ledger) -> Result<(), AllocError>
    ensures { OnOk result (out.new.items
        ≡ out.old.items ++ spec.ledger_lines worker (Some ledger.now)) }
{
    put_nodes_line(out, worker, b" retired", ledger.retired.as_slice())?;
    put_nodes_line(out, worker, b" freed", ledger.freed.as_slice())?;
    put_queue_line(out, worker, ledger.queue.as_slice())
}

/// Appends the line of the epoch.
pub fn put_epoch(out: &mut Vec<u8>, epoch: u64) -> Result<(), AllocError>
    ensures { OnOk result (out.new.items ≡ out.old.items ++ spec.epoch_line epoch) }
{
    put_number(out, b"epoch ", epoch)?;
    out.extend_from_slice(b"\n")
}

/// Appends the line of the numbers of slots in the pool, private, reached and queued.
#[tactic(auto, unfolding(crate::specs::LastLines::places_line))]
pub fn put_places(out: &mut Vec<u8>, places: Places) -> Result<(), AllocError>
    ensures { OnOk result (out.new.items ≡ out.old.items ++ spec.places_line places) }
{
    put_number(out, b"places pool ", u64::from(places.pool))?;
    put_number(out, b" private ", u64::from(places.private))?;
    put_number(out, b" reached ", u64::from(places.reached))?;
    put_number(out, b" queued ", u64::from(places.queued))?;
    out.extend_from_slice(b"\n")
}

/// Appends the keys, each after a space.
fn put_spaced_keys(out: &mut Vec<u8>, keys: &[Key]) -> Result<(), AllocError>
    ensures { OnOk result (out.new.items ≡ out.old.items ++ spec.spaced_numbers keys.now) }
{
    for key in keys {
        put_number(out, b" ", key.get())?;
    }
    Ok(())
}

/// Appends each key after a space, or a dash if there is none.
fn put_keys(out: &mut Vec<u8>, keys: &[Key]) -> Result<(), AllocError>
    ensures { OnOk result (out.new.items ≡ out.old.items ++ spec.numbers_text keys.now) }
{
    if keys.is_empty() {
        return out.extend_from_slice(b" -");
    }
    put_spaced_keys(out, keys)
}

/// Appends the line of the keys of the set, from left to right.
pub fn put_keys_line(out: &mut Vec<u8>, keys: &[Key]) -> Result<(), AllocError>
    ensures { OnOk result (out.new.items ≡ out.old.items ++ spec.keys_line keys.now) }
{
    out.extend_from_slice(b"keys")?;
    put_keys(out, keys)?;
    out.extend_from_slice(b"\n")
}
