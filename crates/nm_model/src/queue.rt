//! The queue of retired nodes of one origin.
ghost use Rattle.std.specs.Prelude.{◌≡◌, ◌++◌, ◌≤◌, [], length, map, take, drop, IfOk, OnOk, OnErr};
ghost use Rattle.nm_model.specs.Queues.{front_at, entry_at, unlabelled, with_label};

use crate::indices::{Indices, index_from};
use crate::ledger::Queued;
use crate::slot_map::SlotMap;
use nm_edge::NodeId;
use std::alloc::{AllocError, Global};
use std::marker::Model;

/// Retired nodes that wait, in the order in which they were cut.
#[derive(Debug, Drop)]
pub struct Queue {
    entries: Vec<Queued>,
    // the number of entries that have left at the front
    departed: usize,
    // the number of first entries that are known to have a label
    labelled: usize,
    // the indices of the entries of each slot, including those that have left
    indices: SlotMap<Indices>,
}

impl Model for Queue {
    ghost use Rattle.std.specs.Prelude.{List, drop};
    ghost use Rattle.nm_model.specs.declared.ledger.Queued.{Queued};
    ghost use Rattle.nm_model.specs.Indexing.{IsIndexedQueue};

    ghost Value = { List Queued };

    ghost view = { λ q. drop q.departed q.entries.items };

    ghost invariant = { λ q. IsIndexedQueue q.entries.items q.departed q.labelled q.indices };
}

impl Queue {
    /// Returns the empty queue. Takes no memory.
    pub fn new(alloc: Global) -> Queue
        ensures { result ≡ [] }
    {
        Queue {
            entries: Vec::new(alloc),
            departed: 0,
            labelled: 0,
            indices: SlotMap::new(alloc),
        }
    }

    /// Returns the entries in order, the front first.
    pub fn as_slice(&self) -> &[Queued]
        ensures { result.now ≡ self.now }
    {
        &self.entries[self.departed..]
    }

    // Returns the front, if it is of this slot.
    pub fn front(&self, slot: u32) -> Option<Queued>
        ensures { result ≡ front_at self.now slot }
    {
        match self.as_slice() {
            [front, ..] if front.node.slot == slot => Some(*front),
            _ => None,
        }
    }

    // Returns the first entry of a slot. Searches through the queue only if the slot may be in it
    // twice. No run leads to that: it can only seem so after a node could not be recorded for lack
    // of memory.
    pub fn find(&self, slot: u32) -> Option<Queued>
        ensures { result ≡ entry_at self.now slot }
    {
        let indices = self.indices.get(slot)?;
        if indices.has_others_from(self.departed) {
            return self.first(slot);
        }
        if indices.last < self.departed {
            return None;
        }
        entry_at(&self.entries, indices.last, slot)
    }

    // Returns the first entry of a slot, by a search through the queue.
    fn first(&self, slot: u32) -> Option<Queued>
        ensures { result ≡ entry_at self.now slot }
    {
        for entry in self.as_slice() {
            if entry.node.slot == slot {
                return Some(*entry);
            }
        }
        None
    }

    // Removes the front.
    pub fn pop(&mut self)
        ensures { self.new ≡ drop 1 self.old }
    {
        if self.departed < self.entries.len() {
            self.departed += 1;
        }
    }

    // Appends nodes, without a label.
    pub fn append(&mut self, nodes: &[NodeId]) -> Result<(), AllocError>
        ensures ok { OnOk result (self.new ≡ self.old ++ map unlabelled nodes.now) }
        ensures err { OnErr result (self.new ≡ self.old) }
    {
        let before = self.entries.len();
        append_unlabelled(&mut self.entries, nodes)?;
        if index_from(&mut self.indices, self.entries.as_slice(), before).is_err() {
            self.entries.truncate(before);
            return Err(AllocError);
        }
        Ok(())
    }

    // Gives each entry without a label this one.
    pub fn label(&mut self, label: u64)
        ensures { self.new ≡ map (with_label label) self.old }
    {
        label_from(&mut self.entries, self.labelled, label);
        self.labelled = self.entries.len();
    }

    pub fn clone_in(&self, alloc: Global) -> Result<Queue, AllocError>
        ensures { IfOk result (λ queue. queue ≡ self.now) }
    {
        let entries = Vec::from_slice(alloc, self.as_slice())?;
        let mut indices = SlotMap::new(alloc);
        index_from(&mut indices, entries.as_slice(), 0)?;
        Ok(Queue {
            entries,
            departed: 0,
            labelled: 0,
            indices,
        })
    }
}

// Returns the entry at an index, if it is of this slot.
fn entry_at(entries: &[Queued], index: usize, slot: u32) -> Option<Queued>
    ensures { result ≡ front_at (drop index entries.now) slot }
{
    match entries.get(index) {
        Some(entry) if entry.node.slot == slot => Some(*entry),
        _ => None,
    }
}

fn append_unlabelled(entries: &mut Vec<Queued>, nodes: &[NodeId]) -> Result<(), AllocError>
    ensures ok { OnOk result (entries.new.items ≡ entries.old.items ++ map unlabelled nodes.now) }
    ensures err { OnErr result (entries.new.items ≡ entries.old.items) }
{
    entries.reserve(nodes.len())?;
    for node in nodes {
        entries
            .push(Queued {
                node: *node,
                label: None,
            })
            .unwrap();
    }
    Ok(())
}

// Labels the entries from an index on. Those before it have a label already.
fn label_from(entries: &mut Vec<Queued>, from: usize, label: u64)
    requires fits { from ≤ length entries.old.items }
    requires stays { map (with_label label) (take from entries.old.items)
        ≡ take from entries.old.items }
    ensures { entries.new.items ≡ map (with_label label) entries.old.items }
{
    for index in from..entries.len() {
        entries[index] = entries[index].with_label(label);
    }
}
