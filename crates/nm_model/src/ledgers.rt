//! The ledgers that one worker holds.
ghost use Rattle.std.specs.Prelude.{◌≡◌, ◌<◌, ◌^◌, length, option_map, is_some, position, replicate, slice_set, Some, None, IfOk, OnOk, OnErr};
ghost use Rattle.std.specs.Option.{option_copied};
ghost use Rattle.nm_model.specs.Maps.{or_else};
ghost use Rattle.nm_model.specs.Reports.{in_queues};
ghost use Rattle.nm_model.specs.Ledgers.{fresh_ledger, held, queue_of, labelled, with_freed, free, taken_over, front_at, entry_at, front_of, first_of, queued_entry, retire, label as with_labels};

use crate::ledger::{Ledger, Queued};
use nm_edge::NodeId;
use std::alloc::{AllocError, Global};
use std::marker::Model;

/// The ledgers that a worker holds, by origin: the worker whose splices cut the nodes.
#[derive(Debug, Drop)]
pub struct Ledgers {
    by_origin: Vec<Option<Ledger>>,
}

impl Model for Ledgers {
    ghost use Rattle.std.specs.Prelude.{List, Option};
    ghost use Rattle.nm_model.specs.declared.ledger.Ledger.{Ledger};

    ghost Value = { List (Option Ledger) };

    ghost view = { λ l. l.by_origin.items };
}

impl Ledgers {
    /// Returns a list with a place for each of `origins` origins, which holds no ledger.
    pub fn none(alloc: Global, origins: usize) -> Result<Ledgers, AllocError>
        ensures { IfOk result (λ ledgers. ledgers ≡ replicate origins None) }
    {
        let mut by_origin = Vec::with_capacity(alloc, origins)?;
        for _ in 0..origins {
            by_origin.push(None)?;
        }
        Ok(Ledgers { by_origin })
    }

    /// Returns the ledgers of a new worker: a list with `origins` places, which holds an empty
    /// ledger for `origin` alone.
    pub fn own(alloc: Global, origins: usize, origin: usize) -> Result<Ledgers, AllocError>
        requires { origin < origins }
        ensures { IfOk result (λ ledgers. ledgers
            ≡ slice_set (replicate origins None) origin (Some fresh_ledger)) }
    {
        let mut ledgers = Ledgers::none(alloc, origins)?;
        ledgers.by_origin[origin] = Some(Ledger::new(alloc));
        Ok(ledgers)
    }

    /// Returns the ledger of an origin, if it is held.
    pub fn get(&self, origin: u32) -> Option<&Ledger>
        ensures { option_copied result ≡ held self.now origin }
    {
        self.by_origin.get(origin as usize)?.as_ref()
    }

    /// Returns the first front of a held queue that is of this slot.
    pub fn front(&self, slot: u32) -> Option<Queued>
        ensures { result ≡ front_of self.now slot }
    {
        for ledger in &self.by_origin {
            if let Some(front) = front_in(ledger, slot) {
                return Some(front);
            }
        }
        None
    }

    /// Returns the first entry of a slot in a held queue.
    fn first(&self, slot: u32) -> Option<Queued>
        ensures { result ≡ first_of self.now slot }
    {
        for ledger in &self.by_origin {
            if let Some(entry) = entry_in(ledger, slot) {
                return Some(entry);
            }
        }
        None
    }

    /// Returns the entry of a slot: a front if there is one, else the first entry.
    pub fn find(&self, slot: u32) -> Option<Queued>
        ensures { result ≡ queued_entry self.now slot }
    {
        if let Some(front) = self.front(slot) {
            return Some(front);
        }
        self.first(slot)
    }

    /// Records that nodes of this origin were cut. They wait for their label.
    ///
    /// Errors: out of memory; the ledgers are unchanged.
    pub fn retire(&mut self, origin: usize, nodes: &[NodeId]) -> Result<(), AllocError>
        requires { origin < length self.old }
        ensures ok { OnOk result (self.new ≡ retire self.old origin nodes.now) }
        ensures err { OnErr result (self.new ≡ self.old) }
    {
        let Some(ledger) = &mut self.by_origin[origin] else {
            return Ok(());
        };
        ledger.retire(nodes)
    }

    /// Returns the number of entries that wait in the held queues.
    pub fn waiting(&self) -> usize
        requires { in_queues self.now < 2 ^ 32 }
        ensures { result ≡ in_queues self.now }
    {
        let mut entries = 0;
        for ledger in &self.by_origin {
            entries += waiting_in(ledger);
        }
        entries
    }

    // Returns the first origin whose queue has this slot at its front.
    fn origin_of_front(&self, slot: u32) -> Option<usize>
        ensures { result ≡ position (λ l. is_some (front_at (queue_of l) slot)) self.now }
    {
        self.by_origin
            .iter()
            .position(|ledger| front_in(ledger, slot).is_some())
    }

    /// Records that the node at the front of a queue was freed.
    ///
    /// Errors: out of memory; the ledgers are unchanged.
    pub fn free(&mut self, node: NodeId) -> Result<(), AllocError>
        ensures ok { OnOk result (self.new ≡ free self.old node) }
        ensures err { OnErr result (self.new ≡ self.old) }
    {
        let Some(origin) = self.origin_of_front(node.slot) else {
            return Ok(());
        };
        free_in(&mut self.by_origin[origin], node)
    }

    /// Takes over the ledgers that another worker held, each under its origin.
    pub fn take_over(&mut self, passed: Ledgers)
        requires { length passed ≡ length self.old }
        ensures { self.new ≡ taken_over self.old passed }
    {
        let mut passed = passed.by_origin;
        take_over_all(&mut self.by_origin, &mut passed);
    }

    /// Returns a copy.
    pub fn clone_in(&self, alloc: Global) -> Result<Ledgers, AllocError>
        ensures { IfOk result (λ ledgers. ledgers ≡ self.now) }
    {
        let mut by_origin = Vec::with_capacity(alloc, self.by_origin.len())?;
        for ledger in &self.by_origin {
            by_origin.push(clone_of(ledger, alloc)?)?;
        }
        Ok(Ledgers { by_origin })
    }

    /// Gives each entry without a label this one.
    pub fn label(&mut self, label: u64)
        ensures { self.new ≡ with_labels label self.old }
    {
        for ledger in self.by_origin.iter_mut() {
            label_in(ledger, label);
        }
    }
}

fn front_in(ledger: &Option<Ledger>, slot: u32) -> Option<Queued>
    ensures { result ≡ front_at (queue_of ledger.now) slot }
{
    match ledger {
        Some(ledger) => ledger.queue.front(slot),
        None => None,
    }
}

fn entry_in(ledger: &Option<Ledger>, slot: u32) -> Option<Queued>
    ensures { result ≡ entry_at (queue_of ledger.now) slot }
{
    match ledger {
        Some(ledger) => ledger.queue.find(slot),
        None => None,
    }
}

fn waiting_in(ledger: &Option<Ledger>) -> usize
    ensures { result ≡ length (queue_of ledger.now) }
{
    match ledger {
        Some(ledger) => ledger.queue.as_slice().len(),
        None => 0,
    }
}

fn label_in(ledger: &mut Option<Ledger>, label: u64)
    ensures { ledger.new ≡ option_map (labelled label) ledger.old }
{
    if let Some(ledger) = ledger {
        ledger.label(label);
    }
}

fn free_in(ledger: &mut Option<Ledger>, node: NodeId) -> Result<(), AllocError>
    ensures ok { OnOk result (ledger.new ≡ option_map (with_freed node) ledger.old) }
    ensures err { OnErr result (ledger.new ≡ ledger.old) }
{
    match ledger {
        Some(ledger) => ledger.free(node),
        None => Ok(()),
    }
}

fn clone_of(ledger: &Option<Ledger>, alloc: Global) -> Result<Option<Ledger>, AllocError>
    ensures { IfOk result (λ copy. copy ≡ ledger.now) }
{
    match ledger {
        Some(ledger) => Ok(Some(ledger.clone_in(alloc)?)),
        None => Ok(None),
    }
}

fn take_over_all(ledgers: &mut Vec<Option<Ledger>>, passed: &mut Vec<Option<Ledger>>)
    requires { length passed.old.items ≡ length ledgers.old.items }
    ensures { ledgers.new.items ≡ taken_over ledgers.old.items passed.old.items }
{
    for origin in 0..ledgers.len() {
        pass_to(&mut ledgers[origin], &mut passed[origin]);
    }
}

fn pass_to(ledger: &mut Option<Ledger>, passed: &mut Option<Ledger>)
    ensures { ledger.new ≡ or_else passed.old ledger.old }
{
    if passed.is_some() {
        *ledger = passed.take();
    }
}
