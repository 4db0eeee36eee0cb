//! The nodes that a worker knows, with the steps that were found of the chains among them.
ghost use Rattle.std.specs.Prelude.{◌≡◌, ◌⊎◌, true, None, [], OnOk, OnErr, IfOk};
ghost use Rattle.std.specs.Option.{option_map};
ghost use Rattle.nm_edge.specs.Edges.{other};
ghost use Rattle.nm_model.specs.Maps.{get, put, without, has};
ghost use Rattle.nm_model.specs.Knowledge.{read_on, slot_read};
ghost use Rattle.nm_model.specs.Learning.{rooted};
ghost use Rattle.nm_core.specs.Chains.{Remembers, goes_by, next_slot_of, next_slot_in, leads_to};
ghost use Rattle.nm_core.specs.declared.found_steps.ChainNode.{ChainNode};

use crate::found_steps::{ChainNode, FoundSteps};
use nm_edge::{Edge, Side};
use nm_model::knowledge::Seen;
use nm_model::slot_map::SlotMap;
use std::alloc::{AllocError, Global};
use std::marker::Model;

/// What is known of each known node. It also keeps the steps of chains that were found, which no
/// clause mentions.
#[derive(Drop)]
pub struct Known {
    seen: SlotMap<Seen>,
    found: FoundSteps,
}

impl Model for Known {
    ghost use Rattle.std.specs.Prelude.{List, ℕ};
    ghost use Rattle.nm_model.specs.declared.knowledge.Seen.{Seen};
    ghost use Rattle.nm_core.specs.Chains.{Remembers};

    ghost Value = { List (ℕ × Seen) };

    ghost view = { λ k. k.seen };

    ghost invariant = { λ k. Remembers k.seen k.found };
}

impl Known {
    /// Returns a value in which no node is known. Takes no memory.
    pub fn new(alloc: Global) -> Known
        ensures { result ≡ [] }
    {
        Known {
            seen: SlotMap::new(alloc),
            found: FoundSteps::new(alloc),
        }
    }

    /// Returns a value in which the root and its left child are known.
    pub fn rooted(alloc: Global) -> Result<Known, AllocError>
        ensures { IfOk result (λ known. known ≡ rooted) }
    {
        let mut seen = SlotMap::new(alloc);
        seen.put(1, Seen::unread())?;
        seen.put(2, Seen::unread())?;
        Ok(Known {
            seen,
            found: FoundSteps::new(alloc),
        })
    }

    pub fn contains(&self, slot: u32) -> bool
        ensures { result ≡ has self.now slot }
    {
        self.seen.contains(slot)
    }

    pub fn get(&self, slot: u32) -> Option<Seen>
        ensures { result ≡ get self.now slot }
    {
        self.seen.get(slot)
    }

    /// Sets what is known of a node. Takes memory only for a new node.
    ///
    /// Errors: out of memory; what is known is unchanged.
    pub fn put(&mut self, slot: u32, seen: Seen) -> Result<(), AllocError>
        ensures ok { OnOk result (self.new ≡ put self.old slot seen) }
        ensures err { OnErr result (self.new ≡ self.old) }
    {
        keep(&mut self.found, &self.seen, slot, &seen);
        self.seen.put(slot, seen)
    }

    /// Sets what is known of a known node. Takes no memory.
    pub fn replace(&mut self, slot: u32, seen: Seen)
        requires { has self.old slot ≡ true }
        ensures { self.new ≡ put self.old slot seen }
    {
        keep(&mut self.found, &self.seen, slot, &seen);
        self.seen.replace(slot, seen);
    }

    /// Forgets a node.
    pub fn remove(&mut self, slot: u32)
        ensures { self.new ≡ without self.old slot }
    {
        self.found.clear();
        self.seen.remove(slot);
    }

    /// Forgets all nodes.
    pub fn clear(&mut self)
        ensures { self.new ≡ [] }
    {
        self.seen.clear();
        self.found.clear();
    }
}

impl Known {
    // Returns the node to which the chain leads on from another.
    fn next(&mut self, node: &ChainNode) -> Option<ChainNode>
        ensures next { option_map (λ (n : ChainNode). n.slot) result
            ≡ next_slot_in self.old node.now.slot }
        ensures same { self.new ≡ self.old }
    {
        match self.found.next(node) {
            Some(next) => Some(next),
            None => self.find_next(node),
        }
    }

    // Finds that node by what is known, and keeps the step if memory allows.
    fn find_next(&mut self, node: &ChainNode) -> Option<ChainNode>
        ensures next { option_map (λ (n : ChainNode). n.slot) result
            ≡ next_slot_in self.old node.now.slot }
        ensures same { self.new ≡ self.old }
    {
        let slot = next_in(&self.seen, node.slot)?;
        let next = self.found.node(slot);
        self.found.learn(node, &next);
        Some(next)
    }

    // Returns the node of a slot.
    fn node(&mut self, slot: u32) -> ChainNode
        ensures slot { result.slot ≡ slot }
        ensures same { self.new ≡ self.old }
    {
        self.found.node(slot)
    }

    /// Returns whether the chain leads from one node to another in fewer than `fuel` steps. Keeps
    /// the steps that it finds, if memory allows.
    pub fn has_way(&mut self, fuel: u32, from: u32, to: u32) -> bool
        ensures way { result ≡ leads_to fuel self.old from to }
        ensures same { self.new ≡ self.old }
    {
        let mut at = self.node(from);
        for _ in 0..fuel {
            if at.slot == to {
                return true;
            }
            let Some(next) = self.next(&at) else {
                return false;
            };
            at = next;
        }
        false
    }
}

// Returns whether a chain goes on from a node by its edge on a side.
pub(crate) fn goes_by(seen: &Seen, side: Side) -> bool
    ensures { result ≡ goes_by (read_on seen.now side) (read_on seen.now (other side)) }
{
    seen.on(side).is_some_and(Edge::tag)
        && seen.on(side.other()).is_some_and(Edge::flag)
        && !seen.on(side).is_some_and(Edge::flag)
}

// Returns the slot to which an edge led when it was read; 0 if it was not read.
pub(crate) fn slot_read(edge: Option<Edge>) -> u32
    ensures { result ≡ slot_read edge }
{
    match edge {
        Some(edge) => edge.slot(),
        None => 0,
    }
}

// Returns the slot to which a chain leads on from a node, by what is known of the node.
fn next_of(seen: &Seen) -> Option<u32>
    ensures { result ≡ next_slot_of seen.now }
{
    if goes_by(seen, Side::Left) {
        return Some(slot_read(seen.left));
    }
    if goes_by(seen, Side::Right) {
        return Some(slot_read(seen.right));
    }
    None
}

// Returns the same, by the slot of the node.
fn next_in(known: &SlotMap<Seen>, slot: u32) -> Option<u32>
    ensures { result ≡ next_slot_in known.now slot }
{
    match known.get(slot) {
        Some(seen) => next_of(&seen),
        None => None,
    }
}

// Returns whether this new knowledge of a node changes no step: no chain led on from the node, or
// it still leads to the same slot.
fn keeps_chains(known: &SlotMap<Seen>, slot: u32, seen: &Seen) -> bool
    ensures { result ≡ true → (next_slot_in known.now slot ≡ None)
        ⊎ (next_slot_in known.now slot ≡ next_slot_of seen.now) }
{
    let next = next_in(known, slot);
    next.is_none() || next == next_of(seen)
}

// Forgets all steps before this becomes known of a node, unless the steps stay as they are.
fn keep(found: &mut FoundSteps, known: &SlotMap<Seen>, slot: u32, seen: &Seen)
    ensures before { Remembers known.now found.old → Remembers known.now found.new }
    ensures after { Remembers known.now found.old
        → Remembers (put known.now slot seen.now) found.new }
{
    if !keeps_chains(known, slot, seen) {
        found.clear();
    }
}
