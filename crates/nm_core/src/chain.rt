//! The chain that a splice cuts off, by what its worker knows.
ghost use Rattle.std.specs.Prelude.{◌≡◌, ◌++◌, [], ◌∷◌, is_some, unwrap_or, IfOk, OnOk, true};
ghost use Rattle.nm_model.specs.Knowledge.{read, slot_read, leads_on, onward, way, cut_by};
ghost use Rattle.nm_model.specs.Step.{is_frozen, kept};

use crate::known::{goes_by, slot_read};
use crate::worker::WorkerState;
use nm_edge::{Edge, Layout, Side};
use std::alloc::{AllocError, Global};

impl WorkerState {
    // Returns whether the edge on a side is known as tagged and not flagged, and its twin as
    // flagged.
    fn leads_on(&self, slot: u32, side: Side) -> bool
        ensures { result ≡ leads_on self.now slot side }
    {
        goes_by(&self.seen(slot), side)
    }

    // Returns the side on which the chain goes on, if it does.
    fn onward(&self, slot: u32) -> Option<Side>
        ensures { result ≡ onward self.now slot }
    {
        if self.leads_on(slot, Side::Left) {
            return Some(Side::Left);
        }
        if self.leads_on(slot, Side::Right) {
            return Some(Side::Right);
        }
        None
    }

    // Returns the slot to which the edge on a side led when it was read; 0 if it was not read.
    fn slot_read(&self, slot: u32, side: Side) -> u32
        ensures { result ≡ slot_read (read self.now slot side) }
    {
        slot_read(self.read(slot, side))
    }

    /// Returns whether the worker knows a chain of tagged edges with flagged twins, from the
    /// successor to the parent, and on by the edge that is kept.
    pub fn is_frozen(&mut self, layout: Layout, successor: u32, parent: u32, keep: Side) -> bool
        ensures frozen { result ≡ is_frozen layout self.old successor parent keep }
        ensures same { self.new ≡ self.old }
    {
        self.has_way(layout.nodes(), successor, parent)
            && self.knows_tagged(parent, keep)
            && self.knows_flagged(parent, keep.other())
    }

    /// Returns the edge that the splice leaves: the kept one, without its tag.
    pub fn kept(&self, parent: u32, keep: Side) -> Edge
        ensures { result ≡ kept (read self.now parent keep) }
    {
        match self.read(parent, keep) {
            Some(edge) => edge.untagged(),
            None => Edge::to(0),
        }
    }

    /// Returns the slots of the chain from the successor downwards: each internal node, followed by
    /// its flagged leaf.
    pub fn cut(
        &self,
        alloc: Global,
        fuel: u32,
        from: u32,
        to: u32,
        keep: Side,
    ) -> Result<Vec<u32>, AllocError>
        requires { is_some (way fuel self.now from to) ≡ true }
        ensures { IfOk result (λ slots. slots.items
            ≡ cut_by self.now from (unwrap_or (way fuel self.now from to) []) keep) }
    {
        let mut slots = Vec::new(alloc);
        let mut at = from;
        for _ in 0..fuel {
            if at == to {
                push_both(&mut slots, at, self.slot_read(at, keep.other()))?;
                return Ok(slots);
            }
            let Some(side) = self.onward(at) else {
                return Ok(slots);
            };
            push_both(&mut slots, at, self.slot_read(at, side.other()))?;
            at = self.slot_read(at, side);
        }
        Ok(slots)
    }
}

// Appends an internal node and the flagged leaf beside its chain.
fn push_both(slots: &mut Vec<u32>, node: u32, leaf: u32) -> Result<(), AllocError>
    ensures { OnOk result (slots.new.items ≡ slots.old.items ++ node ∷ leaf ∷ []) }
{
    slots.push(node)?;
    slots.push(leaf)?;
    Ok(())
}
