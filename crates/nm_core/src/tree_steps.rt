//! The steps on the edges of the tree.
#![tactic(auto, unfolding(nm_model::specs::Step::refusal, nm_model::specs::Step::reply, nm_model::specs::Step::write, nm_model::specs::Learning::learn, nm_model::specs::Runs::applied))]

ghost use Rattle.std.specs.Prelude.{◌≡◌, ◌<◌, true, length, map, is_some, IfOk};
ghost use Rattle.nm_model.specs.declared.event.Event.TheVariants as event;
ghost use Rattle.nm_model.specs.Memory.{named};
ghost use Rattle.nm_model.specs.Knowledge.{way};
ghost use Rattle.nm_model.specs.Step.{cut_nodes};
ghost use Rattle.nm_model.specs.Runs.{of, refusal_of};
ghost use Rattle.nm_core.specs.Admission.{Admits, IsAdmitted, AppliesOrKeeps};

use crate::machine::Machine;
use nm_edge::{Edge, NodeId, Side};
use nm_model::ledger::Nodes;
use nm_model::reply::{Refused, Reply};
use std::alloc::AllocError;

impl Machine {
    /// Checks whether the link may be tried.
    pub(crate) fn may_link(
        &self,
        worker: usize,
        parent: u32,
        side: Side,
        leaf: u32,
        new: u32,
    ) -> Result<(), Refused>
        requires { worker < length self.now.workers }
        ensures { Admits (refusal_of self.now worker (event.Link parent side leaf new)) result }
    {
        if self.is_outside(1, parent) || self.is_outside(1, leaf) || self.is_outside(6, new) {
            return Err(Refused::NoSlot);
        }
        let knowledge = &self.workers[worker];
        if knowledge.brief().pin.is_none() {
            return Err(Refused::NotPinned);
        }
        if !knowledge.holds_place(self.layout, parent, leaf) {
            return Err(Refused::NotHeld);
        }
        if !knowledge.is_private(new) {
            return Err(Refused::NotPrivate);
        }
        if !knowledge.is_linkable(new, leaf) {
            return Err(Refused::NotReady);
        }
        Ok(())
    }

    pub(crate) fn link(
        &mut self,
        worker: usize,
        parent: u32,
        side: Side,
        leaf: u32,
        new: u32,
    ) -> Result<Reply, AllocError>
        requires { IsAdmitted self.old worker (event.Link parent side leaf new) }
        ensures { AppliesOrKeeps self.old self.new worker (event.Link parent side leaf new) result }
    {
        let found = self.edge(parent, side);
        if !found.is_to(leaf) {
            self.workers[worker].read_edge(parent, side, found)?;
            return Ok(Reply::Lost(found));
        }
        let node = self.workers[worker].link(leaf, new)?;
        self.put_edge(parent, side, Edge::to(new));
        Ok(Reply::Linked(node))
    }

    /// Checks whether the flag may be tried.
    pub(crate) fn may_flag(
        &self,
        worker: usize,
        parent: u32,
        side: Side,
        leaf: u32,
    ) -> Result<(), Refused>
        requires { worker < length self.now.workers }
        ensures { Admits (refusal_of self.now worker (event.Flag parent side leaf)) result }
    {
        if self.is_outside(1, parent) || self.is_outside(6, leaf) {
            return Err(Refused::NoSlot);
        }
        let knowledge = &self.workers[worker];
        if knowledge.brief().pin.is_none() {
            return Err(Refused::NotPinned);
        }
        if !knowledge.holds_leaf(parent, leaf) {
            return Err(Refused::NotHeld);
        }
        Ok(())
    }

    pub(crate) fn flag(
        &mut self,
        worker: usize,
        parent: u32,
        side: Side,
        leaf: u32,
    ) -> Result<Reply, AllocError>
        requires { IsAdmitted self.old worker (event.Flag parent side leaf) }
        ensures { AppliesOrKeeps self.old self.new worker (event.Flag parent side leaf) result }
    {
        let edge = self.edge(parent, side);
        if !edge.is_to(leaf) {
            self.workers[worker].read_edge(parent, side, edge)?;
            return Ok(Reply::Lost(edge));
        }
        let node = self.named(leaf);
        let flagged = Edge::to(leaf).flagged();
        self.workers[worker].read_edge(parent, side, flagged)?;
        self.put_edge(parent, side, flagged);
        Ok(Reply::Flagged(node))
    }

    /// Checks whether the tag may be tried.
    pub(crate) fn may_tag(&self, worker: usize, parent: u32, side: Side) -> Result<(), Refused>
        requires { worker < length self.now.workers }
        ensures { Admits (refusal_of self.now worker (event.Tag parent side)) result }
    {
        if self.is_outside(1, parent) {
            return Err(Refused::NoSlot);
        }
        let knowledge = &self.workers[worker];
        if knowledge.brief().pin.is_none() {
            return Err(Refused::NotPinned);
        }
        if !knowledge.knows(parent) {
            return Err(Refused::NotHeld);
        }
        if !knowledge.knows_flagged(parent, side.other()) {
            return Err(Refused::NotFrozen);
        }
        Ok(())
    }

    pub(crate) fn tag(
        &mut self,
        worker: usize,
        parent: u32,
        side: Side,
    ) -> Result<Reply, AllocError>
        requires { IsAdmitted self.old worker (event.Tag parent side) }
        ensures { AppliesOrKeeps self.old self.new worker (event.Tag parent side) result }
    {
        let edge = self.edge(parent, side);
        self.workers[worker].read_edge(parent, side, edge.tagged())?;
        self.put_edge(parent, side, edge.tagged());
        Ok(Reply::Was(edge))
    }

    /// Checks whether the splice may be tried.
    pub(crate) fn may_splice(
        &mut self,
        worker: usize,
        ancestor: u32,
        side: Side,
        successor: u32,
        parent: u32,
        keep: Side,
    ) -> Result<(), Refused>
        requires { worker < length self.old.workers }
        ensures admits { Admits
            (refusal_of self.old worker (event.Splice ancestor side successor parent keep)) result }
        ensures same { self.new ≡ self.old }
    {
        if self.is_outside(1, ancestor)
            || self.is_outside(6, successor)
            || self.is_outside(6, parent)
        {
            return Err(Refused::NoSlot);
        }
        let knowledge = &self.workers[worker];
        if knowledge.brief().pin.is_none() {
            return Err(Refused::NotPinned);
        }
        if !(knowledge.knows(ancestor) && knowledge.knows(successor)) {
            return Err(Refused::NotHeld);
        }
        let layout = self.layout;
        if !self.workers[worker].is_frozen(layout, successor, parent, keep) {
            return Err(Refused::NotFrozen);
        }
        Ok(())
    }

    // Returns the nodes of a chain, each with its birth word.
    fn cut_nodes(
        &self,
        worker: usize,
        successor: u32,
        parent: u32,
        keep: Side,
    ) -> Result<Vec<NodeId>, AllocError>
        requires is_there { worker < length self.now.workers }
        requires leads { is_some (way self.now.layout.nodes (of self.now worker) successor parent)
            ≡ true }
        ensures { IfOk result (λ nodes. nodes.items
            ≡ cut_nodes self.now.layout self.now.memory (of self.now worker) successor parent
            keep) }
    {
        let slots = self.workers[worker].cut(
            self.alloc,
            self.layout.nodes(),
            successor,
            parent,
            keep,
        )?;
        self.names(&slots)
    }

    // Returns slots, each with the birth that it has now.
    fn names(&self, slots: &[u32]) -> Result<Vec<NodeId>, AllocError>
        ensures { IfOk result (λ nodes. nodes.items ≡ map (named self.now.memory) slots.now) }
    {
        let mut nodes = Vec::with_capacity(self.alloc, slots.len())?;
        for slot in slots {
            nodes.push(self.named(*slot))?;
        }
        Ok(nodes)
    }

    pub(crate) fn splice(
        &mut self,
        worker: usize,
        ancestor: u32,
        side: Side,
        successor: u32,
        parent: u32,
        keep: Side,
    ) -> Result<Reply, AllocError>
        requires { IsAdmitted self.old worker (event.Splice ancestor side successor parent keep) }
        ensures { AppliesOrKeeps self.old self.new worker
            (event.Splice ancestor side successor parent keep) result }
    {
        let edge = self.edge(ancestor, side);
        if !edge.is_to(successor) {
            self.workers[worker].read_edge(ancestor, side, edge)?;
            return Ok(Reply::Lost(edge));
        }
        let cut = self.cut_nodes(worker, successor, parent, keep)?;
        let kept = self.workers[worker].kept(parent, keep);
        self.workers[worker].retire(worker, &cut)?;
        self.put_edge(ancestor, side, kept);
        Ok(Reply::Cut(Nodes::from_vec(cut)))
    }

    /// Checks whether the swap may be tried.
    pub(crate) fn may_swap(
        &self,
        worker: usize,
        parent: u32,
        side: Side,
        leaf: u32,
        new: u32,
    ) -> Result<(), Refused>
        requires { worker < length self.now.workers }
        ensures { Admits (refusal_of self.now worker (event.Swap parent side leaf new)) result }
    {
        if self.is_outside(1, parent) || self.is_outside(6, leaf) || self.is_outside(6, new) {
            return Err(Refused::NoSlot);
        }
        let knowledge = &self.workers[worker];
        if knowledge.brief().pin.is_none() {
            return Err(Refused::NotPinned);
        }
        if !knowledge.holds_leaf(parent, leaf) {
            return Err(Refused::NotHeld);
        }
        if !knowledge.is_private(new) {
            return Err(Refused::NotPrivate);
        }
        if !knowledge.is_leaf_draft(new) {
            return Err(Refused::NotReady);
        }
        Ok(())
    }

    pub(crate) fn swap(
        &mut self,
        worker: usize,
        parent: u32,
        side: Side,
        leaf: u32,
        new: u32,
    ) -> Result<Reply, AllocError>
        requires { IsAdmitted self.old worker (event.Swap parent side leaf new) }
        ensures { AppliesOrKeeps self.old self.new worker (event.Swap parent side leaf new) result }
    {
        let edge = self.edge(parent, side);
        if !edge.is_to(leaf) {
            self.workers[worker].read_edge(parent, side, edge)?;
            return Ok(Reply::Lost(edge));
        }
        let cut = self.names(&[leaf])?;
        self.workers[worker].swap(worker, new, &cut)?;
        self.put_edge(parent, side, Edge::to(new));
        Ok(Reply::Cut(Nodes::from_vec(cut)))
    }
}
