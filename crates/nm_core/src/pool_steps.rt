//! The steps on the pool, and the fields of slots.
#![tactic(auto, unfolding(nm_model::specs::Step::refusal, nm_model::specs::Step::reply, nm_model::specs::Step::write, nm_model::specs::Learning::learn, nm_model::specs::Runs::applied))]

ghost use Rattle.std.specs.Prelude.{◌<◌, length};
ghost use Rattle.nm_model.specs.declared.event.Event.TheVariants as event;
ghost use Rattle.nm_model.specs.Runs.{refusal_of};
ghost use Rattle.nm_core.specs.Admission.{Admits, IsAdmitted, Applies, AppliesOrKeeps};

use crate::machine::Machine;
use nm_edge::LAST_NUMBER;
use nm_model::event::Field;
use nm_model::reply::{Refused, Reply};
use std::alloc::AllocError;

impl Machine {
    /// Checks whether the pool has such a slot, free or not.
    pub(crate) fn may_claim(&self, worker: usize, slot: u32) -> Result<(), Refused>
        ensures { Admits (refusal_of self.now worker (event.Claim slot)) result }
    {
        if self.is_outside(6, slot) {
            return Err(Refused::NoSlot);
        }
        Ok(())
    }

    pub(crate) fn claim(&mut self, worker: usize, slot: u32) -> Result<Reply, AllocError>
        requires { IsAdmitted self.old worker (event.Claim slot) }
        ensures { AppliesOrKeeps self.old self.new worker (event.Claim slot) result }
    {
        let place = slot as usize;
        if !self.pool[place] {
            return Ok(Reply::Taken);
        }
        self.workers[worker].claim(slot)?;
        self.pool[place] = false;
        Ok(Reply::Claimed(slot))
    }

    /// Checks whether the slot is private, or the front of a queue and old enough.
    pub(crate) fn may_give(&self, worker: usize, slot: u32) -> Result<(), Refused>
        requires { worker < length self.now.workers }
        ensures { Admits (refusal_of self.now worker (event.Give slot)) result }
    {
        if self.is_outside(6, slot) {
            return Err(Refused::NoSlot);
        }
        let knowledge = &self.workers[worker];
        if knowledge.is_private(slot) {
            return Ok(());
        }
        knowledge.may_free(slot)
    }

    pub(crate) fn give(&mut self, worker: usize, slot: u32) -> Result<Reply, AllocError>
        requires { IsAdmitted self.old worker (event.Give slot) }
        ensures { AppliesOrKeeps self.old self.new worker (event.Give slot) result }
    {
        if self.workers[worker].is_private(slot) {
            self.pool[slot as usize] = true;
            self.workers[worker].give(slot);
            return Ok(Reply::Returned(slot));
        }
        let node = self.workers[worker].front(slot);
        self.workers[worker].free(node)?;
        self.pool[slot as usize] = true;
        Ok(Reply::Freed(node))
    }

    /// Checks whether a field of the slot may be read.
    pub(crate) fn may_look(&self, worker: usize, slot: u32, field: Field) -> Result<(), Refused>
        requires { worker < length self.now.workers }
        ensures { Admits (refusal_of self.now worker (event.Look slot field)) result }
    {
        if self.is_outside(1, slot) {
            return Err(Refused::NoSlot);
        }
        let knowledge = &self.workers[worker];
        if knowledge.is_private(slot) {
            return Ok(());
        }
        if knowledge.brief().pin.is_none() {
            return Err(Refused::NotPinned);
        }
        if !knowledge.knows(slot) {
            return Err(Refused::NotHeld);
        }
        Ok(())
    }

    pub(crate) fn look(
        &mut self,
        worker: usize,
        slot: u32,
        field: Field,
    ) -> Result<Reply, AllocError>
        requires { IsAdmitted self.old worker (event.Look slot field) }
        ensures { AppliesOrKeeps self.old self.new worker (event.Look slot field) result }
    {
        let node = self.node(slot);
        self.workers[worker].look(slot, field, node)
    }

    /// Checks whether a field may be stored.
    pub(crate) fn may_fill(
        &self,
        worker: usize,
        slot: u32,
        field: Field,
        value: u64,
    ) -> Result<(), Refused>
        requires { worker < length self.now.workers }
        ensures { Admits (refusal_of self.now worker (event.Fill slot field value)) result }
    {
        if self.is_outside(6, slot) || field.is_edge() && value > u64::from(self.layout.nodes()) {
            return Err(Refused::NoSlot);
        }
        if !self.workers[worker].is_private(slot) {
            return Err(Refused::NotPrivate);
        }
        let node = self.node(slot);
        let draft = self.workers[worker].draft(slot);
        if draft.is_early(field, value, node.birth) {
            return Err(Refused::NotReady);
        }
        if field == Field::Birth && node.birth == LAST_NUMBER {
            return Err(Refused::Spent);
        }
        Ok(())
    }

    pub(crate) fn fill(&mut self, worker: usize, slot: u32, field: Field, value: u64) -> Reply
        requires { IsAdmitted self.old worker (event.Fill slot field value) }
        ensures { Applies self.old self.new worker (event.Fill slot field value) result }
    {
        // An edge is filled with a slot, which fits 32 bits.
        self.layout.nodes();
        let node = self.node(slot).filled(field, value);
        self.workers[worker].fill(slot, field, value);
        self.put_node(slot, node);
        Reply::Filled
    }
}
