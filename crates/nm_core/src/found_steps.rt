//! The steps of chains that were found, so that no step is searched for twice.
ghost use Rattle.std.specs.Prelude.{◌≡◌, ◌<◌, ℕ, List, true, length, Some, IfSome};
ghost use Rattle.nm_model.specs.declared.knowledge.Seen.{Seen};
ghost use Rattle.nm_core.specs.Chains.{Remembers, next_slot_in};

use nm_model::slot_map::SlotMap;
use std::alloc::{AllocError, Global};
use std::marker::Model;

/// A node of a chain: its slot, and an index at which the step from it may be.
#[derive(Clone, Copy, Debug, PartialEq, Eq)]
pub struct ChainNode {
    pub slot: u32,
    pub index: u32,
}

/// A step of a chain: a slot, and the next node. The next slot is 0 if it was not found yet.
#[derive(Clone, Copy, Debug, PartialEq, Eq)]
pub struct ChainStep {
    pub slot: u32,
    pub next: ChainNode,
}

impl ChainStep {
    // Returns a step that was not found yet.
    fn unknown(slot: u32) -> ChainStep
        ensures { result ≡ record { slot = slot; next = record { slot = 0; index = 0 } } }
    {
        ChainStep {
            slot,
            next: ChainNode { slot: 0, index: 0 },
        }
    }
}

/// The steps of chains that were found. If memory runs out, fewer are kept.
#[derive(Drop)]
pub struct FoundSteps {
    steps: Vec<ChainStep>,
    // by slot, an index at which the step from it may be
    indices: SlotMap<u32>,
}

impl Model for FoundSteps {
    ghost use Rattle.std.specs.Prelude.{List};
    ghost use Rattle.nm_core.specs.declared.found_steps.ChainStep.{ChainStep};

    ghost Value = { List ChainStep };

    ghost view = { λ f. f.steps.items };
}

impl FoundSteps {
    /// Returns an empty record of steps. Takes no memory.
    #[tactic(auto, unfolding(crate::specs::Chains::Remembers))]
    pub fn new(alloc: Global) -> FoundSteps
        ensures { (known : List (ℕ × Seen)) → Remembers known result }
    {
        FoundSteps {
            steps: Vec::new(alloc),
            indices: SlotMap::new(alloc),
        }
    }

    /// Returns the node after this one, if it was found.
    pub fn next(&self, node: &ChainNode) -> Option<ChainNode>
        ensures { (known : List (ℕ × Seen)) → Remembers known self.now
            → IfSome result (λ next. next_slot_in known node.now.slot ≡ Some next.slot) }
    {
        match self.steps.get(node.index as usize) {
            Some(step) if step.slot == node.slot && step.next.slot != 0 => Some(step.next),
            _ => None,
        }
    }

    // Returns whether the step from this slot is at this index.
    fn is_at(&self, slot: u32, index: u32) -> bool
        ensures { result ≡ true → index < length self.now }
    {
        match self.steps.get(index as usize) {
            Some(step) => step.slot == slot,
            None => false,
        }
    }

    /// Returns the node of a slot. If its step has no place, makes one if memory allows.
    pub fn node(&mut self, slot: u32) -> ChainNode
        ensures slot { result.slot ≡ slot }
        ensures keeps { (known : List (ℕ × Seen)) → Remembers known self.old
            → Remembers known self.new }
    {
        if let Some(index) = self.indices.get(slot) {
            if self.is_at(slot, index) {
                return ChainNode { slot, index };
            }
        }
        let index = self.enter(slot).unwrap_or(0);
        ChainNode { slot, index }
    }

    // Enters a step from a slot, which leads nowhere yet, and returns its index.
    fn enter(&mut self, slot: u32) -> Result<u32, AllocError>
        ensures { (known : List (ℕ × Seen)) → Remembers known self.old → Remembers known self.new }
    {
        let Ok(index) = u32::try_from(self.steps.len()) else {
            return Err(AllocError);
        };
        self.indices.put(slot, index)?;
        self.steps.push(ChainStep::unknown(slot))?;
        Ok(index)
    }

    /// Records that the chain leads on from one node to another.
    pub fn learn(&mut self, node: &ChainNode, next: &ChainNode)
        ensures { (known : List (ℕ × Seen)) → next_slot_in known node.now.slot ≡ Some next.now.slot
            → Remembers known self.old → Remembers known self.new }
    {
        if self.is_at(node.slot, node.index) {
            self.steps[node.index as usize] = ChainStep {
                slot: node.slot,
                next: *next,
            };
        }
    }

    /// Forgets all steps.
    #[tactic(auto, unfolding(crate::specs::Chains::Remembers))]
    pub fn clear(&mut self)
        ensures { (known : List (ℕ × Seen)) → Remembers known self.new }
    {
        self.steps.clear();
        self.indices.clear();
    }
}
