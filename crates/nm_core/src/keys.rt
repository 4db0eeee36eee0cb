//! The keys of the set.
ghost use Rattle.std.specs.Prelude.{◌≡◌, ◌++◌, IfOk, OnOk, option_to_list};
ghost use Rattle.nm_model.specs.Memory.{node, child};
ghost use Rattle.nm_model.specs.Reports.{set_key, below, keys};

use crate::machine::Machine;
use nm_edge::{Key, Side};
use nm_model::keys::Subtree;
use nm_model::memory::Node;
use std::alloc::AllocError;

// Appends a key, if there is one.
fn put_key(found: &mut Vec<Key>, key: Option<Key>) -> Result<(), AllocError>
    ensures { OnOk result (found.new.items ≡ found.old.items ++ option_to_list key) }
{
    if let Some(key) = key {
        found.push(key)?;
    }
    Ok(())
}

impl Machine {
    // Returns the part of the tree below an edge of a slot.
    fn part_below(&self, slot: u32, side: Side, depth: u32) -> Subtree
        ensures { result ≡ record { slot = child self.now.memory slot side; depth = depth } }
    {
        let below = self.node(slot).edge(side).slot();
        Subtree { slot: below, depth }
    }

    // Returns the key of the set that a slot has, if any.
    fn key_at(&self, slot: u32) -> Option<Key>
        ensures { result ≡ set_key (node self.now.memory slot) }
    {
        self.node(slot).set_key()
    }

    // Appends the parts below a slot, the left one last, so that it is visited first.
    fn put_below(&self, waiting: &mut Vec<Subtree>, slot: u32, depth: u32) -> Result<(), AllocError>
        ensures { OnOk result (waiting.new.items
            ≡ waiting.old.items ++ below self.now.memory slot depth) }
    {
        waiting.push(self.part_below(slot, Side::Right, depth))?;
        waiting.push(self.part_below(slot, Side::Left, depth))?;
        Ok(())
    }

    /// Returns the keys of the set from left to right: those of the reached leaves, without the
    /// fixed ones.
    pub fn keys(&self) -> Result<Vec<Key>, AllocError>
        ensures { IfOk result (λ found. found.items ≡ keys self.now) }
    {
        let mut found = Vec::new(self.alloc);
        let mut waiting = Vec::new(self.alloc);
        waiting.push(Subtree {
            slot: 1,
            depth: self.layout.nodes(),
        })?;
        while let Some(part) = waiting.pop() {
            if part.slot != 0 && part.depth != 0 {
                put_key(&mut found, self.key_at(part.slot))?;
                self.put_below(&mut waiting, part.slot, part.depth - 1)?;
            }
        }
        Ok(found)
    }
}
