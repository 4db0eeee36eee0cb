//! A finite map from slots.
ghost use Rattle.std.specs.Prelude.{◌≡◌, ◌==◌, true, length, OnOk, OnErr, []};
ghost use Rattle.nm_model.specs.Maps.{get, put, without, has};

use std::alloc::{AllocError, Global};
use std::collections::BTreeMap;
use std::marker::Model;

/// A finite map from slots. It takes memory only for the slots that it has.
#[derive(Debug, Drop)]
pub struct SlotMap<V> {
    entries: BTreeMap<u32, V>,
}

impl<V> Model for SlotMap<V> {
    ghost use Rattle.std.specs.Prelude.{List, ℕ};

    ghost Value = { List (ℕ × V) };

    ghost view = { λ m. m.entries.entries };
}

impl<V: Copy> SlotMap<V> {
    /// Returns the empty map. Takes no memory.
    pub fn new(alloc: Global) -> SlotMap<V>
        ensures { result ≡ [] }
    {
        SlotMap {
            entries: BTreeMap::new(alloc),
        }
    }

    pub fn is_empty(&self) -> bool
        ensures { result ≡ (length self.now == 0) }
    {
        self.entries.len() == 0
    }

    /// Returns the number of slots in the map.
    pub fn len(&self) -> usize
        ensures { result ≡ length self.now }
    {
        self.entries.len()
    }

    pub fn contains(&self, slot: u32) -> bool
        ensures { result ≡ has self.now slot }
    {
        self.entries.contains_key(&slot)
    }

    pub fn get(&self, slot: u32) -> Option<V>
        ensures { result ≡ get self.now slot }
    {
        self.entries.get(&slot).copied()
    }

    /// Sets the value of a slot. Takes memory only for a new slot.
    ///
    /// Errors: out of memory; the map is unchanged.
    pub fn put(&mut self, slot: u32, value: V) -> Result<(), AllocError>
        ensures ok { OnOk result (self.new ≡ put self.old slot value) }
        ensures err { OnErr result (self.new ≡ self.old) }
    {
        self.entries.insert(slot, value)?;
        Ok(())
    }

    /// Sets the value of a slot that is in the map. Takes no memory.
    pub fn replace(&mut self, slot: u32, value: V)
        requires { has self.old slot ≡ true }
        ensures { self.new ≡ put self.old slot value }
    {
        let Ok(_) = self.entries.insert(slot, value) else {
            unreachable!();
        };
    }

    /// Removes a slot.
    pub fn remove(&mut self, slot: u32)
        ensures { self.new ≡ without self.old slot }
    {
        self.entries.remove(&slot);
    }

    /// Removes all slots.
    pub fn clear(&mut self)
        ensures { self.new ≡ [] }
    {
        self.entries.clear();
    }
}
