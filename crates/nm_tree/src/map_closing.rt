//! The close of a map, which hands out its values.
ghost use Rattle.std.specs.Prelude.{◌≡◌, ◌≤◌, ℕ, All, length, map, slice_get};
ghost use Rattle.nm_edge.specs.Words.{words};
ghost use Rattle.nm_tree.specs.MapReports.{WaitingLeavesHaveTheirValues, WaitingNodesWereReached, bare_in, is_leaf_at, value_at_slot, value_in};

use crate::closing::{Ended, Report};
use nm_edge::{Layout, Side};
use nm_steps::Words;
use std::marker::Model;

/// What a map held when it was closed: the report of its tree, and its values.
#[derive(Drop)]
pub struct MapReport {
    /// The report, like that of a set.
    pub report: Report,
    /// The values.
    pub values: MapValues,
}

/// The values of a closed map: the one under each key that was left, and the one of each slot. A
/// leaf that waits in a queue has the value of its slot. `is_leaf` returns whether a node that waits
/// is a leaf.
#[derive(Drop)]
pub struct MapValues {
    words: Words,
    // The slot of the leaf of each key.
    leaves: Vec<u32>,
    // The sizes of the tree.
    layout: Layout,
}

impl Model for MapValues {
    ghost use Rattle.std.specs.Prelude.{◌≡◌, ◌≤◌, ℕ, All, length, map};
    ghost use Rattle.nm_edge.specs.Words.{words as all_words};
    ghost use Rattle.nm_tree.specs.MapReports.{MapValuesView, bare_in, value_in};

    ghost Value = { MapValuesView };

    ghost view = { λ v. record {
      keyed = map (value_in v.words.values) v.leaves.items;
      slots = v.words.values;
      bare = bare_in v.layout v.words.core;
    } };

    ghost invariant = { λ v. (v.layout.nodes ≡ length v.words.values)
        × (length v.words.core ≡ all_words v.layout)
        × All (λ (x : ℕ). (1 ≤ x) × (x ≤ length v.words.values)) v.leaves.items };
}

impl MapValues {
    /// Returns the value under the key at that index of the report, or `None` if it has no such key.
    pub fn of_key(&self, index: usize) -> Option<u64>
        ensures { result ≡ slice_get self.now.keyed index }
    {
        match self.leaves.get(index) {
            Some(slot) => Some(self.words.value(*slot)),
            None => None,
        }
    }

    /// Returns the value of a slot, or `None` if there is no such slot. If the slot is that of a
    /// leaf which waits in a queue of the report, it is the value that the leaf had right before it
    /// was cut off.
    pub fn of_slot(&self, slot: u32) -> Option<u64>
        ensures { result ≡ value_at_slot self.now.slots slot }
    {
        if slot == 0 || slot > self.layout.nodes() {
            return None;
        }
        Some(self.words.value(slot))
    }

    /// Returns whether there is such a slot, and its left edge leads to no node. A node that waits in
    /// a queue of the report is a leaf exactly if this is true of its slot.
    pub fn is_leaf(&self, slot: u32) -> bool
        ensures { result ≡ is_leaf_at self.now slot }
    {
        if slot == 0 || slot > self.layout.nodes() {
            return false;
        }
        let word = self.layout.edge(slot, Side::Left) as usize;
        self.words.word(word) < 4
    }
}

impl Ended {
    /// Returns the report of a map: this one, with its values.
    pub fn into_map_report(self) -> MapReport
        requires all { self.layout.nodes ≡ length self.words.values }
        requires laid { length self.words.core ≡ words self.layout }
        requires within { All (λ (x : ℕ). (1 ≤ x) × (x ≤ length self.words.values))
            self.leaves.items }
        ensures report { result.report ≡ self.report }
        ensures keyed { result.values.keyed ≡ map (value_in self.words.values) self.leaves.items }
        ensures slots { result.values.slots ≡ self.words.values }
        ensures bare { result.values.bare ≡ bare_in self.layout self.words.core }
    {
        let Self {
            report,
            leaves,
            words,
            layout,
        } = self;
        MapReport {
            report,
            values: MapValues {
                words,
                leaves,
                layout,
            },
        }
    }
}

/// Law: in every map that was closed, a path from the root reached each node that waits, right before
/// the node was cut off. Each leaf that waits was cut off with the value that its slot has.
pub fn waiting_values_are_those_at_the_cut()
    ensures reached { WaitingNodesWereReached }
    ensures values { WaitingLeavesHaveTheirValues }
{}
