//! The sizes of a tree.
ghost use Rattle.std.specs.Prelude.{◌≡◌, ◌<◌, ◌≤◌, ◌+◌, ◌-◌, ◌*◌, ◌%◌, ◌⊎◌, ◌↔◌, false, IfOk, IsErrOf};
ghost use Rattle.nm_edge.specs.Layouts.{IsLayout, IsLayoutFault, dense, in_radix, spaced};
ghost use Rattle.nm_edge.specs.Words.{IsSlot, at_birth, at_edge, at_epoch, at_key, at_announcement, pool_place, pool_word, word, words};

use crate::edge::Side;
use std::marker::Model;
use thiserror::Error;

/// The least number of nodes: the five fixed ones, and two for one key.
pub const LEAST_NODES: u32 = 7;

/// The greatest number of nodes of a layout whose words are side by side.
pub const MOST_NODES: u32 = 1_048_576;

/// The greatest number of nodes of a layout whose announcements are apart.
pub const MOST_SPACED_NODES: u32 = 268_435_456;

/// The greatest number of workers.
pub const MOST_WORKERS: u32 = 64;

/// The least slot that is not one of the five fixed ones. Workers claim the slots from here on, and
/// give them back.
pub const FIRST_SLOT: u32 = 6;

/// The number of unused words after an announcement that is apart: the rest of its 128 bytes. A
/// cache line of its own would not be enough, because processors fetch lines in pairs.
const APART: u32 = 15;

/// The number of words before the epoch's own, in its 128 bytes. An allocator keeps its data about a
/// large block in them.
const BEFORE_EPOCH: u32 = 2;

/// The sizes and the shape of a tree. The sizes are the number of nodes (the five fixed ones
/// counted), the number of workers, and whether their announcements are apart. The
/// shape is that of a radix tree, or that of Natarajan and Mittal.
#[derive(Clone, Copy, Debug, PartialEq, Eq)]
pub struct Layout {
    nodes: u32,
    workers: u32,
    gap: u32,
    radix: bool,
    // The number of the first word of slot 1.
    first: u32,
}

impl Model for Layout {
    ghost use Rattle.std.specs.Prelude.{◌≡◌};
    ghost use Rattle.nm_edge.specs.Layouts.{IsLayout};
    ghost use Rattle.nm_edge.specs.Layouts as spec;
    ghost use Rattle.nm_edge.specs.Words.{behind_announcements};

    ghost Value = { spec.Layout };

    ghost view = { λ l. record { nodes = l.nodes; workers = l.workers; gap = l.gap; radix = l.radix } };

    ghost inverse = { λ l. record {
      nodes = l.nodes;
      workers = l.workers;
      gap = l.gap;
      radix = l.radix;
      first = behind_announcements l l.workers;
    } };

    ghost invariant = { λ l.
        IsLayout (record { nodes = l.nodes; workers = l.workers; gap = l.gap; radix = l.radix })
        × (l.first ≡ behind_announcements (record {
          nodes = l.nodes;
          workers = l.workers;
          gap = l.gap;
          radix = l.radix;
        }) l.workers) };
}

/// The number of the epoch's word.
const EPOCH_WORD: u32 = 0;

/// The number of slots of a row of the pool: one word, with one bit for each slot.
pub const SLOTS_OF_A_ROW: u32 = 64;

/// The number of words of a node: its key, its left and right edge, and its birth (generation).
const WORDS_OF_A_NODE: u32 = 4;

/// The place of a slot in the pool: one bit of one word.
#[derive(Clone, Copy, Debug, PartialEq, Eq)]
pub struct PoolPlace {
    /// The number of the word.
    pub word: u32,
    /// The word with this bit alone: a power of two.
    pub mask: u64,
}

/// Why there is no such layout. If both reasons hold, `Nodes` is returned.
#[derive(Clone, Copy, Debug, PartialEq, Eq, Error)]
pub enum LayoutError {
    /// Fewer than 7 nodes, or more than there may be.
    #[error("nodes are fewer than 7, or too many")]
    Nodes,
    /// No worker, or more than 64.
    #[error("workers are not 1 to 64")]
    Workers,
}

impl Layout {
    /// Returns the layout of `nodes` nodes, 7 to 1,048,576, and 1 to 64 workers. Its words are side
    /// by side.
    ///
    /// Errors: `Nodes`, `Workers`: there are too few or too many.
    pub fn new(nodes: u32, workers: u32) -> Result<Layout, LayoutError>
        ensures layout { IfOk result (λ layout. layout ≡ dense nodes workers) }
        ensures nodes { IsErrOf result LayoutError.Nodes
            ↔ IsLayoutFault MOST_NODES nodes workers LayoutError.Nodes }
        ensures workers { IsErrOf result LayoutError.Workers
            ↔ IsLayoutFault MOST_NODES nodes workers LayoutError.Workers }
        ensures fits { IfOk result IsLayout }
    {
        Layout::within(MOST_NODES, nodes, workers, 0)
    }

    /// Returns the layout of `nodes` nodes, 7 to 268,435,456, and 1 to 64 workers, in which each
    /// announcement has 128 bytes of its own. No node is in two cache lines, if the words begin 16
    /// bytes after a multiple of 64, like large blocks of glibc's `malloc`.
    ///
    /// Errors: `Nodes`, `Workers`: there are too few or too many.
    pub fn spaced(nodes: u32, workers: u32) -> Result<Layout, LayoutError>
        ensures layout { IfOk result (λ layout. layout ≡ spaced nodes workers) }
        ensures nodes { IsErrOf result LayoutError.Nodes
            ↔ IsLayoutFault MOST_SPACED_NODES nodes workers LayoutError.Nodes }
        ensures workers { IsErrOf result LayoutError.Workers
            ↔ IsLayoutFault MOST_SPACED_NODES nodes workers LayoutError.Workers }
        ensures fits { IfOk result IsLayout }
    {
        Layout::within(MOST_SPACED_NODES, nodes, workers, APART)
    }

    /// Returns the layout of `nodes` nodes, 7 to `most`, and 1 to 64 workers, with that gap.
    fn within(most: u32, nodes: u32, workers: u32, gap: u32) -> Result<Layout, LayoutError>
        requires most { most ≤ MOST_SPACED_NODES }
        requires gap { (gap ≡ 0) ⊎ (gap ≡ APART) }
        ensures layout { IfOk result
            (λ layout. layout
            ≡ record { nodes = nodes; workers = workers; gap = gap; radix = false }) }
        ensures nodes { IsErrOf result LayoutError.Nodes
            ↔ IsLayoutFault most nodes workers LayoutError.Nodes }
        ensures workers { IsErrOf result LayoutError.Workers
            ↔ IsLayoutFault most nodes workers LayoutError.Workers }
        ensures fits { IfOk result IsLayout }
    {
        if !(LEAST_NODES..=most).contains(&nodes) {
            return Err(LayoutError::Nodes);
        }
        if !(1..=MOST_WORKERS).contains(&workers) {
            return Err(LayoutError::Workers);
        }
        Ok(Layout {
            nodes,
            workers,
            gap,
            radix: false,
            first: announcements_end(gap, workers),
        })
    }

    /// Returns the layout of the same sizes for a radix tree. There a walk takes at most 66 nodes,
    /// for all keys in every order.
    pub fn in_radix(self) -> Layout
        ensures { result ≡ in_radix self }
    {
        Layout {
            radix: true,
            ..self
        }
    }

    /// Returns whether the layout is that of a radix tree.
    pub fn is_radix(self) -> bool
        ensures { result ≡ self.radix }
    {
        let Layout { radix, .. } = self;
        radix
    }

    /// Returns the number of nodes, 7 to 268,435,456. Slots are numbered from 1 to this.
    pub fn nodes(self) -> u32
        ensures nodes { result ≡ self.nodes }
        ensures fits { IsLayout self }
    {
        let Layout { nodes, .. } = self;
        nodes
    }

    /// Returns the number of workers, 1 to 64. They are numbered from 0.
    pub fn workers(self) -> u32
        ensures workers { result ≡ self.workers }
        ensures fits { IsLayout self }
    {
        let Layout { workers, .. } = self;
        workers
    }

    /// Returns the number of words. They are, in this order: one for the epoch, one for each
    /// worker, four for each node, and one for each 64 slots of the pool. If announcements
    /// are apart, 15 unused words follow each of them, and 13 follow the epoch's word.
    pub fn words(self) -> u32
        ensures { result ≡ words self }
    {
        self.pool_word() + self.nodes.div_ceil(SLOTS_OF_A_ROW)
    }

    /// Returns the number of the epoch's word, 0.
    pub fn epoch(self) -> u32
        ensures { result ≡ word self at_epoch }
    {
        EPOCH_WORD
    }

    /// Returns the number of the word of a worker's announcement. Workers are numbered from 0.
    pub fn announcement(self, worker: u32) -> u32
        requires { worker < self.workers }
        ensures { result ≡ word self (at_announcement worker) }
    {
        announcements_end(self.gap, worker)
    }

    /// Returns the number of the word of a slot's key, the first of its four. Slots are numbered
    /// from 1.
    pub fn key(self, slot: u32) -> u32
        requires { IsSlot self slot }
        ensures word { result ≡ word self (at_key slot) }
        ensures fits { IsLayout self }
    {
        self.first + WORDS_OF_A_NODE * (slot - 1)
    }

    /// Returns the number of the word of a slot's edge on that side.
    pub fn edge(self, slot: u32, side: Side) -> u32
        requires { IsSlot self slot }
        ensures { result ≡ word self (at_edge slot side) }
    {
        match side {
            Side::Left => self.key(slot) + 1,
            Side::Right => self.key(slot) + 2,
        }
    }

    /// Returns the number of the word of a slot's birth.
    pub fn birth(self, slot: u32) -> u32
        requires { IsSlot self slot }
        ensures { result ≡ word self (at_birth slot) }
    {
        self.key(slot) + 3
    }

    /// Returns the place of a slot in the pool.
    pub fn pool(self, slot: u32) -> PoolPlace
        requires { IsSlot self slot }
        ensures { result ≡ pool_place self slot }
    {
        PoolPlace {
            word: self.pool_word() + (slot - 1) / SLOTS_OF_A_ROW,
            mask: 1 << place_in_row(slot),
        }
    }

    /// Returns the number of the first word of the pool.
    fn pool_word(self) -> u32
        ensures word { result ≡ pool_word self }
        ensures fits { IsLayout self }
    {
        self.first + WORDS_OF_A_NODE * self.nodes
    }
}

/// Returns the number of slots before this one in its row of the pool.
pub fn place_in_row(slot: u32) -> u32
    requires { 1 ≤ slot }
    ensures place { result ≡ (slot - 1) % 64 }
    ensures few { result < SLOTS_OF_A_ROW }
{
    (slot - 1) % SLOTS_OF_A_ROW
}

/// Returns the number of the first word after the epoch's word and the announcements of `workers`
/// workers, with that gap after each.
fn announcements_end(gap: u32, workers: u32) -> u32
    requires { (workers ≤ MOST_WORKERS) × ((gap ≡ 0) ⊎ (gap ≡ APART)) }
    ensures word { result ≡ 1 + (gap - 2) + (1 + gap) * workers }
    ensures few { result ≤ 1038 }
{
    1 + gap.saturating_sub(BEFORE_EPOCH) + (1 + gap) * workers
}
