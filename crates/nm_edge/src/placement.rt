//! Where a worker looks for a free slot.
ghost use Rattle.std.specs.Prelude.{◌≡◌, ◌≤◌, ◌<◌};

use crate::layout::{FIRST_SLOT, place_in_row};
use arrayvec::ArrayVec;
use std::marker::Model;

/// The order in which a worker tries the slots of the pool.
#[derive(Clone, Copy, Debug, PartialEq, Eq)]
pub enum Fit {
    /// First fit: each claim tries the slots from 6 upwards.
    FirstFit,
    /// Next fit after the slots that the worker gave back: a claim tries the slot given back last,
    /// and otherwise goes on from the row of 64 slots in which the last search ended, and round.
    NextFit,
}

/// The number of slots given back that a placement remembers. Collections free about 64 nodes at a
/// time.
const MOST_GIVEN: usize = 128;

/// Where one worker looks for a free slot; contracts see its fit alone. A placement is a hint: it may
/// name any slot, because a claim counts only the slots that it finds in the pool.
///
/// First fit and next fit are those of storage allocation (Knuth, The Art of Computer Programming,
/// volume 1, section 2.5).
#[derive(Drop)]
pub struct Placement {
    fit: Fit,
    // The slot in whose row the next search begins: the last one that a search found. A search
    // never returns to an earlier free slot, so that a claim passes each full row once a round, and
    // not once a claim. Each worker begins at another slot.
    cursor: u32,
    // The slots given back, the last one on top. Their nodes are still in the processor's caches.
    // With no room left, a slot is not remembered, and a later search finds it.
    given: ArrayVec<u32, MOST_GIVEN>,
}

impl Model for Placement {
    ghost use Rattle.nm_edge.specs.declared.placement.Fit.{Fit};

    ghost Value = { Fit };

    ghost view = { λ p. p.fit };
}

impl Placement {
    /// Makes the placement of a worker that has given nothing back. A near one begins in the row of
    /// the slot `cursor`, or at slot 6 if the pool has no such slot.
    pub fn new(fit: Fit, cursor: u32) -> Placement
        ensures { result ≡ fit }
    {
        Placement {
            fit,
            cursor,
            given: ArrayVec::new(),
        }
    }

    /// Returns the fit.
    pub fn fit(&self) -> Fit
        ensures { result ≡ self.now }
    {
        self.fit
    }

    /// Remembers a slot that was given back, if there is room: a near claim tries it first.
    #[inline(always)]
    pub fn keep(&mut self, slot: u32)
        ensures { self.new ≡ self.old }
    {
        if !self.given.is_full() {
            self.given.push(slot);
        }
    }

    /// Forgets the slot that was given back last, and returns it; 0 if none is remembered.
    #[inline(always)]
    pub fn take(&mut self) -> u32
        ensures { self.new ≡ self.old }
    {
        self.given.pop().unwrap_or(0)
    }

    /// Remembers the slot that a search found: the next search begins in its row.
    #[inline(always)]
    pub fn found(&mut self, slot: u32)
        ensures { self.new ≡ self.old }
    {
        self.cursor = slot;
    }

    /// Returns the slot in whose row a search begins, from 6 to `nodes`.
    #[inline(always)]
    pub fn cursor(&self, nodes: u32) -> u32
        requires { FIRST_SLOT ≤ nodes }
        ensures low { 5 < result }
        ensures high { result ≤ nodes }
    {
        if FIRST_SLOT <= self.cursor && self.cursor <= nodes {
            self.cursor
        } else {
            FIRST_SLOT
        }
    }

    /// Returns the slot from which a search goes on, from 6 to `nodes`: the first one of the
    /// cursor's row.
    pub fn first(&self, nodes: u32) -> u32
        requires { FIRST_SLOT ≤ nodes }
        ensures low { 5 < result }
        ensures high { result ≤ nodes }
    {
        let cursor = self.cursor(nodes);
        (cursor - place_in_row(cursor)).max(FIRST_SLOT)
    }
}
