//! Walks for a key, by the slots to which they came.

ghost use Rattle.std.specs.Prelude.{◌≡◌, ◌<◌, ◌==◌, ◌&&◌, ◌||◌, ℕ, false, is_none, length, map, vec_capacity};
ghost use Rattle.std.specs.List.{list_any};
ghost use Rattle.nm_model.specs.Searches.{side_of, is_side, is_by, is_first, turns, goes_on, new_arrival, with_arrival, keyed, ended, walk_edge};
ghost use Rattle.nm_model.specs.Ordered.{ended_beside, ended_at, ended_elsewhere, is_covered, narrows, may_link_at, may_link_between, may_flag_at};

use crate::event::Op;
use crate::knowledge::Draft;
use nm_edge::{Key, Side, covers};

/// An operation of the set on a key, which a worker began with its pin.
#[derive(Clone, Copy, Debug, PartialEq, Eq)]
pub struct Call {
    pub op: Op,
    pub key: Key,
}

/// A slot to which a walk came, by the edge of a parent on a side.
#[derive(Clone, Copy, Debug, PartialEq, Eq)]
pub struct Arrival {
    pub slot: u32,
    pub parent: u32,
    pub side: Side,
    /// The slot's key, if it was read after the arrival.
    pub key: Option<u64>,
    /// Whether the slot's edge on the walk's side was then read as null, so that a walk ends there.
    pub ended: bool,
}

// Returns whether two sides are the same.
fn is_side(side: Side, other: Side) -> bool
    ensures { result ≡ is_side side other }
{
    side == other
}

// Returns the side of a key at a node with another key.
fn side_of(key: Key, other: u64) -> Side
    ensures { result ≡ side_of key other }
{
    if key.get() < other {
        Side::Left
    } else {
        Side::Right
    }
}

impl Arrival {
    // Returns the arrival at a slot whose key was not read yet.
    fn new(slot: u32, parent: u32, side: Side) -> Arrival
        ensures { result ≡ new_arrival slot parent side }
    {
        Arrival {
            slot,
            parent,
            side,
            key: None,
            ended: false,
        }
    }

    // Returns whether the arrival is at that slot, by that edge.
    fn is_by(self, slot: u32, parent: u32, side: Side) -> bool
        ensures { result ≡ is_by slot parent side self }
    {
        self.slot == slot && self.parent == parent && is_side(self.side, side)
    }

    // Returns whether a walk for this key goes on from the slot by its edge on that side.
    fn goes_on(self, key: Key, slot: u32, side: Side) -> bool
        ensures { result ≡ goes_on key slot side self }
    {
        self.slot == slot && self.turns(key, side)
    }

    // Returns whether a walk for this key turns to that side at its slot.
    fn turns(self, key: Key, side: Side) -> bool
        ensures { result ≡ turns key self.key side }
    {
        match self.key {
            Some(other) => is_side(side_of(key, other), side),
            None => false,
        }
    }

    // Returns whether the arrival changes when the key of that slot is read.
    fn waits_at(self, slot: u32) -> bool
        ensures waits { result ≡ ((self.slot == slot) && is_none self.key) }
        ensures stays { (key : ℕ) → result ≡ false → keyed slot key self ≡ self }
    {
        self.slot == slot && self.key.is_none()
    }

    // Returns whether the arrival changes when the slot's edge on that side is read as null.
    fn goes_on_yet(self, key: Key, slot: u32, side: Side) -> bool
        ensures { result ≡ false → ended key slot side self ≡ self }
    {
        !self.ended && self.goes_on(key, slot, side)
    }

    // Returns the arrival after the slot's key was read.
    fn keyed(self, slot: u32, key: u64) -> Arrival
        ensures { result ≡ keyed slot key self }
    {
        if self.waits_at(slot) {
            return Arrival {
                key: Some(key),
                ..self
            };
        }
        self
    }

    // Returns the arrival after the slot's edge on that side was read as null.
    fn ended(self, key: Key, slot: u32, side: Side) -> Arrival
        ensures { result ≡ ended key slot side self }
    {
        if self.goes_on(key, slot, side) {
            return Arrival {
                ended: true,
                ..self
            };
        }
        self
    }

    // Returns whether a walk ended at a leaf with this key.
    fn ended_at(self, key: Key) -> bool
        ensures { result ≡ ended_at key self }
    {
        self.ended && self.key == Some(key.get())
    }

    // Returns whether a walk ended at a leaf with another key.
    fn ended_beside(self, key: Key) -> bool
        ensures { result ≡ ended_beside key self }
    {
        self.ended && self.key != Some(key.get())
    }

    // Returns whether a walk ended at the leaf by that edge, and the draft puts the key beside that
    // of the leaf.
    fn may_link(self, draft: Draft, key: Key, parent: u32, side: Side, leaf: u32) -> bool
        ensures { result ≡ may_link_at draft key parent side leaf self }
    {
        let forks = match self.key {
            Some(other) => other != key.get() && draft.is_fork_for(leaf, key, other),
            None => false,
        };
        self.is_by(leaf, parent, side) && self.ended && forks
    }

    // Returns whether the slot's key was read, and the slot has this key in its range.
    fn is_covered(self, key: Key) -> bool
        ensures { result ≡ is_covered key self.key }
    {
        match self.key {
            Some(router) => covers(router, key.get()),
            None => false,
        }
    }

    // Returns whether a walk for this key goes on from the slot by its edge on that side, within
    // the slot's range.
    fn narrows(self, key: Key, slot: u32, side: Side) -> bool
        ensures { result ≡ narrows key slot side self }
    {
        self.goes_on(key, slot, side) && self.is_covered(key)
    }

    // Returns whether a walk came to the slot by that edge, and the draft parts the key from the
    // slot.
    fn may_link_between(
        self,
        draft: Draft,
        is_leaf: bool,
        key: Key,
        parent: u32,
        side: Side,
        slot: u32,
    ) -> bool
        ensures { result ≡ may_link_between draft is_leaf key parent side slot self }
    {
        self.is_by(slot, parent, side) && draft.parts_from(slot, key, is_leaf, self.key)
    }

    // Returns whether a walk ended by that edge at the leaf, and the leaf has this key.
    fn may_flag(self, key: Key, parent: u32, side: Side, leaf: u32) -> bool
        ensures { result ≡ may_flag_at key parent side leaf self }
    {
        self.is_by(leaf, parent, side) && self.ended_at(key)
    }
}

/// Records that the key of a slot was read: each arrival there without a key gets it.
pub fn put_key(arrivals: &mut Vec<Arrival>, slot: u32, key: u64)
    ensures { arrivals.new.items ≡ map (keyed slot key) arrivals.old.items }
{
    for index in 0..arrivals.len() {
        if arrivals[index].waits_at(slot) {
            arrivals[index] = arrivals[index].keyed(slot, key);
        }
    }
}

// Records that the slot's edge on a side was read as null: each walk that goes on by it has ended.
fn put_end(arrivals: &mut Vec<Arrival>, key: Key, slot: u32, side: Side)
    ensures { arrivals.new.items ≡ map (ended key slot side) arrivals.old.items }
{
    for index in 0..arrivals.len() {
        if arrivals[index].goes_on_yet(key, slot, side) {
            arrivals[index] = arrivals[index].ended(key, slot, side);
        }
    }
}

// Returns whether a walk goes on from the slot by its edge on that side.
fn go_on(arrivals: &Vec<Arrival>, key: Key, slot: u32, side: Side) -> bool
    ensures { result ≡ list_any (goes_on key slot side) arrivals.now.items }
{
    arrivals
        .iter()
        .any(|arrival| arrival.goes_on(key, slot, side))
}

// Returns whether a walk came to the slot by that edge.
fn has_arrival(arrivals: &Vec<Arrival>, slot: u32, parent: u32, side: Side) -> bool
    ensures { result ≡ list_any (is_by slot parent side) arrivals.now.items }
{
    arrivals
        .iter()
        .any(|arrival| arrival.is_by(slot, parent, side))
}

// Records that a walk came to a slot. An arrival is entered once.
fn put_arrival(arrivals: &mut Vec<Arrival>, slot: u32, parent: u32, side: Side)
    requires { length arrivals.old.items < vec_capacity arrivals.old }
    ensures { arrivals.new.items ≡ with_arrival arrivals.old.items slot parent side }
{
    if !has_arrival(arrivals, slot, parent, side) {
        arrivals.push(Arrival::new(slot, parent, side)).unwrap();
    }
}

/// Records that walks for a key read an edge to `child`. An arrival is entered once.
pub fn put_edge(arrivals: &mut Vec<Arrival>, key: Key, slot: u32, side: Side, child: u32)
    requires { length arrivals.old.items < vec_capacity arrivals.old }
    ensures { arrivals.new.items ≡ walk_edge key arrivals.old.items slot side child }
{
    if child == 0 {
        put_end(arrivals, key, slot, side);
        return;
    }
    let is_first = slot == 2 && is_side(side, Side::Left);
    if is_first || go_on(arrivals, key, slot, side) {
        put_arrival(arrivals, child, slot, side);
    }
}

/// Returns whether a walk ended at a leaf with this key.
pub fn has_ended_at(arrivals: &Vec<Arrival>, key: Key) -> bool
    ensures { result ≡ list_any (ended_at key) arrivals.now.items }
{
    arrivals.iter().any(|arrival| arrival.ended_at(key))
}

/// Returns whether a walk ended at a leaf with another key.
pub fn has_ended_beside(arrivals: &Vec<Arrival>, key: Key) -> bool
    ensures { result ≡ list_any (ended_beside key) arrivals.now.items }
{
    arrivals.iter().any(|arrival| arrival.ended_beside(key))
}

/// Returns whether a walk ended at another slot.
pub fn has_ended_elsewhere(arrivals: &Vec<Arrival>, slot: u32) -> bool
    ensures { result ≡ list_any (ended_elsewhere slot) arrivals.now.items }
{
    arrivals
        .iter()
        .any(|arrival| arrival.ended && arrival.slot != slot)
}

/// Returns whether a walk for the key ended at the leaf by that edge, the leaf has another key, and
/// the draft puts both keys in order.
pub fn may_link(
    arrivals: &Vec<Arrival>,
    draft: Draft,
    key: Key,
    parent: u32,
    side: Side,
    leaf: u32,
) -> bool
    ensures { result ≡ list_any (may_link_at draft key parent side leaf) arrivals.now.items }
{
    arrivals
        .iter()
        .any(|arrival| arrival.may_link(draft, key, parent, side, leaf))
}

// Returns whether a walk goes on from the slot by its edge on that side, within the slot's range.
fn narrow(arrivals: &Vec<Arrival>, key: Key, slot: u32, side: Side) -> bool
    ensures { result ≡ list_any (narrows key slot side) arrivals.now.items }
{
    arrivals
        .iter()
        .any(|arrival| arrival.narrows(key, slot, side))
}

/// Returns whether the edge is the first one that a walk reads, or one by which a walk for the key
/// goes on within the range of the parent.
pub fn are_within(arrivals: &Vec<Arrival>, key: Key, parent: u32, side: Side) -> bool
    ensures { result ≡ (is_first parent side
        || list_any (narrows key parent side) arrivals.now.items) }
{
    let is_first = parent == 2 && is_side(side, Side::Left);
    is_first || narrow(arrivals, key, parent, side)
}

/// Returns whether, in a radix tree, a walk for the key came to the slot by that edge, and the
/// draft parts the key from the slot. `is_leaf`: whether the slot is known as a leaf.
pub fn may_link_between(
    arrivals: &Vec<Arrival>,
    draft: Draft,
    is_leaf: bool,
    key: Key,
    parent: u32,
    side: Side,
    slot: u32,
) -> bool
    ensures { result
        ≡ list_any (may_link_between draft is_leaf key parent side slot) arrivals.now.items }
{
    arrivals.iter().any(|arrival| arrival.may_link_between(draft, is_leaf, key, parent, side, slot))
}

/// Returns whether a walk for the key ended by that edge at the leaf, and the leaf has this key.
pub fn may_flag(arrivals: &Vec<Arrival>, key: Key, parent: u32, side: Side, leaf: u32) -> bool
    ensures { result ≡ list_any (may_flag_at key parent side leaf) arrivals.now.items }
{
    arrivals
        .iter()
        .any(|arrival| arrival.may_flag(key, parent, side, leaf))
}
