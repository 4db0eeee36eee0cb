//! The events of workers: one atomic step each.
ghost use Rattle.std.specs.Prelude.{◌≡◌};
ghost use Rattle.nm_model.specs.Step.{is_edge};

use nm_edge::{Key, Side};

/// A field of a node.
#[derive(Clone, Copy, Debug, PartialEq, Eq)]
pub enum Field {
    Key,
    Edge(Side),
    Birth,
}

impl Field {
    /// Returns whether the field is an edge.
    pub fn is_edge(self) -> bool
        ensures { result ≡ is_edge self }
    {
        matches!(self, Field::Edge(_))
    }
}

/// An operation of the set on a key.
#[derive(Clone, Copy, Debug, PartialEq, Eq)]
pub enum Op {
    /// Returns whether the key is in the set.
    Has,
    /// Inserts the key; returns true if it was absent.
    Insert,
    /// Deletes the key; returns true if it was present.
    Delete,
}

/// One atomic step of a worker: one load, store, `fetch_or` or exchange of one word, with what the
/// worker learns by it.
#[derive(Clone, Copy, Debug, PartialEq, Eq)]
pub enum Event {
    /// Reads the global epoch (a sight), which may confirm a pin or label a cut.
    Sight,
    /// Reads the global epoch to confirm a pin. An operation on a key begins with this pin.
    SightFor(Op, Key),
    /// Announces the epoch last read: stores it in the worker's own announcement.
    Announce,
    /// Unpins: clears the worker's own announcement.
    Leave,
    /// Unpins and answers the operation of the pin: clears the worker's own announcement.
    LeaveWith(bool),
    /// Reads the announcement of a worker.
    Scan(u32),
    /// Advances the global epoch by one, if it is still the one last read.
    Advance,
    /// Takes a slot from the pool.
    Claim(u32),
    /// Gives a slot back to the pool: a private one, or the front of a queue.
    Give(u32),
    /// Reads a field of a slot.
    Look(u32, Field),
    /// Stores a field of a private slot.
    Fill(u32, Field, u64),
    /// Replaces the edge of a parent on a side by an edge to a new internal node, if it leads
    /// unmarked to the leaf. In a radix tree it may lead to an internal node instead. Fields:
    /// parent, side, leaf, new.
    Link(u32, Side, u32, u32),
    /// Flags the edge of a parent on a side, if it leads unmarked to the leaf. Fields: parent,
    /// side, leaf.
    Flag(u32, Side, u32),
    /// Sets the tag of the edge of a parent on a side.
    Tag(u32, Side),
    /// Replaces the edge of an ancestor on a side by the edge that the parent keeps, if it leads
    /// unmarked to the successor. Fields: ancestor, side, successor, parent, and the side that is
    /// kept.
    Splice(u32, Side, u32, u32, Side),
    /// Replaces the edge of a parent on a side by an edge to a new leaf, if it leads unmarked to the
    /// leaf, and cuts that off. Fields: parent, side, leaf, new.
    Swap(u32, Side, u32, u32),
    /// Takes over all queues that another worker holds. That worker resigns by it.
    Join(u32),
}
