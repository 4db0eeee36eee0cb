//! The replies to events, and the reasons why an event is refused.
use crate::ledger::Nodes;
use crate::ledgers::Ledgers;
use nm_edge::{Edge, NodeId};
use std::alloc::AllocError;

/// The reply to an event that was allowed.
#[derive(Debug, Drop)]
pub enum Reply {
    /// The global epoch.
    Saw(u64),
    /// The global epoch, which is now the label of the entries that had none.
    Labelled(u64),
    /// The worker is pinned at this epoch.
    Pinned(u64),
    /// The pin is not confirmed, because the global epoch is now this one.
    Missed(u64),
    /// The epoch that was announced.
    Announced(u64),
    /// The worker is idle.
    Departed,
    /// The worker that was scanned is idle.
    Idle,
    /// The worker that was scanned announces this epoch.
    In(u64),
    /// The global epoch was advanced to this one.
    Moved(u64),
    /// Another worker had advanced the global epoch, to this one.
    Behind(u64),
    /// The slot is private to the worker.
    Claimed(u32),
    /// The slot was not in the pool.
    Taken,
    /// The private slot is in the pool again.
    Returned(u32),
    /// The node left its queue, and its slot is in the pool again.
    Freed(NodeId),
    /// A key word.
    KeyIs(u64),
    /// A birth word.
    BirthIs(u64),
    /// An edge.
    EdgeIs(Edge),
    /// The field was stored.
    Filled,
    /// The new node is in the tree.
    Linked(NodeId),
    /// The leaf is flagged.
    Flagged(NodeId),
    /// The edge as it was before it was tagged.
    Was(Edge),
    /// The nodes that were cut off, from the successor downwards: each internal node, followed by
    /// its flagged leaf.
    Cut(Nodes),
    /// The exchange failed, because it found this edge.
    Lost(Edge),
    /// The ledgers that the worker took over, by origin.
    Joined(Ledgers),
}

/// Why an event was refused. If several reasons hold, the first of this order is returned. The
/// state is unchanged.
#[derive(Clone, Copy, Debug, PartialEq, Eq)]
pub enum Refused {
    /// A worker number is not below the number of workers, or that worker has resigned.
    NoWorker,
    /// A slot is outside the range that the event allows.
    NoSlot,
    /// The event needs a pin, and the worker has none.
    NotPinned,
    /// The worker does not know a node, or does not know it as a leaf although the event needs one.
    NotHeld,
    /// The slot is not private to this worker. For a give: and it is in no queue that the worker
    /// holds.
    NotPrivate,
    /// The worker has read no epoch yet, has a pin that is in the way or an unlabelled cut, has not
    /// finished its scans, or has not filled the node.
    NotReady,
    /// The node is not the front of a queue that the worker holds.
    NotFront,
    /// The node's label plus 2 is above the epoch that the worker read.
    TooYoung,
    /// The worker does not know the twin of the edge as flagged (for a tag), or knows no chain of
    /// tagged edges with flagged twins (for a splice).
    NotFrozen,
    /// The epoch or the slot's birth is exhausted: it is 2^62.
    Spent,
    /// In an ordered core: the worker's log does not show that this link or flag belongs to its
    /// operation.
    NotOrdered,
    /// In an ordered core: the worker's log does not show the answer of its operation, or the
    /// worker leaves without an answer after a link or a flag.
    NoAnswer,
    /// Out of memory, and no other reason holds.
    NoMemory,
}

impl From<AllocError> for Refused {
    ghost use Rattle.std.specs.Prelude.{◌≡◌};
    ghost use Rattle.nm_model.specs.declared.reply.Refused.TheVariants.{NoMemory};

    ghost from_gives = { λ _ e. e ≡ NoMemory };

    fn from(_: AllocError) -> Refused {
        Refused::NoMemory
    }
}
