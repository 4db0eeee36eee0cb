//! The errors of calls on a set and on its members.
use nm_tree::CallFault;
use thiserror::Error;

/// Why a managed insert failed.
#[derive(Clone, Copy, Debug, Error, PartialEq, Eq)]
pub enum InsertFault {
    /// No slot was free for a new node, even after a collection.
    #[error("{0}")]
    Full(Fullness),
    /// Any other error than `Full` of the tree.
    #[error("{0}")]
    Other(CallFault),
}

/// What a managed insert found when no slot was free: which worker delays reuse.
#[derive(Clone, Copy, Debug, Error, PartialEq, Eq)]
#[error("no slot is free for a new node; {waiting} removed nodes wait, {}", whoever(.behind))]
pub struct Fullness {
    /// The number of nodes that wait in the queues that the worker holds, when the call returns.
    pub waiting: u64,
    /// The other worker that was found to hold the epoch back, at a moment of the call. `None`: no
    /// worker was found so. Then the epoch was advanced twice during the call, or it is the last
    /// one.
    pub behind: Option<u32>,
}

/// Names the worker that delays reuse.
#[derive(Clone, Copy, Debug, Error, PartialEq, Eq)]
enum Holder {
    #[error("and worker {0} holds them back")]
    Worker(u32),
    #[error("and no worker holds them back")]
    Nobody,
}

fn whoever(behind: &Option<u32>) -> Holder {
    match behind {
        Some(worker) => Holder::Worker(*worker),
        None => Holder::Nobody,
    }
}

/// The caller has not pinned the worker. Nothing has changed, and no step was made.
#[derive(Clone, Copy, Debug, Error, PartialEq, Eq)]
#[error("the worker is not pinned")]
pub struct NotPinned;

/// Why a call under the caller's pin returned no value.
#[derive(Clone, Copy, Debug, Error, PartialEq, Eq)]
pub enum PinnedGetFault {
    /// The caller has not pinned the worker. Nothing has changed, and no step was made.
    #[error("the worker is not pinned")]
    NotPinned,
    /// The walk had looked at as many nodes as there are, and had not ended. In a radix tree this
    /// never happens.
    #[error("the walk has passed as many nodes as there are: call again")]
    Busy,
}

/// Why a set gave out no member.
#[derive(Clone, Copy, Debug, Error, PartialEq, Eq)]
pub enum MemberFault {
    /// The tree has no worker of that number.
    #[error("there is no worker of that number")]
    Number,
    /// Another member has that worker, or it has resigned.
    #[error("the worker is attached")]
    Attached,
    /// Each worker is attached to a member.
    #[error("each worker is attached")]
    NoWorker,
    /// A close failed after it had gathered all workers. Only `close` goes on.
    #[error("the set is closing")]
    Closing,
    /// The set has as many members as can be counted.
    #[error("there are too many members")]
    Uncounted,
}

/// Why a member did not observe a stamp.
#[derive(Clone, Copy, Debug, Error, PartialEq, Eq)]
pub enum ObserveFault {
    /// The tree has no worker of that number.
    #[error("there is no worker of that number")]
    Number,
    /// Another member is publishing or observing that stamp at this moment.
    #[error("another member is publishing or observing that stamp")]
    Busy,
}
