//! The error of a call for a key.
use thiserror::Error;

/// Why `has`, `insert`, `delete` or `finish` has no answer. If several reasons apply, `Pending`
/// comes before `Busy` for 0 tries, and that comes before `NoMemory`.
#[derive(Clone, Copy, Debug, Error, PartialEq, Eq)]
pub enum CallFault {
    /// Each try was lost, by the pin or by the call itself, or the call had no try. The call has
    /// changed nothing in the set, but it may have helped other deletes. The worker is not pinned.
    #[error("each try was lost")]
    Busy,
    /// No slots were free for the two new nodes of an insert. A slot that was claimed is given
    /// back, and the worker is not pinned.
    #[error("no slot is free for a new node")]
    Full,
    /// The room of a try was refused before its first step. The call has changed nothing in the
    /// set, but it may have helped other deletes. The worker is not pinned.
    #[error("there is no memory for the room of a try")]
    NoMemory,
    /// The worker has flagged the leaf with the key, but the leaf is not known to be cut off. The
    /// worker stays pinned, and the key is pending.
    #[error("the leaf is flagged and not known to be cut off")]
    Unfinished,
    /// A key is pending, so only `finish` goes on. Nothing has changed, and there was no step.
    #[error("a key is pending")]
    Pending,
    /// The caller has pinned the worker, and has not unpinned it. Nothing has changed, and no step
    /// was made. Only calls of a member return this, because calls of the tree require a worker
    /// that its caller has not pinned.
    #[error("the worker is pinned: unpin it first")]
    Pinned,
}
