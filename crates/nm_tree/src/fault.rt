//! The error of a pin.
use thiserror::Error;

/// Why a worker was not pinned.
#[derive(Clone, Copy, Debug, Error, PartialEq, Eq)]
pub enum PinFault {
    /// The epoch moved on in each try, or the call had no try. The field is the epoch that was read
    /// last. The worker announces nothing.
    #[error("the epoch moved on to {epoch} in each try")]
    Moved { epoch: u64 },
    /// A key is pending. Nothing has changed, and there was no step.
    #[error("a key is pending")]
    Pending,
    /// The caller has pinned the worker already. Nothing has changed, and no step was made. Only
    /// calls of a member return this.
    #[error("the worker is pinned: unpin it first")]
    Pinned,
}
