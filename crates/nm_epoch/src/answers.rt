//! The results of calls on the epoch.
use thiserror::Error;

/// Each try to pin was lost: the epoch had moved on before it was read again.
#[derive(Clone, Copy, Debug, PartialEq, Eq, Error)]
#[error("the epoch moved on to {epoch} in each try to pin it")]
pub struct Moved {
    /// The epoch that was read last.
    pub epoch: u64,
}

/// The result of an attempt to advance the epoch.
#[derive(Clone, Copy, Debug, PartialEq, Eq)]
pub enum Advance {
    /// The epoch is now this one, by this worker's step.
    Moved { epoch: u64 },
    /// This worker, the first by number, was found announcing this epoch, which is not the one that
    /// was read.
    Held { worker: u32, epoch: u64 },
    /// Another worker moved the epoch on first; this one was found.
    Lost { epoch: u64 },
    /// The epoch is 2^62, the last one, and no worker holds it back.
    Spent,
}

/// The workers that lag behind the epoch.
#[derive(Clone, Copy, Debug, PartialEq, Eq)]
pub struct Behind {
    /// The epoch that was read.
    pub epoch: u64,
    /// Bit w is set exactly if worker w was found announcing another epoch.
    pub mask: u64,
}
