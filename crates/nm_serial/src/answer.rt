//! The answers to the lines of a script.
ghost use Rattle.std.specs.Prelude.{◌≡◌};
ghost use Rattle.nm_serial.specs.Answers as spec;

use nm_tree::{Advance, CallFault, Collected, PinFault};

/// Why a line made no call.
#[derive(Clone, Copy, Debug, PartialEq, Eq)]
pub enum Refusal {
    /// Its worker or its heir has resigned, or its worker is its own heir.
    Gone,
    /// The worker is pinned by its caller, so it may not search, resign, or be pinned again.
    Held,
    /// The worker is not pinned by its caller, so there is nothing to unpin.
    Idle,
}

/// The answer to a line.
#[derive(Clone, Copy, Debug, PartialEq, Eq)]
pub enum Answer {
    /// The boolean that the call returned.
    Said(bool),
    /// Each try was lost.
    Busy,
    /// No slots were free for the new nodes of an insert.
    Full,
    /// The leaf is flagged, but it is not known to be cut off.
    Unfinished,
    /// A key is pending, and nothing was done.
    Pending,
    /// The worker is pinned at this epoch.
    Pinned(u64),
    /// The epoch moved on to this one: by this call to advance it, or in each try of a pin.
    Moved(u64),
    /// The worker is unpinned.
    Left,
    /// That worker, which was found announcing that epoch, holds the epoch back.
    Held { worker: u32, epoch: u64 },
    /// Another worker advanced the epoch to this one first.
    Lost(u64),
    /// The epoch is the last one.
    Spent,
    /// At this epoch a collection freed this number of nodes.
    Collected { epoch: u64, freed: u64 },
    /// The worker has resigned to its heir.
    Resigned,
    /// The line made no call.
    Refused(Refusal),
}

/// Returns the answer to a look-up, an insert, a delete or a finish; `None` if memory was refused.
pub fn of_change(changed: Result<bool, CallFault>) -> Option<Answer>
    ensures { result ≡ spec.change_answer changed }
{
    match changed {
        Ok(answer) => Some(Answer::Said(answer)),
        Err(CallFault::Busy) => Some(Answer::Busy),
        Err(CallFault::Full) => Some(Answer::Full),
        Err(CallFault::NoMemory) => None,
        Err(CallFault::Unfinished) => Some(Answer::Unfinished),
        Err(CallFault::Pending) => Some(Answer::Pending),
        Err(CallFault::Pinned) => Some(Answer::Refused(Refusal::Held)),
    }
}

/// Returns the answer to a pin.
pub fn of_pin(pinned: Result<u64, PinFault>) -> Answer
    ensures { result ≡ spec.pin_answer pinned }
{
    match pinned {
        Ok(epoch) => Answer::Pinned(epoch),
        Err(PinFault::Moved { epoch }) => Answer::Moved(epoch),
        Err(PinFault::Pending) => Answer::Pending,
        Err(PinFault::Pinned) => Answer::Refused(Refusal::Held),
    }
}

/// Returns the answer to an advance of the epoch.
pub fn of_advance(advance: Advance) -> Answer
    ensures { result ≡ spec.advance_answer advance }
{
    match advance {
        Advance::Moved { epoch } => Answer::Moved(epoch),
        Advance::Held { worker, epoch } => Answer::Held { worker, epoch },
        Advance::Lost { epoch } => Answer::Lost(epoch),
        Advance::Spent => Answer::Spent,
    }
}

/// Returns the answer to a collection.
pub fn of_collection(collected: Collected) -> Answer
    ensures { result ≡ spec.collection_answer collected }
{
    Answer::Collected {
        epoch: collected.epoch,
        freed: collected.freed,
    }
}
