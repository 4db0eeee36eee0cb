//! What a call returns to C: an answer or an error, as a number.
ghost use Rattle.std.specs.Prelude.{◌≡◌};
ghost use Rattle.nm_set.specs.Managed.{of_insert};
ghost use Rattle.nm_set_c.specs.Outcomes.{code_of, of_bool, of_fault, of_answer, of_put, of_remove, of_new, of_taking, of_staying, of_reason};

use nm_set::{
    CallFault, CloseReason, InsertFault, MemberFault, NewError, PutOutcome, RemoveOutcome,
    ResignReason,
};

/// What came of a call. After an error nothing has changed, unless its own line says more.
#[derive(Clone, Copy, Debug, PartialEq, Eq)]
pub enum Outcome {
    /// The answer is no.
    No,
    /// The answer is yes.
    Yes,
    /// The call did what it is for.
    Done,
    /// The key was absent, and is inserted with the value.
    Inserted,
    /// The value of the key is replaced.
    Replaced,
    /// The key is absent, and nothing is changed.
    Absent,
    /// The key has another value than the expected one, and nothing is changed.
    Other,
    /// The handle is closed.
    Closed,
    /// The handle that is to be opened is open already.
    Open,
    /// The handle owns something of another kind.
    Kind,
    /// The key is above 2^64 - 4.
    Key,
    /// There is nothing of that number.
    Number,
    /// The number of nodes is not 7 to 268,435,456.
    Nodes,
    /// The number of workers is not 1 to 64.
    Workers,
    /// Memory was refused.
    NoMemory,
    /// Each try was lost, or the options allow none. Of the call nothing remains but help given to
    /// others.
    Busy,
    /// No slots were free for the two new nodes of an insert.
    Full,
    /// The leaf with the key is flagged and not known to be cut off: the key is pending.
    Unfinished,
    /// A key is pending, so that only finish goes on.
    Pending,
    /// The caller has pinned the worker, and has not unpinned it.
    Pinned,
    /// The caller has not pinned the worker.
    NotPinned,
    /// A worker holds the epoch back.
    Behind,
    /// Another worker advanced the epoch first.
    Lost,
    /// The epoch is the last one.
    Spent,
    /// The worker is attached or has resigned, or a worker of the set is attached.
    Attached,
    /// A close was refused after all workers had been gathered: only close goes on.
    Closing,
    /// Fewer workers were returned than the tree has.
    NotAll,
    /// There are as many handles as can be counted.
    Uncounted,
    /// Another call has the handle at this moment.
    InUse,
    /// Each worker of the set is attached.
    NoWorker,
}

impl Outcome {
    /// Returns its number in the header.
    #[tactic(auto, unfolding(crate::specs::Outcomes::code_of))]
    pub(crate) fn code(self) -> i32
        ensures { result ≡ code_of self }
    {
        match self {
            Outcome::No => 0,
            Outcome::Yes => 1,
            Outcome::Done => 2,
            Outcome::Inserted => 3,
            Outcome::Replaced => 4,
            Outcome::Absent => 5,
            Outcome::Other => 6,
            Outcome::Closed => -1,
            Outcome::Open => -2,
            Outcome::Kind => -3,
            Outcome::Key => -4,
            Outcome::Number => -5,
            Outcome::Nodes => -6,
            Outcome::Workers => -7,
            Outcome::NoMemory => -8,
            Outcome::Busy => -9,
            Outcome::Full => -10,
            Outcome::Unfinished => -11,
            Outcome::Pending => -12,
            Outcome::Pinned => -13,
            Outcome::NotPinned => -14,
            Outcome::Behind => -15,
            Outcome::Lost => -16,
            Outcome::Spent => -17,
            Outcome::Attached => -18,
            Outcome::Closing => -19,
            Outcome::NotAll => -20,
            Outcome::Uncounted => -21,
            Outcome::InUse => -22,
            Outcome::NoWorker => -23,
        }
    }

    /// Converts a yes or no.
    pub(crate) fn of(answer: bool) -> Outcome
        ensures { result ≡ of_bool answer }
    {
        if answer { Outcome::Yes } else { Outcome::No }
    }

    /// Converts the error of a call.
    pub(crate) fn of_fault(fault: CallFault) -> Outcome
        ensures { result ≡ of_fault fault }
    {
        match fault {
            CallFault::Busy => Outcome::Busy,
            CallFault::Full => Outcome::Full,
            CallFault::NoMemory => Outcome::NoMemory,
            CallFault::Unfinished => Outcome::Unfinished,
            CallFault::Pending => Outcome::Pending,
            CallFault::Pinned => Outcome::Pinned,
        }
    }

    /// Converts the result of a worker's call for a key.
    pub(crate) fn of_answer(answer: Result<bool, CallFault>) -> Outcome
        ensures { result ≡ of_answer answer }
    {
        match answer {
            Ok(answer) => Outcome::of(answer),
            Err(fault) => Outcome::of_fault(fault),
        }
    }

    /// Converts the result of a put, and leaves out the value that was found.
    pub(crate) fn of_put(done: &Result<PutOutcome, CallFault>) -> Outcome
        ensures { result ≡ of_put done.now }
    {
        match done {
            Ok(PutOutcome::Inserted) => Outcome::Inserted,
            Ok(PutOutcome::Replaced(_)) => Outcome::Replaced,
            Ok(PutOutcome::Absent) => Outcome::Absent,
            Ok(PutOutcome::Other(_)) => Outcome::Other,
            Err(fault) => Outcome::of_fault(*fault),
        }
    }

    /// Converts the result of a remove that expects a value, and leaves out the value that was found.
    pub(crate) fn of_remove(done: &Result<RemoveOutcome, CallFault>) -> Outcome
        ensures { result ≡ of_remove done.now }
    {
        match done {
            Ok(RemoveOutcome::Removed) => Outcome::Yes,
            Ok(RemoveOutcome::Absent) => Outcome::Absent,
            Ok(RemoveOutcome::Other(_)) => Outcome::Other,
            Err(fault) => Outcome::of_fault(*fault),
        }
    }

    /// Converts the result of a managed insert, and leaves out which worker delays reuse.
    pub(crate) fn of_inserted(answer: Result<bool, InsertFault>) -> Outcome
        ensures { result ≡ of_answer (of_insert answer) }
    {
        match answer {
            Ok(answer) => Outcome::of(answer),
            Err(InsertFault::Full(_)) => Outcome::Full,
            Err(InsertFault::Other(fault)) => Outcome::of_fault(fault),
        }
    }

    /// Converts why a set was not made.
    pub(crate) fn of_new(error: NewError) -> Outcome
        ensures { result ≡ of_new error }
    {
        match error {
            NewError::Nodes => Outcome::Nodes,
            NewError::Workers => Outcome::Workers,
            NewError::NoMemory => Outcome::NoMemory,
        }
    }

    /// Converts why a worker was not given out.
    pub(crate) fn of_taking(fault: MemberFault) -> Outcome
        ensures { result ≡ of_taking fault }
    {
        match fault {
            MemberFault::Number => Outcome::Number,
            MemberFault::Attached => Outcome::Attached,
            MemberFault::NoWorker => Outcome::NoWorker,
            MemberFault::Closing => Outcome::Closing,
            MemberFault::Uncounted => Outcome::Uncounted,
        }
    }

    /// Converts why a worker did not resign.
    pub(crate) fn of_staying(reason: ResignReason) -> Outcome
        ensures { result ≡ of_staying reason }
    {
        match reason {
            ResignReason::Number => Outcome::Number,
            ResignReason::Attached => Outcome::Attached,
            ResignReason::Pending => Outcome::Pending,
            ResignReason::Held => Outcome::Pinned,
            ResignReason::NoMemory => Outcome::NoMemory,
        }
    }

    /// Converts why a set was not closed.
    pub(crate) fn of_reason(reason: CloseReason) -> Outcome
        ensures { result ≡ of_reason reason }
    {
        match reason {
            CloseReason::Attached => Outcome::Attached,
            CloseReason::NotAll { .. } => Outcome::NotAll,
            CloseReason::NoMemory => Outcome::NoMemory,
        }
    }
}
