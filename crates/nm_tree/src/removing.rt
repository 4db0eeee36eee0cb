//! Deletes that expect a value.
ghost use Rattle.std.specs.Prelude.{◌≡◌};
ghost use Rattle.nm_calls.specs.Maps.{HasTaken};
ghost use Rattle.nm_steps.specs.Values.{HasValues};
ghost use Rattle.nm_tree.specs.Answers.{IfTaken};
ghost use Rattle.nm_tree.specs.Calls.{MayCall, LeavesDelete};
ghost use Rattle.nm_tree.specs.Removing.{AsDelete, IfOther, SaysOther, outcome_of};

use crate::tree::Tree;
use crate::worker::{Standing, Worker};
use nm_calls::{CallFault, Deletion, Unfinished};
use nm_edge::Key;
use nm_puts::{DeleteOutcome, delete_if};

/// What a remove that expects a value did, or why it changed nothing.
#[derive(Clone, Copy, Debug, PartialEq, Eq)]
pub enum RemoveOutcome {
    /// The key had the expected value, and is removed.
    Removed,
    /// The key was absent, and nothing is changed.
    Absent,
    /// The key had this value, which is not the expected one, and nothing is changed.
    Other(u64),
}

impl RemoveOutcome {
    /// Converts the answer of a remove.
    pub fn of(removed: bool) -> RemoveOutcome
        ensures { result ≡ outcome_of removed }
    {
        if removed {
            RemoveOutcome::Removed
        } else {
            RemoveOutcome::Absent
        }
    }
}

impl Tree {
    /// Deletes `key` if it has the `expected` value; returns what it did, or why it changed nothing. The
    /// tree must have values, and the caller must not have pinned the worker.
    ///
    /// `Removed`, `Absent`: it went as `delete_with_value`, and the key had the expected value, or was
    /// absent. Proved (`takes`): after `Removed`, and after `Unfinished`, this call has flagged a leaf,
    /// and right before that the map had the key with the expected value in this very leaf. `Other`:
    /// the key had the value that is returned, which is not the expected one, at a moment
    /// (linearization point) of the call. Nothing is changed, and the call frees no node (`other`).
    ///
    /// Errors and cost are those of `delete`. (The delete of Natarajan and Mittal, section 3.2; the
    /// condition is ours.)
    pub fn delete_if(
        &self,
        worker: &mut Worker,
        key: Key,
        expected: u64,
        tries: u32,
    ) -> Result<RemoveOutcome, CallFault>
        requires call { MayCall self.now worker.old }
        requires values { HasValues self.now }
        ensures leaves { AsDelete result (LeavesDelete self.now.layout tries key worker.old
            worker.new) }
        ensures takes { AsDelete result (λ r. IfTaken r (HasTaken worker.old.pass worker.new.pass key
            expected)) }
        ensures other { IfOther result (SaysOther self.now.layout tries key expected worker.old
            worker.new) }
    {
        if let Standing::Pending(_) = worker.standing {
            return Err(CallFault::Pending);
        }
        let own = &mut worker.queues[worker.home];
        worker.pass.know_run();
        match delete_if(
            &self.shared,
            &mut worker.pass,
            &mut worker.workspace,
            own,
            key,
            expected,
            tries,
        ) {
            Ok(DeleteOutcome::Deletion(Deletion::Done(removed))) => {
                worker.pass.know_run();
                Ok(RemoveOutcome::of(removed))
            }
            Ok(DeleteOutcome::Deletion(Deletion::Pending(leaf))) => {
                worker.pass.know_run();
                worker.standing = Standing::Pending(Unfinished { key, leaf });
                Err(CallFault::Unfinished)
            }
            Ok(DeleteOutcome::Other(found)) => Ok(RemoveOutcome::Other(found)),
            Err(fault) => {
                worker.pass.know_run();
                Err(fault)
            }
        }
    }
}
