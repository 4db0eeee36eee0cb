//! Two members of a set that `Set::new` has made: one inserts tasks and the other one pops them. Both
//! are returned, and the report has what they have left, proved from the clauses of `nm_set` and the
//! laws of runs.
ghost use Rattle.std.specs.Prelude.{◌≡◌, ◌+◌, ◌∷◌, ◌++◌, [], true, None, IfSome, length};
ghost use Rattle.nm_callers.specs.Queues.{AddUp, IsWorkerOf};
ghost use Rattle.nm_set.specs.Seats.{IsNewMember};

use crate::sharing::{add_tasks, take_tasks};
use nm_edge::Key;
use nm_set::{Member, Options, Report, Set};
use std::alloc::Global;

/// The tasks of a queue that were inserted, popped and left.
#[derive(Drop)]
pub struct WorkedTasks {
    /// The number of tasks that the first member has inserted.
    pub added: usize,
    /// The tasks that the second member has popped.
    pub taken: Vec<Key>,
    /// The report of the set, with the tasks that are left.
    pub report: Report,
}

/// Takes the worker of a number, if it was never returned.
fn new_member(set: &Set, number: u32) -> Option<Member>
    ensures { IfSome result (IsNewMember set.now.tree set.now.fit number) }
{
    let Ok(member) = set.member(number) else {
        return None;
    };
    if member.returns() != 0 {
        return None;
    }
    Some(member)
}

/// Closes a member, and lets the set keep its worker as it was returned. Returns whether that was
/// done.
fn return_and_keep(set: &mut Set, member: Member) -> bool
    requires own { member.tree ≡ set.old.tree }
    requires free { member.worker.held ≡ None }
    ensures { result ≡ true
        → set.new ≡ record set.old { kept = set.old.kept ++ member.worker ∷ [] } }
{
    let Ok(()) = set.keep_returned(member.close()) else {
        return false;
    };
    true
}

/// Closes a set after both its members were returned. `None`: memory was refused, or a worker was
/// taken in between. Proved: otherwise the number of tasks that they have inserted is the number
/// that they have popped, plus the number that is left. So nobody else has changed the set.
fn close_after_return(set: Set, first: Member, second: Member) -> Option<Report>
    requires new { set.kept ≡ [] }
    requires two { set.tree.layout.workers ≡ 2 }
    requires first { IsWorkerOf set.tree 0 first }
    requires second { IsWorkerOf set.tree 1 second }
    requires free { (first.worker.held ≡ None) × (second.worker.held ≡ None) }
    ensures { IfSome result (λ r. AddUp (first.worker ∷ second.worker ∷ []) r.keys.items) }
{
    let mut set = set;
    first.know_run();
    second.know_run();
    if !return_and_keep(&mut set, first) {
        return None;
    }
    if !return_and_keep(&mut set, second) {
        return None;
    }
    match set.close() {
        Ok(report) => Some(report),
        Err(_) => None,
    }
}

/// Makes a set of two workers and takes both. One inserts tasks, in their order, and the other one
/// pops the least ones. Then both are returned, and the set is closed. `None`: a call returned an
/// error, memory was refused, or a worker was not new. Proved: otherwise the number of inserted
/// tasks is the number of popped tasks plus the number of those in the report.
pub fn work_and_return(
    alloc: Global,
    nodes: u32,
    tasks: &[Key],
    most: usize,
    options: &Options,
) -> Option<WorkedTasks>
    ensures { IfSome result (λ s. s.added ≡ length s.taken.items + length s.report.keys.items) }
{
    let Ok(set) = Set::new(alloc, nodes, 2) else {
        return None;
    };
    let mut one = new_member(&set, 0)?;
    let mut two = new_member(&set, 1)?;
    let added = add_tasks(&mut one, tasks, options)?;
    let taken = take_tasks(alloc, &mut two, most, options)?;
    let report = close_after_return(set, one, two)?;
    Some(WorkedTasks {
        added,
        taken,
        report,
    })
}
