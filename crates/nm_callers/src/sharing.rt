//! A queue of tasks: two members insert tasks, a third pops the least ones, and the report of the
//! set has the rest, proved from the clauses of `nm_set` and the laws of runs.
ghost use Rattle.std.specs.Prelude.{◌≡◌, ◌+◌, ◌∷◌, [], IfSome, length};
ghost use Rattle.nm_edge.specs.declared.placement.Fit.{Fit};
ghost use Rattle.nm_set.specs.Seats.{AreNewMembers, IsNewMember};
ghost use Rattle.nm_steps.specs.Steps.{TreeView};
ghost use Rattle.nm_callers.specs.Queues.{AddUp, HasWorked, IsAtRest, IsWorkerOf};

use nm_edge::Key;
use nm_set::{Member, Options, Report, Set};
use std::alloc::Global;

/// The tasks of a queue that were inserted, popped and left.
#[derive(Drop)]
pub struct SharedTasks {
    /// The numbers of tasks that the first member has inserted, and the second one.
    pub first: usize,
    pub second: usize,
    /// The tasks that the third member has popped.
    pub taken: Vec<Key>,
    /// The report of the set, with the tasks that are left.
    pub report: Report,
}

/// Inserts these tasks, in their order; returns how many of them were absent. `None`: a call
/// returned an error.
pub fn add_tasks(member: &mut Member, tasks: &[Key], options: &Options) -> Option<usize>
    requires rest { IsAtRest member.old.worker }
    ensures tree { member.new.tree ≡ member.old.tree }
    ensures did { IfSome result (λ n. HasWorked member.old.worker member.new.worker n 0) }
{
    let mut added = 0;
    for task in tasks {
        let Ok(new) = member.insert(*task, options) else {
            return None;
        };
        if new {
            added += 1;
        }
    }
    Some(added)
}

/// Pops the least task until there is none, or `most` tasks were popped; returns these tasks.
/// `None`: a call returned an error, or memory was refused.
pub fn take_tasks(
    alloc: Global,
    member: &mut Member,
    most: usize,
    options: &Options,
) -> Option<Vec<Key>>
    requires rest { IsAtRest member.old.worker }
    ensures tree { member.new.tree ≡ member.old.tree }
    ensures did { IfSome result
        (λ ks. HasWorked member.old.worker member.new.worker 0 (length ks.items)) }
{
    let Ok(mut taken) = Vec::with_capacity(alloc, most) else {
        return None;
    };
    for _turn in 0..most {
        match member.pop_first(options) {
            Ok(Some(task)) => taken.push_reserved(task),
            Ok(None) => return Some(taken),
            Err(_) => return None,
        }
    }
    Some(taken)
}

/// Returns the three members of a new set of three workers.
fn three_of(members: Vec<Member>) -> Option<(Member, Member, Member)>
    requires three { length members.items ≡ 3 }
    ensures new { (b : TreeView) (f : Fit) → AreNewMembers b f 0 members.items → IfSome result
        (λ ms. IsNewMember b f 0 ms.0 × IsNewMember b f 1 ms.1 × IsNewMember b f 2 ms.2) }
{
    let mut members = members;
    let third = members.pop()?;
    let second = members.pop()?;
    let first = members.pop()?;
    Some((first, second, third))
}

/// Closes a set that keeps all its members. `None`: memory was refused. Proved: otherwise the
/// number of tasks that they have inserted is the number that they have popped, plus the number
/// that is left.
fn close_with_all(set: Set, first: Member, second: Member, third: Member) -> Option<Report>
    requires new { set.kept ≡ [] }
    requires three { set.tree.layout.workers ≡ 3 }
    requires first { IsWorkerOf set.tree 0 first }
    requires second { IsWorkerOf set.tree 1 second }
    requires third { IsWorkerOf set.tree 2 third }
    ensures { IfSome result
        (λ r. AddUp (first.worker ∷ second.worker ∷ third.worker ∷ []) r.keys.items) }
{
    let mut set = set;
    first.know_run();
    second.know_run();
    third.know_run();
    let Ok(()) = set.keep(first) else {
        return None;
    };
    let Ok(()) = set.keep(second) else {
        return None;
    };
    let Ok(()) = set.keep(third) else {
        return None;
    };
    match set.close() {
        Ok(report) => Some(report),
        Err(_) => None,
    }
}

/// Makes a set of three members. Two of them insert tasks, each its own ones in their order, and
/// the third pops the least ones. Then it closes the set. `None`: a call returned an error, or
/// memory was refused. Proved: otherwise the number of inserted tasks is the number of popped tasks
/// plus the number of those in the report.
pub fn share_tasks(
    alloc: Global,
    nodes: u32,
    tasks: (&[Key], &[Key]),
    most: usize,
    options: &Options,
) -> Option<SharedTasks>
    ensures { IfSome result (λ s. s.first + s.second
        ≡ length s.taken.items + length s.report.keys.items) }
{
    let Ok((set, members)) = Set::with_members(alloc, nodes, 3) else {
        return None;
    };
    let (mut one, mut two, mut three) = three_of(members)?;
    let first = add_tasks(&mut one, tasks.0, options)?;
    let second = add_tasks(&mut two, tasks.1, options)?;
    let taken = take_tasks(alloc, &mut three, most, options)?;
    let report = close_with_all(set, one, two, three)?;
    Some(SharedTasks {
        first,
        second,
        taken,
        report,
    })
}
