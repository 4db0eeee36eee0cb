//! Calls of one member of a new set while the others make none, proved from the clauses of `nm_set`
//! and the laws of runs.
ghost use Rattle.std.specs.Prelude.{◌≡◌, ◌<◌, ◌+◌, ℕ, [], true, false, length, IfSome};
ghost use Rattle.nm_order.specs.Logs.{part_of};
ghost use Rattle.nm_edge.specs.declared.placement.Fit.{Fit};
ghost use Rattle.nm_set.specs.Seats.{AreNewMembers, IsNewMember};

use nm_edge::Key;
use nm_set::{Member, Options, Set};
use std::alloc::Global;

/// The answers to a member that inserted a key, looked it up, removed it, and looked it up once
/// more.
#[derive(Clone, Copy, Debug, PartialEq, Eq)]
pub struct PutAndTaken {
    pub added: bool,
    pub there: bool,
    pub removed: bool,
    pub still: bool,
}

/// Lets a member that has done nothing hear what another one has seen, and closes it. So it has
/// made no transition in what the other one has seen.
fn hear_and_go(member: &mut Member, other: Member)
    requires new { (f : Fit) × (n : ℕ) × IsNewMember member.old.tree f n other }
    ensures same { member.new ≡ member.old }
    ensures rested { part_of other.worker.pass.view.number member.old.worker.pass.view.past ≡ [] }
{
    let mut other = other;
    let note = member.note();
    other.hear(note);
    other.know_run();
}

/// Lets each of these members hear what the first one has seen, and closes it.
fn send_home(member: &mut Member, others: Vec<Member>)
    requires new { (f : Fit) × AreNewMembers member.old.tree f 0 others.items }
    ensures same { member.new ≡ member.old }
    ensures rested { (i : ℕ) → i < length others.items
        → part_of i member.old.worker.pass.view.past ≡ [] }
{
    for other in others {
        hear_and_go(member, other);
    }
}

/// Inserts a key by the last member of a new set, looks it up, removes it and looks it up once
/// more. Meanwhile the others do nothing; then they are closed. `None`: a call returned an error.
/// Proved: otherwise the answers are true, true, true and false.
pub fn put_and_take_alone(
    member: &mut Member,
    others: Vec<Member>,
    key: Key,
    options: &Options,
) -> Option<PutAndTaken>
    requires new { IsNewMember member.old.tree member.old.worker.fit (length others.items)
        member.old }
    requires rest { (f : Fit) × AreNewMembers member.old.tree f 0 others.items }
    requires all { member.old.tree.layout.workers ≡ length others.items + 1 }
    ensures tree { member.new.tree ≡ member.old.tree }
    ensures told { IfSome result (λ t. (t.added ≡ true) × (t.there ≡ true) × (t.removed ≡ true)
        × (t.still ≡ false)) }
{
    let Ok(added) = member.insert(key, options) else {
        return None;
    };
    member.know_run();
    let Ok(there) = member.contains(key, options) else {
        return None;
    };
    member.know_run();
    let Ok(removed) = member.remove(key, options) else {
        return None;
    };
    member.know_run();
    let Ok(still) = member.contains(key, options) else {
        return None;
    };
    member.know_run();
    send_home(member, others);
    Some(PutAndTaken {
        added,
        there,
        removed,
        still,
    })
}

/// Makes a set, whose last member inserts a key, looks it up, removes it and looks it up once more.
/// `None`: the set was refused, or a call returned an error. Proved: otherwise the answers are
/// true, true, true and false.
pub fn put_and_take_in_new(
    alloc: Global,
    nodes: u32,
    workers: u32,
    key: Key,
    options: &Options,
) -> Option<PutAndTaken>
    ensures told { IfSome result (λ t. (t.added ≡ true) × (t.there ≡ true) × (t.removed ≡ true)
        × (t.still ≡ false)) }
{
    let Ok((_set, mut others)) = Set::with_members(alloc, nodes, workers) else {
        return None;
    };
    let mut member = others.pop()?;
    put_and_take_alone(&mut member, others, key, options)
}
