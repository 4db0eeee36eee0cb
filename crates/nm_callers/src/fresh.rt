//! What the members of a new set find, proved from the clauses of `nm_set` and the page alone.
ghost use Rattle.std.specs.Prelude.{◌≡◌, ℕ, false, [], IfSome};
ghost use Rattle.nm_set.specs.Seats.{AreNewMembers, IsNewMember};
ghost use Rattle.nm_callers.specs.Meanwhile.{NoneInserted};

use nm_edge::Key;
use nm_set::{Member, Options, Set};
use std::alloc::Global;

/// A new set, its last member, which has looked up a key, and the other members, which have done
/// nothing yet.
#[derive(Drop)]
pub struct Looked {
    pub set: Set,
    pub member: Member,
    pub others: Vec<Member>,
    /// The answer of the look-up; `None` if it returned an error.
    pub found: Option<bool>,
}

/// Looks up a key by a member that has done nothing yet. `None`: the call returned an error.
/// Proved: otherwise the key is absent, unless an insert of it took effect after all that the
/// member had seen before, which was nothing.
pub fn look_first(member: &mut Member, key: Key, options: &Options) -> Option<bool>
    requires new { (n : ℕ) × IsNewMember member.old.tree member.old.worker.fit n member.old }
    ensures tree { member.new.tree ≡ member.old.tree }
    ensures missed { NoneInserted member.new.worker.pass.view.layout member.old.worker.pass.view.past
        member.new.worker.pass.view.past key → IfSome result (λ b. b ≡ false) }
{
    member.contains(key, options).ok()
}

/// Makes a set, whose last member looks up a key. `None`: the set was refused. Proved: if the
/// look-up has an answer, the key is absent, unless an insert of it took effect: one that has its
/// moment (linearization point) in some history of all turns that the member has then seen.
pub fn look_in_new(
    alloc: Global,
    nodes: u32,
    workers: u32,
    key: Key,
    options: &Options,
) -> Option<Looked>
    ensures own { IfSome result (λ r. r.member.tree ≡ r.set.tree) }
    ensures others { IfSome result (λ r. AreNewMembers r.set.tree r.set.fit 0 r.others.items) }
    ensures missed { IfSome result (λ r. NoneInserted r.member.worker.pass.view.layout []
        r.member.worker.pass.view.past key → IfSome r.found (λ b. b ≡ false)) }
{
    let Ok((set, mut others)) = Set::with_members(alloc, nodes, workers) else {
        return None;
    };
    let mut member = others.pop()?;
    let found = look_first(&mut member, key, options);
    Some(Looked {
        set,
        member,
        others,
        found,
    })
}

/// Looks up a key by the only member of a set, which has done nothing yet. `None`: the call
/// returned an error. Proved: otherwise the key is absent, because no other worker can have
/// inserted it.
pub fn look_only(member: &mut Member, key: Key, options: &Options) -> Option<bool>
    requires new { (n : ℕ) × IsNewMember member.old.tree member.old.worker.fit n member.old }
    requires one { member.old.tree.layout.workers ≡ 1 }
    ensures tree { member.new.tree ≡ member.old.tree }
    ensures missed { IfSome result (λ b. b ≡ false) }
{
    let found = member.contains(key, options);
    member.know_run();
    found.ok()
}

/// Makes a set of one worker, whose member looks up a key. `None`: the set was refused, or the call
/// returned an error. Proved: otherwise the key is absent, because a new set is empty.
pub fn look_in_new_of_one(alloc: Global, nodes: u32, key: Key, options: &Options) -> Option<bool>
    ensures missed { IfSome result (λ b. b ≡ false) }
{
    let Ok((_set, mut members)) = Set::with_members(alloc, nodes, 1) else {
        return None;
    };
    let mut member = members.pop()?;
    look_only(&mut member, key, options)
}

/// Makes a set of one worker by `Set::new`, takes its worker, and looks up a key. `None`: the set or
/// the worker was refused, the worker had been returned before, or the call returned an error.
/// Proved: otherwise the key is absent, because a new set is empty and its workers are new.
pub fn look_in_fresh(alloc: Global, nodes: u32, key: Key, options: &Options) -> Option<bool>
    ensures missed { IfSome result (λ b. b ≡ false) }
{
    let Ok(set) = Set::new(alloc, nodes, 1) else {
        return None;
    };
    let Ok(mut member) = set.member(0) else {
        return None;
    };
    if member.returns() != 0 {
        return None;
    }
    look_only(&mut member, key, options)
}
