//! What the report of a set has, if the set keeps its member or is closed by its last one, proved
//! from the clauses of `nm_set` and the page alone.
ghost use Rattle.std.specs.Prelude.{◌≡◌, [], true, IfSome, Contains};
ghost use Rattle.nm_callers.specs.Adding.{HasAdded};

use nm_edge::Key;
use nm_set::{Fit, Member, Report, Set};
use std::alloc::Global;

/// Makes a set of one worker, whose member inserts a key and is kept, and closes the set. `None`:
/// the insert did not return true, or memory was refused. Proved: otherwise the report of the
/// closed set has the key.
pub fn insert_then_report(alloc: Global, nodes: u32, key: Key, tries: u32) -> Option<Report>
    ensures { IfSome result (λ r. Contains r.keys.items key) }
{
    let Ok(set) = Set::unbalanced(alloc, nodes, 1, Fit::FirstFit) else {
        return None;
    };
    let Ok(mut member) = set.member(0) else {
        return None;
    };
    if !add(&mut member, key, tries) {
        return None;
    }
    close_with(set, member, key)
}

/// Inserts a key by a member that has flagged nothing; returns whether it had flagged nothing and
/// the insert returned true.
fn add(member: &mut Member, key: Key, tries: u32) -> bool
    ensures tree { member.new.tree ≡ member.old.tree }
    ensures added { result ≡ true → HasAdded key member.new.worker }
{
    if member.stats().flags != 0 {
        return false;
    }
    match member.try_insert(key, tries) {
        Ok(true) => true,
        _ => false,
    }
}

/// Closes a set with its only worker, whose member has inserted a key.
fn close_with(set: Set, member: Member, key: Key) -> Option<Report>
    requires new { set.kept ≡ [] }
    requires one { set.tree.layout.workers ≡ 1 }
    requires own { member.tree ≡ set.tree }
    requires added { HasAdded key member.worker }
    ensures { IfSome result (λ r. Contains r.keys.items key) }
{
    let mut set = set;
    member.know_run();
    let Ok(()) = set.keep(member) else {
        return None;
    };
    match set.close() {
        Ok(report) => Some(report),
        Err(_) => None,
    }
}

/// Makes a set of one worker, whose member inserts a key and then closes the set. `None`: the
/// insert did not return true, or memory was refused. Proved: otherwise the report has the key.
pub fn insert_then_end(alloc: Global, nodes: u32, key: Key, tries: u32) -> Option<Report>
    ensures { IfSome result (λ r. Contains r.keys.items key) }
{
    let Ok(set) = Set::unbalanced(alloc, nodes, 1, Fit::FirstFit) else {
        return None;
    };
    let Ok(mut member) = set.member(0) else {
        return None;
    };
    drop(set);
    if !add(&mut member, key, tries) {
        return None;
    }
    end_by(member, key)
}

/// Closes a set by its only worker, whose member has inserted a key.
fn end_by(member: Member, key: Key) -> Option<Report>
    requires one { member.tree.layout.workers ≡ 1 }
    requires added { HasAdded key member.worker }
    ensures { IfSome result (λ r. Contains r.keys.items key) }
{
    member.know_run();
    match member.end() {
        Ok(report) => Some(report),
        Err(_) => None,
    }
}
