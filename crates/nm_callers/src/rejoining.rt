//! A member that is closed, a worker of its set that is attached afterwards, and a worker that does
//! not resign, proved from the clauses of `nm_set` and the page alone.
ghost use Rattle.std.specs.Prelude.{◌≡◌, true, Some, IfSome};
ghost use Rattle.nm_callers.specs.Meanwhile.{NoneDeleted};

use nm_edge::Key;
use nm_set::{Member, Options, ResignError, ResignReason, Set};

/// A member that has looked up a key, and the answer.
#[derive(Drop)]
pub struct Rejoined {
    pub member: Member,
    pub there: bool,
}

/// Inserts a key by a member, and closes it, which leaves a note of all that the member has seen.
/// Then it attaches a worker of that set, which may be the same or another one. This worker hears
/// the note and looks up the key. `None`: a call returned an error, the key was in the set before, or no
/// worker was free. Proved: otherwise the key is found, unless a remove of it took effect after all
/// that the first member had seen before.
pub fn add_then_rejoin(set: &Set, member: Member, key: Key, options: &Options) -> Option<Rejoined>
    requires own { member.tree ≡ set.now.tree }
    ensures own { IfSome result (λ f. f.member.tree ≡ set.now.tree) }
    ensures found { IfSome result (λ f. NoneDeleted f.member.worker.pass.view.layout
        member.worker.pass.view.past f.member.worker.pass.view.past key → f.there ≡ true) }
{
    let mut member = member;
    let Ok(true) = member.insert(key, options) else {
        return None;
    };
    member.know_run();
    let note = member.close().into_note();
    let Ok(mut other) = set.attach() else {
        return None;
    };
    other.hear(note);
    let Ok(there) = other.contains(key, options) else {
        return None;
    };
    other.know_run();
    Some(Rejoined {
        member: other,
        there,
    })
}

/// Inserts a key by a member, closes it, and takes the same worker again, which looks up the key.
/// `None`: a call returned an error, the key was in the set before, or another member has had the
/// worker since. Proved: otherwise the key is found, unless a remove of it took effect after all that
/// the first member had seen before. No note is heard: the worker continues from where it was.
pub fn add_then_come_back(member: Member, key: Key, options: &Options) -> Option<Rejoined>
    ensures own { IfSome result (λ f. f.member.tree ≡ member.tree) }
    ensures found { IfSome result (λ f. NoneDeleted f.member.worker.pass.view.layout
        member.worker.pass.view.past f.member.worker.pass.view.past key → f.there ≡ true) }
{
    let mut member = member;
    let Ok(true) = member.insert(key, options) else {
        return None;
    };
    member.know_run();
    let Ok(mut back) = member.close().again() else {
        return None;
    };
    let Ok(there) = back.contains(key, options) else {
        return None;
    };
    back.know_run();
    Some(Rejoined {
        member: back,
        there,
    })
}

/// A worker that did not resign, and the member that was to be its heir.
#[derive(Drop)]
pub struct StayedLeaver {
    pub heir: Member,
    pub leaver: Member,
    /// Whether the leaver has finished a remove of its own.
    pub finished: bool,
}

/// Lets a worker at home resign to a member. If it may not, because it has a pending key, the same
/// worker is taken again by its ticket, and goes on with its own remove. `None`: the worker resigned,
/// or it was not found, or its queues had no room, or another member has had it since, or the remove
/// is not finished. Proved:
/// otherwise the worker has finished a remove that was pending when it was found, and the heir is
/// unchanged.
pub fn finish_own_remove(heir: Member, number: u32, tries: u32) -> Option<StayedLeaver>
    ensures heir { IfSome result (λ s. s.heir ≡ heir) }
    ensures own { IfSome result (λ s. s.leaver.tree ≡ heir.tree) }
    ensures finished { IfSome result (λ s. s.finished ≡ true) }
{
    let Err(error) = heir.resign(number) else {
        return None;
    };
    let ResignError {
        reason,
        member,
        leaver,
    } = error;
    let ResignReason::Pending = reason else {
        return None;
    };
    let Some(returned) = leaver else {
        return None;
    };
    let Ok(mut back) = returned.again() else {
        return None;
    };
    let Ok(finished) = back.finish(tries) else {
        return None;
    };
    Some(StayedLeaver {
        heir: member,
        leaver: back,
        finished,
    })
}
