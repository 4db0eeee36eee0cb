//! Calls of one member of a set in sequence, and of a second one that has heard of them, proved
//! from the clauses of `nm_set` and the page alone.
ghost use Rattle.std.specs.Prelude.{◌≡◌, true, false, IfSome};
ghost use Rattle.nm_steps.specs.Steps.{HasSeenAllOf};
ghost use Rattle.nm_callers.specs.Meanwhile.{NoneDeleted, NoneInserted};
ghost use Rattle.nm_callers.specs.PuttingBack.{IsPutAgain, IsPutBack, IsThereThenGone};

use nm_edge::Key;
use nm_set::{Member, Options};

/// Inserts a key and looks it up. `None`: a call returned an error, or the key was in the set
/// before. Proved: otherwise the key is found, unless a remove of it took effect after all that the
/// member had seen before.
pub fn add_then_find(member: &mut Member, key: Key, options: &Options) -> Option<bool>
    ensures tree { member.new.tree ≡ member.old.tree }
    ensures past { HasSeenAllOf member.new.worker.pass member.old.worker.pass }
    ensures found { NoneDeleted member.new.worker.pass.view.layout member.old.worker.pass.view.past
        member.new.worker.pass.view.past key → IfSome result (λ b. b ≡ true) }
{
    match member.insert(key, options) {
        Ok(true) => member.contains(key, options).ok(),
        _ => None,
    }
}

/// Removes a key and looks it up. `None`: a call returned an error, or the key was not in the set.
/// Proved: otherwise the key is absent, unless an insert of it took effect after all that the
/// member had seen before.
pub fn remove_then_miss(member: &mut Member, key: Key, options: &Options) -> Option<bool>
    ensures tree { member.new.tree ≡ member.old.tree }
    ensures past { HasSeenAllOf member.new.worker.pass member.old.worker.pass }
    ensures missed { NoneInserted member.new.worker.pass.view.layout member.old.worker.pass.view.past
        member.new.worker.pass.view.past key → IfSome result (λ b. b ≡ false) }
{
    match member.remove(key, options) {
        Ok(true) => member.contains(key, options).ok(),
        _ => None,
    }
}

/// Inserts a key, looks it up, removes it and looks it up once more; returns the two answers.
/// `None`: a call returned an error, or the insert or the remove did not return true. Proved:
/// otherwise the key is there at first, unless a remove took effect, and then absent, unless an
/// insert took effect. The member's own insert and remove do not count.
pub fn put_and_take(member: &mut Member, key: Key, options: &Options) -> Option<(bool, bool)>
    ensures tree { member.new.tree ≡ member.old.tree }
    ensures told { IfSome result (IsThereThenGone key member.old.worker member.new.worker) }
{
    let there = add_then_find(member, key, options)?;
    let still = remove_then_miss(member, key, options)?;
    Some((there, still))
}

/// Removes a key, inserts it again, and looks it up. `None`: a call returned an error, or the
/// remove or the insert did not return true. Proved: otherwise the key is found, unless a remove of
/// it took effect after all that the member had seen when it inserted the key again. Its own remove
/// does not count.
pub fn put_back(member: &mut Member, key: Key, options: &Options) -> Option<bool>
    ensures tree { member.new.tree ≡ member.old.tree }
    ensures back { IsPutBack key member.old.worker member.new.worker result }
{
    match member.remove(key, options) {
        Ok(true) => add_then_find(member, key, options),
        _ => None,
    }
}

/// Inserts a key, removes it, inserts it again, and looks it up. `None`: a call returned an error,
/// or one of the changes did not return true. Proved: otherwise the key is found, unless a remove
/// of it took effect after all that the member had seen when it inserted the key again. Its own
/// remove does not count.
pub fn put_again(member: &mut Member, key: Key, options: &Options) -> Option<bool>
    ensures tree { member.new.tree ≡ member.old.tree }
    ensures again { IsPutAgain key member.old.worker member.new.worker result }
{
    match member.insert(key, options) {
        Ok(true) => put_back(member, key, options),
        _ => None,
    }
}

/// Removes a key by one member, and then by another one, which has heard of it. `None`: a call
/// returned an error, or the first remove did not return true. Proved: otherwise the second remove
/// returns false, unless an insert of the key took effect after all that the first member had seen
/// before.
pub fn take_once(
    first: &mut Member,
    second: &mut Member,
    key: Key,
    options: &Options,
) -> Option<bool>
    requires same { first.old.tree ≡ second.old.tree }
    ensures once { NoneInserted second.new.worker.pass.view.layout first.old.worker.pass.view.past
        second.new.worker.pass.view.past key → IfSome result (λ b. b ≡ false) }
{
    let Ok(true) = first.remove(key, options) else {
        return None;
    };
    let note = first.note();
    second.hear(note);
    let taken = second.remove(key, options);
    first.know_run();
    second.know_run();
    taken.ok()
}
