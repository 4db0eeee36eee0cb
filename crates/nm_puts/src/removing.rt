//! Deletes that expect a value.
ghost use Rattle.std.specs.Prelude.{◌≡◌, ◌≢◌, ◌≤◌, ◌<◌, ℕ, List, length, Ok, None, Some, IfErr, IfOk};
ghost use Rattle.nm_edge.specs.Keys.{IsKey};
ghost use Rattle.nm_model.specs.declared.event.Op.TheVariants.{Delete};
ghost use Rattle.nm_model.specs.Walks.{Entry};
ghost use Rattle.nm_steps.specs.Rules.{knowledge};
ghost use Rattle.nm_steps.specs.Steps.{PassView, IsOf, Continues};
ghost use Rattle.nm_steps.specs.Values.{HasValues};
ghost use Rattle.nm_epoch.specs.Resting.{IsResting, search};
ghost use Rattle.nm_walks.specs.Bounds.{chain_bound, cut_bound};
ghost use Rattle.nm_walks.specs.Cleanups.{KeepsLedgers, HoldsCuts};
ghost use Rattle.nm_walks.specs.Labelling.{IsPinnedForCall};
ghost use Rattle.nm_walks.specs.Rooms.{FillsUp, TakesRoom};
ghost use Rattle.nm_walks.specs.Telling.{Tells, GoesOn, IsPinnedIn};
ghost use Rattle.nm_walks.specs.Walks.{IsAt, Seeks};
ghost use Rattle.nm_calls.specs.declared.deleting.Injection.TheVariants as injection;
ghost use Rattle.nm_calls.specs.declared.deleting.Removal.TheVariants as removal;
ghost use Rattle.nm_calls.specs.Deletes.{AfterDelete, DeleteFinishes, FlagsThen, IfDone, IfFlagged, IfInjected, IfTaken, IsFlagTry, IsInjection, LacksRoomOr, LosesAfterFlag, MayFlag, OnlyInjects, RestsOrRemoves, ShowsFlag, ShowsInjection};
ghost use Rattle.nm_calls.specs.Leaving.{HasChangedNothing};
ghost use Rattle.nm_calls.specs.Maps.{HasReadFlagged, HasTaken};
ghost use Rattle.nm_calls.specs.Moments.{AnswerHasMoment, HadNoCall};
ghost use Rattle.nm_puts.specs.Removing.{AfterOther, AsDelete, FindsAfter, FindsKey, IfOther, FoundOther, ReadsOther, outcome_of};

use nm_calls::{
    CallFault, Deletion, FlaggedLeaf, Injected, Injection, end_delete, flag_or_help, leave,
    make_room, make_room_for,
};
use nm_edge::Key;
use nm_epoch::{HeldQueue, pin_for};
use nm_model::Op;
use nm_steps::{Pass, Shared};
use nm_walks::{Stop, WalkEnd, Workspace, seek};

/// What a delete that expects a value did, or why it changed nothing.
#[derive(Clone, Copy, Debug, PartialEq, Eq)]
pub enum DeleteOutcome {
    /// The key was absent; or it had the expected value, and this delete has flagged its leaf.
    Deletion(Deletion),
    /// The key had this value, which is not the expected one, and nothing is changed.
    Other(u64),
}

/// Converts the result of a delete.
fn outcome_of(deletion: Result<Deletion, CallFault>) -> Result<DeleteOutcome, CallFault>
    ensures { result ≡ outcome_of deletion }
{
    match deletion {
        Ok(deletion) => Ok(DeleteOutcome::Deletion(deletion)),
        Err(fault) => Err(fault),
    }
}

/// Reads the value of the leaf at which a walk of the call has ended with the key, and tries to flag
/// the leaf if the value is the expected one. Error: the value is another one, this one.
fn flag_if(
    shared: &Shared,
    pass: &mut Pass,
    workspace: &mut Workspace,
    held: &mut HeldQueue,
    key: u64,
    expected: u64,
    end: &WalkEnd,
) -> Result<Injected, u64>
    requires key { IsKey key }
    requires pinned { IsPinnedIn shared.now pass.old }
    requires values { HasValues shared.now }
    requires may { MayFlag pass.old key end.now }
    requires at { IsAt (Tells pass.old) end.now.seek_record workspace.old.chain.items }
    requires few { length workspace.old.chain.items < chain_bound }
    requires room { cut_bound ≤ held.old.queue.spare }
    requires kept { HoldsCuts pass.old held.old }
    ensures part { (before : List Entry) → Seeks shared.now.layout key before pass.old.view.log
        workspace.old.chain.items (Some end.now) → end.now.key ≡ key → IfOk result
        (IsFlagTry shared.now.layout key workspace.new.chain.items before pass.new.view.log) }
    ensures shows { IfOk result (ShowsFlag key workspace.new.chain.items pass.old pass.new) }
    ensures read { IfOk result (λ i. IfFlagged i (HasReadFlagged pass.old pass.new key expected)) }
    ensures other { IfErr result (ReadsOther pass.new key expected) }
    ensures none { IfErr result (λ found. pass.new.view.log ≡ pass.old.view.log) }
    ensures on { GoesOn pass.old pass.new }
    ensures only { OnlyInjects pass.old pass.new }
    ensures kept { HoldsCuts pass.new held.new }
    ensures fills { FillsUp held.old.queue held.new.queue }
    ensures fit { workspace.new.placement ≡ workspace.old.placement }
{
    pass.know_run();
    let found = shared.look_value(pass, end.seek_record.edge.slot());
    if found != expected {
        return Err(found);
    }
    let mut taken = found;
    Ok(flag_or_help(shared, pass, workspace, held, key, end, &mut taken))
}

/// Tries once to flag the leaf with the key and the expected value: a walk, and a flag if the leaf has
/// both. If the flag is lost, the try helps with at most one cleanup. Error: the leaf with the key has
/// another value, this one.
fn try_flag_if(
    shared: &Shared,
    pass: &mut Pass,
    workspace: &mut Workspace,
    held: &mut HeldQueue,
    key: Key,
    expected: u64,
) -> Result<Injected, u64>
    requires pinned { IsPinnedIn shared.now pass.old }
    requires values { HasValues shared.now }
    requires call { IsPinnedForCall Delete key pass.old }
    requires unflagged { (search pass.old).flagged ≡ None }
    requires room { cut_bound ≤ held.old.queue.spare }
    requires kept { HoldsCuts pass.old held.old }
    ensures part { IfOk result (IsFlagTry shared.now.layout key workspace.new.chain.items
        pass.old.view.log pass.new.view.log) }
    ensures shows { IfOk result (ShowsFlag key workspace.new.chain.items pass.old pass.new) }
    ensures read { IfOk result (λ i. IfFlagged i (HasReadFlagged pass.old pass.new key expected)) }
    ensures other { IfErr result (ReadsOther pass.new key expected) }
    ensures finds { IfErr result (λ found. FindsKey shared.now.layout key pass.old.view.log
        pass.new.view.log) }
    ensures on { GoesOn pass.old pass.new }
    ensures only { OnlyInjects pass.old pass.new }
    ensures kept { HoldsCuts pass.new held.new }
    ensures fills { FillsUp held.old.queue held.new.queue }
    ensures fit { workspace.new.placement ≡ workspace.old.placement }
{
    let sought = key.get();
    let Some(end) = seek(shared, pass, sought, Stop::Leaf, &mut workspace.chain) else {
        return Ok(Injected::Lost);
    };
    if end.key != sought {
        return Ok(Injected::Absent);
    }
    flag_if(shared, pass, workspace, held, sought, expected, &end)
}

/// Tries at most `tries` times to flag the leaf with the key and the expected value. There must be
/// room for the first try. Error: the leaf with the key has another value, this one.
fn inject_if(
    shared: &Shared,
    pass: &mut Pass,
    workspace: &mut Workspace,
    held: &mut HeldQueue,
    key: Key,
    expected: u64,
    tries: u32,
) -> Result<Injection, u64>
    requires pinned { IsPinnedIn shared.now pass.old }
    requires values { HasValues shared.now }
    requires call { IsPinnedForCall Delete key pass.old }
    requires unflagged { (search pass.old).flagged ≡ None }
    requires room { cut_bound ≤ held.old.queue.spare }
    requires kept { HoldsCuts pass.old held.old }
    ensures part { IfOk result (IsInjection shared.now.layout key tries workspace.new.chain.items
        pass.old.view.log pass.new.view.log) }
    ensures refused { IfOk result (λ i. i ≡ injection.Refused → held.new.queue.spare < cut_bound) }
    ensures shows { IfOk result (ShowsInjection key workspace.new.chain.items pass.new) }
    ensures read { IfOk result (λ i. IfInjected i (HasReadFlagged pass.old pass.new key expected)) }
    ensures other { IfErr result (ReadsOther pass.new key expected) }
    ensures finds { IfErr result (λ found. FindsAfter shared.now.layout tries key pass.old.view.log
        pass.new.view.log) }
    ensures on { GoesOn pass.old pass.new }
    ensures only { OnlyInjects pass.old pass.new }
    ensures kept { HoldsCuts pass.new held.new }
    ensures blocks { TakesRoom held.old.queue held.new.queue }
    ensures fit { workspace.new.placement ≡ workspace.old.placement }
{
    for round in 0..tries {
        if !make_room_for(&mut held.queue, round) {
            return Ok(Injection::Refused);
        }
        match try_flag_if(shared, pass, workspace, held, key, expected) {
            Ok(Injected::Absent) => return Ok(Injection::Absent),
            Ok(Injected::Flagged(end, birth)) => {
                let left = tries - round - 1;
                return Ok(Injection::Flagged(FlaggedLeaf { end, birth, left }));
            }
            Ok(Injected::Lost) => {}
            Err(found) => return Err(found),
        }
    }
    Ok(Injection::Spent)
}

/// Makes the tries of a delete that expects a value, from its pin to its answer. The room of the first
/// one must have been made before the pin.
fn delete_if_pinned(
    shared: &Shared,
    pass: &mut Pass,
    workspace: &mut Workspace,
    held: &mut HeldQueue,
    key: Key,
    expected: u64,
    tries: u32,
) -> Result<DeleteOutcome, CallFault>
    requires pinned { IsPinnedIn shared.now pass.old }
    requires values { HasValues shared.now }
    requires call { IsPinnedForCall Delete key pass.old }
    requires unchanged { HasChangedNothing pass.old }
    requires room { cut_bound ≤ held.old.queue.spare }
    requires kept { HoldsCuts pass.old held.old }
    ensures on { Continues pass.old pass.new }
    ensures part { AsDelete result (DeleteFinishes shared.now.layout tries key pass.old.view.log
        pass.new.view.log) }
    ensures refused { AsDelete result (LacksRoomOr (λ n. FlagsThen shared.now.layout tries key n
        pass.old.view.log pass.new.view.log removal.Spent) held.new.queue.spare) }
    ensures moment { (o : PassView) → HadNoCall o pass.old → AsDelete result
        (λ r. IfDone r (AnswerHasMoment o pass.new Delete key)) }
    ensures read { AsDelete result
        (λ r. IfTaken r (HasReadFlagged pass.old pass.new key expected)) }
    ensures stands { AsDelete result (RestsOrRemoves key pass.new) }
    ensures other { IfOther result (FoundOther shared.now.layout tries key expected pass.old
        pass.new) }
    ensures private { (knowledge pass.new.view).drafts ≡ (knowledge pass.old.view).drafts }
    ensures kept { HoldsCuts pass.new held.new }
    ensures blocks { TakesRoom held.old.queue held.new.queue }
    ensures ledgers { KeepsLedgers pass.old pass.new }
    ensures fit { workspace.new.placement ≡ workspace.old.placement }
{
    match inject_if(shared, pass, workspace, held, key, expected, tries) {
        Ok(injection) => {
            let done = end_delete(shared, pass, workspace, held, key, &injection);
            outcome_of(done)
        }
        Err(found) => {
            leave(shared, pass);
            Ok(DeleteOutcome::Other(found))
        }
    }
}

/// Deletes `key` if it has the expected value; returns what it did, or why it changed nothing. The
/// worker must rest. It rests afterwards, except after `Pending`: then it stays pinned for the leaf that
/// it has flagged. Its queue is that of its log before and after. The table must have values.
///
/// `Deletion`: it went as a `delete`. If it returns true or `Pending`, this call has flagged a leaf, and
/// right before that the map had the key with the expected value in this very leaf. If it returns
/// false, the key was absent. `Other`: the key had the value that is returned, which is not the expected
/// one, at a moment (linearization point) of the call. A leaf keeps its value, so the value that was read
/// before the flag is the one at the flag.
///
/// Before each try the call makes room for a cleanup, with as few new blocks as possible; for the first
/// try it does so before the pin. It takes no other memory.
///
/// Errors: `Busy`, `NoMemory`: see `CallFault`.
///
/// Cost: at most `tries` * (4 `reach` + 512) + 10 steps, as for `delete`. The call wins one flag if the
/// key had the expected value or the delete is pending, and else none; it wins no link. (The delete of
/// Natarajan and Mittal, section 3.2; the condition is ours.)
pub fn delete_if(
    shared: &Shared,
    pass: &mut Pass,
    workspace: &mut Workspace,
    held: &mut HeldQueue,
    key: Key,
    expected: u64,
    tries: u32,
) -> Result<DeleteOutcome, CallFault>
    requires own { IsOf shared.now pass.old }
    requires values { HasValues shared.now }
    requires rests { IsResting pass.old }
    requires kept { HoldsCuts pass.old held.old }
    ensures after { AsDelete result (AfterDelete shared.now.layout tries key pass.old pass.new) }
    ensures taken { AsDelete result (λ r. IfTaken r (HasTaken pass.old pass.new key expected)) }
    ensures other { IfOther result (AfterOther shared.now.layout tries key expected pass.old
        pass.new) }
    ensures refused { AsDelete result (LacksRoomOr (LosesAfterFlag shared.now.layout tries key
        pass.old.view.log pass.new.view.log) held.new.queue.spare) }
    ensures kept { HoldsCuts pass.new held.new }
    ensures blocks { TakesRoom held.old.queue held.new.queue }
    ensures few { length held.new.queue.items ≤ shared.now.layout.nodes }
    ensures fit { workspace.new.placement ≡ workspace.old.placement }
{
    pass.know_run();
    if tries == 0 {
        return Err(CallFault::Busy);
    }
    if !make_room(&mut held.queue) {
        return Err(CallFault::NoMemory);
    }
    let Ok(_epoch) = pin_for(shared, pass, tries, Op::Delete, key) else {
        return Err(CallFault::Busy);
    };
    delete_if_pinned(shared, pass, workspace, held, key, expected, tries)
}
