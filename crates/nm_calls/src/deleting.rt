//! Deletes: tries to flag a leaf, and tries to remove it.
ghost use Rattle.std.specs.Prelude.{◌≡◌, ◌≢◌, ◌⊎◌, ◌<◌, ◌≤◌, ℕ, List, length, true, false, None, Some, IfOk, IfErr};
ghost use Rattle.nm_edge.specs.Keys.{IsKey};
ghost use Rattle.nm_model.specs.declared.event.Op.TheVariants.{Delete};
ghost use Rattle.nm_model.specs.Walks.{Entry};
ghost use Rattle.nm_order.specs.Facts.Fact.{IsFlagged};
ghost use Rattle.nm_steps.specs.Rules.{knowledge};
ghost use Rattle.nm_steps.specs.Steps.{PassView, IsOf, Continues};
ghost use Rattle.nm_epoch.specs.Resting.{IsResting, epochs, search};
ghost use Rattle.nm_walks.specs.Bounds.{chain_bound, cut_bound};
ghost use Rattle.nm_walks.specs.Rooms.{FillsUp, TakesRoom};
ghost use Rattle.nm_walks.specs.Telling.{Tells, GoesOn, IsPinnedIn};
ghost use Rattle.nm_walks.specs.Walks.{IsAt, Seeks};
ghost use Rattle.nm_walks.specs.Labelling.{IsPinnedForCall};
ghost use Rattle.nm_calls.specs.Leaving.{ShowsAnswer, HasChangedNothing};
ghost use Rattle.nm_walks.specs.Marking.{OnlyFlags};
ghost use Rattle.nm_steps.specs.Values.{HasValues};
ghost use Rattle.nm_calls.specs.Maps.{HasReadFlagged, HasSeenValue, HasTaken};
ghost use Rattle.nm_calls.specs.Moments.{AnswerHasMoment, HadNoCall};
ghost use Rattle.nm_walks.specs.Cleanups.{OnlyCleans, KeepsLedgers, HoldsCuts};
ghost use Rattle.nm_calls.specs.Deletes.{IsRemoving, Removes, RemovesNothing, IsRemoval, IfRemoved, MayFlag, HasWonItsFlag, HasNotFlagged, IfFlagged, IfInjected, IfDone, IfTaken, IsFlagTry, ShowsFlag, OnlyInjects, IsInjection, ShowsInjection, RemovalAfter, leaf_of, DeleteFinishes, LosesAfterFlag, LacksRoomOr, FlagsThen, LosesEachTry, AfterDelete, AfterFinish, RestsOrRemoves};

use crate::fault::CallFault;
use crate::helping::{help, make_room, make_room_for};
use crate::leaving::{answer, leave};
use crate::values::value_of_slot;
use nm_edge::{Edge, Key, NodeId};
use nm_epoch::{HeldQueue, pin_for};
use nm_model::Op;
use nm_steps::{Pass, Shared};
use nm_walks::{Stop, WalkEnd, Workspace, cleanup, flag, look_birth, seek};

/// The result of a try to flag a leaf.
#[derive(Clone, Copy)]
pub enum Injected {
    /// The leaf has another key.
    Absent,
    /// The leaf at this end is flagged; it has this generation (birth).
    Flagged(WalkEnd, u64),
    /// The walk was broken off, or the flag was lost.
    Lost,
}

/// A leaf that the call has flagged.
#[derive(Clone, Copy)]
pub struct FlaggedLeaf {
    /// The end of the walk that found it.
    pub end: WalkEnd,
    pub birth: u64,
    /// The number of tries that are left to remove it.
    pub left: u32,
}

/// The result of all tries to flag a leaf.
#[derive(Clone, Copy)]
pub enum Injection {
    /// The leaf has another key.
    Absent,
    /// This leaf is flagged.
    Flagged(FlaggedLeaf),
    /// The room of a try was refused.
    Refused,
    /// Each try was lost.
    Spent,
}

/// A delete that has flagged its leaf and has no answer yet.
#[derive(Clone, Copy)]
pub struct Unfinished {
    pub key: Key,
    pub leaf: NodeId,
}

/// How far a delete has come that found the key absent, or has flagged the leaf with it.
#[derive(Clone, Copy, Debug, PartialEq, Eq)]
pub enum Deletion {
    /// It has its answer: whether the key was present.
    Done(bool),
    /// The worker has flagged this leaf and stays pinned; the leaf is not known to be cut off.
    Pending(NodeId),
}

/// The result of tries to remove a flagged leaf.
#[derive(Clone, Copy)]
pub enum Removal {
    /// The leaf is cut off.
    Removed,
    /// The room of a try was refused.
    Refused,
    /// Each try was lost.
    Spent,
}

/// Returns whether the walk ended at that slot.
fn leads_to(end: &WalkEnd, slot: u32) -> bool
    ensures yes { result ≡ true → end.now.seek_record.edge.slot ≡ slot }
    ensures no { result ≡ false → end.now.seek_record.edge.slot ≢ slot }
{
    end.seek_record.edge.slot() == slot
}

/// Tries once to remove the leaf that the call has flagged: a walk, and a cleanup if it still ends
/// at that leaf.
fn try_remove(
    shared: &Shared,
    pass: &mut Pass,
    workspace: &mut Workspace,
    held: &mut HeldQueue,
    pending: &Unfinished,
) -> bool
    requires own { IsOf shared.now pass.old }
    requires removing { IsRemoving pass.old pending.now.key pending.now.leaf }
    requires room { cut_bound ≤ held.old.queue.spare }
    requires kept { HoldsCuts pass.old held.old }
    ensures removed { result ≡ true
        → Removes shared.now.layout pending.now.key pending.now.leaf pass.old.view.log
        pass.new.view.log }
    ensures shows { result ≡ true → ShowsAnswer pass.new Delete pending.now.key true }
    ensures lost { result ≡ false
        → RemovesNothing shared.now.layout pending.now.key pending.now.leaf
        pass.old.view.log pass.new.view.log }
    ensures on { GoesOn pass.old pass.new }
    ensures only { OnlyCleans pass.old pass.new }
    ensures kept { HoldsCuts pass.new held.new }
    ensures fills { FillsUp held.old.queue held.new.queue }
    ensures fit { workspace.new.placement ≡ workspace.old.placement }
{
    let key = pending.key.get();
    let Some(end) = seek(shared, pass, key, Stop::Leaf, &mut workspace.chain) else {
        return false;
    };
    if !leads_to(&end, pending.leaf.slot) {
        return true;
    }
    cleanup(shared, pass, workspace, held, &end.seek_record)
}

/// Tries at most `tries` times to remove the leaf that the call has flagged.
fn remove(
    shared: &Shared,
    pass: &mut Pass,
    workspace: &mut Workspace,
    held: &mut HeldQueue,
    pending: &Unfinished,
    tries: u32,
) -> Removal
    requires own { IsOf shared.now pass.old }
    requires removing { IsRemoving pass.old pending.now.key pending.now.leaf }
    requires kept { HoldsCuts pass.old held.old }
    ensures part { IsRemoval shared.now.layout pending.now.key pending.now.leaf tries
        pass.old.view.log pass.new.view.log result }
    ensures refused { result ≡ Removal.Refused → held.new.queue.spare < cut_bound }
    ensures shows { IfRemoved result (ShowsAnswer pass.new Delete pending.now.key true) }
    ensures on { GoesOn pass.old pass.new }
    ensures only { OnlyCleans pass.old pass.new }
    ensures kept { HoldsCuts pass.new held.new }
    ensures blocks { TakesRoom held.old.queue held.new.queue }
    ensures fit { workspace.new.placement ≡ workspace.old.placement }
{
    for _round in 0..tries {
        if !make_room(&mut held.queue) {
            return Removal::Refused;
        }
        if try_remove(shared, pass, workspace, held, pending) {
            return Removal::Removed;
        }
    }
    Removal::Spent
}

/// Looks at the generation (birth) of the leaf at which the walk ended, and flags the edge to it. If
/// the flag is won, it writes the value of the leaf to `value`, and returns the generation. Error: the
/// flag was lost; it is the edge that was found.
fn flag_at(
    shared: &Shared,
    pass: &mut Pass,
    key: u64,
    end: &WalkEnd,
    value: &mut u64,
) -> Result<u64, Edge>
    requires key { IsKey key }
    requires pinned { IsPinnedIn shared.now pass.old }
    requires may { MayFlag pass.old key end.now }
    ensures won { IfOk result (λ b. HasWonItsFlag pass.old pass.new end.now b) }
    ensures lost { IfErr result (λ e. HasNotFlagged pass.old pass.new end.now e) }
    ensures read { HasValues shared.now
        → IfOk result (λ _. HasReadFlagged pass.old pass.new key value.new) }
    ensures sees { HasValues shared.now → IfOk result
        (λ _. HasSeenValue pass.new end.now.seek_record.edge.slot value.new) }
    ensures on { GoesOn pass.old pass.new }
    ensures only { OnlyFlags pass.old pass.new }
{
    let seek_record = end.seek_record;
    let leaf = seek_record.edge.slot();
    let birth = look_birth(shared, pass, leaf);
    match flag(shared, pass, seek_record.parent, seek_record.side, leaf) {
        Ok(()) => {
            *value = value_of_slot(shared, pass, leaf);
            Ok(birth)
        }
        Err(found) => Err(found),
    }
}

/// Tries to flag the leaf at which a walk of the call has ended with the key. If the flag is won, it is
/// counted, and the value of the leaf is written to `value`. If it is lost, the try helps with at most
/// one cleanup.
#[inline(always)]
pub fn flag_or_help(
    shared: &Shared,
    pass: &mut Pass,
    workspace: &mut Workspace,
    held: &mut HeldQueue,
    key: u64,
    end: &WalkEnd,
    value: &mut u64,
) -> Injected
    requires key { IsKey key }
    requires pinned { IsPinnedIn shared.now pass.old }
    requires may { MayFlag pass.old key end.now }
    requires at { IsAt (Tells pass.old) end.now.seek_record workspace.old.chain.items }
    requires few { length workspace.old.chain.items < chain_bound }
    requires room { cut_bound ≤ held.old.queue.spare }
    requires kept { HoldsCuts pass.old held.old }
    ensures part { (before : List Entry) → Seeks shared.now.layout key before pass.old.view.log
        workspace.old.chain.items (Some end.now) → end.now.key ≡ key
        → IsFlagTry shared.now.layout key workspace.new.chain.items before pass.new.view.log result }
    ensures shows { ShowsFlag key workspace.new.chain.items pass.old pass.new result }
    ensures read { HasValues shared.now
        → IfFlagged result (HasReadFlagged pass.old pass.new key value.new) }
    ensures won { IfFlagged result ((b : ℕ) × HasWonItsFlag pass.old pass.new end.now b) }
    ensures sees { HasValues shared.now → IfFlagged result
        (HasSeenValue pass.new end.now.seek_record.edge.slot value.new) }
    ensures on { GoesOn pass.old pass.new }
    ensures only { OnlyInjects pass.old pass.new }
    ensures kept { HoldsCuts pass.new held.new }
    ensures fills { FillsUp held.old.queue held.new.queue }
    ensures fit { workspace.new.placement ≡ workspace.old.placement }
{
    match flag_at(shared, pass, key, end, value) {
        Ok(birth) => {
            held.counts.flags = held.counts.flags.saturating_add(1);
            Injected::Flagged(*end, birth)
        }
        Err(found) => {
            help(shared, pass, workspace, held, end, found);
            Injected::Lost
        }
    }
}

/// Tries once to flag the leaf with the key: a walk, and a flag if the leaf has the key. If the flag
/// is won, the try writes the value of the leaf to `value`. If it is lost, the try helps with at most
/// one cleanup.
fn try_flag(
    shared: &Shared,
    pass: &mut Pass,
    workspace: &mut Workspace,
    held: &mut HeldQueue,
    key: Key,
    value: &mut u64,
) -> Injected
    requires pinned { IsPinnedIn shared.now pass.old }
    requires call { IsPinnedForCall Delete key pass.old }
    requires unflagged { (search pass.old).flagged ≡ None }
    requires room { cut_bound ≤ held.old.queue.spare }
    requires kept { HoldsCuts pass.old held.old }
    ensures part { IsFlagTry shared.now.layout key workspace.new.chain.items pass.old.view.log
        pass.new.view.log result }
    ensures shows { ShowsFlag key workspace.new.chain.items pass.old pass.new result }
    ensures read { HasValues shared.now
        → IfFlagged result (HasReadFlagged pass.old pass.new key value.new) }
    ensures on { GoesOn pass.old pass.new }
    ensures only { OnlyInjects pass.old pass.new }
    ensures kept { HoldsCuts pass.new held.new }
    ensures fills { FillsUp held.old.queue held.new.queue }
    ensures fit { workspace.new.placement ≡ workspace.old.placement }
{
    let sought = key.get();
    let Some(end) = seek(shared, pass, sought, Stop::Leaf, &mut workspace.chain) else {
        return Injected::Lost;
    };
    if end.key != sought {
        return Injected::Absent;
    }
    flag_or_help(shared, pass, workspace, held, sought, &end, value)
}

/// Tries at most `tries` times to flag the leaf with the key, and writes the value of the flagged leaf
/// to `value`. There must be room for the first try.
fn inject(
    shared: &Shared,
    pass: &mut Pass,
    workspace: &mut Workspace,
    held: &mut HeldQueue,
    key: Key,
    value: &mut u64,
    tries: u32,
) -> Injection
    requires pinned { IsPinnedIn shared.now pass.old }
    requires call { IsPinnedForCall Delete key pass.old }
    requires unflagged { (search pass.old).flagged ≡ None }
    requires room { cut_bound ≤ held.old.queue.spare }
    requires kept { HoldsCuts pass.old held.old }
    ensures part { IsInjection shared.now.layout key tries workspace.new.chain.items
        pass.old.view.log pass.new.view.log result }
    ensures refused { result ≡ Injection.Refused → held.new.queue.spare < cut_bound }
    ensures shows { ShowsInjection key workspace.new.chain.items pass.new result }
    ensures read { HasValues shared.now
        → IfInjected result (HasReadFlagged pass.old pass.new key value.new) }
    ensures on { GoesOn pass.old pass.new }
    ensures only { OnlyInjects pass.old pass.new }
    ensures kept { HoldsCuts pass.new held.new }
    ensures blocks { TakesRoom held.old.queue held.new.queue }
    ensures fit { workspace.new.placement ≡ workspace.old.placement }
{
    for round in 0..tries {
        if !make_room_for(&mut held.queue, round) {
            return Injection::Refused;
        }
        match try_flag(shared, pass, workspace, held, key, value) {
            Injected::Absent => return Injection::Absent,
            Injected::Flagged(end, birth) => {
                let left = tries - round - 1;
                return Injection::Flagged(FlaggedLeaf { end, birth, left });
            }
            Injected::Lost => {}
        }
    }
    Injection::Spent
}

/// Tries to remove the leaf that was flagged at the end of a walk; the first try is a cleanup with
/// that walk.
#[inline(always)]
fn remove_after(
    shared: &Shared,
    pass: &mut Pass,
    workspace: &mut Workspace,
    held: &mut HeldQueue,
    key: Key,
    flagged: &FlaggedLeaf,
) -> Removal
    requires own { IsOf shared.now pass.old }
    requires removing { IsRemoving pass.old key (leaf_of flagged.now.end flagged.now.birth) }
    requires edge { Tells pass.old (IsFlagged flagged.now.end.seek_record.parent
        flagged.now.end.seek_record.side flagged.now.end.seek_record.edge.slot) }
    requires at { IsAt (Tells pass.old) flagged.now.end.seek_record workspace.old.chain.items }
    requires few { length workspace.old.chain.items < chain_bound }
    requires kept { HoldsCuts pass.old held.old }
    ensures part { RemovalAfter shared.now.layout key flagged.now
        workspace.old.chain.items pass.old.view.log pass.new.view.log result }
    ensures refused { result ≡ Removal.Refused → held.new.queue.spare < cut_bound }
    ensures shows { IfRemoved result (ShowsAnswer pass.new Delete key true) }
    ensures on { GoesOn pass.old pass.new }
    ensures only { OnlyCleans pass.old pass.new }
    ensures kept { HoldsCuts pass.new held.new }
    ensures blocks { TakesRoom held.old.queue held.new.queue }
    ensures fit { workspace.new.placement ≡ workspace.old.placement }
{
    if flagged.left == 0 {
        return Removal::Spent;
    }
    if !make_room(&mut held.queue) {
        return Removal::Refused;
    }
    if cleanup(shared, pass, workspace, held, &flagged.end.seek_record) {
        return Removal::Removed;
    }
    let leaf = leaf_at(flagged);
    let pending = Unfinished { key, leaf };
    remove(shared, pass, workspace, held, &pending, flagged.left - 1)
}

/// Returns the flagged leaf: its slot with its generation (birth).
fn leaf_at(flagged: &FlaggedLeaf) -> NodeId
    ensures { result ≡ leaf_of flagged.now.end flagged.now.birth }
{
    NodeId {
        slot: flagged.end.seek_record.edge.slot(),
        birth: flagged.birth,
    }
}

/// Ends a delete, after its tries to flag a leaf: it removes the leaf that was flagged, and answers; or
/// it unpins.
#[inline(always)]
pub fn end_delete(
    shared: &Shared,
    pass: &mut Pass,
    workspace: &mut Workspace,
    held: &mut HeldQueue,
    key: Key,
    injection: &Injection,
) -> Result<Deletion, CallFault>
    requires pinned { IsPinnedIn shared.now pass.old }
    requires call { IsPinnedForCall Delete key pass.old }
    requires labelled { (epochs pass.old).unlabelled ≡ false }
    requires unlinked { (search pass.old).linked ≡ false }
    requires unswapped { (search pass.old).swapped ≡ false }
    requires shows { ShowsInjection key workspace.old.chain.items pass.old injection.now }
    requires refused { injection.now ≡ Injection.Refused → held.old.queue.spare < cut_bound }
    requires kept { HoldsCuts pass.old held.old }
    ensures on { Continues pass.old pass.new }
    ensures part { (tries : ℕ) (before : List Entry) → IsInjection shared.now.layout key tries
        workspace.old.chain.items before pass.old.view.log injection.now
        → DeleteFinishes shared.now.layout tries key before pass.new.view.log result }
    ensures lacks { (tries : ℕ) (before : List Entry) → IsInjection shared.now.layout key tries
        workspace.old.chain.items before pass.old.view.log injection.now
        → LacksRoomOr (λ n. FlagsThen shared.now.layout tries key n before pass.new.view.log
        Removal.Spent) held.new.queue.spare result }
    ensures moment { (o : PassView) → HadNoCall o pass.old
        → IfDone result (AnswerHasMoment o pass.new Delete key) }
    ensures read { (o : PassView) (v : ℕ) → IfInjected injection.now (HasReadFlagged o pass.old key v)
        → IfTaken result (HasReadFlagged o pass.new key v) }
    ensures stands { RestsOrRemoves key pass.new result }
    ensures private { (knowledge pass.new.view).drafts ≡ (knowledge pass.old.view).drafts }
    ensures kept { HoldsCuts pass.new held.new }
    ensures blocks { TakesRoom held.old.queue held.new.queue }
    ensures ledgers { KeepsLedgers pass.old pass.new }
    ensures fit { workspace.new.placement ≡ workspace.old.placement }
{
    match injection {
        Injection::Absent => {
            answer(shared, pass, false);
            Ok(Deletion::Done(false))
        }
        Injection::Refused => {
            leave(shared, pass);
            Err(CallFault::NoMemory)
        }
        Injection::Spent => {
            leave(shared, pass);
            Err(CallFault::Busy)
        }
        Injection::Flagged(flagged) => {
            let leaf = leaf_at(flagged);
            match remove_after(shared, pass, workspace, held, key, flagged) {
                Removal::Removed => {
                    answer(shared, pass, true);
                    Ok(Deletion::Done(true))
                }
                Removal::Refused => Ok(Deletion::Pending(leaf)),
                Removal::Spent => Ok(Deletion::Pending(leaf)),
            }
        }
    }
}

/// Makes the tries of a delete, from its pin to its answer. The room of the first one must have
/// been made before the pin.
fn delete_pinned(
    shared: &Shared,
    pass: &mut Pass,
    workspace: &mut Workspace,
    held: &mut HeldQueue,
    key: Key,
    value: &mut u64,
    tries: u32,
) -> Result<Deletion, CallFault>
    requires pinned { IsPinnedIn shared.now pass.old }
    requires call { IsPinnedForCall Delete key pass.old }
    requires unchanged { HasChangedNothing pass.old }
    requires room { cut_bound ≤ held.old.queue.spare }
    requires kept { HoldsCuts pass.old held.old }
    ensures on { Continues pass.old pass.new }
    ensures part { DeleteFinishes shared.now.layout tries key pass.old.view.log
        pass.new.view.log result }
    ensures refused { LacksRoomOr (λ n. FlagsThen shared.now.layout tries key n pass.old.view.log
        pass.new.view.log Removal.Spent) held.new.queue.spare result }
    ensures moment { (o : PassView) → HadNoCall o pass.old
        → IfDone result (AnswerHasMoment o pass.new Delete key) }
    ensures read { HasValues shared.now
        → IfTaken result (HasReadFlagged pass.old pass.new key value.new) }
    ensures stands { RestsOrRemoves key pass.new result }
    ensures private { (knowledge pass.new.view).drafts ≡ (knowledge pass.old.view).drafts }
    ensures kept { HoldsCuts pass.new held.new }
    ensures blocks { TakesRoom held.old.queue held.new.queue }
    ensures ledgers { KeepsLedgers pass.old pass.new }
    ensures fit { workspace.new.placement ≡ workspace.old.placement }
{
    let injection = inject(shared, pass, workspace, held, key, value, tries);
    end_delete(shared, pass, workspace, held, key, &injection)
}

/// Deletes `key`; returns whether it was present, or `Pending` if the leaf with the key is flagged and
/// not known to be cut off. If the key was present, or the delete is pending, it has written the value
/// of the leaf to `value`, if the table has values. The worker must rest. It rests afterwards, except
/// after `Pending`: then it stays pinned for that leaf. Its queue is that of its log before and after.
/// Before each try the call makes room for a cleanup, with as few new blocks as possible; for the
/// first try it does so before the pin. It takes no other memory.
///
/// Errors: `Busy`, `NoMemory`: see `CallFault`.
///
/// Cost: at most `tries` * (4 `reach` + 512) + 10 steps. A walk's reach is 66 nodes in a radix
/// tree, and the number of nodes otherwise. The call wins one flag if the key was present or the
/// delete is pending, and else none; it wins no link. (The delete of Natarajan and Mittal, section
/// 3.2.)
pub fn delete(
    shared: &Shared,
    pass: &mut Pass,
    workspace: &mut Workspace,
    held: &mut HeldQueue,
    key: Key,
    value: &mut u64,
    tries: u32,
) -> Result<Deletion, CallFault>
    requires own { IsOf shared.now pass.old }
    requires rests { IsResting pass.old }
    requires kept { HoldsCuts pass.old held.old }
    ensures after { AfterDelete shared.now.layout tries key pass.old pass.new result }
    ensures taken { HasValues shared.now
        → IfTaken result (HasTaken pass.old pass.new key value.new) }
    ensures refused { LacksRoomOr (LosesAfterFlag shared.now.layout tries key pass.old.view.log
        pass.new.view.log) held.new.queue.spare result }
    ensures kept { HoldsCuts pass.new held.new }
    ensures blocks { TakesRoom held.old.queue held.new.queue }
    ensures few { length held.new.queue.items ≤ shared.now.layout.nodes }
    ensures fit { workspace.new.placement ≡ workspace.old.placement }
{
    pass.know_run();
    if tries == 0 {
        return Err(CallFault::Busy);
    }
    if !make_room(&mut held.queue) {
        return Err(CallFault::NoMemory);
    }
    let Ok(_epoch) = pin_for(shared, pass, tries, Op::Delete, key) else {
        return Err(CallFault::Busy);
    };
    delete_pinned(shared, pass, workspace, held, key, value, tries)
}

/// Goes on to remove the leaf that the worker has flagged; returns true if it is cut off, and then
/// the worker rests. Otherwise the worker stays pinned. Before each try the call makes room for a
/// cleanup, with as few new blocks as possible. It takes no other memory.
///
/// Cost: at most `tries` * (4 `reach` + 512) + 10 steps, as for `delete`. The call wins no link and
/// no flag.
pub fn finish(
    shared: &Shared,
    pass: &mut Pass,
    workspace: &mut Workspace,
    held: &mut HeldQueue,
    pending: &Unfinished,
    tries: u32,
) -> bool
    requires own { IsOf shared.now pass.old }
    requires removing { IsRemoving pass.old pending.now.key pending.now.leaf }
    requires kept { HoldsCuts pass.old held.old }
    ensures after { AfterFinish shared.now.layout pending.now.key pending.now.leaf tries
        pass.old pass.new result }
    ensures refused { result ≡ false
        → (held.new.queue.spare < cut_bound)
        ⊎ LosesEachTry shared.now.layout pending.now.key pending.now.leaf tries
        pass.old.view.log pass.new.view.log }
    ensures kept { HoldsCuts pass.new held.new }
    ensures blocks { TakesRoom held.old.queue held.new.queue }
    ensures few { length held.new.queue.items ≤ shared.now.layout.nodes }
    ensures fit { workspace.new.placement ≡ workspace.old.placement }
{
    match remove(shared, pass, workspace, held, pending, tries) {
        Removal::Removed => {
            answer(shared, pass, true);
            true
        }
        Removal::Refused => false,
        Removal::Spent => false,
    }
}
