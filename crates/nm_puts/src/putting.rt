//! Puts: tries to give a key another value, or to insert it.
ghost use Rattle.std.specs.Prelude.{◌≡◌, ◌≢◌, ◌≤◌, ◌<◌, ℕ, false, length, None, IsErrOf};
ghost use Rattle.nm_model.specs.declared.event.Op.TheVariants.{Insert};
ghost use Rattle.nm_steps.specs.Rules.{ExtendsStores};
ghost use Rattle.nm_steps.specs.Steps.{PassView, IsOf, Continues};
ghost use Rattle.nm_steps.specs.Values.{HasValues};
ghost use Rattle.nm_epoch.specs.Resting.{IsResting, search};
ghost use Rattle.nm_walks.specs.Bounds.{cut_bound};
ghost use Rattle.nm_walks.specs.Cleanups.{KeepsLedgers, HoldsCuts};
ghost use Rattle.nm_walks.specs.Growing.{HasNewNodes};
ghost use Rattle.nm_walks.specs.Labelling.{IsPinnedForCall};
ghost use Rattle.nm_walks.specs.Rooms.{FillsUp, TakesRoom};
ghost use Rattle.nm_walks.specs.Telling.{GoesOn, IsPinnedIn};
ghost use Rattle.nm_calls.specs.Leaving.{HasChangedNothing};
ghost use Rattle.nm_calls.specs.Moments.{AnswerHasMoment, HadNoCall};
ghost use Rattle.nm_puts.specs.Puts.{AfterPut, Does, Finishes, IfAnswered, IfDone, IfReplaced, IsPutTry, MayReplace, OnlyPuts, ReplacesAt, ShowsTry, TriesAt, TryDoes};
ghost use Rattle.nm_puts.specs.Replaced.{HasReplaced};
ghost use Rattle.nm_puts.specs.Swaps.{ValueWas};

use crate::leaves::{claim_leaf, give_leaf_back};
use crate::leaving::conclude;
use crate::swapping::try_swap;
use nm_calls::{CallFault, help, leave, make_room, make_room_for, seek_place};
use nm_edge::Key;
use nm_epoch::{HeldQueue, pin_for};
use nm_model::Op;
use nm_steps::{Pass, Shared};
use nm_walks::{Stop, WalkEnd, Workspace, claim_new_nodes, give_back, grow, seek};

/// What must be so for a put to change the map.
#[derive(Clone, Copy, Debug, PartialEq, Eq)]
pub enum Condition {
    /// Nothing: a key that is absent is inserted.
    Always,
    /// The map has the key.
    IfThere,
    /// The map has the key with this value.
    IfItIs(u64),
}

/// What a put did, or why it changed nothing.
#[derive(Clone, Copy, Debug, PartialEq, Eq)]
pub enum PutOutcome {
    /// The key was absent, and is inserted with the value.
    Inserted,
    /// The key had this value, which is replaced.
    Replaced(u64),
    /// The key was absent, and nothing is changed.
    Absent,
    /// The key had this value, which is not the expected one, and nothing is changed.
    Other(u64),
}

/// The result of a try of a put, in the words of `Puts`.
#[derive(Clone, Copy, Debug, PartialEq, Eq)]
pub enum Attempt {
    /// The try has this result.
    Done(PutOutcome),
    /// Too few slots were claimed.
    Full,
    /// The walk was broken off, or the exchange was lost.
    Lost,
}

/// Tries to replace the value of the leaf at which a walk of the call has ended, by one new leaf. If
/// the swap is lost, the new leaf is given back, and the try helps with at most one cleanup.
fn replace_at(
    shared: &Shared,
    pass: &mut Pass,
    workspace: &mut Workspace,
    held: &mut HeldQueue,
    key: u64,
    value: u64,
    end: &WalkEnd,
) -> Attempt
    requires pinned { IsPinnedIn shared.now pass.old }
    requires values { HasValues shared.now }
    requires may { MayReplace pass.old key end.now workspace.old.chain.items }
    requires room { cut_bound ≤ held.old.queue.spare }
    requires kept { HoldsCuts pass.old held.old }
    ensures part { ReplacesAt workspace.old.placement shared.now.layout key end.now
        workspace.old.chain.items pass.old.view.log pass.new.view.log result }
    ensures does { IfReplaced result (λ old. HasReplaced pass.old pass.new key old value) }
    ensures was { (m : PassView) (v : ℕ) → ValueWas m pass.old key end.now.seek_record.edge.slot v
        → IfReplaced result (λ old. old ≡ v) }
    ensures shows { ShowsTry key pass.old pass.new result }
    ensures on { GoesOn pass.old pass.new }
    ensures only { OnlyPuts pass.old pass.new }
    ensures private { HasNewNodes pass.old pass.new None }
    ensures kept { HoldsCuts pass.new held.new }
    ensures fills { FillsUp held.old.queue held.new.queue }
    ensures fit { workspace.new.placement ≡ workspace.old.placement }
{
    let Some(new) = claim_leaf(shared, pass, &mut workspace.placement) else {
        return Attempt::Full;
    };
    match try_swap(shared, pass, held, key, value, end, &new) {
        Ok(old) => Attempt::Done(PutOutcome::Replaced(old)),
        Err(found) => {
            give_leaf_back(shared, pass, &mut workspace.placement, &new);
            help(shared, pass, workspace, held, end, found);
            Attempt::Lost
        }
    }
}

/// Reads the value of the leaf at which a walk of the call has ended, and tries to replace it if it is
/// the expected one.
fn replace_if(
    shared: &Shared,
    pass: &mut Pass,
    workspace: &mut Workspace,
    held: &mut HeldQueue,
    key: u64,
    value: u64,
    expected: u64,
    end: &WalkEnd,
) -> Attempt
    requires pinned { IsPinnedIn shared.now pass.old }
    requires values { HasValues shared.now }
    requires may { MayReplace pass.old key end.now workspace.old.chain.items }
    requires same { end.now.key ≡ key }
    requires room { cut_bound ≤ held.old.queue.spare }
    requires kept { HoldsCuts pass.old held.old }
    ensures part { TriesAt workspace.old.placement shared.now.layout (Condition.IfItIs expected)
        key end.now workspace.old.chain.items pass.old.view.log pass.new.view.log result }
    ensures does { TryDoes (Condition.IfItIs expected) key value pass.old pass.new result }
    ensures shows { ShowsTry key pass.old pass.new result }
    ensures on { GoesOn pass.old pass.new }
    ensures only { OnlyPuts pass.old pass.new }
    ensures private { HasNewNodes pass.old pass.new None }
    ensures kept { HoldsCuts pass.new held.new }
    ensures fills { FillsUp held.old.queue held.new.queue }
    ensures fit { workspace.new.placement ≡ workspace.old.placement }
{
    pass.know_run();
    let found = shared.look_value(pass, end.seek_record.edge.slot());
    if found != expected {
        return Attempt::Done(PutOutcome::Other(found));
    }
    replace_at(shared, pass, workspace, held, key, value, end)
}

/// Tries to replace the value of the leaf at which a walk of the call has ended, by the condition.
#[inline(always)]
fn replace_when(
    shared: &Shared,
    pass: &mut Pass,
    workspace: &mut Workspace,
    held: &mut HeldQueue,
    key: u64,
    value: u64,
    condition: Condition,
    end: &WalkEnd,
) -> Attempt
    requires pinned { IsPinnedIn shared.now pass.old }
    requires values { HasValues shared.now }
    requires may { MayReplace pass.old key end.now workspace.old.chain.items }
    requires same { end.now.key ≡ key }
    requires room { cut_bound ≤ held.old.queue.spare }
    requires kept { HoldsCuts pass.old held.old }
    ensures part { TriesAt workspace.old.placement shared.now.layout condition
        key end.now workspace.old.chain.items pass.old.view.log pass.new.view.log result }
    ensures does { TryDoes condition key value pass.old pass.new result }
    ensures shows { ShowsTry key pass.old pass.new result }
    ensures on { GoesOn pass.old pass.new }
    ensures only { OnlyPuts pass.old pass.new }
    ensures private { HasNewNodes pass.old pass.new None }
    ensures kept { HoldsCuts pass.new held.new }
    ensures fills { FillsUp held.old.queue held.new.queue }
    ensures fit { workspace.new.placement ≡ workspace.old.placement }
{
    if let Condition::IfItIs(expected) = condition {
        return replace_if(shared, pass, workspace, held, key, value, expected, end);
    }
    replace_at(shared, pass, workspace, held, key, value, end)
}

/// Tries once to replace the value of the key, if the condition holds: a walk, and a swap if the leaf
/// has the key.
fn try_replace(
    shared: &Shared,
    pass: &mut Pass,
    workspace: &mut Workspace,
    held: &mut HeldQueue,
    key: Key,
    value: u64,
    condition: Condition,
) -> Attempt
    requires pinned { IsPinnedIn shared.now pass.old }
    requires values { HasValues shared.now }
    requires call { IsPinnedForCall Insert key pass.old }
    requires unlinked { (search pass.old).linked ≡ false }
    requires unswapped { (search pass.old).swapped ≡ false }
    requires there { condition ≢ Condition.Always }
    requires room { cut_bound ≤ held.old.queue.spare }
    requires kept { HoldsCuts pass.old held.old }
    ensures part { IsPutTry workspace.old.placement shared.now.layout condition key
        pass.old.view.log pass.new.view.log result }
    ensures does { TryDoes condition key value pass.old pass.new result }
    ensures shows { ShowsTry key pass.old pass.new result }
    ensures on { GoesOn pass.old pass.new }
    ensures only { OnlyPuts pass.old pass.new }
    ensures private { HasNewNodes pass.old pass.new None }
    ensures kept { HoldsCuts pass.new held.new }
    ensures fills { FillsUp held.old.queue held.new.queue }
    ensures fit { workspace.new.placement ≡ workspace.old.placement }
{
    let sought = key.get();
    let Some(end) = seek(shared, pass, sought, Stop::Leaf, &mut workspace.chain) else {
        return Attempt::Lost;
    };
    if end.key != sought {
        return Attempt::Done(PutOutcome::Absent);
    }
    replace_when(
        shared, pass, workspace, held, sought, value, condition, &end,
    )
}

/// Tries once to give the key the value: a walk, and a swap if the leaf has the key, or else a link.
/// If the link is lost, the new nodes are given back, and the try helps with at most one cleanup.
fn try_put(
    shared: &Shared,
    pass: &mut Pass,
    workspace: &mut Workspace,
    held: &mut HeldQueue,
    key: Key,
    value: u64,
) -> Attempt
    requires pinned { IsPinnedIn shared.now pass.old }
    requires values { HasValues shared.now }
    requires call { IsPinnedForCall Insert key pass.old }
    requires unlinked { (search pass.old).linked ≡ false }
    requires unswapped { (search pass.old).swapped ≡ false }
    requires room { cut_bound ≤ held.old.queue.spare }
    requires kept { HoldsCuts pass.old held.old }
    ensures part { IsPutTry workspace.old.placement shared.now.layout Condition.Always key
        pass.old.view.log pass.new.view.log result }
    ensures does { TryDoes Condition.Always key value pass.old pass.new result }
    ensures shows { ShowsTry key pass.old pass.new result }
    ensures on { GoesOn pass.old pass.new }
    ensures only { OnlyPuts pass.old pass.new }
    ensures private { HasNewNodes pass.old pass.new None }
    ensures kept { HoldsCuts pass.new held.new }
    ensures fills { FillsUp held.old.queue held.new.queue }
    ensures fit { workspace.new.placement ≡ workspace.old.placement }
{
    let sought = key.get();
    let Some(end) = seek_place(shared, pass, sought, &mut workspace.chain) else {
        return Attempt::Lost;
    };
    if end.key == sought {
        return replace_at(shared, pass, workspace, held, sought, value, &end);
    }
    let Some(made) = claim_new_nodes(shared, pass, &mut workspace.placement) else {
        return Attempt::Full;
    };
    match grow(shared, pass, sought, value, &end, &made) {
        Ok(()) => {
            pass.know_run();
            held.counts.links = held.counts.links.saturating_add(1);
            Attempt::Done(PutOutcome::Inserted)
        }
        Err(found) => {
            give_back(shared, pass, &mut workspace.placement, &Some(made));
            help(shared, pass, workspace, held, &end, found);
            Attempt::Lost
        }
    }
}

/// Tries once to put, by the condition.
#[inline(always)]
fn try_by(
    shared: &Shared,
    pass: &mut Pass,
    workspace: &mut Workspace,
    held: &mut HeldQueue,
    key: Key,
    value: u64,
    condition: Condition,
) -> Attempt
    requires pinned { IsPinnedIn shared.now pass.old }
    requires values { HasValues shared.now }
    requires call { IsPinnedForCall Insert key pass.old }
    requires unlinked { (search pass.old).linked ≡ false }
    requires unswapped { (search pass.old).swapped ≡ false }
    requires room { cut_bound ≤ held.old.queue.spare }
    requires kept { HoldsCuts pass.old held.old }
    ensures part { IsPutTry workspace.old.placement shared.now.layout condition key
        pass.old.view.log pass.new.view.log result }
    ensures does { TryDoes condition key value pass.old pass.new result }
    ensures shows { ShowsTry key pass.old pass.new result }
    ensures on { GoesOn pass.old pass.new }
    ensures only { OnlyPuts pass.old pass.new }
    ensures private { HasNewNodes pass.old pass.new None }
    ensures kept { HoldsCuts pass.new held.new }
    ensures fills { FillsUp held.old.queue held.new.queue }
    ensures fit { workspace.new.placement ≡ workspace.old.placement }
{
    match condition {
        Condition::Always => try_put(shared, pass, workspace, held, key, value),
        Condition::IfThere => {
            try_replace(
                shared,
                pass,
                workspace,
                held,
                key,
                value,
                Condition::IfThere,
            )
        }
        Condition::IfItIs(expected) => {
            let condition = Condition::IfItIs(expected);
            try_replace(shared, pass, workspace, held, key, value, condition)
        }
    }
}

/// Makes the tries of a put, from its pin to its answer. The room of the first one must have been
/// made before the pin.
fn put_pinned(
    shared: &Shared,
    pass: &mut Pass,
    workspace: &mut Workspace,
    held: &mut HeldQueue,
    key: Key,
    value: u64,
    condition: Condition,
    tries: u32,
) -> Result<PutOutcome, CallFault>
    requires pinned { IsPinnedIn shared.now pass.old }
    requires values { HasValues shared.now }
    requires call { IsPinnedForCall Insert key pass.old }
    requires unchanged { HasChangedNothing pass.old }
    requires room { cut_bound ≤ held.old.queue.spare }
    requires kept { HoldsCuts pass.old held.old }
    ensures on { Continues pass.old pass.new }
    ensures part { Finishes workspace.old.placement shared.now.layout tries condition key
        pass.old.view.log pass.new.view.log result }
    ensures refused { IsErrOf result CallFault.NoMemory → held.new.queue.spare < cut_bound }
    ensures does { IfDone result (Does condition key value pass.old pass.new) }
    ensures moment { (o : PassView) → HadNoCall o pass.old → IfDone result
        (λ put. IfAnswered put (AnswerHasMoment o pass.new Insert key)) }
    ensures rests { IsResting pass.new }
    ensures private { HasNewNodes pass.old pass.new None }
    ensures kept { HoldsCuts pass.new held.new }
    ensures blocks { TakesRoom held.old.queue held.new.queue }
    ensures ledgers { KeepsLedgers pass.old pass.new }
    ensures fit { workspace.new.placement ≡ workspace.old.placement }
{
    for round in 0..tries {
        if !make_room_for(&mut held.queue, round) {
            leave(shared, pass);
            return Err(CallFault::NoMemory);
        }
        match try_by(shared, pass, workspace, held, key, value, condition) {
            Attempt::Done(put) => {
                pass.know_run();
                conclude(shared, pass, put);
                return Ok(put);
            }
            Attempt::Full => {
                leave(shared, pass);
                return Err(CallFault::Full);
            }
            Attempt::Lost => {}
        }
    }
    leave(shared, pass);
    Err(CallFault::Busy)
}

/// Gives `key` the value, if the condition holds; returns what it did, or why it changed nothing. The
/// worker must rest, and it rests afterwards, with the same private slots. Its queue is that of its log
/// before and after, with no more entries than there are nodes. The table must have values.
///
/// `Inserted`: the key was absent, and the map has it with the value right after the call's link.
/// `Replaced`: the key had the value that is returned, right before the call's swap, and has the new
/// one right after it. `Other`: the key had the value that is returned, at a moment (linearization
/// point) of the call. `Absent`: the map did not have the key at such a moment. `Always` gives
/// `Inserted` or `Replaced`. `IfThere` gives `Replaced` or `Absent`. `IfItIs` gives `Replaced` with the
/// expected value, `Other` with another one, or `Absent`.
///
/// A value is replaced by a new leaf that takes the place of the old one by one exchange, so a leaf
/// keeps its value. The old leaf waits in the queue, and its value comes back from a collection. The
/// new value is stored as the last step before the link or the swap.
///
/// Each try is a walk that ends with the answer, a link, or a swap. If the exchange is lost, the try
/// gives its new nodes back and helps with at most one cleanup. Before each try the call makes room
/// for a cleanup, with as few new blocks as possible; for the first try it does so before the pin. It
/// takes no other memory.
///
/// Errors: `Busy`, `Full` (a link needs two free slots, and a swap one), `NoMemory`: see `CallFault`.
/// The call has changed nothing in the map, but it may have helped other deletes.
///
/// Cost: at most `tries` * (4 `reach` + 6 `nodes` + 512) + 10 steps. A walk's reach is 66 nodes in a
/// radix tree, and the number of nodes otherwise. The call wins one link if it inserted, and else none;
/// it wins no flag. (The search of Natarajan and Mittal, section 3.2; the swap is ours.)
pub fn put(
    shared: &Shared,
    pass: &mut Pass,
    workspace: &mut Workspace,
    held: &mut HeldQueue,
    key: Key,
    value: u64,
    condition: Condition,
    tries: u32,
) -> Result<PutOutcome, CallFault>
    requires own { IsOf shared.now pass.old }
    requires values { HasValues shared.now }
    requires rests { IsResting pass.old }
    requires kept { HoldsCuts pass.old held.old }
    ensures after { AfterPut workspace.old.placement shared.now.layout tries condition key value
        pass.old pass.new result }
    ensures refused { IsErrOf result CallFault.NoMemory → held.new.queue.spare < cut_bound }
    ensures kept { HoldsCuts pass.new held.new }
    ensures few { length held.new.queue.items ≤ shared.now.layout.nodes }
    ensures on { ExtendsStores pass.new.view.stores pass.old.view.stores }
    ensures blocks { TakesRoom held.old.queue held.new.queue }
    ensures fit { workspace.new.placement ≡ workspace.old.placement }
{
    pass.know_run();
    if tries == 0 {
        return Err(CallFault::Busy);
    }
    if !make_room(&mut held.queue) {
        return Err(CallFault::NoMemory);
    }
    let Ok(_epoch) = pin_for(shared, pass, tries, Op::Insert, key) else {
        return Err(CallFault::Busy);
    };
    put_pinned(shared, pass, workspace, held, key, value, condition, tries)
}
