//! Inserts: tries to link two new nodes.
ghost use Rattle.std.specs.Prelude.{◌≡◌, ◌<◌, ◌≤◌, ◌*◌, ℕ, true, false, length, [], Some, None, Ok, IfOk, IfSome, IsErrOf};
ghost use Rattle.nm_edge.specs.Keys.{IsKey};
ghost use Rattle.nm_model.specs.declared.event.Op.TheVariants.{Insert};
ghost use Rattle.nm_steps.specs.Rules.{ExtendsStores};
ghost use Rattle.nm_steps.specs.Steps.{PassView, IsOf, Continues};
ghost use Rattle.nm_steps.specs.Values.{HasValues};
ghost use Rattle.nm_epoch.specs.Resting.{IsResting, search};
ghost use Rattle.nm_walks.specs.Bounds.{cut_bound};
ghost use Rattle.nm_walks.specs.Rooms.{FillsUp, TakesRoom};
ghost use Rattle.nm_walks.specs.Telling.{Tells, GoesOn, OnlyLooks, IsPinnedIn};
ghost use Rattle.nm_order.specs.Facts.Fact.{KnowsSlot};
ghost use Rattle.nm_order.specs.Facts.Since.{ThePin};
ghost use Rattle.nm_walks.specs.Places.{HasPlace, HasStopped, Stops};
ghost use Rattle.nm_walks.specs.Making.{OnlyMakes};
ghost use Rattle.nm_calls.specs.Moments.{AnswerHasMoment, HadNoCall};
ghost use Rattle.nm_walks.specs.Cleanups.{KeepsLedgers, HoldsCuts};
ghost use Rattle.nm_walks.specs.Growing.{HasNewNodes, IfReady, Returns};
ghost use Rattle.nm_calls.specs.Inserts.{IsReadied, IsTry, OnlyTries, ShowsTry, Finishes, AfterInsert};
ghost use Rattle.nm_walks.specs.Labelling.{IsPinnedForCall};
ghost use Rattle.nm_calls.specs.Leaving.{EndedWith, HasChangedNothing};
ghost use Rattle.nm_calls.specs.Maps.{HasInserted, HasPut, HasReadFound, HasReadValue, MapGave, answered};

use crate::fault::CallFault;
use crate::helping::{help, make_room, make_room_for};
use crate::leaving::{answer, leave};
use crate::values::read_value;
use nm_edge::{Key, Placement};
use nm_epoch::{HeldQueue, pin_for};
use nm_model::Op;
use nm_steps::{Pass, Shared};
use nm_walks::{
    ChainEdges, NewNodes, Stop, WalkEnd, Workspace, claim_new_nodes, give_back, grow, seek,
};

/// The result of a try of an insert.
#[derive(Clone, Copy)]
pub(crate) enum Attempt {
    /// This leaf has the key.
    Found(u32),
    /// A new leaf with the key is linked.
    Linked,
    /// Fewer than two slots were claimed.
    Full,
    /// The walk was broken off, or the link was lost.
    Lost,
}

/// Returns the two new nodes, and claims them if there are none yet.
fn ready(
    shared: &Shared,
    pass: &mut Pass,
    placement: &mut Placement,
    new_nodes: &mut Option<NewNodes>,
) -> Option<NewNodes>
    requires own { IsOf shared.now pass.old }
    ensures part { IsReadied placement.old shared.now.layout.nodes new_nodes.old new_nodes.new result
        pass.old.view.log pass.new.view.log }
    ensures on { GoesOn pass.old pass.new }
    ensures only { OnlyMakes pass.old pass.new }
    ensures has { (o : PassView) → HasNewNodes o pass.old new_nodes.old → HasNewNodes o pass.new new_nodes.new }
    ensures fit { placement.new ≡ placement.old }
{
    pass.know_run();
    if let Some(made) = *new_nodes {
        return Some(made);
    }
    let made = claim_new_nodes(shared, pass, placement);
    *new_nodes = made;
    made
}

/// Walks as an insert does, which depends on the shape of the tree.
#[inline(always)]
pub fn seek_place(
    shared: &Shared,
    pass: &mut Pass,
    key: u64,
    chain: &mut ChainEdges,
) -> Option<WalkEnd>
    requires pinned { IsPinnedIn shared.now pass.old }
    requires root { Tells pass.old (KnowsSlot 1) }
    requires known { Tells pass.old (KnowsSlot 2) }
    requires key { IsKey key }
    ensures walk { Stops shared.now.layout key pass.old.view.log pass.new.view.log
        chain.new.items result }
    ensures came { IfSome result
        (HasStopped shared.now.layout key pass.old pass.new chain.new.items) }
    ensures place { IfSome result
        (HasPlace shared.now.layout.radix pass.old pass.new key) }
    ensures on { GoesOn pass.old pass.new }
    ensures only { OnlyLooks pass.old pass.new }
{
    if shared.layout().is_radix() {
        seek(shared, pass, key, Stop::Place, chain)
    } else {
        seek(shared, pass, key, Stop::Leaf, chain)
    }
}

/// Tries once to insert: a walk, and a link if the leaf has another key. If the link is lost, the
/// try helps with at most one cleanup.
fn try_insert(
    shared: &Shared,
    pass: &mut Pass,
    workspace: &mut Workspace,
    held: &mut HeldQueue,
    key: Key,
    value: u64,
    new_nodes: &mut Option<NewNodes>,
) -> Attempt
    requires pinned { IsPinnedIn shared.now pass.old }
    requires call { IsPinnedForCall Insert key pass.old }
    requires unlinked { (search pass.old).linked ≡ false }
    requires unswapped { (search pass.old).swapped ≡ false }
    requires room { cut_bound ≤ held.old.queue.spare }
    requires kept { HoldsCuts pass.old held.old }
    requires new_nodes { (o : PassView) × HasNewNodes o pass.old new_nodes.old }
    ensures part { IsTry workspace.old.placement shared.now.layout key new_nodes.old new_nodes.new
        pass.old.view.log pass.new.view.log result }
    ensures on { GoesOn pass.old pass.new }
    ensures only { OnlyTries pass.old pass.new }
    ensures shows { ShowsTry key pass.old pass.new result }
    ensures stored { HasValues shared.now → result ≡ Attempt.Linked
        → HasInserted [] pass.new key value }
    ensures put { HasValues shared.now → result ≡ Attempt.Linked
        → HasPut pass.old pass.new key value }
    ensures has { (o : PassView) → HasNewNodes o pass.old new_nodes.old → HasNewNodes o pass.new new_nodes.new }
    ensures kept { HoldsCuts pass.new held.new }
    ensures fills { FillsUp held.old.queue held.new.queue }
    ensures fit { workspace.new.placement ≡ workspace.old.placement }
{
    let sought = key.get();
    let Some(end) = seek_place(shared, pass, sought, &mut workspace.chain) else {
        return Attempt::Lost;
    };
    if end.key == sought {
        let leaf = end.seek_record.edge.slot();
        return Attempt::Found(leaf);
    }
    let Some(made) = ready(shared, pass, &mut workspace.placement, new_nodes) else {
        return Attempt::Full;
    };
    match grow(shared, pass, sought, value, &end, &made) {
        Ok(()) => {
            pass.know_run();
            *new_nodes = None;
            held.counts.links = held.counts.links.saturating_add(1);
            Attempt::Linked
        }
        Err(found) => {
            help(shared, pass, workspace, held, &end, found);
            Attempt::Lost
        }
    }
}

/// Gives both new nodes back to the pool, like `give_back`, and then writes the value of this leaf
/// to `workspace.found`, in a table with values. A walk of the call must have ended at the leaf, with
/// its key. The look at the value is in no log.
#[inline(always)]
fn give_back_and_read(
    shared: &Shared,
    pass: &mut Pass,
    workspace: &mut Workspace,
    new_nodes: &Option<NewNodes>,
    leaf: u32,
)
    requires own { IsOf shared.now pass.old }
    requires ready { IfReady pass.old new_nodes.now }
    requires ended { (k : ℕ) × EndedWith pass.old ThePin k leaf k }
    ensures part { Returns new_nodes.now pass.old.view.log pass.new.view.log }
    ensures given { (o : PassView) → HasNewNodes o pass.old new_nodes.now → HasNewNodes o pass.new None }
    ensures on { GoesOn pass.old pass.new }
    ensures only { OnlyMakes pass.old pass.new }
    ensures fit { workspace.new.placement ≡ workspace.old.placement }
    ensures read { HasValues shared.now → (k : ℕ) → EndedWith pass.old ThePin k leaf k
        → HasReadValue pass.new k workspace.new.found }
{
    pass.know_run();
    give_back(shared, pass, &mut workspace.placement, new_nodes);
    read_value(shared, pass, leaf, &mut workspace.found);
}

/// Makes the tries of an insert, from its pin to its answer. The room of the first one must have
/// been made before the pin. If the answer is false, it has written the value of the leaf with the key
/// to `workspace.found`.
fn insert_pinned(
    shared: &Shared,
    pass: &mut Pass,
    workspace: &mut Workspace,
    held: &mut HeldQueue,
    key: Key,
    value: u64,
    tries: u32,
) -> Result<bool, CallFault>
    requires pinned { IsPinnedIn shared.now pass.old }
    requires call { IsPinnedForCall Insert key pass.old }
    requires unchanged { HasChangedNothing pass.old }
    requires room { cut_bound ≤ held.old.queue.spare }
    requires kept { HoldsCuts pass.old held.old }
    ensures on { Continues pass.old pass.new }
    ensures part { Finishes workspace.old.placement shared.now.layout tries key
        pass.old.view.log pass.new.view.log result }
    ensures refused { IsErrOf result CallFault.NoMemory → held.new.queue.spare < cut_bound }
    ensures stored { HasValues shared.now → result ≡ Ok true
        → HasInserted (answered true) pass.new key value }
    ensures put { HasValues shared.now → result ≡ Ok true → HasPut pass.old pass.new key value }
    ensures finds { HasValues shared.now → result ≡ Ok false
        → HasReadFound pass.old pass.new key workspace.new.found }
    ensures moment { (o : PassView) → HadNoCall o pass.old
        → IfOk result (AnswerHasMoment o pass.new Insert key) }
    ensures rests { IsResting pass.new }
    ensures private { HasNewNodes pass.old pass.new None }
    ensures kept { HoldsCuts pass.new held.new }
    ensures blocks { TakesRoom held.old.queue held.new.queue }
    ensures ledgers { KeepsLedgers pass.old pass.new }
    ensures fit { workspace.new.placement ≡ workspace.old.placement }
{
    let mut new_nodes: Option<NewNodes> = None;
    for round in 0..tries {
        if !make_room_for(&mut held.queue, round) {
            give_back(shared, pass, &mut workspace.placement, &new_nodes);
            leave(shared, pass);
            return Err(CallFault::NoMemory);
        }
        match try_insert(shared, pass, workspace, held, key, value, &mut new_nodes) {
            Attempt::Found(leaf) => {
                give_back_and_read(shared, pass, workspace, &new_nodes, leaf);
                answer(shared, pass, false);
                return Ok(false);
            }
            Attempt::Linked => {
                answer(shared, pass, true);
                return Ok(true);
            }
            Attempt::Full => {
                leave(shared, pass);
                return Err(CallFault::Full);
            }
            Attempt::Lost => {}
        }
    }
    give_back(shared, pass, &mut workspace.placement, &new_nodes);
    leave(shared, pass);
    Err(CallFault::Busy)
}

/// Inserts `key`; returns true if it was absent. The worker must rest, and it rests afterwards,
/// with the same private slots. Its queue is that of its log before and after, with no more entries
/// than there are nodes.
///
/// In a table with values a new key gets `value`, and a key that was there keeps its value. The call
/// stores the value in the new leaf as its last step before the link, so no other worker can read
/// the leaf without it. In a table without values `value` is not used.
///
/// If the result is `Ok(false)` in a table with values, the call has written the value of the key to
/// `workspace.found`. It has read the value at the leaf with the key, under its pin, after its walk
/// had ended there: the map had the key with this value at a moment (linearization point) of the
/// call. If the result is another one, or the table has no values, `workspace.found` may be anything.
///
/// Each try is a walk that ends with the answer, or a link. If the link is lost, the try helps with
/// at most one cleanup. Before each try the call makes room for a cleanup, with as few new blocks
/// as possible; for the first try it does so before the pin. It takes no other memory. It claims
/// new nodes in the order of the workspace's placement, which keeps its fit.
///
/// Errors: `Busy`, `Full`, `NoMemory`: see `CallFault`. The call has changed nothing in the set,
/// but it may have helped other deletes.
///
/// Cost: at most `tries` * (4 `reach` + 512) + 6 `nodes` + 10 steps. A walk's reach is 66 nodes in
/// a radix tree, and the number of nodes otherwise. The call wins one link if the result is
/// `Ok(true)`, and else none; it wins no flag. (The insert of Natarajan and Mittal, section 3.2.)
pub fn insert(
    shared: &Shared,
    pass: &mut Pass,
    workspace: &mut Workspace,
    held: &mut HeldQueue,
    key: Key,
    value: u64,
    tries: u32,
) -> Result<bool, CallFault>
    requires own { IsOf shared.now pass.old }
    requires rests { IsResting pass.old }
    requires kept { HoldsCuts pass.old held.old }
    ensures after { AfterInsert workspace.old.placement shared.now.layout tries key pass.old
        pass.new result }
    ensures refused { IsErrOf result CallFault.NoMemory → held.new.queue.spare < cut_bound }
    ensures stored { HasValues shared.now → result ≡ Ok true
        → HasInserted (answered true) pass.new key value }
    ensures put { HasValues shared.now → result ≡ Ok true → HasPut pass.old pass.new key value }
    ensures finds { HasValues shared.now → result ≡ Ok false
        → MapGave pass.old pass.new key (Some workspace.new.found) }
    ensures kept { HoldsCuts pass.new held.new }
    ensures few { length held.new.queue.items ≤ shared.now.layout.nodes }
    ensures on { ExtendsStores pass.new.view.stores pass.old.view.stores }
    ensures blocks { TakesRoom held.old.queue held.new.queue }
    ensures fit { workspace.new.placement ≡ workspace.old.placement }
{
    pass.know_run();
    if tries == 0 {
        return Err(CallFault::Busy);
    }
    if !make_room(&mut held.queue) {
        return Err(CallFault::NoMemory);
    }
    let Ok(_epoch) = pin_for(shared, pass, tries, Op::Insert, key) else {
        return Err(CallFault::Busy);
    };
    insert_pinned(shared, pass, workspace, held, key, value, tries)
}
