//! Slots taken out of the pool to be new nodes, and given back.
ghost use Rattle.std.specs.Prelude.{◌≡◌, ◌+◌, ◌*◌, ◌≤◌, ◌<◌, true, Some, length, IfSome, IfOk, ◌%◌, ◌-◌};
ghost use Rattle.nm_model.specs.declared.event.Event.TheVariants.{Give};
ghost use Rattle.nm_model.specs.declared.reply.Reply.TheVariants.{Returned};
ghost use Rattle.nm_model.specs.Knowledge.{is_private, draft_of};
ghost use Rattle.nm_order.specs.Told.{IsNew};
ghost use Rattle.nm_steps.specs.Rules.{knowledge};
ghost use Rattle.nm_steps.specs.Steps.{Continues, IsOf, TakesStep};
ghost use Rattle.nm_pool.specs.Claims.{IsClaim, IsClaimBetween, IsTried, IsTriedRow, IfGot, IsNewNode, LearnsSlots, node_in};

use nm_edge::{FIRST_SLOT, LAST_NUMBER, NodeId, SLOTS_OF_A_ROW, place_in_row};
use nm_steps::{Pass, Shared};

/// The result of a try of one slot.
#[derive(Clone, Copy)]
pub(crate) enum Tried {
    /// The slot is not in the pool.
    Taken,
    /// The slot has the greatest birth (generation), and is in the pool again.
    Exhausted,
    /// The slot is now private to the worker, with this birth, which is one more than before.
    Got(u64),
}

/// Takes a slot out of the pool for a new node: the lowest that it finds there with a birth
/// (generation) below 2^62. Raises the birth by one.
///
/// If a node is returned, its slot is private to the worker, which had it nowhere before. The birth
/// that was found there, plus 1, is stored in it. Each lower slot above 5 was found taken or
/// exhausted in this call; an exhausted one is back in the pool. Slot 0 with birth 0 is returned if
/// each slot above 5 was found taken or exhausted.
///
/// Cost: at most three steps for each slot.
///
/// Slots come back to the pool by epoch-based reclamation (Fraser, Practical lock-freedom, 2004,
/// chapter 5). The births distinguish the nodes that were in one slot.
#[inline(never)]
pub(crate) fn claim(shared: &Shared, pass: &mut Pass) -> NodeId
    requires { IsOf shared.now pass.old }
    ensures on { Continues pass.old pass.new }
    ensures part { IsClaim shared.now.layout.nodes pass.old.view.log pass.new.view.log
        (node_in result) }
    ensures made { IfSome (node_in result) (IsNewNode (knowledge pass.new.view)) }
    ensures new { IfSome (node_in result)
        (λ node. IsNew pass.old.view.layout pass.old.view.number pass.old.view.log node.slot) }
    ensures learned { LearnsSlots (knowledge pass.old.view) (knowledge pass.new.view) }
    ensures steps { length pass.new.view.log
        ≤ length pass.old.view.log + 3 * shared.now.layout.nodes }
{
    let nodes = shared.layout().nodes();
    let next = match try_row(shared, pass, FIRST_SLOT, nodes + 1) {
        Ok(node) => return node,
        Err(next) => next,
    };
    let Some(node) = claim_by_rows(shared, pass, next, nodes + 1) else {
        return NodeId { slot: 0, birth: 0 };
    };
    node
}

/// Claims the first slot, from `from` on and below `to`, that is found in the pool and is not
/// exhausted, row by row.
#[cold]
#[inline(never)]
pub(crate) fn claim_by_rows(shared: &Shared, pass: &mut Pass, from: u32, to: u32) -> Option<NodeId>
    requires own { IsOf shared.now pass.old }
    requires low { 5 < from }
    requires order { from ≤ to }
    requires high { to ≤ shared.now.layout.nodes + 1 }
    ensures on { Continues pass.old pass.new }
    ensures part { IsClaimBetween from to pass.old.view.log pass.new.view.log result }
    ensures made { IfSome result (IsNewNode (knowledge pass.new.view)) }
    ensures new { IfSome result
        (λ node. IsNew pass.old.view.layout pass.old.view.number pass.old.view.log node.slot) }
    ensures learned { LearnsSlots (knowledge pass.old.view) (knowledge pass.new.view) }
{
    pass.know_run();
    let mut slot = from;
    while slot < to {
        match try_row(shared, pass, slot, to) {
            Ok(node) => return Some(node),
            Err(next) => slot = next,
        }
    }
    None
}

/// Looks at a slot's row of the pool. Passes over the slots that it shows to be taken, all at one
/// moment, and tries the first that it shows to be in the pool. `Err`: the slot at which to go on.
#[inline(always)]
fn try_row(shared: &Shared, pass: &mut Pass, from: u32, to: u32) -> Result<NodeId, u32>
    requires own { IsOf shared.now pass.old }
    requires low { 5 < from }
    requires order { from < to }
    requires high { to ≤ shared.now.layout.nodes + 1 }
    ensures on { Continues pass.old pass.new }
    ensures part { IsTriedRow from to pass.old.view.log pass.new.view.log result }
    ensures made { IfOk result (IsNewNode (knowledge pass.new.view)) }
    ensures new { IfOk result
        (λ node. IsNew pass.old.view.layout pass.old.view.number pass.old.view.log node.slot) }
    ensures learned { LearnsSlots (knowledge pass.old.view) (knowledge pass.new.view) }
{
    let most = (to - from).min(left_in_row(from));
    let shown = shared.pass_row(pass, from, most);
    if shown == from + most {
        return Err(shown);
    }
    if let Tried::Got(birth) = try_slot(shared, pass, shown) {
        return Ok(NodeId { slot: shown, birth });
    }
    Err(shown + 1)
}

/// Returns the number of slots from this one to the end of its row.
fn left_in_row(slot: u32) -> u32
    requires { 1 ≤ slot }
    ensures some { 1 ≤ result }
    ensures few { result ≤ SLOTS_OF_A_ROW }
    ensures row { (slot - 1) % 64 + result ≡ 64 }
{
    SLOTS_OF_A_ROW - place_in_row(slot)
}

/// Gives a private node back to the pool, in one step. Its birth stays, so the slot's next node has
/// another one.
pub fn give(shared: &Shared, pass: &mut Pass, node: NodeId)
    requires own { IsOf shared.now pass.old }
    requires private { is_private (knowledge pass.old.view) node.slot ≡ true }
    requires birth { (draft_of (knowledge pass.old.view) node.slot).birth ≡ Some node.birth }
    ensures { TakesStep pass.old pass.new (Give node.slot) (Returned node.slot) }
{
    put(shared, pass, node.slot);
}

/// Puts a private slot back into the pool, in one step.
fn put(shared: &Shared, pass: &mut Pass, slot: u32)
    requires own { IsOf shared.now pass.old }
    requires private { is_private (knowledge pass.old.view) slot ≡ true }
    ensures { TakesStep pass.old pass.new (Give slot) (Returned slot) }
{
    pass.know_pooled_slots();
    shared.give(pass, slot);
}

/// Takes one slot out of the pool, if it is there, and raises its birth by one. An exhausted slot
/// is put back instead.
#[inline(always)]
pub(crate) fn try_slot(shared: &Shared, pass: &mut Pass, slot: u32) -> Tried
    requires own { IsOf shared.now pass.old }
    requires low { 5 < slot }
    requires high { slot ≤ shared.now.layout.nodes }
    ensures on { Continues pass.old pass.new }
    ensures part { IsTried slot pass.old.view.log pass.new.view.log result }
    ensures made { IfGot slot result (IsNewNode (knowledge pass.new.view)) }
    ensures new { IfGot slot result
        (λ node. IsNew pass.old.view.layout pass.old.view.number pass.old.view.log node.slot) }
    ensures learned { LearnsSlots (knowledge pass.old.view) (knowledge pass.new.view) }
{
    if !shared.claim(pass, slot) {
        return Tried::Taken;
    }
    let birth = shared.look_birth(pass, slot);
    if birth == LAST_NUMBER {
        put(shared, pass, slot);
        return Tried::Exhausted;
    }
    shared.fill_birth(pass, slot, birth + 1);
    Tried::Got(birth + 1)
}
