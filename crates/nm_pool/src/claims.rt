//! Slots claimed in the order of a worker's placement. `claim_by` chooses the way of its fit; each
//! way is a function of its own.
ghost use Rattle.std.specs.Prelude.{◌≡◌, ◌+◌, ◌*◌, ◌≤◌, List, None, length, IfSome};
ghost use Rattle.nm_model.specs.Walks.{Entry};
ghost use Rattle.nm_order.specs.Told.{IsNew};
ghost use Rattle.nm_steps.specs.Rules.{knowledge};
ghost use Rattle.nm_steps.specs.Steps.{Continues, IsOf};
ghost use Rattle.nm_pool.specs.Claims.{IsClaimBy, IsClaimOfFew, IsNearClaim, IsNewNode, LearnsSlots, node_in};

use crate::nodes::{Tried, claim, claim_by_rows, try_slot};
use nm_edge::{FIRST_SLOT, Fit, NodeId, Placement};
use nm_steps::{Pass, Shared};

/// Takes a slot out of the pool for a new node, like `claim`, with the slots tried in the order of
/// a placement.
///
/// `Fit::FirstFit`: exactly like `claim`. `Fit::NextFit`: `Some(node)` if fewer than `nodes` slots
/// were found taken or exhausted in this call, and then this one in the pool. `None` if each slot
/// above 5 was found taken or exhausted in this call, in at most `nodes` tries.
///
/// Cost: at most three steps for each slot that is tried, and 3 * `nodes` in all.
#[inline(always)]
pub fn claim_by(shared: &Shared, pass: &mut Pass, placement: &mut Placement) -> Option<NodeId>
    requires { IsOf shared.now pass.old }
    ensures on { Continues pass.old pass.new }
    ensures part { IsClaimBy placement.old shared.now.layout.nodes pass.old.view.log
        pass.new.view.log result }
    ensures made { IfSome result (IsNewNode (knowledge pass.new.view)) }
    ensures new { IfSome result
        (λ node. IsNew pass.old.view.layout pass.old.view.number pass.old.view.log node.slot) }
    ensures learned { LearnsSlots (knowledge pass.old.view) (knowledge pass.new.view) }
    ensures steps { length pass.new.view.log
        ≤ length pass.old.view.log + 3 * shared.now.layout.nodes }
    ensures fit { placement.new ≡ placement.old }
{
    match placement.fit() {
        Fit::FirstFit => some_node(claim(shared, pass)),
        Fit::NextFit => claim_near(shared, pass, placement),
    }
}

/// Claims the slot that the worker gave back last, or that the cursor's row shows to be free, if it
/// gets it. Else claims the first slot that is found from the cursor's row upwards, and round; the
/// cursor then is at this slot.
#[inline(always)]
fn claim_near(shared: &Shared, pass: &mut Pass, placement: &mut Placement) -> Option<NodeId>
    requires { IsOf shared.now pass.old }
    ensures on { Continues pass.old pass.new }
    ensures part { IsNearClaim shared.now.layout.nodes pass.old.view.log pass.new.view.log result }
    ensures made { IfSome result (IsNewNode (knowledge pass.new.view)) }
    ensures new { IfSome result
        (λ node. IsNew pass.old.view.layout pass.old.view.number pass.old.view.log node.slot) }
    ensures learned { LearnsSlots (knowledge pass.old.view) (knowledge pass.new.view) }
    ensures fit { placement.new ≡ placement.old }
{
    if let Some(node) = claim_shown(shared, pass, placement) {
        return Some(node);
    }
    some_node(claim_in_turn(shared, pass, placement))
}

/// Tries one slot: the one that the worker gave back last, or else the first that the cursor's row
/// shows to be free. It must be a slot in which a node of the tree can be.
#[inline(always)]
fn claim_shown(shared: &Shared, pass: &mut Pass, placement: &mut Placement) -> Option<NodeId>
    requires { IsOf shared.now pass.old }
    ensures on { Continues pass.old pass.new }
    ensures part { IsClaimOfFew 1 shared.now.layout.nodes pass.old.view.log pass.new.view.log
        result }
    ensures made { IfSome result (IsNewNode (knowledge pass.new.view)) }
    ensures new { IfSome result
        (λ node. IsNew pass.old.view.layout pass.old.view.number pass.old.view.log node.slot) }
    ensures learned { LearnsSlots (knowledge pass.old.view) (knowledge pass.new.view) }
    ensures fit { placement.new ≡ placement.old }
{
    let nodes = shared.layout().nodes();
    let slot = slot_to_try(shared, pass, placement)?;
    if slot < FIRST_SLOT || nodes < slot {
        return None;
    }
    let Tried::Got(birth) = try_slot(shared, pass, slot) else {
        return None;
    };
    Some(NodeId { slot, birth })
}

/// Returns the slot that the worker gave back last, or else the first that the cursor's row shows
/// to be free. Nothing is proved about that slot.
#[inline(always)]
fn slot_to_try(shared: &Shared, pass: &mut Pass, placement: &mut Placement) -> Option<u32>
    requires { IsOf shared.now pass.old }
    ensures on { Continues pass.old pass.new }
    ensures log { pass.new.view.log ≡ pass.old.view.log }
    ensures learned { knowledge pass.new.view ≡ knowledge pass.old.view }
    ensures fit { placement.new ≡ placement.old }
{
    pass.know_run();
    let given = placement.take();
    if given != 0 {
        return Some(given);
    }
    shared.glance(pass, placement.cursor(shared.layout().nodes()))
}

/// Claims the first slot that is found from the first one of the cursor's row upwards, and round;
/// the cursor then is at this slot. Returns slot 0 with birth 0 if there was none.
///
/// If one slot was passed over before, the two calls are together a near claim.
#[cold]
#[inline(never)]
fn claim_in_turn(shared: &Shared, pass: &mut Pass, placement: &mut Placement) -> NodeId
    requires { IsOf shared.now pass.old }
    ensures on { Continues pass.old pass.new }
    ensures part { (old : List Entry)
        → IsClaimOfFew 1 shared.now.layout.nodes old pass.old.view.log None
        → IsNearClaim shared.now.layout.nodes old pass.new.view.log (node_in result) }
    ensures made { IfSome (node_in result) (IsNewNode (knowledge pass.new.view)) }
    ensures new { IfSome (node_in result)
        (λ node. IsNew pass.old.view.layout pass.old.view.number pass.old.view.log node.slot) }
    ensures learned { LearnsSlots (knowledge pass.old.view) (knowledge pass.new.view) }
    ensures fit { placement.new ≡ placement.old }
{
    let nodes = shared.layout().nodes();
    let first = placement.first(nodes);
    if let Some(node) = claim_by_rows(shared, pass, first, nodes + 1) {
        placement.found(node.slot);
        return node;
    }
    let Some(node) = claim_by_rows(shared, pass, FIRST_SLOT, first) else {
        return NodeId { slot: 0, birth: 0 };
    };
    placement.found(node.slot);
    node
}

/// Returns the node that was claimed, if there is one: its birth is above 0.
#[inline(always)]
fn some_node(node: NodeId) -> Option<NodeId>
    ensures { result ≡ node_in node }
{
    if node.birth == 0 {
        return None;
    }
    Some(node)
}
