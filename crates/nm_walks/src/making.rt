//! New nodes: they are claimed, filled in private slots, and given back.
//!
//! `claim` and `give` are those of `nm_pool`, said in facts of the log that later steps keep, as in
//! `looking`.
ghost use Rattle.std.specs.Prelude.{◌≡◌, ◌⊎◌, ◌+◌, ◌*◌, ◌≤◌, false, length, Some, IsSome, IfSome, IfOk, IfErr};
ghost use Rattle.nm_model.specs.declared.event.Event.TheVariants.{Give};
ghost use Rattle.nm_model.specs.declared.reply.Reply.TheVariants.{Returned};
ghost use Rattle.nm_model.specs.Knowledge.{is_private};
ghost use Rattle.nm_model.specs.Maps.{get};
ghost use Rattle.nm_order.specs.Facts.Fact.{KnowsSlot};
ghost use Rattle.nm_order.specs.Hands.{IsPooled};
ghost use Rattle.nm_order.specs.Told.{IsNew};
ghost use Rattle.nm_pool.specs.Claims.{IsClaimBy, IsNewNode, LearnsSlots};
ghost use Rattle.nm_steps.specs.Rules.{HasNotStored, knowledge};
ghost use Rattle.nm_steps.specs.Steps.{IsOf, Stepped};
ghost use Rattle.nm_walks.specs.Telling.{Tells, GoesOn, IsPinnedIn};
ghost use Rattle.nm_walks.specs.Making.{HasJustStored, draft, KeepsOtherSlots, KeepsAllBut, OnlyMakes, with_node, HasFilled, IsInserting, HasLinked, HasLost};

use crate::seek_record::SeekRecord;
use nm_edge::{Edge, NodeId, Placement, Side};
use nm_pool::claim_by;
use nm_steps::{Pass, Shared};

/// The contents of a new node: its key, and its edges, which are 0 for a leaf.
#[derive(Clone, Copy, Debug, PartialEq, Eq)]
pub(crate) struct Contents {
    pub key: u64,
    pub left: u32,
    pub right: u32,
}

/// Two private nodes: a new internal node, and a new leaf to be linked below it.
#[derive(Clone, Copy, Debug, PartialEq, Eq)]
pub struct NewNodes {
    pub internal: NodeId,
    pub leaf: NodeId,
}

/// Takes a slot out of the pool for a new node, and raises its birth (generation) by one. It takes
/// the first slot that it finds free with a birth below 2^62, in the order of the placement.
///
/// `Some(node)`: the slot is private to the worker, and was new to it. Its birth is stored there,
/// and nothing else is. Cost: at most three steps per slot.
#[inline(always)]
pub fn claim(shared: &Shared, pass: &mut Pass, placement: &mut Placement) -> Option<NodeId>
    requires own { IsOf shared.now pass.old }
    ensures part { IsClaimBy placement.old shared.now.layout.nodes pass.old.view.log
        pass.new.view.log result }
    ensures steps { length pass.new.view.log
        ≤ length pass.old.view.log + 3 * shared.now.layout.nodes }
    ensures on { GoesOn pass.old pass.new }
    ensures made { IfSome result (IsNewNode (knowledge pass.new.view)) }
    ensures pooled { IfSome result (λ node. IsPooled pass.new.view.layout node.slot) }
    ensures new { IfSome result
        (λ node. IsNew pass.old.view.layout pass.old.view.number pass.old.view.log node.slot) }
    ensures learned { LearnsSlots (knowledge pass.old.view) (knowledge pass.new.view) }
    ensures others { KeepsAllBut result pass.old pass.new }
    ensures only { OnlyMakes pass.old pass.new }
    ensures fit { placement.new ≡ placement.old }
{
    pass.know_run();
    claim_by(shared, pass, placement)
}

/// Gives a private node back to the pool, in one step. Its birth stays in the slot, so the next
/// node there has another one.
pub fn give(shared: &Shared, pass: &mut Pass, node: NodeId)
    requires own { IsOf shared.now pass.old }
    requires birth { (draft pass.old node.slot).birth ≡ Some node.birth }
    ensures step { Stepped pass.old pass.new (Give node.slot) (Returned node.slot) }
    ensures on { GoesOn pass.old pass.new }
    ensures given { is_private (knowledge pass.new.view) node.slot ≡ false }
    ensures others { KeepsOtherSlots node.slot pass.old pass.new }
    ensures only { OnlyMakes pass.old pass.new }
{
    pass.know_run();
    nm_pool::give(shared, pass, node);
}

/// Stores a key and two edges in a private slot whose birth is stored, in three steps. The worker has
/// stored no value after the last one.
pub(crate) fn fill(shared: &Shared, pass: &mut Pass, slot: u32, node: &Contents)
    requires own { IsOf shared.now pass.old }
    requires born { IsSome (draft pass.old slot).birth }
    requires left { node.now.left ≤ pass.old.view.layout.nodes }
    requires right { node.now.right ≤ pass.old.view.layout.nodes }
    ensures steps { HasFilled pass.old pass.new slot node.now.key node.now.left node.now.right }
    ensures on { GoesOn pass.old pass.new }
    ensures filled { get (knowledge pass.new.view).drafts slot
        ≡ Some (with_node (draft pass.old slot) node.now.key node.now.left node.now.right) }
    ensures others { KeepsOtherSlots slot pass.old pass.new }
    ensures only { OnlyMakes pass.old pass.new }
    ensures once { HasNotStored pass.new.view }
{
    pass.know_run();
    pass.know_pooled_slots();
    pass.know_stores();
    shared.fill_key(pass, slot, node.key);
    shared.fill_edge(pass, slot, Side::Left, node.left);
    shared.fill_edge(pass, slot, Side::Right, node.right);
}

/// Fills a private slot whose birth is stored as a leaf with this key. If the table has values, the
/// value is stored last.
pub fn fill_leaf(shared: &Shared, pass: &mut Pass, slot: u32, key: u64, value: u64)
    requires own { IsOf shared.now pass.old }
    requires born { IsSome (draft pass.old slot).birth }
    ensures steps { HasFilled pass.old pass.new slot key 0 0 }
    ensures on { GoesOn pass.old pass.new }
    ensures filled { get (knowledge pass.new.view).drafts slot
        ≡ Some (with_node (draft pass.old slot) key 0 0) }
    ensures others { KeepsOtherSlots slot pass.old pass.new }
    ensures only { OnlyMakes pass.old pass.new }
    ensures stored { (shared.now.table.slots ≡ 0) ⊎ HasJustStored pass.new slot value }
{
    let alone = Contents {
        key,
        left: 0,
        right: 0,
    };
    fill(shared, pass, slot, &alone);
    if !shared.has_values() {
        return;
    }
    pass.know_pooled_slots();
    shared.fill_value(pass, slot, value);
}
