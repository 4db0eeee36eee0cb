//! The nodes that a cleanup may cut off.
ghost use Rattle.std.specs.Prelude.{◌≡◌, ◌≤◌, ◌+◌, ◌*◌, ◌++◌, ◌∷◌, [], ℕ, List, length, Some, IfSome};
ghost use Rattle.nm_edge.specs.Edges.{other};
ghost use Rattle.nm_edge.specs.declared.node.NodeId.{NodeId as Node};
ghost use Rattle.nm_order.specs.Facts.Fact.{KnowsSlot, IsTagged, IsFlagged};
ghost use Rattle.nm_order.specs.Told.{FrozenTo};
ghost use Rattle.nm_walks.specs.Bounds.{cut_bound};
ghost use Rattle.nm_walks.specs.Telling.{Tells, GoesOn, OnlyLooks, IsPinnedIn};
ghost use Rattle.nm_walks.specs.Walks.{ChainLeads};
ghost use Rattle.nm_walks.specs.Cleanups.{Chooses, FrozenAt, Freezes, top};

use crate::looking::{look_birth, look_edge};
use crate::seek_record::{ChainEdge, SeekRecord};
use crate::workspace::CutNodes;
use nm_edge::{NodeId, Side};
use nm_steps::{Pass, Shared};

/// The side of the parent's edge that a cleanup keeps, and the flagged leaf on the other side.
#[derive(Clone, Copy, Debug, PartialEq, Eq)]
pub struct Kept {
    pub side: Side,
    pub leaf: u32,
}

/// Chooses the edge to keep of the parent of a walk, if one of the parent's edges is flagged. Cost:
/// two looks. (The cleanup of Natarajan and Mittal, section 3.2.)
#[inline(always)]
pub fn choose(shared: &Shared, pass: &mut Pass, seek_record: &SeekRecord) -> Option<Kept>
    requires pinned { IsPinnedIn shared.now pass.old }
    requires known { Tells pass.old (KnowsSlot seek_record.now.parent) }
    ensures looks { Chooses seek_record.now pass.old.view.log pass.new.view.log result }
    ensures on { GoesOn pass.old pass.new }
    ensures only { OnlyLooks pass.old pass.new }
    ensures flagged { IfSome result
        (λ r. Tells pass.new (IsFlagged seek_record.now.parent (other r.side) r.leaf)) }
    ensures high { IfSome result (λ r. 6 ≤ seek_record.now.parent) }
    ensures again { (to : ℕ) → Tells pass.old (IsFlagged seek_record.now.parent seek_record.now.side to)
        → result ≡ Some (record { side = other seek_record.now.side; leaf = to }) }
{
    let layout = shared.layout();
    let across = seek_record.side.other();
    let on = look_edge(shared, layout, pass, seek_record.parent, seek_record.side);
    let off = look_edge(shared, layout, pass, seek_record.parent, across);
    if on.flag() {
        Some(Kept {
            side: across,
            leaf: on.slot(),
        })
    } else if off.flag() {
        Some(Kept {
            side: seek_record.side,
            leaf: off.slot(),
        })
    } else {
        None
    }
}

/// Looks at a node whose edge on a side is tagged, and at the flagged leaf beside it; returns both,
/// with their births. Cost: three looks.
fn freeze_one(shared: &Shared, pass: &mut Pass, slot: u32, side: Side) -> (NodeId, NodeId)
    requires pinned { IsPinnedIn shared.now pass.old }
    requires known { Tells pass.old (KnowsSlot slot) }
    requires tagged { (to : ℕ) × Tells pass.old (IsTagged slot side to) }
    ensures frozen { FrozenAt pass.old pass.new slot side result.0 result.1 }
    ensures on { GoesOn pass.old pass.new }
    ensures only { OnlyLooks pass.old pass.new }
{
    let leaf = look_edge(shared, shared.layout(), pass, slot, side.other()).slot();
    let birth = look_birth(shared, pass, slot);
    let leaf_birth = look_birth(shared, pass, leaf);
    (
        NodeId { slot, birth },
        NodeId {
            slot: leaf,
            birth: leaf_birth,
        },
    )
}

/// Appends to `nodes` a node whose edge on a side is tagged, and the flagged leaf beside it.
fn add_frozen(shared: &Shared, pass: &mut Pass, slot: u32, side: Side, nodes: &mut CutNodes)
    requires pinned { IsPinnedIn shared.now pass.old }
    requires known { Tells pass.old (KnowsSlot slot) }
    requires tagged { (to : ℕ) × Tells pass.old (IsTagged slot side to) }
    requires room { length nodes.old.items + 2 ≤ cut_bound }
    ensures frozen { (node leaf : Node) × FrozenAt pass.old pass.new slot side node leaf
        × (nodes.new.items ≡ nodes.old.items ++ node ∷ leaf ∷ []) }
    ensures on { GoesOn pass.old pass.new }
    ensures only { OnlyLooks pass.old pass.new }
{
    let (node, leaf) = freeze_one(shared, pass, slot, side);
    nodes.push(node);
    nodes.push(leaf);
}

/// Looks at each node of a chain of tagged edges down to the parent, whose edge on `keep` is tagged
/// too, and at the flagged leaf beside each. It appends to `nodes`, downwards, each node and then
/// its leaf, with their births. Cost: three looks per node, including the parent. (The chain that
/// one splice of Natarajan and Mittal's cleanup cuts off, section 3.2.)
pub(crate) fn freeze(
    shared: &Shared,
    pass: &mut Pass,
    chain: &[ChainEdge],
    parent: u32,
    keep: Side,
    nodes: &mut CutNodes,
)
    requires pinned { IsPinnedIn shared.now pass.old }
    requires way { ChainLeads (Tells pass.old) (top chain.now parent) chain.now parent }
    requires known { Tells pass.old (KnowsSlot (top chain.now parent)) }
    requires tagged { (to : ℕ) × Tells pass.old (IsTagged parent keep to) }
    requires room { length nodes.old.items + 2 * (length chain.now + 1) ≤ cut_bound }
    ensures frozen { (ns : List Node) × (nodes.new.items ≡ nodes.old.items ++ ns)
        × FrozenTo (Tells pass.new) parent keep (top chain.now parent) ns }
    ensures size { length nodes.new.items ≡ length nodes.old.items + 2 * (length chain.now + 1) }
    ensures looks { Freezes parent keep chain.now pass.old.view.log pass.new.view.log }
    ensures on { GoesOn pass.old pass.new }
    ensures only { OnlyLooks pass.old pass.new }
{
    match chain.split_first() {
        None => add_frozen(shared, pass, parent, keep, nodes),
        Some((edge, rest)) => {
            add_frozen(shared, pass, edge.slot, edge.side, nodes);
            freeze(shared, pass, rest, parent, keep, nodes);
        }
    }
}
