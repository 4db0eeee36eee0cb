//! Marks and cuts: tags and flags of edges, and splices that cut off frozen chains, if the worker's
//! own log allows them. Each function is one step of `Shared`, said in facts of the log that later
//! steps keep, as in `looking`.
ghost use Rattle.std.specs.Prelude.{ℕ, List, IfOk, IfErr};
ghost use Rattle.nm_edge.specs.Edges.{other};
ghost use Rattle.nm_edge.specs.declared.node.NodeId.{NodeId};
ghost use Rattle.nm_model.specs.declared.event.Event.TheVariants.{Tag};
ghost use Rattle.nm_model.specs.declared.reply.Reply.TheVariants.{Was};
ghost use Rattle.nm_order.specs.Facts.Fact.{KnowsSlot, IsFlagged, IsBorn};
ghost use Rattle.nm_order.specs.Told.{FrozenTo};
ghost use Rattle.nm_steps.specs.Steps.{Stepped};
ghost use Rattle.nm_walks.specs.Telling.{Tells, GoesOn, OnlyLooks, IsPinnedIn};
ghost use Rattle.nm_walks.specs.Marking.{TagTold, IsToBeFlagged, OnlyFlags, FlagWon, FlagLost, IsToBeCut, OnlyCuts, SpliceWon, SpliceLost};

use crate::seek_record::SeekRecord;
use nm_edge::{Edge, Side};
use nm_steps::{FrozenChain, Pass, Shared};

/// Tags an edge of a known node whose other edge is known as flagged; returns the edge as it was
/// before. That edge is never null.
pub fn tag(shared: &Shared, pass: &mut Pass, parent: u32, side: Side) -> Edge
    requires pinned { IsPinnedIn shared.now pass.old }
    requires known { Tells pass.old (KnowsSlot parent) }
    requires beside { (to : ℕ) × Tells pass.old (IsFlagged parent (other side) to) }
    ensures step { Stepped pass.old pass.new (Tag parent side) (Was result) }
    ensures on { GoesOn pass.old pass.new }
    ensures only { OnlyLooks pass.old pass.new }
    ensures told { TagTold pass.old pass.new parent side result }
{
    let edge = shared.tag(pass, parent, side);
    pass.know_run();
    edge
}

/// Flags the edge to a leaf that the call to delete has found. `Ok`: the call has flagged that
/// leaf, which a cleanup is to cut off. `Err`: this edge was found instead, and the call has still
/// flagged nothing.
pub fn flag(
    shared: &Shared,
    pass: &mut Pass,
    parent: u32,
    side: Side,
    leaf: u32,
) -> Result<(), Edge>
    requires pinned { IsPinnedIn shared.now pass.old }
    requires found { IsToBeFlagged pass.old parent side leaf }
    ensures won { IfOk result (λ _. (b : ℕ) → Tells pass.old (IsBorn leaf b)
        → FlagWon pass.old pass.new parent side (record { slot = leaf; birth = b })) }
    ensures lost { IfErr result (λ e. FlagLost pass.old pass.new parent side leaf e) }
    ensures on { GoesOn pass.old pass.new }
    ensures only { OnlyFlags pass.old pass.new }
{
    let won = shared.flag(pass, parent, side, leaf);
    pass.know_run();
    won
}

/// Cuts off a frozen chain, from the successor of this seek record down to its parent, with the
/// flagged leaf beside each of its nodes. From then on the ancestor's edge leads to the node to
/// which the parent's edge on the side `keep` leads, which is frozen as `kept`. The nodes wait for
/// their label. `Err`: the splice was lost; this edge was found instead.
#[inline(always)]
pub(crate) fn splice(
    shared: &Shared,
    pass: &mut Pass,
    seek_record: &SeekRecord,
    keep: Side,
    kept: Edge,
) -> Result<(), Edge>
    requires pinned { IsPinnedIn shared.now pass.old }
    requires frozen { IsToBeCut pass.old seek_record.now.ancestor seek_record.now.successor seek_record.now.parent keep
        kept }
    ensures won { IfOk result (λ _. (ns : List NodeId)
        → FrozenTo (Tells pass.old) seek_record.now.parent keep seek_record.now.successor ns
        → SpliceWon pass.old pass.new seek_record.now.ancestor seek_record.now.above seek_record.now.successor
        seek_record.now.parent keep ns) }
    ensures lost { IfErr result
        (λ e. SpliceLost pass.old pass.new seek_record.now.ancestor seek_record.now.above seek_record.now.successor
        seek_record.now.parent keep e) }
    ensures on { GoesOn pass.old pass.new }
    ensures only { OnlyCuts pass.old pass.new }
{
    let chain = FrozenChain {
        ancestor: seek_record.ancestor,
        side: seek_record.above,
        successor: seek_record.successor,
        parent: seek_record.parent,
        keep,
    };
    let won = shared.splice(pass, chain, kept);
    pass.know_run();
    won
}
