//! Looks at known nodes, if the worker's own log allows them; each adds to what the log shows.
//!
//! Each function here is one step of `Shared`, said in facts of the log that later steps keep. The
//! step itself says only what was added to the log. `know_run` after it gives the laws of runs, by
//! which these facts follow; it does nothing at run time.
ghost use Rattle.std.specs.Prelude.{◌≡◌, ◌≤◌};
ghost use Rattle.nm_model.specs.declared.event.Event.TheVariants.{Look};
ghost use Rattle.nm_model.specs.declared.event.Field.TheVariants.{Key as KeyOf, Edge as EdgeOn, Birth};
ghost use Rattle.nm_model.specs.declared.reply.Reply.TheVariants.{KeyIs, EdgeIs, BirthIs};
ghost use Rattle.nm_order.specs.Facts.Fact.{KnowsSlot, IsBorn};
ghost use Rattle.nm_steps.specs.Steps.{Stepped};
ghost use Rattle.nm_walks.specs.Telling.{Tells, GoesOn, OnlyLooks, EdgeTold, KeyTold, OnwardTold, IsPinnedIn};
ghost use Rattle.nm_walks.specs.Walks.{IsLeafRead, Reads, edge_on};

use crate::seek_record::side_at;
use nm_edge::{Edge, Layout, Side};
use nm_steps::{Pass, Shared};

/// Reads the key of a known node, below 2^64, by the copy of the layout that the caller keeps. Only
/// a slot above 5 has a key below the sentinels.
pub(crate) fn look_key(shared: &Shared, layout: Layout, pass: &mut Pass, slot: u32) -> u64
    requires layout { layout ≡ shared.now.layout }
    requires pinned { IsPinnedIn shared.now pass.old }
    requires known { Tells pass.old (KnowsSlot slot) }
    ensures step { Stepped pass.old pass.new (Look slot KeyOf) (KeyIs result) }
    ensures on { GoesOn pass.old pass.new }
    ensures only { OnlyLooks pass.old pass.new }
    ensures told { KeyTold pass.old pass.new slot result }
{
    let key = shared.look_key(layout, pass, slot);
    pass.know_run();
    key
}

/// Reads an edge of a known node, by the caller's copy of the layout. The node to which it leads is
/// known from then on.
pub fn look_edge(shared: &Shared, layout: Layout, pass: &mut Pass, slot: u32, side: Side) -> Edge
    requires layout { layout ≡ shared.now.layout }
    requires pinned { IsPinnedIn shared.now pass.old }
    requires known { Tells pass.old (KnowsSlot slot) }
    ensures step { Stepped pass.old pass.new (Look slot (EdgeOn side)) (EdgeIs result) }
    ensures on { GoesOn pass.old pass.new }
    ensures only { OnlyLooks pass.old pass.new }
    ensures told { EdgeTold pass.old pass.new slot side result }
{
    let edge = shared.look_edge(layout, pass, slot, side);
    pass.know_run();
    edge
}

/// How a walk goes on from a node: the node's key, the side of the walk's key there, and the edge
/// on that side.
#[derive(Clone, Copy, Debug, PartialEq, Eq)]
pub struct Onward {
    pub found: u64,
    pub side: Side,
    pub next: Edge,
}

/// Reads the key of a known node and both of its edges, and only then compares the keys, so that no
/// read waits for the comparison. Cost: three looks.
#[inline(always)]
pub fn read_node(shared: &Shared, layout: Layout, pass: &mut Pass, slot: u32, key: u64) -> Onward
    requires layout { layout ≡ shared.now.layout }
    requires pinned { IsPinnedIn shared.now pass.old }
    requires known { Tells pass.old (KnowsSlot slot) }
    ensures looks { Reads key slot pass.old.view.log pass.new.view.log result }
    ensures leaf { IsLeafRead slot pass.old.view.log pass.new.view.log result }
    ensures within { result.next.slot ≤ shared.now.layout.nodes }
    ensures on { GoesOn pass.old pass.new }
    ensures only { OnlyLooks pass.old pass.new }
    ensures told { OnwardTold pass.old pass.new key slot result.found result.side result.next }
{
    let found = look_key(shared, layout, pass, slot);
    let left = look_edge(shared, layout, pass, slot, Side::Left);
    let right = look_edge(shared, layout, pass, slot, Side::Right);
    let side = side_at(key, found);
    let next = edge_at(side, left, right);
    Onward { found, side, next }
}

/// Returns the edge on that side, of a node's two edges.
fn edge_at(side: Side, left: Edge, right: Edge) -> Edge
    ensures { result ≡ edge_on side left right }
{
    match side {
        Side::Left => left,
        Side::Right => right,
    }
}

/// Reads the birth of a known node.
pub fn look_birth(shared: &Shared, pass: &mut Pass, slot: u32) -> u64
    requires pinned { IsPinnedIn shared.now pass.old }
    requires known { Tells pass.old (KnowsSlot slot) }
    ensures step { Stepped pass.old pass.new (Look slot Birth) (BirthIs result) }
    ensures on { GoesOn pass.old pass.new }
    ensures only { OnlyLooks pass.old pass.new }
    ensures born { Tells pass.new (IsBorn slot result) }
{
    let birth = shared.look_birth(pass, slot);
    pass.know_run();
    birth
}
