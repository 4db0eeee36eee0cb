//! The walk for a key.
ghost use Rattle.std.specs.Prelude.{◌≡◌, ◌≤◌, ◌<◌, ◌+◌, ◌*◌, ◌^◌, ◌≢◌, ℕ, true, false, IfSome, length};
ghost use Rattle.nm_edge.specs.Keys.{IsKey};
ghost use Rattle.nm_edge.specs.declared.edge.Side.{Side as SideOf};
ghost use Rattle.nm_order.specs.Facts.Fact.{KnowsSlot};
ghost use Rattle.nm_walks.specs.Telling.{Tells, GoesOn, OnlyLooks, IsPinnedIn};
ghost use Rattle.nm_walks.specs.Bounds.{reach};
ghost use Rattle.nm_walks.specs.Places.{GoesBy, HasCome, HasRemembered, IsStopOf, SeeksTo};
ghost use Rattle.nm_walks.specs.Walks.{Finds, HasDescended, HasFound};

use crate::looking::{Onward, look_edge, read_node};
use crate::seek_record::{ChainEdges, Descent, WalkEnd, end_at, extend, further, is_null};
use crate::unmarked_seek::UnmarkedSeek;
use nm_edge::{Layout, Side, covers};
use nm_steps::{Pass, Shared};

/// What a walk stops at.
#[derive(Clone, Copy, Debug)]
pub enum Stop {
    /// A leaf.
    Leaf,
    /// A leaf, or an internal node of a radix tree without the key in its range: the place where an
    /// insert puts the key.
    Place,
}

/// The largest number of nodes that a walk of a radix tree looks at: slot 2, 64 internal nodes, and
/// a leaf.
const RADIX_REACH: u32 = 66;

/// Returns the largest number of nodes that a walk may look at. No walk of a radix tree would look
/// at more.
pub fn reach(layout: Layout) -> u32
    ensures reach { result ≡ reach layout }
    ensures some { 1 < result }
    ensures few { result < 2 ^ 31 }
{
    if layout.is_radix() {
        RADIX_REACH
    } else {
        layout.nodes()
    }
}

/// Walks for a key, and returns the key of the leaf at the end. It remembers nothing else of the
/// walk. `None`: the walk had looked at as many nodes as the tree has; this cannot occur in a radix
/// tree. Cost: at most three steps per node.
#[inline(always)]
pub fn find(shared: &Shared, pass: &mut Pass, key: u64) -> Option<u64>
    requires pinned { IsPinnedIn shared.now pass.old }
    requires known { Tells pass.old (KnowsSlot 2) }
    requires key { IsKey key }
    ensures walk { Finds shared.now.layout key pass.old.view.log pass.new.view.log result }
    ensures steps { length pass.new.view.log
        ≤ length pass.old.view.log + 3 * reach shared.now.layout }
    ensures on { GoesOn pass.old pass.new }
    ensures only { OnlyLooks pass.old pass.new }
    ensures found { IfSome result
        (λ v. (leaf parent : ℕ) × (side : SideOf)
        × HasFound pass.old pass.new key leaf parent side v) }
{
    let (mut seek_record, below) = match descend(shared, pass, key, Stop::Leaf) {
        Descent::Ended(end) => return Some(end.key),
        Descent::Stopped(seek_record, below) => (seek_record, below),
    };
    let layout = shared.layout();
    for _below in below..reach(layout) - 1 {
        let node = seek_record.edge.slot();
        let on = read_node(shared, layout, pass, node, key);
        if is_null(on.next) {
            return Some(on.found);
        }
        seek_record = further(seek_record, on.side, on.next);
    }
    None
}

/// Walks for a key to what it stops at, and returns the seek record at the end, with the key of the
/// node there. The chain then has the internal nodes from the successor down to the last one above
/// the parent. `None`: the walk had looked at as many nodes as the tree has, or the chain would have
/// 65 nodes with the parent; neither can occur in a radix tree. Cost: at most three steps per node.
/// (The seek of Natarajan and Mittal, section 3.2, which here remembers the whole chain.)
#[inline(always)]
pub fn seek(
    shared: &Shared,
    pass: &mut Pass,
    key: u64,
    stop: Stop,
    chain: &mut ChainEdges,
) -> Option<WalkEnd>
    requires pinned { IsPinnedIn shared.now pass.old }
    requires root { Tells pass.old (KnowsSlot 1) }
    requires known { Tells pass.old (KnowsSlot 2) }
    requires key { IsKey key }
    requires radix { stop ≡ Stop.Place → shared.now.layout.radix ≡ true }
    ensures walk { SeeksTo stop shared.now.layout key pass.old.view.log pass.new.view.log
        chain.new.items result }
    ensures came { IfSome result
        (HasCome stop shared.now.layout key pass.old pass.new chain.new.items) }
    ensures steps { length pass.new.view.log
        ≤ length pass.old.view.log + 3 * reach shared.now.layout }
    ensures on { GoesOn pass.old pass.new }
    ensures only { OnlyLooks pass.old pass.new }
{
    chain.clear();
    let (mut seek_record, below) = match descend(shared, pass, key, stop) {
        Descent::Ended(end) => return Some(end),
        Descent::Stopped(seek_record, below) => (seek_record, below),
    };
    let layout = shared.layout();
    for _below in below..reach(layout) - 1 {
        let node = seek_record.edge.slot();
        let on = read_node(shared, layout, pass, node, key);
        if stops(stop, &on, key) {
            return Some(end_at(&seek_record, on.found));
        }
        if !extend(chain, seek_record) {
            return None;
        }
        seek_record = further(seek_record, on.side, on.next);
    }
    None
}

/// Does the first part of the walk for a key, by unmarked edges only, which usually leads to its
/// end. On this part the chain is empty, the successor is the parent, and no mark must be removed
/// from an edge's word.
#[inline(always)]
fn descend(shared: &Shared, pass: &mut Pass, key: u64, stop: Stop) -> Descent
    requires pinned { IsPinnedIn shared.now pass.old }
    requires known { Tells pass.old (KnowsSlot 2) }
    requires key { IsKey key }
    requires radix { stop ≡ Stop.Place → shared.now.layout.radix ≡ true }
    ensures came { stop ≡ Stop.Leaf → HasDescended shared.now.layout key pass.old pass.new result }
    ensures remembers { Tells pass.old (KnowsSlot 1)
        → HasRemembered stop shared.now.layout key pass.old pass.new result }
    ensures on { GoesOn pass.old pass.new }
    ensures only { OnlyLooks pass.old pass.new }
{
    let layout = shared.layout();
    let mut unmarked_seek = UnmarkedSeek::first(look_edge(shared, layout, pass, 2, Side::Left));
    let most = reach(layout) - 1;
    for below in 0..most {
        if unmarked_seek.is_marked() {
            return Descent::Stopped(unmarked_seek.seek_record(), below);
        }
        let node = unmarked_seek.slot();
        let on = read_node(shared, layout, pass, node, key);
        if stops(stop, &on, key) {
            return Descent::Ended(end_at(&unmarked_seek.seek_record(), on.found));
        }
        unmarked_seek = unmarked_seek.further(on.side, on.next);
    }
    Descent::Stopped(unmarked_seek.seek_record(), most)
}

/// Returns whether a walk for a key stops at this node.
#[inline(always)]
fn stops(stop: Stop, on: &Onward, key: u64) -> bool
    ensures yes { result ≡ true → IsStopOf stop key on.now }
    ensures no { result ≡ false → (on.now.next.slot ≢ 0) × GoesBy stop on.now.found key }
{
    match stop {
        Stop::Leaf => is_null(on.next),
        Stop::Place => is_null(on.next) || !covers(on.found, key),
    }
}
