//! Whole cleanups: a frozen chain is cut off and labelled, and waits in the worker's queue.
ghost use Rattle.std.specs.Prelude.{◌≡◌, ◌<◌, ◌≤◌, ◌+◌, ◌*◌, ◌++◌, true, false, length, map};
ghost use Rattle.nm_epoch.specs.Collecting.{labelled_so};
ghost use Rattle.nm_walks.specs.Bounds.{chain_bound, cut_bound};
ghost use Rattle.nm_walks.specs.Rooms.{FillsUp};
ghost use Rattle.nm_walks.specs.Telling.{Tells, GoesOn, IsPinnedIn};
ghost use Rattle.nm_walks.specs.Walks.{IsAt};
ghost use Rattle.nm_walks.specs.Marking.{OnlyCuts};
ghost use Rattle.nm_walks.specs.Cleanups.{HasCut, HasCutNothing, HasCleaned, OnlyCleans, HoldsCuts};

use crate::cutting::{choose, freeze};
use crate::labelling::label;
use crate::marking::{splice, tag};
use crate::seek_record::{ChainEdge, SeekRecord};
use crate::workspace::{CutNodes, Workspace};
use nm_edge::NodeId;
use nm_epoch::{Entry, HeldQueue};
use nm_limbo::BlockQueue;
use nm_steps::{Pass, Shared};

/// Does a cleanup up to its splice; returns whether the splice was won.
#[inline(always)]
fn cut_off(
    shared: &Shared,
    pass: &mut Pass,
    seek_record: &SeekRecord,
    chain: &[ChainEdge],
    nodes: &mut CutNodes,
) -> bool
    requires pinned { IsPinnedIn shared.now pass.old }
    requires at { IsAt (Tells pass.old) seek_record.now chain.now }
    requires few { length chain.now < chain_bound }
    ensures won { result ≡ true → HasCut seek_record.now chain.now nodes.new.items pass.old pass.new }
    ensures lost { result ≡ false → HasCutNothing seek_record.now chain.now pass.old pass.new }
    ensures on { GoesOn pass.old pass.new }
    ensures only { OnlyCuts pass.old pass.new }
{
    nodes.clear();
    let Some(kept) = choose(shared, pass, seek_record) else {
        return false;
    };
    let was = tag(shared, pass, seek_record.parent, kept.side);
    freeze(shared, pass, chain, seek_record.parent, kept.side, nodes);
    let Ok(()) = splice(shared, pass, seek_record, kept.side, was.tagged()) else {
        return false;
    };
    true
}

/// Appends these nodes, each with the label. It takes no memory.
fn push_labelled(queue: &mut BlockQueue<Entry>, nodes: &[NodeId], label: u64)
    requires room { length nodes.now ≤ queue.old.spare }
    ensures items { queue.new.items ≡ queue.old.items ++ map (labelled_so label) nodes.now }
    ensures spare { queue.new.spare + length nodes.now ≡ queue.old.spare }
    ensures blocks { queue.new.blocks ≡ queue.old.blocks }
{
    if let Some((first, rest)) = nodes.split_first() {
        queue.push_reserved(Entry {
            node: *first,
            label,
        });
        push_labelled(queue, rest, label);
    }
}

/// Tries one cleanup, after a walk that ended at this seek record with the chain of this workspace;
/// returns whether it won. The chain is unchanged.
///
/// True: the chain from the successor down to the parent is cut off, with the flagged leaf beside
/// each of its nodes. These nodes are labelled at once and appended to the queue. False: the
/// cleanup has only looked, tagged at most one edge, and cut nothing.
///
/// Cost: at most 3 steps for each node of the chain, and 8 more. It takes no memory. (The cleanup
/// of Natarajan and Mittal, section 3.2, for a whole chain.)
#[inline(always)]
pub fn cleanup(
    shared: &Shared,
    pass: &mut Pass,
    workspace: &mut Workspace,
    held: &mut HeldQueue,
    seek_record: &SeekRecord,
) -> bool
    requires pinned { IsPinnedIn shared.now pass.old }
    requires at { IsAt (Tells pass.old) seek_record.now workspace.old.chain.items }
    requires few { length workspace.old.chain.items < chain_bound }
    requires room { cut_bound ≤ held.old.queue.spare }
    requires kept { HoldsCuts pass.old held.old }
    ensures won { result ≡ true
        → HasCleaned seek_record.now workspace.old.chain.items pass.old pass.new held.old.queue.items
        held.new.queue.items }
    ensures lost { result ≡ false
        → HasCutNothing seek_record.now workspace.old.chain.items pass.old pass.new }
    ensures untouched { result ≡ false → held.new ≡ held.old }
    ensures chain { workspace.new.chain ≡ workspace.old.chain }
    ensures kept { HoldsCuts pass.new held.new }
    ensures fills { FillsUp held.old.queue held.new.queue }
    ensures fit { workspace.new.placement ≡ workspace.old.placement }
    ensures on { GoesOn pass.old pass.new }
    ensures only { OnlyCleans pass.old pass.new }
    ensures steps { length pass.new.view.log
        ≤ length pass.old.view.log + 3 * length workspace.old.chain.items + 8 }
{
    if !cut_off(
        shared,
        pass,
        seek_record,
        workspace.chain.as_slice(),
        &mut workspace.nodes,
    ) {
        return false;
    }
    let epoch = label(shared, pass);
    push_labelled(&mut held.queue, workspace.nodes.as_slice(), epoch);
    held.counts.splices = held.counts.splices.saturating_add(1);
    true
}
