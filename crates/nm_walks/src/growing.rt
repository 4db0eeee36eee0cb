//! The two new nodes of an insert: they are claimed, filled and linked, or given back.
ghost use Rattle.std.specs.Prelude.{◌≡◌, ◌≢◌, None, IfOk, IfErr};
ghost use Rattle.nm_steps.specs.Steps.{IsOf, PassView};
ghost use Rattle.nm_steps.specs.Values.{HasValues};
ghost use Rattle.nm_walks.specs.Telling.{GoesOn, IsPinnedIn};
ghost use Rattle.nm_walks.specs.Making.{IsRouter, OnlyMakes};
ghost use Rattle.nm_walks.specs.Growing.{ClaimsNewNodes, HasNewNodes, IfReady, Returns, inner_of, MayGrow, KeepsCall, HasGrown, HasLinkedLeaf, HasLinkedValue, HasNotGrown};

use crate::making::{Contents, NewNodes, claim, fill, fill_leaf, give};
use crate::seek_record::{SeekRecord, WalkEnd};
use nm_edge::{Edge, Placement, parting};
use nm_steps::{Pass, Shared};

/// Claims an internal node and then a leaf. `None`: one of the claims found no slot, and the worker
/// keeps neither.
pub fn claim_new_nodes(
    shared: &Shared,
    pass: &mut Pass,
    placement: &mut Placement,
) -> Option<NewNodes>
    requires own { IsOf shared.now pass.old }
    ensures part { ClaimsNewNodes placement.old shared.now.layout.nodes pass.old.view.log
        pass.new.view.log result }
    ensures on { GoesOn pass.old pass.new }
    ensures only { OnlyMakes pass.old pass.new }
    ensures has { HasNewNodes pass.old pass.new result }
    ensures fit { placement.new ≡ placement.old }
{
    let Some(internal) = claim(shared, pass, placement) else {
        return None;
    };
    let Some(leaf) = claim(shared, pass, placement) else {
        give(shared, pass, internal);
        placement.keep(internal.slot);
        return None;
    };
    Some(NewNodes { internal, leaf })
}

/// Returns the contents of the new internal node, over a node with key `other` and a new leaf with
/// another key.
fn node_over(radix: bool, key: u64, other: u64, leaf: u32, fresh: u32) -> Contents
    requires apart { other ≢ key }
    ensures key { IsRouter radix key other result.key }
    ensures node { result ≡ inner_of key other result.key leaf fresh }
{
    let greater = if key < other { other } else { key };
    let router = if radix { parting(key, other) } else { greater };
    if key < other {
        Contents {
            key: router,
            left: fresh,
            right: leaf,
        }
    } else {
        Contents {
            key: router,
            left: leaf,
            right: fresh,
        }
    }
}

/// Fills both new nodes, and replaces the node at which the walk ended by the new internal node, over
/// that node and the new leaf. It is a leaf or, in a radix tree, perhaps an internal node. If the
/// table has values, the value of the new leaf is stored before the link. `Err`: the link was lost;
/// this edge was found instead.
///
/// Only a call to insert the key of the new leaf may do this, and only once. The edge must be the
/// one by which a walk of the call came to the node and stopped there.
pub fn grow(
    shared: &Shared,
    pass: &mut Pass,
    key: u64,
    value: u64,
    end: &WalkEnd,
    new_nodes: &NewNodes,
) -> Result<(), Edge>
    requires pinned { IsPinnedIn shared.now pass.old }
    requires may { MayGrow pass.old key end.now new_nodes.now }
    ensures on { GoesOn pass.old pass.new }
    ensures call { KeepsCall pass.old pass.new }
    ensures won { IfOk result (λ _. HasGrown shared.now.layout.radix pass.old pass.new key end.now
        new_nodes.now) }
    ensures leaf { IfOk result (λ _. HasLinkedLeaf pass.old pass.new new_nodes.now.leaf.slot key) }
    ensures stored { HasValues shared.now
        → IfOk result (λ _. HasLinkedValue pass.new new_nodes.now.leaf.slot value) }
    ensures lost { IfErr result (λ e. HasNotGrown shared.now.layout.radix pass.old pass.new key
        end.now new_nodes.now e) }
{
    let leaf = end.seek_record.edge.slot();
    let radix = shared.layout().is_radix();
    let node = node_over(radix, key, end.key, leaf, new_nodes.leaf.slot);
    fill(shared, pass, new_nodes.internal.slot, &node);
    fill_leaf(shared, pass, new_nodes.leaf.slot, key, value);
    pass.know_pooled_slots();
    let SeekRecord { parent, side, .. } = end.seek_record;
    let linked = shared.link(pass, parent, side, leaf, new_nodes.internal.slot);
    pass.know_run();
    linked
}

/// Gives both nodes back to the pool, the internal one first. The placement remembers their slots.
pub fn give_back(
    shared: &Shared,
    pass: &mut Pass,
    placement: &mut Placement,
    new_nodes: &Option<NewNodes>,
)
    requires own { IsOf shared.now pass.old }
    requires ready { IfReady pass.old new_nodes.now }
    ensures part { Returns new_nodes.now pass.old.view.log pass.new.view.log }
    ensures given { (o : PassView) → HasNewNodes o pass.old new_nodes.now → HasNewNodes o pass.new None }
    ensures on { GoesOn pass.old pass.new }
    ensures only { OnlyMakes pass.old pass.new }
    ensures fit { placement.new ≡ placement.old }
{
    pass.know_run();
    if let Some(made) = new_nodes {
        give(shared, pass, made.internal);
        give(shared, pass, made.leaf);
        placement.keep(made.internal.slot);
        placement.keep(made.leaf.slot);
    }
}
