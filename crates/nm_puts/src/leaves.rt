//! A new leaf that takes the place of another one: it is claimed, and given back.
ghost use Rattle.std.specs.Prelude.{◌≡◌, ◌∷◌, ◌++◌, [], None, Some};
ghost use Rattle.nm_model.specs.declared.event.Event.TheVariants.{Give};
ghost use Rattle.nm_model.specs.declared.reply.Reply.TheVariants.{Returned};
ghost use Rattle.nm_pool.specs.Claims.{IsClaimBy};
ghost use Rattle.nm_steps.specs.Steps.{IsOf, PassView};
ghost use Rattle.nm_walks.specs.Growing.{HasNewNodes};
ghost use Rattle.nm_walks.specs.Making.{OnlyMakes, draft};
ghost use Rattle.nm_walks.specs.Telling.{GoesOn};
ghost use Rattle.nm_puts.specs.Leaves.{HasNewLeaf, HoldsNewLeaf};

use nm_edge::{NodeId, Placement};
use nm_steps::{Pass, Shared};
use nm_walks::{claim, give};

/// Takes a slot out of the pool for a new leaf, in the order of the placement. `None`: each slot was
/// found taken or exhausted. Cost: at most three steps per slot.
#[inline(always)]
pub(crate) fn claim_leaf(
    shared: &Shared,
    pass: &mut Pass,
    placement: &mut Placement,
) -> Option<NodeId>
    requires own { IsOf shared.now pass.old }
    ensures part { IsClaimBy placement.old shared.now.layout.nodes pass.old.view.log
        pass.new.view.log result }
    ensures on { GoesOn pass.old pass.new }
    ensures only { OnlyMakes pass.old pass.new }
    ensures has { HasNewLeaf pass.old pass.new result }
    ensures fit { placement.new ≡ placement.old }
{
    claim(shared, pass, placement)
}

/// Gives a new leaf back to the pool, in one step. The placement remembers its slot.
pub(crate) fn give_leaf_back(
    shared: &Shared,
    pass: &mut Pass,
    placement: &mut Placement,
    leaf: &NodeId,
)
    requires own { IsOf shared.now pass.old }
    requires birth { (draft pass.old leaf.now.slot).birth ≡ Some leaf.now.birth }
    ensures part { pass.new.view.log
        ≡ pass.old.view.log ++ (Give leaf.now.slot, Returned leaf.now.slot) ∷ [] }
    ensures given { (o : PassView) → HoldsNewLeaf o pass.old leaf.now → HasNewNodes o pass.new None }
    ensures on { GoesOn pass.old pass.new }
    ensures only { OnlyMakes pass.old pass.new }
    ensures fit { placement.new ≡ placement.old }
{
    give(shared, pass, *leaf);
    placement.keep(leaf.slot);
}
