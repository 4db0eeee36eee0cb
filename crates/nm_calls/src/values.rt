//! The value that a map has under a key. Its table has a value for each slot.
ghost use Rattle.std.specs.Prelude.{◌≡◌, [], ◌∷◌, length, None, IfOk, IfErr, IfNone, IfSome};
ghost use Rattle.nm_edge.specs.Keys.{IsKey};
ghost use Rattle.nm_order.specs.Facts.Fact.{KnowsSlot};
ghost use Rattle.nm_edge.specs.Words.{IsSlot};
ghost use Rattle.nm_steps.specs.Rules.{value_of};
ghost use Rattle.nm_steps.specs.Steps.{IsInRun, IsOf};
ghost use Rattle.nm_steps.specs.Values.{HasSeenStores, HasValues};
ghost use Rattle.nm_epoch.specs.Resting.{IsResting};
ghost use Rattle.nm_walks.specs.AddedLooks.{AddsLooks};
ghost use Rattle.nm_walks.specs.Bounds.{reach};
ghost use Rattle.nm_walks.specs.Telling.{Tells, GoesOn, OnlyLooks, IsPinnedIn};
ghost use Rattle.nm_calls.specs.InTurns.{GiveUp};
ghost use Rattle.nm_calls.specs.Maps.{AfterGet, AfterPinnedGet, HasLookedUp, IsLeafAt};
ghost use Rattle.nm_calls.specs.PlainWalks.{most_looks};

use crate::fault::CallFault;
use nm_edge::{Key, Side};
use nm_epoch::{pin, unpin};
use nm_steps::{Pass, Shared};
use nm_walks::{is_null, look_edge, reach, read_node};

/// The leaf at which a walk has ended, with its key.
#[derive(Clone, Copy, Debug, PartialEq, Eq)]
pub(crate) struct Leaf {
    pub slot: u32,
    pub key: u64,
}

/// Returns the value that the map has under `key`, or `None` if the map does not have the key: it
/// was so at a moment (linearization point) of this call. The worker must rest, and it rests
/// afterwards.
///
/// Errors: `Busy`, for one of these reasons:
/// - `tries` is 0; then there was no step.
/// - The pin was lost in each of `tries` tries.
/// - The walk had looked at as many nodes as there are, and had not ended. In a radix tree this
///   never happens.
///
/// (The search of Natarajan and Mittal, section 3.2.)
#[inline(always)]
pub fn get(shared: &Shared, pass: &mut Pass, key: Key, tries: u32) -> Result<Option<u64>, CallFault>
    requires own { IsOf shared.now pass.old }
    requires values { HasValues shared.now }
    requires rests { IsResting pass.old }
    ensures { AfterGet shared.now.layout tries key pass.old pass.new result }
{
    if tries == 0 {
        return Err(CallFault::Busy);
    }
    pass.know_run();
    let Ok(_epoch) = pin(shared, pass, tries) else {
        return Err(CallFault::Busy);
    };
    let found = look_up(shared, pass, key.get());
    pass.know_run();
    unpin(shared, pass);
    found
}

/// Returns the value that the map has under `key`, or `None` if the map does not have the key, to a
/// worker that is pinned for no call: it was so at a moment (linearization point) of this call. No
/// step is made but looks.
///
/// Errors: `Busy`: the walk had looked at as many nodes as there are, and had not ended. In a radix
/// tree this never happens.
///
/// (The search of Natarajan and Mittal, section 3.2.)
#[inline(always)]
pub fn get_pinned(shared: &Shared, pass: &mut Pass, key: Key) -> Result<Option<u64>, CallFault>
    requires pinned { IsPinnedIn shared.now pass.old }
    requires values { HasValues shared.now }
    requires known { Tells pass.old (KnowsSlot 2) }
    ensures { AfterPinnedGet shared.now.layout key pass.old pass.new result }
{
    pass.know_run();
    let answer = look_up(shared, pass, key.get());
    pass.know_run();
    answer
}

/// Returns the value of a slot, or 0 in a table without values. The look is in no log.
#[inline(always)]
pub(crate) fn value_of_slot(shared: &Shared, pass: &mut Pass, slot: u32) -> u64
    requires own { IsOf shared.now pass.old }
    requires run { IsInRun pass.old }
    requires slot { IsSlot shared.now.layout slot }
    ensures same { pass.new ≡ record pass.old {
      view = record pass.old.view {
        past = pass.new.view.past;
        stores = pass.new.view.stores;
      };
    } }
    ensures on { GoesOn pass.old pass.new }
    ensures sees { HasValues shared.now → HasSeenStores pass.new.view
        × (result ≡ value_of pass.new.view.stores slot) }
{
    if shared.has_values() {
        shared.look_value(pass, slot)
    } else {
        0
    }
}

/// Writes the value of a slot to `found`, and nothing in a table without values. The look is in no
/// log.
#[inline(always)]
pub(crate) fn read_value(shared: &Shared, pass: &mut Pass, slot: u32, found: &mut u64)
    requires own { IsOf shared.now pass.old }
    requires run { IsInRun pass.old }
    requires slot { IsSlot shared.now.layout slot }
    ensures same { pass.new ≡ record pass.old {
      view = record pass.old.view {
        past = pass.new.view.past;
        stores = pass.new.view.stores;
      };
    } }
    ensures on { GoesOn pass.old pass.new }
    ensures sees { HasValues shared.now → HasSeenStores pass.new.view
        × (found.new ≡ value_of pass.new.view.stores slot) }
{
    if shared.has_values() {
        *found = shared.look_value(pass, slot);
    }
}

/// Walks for a key, and reads the value of the leaf with the key. `None`: the leaf at the end of the
/// walk has another key. Errors: `Busy`: the walk had looked at as many nodes as there are.
#[inline(always)]
fn look_up(shared: &Shared, pass: &mut Pass, key: u64) -> Result<Option<u64>, CallFault>
    requires pinned { IsPinnedIn shared.now pass.old }
    requires values { HasValues shared.now }
    requires known { Tells pass.old (KnowsSlot 2) }
    requires key { IsKey key }
    ensures looks { AddsLooks (most_looks (reach shared.now.layout) 1) pass.old.view.log
        pass.new.view.log }
    ensures found { IfOk result (HasLookedUp (length pass.old.view.log) pass.new key) }
    ensures busy { IfErr result (λ e. e ≡ CallFault.Busy) }
    ensures missed { IfErr result (λ e. GiveUp shared.now.layout (key ∷ []) pass.old.view.log
        pass.new.view.log) }
    ensures on { GoesOn pass.old pass.new }
    ensures only { OnlyLooks pass.old pass.new }
{
    let Some(leaf) = find_leaf(shared, pass, key) else {
        return Err(CallFault::Busy);
    };
    if leaf.key != key {
        return Ok(None);
    }
    let value = shared.look_value(pass, leaf.slot);
    Ok(Some(value))
}

/// Walks for a key to a leaf. `None`: the walk had looked at as many nodes as there are, and had not
/// ended; this cannot occur in a radix tree. Cost: one step, and at most three steps per node.
#[inline(always)]
fn find_leaf(shared: &Shared, pass: &mut Pass, key: u64) -> Option<Leaf>
    requires pinned { IsPinnedIn shared.now pass.old }
    requires known { Tells pass.old (KnowsSlot 2) }
    requires key { IsKey key }
    ensures looks { AddsLooks (most_looks (reach shared.now.layout) 1) pass.old.view.log
        pass.new.view.log }
    ensures ended { IfSome result (IsLeafAt (length pass.old.view.log) pass.new key) }
    ensures gave { IfNone result (GiveUp shared.now.layout (key ∷ []) pass.old.view.log
        pass.new.view.log) }
    ensures on { GoesOn pass.old pass.new }
    ensures only { OnlyLooks pass.old pass.new }
{
    let layout = shared.layout();
    let mut node = look_edge(shared, layout, pass, 2, Side::Left).slot();
    for _node in 0..reach(layout) - 1 {
        let on = read_node(shared, layout, pass, node, key);
        if is_null(on.next) {
            return Some(Leaf {
                slot: node,
                key: on.found,
            });
        }
        node = on.next.slot();
    }
    None
}
