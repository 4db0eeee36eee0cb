//! The key nearest to a given one, in a set that others change.
//!
//! The walk keeps both bounds of the keys that it serves. It is inlined into each caller, which
//! names a side, so the code for that side keeps only the bound that it needs.
ghost use Rattle.std.specs.Prelude.{◌≡◌, ◌<◌, ◌≤◌, ◌*◌, ◌≢◌, ◌⊎◌, ℕ, true, false, None, Some, IfOk, IfErr, IfSome};
ghost use Rattle.nm_edge.specs.Keys.{IsKey};
ghost use Rattle.nm_order.specs.Facts.Fact.{KnowsSlot};
ghost use Rattle.nm_steps.specs.Rules.{ExtendsStores};
ghost use Rattle.nm_steps.specs.Steps.{IsOf};
ghost use Rattle.nm_steps.specs.Values.{HasValues};
ghost use Rattle.nm_epoch.specs.Resting.{IsResting};
ghost use Rattle.nm_calls.specs.Maps.{HasReadValue, MapGave};
ghost use Rattle.nm_calls.specs.NearKeys.{AfterNear, GiveUp, IsDescent, IsNearBy, Serves, border, bound, last_border, read_on};
ghost use Rattle.nm_walks.specs.AddedLooks.{AddsLooks};
ghost use Rattle.nm_calls.specs.PlainWalks.{HasEndedAt, HasEndedSo, most_looks};
ghost use Rattle.nm_walks.specs.Bounds.{reach};
ghost use Rattle.nm_walks.specs.Telling.{Tells, GoesOn, OnlyLooks, IsPinnedIn};
ghost use Rattle.nm_walks.specs.Walks.{IsTooLong};

use crate::fault::CallFault;
use nm_edge::{INFINITY_0, Key, Side};
use nm_epoch::{pin, unpin};
use nm_steps::{Pass, Shared};
use nm_walks::{Onward, is_null, look_edge, reach, read_node};

/// A walk for `from` and for each key from `low` on that is below `high`. `low` is the greatest key
/// of those nodes at which it went right, and `high` the least key of those internal nodes at which
/// it went left. Such keys turn to the same side at each internal node that it read.
#[derive(Clone, Copy, Debug)]
struct KeysWalk {
    from: u64,
    low: u64,
    high: u64,
    // The node that it reads next; 0 if there is none.
    node: u32,
    // The node that it read last, which is its leaf if it has ended; 0 if it has read none.
    leaf: u32,
    // The key of the node that it read last.
    found: u64,
}

/// Returns the key of the set that is nearest to `key` on that side: the least key that is not
/// below `key` (`Right`), or the greatest key that is not above it (`Left`). It returns `None` if
/// its walks find none. `Some(found)`: the set had `found` at a moment (linearization point) of this
/// call. For each key from `key` to `found`, except `found`, there was a moment of this call at
/// which the set did not have it. `None`: so it was for each key from `key` on to that side. Two
/// keys may have different moments: the answer is weakly consistent, like the iterators of Java's
/// `ConcurrentSkipListSet`.
///
/// A walk finds whether the set has a key from `key` on to that side, up to the nearest key of those
/// internal nodes that it passed on the way there. If the set has none, the next walk is for the
/// first key after those. The worker must rest, and it rests afterwards.
///
/// Errors: `Busy`, for one of these reasons:
/// - `tries` is 0; then there was no step.
/// - The pin was lost in each of `tries` tries.
/// - Each of `tries` walks has ended with no key, and the next one began where its keys end.
/// - A walk had looked at as many nodes as there are, and had not ended. In a radix tree this never
///   happens.
///
/// Cost: at most `tries` * (3 `reach` + 4) + 2 steps. A walk's reach is 66 nodes in a radix tree,
/// and the number of nodes otherwise. (The search of Natarajan and Mittal, section 3.2.)
#[inline(always)]
pub fn nearest(
    shared: &Shared,
    pass: &mut Pass,
    key: Key,
    side: Side,
    tries: u32,
) -> Result<Option<Key>, CallFault>
    requires own { IsOf shared.now pass.old }
    requires rests { IsResting pass.old }
    ensures { AfterNear side shared.now.layout tries key pass.old pass.new result }
{
    if tries == 0 {
        return Err(CallFault::Busy);
    }
    pass.know_run();
    let Ok(_epoch) = pin(shared, pass, tries) else {
        return Err(CallFault::Busy);
    };
    let mut unused = 0;
    let found = walk_on(shared, pass, key.get(), side, &mut unused, tries);
    pass.know_run();
    unpin(shared, pass);
    found
}

/// Returns the key of the map that is nearest to `key` on that side, like `nearest`. If it returns
/// `Some(found)`, it has written the value of `found` to `value`: the map had `found` with this value
/// at a moment (linearization point) of the call. It has read the value at the leaf with the key, under
/// its pin, after its walk had ended there. If it returns anything else, `value` may be anything. The
/// table must have values.
///
/// Errors and cost are those of `nearest`, and a look at the value.
#[inline(always)]
pub fn nearest_with_value(
    shared: &Shared,
    pass: &mut Pass,
    key: Key,
    side: Side,
    value: &mut u64,
    tries: u32,
) -> Result<Option<Key>, CallFault>
    requires own { IsOf shared.now pass.old }
    requires values { HasValues shared.now }
    requires rests { IsResting pass.old }
    ensures after { AfterNear side shared.now.layout tries key pass.old pass.new result }
    ensures finds { IfOk result (λ f. IfSome f (λ k. MapGave pass.old pass.new k (Some value.new))) }
    ensures on { ExtendsStores pass.new.view.stores pass.old.view.stores }
{
    if tries == 0 {
        return Err(CallFault::Busy);
    }
    pass.know_run();
    let Ok(_epoch) = pin(shared, pass, tries) else {
        return Err(CallFault::Busy);
    };
    let found = walk_on_and_read(shared, pass, key.get(), side, value, tries);
    pass.know_run();
    unpin(shared, pass);
    found
}

/// Returns what `walk_on` returns. If that is a key, it writes the value of the leaf with the key to
/// `value`. The look at the value is in no log.
#[inline(always)]
fn walk_on_and_read(
    shared: &Shared,
    pass: &mut Pass,
    key: u64,
    side: Side,
    value: &mut u64,
    tries: u32,
) -> Result<Option<Key>, CallFault>
    requires pinned { IsPinnedIn shared.now pass.old }
    requires values { HasValues shared.now }
    requires known { Tells pass.old (KnowsSlot 2) }
    requires key { IsKey key }
    ensures looks { AddsLooks (tries * most_looks (reach shared.now.layout) 1) pass.old.view.log
        pass.new.view.log }
    ensures near { IfOk result (IsNearBy side (HasEndedSo pass.new) key) }
    ensures given_up { IfErr result
        (λ e. GiveUp side shared.now.layout tries key pass.old.view.log pass.new.view.log) }
    ensures busy { IfErr result (λ e. e ≡ CallFault.Busy) }
    ensures read { IfOk result (λ f. IfSome f (λ k. HasReadValue pass.new k value.new)) }
    ensures on { GoesOn pass.old pass.new }
    ensures only { OnlyLooks pass.old pass.new }
{
    let mut leaf = 0;
    match walk_on(shared, pass, key, side, &mut leaf, tries) {
        Ok(Some(found)) => {
            pass.know_run();
            *value = shared.look_value(pass, leaf);
            Ok(Some(found))
        }
        Ok(None) => Ok(None),
        Err(fault) => Err(fault),
    }
}

/// Returns the nearest key from `key` on to that side, and writes the slot of the leaf with the key
/// to `leaf`. It makes at most `tries` walks, and each begins where the keys of the previous one end.
#[inline(always)]
fn walk_on(
    shared: &Shared,
    pass: &mut Pass,
    key: u64,
    side: Side,
    leaf: &mut u32,
    tries: u32,
) -> Result<Option<Key>, CallFault>
    requires pinned { IsPinnedIn shared.now pass.old }
    requires known { Tells pass.old (KnowsSlot 2) }
    requires key { IsKey key }
    ensures looks { AddsLooks (tries * most_looks (reach shared.now.layout) 1) pass.old.view.log
        pass.new.view.log }
    ensures near { IfOk result (IsNearBy side (HasEndedSo pass.new) key) }
    ensures given_up { IfErr result
        (λ e. GiveUp side shared.now.layout tries key pass.old.view.log pass.new.view.log) }
    ensures busy { IfErr result (λ e. e ≡ CallFault.Busy) }
    ensures ended { IfOk result (λ f. IfSome f (λ k. HasEndedAt pass.new k leaf.new)) }
    ensures on { GoesOn pass.old pass.new }
    ensures only { OnlyLooks pass.old pass.new }
{
    let mut from = key;
    for _walk in 0..tries {
        let walk = walk_down(shared, pass, from);
        if walk.node != 0 {
            return Err(CallFault::Busy);
        }
        if hits(&walk, side) {
            *leaf = walk.leaf;
            return Ok(Key::new(walk.found));
        }
        let Some(next) = after(&walk, side) else {
            return Ok(None);
        };
        from = next;
    }
    Err(CallFault::Busy)
}

/// Returns whether the leaf of the walk has one of the keys from `from` on to that side that the
/// walk serves.
fn hits(walk: &KeysWalk, side: Side) -> bool
    ensures yes { result ≡ true → Serves side walk.now walk.now.found }
    ensures no { result ≡ false → (j : ℕ) → Serves side walk.now j → walk.now.found ≢ j }
{
    match side {
        Side::Left => walk.low <= walk.found && walk.found <= walk.from,
        Side::Right => walk.from <= walk.found && walk.found < walk.high,
    }
}

/// Returns the first key on that side that the walk does not serve, or `None` if there is none.
fn after(walk: &KeysWalk, side: Side) -> Option<u64>
    ensures some { IfSome result (λ next. (bound side next ≡ border side walk.now)
        × (border side walk.now ≢ last_border side)) }
    ensures none { result ≡ None → border side walk.now ≡ last_border side }
{
    match side {
        Side::Left if walk.low == 0 => None,
        Side::Left => Some(walk.low - 1),
        Side::Right if walk.high == INFINITY_0 => None,
        Side::Right => Some(walk.high),
    }
}

/// Walks for a key and for those beside it that go the same way, to the end of the walk. It stops if
/// the walk has looked at as many nodes as there are, which never happens in a radix tree.
#[inline(always)]
fn walk_down(shared: &Shared, pass: &mut Pass, from: u64) -> KeysWalk
    requires pinned { IsPinnedIn shared.now pass.old }
    requires known { Tells pass.old (KnowsSlot 2) }
    requires key { IsKey from }
    ensures looks { AddsLooks (most_looks (reach shared.now.layout) 1) pass.old.view.log
        pass.new.view.log }
    ensures under_way { (n : ℕ) × IsDescent shared.now.layout n pass.old pass.new result }
    ensures long { result.node ≢ 0
        → IsTooLong shared.now.layout from pass.old.view.log pass.new.view.log }
    ensures from { result.from ≡ from }
    ensures on { GoesOn pass.old pass.new }
    ensures only { OnlyLooks pass.old pass.new }
{
    let layout = shared.layout();
    let first = look_edge(shared, layout, pass, 2, Side::Left).slot();
    let mut walk = KeysWalk {
        from,
        low: 0,
        high: INFINITY_0,
        node: first,
        leaf: 0,
        found: 0,
    };
    for _node in 0..reach(layout) - 1 {
        if walk.node == 0 {
            return walk;
        }
        let on = read_node(shared, layout, pass, walk.node, from);
        walk = read_so(&walk, &on);
    }
    walk
}

/// Returns the walk after it has read its node.
fn read_so(walk: &KeysWalk, on: &Onward) -> KeysWalk
    ensures walk { result ≡ read_on walk.now result.low result.high on.now }
    ensures raised { walk.now.low ≤ result.low }
    ensures lowered { result.high ≤ walk.now.high }
    ensures least { walk.now.low ≤ walk.now.from → result.low ≤ walk.now.from }
    ensures most { walk.now.from < walk.now.high → walk.now.from < result.high }
    ensures passed { on.now.found ≤ walk.now.from → on.now.found ≤ result.low }
    ensures capped { on.now.next.slot ≢ 0 → walk.now.from < on.now.found
        → result.high ≤ on.now.found }
    ensures below { (result.low ≡ walk.now.low) ⊎ (result.low ≡ on.now.found) }
    ensures above { (result.high ≡ walk.now.high)
        ⊎ ((result.high ≡ on.now.found) × (on.now.next.slot ≢ 0)) }
{
    KeysWalk {
        from: walk.from,
        low: low_at(walk, on.found),
        high: high_at(walk, on),
        node: on.next.slot(),
        leaf: walk.node,
        found: on.found,
    }
}

/// Returns the low bound of a walk after a node with this key.
fn low_at(walk: &KeysWalk, found: u64) -> u64
    ensures raised { walk.now.low ≤ result }
    ensures least { walk.now.low ≤ walk.now.from → result ≤ walk.now.from }
    ensures passed { found ≤ walk.now.from → found ≤ result }
    ensures below { (result ≡ walk.now.low) ⊎ (result ≡ found) }
{
    if walk.low < found && found <= walk.from {
        found
    } else {
        walk.low
    }
}

/// Returns the high bound of a walk after this node.
fn high_at(walk: &KeysWalk, on: &Onward) -> u64
    ensures lowered { result ≤ walk.now.high }
    ensures most { walk.now.from < walk.now.high → walk.now.from < result }
    ensures capped { on.now.next.slot ≢ 0 → walk.now.from < on.now.found → result ≤ on.now.found }
    ensures above { (result ≡ walk.now.high) ⊎ ((result ≡ on.now.found) × (on.now.next.slot ≢ 0)) }
{
    if walk.from < on.found && on.found < walk.high && !is_null(on.next) {
        on.found
    } else {
        walk.high
    }
}
