//! Swaps: a new leaf takes the place of the leaf with its key, which then waits in the queue.
ghost use Rattle.std.specs.Prelude.{◌≡◌, ◌≤◌, ℕ, true, length, IfOk, IfErr, Some};
ghost use Rattle.nm_model.specs.declared.event.Event.TheVariants.{Swap};
ghost use Rattle.nm_order.specs.Facts.Fact.{IsBorn};
ghost use Rattle.nm_steps.specs.Rules.{IsStored};
ghost use Rattle.nm_steps.specs.Steps.{IsOf, PassView, TakesStep, swap_reply};
ghost use Rattle.nm_steps.specs.Values.{HasValues};
ghost use Rattle.nm_epoch.specs.Resting.{epochs};
ghost use Rattle.nm_walks.specs.Cleanups.{HoldsCuts};
ghost use Rattle.nm_walks.specs.Rooms.{FillsUp};
ghost use Rattle.nm_walks.specs.Telling.{Tells, GoesOn, IsPinnedIn};
ghost use Rattle.nm_puts.specs.Replaced.{HasReplaced};
ghost use Rattle.nm_puts.specs.Swaps.{HasNotSwapped, HasSwapped, HoldsCutsThen, IsSwapping, MaySwap, Retires, SwapLost, SwapWon, ValueWas};

use nm_edge::{Edge, NodeId, Side};
use nm_epoch::{Entry, HeldQueue, label};
use nm_steps::{Pass, Shared};
use nm_walks::{SeekRecord, WalkEnd, fill_leaf, look_birth};

/// Exchanges the edge to a leaf for one to a private new leaf. A walk of the call must have ended at
/// the old leaf, by this edge, with the key of the new one, and the new leaf must have a value. `Ok`:
/// the old leaf is cut off, and waits for its label. `Err`: the swap was lost; this edge was found
/// instead.
#[inline(always)]
fn swap(
    shared: &Shared,
    pass: &mut Pass,
    parent: u32,
    side: Side,
    leaf: u32,
    new: u32,
) -> Result<(), Edge>
    requires pinned { IsPinnedIn shared.now pass.old }
    requires may { IsSwapping pass.old parent side leaf new }
    requires stored { IsStored pass.old.view.stores pass.old.view.number
        (length pass.old.view.log) new }
    ensures won { IfOk result (λ _. (b : ℕ) → Tells pass.old (IsBorn leaf b)
        → SwapWon pass.old pass.new parent side new (record { slot = leaf; birth = b })) }
    ensures lost { IfErr result (λ e. SwapLost pass.old pass.new parent side leaf new e) }
    ensures took { TakesStep pass.old pass.new (Swap parent side leaf new)
        (swap_reply pass.old.view leaf result) }
    ensures on { GoesOn pass.old pass.new }
{
    pass.know_run();
    pass.know_pooled_slots();
    let won = shared.swap(pass, parent, side, leaf, new);
    pass.know_run();
    won
}

/// Labels the leaf that the worker has just cut off, and appends it to the worker's own queue. It
/// takes no memory. Cost: one step.
#[inline(always)]
fn retire(shared: &Shared, pass: &mut Pass, held: &mut HeldQueue, leaf: NodeId)
    requires own { IsOf shared.now pass.old }
    requires cut { (epochs pass.old).unlabelled ≡ true }
    requires room { 1 ≤ held.old.queue.spare }
    requires kept { HoldsCutsThen pass.old held.old leaf }
    ensures retires { Retires pass.old pass.new }
    ensures on { GoesOn pass.old pass.new }
    ensures kept { HoldsCuts pass.new held.new }
    ensures fills { FillsUp held.old.queue held.new.queue }
{
    let epoch = label(shared, pass);
    held.queue.push_reserved(Entry {
        node: leaf,
        label: epoch,
    });
}

/// Fills the new leaf with the key and the value, and lets it take the place of the leaf at which a
/// walk of the call has ended, by one exchange of the edge to it. If the exchange is won, the old
/// leaf waits in the queue, and its value is returned. `Err`: the exchange was lost; this edge was
/// found instead, and the new leaf is still private.
pub(crate) fn try_swap(
    shared: &Shared,
    pass: &mut Pass,
    held: &mut HeldQueue,
    key: u64,
    value: u64,
    end: &WalkEnd,
    new: &NodeId,
) -> Result<u64, Edge>
    requires pinned { IsPinnedIn shared.now pass.old }
    requires values { HasValues shared.now }
    requires may { MaySwap pass.old key end.now new.now }
    requires room { 1 ≤ held.old.queue.spare }
    requires kept { HoldsCuts pass.old held.old }
    ensures won { IfOk result (λ _. HasSwapped pass.old pass.new key end.now new.now) }
    ensures replaced { IfOk result (λ old. HasReplaced pass.old pass.new key old value) }
    ensures was { (m : PassView) (v : ℕ) → ValueWas m pass.old key end.now.seek_record.edge.slot v
        → IfOk result (λ old. old ≡ v) }
    ensures lost { IfErr result (λ e. HasNotSwapped pass.old pass.new key end.now new.now e) }
    ensures untouched { IfErr result (λ _. held.new ≡ held.old) }
    ensures on { GoesOn pass.old pass.new }
    ensures kept { HoldsCuts pass.new held.new }
    ensures fills { FillsUp held.old.queue held.new.queue }
{
    pass.know_run();
    let leaf = end.seek_record.edge.slot();
    let birth = look_birth(shared, pass, leaf);
    fill_leaf(shared, pass, new.slot, key, value);
    let SeekRecord { parent, side, .. } = end.seek_record;
    swap(shared, pass, parent, side, leaf, new.slot)?;
    pass.know_run();
    let old = shared.look_value(pass, leaf);
    retire(shared, pass, held, NodeId { slot: leaf, birth });
    Ok(old)
}
