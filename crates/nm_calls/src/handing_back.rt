//! Collections that hand out the values of removed keys.
ghost use Rattle.std.specs.Prelude.{◌≡◌, ◌≤◌, ℕ, false, length, take, nat_lt};
ghost use Rattle.nm_steps.specs.Rules.{knowledge};
ghost use Rattle.nm_steps.specs.Steps.{IsOf};
ghost use Rattle.nm_steps.specs.Values.{HasValues};
ghost use Rattle.nm_epoch.specs.declared.collecting.Entry.{Entry};
ghost use Rattle.nm_epoch.specs.Collecting.{AreHeld};
ghost use Rattle.nm_epoch.specs.Handing.{CollectsValues, WasFound, WasRead};
ghost use Rattle.nm_calls.specs.HandedBack.{WasCutInner, WasCutWith};

use nm_edge::Placement;
use nm_epoch::{HandedOut, HeldQueue, collect_values as collect_in_epoch};
use nm_steps::{Pass, Shared};

/// Frees nodes as `collect` of `nm_epoch` does, in a table with values, and writes the value of each
/// freed leaf to `out`, in the order in which the leaves are freed. It stops if `out` is full, and a
/// later call goes on there. If it returns fewer values than `out` has room for, no
/// node is left that could be freed.
///
/// Proved (`back`): each value is the one that its leaf had right before the leaf was cut off. Each
/// leaf is freed once, so a value comes back once. A freed node without a value was no leaf (`inner`).
///
/// Cost: one step to read the epoch, one and a look for each freed node, and a look for each value. It
/// takes no memory. (Fraser, Practical lock-freedom, 2004, chapter 5.)
pub fn collect_values(
    shared: &Shared,
    pass: &mut Pass,
    placement: &mut Placement,
    queues: &mut [HeldQueue],
    out: &mut [u64],
) -> HandedOut
    requires own { IsOf shared.now pass.old }
    requires values { HasValues shared.now }
    requires queues { AreHeld (knowledge pass.old.view) queues.old }
    ensures after { CollectsValues shared.now.layout.nodes (nat_lt result.values (length out.new))
        pass.old pass.new queues.old queues.new (take result.values out.new) result }
    ensures back { (o : ℕ) (e : Entry) (v : ℕ) → WasRead o pass.old pass.new e v
        → WasCutWith pass.new.view.layout pass.new.view.past pass.new.view.stores e.node v }
    ensures inner { (o : ℕ) (e : Entry) → WasFound o pass.old pass.new e false
        → WasCutInner pass.new.view.layout pass.new.view.past e.node }
    ensures long { (length out.new ≡ length out.old) × (result.values ≤ length out.new) }
    ensures fit { placement.new ≡ placement.old }
{
    collect_in_epoch(shared, pass, placement, queues, out)
}
