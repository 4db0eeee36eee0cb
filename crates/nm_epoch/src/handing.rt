//! Frees nodes that have waited long enough, in a table with values, and hands out the value of each
//! leaf among them.
ghost use Rattle.std.specs.Prelude.{◌≡◌, ◌⊎◌, ◌+◌, ◌<◌, ◌≤◌, ℕ, List, [], ◌∷◌, ◌++◌, length, take, true, false, nat_lt, Some, None, IfSome};
ghost use Rattle.nm_edge.specs.Words.{IsSlot};
ghost use Rattle.nm_steps.specs.Rules.{knowledge};
ghost use Rattle.nm_steps.specs.Steps.{IsOf};
ghost use Rattle.nm_steps.specs.Values.{HasValues};
ghost use Rattle.nm_epoch.specs.Resting.{epochs};
ghost use Rattle.nm_epoch.specs.Collecting.{AreHeld, IsQueueOf, ripe_front};
ghost use Rattle.nm_epoch.specs.Handing.{CollectsValues, HandsFront, HandsFronts, HandsOut};

use crate::collecting::{Entry, HeldQueue, SPARE_KEPT, drop_front, free, next_ripe};
use crate::looking::read;
use nm_edge::{NodeId, Placement};
use nm_limbo::BlockQueue;
use nm_steps::{Pass, Shared};

/// Returns the node at the front, if it is ripe and there is room for its value.
fn next_handed(queue: &BlockQueue<Entry>, epoch: u64, has_room: bool) -> Option<NodeId>
    ensures node { IfSome result (λ n. ripe_front epoch queue.now.items ≡ Some n) }
    ensures room { IfSome result (λ n. has_room ≡ true) }
    ensures none { result ≡ None → has_room ≡ true → ripe_front epoch queue.now.items ≡ None }
{
    if has_room {
        next_ripe(queue, epoch)
    } else {
        None
    }
}

/// Writes the value of a slot to `out`, after `count` other ones, if the node there is a leaf. Of
/// another node it writes nothing. Returns how many values there are then.
fn hand_out(shared: &Shared, pass: &mut Pass, slot: u32, out: &mut [u64], count: usize) -> usize
    requires own { IsOf shared.now pass.old }
    requires values { HasValues shared.now }
    requires slot { IsSlot shared.now.layout slot }
    requires room { count < length out.old }
    ensures after { HandsOut pass.old pass.new slot count result out.old out.new }
    ensures long { length out.new ≡ length out.old }
{
    pass.know_run();
    if !shared.look_bare(pass, slot) {
        return count;
    }
    out[count] = shared.look_value(pass, slot);
    count + 1
}

/// Frees what is ripe at the front of one held queue, given the epoch that the worker read last, and
/// writes the value of each freed leaf to `out`, after `count` other ones. It stops if `out` is full.
/// Returns how many values there are then.
fn hand_out_front(
    shared: &Shared,
    pass: &mut Pass,
    placement: &mut Placement,
    held: &mut HeldQueue,
    epoch: u64,
    out: &mut [u64],
    count: usize,
) -> usize
    requires own { IsOf shared.now pass.old }
    requires values { HasValues shared.now }
    requires seen { (epochs pass.old).seen ≡ Some epoch }
    requires queue { IsQueueOf (knowledge pass.old.view) held.old.origin held.old.queue.items }
    requires room { count ≤ length out.old }
    ensures after { (values : List ℕ)
        × HandsFront epoch (nat_lt result (length out.new)) pass.old pass.new held.old held.new values
        × (take result out.new ≡ take count out.old ++ values) }
    ensures long { (length out.new ≡ length out.old) × (count ≤ result)
        × (result ≤ length out.new) }
    ensures fit { placement.new ≡ placement.old }
{
    pass.know_run();
    let waiting = held.queue.len();
    let mut written = count;
    while let Some(node) = next_handed(&held.queue, epoch, written < out.len()) {
        written = hand_out(shared, pass, node.slot, out, written);
        free(shared, pass, node.slot);
        drop_front(&mut held.queue);
        placement.keep(node.slot);
    }
    let _receipt = held.queue.shrink_to(SPARE_KEPT);
    let freed = waiting - held.queue.len();
    held.counts.freed = held.counts.freed.saturating_add(u64::from(freed));
    written
}

/// Does the same with each of these held queues, one after the other.
fn hand_out_fronts(
    shared: &Shared,
    pass: &mut Pass,
    placement: &mut Placement,
    queues: &mut [HeldQueue],
    epoch: u64,
    out: &mut [u64],
    count: usize,
) -> usize
    requires own { IsOf shared.now pass.old }
    requires values { HasValues shared.now }
    requires seen { (epochs pass.old).seen ≡ Some epoch }
    requires queues { AreHeld (knowledge pass.old.view) queues.old }
    requires room { count ≤ length out.old }
    ensures after { (values : List ℕ)
        × HandsFronts epoch (nat_lt result (length out.new)) pass.old pass.new queues.old queues.new
        values × (take result out.new ≡ take count out.old ++ values) }
    ensures long { (length out.new ≡ length out.old) × (count ≤ result)
        × (result ≤ length out.new) }
    ensures fit { placement.new ≡ placement.old }
{
    pass.know_run();
    let Some((first, rest)) = queues.split_first_mut() else {
        return count;
    };
    let here = hand_out_front(shared, pass, placement, first, epoch, out, count);
    hand_out_fronts(shared, pass, placement, rest, epoch, out, here)
}

/// The result of a collection that hands out values.
#[derive(Clone, Copy, Debug, PartialEq, Eq)]
pub struct HandedOut {
    /// The epoch that was read.
    pub epoch: u64,
    /// The number of values that were written.
    pub values: usize,
}

/// Frees nodes as `collect` does, in a table with values, and writes the value of each freed leaf to
/// `out`, in the order in which the leaves are freed. It reads the value while the leaf still waits,
/// so no other worker has the slot. If `out` is full, it stops, and a later call goes on there. If it returns fewer values than `out` has room for, no ripe node is left at
/// the front of a queue.
///
/// Each node that waits is freed once, so its value is handed out once. Two epochs after the label
/// no worker is pinned that could still come to the node (Fraser, Practical lock-freedom, 2004,
/// chapter 5). Cost: one step to read the epoch, one and a look for each freed node, and a look for
/// each value.
pub fn collect_values(
    shared: &Shared,
    pass: &mut Pass,
    placement: &mut Placement,
    queues: &mut [HeldQueue],
    out: &mut [u64],
) -> HandedOut
    requires own { IsOf shared.now pass.old }
    requires values { HasValues shared.now }
    requires queues { AreHeld (knowledge pass.old.view) queues.old }
    ensures after { CollectsValues shared.now.layout.nodes (nat_lt result.values (length out.new))
        pass.old pass.new queues.old queues.new (take result.values out.new) result }
    ensures long { (length out.new ≡ length out.old) × (result.values ≤ length out.new) }
    ensures fit { placement.new ≡ placement.old }
{
    let epoch = read(shared, pass);
    let values = hand_out_fronts(shared, pass, placement, queues, epoch, out, 0);
    HandedOut { epoch, values }
}
