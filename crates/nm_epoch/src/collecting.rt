//! Frees nodes that have waited long enough, so that their slots are in the pool again.
ghost use Rattle.std.specs.Prelude.{◌≡◌, ◌+◌, nat_le, drop, [], Some};
ghost use Rattle.nm_model.specs.declared.event.Event.TheVariants.{Give};
ghost use Rattle.nm_steps.specs.Rules.{knowledge};
ghost use Rattle.nm_steps.specs.Steps.{IsOf, MayStep, give_reply, TakesStep};
ghost use Rattle.nm_limbo.specs.Queue.{block_queue};
ghost use Rattle.nm_epoch.specs.Resting.{epochs};
ghost use Rattle.nm_epoch.specs.Collecting.{IsQueueOf, AreHeld, FreesFront, FreesFronts, Collects, ripe_front, blank};

use crate::looking::read;
use nm_edge::{NodeId, Placement};
use nm_limbo::BlockQueue;
use nm_steps::{Pass, Shared};
use std::alloc::Global;

/// A retired node that waits, with its label (retire epoch): the epoch that its remover read after
/// the cut.
#[derive(Clone, Copy, Debug, PartialEq, Eq)]
pub struct Entry {
    pub node: NodeId,
    pub label: u64,
}

/// The links, flags and splices that a worker has won, and the number of nodes that it cut off and
/// that were freed. Each count stops at 2^64 - 1.
#[derive(Clone, Copy, Debug, PartialEq, Eq)]
pub struct Tally {
    pub links: u64,
    pub flags: u64,
    pub splices: u64,
    pub freed: u64,
}

/// The waiting nodes that one worker's splices cut off, oldest first, and the counts of that
/// worker.
#[derive(Drop)]
pub struct HeldQueue {
    /// The worker whose splices cut off these nodes.
    pub origin: u32,
    pub queue: BlockQueue<Entry>,
    pub counts: Tally,
}

impl HeldQueue {
    /// Makes the empty queue of a worker that has taken no step. It takes no memory.
    pub fn new(origin: u32, alloc: Global) -> Self
        ensures origin { result.origin ≡ origin }
        ensures queue { result.queue ≡ block_queue [] 0 0 }
        ensures counts { result.counts ≡ blank }
    {
        HeldQueue {
            origin,
            queue: BlockQueue::new(alloc),
            counts: Tally {
                links: 0,
                flags: 0,
                splices: 0,
                freed: 0,
            },
        }
    }
}

/// The number of spare places that a queue keeps after a collection, if it has them: 128 that a try
/// needs, and 128 for what is cut off until the next collection. So a worker that collects now and
/// then reuses its blocks and allocates no memory.
pub(crate) const SPARE_KEPT: u32 = 256;

/// Returns whether the label is at least two below the epoch.
fn is_ripe(label: u64, epoch: u64) -> bool
    ensures { result ≡ nat_le (label + 2) epoch }
{
    2 <= epoch && label <= epoch - 2
}

/// Returns the node at the front, if it is ripe.
pub(crate) fn next_ripe(queue: &BlockQueue<Entry>, epoch: u64) -> Option<NodeId>
    ensures { result ≡ ripe_front epoch queue.now.items }
{
    match queue.front() {
        Some(entry) => {
            if is_ripe(entry.label, epoch) {
                Some(entry.node)
            } else {
                None
            }
        }
        None => None,
    }
}

/// Removes the front, if there is one. It takes no memory.
pub(crate) fn drop_front(queue: &mut BlockQueue<Entry>)
    ensures items { queue.new.items ≡ drop 1 queue.old.items }
    ensures blocks { queue.new.blocks ≡ queue.old.blocks }
{
    let _ = queue.pop();
}

/// Frees the node that waits in a slot. Cost: one step.
pub(crate) fn free(shared: &Shared, pass: &mut Pass, slot: u32)
    requires own { IsOf shared.now pass.old }
    requires may { MayStep pass.old (Give slot) }
    ensures { TakesStep pass.old pass.new (Give slot) (give_reply pass.old.view slot) }
{
    shared.give(pass, slot);
}

/// Frees what is ripe at the front of one held queue, given the epoch that the worker read last, by
/// one step per node. Returns the number of freed nodes, and adds it to the queue's count. The
/// placement remembers the slots. The queue gives back empty blocks that it does not need.
fn collect_front(
    shared: &Shared,
    pass: &mut Pass,
    placement: &mut Placement,
    held: &mut HeldQueue,
    epoch: u64,
) -> u32
    requires own { IsOf shared.now pass.old }
    requires seen { (epochs pass.old).seen ≡ Some epoch }
    requires queue { IsQueueOf (knowledge pass.old.view) held.old.origin held.old.queue.items }
    ensures after { FreesFront epoch pass.old pass.new held.old held.new result }
    ensures fit { placement.new ≡ placement.old }
{
    pass.know_run();
    let waiting = held.queue.len();
    while let Some(node) = next_ripe(&held.queue, epoch) {
        free(shared, pass, node.slot);
        drop_front(&mut held.queue);
        placement.keep(node.slot);
    }
    let _receipt = held.queue.shrink_to(SPARE_KEPT);
    let freed = waiting - held.queue.len();
    held.counts.freed = held.counts.freed.saturating_add(u64::from(freed));
    freed
}

/// Frees what is ripe at the front of each of these held queues, one after the other. Returns the
/// number of freed nodes.
fn collect_fronts(
    shared: &Shared,
    pass: &mut Pass,
    placement: &mut Placement,
    queues: &mut [HeldQueue],
    epoch: u64,
) -> u64
    requires own { IsOf shared.now pass.old }
    requires seen { (epochs pass.old).seen ≡ Some epoch }
    requires queues { AreHeld (knowledge pass.old.view) queues.old }
    ensures after { FreesFronts epoch pass.old pass.new queues.old queues.new result }
    ensures fit { placement.new ≡ placement.old }
{
    pass.know_run();
    let Some((first, rest)) = queues.split_first_mut() else {
        return 0;
    };
    let here = collect_front(shared, pass, placement, first, epoch);
    u64::from(here) + collect_fronts(shared, pass, placement, rest, epoch)
}

/// The result of a collection.
#[derive(Clone, Copy, Debug, PartialEq, Eq)]
pub struct Collected {
    /// The epoch that was read.
    pub epoch: u64,
    /// The number of nodes that were freed.
    pub freed: u64,
}

/// Reads the epoch, and frees what is ripe at the front of each of these held queues, in their
/// order. It frees exactly the longest front of entries whose labels are at least two below the
/// epoch. Each freed node leaves its queue, and its slot is in the pool again. Cost: one step to
/// read the epoch, and one for each freed node.
///
/// The queues must be those of ledgers that the worker holds, each of another origin, with all that
/// waits in them. They may be in any order. The epoch is not below any that the worker had read. If
/// a cut waits for its label, the first step labels it. The worker's ledgers of other origins are
/// unchanged, except for that label.
///
/// The placement, whose fit is unchanged, remembers the last slots that were freed, and each queue
/// counts its freed nodes. The call takes no memory. It gives back the blocks that a queue needs
/// neither for what waits in it nor for 256 more nodes.
///
/// Two epochs after the label, no worker is pinned that could still come to the node (Fraser,
/// Practical lock-freedom, 2004, chapter 5).
pub fn collect(
    shared: &Shared,
    pass: &mut Pass,
    placement: &mut Placement,
    queues: &mut [HeldQueue],
) -> Collected
    requires own { IsOf shared.now pass.old }
    requires queues { AreHeld (knowledge pass.old.view) queues.old }
    ensures after { Collects shared.now.layout.nodes pass.old pass.new queues.old queues.new result }
    ensures fit { placement.new ≡ placement.old }
{
    let epoch = read(shared, pass);
    let freed = collect_fronts(shared, pass, placement, queues, epoch);
    Collected { epoch, freed }
}
