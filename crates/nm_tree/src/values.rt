//! The values of a tree with values: the value under a key, and the values that come back.
ghost use Rattle.std.specs.Prelude.{◌≡◌, ◌≤◌, IsSome, length, nat_lt, take};
ghost use Rattle.nm_steps.specs.Steps.{IsOf};
ghost use Rattle.nm_steps.specs.Values.{HasValues};
ghost use Rattle.nm_tree.specs.Calls.{MayCall, LeavesGet, LeavesPinnedGet};
ghost use Rattle.nm_tree.specs.Handing.{LeavesCollectValues};

use crate::tree::Tree;
use crate::worker::{Standing, Worker};
use nm_calls::{CallFault, collect_values, get, get_pinned};
use nm_edge::Key;
use nm_epoch::HandedOut;

impl Tree {
    /// Returns the value that the map has under `key`, or `None` if it does not have the key. Proved
    /// (`moment`): it was so at a moment (linearization point) of this call. Takes no memory. The
    /// tree must have values, and the caller must not have pinned the worker.
    ///
    /// Errors: `Pending`: a key is pending. `Busy`, for one of these reasons:
    /// - `tries` is 0; then there was no step.
    /// - The pin was lost in each of `tries` tries. Each time another worker had advanced the
    ///   epoch.
    /// - The walk had looked at as many nodes as there are, and had not ended. In a radix tree this
    ///   never happens.
    ///
    /// Proved (`alone`): a call that has at least one try is not `Busy` if no other worker makes a
    /// transition during it. Proved (`interfered`): if a call is `Busy`, others advanced the epoch at
    /// least as many times as it had tries, or they linked or cut off a node, and the tree is no
    /// radix tree.
    ///
    /// Cost: at most 3 * `tries` + 3 `reach` + 3 steps, and a look at the value. A walk's reach is
    /// 66 nodes in a radix tree, and the number of nodes otherwise. (The search of Natarajan and
    /// Mittal, section 3.2.)
    #[inline(always)]
    pub fn get(&self, worker: &mut Worker, key: Key, tries: u32) -> Result<Option<u64>, CallFault>
        requires call { MayCall self.now worker.old }
        requires values { HasValues self.now }
        ensures { LeavesGet self.now.layout tries key worker.old worker.new result }
    {
        if let Standing::Pending(_) = worker.standing {
            return Err(CallFault::Pending);
        }
        worker.pass.know_run();
        let found = get(&self.shared, &mut worker.pass, key, tries);
        worker.pass.know_run();
        found
    }

    /// Returns the value that the map has under `key`, or `None` if it does not have the key, to a
    /// worker that its caller has pinned (`pin`). Proved (`moment`): it was so at a moment
    /// (linearization point) of this call. The tree must have values.
    ///
    /// So no value that the call returns comes back by `collect_values` before `unpin`: the worker is
    /// pinned when its leaf is cut off. Until then the caller may use what the value refers to.
    ///
    /// Errors: `Busy`: the walk had looked at as many nodes as there are, and had not ended. In a
    /// radix tree this never happens (`gave`).
    ///
    /// Cost: at most 3 `reach` + 1 steps, and a look at the value. A walk's reach is 66 nodes in a
    /// radix tree, and the number of nodes otherwise. (The search of Natarajan and Mittal, section
    /// 3.2.)
    #[inline(always)]
    pub fn get_pinned(&self, worker: &mut Worker, key: Key) -> Result<Option<u64>, CallFault>
        requires own { IsOf self.now worker.old.pass }
        requires values { HasValues self.now }
        requires held { IsSome worker.old.held }
        ensures { LeavesPinnedGet self.now.layout key worker.old worker.new result }
    {
        worker.pass.know_run();
        get_pinned(&self.shared, &mut worker.pass, key)
    }

    /// Reads the epoch, frees ripe nodes at the front of each queue that the worker holds, like
    /// `collect`, and writes the value of each freed leaf to `out`, in the order in which the leaves
    /// are freed. It stops if `out` is full, and a later call goes on there. If it
    /// returns fewer values than `out` has room for, it has freed all that `collect` would free. The
    /// tree must have values.
    ///
    /// Proved (`handed`): each value is the one that its leaf had right before the leaf was cut off.
    /// Proved (`grace`): each worker that was pinned then has unpinned since, in what this
    /// worker has now seen. Each leaf is freed once, so the value under a removed key comes back
    /// once. A `collect` frees leaves too, and their values are lost.
    ///
    /// It may be called at any time, and takes no memory. Cost: at most as many steps as the tree has
    /// nodes, a look for each freed node, and one for each value. (Fraser, Practical lock-freedom, 2004, section 5.2.3.)
    pub fn collect_values(&self, worker: &mut Worker, out: &mut [u64]) -> HandedOut
        requires own { IsOf self.now worker.old.pass }
        requires values { HasValues self.now }
        ensures leaves { LeavesCollectValues self.now.layout.nodes
            (nat_lt result.values (length out.new)) worker.old worker.new
            (take result.values out.new) result }
        ensures long { (length out.new ≡ length out.old) × (result.values ≤ length out.new) }
    {
        worker.pass.know_run();
        let handed = collect_values(
            &self.shared,
            &mut worker.pass,
            &mut worker.workspace.placement,
            worker.queues.as_mut_slice(),
            out,
        );
        worker.pass.know_run();
        handed
    }
}
