//! Pins for the caller, and calls that advance the epoch and collect.
ghost use Rattle.std.specs.Prelude.{IsSome};
ghost use Rattle.nm_steps.specs.Steps.{IsOf};
ghost use Rattle.nm_tree.specs.Calls.{MayCall, LeavesPin, LeavesUnpin, LeavesAdvance, LeavesBehind, LeavesCollect};

use crate::fault::PinFault;
use crate::tree::Tree;
use crate::worker::{Standing, Worker};
use nm_calls::leave;
use nm_epoch::{Advance, Behind, Collected, advance, behind, collect, pin};

impl Tree {
    /// Pins the epoch for the caller, until `unpin`, and returns it. What the worker holds back
    /// meanwhile is not freed. Takes no memory. The caller must not have pinned the worker already.
    ///
    /// Errors: `Moved`: the epoch moved on in each of `tries` tries; with 0 tries it was only read.
    /// `Pending`: a key is pending.
    ///
    /// Cost: at most 3 `tries` + 1 steps.
    pub fn pin(&self, worker: &mut Worker, tries: u32) -> Result<u64, PinFault>
        requires { MayCall self.now worker.old }
        ensures { LeavesPin tries worker.old worker.new result }
    {
        if let Standing::Pending(_) = worker.standing {
            return Err(PinFault::Pending);
        }
        match pin(&self.shared, &mut worker.pass, tries) {
            Ok(epoch) => {
                worker.standing = Standing::Held(epoch);
                Ok(epoch)
            }
            Err(moved) => Err(PinFault::Moved { epoch: moved.epoch }),
        }
    }

    /// Ends the caller's pin, in one step. The caller must have pinned the worker.
    pub fn unpin(&self, worker: &mut Worker)
        requires own { IsOf self.now worker.old.pass }
        requires held { IsSome worker.old.held }
        ensures { LeavesUnpin worker.old worker.new }
    {
        leave(&self.shared, &mut worker.pass);
        worker.standing = Standing::Resting;
    }

    /// Advances the epoch by one, if no worker holds it back; see `Advance`. It may be called at
    /// any time. Takes no memory.
    ///
    /// Cost: at most as many steps as there are workers, and one more.
    pub fn advance(&self, worker: &mut Worker) -> Advance
        requires own { IsOf self.now worker.old.pass }
        ensures { LeavesAdvance self.now.layout.workers worker.old worker.new result }
    {
        advance(&self.shared, &mut worker.pass)
    }

    /// Returns which workers hold the epoch back, this one included. It may be called at any time.
    /// Takes no memory.
    ///
    /// Cost: at most as many steps as there are workers.
    pub fn behind(&self, worker: &mut Worker) -> Behind
        requires own { IsOf self.now worker.old.pass }
        ensures { LeavesBehind self.now.layout.workers worker.old worker.new result }
    {
        behind(&self.shared, &mut worker.pass)
    }

    /// Reads the epoch, and frees the ripe nodes at the front of each queue that the worker holds,
    /// origin by origin. It frees exactly the longest front of nodes whose labels are at least two
    /// below that epoch. The epoch is not below any that this worker had read before. The freed
    /// slots may be claimed again.
    ///
    /// Each worker that was pinned when such a node was cut off has unpinned since, in what this
    /// worker has now seen (`grace`: Fraser, section 5.2.3).
    ///
    /// It may be called at any time, and takes no memory. It gives back the blocks of a queue that
    /// neither the waiting nodes nor 256 more nodes need.
    ///
    /// Cost: at most as many steps as the tree has nodes.
    pub fn collect(&self, worker: &mut Worker) -> Collected
        requires own { IsOf self.now worker.old.pass }
        ensures { LeavesCollect self.now.layout.nodes worker.old worker.new result }
    {
        worker.pass.know_run();
        let collected = collect(
            &self.shared,
            &mut worker.pass,
            &mut worker.workspace.placement,
            worker.queues.as_mut_slice(),
        );
        worker.pass.know_run();
        collected
    }
}
