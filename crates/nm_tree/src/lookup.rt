//! Look-ups of one key.
ghost use Rattle.nm_tree.specs.Calls.{MayCall, LeavesHas, SaysHas};

use crate::tree::Tree;
use crate::worker::{Standing, Worker};
use nm_calls::{CallFault, has};
use nm_edge::Key;

impl Tree {
    /// Returns whether the set has the key: whether the leaf at which the walk for it ends has this
    /// key, flagged or not. Takes no memory. The caller must not have pinned the worker.
    ///
    /// Errors: `Pending`: a key is pending. `Busy`, for one of these reasons:
    /// - `tries` is 0; then there was no step.
    /// - The pin was lost in each of `tries` tries. Each time another worker had advanced the
    ///   epoch.
    /// - Each of `tries` walks had looked at as many nodes as there are, and had not ended, because
    ///   other workers linked or cut off nodes meanwhile. In a radix tree this never happens: there
    ///   a look-up that has its pin returns an answer, whatever others do.
    ///
    /// Proved (`alone`): a call that has at least one try is not `Busy` if no other worker makes a
    /// transition during it.
    ///
    /// Cost: at most `tries` * (4 `reach` + 512) + 10 steps. A walk's reach is 66 nodes in a radix
    /// tree, and the number of nodes otherwise. (The search of Natarajan and Mittal, section 3.2.)
    #[inline(always)]
    pub fn has(&self, worker: &mut Worker, key: Key, tries: u32) -> Result<bool, CallFault>
        requires { MayCall self.now worker.old }
        ensures says { SaysHas self.now.layout tries key worker.old worker.new result }
        ensures leaves { LeavesHas self.now.layout tries key worker.old worker.new result }
    {
        if let Standing::Pending(_) = worker.standing {
            return Err(CallFault::Pending);
        }
        worker.pass.know_run();
        let answer = has(&self.shared, &mut worker.pass, key, tries);
        worker.pass.know_run();
        answer
    }
}
