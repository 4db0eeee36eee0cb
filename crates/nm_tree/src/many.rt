//! Look-ups of several keys under one pin.
ghost use Rattle.std.specs.Prelude.{IsSome};
ghost use Rattle.nm_steps.specs.Steps.{IsOf};
ghost use Rattle.nm_steps.specs.Values.{HasValues};
ghost use Rattle.nm_tree.specs.Calls.{MayCall, LeavesHasMany, LeavesPinnedGetMany};

use crate::tree::Tree;
use crate::worker::{Standing, Worker};
use nm_calls::{CallFault, Query, get_many_pinned, has_many};

impl Tree {
    /// Looks up each of these keys, and writes the answers into their `found`. It walks for all
    /// keys in turns under one pin, so that the loads of one walk go on while the others wait for
    /// theirs. Each answer is right at a moment (linearization point) of this call, which is later
    /// than all that the worker had seen before. Two answers may have different moments. The keys
    /// are unchanged. Takes no memory. The caller must not have pinned the worker.
    ///
    /// Errors: no `found` means anything then. `Pending`: a key is pending. `Busy`, for one of
    /// these reasons:
    /// - `tries` is 0; then there was no step.
    /// - The pin was lost in each of `tries` tries. Each time another worker had advanced the
    ///   epoch.
    /// - One of the walks had looked at as many nodes as there are, and had not ended, because
    ///   other workers linked or cut off nodes meanwhile. In a radix tree this never happens: there
    ///   look-ups that have their pin return answers, whatever others do.
    ///
    /// Proved (`alone`): a call that has at least one try is not `Busy` if no other worker makes a
    /// transition during it.
    ///
    /// Cost: at most 3 `tries` + 3 steps, and 3 `reach` for each key. A walk's reach is 66 nodes in
    /// a radix tree, and the number of nodes otherwise. (The search of Natarajan and Mittal,
    /// section 3.2.)
    pub fn has_many(
        &self,
        worker: &mut Worker,
        queries: &mut [Query],
        tries: u32,
    ) -> Result<(), CallFault>
        requires { MayCall self.now worker.old }
        ensures { LeavesHasMany self.now.layout tries queries.old queries.new worker.old
            worker.new result }
    {
        if let Standing::Pending(_) = worker.standing {
            return Err(CallFault::Pending);
        }
        worker.pass.know_run();
        let answer = has_many(&self.shared, &mut worker.pass, queries, tries);
        worker.pass.know_run();
        answer
    }

    /// Looks up the value of each of these keys like `get_pinned`, for a worker that its caller has
    /// pinned, and writes the answers into their `found` and `value`. It walks for all keys in turns,
    /// like `has_many`. Proved (`moment`): each answer was right at a moment (linearization point) of
    /// this call. Two answers may have different moments. The keys are unchanged. Takes no memory. The tree must have values.
    ///
    /// So no value that the call finds comes back by `collect_values` before `unpin`.
    ///
    /// Errors: no answer means anything then. `Busy`: one of the walks had looked at as many nodes as
    /// there are, and had not ended. In a radix tree this never happens (`gave`).
    ///
    /// Cost: at most one step, 3 `reach` for each key, and a look at each value. A walk's reach is 66
    /// nodes in a radix tree, and the number of nodes otherwise. (The search of Natarajan and Mittal,
    /// section 3.2.)
    pub fn get_many_pinned(
        &self,
        worker: &mut Worker,
        queries: &mut [Query],
    ) -> Result<(), CallFault>
        requires own { IsOf self.now worker.old.pass }
        requires values { HasValues self.now }
        requires held { IsSome worker.old.held }
        ensures { LeavesPinnedGetMany self.now.layout queries.old queries.new worker.old worker.new
            result }
    {
        worker.pass.know_run();
        get_many_pinned(&self.shared, &mut worker.pass, queries)
    }
}
