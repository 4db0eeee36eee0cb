//! Puts: a key of a tree with values gets another value, or is inserted.
ghost use Rattle.nm_steps.specs.Values.{HasValues};
ghost use Rattle.nm_tree.specs.Calls.{MayCall};
ghost use Rattle.nm_tree.specs.Putting.{LeavesPut};

use crate::tree::Tree;
use crate::worker::{Standing, Worker};
use nm_calls::CallFault;
use nm_edge::Key;
use nm_puts::{Condition, PutOutcome, put};

impl Tree {
    /// Gives `key` the value, if the condition holds; returns what it did, or why it changed nothing.
    /// The tree must have values, and the caller must not have pinned the worker.
    ///
    /// `Inserted`: the key was absent, and the map has it with the value right after the call's link.
    /// `Replaced`: the key had the value that is returned, right before the call's swap, and has the
    /// new one right after it. `Other`: the key had the value that is returned, at a moment
    /// (linearization point) of the call. `Absent`: the map did not have the key at such a moment.
    /// `Always` gives `Inserted` or `Replaced`. `IfThere` gives `Replaced` or `Absent`. `IfItIs` gives
    /// `Replaced` with the expected value, `Other` with another one, or `Absent`. All of this is
    /// proved (`map`), and also that the call frees no node (`frees`).
    ///
    /// A replaced value comes back by `collect_values`, once nobody can read it.
    ///
    /// Errors: `Pending`: a key is pending. `Busy`, `Full`, `NoMemory`: see `CallFault`. Proved (`told`):
    /// after `Full` its last claims found no slot, and after `NoMemory` the worker's own queue has less
    /// room than a try needs. A call that replaces needs one slot, and one that inserts needs two.
    /// Proved (`alone`): a call that has at least one try is not `Busy` if no other worker has a delete
    /// pending before it or makes a transition during it.
    ///
    /// Cost: at most `tries` * (4 `reach` + 6 `nodes` + 512) + 10 steps. A walk's reach is 66 nodes in a
    /// radix tree, and the number of nodes otherwise. (The search of Natarajan and Mittal, section 3.2;
    /// the swap is ours.)
    pub fn put(
        &self,
        worker: &mut Worker,
        key: Key,
        value: u64,
        condition: Condition,
        tries: u32,
    ) -> Result<PutOutcome, CallFault>
        requires call { MayCall self.now worker.old }
        requires values { HasValues self.now }
        ensures leaves { LeavesPut self.now.layout tries condition key value worker.old worker.new
            result }
    {
        if let Standing::Pending(_) = worker.standing {
            return Err(CallFault::Pending);
        }
        let own = &mut worker.queues[worker.home];
        worker.pass.know_run();
        let done = put(
            &self.shared,
            &mut worker.pass,
            &mut worker.workspace,
            own,
            key,
            value,
            condition,
            tries,
        );
        worker.pass.know_run();
        done
    }
}
