//! The next and the previous key, in a set that others change.
ghost use Rattle.std.specs.Prelude.{IfOk, IfSome, Some};
ghost use Rattle.nm_steps.specs.Values.{HasValues};
ghost use Rattle.nm_calls.specs.Maps.{MapGave};
ghost use Rattle.nm_tree.specs.Calls.{MayCall, LeavesNearest, LeavesNext, LeavesPrev};

use crate::tree::Tree;
use crate::worker::{Standing, Worker};
use nm_calls::{CallFault, nearest, nearest_with_value};
use nm_edge::{Key, Side};

impl Tree {
    /// Returns the least key of the set that is not below `key`, or `None` if its walks find none.
    /// `Some(found)`: the set had `found` at a moment (linearization point) of this call. For each
    /// key from `key` on and below `found` there was a moment of this call at which the set did not
    /// have it. `None`: so it was for each key from `key` on.
    ///
    /// Two keys may have different moments: the answer is weakly consistent, like the iterators of
    /// Java's `ConcurrentSkipListSet`. Each moment is later than all that the worker had seen
    /// before. Takes no memory. The caller must not have pinned the worker.
    ///
    /// Errors: `Pending`: a key is pending. `Busy`, for one of these reasons:
    /// - `tries` is 0; then there was no step.
    /// - The pin was lost in each of `tries` tries. Each time another worker had advanced the
    ///   epoch.
    /// - Each of `tries` walks has ended with no key, and the next one began where its keys end.
    ///   During each two of them other workers linked or cut off a node.
    /// - Other workers linked or cut off a node while a walk looked at as many nodes as there are,
    ///   and the walk had not ended. In a radix tree this never happens.
    ///
    /// Proved (`alone`): a call that has at least two tries is not `Busy` if no other worker makes
    /// a transition during it.
    ///
    /// Cost: at most `tries` * (3 `reach` + 4) + 2 steps. A walk's reach is 66 nodes in a radix
    /// tree, and the number of nodes otherwise. (The search of Natarajan and Mittal, section 3.2.)
    pub fn next(&self, worker: &mut Worker, key: Key, tries: u32) -> Result<Option<Key>, CallFault>
        requires { MayCall self.now worker.old }
        ensures { LeavesNext self.now.layout tries key worker.old worker.new result }
    {
        self.nearest(worker, key, Side::Right, tries)
    }

    /// Returns the greatest key of the set that is not above `key`, or `None` if its walks find
    /// none. `Some(found)`: the set had `found` at a moment (linearization point) of this call. For
    /// each key above `found` up to `key` there was a moment of this call at which the set did not
    /// have it. `None`: so it was for each key up to `key`.
    ///
    /// Two keys may have different moments: the answer is weakly consistent, like the iterators of
    /// Java's `ConcurrentSkipListSet`. Each moment is later than all that the worker had seen
    /// before. Takes no memory. The caller must not have pinned the worker.
    ///
    /// Errors: `Pending`: a key is pending. `Busy`, for one of these reasons:
    /// - `tries` is 0; then there was no step.
    /// - The pin was lost in each of `tries` tries. Each time another worker had advanced the
    ///   epoch.
    /// - Each of `tries` walks has ended with no key, and the next one began below its keys. During
    ///   each two of them other workers linked or cut off a node.
    /// - Other workers linked or cut off a node while a walk looked at as many nodes as there are,
    ///   and the walk had not ended. In a radix tree this never happens.
    ///
    /// Proved (`alone`): a call that has at least two tries is not `Busy` if no other worker makes
    /// a transition during it.
    ///
    /// Cost: at most `tries` * (3 `reach` + 4) + 2 steps. A walk's reach is 66 nodes in a radix
    /// tree, and the number of nodes otherwise. (The search of Natarajan and Mittal, section 3.2.)
    pub fn prev(&self, worker: &mut Worker, key: Key, tries: u32) -> Result<Option<Key>, CallFault>
        requires { MayCall self.now worker.old }
        ensures { LeavesPrev self.now.layout tries key worker.old worker.new result }
    {
        self.nearest(worker, key, Side::Left, tries)
    }

    /// Returns the least key of the map that is not below `key`, like `next`, and writes its value to
    /// `value`. Proved (`finds`): if the result is `Some(found)`, the map had `found` with this value
    /// at a moment (linearization point) of the call. If the result is another one, `value` may be
    /// anything. The tree must have values.
    ///
    /// Errors and cost are those of `next`, and a look at the value.
    #[inline(always)]
    pub fn next_with_value(
        &self,
        worker: &mut Worker,
        key: Key,
        value: &mut u64,
        tries: u32,
    ) -> Result<Option<Key>, CallFault>
        requires call { MayCall self.now worker.old }
        requires values { HasValues self.now }
        ensures leaves { LeavesNext self.now.layout tries key worker.old worker.new result }
        ensures finds { IfOk result (λ f. IfSome f
            (λ k. MapGave worker.old.pass worker.new.pass k (Some value.new))) }
    {
        self.nearest_with_value(worker, key, Side::Right, value, tries)
    }

    /// Returns the greatest key of the map that is not above `key`, like `prev`, and writes its value
    /// to `value`. Proved (`finds`): if the result is `Some(found)`, the map had `found` with this
    /// value at a moment (linearization point) of the call. If the result is another one, `value` may
    /// be anything. The tree must have values.
    ///
    /// Errors and cost are those of `prev`, and a look at the value.
    #[inline(always)]
    pub fn prev_with_value(
        &self,
        worker: &mut Worker,
        key: Key,
        value: &mut u64,
        tries: u32,
    ) -> Result<Option<Key>, CallFault>
        requires call { MayCall self.now worker.old }
        requires values { HasValues self.now }
        ensures leaves { LeavesPrev self.now.layout tries key worker.old worker.new result }
        ensures finds { IfOk result (λ f. IfSome f
            (λ k. MapGave worker.old.pass worker.new.pass k (Some value.new))) }
    {
        self.nearest_with_value(worker, key, Side::Left, value, tries)
    }

    /// Returns the key of the map nearest to `key` on that side, `key` itself included, if no key is
    /// pending, and writes its value to `value`.
    #[inline(always)]
    fn nearest_with_value(
        &self,
        worker: &mut Worker,
        key: Key,
        side: Side,
        value: &mut u64,
        tries: u32,
    ) -> Result<Option<Key>, CallFault>
        requires call { MayCall self.now worker.old }
        requires values { HasValues self.now }
        ensures leaves { LeavesNearest side self.now.layout tries key worker.old worker.new result }
        ensures finds { IfOk result (λ f. IfSome f
            (λ k. MapGave worker.old.pass worker.new.pass k (Some value.new))) }
    {
        if let Standing::Pending(_) = worker.standing {
            return Err(CallFault::Pending);
        }
        worker.pass.know_run();
        let answer = nearest_with_value(&self.shared, &mut worker.pass, key, side, value, tries);
        worker.pass.know_run();
        answer
    }

    /// Returns the key of the set nearest to `key` on that side, `key` itself included, if no key
    /// is pending.
    #[inline(always)]
    fn nearest(
        &self,
        worker: &mut Worker,
        key: Key,
        side: Side,
        tries: u32,
    ) -> Result<Option<Key>, CallFault>
        requires { MayCall self.now worker.old }
        ensures { LeavesNearest side self.now.layout tries key worker.old worker.new result }
    {
        if let Standing::Pending(_) = worker.standing {
            return Err(CallFault::Pending);
        }
        worker.pass.know_run();
        let answer = nearest(&self.shared, &mut worker.pass, key, side, tries);
        worker.pass.know_run();
        answer
    }
}
