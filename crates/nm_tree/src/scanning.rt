//! The keys of a range, in a set that others change.
ghost use Rattle.nm_edge.specs.declared.edge.Side.TheVariants.{Left, Right};
ghost use Rattle.nm_tree.specs.Calls.{MayCall};
ghost use Rattle.nm_tree.specs.Scanning.{LeavesScan};

use crate::tree::Tree;
use crate::worker::{Standing, Worker};
use nm_calls::{CallFault, Scanned, scan};
use nm_edge::{Key, Side};

impl Tree {
    /// Writes the keys of the set from `from` on that are below `below` into `out`, in ascending
    /// order. It makes one walk over the range, under one pin. It returns how many it wrote, at most
    /// 1,024 and as many as `out` has room for, and the key at which the next scan continues.
    ///
    /// The set had each key that it wrote at a moment (linearization point) of this call. For each
    /// other key of the range from `from` on, below the one at which to continue, there was a moment
    /// of this call at which the set did not have it. So the call passes over no key that was in the
    /// set all the time. Two keys may have different moments: the answer is weakly consistent, like
    /// the iterators of Java's `ConcurrentSkipListSet`. Each moment is later than all that the
    /// worker had seen before. Takes no memory. The caller must not have pinned the worker.
    ///
    /// The call continues beyond `from` whenever `out` has room for a key. It ends early if `tries`
    /// of its walks have ended with no key of the range. It also ends early if a walk after the
    /// first one had looked at as many nodes as there are.
    ///
    /// Errors: `out` is unchanged. `Pending`: a key is pending. `Busy`, for one of these reasons:
    /// - `tries` is 0; then there was no step.
    /// - The pin was lost in each of `tries` tries. Each time another worker had advanced the epoch.
    /// - The first walk had looked at as many nodes as there are, and had not ended, because other
    ///   workers linked or cut off nodes meanwhile. In a radix tree this never happens.
    ///
    /// Proved (`alone`): a call that has at least one try is not `Busy` if no other worker makes a
    /// transition during it. Proved (`early`): a call that has two tries ends before its range and
    /// its room only if other workers linked or cut off a node during it. So it does not if no
    /// other worker makes a transition during it (`whole`).
    ///
    /// Cost: at most 3 `tries` + 2 steps, and 4 `reach` + 1 steps for each key that it wrote and
    /// for each of `tries` walks. A walk's reach is 66 nodes in a radix tree, and the number of
    /// nodes otherwise. (The search of Natarajan and Mittal, section 3.2.)
    pub fn scan(
        &self,
        worker: &mut Worker,
        from: Key,
        below: u64,
        out: &mut [u64],
        tries: u32,
    ) -> Result<Scanned, CallFault>
        requires { MayCall self.now worker.old }
        ensures { LeavesScan Right self.now.layout tries from below out.old out.new worker.old
            worker.new result }
    {
        self.scan_to(worker, Side::Right, from, below, out, tries)
    }

    /// Writes the keys of the set from `from` down that are not below `least` into `out`, in
    /// descending order. It is like `scan`, in the other direction: of each other key of the range
    /// up to `from`, above the one at which to continue, it says that it was absent at a moment.
    pub fn scan_back(
        &self,
        worker: &mut Worker,
        from: Key,
        least: u64,
        out: &mut [u64],
        tries: u32,
    ) -> Result<Scanned, CallFault>
        requires { MayCall self.now worker.old }
        ensures { LeavesScan Left self.now.layout tries from least out.old out.new worker.old
            worker.new result }
    {
        self.scan_to(worker, Side::Left, from, least, out, tries)
    }

    /// Scans from `from` on to that side, up to the bound `to`, if no key is pending.
    #[inline(always)]
    fn scan_to(
        &self,
        worker: &mut Worker,
        side: Side,
        from: Key,
        to: u64,
        out: &mut [u64],
        tries: u32,
    ) -> Result<Scanned, CallFault>
        requires { MayCall self.now worker.old }
        ensures { LeavesScan side self.now.layout tries from to out.old out.new worker.old
            worker.new result }
    {
        if let Standing::Pending(_) = worker.standing {
            return Err(CallFault::Pending);
        }
        worker.pass.know_run();
        let answer = scan(&self.shared, &mut worker.pass, side, from, to, out, tries);
        worker.pass.know_run();
        answer
    }
}
