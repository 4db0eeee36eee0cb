//! The entries of a range, in a map that others change.
ghost use Rattle.std.specs.Prelude.{◌≡◌, IfErr};
ghost use Rattle.nm_edge.specs.declared.edge.Side.TheVariants.{Left, Right};
ghost use Rattle.nm_steps.specs.Values.{HasValues};
ghost use Rattle.nm_calls.specs.MapScans.{HadEntries, keys_of};
ghost use Rattle.nm_tree.specs.Calls.{MayCall};
ghost use Rattle.nm_tree.specs.Scanning.{LeavesScan};

use crate::tree::Tree;
use crate::worker::{Standing, Worker};
use nm_calls::{CallFault, MapEntry, Scanned, scan_with_values};
use nm_edge::{Key, Side};

impl Tree {
    /// Writes the entries of the map with a key from `from` on that is below `below` into `out`, in
    /// ascending order of the keys. It returns how many it wrote, and the key at which the next scan
    /// continues, like `scan`. The tree must have values.
    ///
    /// Proved (`finds`): for each entry that it wrote there was a moment (linearization point) of this
    /// call at which the map had the key with this value. Two entries may have different moments.
    /// Proved (`leaves`): what `scan` says of keys is so of the keys of the entries.
    ///
    /// Errors and cost are those of `scan`, and a look at the value of each key that it wrote.
    pub fn scan_with_values(
        &self,
        worker: &mut Worker,
        from: Key,
        below: u64,
        out: &mut [MapEntry],
        tries: u32,
    ) -> Result<Scanned, CallFault>
        requires call { MayCall self.now worker.old }
        requires values { HasValues self.now }
        ensures leaves { LeavesScan Right self.now.layout tries from below (keys_of out.old)
            (keys_of out.new) worker.old worker.new result }
        ensures finds { HadEntries worker.old.pass worker.new.pass out.new result }
        ensures kept { IfErr result (λ e. out.new ≡ out.old) }
    {
        self.scan_entries(worker, Side::Right, from, below, out, tries)
    }

    /// Writes the entries of the map with a key from `from` down that is not below `least` into `out`,
    /// in descending order of the keys. It is like `scan_with_values`, in the other direction.
    pub fn scan_back_with_values(
        &self,
        worker: &mut Worker,
        from: Key,
        least: u64,
        out: &mut [MapEntry],
        tries: u32,
    ) -> Result<Scanned, CallFault>
        requires call { MayCall self.now worker.old }
        requires values { HasValues self.now }
        ensures leaves { LeavesScan Left self.now.layout tries from least (keys_of out.old)
            (keys_of out.new) worker.old worker.new result }
        ensures finds { HadEntries worker.old.pass worker.new.pass out.new result }
        ensures kept { IfErr result (λ e. out.new ≡ out.old) }
    {
        self.scan_entries(worker, Side::Left, from, least, out, tries)
    }

    /// Scans for entries from `from` on to that side, up to the bound `to`, if no key is pending.
    #[inline(always)]
    fn scan_entries(
        &self,
        worker: &mut Worker,
        side: Side,
        from: Key,
        to: u64,
        out: &mut [MapEntry],
        tries: u32,
    ) -> Result<Scanned, CallFault>
        requires call { MayCall self.now worker.old }
        requires values { HasValues self.now }
        ensures leaves { LeavesScan side self.now.layout tries from to (keys_of out.old)
            (keys_of out.new) worker.old worker.new result }
        ensures finds { HadEntries worker.old.pass worker.new.pass out.new result }
        ensures kept { IfErr result (λ e. out.new ≡ out.old) }
    {
        if let Standing::Pending(_) = worker.standing {
            return Err(CallFault::Pending);
        }
        worker.pass.know_run();
        let answer = scan_with_values(&self.shared, &mut worker.pass, side, from, to, out, tries);
        worker.pass.know_run();
        answer
    }
}
