//! Workers that read a range of keys. That the set stays as it is during a worker's own scans is
//! proved from laws of runs, and all else from the clauses of `nm_tree` and the page alone.
ghost use Rattle.std.specs.Prelude.{◌≡◌, ◌≤◌, ℕ, IfOk, IfSome, IsErrOf, Contains, length, take};
ghost use Rattle.nm_edge.specs.Keys.{IsKey};
ghost use Rattle.nm_edge.specs.declared.edge.Side.TheVariants.{Left, Right};
ghost use Rattle.nm_calls.specs.NearKeys.{bound};
ghost use Rattle.nm_calls.specs.Scans.{IsFull, IsIn, end_of};
ghost use Rattle.nm_progress.specs.Alone.{IsAlone};
ghost use Rattle.nm_tree.specs.Calls.{MayCall};
ghost use Rattle.nm_callers.specs.Taking.{AbsentThroughout, StandsThroughout, StaysThroughout};

use nm_edge::Key;
use nm_tree::{CallFault, Scanned, Tree, Worker};

/// Reads a range of keys in ascending order. `None`: the scan returned an error. Proved, about each
/// key of the range before the one at which to continue: if it was in the set all the time, it is
/// read; if it was absent all the time, it is not. So a range is read exactly, if other workers
/// insert and delete keys outside of it alone.
pub fn read_range(
    tree: &Tree,
    worker: &mut Worker,
    from: Key,
    below: u64,
    out: &mut [u64],
    tries: u32,
) -> Option<Scanned>
    requires may { MayCall tree.now worker.old }
    ensures found { (k : ℕ) → IsKey k
        → StandsThroughout worker.new.pass.view.layout worker.old.pass.view.past
        worker.new.pass.view.past k
        → IfSome result (λ s. IsIn Right from (end_of Right below s.next) k
        → Contains (take s.count out.new) k) }
    ensures missed { (k : ℕ)
        → AbsentThroughout worker.new.pass.view.layout worker.old.pass.view.past
        worker.new.pass.view.past k
        → IfSome result (λ s. Contains (take s.count out.new) k → ⊥) }
{
    match tree.scan(worker, from, below, out, tries) {
        Ok(scanned) => Some(scanned),
        Err(_) => None,
    }
}

/// Reads a range of keys in descending order. `None`: the scan returned an error. Proved: the same
/// as of `read_range`.
pub fn read_range_back(
    tree: &Tree,
    worker: &mut Worker,
    from: Key,
    least: u64,
    out: &mut [u64],
    tries: u32,
) -> Option<Scanned>
    requires may { MayCall tree.now worker.old }
    ensures found { (k : ℕ) → IsKey k
        → StandsThroughout worker.new.pass.view.layout worker.old.pass.view.past
        worker.new.pass.view.past k
        → IfSome result (λ s. IsIn Left (bound Left from) (end_of Left least s.next) k
        → Contains (take s.count out.new) k) }
    ensures missed { (k : ℕ)
        → AbsentThroughout worker.new.pass.view.layout worker.old.pass.view.past
        worker.new.pass.view.past k
        → IfSome result (λ s. Contains (take s.count out.new) k → ⊥) }
{
    match tree.scan_back(worker, from, least, out, tries) {
        Ok(scanned) => Some(scanned),
        Err(_) => None,
    }
}

/// Reads a range of keys in ascending order, with at least two tries. Proved: if no other worker
/// makes a transition during the scan, it is not busy, and it ends with the range, unless `out` is
/// full.
pub fn read_alone(
    tree: &Tree,
    worker: &mut Worker,
    from: Key,
    below: u64,
    out: &mut [u64],
    tries: u32,
) -> Result<Scanned, CallFault>
    requires may { MayCall tree.now worker.old }
    requires two { 2 ≤ tries }
    ensures answered { IsAlone worker.old.pass worker.new.pass
        → IsErrOf result CallFault.Busy → ⊥ }
    ensures whole { IsAlone worker.old.pass worker.new.pass
        → IfOk result (λ s. IfSome s.next (λ k. IsFull (length out.new) s.count)) }
{
    tree.scan(worker, from, below, out, tries)
}

/// How far two scans of one range have come.
#[derive(Clone, Copy, Debug)]
pub struct ReadTwice {
    pub first: Scanned,
    pub second: Scanned,
}

/// Reads a range of keys twice. `None`: a scan returned an error. Proved, about each key that both
/// scans have answered: if the set had it all the time, or at no time, either both have read it or
/// neither has. If no other worker makes a transition meanwhile, this is so of each key
/// (`unchanged`); both scans have read the same keys if they have come equally far (`same`); and
/// with two tries each of them has come to the end of the range, unless its slice is full
/// (`whole`).
pub fn read_twice(
    tree: &Tree,
    worker: &mut Worker,
    from: Key,
    below: u64,
    one: &mut [u64],
    two: &mut [u64],
    tries: u32,
) -> Option<ReadTwice>
    requires may { MayCall tree.now worker.old }
    ensures agree { (k : ℕ) → IsKey k
        → StaysThroughout worker.new.pass.view.layout worker.old.pass.view.past
        worker.new.pass.view.past k
        → IfSome result (λ r. IsIn Right from (end_of Right below r.first.next) k
        → IsIn Right from (end_of Right below r.second.next) k
        → (Contains (take r.first.count one.new) k → Contains (take r.second.count two.new) k)
        × (Contains (take r.second.count two.new) k → Contains (take r.first.count one.new) k)) }
    ensures unchanged { IsAlone worker.old.pass worker.new.pass → IfSome result (λ r. (k : ℕ)
        → StaysThroughout worker.new.pass.view.layout worker.old.pass.view.past
        worker.new.pass.view.past k) }
    ensures same { IsAlone worker.old.pass worker.new.pass
        → IfSome result (λ r. r.first.next ≡ r.second.next
        → take r.first.count one.new ≡ take r.second.count two.new) }
    ensures whole { IsAlone worker.old.pass worker.new.pass → 2 ≤ tries
        → IfSome result (λ r. IfSome r.first.next (λ k. IsFull (length one.new) r.first.count)
        × IfSome r.second.next (λ k. IsFull (length two.new) r.second.count)) }
{
    worker.know_run();
    let Ok(first) = tree.scan(worker, from, below, one, tries) else {
        return None;
    };
    let Ok(second) = tree.scan(worker, from, below, two, tries) else {
        return None;
    };
    worker.know_run();
    Some(ReadTwice { first, second })
}
