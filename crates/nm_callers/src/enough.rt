//! Managed calls of a set and of a map that are answered, because slots and memory suffice, proved from
//! the clauses of `nm_set` and the page alone.
ghost use Rattle.std.specs.Prelude.{◌≡◌, ◌≤◌, ℕ, None, Err};
ghost use Rattle.nm_progress.specs.Alone.{RunsAlone};
ghost use Rattle.nm_tree.specs.Answers.{LacksRoom};
ghost use Rattle.nm_set.specs.Managed.{of_insert};
ghost use Rattle.nm_callers.specs.Enough.{IsAnswer, StaysFree, WasInUse};

use nm_edge::Key;
use nm_set::{Condition, InsertFault, MapMember, Member, Options, PutOutcome};
use nm_tree::CallFault;

/// Inserts a key into a set, with at least one try. Proved: the call returns an answer if no other
/// worker has a remove pending before it or makes a transition during it, if a slot stays free all the
/// time, and if the worker's own queue has the room of a try afterwards.
pub fn insert_with_enough(
    member: &mut Member,
    key: Key,
    options: &Options,
) -> Result<bool, InsertFault>
    requires free { member.old.worker.held ≡ None }
    requires some { 1 ≤ options.now.tries }
    ensures tree { member.new.tree ≡ member.old.tree }
    ensures answered { RunsAlone member.old.worker.pass member.new.worker.pass
        → StaysFree member.old.worker.pass member.new.worker.pass
        → (LacksRoom member.new.worker → ⊥) → IsAnswer (of_insert result) }
{
    let inserted = member.insert(key, options);
    member.know_run();
    inserted
}

/// Removes a key from a set, with at least one try. Proved: the call returns an answer if no other worker
/// has a remove pending before it or makes a transition during it, and if the worker's own queue has the
/// room of a try afterwards.
pub fn remove_with_enough(
    member: &mut Member,
    key: Key,
    options: &Options,
) -> Result<bool, CallFault>
    requires free { member.old.worker.held ≡ None }
    requires some { 1 ≤ options.now.tries }
    ensures tree { member.new.tree ≡ member.old.tree }
    ensures answered { RunsAlone member.old.worker.pass member.new.worker.pass
        → (LacksRoom member.new.worker → ⊥) → IsAnswer result }
{
    member.remove(key, options)
}

/// Inserts a key with a value into a map. Proved: the same as of `insert_with_enough`.
pub fn put_with_enough(
    member: &mut MapMember,
    key: Key,
    value: u64,
    options: &Options,
) -> Result<bool, CallFault>
    requires free { member.old.worker.held ≡ None }
    requires some { 1 ≤ options.now.tries }
    ensures tree { member.new.tree ≡ member.old.tree }
    ensures answered { RunsAlone member.old.worker.pass member.new.worker.pass
        → StaysFree member.old.worker.pass member.new.worker.pass
        → (LacksRoom member.new.worker → ⊥) → IsAnswer result }
{
    let mut found = 0;
    let inserted = member.insert(key, value, &mut found, options);
    member.know_run();
    inserted
}

/// Gives a key of a map a value, whether the map has the key or not. Proved: if the call is `Full`, each
/// slot was in use at a moment of the call: a worker was about to use it, or it had a node of the tree,
/// or a node that was cut off waited in it. (Or all its 2^62 births are used.) Each slot has a moment of its
/// own, so a slot may be free again when the call returns.
pub fn put_unless_full(
    member: &mut MapMember,
    key: Key,
    value: u64,
    options: &Options,
) -> Result<PutOutcome, CallFault>
    ensures tree { member.new.tree ≡ member.old.tree }
    ensures used { result ≡ Err CallFault.Full → (slot : ℕ) → 6 ≤ slot
        → slot ≤ member.new.worker.pass.view.layout.nodes
        → WasInUse member.old.worker.pass member.new.worker.pass slot }
{
    let put = member.put(key, value, Condition::Always, options);
    member.know_run();
    put
}

/// Removes a key from a map. Proved: the same as of `remove_with_enough`.
pub fn take_with_enough(
    member: &mut MapMember,
    key: Key,
    taken: &mut u64,
    options: &Options,
) -> Result<bool, CallFault>
    requires free { member.old.worker.held ≡ None }
    requires some { 1 ≤ options.now.tries }
    ensures tree { member.new.tree ≡ member.old.tree }
    ensures answered { RunsAlone member.old.worker.pass member.new.worker.pass
        → (LacksRoom member.new.worker → ⊥) → IsAnswer result }
{
    member.remove(key, taken, options)
}
