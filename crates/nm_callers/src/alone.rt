//! Calls of a worker during which no other worker makes a transition, proved from the clauses of
//! `nm_tree` and `nm_set` alone.
ghost use Rattle.std.specs.Prelude.{◌≡◌, ◌<◌, ◌≤◌, ◌+◌, ◌*◌, None, IsErrOf};
ghost use Rattle.nm_progress.specs.Alone.{IsAlone, RunsAlone};
ghost use Rattle.nm_tree.specs.Calls.{MayCall};
ghost use Rattle.nm_set.specs.Managed.{of_insert};
ghost use Rattle.nm_callers.specs.AnsweredAlone.{IsAnswered, IsAnsweredWithRoom};

use nm_edge::Key;
use nm_set::{InsertFault, Member, Options};
use nm_tree::{CallFault, Query, Tree, Worker};

/// Looks up a key with at least one try. Proved: it is not busy if no other worker makes a
/// transition (turn) during the call.
pub fn look_alone(tree: &Tree, worker: &mut Worker, key: Key, tries: u32) -> Result<bool, CallFault>
    requires may { MayCall tree.now worker.old }
    requires some { 1 ≤ tries }
    ensures { IsAlone worker.old.pass worker.new.pass → IsErrOf result CallFault.Busy → ⊥ }
{
    tree.has(worker, key, tries)
}

/// Looks up several keys with at least one try. Proved: it is not busy if no other worker makes a
/// transition during the call.
pub fn look_many_alone(
    tree: &Tree,
    worker: &mut Worker,
    queries: &mut [Query],
    tries: u32,
) -> Result<(), CallFault>
    requires may { MayCall tree.now worker.old }
    requires some { 1 ≤ tries }
    ensures { IsAlone worker.old.pass worker.new.pass → IsErrOf result CallFault.Busy → ⊥ }
{
    tree.has_many(worker, queries, tries)
}

/// Finds the next key with at least two tries. Proved: it is not busy if no other worker makes a
/// transition during the call.
pub fn next_alone(
    tree: &Tree,
    worker: &mut Worker,
    key: Key,
    tries: u32,
) -> Result<Option<Key>, CallFault>
    requires may { MayCall tree.now worker.old }
    requires two { 2 ≤ tries }
    ensures { IsAlone worker.old.pass worker.new.pass → IsErrOf result CallFault.Busy → ⊥ }
{
    tree.next(worker, key, tries)
}

/// Inserts a key with at least one try. Proved: it is not busy if no other worker has a delete
/// pending before, and no other worker makes a transition during the call.
pub fn insert_alone(
    tree: &Tree,
    worker: &mut Worker,
    key: Key,
    tries: u32,
) -> Result<bool, CallFault>
    requires may { MayCall tree.now worker.old }
    requires some { 1 ≤ tries }
    ensures { RunsAlone worker.old.pass worker.new.pass → IsErrOf result CallFault.Busy → ⊥ }
{
    tree.insert(worker, key, tries)
}

/// Inserts a key and deletes it, each with at least two tries. Proved: if no other worker has a
/// delete pending before, and no other worker makes a transition meanwhile, both calls are
/// answered. The exceptions are a lack of slots and of memory.
pub fn insert_then_delete_alone(
    tree: &Tree,
    worker: &mut Worker,
    key: Key,
    tries: u32,
) -> (Result<bool, CallFault>, Result<bool, CallFault>)
    requires may { MayCall tree.now worker.old }
    requires free { worker.old.pending ≡ None }
    requires two { 2 ≤ tries }
    ensures { RunsAlone worker.old.pass worker.new.pass
        → IsAnswered result.0 × IsAnsweredWithRoom worker.new result.1 }
{
    let inserted = tree.insert(worker, key, tries);
    let deleted = tree.delete(worker, key, tries);
    (inserted, deleted)
}

/// Inserts a key and removes it by managed calls, each with at least one try. Proved: if no other
/// worker has a remove pending before, and no other worker makes a transition meanwhile, both calls
/// are answered. The exceptions are a lack of slots and of memory.
pub fn insert_then_remove_alone(
    member: &mut Member,
    key: Key,
    options: &Options,
) -> (Result<bool, InsertFault>, Result<bool, CallFault>)
    requires free { member.old.worker.held ≡ None }
    requires none { member.old.worker.pending ≡ None }
    requires some { 1 ≤ options.now.tries }
    ensures tree { member.new.tree ≡ member.old.tree }
    ensures answered { RunsAlone member.old.worker.pass member.new.worker.pass
        → IsAnswered (of_insert result.0) × IsAnsweredWithRoom member.new.worker result.1 }
{
    let inserted = member.insert(key, options);
    let removed = member.remove(key, options);
    (inserted, removed)
}

/// Inserts a key by a managed call, with more tries in all than the tree has workers. Proved: if no
/// other worker makes a transition during the call, it is answered, even if other workers have removes
/// pending. The exceptions are a lack of slots and of memory.
pub fn insert_beside_pending(
    member: &mut Member,
    key: Key,
    options: &Options,
) -> Result<bool, InsertFault>
    requires free { member.old.worker.held ≡ None }
    requires many { member.old.worker.pass.view.layout.workers
        < (options.now.rounds + 1) * options.now.tries }
    ensures tree { member.new.tree ≡ member.old.tree }
    ensures answered { IsAlone member.old.worker.pass member.new.worker.pass
        → IsAnsweredWithRoom member.new.worker (of_insert result) }
{
    member.know_run();
    let inserted = member.insert(key, options);
    member.know_run();
    inserted
}

/// Removes a key by a managed call, with more tries in all than the tree has workers. Proved: the same
/// as of `insert_beside_pending`.
pub fn remove_beside_pending(
    member: &mut Member,
    key: Key,
    options: &Options,
) -> Result<bool, CallFault>
    requires free { member.old.worker.held ≡ None }
    requires many { member.old.worker.pass.view.layout.workers
        < (options.now.rounds + 1) * options.now.tries }
    ensures tree { member.new.tree ≡ member.old.tree }
    ensures answered { IsAlone member.old.worker.pass member.new.worker.pass
        → IsAnsweredWithRoom member.new.worker result }
{
    member.know_run();
    let removed = member.remove(key, options);
    member.know_run();
    removed
}

/// Looks up a key by a member that may have a remove of an earlier call pending. Proved: if no other
/// worker has a remove pending before, and no other worker makes a transition meanwhile, the call
/// finishes that remove and returns an answer. The exception is a lack of memory.
pub fn finish_then_look_alone(
    member: &mut Member,
    key: Key,
    options: &Options,
) -> Result<bool, CallFault>
    requires free { member.old.worker.held ≡ None }
    requires some { 1 ≤ options.now.tries }
    ensures tree { member.new.tree ≡ member.old.tree }
    ensures answered { RunsAlone member.old.worker.pass member.new.worker.pass
        → IsAnsweredWithRoom member.new.worker result }
{
    member.contains(key, options)
}

/// Pops the least key of a tree with at least two tries. Proved: if no other worker has a delete
/// pending before, and no other worker makes a transition during the call, it returns an answer. The
/// exception is a lack of memory.
pub fn pop_first_alone(
    tree: &Tree,
    worker: &mut Worker,
    tries: u32,
) -> Result<Option<Key>, CallFault>
    requires may { MayCall tree.now worker.old }
    requires free { worker.old.pending ≡ None }
    requires two { 2 ≤ tries }
    ensures { RunsAlone worker.old.pass worker.new.pass → IsAnsweredWithRoom worker.new result }
{
    tree.pop_first(worker, tries)
}

/// Pops the least key by a managed call with at least two tries. Proved: if no other worker has a
/// remove pending before, and no other worker makes a transition during the call, it returns an
/// answer. The exception is a lack of memory.
pub fn pop_alone(member: &mut Member, options: &Options) -> Result<Option<Key>, CallFault>
    requires free { member.old.worker.held ≡ None }
    requires two { 2 ≤ options.now.tries }
    ensures tree { member.new.tree ≡ member.old.tree }
    ensures answered { RunsAlone member.old.worker.pass member.new.worker.pass
        → IsAnsweredWithRoom member.new.worker result }
{
    member.pop_first(options)
}
