//! Calls of a tree under contention: if one is busy, others made progress meanwhile.
ghost use Rattle.std.specs.Prelude.{◌≡◌, true, IsErrOf};
ghost use Rattle.nm_model.specs.declared.event.Op.TheVariants.{Has};
ghost use Rattle.nm_tree.specs.Calls.{MayCall};
ghost use Rattle.nm_set.specs.Managed.{MetInterference};
ghost use Rattle.nm_callers.specs.Beside.{GotOn, MetInterferenceByHalf};

use nm_edge::Key;
use nm_tree::{CallFault, Query, Tree, Worker};

/// Inserts a key. Proved: it is busy only if others made progress (`GotOn`) at least as often as
/// the call had tries.
pub fn insert_beside(
    tree: &Tree,
    worker: &mut Worker,
    key: Key,
    tries: u32,
) -> Result<bool, CallFault>
    requires may { MayCall tree.now worker.old }
    ensures { IsErrOf result CallFault.Busy → GotOn worker.old.pass worker.new.pass tries }
{
    tree.insert(worker, key, tries)
}

/// Deletes a key. Proved: it is busy only if others made progress (`GotOn`) at least as often as
/// the call had tries.
pub fn delete_beside(
    tree: &Tree,
    worker: &mut Worker,
    key: Key,
    tries: u32,
) -> Result<bool, CallFault>
    requires may { MayCall tree.now worker.old }
    ensures { IsErrOf result CallFault.Busy → GotOn worker.old.pass worker.new.pass tries }
{
    tree.delete(worker, key, tries)
}

/// Looks up several keys in a radix tree. Proved: it is busy only if others interfered
/// (`MetInterference`) at least as often as the call had tries.
pub fn look_many_beside(
    tree: &Tree,
    worker: &mut Worker,
    queries: &mut [Query],
    tries: u32,
) -> Result<(), CallFault>
    requires may { MayCall tree.now worker.old }
    requires radix { tree.now.layout.radix ≡ true }
    ensures { IsErrOf result CallFault.Busy → MetInterference Has worker.old.pass worker.new.pass tries }
{
    tree.has_many(worker, queries, tries)
}

/// Finds the next key in a radix tree. Proved: it is busy only if others interfered
/// (`MetInterference`) at least half as often as the call had tries.
pub fn next_beside(
    tree: &Tree,
    worker: &mut Worker,
    key: Key,
    tries: u32,
) -> Result<Option<Key>, CallFault>
    requires may { MayCall tree.now worker.old }
    requires radix { tree.now.layout.radix ≡ true }
    ensures { IsErrOf result CallFault.Busy
        → MetInterferenceByHalf worker.old.pass worker.new.pass tries }
{
    tree.next(worker, key, tries)
}

/// Finds the previous key in a radix tree. Proved: it is busy only if others interfered
/// (`MetInterference`) at least half as often as the call had tries.
pub fn prev_beside(
    tree: &Tree,
    worker: &mut Worker,
    key: Key,
    tries: u32,
) -> Result<Option<Key>, CallFault>
    requires may { MayCall tree.now worker.old }
    requires radix { tree.now.layout.radix ≡ true }
    ensures { IsErrOf result CallFault.Busy
        → MetInterferenceByHalf worker.old.pass worker.new.pass tries }
{
    tree.prev(worker, key, tries)
}
