//! The bounds of a call on a radix tree, proved from the clauses of `nm_tree` alone.
ghost use Rattle.std.specs.Prelude.{◌≡◌, ◌⊎◌, ◌≤◌, ◌+◌, ◌*◌, true, length, IsErrOf};
ghost use Rattle.nm_model.specs.declared.event.Event.TheVariants.{SightFor};
ghost use Rattle.nm_model.specs.declared.event.Op.TheVariants.{Has};
ghost use Rattle.nm_epoch.specs.Tries.{IsMoved};
ghost use Rattle.nm_tree.specs.Calls.{MayCall};

use nm_edge::Key;
use nm_tree::{CallFault, Tree, Worker};

/// Looks up a key in a radix tree. Proved: it is busy only if it has no try, or the epoch moved on
/// in each of its tries to pin; no walk is given up, whatever other workers do meanwhile. Proved:
/// only its tries bound its steps, whatever the tree holds.
pub fn look_in_radix(
    tree: &Tree,
    worker: &mut Worker,
    key: Key,
    tries: u32,
) -> Result<bool, CallFault>
    requires may { MayCall tree.now worker.old }
    requires radix { tree.now.layout.radix ≡ true }
    ensures busy { IsErrOf result CallFault.Busy
        → (tries ≡ 0)
        ⊎ IsMoved (SightFor Has key) tries worker.old.pass.view.log worker.new.pass.view.log }
    ensures steps { length worker.new.pass.view.log
        ≤ length worker.old.pass.view.log + tries * 776 + 10 }
{
    tree.has(worker, key, tries)
}
