//! What a look-up has read, proved from the clauses of `nm_tree` and the page alone.
ghost use Rattle.std.specs.Prelude.{IfOk};
ghost use Rattle.nm_model.specs.declared.event.Op.TheVariants.{Has};
ghost use Rattle.nm_calls.specs.Moments.{AnswerHasMoment};
ghost use Rattle.nm_tree.specs.Calls.{LeavesHas, MayCall};
ghost use Rattle.nm_callers.specs.Reading.{ReadsWhatItWasTold};

use nm_edge::Key;
use nm_theorem::nobody_reads_another_node;
use nm_tree::{CallFault, Tree, Worker};

/// Looks up a key. Proved, about each node that its worker has touched so far, except the two with
/// which each walk begins and those that it held privately: the worker had learned of the node from
/// an edge, under the pin that it had then. From that read until the worker touched it, the slot
/// held the same node, in no pool and private to no worker, whatever others have cut off, freed and
/// used again meanwhile. (Fraser, section 5.2.3.)
pub fn look_where_told(
    tree: &Tree,
    worker: &mut Worker,
    key: Key,
    tries: u32,
) -> Result<bool, CallFault>
    requires may { MayCall tree.now worker.old }
    ensures moment { IfOk result (AnswerHasMoment worker.old.pass worker.new.pass Has key) }
    ensures leaves { LeavesHas tree.now.layout tries key worker.old worker.new result }
    ensures reads { ReadsWhatItWasTold worker.new.pass.view }
{
    let found = tree.has(worker, key, tries);
    worker.know_run();
    nobody_reads_another_node();
    found
}
