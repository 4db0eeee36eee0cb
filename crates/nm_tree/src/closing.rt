//! The close of a tree.
ghost use Rattle.std.specs.Prelude.{◌≡◌, ◌<◌, ◌≤◌, [], All, length, min, vec_capacity, IfOk, IfErr};
ghost use Rattle.nm_steps.specs.Rules.{Extends, ExtendsStores};
ghost use Rattle.nm_steps.specs.Steps.{HasSeen, IsOf};
ghost use Rattle.nm_steps.specs.Values.{HasValues};
ghost use Rattle.nm_order.specs.History.{RunHasHistory};
ghost use Rattle.nm_order.specs.LoggedTotals.{TotalsAreInTheLogs};
ghost use Rattle.nm_order.specs.Totals.{TotalsAgree};
ghost use Rattle.nm_tree.specs.Closing.{AllWereGiven, AreAllOf, EachReportIsACores, EachSlotEndsOnce, IsClosed, IsCloseReason, SaysClosed};
ghost use Rattle.nm_tree.specs.Closing.{OfEachClosed, OfEachClosedRun, QueuesAreTheRest, StandsForAll, all_merged, given_in};
ghost use Rattle.nm_tree.specs.MapReports.{EndsMap};
ghost use Rattle.nm_tree.specs.Once.{EachReachedNodeEndsOnce, EachStoredValueEndsOnce};
ghost use Rattle.nm_tree.specs.Workers.{WorkerView};

use crate::reporting::{Found, ReportRoom, read};
use crate::resigning::{Heir, unite};
use crate::tree::Tree;
use crate::worker::Worker;
use nm_edge::{Key, Layout};
use nm_epoch::HeldQueue;
use nm_steps::{Shared, Words};
use thiserror::Error;

/// Why a tree or a set was not closed.
#[derive(Clone, Copy, Debug, Error, PartialEq, Eq)]
pub enum CloseReason {
    /// Fewer workers were given than the tree has. Those that resigned count with their heirs.
    #[error("{given} of {made} workers were given")]
    NotAll { given: u32, made: u32 },
    /// The room of the report, or of its queues, was refused.
    #[error("there is no memory for the report")]
    NoMemory,
    /// A member of the set is not closed yet, or is being closed at this moment. Only the close of
    /// a set returns this.
    #[error("a member is not closed")]
    Attached,
}

/// A tree was not closed. The tree and the workers that were given are unchanged.
#[derive(Drop)]
pub struct CloseError {
    pub reason: CloseReason,
    pub tree: Tree,
    pub workers: Vec<Worker>,
}

/// What a tree held when it was closed. The free slots, the reached slots and the waiting nodes are
/// together all its nodes, except for the five fixed ones.
#[derive(Drop)]
pub struct Report {
    /// The nodes that wait, oldest first, with their labels, and the counts of each worker. There
    /// is one queue for each worker, in the order of the workers' numbers.
    pub queues: Vec<HeldQueue>,
    /// The keys of the set, ascending, including those of leaves that are flagged and not cut off.
    pub keys: Vec<Key>,
    /// The number of slots in the pool.
    pub free: u32,
    /// The number of slots that are reached from the root, without the five fixed ones.
    pub reached: u32,
}

/// What is left of a tree that has ended.
#[derive(Drop)]
pub struct Ended {
    pub report: Report,
    /// The slot of the leaf of each key of the report, in their order.
    pub leaves: Vec<u32>,
    /// The words of the tree, with the value of each slot, if it has values.
    pub words: Words,
    /// The sizes of the tree.
    pub layout: Layout,
}

impl Ended {
    /// Returns the report, and drops the words.
    pub fn into_report(self) -> Report
        ensures { result ≡ self.report }
    {
        let Self {
            report,
            leaves: _,
            words: _,
            layout: _,
        } = self;
        report
    }
}

impl Tree {
    /// Closes the tree and all its workers, and returns what is left. The workers may be given in
    /// any order. A caller may have pinned them, and keys may be pending. A worker that resigned is
    /// given with its heir.
    ///
    /// Errors: `NotAll`: fewer workers were given than the tree has. `NoMemory`: the room of the
    /// report, or of its queues, was refused. The tree and its workers are given back unchanged.
    ///
    /// Cost: at most one step for each worker, and none for the last. All memory is taken before
    /// the first step.
    pub fn close(self, workers: Vec<Worker>) -> Result<Report, CloseError>
        requires own { AreAllOf self workers.items }
        ensures says { IfOk result
            (λ r. SaysClosed self workers.items r.queues.items r.keys.items r.free r.reached) }
        ensures refused { IfErr result
            (λ e. IsCloseReason self workers.items e.reason × (e.tree ≡ self)
            × (e.workers.items ≡ workers.items)) }
    {
        Ok(self.end(workers)?.into_report())
    }

    /// Closes the tree and all its workers, like `close`, and returns its words too. The values of a
    /// map are among them: `Ended::into_map_report`.
    ///
    /// Errors and cost: those of `close`.
    pub fn end(self, workers: Vec<Worker>) -> Result<Ended, CloseError>
        requires own { AreAllOf self workers.items }
        ensures says { IfOk result (λ r. SaysClosed self workers.items r.report.queues.items
            r.report.keys.items r.report.free r.report.reached) }
        ensures closed { IfOk result (λ r. IsClosed self workers.items r.report.queues.items
            r.report.keys.items r.report.free r.report.reached) }
        ensures values { HasValues self → IfOk result (λ r. EndsMap self workers.items
            r.report.queues.items r.report.keys.items r.leaves.items r.words r.layout
            r.report.free r.report.reached) }
        ensures refused { IfErr result
            (λ e. IsCloseReason self workers.items e.reason × (e.tree ≡ self)
            × (e.workers.items ≡ workers.items)) }
    {
        let layout = self.shared.layout();
        let made = layout.workers();
        let given = count_given(workers.as_slice());
        if given < made {
            return Err(CloseError {
                reason: CloseReason::NotAll { given, made },
                tree: self,
                workers,
            });
        }
        let alloc = *workers.allocator();
        let Ok(queues) = Vec::with_capacity(alloc, made as usize) else {
            return Err(CloseError {
                reason: CloseReason::NoMemory,
                tree: self,
                workers,
            });
        };
        let Ok(room) = ReportRoom::new(alloc, layout) else {
            return Err(CloseError {
                reason: CloseReason::NoMemory,
                tree: self,
                workers,
            });
        };
        Ok(close_all(self, workers, room, queues))
    }
}

/// Closes the tree, given all its workers, and room for all their queues.
fn close_all(tree: Tree, workers: Vec<Worker>, room: ReportRoom, queues: Vec<HeldQueue>) -> Ended
    requires own { AreAllOf tree workers.items }
    requires all { tree.layout.workers ≤ given_in workers.items }
    requires room { room ≡ tree.layout }
    requires empty { queues.items ≡ [] }
    requires queues { tree.layout.workers ≤ vec_capacity queues }
    ensures says { SaysClosed tree workers.items result.report.queues.items
        result.report.keys.items result.report.free result.report.reached }
    ensures closed { IsClosed tree workers.items result.report.queues.items
        result.report.keys.items result.report.free result.report.reached }
    ensures values { HasValues tree → EndsMap tree workers.items result.report.queues.items
        result.report.keys.items result.leaves.items result.words result.layout result.report.free
        result.report.reached }
{
    let Tree { shared } = tree;
    let Heir {
        pass,
        queues,
        home: _,
        standing: _,
        workspace: _,
    } = unite_all(&shared, workers, queues);
    pass.know_run();
    let layout = shared.layout();
    let words = shared.close(pass);
    let Found {
        keys,
        leaves,
        free,
        reached,
    } = read(&words, room);
    Ended {
        report: Report {
            queues,
            keys,
            free,
            reached,
        },
        leaves,
        words,
        layout,
    }
}

/// Law: for every tree that was closed, exactly as many workers were given as it has. What the
/// splices of each worker cut off is what was freed of it, followed by its queue in the report.
/// Each slot above 5 is at exactly one place: in the pool, on a path from the root, or at an index
/// of a queue.
pub fn closed_trees_are_accounted_for()
    ensures given { AllWereGiven }
    ensures accounted { OfEachClosed QueuesAreTheRest }
    ensures once { OfEachClosed EachSlotEndsOnce }
{}

/// Law: for every tree that was closed, each node in a slot above 5 that a path from the root ever
/// reached is at exactly one place: on a path from the root, at an index of a queue of the report, or
/// among the freed nodes, once. So is each leaf for which a value was stored.
pub fn linked_leaves_end_once()
    ensures nodes { OfEachClosed EachReachedNodeEndsOnce }
    ensures values { OfEachClosed EachStoredValueEndsOnce }
{}

/// Law: for every tree that was closed, the run that ends with its words is a run like any other.
/// After it a core reports the same keys and counts, and no private slot. The run has a history.
/// For each key, the calls for it won one link more than flags, and the key is on an unflagged
/// edge; or they won as many links as flags, and it is not. These links and flags are those in the
/// logs of all workers.
///
/// The law is for those who change this project.
pub fn runs_of_closed_trees_are_runs()
    ensures told { EachReportIsACores }
    ensures history { OfEachClosedRun RunHasHistory }
    ensures totals { OfEachClosedRun TotalsAgree }
    ensures logs { OfEachClosedRun TotalsAreInTheLogs }
{}

/// Unites these workers in one, which holds all their queues, in this room.
fn unite_all(shared: &Shared, mut workers: Vec<Worker>, room: Vec<HeldQueue>) -> Heir
    requires own { AreAllOf shared.now workers.items }
    requires some { 1 ≤ length workers.items }
    requires empty { room.items ≡ [] }
    requires room { shared.now.layout.workers ≤ vec_capacity room }
    ensures own { IsOf shared.now result.pass }
    ensures joined { StandsForAll workers.items result.pass.view }
    ensures seen { All (λ (w : WorkerView). Extends result.pass.view.past w.pass.view.past)
        workers.items }
    ensures stores { All (λ (w : WorkerView). ExtendsStores result.pass.view.stores
        w.pass.view.stores) workers.items }
    ensures runs { All (λ (w : WorkerView). HasSeen w.pass.view) workers.items }
    ensures queues { result.queues ≡ all_merged workers.items }
{
    let Some(last) = workers.pop() else {
        unreachable!()
    };
    last.know_run();
    let mut heir = Heir::of(last, room);
    while let Some(leaver) = workers.pop() {
        leaver.know_run();
        heir = unite(shared, heir, leaver);
    }
    heir
}

/// Returns how many workers these cover: themselves and those that resigned to them; 2^32 - 1 if
/// there are more.
fn count_given(workers: &[Worker]) -> u32
    ensures { result ≡ min (given_in workers.now) 4294967295 }
{
    let Some((first, rest)) = workers.split_first() else {
        return 0;
    };
    first.origins().saturating_add(count_given(rest))
}
