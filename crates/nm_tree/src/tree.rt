//! The tree that workers share.
ghost use Rattle.std.specs.Prelude.{◌≡◌, ◌↔◌, length, IfOk, IfErr, IsErrOf};
ghost use Rattle.nm_edge.specs.Layouts.{IsLayoutFault, dense};
ghost use Rattle.nm_steps.specs.Steps.{AreFresh};
ghost use Rattle.nm_steps.specs.Values.{HasValues};
ghost use Rattle.nm_tree.specs.Trees.{IsNewTree};
ghost use Rattle.nm_tree.specs.Workers.{AreAllFresh, AreMade, IsFresh, IsNewWorker};

use crate::worker::{Standing, Worker};
use nm_edge::{FIRST_SLOT, Fit, Layout, LayoutError, MOST_NODES, Placement};
use nm_epoch::HeldQueue;
use nm_model::NewError;
use nm_steps::{Pass, Shared};
use nm_walks::Workspace;
use std::alloc::{AllocError, Global};
use std::marker::Model;

/// A set of keys, the integers from 0 to 2^64 - 4, which threads share.
#[derive(Drop)]
pub struct Tree {
    pub(crate) shared: Shared,
}

impl Model for Tree {
    ghost use Rattle.nm_steps.specs.Steps.{TreeView};

    ghost Value = { TreeView };

    ghost view = { λ t. t.shared };
}

impl Tree {
    /// Makes the empty set and its workers, with room for `nodes` nodes, 7 to 1,048,576, which
    /// include the five fixed ones. It has 1 to 64 workers, in the order of their numbers from 0
    /// on. A key takes two nodes, and a removed node is free again some time after its removal. A
    /// new node takes the lowest slot that its worker finds free. It is `of`, with the layout of
    /// `Layout::new` and `Fit::FirstFit`.
    ///
    /// Errors: `Nodes`, `Workers`: the number is out of range. `NoMemory`: nothing is kept. The
    /// room in which a worker may take over the queues of others is made here.
    pub fn new(alloc: Global, nodes: u32, workers: u32) -> Result<(Tree, Vec<Worker>), NewError>
        ensures new { IfOk result (λ r. IsNewTree (dense nodes workers) Fit.FirstFit r.0 r.1.items) }
        ensures nodes { IsErrOf result NewError.Nodes
            ↔ IsLayoutFault MOST_NODES nodes workers LayoutError.Nodes }
        ensures workers { IsErrOf result NewError.Workers
            ↔ IsLayoutFault MOST_NODES nodes workers LayoutError.Workers }
    {
        Tree::of(alloc, Layout::new(nodes, workers)?, Fit::FirstFit)
    }

    /// Makes the empty set of a layout and its workers, which claim by that fit.
    ///
    /// With `Layout::spaced`, workers in different threads disturb each other less. It takes a
    /// little more than 32 bytes for each node and 4,096 for each worker, the same again while it
    /// is made, and time for each node. In a layout `in_radix` no walk takes more than 66 nodes.
    ///
    /// With `Fit::NextFit` a claim takes few steps if most slots are free, and no clause says which
    /// slot a new node takes. The worker tries the last slot given back that it remembers, or else
    /// the first one that the row of the slot which it found last shows to be free; a row has 64
    /// slots. Otherwise it searches from that row upwards, and round. The workers begin at equal
    /// distances. (Tested: which slot is tried.)
    ///
    /// Errors: `NoMemory`: nothing is kept. No other error occurs.
    ///
    /// (Next fit: Knuth, The Art of Computer Programming, volume 1, section 2.5.)
    pub fn of(alloc: Global, layout: Layout, fit: Fit) -> Result<(Tree, Vec<Worker>), NewError>
        ensures new { IfOk result (λ r. IsNewTree layout fit r.0 r.1.items) }
        ensures memory { IfErr result (λ e. e ≡ NewError.NoMemory) }
    {
        let (shared, passes) = Shared::new(alloc, layout)?;
        Ok(with_workers(alloc, shared, passes, fit)?)
    }

    /// Makes the empty map of a layout and its workers, which claim by that fit. It is the set of
    /// `of` with a value, an integer, under each key: `insert_with_value` stores it, and `get`
    /// returns it. All other calls are those of a set; `insert` stores 0. It takes 8 bytes more for
    /// each node.
    ///
    /// Errors: `NoMemory`: nothing is kept. No other error occurs.
    pub fn with_values(
        alloc: Global,
        layout: Layout,
        fit: Fit,
    ) -> Result<(Tree, Vec<Worker>), NewError>
        ensures new { IfOk result (λ r. IsNewTree layout fit r.0 r.1.items) }
        ensures values { IfOk result (λ r. HasValues r.0) }
        ensures memory { IfErr result (λ e. e ≡ NewError.NoMemory) }
    {
        let (shared, passes) = Shared::with_values(alloc, layout)?;
        Ok(with_workers(alloc, shared, passes, fit)?)
    }
}

/// Makes a tree of these words, and its workers of these passes.
fn with_workers(
    alloc: Global,
    shared: Shared,
    passes: Vec<Pass>,
    fit: Fit,
) -> Result<(Tree, Vec<Worker>), AllocError>
    requires count { length passes.items ≡ shared.layout.workers }
    requires fresh { AreFresh shared 0 passes.items }
    ensures new { IfOk result (λ r. IsNewTree shared.layout fit r.0 r.1.items) }
    ensures tree { IfOk result (λ r. r.0 ≡ shared) }
{
    let layout = shared.layout();
    // The cursors begin at equal distances.
    let share = layout.nodes() / layout.workers().max(1);
    let made = workers_of(alloc, passes, fit, share)?;
    Ok((Tree { shared }, made))
}

/// Makes the worker of a pass that has done nothing yet, with room for its own queue alone. Its
/// cursor begins at the first slot plus one share of the slots for each lesser number.
fn worker_of(alloc: Global, pass: Pass, fit: Fit, share: u32) -> Result<Worker, AllocError>
    requires fresh { IsFresh pass }
    ensures { IfOk result (IsNewWorker fit pass) }
{
    let mut queues = Vec::with_capacity(alloc, 1)?;
    let origin = pass.number();
    queues.push(HeldQueue::new(origin, alloc))?;
    let cursor = share.saturating_mul(origin).saturating_add(FIRST_SLOT);
    let workspace = Box::new(alloc, Workspace::new(Placement::new(fit, cursor)))?;
    Ok(Worker {
        pass,
        queues,
        home: 0,
        standing: Standing::Resting,
        workspace,
    })
}

/// Makes the workers of these passes, in their order.
fn workers_of(
    alloc: Global,
    mut passes: Vec<Pass>,
    fit: Fit,
    share: u32,
) -> Result<Vec<Worker>, AllocError>
    requires fresh { AreAllFresh passes.items }
    ensures { IfOk result (λ ws. AreMade fit passes.items ws.items) }
{
    let mut workers = Vec::with_capacity(alloc, passes.len())?;
    while let Some(pass) = passes.pop() {
        workers.push(worker_of(alloc, pass, fit, share)?)?;
    }
    workers.reverse();
    Ok(workers)
}
