//! A tree with all its workers, from its filling to its close.
ghost use Rattle.std.specs.Prelude.{All, IfOk};
ghost use Rattle.nm_tree.specs.Calls.{MayCall};

use crate::habits::Habits;
use crate::load::{Load, Totals};
use crate::trees::{fill_all, play_all};
use anyhow::{Context, Result, ensure};
use nm_edge::Layout;
use nm_tree::{Fit, Report, Tree, Worker};
use std::alloc::{AllocError, Global};
use std::marker::Model;
use std::mem;
use std::thread::Threads;

/// The number of nodes for which the trees have room, and the number of keys in the sets at first.
#[derive(Clone, Copy)]
pub struct Sizes {
    pub nodes: u32,
    pub keys: u64,
}

/// A tree, the workers of the threads, the workers that no thread has, and what was done in it.
#[derive(Drop)]
pub struct Grown {
    tree: Tree,
    workers: Vec<Worker>,
    others: Vec<Worker>,
    habits: Habits,
    totals: Totals,
}

impl Model for Grown {
    ghost use Rattle.std.specs.Prelude.{All};
    ghost use Rattle.nm_tree.specs.Calls.{MayCall};

    ghost Value = { Unit {0} };

    ghost view = { λ g. tt };

    ghost invariant = { λ g. All (λ w. MayCall g.tree w) g.workers.items
        × All (λ w. MayCall g.tree w) g.others.items };
}

/// The workers of a tree: those of the threads, and those that no thread has.
struct Crew {
    workers: Vec<Worker>,
    others: Vec<Worker>,
}

/// Divides the workers of a tree into those of the threads and the others.
fn parted(alloc: Global, tree: &Tree, all: Vec<Worker>, habits: Habits) -> Result<Crew, AllocError>
    requires { All (λ w. MayCall tree.now w) all.items }
    ensures threads { IfOk result (λ p. All (λ w. MayCall tree.now w) p.workers.items) }
    ensures others { IfOk result (λ p. All (λ w. MayCall tree.now w) p.others.items) }
{
    let mut workers = Vec::new(alloc);
    let mut others = Vec::new(alloc);
    for worker in all {
        if habits.has_thread(&worker) {
            workers.push(worker)?;
        } else {
            others.push(worker)?;
        }
    }
    Ok(Crew { workers, others })
}

/// Returns how many nodes wait.
fn waiting(report: &Report) -> u64 {
    let mut waiting = 0u64;
    for held in &report.queues {
        waiting = waiting.wrapping_add(u64::from(held.queue.len()));
    }
    waiting
}

impl Grown {
    /// Returns an empty tree with its workers.
    fn of(alloc: Global, tree: Tree, workers: Vec<Worker>, habits: Habits) -> Result<Grown>
        requires { All (λ w. MayCall tree w) workers.items }
    {
        let Crew { workers, others } = parted(alloc, &tree, workers, habits)?;
        Ok(Grown {
            tree,
            workers,
            others,
            habits,
            totals: Totals::none(),
        })
    }

    /// Makes an empty tree whose workers claim the lowest free slot.
    pub fn lowest(alloc: Global, nodes: u32, habits: Habits) -> Result<Grown> {
        let (tree, workers) = Tree::of(
            alloc,
            Layout::spaced(nodes, habits.workers())?,
            Fit::FirstFit,
        )?;
        Grown::of(alloc, tree, workers, habits)
    }

    /// Makes an empty tree whose workers claim by next fit.
    pub fn near(alloc: Global, nodes: u32, habits: Habits) -> Result<Grown> {
        let (tree, workers) = Tree::of(
            alloc,
            Layout::spaced(nodes, habits.workers())?,
            Fit::NextFit,
        )?;
        Grown::of(alloc, tree, workers, habits)
    }

    /// Inserts the first `keys` keys; each worker inserts its share of them in a thread of its own.
    pub fn fill<R: Threads + Sync>(&mut self, rt: &R, alloc: Global, keys: u64) -> Result<()> {
        let workers = mem::replace(&mut self.workers, Vec::new(alloc));
        self.workers = fill_all(rt, &self.tree, workers, self.habits, keys, &self.totals)?;
        Ok(())
    }

    /// Plays a load; each worker that takes part plays in a thread of its own. After an error the
    /// workers are lost.
    pub fn play<R: Threads + Sync>(&mut self, rt: &R, alloc: Global, load: Load) -> Result<()> {
        let workers = mem::replace(&mut self.workers, Vec::new(alloc));
        self.workers = play_all(rt, &self.tree, workers, self.habits, load, &self.totals)?;
        Ok(())
    }

    /// Closes the tree, and prints what was done and what is left. Errors: the keys or the slots do
    /// not add up.
    pub fn close(self, rt: &impl Print, name: &str, nodes: u32) -> Result<()> {
        let Grown {
            tree,
            mut workers,
            mut others,
            totals,
            ..
        } = self;
        workers.append(&mut others)?;
        let report = tree.close(workers).ok().context("a report")?;
        let taken = u64::from(report.reached).wrapping_add(waiting(&report));
        let slots = taken.wrapping_add(u64::from(report.free));
        totals.tell(rt, name, report.keys.len() as u64)?;
        ensure!(
            slots.wrapping_add(5) == u64::from(nodes),
            "the slots do not add up"
        );
        Ok(())
    }
}
