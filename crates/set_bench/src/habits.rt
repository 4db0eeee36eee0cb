//! How the threads use a tree.
use nm_tree::Worker;
use std::num::{NonZeroU32, NonZeroU64};

/// The most threads that make calls.
pub const THREADS: u32 = 4;

/// How the threads use a tree: which workers they have, and how often they collect.
#[derive(Clone, Copy)]
pub struct Habits {
    /// The distance between the numbers of the threads' workers: thread i has worker i * `apart`.
    pub apart: NonZeroU32,
    /// The number of its calls after which a thread advances the epoch and frees the ripe nodes.
    pub tend: NonZeroU64,
}

impl Habits {
    /// Returns how many workers a tree needs, so that each thread has one.
    pub fn workers(self) -> u32 {
        self.apart
            .get()
            .saturating_mul(THREADS - 1)
            .saturating_add(1)
    }

    /// Returns whether a worker belongs to a thread.
    pub fn has_thread(self, worker: &Worker) -> bool {
        worker.number() % self.apart == 0
    }

    /// Returns the number of a worker's thread.
    pub fn thread(self, worker: &Worker) -> u32 {
        worker.number() / self.apart
    }
}
