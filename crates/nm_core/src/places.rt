//! The number of slots in each place.
ghost use Rattle.std.specs.Prelude.{◌≡◌, ◌+◌, ◌-◌, ◌<◌, ◌^◌, length, filter};
ghost use Rattle.nm_edge.specs.Layouts.{IsLayout};
ghost use Rattle.nm_model.specs.Lawful.{CountsAddUp};
ghost use Rattle.nm_model.specs.Reports.{all_private, all_queued, counts};

use crate::machine::Machine;
use crate::worker::WorkerState;
use nm_model::Places;

impl Machine {
    /// Returns the number of slots in each place. The slots that are in no other place are reached,
    /// because the counts add up.
    pub fn places(&self) -> Places
        requires fits { IsLayout self.now.layout }
        requires sum { CountsAddUp self.now }
        ensures { result ≡ counts self.now }
    {
        let pool = pooled(&self.pool) as u32;
        let private = private(&self.workers) as u32;
        let queued = queued(&self.workers) as u32;
        let reached = self.layout.nodes() - 5 - pool - private - queued;
        Places {
            pool,
            private,
            reached,
            queued,
        }
    }
}

// Returns the number of slots in the pool.
fn pooled(pool: &Vec<bool>) -> usize
    ensures { result ≡ length (filter (λ free. free) pool.now.items) }
{
    pool.iter().filter(|free| **free).count()
}

// Returns the number of slots that are private to a worker.
fn private(workers: &Vec<WorkerState>) -> usize
    requires { all_private workers.now.items < 2 ^ 32 }
    ensures { result ≡ all_private workers.now.items }
{
    let mut slots = 0;
    for worker in workers {
        slots += worker.private();
    }
    slots
}

// Returns the number of entries that wait in queues.
fn queued(workers: &Vec<WorkerState>) -> usize
    requires { all_queued workers.now.items < 2 ^ 32 }
    ensures { result ≡ all_queued workers.now.items }
{
    let mut entries = 0;
    for worker in workers {
        entries += worker.waiting();
    }
    entries
}
