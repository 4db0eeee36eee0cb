//! Workers: a pass, the queues that it holds, and what is open between two calls.
ghost use Rattle.std.specs.Prelude.{◌≡◌, ◌<◌, length, option_map, IfSome, IfNone, None};
ghost use Rattle.nm_edge.specs.Layouts.{IsLayout};
ghost use Rattle.nm_steps.specs.Steps.{HasSeen, IsOfRun};
ghost use Rattle.nm_calls.specs.MapHistories.{AreOfMaps};
ghost use Rattle.nm_calls.specs.declared.deleting.Unfinished.{Unfinished as Delete};
ghost use Rattle.nm_progress.specs.Pending.{HasDeletePending, leaf_after};
ghost use Rattle.nm_epoch.specs.Collecting.{NoneHas};
ghost use Rattle.nm_tree.specs.Running.{HasSeenTurns};
ghost use Rattle.nm_tree.specs.Workers.{waiting_in, blocks_in, AreFewIn, counts_among, counts_in, IsLedger, HasOrigin, IsBetweenCalls, IsIdle};

use nm_calls::Unfinished;
use nm_edge::Key;
use nm_epoch::HeldQueue;
use nm_steps::Pass;
use nm_walks::Workspace;
use std::marker::Model;

/// What is open of a worker between two calls.
#[derive(Clone, Copy)]
pub(crate) enum Standing {
    /// Nothing: the worker is not pinned.
    Resting,
    /// The caller has pinned it at this epoch, until `unpin`.
    Held(u64),
    /// It is pinned for the leaf of a delete, until `finish` returns true.
    Pending(Unfinished),
}

/// What a worker has won, and what became of the nodes that its splices cut off. Each count but the
/// last stops at 2^64 - 1.
#[derive(Clone, Copy, Debug, PartialEq, Eq)]
pub struct Counts {
    /// The links that it has won: each put a new key into the set.
    pub links: u64,
    /// The flags that it has won, each on the leaf of a key that is to be deleted.
    pub flags: u64,
    /// The splices that it has won.
    pub splices: u64,
    /// The nodes that its splices cut off.
    pub retired: u64,
    /// Those of them that were freed, by any worker that holds their queue.
    pub freed: u64,
    /// Those of them that wait.
    pub queued: u64,
}

impl Counts {
    /// Returns the counts of the worker whose splices cut off the nodes of this queue.
    pub fn of(held: &HeldQueue) -> Self
        ensures { result ≡ counts_in held.now }
    {
        let waiting = u64::from(held.queue.len());
        Counts {
            links: held.counts.links,
            flags: held.counts.flags,
            splices: held.counts.splices,
            retired: held.counts.freed.saturating_add(waiting),
            freed: held.counts.freed,
            queued: waiting,
        }
    }
}

/// One worker of a tree, which a thread needs to make calls on it. It may go to another thread
/// between two calls.
#[derive(Drop)]
pub struct Worker {
    pub(crate) pass: Pass,
    // The queues have ascending origins; the worker's own one has the index `home`.
    pub(crate) queues: Vec<HeldQueue>,
    pub(crate) home: usize,
    pub(crate) standing: Standing,
    // In a block of its own, because it has some 3,200 bytes: so a worker moves as a few words.
    pub(crate) workspace: Box<Workspace>,
}

impl Model for Worker {
    ghost use Rattle.nm_tree.specs.Workers.{WorkerView, IsWorker, pending_in, held_in};

    ghost Value = { WorkerView };

    ghost view = { λ w. record {
      pass = w.pass;
      queues = w.queues.items;
      pending = pending_in w.standing;
      held = held_in w.standing;
      fit = w.workspace.value.placement;
    } };

    ghost invariant = { λ w. IsWorker
        (record {
          pass = w.pass;
          queues = w.queues.items;
          pending = pending_in w.standing;
          held = held_in w.standing;
          fit = w.workspace.value.placement;
        }) w.home };
}

impl Worker {
    /// Returns the worker's number, which is below the number of workers.
    pub fn number(&self) -> u32
        ensures number { result ≡ self.now.pass.view.number }
        ensures below { result < self.now.pass.view.layout.workers }
    {
        self.pass.number()
    }

    /// Returns the number of nodes that wait in the queues that the worker holds.
    pub fn queue_len(&self) -> u64
        ensures { result ≡ waiting_in self.now.queues }
    {
        if let [own] = self.queues.as_slice() {
            return u64::from(own.queue.len());
        }
        let mut waiting = 0;
        for held in &self.queues {
            waiting += u64::from(held.queue.len());
        }
        waiting
    }

    /// Returns the number of blocks, of 32 places each, in the queues that the worker holds. They
    /// are at most the blocks that the waiting nodes and 318 places for each queue need. An empty
    /// block is used again, or given back by a collection.
    pub fn queue_blocks(&self) -> u64
        ensures blocks { result ≡ blocks_in self.now.queues }
        ensures few { AreFewIn result self.now.queues }
    {
        let mut blocks = 0;
        for held in &self.queues {
            blocks += u64::from(held.queue.blocks());
        }
        blocks
    }

    /// Returns the number of origins whose queues the worker holds: its own, and those that were
    /// passed to it.
    pub fn origins(&self) -> u32
        ensures { result ≡ length self.now.queues }
    {
        self.queues.len() as u32
    }

    /// Returns what this worker has won, and what became of the nodes that it cut off.
    pub fn ledger(&self) -> Counts
        ensures { IsLedger self.now.pass.view self.now.pass.view.number result }
    {
        self.pass.know_run();
        Counts::of(&self.queues[self.home])
    }

    /// Returns the same for the worker of an origin whose queue this one holds, or `None` if it
    /// does not hold it.
    pub fn ledger_of(&self, origin: u32) -> Option<Counts>
        ensures some { IfSome result (IsLedger self.now.pass.view origin) }
        ensures held { IfSome result (λ _. HasOrigin origin self.now.queues) }
        ensures none { IfNone result (NoneHas origin self.now.queues) }
    {
        self.pass.know_run();
        counts_among(self.queues.as_slice(), origin)
    }

    /// Returns the key of a delete that has flagged its leaf and has no answer yet; `finish` goes
    /// on with it. `None`: in the turns that the worker has seen, no call of it has flagged a leaf
    /// and has no answer.
    pub fn pending(&self) -> Option<Key>
        ensures key { result ≡ option_map (λ (n : Delete). n.key) self.now.pending }
        ensures flagged { IfSome self.now.pending (λ (n : Delete). HasDeletePending
            self.now.pass.view.past self.now.pass.view.number n.key n.leaf) }
        ensures rests { IfNone self.now.pending
            (leaf_after self.now.pass.view.number None self.now.pass.view.past ≡ None) }
    {
        self.pass.know_run();
        match self.standing {
            Standing::Pending(unfinished) => Some(unfinished.key),
            Standing::Resting | Standing::Held(_) => None,
        }
    }

    /// Proof only: establishes that what the worker has seen is a run of an ordered core of the
    /// tree's sizes, and that the worker's log is its part of that run, in which it has not
    /// resigned. So each law of runs holds for what it has seen, and each law of such parts holds
    /// for its log. The turns that it has seen are by the tree's workers; the main theorem holds
    /// for them, and they have a history. No run-time effect.
    pub fn know_run(&self)
        ensures seen { HasSeen self.now.pass.view }
        ensures turns { HasSeenTurns self.now.pass.view }
        ensures idle { IsIdle self.now }
        ensures run { IsOfRun self.now.pass.view.layout self.now.pass.view.number
            self.now.pass.view.log }
        ensures fits { IsLayout self.now.pass.view.layout }
    {
        self.pass.know_run();
    }

    /// Proof only: establishes what the laws of maps say of all that the worker has seen. Up to each
    /// moment up to which there are stores, the turns have a history, and each history of them is one
    /// of a plain map. A true delete has taken the value that its act has there. No run-time effect.
    pub fn know_map(&self)
        ensures { AreOfMaps self.now.pass.view.layout self.now.pass.view.past }
    {
        self.pass.know_run();
    }

    /// Proof only: establishes what holds between two calls. The queues are those of all ledgers
    /// that the worker holds, and have few blocks. No slot is private. The worker is pinned only if
    /// its caller pinned it or a key is pending. No run-time effect.
    pub fn know_between_calls(&self)
        ensures { IsBetweenCalls self.now }
    {
        let _home = self.home;
    }

    /// Returns the epoch at which the caller has pinned the worker, from a `pin` until its `unpin`.
    pub fn held(&self) -> Option<u64>
        ensures { result ≡ self.now.held }
    {
        match self.standing {
            Standing::Held(epoch) => Some(epoch),
            Standing::Resting | Standing::Pending(_) => None,
        }
    }
}

/// Returns the counts of an origin, if its queue is among these.
fn counts_among(queues: &[HeldQueue], origin: u32) -> Option<Counts>
    ensures { result ≡ counts_among queues.now origin }
{
    let (first, rest) = queues.split_first()?;
    if first.origin == origin {
        return Some(Counts::of(first));
    }
    counts_among(rest, origin)
}
