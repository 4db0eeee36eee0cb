//! The core: the machine from its opening on.
ghost use Rattle.std.specs.Prelude.{◌≡◌, ◌<◌, ◌≤◌, ◌⊎◌, ◌↔◌, IfOk, IfErr, OnOk, OnErr, IsErrOf, IsSome, None, All, take, length};
ghost use Rattle.std.specs.Option.{option_copied};
ghost use Rattle.nm_model.specs.Runs.{reply_of};
ghost use Rattle.nm_model.specs.Ordered.{opening_of, plain, ordered, HasKey, IsReached, refused_in, applied_in, next_in, outcome_in, after_in, trace_in};
ghost use Rattle.nm_model.specs.Reports.{counts, holder, keys, ledger_of};
ghost use Rattle.nm_model.specs.Answers.{IsAnswer};
ghost use Rattle.nm_edge.specs.Layouts.{IsLayoutFault, dense};
ghost use Rattle.nm_model.specs.Laws.{PinsAreNear};
ghost use Rattle.nm_model.specs.Lawful.{CountsAddUp};
ghost use Rattle.nm_model.specs.Traces.{IsLawfulRun};
ghost use Rattle.nm_laws.specs.Cardinality.{AreNumbersOfSlots};
ghost use Rattle.nm_laws.specs.LeafPaths.{AreKeysFromTheLeft};
ghost use Rattle.nm_order.specs.Intervals.{KeysAscend, KeysTellTheSet};
ghost use Rattle.nm_core.specs.Pasts.{HasHeadlineBehind, HasHistoriesBehind, HasPast, StaysInOrder};
ghost use Rattle.nm_core.specs.Stops.{WouldBeAllowed, played};

use crate::machine::Machine;
use crate::searches::Searches;
use nm_edge::{Key, Layout, LayoutError, MOST_NODES};
use nm_model::event::Event;
use nm_model::ledger::Ledger;
use nm_model::reply::{Refused, Reply};
use nm_model::trace::{RunError, Trace, Turn};
use nm_model::{NewError, Places};
use std::alloc::{AllocError, Global};
use std::marker::Model;

/// All words of the tree, and what each worker knows, as plain data. Some events lead from the
/// opening to its state.
#[derive(Drop)]
pub struct Core {
    machine: Machine,
    searches: Option<Searches>,
}

impl Model for Core {
    ghost use Rattle.std.specs.Prelude.{option_map};
    ghost use Rattle.nm_model.specs.Rooms.{searches_of};
    ghost use Rattle.nm_model.specs.Ordered.{Configuration, IsReached};

    ghost Value = { Configuration };

    ghost view = { λ c. record {
      state = c.machine;
      searches = option_map searches_of c.searches;
    } };

    ghost invariant = { λ c. IsReached
        (record { state = c.machine; searches = option_map searches_of c.searches }) };
}

// Establishes that the call of an event is for a key of the set, by the type of its key.
fn read_key(event: &Event)
    ensures { HasKey event.now }
{
    if let Event::SightFor(_, key) = event {
        key.get();
    }
}

impl Core {
    /// Returns the opening: the empty tree, epoch 0, all workers idle, and every slot above 5 in
    /// the pool with birth (generation) 0.
    ///
    /// Errors: `Nodes`, `Workers`: there are too few or too many; `NoMemory`.
    pub fn new(alloc: Global, nodes: u32, workers: u32) -> Result<Core, NewError>
        ensures opening { IfOk result (λ core. core ≡ plain (dense nodes workers)) }
        ensures nodes { IsErrOf result NewError.Nodes
            ↔ IsLayoutFault MOST_NODES nodes workers LayoutError.Nodes }
        ensures workers { IsErrOf result NewError.Workers
            ↔ IsLayoutFault MOST_NODES nodes workers LayoutError.Workers }
    {
        Ok(Core::of(alloc, Layout::new(nodes, workers)?, false)?)
    }

    /// Returns the opening of an ordered core, in which no worker has an operation yet. It refuses
    /// what a plain core refuses. It also refuses links and flags that are not at a place to which
    /// a walk of the worker's own operation came, and leaves without an answer that the worker's
    /// log shows.
    ///
    /// Errors: `Nodes`, `Workers`: there are too few or too many; `NoMemory`.
    pub fn ordered(alloc: Global, nodes: u32, workers: u32) -> Result<Core, NewError>
        ensures opening { IfOk result (λ core. core ≡ ordered (dense nodes workers)) }
        ensures nodes { IsErrOf result NewError.Nodes
            ↔ IsLayoutFault MOST_NODES nodes workers LayoutError.Nodes }
        ensures workers { IsErrOf result NewError.Workers
            ↔ IsLayoutFault MOST_NODES nodes workers LayoutError.Workers }
    {
        Ok(Core::of(alloc, Layout::new(nodes, workers)?, true)?)
    }

    /// Returns the opening of a core of that layout, ordered or plain. In a radix tree a link may
    /// be over an internal node. An ordered core allows it if a walk of the worker's own operation
    /// came there, to a leaf or to a node without the key in its range. The walk's last edge must
    /// be the root's, or one of a node with the key in its range.
    ///
    /// Errors: out of memory.
    pub fn of(alloc: Global, layout: Layout, is_ordered: bool) -> Result<Core, AllocError>
        ensures opening { IfOk result (λ core. core ≡ opening_of layout is_ordered) }
    {
        let workers = layout.workers();
        let machine = Machine::new(alloc, layout)?;
        if !is_ordered {
            return Ok(Core {
                machine,
                searches: None,
            });
        }
        let searches = Searches::new(alloc, workers)?;
        Ok(Core {
            machine,
            searches: Some(searches),
        })
    }

    /// Proof only: establishes that some events, whose calls are for keys of the set, lead from the
    /// opening to this core. Each law of all runs therefore holds for this core, and each law of
    /// ordered runs for an ordered core. No run-time effect.
    pub fn know_run(&self)
        ensures { IsReached self.now }
    {
        let _machine = &self.machine;
    }

    /// Returns the global epoch. While a worker is pinned at an epoch, the global epoch is that one
    /// or the next.
    pub fn epoch(&self) -> u64
        ensures epoch { result ≡ self.now.state.memory.epoch }
        ensures near { PinsAreNear self.now.state }
    {
        self.machine.epoch()
    }

    /// Returns what a worker cut off, whichever worker holds its queue; `None` exactly if
    /// there is no such worker.
    pub fn ledger(&self, worker: u32) -> Option<&Ledger>
        ensures ledger { option_copied result ≡ ledger_of self.now.state worker }
        ensures none { (ledger_of self.now.state worker ≡ None)
            ↔ (self.now.state.layout.workers ≤ worker) }
    {
        self.machine.ledger(worker)
    }

    /// Returns the worker that holds the ledger of an origin: the origin itself, or a worker to
    /// which it resigned, directly or through others. `None` exactly if there is no such worker.
    pub fn holder(&self, origin: u32) -> Option<u32>
        ensures holder { result ≡ holder self.now.state origin }
        ensures none { (result ≡ None) ↔ (self.now.state.layout.workers ≤ origin) }
    {
        self.machine.holder(origin)
    }

    /// Returns how many of the slots above 5 are in the pool, private to a worker, reached from the
    /// root, and queued. Each slot is in exactly one of these places, so the four numbers add up to
    /// the nodes above slot 5.
    ///
    /// Cost: one pass, and no memory.
    pub fn places(&self) -> Places
        ensures places { result ≡ counts self.now.state }
        ensures slots { AreNumbersOfSlots self.now.state result }
        ensures sum { CountsAddUp self.now.state }
    {
        self.machine.places()
    }

    /// Returns the keys of the set: exactly those of the leaves to which paths from the root lead,
    /// except the fixed leaves. There is one key for each such path, from left to right. In an
    /// ordered core each key is there once, and the keys ascend.
    ///
    /// Errors: out of memory.
    pub fn keys(&self) -> Result<Vec<Key>, AllocError>
        ensures keys { IfOk result (λ found. found.items ≡ keys self.now.state) }
        ensures paths { IfOk result
            (λ found. AreKeysFromTheLeft self.now.state.memory found.items) }
        ensures set { KeysTellTheSet self.now }
        ensures ascend { IsSome self.now.searches → KeysAscend self.now }
    {
        self.machine.keys()
    }

    /// Applies one event; returns its reply, or the first reason in the order of `Refused` for
    /// which it is refused. A refused event changes nothing.
    pub fn apply(&mut self, worker: u32, event: Event) -> Result<Reply, Refused>
        ensures outcome { IsAnswer (refused_in self.old worker event)
            (reply_of self.old.state worker event) result }
        ensures ok { OnOk result (self.new ≡ applied_in self.old worker event) }
        ensures err { OnErr result (self.new ≡ self.old) }
        ensures key { HasKey event }
    {
        read_key(&event);
        match &mut self.searches {
            None => self.machine.apply(worker, event),
            Some(searches) => searches.apply(&mut self.machine, worker, &event),
        }
    }

    // Applies one event and returns its outcome. If memory runs out, nothing has changed.
    #[tactic(auto, unfolding(nm_model::specs::Ordered::next_in, nm_model::specs::Ordered::outcome_in))]
    fn settle(&mut self, worker: u32, event: Event) -> Result<Result<Reply, Refused>, AllocError>
        ensures outcome { IfOk result (λ o. o ≡ outcome_in self.old (worker, event)) }
        ensures ok { OnOk result (self.new ≡ next_in self.old (worker, event)) }
        ensures err { OnErr result (self.new ≡ self.old) }
        ensures allowed { OnErr result (refused_in self.old worker event ≡ None) }
        ensures key { HasKey event }
    {
        match self.apply(worker, event) {
            Err(Refused::NoMemory) => Err(AllocError),
            outcome => Ok(outcome),
        }
    }

    // Applies each event in turn, and records its outcome.
    #[tactic(auto, unfolding(nm_model::specs::Ordered::after_in, nm_model::specs::Ordered::trace_in))]
    fn play(&mut self, events: &[(u32, Event)]) -> Result<Trace, RunError>
        ensures trace { IfOk result (λ t. t ≡ trace_in self.old events.now) }
        ensures state { OnOk result (self.new ≡ after_in self.old events.now) }
        ensures done { IfErr result (λ e. e.done < length events.now) }
        ensures done_state { IfErr result
            (λ e. self.new ≡ after_in self.old (take e.done events.now)) }
        ensures why { IfErr result (λ e. (e.done ≡ 0) ⊎ WouldBeAllowed self.old events.now e.done) }
        ensures keys { All (λ t. HasKey t.1) (played events.now result) }
    {
        if events.is_empty() {
            return Ok(Trace::from_turns(Vec::new(self.machine.alloc)));
        }
        let Ok(mut turns) = Vec::with_capacity(self.machine.alloc, events.len()) else {
            return Err(RunError { done: 0 });
        };
        for (done, turn) in events.iter().enumerate() {
            let Ok(outcome) = self.settle(turn.0, turn.1) else {
                return Err(RunError { done });
            };
            turns
                .push(Turn {
                    worker: turn.0,
                    event: turn.1,
                    outcome,
                })
                .unwrap();
        }
        Ok(Trace::from_turns(turns))
    }

    /// Applies each event in turn, and goes on after one that is refused. The trace lists worker,
    /// event and outcome of each.
    ///
    /// Proved (clause `headline`): the turns that led to this core, followed by those of this run,
    /// have the headline (`nm_theorem`). At each moment each slot above the five fixed ones is in
    /// one place. Each turn cuts exactly the nodes of its outcome. Each worker's cuts are its freed
    /// nodes followed by those that wait, and no node is cut twice. No node is freed before each
    /// worker that was pinned at its cut has left. A node that a worker has learned of stays the
    /// same until the worker leaves.
    ///
    /// Proved (clauses `lawful`, `order` and `histories`): each state of this run keeps what every
    /// state keeps, and its ledgers grow by the turns. An ordered core stays in order. Its whole
    /// run, from its opening on, is a history of one plain set (it is linearizable; see
    /// `runs_are_histories` of `nm_order`).
    ///
    /// Errors: if memory runs out, only the first `done` events have been applied. The next one is
    /// an event that the core would have allowed; or `done` is 0, and no event was tried.
    pub fn run(&mut self, events: Vec<(u32, Event)>) -> Result<Trace, RunError>
        ensures trace { IfOk result (λ t. t ≡ trace_in self.old events.items) }
        ensures state { OnOk result (self.new ≡ after_in self.old events.items) }
        ensures lawful { IfOk result
            (λ t. IsLawfulRun (λ i. (after_in self.old (take i events.items)).state) t) }
        ensures headline { HasHeadlineBehind self.old (played events.items result) }
        ensures past { HasPast self.old }
        ensures histories { HasHistoriesBehind self.old (played events.items result) }
        ensures order { StaysInOrder self.old (played events.items result) }
        ensures done { IfErr result (λ e. e.done < length events.items) }
        ensures done_state { IfErr result
            (λ e. self.new ≡ after_in self.old (take e.done events.items)) }
        ensures why { IfErr result
            (λ e. (e.done ≡ 0) ⊎ WouldBeAllowed self.old events.items e.done) }
    {
        self.know_run();
        self.play(&events)
    }
}
