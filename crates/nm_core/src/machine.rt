//! All words of the tree, and what each worker knows.
ghost use Rattle.std.specs.Prelude.{◌≡◌, ◌<◌, length, IfOk, OnOk, OnErr};
ghost use Rattle.nm_model.specs.Memory.{node, edge, named, put_node, put_edge};
ghost use Rattle.nm_model.specs.Step.{outside};
ghost use Rattle.nm_model.specs.Runs.{start, refused, reply_of, applied};
ghost use Rattle.std.specs.Option.{option_copied};
ghost use Rattle.nm_model.specs.Reports.{holder, ledger_of};
ghost use Rattle.nm_model.specs.Answers.{IsAnswer, IsShaped};
ghost use Rattle.nm_core.specs.Admission.{Admits, IsAdmitted, AppliesOrKeeps};

use crate::worker::WorkerState;
use nm_edge::{Edge, Layout, NodeId, Side};
use nm_model::event::Event;
use nm_model::ledger::Ledger;
use nm_model::memory::{self, Node};
use nm_model::reply::{Refused, Reply};
use std::alloc::{AllocError, Global};
use std::marker::Model;

/// All words of the tree, and what each worker knows.
#[derive(Drop)]
pub struct Machine {
    pub alloc: Global,
    pub layout: Layout,
    pub epoch: u64,
    pub announcements: Vec<Option<u64>>,
    pub nodes: Vec<Node>,
    pub pool: Vec<bool>,
    pub workers: Vec<WorkerState>,
}

impl Model for Machine {
    ghost use Rattle.nm_model.specs.Runs.{State};

    ghost Value = { State };

    ghost view = { λ m. record {
      layout = m.layout;
      memory = record {
        epoch = m.epoch;
        announcements = m.announcements.items;
        nodes = m.nodes.items;
        pool = m.pool.items;
      };
      workers = m.workers.items;
    } };
}

impl Machine {
    /// Returns the opening: the empty tree, and workers that have done nothing yet.
    pub fn new(alloc: Global, layout: Layout) -> Result<Machine, AllocError>
        ensures { IfOk result (λ machine. machine ≡ start layout) }
    {
        let workers = layout.workers();
        let mut newcomers = Vec::with_capacity(alloc, workers as usize)?;
        for number in 0..workers {
            newcomers.push(WorkerState::new(alloc, layout, number)?)?;
        }
        Ok(Machine {
            alloc,
            layout,
            epoch: 0,
            announcements: vec![in alloc; None; workers as usize]?,
            nodes: memory::opening_nodes(alloc, layout)?,
            pool: memory::opening_pool(alloc, layout)?,
            workers: newcomers,
        })
    }

    /// Returns the global epoch.
    pub fn epoch(&self) -> u64
        ensures { result ≡ self.now.memory.epoch }
    {
        self.epoch
    }

    /// Returns the worker that holds the ledger of an origin.
    pub fn holder(&self, origin: u32) -> Option<u32>
        requires { IsShaped self.now }
        ensures { result ≡ holder self.now origin }
    {
        for number in 0..self.layout.workers() {
            if self.workers[number as usize].ledger(origin).is_some() {
                return Some(number);
            }
        }
        None
    }

    /// Returns the ledger of an origin, whichever worker holds it.
    pub fn ledger(&self, origin: u32) -> Option<&Ledger>
        ensures { option_copied result ≡ ledger_of self.now origin }
    {
        for worker in &self.workers {
            if let Some(ledger) = worker.ledger(origin) {
                return Some(ledger);
            }
        }
        None
    }

    /// Returns whether a slot is below `least` or above the number of nodes.
    pub(crate) fn is_outside(&self, least: u32, slot: u32) -> bool
        ensures { result ≡ outside least self.now.layout.nodes slot }
    {
        slot < least || self.layout.nodes() < slot
    }

    /// Returns the words of a node.
    pub(crate) fn node(&self, slot: u32) -> Node
        ensures { result ≡ node self.now.memory slot }
    {
        match self.nodes.get(slot as usize) {
            Some(node) => *node,
            None => Node::blank(),
        }
    }

    /// Returns the edge of a slot on a side.
    pub(crate) fn edge(&self, slot: u32, side: Side) -> Edge
        ensures { result ≡ edge self.now.memory slot side }
    {
        self.node(slot).edge(side)
    }

    /// Returns a slot with the birth that it has now.
    pub(crate) fn named(&self, slot: u32) -> NodeId
        ensures { result ≡ named self.now.memory slot }
    {
        let birth = self.node(slot).birth;
        NodeId { slot, birth }
    }

    /// Stores the words of a node.
    pub(crate) fn put_node(&mut self, slot: u32, node: Node)
        requires { slot < length self.old.memory.nodes }
        ensures { self.new ≡ record self.old { memory = put_node self.old.memory slot node } }
    {
        self.nodes[slot as usize] = node;
    }

    /// Stores an edge.
    pub(crate) fn put_edge(&mut self, slot: u32, side: Side, edge: Edge)
        requires { slot < length self.old.memory.nodes }
        ensures { self.new ≡ record self.old { memory = put_edge self.old.memory slot side edge } }
    {
        let node = self.node(slot).with_edge(side, edge);
        self.put_node(slot, node);
    }

    /// Checks whether an event is admitted: its worker exists, and no refusal holds. Keeps the
    /// steps of chains that it finds, if memory allows.
    #[tactic(auto, unfolding(nm_model::specs::Runs::refused))]
    pub fn admit(&mut self, worker: u32, event: &Event) -> Result<(), Refused>
        requires { IsShaped self.old }
        ensures admits { Admits (refused self.old worker event.now) result }
        ensures same { self.new ≡ self.old }
    {
        if self.is_no_worker(worker) {
            return Err(Refused::NoWorker);
        }
        let number = worker as usize;
        match *event {
            Event::Sight => Ok(()),
            Event::SightFor(op, key) => self.may_sight_for(number, op, key),
            Event::Announce => self.may_announce(number),
            Event::Leave | Event::LeaveWith(_) => self.may_leave(number),
            Event::Scan(other) => self.may_scan(number, other),
            Event::Advance => self.may_advance(number),
            Event::Claim(slot) => self.may_claim(number, slot),
            Event::Give(slot) => self.may_give(number, slot),
            Event::Look(slot, field) => self.may_look(number, slot, field),
            Event::Fill(slot, field, value) => self.may_fill(number, slot, field, value),
            Event::Link(parent, side, leaf, new) => self.may_link(number, parent, side, leaf, new),
            Event::Flag(parent, side, leaf) => self.may_flag(number, parent, side, leaf),
            Event::Tag(parent, side) => self.may_tag(number, parent, side),
            Event::Splice(ancestor, side, successor, parent, keep) => {
                self.may_splice(number, ancestor, side, successor, parent, keep)
            }
            Event::Swap(parent, side, leaf, new) => self.may_swap(number, parent, side, leaf, new),
            Event::Join(leaver) => self.may_join(worker, leaver),
        }
    }

    /// Applies one event that is admitted.
    ///
    /// Errors: out of memory; the state is unchanged.
    pub fn step(&mut self, worker: u32, event: &Event) -> Result<Reply, AllocError>
        requires { IsAdmitted self.old worker event.now }
        ensures { AppliesOrKeeps self.old self.new worker event.now result }
    {
        let number = worker as usize;
        match *event {
            Event::Sight => self.sight(number),
            Event::SightFor(op, key) => self.sight_for(number, op, key),
            Event::Announce => Ok(self.announce(number)),
            Event::Leave => Ok(self.leave(number)),
            Event::LeaveWith(answer) => Ok(self.leave_with(number, answer)),
            Event::Scan(other) => Ok(self.scan(number, other)),
            Event::Advance => Ok(self.advance(number)),
            Event::Claim(slot) => self.claim(number, slot),
            Event::Give(slot) => self.give(number, slot),
            Event::Look(slot, field) => self.look(number, slot, field),
            Event::Fill(slot, field, value) => Ok(self.fill(number, slot, field, value)),
            Event::Link(parent, side, leaf, new) => self.link(number, parent, side, leaf, new),
            Event::Flag(parent, side, leaf) => self.flag(number, parent, side, leaf),
            Event::Tag(parent, side) => self.tag(number, parent, side),
            Event::Splice(ancestor, side, successor, parent, keep) => {
                self.splice(number, ancestor, side, successor, parent, keep)
            }
            Event::Swap(parent, side, leaf, new) => self.swap(number, parent, side, leaf, new),
            Event::Join(leaver) => self.join(worker, leaver),
        }
    }

    /// Applies one event, or refuses it; then the state is unchanged.
    #[tactic(auto, unfolding(nm_model::specs::Runs::refused))]
    pub fn apply(&mut self, worker: u32, event: Event) -> Result<Reply, Refused>
        requires { IsShaped self.old }
        ensures outcome { IsAnswer (refused self.old worker event) (reply_of self.old worker event)
            result }
        ensures ok { OnOk result (self.new ≡ applied self.old worker event) }
        ensures err { OnErr result (self.new ≡ self.old) }
    {
        self.admit(worker, &event)?;
        Ok(self.step(worker, &event)?)
    }
}
