//! What an ordered core checks of an event in addition to a plain one, and what each worker's log
//! shows.
#![tactic(auto)]

ghost use Rattle.std.specs.Prelude.{◌≡◌, ◌<◌, length, replicate, IfOk, OnOk, OnErr};
ghost use Rattle.nm_model.specs.Answers.{IsAnswer, IsShaped};
ghost use Rattle.nm_model.specs.Runs.{of, reply_of, applied};
ghost use Rattle.nm_model.specs.Searches.{idle};
ghost use Rattle.nm_model.specs.Rooms.{in_order, searches_of, roomy_of, HasRoomFor};
ghost use Rattle.nm_model.specs.Ordered.{search_of, learned_from, disorder, refused_in};
ghost use Rattle.nm_core.specs.Admission.{Admits};

use crate::machine::Machine;
use crate::search::Search;
use nm_model::event::Event;
use nm_model::reply::{Refused, Reply};
use std::alloc::{AllocError, Global};
use std::marker::Model;

/// By worker, what its log shows of the operation of its pin.
#[derive(Drop)]
pub struct Searches {
    by_worker: Vec<Search>,
}

impl Model for Searches {
    ghost use Rattle.std.specs.Prelude.{List};
    ghost use Rattle.nm_model.specs.Rooms.{Roomy};

    ghost Value = { List Roomy };

    ghost view = { λ s. s.by_worker.items };
}

impl Searches {
    /// Returns searches in which no worker has an operation yet.
    pub fn new(alloc: Global, workers: u32) -> Result<Searches, AllocError>
        ensures { IfOk result (λ searches. searches_of searches ≡ replicate workers idle) }
    {
        let mut by_worker = Vec::with_capacity(alloc, workers as usize)?;
        for _ in 0..workers {
            by_worker.push(Search::idle(alloc))?;
        }
        Ok(Searches { by_worker })
    }

    // Checks whether an event that its machine admits is in order.
    fn admit(&self, machine: &Machine, worker: usize, event: &Event) -> Result<(), Refused>
        requires is_there { worker < length machine.now.workers }
        requires has { worker < length self.now }
        ensures { Admits (disorder machine.now.layout (of machine.now worker)
            (search_of (searches_of self.now) worker) event.now) result }
    {
        self.by_worker[worker].admit(machine.layout, &machine.workers[worker], event)
    }

    // Reserves the memory that an event needs.
    fn make_room(&mut self, worker: usize, event: &Event) -> Result<(), AllocError>
        requires { worker < length self.old }
        ensures same { searches_of self.new ≡ searches_of self.old }
        ensures room { OnOk result (HasRoomFor event.now (roomy_of self.new worker)) }
    {
        self.by_worker[worker].make_room(event)
    }

    // Records an event of a worker with its reply.
    fn learn(&mut self, worker: usize, event: &Event, reply: &Reply)
        requires is_there { worker < length self.old }
        requires room { HasRoomFor event.now (roomy_of self.old worker) }
        ensures { searches_of self.new
            ≡ learned_from (searches_of self.old) worker event.now reply.now }
    {
        self.by_worker[worker].learn(event, reply);
    }

    /// Applies one event in an ordered core, by its machine and its workers' logs, or refuses it.
    /// If it is refused, both are unchanged.
    #[tactic(auto, unfolding(nm_model::specs::Ordered::refused_in, nm_model::specs::Runs::refused))]
    pub fn apply(
        &mut self,
        machine: &mut Machine,
        worker: u32,
        event: &Event,
    ) -> Result<Reply, Refused>
        requires shaped { IsShaped machine.old }
        requires sized { length self.old ≡ machine.old.layout.workers }
        ensures outcome { IsAnswer (refused_in (in_order machine.old self.old) worker event.now)
            (reply_of machine.old worker event.now) result }
        ensures state { OnOk result (machine.new ≡ applied machine.old worker event.now) }
        ensures learned { OnOk result
            (searches_of self.new
            ≡ learned_from (searches_of self.old) worker event.now
            (reply_of machine.old worker event.now)) }
        ensures err_state { OnErr result (machine.new ≡ machine.old) }
        ensures err_told { OnErr result (searches_of self.new ≡ searches_of self.old) }
    {
        machine.admit(worker, event)?;
        let number = worker as usize;
        self.admit(machine, number, event)?;
        self.make_room(number, event)?;
        let reply = machine.step(worker, event)?;
        self.learn(number, event, &reply);
        Ok(reply)
    }
}
