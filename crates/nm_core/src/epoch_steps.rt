//! The steps on the global epoch and the announcements.
#![tactic(auto, unfolding(nm_model::specs::Step::refusal, nm_model::specs::Step::reply, nm_model::specs::Step::write, nm_model::specs::Learning::learn, nm_model::specs::Runs::applied))]

ghost use Rattle.std.specs.Prelude.{◌<◌, length};
ghost use Rattle.nm_model.specs.declared.event.Event.TheVariants as event;
ghost use Rattle.nm_model.specs.Runs.{refusal_of};
ghost use Rattle.nm_model.specs.Answers.{IsShaped};
ghost use Rattle.nm_core.specs.Admission.{Admits, IsAdmitted, Applies, AppliesOrKeeps};

use crate::machine::Machine;
use nm_edge::{Key, LAST_NUMBER};
use nm_model::event::Op;
use nm_model::reply::{Refused, Reply};
use std::alloc::AllocError;

impl Machine {
    pub(crate) fn sight(&mut self, worker: usize) -> Result<Reply, AllocError>
        requires { worker < length self.old.workers }
        ensures { AppliesOrKeeps self.old self.new worker event.Sight result }
    {
        let epoch = self.epoch;
        self.workers[worker].sight(epoch)
    }

    /// Checks whether a sight (epoch read) can confirm a pin.
    pub(crate) fn may_sight_for(&self, worker: usize, op: Op, key: Key) -> Result<(), Refused>
        requires { worker < length self.now.workers }
        ensures { Admits (refusal_of self.now worker (event.SightFor op key)) result }
    {
        let brief = self.workers[worker].brief();
        if brief.announcement.is_none() || brief.pin.is_some() {
            return Err(Refused::NotReady);
        }
        Ok(())
    }

    /// Acts like `sight`.
    pub(crate) fn sight_for(&mut self, worker: usize, op: Op, key: Key) -> Result<Reply, AllocError>
        requires { worker < length self.old.workers }
        ensures { AppliesOrKeeps self.old self.new worker (event.SightFor op key) result }
    {
        self.sight(worker)
    }

    /// Checks whether there is an epoch to announce, and no pin.
    pub(crate) fn may_announce(&self, worker: usize) -> Result<(), Refused>
        requires { worker < length self.now.workers }
        ensures { Admits (refusal_of self.now worker event.Announce) result }
    {
        let brief = self.workers[worker].brief();
        if brief.seen.is_none() || brief.pin.is_some() {
            return Err(Refused::NotReady);
        }
        Ok(())
    }

    pub(crate) fn announce(&mut self, worker: usize) -> Reply
        requires { IsAdmitted self.old worker event.Announce }
        ensures { Applies self.old self.new worker event.Announce result }
    {
        let epoch = self.workers[worker].brief().seen.unwrap_or(0);
        self.announcements[worker] = Some(epoch);
        self.workers[worker].announce(epoch);
        Reply::Announced(epoch)
    }

    /// Checks whether the announcement may be cleared.
    pub(crate) fn may_leave(&self, worker: usize) -> Result<(), Refused>
        requires { worker < length self.now.workers }
        ensures { Admits (refusal_of self.now worker event.Leave) result }
    {
        if self.workers[worker].brief().unlabelled {
            return Err(Refused::NotReady);
        }
        Ok(())
    }

    pub(crate) fn leave(&mut self, worker: usize) -> Reply
        requires shaped { IsShaped self.old }
        requires is_there { worker < length self.old.workers }
        ensures { Applies self.old self.new worker event.Leave result }
    {
        self.announcements[worker] = None;
        self.workers[worker].leave();
        Reply::Departed
    }

    /// Acts like `leave`.
    pub(crate) fn leave_with(&mut self, worker: usize, answer: bool) -> Reply
        requires shaped { IsShaped self.old }
        requires is_there { worker < length self.old.workers }
        ensures { Applies self.old self.new worker (event.LeaveWith answer) result }
    {
        self.leave(worker)
    }

    /// Checks whether the announcement of a worker may be read.
    pub(crate) fn may_scan(&self, worker: usize, other: u32) -> Result<(), Refused>
        requires { worker < length self.now.workers }
        ensures { Admits (refusal_of self.now worker (event.Scan other)) result }
    {
        if other >= self.layout.workers() {
            return Err(Refused::NoWorker);
        }
        if self.workers[worker].brief().seen.is_none() {
            return Err(Refused::NotReady);
        }
        Ok(())
    }

    pub(crate) fn scan(&mut self, worker: usize, other: u32) -> Reply
        requires { IsAdmitted self.old worker (event.Scan other) }
        ensures { Applies self.old self.new worker (event.Scan other) result }
    {
        let announcement = self.announcements[other as usize];
        self.workers[worker].scan(other as usize, announcement)
    }

    /// Checks whether the epoch may be advanced: the worker has found all others at its epoch, or
    /// idle.
    pub(crate) fn may_advance(&self, worker: usize) -> Result<(), Refused>
        requires { worker < length self.now.workers }
        ensures { Admits (refusal_of self.now worker event.Advance) result }
    {
        let brief = self.workers[worker].brief();
        let seen = brief.seen.ok_or(Refused::NotReady)?;
        if !self.workers[worker].has_scanned_others(worker) {
            return Err(Refused::NotReady);
        }
        if brief.pin.is_some_and(|pin| pin != seen) {
            return Err(Refused::NotReady);
        }
        if seen >= LAST_NUMBER {
            return Err(Refused::Spent);
        }
        Ok(())
    }

    pub(crate) fn advance(&mut self, worker: usize) -> Reply
        requires { IsAdmitted self.old worker event.Advance }
        ensures { Applies self.old self.new worker event.Advance result }
    {
        if self.workers[worker].brief().seen != Some(self.epoch) {
            self.workers[worker].moved(self.epoch);
            return Reply::Behind(self.epoch);
        }
        self.epoch += 1;
        self.workers[worker].moved(self.epoch);
        Reply::Moved(self.epoch)
    }
}
