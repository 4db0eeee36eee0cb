//! The step by which a worker resigns and another takes over its ledgers.
#![tactic(auto, unfolding(nm_model::specs::Learning::learn, nm_model::specs::Step::write, nm_model::specs::Runs::applied))]

ghost use Rattle.std.specs.Prelude.{◌≡◌, ◌<◌};
ghost use Rattle.nm_model.specs.declared.event.Event.TheVariants as event;
ghost use Rattle.nm_model.specs.Runs.{is_no_worker, refusal_of};
ghost use Rattle.nm_model.specs.Answers.{IsShaped};
ghost use Rattle.nm_core.specs.Admission.{Admits, IsAdmitted, AppliesOrKeeps};

use crate::machine::Machine;
use nm_model::ledgers::Ledgers;
use nm_model::reply::{Refused, Reply};
use std::alloc::AllocError;

impl Machine {
    /// Returns whether the worker does not exist, or has resigned.
    pub(crate) fn is_no_worker(&self, worker: u32) -> bool
        requires { IsShaped self.now }
        ensures { result ≡ is_no_worker self.now worker }
    {
        worker >= self.layout.workers() || self.workers[worker as usize].is_gone()
    }

    /// Checks whether `leaver` may pass its ledgers to `worker`.
    pub(crate) fn may_join(&self, worker: u32, leaver: u32) -> Result<(), Refused>
        requires { IsShaped self.now }
        ensures { Admits (refusal_of self.now worker (event.Join leaver)) result }
    {
        if leaver == worker || self.is_no_worker(leaver) {
            return Err(Refused::NoWorker);
        }
        let knowledge = &self.workers[leaver as usize];
        if knowledge.has_private() || knowledge.brief().unlabelled {
            return Err(Refused::NotReady);
        }
        Ok(())
    }

    pub(crate) fn join(&mut self, worker: u32, leaver: u32) -> Result<Reply, AllocError>
        requires { IsAdmitted self.old worker (event.Join leaver) }
        ensures { AppliesOrKeeps self.old self.new worker (event.Join leaver) result }
    {
        let heir = worker as usize;
        let leaver = leaver as usize;
        let told = self.workers[leaver].ledgers_in(self.alloc)?;
        let none = Ledgers::none(self.alloc, self.workers.len())?;
        let passed = self.workers[leaver].resign(none);
        self.workers[heir].inherit(passed);
        Ok(Reply::Joined(told))
    }
}
